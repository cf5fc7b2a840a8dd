//! Why the rules of a definition do not fit a call.
ghost use Rattle.std.specs.Prelude.{◌≡◌, Err, IfErr, IfOk, None, false, is_some, length, map};
ghost use Rattle.std.specs.Prelude.{option_map};
ghost use Rattle.std.specs.List.{list_any};
ghost use Rattle.tt.specs.Views.{forest};
ghost use Rattle.tt_data.specs.declared.span.Span.{Span};
ghost use Rattle.tt_data.specs.fault.TtFault.TheVariants.{Tokens};
ghost use Rattle.mbe_rules.specs.Items.{has_empty_round};
ghost use Rattle.mbe_rules.specs.Ops.{items_of, rule_of};
ghost use Rattle.mbe.specs.Fit.{fit, rule_fit, same_style};
ghost use Rattle.mbe.specs.Macros.{rules_of};
ghost use Rattle.mbe.specs.mbe_transcriber.Markers.{is_name};
ghost use Rattle.mbe.specs.mbe_transcriber.Room.{IsWantOfRoom};
ghost use Rattle.mbe_explain.specs.Rules.{AreTold, HasTooMuch, IsNearest, IsRuleStop};
ghost use Rattle.mbe_explain.specs.Rules.{OneHasTooMuch};
ghost use Rattle.mbe_explain.specs.Rules.{ends_search, first_fitting, is_nearer, of_style};

use crate::explain::{Stop, StopKind, explain_pattern};
use bumpalo::Bump;
use mbe::{DeclarativeMacro, FragmentGrammar, MacroCallStyle, rule_result};
use mbe_rules::Rule;
use std::alloc::{AllocError, Global};
use tt::{Delimiter, Span, TokenTreesView, TtFault};

/// How a rule takes the argument of a call.
#[derive(Drop)]
pub struct RuleStop<'a> {
    /// The index of the rule among all rules of the definition.
    pub index: usize,
    /// Why the partial readings by its matcher stop, and where.
    pub stop: Stop<'a>,
    /// Whether the rule fits: its matcher matches, and its transcriber can be filled.
    pub fits: bool,
}

/// How the rules of a definition take the argument of a call.
#[derive(Drop)]
pub struct Explanation<'a> {
    /// One for each rule of the style, in order.
    pub rules: Vec<RuleStop<'a>>,
    /// Which of these is nearest to a match, by its place in `rules`: the first that does not stop
    /// as `Unread`, since rustc tries no rule after it; if there is none, the one that comes
    /// furthest in the argument, the first of equals. `None` if no rule has the style.
    pub nearest: Option<usize>,
}

// Whether a rule fits.
fn fits<G: FragmentGrammar>(
    alloc: Global,
    grammar: &G,
    rule: &Rule,
    argument: TokenTreesView<'_>,
) -> Result<bool, TtFault>
    requires { has_empty_round (items_of rule.now.pattern.items) ≡ false }
    ensures fits { (mark : Span → Span) → IfOk result (λ b. b ≡ is_some (rule_fit is_name
        (G.answer grammar.now) mark (rule_of rule.now) (forest argument.entry))) }
    ensures faults { IfErr result IsWantOfRoom }
    ensures tokens { result ≡ Err Tokens → HasTooMuch is_name
        (G.answer grammar.now) (forest argument.entry) (rule_of rule.now) }
{
    let marker = |span: Span|
        ensures { result ≡ span }
    { span };
    let top = Delimiter::invisible_spanned(Span::default());
    let given = rule_result(alloc, grammar, rule, argument, &marker, top)?;
    Ok(given.is_some())
}

// How the rule of this index takes an argument. Whether it fits is tried only if its matcher
// matches.
fn rule_stop<'a, G: FragmentGrammar>(
    alloc: Global,
    arena: &'a Bump,
    grammar: &G,
    index: usize,
    rule: &'a Rule,
    argument: TokenTreesView<'a>,
) -> Result<RuleStop<'a>, TtFault>
    requires { has_empty_round (items_of rule.now.pattern.items) ≡ false }
    ensures told { IfOk result (IsRuleStop is_name (G.answer grammar.now) (forest argument.entry)
        index (rule_of rule.now)) }
    ensures faults { IfErr result IsWantOfRoom }
    ensures tokens { result ≡ Err Tokens → HasTooMuch is_name
        (G.answer grammar.now) (forest argument.entry) (rule_of rule.now) }
{
    let stop = explain_pattern(alloc, arena, grammar, &rule.pattern, argument)?;
    let fits = stop.kind == StopKind::Matches && fits(alloc, grammar, rule, argument)?;
    Ok(RuleStop { index, stop, fits })
}

// How the rules of a style take an argument.
fn rule_stops<'a, G: FragmentGrammar>(
    alloc: Global,
    arena: &'a Bump,
    grammar: &G,
    rules: &'a [Rule],
    argument: TokenTreesView<'a>,
    style: MacroCallStyle,
) -> Result<Vec<RuleStop<'a>>, TtFault>
    requires { list_any (λ r. has_empty_round r.pattern) (map rule_of rules.now) ≡ false }
    ensures told { IfOk result (λ told. AreTold is_name (G.answer grammar.now)
        (forest argument.entry) (of_style style 0 (map rule_of rules.now)) told.items) }
    ensures faults { IfErr result IsWantOfRoom }
    ensures tokens { result ≡ Err Tokens → OneHasTooMuch is_name
        (G.answer grammar.now) (forest argument.entry) style (map rule_of rules.now) }
{
    let mut told = Vec::new(alloc);
    for (index, rule) in rules.iter().enumerate() {
        if rule.style == style {
            let stop = rule_stop(alloc, arena, grammar, index, rule, argument)?;
            told.push(stop).map_err(AllocError::from)?;
        }
    }
    Ok(told)
}

// Whether rustc tries no rule after one that stops so.
fn ends_search(kind: StopKind) -> bool
    ensures { result ≡ ends_search kind }
{
    match kind {
        StopKind::Unread => false,
        StopKind::Matches | StopKind::Ambiguous | StopKind::TwoReadings => true,
    }
}

// Whether one rule is nearer to a match than another.
fn is_nearer(one: &RuleStop<'_>, other: &RuleStop<'_>) -> bool
    ensures { result ≡ is_nearer one.now other.now }
{
    if ends_search(other.stop.kind) {
        return false;
    }
    ends_search(one.stop.kind) || one.stop.left < other.stop.left
}

// The place of the one that is nearest to a match, the first of equals.
fn nearest(told: &[RuleStop<'_>]) -> Option<usize>
    ensures { IsNearest told.now result }
{
    if told.is_empty() {
        return None;
    }
    let mut best = 0;
    for i in 1..told.len() {
        if is_nearer(&told[i], &told[best]) {
            best = i;
        }
    }
    Some(best)
}

/// How the rules of a definition that have this style take the argument of a call: where and why
/// the partial readings of each stop, and which of them is nearest to a match.
///
/// The definition has no fault: `err()` is `None`.
///
/// # Errors
///
/// `Memory`; or `Tokens` if a rule of the style whose matcher matches puts out more than
/// `u32::MAX` tokens, be it before a fault.
pub fn explain_call<'a, G: FragmentGrammar>(
    alloc: Global,
    arena: &'a Bump,
    grammar: &G,
    definition: &'a DeclarativeMacro,
    argument: TokenTreesView<'a>,
    style: MacroCallStyle,
) -> Result<Explanation<'a>, TtFault>
    requires { (rules_of definition.now).err ≡ None }

    // One for each rule of the style, in order.
    ensures told { IfOk result (λ e. AreTold is_name (G.answer grammar.now)
        (forest argument.entry) (of_style style 0 (rules_of definition.now).list) e.rules.items) }

    // The first of them that fits is the rule that a call takes, whatever spans its transcriber's
    // tokens get; and if none fits, no rule fits a call.
    ensures fit { (mark : Span → Span) → IfOk result (λ e. first_fitting e.rules.items
        ≡ option_map (λ r. r.0) (fit is_name (G.answer grammar.now) mark
        (rules_of definition.now).list style (forest argument.entry))) }
    ensures nearest { IfOk result (λ e. IsNearest e.rules.items e.nearest) }
    ensures faults { IfErr result IsWantOfRoom }
    ensures tokens { result ≡ Err Tokens → OneHasTooMuch is_name
        (G.answer grammar.now) (forest argument.entry) style (rules_of definition.now).list }
{
    let rules = rule_stops(alloc, arena, grammar, definition.rules(), argument, style)?;
    let nearest = nearest(&rules);
    Ok(Explanation { rules, nearest })
}

//! Selects the first rule that fits a call, and transcribes it.
ghost use Rattle.std.specs.Prelude.{◌≡◌, ◌<◌, ◌-◌, true, false, length, map, option_map, Err};
ghost use Rattle.std.specs.Prelude.{IfErr, IfOk, IfSome};
ghost use Rattle.std.specs.List.{list_any};
ghost use Rattle.tt.specs.Views.{forest};
ghost use Rattle.mbe_rules.specs.Items.{has_empty_round};
ghost use Rattle.mbe_rules.specs.Ops.{items_of, rule_of};
ghost use Rattle.mbe_transcriber.specs.mbe_matcher.Bound.{map_of};
ghost use Rattle.mbe_transcriber.specs.Filling.{filled};
ghost use Rattle.mbe.specs.Keys.{first_key, keys_of, name_key};
ghost use Rattle.mbe.specs.Fit as spec;
ghost use Rattle.mbe_transcriber.specs.Limits.{most_rounds};
ghost use Rattle.mbe.specs.Answers.{within};
ghost use Rattle.mbe_transcriber.specs.Markers.{IsMarkedBy, is_name};
ghost use Rattle.mbe.specs.Bursts.{bursts, rule_bursts, template_bursts};
ghost use Rattle.mbe.specs.PutOut.{left_of, put_out, rule_output, template_output};
ghost use Rattle.mbe_transcriber.specs.Output.{output};
ghost use Rattle.mbe_transcriber.specs.mbe_matcher.Readings.{the_reading};
ghost use Rattle.mbe_transcriber.specs.Room.{IsWantOfRoom};
ghost use Rattle.tt.specs.Building.{most_tokens};
ghost use Rattle.tt_data.specs.declared.span.Span.{Span};
ghost use Rattle.tt_data.specs.fault.TtFault.TheVariants.{Tokens};

use crate::rule_index::{is_passed, name_key};
use bumpalo::Bump;
use mbe_rules::{MacroCallStyle, Op, Rule};
use mbe_transcriber::mbe_matcher::fragment_grammar::FragmentGrammar;
use mbe_transcriber::mbe_matcher::{Bindings, bindings_of, match_pattern};
use mbe_transcriber::{Transcribed, fill_within};
use std::alloc::Global;
use tt::{Delimiter, Span, TokenTreesView, TopSubtree, TopSubtreeBuilder, TtFault};

// How many tokens a result has room for at first.
const USUAL_TOKENS: usize = 32;

/// Inside which delimiters a result comes, and how many tokens rules may put out for it.
#[derive(Clone, Copy)]
pub struct Bounds {
    pub top: Delimiter,
    /// `None`: any number.
    pub most: Option<usize>,
}

/// What comes of rules that were tried.
#[derive(Drop)]
pub struct Tried<T> {
    /// What the first rule that fits gives. `None` if none fits.
    pub given: Option<T>,
    /// How many tokens more may be put out. `None`: any number.
    pub left: Option<usize>,
}

// What is left of a limit, where no more tokens than it allows were put out.
fn left_behind(most: Option<usize>, put_out: usize) -> Option<usize>
    ensures { result ≡ option_map (λ m. m - put_out) most }
{
    match most {
        None => None,
        Some(most) => Some(most.saturating_sub(put_out)),
    }
}

// The tree that a transcriber gives with these bindings, if it has no fault. `None` if it puts out
// too many tokens.
fn filled<M: Fn(Span) -> Span>(
    alloc: Global,
    template: &[Op],
    bindings: &Bindings<'_>,
    marker: &M,
    bounds: Bounds,
) -> Result<Option<Tried<TopSubtree>>, TtFault>
    requires { M.IsAlwaysCallable marker.now }
    ensures tree { (mark : Span → Span) → IsMarkedBy (M.post marker.now) mark →
        IfOk result (λ o. IfSome o (λ t. t.given ≡ option_map (within bounds.top)
        (filled is_name most_rounds mark (map_of bindings.now) (items_of template.now)))) }
    ensures left { (mark : Span → Span) → IsMarkedBy (M.post marker.now) mark →
        IfOk result (λ o. option_map (λ t. t.left) o ≡ left_of bounds.most (output is_name
        most_rounds mark (map_of bindings.now) (items_of template.now))) }
    ensures faults { IfErr result IsWantOfRoom }
    ensures tokens { (mark : Span → Span) → IsMarkedBy (M.post marker.now) mark → result
        ≡ Err Tokens →
        most_tokens < output is_name most_rounds mark (map_of bindings.now)
        (items_of template.now) }
{
    let mut out = TopSubtreeBuilder::with_room(alloc, bounds.top, USUAL_TOKENS)?;
    let most = bounds.most.unwrap_or(usize::MAX);
    let ended = fill_within(&mut out, template, bindings, marker, most)?;
    let left = left_behind(bounds.most, out.len());
    match ended {
        Transcribed::Whole => match out.build() {
            Ok(tree) => Ok(Some(Tried {
                given: Some(tree),
                left,
            })),
            // A group is open, which a marker that is a function rules out.
            Err(_) => Ok(Some(Tried { given: None, left })),
        },
        Transcribed::Fault => Ok(Some(Tried { given: None, left })),
        Transcribed::Passed if bounds.most.is_some() => Ok(None),
        // More tokens than a number counts are too many for a tree.
        Transcribed::Passed => Err(TtFault::Tokens),
    }
}

// How many bytes an arena has room for at first.
const USUAL_ROOM: usize = 960;

// What comes of a rule that puts out nothing, since it does not match.
fn unfit(bounds: Bounds) -> Tried<TopSubtree>
    ensures { result ≡ record { given = None; left = bounds.most } }
{
    Tried {
        given: None,
        left: bounds.most,
    }
}

// What one rule gives for an argument within bounds, whatever its style. `None` if it puts out too
// many tokens.
fn rule_within<G: FragmentGrammar, M: Fn(Span) -> Span>(
    alloc: Global,
    grammar: &G,
    rule: &Rule,
    argument: TokenTreesView<'_>,
    marker: &M,
    bounds: Bounds,
) -> Result<Option<Tried<TopSubtree>>, TtFault>
    requires pattern { has_empty_round (items_of rule.now.pattern.items) ≡ false }
    requires marker { M.IsAlwaysCallable marker.now }
    ensures tree { (mark : Span → Span) → IsMarkedBy (M.post marker.now) mark →
        IfOk result (λ o. IfSome o (λ t. t.given ≡ option_map (within bounds.top) (spec.rule_fit
        is_name (G.answer grammar.now) mark (rule_of rule.now) (forest argument.entry)))) }
    ensures left { (mark : Span → Span) → IsMarkedBy (M.post marker.now) mark →
        IfOk result (λ o. option_map (λ t. t.left) o ≡ left_of bounds.most (template_output is_name
        (G.answer grammar.now) mark (rule_of rule.now) (the_reading (G.answer grammar.now)
        (items_of rule.now.pattern.items) (forest argument.entry)))) }
    ensures faults { IfErr result IsWantOfRoom }
    ensures tokens { (mark : Span → Span) → IsMarkedBy (M.post marker.now) mark →
        result ≡ Err Tokens → template_bursts is_name (G.answer grammar.now) mark
        (rule_of rule.now) (the_reading (G.answer grammar.now) (items_of rule.now.pattern.items)
        (forest argument.entry)) ≡ true }
{
    let arena = Bump::try_with_capacity(alloc, USUAL_ROOM)?;
    let Some(last) = match_pattern(alloc, &arena, grammar, &rule.pattern, argument)? else {
        return Ok(Some(unfit(bounds)));
    };
    let bindings = bindings_of(alloc, last)?;
    filled(alloc, &rule.template, &bindings, marker, bounds)
}

/// What one rule gives for an argument, inside the delimiters `top`, whatever its style. `None` if
/// it does not fit: its matcher does not match, or its transcriber cannot be filled.
///
/// No repetition of the matcher can iterate without end. `marker` gives the span of a
/// transcriber's token in the result, and may be called on every span.
///
/// # Errors
///
/// `Memory`; or `Tokens` if the transcriber puts out more than `u32::MAX` tokens, be it before a
/// fault.
pub fn rule_result<G: FragmentGrammar, M: Fn(Span) -> Span>(
    alloc: Global,
    grammar: &G,
    rule: &Rule,
    argument: TokenTreesView<'_>,
    marker: &M,
    top: Delimiter,
) -> Result<Option<TopSubtree>, TtFault>
    requires pattern { has_empty_round (items_of rule.now.pattern.items) ≡ false }
    requires marker { M.IsAlwaysCallable marker.now }
    ensures tree { (mark : Span → Span) → IsMarkedBy (M.post marker.now) mark →
        IfOk result (λ o. o ≡ option_map (within top) (spec.rule_fit is_name
        (G.answer grammar.now) mark (rule_of rule.now) (forest argument.entry))) }
    ensures faults { IfErr result IsWantOfRoom }
    ensures tokens { (mark : Span → Span) → IsMarkedBy (M.post marker.now) mark →
        result ≡ Err Tokens → template_bursts is_name (G.answer grammar.now) mark
        (rule_of rule.now) (the_reading (G.answer grammar.now) (items_of rule.now.pattern.items)
        (forest argument.entry)) ≡ true }
{
    let bounds = Bounds { top, most: None };
    match rule_within(alloc, grammar, rule, argument, marker, bounds)? {
        Some(tried) => Ok(tried.given),
        // No limit is passed where there is none.
        None => Ok(None),
    }
}

// The same for a rule of which most show by their first op that they do not fit. `key` and `name`
// are the keys of the identifiers that the matcher and the argument begin with.
fn rule_fit<G: FragmentGrammar, M: Fn(Span) -> Span>(
    alloc: Global,
    grammar: &G,
    rule: &Rule,
    key: Option<u32>,
    argument: TokenTreesView<'_>,
    name: Option<u32>,
    marker: &M,
    bounds: Bounds,
) -> Result<Option<Tried<TopSubtree>>, TtFault>
    requires pattern { has_empty_round (items_of rule.now.pattern.items) ≡ false }
    requires key { key ≡ first_key (items_of rule.now.pattern.items) }
    requires name { name ≡ name_key (forest argument) }
    requires marker { M.IsAlwaysCallable marker.now }
    ensures tree { (mark : Span → Span) → IsMarkedBy (M.post marker.now) mark →
        IfOk result (λ o. IfSome o (λ t. t.given ≡ option_map (within bounds.top) (spec.rule_fit
        is_name (G.answer grammar.now) mark (rule_of rule.now) (forest argument.entry)))) }
    ensures left { (mark : Span → Span) → IsMarkedBy (M.post marker.now) mark →
        IfOk result (λ o. option_map (λ t. t.left) o ≡ left_of bounds.most (template_output is_name
        (G.answer grammar.now) mark (rule_of rule.now) (the_reading (G.answer grammar.now)
        (items_of rule.now.pattern.items) (forest argument.entry)))) }
    ensures faults { IfErr result IsWantOfRoom }
    ensures tokens { (mark : Span → Span) → IsMarkedBy (M.post marker.now) mark → result
        ≡ Err Tokens →
        template_bursts is_name (G.answer grammar.now) mark (rule_of rule.now)
        (the_reading (G.answer grammar.now) (items_of rule.now.pattern.items)
        (forest argument.entry)) ≡ true }
{
    if is_passed(alloc, &rule.pattern, key, argument, name) {
        return Ok(Some(unfit(bounds)));
    }
    rule_within(alloc, grammar, rule, argument, marker, bounds)
}

// The same for a rule of this style. Another puts out nothing.
fn styled_fit<G: FragmentGrammar, M: Fn(Span) -> Span>(
    alloc: Global,
    grammar: &G,
    style: MacroCallStyle,
    rule: &Rule,
    key: Option<u32>,
    argument: TokenTreesView<'_>,
    name: Option<u32>,
    marker: &M,
    bounds: Bounds,
) -> Result<Option<Tried<TopSubtree>>, TtFault>
    requires pattern { has_empty_round (items_of rule.now.pattern.items) ≡ false }
    requires key { key ≡ first_key (items_of rule.now.pattern.items) }
    requires name { name ≡ name_key (forest argument) }
    requires marker { M.IsAlwaysCallable marker.now }
    ensures tree { (mark : Span → Span) → IsMarkedBy (M.post marker.now) mark →
        IfOk result (λ o. IfSome o (λ t. t.given ≡ option_map (within bounds.top) (spec.styled_fit
        is_name (G.answer grammar.now) mark style (rule_of rule.now)
        (forest argument.entry)))) }
    ensures left { (mark : Span → Span) → IsMarkedBy (M.post marker.now) mark →
        IfOk result (λ o. option_map (λ t. t.left) o ≡ left_of bounds.most (rule_output is_name
        (G.answer grammar.now) mark style (rule_of rule.now) (forest argument.entry))) }
    ensures faults { IfErr result IsWantOfRoom }
    ensures tokens { (mark : Span → Span) → IsMarkedBy (M.post marker.now) mark → result
        ≡ Err Tokens →
        rule_bursts is_name (G.answer grammar.now) mark style (rule_of rule.now)
        (forest argument.entry) ≡ true }
{
    if rule.style != style {
        return Ok(Some(unfit(bounds)));
    }
    rule_fit(alloc, grammar, rule, key, argument, name, marker, bounds)
}

/// The first of these rules that fits, by its index among them, and what it gives. `None` if the
/// rules up to it put out too many tokens.
pub(crate) fn first_fit<G: FragmentGrammar, M: Fn(Span) -> Span>(
    alloc: Global,
    grammar: &G,
    list: &[Rule],
    keys: &[Option<u32>],
    style: MacroCallStyle,
    argument: TokenTreesView<'_>,
    marker: &M,
    bounds: Bounds,
) -> Result<Option<Tried<(usize, TopSubtree)>>, TtFault>
    requires patterns { list_any (λ r. has_empty_round r.pattern) (map rule_of list.now) ≡ false }
    requires keys { keys.now ≡ keys_of (map rule_of list.now) }
    requires marker { M.IsAlwaysCallable marker.now }
    ensures fit { (mark : Span → Span) → IsMarkedBy (M.post marker.now) mark →
        IfOk result (λ o. IfSome o (λ t. t.given ≡ option_map (λ r. (r.0, within bounds.top r.1))
        (spec.fit is_name (G.answer grammar.now) mark (map rule_of list.now) style
        (forest argument.entry)))) }
    ensures left { (mark : Span → Span) → IsMarkedBy (M.post marker.now) mark →
        IfOk result (λ o. option_map (λ t. t.left) o ≡ left_of bounds.most (put_out is_name
        (G.answer grammar.now) mark (map rule_of list.now) style (forest argument.entry))) }
    ensures number { IfOk result (λ o. IfSome o (λ t. IfSome t.given (λ r.
        r.0 < length list.now))) }
    ensures faults { IfErr result IsWantOfRoom }
    ensures tokens { (mark : Span → Span) → IsMarkedBy (M.post marker.now) mark → result
        ≡ Err Tokens →
        bursts is_name (G.answer grammar.now) mark (map rule_of list.now) style
        (forest argument.entry) ≡ true }
{
    let name = name_key(argument);
    let mut left = bounds.most;
    for (number, rule) in list.iter().enumerate() {
        let bounds = Bounds {
            most: left,
            ..bounds
        };
        let key = keys[number];
        let tried = styled_fit(
            alloc, grammar, style, rule, key, argument, name, marker, bounds,
        )?;
        let Some(Tried { given, left: rest }) = tried else {
            return Ok(None);
        };
        left = rest;
        if let Some(tree) = given {
            return Ok(Some(Tried {
                given: Some((number, tree)),
                left,
            }));
        }
    }
    Ok(Some(Tried { given: None, left }))
}

//! The rule that is passed over because it is ambiguous.
ghost use Rattle.std.specs.Prelude.{◌≡◌, ◌&&◌, IfOk, false, map};
ghost use Rattle.std.specs.List.{list_any};
ghost use Rattle.tt.specs.Views.{forest};
ghost use Rattle.mbe_rules.specs.Items.{has_empty_round};
ghost use Rattle.mbe_rules.specs.Ops.{items_of, rule_of};
ghost use Rattle.mbe.specs.Fit.{same_style};
ghost use Rattle.rule_bindings.specs.Notes.{first_ambiguous, is_ambiguous};

use bumpalo::Bump;
use fragment_grammar::FragmentGrammar;
use mbe_explain::{StopKind, explain_pattern};
use mbe_rules::{MacroCallStyle, Rule};
use std::alloc::{AllocError, Global};
use tt::TokenTreesView;

// Whether a rule is ambiguous for an argument.
fn is_ambiguous<'a, G: FragmentGrammar>(
    alloc: Global,
    arena: &'a Bump,
    grammar: &G,
    rule: &'a Rule,
    argument: TokenTreesView<'a>,
) -> Result<bool, AllocError>
    requires { has_empty_round (items_of rule.now.pattern.items) ≡ false }
    ensures { IfOk result (λ b. b
        ≡ is_ambiguous (G.answer grammar.now) (forest argument.entry) (rule_of rule.now)) }
{
    let stop = explain_pattern(alloc, arena, grammar, &rule.pattern, argument)?;
    match stop.kind {
        StopKind::Matches => Ok(false),
        StopKind::Unread => Ok(false),
        StopKind::Ambiguous => Ok(true),
        StopKind::TwoReadings => Ok(true),
    }
}

// Whether a rule has this style.
fn has_style(rule: &Rule, style: MacroCallStyle) -> bool
    ensures { result ≡ same_style style rule.now.style }
{
    rule.style == style
}

// Whether a rule has this style and is ambiguous for an argument.
fn is_passed<'a, G: FragmentGrammar>(
    alloc: Global,
    arena: &'a Bump,
    grammar: &G,
    rule: &'a Rule,
    argument: TokenTreesView<'a>,
    style: MacroCallStyle,
) -> Result<bool, AllocError>
    requires { has_empty_round (items_of rule.now.pattern.items) ≡ false }
    ensures { IfOk result (λ b. b ≡ (same_style style (rule_of rule.now).style
        && is_ambiguous (G.answer grammar.now) (forest argument.entry) (rule_of rule.now))) }
{
    if !has_style(rule, style) {
        return Ok(false);
    }
    is_ambiguous(alloc, arena, grammar, rule, argument)
}

/// The number of the first of these rules that has a style and is ambiguous for an argument.
/// Numbers are from 0.
pub(crate) fn first_ambiguous<'a, G: FragmentGrammar>(
    alloc: Global,
    arena: &'a Bump,
    grammar: &G,
    rules: &'a [Rule],
    argument: TokenTreesView<'a>,
    style: MacroCallStyle,
) -> Result<Option<usize>, AllocError>
    requires { list_any (λ r. has_empty_round r.pattern) (map rule_of rules.now) ≡ false }
    ensures { IfOk result (λ o. o ≡ first_ambiguous (G.answer grammar.now)
        (forest argument.entry) style 0 (map rule_of rules.now)) }
{
    for (index, rule) in rules.iter().enumerate() {
        if is_passed(alloc, arena, grammar, rule, argument, style)? {
            return Ok(Some(index));
        }
    }
    Ok(None)
}

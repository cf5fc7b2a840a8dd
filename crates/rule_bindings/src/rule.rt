//! What the metavariables of a rule's matcher stand for in a call.
ghost use Rattle.std.specs.Prelude.{◌≡◌, IfOk, None, false, option_map};
ghost use Rattle.tt.specs.Views.{forest};
ghost use Rattle.mbe_rules.specs.Items.{has_empty_round};
ghost use Rattle.mbe_rules.specs.Ops.{items_of, rule_of};
ghost use Rattle.mbe_matcher.specs.Bound.{map_of};
ghost use Rattle.mbe.specs.Macros.{rules_of};
ghost use Rattle.rule_bindings.specs.BoundRules.{bound_by, bound_rule, bound_with};
ghost use Rattle.rule_bindings.specs.Given.{rule_given};

use crate::flatten::flatten;
use crate::notes::{BoundRule, Notes};
use crate::passed::first_ambiguous;
use crate::unbound::unbound_names;
use crate::walk::first_unequal;
use bumpalo::Bump;
use fragment_grammar::FragmentGrammar;
use mbe::DeclarativeMacro;
use mbe_matcher::{Bindings, bindings_of, match_pattern};
use mbe_rules::{Op, Rule};
use std::alloc::{AllocError, Global};
use tt::TokenTreesView;

// What is told of a rule with this transcriber, by the bindings of its metavariables.
fn bound_with<'a>(
    alloc: Global,
    bindings: &Bindings<'a>,
    template: &'a [Op],
    passed_over: Option<usize>,
) -> Result<BoundRule<'a>, AllocError>
    ensures { IfOk result (λ b. rule_given b
        ≡ bound_with passed_over (items_of template.now) (map_of bindings.now)) }
{
    let values = flatten(alloc, bindings)?;
    let unequal = first_unequal(alloc, bindings, template)?;
    let unbound = unbound_names(alloc, bindings, template)?;
    let notes = Notes {
        passed_over,
        unequal,
        unbound,
    };
    Ok(BoundRule { values, notes })
}

// What is told of a rule for an argument. `None` if its matcher does not match.
fn bound_rule<'a, G: FragmentGrammar>(
    alloc: Global,
    arena: &'a Bump,
    grammar: &G,
    rule: &'a Rule,
    argument: TokenTreesView<'a>,
    passed_over: Option<usize>,
) -> Result<Option<BoundRule<'a>>, AllocError>
    requires { has_empty_round (items_of rule.now.pattern.items) ≡ false }
    ensures { IfOk result (λ o. option_map rule_given o ≡ bound_rule (G.answer grammar.now)
        (forest argument.entry) passed_over (rule_of rule.now)) }
{
    let Some(last) = match_pattern(alloc, arena, grammar, &rule.pattern, argument)? else {
        return Ok(None);
    };
    let bindings = bindings_of(alloc, last)?;
    let bound = bound_with(alloc, &bindings, &rule.template, passed_over)?;
    Ok(Some(bound))
}

/// What the metavariables of the rule with this number, from 0, stand for in an argument, and where
/// rustc refuses a call that the rule gives something for. `None` if there is no such rule, or its
/// matcher does not match.
///
/// The definition has no fault: `err()` is `None`.
///
/// # Errors
///
/// `AllocError` if memory is refused.
pub fn bindings_by<'a, G: FragmentGrammar>(
    alloc: Global,
    arena: &'a Bump,
    grammar: &G,
    definition: &'a DeclarativeMacro,
    number: usize,
    argument: TokenTreesView<'a>,
) -> Result<Option<BoundRule<'a>>, AllocError>
    requires { (rules_of definition.now).err ≡ None }
    ensures { IfOk result (λ o. option_map rule_given o ≡ bound_by (G.answer grammar.now)
        (forest argument.entry) number (rules_of definition.now).list) }
{
    let rules = definition.rules();
    if number >= rules.len() {
        return Ok(None);
    }
    let rule = &rules[number];
    let (before, _) = rules.split_at(number);
    let passed_over = first_ambiguous(alloc, arena, grammar, before, argument, rule.style)?;
    bound_rule(alloc, arena, grammar, rule, argument, passed_over)
}

//! What is told of the rule that a call goes by.
ghost use Rattle.std.specs.Prelude.{◌≡◌, IfOk, Some, option_map};
ghost use Rattle.tt.specs.Views.{forest};
ghost use Rattle.mbe.specs.Macros.{rules_of};
ghost use Rattle.mbe_explain.specs.Words.{specifier};
ghost use Rattle.expander_trace.specs.Given.{given_in};
ghost use Rattle.rule_bindings.specs.Given.{rule_given};
ghost use Rattle.step_report.specs.Bound.{argument_in, bound_by, bound_in, piece_rules};
ghost use Rattle.step_report.specs.Bound.{told_number};

use bumpalo::Bump;
use expander_scope::macro_def::MacroDef;
use expander_trace::step::Attempt;
use mbe::{DeclarativeMacro, FragmentGrammar};
use mbe_rules::MetaVarKind;
use rule_bindings::{BoundRule, bindings_by};
use std::alloc::{AllocError, Global};
use tt::{TokenTreesView, TopSubtree, TtElement};
use tt_data::{Edition, Span};

/// How many bytes an arena has room for at first.
pub(crate) const USUAL_ROOM: usize = 960;

/// The fragment specifier of a kind.
pub(crate) fn specifier(kind: MetaVarKind) -> &'static str
    ensures { result.now ≡ specifier kind }
{
    match kind {
        MetaVarKind::Path => "path",
        MetaVarKind::Ty => "ty",
        MetaVarKind::Pat => "pat",
        MetaVarKind::PatParam => "pat_param",
        MetaVarKind::Stmt => "stmt",
        MetaVarKind::Block => "block",
        MetaVarKind::Meta => "meta",
        MetaVarKind::Item => "item",
        MetaVarKind::Vis => "vis",
        MetaVarKind::Expr => "expr",
        MetaVarKind::Expr2021 => "expr_2021",
        MetaVarKind::Ident => "ident",
        MetaVarKind::Tt => "tt",
        MetaVarKind::Lifetime => "lifetime",
        MetaVarKind::Literal => "literal",
    }
}

/// The number of an iteration, from 1, if that fits into 64 bits.
pub(crate) fn told_number(number: usize) -> usize
    ensures { result ≡ told_number number }
{
    number.saturating_add(1)
}

/// The rules of a definition, parsed from its tree.
pub(crate) fn rules_again(
    alloc: Global,
    edition: Edition,
    known: &MacroDef,
) -> Result<MacroDef, AllocError>
    ensures { IfOk result (λ k. Some (rules_of k.rules)
        ≡ piece_rules edition known.now.tree.inner) }
{
    match MacroDef::in_list(alloc, edition, &known.tree.iter(), Span::default()) {
        Ok(known) => Ok(known),
        Err(_) => Err(AllocError),
    }
}

// The argument of a call: the trees in its group.
fn argument(call: &TopSubtree) -> Option<TokenTreesView<'_>>
    ensures { option_map forest result ≡ argument_in call.now.inner }
{
    let mut trees = call.iter();
    while let Some(tree) = trees.next() {
        if let TtElement::Subtree(_, inner) = tree {
            return Some(inner.remaining());
        }
    }
    None
}

// What is told of the rule with this number, unless the definition has a fault.
fn bound_by<'a, G: FragmentGrammar>(
    alloc: Global,
    arena: &'a Bump,
    grammar: &G,
    rules: &'a DeclarativeMacro,
    number: u32,
    argument: TokenTreesView<'a>,
) -> Result<Option<BoundRule<'a>>, AllocError>
    ensures { IfOk result (λ o. option_map rule_given o
        ≡ bound_by (G.answer grammar.now) (rules_of rules.now) number (forest argument.entry)) }
{
    if rules.err().is_some() {
        return Ok(None);
    }
    bindings_by(alloc, arena, grammar, rules, number as usize, argument)
}

/// What is told of the rule that gives something for a call, by the rules of the call's
/// definition. `None` if none does.
pub(crate) fn bound_in<'a, G: FragmentGrammar>(
    alloc: Global,
    arena: &'a Bump,
    grammar: &G,
    rules: &'a DeclarativeMacro,
    attempt: &'a Attempt,
) -> Result<Option<BoundRule<'a>>, AllocError>
    ensures { IfOk result (λ o. option_map rule_given o
        ≡ bound_in (G.answer grammar.now) (rules_of rules.now) attempt.now.call.inner
        (given_in attempt.now.given)) }
{
    let Ok(given) = &attempt.given else {
        return Ok(None);
    };
    match argument(&attempt.call) {
        Some(argument) => bound_by(alloc, arena, grammar, rules, given.rule, argument),
        None => Ok(None),
    }
}

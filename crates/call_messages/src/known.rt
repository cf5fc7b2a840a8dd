//! The definition that is taken for a call of a text, and how its rules take the argument.
ghost use Rattle.std.specs.Prelude.{◌≡◌, IfOk, IfSome, None};
ghost use Rattle.mbe_explain.specs.mbe.Macros.{rules_of};
ghost use Rattle.call_messages.specs.Knowns.{IsExplained};

use crate::search::{call_of, definition_before};
use bumpalo::Bump;
use expander_model::call::Call;
use expander_model::definition::Definition;
use mbe_explain::mbe::{DeclarativeMacro, FragmentGrammar, MacroCallStyle};
use mbe_explain::{Explanation, explain_call};
use std::alloc::Global;
use tt::{TopSubtree, TtIter};
use tt_data::{Delimiter, Edition, Span, SyntaxContext, TtFault};

/// A call in a text, and the definition that is taken for it.
#[derive(Drop)]
pub struct Known<'a> {
    pub call: Call<'a>,
    pub definition: Definition<'a>,
    /// The macro of the definition.
    pub rules: DeclarativeMacro,
}

// The trees of a list, in no brackets.
fn tree_of(alloc: Global, trees: &TtIter<'_>, place: Span) -> Result<TopSubtree, TtFault> {
    TopSubtree::from_token_trees(
        alloc,
        Delimiter::invisible_spanned(place),
        trees.remaining(),
    )
}

// The macro that a definition defines.
fn macro_of(
    alloc: Global,
    definition: &Definition<'_>,
    edition: Edition,
) -> Result<DeclarativeMacro, TtFault> {
    let place = definition.name.span;
    let body = tree_of(alloc, &definition.body, place)?;
    let at = move |_context: SyntaxContext|
        ensures { result ≡ edition }
    { edition };
    if !definition.is_macro {
        return DeclarativeMacro::parse_macro_rules(alloc, &body, at);
    }
    let Some(arguments) = &definition.arguments else {
        return DeclarativeMacro::parse_macro2(alloc, None, &body, at);
    };
    let arguments = tree_of(alloc, arguments, place)?;
    DeclarativeMacro::parse_macro2(alloc, Some(&arguments), &body, at)
}

/// The call whose name begins at this byte, and the last definition of its name before it, in the
/// innermost list around it that has one. `None` if there is no such call or definition, or the
/// definition is broken.
///
/// # Errors
///
/// `Memory`; or `Tokens` if the definition has too many tokens.
pub fn known_at<'a>(
    alloc: Global,
    edition: Edition,
    trees: &TtIter<'a>,
    at: u32,
) -> Result<Option<Known<'a>>, TtFault>
    ensures { IfOk result (λ o. IfSome o (λ known. (rules_of known.rules).err ≡ None)) }
{
    let Some(call) = call_of(trees, at) else {
        return Ok(None);
    };
    let Some(definition) = definition_before(trees, at, call.name.sym.as_str()) else {
        return Ok(None);
    };
    let rules = macro_of(alloc, &definition, edition)?;
    if rules.err().is_some() {
        return Ok(None);
    }
    Ok(Some(Known {
        call,
        definition,
        rules,
    }))
}

/// How the rules of its definition take the argument of a call: where each stops, and which is
/// nearest to a match. The definition has no fault.
///
/// # Errors
///
/// `Memory`; or `Tokens` if what a rule gives has too many tokens.
pub fn explain_known<'a, G: FragmentGrammar>(
    alloc: Global,
    arena: &'a Bump,
    grammar: &G,
    known: &'a Known<'_>,
) -> Result<Explanation<'a>, TtFault>
    requires { (rules_of known.now.rules).err ≡ None }
    ensures { IfOk result (IsExplained (G.answer grammar.now) (rules_of known.now.rules).list
        known.now.call.argument) }
{
    let argument = known.call.argument.remaining();
    let style = MacroCallStyle::FnLike;
    explain_call(alloc, arena, grammar, &known.rules, argument, style)
}

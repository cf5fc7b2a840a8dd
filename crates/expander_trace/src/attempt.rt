//! What comes of one call of a definition.
ghost use Rattle.std.specs.Prelude.{◌≡◌, ◌<◌, ℕ, IfOk, IfSome, IsOkUnless, None, Some};
ghost use Rattle.std.specs.Prelude.{Err, OnOk, is_some, nat_lt, not, option_map, suc, true};
ghost use Rattle.mbe.specs.Bursts as made_by;
ghost use Rattle.mbe.specs.Fit as spec;
ghost use Rattle.mbe.specs.Macros.{rules_of};
ghost use Rattle.mbe.specs.Markers.{is_name};
ghost use Rattle.mbe.specs.PutOut as output;
ghost use Rattle.mbe_rules.specs.declared.macro_call_style.MacroCallStyle.TheVariants as style;
ghost use Rattle.tt_data.specs.declared.edition.Edition.{Edition};
ghost use Rattle.tt_data.specs.declared.span.Span.{Span};
ghost use Rattle.tt_data.specs.fault.TtFault.TheVariants.{Memory};
ghost use Rattle.expander_model.specs.World.{made};
ghost use Rattle.expander_scope.specs.Editions.{IsRead};
ghost use Rattle.expander_scope.specs.Outcomes.{numbered_of_known};
ghost use Rattle.expander_trace.specs.Given.{given_in};
ghost use Rattle.expander_trace.specs.Passing.{numbered_by};
ghost use Rattle.expander_trace.specs.Steps.{fitted, given_at, rewrites, spent_at};
ghost use Rattle.expander_trace.specs.Trying.{tree_in};

use crate::step::Given;
use crate::tracing::Tracing;
use expander_model::fault::FaultKind;
use expander_scope::macro_def::MacroDef;
use mbe::{Bounds, DeclarativeMacro, FragmentGrammar, MacroCallStyle, Tried};
use std::alloc::Global;
use std::rc::Rc;
use tt::{TopSubtree, TtIter};
use tt_data::{Delimiter, Span, SyntaxContext, TtFault};

/// What comes of a call.
#[derive(Drop)]
pub(crate) struct Tokens {
    /// How many tokens rules put out for it.
    pub(crate) spent: usize,
    /// What the first rule that fits gives, or the fault for which the call stays.
    pub(crate) given: Result<Given, FaultKind>,
}

// What the first rule that fits gives, in invisible delimiters with the span `place`, with its
// number, and how many of these tokens are left. The tokens that the transcriber wrote are marked
// as synthesized. `None` if rules put out more. Out of memory is its only error.
fn fit<G: FragmentGrammar>(
    alloc: Global,
    grammar: &G,
    rules: &DeclarativeMacro,
    argument: &TtIter<'_>,
    place: Span,
    most: u32,
) -> Result<Option<Tried<(u32, TopSubtree)>>, TtFault>
    requires { (rules_of rules.now).err ≡ None }
    ensures given { IfOk result (λ o. IfSome o (λ t. option_map tree_in t.given
        ≡ spec.fit is_name (G.answer grammar.now) made (rules_of rules.now).list style.FnLike
        argument.now)) }
    ensures left { IfOk result (λ o. option_map (λ t. t.left) o ≡ output.left_of (Some most)
        (output.put_out is_name (G.answer grammar.now) made (rules_of rules.now).list style.FnLike
        argument.now)) }
    ensures memory { IsOkUnless result Memory }
{
    let mark = |span: Span|
        ensures { result ≡ made span }
    {
        Span {
            ctx: SyntaxContext::Made,
            ..span
        }
    };
    let bounds = Bounds {
        top: Delimiter::invisible_spanned(place),
        most: Some(most as usize),
    };
    let argument = argument.remaining();
    let style = MacroCallStyle::FnLike;
    match rules.fit_within(alloc, grammar, argument, &mark, style, bounds) {
        Ok(tried) => Ok(tried),
        Err(TtFault::Tokens) => Ok(None),
        Err(_) => Err(TtFault::Memory),
    }
}

// How many tokens were put out, if so many were allowed, and so many are left.
fn put_out(most: u32, left: Option<usize>) -> usize
    ensures { (n : ℕ) → output.left_of (Some most) n ≡ Some left → result ≡ n }
{
    match left {
        None => 0,
        Some(left) => (most as usize).saturating_sub(left),
    }
}

// What a call gives that was tried. Out of memory is its only error.
fn given_by(
    alloc: Global,
    given: Option<(u32, TopSubtree)>,
) -> Result<Result<Given, FaultKind>, TtFault>
    ensures given { (n : ℕ) →
        IfOk result (λ r. given_in r ≡ fitted (suc n) (option_map tree_in given)) }
    ensures memory { IsOkUnless result Memory }
{
    let Some((rule, tree)) = given else {
        return Ok(Err(FaultKind::CannotExpand));
    };
    match Rc::new(alloc, tree) {
        Ok(tree) => Ok(Ok(Given { rule, tree })),
        Err(_) => Err(TtFault::Memory),
    }
}

/// What comes of a call of this definition with this argument, at this place. `None` if rules put
/// out more tokens than `most` for it. Out of memory is its only error.
pub(crate) fn answer_of<G: FragmentGrammar>(
    by: &Tracing<'_, G>,
    known: &MacroDef,
    argument: &TtIter<'_>,
    place: Span,
    most: u32,
) -> Result<Option<Tokens>, TtFault>
    ensures given { (edition : Edition) → IsRead edition known.now →
        IfOk result (λ o. IfSome o (λ a. given_in a.given
        ≡ given_at (numbered_by (rewrites (G.answer by.now.grammar.now) edition))
        (numbered_of_known known.now) by.now.depth argument.now)) }
    ensures spent { (edition : Edition) → IsRead edition known.now →
        IfOk result (λ o. IfSome o (λ a. a.spent
        ≡ spent_at (numbered_by (rewrites (G.answer by.now.grammar.now) edition))
        (numbered_of_known known.now) by.now.depth argument.now)) }
    ensures fits { (edition : Edition) → IsRead edition known.now →
        IfOk result (λ o. is_some o ≡ not (nat_lt most
        (spent_at (numbered_by (rewrites (G.answer by.now.grammar.now) edition))
        (numbered_of_known known.now) by.now.depth argument.now))) }
    ensures deep { IfOk result (λ o. IfSome o (λ a. OnOk a.given (0 < by.now.depth))) }
    ensures memory { IsOkUnless result Memory }
{
    if known.rules.err().is_some() {
        let given = Err(FaultKind::BrokenDefinition);
        return Ok(Some(Tokens { spent: 0, given }));
    }
    if by.depth == 0 {
        let given = Err(FaultKind::RecursionLimit);
        return Ok(Some(Tokens { spent: 0, given }));
    }
    let tried = fit(by.alloc, by.grammar, &known.rules, argument, place, most)?;
    let Some(Tried { given, left }) = tried else {
        return Ok(None);
    };
    let spent = put_out(most, left);
    let given = given_by(by.alloc, given)?;
    Ok(Some(Tokens { spent, given }))
}

//! What a call of a definition gives, within limits.
ghost use Rattle.std.specs.Prelude.{◌≡◌, ◌-◌, ◌<◌, ℕ, true, IfOk, IfSome, OnOk, Option, Some};
ghost use Rattle.std.specs.Prelude.{None, Err, is_some, option_map};
ghost use Rattle.expander_model.specs.mbe.Bursts as made_by;
ghost use Rattle.expander_model.specs.mbe.Macros.{rules_of};
ghost use Rattle.expander_model.specs.mbe.Markers.{is_name};
ghost use Rattle.expander_model.specs.mbe.PutOut as output;
ghost use Rattle.mbe_rules.specs.declared.macro_call_style.MacroCallStyle.TheVariants as style;
ghost use Rattle.tt_data.specs.declared.edition.Edition.{Edition};
ghost use Rattle.tt_data.specs.declared.span.Span.{Span};
ghost use Rattle.expander_model.specs.Calls.{marked};
ghost use Rattle.expander_model.specs.Held.{numbered_world};
ghost use Rattle.expander_model.specs.Limits.{calls_of, sized};
ghost use Rattle.expander_model.specs.World.{fit_of, made, world};
ghost use Rattle.expander_scope.specs.Editions.{IsRead};
ghost use Rattle.expander_scope.specs.Expanding.{answer, makes_too_many, trees_of, trial};
ghost use Rattle.expander_scope.specs.Spending.{left_behind};
ghost use Rattle.expander_scope.specs.Outcomes.{numbered_of_known};

use crate::environment::Environment;
use crate::macro_def::MacroDef;
use expander_model::fault::FaultKind;
use expander_model::limits::Limits;
use expander_model::mbe::{Bounds, DeclarativeMacro, FragmentGrammar, MacroCallStyle, Tried};
use std::alloc::Global;
use tt::{TopSubtree, TtIter};
use tt_data::{Delimiter, Span, SyntaxContext, TtFault};

// What comes of a call, and what is left of the limits behind it.
#[derive(Drop)]
pub(crate) struct Counted<T> {
    pub(crate) given: T,
    pub(crate) left: Option<Limits>,
}

// How many tokens rules may put out.
pub(crate) fn most_tokens(limits: Option<Limits>) -> Option<usize>
    ensures { result ≡ option_map (λ l. l.tokens) limits }
{
    match limits {
        None => None,
        Some(limits) => Some(limits.tokens),
    }
}

// What a rule gives, without its number.
pub(crate) fn without_number(given: Option<(u32, TopSubtree)>) -> Option<TopSubtree>
    ensures { result ≡ option_map (λ r. r.1) given }
{
    match given {
        None => None,
        Some((_, tree)) => Some(tree),
    }
}

// For how many calls one counts that gives this or nothing.
pub(crate) fn calls_of(given: &Option<TopSubtree>) -> usize
    ensures { result ≡ calls_of (option_map (λ t. t.inner) given.now) }
{
    match given {
        None => 0,
        Some(_) => 1,
    }
}

// What is left of limits behind so many calls, where so many tokens are left. `None` if there are
// too many calls.
pub(crate) fn charge(
    limits: Option<Limits>,
    calls: usize,
    tokens: Option<usize>,
) -> Option<Option<Limits>>
    ensures { (n : ℕ) → output.left_of (option_map (λ l. l.tokens) limits) n ≡ Some tokens →
        result ≡ left_behind limits (sized calls n) }
{
    let Some(limits) = limits else {
        return Some(None);
    };
    let Some(tokens) = tokens else {
        return Some(None);
    };
    if limits.calls < calls {
        return None;
    }
    Some(Some(Limits {
        calls: limits.calls - calls,
        tokens,
    }))
}

// Transcribes the first rule that fits the argument, in invisible delimiters with the span
// `place`. The tokens that the transcriber wrote are marked as synthesized. Nothing is given if no
// rule fits. `None` if a limit is passed.
pub(crate) fn fit<G: FragmentGrammar>(
    alloc: Global,
    grammar: &G,
    rules: &DeclarativeMacro,
    argument: &TtIter<'_>,
    place: Span,
    limits: Option<Limits>,
) -> Result<Option<Counted<Option<TopSubtree>>>, TtFault>
    requires { (rules_of rules.now).err ≡ None }
    ensures fit { IfOk result (λ o. IfSome o (λ a. option_map (λ t. t.inner) a.given
        ≡ fit_of (G.answer grammar.now) (rules_of rules.now) argument.now)) }
    ensures left { IfOk result (λ o. option_map (λ a. a.left) o ≡ left_behind limits
        (sized (calls_of (fit_of (G.answer grammar.now) (rules_of rules.now) argument.now))
        (output.put_out is_name (G.answer grammar.now) made (rules_of rules.now).list style.FnLike
        argument.now))) }
    ensures tokens { result ≡ Err TtFault.Tokens →
        made_by.bursts is_name (G.answer grammar.now) made (rules_of rules.now).list style.FnLike
        argument.now ≡ true }
{
    let mark = |span: Span|
        ensures { result ≡ made span }
    {
        Span {
            ctx: SyntaxContext::Made,
            ..span
        }
    };
    let top = Delimiter::invisible_spanned(place);
    let bounds = Bounds {
        top,
        most: most_tokens(limits),
    };
    let argument = argument.remaining();
    let style = MacroCallStyle::FnLike;
    let tried = rules.fit_within(alloc, grammar, argument, &mark, style, bounds)?;
    let Some(Tried { given, left }) = tried else {
        return Ok(None);
    };
    let given = without_number(given);
    let Some(left) = charge(limits, calls_of(&given), left) else {
        return Ok(None);
    };
    Ok(Some(Counted { given, left }))
}

// The result of a call of this definition. Or the fault for which the call stays: the definition
// is invalid, no level is left, or no rule fits. `None` if a limit is passed.
pub(crate) fn answer<G: FragmentGrammar>(
    env: &Environment<'_, G>,
    known: &MacroDef,
    argument: &TtIter<'_>,
    place: Span,
    limits: Option<Limits>,
) -> Result<Option<Counted<Result<TopSubtree, FaultKind>>>, TtFault>
    ensures given { (edition : Edition) → IsRead edition known.now →
        IfOk result (λ o. IfSome o (λ a. trees_of a.given
        ≡ answer (numbered_world (world (G.answer env.now.grammar.now) edition env.now.dialect.now))
        (numbered_of_known known.now) env.now.depth argument.now)) }
    ensures left { (edition : Edition) → IsRead edition known.now →
        IfOk result (λ o. option_map (λ a. a.left) o ≡ left_behind limits
        (trial (numbered_world (world (G.answer env.now.grammar.now) edition env.now.dialect.now))
        (numbered_of_known known.now) env.now.depth argument.now)) }
    ensures deep { IfOk result (λ o. IfSome o (λ a. OnOk a.given (0 < env.now.depth))) }
    ensures tokens { (edition : Edition) → IsRead edition known.now → result ≡ Err TtFault.Tokens →
        makes_too_many
        (numbered_world (world (G.answer env.now.grammar.now) edition env.now.dialect.now))
        (numbered_of_known known.now) env.now.depth argument.now ≡ true }
{
    if known.rules.err().is_some() {
        let given = Err(FaultKind::BrokenDefinition);
        return Ok(Some(Counted {
            given,
            left: limits,
        }));
    }
    if env.depth == 0 {
        let given = Err(FaultKind::RecursionLimit);
        return Ok(Some(Counted {
            given,
            left: limits,
        }));
    }
    let rules = &known.rules;
    let tried = fit(env.alloc, env.grammar, rules, argument, place, limits)?;
    let Some(Counted { given, left }) = tried else {
        return Ok(None);
    };
    let given = given.ok_or(FaultKind::CannotExpand);
    Ok(Some(Counted { given, left }))
}

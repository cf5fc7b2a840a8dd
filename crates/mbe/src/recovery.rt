//! Recovery: the answer for a call that no rule fits. It names the rule that comes nearest and
//! why it does not match, and gives what its transcriber can still produce.
//!
//! Proved of these answers: they are refused only if memory runs out, the rule has the style of
//! the call, and the tree has invisible delimiters. A call that a rule fits does not come here.
ghost use Rattle.std.specs.Prelude.{◌≡◌, ◌<◌, ◌^◌, ℕ, Bool, true, length, map, option_map, Some};
ghost use Rattle.std.specs.Prelude.{IfOk, IfSome, IsOkUnless};
ghost use Rattle.symbols.specs.declared.fault.TtFault.TheVariants as fault;
ghost use Rattle.tt_data.specs.Forest.{empty};
ghost use Rattle.mbe_rules.specs.Ops.{rule_of};
ghost use Rattle.mbe.specs.Answers.{within, no_brackets};
ghost use Rattle.mbe.specs.Fit.{same_style};
ghost use Rattle.mbe.specs.Unfit.{IsOfStyle, IsUnfit};

mod best_match;
mod items;
mod messages;
mod placeholders;
mod transcribe;
mod values;

use crate::recovery::best_match::{Attempt, Call, attempted};
use crate::recovery::transcribe::Filler;
use crate::recovery::values::Values;
use bumpalo::Bump;
use mbe_rules::{ExpandError, ExpandErrorKind, MacroCallStyle, MatchedArmIndex, Op, Rule};
use mbe_transcriber::mbe_matcher::fragment_grammar::FragmentGrammar;
use std::alloc::Global;
use tt::{DelimSpan, Delimiter, DelimiterKind, Span, TopSubtree, TopSubtreeBuilder, TtFault};

// A rule, by its index among all rules, and how far its matcher reads the argument.
#[derive(Drop)]
struct Candidate<'a> {
    index: u32,
    template: &'a [Op],
    attempt: Attempt<'a>,
}

// The nearer of two rules, or the first if they are equally near.
fn nearer<'a>(first: Option<Candidate<'a>>, second: Candidate<'a>) -> Candidate<'a>
    ensures { (p : ℕ → Bool) → IfSome first.entry (λ c. p c.index ≡ true) → p second.entry.index
        ≡ true → p result.index ≡ true }
{
    match first {
        Some(first) => {
            if second.attempt.is_nearer(&first.attempt) {
                second
            } else {
                first
            }
        }
        None => second,
    }
}

// Whether a rule has this style.
fn has_style(rule: &Rule, style: MacroCallStyle) -> bool
    ensures { result ≡ same_style style rule.now.style }
{
    rule.style == style
}

// The rule of this style that comes nearest, if any has it.
fn nearest<'a, G: FragmentGrammar>(
    alloc: Global,
    arena: &'a Bump,
    grammar: &G,
    rules: &'a [Rule],
    style: MacroCallStyle,
    call: Call<'a>,
) -> Result<Option<Candidate<'a>>, TtFault>
    requires { length rules.now < 2 ^ 32 }
    ensures { IfOk result (λ o. IsOfStyle style (map rule_of rules.now) (option_map (λ c. c.index)
        o)) }
{
    let mut best = None;
    for (index, rule) in rules.iter().enumerate() {
        if has_style(rule, style) {
            let attempt = attempted(alloc, arena, grammar, &rule.pattern, call)?;
            let candidate = Candidate {
                index: index as u32,
                template: &rule.template,
                attempt,
            };
            best = Some(nearer(best, candidate));
        }
    }
    Ok(best)
}

// The tree that the transcriber gives, in invisible delimiters, and its first fault.
fn filled<M: Fn(Span) -> Span>(
    alloc: Global,
    values: &Values<'_>,
    template: &[Op],
    marker: &M,
    call_site: Span,
) -> Result<(TopSubtree, Option<ExpandError>), TtFault>
    requires { M.IsAlwaysCallable marker.now }
    ensures { IfOk result (λ r. r.0.delimiter ≡ no_brackets call_site) }
{
    let mut out = TopSubtreeBuilder::new(alloc, Delimiter::invisible_spanned(call_site))?;
    let filler = Filler {
        alloc,
        values,
        marker,
        call_site,
    };
    let error = filler.fill(&mut out, template)?;
    match out.build() {
        Ok(mut tree) => {
            tree.set_top_subtree_delimiter_kind(DelimiterKind::Invisible);
            tree.set_top_subtree_delimiter_span(DelimSpan::from_single(call_site));
            Ok((tree, error))
        }
        Err((_, fault)) => Err(fault),
    }
}

type Answer = (TopSubtree, MatchedArmIndex, ExpandError);

// An empty tree, where no transcriber gives one.
fn nothing(
    alloc: Global,
    index: MatchedArmIndex,
    error: ExpandError,
    call_site: Span,
) -> Result<Answer, TtFault>
    ensures told { IfOk result (λ r. r ≡ (within (no_brackets call_site) empty, index, error)) }
    ensures memory { IsOkUnless result fault.Memory }
{
    let tree = TopSubtree::empty(alloc, DelimSpan::from_single(call_site))?;
    Ok((tree, index, error))
}

/// The answer for a call that no rule of its style fits: a tree, the index of the rule that it is
/// from, and why that rule does not fit. The rule is the one that leaves the fewest tokens unread
/// in the group where its reading stopped; then the one that binds most; then the first.
///
/// The tree is empty if no rule has the style, or if it would have too many tokens. Its only
/// error is out of memory.
pub(crate) fn failure<G: FragmentGrammar, M: Fn(Span) -> Span>(
    alloc: Global,
    grammar: &G,
    rules: &[Rule],
    style: MacroCallStyle,
    argument: &TopSubtree,
    marker: &M,
    call_site: Span,
) -> Result<Answer, TtFault>
    requires few { length rules.now < 2 ^ 32 }
    requires marker { M.IsAlwaysCallable marker.now }
    ensures unfit { IfOk result (λ r. IsUnfit style (map rule_of rules.now) call_site r.1 r.0
        (Some r.2)) }
    ensures memory { IsOkUnless result fault.Memory }
{
    let arena = Bump::new(alloc);
    let call = Call {
        argument: argument.token_trees(),
        ends: argument.top_subtree().delimiter.delim_span(),
    };
    let found = match nearest(alloc, &arena, grammar, rules, style, call) {
        Ok(found) => found,
        Err(_) => return Err(TtFault::Memory),
    };
    let no_rule = ExpandError::new(alloc, call_site, ExpandErrorKind::NoMatchingRule)?;
    let Some(candidate) = found else {
        return nothing(alloc, None, no_rule, call_site);
    };
    answer(alloc, candidate, no_rule, marker, call_site)
}

// The answer that the nearest rule gives.
fn answer<M: Fn(Span) -> Span>(
    alloc: Global,
    candidate: Candidate<'_>,
    no_rule: ExpandError,
    marker: &M,
    call_site: Span,
) -> Result<Answer, TtFault>
    requires { M.IsAlwaysCallable marker.now }
    ensures number { IfOk result (λ r. r.1 ≡ Some candidate.entry.index) }
    ensures tree { IfOk result (λ r. r.0.delimiter ≡ no_brackets call_site) }
    ensures memory { IsOkUnless result fault.Memory }
{
    let Candidate {
        index,
        template,
        attempt,
    } = candidate;
    let index = Some(index);
    let filled = filled(alloc, &attempt.values, template, marker, call_site);
    let unread = attempt.error;
    let (tree, error) = match filled {
        Ok(filled) => filled,
        Err(fault) => {
            if fault == TtFault::Memory {
                return Err(TtFault::Memory);
            }
            return nothing(alloc, index, unread.unwrap_or(no_rule), call_site);
        }
    };
    Ok((tree, index, unread.or(error).unwrap_or(no_rule)))
}

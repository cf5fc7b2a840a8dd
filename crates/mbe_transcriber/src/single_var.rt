//! The fast path for repetitions of a single metavariable. It decides speed alone.
ghost use Rattle.std.specs.Prelude.{◌≡◌, List, ℕ, IfErr, IfSome, length, option_map};
ghost use Rattle.tt_data.specs.declared.span.Span.{Span};
ghost use Rattle.mbe_rules.specs.Ops.{items_of, separator_of};
ghost use Rattle.mbe_matcher.specs.Bindings.{Map};
ghost use Rattle.mbe_matcher.specs.Bound.{map_of, values_of};
ghost use Rattle.mbe_transcriber.specs.Given.{HasValues, repetition_gives, repetition_puts_out};
ghost use Rattle.mbe_transcriber.specs.Room.{IsWantOfRoom};
ghost use Rattle.mbe_transcriber.specs.Tasks.{IsBurstIn, Steps, outcome, put_and, rounds_and};
ghost use Rattle.mbe_transcriber.specs.declared.transcriber.TranscribeTask.{TranscribeTask};

use crate::leaf::put_separator;
use crate::metavar_expr::put_value;
use crate::repetition::{Iterations, MOST_ROUNDS, is_single, may_be_empty, takes_place};
use crate::repetition_vars::{member, value_here};
use mbe_matcher::{Binding, Bindings};
use mbe_rules::{Op, RepeatKind};
use tt::{Span, TopSubtreeBuilder, TtFault};

/// If the body is one metavariable with a list of values: the span of its `$`, and the values,
/// one for each iteration.
pub(crate) fn lone_values<'b, 'a>(
    body: &[Op],
    bindings: &'b Bindings<'a>,
    rounds: &[usize],
) -> Option<(Span, &'b [Binding<'a>])>
    ensures { IfSome result (λ v. (mark : Span → Span) → HasValues mark (map_of bindings.now)
        rounds.now (items_of body.now) (mark v.0) (length v.1.now) (values_of v.1.now)) }
{
    let Some((op, rest)) = body.split_first() else {
        return None;
    };
    if !rest.is_empty() {
        return None;
    }
    let Op::Var { name, id, .. } = op else {
        return None;
    };
    let Some(binding) = value_here(name, bindings, rounds) else {
        return None;
    };
    match binding {
        Binding::Rounds(values) => Some((*id, values)),
        _ => None,
    }
}

// Transcribes the iterations from `left.number` on, with a value for each. `Ok(false)` is a fault.
fn put_later(
    out: &mut TopSubtreeBuilder,
    left: Iterations<'_>,
    values: &[Binding<'_>],
    place: Span,
) -> Result<bool, TtFault>
    ensures faults { IfErr result IsWantOfRoom }
    ensures left { (mark : Span → Span) (bound : Map) (ns : List ℕ) (ts : List TranscribeTask) →
        HasValues mark bound ns (items_of left.entry.body.now) place left.entry.count
        (values_of values.now) →
        Steps result out.new.tree
        (rounds_and mark bound ns left.entry out.old.tree (outcome mark bound ts ns))
        (outcome mark bound ts ns out.new.tree) }
    ensures tokens { (mark : Span → Span) (bound : Map) (ns : List ℕ) (ts : List TranscribeTask) →
        HasValues mark bound ns (items_of left.entry.body.now) place left.entry.count
        (values_of values.now) →
        IsBurstIn result (rounds_and mark bound ns left.entry out.old.tree
        (outcome mark bound ts ns)) }
{
    let mut number = left.number;
    while takes_place(number, left.count) {
        if number >= MOST_ROUNDS {
            return Ok(false);
        }
        put_separator(out, left.separator)?;
        if !put_value(out, member(values, number), place)? {
            return Ok(false);
        }
        number += 1;
    }
    Ok(true)
}

/// Transcribes a repetition with a value for each iteration; `later` are those after the first.
/// `Ok(false)` is a fault.
pub(crate) fn put_values(
    out: &mut TopSubtreeBuilder,
    later: Iterations<'_>,
    kind: RepeatKind,
    values: &[Binding<'_>],
    place: Span,
) -> Result<bool, TtFault>
    requires { later.number ≡ 1 }
    ensures faults { IfErr result IsWantOfRoom }
    ensures left { (mark : Span → Span) (bound : Map) (ns : List ℕ) (ts : List TranscribeTask) →
        HasValues mark bound ns (items_of later.entry.body.now) place later.entry.count
        (values_of values.now) →
        Steps result out.new.tree
        (put_and (repetition_gives mark bound ns (items_of later.entry.body.now)
        (option_map (λ s. separator_of s.now) later.entry.separator) kind)
        (repetition_puts_out mark bound ns (items_of later.entry.body.now)
        (option_map (λ s. separator_of s.now) later.entry.separator) kind)
        out.old.tree (outcome mark bound ts ns)) (outcome mark bound ts ns out.new.tree) }
    ensures tokens { (mark : Span → Span) (bound : Map) (ns : List ℕ) (ts : List TranscribeTask) →
        HasValues mark bound ns (items_of later.entry.body.now) place later.entry.count
        (values_of values.now) →
        IsBurstIn result
        (put_and (repetition_gives mark bound ns (items_of later.entry.body.now)
        (option_map (λ s. separator_of s.now) later.entry.separator) kind)
        (repetition_puts_out mark bound ns (items_of later.entry.body.now)
        (option_map (λ s. separator_of s.now) later.entry.separator) kind)
        out.old.tree (outcome mark bound ts ns)) }
{
    if !takes_place(0, later.count) {
        return Ok(may_be_empty(kind));
    }
    if !put_value(out, member(values, 0), place)? {
        return Ok(false);
    }
    if is_single(kind) {
        return Ok(true);
    }
    put_later(out, later, values, place)
}

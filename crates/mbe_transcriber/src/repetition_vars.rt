//! Decides how many iterations of a repetition take place, by the values of the metavariables in
//! its body.
ghost use Rattle.std.specs.Prelude.{◌≡◌, ◌≤◌, ℕ, true, ◌++◌, ◌∷◌, [], Some, IfOk, map, nat_lt};
ghost use Rattle.std.specs.Prelude.{option_map, option_and_then};
ghost use Rattle.mbe_rules.specs.Items.{done};
ghost use Rattle.mbe_rules.specs.Ops.{items_of, part_of, put_op};
ghost use Rattle.mbe_matcher.specs.Bindings.{binding_of, value_at};
ghost use Rattle.mbe_matcher.specs.Bound.{map_of, standing_for, values_of};
ghost use Rattle.mbe_transcriber.specs.Filling.{names, part_names, stands, use_in, value_in};
ghost use Rattle.mbe_transcriber.specs.Given.{is_plain};
ghost use Rattle.mbe_transcriber.specs.Limits.{most_rounds};
ghost use Rattle.mbe_transcriber.specs.Uses.{beside, together, use_at, uses_of};

use crate::items::PlainItems;
use crate::repetition::MOST_ROUNDS;
use mbe_matcher::{Binding, Bindings};
use mbe_rules::{ConcatElement, Op};
use std::alloc::AllocError;
use symbols::Symbol;

/// The value for the iteration of this index.
pub(crate) fn member<'b, 'a>(values: &'b [Binding<'a>], number: usize) -> Option<&'b Binding<'a>>
    ensures { option_map (λ b. standing_for b.now) result ≡ value_at number (values_of values.now) }
{
    if number < values.len() {
        Some(&values[number])
    } else {
        None
    }
}

// The value of a binding in the iteration of this index.
#[inline]
fn value_in_one<'b, 'a>(binding: &'b Binding<'a>, number: usize) -> Option<&'b Binding<'a>>
    ensures { option_map (λ b. standing_for b.now) result
        ≡ value_in (number ∷ []) (standing_for binding.now) }
{
    match binding {
        Binding::Fragment { .. } => Some(binding),
        Binding::Skipped => None,
        Binding::Rounds(values) => member(values, number),
    }
}

// The value of a value, if there is one, in the iteration of this index.
#[inline]
fn value_then<'b, 'a>(value: Option<&'b Binding<'a>>, number: usize) -> Option<&'b Binding<'a>>
    ensures { option_map (λ b. standing_for b.now) result ≡ option_and_then (value_in (number ∷ []))
        (option_map (λ b. standing_for b.now) value.entry) }
{
    match value {
        Some(binding) => value_in_one(binding, number),
        None => None,
    }
}

/// The value of a binding in these iterations, the outermost first.
pub(crate) fn value_in<'b, 'a>(
    binding: &'b Binding<'a>,
    rounds: &[usize],
) -> Option<&'b Binding<'a>>
    ensures { option_map (λ b. standing_for b.now) result
        ≡ value_in rounds.now (standing_for binding.now) }
{
    let Some((first, inner)) = rounds.split_first() else {
        return Some(binding);
    };
    let mut here = value_in_one(binding, *first);
    for number in inner {
        here = value_then(here, *number);
    }
    here
}

/// The value of this name in these iterations.
pub(crate) fn value_here<'b, 'a>(
    name: &Symbol,
    bindings: &'b Bindings<'a>,
    rounds: &[usize],
) -> Option<&'b Binding<'a>>
    ensures { option_map (λ b. standing_for b.now) result ≡ option_and_then (value_in rounds.now)
        (binding_of name.now (map_of bindings.now)) }
{
    match bindings.get(name) {
        Some(binding) => value_in(binding, rounds),
        None => None,
    }
}

// More iterations than a repetition may have.
const ALWAYS: usize = MOST_ROUNDS + 1;

// In how many iterations, from the first on, a binding has a value.
fn length_of(binding: &Binding<'_>) -> usize
    ensures { (k : ℕ) → k ≤ most_rounds → use_at k (Some result)
        ≡ use_in (k ∷ []) (Some (standing_for binding.now)) }
{
    match binding {
        Binding::Fragment { .. } => ALWAYS,
        Binding::Skipped => 0,
        Binding::Rounds(values) => values.len(),
    }
}

// In how many iterations of the innermost repetition a binding has a value, from the first on.
// `rounds` are the iterations around it. `None` if it does not use the binding.
fn length_in(binding: Option<&Binding<'_>>, rounds: &[usize]) -> Option<usize>
    ensures { (k : ℕ) → k ≤ most_rounds → use_at k result ≡ use_in (rounds.now ++ (k ∷ []))
        (option_map (λ b. standing_for b.now) binding.entry) }
{
    let mut here = binding;
    let mut left = rounds;
    loop {
        let Some(binding) = here else {
            return None;
        };
        let Some((number, inner)) = left.split_first() else {
            return Some(length_of(binding));
        };
        let Binding::Rounds(values) = binding else {
            return None;
        };
        here = member(values, *number);
        left = inner;
    }
}

// The less of two lengths, if there are any.
fn least(first: Option<usize>, second: Option<usize>) -> Option<usize>
    ensures { (k : ℕ) → use_at k result ≡ beside (use_at k first) (use_at k second) }
{
    let Some(one) = first else {
        return second;
    };
    let Some(other) = second else {
        return first;
    };
    if other < one { second } else { first }
}

// In how many iterations of the innermost repetition a name has a value.
fn length_of_name(name: &Symbol, bindings: &Bindings<'_>, rounds: &[usize]) -> Option<usize>
    ensures { (k : ℕ) → k ≤ most_rounds → use_at k result ≡ use_in (rounds.now ++ (k ∷ []))
        (binding_of name.now (map_of bindings.now)) }
{
    length_in(bindings.get(name), rounds)
}

// In how many iterations of the innermost repetition the parts of `${concat(..)}` have values.
fn length_of_parts(
    parts: &[ConcatElement],
    bindings: &Bindings<'_>,
    rounds: &[usize],
) -> Option<usize>
    ensures { (k : ℕ) → k ≤ most_rounds → use_at k result
        ≡ together (uses_of (rounds.now ++ (k ∷ [])) (map_of bindings.now)
        (part_names (map part_of parts.now))) }
{
    let mut all = None;
    for part in parts {
        if let ConcatElement::Var(name) = part {
            all = least(all, length_of_name(name, bindings, rounds));
        }
    }
    all
}

// In how many iterations of the innermost repetition the metavariables of an op without ops
// inside have values.
fn length_of_op(op: &Op, bindings: &Bindings<'_>, rounds: &[usize]) -> Option<usize>
    requires { is_plain (put_op op.now done) ≡ true }
    ensures { (k : ℕ) → k ≤ most_rounds → use_at k result
        ≡ together (uses_of (rounds.now ++ (k ∷ [])) (map_of bindings.now)
        (names (put_op op.now done))) }
{
    match op {
        Op::Var { name, .. } => length_of_name(name, bindings, rounds),
        Op::Count { name, .. } => length_of_name(name, bindings, rounds),
        Op::Ignore { name, .. } => length_of_name(name, bindings, rounds),
        Op::Concat { elements, .. } => length_of_parts(elements, bindings, rounds),
        _ => None,
    }
}

// In how many iterations of the innermost repetition the metavariables of these ops have values.
fn length_of_all(
    ops: &[Op],
    bindings: &Bindings<'_>,
    rounds: &[usize],
) -> Result<Option<usize>, AllocError>
    ensures { IfOk result (λ n. (k : ℕ) → k ≤ most_rounds → use_at k n
        ≡ together (uses_of (rounds.now ++ (k ∷ [])) (map_of bindings.now)
        (names (items_of ops.now)))) }
{
    let mut walk = PlainItems::new(bindings.allocator(), ops);
    let mut all = None;
    while let Some(op) = walk.next()? {
        all = least(all, length_of_op(op, bindings, rounds));
    }
    Ok(all)
}

/// How many iterations of a repetition take place. `rounds` are the iterations around it. Those
/// of a repetition without end are counted as more than it may have.
#[inline(never)]
pub(crate) fn round_count(
    body: &[Op],
    bindings: &Bindings<'_>,
    rounds: &[usize],
) -> Result<usize, AllocError>
    ensures { IfOk result (λ n. (k : ℕ) → k ≤ most_rounds → nat_lt k n
        ≡ stands (uses_of (rounds.now ++ (k ∷ [])) (map_of bindings.now)
        (names (items_of body.now)))) }
{
    match length_of_all(body, bindings, rounds)? {
        Some(count) => Ok(count),
        None => Ok(0),
    }
}

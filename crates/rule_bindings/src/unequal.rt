//! The first repetition of a transcriber whose metavariables have not as many iterations.
ghost use Rattle.std.specs.Prelude.{◌≡◌, ◌≤◌, ◌+◌, ◌<◌, ◌∷◌, ◌++◌, [], IfOk, OnOk, Some, option_map};
ghost use Rattle.std.specs.Prelude.{reverse};
ghost use Rattle.std.specs.Option.{option_or};
ghost use Rattle.mbe_rules.specs.Ops.{items_of};
ghost use Rattle.mbe_matcher.specs.Bindings.{value_at};
ghost use Rattle.mbe_matcher.specs.Bound.{map_of, standing_for, values_of};
ghost use Rattle.mbe_transcriber.specs.Filling.{names, value_in};
ghost use Rattle.mbe_transcriber.specs.Limits.{most_rounds};
ghost use Rattle.rule_bindings.specs.Given.{counted_given, unequal_given};
ghost use Rattle.rule_bindings.specs.Notes.{counted, first_counted, first_unequal};
ghost use Rattle.rule_bindings.specs.Notes.{iterations_of, other_counted, rounds_made};

use crate::names::Names;
use mbe_matcher::{Binding, Bindings};
use mbe_rules::{Op, RepeatKind};
use std::alloc::AllocError;
use symbols::Symbol;

/// A metavariable, and how many iterations it has.
#[derive(Clone, Copy)]
pub struct Counted<'a> {
    /// The metavariable.
    pub name: &'a Symbol,
    /// How many iterations it has.
    pub count: usize,
}

/// Two metavariables of a repetition that have not as many iterations.
#[derive(Clone, Copy)]
pub struct Unequal<'a> {
    /// The first that has some.
    pub one: Counted<'a>,
    /// The first that has another number of them.
    pub other: Counted<'a>,
}

// How many iterations a value has, if it is a list.
fn iterations_of(binding: &Binding<'_>) -> Option<usize>
    ensures { result ≡ iterations_of (Some (standing_for binding.now)) }
{
    match binding {
        Binding::Fragment { .. } => None,
        Binding::Skipped => Some(0),
        Binding::Rounds(values) => Some(values.len()),
    }
}

// The value of the iteration with this number.
fn member<'b, 'a>(values: &'b [Binding<'a>], number: usize) -> Option<&'b Binding<'a>>
    ensures { option_map (λ b. standing_for b.now) result ≡ value_at number (values_of values.now) }
{
    if number < values.len() {
        return Some(&values[number]);
    }
    None
}

// How many it has inside these iterations.
fn iterations_in(binding: &Binding<'_>, rounds: &[usize]) -> Option<usize>
    ensures { result ≡ iterations_of (value_in rounds.now (standing_for binding.now)) }
{
    let mut here = Some(binding);
    let mut left = rounds;
    loop {
        let Some(value) = here else {
            return None;
        };
        let Some((number, inner)) = left.split_first() else {
            return iterations_of(value);
        };
        let Binding::Rounds(values) = value else {
            return None;
        };
        here = member(values, *number);
        left = inner;
    }
}

// A metavariable with its iterations inside these, if it has some there.
fn named_count<'t>(
    name: &'t Symbol,
    bindings: &Bindings<'_>,
    rounds: &[usize],
) -> Option<Counted<'t>>
    ensures { option_map counted_given result
        ≡ counted (map_of bindings.now) rounds.now name.now }
{
    let binding = bindings.get(name)?;
    let count = iterations_in(binding, rounds)?;
    Some(Counted { name, count })
}

/// The first metavariable of ops that has some iterations inside these.
pub(crate) fn first_counted<'t>(
    ops: &'t [Op],
    bindings: &Bindings<'_>,
    rounds: &[usize],
) -> Result<Option<Counted<'t>>, AllocError>
    ensures { IfOk result (λ o. option_map counted_given o
        ≡ first_counted (map_of bindings.now) rounds.now (names (items_of ops.now))) }
{
    let mut ahead = Names::new(bindings.allocator(), ops);
    while let Some(name) = ahead.next()? {
        let found = named_count(name, bindings, rounds);
        if found.is_some() {
            return Ok(found);
        }
    }
    Ok(None)
}

/// The first metavariable of ops that has another number of iterations.
pub(crate) fn other_counted<'t>(
    ops: &'t [Op],
    bindings: &Bindings<'_>,
    rounds: &[usize],
    count: usize,
) -> Result<Option<Counted<'t>>, AllocError>
    ensures { IfOk result (λ o. option_map counted_given o
        ≡ other_counted (map_of bindings.now) rounds.now count (names (items_of ops.now))) }
{
    let mut ahead = Names::new(bindings.allocator(), ops);
    while let Some(name) = ahead.next()? {
        if let Some(found) = named_count(name, bindings, rounds)
            && found.count != count
        {
            return Ok(Some(found));
        }
    }
    Ok(None)
}

//! The bindings of metavariables as one list of values.
ghost use Rattle.std.specs.Prelude.{◌≡◌, ◌+◌, ◌*◌, ◌^◌, ◌++◌, ◌∷◌, [], ◌<◌, ◌≤◌, ℕ, List, Some};
ghost use Rattle.std.specs.Prelude.{IfOk, OnOk, length, option_map};
ghost use Rattle.mbe_matcher.specs.Bound.{map_of, standing_for, values_of};
ghost use Rattle.mbe_matcher.specs.Counts.{count_values};
ghost use Rattle.rule_bindings.specs.BoundValues.{map_values, values_from, values_in};
ghost use Rattle.rule_bindings.specs.Given.{all_given, fragment_given};
ghost use Rattle.rule_bindings.specs.Open.{left_values, numbers, rest_values, weight_around};
ghost use Rattle.rule_bindings.specs.Open.{weight_of};

use crate::open::Open;
use crate::value::{BoundFragment, BoundValue};
use mbe_matcher::{Binding, Bindings};
use std::alloc::{AllocError, Global};
use symbols::Symbol;

// The numbers of iterations.
fn numbers(alloc: Global, around: &[Open<'_, '_>]) -> Result<Vec<usize>, AllocError>
    ensures { IfOk result (λ ns. ns.items ≡ numbers around.now) }
{
    around.iter().map(|open| open.number).collect(alloc)
}

// Adds what a name stands for inside these iterations.
fn push_value<'a>(
    alloc: Global,
    found: &mut Vec<BoundValue<'a>>,
    name: &'a Symbol,
    around: &[Open<'_, 'a>],
    fragment: Option<BoundFragment<'a>>,
) -> Result<(), AllocError>
    ensures { OnOk result (all_given found.new.items ≡ all_given found.old.items ++ (record {
      name = name.now;
      iterations = numbers around.now;
      fragment = option_map fragment_given fragment.entry;
    } ∷ [])) }
{
    let iterations = numbers(alloc, around)?;
    found.push(BoundValue {
        name,
        iterations,
        fragment,
    })?;
    Ok(())
}

// Opens the first of these iterations, which has this number. Its value; `None` if there is none.
fn open_first<'b, 'a>(
    around: &mut Vec<Open<'b, 'a>>,
    number: usize,
    values: &'b [Binding<'a>],
) -> Result<Option<&'b Binding<'a>>, AllocError>
    requires { number + length values.now < 2 ^ 64 }
    ensures left { (name : List ℕ) → IfOk result (λ here. left_values name around.new.items
        (option_map (λ b. standing_for b.now) here)
        ≡ values_from name (numbers around.old.items) number (values_of values.now)
        ++ rest_values name [] around.old.items) }
    ensures lighter { IfOk result (λ here. weight_of (option_map (λ b. standing_for b.now) here)
        + weight_around around.new.items
        ≤ 2 * count_values (values_of values.now) + weight_around around.old.items) }
{
    let Some((first, rest)) = values.split_first() else {
        return Ok(None);
    };
    around.push(Open { number, rest })?;
    Ok(Some(first))
}

// Adds what a name stands for by a binding inside these iterations, or opens the first iteration
// of the binding. The value of that iteration, if there is one.
fn push_or_open<'b, 'a>(
    alloc: Global,
    found: &mut Vec<BoundValue<'a>>,
    name: &'a Symbol,
    around: &mut Vec<Open<'b, 'a>>,
    binding: &'b Binding<'a>,
) -> Result<Option<&'b Binding<'a>>, AllocError>
    ensures values { IfOk result (λ here. all_given found.new.items
        ++ left_values name.now around.new.items (option_map (λ b. standing_for b.now) here)
        ≡ all_given found.old.items
        ++ left_values name.now around.old.items (Some (standing_for binding.now))) }
    ensures lighter { IfOk result (λ here. weight_of (option_map (λ b. standing_for b.now) here)
        + weight_around around.new.items
        < weight_of (Some (standing_for binding.now)) + weight_around around.old.items) }
{
    match binding {
        Binding::Fragment { kind, trees } => {
            let fragment = BoundFragment {
                kind: *kind,
                trees: *trees,
            };
            push_value(alloc, found, name, around, Some(fragment))?;
            Ok(None)
        }
        Binding::Rounds(values) => {
            if values.is_empty() {
                push_value(alloc, found, name, around, None)?;
                return Ok(None);
            }
            open_first(around, 0, values)
        }
        Binding::Skipped => {
            push_value(alloc, found, name, around, None)?;
            Ok(None)
        }
    }
}

// Adds all that a name stands for by its binding. The iterations around the present one are in
// memory, so that nesting takes no call stack.
fn push_binding<'a>(
    alloc: Global,
    found: &mut Vec<BoundValue<'a>>,
    name: &'a Symbol,
    binding: &Binding<'a>,
) -> Result<(), AllocError>
    ensures { OnOk result (all_given found.new.items ≡ all_given found.old.items
        ++ values_in name.now [] (standing_for binding.now)) }
{
    let mut around: Vec<Open<'_, 'a>> = Vec::new(alloc);
    let mut here = Some(binding);
    loop {
        let Some(value) = here else {
            let Some(open) = around.pop() else {
                return Ok(());
            };
            here = open_first(&mut around, open.number + 1, open.rest)?;
            continue;
        };
        here = push_or_open(alloc, found, name, &mut around, value)?;
    }
}

/// All that names stand for by their bindings.
pub(crate) fn flatten<'a>(
    alloc: Global,
    bindings: &Bindings<'a>,
) -> Result<Vec<BoundValue<'a>>, AllocError>
    ensures { IfOk result (λ vs. all_given vs.items ≡ map_values (map_of bindings.now)) }
{
    let mut found = Vec::new(alloc);
    let entries = bindings.entries();
    for bound in entries {
        push_binding(alloc, &mut found, bound.name, &bound.binding)?;
    }
    Ok(found)
}

//! Finds the calls whose bytes contain a byte.
ghost use Rattle.std.specs.Prelude.{◌≡◌, ◌∷◌, [], ◌++◌, filter, false, IfOk, OnOk, Some, true};
ghost use Rattle.tt_data.specs.Forest.{Forest, group};
ghost use Rattle.tt_data.specs.declared.delimiter.Delimiter.{Delimiter};
ghost use Rattle.expander_model.specs.Calls.{marked};
ghost use Rattle.expander_model.specs.CallSteps.{call_at};
ghost use Rattle.call_expansion.specs.Around.{calls_around, calls_in, contains};
ghost use Rattle.call_expansion.specs.Passing.{Ends, Passes};

use expander_model::call::{Beginning, Call, beginning_of};
use expander_model::relative_spans::start_of;
use expander_model::tree_walk::TreeWalk;
use std::alloc::{AllocError, Global};
use tt::TtIter;
use tt_data::TextRange;

/// Where a call is written.
#[derive(Clone, Copy)]
pub struct CallPlace {
    /// The bytes of its name.
    pub name: TextRange,
    /// All its bytes, from its path or name to right behind its closing bracket.
    pub range: TextRange,
}

// The offset right behind the group that the trees begin with.
fn end_of_group(trees: &TtIter<'_>) -> u32
    ensures { (d : Delimiter) (inner rest : Forest) → trees.now ≡ group d inner rest →
        result ≡ d.close_span.range.«end» }
{
    match trees.first_group() {
        Some((brackets, _, _)) => brackets.close_span.range.end,
        None => 0,
    }
}

/// Where the call is written that the trees begin with.
pub fn place_of(trees: &TtIter<'_>, call: &Call<'_>) -> CallPlace
    requires { call_at trees.now ≡ Some call.now }
    ensures { calls_in (marked trees.now) ≡ result ∷ calls_in (marked call.now.from_group) }
{
    CallPlace {
        name: call.name.span.range,
        range: TextRange {
            start: start_of(trees),
            end: end_of_group(&call.from_group),
        },
    }
}

/// Whether the bytes of a call contain this one.
pub fn contains(at: u32, call: &CallPlace) -> bool
    ensures { result ≡ contains at call.now }
{
    call.range.start <= at && at < call.range.end
}

// Adds a call, if its bytes contain this one.
fn push_around(calls: &mut Vec<CallPlace>, at: u32, call: CallPlace) -> Result<(), AllocError>
    ensures { OnOk result (calls.new.items
        ≡ calls.old.items ++ filter (contains at) (call ∷ [])) }
{
    if contains(at, &call) {
        calls.push(call)?;
    }
    Ok(())
}

// Passes a call's tokens before its group, another leaf, or the bracket of a group. `false` at
// the end.
fn pass<'a>(
    calls: &mut Vec<CallPlace>,
    walk: &mut TreeWalk<'a>,
    at: u32,
) -> Result<bool, AllocError>
    ensures more { IfOk result (λ more. more ≡ true →
        Passes at walk.old walk.new calls.old.items calls.new.items) }
    ensures ends { IfOk result (λ more. more ≡ false →
        Ends at walk.old calls.old.items calls.new.items) }
{
    match beginning_of(&walk.here) {
        Beginning::Call(call) => {
            push_around(calls, at, place_of(&walk.here, &call))?;
            walk.go_on(call.from_group);
            Ok(true)
        }
        Beginning::BehindColons(call) => {
            walk.go_on(call.from_group);
            Ok(true)
        }
        Beginning::Leaf(_, rest) => {
            walk.go_on(rest);
            Ok(true)
        }
        Beginning::Other => match walk.next()? {
            Some(_) => Ok(true),
            None => Ok(false),
        },
    }
}

/// The calls of these trees whose bytes, from the path or name to right behind the closing
/// bracket, contain this byte: the outermost first. They are found by tokens, so a call in the
/// body of a definition is one of them.
pub fn calls_around(
    alloc: Global,
    trees: &TtIter<'_>,
    at: u32,
) -> Result<Vec<CallPlace>, AllocError>
    ensures { IfOk result (λ calls. calls.items ≡ calls_around at trees.now) }
{
    let mut calls = Vec::new(alloc);
    let mut walk = TreeWalk::new(alloc, trees);
    'turns: loop {
        if !pass(&mut calls, &mut walk, at)? {
            return Ok(calls);
        }
    }
}

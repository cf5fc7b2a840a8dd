//! How far a position is from the end of an argument, in steps: each leaf, each opening and each
//! closing is one. And which token is there.
ghost use Rattle.std.specs.Prelude.{◌≡◌, ◌+◌, ◌≤◌, IfOk, Some};
ghost use Rattle.fragment_grammar.specs.Steps.{steps};
ghost use Rattle.tt.specs.Places.{steps_after};
ghost use Rattle.tt.specs.Views.{forest};
ghost use Rattle.mbe_matcher.specs.Places.{place_after, place_of};
ghost use Rattle.mbe_matcher.specs.Units as u;
ghost use Rattle.mbe_explain.specs.Distances.{span_before_end};
ghost use Rattle.mbe_explain.specs.Moves.{begins_with_no_leaf, first_span, is_over_bracket};

use fragment_grammar::steps;
use mbe_matcher::{Consumed, Place};
use std::alloc::AllocError;
use tt::buffer::Cursor;
use tt::laws::walk_of_a_cursor;
use tt::{Span, TokenTreesView, TtIter};

// Whether a list begins with a group, or is empty.
fn begins_with_no_leaf(trees: &TtIter<'_>) -> bool
    ensures { result ≡ begins_with_no_leaf trees.now }
{
    trees.lent_leaf().is_none()
}

// Whether a move from a position goes into a group, or out of one.
fn is_over_bracket(place: &Place<'_>, taken: Consumed) -> bool
    ensures { result ≡ is_over_bracket taken (place_of place.now) }
{
    match taken {
        Consumed::Fragment(_) => false,
        Consumed::Unit => begins_with_no_leaf(place.rest()),
    }
}

/// The position after a move, and how many steps the move passes: none at the end.
pub(crate) fn advanced<'a>(
    place: Place<'a>,
    taken: Consumed,
) -> Result<(Place<'a>, usize), AllocError>
    ensures place { IfOk result (λ r.
        place_of r.0 ≡ place_after (place_of place.entry) (Some taken)) }
    ensures passed { IfOk result (λ r.
        u.left (place_of place.entry) ≡ u.left (place_of r.0) + r.1) }
{
    if place.is_end() {
        return Ok((place.after(taken)?, 0));
    }
    if is_over_bracket(&place, taken) {
        return Ok((place.after(taken)?, 1));
    }
    let before = place.rest().remaining();
    let after = place.after(taken)?;
    let passed = steps(after.rest().passed_since(before));
    Ok((after, passed))
}

// The span of the next step of a walk. `None` at its end.
fn next_span(cursor: Cursor<'_>) -> Option<Span>
    ensures { result ≡ first_span (steps_after cursor.entry) }
{
    if cursor.eof() {
        return None;
    }
    match cursor.token_tree() {
        Some(token) => Some(token.first_span()),
        None => {
            let mut cursor = cursor;
            Some(cursor.end().delimiter.close_span)
        }
    }
}

/// The span of the token that comes where so many steps of an argument are left: of a leaf, an
/// opening or a closing. `None` at the argument's end.
pub(crate) fn span_before_end(argument: TokenTreesView<'_>, left: usize) -> Option<Span>
    requires { left ≤ steps (forest argument) }
    ensures { result ≡ span_before_end (forest argument.entry) left }
{
    walk_of_a_cursor();
    let mut cursor: Cursor<'_> = argument.cursor();
    let mut passed = steps(argument) - left;
    while passed > 0 {
        if cursor.eof() {
            return None;
        }
        cursor.bump_or_end();
        passed -= 1;
    }
    next_span(cursor)
}

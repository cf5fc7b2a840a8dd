//! Finds threads and matchers whose next unit cannot match, so that they are pruned before a move
//! is made. It decides speed alone.
ghost use Rattle.std.specs.Prelude.{◌≡◌, List, [], true};
ghost use Rattle.mbe_rules.specs.Items.{Items};
ghost use Rattle.mbe_rules.specs.Ops.{items_of, put_op};
ghost use Rattle.mbe_matcher.specs.Blocked.{is_blocked, is_stuck};
ghost use Rattle.mbe_matcher.specs.Places.{place_of};
ghost use Rattle.mbe_matcher.specs.Readings as r;
ghost use Rattle.mbe_matcher.specs.Threads.{frames_of, state_of};
ghost use Rattle.mbe_matcher.specs.Units as u;
ghost use Rattle.mbe_matcher.specs.Ways.{HasNoMove};
ghost use Rattle.tt.specs.Views.{forest};

use crate::position::Place;
use crate::thread::{Frame, Rung, Thread};
use mbe_rules::{MetaVarKind, Op};
use std::alloc::Global;
use tt::TokenTreesView;

// Whether an op needs a unit that is not here.
#[inline]
fn is_elsewhere(op: &Op, place: &Place<'_>) -> bool
    ensures { (rest : Items) → result ≡ is_blocked (put_op op.now rest) (place_of place.now) }
{
    match op {
        Op::Literal(literal) => !place.is_literal(literal),
        Op::Ident(ident) => !place.is_name(&ident.sym),
        Op::Punct(puncts) => !place.is_puncts(puncts),
        Op::Lifetime(_, ident) => !place.is_lifetime(&ident.sym),
        Op::Subtree { delimiter, .. } => !place.is_opening(delimiter.kind),
        _ => false,
    }
}

// Whether a thread needs a unit, a closing or the end here, and it is not here.
#[tactic(auto, using(crate::proofs::BlockedLemmas::stuck_put))]
pub(crate) fn is_stuck(thread: &Thread<'_>, place: &Place<'_>) -> bool
    ensures { result ≡ is_stuck (state_of thread.now (place_of place.now)) }
{
    if let Some((op, _rest)) = thread.items.split_first() {
        return is_elsewhere(op, place);
    }
    let Some(rung) = thread.frames else {
        return !place.is_end();
    };
    match rung.frame {
        Frame::InGroup { .. } => !place.is_closing(),
        _ => false,
    }
}

// Whether an op, which is no repetition, consumes something, and it is not here.
#[inline]
fn is_absent(op: &Op, place: &Place<'_>) -> bool
    ensures { result ≡ true → (rest : Items) (fs : List r.Frame) →
        HasNoMove (r.at (put_op op.now rest) fs (place_of place.now)) }
{
    match op {
        Op::Var {
            kind: Some(kind),
            ..
        } => place.rest.is_empty() && *kind != MetaVarKind::Vis,
        _ => is_elsewhere(op, place),
    }
}

// Whether no move leads on from these ops, since the first one is not here.
#[inline]
pub(crate) fn is_over_at(items: &[Op], place: &Place<'_>) -> bool
    ensures { result ≡ true → (fs : List r.Frame) →
        HasNoMove (r.at (items_of items.now) fs (place_of place.now)) }
{
    match items.split_first() {
        Some((op, _rest)) => is_absent(op, place),
        None => false,
    }
}

// Whether no move leads on from these ops in these frames, and they are not at the end.
#[inline]
pub(crate) fn is_over<'a>(items: &'a [Op], frames: Option<&'a Rung<'a>>, place: &Place<'a>) -> bool
    ensures { result ≡ true → HasNoMove (r.at (items_of items.now) (frames_of frames.entry)
        (place_of place.now)) }
{
    if !items.is_empty() {
        return is_over_at(items, place);
    }
    let Some(rung) = frames else {
        return !place.is_end();
    };
    match rung.frame {
        Frame::InGroup { .. } => !place.is_closing(),
        _ => false,
    }
}

/// Whether the first op of a matcher needs another unit than the argument begins with, or the
/// matcher is empty and the argument is not. It takes no memory.
#[inline]
pub fn is_blocked(alloc: Global, pattern: &[Op], argument: TokenTreesView<'_>) -> bool
    ensures { result ≡ is_blocked (items_of pattern.now) (u.place (forest argument.entry) []) }
{
    let place = Place {
        rest: argument.iter(),
        outer: Vec::new(alloc),
    };
    match pattern.split_first() {
        Some((op, _rest)) => is_elsewhere(op, &place),
        None => !place.is_end(),
    }
}

//! Threads in one state. Those in different states are mostly told apart by their numbers.
ghost use Rattle.std.specs.Prelude.{◌≡◌, ◌&&◌};
ghost use Rattle.std.specs.List.{list_any};
ghost use Rattle.mbe_matcher.specs.Threads.{frames_in, same_mark, same_marks, same_state};

use crate::thread::{Frame, Rung, Thread, number_in};

/// A thread whose state was entered at this position, and whether a second one was in it.
#[derive(Clone, Copy, Drop)]
pub struct Seen<'a> {
    pub thread: Thread<'a>,
    pub twice: bool,
}

// Whether two frames are of one sort, with as many ops after them.
fn is_same_mark(first: Frame<'_>, second: Frame<'_>) -> bool
    ensures { result ≡ same_mark first.entry second.entry }
{
    match (first, second) {
        (Frame::InGroup { after: a }, Frame::InGroup { after: b }) => a.len() == b.len(),
        (Frame::InRound(a), Frame::InRound(b)) => a.after.len() == b.after.len(),
        (Frame::Parted(a), Frame::Parted(b)) => a.after.len() == b.after.len(),
        _ => false,
    }
}

// Whether two threads are in the same groups and repetitions.
fn are_same_marks<'a>(first: Option<&'a Rung<'a>>, second: Option<&'a Rung<'a>>) -> bool
    ensures { result ≡ same_marks (frames_in first.entry) (frames_in second.entry) }
{
    let mut one = first;
    let mut other = second;
    while let Some(a) = one {
        let Some(b) = other else {
            return false;
        };
        if !is_same_mark(a.frame, b.frame) {
            return false;
        }
        one = a.around;
        other = b.around;
    }
    match other {
        Some(_) => false,
        None => true,
    }
}

/// Whether two threads are in one state.
#[tactic(auto, using(crate::proofs::NumberLemmas::one_number))]
pub fn is_same_state(first: &Thread<'_>, second: &Thread<'_>) -> bool
    ensures { result ≡ same_state first.now second.now }
{
    first.items.len() == second.items.len()
        && number_in(first.frames) == number_in(second.frames)
        && are_same_marks(first.frames, second.frames)
}

/// Whether a thread was in the state of this one.
pub fn was_settled(seen: &[Seen<'_>], thread: &Thread<'_>) -> bool
    ensures { result ≡ list_any (λ x. same_state x.thread thread.now) seen.now }
{
    for one in seen {
        if is_same_state(&one.thread, thread) {
            return true;
        }
    }
    false
}

/// Whether two threads were in the state of this one.
pub fn was_settled_twice(seen: &[Seen<'_>], thread: &Thread<'_>) -> bool
    ensures { result ≡ list_any (λ x. x.twice && same_state x.thread thread.now) seen.now }
{
    for one in seen {
        if one.twice && is_same_state(&one.thread, thread) {
            return true;
        }
    }
    false
}

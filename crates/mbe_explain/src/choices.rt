//! The next moves of a partial reading, and what it wants.
ghost use Rattle.std.specs.Prelude.{◌≡◌, [], ◌∷◌, ◌++◌, List, map, option_map, IfOk, None, Some};
ghost use Rattle.mbe_rules.specs.Items.{Items, done};
ghost use Rattle.mbe_rules.specs.Ops.{items_of, put_op, separator_of};
ghost use Rattle.mbe_matcher.specs.Grammar.{Grammar};
ghost use Rattle.mbe_matcher.specs.Places.{place_of};
ghost use Rattle.mbe_matcher.specs.Readings as r;
ghost use Rattle.mbe_matcher.specs.Threads.{between_of, extended, given, moves_of, state_of};
ghost use Rattle.mbe_matcher.specs.Units as u;
ghost use Rattle.mbe_matcher.specs.declared.position.Consumed.TheVariants as consumed;
ghost use Rattle.mbe_explain.specs.Levels.{IsOpenAfter, frame_mark, mark_of, marks_of};
ghost use Rattle.mbe_explain.specs.Stops.{wanted, wanted_last};
ghost use Rattle.mbe_explain.specs.Surveys.{choice_of};
ghost use Rattle.mbe_explain.specs.Wants.{want_in};

use crate::level::{Inside, Level, within};
use crate::step::Step;
use crate::wanted::Wanted;
use bumpalo::Bump;
use mbe_matcher::{Choice, Consumed, FragmentGrammar, Place, Thread};
use mbe_rules::{Op, Separator};
use std::alloc::AllocError;

/// The next moves of a partial reading: at most two.
pub(crate) type Steps<'a> = (Option<Step<'a>>, Option<Step<'a>>);

// What is open after the first and the second of two moves, or after the only one.
#[derive(Clone, Copy, Drop)]
struct Ahead<'a> {
    first: Option<&'a Level<'a>>,
    second: Option<&'a Level<'a>>,
    only: Option<&'a Level<'a>>,
}

// The same is open after any move.
fn after_any<'a>(levels: Option<&'a Level<'a>>) -> Ahead<'a>
    ensures { (result.first ≡ levels.entry) × (result.second ≡ levels.entry)
        × (result.only ≡ levels.entry) }
{
    Ahead {
        first: levels,
        second: levels,
        only: levels,
    }
}

// The separator, borrowed.
fn borrowed<'a>(separator: &'a Option<Separator>) -> Option<&'a Separator>
    ensures { between_of result ≡ option_map separator_of separator.now }
{
    match separator {
        Some(between) => Some(between),
        None => None,
    }
}

// What is wanted at the end of a list of ops.
fn wanted_last<'a>(levels: Option<&'a Level<'a>>) -> Option<Wanted<'a>>
    ensures { (fs : List r.Frame) → map frame_mark fs ≡ marks_of levels.entry →
        want_in result ≡ wanted_last fs }
{
    let Some(level) = levels else {
        return Some(Wanted::End);
    };
    match level.inside {
        Inside::Group => Some(Wanted::Close),
        Inside::Iteration(Some(separator)) => Some(Wanted::Separator(separator)),
        Inside::Iteration(None) | Inside::Separated(_) => None,
    }
}

// What an op wants, if it is no repetition.
fn wanted_first<'a>(op: &'a Op) -> Option<Wanted<'a>>
    ensures { (rest : Items) (fs : List r.Frame) (p : u.Place) →
        want_in result ≡ wanted (r.at (put_op op.now rest) fs p) }
{
    match op {
        Op::Repeat { .. } => None,
        _ => Some(Wanted::Op(op)),
    }
}

impl<'a> Step<'a> {
    /// Before the matcher and the argument.
    pub(crate) fn start(pattern: &'a [Op]) -> Step<'a>
        ensures state { (p : u.Place) →
            state_of result.thread p ≡ r.at (items_of pattern.now) [] p }
        ensures moves { moves_of result.thread.moves ≡ [] }
        ensures taken { result.taken ≡ Some consumed.Unit }
    {
        let thread = Thread::start(pattern);
        Step {
            thread,
            taken: Some(Consumed::Unit),
            levels: None,
        }
    }

    /// It waits at the end.
    pub(crate) fn ended(&self) -> Step<'a>
        ensures { choice_of result ≡ record { thread = self.now.thread; taken = None } }
    {
        Step {
            thread: self.thread,
            taken: None,
            levels: self.levels,
        }
    }

    /// What it wants at its position.
    pub(crate) fn wanted(&self) -> Option<Wanted<'a>>
        ensures { (p : u.Place) → want_in result ≡ wanted (state_of self.now.thread p) }
    {
        match self.thread.next_item() {
            Some(op) => wanted_first(op),
            None => wanted_last(self.levels),
        }
    }

    // What is open after a move over this op, or into it.
    fn ahead_at(&self, arena: &'a Bump, op: &'a Op) -> Result<Ahead<'a>, AllocError>
        ensures { (gr : Grammar) (rest : Items) (fs : List r.Frame) (p : u.Place) →
            map frame_mark fs ≡ marks_of self.now.levels →
            IfOk result (λ a. IsOpenAfter a (r.next gr (r.at (put_op op.now rest) fs p))) }
    {
        match op {
            Op::Repeat { separator, .. } => {
                let inside = Inside::Iteration(borrowed(separator));
                let first = within(arena, self.levels, inside)?;
                Ok(Ahead {
                    first,
                    second: self.levels,
                    only: first,
                })
            }
            Op::Subtree { .. } => Ok(after_any(within(arena, self.levels, Inside::Group)?)),
            _ => Ok(after_any(self.levels)),
        }
    }

    // What is open after a move at the end of the ops of this level.
    fn ahead_after(
        &self,
        arena: &'a Bump,
        inside: Inside<'a>,
        around: Option<&'a Level<'a>>,
    ) -> Result<Ahead<'a>, AllocError>
        requires { marks_of self.now.levels ≡ mark_of inside ∷ marks_of around }
        ensures { (gr : Grammar) (fs : List r.Frame) (p : u.Place) →
            map frame_mark fs ≡ marks_of self.now.levels →
            IfOk result (λ a. IsOpenAfter a (r.next gr (r.at done fs p))) }
    {
        match inside {
            Inside::Group => Ok(after_any(around)),
            Inside::Separated(separator) => {
                let inside = Inside::Iteration(separator);
                Ok(after_any(within(arena, around, inside)?))
            }
            Inside::Iteration(None) => Ok(Ahead {
                first: self.levels,
                second: around,
                only: around,
            }),
            Inside::Iteration(Some(separator)) => {
                let inside = Inside::Separated(Some(separator));
                let first = within(arena, around, inside)?;
                Ok(Ahead {
                    first,
                    second: around,
                    only: around,
                })
            }
        }
    }

    // What is open after a move at the end of the ops.
    fn ahead_at_end(&self, arena: &'a Bump) -> Result<Ahead<'a>, AllocError>
        ensures { (gr : Grammar) (fs : List r.Frame) (p : u.Place) →
            map frame_mark fs ≡ marks_of self.now.levels →
            IfOk result (λ a. IsOpenAfter a (r.next gr (r.at done fs p))) }
    {
        match self.levels {
            Some(level) => self.ahead_after(arena, level.inside, level.around),
            None => Ok(after_any(None)),
        }
    }

    // What is open after the next moves.
    fn ahead(&self, arena: &'a Bump) -> Result<Ahead<'a>, AllocError>
        ensures { (gr : Grammar) (p : u.Place) →
            IfOk result (λ a. IsOpenAfter a (r.next gr (state_of self.now.thread p))) }
    {
        match self.thread.next_item() {
            Some(op) => self.ahead_at(arena, op),
            None => self.ahead_at_end(arena),
        }
    }

    /// The next moves, at most two.
    pub(crate) fn choices<G: FragmentGrammar>(
        &self,
        arena: &'a Bump,
        grammar: &G,
        place: &Place<'a>,
    ) -> Result<Steps<'a>, AllocError>
        ensures { let p = place_of place.now in let t = self.now.thread in
            IfOk result (λ ss.
            given p (option_map choice_of ss.0) ++ given p (option_map choice_of ss.1)
            ≡ map (extended (moves_of t.moves)) (r.next (G.answer grammar.now) (state_of t p))) }
    {
        let choices = self.thread.choices(arena, grammar, place)?;
        let ahead = self.ahead(arena)?;
        match choices {
            (Some(first), Some(second)) => {
                let one = Step {
                    thread: first.thread,
                    taken: first.taken,
                    levels: ahead.first,
                };
                let other = Step {
                    thread: second.thread,
                    taken: second.taken,
                    levels: ahead.second,
                };
                Ok((Some(one), Some(other)))
            }
            (Some(only), None) => {
                let one = Step {
                    thread: only.thread,
                    taken: only.taken,
                    levels: ahead.only,
                };
                Ok((Some(one), None))
            }
            (None, Some(only)) => {
                let one = Step {
                    thread: only.thread,
                    taken: only.taken,
                    levels: ahead.only,
                };
                Ok((None, Some(one)))
            }
            (None, None) => Ok((None, None)),
        }
    }
}

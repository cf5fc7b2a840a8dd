//! Finds how far a matcher reads an argument that it does not match.
use crate::recovery::messages::{fault_at, partial_at};
use crate::recovery::values::{Partial, Values};
use bumpalo::Bump;
use mbe_rules::{ExpandError, ExpandErrorKind, Op};
use mbe_transcriber::mbe_matcher::fragment_grammar::FragmentGrammar;
use mbe_transcriber::mbe_matcher::{
    Choice, Consumed, Entry, Place, Seen, SeenStates, Thread, bindings_of,
};
use std::alloc::{AllocError, Global};
use tt::{DelimSpan, Span, TokenTreesView, TtFault};

// A call's argument, and the spans of its delimiters.
#[derive(Clone, Copy)]
pub(crate) struct Call<'a> {
    pub(crate) argument: TokenTreesView<'a>,
    pub(crate) ends: DelimSpan,
}

// How far a rule gets.
#[derive(Drop)]
pub(crate) struct Attempt<'a> {
    // Why it does not fit. `None` if its matcher matches.
    pub(crate) error: Option<ExpandError>,
    pub(crate) values: Values<'a>,
    // How many tokens are left in the group where reading stopped.
    left: usize,
    // How many fragments and skips are bound.
    bound: usize,
}

impl<'a> Attempt<'a> {
    // Whether its rule comes nearer than another.
    pub(crate) fn is_nearer(&self, other: &Attempt<'_>) -> bool {
        if self.left != other.left {
            return self.left < other.left;
        }
        self.bound > other.bound
    }
}

// Where a thread ends: its moves, and the fragment that was wrong.
#[derive(Clone, Copy)]
struct Stop<'a> {
    moves: Option<&'a Entry<'a>>,
    partial: Option<Partial<'a>>,
}

// The threads at one position.
#[derive(Drop)]
struct Step<'a> {
    // Those that can go on without consuming anything, the next one last.
    current: Vec<Thread<'a>>,
    // Those that went on.
    seen: SeenStates<'a>,
    // Those that go on once something is consumed, what that is, and whether they disagree on it.
    // At most two are in one state, since only one state leads to each and two threads went on.
    waiting: Vec<Thread<'a>>,
    taken: Option<Consumed>,
    has_clash: bool,
    // Those at the matcher's end.
    ended: Vec<Stop<'a>>,
    // The last one that failed.
    faulty: Option<Stop<'a>>,
}

impl<'a> Step<'a> {
    fn go_on(&mut self, choice: Option<Choice<'a>>) -> Result<(), AllocError> {
        let Some(Choice { thread, taken }) = choice else {
            return Ok(());
        };
        match (taken, self.taken) {
            (None, _) => self.current.push(thread)?,
            (Some(taken), before) => {
                self.waiting.push(thread)?;
                self.taken = Some(taken);
                self.has_clash = self.has_clash || is_clash(taken, before);
            }
        }
        Ok(())
    }

    // The thread whose bindings count if reading stops here; `before` is that of an earlier step.
    fn stop_after(&self, before: Stop<'a>) -> Stop<'a> {
        match self.faulty {
            Some(stop) => stop,
            None => self.ended.first().copied().unwrap_or(before),
        }
    }

    // What all threads consume. `None` if none waits, or if one consumes a fragment beside
    // another.
    fn taken(&self) -> Option<Consumed> {
        if self.has_clash { None } else { self.taken }
    }
}

// Whether one of two takings is of a fragment.
fn is_clash(taken: Consumed, before: Option<Consumed>) -> bool {
    match (taken, before) {
        (_, None) | (Consumed::Unit, Some(Consumed::Unit)) => false,
        _ => true,
    }
}

// The reading of an argument by a matcher.
#[derive(Drop)]
struct Reader<'a> {
    alloc: Global,
    arena: &'a Bump,
    ends: DelimSpan,
    // The first fault.
    error: Option<ExpandError>,
}

impl<'a> Reader<'a> {
    // Goes on with all threads, as far as they consume nothing. The one that came last goes
    // first.
    fn step<G: FragmentGrammar>(
        &mut self,
        grammar: &G,
        current: Vec<Thread<'a>>,
        place: &Place<'a>,
    ) -> Result<Step<'a>, TtFault> {
        let mut step = Step {
            current,
            seen: SeenStates::new(self.alloc),
            waiting: Vec::new(self.alloc),
            taken: None,
            has_clash: false,
            ended: Vec::new(self.alloc),
            faulty: None,
        };
        for _ in 0..u64::MAX {
            let Some(thread) = step.current.pop() else {
                break;
            };
            self.visit(grammar, &mut step, thread, place)?;
        }
        Ok(step)
    }

    // Goes on with a thread, unless two in its state did so already.
    fn visit<G: FragmentGrammar>(
        &mut self,
        grammar: &G,
        step: &mut Step<'a>,
        thread: Thread<'a>,
        place: &Place<'a>,
    ) -> Result<(), TtFault> {
        let twice = step.seen.was_settled(&thread);
        if twice && step.seen.was_settled_twice(&thread) {
            return Ok(());
        }
        step.seen.push(Seen { thread, twice })?;
        if thread.is_past_pattern() {
            let end = Stop {
                moves: thread.moves(),
                partial: None,
            };
            return Ok(step.ended.push(end).map_err(AllocError::from)?);
        }
        let (first, second) = thread.choices(self.arena, grammar, place)?;
        if first.is_none() && second.is_none() {
            return self.stop(grammar, step, thread, place);
        }
        step.go_on(second)?;
        step.go_on(first)?;
        Ok(())
    }

    // A thread cannot go on: notes its fault.
    fn stop<G: FragmentGrammar>(
        &mut self,
        grammar: &G,
        step: &mut Step<'a>,
        thread: Thread<'a>,
        place: &Place<'a>,
    ) -> Result<(), TtFault> {
        let Some(op) = thread.next_item() else {
            return Ok(());
        };
        let Some(fault) = fault_at(self.alloc, op, place.rest())? else {
            return Ok(());
        };
        let span = place.rest().next_span().unwrap_or(self.ends.close_span);
        self.tell(span, fault)?;
        step.faulty = Some(Stop {
            moves: thread.moves(),
            partial: partial_at(grammar, op, place.rest()),
        });
        Ok(())
    }

    // Keeps the fault if it is the first.
    fn tell(&mut self, span: Span, fault: ExpandErrorKind) -> Result<(), TtFault> {
        if self.error.is_none() {
            self.error = Some(ExpandError::new(self.alloc, span, fault)?);
        }
        Ok(())
    }

    // How far the rule got, if reading stops here.
    fn outcome(
        &mut self,
        step: Step<'a>,
        stop: Stop<'a>,
        place: &Place<'a>,
    ) -> Result<Attempt<'a>, TtFault> {
        let mut stop = stop;
        if let (true, [only]) = (place.is_end(), step.ended.as_slice()) {
            stop = *only;
            self.error = None;
        } else if place.is_end() {
            self.tell(self.ends.open_span, ExpandErrorKind::UnexpectedToken)?;
        } else {
            self.tell(self.ends.open_span, ExpandErrorKind::LeftoverTokens)?;
        }
        let values = Values::new(bindings_of(self.alloc, stop.moves)?, stop.partial)?;
        Ok(Attempt {
            error: self.error.take(),
            bound: values.count(),
            values,
            left: place.rest().remaining().len(),
        })
    }
}

// Reads an argument by a matcher as far as possible.
pub(crate) fn attempted<'a, G: FragmentGrammar>(
    alloc: Global,
    arena: &'a Bump,
    grammar: &G,
    pattern: &'a [Op],
    call: Call<'a>,
) -> Result<Attempt<'a>, TtFault> {
    let mut reader = Reader {
        alloc,
        arena,
        ends: call.ends,
        error: None,
    };
    let mut place = Place::start(alloc, call.argument);
    let first = Thread::start(pattern);
    let mut threads = Vec::new(alloc);
    threads.push(first).map_err(AllocError::from)?;
    let mut step = reader.step(grammar, threads, &place)?;
    let mut stop = step.stop_after(Stop {
        moves: None,
        partial: None,
    });
    for _ in 0..u64::MAX {
        let Some(taken) = step.taken() else {
            break;
        };
        place = place.after(taken)?;
        step = reader.step(grammar, step.waiting, &place)?;
        stop = step.stop_after(stop);
    }
    reader.outcome(step, stop, &place)
}

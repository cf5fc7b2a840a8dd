//! The threads whose states were entered at a position, found by state.
ghost use Rattle.std.specs.Prelude.{◌≡◌, ◌&&◌, ◌∷◌, ◌++◌, [], List, ℕ, IfOk, IfSome, OnOk, OnErr};
ghost use Rattle.std.specs.List.{list_any};
ghost use Rattle.mbe_matcher.specs.SeenStates.{is_like, number_of_state};
ghost use Rattle.mbe_matcher.specs.Threads.{same_state};

use crate::same_state::{Seen, is_same_state, was_settled, was_settled_twice};
use crate::thread::{Thread, number_in};
use std::alloc::{AllocError, Global};
use std::collections::HashMap;
use std::marker::Model;

// How many threads are compared one by one, before an index of them is made.
const FEW: usize = 16;

// A number by which a state is found: states with different numbers are different.
fn number_of_state(thread: &Thread<'_>) -> usize
    ensures { result ≡ number_of_state thread.now }
{
    number_in(thread.frames).wrapping_add(thread.items.len())
}

// Whether a thread was in the state of this one, or `twice` two threads.
fn is_like(one: &Seen<'_>, thread: &Thread<'_>, twice: bool) -> bool
    ensures { result ≡ is_like twice thread.now one.now }
{
    if twice && !one.twice {
        return false;
    }
    is_same_state(&one.thread, thread)
}

// For each number of a list, how many there are up to the last one with it.
#[derive(Drop)]
pub(crate) struct LastCounts {
    pub(crate) map: HashMap<usize, usize>,
}

impl LastCounts {
    ghost use Rattle.std.specs.Prelude.{nat_eq, if◌then◌else◌};
    ghost use Rattle.mbe_matcher.specs.SeenStates.{last_in};

    // No number has a count.
    #[tactic(auto, unfolding(crate::specs::SeenStates::last_in))]
    fn new(alloc: Global) -> LastCounts
        ensures { (n : ℕ) → last_in result n ≡ 0 }
    {
        LastCounts {
            map: HashMap::new(alloc),
        }
    }

    // Gives the number this count, and hands over the one that it had.
    #[tactic(auto, unfolding(crate::specs::SeenStates::last_in))]
    fn insert(&mut self, number: usize, count: usize) -> Result<usize, AllocError>
        ensures updates { OnOk result ((n : ℕ) → last_in self.new n
            ≡ (if nat_eq number n then count else last_in self.old n)) }
        ensures old { IfOk result (λ k. k ≡ last_in self.old number) }
    {
        let before = self.map.insert(number, count)?;
        Ok(before.unwrap_or(0))
    }

    // The count of a number, or 0 if it has none.
    #[tactic(auto, unfolding(crate::specs::SeenStates::last_in))]
    fn get(&self, number: usize) -> usize
        ensures { result ≡ last_in self.now number }
    {
        self.map.get(&number).copied().unwrap_or(0)
    }
}

// An index of a list of numbers. A place in it is told by how many there are up to it.
#[derive(Drop)]
pub(crate) struct StateIndex {
    // The last one with each number.
    pub(crate) last: LastCounts,
    // For each, the one before it with its number, or 0 if there is none.
    pub(crate) before: Vec<usize>,
}

impl StateIndex {
    ghost use Rattle.mbe_matcher.specs.SeenStates.{IsIndex, is_like, numbers_of};
    ghost use Rattle.std.specs.Prelude.{◌<◌, get_or, length};

    // The index of an empty list.
    fn new(alloc: Global) -> StateIndex
        ensures { IsIndex result [] }
    {
        StateIndex {
            last: LastCounts::new(alloc),
            before: Vec::new(alloc),
        }
    }

    // Adds a number at the end of the list.
    fn push(&mut self, number: usize) -> Result<(), AllocError>
        ensures { (numbers : List ℕ) → IsIndex self.old numbers →
            OnOk result (IsIndex self.new (numbers ++ (number ∷ []))) }
    {
        let count = self.before.len() + 1;
        let before = self.last.insert(number, count)?;
        self.before.push(before)?;
        Ok(())
    }

    // The index of the states of these.
    fn of(alloc: Global, seen: &[Seen<'_>]) -> Result<StateIndex, AllocError>
        ensures { IfOk result (λ index. IsIndex index (numbers_of seen.now)) }
    {
        let mut index = StateIndex::new(alloc);
        for one in seen {
            index.push(number_of_state(&one.thread))?;
        }
        Ok(index)
    }

    // The index of the states of these, made if there is none.
    fn kept_or_made(
        kept: Option<StateIndex>,
        alloc: Global,
        seen: &[Seen<'_>],
    ) -> Result<StateIndex, AllocError>
        requires { IfSome kept (λ index. IsIndex index (numbers_of seen.now)) }
        ensures { IfOk result (λ index. IsIndex index (numbers_of seen.now)) }
    {
        match kept {
            Some(index) => Ok(index),
            None => StateIndex::of(alloc, seen),
        }
    }

    // The one before that at `at` with its number, or 0.
    fn before(&self, at: usize) -> usize
        requires { at < length self.now.before.items }
        ensures { result ≡ get_or self.now.before.items at 0 }
    {
        self.before[at]
    }

    // Whether a thread was in the state of this one, or `twice` two threads.
    fn finds(&self, seen: &[Seen<'_>], thread: &Thread<'_>, twice: bool) -> bool
        requires { IsIndex self.now (numbers_of seen.now) }
        ensures { result ≡ list_any (is_like twice thread.now) seen.now }
    {
        let mut count = self.last.get(number_of_state(thread));
        while count > 0 {
            let one = &seen[count - 1];
            if is_like(one, thread, twice) {
                return true;
            }
            count = self.before(count - 1);
        }
        false
    }
}

/// The threads whose states were entered at a position, in the order in which they were noted. A
/// thread in the same state is found by a number of the state.
#[derive(Drop)]
pub struct SeenStates<'a> {
    alloc: Global,
    all: Vec<Seen<'a>>,
    // Of all, once there are more than a few.
    index: Option<StateIndex>,
}

impl<'a> Model for SeenStates<'a> {
    ghost use denote.Signature.{static_lft};
    ghost use Rattle.std.specs.Prelude.{List, IfSome};
    ghost use Rattle.std.specs.Coded.{codes};
    ghost use Rattle.mbe_matcher.specs.declared.same_state.Seen.{Seen};
    ghost use Rattle.mbe_matcher.specs.contracts.same_state.Seen as seen;

    ghost Value = { List Seen };

    ghost coded = { Prim.hlevel (codes, (seen.the_row static_lft).coded) };

    ghost use Rattle.mbe_matcher.specs.SeenStates.{IsIndex, numbers_of};

    ghost view = { λ s. s.all.items };

    ghost invariant = { λ s. IfSome s.index (λ i. IsIndex i (numbers_of s.all.items)) };
}

impl<'a> SeenStates<'a> {
    /// No thread.
    pub fn new(alloc: Global) -> SeenStates<'a>
        ensures { result ≡ [] }
    {
        SeenStates {
            alloc,
            all: Vec::new(alloc),
            index: None,
        }
    }

    /// Notes a thread.
    pub fn push(&mut self, seen: Seen<'a>) -> Result<(), AllocError>
        ensures ok { OnOk result (self.new ≡ self.old ++ (seen.entry ∷ [])) }
        ensures err { OnErr result (self.new ≡ self.old) }
    {
        if self.index.is_none() && self.all.len() < FEW {
            self.all.push(seen)?;
            return Ok(());
        }
        let mut index = StateIndex::kept_or_made(self.index.take(), self.alloc, &self.all)?;
        index.push(number_of_state(&seen.thread))?;
        self.all.push(seen)?;
        self.index = Some(index);
        Ok(())
    }

    /// Forgets all threads.
    pub fn clear(&mut self)
        ensures { self.new ≡ [] }
    {
        self.all.clear();
        if self.index.is_some() {
            self.index = None;
        }
    }

    /// Whether a thread was in the state of this one.
    pub fn was_settled(&self, thread: &Thread<'_>) -> bool
        ensures { result ≡ list_any (λ x. same_state x.thread thread.now) self.now }
    {
        match &self.index {
            None => was_settled(&self.all, thread),
            Some(index) => index.finds(&self.all, thread, false),
        }
    }

    /// Whether two threads were in the state of this one.
    pub fn was_settled_twice(&self, thread: &Thread<'_>) -> bool
        ensures { result ≡ list_any (λ x. x.twice && same_state x.thread thread.now) self.now }
    {
        match &self.index {
            None => was_settled_twice(&self.all, thread),
            Some(index) => index.finds(&self.all, thread, true),
        }
    }
}

//! The loop of the matching algorithm: all threads that read an argument by a matcher, together,
//! position by position.
ghost use Rattle.std.specs.Prelude.{◌≡◌, ◌<◌, ◌≤◌, ◌+◌, List, [], ◌∷◌, ◌++◌, option_map, IfOk};
ghost use Rattle.std.specs.Prelude.{IfSome, OnOk, Some, None, true, false};
ghost use Rattle.std.specs.List.{flat_map};
ghost use Rattle.tt.specs.Views.{forest};
ghost use Rattle.mbe_rules.specs.Items.{Items, has_empty_round};
ghost use Rattle.mbe_rules.specs.Ops.{items_of};
ghost use Rattle.mbe_matcher.specs.Grammar.{Grammar};
ghost use Rattle.mbe_matcher.specs.Paths.{clash, only};
ghost use Rattle.mbe_matcher.specs.Places.{place_of};
ghost use Rattle.mbe_matcher.specs.Readings as r;
ghost use Rattle.mbe_matcher.specs.Settled.{Leads, HasEnd, going_on, IsGood, IsSound, IsSoundAt};
ghost use Rattle.mbe_matcher.specs.Settled.{most_tasks, planned, tasks_of, tasks_of_all};
ghost use Rattle.mbe_matcher.specs.Units as u;
ghost use Rattle.mbe_matcher.specs.declared.matcher.SettleTask.{SettleTask};
ghost use Rattle.mbe_matcher.specs.Waiting.{settled_at, advanced_by, empties_at, finished, Each};
ghost use Rattle.mbe_matcher.specs.Threads.{Waits, moves_of, state_of, waits, waits_at, waiting_at};
ghost use Rattle.mbe_matcher.specs.Threads.{takings_of, head_taken, is_trees};
ghost use Rattle.mbe_matcher.specs.declared.matcher.SettleTask.TheVariants.{GoOn};
ghost use Rattle.mbe_matcher.specs.declared.step.Waiting.TheVariants.{Pending};
ghost use Rattle.mbe_matcher.specs.declared.thread.Thread.{Thread};
ghost use Rattle.mbe_matcher.specs.declared.way.Alone.TheVariants.{Open};
ghost use Rattle.mbe_matcher.specs.Ways.{LeadsAlone};

use crate::lookahead::is_stuck;
use crate::position::{Consumed, Place};
use crate::same_state::Seen;
use crate::seen_states::SeenStates;
use crate::step::{Choice, Waiting};
use crate::thread::{Entry, Thread};
use crate::way::{Alone, Way};
use bumpalo::Bump;
use fragment_grammar::FragmentGrammar;
use mbe_rules::Op;
use std::alloc::{AllocError, Global};
use std::mem;
use tt::TokenTreesView;

// A task that is left at a position.
#[derive(Clone, Copy, Drop)]
pub(crate) enum SettleTask<'a> {
    // To go on with a thread, if it has consumed nothing.
    GoOn(Choice<'a>),
    // To note that all threads that this one leads to wait.
    Note(Seen<'a>),
}

// The threads that wait at a position, the states that were settled there, and the tasks that are
// left, the next one last.
#[derive(Drop)]
pub(crate) struct Settled<'a> {
    pub(crate) waiting: Vec<Waiting<'a>>,
    pub(crate) seen: SeenStates<'a>,
    pub(crate) tasks: Vec<SettleTask<'a>>,
}

// How many threads wait at most where those that they lead to need not be noted. It decides speed
// alone.
const FEW: usize = 2;

impl Consumed {
    fn is_fragment(&self) -> bool
        ensures { result ≡ is_trees (Some self.now) }
    {
        match self {
            Consumed::Unit => false,
            Consumed::Fragment(_) => true,
        }
    }
}

impl<'a> Settled<'a> {
    // No thread waits, and no task is left.
    fn new(alloc: Global) -> Settled<'a>
        ensures waiting { result.waiting.items ≡ [] }
        ensures seen { result.seen ≡ [] }
        ensures tasks { result.tasks.items ≡ [] }
    {
        Settled {
            waiting: Vec::new(alloc),
            seen: SeenStates::new(alloc),
            tasks: Vec::new(alloc),
        }
    }

    // Plans a choice as the next task, if there is one.
    #[inline]
    fn plan(&mut self, choice: Option<Choice<'a>>) -> Result<(), AllocError>
        ensures waiting { OnOk result (self.new.waiting.items ≡ self.old.waiting.items) }
        ensures seen { OnOk result (self.new.seen ≡ self.old.seen) }
        ensures tasks { OnOk result (self.new.tasks.items ≡ self.old.tasks.items
            ++ planned choice.entry) }
    {
        match choice {
            None => Ok(()),
            Some(choice) => {
                self.tasks.push(SettleTask::GoOn(choice))?;
                Ok(())
            }
        }
    }

    // Lets a choice that consumes something wait, or plans it as the next task.
    #[inline(always)]
    fn take_one(&mut self, choice: Choice<'a>) -> Result<(), AllocError>
        ensures all { (gr : Grammar) (pattern : Items) (p : u.Place) (all : List Waits) →
            Leads gr pattern p all self.old.waiting.items self.old.seen (self.old.tasks.items
            ++ (GoOn choice.entry ∷ [])) →
            OnOk result (Leads gr pattern p all self.new.waiting.items self.new.seen
            self.new.tasks.items) }
        ensures tasks { (p : u.Place) → Each (HasEnd p) (self.old.tasks.items
            ++ (GoOn choice.entry ∷ [])) → OnOk result (Each (HasEnd p) self.new.tasks.items) }
        ensures fewer { (p : u.Place) → OnOk result (tasks_of_all p self.new.tasks.items
            ≤ tasks_of_all p (self.old.tasks.items ++ (GoOn choice.entry ∷ []))) }
    {
        match choice.taken {
            Some(taken) => {
                let thread = choice.thread;
                self.waiting.push(Waiting::Pending { thread, taken })?;
                Ok(())
            }
            None => {
                self.tasks.push(SettleTask::GoOn(choice))?;
                Ok(())
            }
        }
    }

    // Takes a choice, if there is one.
    #[inline(always)]
    fn take(&mut self, choice: Option<Choice<'a>>) -> Result<(), AllocError>
        ensures all { (gr : Grammar) (pattern : Items) (p : u.Place) (all : List Waits) →
            Leads gr pattern p all self.old.waiting.items self.old.seen (self.old.tasks.items
            ++ planned choice.entry) →
            OnOk result (Leads gr pattern p all self.new.waiting.items self.new.seen
            self.new.tasks.items) }
        ensures tasks { (p : u.Place) → Each (HasEnd p) (self.old.tasks.items
            ++ planned choice.entry) → OnOk result (Each (HasEnd p) self.new.tasks.items) }
        ensures fewer { (p : u.Place) → OnOk result (tasks_of_all p self.new.tasks.items
            ≤ tasks_of_all p (self.old.tasks.items ++ planned choice.entry)) }
    {
        match choice {
            None => Ok(()),
            Some(next) => {
                self.take_one(next)?;
                Ok(())
            }
        }
    }

    // Goes on with a thread that has consumed nothing here.
    fn go_on<G: FragmentGrammar>(
        &mut self,
        arena: &'a Bump,
        grammar: &G,
        thread: Thread<'a>,
        place: &Place<'a>,
    ) -> Result<(), AllocError>
        requires good { IsGood (state_of thread (place_of place.now)) }
        requires tasks { Each (HasEnd (place_of place.now)) self.now.tasks.items }
        ensures all { let p = place_of place.now in let gr = G.answer grammar.now in
            (pattern : Items) (all : List Waits) →
            Leads gr pattern p all self.old.waiting.items self.old.seen (self.old.tasks.items
            ++ (GoOn (record { thread = thread.entry; taken = None }) ∷ [])) →
            OnOk result (Leads gr pattern p all self.new.waiting.items self.new.seen
            self.new.tasks.items) }
        ensures tasks { OnOk result (Each (HasEnd (place_of place.now)) self.new.tasks.items) }
        ensures fewer { let p = place_of place.now in
            OnOk result (tasks_of_all p self.new.tasks.items + 2
            ≤ tasks_of_all p self.old.tasks.items + most_tasks
            (empties_at (state_of thread.entry p))) }
    {
        if thread.has_ended(place) {
            self.waiting.push(Waiting::Ended(thread.moves))?;
            return Ok(());
        }
        let (first, second) = thread.choices(arena, grammar, place)?;
        self.plan(second)?;
        self.take(first)?;
        Ok(())
    }

    // Goes on with a thread and notes it, unless two threads were settled in its state: these
    // show that no reading through it is the only one.
    fn go_on_noted<G: FragmentGrammar>(
        &mut self,
        arena: &'a Bump,
        grammar: &G,
        thread: Thread<'a>,
        place: &Place<'a>,
    ) -> Result<(), AllocError>
        requires good { IsGood (state_of thread (place_of place.now)) }
        requires tasks { Each (HasEnd (place_of place.now)) self.now.tasks.items }
        ensures all { let p = place_of place.now in let gr = G.answer grammar.now in
            (pattern : Items) (all : List Waits) →
            Leads gr pattern p all self.old.waiting.items self.old.seen (self.old.tasks.items
            ++ (GoOn (record { thread = thread.entry; taken = None }) ∷ [])) →
            OnOk result (Leads gr pattern p all self.new.waiting.items self.new.seen
            self.new.tasks.items) }
        ensures tasks { OnOk result (Each (HasEnd (place_of place.now)) self.new.tasks.items) }
        ensures fewer { let p = place_of place.now in
            OnOk result (tasks_of_all p self.new.tasks.items < tasks_of_all p self.old.tasks.items
            + most_tasks (empties_at (state_of thread.entry p))) }
    {
        let twice = self.seen.was_settled(&thread);
        if twice && self.seen.was_settled_twice(&thread) {
            return Ok(());
        }
        self.tasks.push(SettleTask::Note(Seen { thread, twice }))?;
        self.go_on(arena, grammar, thread, place)?;
        Ok(())
    }

    // Goes on with a thread and notes it. One that no move leads from is dropped, or at the end
    // of the matcher not noted.
    fn go_on_twice<G: FragmentGrammar>(
        &mut self,
        arena: &'a Bump,
        grammar: &G,
        thread: Thread<'a>,
        place: &Place<'a>,
    ) -> Result<(), AllocError>
        requires good { IsGood (state_of thread (place_of place.now)) }
        requires tasks { Each (HasEnd (place_of place.now)) self.now.tasks.items }
        ensures all { let p = place_of place.now in let gr = G.answer grammar.now in
            (pattern : Items) (all : List Waits) →
            Leads gr pattern p all self.old.waiting.items self.old.seen (self.old.tasks.items
            ++ (GoOn (record { thread = thread.entry; taken = None }) ∷ [])) →
            OnOk result (Leads gr pattern p all self.new.waiting.items self.new.seen
            self.new.tasks.items) }
        ensures tasks { OnOk result (Each (HasEnd (place_of place.now)) self.new.tasks.items) }
        ensures fewer { let p = place_of place.now in
            OnOk result (tasks_of_all p self.new.tasks.items < tasks_of_all p self.old.tasks.items
            + most_tasks (empties_at (state_of thread.entry p))) }
    {
        if is_stuck(&thread, place) {
            return Ok(());
        }
        if !thread.items.is_empty() || thread.frames.is_some() {
            return self.go_on_noted(arena, grammar, thread, place);
        }
        self.go_on(arena, grammar, thread, place)?;
        Ok(())
    }

    // Does a task.
    fn step<G: FragmentGrammar>(
        &mut self,
        arena: &'a Bump,
        grammar: &G,
        task: SettleTask<'a>,
        place: &Place<'a>,
    ) -> Result<(), AllocError>
        requires task { HasEnd (place_of place.now) task }
        requires tasks { Each (HasEnd (place_of place.now)) self.now.tasks.items }
        ensures all { let p = place_of place.now in let gr = G.answer grammar.now in
            (pattern : Items) (all : List Waits) →
            Leads gr pattern p all self.old.waiting.items self.old.seen (self.old.tasks.items
            ++ (task.entry ∷ [])) →
            OnOk result (Leads gr pattern p all self.new.waiting.items self.new.seen
            self.new.tasks.items) }
        ensures tasks { OnOk result (Each (HasEnd (place_of place.now)) self.new.tasks.items) }
        ensures fewer { let p = place_of place.now in
            OnOk result (tasks_of_all p self.new.tasks.items < tasks_of_all p self.old.tasks.items
            + tasks_of p task.entry) }
    {
        match task {
            SettleTask::Note(seen) => {
                self.seen.push(seen)?;
                Ok(())
            }
            SettleTask::GoOn(choice) => match choice.taken {
                Some(taken) => {
                    let thread = choice.thread;
                    self.waiting.push(Waiting::Pending { thread, taken })?;
                    Ok(())
                }
                None => {
                    self.go_on_twice(arena, grammar, choice.thread, place)?;
                    Ok(())
                }
            },
        }
    }

    // Makes the moves of a thread that consume nothing, and appends the threads that wait then.
    fn settle<G: FragmentGrammar>(
        &mut self,
        arena: &'a Bump,
        grammar: &G,
        thread: Thread<'a>,
        place: &Place<'a>,
    ) -> Result<(), AllocError>
        requires tasks { self.now.tasks.items ≡ [] }
        requires good { IsGood (state_of thread (place_of place.now)) }
        ensures done { OnOk result (self.new.tasks.items ≡ []) }
        ensures all { let p = place_of place.now in let gr = G.answer grammar.now in
            (pattern : Items) (all : List Waits) →
            Leads gr pattern p all self.old.waiting.items self.old.seen
            (GoOn (record { thread = thread.entry; taken = None }) ∷ []) →
            OnOk result (Leads gr pattern p all self.new.waiting.items self.new.seen
            self.new.tasks.items) }
    {
        self.go_on(arena, grammar, thread, place)?;
        while let Some(task) = self.tasks.pop() {
            self.step(arena, grammar, task, place)?;
        }
        Ok(())
    }

    // Appends the thread that waits after this one, if its way is clear. Answers the one that it
    // leads to if not.
    fn take_thread<G: FragmentGrammar>(
        &mut self,
        arena: &'a Bump,
        grammar: &G,
        thread: Thread<'a>,
        place: &Place<'a>,
    ) -> Result<Option<Thread<'a>>, AllocError>
        requires { IsGood (state_of thread (place_of place.now)) }
        ensures tasks { OnOk result (self.new.tasks.items ≡ self.old.tasks.items) }
        ensures seen { OnOk result (self.new.seen ≡ self.old.seen) }
        ensures open { IfOk result (λ o. IfSome o (λ t. self.new.waiting.items
            ≡ self.old.waiting.items)) }
        ensures good { IfOk result (λ o. IfSome o (λ t. IsGood (state_of t (place_of place.now)))) }
        ensures all { let p = place_of place.now in let gr = G.answer grammar.now in
            (pattern : Items) (all : List Waits) (ts : List SettleTask) →
            Leads gr pattern p all self.old.waiting.items self.old.seen (ts
            ++ going_on (Some thread.entry)) →
            IfOk result (λ o. Leads gr pattern p all self.new.waiting.items self.old.seen (ts
            ++ going_on o)) }
    {
        match thread.way(arena, grammar, place)? {
            Way::Waits(w) => {
                self.waiting.push(w)?;
                Ok(None)
            }
            Way::Stops => Ok(None),
            Way::Open(thread) => Ok(Some(thread)),
        }
    }

    // Appends the thread that waits after a choice, if there is one and its way is clear. Answers
    // the one that it leads to if not.
    #[inline(always)]
    fn take_choice<G: FragmentGrammar>(
        &mut self,
        arena: &'a Bump,
        grammar: &G,
        choice: Option<Choice<'a>>,
        place: &Place<'a>,
    ) -> Result<Option<Thread<'a>>, AllocError>
        requires { Each (HasEnd (place_of place.now)) (planned choice) }
        ensures tasks { OnOk result (self.new.tasks.items ≡ self.old.tasks.items) }
        ensures seen { OnOk result (self.new.seen ≡ self.old.seen) }
        ensures open { IfOk result (λ o. IfSome o (λ t. self.new.waiting.items
            ≡ self.old.waiting.items)) }
        ensures good { IfOk result (λ o. IfSome o (λ t. IsGood (state_of t (place_of place.now)))) }
        ensures all { let p = place_of place.now in let gr = G.answer grammar.now in
            (pattern : Items) (all : List Waits) (ts : List SettleTask) →
            Leads gr pattern p all self.old.waiting.items self.old.seen (ts
            ++ planned choice.entry) →
            IfOk result (λ o. Leads gr pattern p all self.new.waiting.items self.old.seen (ts
            ++ going_on o)) }
    {
        let Some(choice) = choice else {
            return Ok(None);
        };
        let thread = choice.thread;
        match choice.taken {
            Some(taken) => {
                self.waiting.push(Waiting::Pending { thread, taken })?;
                Ok(None)
            }
            None => {
                let open = self.take_thread(arena, grammar, thread, place)?;
                Ok(open)
            }
        }
    }

    // Settles a thread. If the ways of its choices are clear, there are no tasks.
    fn settle_open<G: FragmentGrammar>(
        &mut self,
        arena: &'a Bump,
        grammar: &G,
        thread: Thread<'a>,
        place: &Place<'a>,
    ) -> Result<(), AllocError>
        requires tasks { self.now.tasks.items ≡ [] }
        requires good { IsGood (state_of thread (place_of place.now)) }
        ensures done { OnOk result (self.new.tasks.items ≡ []) }
        ensures all { let p = place_of place.now in let gr = G.answer grammar.now in
            (pattern : Items) (all : List Waits) →
            Leads gr pattern p all self.old.waiting.items self.old.seen
            (GoOn (record { thread = thread.entry; taken = None }) ∷ []) →
            OnOk result (Leads gr pattern p all self.new.waiting.items self.new.seen
            self.new.tasks.items) }
    {
        if thread.has_ended(place) {
            self.settle(arena, grammar, thread, place)?;
            return Ok(());
        }
        let (first, second) = thread.choices(arena, grammar, place)?;
        if let Some(_) = self.take_choice(arena, grammar, first, place)? {
            self.settle(arena, grammar, thread, place)?;
            return Ok(());
        }
        if let Some(next) = self.take_choice(arena, grammar, second, place)? {
            self.settle(arena, grammar, next, place)?;
            return Ok(());
        }
        Ok(())
    }

    // Settles what a thread leads to that is alone. `place` moves there.
    #[inline(always)]
    fn settle_alone<G: FragmentGrammar>(
        &mut self,
        arena: &'a Bump,
        grammar: &G,
        thread: Thread<'a>,
        place: &mut Place<'a>,
    ) -> Result<Alone<'a>, AllocError>
        requires tasks { self.now.tasks.items ≡ [] }
        requires sound { (pattern : Items)
            × IsSound pattern (state_of thread (place_of place.old)) }
        ensures done { OnOk result (self.new.tasks.items ≡ []) }
        ensures alone { IfOk result (λ a. LeadsAlone (G.answer grammar.now)
            (moves_of thread.entry.moves) (state_of thread.entry (place_of place.old))
            (place_of place.new) a) }
        ensures all { let p = place_of place.new in let gr = G.answer grammar.now in
            (pattern : Items) (all : List Waits) (t : Thread) →
            Leads gr pattern p all self.old.waiting.items self.old.seen
            (GoOn (record { thread = t; taken = None }) ∷ []) →
            IfOk result (λ a. a ≡ Open t → Leads gr pattern p all self.new.waiting.items
            self.new.seen []) }
    {
        let alone = thread.go_alone(arena, grammar, place)?;
        match alone {
            Alone::Done(reading) => Ok(Alone::Done(reading)),
            Alone::Open(next) => {
                self.settle_open(arena, grammar, next, place)?;
                Ok(Alone::Open(next))
            }
        }
    }

    // Settles a thread. If its way is clear, there are no tasks.
    #[inline(always)]
    fn settle_clear<G: FragmentGrammar>(
        &mut self,
        arena: &'a Bump,
        grammar: &G,
        thread: Thread<'a>,
        place: &Place<'a>,
    ) -> Result<(), AllocError>
        requires tasks { self.now.tasks.items ≡ [] }
        requires good { IsGood (state_of thread (place_of place.now)) }
        ensures done { OnOk result (self.new.tasks.items ≡ []) }
        ensures all { let p = place_of place.now in let gr = G.answer grammar.now in
            (pattern : Items) (all : List Waits) →
            Leads gr pattern p all self.old.waiting.items self.old.seen
            (GoOn (record { thread = thread.entry; taken = None }) ∷ []) →
            OnOk result (Leads gr pattern p all self.new.waiting.items self.new.seen
            self.new.tasks.items) }
    {
        let Some(next) = self.take_thread(arena, grammar, thread, place)? else {
            return Ok(());
        };
        self.settle_open(arena, grammar, next, place)?;
        Ok(())
    }

    // Appends the threads that wait after one that waited at the position before, of which there
    // were `few`.
    #[inline(always)]
    fn advance<G: FragmentGrammar>(
        &mut self,
        arena: &'a Bump,
        grammar: &G,
        w: &Waiting<'a>,
        few: bool,
        place: &Place<'a>,
    ) -> Result<(), AllocError>
        requires tasks { self.now.tasks.items ≡ [] }
        requires sound { (pattern : Items)
            × IsSoundAt pattern (waiting_at (place_of place.now) w.now) }
        ensures done { OnOk result (self.new.tasks.items ≡ []) }
        ensures all { let p = place_of place.now in let gr = G.answer grammar.now in
            (pattern : Items) (all : List Waits) → IsSoundAt pattern (waiting_at p w.now) →
            Leads gr pattern p all self.old.waiting.items self.old.seen [] →
            OnOk result (Leads gr pattern p (all ++ advanced_by (settled_at gr)
            (waiting_at p w.now)) self.new.waiting.items self.new.seen []) }
    {
        match w {
            Waiting::Ended(moves) => {
                self.waiting.push(Waiting::Ended(*moves))?;
                Ok(())
            }
            Waiting::Pending { thread, .. } => {
                if few {
                    self.settle_clear(arena, grammar, *thread, place)?;
                    return Ok(());
                }
                self.settle(arena, grammar, *thread, place)?;
                Ok(())
            }
        }
    }

    // Finds the threads that wait after these, which waited at the position before.
    fn advance_all<G: FragmentGrammar>(
        &mut self,
        arena: &'a Bump,
        grammar: &G,
        waiting: &[Waiting<'a>],
        place: &Place<'a>,
    ) -> Result<(), AllocError>
        requires waiting { self.now.waiting.items ≡ [] }
        requires seen { self.now.seen ≡ [] }
        requires tasks { self.now.tasks.items ≡ [] }
        requires sound { (pattern : Items) × Each (IsSoundAt pattern) (waits_at (place_of place.now)
            waiting.now) }
        ensures done { OnOk result (self.new.tasks.items ≡ []) }
        ensures all { let p = place_of place.now in let gr = G.answer grammar.now in
            (pattern : Items) → Each (IsSoundAt pattern) (waits_at p waiting.now) →
            OnOk result (Leads gr pattern p (flat_map (advanced_by (settled_at gr))
            (waits_at p waiting.now)) self.new.waiting.items self.new.seen []) }
    {
        let few = waiting.len() <= FEW;
        for w in waiting {
            self.advance(arena, grammar, w, few, place)?;
        }
        Ok(())
    }

    // Hands over the threads that wait, and is left with none.
    #[inline(always)]
    fn hand_over(&mut self, waiting: &mut Vec<Waiting<'a>>)
        ensures handed { waiting.new.items ≡ self.old.waiting.items }
        ensures waiting { self.new.waiting.items ≡ [] }
        ensures seen { self.new.seen ≡ [] }
        ensures tasks { self.new.tasks.items ≡ self.old.tasks.items }
    {
        mem::swap(waiting, &mut self.waiting);
        self.waiting.clear();
        self.seen.clear();
    }
}

// Whether a thread consumes a fragment while another consumes something too.
#[inline]
fn has_clash(waiting: &[Waiting<'_>]) -> bool
    ensures { result ≡ clash (flat_map takings_of waiting.now) }
{
    let mut any = false;
    let mut fragment = false;
    for w in waiting {
        if let Waiting::Pending { taken, .. } = w {
            let is_fragment = taken.is_fragment();
            if any && (is_fragment || fragment) {
                return true;
            }
            any = true;
            fragment = fragment || is_fragment;
        }
    }
    false
}

// What the first waiting thread consumes.
#[inline]
fn first_taken(waiting: &[Waiting<'_>]) -> Option<Consumed>
    ensures { result ≡ head_taken waiting.now }
{
    for w in waiting {
        if let Waiting::Pending { taken, .. } = w {
            return Some(*taken);
        }
    }
    None
}

// The only list of moves, if no thread waits and there is exactly one.
fn only_ended<'a>(waiting: &[Waiting<'a>]) -> Option<Option<&'a Entry<'a>>>
    requires { head_taken waiting.now ≡ None }
    ensures { (p : u.Place) → option_map moves_of result
        ≡ only (flat_map finished (waits p waiting.now)) }
{
    if waiting.len() != 1 {
        return None;
    }
    match &waiting[0] {
        Waiting::Ended(moves) => Some(*moves),
        Waiting::Pending { .. } => None,
    }
}

// The thread that waits, if it is alone and has not ended.
fn only_thread<'a>(waiting: &[Waiting<'a>]) -> Option<Thread<'a>>
    ensures { IfSome result (λ t. (k : Consumed) × (waiting.now ≡ Pending t k ∷ [])) }
{
    let Some((first, others)) = waiting.split_first() else {
        return None;
    };
    if !others.is_empty() {
        return None;
    }
    match first {
        Waiting::Ended(_) => None,
        Waiting::Pending { thread, .. } => Some(*thread),
    }
}

/// The moves of the only reading in which a matcher uses up an argument: the last entry of the
/// log, or `None` in it if there are no moves. (The Rust Reference, "Macros By Example":
/// metavariables, forwarding a fragment.)
///
/// There is no such reading if no list of moves uses up the argument, if more than one does, or
/// if at some position a fragment is consumed on one way and something else on another. No
/// repetition of the matcher may iterate without end.
///
/// At most two threads of one state go on, however many lists of moves lead to it.
///
/// # Errors
///
/// `AllocError` if memory is refused.
pub fn match_pattern<'a, G: FragmentGrammar>(
    alloc: Global,
    arena: &'a Bump,
    grammar: &G,
    pattern: &'a [Op],
    argument: TokenTreesView<'a>,
) -> Result<Option<Option<&'a Entry<'a>>>, AllocError>
    requires { has_empty_round (items_of pattern.now) ≡ false }
    ensures { IfOk result (λ o. option_map moves_of o
        ≡ r.the_reading (G.answer grammar.now) (items_of pattern.now) (forest argument.entry)) }
{
    let mut place = Place::start(alloc, argument);
    let mut found = Settled::new(alloc);
    let first = Thread::start(pattern);
    if let Alone::Done(reading) = found.settle_alone(arena, grammar, first, &mut place)? {
        return Ok(reading);
    }
    let mut waiting = Vec::new(alloc);
    loop {
        if has_clash(&found.waiting) {
            return Ok(None);
        }
        let Some(taken) = first_taken(&found.waiting) else {
            return Ok(only_ended(&found.waiting));
        };
        place.pass(taken)?;
        found.hand_over(&mut waiting);
        let Some(thread) = only_thread(&waiting) else {
            found.advance_all(arena, grammar, &waiting, &place)?;
            continue;
        };
        if let Alone::Done(reading) = found.settle_alone(arena, grammar, thread, &mut place)? {
            return Ok(reading);
        }
    }
}

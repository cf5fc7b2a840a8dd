//! A survey of one position of an argument: all partial readings there go on together until each
//! waits, at the end or after a move that consumes something. Each state is entered twice at most.
//!
//! The matcher passes over readings that can come no further. Here they are kept, since an
//! explanation has to name what they want.
ghost use Rattle.std.specs.Prelude.{◌≡◌, ◌<◌, ◌≤◌, ◌+◌, List, [], ◌∷◌, ◌++◌, OnOk, Some, None};
ghost use Rattle.std.specs.List.{flat_map};
ghost use Rattle.mbe_rules.specs.Items.{Items};
ghost use Rattle.mbe_matcher.specs.Paths.{clash};
ghost use Rattle.mbe_matcher.specs.Places.{place_of};
ghost use Rattle.mbe_matcher.specs.Readings as r;
ghost use Rattle.mbe_matcher.specs.Settled.{IsGood, IsSoundAt, most_tasks};
ghost use Rattle.mbe_matcher.specs.Threads.{Waits, is_trees, state_of};
ghost use Rattle.mbe_matcher.specs.Waiting.{Each, advanced_by, empties_at, settled_at};
ghost use Rattle.mbe_explain.specs.Surveys.{HasEnd, LeadsOnOk, Surveys, comes_by, comes_of};
ghost use Rattle.mbe_explain.specs.Surveys.{head_taken, planned, takings_of};
ghost use Rattle.mbe_explain.specs.Surveys.{tasks_of, tasks_of_all};
ghost use Rattle.mbe_explain.specs.declared.survey.Task.TheVariants.{GoOn};

use crate::step::Step;
use bumpalo::Bump;
use mbe_matcher::{Consumed, FragmentGrammar, Place, Seen, SeenStates, Thread};
use std::alloc::{AllocError, Global};
use std::mem;

/// A task that is left at a position.
#[derive(Clone, Copy, Drop)]
pub(crate) enum Task<'a> {
    // To go on with a partial reading, if its last move consumed nothing.
    GoOn(Step<'a>),
    // To note that all that this one leads to waits.
    Note(Seen<'a>),
}

/// The partial readings that wait at a position, the states that were entered there, and the tasks
/// that are left, the next one last.
#[derive(Drop)]
pub(crate) struct Survey<'a> {
    pub(crate) waiting: Vec<Step<'a>>,
    pub(crate) seen: SeenStates<'a>,
    pub(crate) tasks: Vec<Task<'a>>,
}

// Whether the matcher and the argument are read to their ends.
fn has_ended(thread: &Thread<'_>, place: &Place<'_>) -> bool
    ensures { result ≡ r.has_used_up (state_of thread.now (place_of place.now)) }
{
    place.is_end() && thread.is_past_pattern()
}

impl<'a> Survey<'a> {
    /// Nothing waits, and no task is left.
    pub(crate) fn new(alloc: Global) -> Survey<'a>
        ensures waiting { result.waiting.items ≡ [] }
        ensures seen { result.seen ≡ [] }
        ensures tasks { result.tasks.items ≡ [] }
    {
        Survey {
            waiting: Vec::new(alloc),
            seen: SeenStates::new(alloc),
            tasks: Vec::new(alloc),
        }
    }

    /// Plans a step as the next task, if there is one.
    pub(crate) fn plan(&mut self, step: Option<Step<'a>>) -> Result<(), AllocError>
        ensures waiting { OnOk result (self.new.waiting.items ≡ self.old.waiting.items) }
        ensures seen { OnOk result (self.new.seen ≡ self.old.seen) }
        ensures tasks { OnOk result
            (self.new.tasks.items ≡ self.old.tasks.items ++ planned step.entry) }
    {
        match step {
            None => Ok(()),
            Some(step) => {
                self.tasks.push(Task::GoOn(step))?;
                Ok(())
            }
        }
    }

    // Goes on with a thread that has consumed nothing here.
    fn go_on<G: FragmentGrammar>(
        &mut self,
        arena: &'a Bump,
        grammar: &G,
        step: Step<'a>,
        place: &Place<'a>,
    ) -> Result<(), AllocError>
        requires here { step.taken ≡ None }
        requires good { IsGood (state_of step.thread (place_of place.now)) }
        requires tasks { Each (HasEnd (place_of place.now)) self.now.tasks.items }
        ensures all { LeadsOnOk (G.answer grammar.now) (place_of place.now)
            self.old (self.old.tasks.items ++ (GoOn step.entry ∷ [])) result self.new }
        ensures tasks { OnOk result (Each (HasEnd (place_of place.now)) self.new.tasks.items) }
        ensures fewer { let p = place_of place.now in let state = state_of step.entry.thread p in
            OnOk result (tasks_of_all p self.new.tasks.items + 2
            ≤ tasks_of_all p self.old.tasks.items + most_tasks (empties_at state)) }
    {
        if has_ended(&step.thread, place) {
            self.waiting.push(step.ended())?;
            return Ok(());
        }
        let (first, second) = step.choices(arena, grammar, place)?;
        self.plan(second)?;
        self.plan(first)?;
        Ok(())
    }

    // Goes on with a thread and notes it, unless two were in its state: these show that no reading
    // through it is the only one.
    fn enter<G: FragmentGrammar>(
        &mut self,
        arena: &'a Bump,
        grammar: &G,
        step: Step<'a>,
        place: &Place<'a>,
    ) -> Result<(), AllocError>
        requires here { step.taken ≡ None }
        requires good { IsGood (state_of step.thread (place_of place.now)) }
        requires tasks { Each (HasEnd (place_of place.now)) self.now.tasks.items }
        ensures all { LeadsOnOk (G.answer grammar.now) (place_of place.now)
            self.old (self.old.tasks.items ++ (GoOn step.entry ∷ [])) result self.new }
        ensures tasks { OnOk result (Each (HasEnd (place_of place.now)) self.new.tasks.items) }
        ensures fewer { let p = place_of place.now in let state = state_of step.entry.thread p in
            OnOk result (tasks_of_all p self.new.tasks.items
            < tasks_of_all p self.old.tasks.items + most_tasks (empties_at state)) }
    {
        let thread = step.thread;
        let twice = self.seen.was_settled(&thread);
        if twice && self.seen.was_settled_twice(&thread) {
            return Ok(());
        }
        self.tasks.push(Task::Note(Seen { thread, twice }))?;
        self.go_on(arena, grammar, step, place)?;
        Ok(())
    }

    // Does a task.
    fn perform<G: FragmentGrammar>(
        &mut self,
        arena: &'a Bump,
        grammar: &G,
        task: Task<'a>,
        place: &Place<'a>,
    ) -> Result<(), AllocError>
        requires task { HasEnd (place_of place.now) task }
        requires tasks { Each (HasEnd (place_of place.now)) self.now.tasks.items }
        ensures all { LeadsOnOk (G.answer grammar.now) (place_of place.now)
            self.old (self.old.tasks.items ++ (task.entry ∷ [])) result self.new }
        ensures tasks { OnOk result (Each (HasEnd (place_of place.now)) self.new.tasks.items) }
        ensures fewer { let p = place_of place.now in
            OnOk result (tasks_of_all p self.new.tasks.items
            < tasks_of_all p self.old.tasks.items + tasks_of p task.entry) }
    {
        match task {
            Task::Note(seen) => {
                self.seen.push(seen)?;
                Ok(())
            }
            Task::GoOn(step) => match step.taken {
                Some(_) => {
                    self.waiting.push(step)?;
                    Ok(())
                }
                None => {
                    self.enter(arena, grammar, step, place)?;
                    Ok(())
                }
            },
        }
    }

    // Makes the moves of a thread that consume nothing, and appends what waits then.
    fn settle<G: FragmentGrammar>(
        &mut self,
        arena: &'a Bump,
        grammar: &G,
        step: Step<'a>,
        place: &Place<'a>,
    ) -> Result<(), AllocError>
        requires tasks { self.now.tasks.items ≡ [] }
        requires here { step.taken ≡ None }
        requires good { IsGood (state_of step.thread (place_of place.now)) }
        ensures done { OnOk result (self.new.tasks.items ≡ []) }
        ensures all { LeadsOnOk (G.answer grammar.now) (place_of place.now)
            self.old (GoOn step.entry ∷ []) result self.new }
    {
        self.enter(arena, grammar, step, place)?;
        while let Some(task) = self.tasks.pop() {
            self.perform(arena, grammar, task, place)?;
        }
        Ok(())
    }

    // Appends what waits after this, which waited at the position before.
    fn advance<G: FragmentGrammar>(
        &mut self,
        arena: &'a Bump,
        grammar: &G,
        step: &Step<'a>,
        place: &Place<'a>,
    ) -> Result<(), AllocError>
        requires tasks { self.now.tasks.items ≡ [] }
        requires sound { (pattern : Items)
            × IsSoundAt pattern (comes_by (place_of place.now) step.now) }
        ensures done { OnOk result (self.new.tasks.items ≡ []) }
        ensures all { let p = place_of place.now in let gr = G.answer grammar.now in
            (pattern : Items) (all : List Waits) →
            IsSoundAt pattern (comes_by p step.now) → Surveys gr pattern p all self.old [] →
            OnOk result (Surveys gr pattern p
            (all ++ advanced_by (settled_at gr) (comes_by p step.now)) self.new []) }
    {
        match step.taken {
            None => {
                self.waiting.push(*step)?;
                Ok(())
            }
            Some(_) => {
                self.settle(arena, grammar, step.ended(), place)?;
                Ok(())
            }
        }
    }

    /// Finds what waits after these, which waited at the position before.
    pub(crate) fn advance_all<G: FragmentGrammar>(
        &mut self,
        arena: &'a Bump,
        grammar: &G,
        steps: &[Step<'a>],
        place: &Place<'a>,
    ) -> Result<(), AllocError>
        requires waiting { self.now.waiting.items ≡ [] }
        requires seen { self.now.seen ≡ [] }
        requires tasks { self.now.tasks.items ≡ [] }
        requires sound { (pattern : Items)
            × Each (IsSoundAt pattern) (comes_of (place_of place.now) steps.now) }
        ensures done { OnOk result (self.new.tasks.items ≡ []) }
        ensures all { let p = place_of place.now in let gr = G.answer grammar.now in
            (pattern : Items) → Each (IsSoundAt pattern) (comes_of p steps.now) →
            OnOk result (Surveys gr pattern p
            (flat_map (advanced_by (settled_at gr)) (comes_of p steps.now)) self.new []) }
    {
        for step in steps {
            self.advance(arena, grammar, step, place)?;
        }
        Ok(())
    }

    /// Hands over what waits, and is left with nothing.
    pub(crate) fn hand_over(&mut self, waiting: &mut Vec<Step<'a>>)
        ensures handed { waiting.new.items ≡ self.old.waiting.items }
        ensures waiting { self.new.waiting.items ≡ [] }
        ensures seen { self.new.seen ≡ [] }
        ensures tasks { self.new.tasks.items ≡ self.old.tasks.items }
    {
        mem::swap(waiting, &mut self.waiting);
        self.waiting.clear();
        self.seen.clear();
    }
}

// Whether a move consumes a fragment.
fn is_fragment(taken: Consumed) -> bool
    ensures { result ≡ is_trees (Some taken) }
{
    match taken {
        Consumed::Unit => false,
        Consumed::Fragment(_) => true,
    }
}

/// Whether one partial reading consumes a fragment while another consumes something too.
pub(crate) fn has_clash(waiting: &[Step<'_>]) -> bool
    ensures { result ≡ clash (takings_of waiting.now) }
{
    let mut any = false;
    let mut fragment = false;
    for step in waiting {
        if let Some(taken) = step.taken {
            let now = is_fragment(taken);
            if any && (now || fragment) {
                return true;
            }
            any = true;
            fragment = fragment || now;
        }
    }
    false
}

/// What the first of these consumes.
pub(crate) fn first_taken(waiting: &[Step<'_>]) -> Option<Consumed>
    ensures { result ≡ head_taken waiting.now }
{
    for step in waiting {
        if let Some(taken) = step.taken {
            return Some(taken);
        }
    }
    None
}

//! A search of all states that are entered at a position, each once, for what they want.
ghost use Rattle.std.specs.Prelude.{◌≡◌, ◌↔◌, ◌<◌, ◌+◌, List, [], ◌∷◌, ◌++◌, IfOk, OnOk};
ghost use Rattle.std.specs.Prelude.{None, Some};
ghost use Rattle.mbe_rules.specs.Items.{Items};
ghost use Rattle.mbe_matcher.specs.Paths.{IsAmong};
ghost use Rattle.mbe_matcher.specs.Places.{place_of};
ghost use Rattle.mbe_matcher.specs.Positions.{IsIn};
ghost use Rattle.mbe_matcher.specs.Readings as r;
ghost use Rattle.mbe_matcher.specs.Settled.{IsGood, IsSoundAt, most_tasks};
ghost use Rattle.mbe_matcher.specs.Threads.{state_of};
ghost use Rattle.mbe_matcher.specs.Units as u;
ghost use Rattle.mbe_matcher.specs.Waiting.{Each, empties_at};
ghost use Rattle.mbe_explain.specs.Searches.{IsNearWant, SearchedAt, come_by, come_to, open_of};
ghost use Rattle.mbe_explain.specs.Stops as s;
ghost use Rattle.mbe_explain.specs.Surveys.{HasEnd, comes_by, comes_of, tasks_of, tasks_of_all};
ghost use Rattle.mbe_explain.specs.Wants.{told_by, wants_of};

use crate::step::Step;
use crate::survey::{Survey, Task};
use crate::wanted::Wanted;
use bumpalo::Bump;
use mbe_matcher::{FragmentGrammar, Place, Seen};
use std::alloc::{AllocError, Global};

// Adds what is wanted, if anything.
fn tell<'a>(wanted: &mut Vec<Wanted<'a>>, want: Option<Wanted<'a>>) -> Result<(), AllocError>
    ensures { OnOk result
        (wants_of wanted.new.items ≡ wants_of wanted.old.items ++ told_by want.entry) }
{
    match want {
        None => Ok(()),
        Some(want) => {
            wanted.push(want)?;
            Ok(())
        }
    }
}

impl<'a> Survey<'a> {
    // Enters the state of a step, unless it was entered, and tells what it wants.
    fn visit<G: FragmentGrammar>(
        &mut self,
        arena: &'a Bump,
        grammar: &G,
        step: Step<'a>,
        place: &Place<'a>,
        wanted: &mut Vec<Wanted<'a>>,
    ) -> Result<(), AllocError>
        requires good { IsGood (state_of step.thread (place_of place.now)) }
        requires tasks { Each (HasEnd (place_of place.now)) self.now.tasks.items }
        ensures searched { let p = place_of place.now in let gr = G.answer grammar.now in
            (pattern : Items) (entries : List r.State) →
            ((x : r.State) → IsAmong x entries → IsIn pattern x) →
            SearchedAt gr entries p self.old wanted.old.items
            (open_of p self.old.tasks.items ++ (state_of step.entry.thread p ∷ [])) →
            OnOk result (SearchedAt gr entries p self.new wanted.new.items
            (open_of p self.new.tasks.items)) }
        ensures tasks { OnOk result (Each (HasEnd (place_of place.now)) self.new.tasks.items) }
        ensures fewer { let p = place_of place.now in let state = state_of step.entry.thread p in
            OnOk result (tasks_of_all p self.new.tasks.items
            < tasks_of_all p self.old.tasks.items + most_tasks (empties_at state)) }
    {
        let thread = step.thread;
        if self.seen.was_settled(&thread) {
            return Ok(());
        }
        let twice = false;
        self.seen.push(Seen { thread, twice })?;
        tell(wanted, step.wanted())?;
        let (first, second) = step.choices(arena, grammar, place)?;
        self.plan(second)?;
        self.plan(first)?;
        Ok(())
    }

    // Does a task of a search.
    fn look<G: FragmentGrammar>(
        &mut self,
        arena: &'a Bump,
        grammar: &G,
        task: Task<'a>,
        place: &Place<'a>,
        wanted: &mut Vec<Wanted<'a>>,
    ) -> Result<(), AllocError>
        requires task { HasEnd (place_of place.now) task }
        requires tasks { Each (HasEnd (place_of place.now)) self.now.tasks.items }
        ensures searched { let p = place_of place.now in let gr = G.answer grammar.now in
            (pattern : Items) (entries : List r.State) →
            ((x : r.State) → IsAmong x entries → IsIn pattern x) →
            SearchedAt gr entries p self.old wanted.old.items
            (open_of p (self.old.tasks.items ++ (task.entry ∷ []))) →
            OnOk result (SearchedAt gr entries p self.new wanted.new.items
            (open_of p self.new.tasks.items)) }
        ensures tasks { OnOk result (Each (HasEnd (place_of place.now)) self.new.tasks.items) }
        ensures fewer { let p = place_of place.now in
            OnOk result (tasks_of_all p self.new.tasks.items
            < tasks_of_all p self.old.tasks.items + tasks_of p task.entry) }
    {
        match task {
            Task::Note(_) => Ok(()),
            Task::GoOn(step) => match step.taken {
                Some(_) => Ok(()),
                None => {
                    self.visit(arena, grammar, step, place, wanted)?;
                    Ok(())
                }
            },
        }
    }

    // Plans a step that has come to a position, unless it has ended.
    fn plan_entry(&mut self, step: &Step<'a>) -> Result<(), AllocError>
        ensures seen { OnOk result (self.new.seen ≡ self.old.seen) }
        ensures due { (p : u.Place) → OnOk result
            (open_of p self.new.tasks.items
            ≡ open_of p self.old.tasks.items ++ come_by p step.now) }
        ensures tasks { (pattern : Items) (p : u.Place) →
            IsSoundAt pattern (comes_by p step.now) → Each (HasEnd p) self.old.tasks.items →
            OnOk result (Each (HasEnd p) self.new.tasks.items) }
    {
        match step.taken {
            None => Ok(()),
            Some(_) => {
                self.plan(Some(step.ended()))?;
                Ok(())
            }
        }
    }

    // Plans the steps that have come to a position, the first one as the next task.
    fn plan_entries(&mut self, steps: &[Step<'a>]) -> Result<(), AllocError>
        requires { self.now.tasks.items ≡ [] }
        ensures seen { OnOk result (self.new.seen ≡ self.old.seen) }
        ensures due { (p : u.Place) →
            OnOk result (open_of p self.new.tasks.items ≡ come_to p steps.now) }
        ensures tasks { (pattern : Items) (p : u.Place) →
            Each (IsSoundAt pattern) (comes_of p steps.now) →
            OnOk result (Each (HasEnd p) self.new.tasks.items) }
    {
        let mut left = steps.len();
        while left > 0 {
            left -= 1;
            self.plan_entry(&steps[left])?;
        }
        Ok(())
    }
}

/// What all states want that are entered from those that have come to a position.
pub(crate) fn wanted_at<'a, G: FragmentGrammar>(
    alloc: Global,
    arena: &'a Bump,
    grammar: &G,
    steps: &[Step<'a>],
    place: &Place<'a>,
) -> Result<Vec<Wanted<'a>>, AllocError>
    requires { (pattern : Items)
        × Each (IsSoundAt pattern) (comes_of (place_of place.now) steps.now) }
    ensures { let p = place_of place.now in let gr = G.answer grammar.now in
        IfOk result (λ ws. (w : s.Wanted) →
        IsAmong (Some w) (wants_of ws.items) ↔ IsNearWant gr (come_to p steps.now) w) }
{
    let mut survey = Survey::new(alloc);
    let mut wanted = Vec::new(alloc);
    survey.plan_entries(steps)?;
    while let Some(task) = survey.tasks.pop() {
        survey.look(arena, grammar, task, place, &mut wanted)?;
    }
    Ok(wanted)
}

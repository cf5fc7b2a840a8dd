//! A walk over the repetitions of a transcriber, iteration by iteration. What is left to look at
//! is on a stack in memory, so that nesting takes no call stack.
ghost use Rattle.std.specs.Prelude.{◌≡◌, ◌≤◌, ◌+◌, ◌*◌, ◌<◌, ◌∷◌, ◌++◌, [], IfOk, OnOk};
ghost use Rattle.std.specs.Prelude.{option_map, reverse};
ghost use Rattle.std.specs.Option.{option_or};
ghost use Rattle.mbe_rules.specs.Items.{done};
ghost use Rattle.mbe_rules.specs.Ops.{items_of, put_op};
ghost use Rattle.mbe_matcher.specs.Bindings.{Map};
ghost use Rattle.mbe_matcher.specs.Bound.{map_of};
ghost use Rattle.mbe_transcriber.specs.Limits.{most_rounds};
ghost use Rattle.mbe_transcriber.specs.Tasks.{work_of};
ghost use Rattle.rule_bindings.specs.Given.{unequal_given};
ghost use Rattle.rule_bindings.specs.Notes.{first_unequal, rounds_made, unequal_in};
ghost use Rattle.rule_bindings.specs.Walks.{left_in, unequal_here, weight_of};
ghost use Rattle.rule_bindings.specs.Walks.{weight_of_all};
ghost use Rattle.rule_bindings.specs.declared.rounds.Task.TheVariants.{Items, Round};

use crate::rounds::{Rounds, Task};
use crate::unequal::{Unequal, first_counted, other_counted};
use mbe_matcher::Bindings;
use mbe_rules::{Op, RepeatKind};
use std::alloc::{AllocError, Global};

// The most iterations that a transcriber makes of a repetition.
const MOST_ROUNDS: usize = 65535;

// How many iterations a transcriber makes of a repetition whose metavariables have as many.
fn rounds_made(kind: RepeatKind, count: usize) -> usize
    ensures made { result ≡ rounds_made kind count }
    ensures fits { result ≤ most_rounds }
{
    match kind {
        RepeatKind::ZeroOrOne => count.min(1),
        _ => count.min(MOST_ROUNDS),
    }
}

// What is left to look at, what comes next last, and the numbers of the open iterations.
#[derive(Drop)]
pub(crate) struct Walk<'t> {
    pub(crate) tasks: Vec<Task<'t>>,
    pub(crate) rounds: Vec<usize>,
}

impl<'t> Walk<'t> {
    // Goes on with the iterations of a repetition, unless its metavariables have not as many.
    fn enter_rounds(
        &mut self,
        body: &'t [Op],
        kind: RepeatKind,
        bindings: &Bindings<'_>,
    ) -> Result<Option<Unequal<'t>>, AllocError>
        ensures left { IfOk result (λ o. option_or (option_map unequal_given o)
            (left_in (map_of bindings.now) (reverse self.new.tasks.items) self.new.rounds.items)
            ≡ option_or (unequal_here (map_of bindings.now) self.old.rounds.items
            (items_of body.now) kind)
            (left_in (map_of bindings.now) (reverse self.old.tasks.items)
            self.old.rounds.items)) }
        ensures fewer { OnOk result (weight_of_all self.new.tasks.items
            ≤ weight_of_all self.old.tasks.items + (1 + 65535 * (work_of (items_of body.now) + 3))) }
    {
        let Some(one) = first_counted(body, bindings, &self.rounds)? else {
            return Ok(None);
        };
        if let Some(other) = other_counted(body, bindings, &self.rounds, one.count)? {
            return Ok(Some(Unequal { one, other }));
        }
        let left = rounds_made(kind, one.count);
        self.tasks.push(Task::Round(Rounds {
            body,
            number: 0,
            left,
        }))?;
        Ok(None)
    }

    // Goes on with the ops inside of one.
    fn enter(
        &mut self,
        op: &'t Op,
        bindings: &Bindings<'_>,
    ) -> Result<Option<Unequal<'t>>, AllocError>
        ensures left { IfOk result (λ o. option_or (option_map unequal_given o)
            (left_in (map_of bindings.now) (reverse self.new.tasks.items) self.new.rounds.items)
            ≡ option_or (unequal_in (map_of bindings.now) self.old.rounds.items
            (put_op op.now done))
            (left_in (map_of bindings.now) (reverse self.old.tasks.items)
            self.old.rounds.items)) }
        ensures fewer { OnOk result (weight_of_all self.new.tasks.items
            < weight_of_all self.old.tasks.items + work_of (put_op op.now done)) }
    {
        match op {
            Op::Subtree { tokens, .. } => {
                self.tasks.push(Task::Items(tokens))?;
                Ok(None)
            }
            Op::Repeat { tokens, kind, .. } => self.enter_rounds(tokens, *kind, bindings),
            _ => Ok(None),
        }
    }

    // Goes on with the first of some ops, and plans the others.
    fn enter_first(
        &mut self,
        ops: &'t [Op],
        bindings: &Bindings<'_>,
    ) -> Result<Option<Unequal<'t>>, AllocError>
        ensures left { IfOk result (λ o. option_or (option_map unequal_given o)
            (left_in (map_of bindings.now) (reverse self.new.tasks.items) self.new.rounds.items)
            ≡ left_in (map_of bindings.now) (Items ops.entry ∷ reverse self.old.tasks.items)
            self.old.rounds.items) }
        ensures fewer { OnOk result (weight_of_all self.new.tasks.items
            < weight_of_all self.old.tasks.items + weight_of (Items ops.entry)) }
    {
        let Some((first, rest)) = ops.split_first() else {
            return Ok(None);
        };
        self.tasks.push(Task::Items(rest))?;
        self.enter(first, bindings)
    }

    // Goes on with the first of some iterations, and plans the others.
    fn enter_round(&mut self, it: Rounds<'t>) -> Result<(), AllocError>
        ensures left { (m : Map) → OnOk result
            (left_in m (reverse self.new.tasks.items) self.new.rounds.items
            ≡ left_in m (Round it.entry ∷ reverse self.old.tasks.items) self.old.rounds.items) }
        ensures fewer { OnOk result (weight_of_all self.new.tasks.items
            < weight_of_all self.old.tasks.items + weight_of (Round it.entry)) }
    {
        if it.left == 0 {
            return Ok(());
        }
        self.tasks.push(Task::Round(Rounds {
            body: it.body,
            number: it.number + 1,
            left: it.left - 1,
        }))?;
        self.tasks.push(Task::Leave)?;
        self.tasks.push(Task::Items(it.body))?;
        self.rounds.push(it.number)?;
        Ok(())
    }

    // Does a task.
    fn step(
        &mut self,
        task: Task<'t>,
        bindings: &Bindings<'_>,
    ) -> Result<Option<Unequal<'t>>, AllocError>
        ensures left { IfOk result (λ o. option_or (option_map unequal_given o)
            (left_in (map_of bindings.now) (reverse self.new.tasks.items) self.new.rounds.items)
            ≡ left_in (map_of bindings.now) (task.entry ∷ reverse self.old.tasks.items)
            self.old.rounds.items) }
        ensures fewer { OnOk result (weight_of_all self.new.tasks.items
            < weight_of_all self.old.tasks.items + weight_of task.entry) }
    {
        match task {
            Task::Items(ops) => self.enter_first(ops, bindings),
            Task::Round(it) => {
                self.enter_round(it)?;
                Ok(None)
            }
            Task::Leave => {
                let _ = self.rounds.pop();
                Ok(None)
            }
        }
    }
}

/// The first repetition of a transcriber whose metavariables have not as many iterations.
pub(crate) fn first_unequal<'t>(
    alloc: Global,
    bindings: &Bindings<'_>,
    template: &'t [Op],
) -> Result<Option<Unequal<'t>>, AllocError>
    ensures { IfOk result (λ o. option_map unequal_given o
        ≡ first_unequal (map_of bindings.now) (items_of template.now)) }
{
    let mut walk = Walk {
        tasks: Vec::new(alloc),
        rounds: Vec::new(alloc),
    };
    walk.tasks.push(Task::Items(template))?;
    while let Some(task) = walk.tasks.pop() {
        let found = walk.step(task, bindings)?;
        if found.is_some() {
            return Ok(found);
        }
    }
    Ok(None)
}

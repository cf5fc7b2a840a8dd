//! Transcribes on after faults, task by task on a stack in memory, so that nesting is limited by
//! memory alone.
ghost use Rattle.std.specs.Prelude.{◌≡◌, ◌<◌, ◌≤◌, ◌+◌, ◌-◌, ◌*◌, OnOk};
ghost use Rattle.mbe_rules.specs.Items.{done};
ghost use Rattle.mbe_rules.specs.Ops.{items_of, put_op};
ghost use Rattle.mbe_transcriber.specs.Tasks.{work_of};
ghost use Rattle.mbe.specs.FailureTasks.{tasks_of, tasks_of_all};

use crate::recovery::placeholders::put_separator;
use crate::recovery::transcribe::{Filler, MOST_ROUNDS, Next, Told};
use mbe_rules::{ExpandError, ExpandErrorKind, Op, RepeatKind, Separator};
use std::alloc::{AllocError, Global};
use tt::{Delimiter, Span, SubtreeBuilderRestorePoint, TopSubtreeBuilder, TtFault};

// A repetition with an open iteration.
#[derive(Drop)]
pub(crate) struct Repetition<'t> {
    pub(crate) body: &'t [Op],
    pub(crate) separator: &'t Option<Separator>,
    pub(crate) kind: RepeatKind,
    // Where the output of its iterations begins.
    pub(crate) start: SubtreeBuilderRestorePoint,
    // The index of the open iteration.
    pub(crate) round: usize,
    // The first fault before it.
    pub(crate) before: Option<ExpandError>,
    // The first fault in the iterations that have ended.
    pub(crate) error: Option<ExpandError>,
}

// A task that is left.
#[derive(Drop)]
pub(crate) enum RecoveryTask<'t> {
    // To transcribe these ops.
    Items(&'t [Op]),
    // To close a group whose closing delimiter has this span in the transcriber.
    Close(Span),
    // To end an iteration.
    Round(Repetition<'t>),
}

// The tasks that are left, the next one last; the indices of the open iterations, the innermost
// last; and the first fault in the innermost one.
#[derive(Drop)]
pub(crate) struct Left<'t> {
    pub(crate) tasks: Vec<RecoveryTask<'t>>,
    pub(crate) rounds: Vec<usize>,
    pub(crate) error: Option<ExpandError>,
}

impl<'t> Repetition<'t> {
    // The repetition after an iteration whose first fault is `next`.
    fn after(self, next: Option<ExpandError>) -> Repetition<'t>
        ensures body { result.body ≡ self.entry.body }
        ensures round { result.round ≡ self.entry.round }
    {
        let Repetition { error, .. } = self;
        let error = error.or(next);
        Repetition { error, ..self }
    }
}

impl<'t> Left<'t> {
    // Nothing is left to do.
    fn new(alloc: Global) -> Left<'t> {
        Left {
            tasks: Vec::new(alloc),
            rounds: Vec::new(alloc),
            error: None,
        }
    }

    // Adds a task, which comes next.
    fn plan(&mut self, task: RecoveryTask<'t>) -> Result<(), AllocError>
        ensures { OnOk result (tasks_of_all self.new.tasks.items ≡ tasks_of_all self.old.tasks.items
            + tasks_of task.entry) }
    {
        self.tasks.push(task)?;
        Ok(())
    }

    // Keeps a fault if it is the first.
    fn tell(&mut self, told: Option<ExpandError>)
        ensures { self.new.tasks.items ≡ self.old.tasks.items }
    {
        let error = self.error.take();
        self.error = error.or(told);
    }

    // Opens the iteration of this index.
    fn begin_round(&mut self, number: usize) -> Result<(), AllocError>
        ensures { OnOk result (self.new.tasks.items ≡ self.old.tasks.items) }
    {
        self.rounds.push(number)?;
        Ok(())
    }

    // Ends the iterations of a repetition. `before` is the first fault before it, and `told` the
    // first one in it.
    fn end_rounds(&mut self, before: Option<ExpandError>, told: Option<ExpandError>)
        ensures { self.new.tasks.items ≡ self.old.tasks.items }
    {
        let _ = self.rounds.pop();
        self.error = before.or(told);
    }
}

impl<'f, 'a, M: Fn(Span) -> Span> Filler<'f, 'a, M> {
    // Ends a repetition that has no more iterations.
    fn end<'t>(&self, left: &mut Left<'t>, repetition: Repetition<'t>) -> Result<(), TtFault>
        ensures { OnOk result (left.new.tasks.items ≡ left.old.tasks.items) }
    {
        let Repetition {
            kind,
            round,
            before,
            error,
            body: _,
            separator: _,
            start: _,
        } = repetition;
        let mut told = error;
        if round == 0 && kind == RepeatKind::OneOrMore {
            told = self.told(self.call_site, ExpandErrorKind::UnexpectedToken)?;
        }
        left.end_rounds(before, told);
        Ok(())
    }

    // Ends a repetition with too many iterations. Their output is removed.
    fn end_at_limit<'t>(
        &self,
        out: &mut TopSubtreeBuilder,
        left: &mut Left<'t>,
        repetition: Repetition<'t>,
    ) -> Result<(), TtFault>
        ensures { OnOk result (left.new.tasks.items ≡ left.old.tasks.items) }
    {
        out.restore(repetition.start)?;
        let told = self.told(self.call_site, ExpandErrorKind::LimitExceeded)?;
        left.end_rounds(repetition.before, told);
        Ok(())
    }

    // Transcribes the open iteration of a repetition if there is one more, after a separator if
    // `is_parted`.
    fn go_on<'t>(
        &self,
        out: &mut TopSubtreeBuilder,
        left: &mut Left<'t>,
        repetition: Repetition<'t>,
        is_parted: bool,
    ) -> Result<(), TtFault>
        requires { repetition.round ≤ 65535 }
        ensures { OnOk result (tasks_of_all left.new.tasks.items < tasks_of_all left.old.tasks.items
            + (65536 - repetition.entry.round) * (work_of (items_of repetition.entry.body.now)
            + 3)) }
    {
        match self.next_round(repetition.body, &left.rounds)? {
            Next::None => self.end(left, repetition),
            Next::TooMany => self.end_at_limit(out, left, repetition),
            Next::One => {
                if is_parted {
                    put_separator(out, repetition.separator)?;
                }
                let body = repetition.body;
                left.plan(RecoveryTask::Round(repetition))?;
                left.plan(RecoveryTask::Items(body))?;
                Ok(())
            }
        }
    }

    // Ends an iteration, and goes on with the next one.
    fn end_round<'t>(
        &self,
        out: &mut TopSubtreeBuilder,
        left: &mut Left<'t>,
        repetition: Repetition<'t>,
    ) -> Result<(), TtFault>
        ensures { OnOk result (tasks_of_all left.new.tasks.items < tasks_of_all left.old.tasks.items
            + (1 + (65535 - repetition.entry.round) * (work_of (items_of repetition.entry.body.now)
            + 3))) }
    {
        let next = left.error.take();
        let is_parted = next.is_none();
        let repetition = repetition.after(next);
        let round = repetition.round;
        if round >= MOST_ROUNDS || (is_parted && repetition.kind == RepeatKind::ZeroOrOne) {
            return self.end(left, repetition);
        }
        let _ = left.rounds.pop();
        left.begin_round(round + 1)?;
        let repetition = Repetition {
            round: round + 1,
            ..repetition
        };
        self.go_on(out, left, repetition, is_parted)
    }
}

impl<'f, 'a, M: Fn(Span) -> Span> Filler<'f, 'a, M> {
    // Begins a repetition.
    fn begin<'t>(
        &self,
        out: &mut TopSubtreeBuilder,
        left: &mut Left<'t>,
        body: &'t [Op],
        separator: &'t Option<Separator>,
        kind: RepeatKind,
    ) -> Result<(), TtFault>
        ensures { OnOk result (tasks_of_all left.new.tasks.items < tasks_of_all left.old.tasks.items
            + 65536 * (work_of (items_of body.now) + 3)) }
    {
        let start = out.restore_point();
        left.begin_round(0)?;
        let before = left.error.take();
        let repetition = Repetition {
            body,
            separator,
            kind,
            start,
            round: 0,
            before,
            error: None,
        };
        self.go_on(out, left, repetition, false)
    }

    // Begins a group.
    fn enter<'t>(
        &self,
        out: &mut TopSubtreeBuilder,
        left: &mut Left<'t>,
        delimiter: Delimiter,
        inner: &'t [Op],
    ) -> Result<(), TtFault>
        requires { M.IsAlwaysCallable self.now.marker.now }
        ensures { OnOk result (tasks_of_all left.new.tasks.items < tasks_of_all left.old.tasks.items
            + (3 + work_of (items_of inner.now))) }
    {
        out.open(delimiter.kind, self.mark(delimiter.open_span))?;
        left.plan(RecoveryTask::Close(delimiter.close_span))?;
        left.plan(RecoveryTask::Items(inner))?;
        Ok(())
    }

    // Transcribes an op, or begins it if it has ops inside.
    fn put_op<'t>(
        &self,
        out: &mut TopSubtreeBuilder,
        left: &mut Left<'t>,
        op: &'t Op,
    ) -> Result<(), TtFault>
        requires { M.IsAlwaysCallable self.now.marker.now }
        ensures { OnOk result (tasks_of_all left.new.tasks.items < tasks_of_all left.old.tasks.items
            + work_of (put_op op.now done)) }
    {
        match op {
            Op::Repeat {
                tokens,
                separator,
                kind,
            } => self.begin(out, left, tokens, separator, *kind),
            Op::Subtree { tokens, delimiter } => self.enter(out, left, *delimiter, tokens),
            _ => {
                let told = self.dollar(out, &left.rounds, op)?;
                left.tell(told);
                Ok(())
            }
        }
    }

    // Does a task.
    fn step<'t>(
        &self,
        out: &mut TopSubtreeBuilder,
        left: &mut Left<'t>,
        task: RecoveryTask<'t>,
    ) -> Result<(), TtFault>
        requires { M.IsAlwaysCallable self.now.marker.now }
        ensures { OnOk result (tasks_of_all left.new.tasks.items < tasks_of_all left.old.tasks.items
            + tasks_of task.entry) }
    {
        match task {
            RecoveryTask::Items(ops) => {
                let Some((first, rest)) = ops.split_first() else {
                    return Ok(());
                };
                left.plan(RecoveryTask::Items(rest))?;
                self.put_op(out, left, first)
            }
            RecoveryTask::Close(span) => out.close(self.mark(span)),
            RecoveryTask::Round(repetition) => self.end_round(out, left, repetition),
        }
    }

    // Transcribes ops, and answers the first fault.
    pub(crate) fn fill(&self, out: &mut TopSubtreeBuilder, template: &[Op]) -> Told
        requires { M.IsAlwaysCallable self.now.marker.now }
    {
        let mut left = Left::new(self.alloc);
        left.plan(RecoveryTask::Items(template))?;
        while let Some(task) = left.tasks.pop() {
            self.step(out, &mut left, task)?;
        }
        let Left {
            error,
            tasks: _,
            rounds: _,
        } = left;
        Ok(error)
    }
}

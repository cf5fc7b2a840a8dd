//! Transcribes with bindings. The tasks that are left are on a stack in memory, so that nesting
//! is limited by memory alone.
ghost use Rattle.std.specs.Prelude.{◌≡◌, ◌<◌, ◌≤◌, ◌+◌, ◌*◌, ◌∷◌, ◌++◌, [], List, true, false};
ghost use Rattle.std.specs.Prelude.{not, suc};
ghost use Rattle.std.specs.Prelude.{reverse, option_map, if◌then◌else◌, Err, IfErr, IfOk, IfSome};
ghost use Rattle.std.specs.Prelude.{MatchOption, OnOk};
ghost use Rattle.tt_data.specs.declared.span.Span.{Span};
ghost use Rattle.tt_data.specs.fault.TtFault.TheVariants.{Memory, Tokens};
ghost use Rattle.tt.specs.Building.{Building, most_tokens};
ghost use Rattle.mbe_rules.specs.Items.{done};
ghost use Rattle.mbe_rules.specs.Ops.{items_of, put_op, separator_of};
ghost use Rattle.mbe_matcher.specs.Bindings.{Map};
ghost use Rattle.mbe_matcher.specs.Bound.{map_of};
ghost use Rattle.mbe_transcriber.specs.Filling.{filled};
ghost use Rattle.mbe_transcriber.specs.Limits.{most_rounds};
ghost use Rattle.mbe_transcriber.specs.Given.{Ends, Fills, IsBurstBy, is_plain, is_single};
ghost use Rattle.mbe_transcriber.specs.Given.{first_gives};
ghost use Rattle.mbe_transcriber.specs.Given.{first_puts_out, group_gives, gives, puts_out};
ghost use Rattle.mbe_transcriber.specs.Given.{repetition_gives, repetition_puts_out};
ghost use Rattle.mbe_transcriber.specs.Markers.{IsMarkedBy, is_name};
ghost use Rattle.mbe_transcriber.specs.Output.{output};
ghost use Rattle.mbe_transcriber.specs.Room.{IsWantOfRoom};
ghost use Rattle.mbe_transcriber.specs.Tasks.{IsBurstIn, IsFaulty, Steps, around, outcome, put_and};
ghost use Rattle.mbe_transcriber.specs.Tasks.{reached, tasks_of, tasks_of_all, work_of};
ghost use Rattle.mbe_transcriber.specs.declared.transcriber.TranscribeTask.{TranscribeTask};
ghost use Rattle.mbe_transcriber.specs.declared.transcriber.TranscribeTask.TheVariants.{Items};
ghost use Rattle.mbe_transcriber.specs.declared.transcriber.TranscribeTask.TheVariants.{Leave};
ghost use Rattle.mbe_transcriber.specs.declared.transcriber.TranscribeTask.TheVariants.{Later};

use crate::leaf::{marked, put_plain, put_separator};
use crate::repetition::{Iterations, MOST_ROUNDS, is_single, may_be_empty, takes_place};
use crate::repetition_vars::round_count;
use crate::single_var::{lone_values, put_values};
use mbe_matcher::Bindings;
use mbe_rules::{Op, RepeatKind};
use std::alloc::{AllocError, Global};
use tt::{Delimiter, Span, TopSubtreeBuilder, TtFault};

// For how many tasks there is room at first.
const USUAL_TASKS: usize = 8;

// A task that is left.
#[derive(Clone, Copy, Drop)]
pub(crate) enum TranscribeTask<'t> {
    // To transcribe these ops.
    Items(&'t [Op]),
    // To close a group whose closing delimiter has this span in the transcriber.
    Close(Span),
    // To leave the only iteration of a repetition.
    Leave,
    // To leave an iteration, and to transcribe those after it.
    Later(Iterations<'t>),
}

// The task after the first iteration of a repetition. `later` are the iterations after it.
fn after_first<'t>(kind: RepeatKind, later: Iterations<'t>) -> TranscribeTask<'t>
    ensures { result ≡ (if is_single kind then Leave else Later later.entry) }
{
    if is_single(kind) {
        return TranscribeTask::Leave;
    }
    TranscribeTask::Later(later)
}

// Whether an op has ops inside.
fn has_ops(op: &Op) -> bool
    ensures { result ≡ not (is_plain (put_op op.now done)) }
{
    matches!(op, Op::Subtree { .. } | Op::Repeat { .. })
}

// Transcribes ops up to the first with ops inside, or until the tree has more than `most` tokens,
// and answers those that are left. `Ok(None)` is a fault.
fn put_leading<'t, M: Fn(Span) -> Span>(
    out: &mut TopSubtreeBuilder,
    ops: &'t [Op],
    bindings: &Bindings<'_>,
    marker: &M,
    rounds: &[usize],
    most: usize,
) -> Result<Option<&'t [Op]>, TtFault>
    requires { M.IsAlwaysCallable marker.now }
    ensures faults { IfErr result IsWantOfRoom }
    ensures left { (mark : Span → Span) (ts : List TranscribeTask) →
        IsMarkedBy (M.post marker.now) mark → IfOk result (λ o.
        MatchOption o (IsFaulty out.new.tree (outcome mark (map_of bindings.now)
        (Items ops.entry ∷ ts) rounds.now out.old.tree))
        (λ l. outcome mark (map_of bindings.now) (Items ops.entry ∷ ts) rounds.now out.old.tree
        ≡ outcome mark (map_of bindings.now) (Items l ∷ ts) rounds.now out.new.tree)) }
    ensures stopped { IfOk result (λ o. IfSome o (λ l. is_plain (items_of l.now) ≡ true →
        work_of (items_of l.now) < work_of (items_of ops.now))) }
    ensures tokens { (mark : Span → Span) (ts : List TranscribeTask) →
        IsMarkedBy (M.post marker.now) mark → result ≡ Err Tokens →
        most_tokens < reached (outcome mark (map_of bindings.now) (Items ops.entry ∷ ts) rounds.now
        out.old.tree) }
    ensures fewer { IfOk result (λ o. IfSome o (λ l. work_of (items_of l.now)
        ≤ work_of (items_of ops.now))) }
{
    let mut left = ops;
    while let Some((first, rest)) = left.split_first() {
        if has_ops(first) {
            return Ok(Some(left));
        }
        if !put_plain(out, first, bindings, marker, rounds)? {
            return Ok(None);
        }
        left = rest;
        if out.len() > most {
            return Ok(Some(left));
        }
    }
    Ok(Some(left))
}

// The tasks that are left, the next one last, and the indices of the open iterations, the
// innermost last.
#[derive(Drop)]
pub(crate) struct Transcription<'t> {
    pub(crate) tasks: Vec<TranscribeTask<'t>>,
    pub(crate) rounds: Vec<usize>,
}

impl<'t> Transcription<'t> {
    // No task, and no open iteration.
    fn new(alloc: Global) -> Result<Transcription<'t>, AllocError>
        ensures tasks { IfOk result (λ left. left.tasks.items ≡ []) }
        ensures rounds { IfOk result (λ left. left.rounds.items ≡ []) }
    {
        let tasks = Vec::with_capacity(alloc, USUAL_TASKS)?;
        let rounds = Vec::new(alloc);
        Ok(Transcription { tasks, rounds })
    }

    // Adds a task, which comes next.
    fn plan(&mut self, task: TranscribeTask<'t>) -> Result<(), TtFault>
        ensures faults { IfErr result (λ e. e ≡ Memory) }
        ensures tasks { OnOk result (self.new.tasks.items ≡ self.old.tasks.items
            ++ (task.entry ∷ [])) }
        ensures rounds { OnOk result (self.new.rounds.items ≡ self.old.rounds.items) }
    {
        let Ok(()) = self.tasks.push(task) else {
            return Err(TtFault::Memory);
        };
        Ok(())
    }

    // Plans the ops after one, if there are any.
    fn plan_rest(&mut self, rest: &'t [Op]) -> Result<(), TtFault>
        ensures faults { IfErr result (λ e. e ≡ Memory) }
        ensures left { (mark : Span → Span) (bound : Map) (b : Building) → OnOk result
            (outcome mark bound (Items rest.entry ∷ reverse self.old.tasks.items)
            self.old.rounds.items b ≡ outcome mark bound (reverse self.new.tasks.items)
            self.new.rounds.items b) }
        ensures rounds { OnOk result (self.new.rounds.items ≡ self.old.rounds.items) }
        ensures fewer { OnOk result (tasks_of_all self.new.tasks.items
            ≤ tasks_of_all self.old.tasks.items + (1 + work_of (items_of rest.now))) }
    {
        if rest.is_empty() {
            return Ok(());
        }
        self.plan(TranscribeTask::Items(rest))?;
        Ok(())
    }

    // Opens an iteration.
    fn begin_round(&mut self, body: &'t [Op], number: usize) -> Result<(), TtFault>
        ensures faults { IfErr result (λ e. e ≡ Memory) }
        ensures tasks { OnOk result (self.new.tasks.items ≡ self.old.tasks.items
            ++ (Items body.entry ∷ [])) }
        ensures rounds { OnOk result (self.new.rounds.items ≡ self.old.rounds.items
            ++ (number ∷ [])) }
    {
        let Ok(()) = self.rounds.push(number) else {
            return Err(TtFault::Memory);
        };
        self.plan(TranscribeTask::Items(body))
    }

    // Leaves the innermost iteration.
    fn leave(&mut self)
        ensures tasks { self.new.tasks.items ≡ self.old.tasks.items }
        ensures rounds { self.new.rounds.items ≡ around self.old.rounds.items }
    {
        let _ = self.rounds.pop();
    }

    // Begins a group.
    fn enter_group<M: Fn(Span) -> Span>(
        &mut self,
        out: &mut TopSubtreeBuilder,
        delimiter: Delimiter,
        inner: &'t [Op],
        marker: &M,
    ) -> Result<bool, TtFault>
        requires { M.IsAlwaysCallable marker.now }
        ensures faults { IfErr result IsWantOfRoom }
        ensures left { (mark : Span → Span) (bound : Map) → IsMarkedBy (M.post marker.now) mark →
            Steps result out.new.tree
            (put_and (group_gives mark bound delimiter (gives mark bound self.old.rounds.items
            (items_of inner.now)))
            (suc (puts_out mark bound self.old.rounds.items (items_of inner.now))) out.old.tree
            (outcome mark bound (reverse self.old.tasks.items) self.old.rounds.items))
            (outcome mark bound (reverse self.new.tasks.items) self.new.rounds.items out.new.tree) }
        ensures tokens { (mark : Span → Span) (bound : Map) → IsBurstIn result
            (put_and (group_gives mark bound delimiter (gives mark bound self.old.rounds.items
            (items_of inner.now)))
            (suc (puts_out mark bound self.old.rounds.items (items_of inner.now))) out.old.tree
            (outcome mark bound (reverse self.old.tasks.items) self.old.rounds.items)) }
        ensures fewer { OnOk result (tasks_of_all self.new.tasks.items
            < tasks_of_all self.old.tasks.items + (3 + work_of (items_of inner.now))) }
    {
        out.open(delimiter.kind, marked(marker, delimiter.open_span))?;
        self.plan(TranscribeTask::Close(delimiter.close_span))?;
        self.plan(TranscribeTask::Items(inner))?;
        Ok(true)
    }

    // Begins a repetition. `later` are the iterations after the first, which are not counted yet.
    fn enter_rounds<M: Fn(Span) -> Span>(
        &mut self,
        out: &mut TopSubtreeBuilder,
        later: Iterations<'t>,
        kind: RepeatKind,
        bindings: &Bindings<'_>,
        marker: &M,
    ) -> Result<bool, TtFault>
        requires marker { M.IsAlwaysCallable marker.now }
        requires number { later.number ≡ 1 }
        ensures faults { IfErr result IsWantOfRoom }
        ensures left { (mark : Span → Span) → IsMarkedBy (M.post marker.now) mark →
            Steps result out.new.tree
            (put_and (repetition_gives mark (map_of bindings.now) self.old.rounds.items
            (items_of later.entry.body.now) (option_map (λ s. separator_of s.now)
            later.entry.separator) kind)
            (repetition_puts_out mark (map_of bindings.now) self.old.rounds.items
            (items_of later.entry.body.now) (option_map (λ s. separator_of s.now)
            later.entry.separator) kind)
            out.old.tree (outcome mark (map_of bindings.now) (reverse self.old.tasks.items)
            self.old.rounds.items))
            (outcome mark (map_of bindings.now) (reverse self.new.tasks.items) self.new.rounds.items
            out.new.tree) }
        ensures tokens { (mark : Span → Span) → IsMarkedBy (M.post marker.now) mark →
            IsBurstIn result
            (put_and (repetition_gives mark (map_of bindings.now) self.old.rounds.items
            (items_of later.entry.body.now) (option_map (λ s. separator_of s.now)
            later.entry.separator) kind)
            (repetition_puts_out mark (map_of bindings.now) self.old.rounds.items
            (items_of later.entry.body.now) (option_map (λ s. separator_of s.now)
            later.entry.separator) kind)
            out.old.tree (outcome mark (map_of bindings.now) (reverse self.old.tasks.items)
            self.old.rounds.items)) }
        ensures fewer { OnOk result (tasks_of_all self.new.tasks.items
            < tasks_of_all self.old.tasks.items + 65536 * (work_of (items_of later.entry.body.now)
            + 3)) }
    {
        if let Some((place, values)) = lone_values(later.body, bindings, &self.rounds) {
            let count = values.len();
            let later = Iterations { count, ..later };
            return put_values(out, later, kind, values, marked(marker, place));
        }
        let count = round_count(later.body, bindings, &self.rounds)?;
        if !takes_place(0, count) {
            return Ok(may_be_empty(kind));
        }
        self.plan(after_first(kind, Iterations { count, ..later }))?;
        self.begin_round(later.body, 0)?;
        Ok(true)
    }

    // Begins an op with ops inside.
    fn enter<M: Fn(Span) -> Span>(
        &mut self,
        out: &mut TopSubtreeBuilder,
        op: &'t Op,
        bindings: &Bindings<'_>,
        marker: &M,
    ) -> Result<bool, TtFault>
        requires marker { M.IsAlwaysCallable marker.now }
        requires inside { is_plain (put_op op.now done) ≡ false }
        ensures faults { IfErr result IsWantOfRoom }
        ensures left { (mark : Span → Span) → IsMarkedBy (M.post marker.now) mark →
            Steps result out.new.tree
            (put_and (first_gives mark (map_of bindings.now) self.old.rounds.items
            (put_op op.now done))
            (first_puts_out mark (map_of bindings.now) self.old.rounds.items (put_op op.now done))
            out.old.tree
            (outcome mark (map_of bindings.now) (reverse self.old.tasks.items)
            self.old.rounds.items))
            (outcome mark (map_of bindings.now) (reverse self.new.tasks.items) self.new.rounds.items
            out.new.tree) }
        ensures tokens { (mark : Span → Span) → IsMarkedBy (M.post marker.now) mark →
            IsBurstIn result
            (put_and (first_gives mark (map_of bindings.now) self.old.rounds.items
            (put_op op.now done))
            (first_puts_out mark (map_of bindings.now) self.old.rounds.items (put_op op.now done))
            out.old.tree
            (outcome mark (map_of bindings.now) (reverse self.old.tasks.items)
            self.old.rounds.items)) }
        ensures fewer { OnOk result (tasks_of_all self.new.tasks.items
            < tasks_of_all self.old.tasks.items + work_of (put_op op.now done)) }
    {
        match op {
            Op::Subtree { tokens, delimiter } => self.enter_group(out, *delimiter, tokens, marker),
            Op::Repeat {
                tokens,
                separator,
                kind,
            } => {
                let later = Iterations {
                    body: tokens,
                    separator: separator.as_ref(),
                    number: 1,
                    count: 0,
                };
                self.enter_rounds(out, later, *kind, bindings, marker)
            }
            _ => unreachable!(),
        }
    }

    // Transcribes ops up to the first with ops inside, and begins that one; or until the tree has
    // more than `most` tokens.
    fn put_items<M: Fn(Span) -> Span>(
        &mut self,
        out: &mut TopSubtreeBuilder,
        ops: &'t [Op],
        bindings: &Bindings<'_>,
        marker: &M,
        most: usize,
    ) -> Result<bool, TtFault>
        requires { M.IsAlwaysCallable marker.now }
        ensures faults { IfErr result IsWantOfRoom }
        ensures left { (mark : Span → Span) → IsMarkedBy (M.post marker.now) mark →
            Steps result out.new.tree
            (outcome mark (map_of bindings.now) (Items ops.entry ∷ reverse self.old.tasks.items)
            self.old.rounds.items out.old.tree)
            (outcome mark (map_of bindings.now) (reverse self.new.tasks.items) self.new.rounds.items
            out.new.tree) }
        ensures tokens { (mark : Span → Span) → IsMarkedBy (M.post marker.now) mark →
            IsBurstIn result
            (outcome mark (map_of bindings.now) (Items ops.entry ∷ reverse self.old.tasks.items)
            self.old.rounds.items out.old.tree) }
        ensures fewer { OnOk result (tasks_of_all self.new.tasks.items
            ≤ tasks_of_all self.old.tasks.items + work_of (items_of ops.now)) }
    {
        let Some(left) = put_leading(out, ops, bindings, marker, &self.rounds, most)? else {
            return Ok(false);
        };
        let Some((first, rest)) = left.split_first() else {
            return Ok(true);
        };
        if !has_ops(first) {
            self.plan(TranscribeTask::Items(left))?;
            return Ok(true);
        }
        self.plan_rest(rest)?;
        self.enter(out, first, bindings, marker)
    }

    // Leaves an iteration, and begins the next one if it takes place.
    fn next_round<M: Fn(Span) -> Span>(
        &mut self,
        out: &mut TopSubtreeBuilder,
        left: Iterations<'t>,
        bindings: &Bindings<'_>,
        marker: &M,
    ) -> Result<bool, TtFault>
        requires { M.IsAlwaysCallable marker.now }
        ensures faults { IfErr result IsWantOfRoom }
        ensures left { (mark : Span → Span) → IsMarkedBy (M.post marker.now) mark →
            Steps result out.new.tree
            (outcome mark (map_of bindings.now) (Later left.entry ∷ reverse self.old.tasks.items)
            self.old.rounds.items out.old.tree)
            (outcome mark (map_of bindings.now) (reverse self.new.tasks.items) self.new.rounds.items
            out.new.tree) }
        ensures tokens { (mark : Span → Span) → IsMarkedBy (M.post marker.now) mark →
            IsBurstIn result
            (outcome mark (map_of bindings.now) (Later left.entry ∷ reverse self.old.tasks.items)
            self.old.rounds.items out.old.tree) }
        ensures fewer { OnOk result (tasks_of_all self.new.tasks.items
            < tasks_of_all self.old.tasks.items + tasks_of (Later left.entry)) }
    {
        self.leave();
        let Iterations {
            body,
            separator,
            number,
            count,
        } = left;
        if !takes_place(number, count) {
            return Ok(true);
        }
        if number >= MOST_ROUNDS {
            return Ok(false);
        }
        put_separator(out, separator)?;
        self.plan(TranscribeTask::Later(Iterations {
            body,
            separator,
            number: number + 1,
            count,
        }))?;
        self.begin_round(body, number)?;
        Ok(true)
    }

    // Does a task, or its part up to where the tree has more than `most` tokens. `Ok(false)` is a
    // fault.
    fn step<M: Fn(Span) -> Span>(
        &mut self,
        out: &mut TopSubtreeBuilder,
        task: TranscribeTask<'t>,
        bindings: &Bindings<'_>,
        marker: &M,
        most: usize,
    ) -> Result<bool, TtFault>
        requires { M.IsAlwaysCallable marker.now }
        ensures faults { IfErr result IsWantOfRoom }
        ensures left { (mark : Span → Span) → IsMarkedBy (M.post marker.now) mark →
            Steps result out.new.tree
            (outcome mark (map_of bindings.now) (task.entry ∷ reverse self.old.tasks.items)
            self.old.rounds.items out.old.tree)
            (outcome mark (map_of bindings.now) (reverse self.new.tasks.items) self.new.rounds.items
            out.new.tree) }
        ensures tokens { (mark : Span → Span) → IsMarkedBy (M.post marker.now) mark →
            IsBurstIn result
            (outcome mark (map_of bindings.now) (task.entry ∷ reverse self.old.tasks.items)
            self.old.rounds.items out.old.tree) }
        ensures fewer { OnOk result (tasks_of_all self.new.tasks.items
            < tasks_of_all self.old.tasks.items + tasks_of task.entry) }
    {
        match task {
            TranscribeTask::Items(ops) => self.put_items(out, ops, bindings, marker, most),
            TranscribeTask::Close(span) => {
                let closed = out.close(marked(marker, span));
                Ok(closed.is_ok())
            }
            TranscribeTask::Leave => {
                self.leave();
                Ok(true)
            }
            TranscribeTask::Later(left) => self.next_round(out, left, bindings, marker),
        }
    }
}

/// How a transcription ended.
#[derive(Clone, Copy)]
pub enum Transcribed {
    /// What the template gives is appended.
    Whole,
    /// The template has a fault.
    Fault,
    /// The tree would have more tokens than it may.
    Passed,
}

/// Transcribes `template` with bindings: appends what it gives to `out`, until a fault or until
/// `out` has more than `most` tokens. What was appended before that stays. (The Rust Reference,
/// "Macros By Example": transcribing.)
///
/// Tokens of the transcriber get the span that `marker` answers for theirs, those of a fragment
/// keep theirs. The tree is looked at after each op, so that it never has more than `most` tokens
/// and what one op gives.
///
/// # Errors
///
/// `Memory`, or `Tokens` if the tree would have more than `u32::MAX` tokens. What the transcriber
/// puts out up to its first fault counts.
pub fn fill_within<M: Fn(Span) -> Span>(
    out: &mut TopSubtreeBuilder,
    template: &[Op],
    bindings: &Bindings<'_>,
    marker: &M,
    most: usize,
) -> Result<Transcribed, TtFault>
    requires { M.IsAlwaysCallable marker.now }
    ensures faults { IfErr result IsWantOfRoom }
    ensures ends { (mark : Span → Span) → IsMarkedBy (M.post marker.now) mark →
        IfOk result (λ t. Ends t out.old.tree out.new.tree
        (filled is_name most_rounds mark (map_of bindings.now) (items_of template.now))
        (output is_name most_rounds mark (map_of bindings.now) (items_of template.now)) most) }
    ensures tokens { (mark : Span → Span) → IsMarkedBy (M.post marker.now) mark →
        IsBurstBy result out.old.tree (output is_name most_rounds mark (map_of bindings.now)
        (items_of template.now)) }
{
    let mut left = Transcription::new(bindings.allocator())?;
    left.plan(TranscribeTask::Items(template))?;
    while let Some(task) = left.tasks.pop() {
        let whole = left.step(out, task, bindings, marker, most)?;
        if out.len() > most {
            return Ok(Transcribed::Passed);
        }
        if !whole {
            return Ok(Transcribed::Fault);
        }
    }
    Ok(Transcribed::Whole)
}

/// The same without a limit of its own. `false` means a fault.
///
/// # Errors
///
/// As `fill_within`.
pub fn fill<M: Fn(Span) -> Span>(
    out: &mut TopSubtreeBuilder,
    template: &[Op],
    bindings: &Bindings<'_>,
    marker: &M,
) -> Result<bool, TtFault>
    requires { M.IsAlwaysCallable marker.now }
    ensures faults { IfErr result IsWantOfRoom }
    ensures filled { (mark : Span → Span) → IsMarkedBy (M.post marker.now) mark →
        Fills result out.old.tree out.new.tree (filled is_name most_rounds mark
        (map_of bindings.now) (items_of template.now)) }
    ensures tokens { (mark : Span → Span) → IsMarkedBy (M.post marker.now) mark →
        IsBurstBy result out.old.tree (output is_name most_rounds mark (map_of bindings.now)
        (items_of template.now)) }
{
    match fill_within(out, template, bindings, marker, usize::MAX)? {
        Transcribed::Whole => Ok(true),
        Transcribed::Fault => Ok(false),
        // More tokens than a number counts are too many for a tree.
        Transcribed::Passed => Err(TtFault::Tokens),
    }
}

//! The bindings that the moves of a reading make.
ghost use Rattle.std.specs.Prelude.{◌≡◌, suc, true, None, [], ◌∷◌, OnOk, IfOk, IfSome, reverse};
ghost use Rattle.std.specs.List.{flat_map};
ghost use Rattle.tt.specs.Views.{forest};
ghost use Rattle.mbe_rules.specs.Counts.{count_of};
ghost use Rattle.mbe_rules.specs.Items.{done, variables};
ghost use Rattle.mbe_rules.specs.Ops.{items_of, put_op};
ghost use Rattle.mbe_rules.specs.Walks.{is_plain};
ghost use Rattle.mbe_matcher.specs.Bindings.{bind_skipped, bindings};
ghost use Rattle.mbe_matcher.specs.Bound.{map_of};
ghost use Rattle.mbe_matcher.specs.Threads.{move_of, moves_of, rounds_of, steps_of};

use crate::bindings::{Binding, Bindings, Bound, put_value};
use crate::count::Count;
use crate::position::parted;
use crate::thread::{Entry, IterationStart, Move};
use mbe_rules::{MetaVarKind, Op};
use std::alloc::{AllocError, Global};
use std::mem;
use symbols::Symbol;
use tt::{TokenTreesView, TtIter};

// The ops inside an op.
fn inside(op: &Op) -> Option<&[Op]>
    ensures names { IfSome result (λ inner. variables (items_of inner.now)
        ≡ variables (put_op op.now done)) }
    ensures fewer { IfSome result (λ inner. count_of (put_op op.now done)
        ≡ suc (count_of (items_of inner.now))) }
    ensures none { result ≡ None → is_plain (put_op op.now done) ≡ true }
{
    match op {
        Op::Repeat { tokens, .. } => Some(tokens),
        Op::Subtree { tokens, .. } => Some(tokens),
        _ => None,
    }
}

// Binds the metavariable of an op without ops inside to nothing, if it is one.
fn skip_plain<'a>(here: &mut Bindings<'a>, op: &'a Op) -> Result<(), AllocError>
    requires { is_plain (put_op op.now done) ≡ true }
    ensures { OnOk result (map_of here.new ≡ bind_skipped (variables (put_op op.now done))
        (map_of here.old)) }
{
    match op {
        Op::Var { name, .. } => here.bind(name, Binding::Skipped),
        _ => Ok(()),
    }
}

// Binds each metavariable of these ops to nothing: their repetition is skipped. The lists around
// the present one are in memory, so that nesting takes no call stack.
fn skip<'a>(alloc: Global, here: &mut Bindings<'a>, ops: &'a [Op]) -> Result<(), AllocError>
    ensures { OnOk result (map_of here.new ≡ bind_skipped (variables (items_of ops.now))
        (map_of here.old)) }
{
    let mut around = Vec::new(alloc);
    let mut list = ops;
    loop {
        let Some((op, rest)) = list.split_first() else {
            let Some(outer) = around.pop() else {
                return Ok(());
            };
            list = outer;
            continue;
        };
        match inside(op) {
            Some(inner) => {
                around.push(rest)?;
                list = inner;
            }
            None => {
                skip_plain(here, op)?;
                list = rest;
            }
        }
    }
}

// An open repetition: the bindings around it, with those of its finished iterations, and how many
// these are.
#[derive(Drop)]
struct Open<'a> {
    around: Bindings<'a>,
    rounds: Count,
}

// The bindings of the present iteration, and the open repetitions, the innermost last.
#[derive(Drop)]
struct Collected<'a> {
    here: Bindings<'a>,
    opens: Vec<Open<'a>>,
}

impl<'a> Open<'a> {
    ghost use Rattle.std.specs.Prelude.{suc};
    ghost use Rattle.mbe_matcher.specs.Bindings.{bind_round};
    ghost use Rattle.mbe_matcher.specs.Bound.{entry_of};
    ghost use Rattle.std.specs.Prelude.{List, ℕ, Some};
    ghost use Rattle.mbe_matcher.specs.Bindings as spec;
    ghost use Rattle.mbe_matcher.specs.Collecting.{open_of, after_all};

    // Ends an iteration: adds its bindings to those around it, and leaves it without bindings.
    #[inline(always)]
    fn end_round(&mut self, round: &mut Bindings<'a>) -> Result<(), AllocError>
        ensures bound { OnOk result (open_of self.new
            ≡ (
              bind_round self.old.rounds (map_of round.old) (map_of self.old.around),
              suc
                  self.old.rounds,
            )) }
        ensures left { OnOk result (map_of round.new ≡ []) }
    {
        self.around.bind_round(&self.rounds, round)?;
        self.rounds.add_one()
    }

    // Ends an iteration, and makes `first` the only binding of the next one.
    #[inline(always)]
    fn begin_round(&mut self, round: &mut Bindings<'a>, first: Bound<'a>) -> Result<(), AllocError>
        ensures bound { OnOk result (open_of self.new
            ≡ (
              bind_round self.old.rounds (map_of round.old) (map_of self.old.around),
              suc
                  self.old.rounds,
            )) }
        ensures first { OnOk result (map_of round.new ≡ entry_of first.entry ∷ []) }
    {
        self.around.bind_round_before(&self.rounds, round, first)?;
        self.rounds.add_one()
    }

    // Ends an iteration for each of these trees, which is the metavariable's fragment in the next
    // one.
    fn begin_each(
        &mut self,
        round: &mut Bindings<'a>,
        name: &'a Symbol,
        kind: MetaVarKind,
        trees: &TtIter<'a>,
    ) -> Result<(), AllocError>
        ensures { (os : List (spec.Map × ℕ)) →
            OnOk result ((map_of round.new, open_of self.new ∷ os)
            ≡ after_all (rounds_of name.now kind trees.now) (
              map_of round.old,
              open_of self.old
                  ∷ os,
            )) }
    {
        let mut rest = trees.copied();
        while !rest.is_empty() {
            let (tree, behind) = parted(&rest, 1);
            let binding = Binding::Fragment { kind, trees: tree };
            self.begin_round(round, Bound { name, binding })?;
            rest = behind;
        }
        Ok(())
    }

    // As `begin_each`, with all values appended at once. The iteration binds only this name, which
    // has values of earlier iterations.
    fn begin_more(
        &mut self,
        round: &mut Bindings<'a>,
        name: &'a Symbol,
        kind: MetaVarKind,
        trees: &TtIter<'a>,
    ) -> Result<(), AllocError>
        requires alone { (b : spec.Binding) × (map_of round.old ≡ (name.now, b) ∷ []) }
        requires values { (vs : spec.Values) × (spec.binding_of name.now (map_of self.old.around)
            ≡ Some (spec.rounds vs)) }
        ensures { (os : List (spec.Map × ℕ)) →
            OnOk result ((map_of round.new, open_of self.new ∷ os)
            ≡ after_all (rounds_of name.now kind trees.now) (
              map_of round.old,
              open_of self.old
                  ∷ os,
            )) }
    {
        let alloc = self.around.allocator();
        let mut run = Run {
            values: self.around.take_values(name),
            last: round.replace_alone(Binding::Skipped),
            number: mem::replace(&mut self.rounds, Count::zero(alloc)),
        };
        run.pass(kind, trees)?;
        let Run {
            values,
            last,
            number,
        } = run;
        let _ = round.replace_alone(last);
        self.around.bind(name, Binding::Rounds(values))?;
        self.rounds = number;
        Ok(())
    }

    // As `begin_each`, with all values appended at once if the iteration binds only this name and
    // the name has values of earlier iterations.
    fn begin_rounds(
        &mut self,
        round: &mut Bindings<'a>,
        name: &'a Symbol,
        kind: MetaVarKind,
        trees: &TtIter<'a>,
    ) -> Result<(), AllocError>
        ensures { (os : List (spec.Map × ℕ)) →
            OnOk result ((map_of round.new, open_of self.new ∷ os)
            ≡ after_all (rounds_of name.now kind trees.now) (
              map_of round.old,
              open_of self.old
                  ∷ os,
            )) }
    {
        if round.is_alone(name) && self.around.has_values(name) {
            return self.begin_more(round, name, kind, trees);
        }
        self.begin_each(round, name, kind, trees)
    }
}

// The values of finished iterations, the value of the present one, and its number.
#[derive(Drop)]
struct Run<'a> {
    values: Vec<Binding<'a>>,
    last: Binding<'a>,
    number: Count,
}

impl<'a> Run<'a> {
    ghost use Rattle.mbe_matcher.specs.Collecting.{run_of, run_through};

    // Ends an iteration for each of these trees, which is the value in the next one.
    fn pass(&mut self, kind: MetaVarKind, trees: &TtIter<'a>) -> Result<(), AllocError>
        ensures { OnOk result (run_of self.new ≡ run_through kind trees.now (run_of self.old)) }
    {
        self.values.reserve(trees.remaining().len())?;
        let mut rest = trees.copied();
        while !rest.is_empty() {
            let (tree, behind) = parted(&rest, 1);
            let next = Binding::Fragment { kind, trees: tree };
            let ended = mem::replace(&mut self.last, next);
            put_value(&mut self.values, &self.number, ended)?;
            self.number.add_one()?;
            rest = behind;
        }
        Ok(())
    }
}

impl<'a> Collected<'a> {
    ghost use Rattle.mbe_matcher.specs.Collecting.{collected_of, after, after_all};
    ghost use Rattle.mbe_matcher.specs.Readings as r;

    // Before any move.
    fn new(alloc: Global) -> Collected<'a>
        ensures { collected_of result ≡ ([], []) }
    {
        Collected {
            here: Bindings::new(alloc),
            opens: Vec::new(alloc),
        }
    }

    // Enters a repetition.
    fn enter(&mut self, alloc: Global) -> Result<(), AllocError>
        ensures { OnOk result (collected_of self.new ≡ after r.enter (collected_of self.old)) }
    {
        let around = mem::replace(&mut self.here, Bindings::new(alloc));
        let rounds = Count::zero(alloc);
        self.opens.push(Open { around, rounds })?;
        Ok(())
    }

    // Ends an iteration of the innermost repetition, and begins another.
    #[inline]
    fn end_round(&mut self) -> Result<(), AllocError>
        ensures { OnOk result (collected_of self.new ≡ after r.next_round (collected_of self.old)) }
    {
        match self.opens.last_mut() {
            Some(open) => {
                open.end_round(&mut self.here)?;
                Ok(())
            }
            None => Ok(()),
        }
    }

    // Ends an iteration, and binds a fragment in the next one.
    #[inline(always)]
    fn begin_round(
        &mut self,
        name: &'a Symbol,
        kind: MetaVarKind,
        trees: TokenTreesView<'a>,
    ) -> Result<(), AllocError>
        ensures { OnOk result (collected_of self.new
            ≡ after (r.fragment_move name.now kind (forest trees.entry))
            (after r.next_round (collected_of self.old))) }
    {
        let binding = Binding::Fragment { kind, trees };
        match self.opens.last_mut() {
            Some(open) => {
                open.begin_round(&mut self.here, Bound { name, binding })?;
                Ok(())
            }
            None => self.here.bind(name, binding),
        }
    }

    // Leaves a repetition, after its last iteration.
    fn leave(&mut self) -> Result<(), AllocError>
        ensures { OnOk result (collected_of self.new ≡ after r.leave (collected_of self.old)) }
    {
        let Some(open) = self.opens.pop() else {
            return Ok(());
        };
        let Open { mut around, rounds } = open;
        around.bind_round(&rounds, &mut self.here)?;
        self.here = around;
        Ok(())
    }

    // Makes one more move.
    #[inline]
    fn add(&mut self, alloc: Global, made: Move<'a>) -> Result<(), AllocError>
        ensures { OnOk result (collected_of self.new ≡ after (move_of made.entry)
            (collected_of self.old)) }
    {
        match made {
            Move::Fragment { name, kind, trees } => {
                self.here.bind(name, Binding::Fragment { kind, trees })
            }
            Move::Nothing { name } => {
                let trees = TokenTreesView::empty();
                let kind = MetaVarKind::Vis;
                self.here.bind(name, Binding::Fragment { kind, trees })
            }
            Move::Skip { body } => skip(alloc, &mut self.here, body),
            Move::Enter => self.enter(alloc),
            Move::Leave => self.leave(),
            Move::NextRound => self.end_round(),
            Move::Unit | Move::Separator => Ok(()),
        }
    }

    // Ends an iteration for each of these trees, which is the metavariable's fragment in the next
    // one.
    fn begin_each(
        &mut self,
        name: &'a Symbol,
        kind: MetaVarKind,
        trees: &TtIter<'a>,
    ) -> Result<(), AllocError>
        ensures { OnOk result (collected_of self.new ≡ after_all (rounds_of name.now kind trees.now)
            (collected_of self.old)) }
    {
        let mut rest = trees.copied();
        while !rest.is_empty() {
            let (tree, behind) = parted(&rest, 1);
            self.begin_round(name, kind, tree)?;
            rest = behind;
        }
        Ok(())
    }

    // As `begin_each`, by the innermost repetition, which can append all values at once.
    fn begin_rounds(
        &mut self,
        name: &'a Symbol,
        kind: MetaVarKind,
        trees: &TtIter<'a>,
    ) -> Result<(), AllocError>
        ensures { OnOk result (collected_of self.new ≡ after_all (rounds_of name.now kind trees.now)
            (collected_of self.old)) }
    {
        match self.opens.last_mut() {
            Some(open) => {
                open.begin_rounds(&mut self.here, name, kind, trees)?;
                Ok(())
            }
            None => self.begin_each(name, kind, trees),
        }
    }

    // As `begin_each`. The first tree is bound by itself, because it may be the first value of the
    // name.
    fn begin_all(
        &mut self,
        name: &'a Symbol,
        kind: MetaVarKind,
        trees: TokenTreesView<'a>,
    ) -> Result<(), AllocError>
        ensures { OnOk result (collected_of self.new
            ≡ after_all (rounds_of name.now kind (forest trees.entry)) (collected_of self.old)) }
    {
        let (first, rest) = parted(&trees.iter(), 1);
        self.begin_each(name, kind, &first.iter())?;
        self.begin_rounds(name, kind, &rest)
    }

    // Ends an iteration, and makes this move in the next one.
    fn begin(&mut self, alloc: Global, made: Move<'a>) -> Result<(), AllocError>
        ensures { OnOk result (collected_of self.new ≡ after (move_of made.entry)
            (after r.next_round (collected_of self.old))) }
    {
        match made {
            Move::Fragment { name, kind, trees } => self.begin_round(name, kind, trees),
            made => {
                self.end_round()?;
                self.add(alloc, made)?;
                Ok(())
            }
        }
    }

    // Makes the moves of one more entry of the log.
    #[inline(always)]
    fn add_entry(&mut self, alloc: Global, entry: &'a Entry<'a>) -> Result<(), AllocError>
        ensures { OnOk result (collected_of self.new ≡ after_all (steps_of entry.entry)
            (collected_of self.old)) }
    {
        match (entry.begun, entry.made) {
            (IterationStart::Nothing, made) => self.add(alloc, made),
            (IterationStart::RoundForEach, Move::Fragment { name, kind, trees }) => {
                self.begin_all(name, kind, trees)
            }
            (_, made) => self.begin(alloc, made),
        }
    }
}

// How many entries of a log there is room for at first.
const USUAL_ENTRIES: usize = 16;

// The entries of the log up to this one, the last first.
fn entries_back<'a>(
    alloc: Global,
    last: Option<&'a Entry<'a>>,
) -> Result<Vec<&'a Entry<'a>>, AllocError>
    ensures { IfOk result (λ v. flat_map steps_of (reverse v.items) ≡ moves_of last.entry) }
{
    let mut entries = Vec::with_capacity(alloc, USUAL_ENTRIES)?;
    let mut next = last;
    while let Some(entry) = next {
        entries.push(entry)?;
        next = entry.before;
    }
    Ok(entries)
}

/// What the metavariables of a matcher are bound to by the moves up to an entry of the log.
///
/// The trees of fragments are not copied. Out of memory is its only error.
pub fn bindings_of<'a>(
    alloc: Global,
    last: Option<&'a Entry<'a>>,
) -> Result<Bindings<'a>, AllocError>
    ensures { IfOk result (λ b. map_of b ≡ bindings (moves_of last.entry)) }
{
    let mut entries = entries_back(alloc, last)?;
    let mut collected = Collected::new(alloc);
    while let Some(entry) = entries.pop() {
        collected.add_entry(alloc, entry)?;
    }
    let Collected { here, opens: _ } = collected;
    Ok(here)
}

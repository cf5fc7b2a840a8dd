//! Finds whether a matcher can match nothing, or iterate without end. One loop reads nested lists,
//! with the lists around the innermost one in memory, so that nesting takes no call stack.
ghost use Rattle.std.specs.Prelude.{◌≡◌, ◌<◌, ◌&&◌, ◌++◌, ◌∷◌, true, false, [], IfOk, OnOk};
ghost use Rattle.mbe_rules.specs.Items.{done, can_match_nothing, has_empty_round};
ghost use Rattle.mbe_rules.specs.Ops.{put_op, items_of};
ghost use Rattle.mbe_rules.specs.Walks.{is_plain, op_nothing, op_endless, whole_nothing};
ghost use Rattle.mbe_rules.specs.Walks.{whole_endless, work};

use crate::parser::{MetaVarKind, Op, RepeatKind};
use std::alloc::{AllocError, Global};

// The op around a list, without that list.
#[derive(Clone, Copy)]
pub(crate) enum Inside {
    Group,
    // Whether it has a separator, and its operator.
    Repetition(bool, RepeatKind),
}

impl Inside {
    // Whether the op can match nothing, by whether its list can.
    fn can_match_nothing(self, list: bool) -> bool
        ensures { result ≡ op_nothing self list }
    {
        match self {
            Inside::Group => false,
            Inside::Repetition(_, kind) => kind != RepeatKind::OneOrMore || list,
        }
    }

    // Whether the op can iterate without end, by whether its list can match nothing.
    fn is_endless(self, list: bool) -> bool
        ensures { result ≡ op_endless self list }
    {
        match self {
            Inside::Group => false,
            Inside::Repetition(is_apart, _) => !is_apart && list,
        }
    }
}

// A list around the present one: whether its ops before that one can match nothing, the op that
// this one is in, and the ops after it.
#[derive(Clone, Copy, Drop)]
pub(crate) struct Outer<'a> {
    pub(crate) nothing: bool,
    pub(crate) inside: Inside,
    pub(crate) rest: &'a [Op],
}

// The innermost list: whether its ops so far can match nothing, and those that are left. The
// lists around it, the outermost first. Whether a repetition before can iterate without end.
#[derive(Drop)]
pub(crate) struct Walk<'a> {
    pub(crate) nothing: bool,
    pub(crate) rest: &'a [Op],
    pub(crate) around: Vec<Outer<'a>>,
    pub(crate) endless: bool,
}

// Whether an op without ops inside can match nothing.
fn is_skippable(op: &Op) -> bool
    requires { is_plain (put_op op.now done) ≡ true }
    ensures { result ≡ can_match_nothing (put_op op.now done) }
{
    match op {
        Op::Var { kind, .. } => matches!(kind, Some(MetaVarKind::Vis)),
        _ => false,
    }
}

impl<'a> Walk<'a> {
    ghost use Rattle.mbe_rules.specs.declared.validation.Inside.{Inside};

    // Goes on after an op without ops inside.
    fn pass(&mut self, op: &'a Op, rest: &'a [Op])
        requires { is_plain (put_op op.now done) ≡ true }
        ensures plain { is_plain (put_op op.now done) ≡ true }
        ensures nothing { self.new.nothing
            ≡ (self.old.nothing && can_match_nothing (put_op op.now done)) }
        ensures rest { self.new.rest ≡ rest.entry }
        ensures around { self.new.around ≡ self.old.around }
        ensures endless { self.new.endless ≡ self.old.endless }
    {
        self.nothing &= is_skippable(op);
        self.rest = rest;
    }

    // Goes on with the list inside an op, and then with the ops after it.
    fn enter(&mut self, inside: Inside, inner: &'a [Op], rest: &'a [Op]) -> Result<(), AllocError>
        ensures nothing { OnOk result (self.new.nothing ≡ true) }
        ensures rest { OnOk result (self.new.rest ≡ inner.entry) }
        ensures around { OnOk result (self.new.around.items ≡ self.old.around.items
            ++ (record { nothing = self.old.nothing; inside = inside; rest = rest.entry } ∷ [])) }
        ensures endless { OnOk result (self.new.endless ≡ self.old.endless) }
    {
        self.around.push(Outer {
            nothing: self.nothing,
            inside,
            rest,
        })?;
        self.nothing = true;
        self.rest = inner;
        Ok(())
    }

    // Goes on after the list that has ended. `false` if no list is around it.
    fn leave(&mut self) -> bool
        requires { self.old.rest.now ≡ [] }
        ensures nothing { whole_nothing self.new ≡ whole_nothing self.old }
        ensures endless { whole_endless self.new ≡ whole_endless self.old }
        ensures fewer { result ≡ true → work self.new < work self.old }
        ensures last_nothing { result ≡ false → whole_nothing self.new ≡ self.new.nothing }
        ensures last_endless { result ≡ false → whole_endless self.new ≡ self.new.endless }
    {
        let Some(outer) = self.around.pop() else {
            return false;
        };
        self.endless |= outer.inside.is_endless(self.nothing);
        self.nothing = outer.nothing & outer.inside.can_match_nothing(self.nothing);
        self.rest = outer.rest;
        true
    }

    // Goes on by one op, or after a list. `false` at the end.
    fn step(&mut self) -> Result<bool, AllocError>
        ensures nothing { IfOk result (λ more. whole_nothing self.new ≡ whole_nothing self.old) }
        ensures endless { IfOk result (λ more. whole_endless self.new ≡ whole_endless self.old) }
        ensures fewer { IfOk result (λ more. more ≡ true → work self.new < work self.old) }
        ensures last_nothing { IfOk result (λ more. more ≡ false → whole_nothing self.new
            ≡ self.new.nothing) }
        ensures last_endless { IfOk result (λ more. more ≡ false → whole_endless self.new
            ≡ self.new.endless) }
    {
        let Some((op, rest)) = self.rest.split_first() else {
            return Ok(self.leave());
        };
        match op {
            Op::Subtree { tokens, .. } => self.enter(Inside::Group, tokens, rest)?,
            Op::Repeat {
                tokens,
                separator,
                kind,
            } => {
                let inside = Inside::Repetition(separator.is_some(), *kind);
                self.enter(inside, tokens, rest)?;
            }
            _ => self.pass(op, rest),
        }
        Ok(true)
    }
}

// Whether a list of ops can match nothing, and whether it can iterate without end. Each op is
// visited once.
fn emptiness(alloc: Global, ops: &[Op]) -> Result<(bool, bool), AllocError>
    ensures nothing { IfOk result (λ found. found.0 ≡ can_match_nothing (items_of ops.now)) }
    ensures endless { IfOk result (λ found. found.1 ≡ has_empty_round (items_of ops.now)) }
{
    let mut walk = Walk {
        nothing: true,
        rest: ops,
        around: Vec::new(alloc),
        endless: false,
    };
    while walk.step()? {}
    Ok((walk.nothing, walk.endless))
}

/// Whether a list of ops can match no tokens. Out of memory is its only error.
pub fn can_match_nothing(alloc: Global, ops: &[Op]) -> Result<bool, AllocError>
    ensures { IfOk result (λ nothing. nothing ≡ can_match_nothing (items_of ops.now)) }
{
    let (nothing, _) = emptiness(alloc, ops)?;
    Ok(nothing)
}

/// Whether a repetition without a separator, anywhere in a list of ops, has an iteration that can
/// match no tokens. It could then iterate without end. Out of memory is its only error.
pub fn has_empty_round(alloc: Global, ops: &[Op]) -> Result<bool, AllocError>
    ensures { IfOk result (λ endless. endless ≡ has_empty_round (items_of ops.now)) }
{
    let (_, endless) = emptiness(alloc, ops)?;
    Ok(endless)
}

//! The ops of a transcriber without ops inside, in order, those in groups and repetitions too.
ghost use Rattle.std.specs.Prelude.{◌≡◌, ◌<◌, ◌≤◌, ◌+◌, ◌++◌, [], true, None, Ok, OnOk, IfOk};
ghost use Rattle.std.specs.Prelude.{IfSome};
ghost use Rattle.mbe_rules.specs.Items.{done};
ghost use Rattle.mbe_rules.specs.Ops.{items_of, put_op};
ghost use Rattle.mbe_transcriber.specs.Filling.{names};
ghost use Rattle.mbe_transcriber.specs.Given.{is_plain};
ghost use Rattle.mbe_transcriber.specs.Tasks.{work_of};
ghost use Rattle.mbe_transcriber.specs.Walks.{names_around, names_first, names_left, work_around};
ghost use Rattle.mbe_transcriber.specs.Walks.{work_left};

use mbe_rules::Op;
use std::alloc::{AllocError, Global};

/// The ops of a transcriber without ops inside, in order, those in groups and repetitions too.
#[derive(Drop)]
pub struct PlainItems<'t> {
    pub(crate) ops: &'t [Op],
    pub(crate) around: Vec<&'t [Op]>,
}

impl<'t> PlainItems<'t> {
    /// All such ops of a list.
    pub fn new(alloc: Global, ops: &'t [Op]) -> PlainItems<'t>
        ensures { names_left result ≡ names (items_of ops.now) }
    {
        PlainItems {
            ops,
            around: Vec::new(alloc),
        }
    }

    // Goes on with the ops inside one, and then with those after it.
    fn enter(&mut self, inner: &'t [Op], rest: &'t [Op]) -> Result<(), AllocError>
        ensures names { OnOk result (names_left self.new ≡ names (items_of inner.now)
            ++ (names (items_of rest.now) ++ names_around self.old)) }
        ensures work { OnOk result (work_left self.new ≡ work_of (items_of inner.now)
            + (1 + work_of (items_of rest.now)) + work_around self.old) }
    {
        self.around.push(rest)?;
        self.ops = inner;
        Ok(())
    }

    // Goes on after an op without ops inside.
    fn pass(&mut self, op: &'t Op, rest: &'t [Op])
        requires { is_plain (put_op op.now done) ≡ true }
        ensures plain { is_plain (put_op op.now done) ≡ true }
        ensures ops { self.new.ops ≡ rest.entry }
        ensures around { self.new.around ≡ self.old.around }
    {
        let _passed = op;
        self.ops = rest;
    }

    /// The next op without ops inside. `None` at the end.
    pub fn next(&mut self) -> Result<Option<&'t Op>, AllocError>
        ensures names { IfOk result (λ o. names_left self.old ≡ names_first o
            ++ names_left self.new) }
        ensures plain { IfOk result (λ o. IfSome o (λ op. is_plain (put_op op.now done) ≡ true)) }
        ensures none { result ≡ Ok None → names_left self.new ≡ [] }
        ensures fewer { IfOk result (λ o. IfSome o (λ op. work_left self.new
            < work_left self.old)) }
    {
        loop {
            let Some((first, rest)) = self.ops.split_first() else {
                let Some(ops) = self.around.pop() else {
                    return Ok(None);
                };
                self.ops = ops;
                continue;
            };
            match first {
                Op::Repeat { tokens, .. } => self.enter(tokens, rest)?,
                Op::Subtree { tokens, .. } => self.enter(tokens, rest)?,
                _ => {
                    self.pass(first, rest);
                    return Ok(Some(first));
                }
            }
        }
    }
}

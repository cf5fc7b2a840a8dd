//! The metavariables that a transcriber names, one after another.
ghost use Rattle.std.specs.Prelude.{◌≡◌, ◌∷◌, ◌++◌, [], IfOk, MatchOption, None, map, option_map};
ghost use Rattle.std.specs.Prelude.{true};
ghost use Rattle.mbe_rules.specs.Items.{done};
ghost use Rattle.mbe_rules.specs.Ops.{items_of, part_of, put_op};
ghost use Rattle.mbe_transcriber.specs.Filling.{names, part_names};
ghost use Rattle.mbe_transcriber.specs.Given.{is_plain};
ghost use Rattle.rule_bindings.specs.Names.{listed, names_ahead};

use mbe_rules::{ConcatElement, Op};
use mbe_transcriber::PlainItems;
use std::alloc::{AllocError, Global};
use symbols::Symbol;

/// The metavariables that ops of a transcriber name, in order, those in groups and repetitions
/// too.
#[derive(Drop)]
pub(crate) struct Names<'t> {
    // What is left of the parts of a `${concat(..)}`.
    pub(crate) parts: &'t [ConcatElement],
    // The ops after it.
    pub(crate) ops: PlainItems<'t>,
}

impl<'t> Names<'t> {
    /// All metavariables of these ops.
    pub(crate) fn new(alloc: Global, ops: &'t [Op]) -> Names<'t>
        ensures { names_ahead result ≡ names (items_of ops.now) }
    {
        Names {
            parts: &[],
            ops: PlainItems::new(alloc, ops),
        }
    }

    // The next one among the parts.
    fn next_part(&mut self) -> Option<&'t Symbol>
        ensures names { part_names (map part_of self.old.parts.now)
            ≡ listed (option_map (λ n. n.now) result)
            ++ part_names (map part_of self.new.parts.now) }
        ensures none { result ≡ None → part_names (map part_of self.new.parts.now) ≡ [] }
        ensures ops { self.new.ops ≡ self.old.ops }
    {
        loop {
            let (part, rest) = self.parts.split_first()?;
            self.parts = rest;
            if let ConcatElement::Var(name) = part {
                return Some(name);
            }
        }
    }

    // The metavariable that an op begins with. Goes on with the parts of a `${concat(..)}`.
    fn enter(&mut self, op: &'t Op) -> Option<&'t Symbol>
        requires plain { is_plain (put_op op.now done) ≡ true }
        requires parts { part_names (map part_of self.old.parts.now) ≡ [] }
        ensures names { names (put_op op.now done) ≡ listed (option_map (λ n. n.now) result)
            ++ part_names (map part_of self.new.parts.now) }
        ensures ops { self.new.ops ≡ self.old.ops }
    {
        match op {
            Op::Var { name, .. } => Some(name),
            Op::Count { name, .. } => Some(name),
            Op::Ignore { name, .. } => Some(name),
            Op::Concat { elements, .. } => {
                self.parts = elements;
                None
            }
            _ => None,
        }
    }

    /// The next one. `None` at the end.
    pub(crate) fn next(&mut self) -> Result<Option<&'t Symbol>, AllocError>
        ensures { IfOk result (λ o. MatchOption o (names_ahead self.old ≡ [])
            (λ n. names_ahead self.old ≡ n.now ∷ names_ahead self.new)) }
    {
        loop {
            if let Some(name) = self.next_part() {
                return Ok(Some(name));
            }
            let Some(op) = self.ops.next()? else {
                return Ok(None);
            };
            if let Some(name) = self.enter(op) {
                return Ok(Some(name));
            }
        }
    }
}

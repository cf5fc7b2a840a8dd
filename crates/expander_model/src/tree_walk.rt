//! A pre-order traversal of trees and the groups in them, event by event, without recursion.
ghost use Rattle.std.specs.Prelude.{◌≡◌, [], ◌∷◌, IfOk, OnOk};
ghost use Rattle.expander_model.specs.WalkSteps.{GoesOn, GoesOut, groups_of};

use bridge::parts::TokenEvent;
use std::alloc::{AllocError, Global};
use std::mem::replace;
use tt::TtIter;
use tt_data::{Delimiter, DelimiterKind, Span};

/// A group around the present position: its closing, and the trees after it.
#[derive(Drop)]
pub(crate) struct Around<'a> {
    kind: DelimiterKind,
    close_span: Span,
    behind: TtIter<'a>,
}

/// A pre-order traversal. It takes memory for each group that it is in, and no call stack.
#[derive(Drop)]
pub struct TreeWalk<'a> {
    /// The trees left in the innermost group.
    pub here: TtIter<'a>,
    // The groups around the present position, the innermost last.
    around: Vec<Around<'a>>,
}

impl<'a> TreeWalk<'a> {
    /// A traversal at the beginning of the trees.
    pub fn new(alloc: Global, trees: &TtIter<'a>) -> Self
        ensures here { result.here ≡ trees.now }
        ensures groups { groups_of result ≡ [] }
    {
        TreeWalk {
            here: trees.copied(),
            around: Vec::new(alloc),
        }
    }

    /// Goes on with these trees in the innermost group, in the place of those left there.
    #[inline(always)]
    pub fn go_on(&mut self, trees: TtIter<'a>)
        ensures here { self.new.here ≡ trees.entry }
        ensures groups { groups_of self.new ≡ groups_of self.old }
    {
        self.here = trees;
    }

    /// The next event, a leaf lent. `None` at the end.
    #[inline(always)]
    pub fn next(&mut self) -> Result<Option<TokenEvent<'a>>, AllocError>
        ensures { IfOk result (λ step. GoesOn self.old step self.new) }
    {
        if let Some((leaf, rest)) = self.here.lent_leaf() {
            self.here = rest;
            return Ok(Some(TokenEvent::Leaf(leaf)));
        }
        match self.here.first_group() {
            Some((brackets, inside, rest)) => {
                self.here = rest;
                self.enter(brackets, inside)?;
                Ok(Some(TokenEvent::Opens(brackets.kind, brackets.open_span)))
            }
            None => Ok(self.leave()),
        }
    }

    // Goes on with the trees in a group. `self.here` has those after it.
    fn enter(&mut self, brackets: Delimiter, inside: TtIter<'a>) -> Result<(), AllocError>
        ensures here { OnOk result (self.new.here ≡ inside.entry) }
        ensures groups { OnOk result (groups_of self.new
            ≡ record {
              kind = brackets.kind;
              close_span = brackets.close_span;
              behind =
                  self.old.here;
            } ∷ groups_of self.old) }
    {
        let behind = replace(&mut self.here, inside);
        self.around.push(Around {
            kind: brackets.kind,
            close_span: brackets.close_span,
            behind,
        })?;
        Ok(())
    }

    // Goes on after the innermost group. `None` if it is in none.
    fn leave(&mut self) -> Option<TokenEvent<'a>>
        ensures { GoesOut self.old result self.new }
    {
        let Around {
            kind,
            close_span,
            behind,
        } = self.around.pop()?;
        self.here = behind;
        Some(TokenEvent::Closes(kind, close_span))
    }
}

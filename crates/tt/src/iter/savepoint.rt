//! Savepoints of an iterator, and the trees that it passed since.
ghost use Rattle.std.specs.Prelude.{◌≡◌, []};
ghost use Rattle.tt_data.specs.Forest.{Forest, joined};
ghost use Rattle.tt.specs.Views.{forest};
ghost use Rattle.tt.specs.Savepoints.{left_at};

use crate::buffer::Cursor;
use crate::iter::TtIter;
use crate::view::TokenTreesView;

/// A savepoint of a walk over a list of trees.
#[derive(Clone, Copy, Debug)]
pub struct TtIterSavepoint<'a> {
    trees: TokenTreesView<'a>,
}

impl<'a> TtIterSavepoint<'a> {
    /// The trees that were left at the savepoint.
    pub fn remaining(self) -> TokenTreesView<'a>
        ensures { forest result ≡ left_at self.entry }
    {
        self.trees
    }
}

impl<'a> TtIter<'a> {
    /// A savepoint at the present position.
    pub fn savepoint(&self) -> TtIterSavepoint<'a>
        ensures { left_at result ≡ self.now }
    {
        TtIterSavepoint {
            trees: self.remaining(),
        }
    }

    /// The trees passed since a savepoint of this walk: what was left there ends with what is left
    /// now.
    pub fn from_savepoint(&self, savepoint: TtIterSavepoint<'a>) -> TokenTreesView<'a>
        requires { (passed : Forest) × (left_at savepoint ≡ joined passed self.now) }
        ensures { left_at savepoint.entry ≡ joined (forest result) self.now }
    {
        self.passed_since(savepoint.remaining())
    }

    /// Goes on to the position of a cursor, which is in no group. The trees that are left end with
    /// those after it.
    pub fn flat_advance_to(&mut self, cursor: &Cursor<'a>)
        requires root { cursor.now.around ≡ [] }
        requires ahead { (passed : Forest) × (self.old ≡ joined passed cursor.now.after) }
        ensures { self.new ≡ cursor.now.after }
    {
        *self = cursor.after().iter();
    }
}

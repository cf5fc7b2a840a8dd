//! The nodes that are open around a place of the table, in lists of fixed length.
ghost use Rattle.std.specs.Prelude.{◌≡◌, ◌<◌, [], ◌∷◌, IsTrue, not, false, true, IfSome, IfNone};
ghost use Rattle.std.specs.Prelude.{Bool};
ghost use Rattle.tt.specs.Views.{forest};
ghost use Rattle.tt_data.specs.Forest.{empty};
ghost use Rattle.rust_grammar.specs.Frames.{frame, has_room};

use crate::node::At;
use arrayvec::ArrayVec;
use std::marker::Model;
use tt::{TokenTreesView, TtIter};

// How many nodes may be open, and for how many of them trees are kept.
const OPEN: usize = 64;

const KEPT: usize = 32;

// An open node, and whether the trees before it are kept.
#[derive(Clone, Copy, Default)]
struct Open {
    at: At,
    keeps: bool,
}

// Trees that are kept.
#[derive(Clone, Copy)]
struct Kept<'a> {
    trees: TokenTreesView<'a>,
}

impl<'a> Default for Kept<'a> {
    fn default() -> Kept<'a> {
        Kept {
            trees: TokenTreesView::empty(),
        }
    }
}

/// The open nodes, and the trees before some of them. Contracts see them as a list, the innermost
/// first.
#[derive(Drop)]
pub(crate) struct Frames<'a> {
    open: ArrayVec<Open, OPEN>,
    kept: ArrayVec<Kept<'a>, KEPT>,
}

impl<'a> Model for Frames<'a> {
    ghost use Rattle.std.specs.Prelude.{List, reverse};
    ghost use Rattle.std.specs.Coded.{coded_list};
    ghost use Rattle.rust_grammar.specs.Frames.{Frame, frame_code};

    ghost Value = { List Frame };

    ghost coded = { coded_list frame_code };

    ghost use Rattle.rust_grammar.specs.Opened.{opened, AreOpen};

    ghost view = { λ f. opened (reverse f.open.items) (reverse f.kept.items) };

    ghost invariant = { λ f. AreOpen (reverse f.open.items) (reverse f.kept.items) };
}

impl<'a> Frames<'a> {
    /// None.
    pub(crate) fn new() -> Frames<'a>
        ensures { result ≡ [] }
    {
        Frames {
            open: ArrayVec::new(),
            kept: ArrayVec::new(),
        }
    }

    /// Whether there is no room for another.
    pub(crate) fn is_full(&self) -> bool
        ensures { result ≡ not (has_room self.now) }
    {
        self.open.is_full() || self.kept.is_full()
    }

    /// Opens a node.
    pub(crate) fn open(&mut self, at: At)
        requires room { has_room self.old ≡ true }
        requires within { at.place < 1564 }
        ensures { self.new ≡ frame at false empty ∷ self.old }
    {
        self.open.push(Open { at, keeps: false });
    }

    /// Opens a node, and keeps the trees before it.
    pub(crate) fn open_before(&mut self, at: At, trees: &TtIter<'a>)
        requires room { has_room self.old ≡ true }
        requires within { at.place < 1564 }
        ensures { self.new ≡ frame at true trees.now ∷ self.old }
    {
        let kept = trees.remaining();
        self.open.push(Open { at, keeps: true });
        self.kept.push(Kept { trees: kept });
    }

    /// Closes the innermost open node, and gives it and the trees before it, or no trees if they
    /// are not kept.
    pub(crate) fn close(&mut self) -> Option<(At, TokenTreesView<'a>)>
        ensures none { IfNone result (self.old ≡ []) }
        ensures some { IfSome result (λ r. (k : Bool)
            × (self.old ≡ frame r.0 k (forest r.1) ∷ self.new)) }
        ensures within { IfSome result (λ r. r.0.place < 1564) }
    {
        let last = self.open.pop()?;
        if !last.keeps {
            return Some((last.at, TokenTreesView::empty()));
        }
        match self.kept.pop() {
            Some(kept) => Some((last.at, kept.trees)),
            None => unreachable!(),
        }
    }
}

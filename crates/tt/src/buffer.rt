//! Cursors: positions in a list of trees that go through it leaf by leaf and bracket by bracket.
//!
//! A `Cursor` enters groups and leaves them again, where a `TtIter` passes a group as one tree.
//! Its contracts see it as a position among trees: those before it, those after it, and the
//! groups around it.
ghost use Rattle.arrayvec.specs.ArrayVec.{array_vec_len};
ghost use Rattle.tt.specs.CursorTokens.{IsKept};
ghost use Rattle.token_bytes.specs.Lists.{BeginsListOf};
ghost use Rattle.token_bytes.specs.Marks.{IsPlaceIn};
ghost use Rattle.tt.specs.Places.{two_leaves};
ghost use Rattle.token_bytes.specs.Items.{items};
ghost use Rattle.tt.specs.Views.{forest};
ghost use Rattle.tt_data.specs.declared.tree.TokenTree.{TokenTree};
ghost use Rattle.std.specs.Prelude.{◌≡◌, ◌≢◌, ⊤, All, IsTrue, ◌↔◌, ◌-◌, ◌<◌, List, [], Some, IsNone};

use crate::view::TokenTreesView;
use arrayvec::ArrayVec;
use std::alloc::AllocError;
use std::marker::Model;
use token_bytes::{Place, Tokens};
use tt_data::{Leaf, Subtree, TokenTree};

/// A position in a list of trees: between two trees of the list, or of a group in it.
///
/// It walks over leaves, openings and closings, and takes no memory. A step looks at the innermost
/// group's head and at most two tokens. It remembers up to sixteen lists around its own; leaving a
/// group for a list that it forgot looks back over that list's tokens. It forgets a long list only
/// once it is far behind it, so a walk over fewer than 2^37 tokens looks back at no more than 128
/// times as many.
#[derive(Debug, Drop)]
pub struct Cursor<'a> {
    tokens: Tokens<'a>,
    // The place at which the innermost list begins: the first in no group, else that just after the
    // group's head.
    start: Place,
    at: Place,
    // Lists around that one, the nearest last.
    kept: ArrayVec<ListAround, KEPT>,
}

// A list around: the place at which it begins, and that just after the head of the group in it that
// is around too, or that is the innermost one.
#[derive(Clone, Copy, Debug, Default)]
struct ListAround {
    start: Place,
    inside: Place,
}

// How many lists around its own a cursor remembers at most.
const KEPT: usize = 16;

impl<'a> Model for Cursor<'a> {
    ghost use Rattle.std.specs.Prelude.{All};
    ghost use Rattle.tt.specs.Places.{Place, place_code};
    ghost use Rattle.tt.specs.CursorTokens.{place_of, IsKept, IsPlaced, CursorPlaces};
    ghost use Rattle.token_bytes.specs.Items.{items};

    ghost Value = { Place };

    ghost coded = { place_code };

    ghost view = { λ c. place_of (items c.tokens) c.start.count c.at.count };

    ghost invariant = { λ c. IsPlaced (items c.tokens) c.start.count c.at.count
        × All (IsKept (items c.tokens)) c.kept.items
        × CursorPlaces (items c.tokens) c.start c.at };
}

impl<'a> Clone for Cursor<'a> {
    ghost is_clone = { λ it copy. copy ≡ it };

    ghost is_infallible = { λ _. ⊤ };

    /// A second cursor at the same position. It is never refused.
    fn clone(&self) -> Result<Cursor<'a>, AllocError> {
        Ok(Cursor {
            tokens: self.tokens,
            start: self.start,
            at: self.at,
            kept: copied(&self.kept),
        })
    }
}

// A clone of the lists around.
fn copied(kept: &ArrayVec<ListAround, KEPT>) -> ArrayVec<ListAround, KEPT>
    ensures { result ≡ kept.now }
{
    let Ok(copy) = kept.clone() else {
        unreachable!()
    };
    copy
}

impl ListAround {
    // Whether the way from its group's inside to `at` is a quarter as long as the list up to there,
    // or longer.
    fn is_far(self, at: Place) -> bool {
        let inside = self.inside.count();
        inside.saturating_sub(self.start.count()) / 4 <= at.count().saturating_sub(inside)
    }
}

// Which list is forgotten before the group with its inside at `at`: the first that is far from it.
fn forgotten(kept: &ArrayVec<ListAround, KEPT>, at: Place) -> usize
    requires { 0 < array_vec_len kept.now }
    ensures { result < array_vec_len kept.now }
{
    let mut index = 0;
    while index < kept.len() {
        if kept.as_slice()[index].is_far(at) {
            return index;
        }
        index += 1;
    }
    0
}

// Remembers one list more, in place of another one if there is no more room.
fn keep(kept: &mut ArrayVec<ListAround, KEPT>, list: ListAround)
    ensures { (tokens : List TokenTree) → All (IsKept tokens) kept.old.items → IsKept tokens list → All (IsKept tokens) kept.new.items }
{
    if kept.is_full() {
        let index = forgotten(kept, list.inside);
        let _ = kept.remove(index);
    }
    kept.push(list);
}

// The answer of `Tokens::list_around`: that of the last list around, which is no more kept, or else
// found anew.
fn next_out(kept: &mut ArrayVec<ListAround, KEPT>, tokens: Tokens<'_>, inside: Place) -> Place
    requires inside { IsPlaceIn inside (items tokens) }
    requires some { 0 < inside.count }
    requires kept { All (IsKept (items tokens)) kept.old.items }
    ensures begins { BeginsListOf (items tokens.entry) (inside.count - 1) result.count }
    ensures marked { IsPlaceIn result (items tokens.entry) }
    ensures kept { All (IsKept (items tokens.entry)) kept.new.items }
{
    let Some(list) = kept.as_slice().last() else {
        return tokens.list_around(inside);
    };
    if list.inside.count() != inside.count() {
        return tokens.list_around(inside);
    }
    let start = list.start;
    let _ = kept.pop();
    start
}

// The first two trees, if both are leaves.
fn leaf_pair(trees: TokenTreesView<'_>) -> Option<[Leaf; 2]>
    ensures { result ≡ two_leaves (forest trees.entry) }
{
    let (first, more) = trees.tokens.split_leaf()?;
    let (second, _) = more.split_leaf()?;
    Some([first, second])
}

impl<'a> Cursor<'a> {
    ghost use Rattle.tt_data.specs.Forest.{empty};
    ghost use Rattle.tt.specs.Places.{beginning, IsEnd, first_token, bumped, ended, moved, innermost_head};

    /// A cursor before the first tree of the list.
    pub fn new(origin: TokenTreesView<'a>) -> Cursor<'a>
        ensures { result ≡ beginning (forest origin.entry) }
    {
        Cursor {
            tokens: origin.tokens,
            start: Place::start(),
            at: Place::start(),
            kept: ArrayVec::new(),
        }
    }

    // The trees after the position in the innermost list.
    pub(crate) fn after(&self) -> TokenTreesView<'a>
        ensures { forest result ≡ self.now.after }
    {
        let ahead = self.tokens.after(self.at);
        let Some(group) = self.head() else {
            return TokenTreesView { tokens: ahead };
        };
        let count = group.usize_len() - (self.at.count() - self.start.count());
        let list = ahead.front(count);
        TokenTreesView { tokens: list }
    }

    // The head of the innermost group.
    fn head(&self) -> Option<Subtree>
        ensures { result ≡ innermost_head self.now }
    {
        self.tokens.head_before(self.start)
    }

    /// Whether it is in no group, after the last tree.
    pub fn eof(&self) -> bool
        ensures { IsTrue result ↔ IsEnd self.now }
    {
        self.is_root() && self.after().is_empty()
    }

    /// Whether it is in no group.
    pub fn is_root(&self) -> bool
        ensures { IsTrue result ↔ (self.now.around ≡ []) }
    {
        self.start.count() == 0
    }

    /// The token at the position: a leaf, or the head of a group. `None` at the end of a list.
    pub fn token_tree(&self) -> Option<TokenTree>
        ensures token { result ≡ first_token self.now.after }
        ensures at_end { IsNone result ↔ (self.now.after ≡ empty) }
    {
        self.after().tokens.first()
    }

    /// Leaves the innermost group, at whose end the cursor is, and answers that group's head.
    pub fn end(&mut self) -> Subtree
        requires inside { self.old.around ≢ [] }
        requires at_end { self.old.after ≡ empty }
        ensures group { Some result ≡ innermost_head self.old }
        ensures left { self.new ≡ ended self.old }
    {
        let Some(group) = self.head() else {
            unreachable!()
        };
        self.start = next_out(&mut self.kept, self.tokens, self.start);
        group
    }

    /// Goes past the leaf that comes next, or into the group that comes next. A tree comes next.
    pub fn bump(&mut self)
        requires { self.old.after ≢ empty }
        ensures { self.new ≡ bumped self.old }
    {
        match self.after().tokens.first_head() {
            None => self.at = self.tokens.past_token(self.at),
            Some(_head) => {
                self.at = self.tokens.past_token(self.at);
                let list = ListAround {
                    start: self.start,
                    inside: self.at,
                };
                keep(&mut self.kept, list);
                self.start = self.at;
            }
        }
    }

    /// Goes past the leaf that comes next, or into the group; at the end of a list, out of the
    /// innermost group. It is not at `eof`.
    pub fn bump_or_end(&mut self)
        requires { IsEnd self.old → ⊥ }
        ensures { self.new ≡ moved self.old }
    {
        if self.after().is_empty() {
            let _group = self.end();
        } else {
            self.bump();
        }
    }

    /// The next two trees of the list, if both are leaves.
    pub fn peek_two_leaves(&self) -> Option<[Leaf; 2]>
        ensures { result ≡ two_leaves self.now.after }
    {
        leaf_pair(self.after())
    }

    /// The trees before the position. It is in no group.
    pub fn crossed(&self) -> TokenTreesView<'a>
        requires { self.now.around ≡ [] }
        ensures { forest result ≡ self.now.before }
    {
        let before = self.tokens.front(self.at.count());
        TokenTreesView { tokens: before }
    }
}

impl<'a> TokenTreesView<'a> {
    ghost use Rattle.tt.specs.Places.{beginning};

    /// A cursor before the first tree of the list.
    pub fn cursor(&self) -> Cursor<'a>
        ensures { result ≡ beginning (forest self.now) }
    {
        Cursor::new(*self)
    }
}

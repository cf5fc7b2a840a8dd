//! Iterators over a list of trees, tree by tree.
//!
//! A `TtIter` is before the trees that are left, and its contracts see it as the list of those.
//! It gives each tree as a `TtElement`, and takes no memory. The modules below add what else it
//! can be asked: the first tree of a kind, what is expected next, and savepoints.
ghost use Rattle.std.specs.Prelude.{◌≡◌, ⊤, IsTrue, ◌↔◌};

pub(crate) mod expect;
mod peek;
mod savepoint;

use crate::view::{SubtreeView, TokenTreesView};
pub use savepoint::TtIterSavepoint;
use std::alloc::AllocError;
use std::marker::Model;
use token_bytes::Tokens;
use tt_data::{Leaf, Span, Subtree, TokenTree};

/// A walk over a list of trees, group by group as one tree. Contracts see it as the trees that are
/// left.
#[derive(Debug, Drop)]
pub struct TtIter<'a> {
    pub(crate) tokens: Tokens<'a>,
}

impl<'a> Model for TtIter<'a> {
    ghost use Rattle.tt_data.specs.Coded.{forest_code};
    ghost use Rattle.tt_data.specs.Forest.{Forest, forest_of, IsPreorder};
    ghost use Rattle.token_bytes.specs.Items.{items};

    ghost Value = { Forest };

    ghost coded = { forest_code };

    ghost view = { λ it. forest_of (items it.tokens) };

    ghost invariant = { λ it. IsPreorder (items it.tokens) };
}

/// One tree of a list.
#[derive(Debug, Drop)]
pub enum TtElement<'a> {
    Leaf(Leaf),
    /// A group: its head, and a walk over the trees inside.
    Subtree(Subtree, TtIter<'a>),
}

impl<'a> TtElement<'a> {
    ghost use Rattle.tt.specs.Elements.{place_of};

    /// The span of the tree's first token: of a group that of its opening delimiter.
    pub fn first_span(&self) -> Span
        ensures { result ≡ place_of self.now }
    {
        match self {
            TtElement::Leaf(leaf) => leaf.span(),
            TtElement::Subtree(subtree, _) => subtree.delimiter.open_span,
        }
    }
}

// A clone of a leaf. Its text gets one more owner, so memory is never refused.
fn same_leaf(leaf: &Leaf) -> Leaf
    ensures { result ≡ leaf.now }
{
    let Ok(leaf) = leaf.clone() else {
        unreachable!()
    };
    leaf
}

impl<'a> Clone for TtElement<'a> {
    ghost is_clone = { λ tree copy. copy ≡ tree };

    ghost is_infallible = { λ _. ⊤ };

    /// The same tree. It is never refused.
    fn clone(&self) -> Result<TtElement<'a>, AllocError> {
        match self {
            TtElement::Leaf(leaf) => Ok(TtElement::Leaf(same_leaf(leaf))),
            TtElement::Subtree(subtree, inner) => {
                Ok(TtElement::Subtree(*subtree, inner.copied()))
            }
        }
    }
}

impl<'a> Clone for TtIter<'a> {
    ghost is_clone = { λ it copy. copy ≡ it };

    ghost is_infallible = { λ _. ⊤ };

    /// A second walk over the trees that are left. It is never refused.
    fn clone(&self) -> Result<TtIter<'a>, AllocError> {
        Ok(self.copied())
    }
}

impl<'a> Iterator for TtIter<'a> {
    ghost use Rattle.std.specs.Iterator.{item_count};
    ghost use Rattle.tt.specs.Elements.{elements, IsNext};

    type Item = TtElement<'a>;

    ghost next_gives = { IsNext };

    ghost remaining = { item_count elements };

    /// The next tree, which is passed, a group with all inside it. `None` at the end.
    #[inline]
    fn next(&mut self) -> Option<TtElement<'a>> {
        let (first, more) = self.tokens.split_first()?;
        match first {
            TokenTree::Leaf(leaf) => {
                self.tokens = more;
                Some(TtElement::Leaf(leaf))
            }
            TokenTree::Subtree(subtree) => {
                let (inner, rest) = more.split_at(subtree.usize_len());
                self.tokens = rest;
                Some(TtElement::Subtree(subtree, TtIter { tokens: inner }))
            }
        }
    }
}

impl<'a> TtIter<'a> {
    ghost use Rattle.std.specs.Prelude.{option_map};
    ghost use Rattle.tt_data.specs.Forest.{Forest, empty, joined};
    ghost use Rattle.tt.specs.Elements.{first_element, first_place, first_alone, after_first};
    ghost use Rattle.tt.specs.Views.{forest};

    /// Whether no trees are left.
    pub fn is_empty(&self) -> bool
        ensures { IsTrue result ↔ (self.now ≡ empty) }
    {
        self.tokens.is_empty()
    }

    /// The next tree, without passing it. `None` at the end.
    #[inline]
    pub fn peek(&self) -> Option<TtElement<'a>>
        ensures { result ≡ first_element self.now }
    {
        let tokens = self.tokens;
        let (first, more) = tokens.split_first()?;
        match first {
            TokenTree::Leaf(leaf) => Some(TtElement::Leaf(leaf)),
            TokenTree::Subtree(subtree) => {
                let inner = more.front(subtree.usize_len());
                Some(TtElement::Subtree(subtree, TtIter { tokens: inner }))
            }
        }
    }

    /// The span of the next token. `None` at the end.
    pub fn next_span(&self) -> Option<Span>
        ensures { result ≡ first_place self.now }
    {
        self.tokens.first_span()
    }

    /// A second walk over the trees that are left. It is never refused.
    ///
    /// For a walk that is not borrowed write `TtIter::copied(&walk)`: `walk.copied()` is
    /// `Iterator::copied`.
    pub fn copied(&self) -> TtIter<'a>
        ensures { result ≡ self.now }
    {
        TtIter {
            tokens: self.tokens,
        }
    }

    /// The trees that are left.
    #[tactic(auto, unfolding(crate::specs::Views::forest))]
    pub fn remaining(&self) -> TokenTreesView<'a>
        ensures { forest result ≡ self.now }
    {
        TokenTreesView {
            tokens: self.tokens,
        }
    }

    /// The next tree alone, which is passed. `None` at the end.
    pub fn next_as_view(&mut self) -> Option<TokenTreesView<'a>>
        ensures tree { option_map forest result ≡ first_alone self.old }
        ensures rest { self.new ≡ after_first self.old }
    {
        let before = self.remaining();
        let _tree = self.next()?;
        Some(self.passed_since(before))
    }

    /// The trees passed since `then`, which is what was left at an earlier point of this walk:
    /// `then` is the trees passed followed by those left now.
    pub fn passed_since(&self, then: TokenTreesView<'a>) -> TokenTreesView<'a>
        requires { (passed : Forest) × (forest then ≡ joined passed self.now) }
        ensures { forest then.entry ≡ joined (forest result) self.now }
    {
        let count = then.tokens.len() - self.tokens.len();
        let passed = then.tokens.front(count);
        TokenTreesView { tokens: passed }
    }
}

impl<'a> TokenTreesView<'a> {
    ghost use Rattle.tt.specs.Views.{forest};

    /// A walk over the trees, before the first.
    #[tactic(auto, unfolding(crate::specs::Views::forest))]
    pub fn iter(&self) -> TtIter<'a>
        ensures { result ≡ forest self.now }
    {
        let tokens = self.tokens;
        TtIter { tokens }
    }
}

impl<'a> SubtreeView<'a> {
    ghost use Rattle.tt.specs.Views.{top_of};

    /// A walk over the trees inside the group.
    pub fn iter(&self) -> TtIter<'a>
        ensures { result ≡ (top_of self.now).inner }
    {
        self.token_trees().iter()
    }
}

//! The tokens of a flat list: leaves, and heads of groups.
ghost use Rattle.std.specs.Prelude.{◌≡◌};
ghost use Rattle.tt_data.specs.Spans.{first_span_of};
ghost use Rattle.tt_data.specs.declared.tree.TokenTree.TheVariants as token;

use crate::delimiter::Delimiter;
use crate::leaf::Leaf;
use crate::span::Span;

/// The head of a group in a flat list: its delimiters, and how many tokens are inside.
#[derive(Clone, Copy, PartialEq, Eq, Hash, Debug)]
pub struct Subtree {
    pub delimiter: Delimiter,
    /// The number of tokens inside, all levels: each leaf is one, each group one and its contents.
    pub len: u32,
}

impl Subtree {
    /// The number of tokens inside, all levels.
    pub fn usize_len(&self) -> usize
        ensures { result ≡ self.now.len }
    {
        self.len as usize
    }

    /// The number of tokens inside, all levels.
    pub fn count(&self) -> usize
        ensures { result ≡ self.now.len }
    {
        self.usize_len()
    }
}

/// A token of a flat list: a leaf, or the head of a group.
#[derive(Clone, PartialEq, Eq, Hash, Debug, Drop)]
pub enum TokenTree {
    Leaf(Leaf),
    Subtree(Subtree),
}

impl TokenTree {
    /// The span of the token; of a group that of its opening delimiter.
    pub fn first_span(&self) -> Span
        ensures { result ≡ first_span_of self.now }
    {
        match self {
            TokenTree::Leaf(leaf) => leaf.span(),
            TokenTree::Subtree(subtree) => subtree.delimiter.open_span,
        }
    }
}

impl From<Leaf> for TokenTree {
    ghost from_gives = { λ leaf tree. tree ≡ token.Leaf leaf };

    fn from(leaf: Leaf) -> TokenTree {
        TokenTree::Leaf(leaf)
    }
}

impl From<Subtree> for TokenTree {
    ghost from_gives = { λ subtree tree. tree ≡ token.Subtree subtree };

    fn from(subtree: Subtree) -> TokenTree {
        TokenTree::Subtree(subtree)
    }
}

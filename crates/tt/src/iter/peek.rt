//! Peeks at the first tree of a list, if it is of the kind that is asked for, and gives the trees
//! after it.
//!
//! Nothing is consumed, and nothing is copied if a tree of another kind comes first.
ghost use Rattle.std.specs.Prelude.{◌≡◌, option_map};
ghost use Rattle.tt.specs.FirstTrees.{first_ident, first_leaf, first_literal, first_punct, first_group, first_subtree};
ghost use Rattle.tt_data.specs.Lent.{ident_lent, leaf_lent};

use crate::iter::TtIter;
use tt_data::{Delimiter, Ident, IdentRef, Leaf, LeafRef, LitKind, Punct, Subtree};

impl<'a> TtIter<'a> {
    /// The punct that comes next, if one does, and the trees after it.
    #[inline(always)]
    pub fn first_punct(&self) -> Option<(Punct, TtIter<'a>)>
        ensures { result ≡ first_punct self.now }
    {
        let (punct, more) = self.tokens.split_punct()?;
        Some((punct, TtIter { tokens: more }))
    }

    /// The identifier that comes next, if one does, and the trees after it.
    pub fn first_ident(&self) -> Option<(Ident, TtIter<'a>)>
        ensures { result ≡ first_ident self.now }
    {
        let (ident, more) = self.tokens.split_ident()?;
        Some((ident, TtIter { tokens: more }))
    }

    /// The identifier that comes next, lent, and the trees after it. Its text gets no other owner.
    #[inline(always)]
    pub fn lent_ident(&self) -> Option<(IdentRef<'a>, TtIter<'a>)>
        ensures { option_map (λ p. (ident_lent p.0, p.1)) result ≡ first_ident self.now }
    {
        let (ident, more) = self.tokens.lent_ident()?;
        Some((ident, TtIter { tokens: more }))
    }

    /// The leaf that comes next, lent, and the trees after it. Its text gets no other owner.
    #[inline(always)]
    pub fn lent_leaf(&self) -> Option<(LeafRef<'a>, TtIter<'a>)>
        ensures { option_map (λ p. (leaf_lent p.0, p.1)) result ≡ first_leaf self.now }
    {
        let (leaf, more) = self.tokens.lent_leaf()?;
        Some((leaf, TtIter { tokens: more }))
    }

    /// The form of the literal that comes next, if one does, and the trees after it.
    pub fn first_literal(&self) -> Option<(LitKind, TtIter<'a>)>
        ensures { result ≡ first_literal self.now }
    {
        let (kind, more) = self.tokens.split_literal()?;
        Some((kind, TtIter { tokens: more }))
    }

    // The leaf that comes next.
    pub(crate) fn first_leaf(&self) -> Option<(Leaf, TtIter<'a>)>
        ensures { result ≡ first_leaf self.now }
    {
        let (leaf, more) = self.tokens.split_leaf()?;
        Some((leaf, TtIter { tokens: more }))
    }

    // The head of the group that comes next, an iterator over the trees inside, and one over
    // those after it.
    #[inline(always)]
    pub(crate) fn first_subtree(&self) -> Option<(Subtree, TtIter<'a>, TtIter<'a>)>
        ensures { result ≡ first_subtree self.now }
    {
        let (head, more) = self.tokens.split_head()?;
        let (inner, rest) = more.split_at(head.usize_len());
        Some((head, TtIter { tokens: inner }, TtIter { tokens: rest }))
    }

    /// The delimiters of the group that comes next, if one does, a walk over the trees inside, and
    /// one over the trees after it.
    #[inline(always)]
    pub fn first_group(&self) -> Option<(Delimiter, TtIter<'a>, TtIter<'a>)>
        ensures { result ≡ first_group self.now }
    {
        let (head, inner, rest) = self.first_subtree()?;
        Some((head.delimiter, inner, rest))
    }
}

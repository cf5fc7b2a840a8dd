//! What a run begins with.
ghost use Rattle.std.specs.Prelude.{◌≡◌, ◌∷◌, [], MatchOption, option_map, slice_get};
ghost use Rattle.token_bytes.specs.Items.{items};
ghost use Rattle.token_bytes.specs.TokenLists.{head_at, head_in, ident_in, leaf_in, literal_in};
ghost use Rattle.token_bytes.specs.TokenLists.{punct_in};
ghost use Rattle.tt_data.specs.Lent.{ident_lent, leaf_lent};
ghost use Rattle.tt_data.specs.Spans.{first_span_of};

use crate::reading;
use crate::tokens::Tokens;
use tt_data::{Ident, IdentRef, Leaf, LeafRef, LitKind, Punct, Span, Subtree, TokenTree};

impl<'a> Tokens<'a> {
    /// The first token, and those after it.
    #[inline]
    pub fn split_first(self) -> Option<(TokenTree, Tokens<'a>)>
        ensures { MatchOption result (items self.entry ≡ [])
            (λ p. items self.entry ≡ p.0 ∷ items p.1) }
    {
        if self.has_none() {
            return None;
        }
        Some((self.first_token(), self.rest()))
    }

    /// The first token.
    #[inline]
    pub fn first(self) -> Option<TokenTree>
        ensures { result ≡ slice_get (items self.entry) 0 }
    {
        let (first, _) = self.split_first()?;
        Some(first)
    }

    /// The head of the group that begins with the first token, if one does.
    #[inline]
    pub fn first_head(self) -> Option<Subtree>
        ensures { result ≡ head_at (items self.entry) 0 }
    {
        let (head, _) = self.split_head()?;
        Some(head)
    }

    /// The span of the first token. For a head, that is the span of its opening.
    #[inline]
    pub fn first_span(self) -> Option<Span>
        ensures { result ≡ option_map first_span_of (slice_get (items self.entry) 0) }
    {
        if self.has_none() {
            return None;
        }
        // The proof needs this.
        let _rest = self.rest();
        let (table, records) = self.parts();
        Some(reading::first_span(table, records))
    }

    /// The first token if it is the head of a group, and the tokens after it.
    #[inline(always)]
    pub fn split_head(self) -> Option<(Subtree, Tokens<'a>)>
        ensures { option_map (λ p. (p.0, items p.1)) result ≡ head_in (items self.entry) }
    {
        if self.has_none() {
            return None;
        }
        let rest = self.rest();
        let (table, records) = self.parts();
        match reading::first_head(table, records) {
            Some(head) => Some((head, rest)),
            None => None,
        }
    }

    /// The first token if it is a leaf, and the tokens after it.
    pub fn split_leaf(self) -> Option<(Leaf, Tokens<'a>)>
        ensures { option_map (λ p. (p.0, items p.1)) result ≡ leaf_in (items self.entry) }
    {
        let (leaf, more) = self.lent_leaf()?;
        Some((leaf.to_leaf(), more))
    }

    /// The first token, lent, if it is a leaf, and the tokens after it.
    #[inline(always)]
    pub fn lent_leaf(self) -> Option<(LeafRef<'a>, Tokens<'a>)>
        ensures { option_map (λ p. (leaf_lent p.0, items p.1)) result
            ≡ leaf_in (items self.entry) }
    {
        if self.has_none() {
            return None;
        }
        let rest = self.rest();
        let (table, records) = self.parts();
        match reading::first_leaf(table, records) {
            Some(leaf) => Some((leaf, rest)),
            None => None,
        }
    }

    /// The first token, lent, if it is an identifier, and the tokens after it.
    #[inline(always)]
    pub fn lent_ident(self) -> Option<(IdentRef<'a>, Tokens<'a>)>
        ensures { option_map (λ p. (ident_lent p.0, items p.1)) result
            ≡ ident_in (items self.entry) }
    {
        if self.has_none() {
            return None;
        }
        let rest = self.rest();
        let (table, records) = self.parts();
        match reading::first_ident(table, records) {
            Some(ident) => Some((ident, rest)),
            None => None,
        }
    }

    /// The first token if it is a punct, and the tokens after it.
    #[inline(always)]
    pub fn split_punct(self) -> Option<(Punct, Tokens<'a>)>
        ensures { option_map (λ p. (p.0, items p.1)) result ≡ punct_in (items self.entry) }
    {
        if self.has_none() {
            return None;
        }
        let rest = self.rest();
        let (table, records) = self.parts();
        match reading::first_punct(table, records) {
            Some(punct) => Some((punct, rest)),
            None => None,
        }
    }

    /// The first token if it is an identifier, and the tokens after it.
    #[inline]
    pub fn split_ident(self) -> Option<(Ident, Tokens<'a>)>
        ensures { option_map (λ p. (p.0, items p.1)) result ≡ ident_in (items self.entry) }
    {
        let (ident, more) = self.lent_ident()?;
        Some((ident.to_ident(), more))
    }

    /// The kind of the first token if it is a literal, and the tokens after it.
    pub fn split_literal(self) -> Option<(LitKind, Tokens<'a>)>
        ensures { option_map (λ p. (p.0, items p.1)) result ≡ literal_in (items self.entry) }
    {
        if self.has_none() {
            return None;
        }
        let rest = self.rest();
        let (table, records) = self.parts();
        match reading::first_kind(table, records) {
            Some(kind) => Some((kind, rest)),
            None => None,
        }
    }
}

//! Borrowed runs of tokens.
ghost use Rattle.token_bytes.specs.Runs.{IsLentAt, IsLentAt-prop, IsLentRun, IsLentRun-prop};

mod around;
mod first;
mod records;

use crate::mark::Place;
use crate::stored::Stored;
use std::fmt;
use tt_data::{Subtree, TokenTree};

/// A borrowed run of tokens.
#[derive(Clone, Copy)]
pub struct Tokens<'a> {
    // Nothing is stored where there is no token.
    stored: Option<&'a Stored>,
    // The byte at which the first record begins, and the number of records before it.
    at: usize,
    before: usize,
    // The number of the tokens.
    count: usize,
    ghost decoded: { IsLentRun stored at count } by { IsLentRun-prop stored at count },
    ghost known: { IsLentAt stored at before } by { IsLentAt-prop stored at before },
}

#[tactic(auto, unfolding(crate::specs::Items::items))]
impl<'a> Tokens<'a> {
    ghost use Rattle.std.specs.Prelude.{◌≡◌, ◌↔◌, ◌+◌, ◌-◌, ◌<◌, ◌≤◌, ◌^◌, [], IsSome, IsTrue};
    ghost use Rattle.std.specs.Prelude.{None, length, take, drop, slice_get};
    ghost use Rattle.token_bytes.specs.Items.{items};
    ghost use Rattle.token_bytes.specs.Marks.{IsPlaceIn};
    ghost use Rattle.token_bytes.specs.TokenLists.{has_leaf_at, head_at};

    /// No tokens.
    pub fn empty() -> Tokens<'a>
        ensures { items result ≡ [] }
    {
        Tokens {
            stored: None,
            at: 0,
            before: 0,
            count: 0,
        }
    }

    /// The number of tokens, which is less than 2^63.
    #[inline(always)]
    pub fn len(self) -> usize
        ensures len { result ≡ length (items self.entry) }
        ensures fits { result < 2 ^ 63 }
    {
        // The proof that the count fits needs this.
        let _bytes = self.stored_size();
        self.count
    }

    /// Whether there are none.
    #[inline(always)]
    pub fn is_empty(self) -> bool
        ensures { IsTrue result ↔ (items self.entry ≡ []) }
    {
        self.has_none()
    }

    /// The first `count` tokens.
    #[inline(always)]
    pub fn front(self, count: usize) -> Tokens<'a>
        requires { count ≤ length (items self) }
        ensures { items result ≡ take count (items self.entry) }
    {
        Tokens {
            stored: self.stored,
            at: self.at,
            before: self.before,
            count,
        }
    }

    // The tokens after the first `count`.
    #[inline(always)]
    fn behind(self, count: usize) -> Tokens<'a>
        requires { count ≤ length (items self) }
        ensures { items result ≡ drop count (items self.entry) }
    {
        if count == self.count {
            return self.end();
        }
        self.past(self.run_size(count), count)
    }

    /// The first `count` tokens, and those after them.
    #[inline(always)]
    pub fn split_at(self, count: usize) -> (Tokens<'a>, Tokens<'a>)
        requires { count ≤ length (items self) }
        ensures front { items result.0 ≡ take count (items self.entry) }
        ensures back { items result.1 ≡ drop count (items self.entry) }
    {
        (self.front(count), self.behind(count))
    }

    /// The tokens after a place.
    pub fn after(self, place: Place) -> Tokens<'a>
        requires { IsPlaceIn place (items self) }
        ensures { items result ≡ drop place.count (items self.entry) }
    {
        self.past(place.bytes, place.count)
    }

    /// The place after the token right after a place.
    #[inline]
    pub fn past_token(self, at: Place) -> Place
        requires marked { IsPlaceIn at (items self) }
        requires some { at.count < length (items self) }
        ensures marked { IsPlaceIn result (items self.entry) }
        ensures count { result.count ≡ at.count + 1 }
    {
        // The proof that the place fits needs this.
        let _size = self.stored_size();
        let rest = self.after(at);
        Place {
            count: at.count + 1,
            bytes: at.bytes + rest.first_size(),
        }
    }

    /// The head of the group right before a place, unless the place is at the beginning.
    pub fn head_before(self, place: Place) -> Option<Subtree>
        requires marked { IsPlaceIn place (items self) }
        requires head { 0 < place.count → IsSome (head_at (items self) (place.count - 1)) }
        ensures none { place.count ≡ 0 → result ≡ None }
        ensures some { 0 < place.count →
            result ≡ head_at (items self.entry) (place.count - 1) }
    {
        if place.count == 0 {
            return None;
        }
        let before = Place {
            count: place.count - 1,
            bytes: place.bytes - 31,
        };
        self.after(before).first_head()
    }

    /// Whether a leaf is at this index.
    pub fn is_leaf_at(self, at: usize) -> bool
        ensures leaf { result ≡ has_leaf_at at (items self.entry) }
        ensures within { IsTrue result → at < length (items self.entry) }
    {
        if self.count <= at {
            return false;
        }
        self.behind(at).lent_leaf().is_some()
    }

    /// The last token.
    pub fn last(self) -> Option<TokenTree>
        ensures { result ≡ slice_get (items self.entry) (length (items self.entry) - 1) }
    {
        if self.count == 0 {
            return None;
        }
        self.behind(self.count - 1).first()
    }
}

/// Writes the tokens, one after the other.
impl<'a> fmt::Debug for Tokens<'a> {
    fn fmt<W: fmt::Write>(&self, f: &mut fmt::Formatter<W>) -> fmt::Result {
        let mut list = f.debug_list();
        let mut rest = *self;
        for _ in 0..self.count {
            let Some((token, more)) = rest.split_first() else {
                break;
            };
            list.entry(&token);
            rest = more;
        }
        list.finish()
    }
}

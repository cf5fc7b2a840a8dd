//! The records of a run.
ghost use Rattle.std.specs.Prelude.{◌≡◌, ◌↔◌, ◌∷◌, ◌<◌, ◌≤◌, ◌^◌, [], IsTrue};
ghost use Rattle.std.specs.Prelude.{drop, false, length, option_map};
ghost use Rattle.token_bytes.specs.Items.{items, records_in, texts_in};
ghost use Rattle.token_bytes.specs.Packing.{tokens_in};
ghost use Rattle.token_bytes.specs.Records.{BeginsWithToken, first_size, first_token};
ghost use Rattle.token_bytes.specs.Marks.{IsPlaceIn};
ghost use Rattle.token_bytes.specs.Runs.{AreDecoded, BeginAt, run_size, stored_size};

use crate::mark::Place;
use crate::reading::{first_head, first_leaf, first_size, from};
use crate::stored::Stored;
use crate::tokens::Tokens;
use tt_data::{Symbol, TokenTree};

// The bytes of the first `count` records.
#[inline(never)]
fn run_size(_table: &[Symbol], bytes: &[u8], count: usize) -> usize
    requires { AreDecoded count _table.now bytes.now }
    ensures { result ≡ run_size count bytes.now }
{
    let mut size = 0;
    let mut rest = bytes;
    let mut left = count;
    while left > 0 {
        let first = first_size(rest);
        size += first;
        rest = from(rest, first);
        left -= 1;
    }
    size
}

// The bytes of `count` records that begin at a byte, with `before` records before it. Where more
// than 64 come, most are passed by what is noted of the records.
#[inline(never)]
fn passed_size(stored: &Stored, at: usize, before: usize, count: usize) -> usize
    requires at { at ≡ run_size before stored.now.records }
    requires starts { BeginAt 64 stored.now.starts.items stored.now.records }
    requires decoded { AreDecoded count stored.now.texts.texts.items
        (drop at stored.now.records) }
    requires some { at ≤ length stored.now.records }
    ensures { result ≡ run_size count (drop at stored.now.records) }
{
    let bytes = stored.records.bytes();
    let table = stored.texts.texts.as_slice();
    let behind = before + count;
    let entry = behind / 64;
    if entry <= before / 64 || stored.starts.len() < entry {
        return run_size(table, from(bytes, at), count);
    }
    let start = stored.starts[entry - 1];
    start - at + run_size(table, from(bytes, start), behind % 64)
}

impl<'a> Tokens<'a> {
    /// The first `count` tokens of what is stored.
    #[inline(always)]
    pub(crate) fn of(stored: &'a Stored, count: usize) -> Tokens<'a>
        requires decoded { AreDecoded count stored.now.texts.texts.items stored.now.records }
        requires starts { BeginAt 64 stored.now.starts.items stored.now.records }
        ensures count { result.count ≡ count }
        ensures bytes { records_in result ≡ stored.now.records }
        ensures items { items result
            ≡ tokens_in count stored.now.texts.texts.items stored.now.records }
    {
        Tokens {
            stored: Some(stored),
            at: 0,
            before: 0,
            count,
        }
    }

    // Whether there are no tokens.
    #[tactic(auto, unfolding(crate::specs::Items::items))]
    #[inline(always)]
    pub(super) fn has_none(self) -> bool
        ensures items { IsTrue result ↔ (items self.entry ≡ []) }
        ensures count { result ≡ false → 0 < self.entry.count }
    {
        self.count == 0
    }

    // The bytes of all that is stored.
    #[inline(always)]
    pub(super) fn stored_size(self) -> usize
        ensures size { result ≡ stored_size (option_map (λ s. s.now) self.entry.stored) }
        ensures fits { result < 2 ^ 63 }
    {
        match self.stored {
            Some(stored) => stored.records.bytes().len(),
            None => 0,
        }
    }

    // The records from the first on. There is a token.
    #[inline(always)]
    pub(super) fn records(self) -> &'a [u8]
        requires { 0 < self.count }
        ensures { result.now ≡ records_in self.entry }
    {
        let Some(stored) = self.stored else {
            unreachable!()
        };
        from(stored.records.bytes(), self.at)
    }

    // The table of the texts. There is a token.
    #[inline(always)]
    pub(super) fn table(self) -> &'a [Symbol]
        requires { 0 < self.count }
        ensures { result.now ≡ texts_in self.entry }
    {
        let Some(stored) = self.stored else {
            unreachable!()
        };
        stored.texts.texts.as_slice()
    }

    // The bytes of the first record.
    #[inline(always)]
    pub(super) fn first_size(self) -> usize
        requires { 0 < self.count }
        ensures { result ≡ first_size (records_in self.entry) }
    {
        first_size(self.records())
    }

    // The table and the records. There is a token.
    #[inline(always)]
    pub(super) fn parts(self) -> (&'a [Symbol], &'a [u8])
        requires { 0 < self.count }
        ensures begins { BeginsWithToken result.0.now result.1.now }
        ensures table { result.0.now ≡ texts_in self.entry }
        ensures records { result.1.now ≡ records_in self.entry }
    {
        (self.table(), self.records())
    }

    // The first token. Its text gets one more owner.
    #[inline(always)]
    pub(super) fn first_token(self) -> TokenTree
        requires { 0 < self.count }
        ensures { result ≡ first_token (texts_in self.entry) (records_in self.entry) }
    {
        let (table, records) = self.parts();
        match first_leaf(table, records) {
            Some(leaf) => TokenTree::Leaf(leaf.to_leaf()),
            None => {
                let Some(head) = first_head(table, records) else {
                    unreachable!()
                };
                TokenTree::Subtree(head)
            }
        }
    }

    // The tokens after the first.
    #[inline(always)]
    pub(super) fn rest(self) -> Tokens<'a>
        requires { 0 < self.count }
        ensures { items self.entry
            ≡ first_token (texts_in self.entry) (records_in self.entry) ∷ items result }
    {
        self.past(self.first_size(), 1)
    }

    // The bytes of the first `count` records, where that is fewer than all.
    #[inline(always)]
    pub(super) fn run_size(self, count: usize) -> usize
        requires { count < self.count }
        ensures { result ≡ run_size count (records_in self.entry) }
    {
        let Some(stored) = self.stored else {
            unreachable!()
        };
        passed_size(stored, self.at, self.before, count)
    }

    /// A place at most 64 tokens before the end of the first `count`, or before that where no place
    /// is noted. There is a token between.
    pub(super) fn place_before(self, count: usize) -> Place
        requires some { 0 < count }
        requires within { count ≤ length (items self) }
        ensures marked { IsPlaceIn result (items self.entry) }
        ensures before { result.count < count }
    {
        // The proof that the sums fit needs this.
        let _size = self.stored_size();
        let Some(stored) = self.stored else {
            return Place::start();
        };
        let entry = (self.before + (count - 1)) / 64;
        if entry <= self.before / 64 || stored.starts.len() < entry {
            return Place::start();
        }
        Place {
            count: 64 * entry - self.before,
            bytes: stored.starts[entry - 1] - self.at,
        }
    }

    // The end of the run.
    #[inline(always)]
    pub(super) fn end(self) -> Tokens<'a>
        ensures { items result ≡ [] }
    {
        Tokens {
            stored: self.stored,
            at: self.at,
            before: self.before,
            count: 0,
        }
    }

    /// The tokens after the first `count`, the records of which have so many bytes.
    #[inline(always)]
    pub(crate) fn past(self, bytes: usize, count: usize) -> Tokens<'a>
        requires count { count ≤ self.count }
        requires bytes { bytes ≡ run_size count (records_in self) }
        ensures { items result ≡ drop count (items self.entry) }
    {
        // The proof that the byte's index fits needs this.
        let _size = self.stored_size();
        Tokens {
            stored: self.stored,
            at: self.at + bytes,
            before: self.before + count,
            count: self.count - count,
        }
    }
}

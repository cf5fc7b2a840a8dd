//! Owned runs of tokens.
ghost use Rattle.std.specs.Prelude.{◌≡◌, ◌⊎◌, ◌<◌, ◌≤◌, ◌+◌, ◌^◌, ◌∷◌, ◌++◌, [], length};
ghost use Rattle.std.specs.Prelude.{option_map, slice_index_or, suc, take, drop, set, true};
ghost use Rattle.std.specs.Prelude.{fold, vec_len};
ghost use Rattle.std.specs.Prelude.{IfErr, IfOk, OnOk, OnErr};
ghost use Rattle.tt_data.specs.declared.tree.TokenTree.{TokenTree};
ghost use Rattle.tt_data.specs.declared.tree.TokenTree.TheVariants as token;
ghost use Rattle.token_bytes.specs.TokenLists.{alone_token, has_leaf_at, head_at};
ghost use Rattle.token_bytes.specs.Records.{text_of};
ghost use Rattle.token_bytes.specs.Packing.{number_in, record_of, with_token};
ghost use Rattle.token_bytes.specs.Packed.{IsToken};
ghost use Rattle.token_bytes.specs.Items.{items};
ghost use Rattle.token_bytes.specs.Numbers.{IsNumbered};

use crate::in_place::{relabel_record, set_alone};
use crate::mark::Mark;
use crate::reading::{first_extent, from};
use crate::renaming::Renaming;
use crate::stored::{Stored, is_same, note_start};
use crate::text_table::TextTable;
use crate::tokens::Tokens;
use crate::writing::{append_token, head_bytes};
use byte_buffer::ByteBuffer;
use std::alloc::{AllocError, Global};
use std::fmt;
use std::hash::Hasher;
use std::marker::Model;
use tt_data::{Leaf, Subtree, Symbol, TokenTree};

/// An owned run of tokens.
#[derive(Drop)]
pub struct TokenBuffer {
    pub(crate) stored: Stored,
    // The number of the tokens.
    pub(crate) count: usize,
    alloc: Global,
}

impl Model for TokenBuffer {
    ghost use Rattle.std.specs.Prelude.{List};
    ghost use Rattle.tt_data.specs.declared.tree.TokenTree.{TokenTree};
    ghost use Rattle.token_bytes.specs.Packing.{tokens_in};
    ghost use Rattle.token_bytes.specs.Packed.{ArePacked};
    ghost use Rattle.token_bytes.specs.Numbers.{IsNumbered};
    ghost use Rattle.token_bytes.specs.Starts.{AreStarts};

    ghost Value = { List TokenTree };

    ghost view = { λ b. tokens_in b.count b.stored.texts.texts.items b.stored.records };

    ghost invariant = { λ b. ArePacked
        (tokens_in b.count b.stored.texts.texts.items b.stored.records)
        b.stored.records b.stored.texts.texts.items × IsNumbered b.stored.texts
        × AreStarts 64 b.stored.starts.items
        (tokens_in b.count b.stored.texts.texts.items b.stored.records) };
}

// The text of a token, if it has one; of a literal, with its suffix.
#[inline(always)]
fn text_of(token: &TokenTree) -> Option<&Symbol>
    ensures { option_map (λ s. s.now) result ≡ text_of token.now }
{
    match token {
        TokenTree::Leaf(Leaf::Ident(ident)) => Some(&ident.sym),
        TokenTree::Leaf(Leaf::Literal(literal)) => Some(literal.entry()),
        TokenTree::Leaf(Leaf::Punct(_)) | TokenTree::Subtree(_) => None,
    }
}

// The number of a token's text, which joins the table if it is not there; 0 if it has no text. A
// refused call changes nothing.
#[inline(always)]
fn number_in(texts: &mut TextTable, token: &TokenTree) -> Result<u32, AllocError>
    requires numbered { IsNumbered texts.old }
    requires room { length texts.old.texts.items < 2 ^ 32 }
    ensures number { IfOk result (λ n. n ≡ number_in (text_of token.now) texts.old.texts.items) }
    ensures table { OnOk result (texts.new.texts.items ≡ with_token (text_of token.now)
        texts.old.texts.items) }
    ensures err { OnErr result (texts.new.texts.items ≡ texts.old.texts.items) }
    ensures numbered { IsNumbered texts.new }
{
    match text_of(token) {
        Some(text) => texts.number(text),
        None => Ok(0),
    }
}

// Stores a token after those so far. A refused call may leave the token's text in the table.
#[inline(always)]
fn append(
    records: &mut ByteBuffer,
    texts: &mut TextTable,
    token: &TokenTree,
) -> Result<(), AllocError>
    requires numbered { IsNumbered texts.old }
    requires room { length texts.old.texts.items < 2 ^ 32 }
    ensures bytes { OnOk result (records.new ≡ records.old ++ record_of texts.old.texts.items
        token.now) }
    ensures table { OnOk result (texts.new.texts.items ≡ with_token (text_of token.now)
        texts.old.texts.items) }
    ensures err { OnErr result (records.new ≡ records.old) }
    ensures left { OnErr result ((texts.new.texts.items ≡ texts.old.texts.items) ⊎
        (texts.new.texts.items ≡ with_token (text_of token.now) texts.old.texts.items)) }
    ensures numbered { IsNumbered texts.new }
    ensures token { OnOk result (IsToken token.now) }
{
    let number = number_in(texts, token)?;
    append_token(records, token, number)
}

impl TokenBuffer {
    ghost use Rattle.token_bytes.specs.Marks.{IsHeadIn, IsMarkIn, mark_of};

    /// No tokens. It takes no memory.
    pub fn new(alloc: Global) -> TokenBuffer
        ensures { result ≡ [] }
    {
        let stored = Stored::new(alloc, ByteBuffer::new(alloc));
        TokenBuffer {
            stored,
            count: 0,
            alloc,
        }
    }

    /// No tokens, with room for the records of so many puncts or identifiers.
    pub fn with_room(alloc: Global, tokens: usize) -> Result<TokenBuffer, AllocError>
        ensures { IfOk result (λ b. b ≡ []) }
    {
        let mut records = ByteBuffer::new(alloc);
        records.reserve(tokens.saturating_mul(18))?;
        let stored = Stored::new(alloc, records);
        Ok(TokenBuffer {
            stored,
            count: 0,
            alloc,
        })
    }

    // Copies of these tokens.
    fn of_slice(alloc: Global, tokens: &[TokenTree]) -> Result<TokenBuffer, AllocError>
        requires { length tokens.now ≤ 2 ^ 32 }
        ensures { IfOk result (λ b. b ≡ tokens.now) }
    {
        let mut buffer = TokenBuffer::new(alloc);
        let mut rest = tokens;
        while let Some((token, more)) = rest.split_first() {
            buffer.store(token)?;
            rest = more;
        }
        Ok(buffer)
    }

    /// The tokens of a vector, which comes back if memory is refused.
    pub fn from_vec(
        alloc: Global,
        tts: Vec<TokenTree>,
    ) -> Result<TokenBuffer, (Vec<TokenTree>, AllocError)>
        requires { vec_len tts ≤ 2 ^ 32 }
        ensures ok { IfOk result (λ b. b ≡ tts.items) }
        ensures err { IfErr result (λ e. e.0 ≡ tts) }
    {
        match TokenBuffer::of_slice(alloc, tts.as_slice()) {
            Ok(buffer) => Ok(buffer),
            Err(refusal) => Err((tts, refusal)),
        }
    }

    /// The number of tokens.
    #[inline(always)]
    pub fn len(&self) -> usize
        ensures { result ≡ length self.now }
    {
        self.count
    }

    /// The tokens, borrowed.
    #[inline(always)]
    pub fn tokens(&self) -> Tokens<'_>
        ensures { items result ≡ self.now }
    {
        Tokens::of(&self.stored, self.count)
    }

    /// The mark of the present end.
    pub fn end(&self) -> Mark
        ensures { result ≡ mark_of self.now }
    {
        Mark {
            count: self.count,
            bytes: self.stored.records.bytes().len(),
            texts: self.stored.texts.texts.len(),
        }
    }

    // Appends a token. A refused call changes nothing.
    #[inline(always)]
    fn store(&mut self, token: &TokenTree) -> Result<(), AllocError>
        requires room { length self.old < 2 ^ 32 }
        ensures ok { OnOk result (self.new ≡ self.old ++ token.now ∷ []) }
        ensures err { OnErr result (self.new ≡ self.old) }
    {
        let texts = self.stored.texts.texts.len();
        match append(&mut self.stored.records, &mut self.stored.texts, token) {
            Ok(()) => {
                self.count += 1;
                let bytes = self.stored.records.bytes();
                note_start(&mut self.stored.starts, self.count, bytes.len());
                Ok(())
            }
            Err(error) => {
                self.stored.texts.cut_back(texts);
                Err(error)
            }
        }
    }

    /// Appends a token. A refused call changes nothing.
    #[inline(always)]
    pub fn push(&mut self, token: TokenTree) -> Result<(), AllocError>
        requires room { length self.old < 2 ^ 32 }
        ensures ok { OnOk result (self.new ≡ self.old ++ token ∷ []) }
        ensures err { OnErr result (self.new ≡ self.old) }
    {
        self.store(&token)
    }

    // Appends copies of these tokens. A refused call may leave some.
    fn store_all(&mut self, tokens: Tokens<'_>) -> Result<(), AllocError>
        requires room { length self.old + length (items tokens) ≤ 2 ^ 32 }
        ensures ok { OnOk result (self.new ≡ self.old ++ items tokens.entry) }
        ensures err { OnErr result (take (length self.old) self.new ≡ self.old) }
    {
        let mut rest = tokens;
        while let Some((token, more)) = rest.split_first() {
            self.store(&token)?;
            rest = more;
        }
        Ok(())
    }

    /// Appends copies of these tokens. A refused call changes nothing.
    pub fn extend(&mut self, tokens: Tokens<'_>) -> Result<(), AllocError>
        requires room { length self.old + length (items tokens) ≤ 2 ^ 32 }
        ensures ok { OnOk result (self.new ≡ self.old ++ items tokens.entry) }
        ensures err { OnErr result (self.new ≡ self.old) }
    {
        let end = self.end();
        match self.store_all(tokens) {
            Ok(()) => Ok(()),
            Err(error) => {
                self.cut_back(end);
                Err(error)
            }
        }
    }

    /// Keeps the tokens before a mark. Their table has their texts alone.
    pub fn cut_back(&mut self, mark: Mark)
        requires { IsMarkIn mark self.old }
        ensures { self.new ≡ take mark.count self.old }
    {
        self.stored.records.cut_back(mark.bytes);
        self.stored.texts.cut_back(mark.texts);
        self.stored.starts.truncate(mark.count / 64);
        self.count = mark.count;
    }

    /// Replaces the head of a group, which is right after a mark.
    pub fn set_head(&mut self, at: Mark, head: Subtree)
        requires { IsHeadIn at self.old }
        ensures { self.new ≡ set self.old at.count (token.Subtree head) }
    {
        self.stored.records.patch(at.bytes, &head_bytes(&head));
    }

    /// Removes the head of a group, which is right after a mark.
    pub fn remove_head(&mut self, at: Mark)
        requires { IsHeadIn at self.old }
        ensures { self.new ≡ take at.count self.old ++ drop (at.count + 1) self.old }
    {
        self.stored.records.cut_out(at.bytes, 31);
        self.stored.starts.truncate(at.count / 64);
        self.count -= 1;
    }

    /// Makes the token right after a mark `Alone`, if it is a punct.
    pub fn set_alone(&mut self, at: Mark)
        requires mark { IsMarkIn at self.old }
        requires more { at.count < length self.old }
        ensures { (t : TokenTree) × (t ≡ slice_index_or self.old at.count t)
            × (self.new ≡ set self.old at.count (alone_token t)) }
    {
        set_alone(&mut self.stored.records, at.bytes);
    }

    // The tokens before the leaf at this index, and those after it.
    fn around(&self, at: usize) -> (Tokens<'_>, Tokens<'_>)
        requires { at < length self.now }
        ensures before { items result.0 ≡ take at self.now }
        ensures after { items result.1 ≡ drop (suc at) self.now }
    {
        let (before, rest) = self.tokens().split_at(at);
        (before, rest.split_at(1).1)
    }

    /// Replaces the leaf at this index. Texts are numbered by first use, so other leaves may get
    /// other numbers: all tokens are stored again, in new memory. A refused call changes nothing.
    pub fn set_leaf(&mut self, at: usize, leaf: Leaf) -> Result<(), AllocError>
        requires leaf { has_leaf_at at self.old ≡ true }
        requires room { length self.old ≤ 2 ^ 32 }
        ensures ok { OnOk result (self.new ≡ set self.old at (token.Leaf leaf)) }
        ensures err { OnErr result (self.new ≡ self.old) }
    {
        let (before, after) = self.around(at);
        let replaced = stored_around(self.alloc, before, leaf, after)?;
        *self = replaced;
        Ok(())
    }

    // The mark after the next token.
    fn step(&self, at: Mark) -> Mark
        requires mark { IsMarkIn at self.now }
        requires more { at.count < length self.now }
        ensures { result ≡ mark_of (take (at.count + 1) self.now) }
    {
        // The proof that the count fits needs this.
        let _len = self.len();
        let next = first_extent(from(self.stored.records.bytes(), at.bytes));
        Mark {
            count: at.count + 1,
            bytes: at.bytes + next.size,
            texts: at.texts.max(next.texts),
        }
    }

    /// The mark right after the head of a group, which is right after a mark.
    pub fn past_head(&self, at: Mark) -> Mark
        requires { IsHeadIn at self.now }
        ensures marked { IsMarkIn result self.now }
        ensures count { result.count ≡ at.count + 1 }
    {
        self.step(at)
    }

    /// The mark after the first `count` tokens, found from an earlier one. It takes time in
    /// proportion to the number of tokens between.
    pub fn mark_after(&self, from: Mark, count: usize) -> Mark
        requires from { IsMarkIn from self.now }
        requires later { from.count ≤ count }
        requires within { count ≤ length self.now }
        ensures marked { IsMarkIn result self.now }
        ensures count { result.count ≡ count }
    {
        let mut at = from;
        while at.count < count {
            at = self.step(at);
        }
        at
    }

    /// The tokens after a mark.
    pub fn tokens_after(&self, mark: Mark) -> Tokens<'_>
        requires { IsMarkIn mark self.now }
        ensures { items result ≡ drop mark.count self.now }
    {
        self.tokens().past(mark.bytes, mark.count)
    }

    /// The head of the group that begins right after a mark, if one does.
    pub fn head_at(&self, at: Mark) -> Option<Subtree>
        requires { IsMarkIn at self.now }
        ensures { result ≡ head_at self.now at.count }
    {
        self.tokens_after(at).first_head()
    }
}

impl TokenBuffer {
    ghost use Rattle.std.specs.Cmp.Lexicographic.{pointwise};
    ghost use Rattle.std.specs.Prelude.{map};
    ghost use Rattle.token_bytes.specs.Anchors.{IsAtHand, answer_of};
    ghost use Rattle.token_bytes.specs.Packing.{records, table_after};
    ghost use Rattle.tt_data.specs.Spans.{anchor_with, token_with};

    /// Whether both have equal tokens, one by one: whether their bytes and their tables are equal.
    pub fn is_equal(&self, other: &TokenBuffer) -> bool
        ensures { result ≡ pointwise ⟦<TokenTree as PartialEq>⟧.eq self.now other.now }
    {
        if self.count != other.count {
            return false;
        }
        is_same(&self.stored, &other.stored)
    }

    /// Replaces the anchors of each token.
    pub fn relabel(&mut self, renaming: &Renaming)
        requires { IsAtHand renaming.now }
        ensures { self.new ≡ map (token_with (anchor_with (answer_of renaming.now))) self.old }
    {
        let mut at = 0;
        let mut left = self.count;
        while left > 0 {
            at = relabel_record(&mut self.stored.records, at, renaming);
            left -= 1;
        }
    }

    /// The bytes: the records of the tokens.
    pub fn bytes(&self) -> &[u8]
        ensures { result.now ≡ records [] self.now }
    {
        self.stored.records.bytes()
    }

    /// The table: each text of the tokens once, in the order of first use.
    pub fn texts(&self) -> &[Symbol]
        ensures { result.now ≡ table_after [] self.now }
    {
        self.stored.texts.texts.as_slice()
    }

    /// Feeds the bytes as a whole to a hasher, and then each text of the table.
    pub fn feed<H: Hasher>(&self, state: &mut H)
        ensures { state.new ≡ fold H.write state.old
            (records [] self.now ∷ table_after [] self.now) }
    {
        state.write(self.bytes());
        feed_texts(self.texts(), state);
    }
}

// Feeds each text to a hasher.
fn feed_texts<H: Hasher>(texts: &[Symbol], state: &mut H)
    ensures { state.new ≡ fold H.write state.old texts.now }
{
    let mut rest = texts;
    while let Some((text, more)) = rest.split_first() {
        state.write(text.as_str().as_bytes());
        rest = more;
    }
}

// A leaf with the tokens of two runs before and after it.
fn stored_around(
    alloc: Global,
    before: Tokens<'_>,
    leaf: Leaf,
    after: Tokens<'_>,
) -> Result<TokenBuffer, AllocError>
    requires { length (items before) + length (items after) < 2 ^ 32 }
    ensures { IfOk result (λ b. b ≡ items before.entry
        ++ token.Leaf leaf ∷ items after.entry) }
{
    let mut buffer = TokenBuffer::new(alloc);
    buffer.store_all(before)?;
    buffer.push(TokenTree::Leaf(leaf))?;
    buffer.store_all(after)?;
    Ok(buffer)
}

/// Writes the tokens, one after the other.
impl fmt::Debug for TokenBuffer {
    fn fmt<W: fmt::Write>(&self, f: &mut fmt::Formatter<W>) -> fmt::Result {
        fmt::Debug::fmt(&self.tokens(), f)
    }
}

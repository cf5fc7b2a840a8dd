//! Collects the pieces of a text as they are read, and makes segments of them.
ghost use Rattle.std.specs.Prelude.{◌≡◌, ℕ, ◌+◌, ◌-◌, ◌<◌, ◌≤◌, ◌++◌, ◌∷◌, ◌^◌, [], IfOk, IfSome};
ghost use Rattle.std.specs.Prelude.{List, None, OnOk, chars, drop, length, map, take};
ghost use Rattle.std.specs.Rc.{rc_value};
ghost use Rattle.rustc_lexer.specs.Lexing.{run_on, tokens_of};
ghost use Rattle.rustc_lexer.specs.TokensAt.{AreTokensFrom};
ghost use Rattle.expander_reparse.specs.Reparsing.{AddsPieces, AddsSegment, AreMet, IsBegun, IsMet};
ghost use Rattle.expander_reparse.specs.Reparsing.{IsReparse, TakesPart};
ghost use Rattle.expander_reparse.specs.Segments.{AreSegments, IsCachedSegment, IsSegment};
ghost use Rattle.expander_reparse.specs.Segments.{part_shown};
ghost use Rattle.expander_reparse.specs.ByteStores.{HoldsText};

use crate::piece::{Piece, PieceTree};
use crate::resync::Resync;
use crate::segment::{
    CachedPiece, CachedSegment, Segment, SegmentPart, Segments, TokenRun, ahead_of, is_apart,
    occurs_first,
};
use crate::segment_piece::SegmentPiece;
use crate::shared_bytes::ByteStore;
use bridge::parts::begins_with_mark;
use rustc_lexer::{Token, laws};
use std::alloc::{AllocError, Global};
use std::rc::Rc;

// How many pieces a segment has at most, if they were taken one by one.
const MOST: usize = 64;

/// What a text is read by: what is cached of the last text, and how the bytes of new pieces are
/// stored.
///
/// `read_by_pieces` makes one for each text. It stays the same while that text is read.
#[derive(Drop)]
pub(crate) struct ReadingContext<'a> {
    pub alloc: Global,
    /// What is cached of the last text that was read.
    pub held: &'a Segments,
    /// Stores the bytes of this text's pieces and segments.
    pub words: ByteStore,
}

/// A segment that has begun and not ended.
#[derive(Drop)]
pub(crate) struct OpenSegment {
    // How many pieces of the text come before it.
    first: usize,
    // The offset at which it begins, and how many tokens remained there.
    from: u32,
    tokens: usize,
    // Its pieces so far.
    parts: Vec<SegmentPart>,
}

/// What has been read of a text so far.
#[derive(Drop)]
pub(crate) struct Reparse {
    /// The pieces, in order.
    pub own: Vec<Piece>,
    /// The segments that have ended.
    pub list: Vec<CachedSegment>,
    begun: OpenSegment,
    /// Where the next cached piece is looked for.
    pub seeker: Resync,
}

// A segment that begins at offset `from`, after `first` pieces, where these tokens remain.
fn begin(alloc: Global, first: usize, from: u32, left: &[Token]) -> OpenSegment
    ensures begun { (text : List ℕ) → AreTokensFrom text from left.now →
        IsBegun text from left.now result }
    ensures first { result.first ≡ first }
    ensures parts { result.parts.items ≡ [] }
{
    OpenSegment {
        first,
        from,
        tokens: left.len(),
        parts: Vec::new(alloc),
    }
}

// The offset and the tokens after the first `count` tokens, which have `len` bytes. `None` if
// there are fewer, or the offset exceeds `u32::MAX`.
pub(crate) fn behind<'a>(
    tokens: &'a [Token],
    at: u32,
    len: usize,
    count: usize,
) -> Option<(u32, &'a [Token])>
    ensures { IfSome result (λ r. (r.0 ≡ at + len) × (r.1.now ≡ drop count tokens.now)) }
{
    let Ok(len) = u32::try_from(len) else {
        return None;
    };
    let end = at.checked_add(len)?;
    if count > tokens.len() {
        return None;
    }
    let (_, after) = tokens.split_at(count);
    Some((end, after))
}

// The bytes of a text between two offsets.
fn bytes_between(text: &str, from: u32, to: u32) -> &[u8]
    requires { (from ≤ to) × (to ≤ length text.now) }
    ensures { result.now ≡ take (to - from) (drop from text.now) }
{
    let (_, rest) = text.as_bytes().split_at(from as usize);
    let (bytes, _) = rest.split_at((to - from) as usize);
    bytes
}

// The segment that ends at offset `at`, where these tokens remain.
fn segment_of(
    alloc: Global,
    words: &ByteStore,
    begun: OpenSegment,
    text: &str,
    at: u32,
    left: &[Token],
) -> Result<Rc<Segment>, AllocError>
    requires words { HoldsText words.now text.now }
    requires begun { IsBegun text.now at left.now begun }
    requires here { AreTokensFrom text.now at left.now }
    requires apart { run_on (take at text.now) (drop at text.now) ≡ 0 }
    requires some { 1 ≤ length begun.parts.items }
    ensures right { IfOk result (λ s. IsSegment (rc_value s)) }
    ensures parts { IfOk result (λ s. (rc_value s).parts ≡ begun.parts) }
{
    laws::first_tokens();
    laws::next_token();
    let bytes = bytes_between(text, begun.from, at);
    let bytes = words.word(alloc, begun.from as usize, bytes)?;
    let cutout = TokenRun {
        bytes,
        ahead: ahead_of(&text[at as usize..]),
        count: begun.tokens - left.len(),
        mark: begins_with_mark(left),
    };
    let parts = begun.parts;
    match Rc::new(alloc, Segment { cutout, parts }) {
        Ok(segment) => Ok(segment),
        Err(e) => Err(AllocError::from(e)),
    }
}

// Appends the pieces of a cached segment that occurs at offset `at`.
fn push_parts(own: &mut Vec<Piece>, at: u32, held: &CachedSegment) -> Result<(), AllocError>
    requires within { at + length (rc_value held.now.segment).cutout.bytes < 2 ^ 32 }
    requires right { IsSegment (rc_value held.now.segment) }
    ensures own { OnOk result (AddsPieces
        (map (part_shown at) (rc_value held.now.segment).parts.items) own.old.items
        own.new.items) }
    ensures met { (sources : Segments) → IsCachedSegment sources held.now →
        AreMet sources own.old.items → OnOk result (AreMet sources own.new.items) }
{
    let parts = held.segment.as_ref().parts.as_slice();
    for i in 0..parts.len() {
        let segment = held.segment.clone()?;
        own.push(Piece {
            start: at + parts[i].before,
            tree: PieceTree::Part(SegmentPiece::new(segment, i)),
            met: held.first.checked_add(i),
        })?;
    }
    Ok(())
}

impl Reparse {
    /// Before anything of a text with these tokens is read. There is room for one piece and one
    /// segment more than are cached.
    pub fn new(alloc: Global, held: &Segments, tokens: &[Token]) -> Result<Self, AllocError>
        ensures { (text : List ℕ) → AreTokensFrom text 0 tokens.now → tokens.now
            ≡ tokens_of (chars text) → IfOk result (λ now.
            IsReparse held.now text 0 tokens.now now) }
    {
        let own = Vec::with_capacity(alloc, held.len().saturating_add(1))?;
        let list = Vec::with_capacity(alloc, held.list.len().saturating_add(1))?;
        Ok(Reparse {
            own,
            list,
            begun: begin(alloc, 0, 0, tokens),
            seeker: Resync::new(held),
        })
    }

    /// Adds a piece that starts at `at`. `met` is its index in the cache, if it is from there.
    pub(crate) fn pass(
        &mut self,
        at: u32,
        source: Rc<CachedPiece>,
        met: Option<usize>,
    ) -> Result<(), AllocError>
        requires { self.old.begun.from ≤ at }
        ensures own { OnOk result (AddsPieces ((at, rc_value (rc_value source).tree)
            ∷ []) self.old.own.items self.new.own.items) }
        ensures met { (held : Segments) → IsMet held met (rc_value (rc_value source).tree) →
            AreMet held self.old.own.items → OnOk result (AreMet held self.new.own.items) }
        ensures begun { OnOk result (TakesPart at source self.old.begun self.new.begun) }
        ensures list { OnOk result (self.new.list ≡ self.old.list) }
    {
        let tree = PieceTree::Source(source.clone()?);
        self.own.push(Piece {
            start: at,
            tree,
            met,
        })?;
        let before = at - self.begun.from;
        self.begun.parts.push(SegmentPart { before, source })?;
        Ok(())
    }

    /// Ends the open segment at `at`, where no run of hashes goes on, and begins the next one. A
    /// segment without pieces is dropped.
    pub fn end(
        &mut self,
        alloc: Global,
        words: &ByteStore,
        text: &str,
        at: u32,
        left: &[Token],
    ) -> Result<(), AllocError>
        requires words { HoldsText words.now text.now }
        requires begun { IsBegun text.now at left.now self.old.begun }
        requires here { AreTokensFrom text.now at left.now }
        requires apart { run_on (take at text.now) (drop at text.now) ≡ 0 }
        ensures passing { (held : Segments) → IsReparse held text.now at left.now self.old →
            OnOk result (IsReparse held text.now at left.now self.new) }
        ensures none { OnOk result (self.new.begun.parts.items ≡ []) }
        ensures own { OnOk result (self.new.own ≡ self.old.own) }
    {
        let next = begin(alloc, self.own.len(), at, left);
        let begun = std::mem::replace(&mut self.begun, next);
        if begun.parts.is_empty() {
            return Ok(());
        }
        let first = begun.first;
        let segment = segment_of(alloc, words, begun, text, at, left)?;
        self.list.push(CachedSegment { first, segment })?;
        Ok(())
    }

    /// Ends the open segment at `at` if it has as many pieces as a segment may have.
    pub(crate) fn end_long(
        &mut self,
        alloc: Global,
        words: &ByteStore,
        text: &str,
        at: u32,
        left: &[Token],
    ) -> Result<(), AllocError>
        requires words { HoldsText words.now text.now }
        requires begun { IsBegun text.now at left.now self.old.begun }
        requires here { AreTokensFrom text.now at left.now }
        ensures { (held : Segments) → IsReparse held text.now at left.now self.old →
            OnOk result (IsReparse held text.now at left.now self.new) }
    {
        if self.begun.parts.len() < MOST {
            return Ok(());
        }
        if !is_apart(text, at as usize) {
            return Ok(());
        }
        self.end(alloc, words, text, at, left)
    }

    // Adds a cached segment that occurs at offset `at`, with its pieces, and begins the next
    // segment at `end`.
    fn take_cached(
        &mut self,
        alloc: Global,
        at: u32,
        held: &CachedSegment,
        end: u32,
        after: &[Token],
    ) -> Result<(), AllocError>
        requires within { at + length (rc_value held.now.segment).cutout.bytes < 2 ^ 32 }
        requires right { IsSegment (rc_value held.now.segment) }
        ensures own { OnOk result (AddsPieces
            (map (part_shown at) (rc_value held.now.segment).parts.items) self.old.own.items
            self.new.own.items) }
        ensures met { (sources : Segments) → IsCachedSegment sources held.now →
            AreMet sources self.old.own.items → OnOk result (AreMet sources self.new.own.items) }
        ensures list { OnOk result (AddsSegment (length self.old.own.items)
            (rc_value held.now.segment) self.old.list.items self.new.list.items) }
        ensures begun { (text : List ℕ) → AreTokensFrom text «end» after.now →
            OnOk result (IsBegun text «end» after.now self.new.begun) }
        ensures first { OnOk result (self.new.begun.first ≡ length self.new.own.items) }
        ensures parts { OnOk result (self.new.begun.parts.items ≡ []) }
    {
        let first = self.own.len();
        push_parts(&mut self.own, at, held)?;
        let segment = held.segment.clone()?;
        self.list.push(CachedSegment { first, segment })?;
        self.seeker.pass(held.segment.as_ref().parts.len());
        self.begun = begin(alloc, self.own.len(), end, after);
        Ok(())
    }
}

/// Passes the cached segment that begins with the piece expected next, if it occurs here. Answers
/// how many bytes and tokens it has, or `None` with no piece added.
pub(crate) fn take_segment(
    context: &ReadingContext<'_>,
    now: &mut Reparse,
    text: &str,
    at: u32,
    left: &[Token],
) -> Result<Option<(usize, usize)>, AllocError>
    requires small { length text.now < 2 ^ 32 }
    requires words { HoldsText context.now.words text.now }
    requires right { AreSegments context.now.held.now }
    requires passing { IsReparse context.now.held.now text.now at left.now now.old }
    ensures passing { IfOk result (λ size. IfSome size
        (λ n. IsReparse context.now.held.now text.now (at + n.0) (drop n.1 left.now) now.new)) }
    ensures shorter { IfOk result (λ size.
        IfSome size (λ n. length (drop n.1 left.now) < length left.now)) }
    ensures none { IfOk result (λ size. size ≡ None →
        IsReparse context.now.held.now text.now at left.now now.new) }
{
    laws::next_token();
    bridge::laws::reading_behind();
    let (alloc, words) = (context.alloc, &context.words);
    let Some(next) = context.held.begins(now.seeker.next) else {
        return Ok(None);
    };
    let cutout = &next.segment.as_ref().cutout;
    if !now.seeker.tries() || !occurs_first(cutout, &text[at as usize..], left) {
        return Ok(None);
    }
    let (len, count) = (cutout.bytes.len(), cutout.count);
    let Some((end, after)) = behind(left, at, len, count) else {
        return Ok(None);
    };
    if !is_apart(text, at as usize) {
        return Ok(None);
    }
    now.end(alloc, words, text, at, left)?;
    now.take_cached(alloc, at, next, end, after)?;
    Ok(Some((len, count)))
}

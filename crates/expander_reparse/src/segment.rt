//! What is cached of a text to read the next one: segments, their pieces, and the bytes that they
//! were read from.
ghost use Rattle.std.specs.Prelude.{◌≡◌, ◌≤◌, ◌++◌, [], IfOk, IfSome, IsOkUnless, Some, chars};
ghost use Rattle.std.specs.Prelude.{drop, length, slice_get, take, true};
ghost use Rattle.bridge.specs.Parts.{begins_with_mark};
ghost use Rattle.rustc_lexer.specs.Lexing.{run_on};
ghost use Rattle.std.specs.Rc.{rc_value};
ghost use Rattle.tt_data.specs.fault.TtFault.TheVariants as fault;
ghost use Rattle.expander_reparse.specs.Reparsing.{IsCachedHere};
ghost use Rattle.expander_reparse.specs.Segments.{AreSegments, IsHeldAt, IsCachedSegment};
ghost use Rattle.expander_reparse.specs.Segments.{IsCachedPiece, OccursFirst, all_in, chars_ahead};

use crate::shared_bytes::SharedBytes;
use bridge::parts::begins_with_mark;
use expander_model::hashed_tree::HashedTree;
use rustc_lexer::Token;
use std::alloc::Global;
use std::rc::Rc;
use tt_data::TtFault;

/// The two characters after some tokens, or as many as there are. With the tokens' own characters
/// they determine the tokens, if no run of hashes goes on there.
#[derive(Clone, Copy)]
pub struct Lookahead {
    first: Option<char>,
    second: Option<char>,
}

/// Some tokens of a text, and what followed them. Where their bytes occur before the same two
/// characters, the tokens are the same.
#[derive(Drop)]
pub struct TokenRun {
    /// The bytes of the tokens.
    pub bytes: SharedBytes,
    pub ahead: Lookahead,
    /// How many tokens there are, trivia included.
    pub count: usize,
    /// Whether a token that is read as a punct followed.
    pub mark: bool,
}

/// A piece, with the tokens that it was read from.
#[derive(Drop)]
pub struct CachedPiece {
    pub cutout: TokenRun,
    /// Its tree, with piece-relative spans.
    pub tree: Rc<HashedTree>,
}

impl CachedPiece {
    /// Its number of tokens, and one more for a definition.
    pub fn size(&self) -> usize {
        let more = usize::from(self.tree.as_ref().is_definition());
        self.cutout.count.saturating_add(more)
    }
}

/// A piece of a segment.
#[derive(Drop)]
pub struct SegmentPart {
    /// How many bytes of the segment come before it.
    pub before: u32,
    pub source: Rc<CachedPiece>,
}

/// A run of pieces, with the trivia around them.
#[derive(Drop)]
pub struct Segment {
    pub cutout: TokenRun,
    pub parts: Vec<SegmentPart>,
}

/// A segment of the cache.
#[derive(Drop)]
pub struct CachedSegment {
    /// How many pieces are cached before it.
    pub first: usize,
    pub segment: Rc<Segment>,
}

/// What is cached of the text that was read last: its pieces in segments, in order.
#[derive(Drop)]
pub struct Segments {
    pub list: Vec<CachedSegment>,
}

impl Segments {
    /// What is cached before the first text is read: nothing.
    pub fn new(alloc: Global) -> Self
        ensures right { AreSegments result }
        ensures none { result.list.items ≡ [] }
    {
        Segments {
            list: Vec::new(alloc),
        }
    }

    /// How many pieces are cached.
    pub fn len(&self) -> usize {
        match self.list.last() {
            Some(held) => held.first.saturating_add(held.segment.as_ref().parts.len()),
            None => 0,
        }
    }

    // The last segment that begins at or before the piece of this index. It has that piece, if
    // any segment has.
    fn segment_with(&self, number: usize) -> Option<&CachedSegment>
        requires { AreSegments self.now }
        ensures { IfSome result (λ h. IsCachedSegment self.now h.now) }
    {
        let (mut low, mut high) = (0, self.list.len());
        while high - low > 1 {
            let middle = low + (high - low) / 2;
            if self.list[middle].first <= number {
                low = middle;
            } else {
                high = middle;
            }
        }
        if low < self.list.len() {
            Some(&self.list[low])
        } else {
            None
        }
    }

    /// The piece of this index.
    pub fn get(&self, number: usize) -> Option<&Rc<CachedPiece>>
        requires { AreSegments self.now }
        ensures held { IfSome result (λ q. slice_get (all_in self.now) number ≡ Some q.now) }
        ensures right { IfSome result (λ q. IsCachedPiece (rc_value q.now)) }
    {
        let held = self.segment_with(number)?;
        let at = number.checked_sub(held.first)?;
        let parts = held.segment.as_ref().parts.as_slice();
        if at < parts.len() {
            Some(&parts[at].source)
        } else {
            None
        }
    }

    /// The segment that begins with the piece of this index, if one does.
    pub(crate) fn begins(&self, number: usize) -> Option<&CachedSegment>
        requires { AreSegments self.now }
        ensures { IfSome result (λ h. IsCachedSegment self.now h.now) }
    {
        let held = self.segment_with(number)?;
        if held.first == number {
            Some(held)
        } else {
            None
        }
    }
}

// Whether a text begins with these bytes.
fn begins_with_bytes(text: &[u8], first: &[u8]) -> bool
    ensures { result ≡ true → text.now ≡ first.now ++ drop (length first.now) text.now }
{
    text.starts_with(first)
}

/// The first two characters of a text.
pub(crate) fn ahead_of(text: &str) -> Lookahead
    ensures { chars_ahead result ≡ take 2 (chars text.now) }
{
    let mut chars = text.chars();
    let first = chars.next();
    let second = chars.next();
    Lookahead { first, second }
}

/// The two characters after an offset. `None` if the offset is no character boundary.
pub(crate) fn ahead_at(text: &str, at: usize) -> Option<Lookahead>
    ensures ahead { IfSome result (λ a. chars_ahead a ≡ take 2 (chars (drop at text.now))) }
    ensures within { IfSome result (λ a. at ≤ length text.now) }
{
    if !text.is_char_boundary(at) {
        return None;
    }
    Some(ahead_of(&text[at..]))
}

/// Whether no run of hashes goes on across an offset, so that two characters after it determine
/// the tokens before it. None goes on behind a piece or trivia.
pub(crate) fn is_apart(text: &str, at: usize) -> bool
    ensures { result ≡ true → run_on (take at text.now) (drop at text.now) ≡ 0 }
{
    let bytes = text.as_bytes();
    if at == 0 || at >= bytes.len() {
        return true;
    }
    if bytes[at - 1] != b'#' {
        return true;
    }
    bytes[at] != b'#'
}

// Whether these are the characters after an offset.
fn is_ahead(ahead: Lookahead, text: &str, at: usize) -> bool
    ensures { result ≡ true → take 2 (chars (drop at text.now)) ≡ chars_ahead ahead }
{
    match ahead_at(text, at) {
        Some(now) => now.first == ahead.first && now.second == ahead.second,
        None => false,
    }
}

// Whether a punct follows the first `count` tokens exactly if `mark` says so.
fn is_followed(tokens: &[Token], count: usize, mark: bool) -> bool
    ensures { result ≡ true → begins_with_mark (drop count tokens.now) ≡ mark }
{
    if count > tokens.len() {
        return false;
    }
    let (_, after) = tokens.split_at(count);
    begins_with_mark(after) == mark
}

/// Whether this run occurs first in a text with these tokens: its bytes, its look-ahead, and a
/// punct after it exactly if one followed it.
pub(crate) fn occurs_first(cutout: &TokenRun, text: &str, tokens: &[Token]) -> bool
    ensures { result ≡ true → OccursFirst cutout.now text.now tokens.now }
{
    begins_with_bytes(text.as_bytes(), cutout.bytes.as_slice())
        && is_ahead(cutout.ahead, text, cutout.bytes.len())
        && is_followed(tokens, cutout.count, cutout.mark)
}

/// A cached piece that occurs first in a text with these tokens, and its index. The `tried`
/// pieces from `next` on are tried.
pub(crate) fn find_cached(
    held: &Segments,
    next: usize,
    text: &str,
    tokens: &[Token],
    tried: usize,
) -> Result<Option<(usize, Rc<CachedPiece>)>, TtFault>
    requires { AreSegments held.now }
    ensures found { IfOk result (λ found.
        IfSome found (λ p. IsCachedHere text.now tokens.now (rc_value p.1))) }
    ensures number { IfOk result (λ found.
        IfSome found (λ p. IsHeldAt held.now p.0 (rc_value p.1))) }
    ensures memory { IsOkUnless result fault.Memory }
{
    for i in next..next.saturating_add(tried) {
        let Some(source) = held.get(i) else {
            return Ok(None);
        };
        if occurs_first(&source.as_ref().cutout, text, tokens) {
            return match source.clone() {
                Ok(source) => Ok(Some((i, source))),
                Err(_) => Err(TtFault::Memory),
            };
        }
    }
    Ok(None)
}

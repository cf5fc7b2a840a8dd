//! Reads a text piece by piece. A cached piece or segment is reused where its bytes occur again,
//! else the next piece is read by itself.
ghost use Rattle.std.specs.Prelude.{◌≡◌, ◌+◌, ◌<◌, ◌≤◌, ◌^◌, ◌++◌, ◌∷◌, [], IfOk, IfSome};
ghost use Rattle.std.specs.Prelude.{IsOkUnless, List, None, Ok, OnOk, chars, drop, length, take};
ghost use Rattle.std.specs.Prelude.{true, ℕ};
ghost use Rattle.std.specs.Rc.{rc_value};
ghost use Rattle.rustc_lexer.specs.Lexing.{tokens_of};
ghost use Rattle.rustc_lexer.specs.TokensAt.{AreTokensFrom};
ghost use Rattle.tt_data.specs.fault.TtFault.TheVariants as fault;
ghost use Rattle.bridge.specs.Parts.{part_steps};
ghost use Rattle.expander_reparse.specs.RecentPieces.{AreRight};
ghost use Rattle.expander_reparse.specs.RelativePieces.{tree_at};
ghost use Rattle.expander_reparse.specs.Reparsing.{AreMet, AreTheirs, IsBlank, IsLastPiece, IsMet};
ghost use Rattle.expander_reparse.specs.Reparsing.{IsReparse, IsReadPiece, IsCachedHere};
ghost use Rattle.expander_reparse.specs.Reparsing.{KeepsCached};
ghost use Rattle.expander_reparse.specs.ParsedTexts.{IsReadInPieces};
ghost use Rattle.expander_reparse.specs.Segments.{AreSegments, bytes_of, chars_ahead};
ghost use Rattle.expander_reparse.specs.ByteStores.{HoldsText};
ghost use Rattle.expander_reparse.specs.declared.parse.Parsed.TheVariants.{Pieces};

use crate::piece::{Piece, PieceTree};
use crate::recent_pieces::RecentPieces;
use crate::resync::{Resync, seek_cached};
use crate::segment::{CachedPiece, Lookahead, Segments, TokenRun, ahead_at, is_apart};
use crate::segment_builder::{ReadingContext, Reparse, behind, take_segment};
use crate::shared_bytes::{ByteStore, SharedBytes};
use bridge::Read;
use bridge::parts::{NameCache, begins_with_mark, read_part};
use expander_model::boundary::piece_end;
use expander_model::hashed_tree::HashedTree;
use expander_model::relative_spans::start_of;
use expander_model::split::{Shape, set_apart, shape_of};
use rustc_lexer::{Token, TokenKind, laws};
use std::alloc::{AllocError, Global};
use std::rc::Rc;
use tt::TopSubtree;
use tt_data::TtFault;

// Whether a token of this kind is trivia. A block comment without an end is none: it has a reading
// fault.
fn is_blank(kind: TokenKind) -> bool
    ensures { result ≡ true → IsBlank kind }
{
    match kind {
        TokenKind::Whitespace => true,
        TokenKind::LineComment { doc_style: None } => true,
        TokenKind::BlockComment {
            doc_style: None,
            terminated: true,
        } => true,
        _ => false,
    }
}

// How many bytes the tokens have together. `None` if the number is too large.
fn bytes_in(tokens: &[Token]) -> Option<usize>
    ensures { IfSome result (λ n. n ≡ bytes_of tokens.now) }
{
    let mut sum: usize = 0;
    for token in tokens {
        sum = sum.checked_add(token.len as usize)?;
    }
    Some(sum)
}

// The first `len` bytes of a text, and the two characters after them. `None` if `len` is no
// character boundary of the text.
fn word_of(text: &str, len: usize) -> Option<(&[u8], Lookahead)>
    ensures word { IfSome result (λ r. (r.0.now ≡ take len text.now) × (len ≤ length text.now)) }
    ensures ahead { IfSome result (λ r. chars_ahead r.1 ≡ take 2 (chars (drop len text.now))) }
{
    let ahead = ahead_at(text, len)?;
    let (word, _) = text.as_bytes().split_at(len);
    Some((word, ahead))
}

// Reads the first `count` tokens, from offset `at` of the text on, as a tree with spans that count
// from `at`, and tells whether it is one piece. `None` if the tokens are no trees, or the first
// tree does not start at `at`. Out of memory is its only error.
fn read_piece(
    alloc: Global,
    names: &mut NameCache,
    text: &str,
    at: u32,
    tokens: &[Token],
    count: usize,
) -> Result<Option<(Shape, TopSubtree)>, TtFault>
    requires small { length text.now < 2 ^ 32 }
    requires tokens { AreTokensFrom text.now at tokens.now }
    requires within { count ≤ length tokens.now }
    ensures read { IfOk result (λ tree.
        IfSome tree (λ p. IsReadPiece (part_steps 0 count (drop at text.now) tokens.now)
        p.0 p.1)) }
    ensures memory { IsOkUnless result fault.Memory }
{
    let mut tree = match read_part(names, text, at, tokens, count) {
        Ok(Read::Tree(tree)) => tree,
        Ok(Read::Fault(_)) => return Ok(None),
        Err(TtFault::Memory) => return Err(TtFault::Memory),
        Err(_) => return Ok(None),
    };
    if set_apart(alloc, &mut tree).is_err() {
        return Err(TtFault::Memory);
    }
    let trees = tree.token_trees().iter();
    if start_of(&trees) != 0 {
        return Ok(None);
    }
    let shape = shape_of(&trees);
    Ok(Some((shape, tree)))
}

// A piece to be cached: its bytes and number of tokens, what follows them, and its tree.
fn source_of(
    alloc: Global,
    bytes: SharedBytes,
    ahead: Lookahead,
    count: usize,
    after: &[Token],
    tree: TopSubtree,
) -> Result<Rc<CachedPiece>, AllocError>
    ensures { (behind : List ℕ) → chars_ahead ahead ≡ take 2 (chars behind) →
        IfOk result (λ q. KeepsCached bytes behind count after.now tree (rc_value q)) }
{
    let mark = begins_with_mark(after);
    let tree = match Rc::new(alloc, HashedTree::new(tree)) {
        Ok(tree) => tree,
        Err(e) => return Err(AllocError::from(e)),
    };
    let cutout = TokenRun {
        bytes,
        ahead,
        count,
        mark,
    };
    let source = CachedPiece { cutout, tree };
    match Rc::new(alloc, source) {
        Ok(source) => Ok(source),
        Err(e) => Err(AllocError::from(e)),
    }
}

// Reads the first piece of these tokens by itself. `None` if nothing ends it, or the tokens up to
// its end cannot be read as one whole piece.
fn read_source(
    context: &ReadingContext<'_>,
    names: &mut NameCache,
    text: &str,
    at: u32,
    tokens: &[Token],
) -> Result<Option<Rc<CachedPiece>>, TtFault>
    requires small { length text.now < 2 ^ 32 }
    requires tokens { AreTokensFrom text.now at tokens.now }
    requires words { HoldsText context.now.words text.now }
    ensures found { IfOk result (λ found.
        IfSome found (λ q. IsCachedHere (drop at text.now) tokens.now (rc_value q))) }
    ensures memory { IsOkUnless result fault.Memory }
{
    bridge::laws::parts_of_a_text();
    bridge::laws::parts_at_other_places();
    bridge::laws::equal_parts();
    laws::first_tokens();
    let alloc = context.alloc;
    let Some(count) = piece_end(tokens) else {
        return Ok(None);
    };
    let (first, after) = tokens.split_at(count);
    let rest = &text[at as usize..];
    let Some(len) = bytes_in(first) else {
        return Ok(None);
    };
    let Some((word, ahead)) = word_of(rest, len) else {
        return Ok(None);
    };
    if count == 0 {
        return Ok(None);
    }
    if !is_apart(rest, len) {
        return Ok(None);
    }
    let Some((Shape::Whole, tree)) = read_piece(alloc, names, text, at, tokens, count)? else {
        return Ok(None);
    };
    let bytes = context.words.word(alloc, at as usize, word)?;
    let source = source_of(alloc, bytes, ahead, count, after, tree)?;
    Ok(Some(source))
}

// A piece that starts at `at` and is not from the cache.
fn new_piece(alloc: Global, at: u32, tree: TopSubtree) -> Result<Piece, AllocError>
    ensures { IfOk result (λ o. (o.start ≡ at) × (tree_at o ≡ tree) × (o.met ≡ None)) }
{
    match Rc::new(alloc, HashedTree::new(tree)) {
        Ok(tree) => Ok(Piece {
            start: at,
            tree: PieceTree::Alone(tree),
            met: None,
        }),
        Err(e) => Err(AllocError::from(e)),
    }
}

// Reads all of these tokens as one piece that nothing ends. `None` if they are no such piece.
fn read_last(
    alloc: Global,
    names: &mut NameCache,
    text: &str,
    at: u32,
    tokens: &[Token],
) -> Result<Option<Piece>, TtFault>
    requires small { length text.now < 2 ^ 32 }
    requires tokens { AreTokensFrom text.now at tokens.now }
    ensures last { IfOk result (λ last. IfSome last (IsLastPiece text.now at tokens.now)) }
    ensures memory { IsOkUnless result fault.Memory }
{
    if piece_end(tokens).is_some() {
        return Ok(None);
    }
    let count = tokens.len();
    let Some((Shape::Open, tree)) = read_piece(alloc, names, text, at, tokens, count)? else {
        return Ok(None);
    };
    let last = new_piece(alloc, at, tree)?;
    Ok(Some(last))
}

// How the bytes of the pieces are stored: in one copy of the text if nothing is cached, else each
// run by itself.
fn words_of(alloc: Global, text: &str, held: &Segments) -> Result<ByteStore, AllocError>
    ensures { IfOk result (λ words. HoldsText words text.now) }
{
    if held.list.is_empty() {
        ByteStore::together(alloc, text)
    } else {
        Ok(ByteStore::apart())
    }
}

// The piece that comes first: from the cache with its index there, or one that this text had
// before, or read by itself. `None` if it can be none of these.
fn next_source(
    context: &ReadingContext<'_>,
    recent: &mut RecentPieces,
    seeker: &mut Resync,
    text: &str,
    at: u32,
    tokens: &[Token],
) -> Result<Option<(Rc<CachedPiece>, Option<usize>)>, TtFault>
    requires small { length text.now < 2 ^ 32 }
    requires tokens { AreTokensFrom text.now at tokens.now }
    requires words { HoldsText context.now.words text.now }
    requires right { AreSegments context.now.held.now }
    requires kept { AreRight recent.old.pieces.items }
    ensures found { IfOk result (λ found. IfSome found
        (λ p. IsCachedHere (drop at text.now) tokens.now (rc_value p.0))) }
    ensures met { IfOk result (λ found. IfSome found
        (λ p. IsMet context.now.held.now p.1 (rc_value (rc_value p.0).tree))) }
    ensures kept { OnOk result (AreRight recent.new.pieces.items) }
    ensures memory { IsOkUnless result fault.Memory }
{
    let rest = &text[at as usize..];
    if let Some((i, source)) = seek_cached(context.held, seeker, rest, tokens)? {
        return Ok(Some((source, Some(i))));
    }
    if let Some(source) = recent.find(rest, tokens) {
        return Ok(Some((source.clone()?, None)));
    }
    match read_source(context, &mut recent.names, text, at, tokens)? {
        Some(source) => {
            recent.keep(rest, &source)?;
            Ok(Some((source, None)))
        }
        None => Ok(None),
    }
}

// Passes one token of trivia, or one piece. Answers how many bytes and tokens it has, or `None` if
// no piece can be read here.
fn pass_one(
    context: &ReadingContext<'_>,
    recent: &mut RecentPieces,
    now: &mut Reparse,
    text: &str,
    at: u32,
    left: &[Token],
) -> Result<Option<(usize, usize)>, TtFault>
    requires small { length text.now < 2 ^ 32 }
    requires words { HoldsText context.now.words text.now }
    requires right { AreSegments context.now.held.now }
    requires kept { AreRight recent.old.pieces.items }
    requires passing { IsReparse context.now.held.now text.now at left.now now.old }
    ensures passing { IfOk result (λ size. IfSome size
        (λ n. IsReparse context.now.held.now text.now (at + n.0) (drop n.1 left.now) now.new)) }
    ensures shorter { IfOk result (λ size.
        IfSome size (λ n. length (drop n.1 left.now) < length left.now)) }
    ensures none { IfOk result (λ size. size ≡ None →
        IsReparse context.now.held.now text.now at left.now now.new) }
    ensures kept { OnOk result (AreRight recent.new.pieces.items) }
    ensures memory { IsOkUnless result fault.Memory }
{
    bridge::laws::reading_behind();
    laws::next_token();
    let Some((token, _more)) = left.split_first() else {
        return Ok(None);
    };
    if is_blank(token.kind) {
        return Ok(Some((token.len as usize, 1)));
    }
    let seeker = &mut now.seeker;
    let Some((source, met)) = next_source(context, recent, seeker, text, at, left)? else {
        return Ok(None);
    };
    let bytes = source.as_ref().cutout.bytes.len();
    let count = source.as_ref().cutout.count;
    now.pass(at, source, met)?;
    Ok(Some((bytes, count)))
}

// Passes a cached segment, or one piece, or one token of trivia. Answers how many bytes and tokens
// it has, or `None` if no piece can be read here.
fn pass_next(
    context: &ReadingContext<'_>,
    recent: &mut RecentPieces,
    now: &mut Reparse,
    text: &str,
    at: u32,
    left: &[Token],
) -> Result<Option<(usize, usize)>, TtFault>
    requires small { length text.now < 2 ^ 32 }
    requires words { HoldsText context.now.words text.now }
    requires right { AreSegments context.now.held.now }
    requires kept { AreRight recent.old.pieces.items }
    requires passing { IsReparse context.now.held.now text.now at left.now now.old }
    ensures passing { IfOk result (λ size. IfSome size
        (λ n. IsReparse context.now.held.now text.now (at + n.0) (drop n.1 left.now) now.new)) }
    ensures shorter { IfOk result (λ size.
        IfSome size (λ n. length (drop n.1 left.now) < length left.now)) }
    ensures none { IfOk result (λ size. size ≡ None →
        IsReparse context.now.held.now text.now at left.now now.new) }
    ensures kept { OnOk result (AreRight recent.new.pieces.items) }
    ensures memory { IsOkUnless result fault.Memory }
{
    if let Some(size) = take_segment(context, now, text, at, left)? {
        return Ok(Some(size));
    }
    now.end_long(context.alloc, &context.words, text, at, left)?;
    pass_one(context, recent, now, text, at, left)
}

// The pieces of a text, of which the last one remains and nothing ends it, and what to cache: all
// but that last piece. `None` if the remaining tokens are no such piece.
fn with_last(
    context: &ReadingContext<'_>,
    names: &mut NameCache,
    mut now: Reparse,
    text: &str,
    at: u32,
    left: &[Token],
) -> Result<Option<(Vec<Piece>, Segments)>, TtFault>
    requires small { length text.now < 2 ^ 32 }
    requires words { HoldsText context.now.words text.now }
    requires passing { (held : Segments) × IsReparse held text.now at left.now now }
    ensures read { IfOk result (λ read.
        IfSome read (λ p. IsReadInPieces text.now (Pieces p.0 p.1))) }
    ensures theirs { IfOk result (λ read. IfSome read (λ p. AreTheirs p.1 p.0.items)) }
    ensures met { (held : Segments) → AreMet held now.own.items →
        IfOk result (λ read. IfSome read (λ p. AreMet held p.0.items)) }
    ensures memory { IsOkUnless result fault.Memory }
{
    bridge::laws::parts_of_a_text();
    bridge::laws::parts_at_other_places();
    bridge::laws::reading_is_a_relation();
    let alloc = context.alloc;
    let Some(last) = read_last(alloc, names, text, at, left)? else {
        return Ok(None);
    };
    if !is_apart(text, at as usize) {
        return Ok(None);
    }
    now.end(alloc, &context.words, text, at, left)?;
    let Reparse { mut own, list, .. } = now;
    if let Err(e) = own.push(last) {
        return Err(AllocError::from(e).into());
    }
    Ok(Some((own, Segments { list })))
}

/// The pieces of a text, and what to cache of them. `held` is what is cached of the last text that
/// was read.
///
/// `None` if some piece cannot be read by itself, as in a text with a reading fault. Out of memory
/// is the only error.
pub(crate) fn read_by_pieces(
    alloc: Global,
    text: &str,
    tokens: &[Token],
    held: &Segments,
) -> Result<Option<(Vec<Piece>, Segments)>, TtFault>
    requires small { length text.now < 2 ^ 32 }
    requires tokens { tokens.now ≡ tokens_of (chars text.now) }
    requires right { AreSegments held.now }
    ensures read { IfOk result (λ read.
        IfSome read (λ p. IsReadInPieces text.now (Pieces p.0 p.1))) }
    ensures theirs { IfOk result (λ read. IfSome read (λ p. AreTheirs p.1 p.0.items)) }
    ensures met { IfOk result (λ read. IfSome read (λ p. AreMet held.now p.0.items)) }
    ensures memory { IsOkUnless result fault.Memory }
{
    laws::tokens_begin();
    let mut recent = RecentPieces::new(alloc);
    let words = words_of(alloc, text, held)?;
    let context = ReadingContext { alloc, held, words };
    let mut now = Reparse::new(alloc, held, tokens)?;
    let mut at: u32 = 0;
    let mut left = tokens;
    while !left.is_empty() {
        let Some((len, count)) = pass_next(&context, &mut recent, &mut now, text, at, left)? else {
            return with_last(&context, &mut recent.names, now, text, at, left);
        };
        let Some((end, after)) = behind(left, at, len, count) else {
            return Ok(None);
        };
        at = end;
        left = after;
    }
    if !is_apart(text, at as usize) {
        return Ok(None);
    }
    now.end(alloc, &context.words, text, at, left)?;
    let Reparse { own, list, .. } = now;
    Ok(Some((own, Segments { list })))
}

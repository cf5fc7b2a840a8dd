//! The tokens of a text with what is before each in its line.

use crate::bars::second_bar;
use crate::layout::{Gap, Layout};
use crate::piece::{Piece, Space};
use crate::short::shorten;
use crate::sort::{Sort, sort_of};
use crate::touch::may_touch;
use crate::words::Placed;
use rustc_lexer::TokenKind;
use std::alloc::{AllocError, Global};

/// How far the pieces of a text are made.
#[derive(Drop)]
struct Maker<'a> {
    layout: Layout,
    pieces: Vec<Piece<'a>>,
    // The pieces that open the groups that are open.
    opened: Vec<usize>,
    // The token that is the second bar of a closure.
    bar: Option<usize>,
}

// The byte behind a token, before this one.
fn byte_before(after: Option<&Placed<'_>>) -> Option<u8> {
    let word = after?;
    if word.apart {
        return Some(b' ');
    }
    word.text.as_bytes().first().copied()
}

// Whether two tokens that the layout puts side by side stay so.
fn may_stay(first: &Placed<'_>, second: &Placed<'_>, behind: Option<&Placed<'_>>) -> bool {
    if !second.apart {
        return true;
    }
    let is_type = matches!(first.kind, TokenKind::Lifetime { .. })
        && matches!(second.kind, TokenKind::OpenBracket | TokenKind::OpenParen);
    !is_type && may_touch(first, second.kind, behind.map(|word| word.kind))
}

// What is before a token with this gap.
fn space_of(gap: Gap, words: &[Placed<'_>], at: usize) -> Space {
    match gap {
        Gap::Line(_) | Gap::Top => return Space::Line,
        Gap::Blank => return Space::Blank,
        Gap::Nothing => {}
    }
    match (words.get(at.wrapping_sub(1)), words.get(at)) {
        (Some(first), Some(second)) if !may_stay(first, second, words.get(at.saturating_add(1))) =>
            { Space::Blank }
        _ => Space::Nothing,
    }
}

// Whether a line that is too long is broken between two tokens sooner than elsewhere.
fn is_part(before: Sort, in_generics: bool, sort: Sort, space: Space) -> bool {
    match space {
        Space::Blank => before == Sort::Operator || (before == Sort::Comma && !in_generics),
        Space::Nothing => {
            sort == Sort::Dot && matches!(before, Sort::Close | Sort::Question | Sort::BraceEnd)
        }
        Space::Line => false,
    }
}

fn columns(space: Space, text: &str) -> usize {
    let count = text.chars().count();
    if space == Space::Blank {
        count.saturating_add(1)
    } else {
        count
    }
}

// Ends the group that a piece closes, and gives whether its arguments may stand one a line: those
// of more than one token, but no attribute.
fn end_group(maker: &mut Maker<'_>, sort: Sort) -> bool {
    let at = maker.pieces.len();
    let Some(open) = maker.opened.pop() else {
        return false;
    };
    let can_spread = sort == Sort::Close && at.saturating_sub(open) > 2;
    if let Some(piece) = maker.pieces.get_mut(open) {
        piece.can_spread = can_spread;
    }
    can_spread
}

// What a token is to the layout: the bars of a closure are brackets.
fn sort_at(maker: &mut Maker<'_>, words: &[Placed<'_>], at: usize, word: &Placed<'_>) -> Sort {
    if maker.bar == Some(at) {
        maker.bar = None;
        return Sort::Close;
    }
    if maker.bar.is_none() {
        maker.bar = second_bar(words, at, maker.layout.last());
        if maker.bar.is_some() {
            return Sort::Open;
        }
    }
    sort_of(
        word.kind,
        word.text,
        byte_before(words.get(at.saturating_add(1))),
    )
}

// The piece of a token, without its ends.
fn piece_at<'a>(
    maker: &mut Maker<'a>,
    words: &[Placed<'a>],
    at: usize,
    word: &Placed<'a>,
) -> Result<Piece<'a>, AllocError> {
    let before = maker.layout.last();
    let in_generics = maker.layout.is_in_generics();
    let sort = sort_at(maker, words, at, word);
    let space = space_of(maker.layout.next(sort, word.apart)?, words, at);
    let sort = maker.layout.last();
    Ok(Piece {
        text: word.text,
        sort,
        space,
        is_part: is_part(before, in_generics, sort, space),
        can_spread: false,
        end: 0,
        word_end: 0,
        part_end: 0,
        group_end: 0,
    })
}

// Adds the piece of the token at this index.
fn push_piece<'a>(
    maker: &mut Maker<'a>,
    words: &[Placed<'a>],
    at: usize,
    word: &Placed<'a>,
) -> Result<(), AllocError> {
    let mut piece = piece_at(maker, words, at, word)?;
    let end = maker.pieces.last().map_or(0, |last| last.end);
    piece.end = end.saturating_add(columns(piece.space, piece.text));
    match piece.sort {
        Sort::Open | Sort::Brace => maker.opened.push(at)?,
        Sort::Close | Sort::AttributeEnd => {
            piece.is_part = end_group(maker, piece.sort) || piece.is_part;
        }
        _ => {}
    }
    maker.pieces.push(piece)?;
    if piece.sort == Sort::BraceEnd {
        if let Some(open) = maker.opened.pop() {
            shorten(maker.pieces.as_mut_slice(), open);
        }
    }
    Ok(())
}

/// The pieces of these tokens, without the ends of what they are in.
pub(crate) fn pieces_of<'a>(
    alloc: Global,
    words: &[Placed<'a>],
) -> Result<Vec<Piece<'a>>, AllocError> {
    let mut maker = Maker {
        layout: Layout::new(alloc),
        pieces: Vec::new(alloc),
        opened: Vec::new(alloc),
        bar: None,
    };
    for (at, word) in words.iter().enumerate() {
        push_piece(&mut maker, words, at, word)?;
    }
    Ok(maker.pieces)
}

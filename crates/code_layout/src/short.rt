//! Braces with little in them, which stand in one line.

use crate::piece::{Piece, Space};
use crate::sort::Sort;

// How many columns they have at most.
const COLUMNS: usize = 40;

// Among how many tokens that is looked for.
const TOKENS: usize = 40;

// Whether an item is declared, whose braces have lines.
fn declares(word: &str) -> bool {
    matches!(
        word,
        "struct" | "enum" | "union" | "trait" | "impl" | "for" | "mod" | "macro"
    )
}

// Whether these pieces, from an opening brace on, are few and short, as fields are.
fn is_short(pieces: &[Piece<'_>]) -> bool {
    let (Some(first), Some(last)) = (pieces.first(), pieces.last()) else {
        return false;
    };
    last.end.saturating_sub(first.end) <= COLUMNS
        && pieces.iter().skip(1).all(|piece| !matches!(
            piece.sort,
            Sort::Semi | Sort::Brace | Sort::Greater
        ))
}

// Whether the braces that open at this index follow the name of a type that is not declared here.
fn follows_name(pieces: &[Piece<'_>], open: usize) -> bool {
    let before = pieces.get(open.wrapping_sub(2)).map(|piece| piece.text);
    match pieces.get(open.wrapping_sub(1)) {
        Some(name) => name.sort == Sort::Generic && !declares(before.unwrap_or("")),
        None => false,
    }
}

/// Puts the pieces from an opening brace on in one line, if they are short.
pub(crate) fn shorten(pieces: &mut [Piece<'_>], open: usize) {
    let count = pieces.len().saturating_sub(open);
    if count > TOKENS || !follows_name(pieces, open) {
        return;
    }
    let Some((_, inner)) = pieces.split_at_mut_checked(open) else {
        return;
    };
    if !is_short(inner) {
        return;
    }
    let mut more: usize = 0;
    for piece in inner.iter_mut() {
        if piece.space == Space::Line {
            piece.space = Space::Blank;
            more = more.saturating_add(1);
        }
        piece.end = piece.end.saturating_add(more);
    }
}

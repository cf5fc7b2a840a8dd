//! How long what a token is in would be in one line.

use crate::piece::{Piece, Space};
use crate::sort::Sort;
use std::alloc::{AllocError, Global};

/// What is known of the tokens behind one, from the last to the first.
#[derive(Drop)]
struct Behind {
    // Whether a line ends before the next token, or may end there.
    line: bool,
    part: bool,
    blank: bool,
    // Where the line, the part and the word of the next token end.
    line_end: usize,
    part_end: usize,
    word_end: usize,
    // Where the parts end that the closings of the open groups are in.
    closings: Vec<usize>,
}

// Where the group needs a line to end that this piece opens.
fn group_end(behind: &mut Behind, sort: Sort) -> usize {
    match sort {
        Sort::Open => match behind.closings.pop() {
            Some(end) => end.min(behind.line_end),
            None => behind.line_end,
        },
        _ => 0,
    }
}

// Sets the ends of a piece.
fn set_ends(behind: &mut Behind, piece: &mut Piece<'_>) -> Result<(), AllocError> {
    if behind.line {
        behind.line_end = piece.end;
    }
    if behind.line || behind.part || piece.can_spread {
        behind.part_end = piece.end;
        behind.word_end = piece.end;
    }
    if behind.blank {
        behind.word_end = piece.end;
    }
    piece.part_end = behind.part_end;
    piece.word_end = behind.word_end;
    piece.group_end = group_end(behind, piece.sort);
    if matches!(piece.sort, Sort::Close | Sort::AttributeEnd) {
        behind.closings.push(behind.part_end)?;
    }
    behind.line = piece.space == Space::Line;
    behind.part = piece.is_part;
    behind.blank = piece.space == Space::Blank;
    Ok(())
}

/// Sets where the lines, the parts, the words and the groups end that each token is in.
pub(crate) fn measure(alloc: Global, pieces: &mut [Piece<'_>]) -> Result<(), AllocError> {
    let mut behind = Behind {
        line: true,
        part: false,
        blank: false,
        line_end: 0,
        part_end: 0,
        word_end: 0,
        closings: Vec::new(alloc),
    };
    for piece in pieces.iter_mut().rev() {
        set_ends(&mut behind, piece)?;
    }
    Ok(())
}

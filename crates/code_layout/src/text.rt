//! A text laid out.
ghost use Rattle.std.specs.Prelude.{◌≡◌, IfOk, string_bytes};
ghost use Rattle.code_layout.specs.Words.{words_of};

use crate::lines::lines_of;
use crate::measure::measure;
use crate::pieces::pieces_of;
use crate::words::{Placed, has_words, words_in};
use std::alloc::{AllocError, Global};

// These tokens in lines.
fn laid_out(alloc: Global, words: &[Placed<'_>]) -> Result<String, AllocError> {
    let mut pieces = pieces_of(alloc, words)?;
    measure(alloc, pieces.as_mut_slice())?;
    lines_of(alloc, pieces.as_slice())
}

/// A printed text laid out as Rust code: a statement a line, blocks indented, and no line over 120
/// columns where its tokens allow that. At most 20 levels are indented.
///
/// It has the tokens of the printed text. Where the lines would be read as others, and where the
/// text has more than `u32::MAX` bytes, it is the printed text itself.
pub fn layout_text(alloc: Global, printed: &str) -> Result<String, AllocError>
    ensures { IfOk result (λ laid. words_of (string_bytes laid) ≡ words_of printed.now) }
{
    if printed.len() > u32::MAX as usize {
        return String::from_str(alloc, printed);
    }
    let words = words_in(alloc, printed)?;
    let laid = laid_out(alloc, words.as_slice())?;
    if laid.len() <= u32::MAX as usize && has_words(laid.as_str(), words.as_slice()) {
        return Ok(laid);
    }
    String::from_str(alloc, printed)
}

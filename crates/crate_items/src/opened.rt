//! A text in which calls are opened.
ghost use Rattle.std.specs.Prelude.{◌≡◌, ◌<◌, ℕ, ◌||◌, IfOk, Some, length, option_map};
ghost use Rattle.std.specs.List.{slice_get};
ghost use Rattle.crate_items.specs.Opened.{IsOpened, is_in, is_in_any, opened_byte};

use std::alloc::{AllocError, Global};
use tt_data::TextRange;

// Marks the offsets that lie in a range.
fn mark(marks: &mut [bool], range: TextRange)
    ensures size { length marks.new ≡ length marks.old }
    ensures marked { (i : ℕ) → slice_get marks.new i
        ≡ option_map (λ m. m || is_in i range) (slice_get marks.old i) }
{
    let end = (range.end as usize).min(marks.len());
    for i in range.start as usize..end {
        marks[i] = true;
    }
}

// Which of the first `count` offsets lie in one of these ranges.
fn marked(alloc: Global, count: usize, ranges: &[TextRange]) -> Result<Vec<bool>, AllocError>
    ensures size { IfOk result (λ marks. length marks.items ≡ count) }
    ensures marked { IfOk result (λ marks. (i : ℕ) → i < count →
        slice_get marks.items i ≡ Some (is_in_any ranges.now i)) }
{
    let mut marks = Vec::new(alloc);
    marks.resize(count, false)?;
    for range in ranges {
        mark(marks.as_mut_slice(), *range);
    }
    Ok(marks)
}

/// A text in which these calls are opened: spaces stand in each for all but what is kept and line
/// ends, so that offsets and lines stay.
///
/// # Errors
///
/// Out of memory, where a request for memory is refused.
pub fn open_calls(
    alloc: Global,
    text: &[u8],
    calls: &[TextRange],
    kept: &[TextRange],
) -> Result<Vec<u8>, AllocError>
    ensures { IfOk result (λ out. IsOpened calls.now kept.now text.now out.items) }
{
    let in_calls = marked(alloc, text.len(), calls)?;
    let in_kept = marked(alloc, text.len(), kept)?;
    let mut out = Vec::with_capacity(alloc, text.len())?;
    for i in 0..text.len() {
        let is_blank = in_calls[i] && !in_kept[i] && text[i] != b'\n';
        out.push(if is_blank { b' ' } else { text[i] })?;
    }
    Ok(out)
}

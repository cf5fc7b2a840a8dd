//! How far the lexer looks ahead: tokens that end at least two characters before an edit, and not
//! inside the run of hashes there, do not depend on it.
ghost use Rattle.std.specs.Prelude.{◌≡◌, ◌+◌, ◌-◌, ◌<◌, ◌≤◌, ◌&&◌, ℕ, nat_le, drop, length, chars};
ghost use Rattle.std.specs.Prelude.{take, IsCharBoundary};
ghost use Rattle.rustc_lexer.specs.Edit.{is_clear_of};
ghost use Rattle.rustc_lexer.specs.Relexing.{IsLastChar, IsRunStart};

use crate::scan::split_first;

// Whether the text has at least two characters.
#[inline]
fn has_two_chars(text: &str) -> bool
    ensures { result ≡ nat_le 2 (length (chars text.now)) }
{
    match split_first(text) {
        Some((_, rest)) => split_first(rest).is_some(),
        None => false,
    }
}

// The offset one character before `start`, or 0 at the start of the text.
fn char_before(text: &str, start: usize) -> usize
    requires { IsCharBoundary text.now start }
    ensures { IsLastChar text.now start result }
{
    let mut at = start;
    while at > 0 {
        at -= 1;
        if text.is_char_boundary(at) {
            return at;
        }
    }
    0
}

/// Where the run of hashes begins that ends one character before `start`. A run that ends at
/// `start` is the same with one hash more.
pub fn run_start(text: &str, start: usize) -> usize
    requires { IsCharBoundary text.now start }
    ensures { IsRunStart text.now start result }
{
    let bytes = text.as_bytes();
    let last = char_before(text, start);
    let mut run = last;
    while run > 0 && bytes[run - 1] == b'#' {
        run -= 1;
    }
    run
}

/// Whether offset `at` is clear of `start`, where the run of hashes before `start` begins at `run`.
/// A character has at most four bytes, so the text is looked at only if `at` and `start` are less
/// than eight bytes apart.
#[inline]
pub fn is_clear(text: &str, at: usize, start: usize, run: usize) -> bool
    requires at { IsCharBoundary text.now at }
    requires start { IsCharBoundary text.now start }
    requires run { IsRunStart text.now start run }
    ensures { result ≡ is_clear_of text.now start at }
{
    if run < at {
        return false;
    }
    if 8 <= start - at {
        return true;
    }
    has_two_chars(&text[at..start])
}

/// The same, where offsets before `sure` are far enough from `start` and not behind `run`: these
/// are clear at a glance.
#[inline]
pub fn is_clear_from(text: &str, at: usize, start: usize, run: usize, sure: usize) -> bool
    requires at { IsCharBoundary text.now at }
    requires start { IsCharBoundary text.now start }
    requires run { IsRunStart text.now start run }
    requires sure { (sure ≤ run + 1) × (sure ≤ start - 7) }
    ensures { result ≡ is_clear_of text.now start at }
{
    if at < sure {
        return true;
    }
    is_clear(text, at, start, run)
}

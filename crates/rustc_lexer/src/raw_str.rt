//! Validates raw strings.
ghost use Rattle.std.specs.Prelude.{◌≡◌, ◌<◌, ◌≤◌, ◌+◌, ◌-◌, ◌^◌, true, drop, length, chars};
ghost use Rattle.rustc_lexer.specs.Character.{char_at, is};
ghost use Rattle.rustc_lexer.specs.Literals.{hashes};
ghost use Rattle.rustc_lexer.specs.RawForms.{body_validity, hashes_validity, validity};
ghost use Rattle.rustc_lexer.specs.Scanned.{IsRead};

use crate::literal::count_hashes;
use crate::scan::{behind, first, from_quote, split_first};

/// What is wrong with a raw string. (The Rust Reference, "Raw string literals".)
#[derive(Clone, Copy, PartialEq, Eq, PartialOrd, Ord, Debug)]
pub enum RawStrError {
    /// After the hashes comes this character in place of `"`, or U+0000 for the end of the text.
    InvalidStarter {
        bad_char: char,
    },
    /// The end is missing.
    NoTerminator {
        /// How many hashes have to follow the final `"`.
        expected: u32,
        /// The most hashes that follow a `"` of the body.
        found: u32,
        /// The offset right after the first `"` that `found` hashes follow, in bytes, where the
        /// prefix counts as one byte a character. `None` if `found` is 0.
        possible_terminator_offset: Option<u32>,
    },
    /// It has an end, but more than 255 hashes.
    TooManyDelimiters {
        found: u32,
    },
}

/// Checks the raw string at the start of the text: a prefix of `prefix_len` characters that ends
/// in `r`, at most 255 hashes, a `"`, and a body up to a `"` with as many hashes after it. What
/// follows may be anything.
///
/// The text has at most `u32::MAX` bytes, and `prefix_len` is at least 1. (The Rust Reference,
/// "Raw string literals".)
pub fn validate_raw_str(input: &str, prefix_len: u32) -> Result<(), RawStrError>
    requires positive { 1 ≤ prefix_len }
    requires prefix { is "r" (char_at (chars input.now) (prefix_len - 1)) ≡ true }
    requires small { length input.now < 2 ^ 32 }
    ensures { result ≡ validity prefix_len (chars input.now) }
{
    let (n, opening) = read_hashes(skip_chars(input, prefix_len));
    let bad_char = first(opening);
    if bad_char != '"' {
        return Err(RawStrError::InvalidStarter { bad_char });
    }
    check_body(behind(opening), n, prefix_len + n + 1)?;
    check_hashes(n)
}

// What follows the first n characters.
fn skip_chars(text: &str, n: u32) -> &str
    ensures { chars result.now ≡ drop n (chars text.now) }
{
    let mut rest = text;
    for _ in 0..n {
        rest = behind(rest);
    }
    rest
}

// The number of hashes at the front, and what follows them.
fn read_hashes(text: &str) -> (u32, &str)
    requires { length text.now < 2 ^ 32 }
    ensures { IsRead (hashes (chars text.now)) text.now result.0 result.1.now }
{
    let (n, rest) = count_hashes(text);
    (n as u32, rest)
}

// Whether a body that comes after `start` bytes has a `"` with n hashes after it.
fn check_body(body: &str, n: u32, start: u32) -> Result<(), RawStrError>
    requires { start + length body.now < 2 ^ 32 }
    ensures { result ≡ body_validity start n (chars body.now) }
{
    let mut found = 0;
    let mut possible_terminator_offset = None;
    let mut rest = body;
    while let Some((_, after)) = split_first(from_quote(rest)) {
        let (hashes, _) = read_hashes(after);
        if hashes >= n {
            return Ok(());
        }
        if hashes > found {
            found = hashes;
            possible_terminator_offset = Some(start + (body.len() - after.len()) as u32);
        }
        rest = after;
    }
    Err(RawStrError::NoTerminator {
        expected: n,
        found,
        possible_terminator_offset,
    })
}

// Whether a raw string may have so many hashes.
fn check_hashes(n: u32) -> Result<(), RawStrError>
    ensures { result ≡ hashes_validity n }
{
    if n > 255 {
        return Err(RawStrError::TooManyDelimiters { found: n });
    }
    Ok(())
}

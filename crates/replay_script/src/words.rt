//! Words of a line: numbers, escapes, and what stands before and after a mark.
ghost use Rattle.std.specs.Prelude.{◌≡◌, ◌≢◌, ◌<◌, ◌++◌, ◌∷◌, IfOk, IsUtf8, List, MatchOption};
ghost use Rattle.std.specs.Prelude.{None, Some, option_map, string_bytes, ℕ};
ghost use Rattle.replay_script.specs.LineReads.{left_of};
ghost use Rattle.replay_script.specs.Words.{IsNumber, Lacks, LacksNumber, escape_of, is_backslash};
ghost use Rattle.replay_script.specs.Words.{unescaped};

use std::alloc::{AllocError, Global};

/// The text before the first such character, and the text after it.
pub(crate) fn cut_at(text: &str, mark: char) -> Option<(&str, &str)>
    requires { mark < 128 }
    ensures { MatchOption result (Lacks mark text.now)
        (λ parts. (text.now ≡ parts.0.now ++ mark ∷ parts.1.now) × Lacks mark parts.0.now) }
{
    text.split_once(mark)
}

/// The text after `front`, if the text begins with it.
pub(crate) fn behind<'a>(text: &'a str, front: &str) -> Option<&'a str>
    ensures { MatchOption result ((rest : List ℕ) → text.now ≢ front.now ++ rest)
        (λ rest. text.now ≡ front.now ++ rest.now) }
{
    text.strip_prefix(front)
}

// The byte that an escape means: that of this byte after a backslash.
fn escape_of(byte: u8) -> Option<u8>
    ensures { result ≡ escape_of byte }
{
    match byte {
        b'n' => Some(b'\n'),
        b'r' => Some(b'\r'),
        b'\\' => Some(b'\\'),
        _ => None,
    }
}

fn is_backslash(byte: u8) -> bool
    ensures { result ≡ is_backslash byte }
{
    byte == b'\\'
}

// Adds what the next byte of a replacement means, and answers whether it is a backslash that
// begins an escape. `is_escape` says that one came before it. `None` if the byte is not allowed
// here.
fn take_byte(bytes: &mut Vec<u8>, is_escape: bool, byte: u8) -> Result<Option<bool>, AllocError>
    ensures { IfOk result (λ taken. MatchOption taken
        ((rest : List ℕ) → left_of is_escape bytes.old.items (byte ∷ rest) ≡ None)
        (λ next. (rest : List ℕ) → left_of is_escape bytes.old.items (byte ∷ rest)
        ≡ left_of next bytes.new.items rest)) }
{
    if is_escape {
        let Some(meant) = escape_of(byte) else {
            return Ok(None);
        };
        bytes.push(meant)?;
        return Ok(Some(false));
    }
    if is_backslash(byte) {
        return Ok(Some(true));
    }
    bytes.push(byte)?;
    Ok(Some(false))
}

// The bytes that a replacement means, or `None` if it has a wrong escape.
fn unescaped(alloc: Global, text: &str) -> Result<Option<Vec<u8>>, AllocError>
    ensures { IfOk result (λ bytes. option_map (λ b. b.items) bytes ≡ unescaped text.now) }
{
    let mut bytes = Vec::new(alloc);
    let mut is_escape = false;
    for byte in text.as_bytes() {
        let Some(next) = take_byte(&mut bytes, is_escape, *byte)? else {
            return Ok(None);
        };
        is_escape = next;
    }
    if is_escape {
        return Ok(None);
    }
    Ok(Some(bytes))
}

/// The text that a replacement means, or `None` if it has a wrong escape or is no UTF-8.
pub(crate) fn replacement_of(alloc: Global, text: &str) -> Result<Option<String>, AllocError>
    ensures { IfOk result (λ replacement. MatchOption replacement
        ((bytes : List ℕ) → IsUtf8 bytes → unescaped text.now ≢ Some bytes)
        (λ r. unescaped text.now ≡ Some (string_bytes r))) }
{
    match unescaped(alloc, text)? {
        Some(bytes) => Ok(String::from_utf8(bytes).ok()),
        None => Ok(None),
    }
}

/// The decimal number that a word is, or `None`.
pub(crate) fn number_of(word: &str) -> Option<usize>
    ensures { MatchOption result ((n : ℕ) → IsNumber word.now n → ⊥) (IsNumber word.now) }
{
    word.parse::<usize>().ok()
}

/// The number that a text begins with, and the text after the space that ends it.
pub(crate) fn number_before(text: &str) -> Option<(usize, &str)>
    ensures { MatchOption result (LacksNumber text.now)
        (λ r. (word : List ℕ) × (text.now ≡ word ++ 32 ∷ r.1.now) × IsNumber word r.0) }
{
    let Some((word, rest)) = cut_at(text, ' ') else {
        return None;
    };
    match number_of(word) {
        Some(number) => Some((number, rest)),
        None => None,
    }
}

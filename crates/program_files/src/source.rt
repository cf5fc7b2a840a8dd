//! What of a file's front is no code: its byte order mark, and its first line if that is for a
//! shell.
ghost use Rattle.std.specs.Prelude.{◌≡◌, ◌≤◌, ◌<◌, ◌^◌, length, IsUtf8};
ghost use Rattle.program_files.specs.Sources.{HasFront, IsBlanked, line_length};

use rustc_lexer::strip_shebang;
use std::alloc::{AllocError, Global};

// How many bytes a `#!` line at a text's front has, without its end.
fn line_length(text: &str) -> usize
    requires { length text.now < 2 ^ 32 }
    ensures line { result ≡ line_length text.now }
    ensures within { result ≤ length text.now }
{
    strip_shebang(text).unwrap_or(0)
}

// How many bytes at a text's front are a byte order mark and a `#!` line, without its end.
fn front_length(text: &str) -> usize
    requires { length text.now < 2 ^ 32 }
    ensures front { HasFront text.now result }
    ensures within { result ≤ length text.now }
{
    match text.strip_prefix("\u{feff}") {
        Some(rest) => 3 + line_length(rest),
        None => line_length(text),
    }
}

/// Puts spaces in the place of a byte order mark and of the bytes of a `#!` line before its end, so
/// that all places stay those of the file. Bytes that are no text, or too many for one, stay.
pub fn blank_front(bytes: &mut [u8])
    ensures text { IsUtf8 bytes.old → length bytes.old < 2 ^ 32 → IsBlanked bytes.old bytes.new }
    ensures other { (IsUtf8 bytes.old → length bytes.old < 2 ^ 32 → ⊥) → bytes.new ≡ bytes.old }
{
    if bytes.len() > u32::MAX as usize {
        return;
    }
    let Ok(text) = std::str::from_utf8(bytes) else {
        return;
    };
    let front = front_length(text);
    bytes[..front].fill(b' ');
}

/// The bytes of a text, in which what is no code is blank.
pub(crate) fn code_of(alloc: Global, text: &str) -> Result<Vec<u8>, AllocError> {
    let mut bytes = Vec::from_slice(alloc, text.as_bytes())?;
    blank_front(bytes.as_mut_slice());
    Ok(bytes)
}

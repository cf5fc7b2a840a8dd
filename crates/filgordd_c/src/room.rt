//! What is told of the last answer, written to where the caller says.
ghost use Rattle.std.specs.Prelude.{◌≡◌, ◌≤◌, ◌++◌, length, drop, map, take};
ghost use Rattle.filgordd_c.specs.Answered.{Copied, OriginsTold, SourcesTold, TokenRangesTold};

use crate::answers::{ByteRange, byte_range};
use crate::code::Code;
use expander::Expansion;

/// Copies a text to the beginning of the room, if there is enough.
pub(crate) fn copy_text(text: &str, room: &mut [u8]) -> Code
    ensures { Copied text.now room.old room.new result }
{
    let bytes = text.as_bytes();
    if room.len() < bytes.len() {
        return Code::Room;
    }
    room[..bytes.len()].copy_from_slice(bytes);
    Code::Done
}

/// Copies the ranges of the printed tokens to the beginning of the room, if there is enough.
pub(crate) fn copy_token_ranges(expansion: &Expansion, room: &mut [ByteRange]) -> Code
    ensures { TokenRangesTold expansion.now room.old room.new result }
{
    if expansion.printed().len() > 0xffff_ffff {
        return Code::Length;
    }
    let ranges = expansion.token_ranges();
    if room.len() < expansion.tokens() {
        return Code::Room;
    }
    let mut i = 0;
    for range in ranges {
        room[i] = byte_range(range);
        i += 1;
    }
    Code::Done
}

/// Copies the origins of the printed tokens to the beginning of the room, if there is enough.
pub(crate) fn copy_origins(expansion: &Expansion, room: &mut [ByteRange]) -> Code
    ensures { OriginsTold expansion.now room.old room.new result }
{
    let tokens = expansion.tokens();
    if room.len() < tokens {
        return Code::Room;
    }
    let mut i = 0;
    while i < tokens {
        let Some(origin) = expansion.source(i) else {
            unreachable!("a printed token has an origin");
        };
        room[i] = byte_range(origin.range);
        i += 1;
    }
    Code::Done
}

/// Copies the number of the text that each printed token comes from to the beginning of the room,
/// if there is enough.
pub(crate) fn copy_sources(expansion: &Expansion, room: &mut [u32]) -> Code
    ensures { SourcesTold expansion.now room.old room.new result }
{
    let tokens = expansion.tokens();
    if room.len() < tokens {
        return Code::Room;
    }
    let mut i = 0;
    while i < tokens {
        let Some(origin) = expansion.source(i) else {
            unreachable!("a printed token has an origin");
        };
        room[i] = origin.text;
        i += 1;
    }
    Code::Done
}

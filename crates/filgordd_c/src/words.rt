//! The words for codes and faults by their numbers, and the version.
ghost use Rattle.std.specs.Prelude.{◌≡◌, Some, option_map};
ghost use Rattle.expander_run.specs.Lines.{fault_words, read_fault_words};
ghost use Rattle.filgordd_c.specs.Words.{WordsTold, code_of, code_words, early_code, kind_of};
ghost use Rattle.filgordd_c.specs.Words.{late_code, read_kind_of, version, words_of_code};
ghost use Rattle.filgordd_c.specs.Words.{words_of_kind, words_of_read_kind};

use crate::code::Code;
use crate::room::copy_text;
use expander::{FaultKind, ReadFaultKind, Refusal};
use expander_run::lines::{fault_words, read_fault_words, refusal_words};

const VERSION: &str = "0.1.0";

// The words for a code.
fn code_words(code: Code) -> &'static str
    ensures { result.now ≡ code_words code }
{
    match code {
        Code::Done => "done",
        Code::Unread => "the text cannot be read as trees",
        Code::Memory => refusal_words(Refusal::Memory),
        Code::Tokens => refusal_words(Refusal::Tokens),
        Code::Numbers => refusal_words(Refusal::Numbers),
        Code::Closed => "there is no session",
        Code::Utf8 => "the bytes are not UTF-8",
        Code::Length => "the text is too long",
        Code::Edition => "there is no such edition",
        Code::Grammar => "there is no such grammar",
        Code::Boundary => "an offset is within a character",
        Code::Range => "the range is not in the text",
        Code::Nothing => "there is no such answer",
        Code::Index => "there is nothing of this index",
        Code::Room => "there is not enough room",
        Code::Root => "the word cannot stand for a crate",
        Code::Source => "there is no source of this number",
        Code::Scope => "there are no such rules of scopes",
        Code::Cfg => "a word names no option for conditional compilation",
    }
}

// The code of a number from 0 to 9.
fn early_code(number: u32) -> Option<Code>
    ensures { result ≡ early_code number }
{
    match number {
        0 => Some(Code::Done),
        1 => Some(Code::Unread),
        2 => Some(Code::Memory),
        3 => Some(Code::Tokens),
        4 => Some(Code::Numbers),
        5 => Some(Code::Closed),
        6 => Some(Code::Utf8),
        7 => Some(Code::Length),
        8 => Some(Code::Edition),
        9 => Some(Code::Grammar),
        _ => None,
    }
}

// The code of a number from 10 on.
fn late_code(number: u32) -> Option<Code>
    ensures { result ≡ late_code number }
{
    match number {
        10 => Some(Code::Boundary),
        11 => Some(Code::Range),
        12 => Some(Code::Nothing),
        13 => Some(Code::Index),
        14 => Some(Code::Room),
        16 => Some(Code::Root),
        17 => Some(Code::Source),
        18 => Some(Code::Scope),
        19 => Some(Code::Cfg),
        _ => None,
    }
}

// The code of a number.
fn code_of(number: u32) -> Option<Code>
    ensures { result ≡ code_of number }
{
    if number < 10 {
        early_code(number)
    } else {
        late_code(number)
    }
}

// The words for the number of a code.
fn words_of_code(number: u32) -> Option<&'static str>
    ensures { option_map (λ w. w.now) result ≡ words_of_code number }
{
    // That of a null pointer, which the header alone answers.
    if number == 15 {
        return Some("a pointer is NULL");
    }
    match code_of(number) {
        Some(code) => Some(code_words(code)),
        None => None,
    }
}

// The kind of a fault of this number.
fn kind_of(number: u32) -> Option<FaultKind>
    ensures { result ≡ kind_of number }
{
    match number {
        0 => Some(FaultKind::CannotExpand),
        1 => Some(FaultKind::BrokenDefinition),
        2 => Some(FaultKind::RecursionLimit),
        3 => Some(FaultKind::NestedDefinition),
        4 => Some(FaultKind::Unspellable),
        5 => Some(FaultKind::TooLarge),
        _ => None,
    }
}

// The kind of a reading fault of this number.
fn read_kind_of(number: u32) -> Option<ReadFaultKind>
    ensures { result ≡ read_kind_of number }
{
    match number {
        0 => Some(ReadFaultKind::BadToken),
        1 => Some(ReadFaultKind::CloserDoesNotFit),
        2 => Some(ReadFaultKind::GroupLeftOpen),
        _ => None,
    }
}

// The words for the number of a kind of fault.
fn words_of_kind(number: u32) -> Option<&'static str>
    ensures { option_map (λ w. w.now) result ≡ words_of_kind number }
{
    match kind_of(number) {
        Some(kind) => Some(fault_words(kind)),
        None => None,
    }
}

// The words for the number of a kind of reading fault.
fn words_of_read_kind(number: u32) -> Option<&'static str>
    ensures { option_map (λ w. w.now) result ≡ words_of_read_kind number }
{
    match read_kind_of(number) {
        Some(kind) => Some(read_fault_words(kind)),
        None => None,
    }
}

// Copies words to the beginning of the room, and tells their length.
fn tell(words: Option<&str>, room: &mut [u8], len: &mut usize) -> Code
    ensures { WordsTold (option_map (λ w. w.now) words.entry) room.old room.new len.old len.new
        result }
{
    let Some(words) = words else {
        return Code::Index;
    };
    *len = words.len();
    copy_text(words, room)
}

/// The version, copied to the beginning of the room, and its length.
pub(crate) fn tell_version(room: &mut [u8], len: &mut usize) -> Code
    ensures { WordsTold (Some version) room.old room.new len.old len.new result }
{
    tell(Some(VERSION), room, len)
}

/// The words for the number of a code.
pub(crate) fn tell_code(number: u32, room: &mut [u8], len: &mut usize) -> Code
    ensures { WordsTold (words_of_code number) room.old room.new len.old len.new result }
{
    tell(words_of_code(number), room, len)
}

/// The words for the number of a kind of fault.
pub(crate) fn tell_kind(number: u32, room: &mut [u8], len: &mut usize) -> Code
    ensures { WordsTold (words_of_kind number) room.old room.new len.old len.new result }
{
    tell(words_of_kind(number), room, len)
}

/// The words for the number of a kind of reading fault.
pub(crate) fn tell_read_kind(number: u32, room: &mut [u8], len: &mut usize) -> Code
    ensures { WordsTold (words_of_read_kind number) room.old room.new len.old len.new result }
{
    tell(words_of_read_kind(number), room, len)
}

//! What is told of the last answer, written to where the caller says.
ghost use Rattle.std.specs.Prelude.{◌≡◌, Some, IfErr, IfOk, string_bytes};
ghost use Rattle.filgordd_c.specs.Answered.{CountsTold, FaultTold, OfExpansion, OriginsTold};
ghost use Rattle.filgordd_c.specs.Answered.{PrintedTold, ReadingFaultTold, SourcesTold};
ghost use Rattle.filgordd_c.specs.Answered.{TokenRangesTold};
ghost use Rattle.filgordd_c.specs.Json.{JsonTold, NoLine, line_of};

use crate::answers::{ByteRange, Counts, ToldFault, counted, told, told_unread};
use crate::code::Code;
use crate::live::{Answer, Live};
use crate::room::{copy_origins, copy_sources, copy_text, copy_token_ranges};
use reply_json::{expansion_line, unread_line};
use std::alloc::{AllocError, Global};

/// How much the expansion has.
pub(crate) fn counts(answer: &Answer, into: &mut Counts) -> Code
    ensures { OfExpansion CountsTold into.old into.new answer.now result }
{
    let Answer::Read(expansion) = answer else {
        return Code::Nothing;
    };
    *into = counted(expansion);
    Code::Done
}

/// The printed text, copied to the beginning of the room.
pub(crate) fn printed(answer: &Answer, room: &mut [u8]) -> Code
    ensures { OfExpansion PrintedTold room.old room.new answer.now result }
{
    let Answer::Read(expansion) = answer else {
        return Code::Nothing;
    };
    copy_text(expansion.printed(), room)
}

/// The fault of this index.
pub(crate) fn fault(answer: &Answer, index: usize, into: &mut ToldFault) -> Code
    ensures { OfExpansion (FaultTold index) into.old into.new answer.now result }
{
    let Answer::Read(expansion) = answer else {
        return Code::Nothing;
    };
    match expansion.faults().get(index) {
        Some(fault) => {
            *into = told(*fault);
            Code::Done
        }
        None => Code::Index,
    }
}

/// The reading fault.
pub(crate) fn reading_fault(answer: &Answer, into: &mut ToldFault) -> Code
    ensures { ReadingFaultTold into.old into.new answer.now result }
{
    let Answer::Unread(fault) = answer else {
        return Code::Nothing;
    };
    *into = told_unread(*fault);
    Code::Done
}

/// Where the printed tokens come from in the text, copied to the beginning of the room.
pub(crate) fn origins(answer: &Answer, room: &mut [ByteRange]) -> Code
    ensures { OfExpansion OriginsTold room.old room.new answer.now result }
{
    let Answer::Read(expansion) = answer else {
        return Code::Nothing;
    };
    copy_origins(expansion, room)
}

/// Where the printed tokens are in the printed text, copied to the beginning of the room.
pub(crate) fn ranges(answer: &Answer, room: &mut [ByteRange]) -> Code
    ensures { OfExpansion TokenRangesTold room.old room.new answer.now result }
{
    let Answer::Read(expansion) = answer else {
        return Code::Nothing;
    };
    copy_token_ranges(expansion, room)
}

/// The number of the text that each printed token comes from, copied to the beginning of the room.
pub(crate) fn sources(answer: &Answer, room: &mut [u32]) -> Code
    ensures { OfExpansion SourcesTold room.old room.new answer.now result }
{
    let Answer::Read(expansion) = answer else {
        return Code::Nothing;
    };
    copy_sources(expansion, room)
}

// The line of JSON for an answer of this text.
fn line_of(alloc: Global, text: &str, answer: &Answer) -> Result<String, Code>
    ensures line { IfOk result (λ line. line_of text.now answer.now ≡ Some (string_bytes line)) }
    ensures why { IfErr result (NoLine text.now answer.now) }
{
    if text.len() > 0xffff_ffff {
        return Err(Code::Length);
    }
    let line = match answer {
        Answer::Nothing => return Err(Code::Nothing),
        Answer::Unread(fault) => unread_line(alloc, text, *fault),
        Answer::Read(expansion) => {
            if expansion.printed().len() > 0xffff_ffff {
                return Err(Code::Length);
            }
            expansion_line(alloc, text, expansion)
        }
    };
    match line {
        Ok(line) => Ok(line),
        Err(AllocError) => Err(Code::Memory),
    }
}

/// The last answer as a line of JSON, copied to the beginning of the room, and its length, unless
/// the text was edited since.
pub(crate) fn json(alloc: Global, live: &Live, room: &mut [u8], len: &mut usize) -> Code
    ensures { JsonTold room.old room.new len.old len.new live.now result }
{
    if !live.is_current {
        return Code::Nothing;
    }
    match line_of(alloc, live.session.text(), &live.answer) {
        Ok(line) => {
            *len = line.len();
            copy_text(line.as_str(), room)
        }
        Err(code) => code,
    }
}

//! Writes answers as text.
ghost use Rattle.std.specs.Prelude.{◌≡◌, ◌<◌, ◌++◌, OnOk, get_or, length, string_bytes};
ghost use Rattle.tt_data.specs.declared.span.TextRange.{TextRange};
ghost use Rattle.replay_script.specs.Told.{answer_told, command_told, expansion_told, fault_lines};
ghost use Rattle.replay_script.specs.Told.{kind_name, origin_line, origin_lines, place_line};
ghost use Rattle.replay_script.specs.Told.{read_kind_name, refusal_name, refused_told, unread_told};
ghost use Rattle.replay_script.specs.Told.{wrong_words};

use crate::answer::LineAnswer;
use crate::line::Wrong;
use expander::{
    Answer, Expansion, Fault, FaultKind, Origin, ReadFault, ReadFaultKind, Refusal, Reply,
    TextRange,
};
use std::alloc::AllocError;

/// The name of a kind of fault.
pub fn kind_name(kind: FaultKind) -> &'static str
    ensures { result.now ≡ kind_name kind }
{
    match kind {
        FaultKind::CannotExpand => "CannotExpand",
        FaultKind::BrokenDefinition => "BrokenDefinition",
        FaultKind::RecursionLimit => "RecursionLimit",
        FaultKind::NestedDefinition => "NestedDefinition",
        FaultKind::Unspellable => "Unspellable",
        FaultKind::TooLarge => "TooLarge",
    }
}

/// The name of a kind of reading fault.
pub fn read_kind_name(kind: ReadFaultKind) -> &'static str
    ensures { result.now ≡ read_kind_name kind }
{
    match kind {
        ReadFaultKind::BadToken => "BadToken",
        ReadFaultKind::CloserDoesNotFit => "CloserDoesNotFit",
        ReadFaultKind::GroupLeftOpen => "GroupLeftOpen",
    }
}

/// The name of a refusal.
pub fn refusal_name(refusal: Refusal) -> &'static str
    ensures { result.now ≡ refusal_name refusal }
{
    match refusal {
        Refusal::Memory => "Memory",
        Refusal::Tokens => "Tokens",
        Refusal::Numbers => "Numbers",
    }
}

/// The words for what is wrong with a line.
pub fn wrong_words(wrong: Wrong) -> &'static str
    ensures { result.now ≡ wrong_words wrong }
{
    match wrong {
        Wrong::LineFeed => "no line feed ends it",
        Wrong::Utf8 => "it is not UTF-8",
        Wrong::CarriageReturn => "it has a carriage return, which a replacement writes \\r",
        Wrong::Command => {
            "it is no `expand`, `edit START END REPLACEMENT`, `source N HOME TEXT` or `prelude WORD..`"
        }
        Wrong::Start => "no number and a space come after `edit`",
        Wrong::End => "no number and a space come after START",
        Wrong::Replacement => "in REPLACEMENT, n, r or a backslash comes after each backslash",
        Wrong::Number => "no number from 1 to 4294967295 and a space come after `source`",
        Wrong::Home => "neither `-` nor ROOT@EDITION and a space come after N",
        Wrong::Text => "in TEXT, n, r or a backslash comes after each backslash",
        Wrong::TooLong => "TEXT has more than 4294967295 bytes",
        Wrong::Pick => "after `prelude`, N or N:I,I.. comes after each space",
    }
}

// Adds a line with a word, a name and a range.
fn push_place(told: &mut String, what: &str, name: &str, place: TextRange) -> Result<(), AllocError>
    ensures { OnOk result (string_bytes told.new
        ≡ string_bytes told.old ++ place_line what.now name.now place) }
{
    let TextRange { start, end } = place;
    writeln!(told, "{what} {name} {start} {end}")
}

// Adds a line for each fault.
fn push_faults(told: &mut String, faults: &[Fault]) -> Result<(), AllocError>
    ensures { OnOk result (string_bytes told.new
        ≡ string_bytes told.old ++ fault_lines faults.now) }
{
    for fault in faults {
        push_place(told, "fault", kind_name(fault.kind), fault.range)?;
    }
    Ok(())
}

// Adds the line of an origin.
fn push_origin(told: &mut String, origin: Origin) -> Result<(), AllocError>
    ensures { OnOk result (string_bytes told.new
        ≡ string_bytes told.old ++ origin_line origin.range origin.text) }
{
    let Origin { text, range } = origin;
    let TextRange { start, end } = range;
    if text == 0 {
        writeln!(told, "origin {start} {end}")
    } else {
        writeln!(told, "origin {start} {end} in {text}")
    }
}

// Adds the line of a printed token's origin.
fn push_origin_of(told: &mut String, found: &Expansion, i: usize) -> Result<(), AllocError>
    requires { i < length found.now.origins }
    ensures told { (place : TextRange) → OnOk result (string_bytes told.new
        ≡ string_bytes told.old
        ++ origin_line (get_or found.now.origins i place) (get_or found.now.texts i 0)) }
    ensures within { i < length found.now.texts }
{
    match found.source(i) {
        Some(origin) => push_origin(told, origin),
        None => Ok(()),
    }
}

// Adds a line for each origin.
fn push_origins(told: &mut String, found: &Expansion) -> Result<(), AllocError>
    ensures { OnOk result (string_bytes told.new
        ≡ string_bytes told.old ++ origin_lines found.now.origins found.now.texts) }
{
    for i in 0..found.tokens() {
        push_origin_of(told, found, i)?;
    }
    Ok(())
}

// Adds the lines of an expansion.
fn push_expansion(told: &mut String, found: &Expansion, origins: bool) -> Result<(), AllocError>
    ensures { OnOk result (string_bytes told.new
        ≡ string_bytes told.old ++ expansion_told origins found.now) }
{
    let printed = found.printed();
    let len = printed.len();
    writeln!(told, "printed {len}")?;
    told.push_str(printed)?;
    push_faults(told, found.faults())?;
    let expanded = found.expanded();
    writeln!(told, "expanded {expanded}")?;
    if origins {
        push_origins(told, found)?;
    }
    Ok(())
}

// Adds the line of a reading fault.
fn push_unread(told: &mut String, fault: ReadFault) -> Result<(), AllocError>
    ensures { OnOk result (string_bytes told.new ≡ string_bytes told.old ++ unread_told fault) }
{
    push_place(told, "unread", read_kind_name(fault.kind), fault.range)
}

// Adds the line of a refusal.
fn push_refused(told: &mut String, refusal: Refusal) -> Result<(), AllocError>
    ensures { OnOk result (string_bytes told.new ≡ string_bytes told.old ++ refused_told refusal) }
{
    let name = refusal_name(refusal);
    writeln!(told, "refused {name}")
}

// Adds the lines of an answer to a command.
fn push_command(told: &mut String, answer: &Answer, origins: bool) -> Result<(), AllocError>
    ensures { OnOk result (string_bytes told.new
        ≡ string_bytes told.old ++ command_told origins answer.now) }
{
    match answer {
        Answer::Edited => told.push_str("edited\n"),
        Answer::BadEdit => told.push_str("bad edit\n"),
        Answer::Reply(Reply::Read(found)) => push_expansion(told, found, origins),
        Answer::Reply(Reply::Unread(fault)) => push_unread(told, *fault),
        Answer::Refused(refusal) => push_refused(told, *refusal),
    }
}

/// Adds the lines of an answer.
pub(crate) fn push_answer(
    told: &mut String,
    answer: &LineAnswer,
    origins: bool,
) -> Result<(), AllocError>
    ensures { OnOk result (string_bytes told.new
        ≡ string_bytes told.old ++ answer_told origins answer.now) }
{
    match answer {
        LineAnswer::Command(answer) => push_command(told, answer, origins),
        LineAnswer::Source {
            number,
            definitions,
        } => writeln!(told, "source {number} {definitions}"),
        LineAnswer::Unread { fault, .. } => push_unread(told, *fault),
        LineAnswer::Prelude(count) => writeln!(told, "prelude {count}"),
        LineAnswer::BadPrelude => told.push_str("bad prelude\n"),
        LineAnswer::Refused(refusal) => push_refused(told, *refusal),
    }
}

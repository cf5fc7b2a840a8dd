//! The lines in which a run reports its faults.
ghost use Rattle.std.specs.Prelude.{◌≡◌, ◌++◌, ℕ, ◌≤◌, ◌<◌, ◌^◌, length, string_bytes, IfOk, OnOk};
ghost use Rattle.expander_run.specs.Lines.{column_at, fault_lines, fault_words, line, line_at};
ghost use Rattle.expander_run.specs.Lines.{line_of, read_fault_words, refusal_words, report};
ghost use Rattle.expander_run.specs.Lines.{stop_line};
ghost use Rattle.expander_run.specs.Lines.{stop_words};
ghost use Rattle.expander_run.specs.Spots.{IsSpot};

use crate::stop::Stop;
use bridge::ReadFaultKind;
use expander_model::fault::{Fault, FaultKind};
use expander_session::expander_scope::refusal::Refusal;
use expander_session::session::Reply;
use memchr::memchr;
use std::alloc::{AllocError, Global};

/// A position in a text: its byte, from 0, and its line and byte column, from 1.
#[derive(Clone, Copy)]
pub struct Spot {
    pub at: usize,
    pub line: usize,
    pub column: usize,
}

/// The position at which a text begins.
pub const FIRST: Spot = Spot {
    at: 0,
    line: 1,
    column: 1,
};

// The position past the next line feed, or that of byte `to` if none comes before it.
fn past_line(text: &[u8], from: Spot, to: usize) -> Spot
    requires short { length text.now < 2 ^ 32 }
    requires from { IsSpot text.now from }
    requires before { from.at < to }
    requires inside { to ≤ length text.now }
    ensures spot { IsSpot text.now result }
    ensures on { from.at < result.at }
    ensures up_to { result.at ≤ to }
{
    match memchr(b'\n', &text[from.at..to]) {
        Some(n) => Spot {
            at: from.at + n + 1,
            line: from.line + 1,
            column: 1,
        },
        None => Spot {
            at: to,
            line: from.line,
            column: from.column + (to - from.at),
        },
    }
}

// The position of byte `to`, counted on line by line from an earlier position.
fn walked(text: &[u8], from: Spot, to: usize) -> Spot
    requires short { length text.now < 2 ^ 32 }
    requires from { IsSpot text.now from }
    requires before { from.at ≤ to }
    requires inside { to ≤ length text.now }
    ensures spot { IsSpot text.now result }
    ensures at { result.at ≡ to }
{
    let mut spot = from;
    while spot.at < to {
        spot = past_line(text, spot, to);
    }
    spot
}

/// The position of a byte, counted on from `last` if that is not past it. A byte past the text's
/// end is taken as the end.
pub fn spot_of(text: &[u8], last: Spot, start: u32) -> Spot
    requires short { length text.now < 2 ^ 32 }
    requires last { IsSpot text.now last }
    ensures spot { IsSpot text.now result }
    ensures line { result.line ≡ line_at text.now start }
    ensures column { result.column ≡ column_at text.now start }
{
    let to = text.len().min(start as usize);
    if last.at <= to {
        walked(text, last, to)
    } else {
        walked(text, FIRST, to)
    }
}

/// The words for a fault.
pub fn fault_words(kind: FaultKind) -> &'static str
    ensures { result.now ≡ fault_words kind }
{
    match kind {
        FaultKind::CannotExpand => "no rule matches this call",
        FaultKind::BrokenDefinition => "broken macro definition",
        FaultKind::RecursionLimit => "recursion limit reached",
        FaultKind::NestedDefinition => "macro definition in the output",
        FaultKind::Unspellable => "token without a spelling",
        FaultKind::TooLarge => "the expansion of this call is too large",
    }
}

/// The words for a reading fault.
pub fn read_fault_words(kind: ReadFaultKind) -> &'static str
    ensures { result.now ≡ read_fault_words kind }
{
    match kind {
        ReadFaultKind::BadToken => "bad token",
        ReadFaultKind::CloserDoesNotFit => "closing bracket does not fit",
        ReadFaultKind::GroupLeftOpen => "group left open",
    }
}

/// The words for a refusal of a session.
pub fn refusal_words(refusal: Refusal) -> &'static str
    ensures { result.now ≡ refusal_words refusal }
{
    match refusal {
        Refusal::Memory => "out of memory",
        Refusal::Tokens => "too many tokens",
        Refusal::Numbers => "too many definitions",
    }
}

/// The line that reports why a run stops.
pub(crate) fn stop_line(stop: Stop) -> &'static str
    ensures { result.now ≡ stop_line stop }
{
    match stop {
        Stop::NotUtf8 => "input is not UTF-8\n",
        Stop::TooLong => "input is too long\n",
        Stop::ReadFailed => "read failed\n",
        Stop::WriteFailed => "write failed\n",
        Stop::Refused(Refusal::Memory) => "out of memory\n",
        Stop::Refused(Refusal::Tokens) => "too many tokens\n",
        Stop::Refused(Refusal::Numbers) => "too many definitions\n",
    }
}

/// Adds a line: a position, and what is wrong there.
pub fn push_line(lines: &mut String, spot: Spot, what: &str) -> Result<(), AllocError>
    ensures { OnOk result (string_bytes lines.new ≡ string_bytes lines.old
        ++ line spot.line spot.column what.now) }
{
    let Spot {
        line,
        column,
        at: _,
    } = spot;
    writeln!(lines, "line {line}, byte column {column}: {what}")
}

// A line for each fault. Each position is counted on from the one before it.
fn fault_lines(alloc: Global, text: &str, faults: &[Fault]) -> Result<String, AllocError>
    requires { length text.now < 2 ^ 32 }
    ensures { IfOk result (λ lines. string_bytes lines ≡ fault_lines text.now faults.now) }
{
    let mut lines = String::new(alloc);
    let mut spot = FIRST;
    for fault in faults {
        spot = spot_of(text.as_bytes(), spot, fault.range.start);
        push_line(&mut lines, spot, fault_words(fault.kind))?;
    }
    Ok(lines)
}

/// The lines that report the faults of a reply.
pub(crate) fn report(alloc: Global, text: &str, reply: &Reply) -> Result<String, AllocError>
    requires { length text.now < 2 ^ 32 }
    ensures { IfOk result (λ told. string_bytes told ≡ report text.now reply.now) }
{
    match reply {
        Reply::Read(expansion) => fault_lines(alloc, text, expansion.faults()),
        Reply::Unread(fault) => {
            let mut told = String::new(alloc);
            let spot = spot_of(text.as_bytes(), FIRST, fault.range.start);
            push_line(&mut told, spot, read_fault_words(fault.kind))?;
            Ok(told)
        }
    }
}

//! Lines for what a script asks for beside expansions.
ghost use Rattle.std.specs.Prelude.{◌≡◌, ◌<◌, ◌^◌, IfOk, length, string_bytes};
ghost use Rattle.serde_json.specs.Written.{compact_text};
ghost use Rattle.serde_json.specs.View.{view};
ghost use Rattle.reply_json.specs.Lines.{bare, prelude, source_read, source_unread, too_long};

use crate::faults::read_kind_name;
use bridge::ReadFault;
use call_json::place_from;
use expander_run::lines::read_fault_words;
use line_index::{BEGIN, spot_at};
use serde_json::{Value, json};
use std::alloc::{AllocError, Global};

// The value of an answer that says no more than its name.
fn bare_value(alloc: Global, name: &str) -> Result<Value, AllocError>
    ensures { IfOk result (λ v. view v ≡ bare name.now) }
{
    json!(in alloc; {
        "answer": name,
        "v": 1
    })
}

/// The line, without a line feed, of an answer that says no more than its name.
pub fn bare_line(alloc: Global, name: &str) -> Result<String, AllocError>
    ensures { IfOk result (λ line. string_bytes line ≡ compact_text (bare name.now)) }
{
    bare_value(alloc, name)?.to_string(alloc)
}

// The value of a printed text that is too long for places.
fn too_long_value(alloc: Global) -> Result<Value, AllocError>
    ensures { IfOk result (λ v. view v ≡ too_long) }
{
    json!(in alloc; {
        "answer": "refused",
        "message": "the printed text is too long",
        "v": 1
    })
}

/// The line, without a line feed, that says that a printed text has more than `u32::MAX` bytes.
pub fn too_long_line(alloc: Global) -> Result<String, AllocError>
    ensures { IfOk result (λ line. string_bytes line ≡ compact_text too_long) }
{
    too_long_value(alloc)?.to_string(alloc)
}

// The value of a source that was read.
fn source_value(alloc: Global, number: u32, definitions: usize) -> Result<Value, AllocError>
    ensures { IfOk result (λ v. view v ≡ source_read number definitions) }
{
    json!(in alloc; {
        "answer": "source",
        "definitions": definitions,
        "source": number,
        "v": 1
    })
}

/// The line, without a line feed, of a source of this number with so many definitions.
pub fn source_line(alloc: Global, number: u32, definitions: usize) -> Result<String, AllocError>
    ensures { IfOk result (λ line. string_bytes line
        ≡ compact_text (source_read number definitions)) }
{
    source_value(alloc, number, definitions)?.to_string(alloc)
}

// The value that says why a text cannot be read as a source.
fn source_unread_value(
    alloc: Global,
    number: u32,
    text: &str,
    it: ReadFault,
) -> Result<Value, AllocError>
    requires { length text.now < 2 ^ 32 }
    ensures { IfOk result (λ v. view v ≡ source_unread number text.now it) }
{
    let start = spot_at(text, BEGIN, it.range.start as usize);
    let at = place_from(alloc, text, start, it.range)?;
    json!(in alloc; {
        "answer": "unread",
        "at": at,
        "kind": read_kind_name(it.kind),
        "message": read_fault_words(it.kind),
        "source": number,
        "v": 1
    })
}

/// The line, without a line feed, that says why a text of at most `u32::MAX` bytes cannot be read
/// as a source of this number.
pub fn source_unread_line(
    alloc: Global,
    number: u32,
    text: &str,
    it: ReadFault,
) -> Result<String, AllocError>
    requires { length text.now < 2 ^ 32 }
    ensures { IfOk result (λ line. string_bytes line
        ≡ compact_text (source_unread number text.now it)) }
{
    source_unread_value(alloc, number, text, it)?.to_string(alloc)
}

// The value of a prelude.
fn prelude_value(alloc: Global, definitions: usize) -> Result<Value, AllocError>
    ensures { IfOk result (λ v. view v ≡ prelude definitions) }
{
    json!(in alloc; {
        "answer": "prelude",
        "definitions": definitions,
        "v": 1
    })
}

/// The line, without a line feed, of a prelude with so many definitions that are seen by their
/// names.
pub fn prelude_line(alloc: Global, definitions: usize) -> Result<String, AllocError>
    ensures { IfOk result (λ line. string_bytes line ≡ compact_text (prelude definitions)) }
{
    prelude_value(alloc, definitions)?.to_string(alloc)
}

//! Expands the call at a place of a text alone.
ghost use Rattle.std.specs.Prelude.{◌<◌, ◌^◌, length};

use crate::layout::laid_out;
use crate::place::{Place, byte_at};
use any_grammar::AnyGrammar;
use call_expansion::answer::Called;
use call_expansion::text_call::{CallOptions, Found, call_in_text};
use expander::{Options, Prelude, Watched};
use expander_run::lines::{FIRST, fault_words, push_line, read_fault_words, spot_of};
use expander_run::program::put;
use program_files::stopped;
use std::alloc::AllocError;
use std::io;
use std::process::ExitCode;
use tt_data::TtFault;

/// Reports what is wrong at a byte of a text. The status is 1.
pub(crate) fn told(rt: &HostRuntime, text: &str, at: u32, what: &str) -> io::Result<ExitCode>
    requires { length text.now < 2 ^ 32 }
{
    let mut line = String::new(rt.alloc());
    push_line(&mut line, spot_of(text.as_bytes(), FIRST, at), what)?;
    eprint!(rt; "{line}")?;
    Ok(ExitCode::FAILURE)
}

// Prints the tokens of a call, laid out or not. `false` if that fails.
fn put_tokens(rt: &HostRuntime, printed: &str, layout: bool) -> Result<bool, AllocError> {
    let mut writer = Watched::new(rt.stdout());
    if layout {
        let laid = laid_out(rt.alloc(), printed.as_bytes())?;
        return Ok(put(&mut writer, laid.as_bytes()));
    }
    Ok(put(&mut writer, printed.as_bytes()))
}

// Prints the tokens of a call, and reports its faults, or why it stays. The status is 0 if it is
// replaced and has no fault, else 1.
fn show(rt: &HostRuntime, text: &str, called: &Called, layout: bool) -> io::Result<ExitCode>
    requires { length text.now < 2 ^ 32 }
{
    let name = called.place.name.start;
    let mut status = ExitCode::SUCCESS;
    if let Some(printed) = &called.gives {
        if !put_tokens(rt, printed.text.as_str(), layout)? {
            return stopped(rt, "write failed");
        }
    } else if called.faults.is_empty() {
        return told(rt, text, name, "no definition of this macro is known here");
    }
    for kind in &called.faults {
        status = told(rt, text, name, fault_words(*kind))?;
    }
    Ok(status)
}

/// By what the calls of a text are expanded.
pub(crate) fn call_options(options: &Options<AnyGrammar>) -> CallOptions<'_, AnyGrammar> {
    CallOptions {
        grammar: &options.grammar,
        edition: options.edition,
        dialect: &options.dialect,
        depth: options.depth,
    }
}

// Answers for the call at a byte of a text.
fn answer(
    rt: &HostRuntime,
    options: &Options<AnyGrammar>,
    prelude: &Prelude,
    text: &str,
    at: u32,
    layout: bool,
) -> io::Result<ExitCode>
    requires { length text.now < 2 ^ 32 }
{
    let by = call_options(options);
    match call_in_text(rt.alloc(), text, &by, prelude, at) {
        Ok(Found::Call(called)) => show(rt, text, &called, layout),
        Ok(Found::Nothing) => told(rt, text, at, "no call is here"),
        Ok(Found::Unread(fault)) => {
            told(rt, text, fault.range.start, read_fault_words(fault.kind))
        }
        Err(TtFault::Tokens) => stopped(rt, "too many tokens"),
        Err(_) => stopped(rt, "out of memory"),
    }
}

/// Expands a text after these definitions, and prints what comes of the call at a place: of the
/// outermost there that is replaced or has a fault, or else of the innermost, which stays.
///
/// The status is 0 if the call is replaced and has no fault. Else it is 1, and a line on standard
/// error says why.
pub(crate) fn expand_call(
    rt: &HostRuntime,
    options: &Options<AnyGrammar>,
    prelude: &Prelude,
    text: &[u8],
    place: Place,
    layout: bool,
) -> io::Result<ExitCode> {
    let Ok(text) = std::str::from_utf8(text) else {
        return stopped(rt, "input is not UTF-8");
    };
    if text.len() > u32::MAX as usize {
        return stopped(rt, "input is too long");
    }
    let Some(at) = byte_at(text, place) else {
        return stopped(rt, "the text has no such place");
    };
    match u32::try_from(at) {
        Ok(at) => answer(rt, options, prelude, text, at, layout),
        Err(_) => stopped(rt, "the text has no such place"),
    }
}

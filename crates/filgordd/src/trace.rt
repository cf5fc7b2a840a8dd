//! Shows the steps of the calls of a text.
ghost use Rattle.std.specs.Prelude.{◌<◌, ◌^◌, length};

use crate::call::{call_options, told};
use crate::place::{Place, byte_at, line_range};
use any_grammar::AnyGrammar;
use bridge::ReadFault;
use expander::{Options, Refusal, Watched};
use expander_run::lines::{read_fault_words, refusal_words};
use expander_run::program::put;
use program_files::{Others, stopped};
use reply_json::{refused_line, unread_line};
use std::io;
use std::process::ExitCode;
use step_report::{Answer, Asked, Form, Limits, Lines, Question, Texts, answer_to};

// How many tokens rules may put out for the steps.
const MOST_TOKENS: u32 = 1_000_000;

// How many steps are traced where no number is named.
const MOST_STEPS: usize = 10_000;

/// How many steps are traced at most, by the word for it.
pub(crate) fn most_steps(word: Option<&str>) -> usize {
    match word {
        Some(word) => word.parse::<usize>().unwrap_or(MOST_STEPS),
        None => MOST_STEPS,
    }
}

/// Which steps are shown, and how.
#[derive(Clone, Copy)]
pub(crate) struct Steps<'a> {
    /// The name of the text's file.
    pub(crate) file: &'a str,
    /// Where the calls are. Without a place all are traced.
    pub(crate) place: Option<Place>,
    /// How many steps are traced at most.
    pub(crate) most: usize,
    /// Whether they are told as JSON.
    pub(crate) json: bool,
}

// Which calls are asked for by a place of a text, if it has the place.
fn asked_of(text: &str, place: Option<Place>) -> Option<Asked> {
    let Some(place) = place else {
        return Some(Asked::All);
    };
    if place.column.is_none() {
        return Some(Asked::In(line_range(text, place.line)?));
    }
    Some(Asked::At(u32::try_from(byte_at(text, place)?).ok()?))
}

// What a number of steps and a form ask of calls.
fn question_of(asked: Asked, steps: &Steps<'_>) -> Question {
    let limits = Limits {
        steps: steps.most,
        tokens: MOST_TOKENS,
    };
    let form = if steps.json { Form::Json } else { Form::Text };
    Question {
        asked,
        limits,
        form,
    }
}

// Prints a text. The status is 1 if that fails or the text tells of a fault, else 0.
fn printed(rt: &HostRuntime, text: &str, is_faulty: bool) -> io::Result<ExitCode> {
    let mut writer = Watched::new(rt.stdout());
    if !put(&mut writer, text.as_bytes()) {
        return stopped(rt, "write failed");
    }
    Ok(if is_faulty {
        ExitCode::FAILURE
    } else {
        ExitCode::SUCCESS
    })
}

// Whether lines tell of nothing. Those of JSON have a last one in any case.
fn is_silent(text: &str, json: bool) -> bool {
    if json {
        return text.find("\n") == text.rfind("\n");
    }
    text.is_empty()
}

// Prints the lines of steps.
fn show(rt: &HostRuntime, lines: &Lines, steps: &Steps<'_>) -> io::Result<ExitCode> {
    let silent = steps.place.is_some() && is_silent(lines.text.as_str(), steps.json);
    if silent && !steps.json {
        return stopped(rt, "no call is here");
    }
    printed(rt, lines.text.as_str(), lines.stays || silent)
}

// Says why a text cannot be read.
fn unread(rt: &HostRuntime, text: &str, fault: ReadFault, json: bool) -> io::Result<ExitCode>
    requires { length text.now < 2 ^ 32 }
{
    if !json {
        return told(rt, text, fault.range.start, read_fault_words(fault.kind));
    }
    let mut line = unread_line(rt.alloc(), text, fault)?;
    line.push('\n')?;
    printed(rt, line.as_str(), true)
}

// Says why a text is not traced.
fn refused(rt: &HostRuntime, refusal: Refusal, json: bool) -> io::Result<ExitCode> {
    if !json {
        return stopped(rt, refusal_words(refusal));
    }
    let mut line = refused_line(rt.alloc(), refusal)?;
    line.push('\n')?;
    printed(rt, line.as_str(), true)
}

// Shows the steps of calls of a text.
fn answer_for(
    rt: &HostRuntime,
    options: &Options<AnyGrammar>,
    others: &Others,
    steps: &Steps<'_>,
    text: &str,
    asked: Asked,
) -> io::Result<ExitCode>
    requires { length text.now < 2 ^ 32 }
{
    let by = call_options(options);
    let texts = Texts::of(rt.alloc(), steps.file, text, others.names.as_slice())?;
    let question = question_of(asked, steps);
    match answer_to(rt.alloc(), &texts, &by, &others.prelude, question) {
        Ok(Answer::Told(lines)) => show(rt, &lines, steps),
        Ok(Answer::Unread(fault)) => unread(rt, text, fault, steps.json),
        Err(fault) => refused(rt, Refusal::from(fault), steps.json),
    }
}

/// Traces the calls of a text after these definitions, those at a place, or those that begin on a
/// line, and prints what is told of their steps.
///
/// The status is 1 if a call stays for a fault, the text cannot be read, or no call is at the
/// place, else 0.
pub(crate) fn trace(
    rt: &HostRuntime,
    options: &Options<AnyGrammar>,
    others: &Others,
    steps: &Steps<'_>,
    text: &[u8],
) -> io::Result<ExitCode> {
    let Ok(text) = std::str::from_utf8(text) else {
        return stopped(rt, "input is not UTF-8");
    };
    if text.len() > u32::MAX as usize {
        return stopped(rt, "input is too long");
    }
    match asked_of(text, steps.place) {
        Some(asked) => answer_for(rt, options, others, steps, text, asked),
        None => stopped(rt, "the text has no such place"),
    }
}

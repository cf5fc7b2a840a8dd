//! Answers by a line of JSON.
ghost use Rattle.std.specs.Prelude.{◌<◌, ◌^◌, length};

use crate::explain::{asked_faults, tree_of};
use crate::place::Place;
use crate::view::reply_of;
use any_grammar::AnyGrammar;
use expander::{Edition, Expansion, Fault, Options, Prelude, Refusal, Reply, Watched};
use expander_run::program::put;
use program_files::stopped;
use reply_json::{
    Question, expansion_line, explanation_line, refused_line, too_long_line, unread_line,
};
use std::alloc::{AllocError, Global};
use std::io;
use std::process::ExitCode;
use tt_data::TtFault;

/// What a line says of a text.
#[derive(Clone, Copy)]
pub(crate) enum Asked {
    /// Its expansion.
    Expansion,
    /// Why its faults are there, or those at a place.
    Explanation(Option<Place>),
}

// A line, and whether it says of no fault.
type Line = (String, bool);

// The line for an expansion of a text.
fn expansion_of(alloc: Global, text: &str, expansion: &Expansion) -> Result<Line, AllocError>
    requires { length text.now < 2 ^ 32 }
{
    if expansion.printed().len() > u32::MAX as usize {
        return Ok((too_long_line(alloc)?, false));
    }
    let is_faultless = expansion.faults().is_empty();
    Ok((expansion_line(alloc, text, expansion)?, is_faultless))
}

// The line that explains faults of a text.
fn explained(
    alloc: Global,
    language: (AnyGrammar, Edition),
    text: &str,
    faults: &[Fault],
) -> Result<String, TtFault>
    requires { length text.now < 2 ^ 32 }
{
    let tree = match tree_of(alloc, text)? {
        Ok(tree) => tree,
        Err(fault) => return Ok(unread_line(alloc, text, fault)?),
    };
    let (grammar, edition) = language;
    let trees = tree.token_trees();
    let question = Question {
        grammar: &grammar,
        edition,
        text,
        trees,
    };
    explanation_line(alloc, &question, faults)
}

// The line for the reply of a new session over a text after these definitions.
fn line_of(
    alloc: Global,
    options: Options<AnyGrammar>,
    prelude: Prelude,
    text: &str,
    asked: Asked,
) -> Result<Line, AllocError>
    requires { length text.now < 2 ^ 32 }
{
    let language = (options.grammar, options.edition);
    let expansion = match reply_of(alloc, options, prelude, text) {
        Ok(Reply::Read(expansion)) => expansion,
        Ok(Reply::Unread(fault)) => return Ok((unread_line(alloc, text, fault)?, false)),
        Err(refusal) => return Ok((refused_line(alloc, refusal)?, false)),
    };
    let Asked::Explanation(place) = asked else {
        return expansion_of(alloc, text, &expansion);
    };
    let faults = asked_faults(alloc, text, expansion.faults(), place)?;
    match explained(alloc, language, text, &faults) {
        Ok(line) => Ok((line, faults.is_empty())),
        Err(fault) => Ok((refused_line(alloc, Refusal::from(fault))?, false)),
    }
}

/// Expands a text after these definitions, and prints one line of JSON that says what is asked. The
/// status is 0 if there is no fault, else 1.
pub(crate) fn answer_as_json(
    rt: &HostRuntime,
    options: Options<AnyGrammar>,
    prelude: Prelude,
    text: &[u8],
    asked: Asked,
) -> io::Result<ExitCode> {
    let Ok(text) = std::str::from_utf8(text) else {
        return stopped(rt, "input is not UTF-8");
    };
    if text.len() > u32::MAX as usize {
        return stopped(rt, "input is too long");
    }
    let (mut line, is_faultless) = line_of(rt.alloc(), options, prelude, text, asked)?;
    line.push('\n')?;
    let mut writer = Watched::new(rt.stdout());
    if !put(&mut writer, line.as_bytes()) {
        return stopped(rt, "write failed");
    }
    Ok(if is_faultless {
        ExitCode::SUCCESS
    } else {
        ExitCode::FAILURE
    })
}

//! The words that the program is called with, read as a request.
ghost use Rattle.std.specs.Prelude.{◌≡◌, IfOk, IfSome, List, [], codes, map, option_map};
ghost use Rattle.std.specs.Prelude.{string_bytes, unwrap_or, ℕ};
ghost use Rattle.clap.specs.Words.{all_of, found_of, rows_of, subcommand_rows_of};
ghost use Rattle.command_line.specs.Commands.{AsksBy, AsksFor, ChosenBy, IsAsked, IsFile};
ghost use Rattle.command_line.specs.Commands.{NamesDiagnostics};

use crate::command::program;
use crate::job::{Action, Diagnostics, Job, action_of, options_of};
use any_grammar::AnyGrammar;
use clap::error::ErrorKind;
use clap::{ArgMatches, Error};
use expander_run::options::Options;
use std::alloc::{AllocError, Global};

/// What the words ask for.
#[derive(Drop)]
pub enum Request<'a> {
    /// Work on a text.
    Work(Job<'a>),
    /// Help, or the version: this text.
    Show(String),
    /// The words are wrong, as the first paragraph of this text says.
    Misuse(String),
}

// The file that a word names; `-` names none.
fn file_of(word: Option<&str>) -> Option<&str>
    ensures { IsFile (option_map (λ s. s.now) word.entry) (option_map (λ s. s.now) result) }
{
    match word {
        Some("-") => None,
        _ => word,
    }
}

// Which diagnostics a word stands for.
fn diagnostics_of(word: Option<&str>) -> Diagnostics
    ensures { NamesDiagnostics (option_map (λ s. s.now) word.entry) result }
{
    match word {
        Some("all") => Diagnostics::All,
        Some("none") => Diagnostics::Nothing,
        _ => Diagnostics::Likely,
    }
}

// What the words of a subcommand choose. `None` where one of them is missing or unknown, which the
// command has refused before.
fn options_in(matches: &ArgMatches<'_>) -> Option<Options<AnyGrammar>>
    ensures { IfSome result (ChosenBy (rows_of (found_of matches.now))) }
{
    let grammar = matches.get_str("grammar")?;
    let edition = matches.get_str("edition")?;
    let scope = matches.get_str("scope")?;
    let depth = matches.get_str("depth")?;
    let calls = matches.get_str("most-calls")?;
    let tokens = matches.get_str("most-tokens")?;
    options_of(grammar, edition, scope, depth, calls, tokens)
}

// The words of an option that may be used any number of times, in order.
fn words_of<'a>(
    alloc: Global,
    matches: &ArgMatches<'a>,
    name: &str,
) -> Result<Vec<&'a str>, AllocError>
    ensures { IfOk result (λ words.
        unwrap_or (all_of name.now (rows_of (found_of matches.now))) []
        ≡ map (λ s. s.now) words.items) }
{
    match matches.get_strs(name) {
        Some(words) => Vec::from_slice(alloc, words),
        None => Ok(Vec::new(alloc)),
    }
}

// What the words of a subcommand ask for, where they choose options.
fn job_of<'a>(
    alloc: Global,
    action: Action,
    matches: &ArgMatches<'a>,
) -> Result<Option<Job<'a>>, AllocError>
    ensures action { IfOk result (λ o. IfSome o (λ job. job.action ≡ action)) }
    ensures words { IfOk result (λ o. IfSome o (AsksBy (rows_of (found_of matches.now)))) }
{
    let Some(options) = options_in(matches) else {
        return Ok(None);
    };
    Ok(Some(Job {
        action,
        options,
        layout: matches.get_flag("layout"),
        json: matches.get_flag("json"),
        apart: matches.get_flag("files"),
        diagnostics: diagnostics_of(matches.get_str("diagnostics")),
        library: matches.get_str("std"),
        with: words_of(alloc, matches, "with")?,
        cfg: words_of(alloc, matches, "cfg")?,
        file: file_of(matches.get_str("file")),
        files: words_of(alloc, matches, "file")?,
        externs: words_of(alloc, matches, "extern")?,
        root: matches.get_str("crate"),
        steps: matches.get_str("to"),
    }))
}

// What the words ask for, by their subcommand.
fn job_in<'a>(alloc: Global, matches: &ArgMatches<'a>) -> Result<Option<Job<'a>>, AllocError>
    ensures { IfOk result (λ o. IfSome o (AsksFor (subcommand_rows_of matches.now))) }
{
    let Some((name, inner)) = matches.subcommand() else {
        return Ok(None);
    };
    match action_of(name) {
        Some(action) => job_of(alloc, action, inner),
        None => Ok(None),
    }
}

// What is answered where the words name no work: help, the version, or why they are wrong.
fn told<'a>(alloc: Global, error: &Error) -> Result<Request<'a>, AllocError>
    ensures { (words : List (List ℕ)) → IfOk result (IsAsked words) }
{
    if error.kind() == ErrorKind::OutOfMemory {
        return Err(AllocError);
    }
    let text = format!(in alloc; "{error}")?;
    if !error.use_stderr() {
        return Ok(Request::Show(text));
    }
    let why = text
        .as_str()
        .strip_prefix("error: ")
        .unwrap_or(text.as_str());
    Ok(Request::Misuse(String::from_str(alloc, why)?))
}

/// What the words ask for; the first of them is the program's name.
pub fn request_of<'a>(alloc: Global, words: &'a [String]) -> Result<Request<'a>, AllocError>
    ensures { IfOk result (IsAsked (map string_bytes words.now)) }
{
    match program(alloc)?.try_get_matches_from(words) {
        Ok(matches) => match job_in(alloc, &matches)? {
            Some(job) => Ok(Request::Work(job)),
            None => Ok(Request::Misuse(String::from_str(alloc, "wrong arguments")?)),
        },
        Err(error) => told(alloc, &error),
    }
}

//! What an editor says of its files when it starts: options, which count in place of words of the
//! command line, and its folder. (LSP 3.17, "Initialize Request".)

use crate::conditions::under;
use crate::uri::path_of;
use any_grammar::AnyGrammar;
use command_line::Job;
use crate_picks::edition_of;
use expander::{Edition, Options};
use program_files::{Ended, misused, opened};
use serde_json::Value;
use std::alloc::{AllocError, Global};

// Where the root of a crate is in the crate's folder.
const ROOTS: [&str; 2] = ["src/lib.rs", "src/main.rs"];

// The parameters of a message, if it asks to initialize.
fn params_of(message: Option<&Value>) -> Option<&Value> {
    let message = message?;
    match message.get("method")?.as_str()? {
        "initialize" => message.get("params"),
        _ => None,
    }
}

// What the options of a message say under this name.
fn option_in<'a>(message: Option<&'a Value>, name: &str) -> Option<&'a Value> {
    params_of(message)?.get("initializationOptions")?.get(name)
}

// The same, if it is a text.
fn text_in<'a>(message: Option<&'a Value>, name: &str) -> Option<&'a str> {
    option_in(message, name)?.as_str()
}

// The texts of a list under this name. Without a list it is these words.
fn texts_in<'a>(
    alloc: Global,
    message: Option<&'a Value>,
    name: &str,
    words: &[&'a str],
) -> Result<Vec<&'a str>, AllocError> {
    let Some(values) = option_in(message, name).and_then(Value::as_array) else {
        return Vec::from_slice(alloc, words);
    };
    let mut texts = Vec::new(alloc);
    for value in values {
        if let Some(text) = value.as_str() {
            texts.push(text)?;
        }
    }
    Ok(texts)
}

// The URI of the folder that a message names, or of the first of several.
fn folder_in(message: Option<&Value>) -> Option<&str> {
    let params = params_of(message)?;
    match params.get("rootUri").and_then(Value::as_str) {
        Some(uri) => Some(uri),
        None => params.get("workspaceFolders")?.get(0)?.get("uri")?.as_str(),
    }
}

// The root of the crate in the folder that a message names, if there is one.
fn root_in(rt: &HostRuntime, message: Option<&Value>) -> Result<Option<String>, AllocError> {
    let Some(uri) = folder_in(message) else {
        return Ok(None);
    };
    let Some(folder) = path_of(rt.alloc(), uri)? else {
        return Ok(None);
    };
    for name in &ROOTS {
        let path = format!(in rt.alloc(); "{folder}/{name}")?;
        if opened(rt, path.as_str()).is_ok() {
            return Ok(Some(path));
        }
    }
    Ok(None)
}

/// An editor's first message, and the root of the crate in the folder that it names.
#[derive(Drop)]
pub(crate) struct Start {
    message: Option<Value>,
    root: Option<String>,
}

impl Start {
    /// With this first message, if there is one.
    pub(crate) fn new(rt: &HostRuntime, message: Option<Value>) -> Result<Start, AllocError> {
        let root = root_in(rt, message.as_ref())?;
        Ok(Start { message, root })
    }
}

// The same options, of this edition.
fn of_edition(options: &Options<AnyGrammar>, edition: Edition) -> Options<AnyGrammar> {
    let mut own = under(options, None);
    own.edition = edition;
    if let AnyGrammar::Rust(_) = own.grammar {
        own.grammar = AnyGrammar::Rust(edition);
    }
    own
}

// The edition that a message names, or else that of the options.
fn edition_in(
    rt: &HostRuntime,
    message: Option<&Value>,
    options: &Options<AnyGrammar>,
) -> Result<Edition, Ended> {
    let Some(name) = text_in(message, "edition") else {
        return Ok(options.edition);
    };
    match edition_of(name) {
        Some(edition) => Ok(edition),
        None => Err(Ended::Status(misused(rt, name, &"no edition")?)),
    }
}

/// A job by an editor's first message, whose options count in place of the job's words. Where
/// neither of them names a root, it is that of the editor's folder.
pub(crate) fn started<'a>(
    rt: &HostRuntime,
    job: &Job<'a>,
    start: &'a Start,
) -> Result<Job<'a>, Ended> {
    let (alloc, message) = (rt.alloc(), start.message.as_ref());
    let root = start.root.as_ref().map(String::as_str);
    let edition = edition_in(rt, message, &job.options)?;
    Ok(Job {
        action: job.action,
        options: of_edition(&job.options, edition),
        layout: job.layout,
        json: job.json,
        apart: job.apart,
        diagnostics: job.diagnostics,
        library: text_in(message, "std").or(job.library),
        with: Vec::from_slice(alloc, job.with.as_slice())?,
        cfg: texts_in(alloc, message, "cfg", job.cfg.as_slice())?,
        file: job.file,
        files: Vec::from_slice(alloc, job.files.as_slice())?,
        externs: texts_in(alloc, message, "extern", job.externs.as_slice())?,
        root: text_in(message, "root").or(job.root).or(root),
        steps: job.steps,
    })
}

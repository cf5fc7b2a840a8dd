//! The program `filgordd`: it expands the macros of a text or of a call, explains the faults of a
//! text, traces its calls, shows the expansion as a page, or answers a script of edits and
//! expansions, or an editor.
#![tactic(auto)]

mod call;
mod conditions;
mod crates;
mod explain;
mod json;
mod layout;
mod open_files;
mod place;
mod progress;
mod server;
mod start;
mod trace;
mod uri;
mod view;
mod warned;
mod warnings;
mod work;

use crate::work::perform;
use command_line::{Request, request_of};
use program_files::{misused, one_line};
use std::process::ExitCode;
use std::{env, io};

// Why the arguments cannot be read.
fn unread(rt: &HostRuntime, error: &io::Error) -> io::Result<ExitCode> {
    if error.kind() == io::ErrorKind::InvalidData {
        let why = "one is not UTF-8; a file of such a name can be standard input";
        return misused(rt, "the arguments", &why);
    }
    misused(rt, "the arguments", error)
}

fn answer_words(rt: &HostRuntime) -> io::Result<ExitCode> {
    let words: Vec<String> = match env::args(rt) {
        Ok(words) => words.collect(rt.alloc())?,
        Err(error) => return unread(rt, &error),
    };
    match request_of(rt.alloc(), words.as_slice())? {
        Request::Work(job) => perform(rt, job),
        Request::Show(text) => {
            print!(rt; "{text}")?;
            Ok(ExitCode::SUCCESS)
        }
        Request::Misuse(why) => {
            let line = one_line(rt.alloc(), why.as_str())?;
            eprintln!(rt; "filgordd: {line}")?;
            Ok(ExitCode::from(2))
        }
    }
}

fn main(rt: HostRuntime) -> ExitCode {
    match answer_words(&rt) {
        Ok(status) => status,
        Err(error) => {
            let _ = eprintln!(&rt; "filgordd: {error}");
            ExitCode::FAILURE
        }
    }
}

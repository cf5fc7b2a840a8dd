//! Serves an editor on the program's streams.

use crate::conditions::{cfg_of, under};
use crate::crates::{CrateTexts, other_words, set_of, walked};
use crate::open_files::OpenFiles;
use crate::start::{Start, started};
use crate::uri::path_of;
use any_grammar::AnyGrammar;
use cfg_options::CfgOptions;
use command_line::{Diagnostics, Job};
use crate_walk::Files;
use expander::{Options, Prelude};
use lsp_server::{First, Stop, read_first};
use program_files::{
    Disk, Ended, Origin, Sources, Whole, names_of, names_of_whole, origin_of, origin_of_whole,
    prelude_of, prelude_of_path, replace_source, replace_text, sources_of, stopped,
};
use session_workspace::{Elsewhere, Setup, Shown, end_words, serve_texts};
use std::alloc::{AllocError, Global};
use std::io::Read;
use std::process::ExitCode;
use tt_data::{TextRange, TtFault};

// The files whose definitions an editor's texts are expanded after.
#[derive(Drop)]
enum Given {
    Sources(Sources),
    Crate(Whole),
}

// By what an editor's texts are expanded: a job's options, and files.
#[derive(Drop)]
struct Texts<'a> {
    rt: &'a HostRuntime,
    job: &'a Job<'a>,
    disk: Disk<'a>,
    given: Given,
    open: OpenFiles,
}

impl Given {
    // The file that the source of this index, from 0, comes from.
    fn origin(&self, index: usize) -> Option<Origin<'_>> {
        match self {
            Given::Sources(sources) => origin_of(sources, index),
            Given::Crate(whole) => origin_of_whole(whole, index),
        }
    }
}

impl Texts<'_> {
    // Has the file of this path have this text, or its own.
    fn replace_file(&mut self, path: &str, text: Option<&str>) -> Result<bool, Ended> {
        let (rt, job) = (self.rt, self.job);
        match &mut self.given {
            Given::Sources(sources) => replace_source(rt, &self.disk, sources, path, text),
            Given::Crate(whole) => {
                let expands = CrateTexts { rt, job };
                replace_text(rt, &self.disk, whole, path, text, &expands)
            }
        }
    }

    // The name of a file that definitions come from.
    fn name_of(&self, alloc: Global, origin: Origin<'_>) -> Result<Option<String>, AllocError> {
        let name = origin.name;
        match self.job.library {
            Some(folder) if origin.is_library => {
                let path = format!(in alloc; "{folder}/{name}")?;
                self.disk.find(alloc, path.as_str())
            }
            _ => self.disk.find(alloc, name),
        }
    }
}

impl Setup for Texts<'_> {
    // Which definitions are the right ones is not said.
    ghost gives = { λ _ _ _. Unit {0} };

    fn options(&self, alloc: Global) -> Result<Options<AnyGrammar>, AllocError> {
        let words = self.job.cfg.as_slice();
        let cfg = match (cfg_of(alloc, words)?.unwrap_or(None), &self.given) {
            (None, Given::Crate(_)) => Some(CfgOptions::new(alloc)),
            (cfg, _) => cfg,
        };
        let mut options = under(&self.job.options, cfg);
        options.dialect.excuses &= self.job.diagnostics != Diagnostics::All;
        Ok(options)
    }

    fn prelude(&self, alloc: Global, uri: &str) -> Result<Prelude, TtFault> {
        match (&self.given, path_of(alloc, uri)?) {
            (Given::Sources(sources), _) => prelude_of(alloc, sources),
            (Given::Crate(whole), path) => {
                let path = path.as_ref().map_or("", String::as_str);
                prelude_of_path(alloc, &self.disk, whole, path)
            }
        }
    }

    fn replace(
        &mut self,
        alloc: Global,
        uri: &str,
        text: Option<&str>,
    ) -> Result<bool, AllocError> {
        let Some(path) = path_of(alloc, uri)? else {
            return Ok(false);
        };
        let path = path.as_str();
        if let Some(name) = self.disk.find(alloc, path)? {
            self.open.set(alloc, name.as_str(), uri, text)?;
        }
        match self.replace_file(path, text) {
            Ok(changed) => Ok(changed),
            Err(_) => Err(AllocError),
        }
    }

    fn names(&self, alloc: Global) -> Result<Vec<String>, AllocError> {
        match &self.given {
            Given::Sources(sources) => names_of(alloc, sources),
            Given::Crate(whole) => names_of_whole(alloc, whole),
        }
    }

    fn elsewhere(
        &self,
        alloc: Global,
        number: u32,
        range: TextRange,
    ) -> Result<Option<Elsewhere>, AllocError> {
        let Some(origin) = self.given.origin((number as usize).saturating_sub(1)) else {
            return Ok(None);
        };
        let Some(name) = self.name_of(alloc, origin)? else {
            return Ok(None);
        };
        let found = self
            .open
            .elsewhere(alloc, name.as_str(), origin.text, range)?;
        Ok(Some(found))
    }
}

// What a run comes to: its status, reported where the editor did not ask to shut down.
fn status_of(rt: &HostRuntime, end: Result<bool, Stop>) -> Result<ExitCode, Ended> {
    match end_words(end) {
        None => Ok(ExitCode::SUCCESS),
        Some(why) => Ok(stopped(rt, why)?),
    }
}

// By what an editor's texts are expanded, by a job whose options for `cfg` are in this set.
fn texts_of<'a>(
    rt: &'a HostRuntime,
    job: &'a Job<'a>,
    set: &'a CfgOptions,
) -> Result<Texts<'a>, Ended> {
    let disk = Disk { rt, options: set };
    let given = match job.root {
        Some(root) => Given::Crate(walked(rt, job, &disk, root)?),
        None => Given::Sources(sources_of(rt, other_words(job))?),
    };
    Ok(Texts {
        rt,
        job,
        disk,
        given,
        open: OpenFiles::new(rt.alloc()),
    })
}

// Serves an editor by a job, on this input.
fn serve<R: Read>(rt: &HostRuntime, job: &Job<'_>, reader: &mut R) -> Result<ExitCode, Ended> {
    let set = set_of(rt, job)?;
    let texts = texts_of(rt, job, &set)?;
    let shown = match job.diagnostics {
        Diagnostics::Nothing => Shown::Nothing,
        _ => Shown::All,
    };
    let mut writer = rt.stdout();
    let end = serve_texts(rt.alloc(), reader, &mut writer, texts, shown);
    status_of(rt, end)
}

// Serves an editor on this input by a job, and by how the editor starts.
fn serve_started<'a, R: Read>(
    rt: &HostRuntime,
    job: &'a Job<'a>,
    start: &'a Start,
    reader: &mut R,
) -> Result<ExitCode, Ended> {
    let own = started(rt, job, start)?;
    serve(rt, &own, reader)
}

/// Serves an editor by a job, and by what its first message says in place of the job's words. The
/// status is 0 only if the editor asked to shut down, and 2 where a word for `cfg` names no option,
/// a word no edition, or a file cannot be read.
pub(crate) fn serve_editor(rt: &HostRuntime, job: &Job<'_>) -> Result<ExitCode, Ended> {
    let mut input = rt.stdin();
    let First { bytes, message } = match read_first(rt.alloc(), &mut input) {
        Ok(first) => first,
        Err(stop) => return status_of(rt, Err(stop)),
    };
    let start = Start::new(rt, message)?;
    let mut reader = bytes.as_slice().chain(input);
    serve_started(rt, job, &start, &mut reader)
}

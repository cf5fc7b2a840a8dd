//! Does a job on a crate, or on files of it.
ghost use Rattle.std.specs.Prelude.{◌<◌, ◌^◌, length};

use crate::conditions::{cfg_of, under};
use crate::layout::{Run, laid_out, run_in_memory};
use crate::progress::Progress;
use crate::view::reply_of;
use crate::warnings::warn;
use any_grammar::AnyGrammar;
use cfg_options::CfgOptions;
use command_line::{Action, Job};
use crate_walk::{Content, Event, FileText};
use expander::{Expansion, Options, Prelude, Refusal, Reply, Watched};
use expander_run::lines::{read_fault_words, refusal_words};
use expander_run::program::put;
use program_files::{
    Chosen, Disk, Ended, Expands, OtherWords, Whole, chosen_files, code_in, fault_lines,
    fault_words, file_text, listed, misused, opened, prelude_of_file, push_shown, refusal, refused,
    tell_lacks, tell_written, whole_from,
};
use std::alloc::{AllocError, Global};
use std::process::ExitCode;
use std::{env, io};

// How many levels of calls are expanded where it is asked which modules calls hand on.
const MOST_LEVELS: u8 = 128;

/// The words of a job for what else is read.
pub(crate) fn other_words<'a>(job: &'a Job<'_>) -> OtherWords<'a> {
    OtherWords {
        library: job.library,
        with: job.with.as_slice(),
        externs: job.externs.as_slice(),
    }
}

/// The set of the options that a job's words for `cfg` name: an empty one without a word.
pub(crate) fn set_of(rt: &HostRuntime, job: &Job<'_>) -> Result<CfgOptions, Ended> {
    match cfg_of(rt.alloc(), job.cfg.as_slice())? {
        Ok(Some(set)) => Ok(set),
        Ok(None) => Ok(CfgOptions::new(rt.alloc())),
        Err(word) => Err(Ended::Status(misused(rt, word, &"no option for cfg")?)),
    }
}

// The options of a job, for one more text.
fn options_of(rt: &HostRuntime, job: &Job<'_>) -> Result<Options<AnyGrammar>, Ended> {
    let set = set_of(rt, job)?;
    Ok(under(&job.options, Some(set)))
}

/// What expands the texts of a crate by a job's options, as many levels deep as they may be.
#[derive(Drop)]
pub(crate) struct CrateTexts<'a> {
    pub(crate) rt: &'a HostRuntime,
    pub(crate) job: &'a Job<'a>,
}

impl Expands for CrateTexts<'_> {
    fn expansion(&self, prelude: Prelude, text: &str) -> Result<Option<Expansion>, Ended> {
        let mut options = options_of(self.rt, self.job)?;
        options.depth = MOST_LEVELS;
        match reply_of(self.rt.alloc(), options, prelude, text) {
            Ok(Reply::Read(expansion)) => Ok(Some(expansion)),
            Err(Refusal::Memory) => Err(Ended::from(AllocError)),
            _ => Ok(None),
        }
    }
}

// The folder in which the program runs, or nothing where that is not told.
fn folder_of(rt: &HostRuntime) -> Result<String, Ended> {
    match env::current_dir(rt) {
        Ok(folder) => Ok(folder.into_string()),
        Err(_) => Ok(String::new(rt.alloc())),
    }
}

// Reports the faults of a run, each with the name of its file.
fn tell_faults(rt: &HostRuntime, shown: &str, told: &[u8]) -> io::Result<()> {
    let told = String::from_utf8_lossy(rt.alloc(), told)?;
    let mut name = String::new(rt.alloc());
    push_shown(&mut name, shown)?;
    for line in told.as_str().lines() {
        eprintln!(rt; "{name}: {line}")?;
    }
    Ok(())
}

// The line with the name of a file where there are several, each by itself, and else nothing.
fn head_of(alloc: Global, job: &Job<'_>, shown: &str) -> Result<String, AllocError> {
    let mut line = String::new(alloc);
    if job.files.len() != 1 && !is_whole(job) {
        line.push_str("// ")?;
        push_shown(&mut line, shown)?;
        line.push('\n')?;
    }
    Ok(line)
}

// Whether these bytes were written.
fn written(rt: &HostRuntime, bytes: &[u8]) -> bool {
    let mut writer = Watched::new(rt.stdout());
    put(&mut writer, bytes)
}

// Prints a text that was printed, laid out where that is asked for. Answers whether it was written.
fn print_text(rt: &HostRuntime, job: &Job<'_>, printed: &[u8]) -> io::Result<bool> {
    if job.layout {
        let laid = laid_out(rt.alloc(), printed)?;
        return Ok(written(rt, laid.as_bytes()));
    }
    Ok(written(rt, printed))
}

// Prints what a run printed, behind a line with the name of its file where there are several.
// Answers whether it was written.
fn print_run(rt: &HostRuntime, job: &Job<'_>, shown: &str, run: &Run) -> io::Result<bool> {
    let head = head_of(rt.alloc(), job, shown)?;
    if !written(rt, head.as_bytes()) {
        return Ok(false);
    }
    print_text(rt, job, run.printed.as_slice())
}

// Expands a text of a crate after these definitions, and answers whether it has no fault.
fn expand_text(
    rt: &HostRuntime,
    job: &Job<'_>,
    shown: &str,
    prelude: Prelude,
    text: &[u8],
) -> Result<bool, Ended> {
    let options = options_of(rt, job)?;
    warn(rt, &options, shown, text);
    let Some(run) = run_in_memory(rt.alloc(), options, prelude, text) else {
        return refusal(rt, shown, "out of memory");
    };
    if !print_run(rt, job, shown, &run)? {
        return refusal(rt, shown, "write failed");
    }
    tell_faults(rt, shown, run.told.as_slice())?;
    Ok(run.status == 0)
}

// Expands a file that could not be read when the crate was walked through, which tells why.
fn expand_unread(rt: &HostRuntime, job: &Job<'_>, shown: &str, name: &str) -> Result<bool, Ended> {
    match code_in(rt, name) {
        Ok(bytes) => {
            let prelude = Prelude::new(rt.alloc());
            expand_text(rt, job, shown, prelude, bytes.as_slice())?;
        }
        Err(error) => {
            misused(rt, shown, &error)?;
        }
    }
    Ok(false)
}

// Expands a file of a crate, and answers whether it has no fault.
fn expand_file(
    rt: &HostRuntime,
    job: &Job<'_>,
    whole: &Whole,
    file: usize,
    shown: &str,
) -> Result<bool, Ended> {
    match whole.walked.modules.content(file) {
        Some(Content::Text(text, _)) => match prelude_of_file(rt.alloc(), whole, file) {
            Ok(prelude) => expand_text(rt, job, shown, prelude, text.as_bytes()),
            Err(fault) => refusal(rt, shown, fault_words(fault)),
        },
        _ => {
            let name = whole.walked.modules.file_name(file).unwrap_or(shown);
            expand_unread(rt, job, shown, name)
        }
    }
}

// What a file gives for the text of the whole crate: its own text, unless it cannot be expanded,
// and whether it has no fault.
type Given = (Option<FileText>, bool);

// What a file gives for which there is no expansion, for this reason.
fn given_none(rt: &HostRuntime, shown: &str, why: &str) -> Result<Given, Ended> {
    refused(rt, shown, why)?;
    Ok((None, false))
}

// What a file gives that has this expansion, whose faults are reported.
fn given_by(
    rt: &HostRuntime,
    shown: &str,
    text: &str,
    events: &[Event],
    expansion: &Expansion,
) -> Result<Given, Ended>
    requires { length text.now < 2 ^ 32 }
{
    let told = fault_lines(rt.alloc(), shown, text, expansion.faults())?;
    eprint!(rt; "{told}")?;
    if expansion.printed().len() > u32::MAX as usize {
        return given_none(rt, shown, "the printed text is too long");
    }
    let own = file_text(rt.alloc(), expansion, events)?;
    Ok((Some(own), expansion.faults().is_empty()))
}

// What a file with this text gives, after these definitions.
fn given_text(
    rt: &HostRuntime,
    job: &Job<'_>,
    shown: &str,
    prelude: Prelude,
    text: &str,
    events: &[Event],
) -> Result<Given, Ended> {
    if text.len() > u32::MAX as usize {
        return given_none(rt, shown, "input is too long");
    }
    let options = options_of(rt, job)?;
    warn(rt, &options, shown, text.as_bytes());
    match reply_of(rt.alloc(), options, prelude, text) {
        Ok(Reply::Read(expansion)) => given_by(rt, shown, text, events, &expansion),
        Ok(Reply::Unread(fault)) => given_none(rt, shown, read_fault_words(fault.kind)),
        Err(refusal) => given_none(rt, shown, refusal_words(refusal)),
    }
}

// What a file of a crate gives.
fn given_file(
    rt: &HostRuntime,
    job: &Job<'_>,
    whole: &Whole,
    file: usize,
    shown: &str,
) -> Result<Given, Ended> {
    match whole.walked.modules.content(file) {
        Some(Content::Text(text, events)) => match prelude_of_file(rt.alloc(), whole, file) {
            Ok(prelude) => given_text(rt, job, shown, prelude, text.as_str(), events.as_slice()),
            Err(fault) => given_none(rt, shown, fault_words(fault)),
        },
        _ => {
            let name = whole.walked.modules.file_name(file).unwrap_or(shown);
            expand_unread(rt, job, shown, name)?;
            Ok((None, false))
        }
    }
}

// Expands a whole crate as one text, and answers whether no file has a fault. `files` are all its
// files, in the order of their numbers.
fn expand_whole(
    rt: &HostRuntime,
    job: &Job<'_>,
    whole: &Whole,
    files: &[Chosen],
    progress: &mut Progress,
) -> Result<bool, Ended> {
    let mut texts = Vec::new(rt.alloc());
    let mut faultless = true;
    for (file, chosen) in files.iter().enumerate() {
        progress.show(rt, file, files.len());
        let (own, is_faultless) = given_file(rt, job, whole, file, chosen.shown.as_str())?;
        texts.push(own)?;
        faultless &= is_faultless;
    }
    progress.end(rt);
    let text = whole.walked.whole_text(rt.alloc(), texts.as_slice())?;
    if print_text(rt, job, text.as_slice())? {
        Ok(faultless)
    } else {
        refusal(rt, "standard output", "write failed")
    }
}

// Reports a file that is none of the crate, or cannot be opened.
fn tell_stranger(rt: &HostRuntime, shown: &str) -> io::Result<ExitCode> {
    match opened(rt, shown) {
        Ok(_) => refused(rt, shown, "this is no file of the crate"),
        Err(error) => misused(rt, shown, &error),
    }
}

// Lists what a file of a crate sees.
fn list_file(
    rt: &HostRuntime,
    job: &Job<'_>,
    whole: &Whole,
    file: usize,
    shown: &str,
) -> Result<bool, Ended> {
    let folder = folder_of(rt)?;
    let lines = listed(rt.alloc(), whole, file, folder.as_str())?;
    let head = head_of(rt.alloc(), job, shown)?;
    if written(rt, head.as_bytes()) && written(rt, lines.as_bytes()) {
        Ok(true)
    } else {
        refusal(rt, shown, "write failed")
    }
}

// Does a job on one file, and answers whether it has no fault.
fn answer_file(
    rt: &HostRuntime,
    job: &Job<'_>,
    whole: &Whole,
    chosen: &Chosen,
) -> Result<bool, Ended> {
    let shown = chosen.shown.as_str();
    match chosen.file {
        Some(file) if job.action == Action::Macros => { list_file(rt, job, whole, file, shown) }
        Some(file) => expand_file(rt, job, whole, file, shown),
        None => {
            tell_stranger(rt, shown)?;
            Ok(false)
        }
    }
}

// Does a job on files one by one, and answers whether no file has a fault.
fn answer_files(
    rt: &HostRuntime,
    job: &Job<'_>,
    whole: &Whole,
    files: &[Chosen],
    progress: &mut Progress,
) -> Result<bool, Ended> {
    let mut faultless = true;
    for (done, chosen) in files.iter().enumerate() {
        progress.show(rt, done, files.len());
        faultless &= answer_file(rt, job, whole, chosen)?;
    }
    progress.end(rt);
    Ok(faultless)
}

// Whether a crate is expanded as one text.
fn is_whole(job: &Job<'_>) -> bool {
    job.action == Action::Expand && job.files.is_empty() && !job.apart
}

/// The crate with this root, with what a job's words give of others. What cannot be followed is
/// reported.
pub(crate) fn walked(
    rt: &HostRuntime,
    job: &Job<'_>,
    disk: &Disk<'_>,
    root: &str,
) -> Result<Whole, Ended> {
    let whole = whole_from(rt, other_words(job), disk, root, &CrateTexts { rt, job })?;
    let folder = folder_of(rt)?;
    tell_lacks(rt, &whole.walked.modules, folder.as_str())?;
    tell_written(rt, &whole, folder.as_str())?;
    Ok(whole)
}

/// Does a job on the crate with this root, or on files of it. The status is 0 if no file that it is
/// on has a fault.
pub(crate) fn perform_crate(
    rt: &HostRuntime,
    job: &Job<'_>,
    root: &str,
) -> Result<ExitCode, Ended> {
    let mut progress = Progress::new(rt, !is_whole(job));
    let set = set_of(rt, job)?;
    let disk = Disk { rt, options: &set };
    let whole = walked(rt, job, &disk, root)?;
    let modules = &whole.walked.modules;
    let folder = folder_of(rt)?;
    let words = job.files.as_slice();
    let files = chosen_files(rt.alloc(), &disk, modules, words, folder.as_str())?;
    let faultless = if is_whole(job) {
        expand_whole(rt, job, &whole, files.as_slice(), &mut progress)?
    } else {
        answer_files(rt, job, &whole, files.as_slice(), &mut progress)?
    };
    Ok(if faultless {
        ExitCode::SUCCESS
    } else {
        ExitCode::FAILURE
    })
}

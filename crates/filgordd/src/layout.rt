//! Expands a text, and lays out what that prints.
ghost use Rattle.std.specs.Prelude.{◌≡◌, IfOk, IsUtf8, string_bytes};
ghost use Rattle.code_layout.specs.Words.{words_of};

use any_grammar::AnyGrammar;
use code_layout::layout_text;
use expander::{Options, Prelude, Status, Watched, run_after};
use expander_run::program::put;
use program_files::stopped;
use std::alloc::{AllocError, Global};
use std::io;
use std::process::ExitCode;

/// What a run printed and reported, and its status.
#[derive(Drop)]
pub(crate) struct Run {
    pub(crate) printed: Vec<u8>,
    pub(crate) told: Vec<u8>,
    pub(crate) status: u8,
}

/// A run into memory, as the crate `expander` says of `run_after`, if that is enough.
pub(crate) fn run_in_memory(
    alloc: Global,
    options: Options<AnyGrammar>,
    prelude: Prelude,
    text: &[u8],
) -> Option<Run> {
    let mut reader = Watched::new(text);
    let mut writer = Watched::new(Vec::new(alloc));
    let mut faults = Watched::new(Vec::new(alloc));
    let Status(status) = run_after(
        alloc,
        &mut reader,
        &mut writer,
        &mut faults,
        options,
        prelude,
    );
    if writer.failed() || faults.failed() {
        return None;
    }
    Some(Run {
        printed: writer.into_inner(),
        told: faults.into_inner(),
        status,
    })
}

/// A printed text laid out. It is UTF-8, so no byte of it is replaced.
pub(crate) fn laid_out(alloc: Global, printed: &[u8]) -> Result<String, AllocError>
    ensures { IsUtf8 printed.now
        → IfOk result (λ laid. words_of (string_bytes laid) ≡ words_of printed.now) }
{
    let printed = String::from_utf8_lossy(alloc, printed)?;
    layout_text(alloc, printed.as_str())
}

/// Expands a text after these definitions, prints the expansion laid out, and reports the faults.
///
/// Messages and status are those of `run_after`.
pub(crate) fn expand_in_lines(
    rt: &HostRuntime,
    options: Options<AnyGrammar>,
    prelude: Prelude,
    text: &[u8],
) -> io::Result<ExitCode> {
    let Some(run) = run_in_memory(rt.alloc(), options, prelude, text) else {
        return stopped(rt, "out of memory");
    };
    let laid = laid_out(rt.alloc(), run.printed.as_slice())?;
    let mut writer = Watched::new(rt.stdout());
    if !put(&mut writer, laid.as_bytes()) {
        return stopped(rt, "write failed");
    }
    if !run.told.is_empty() {
        let mut faults = Watched::new(rt.stderr());
        put(&mut faults, run.told.as_slice());
    }
    Ok(ExitCode::from(run.status))
}

//! A run of the server over a workspace of sessions.
ghost use Rattle.std.specs.Prelude.{◌≡◌, ◌≢◌, IfOk, MatchOption, Ok, true};
ghost use Rattle.std.specs.Io.KnownBytes.{Appends, Consumes};
ghost use Rattle.session_workspace.specs.Serving.{ServesTexts};

use crate::setup::Setup;
use crate::workspace::{SessionWorkspace, Shown};
use lsp_server::{Stop, serve};
use std::alloc::Global;
use std::io::{Read, Write};

/// Serves a client of a language server, whose texts are expanded by a setup: reads frames, and
/// writes the messages that go for each, until the client tells the server to exit, or nothing more
/// comes. Answers whether the client asked to shut down before. No text is open at first.
/// (LSP 3.17, "Lifecycle Messages".)
///
/// # Errors
///
/// Why the run ends without the client's will.
pub fn serve_texts<R: Read, W: Write, S: Setup + Drop>(
    alloc: Global,
    reader: &mut R,
    writer: &mut W,
    setup: S,
    shown: Shown,
) -> Result<bool, Stop>
    ensures { IfOk result (λ asked. ServesTexts S asked
        (Consumes (R.remaining reader.old) (R.remaining reader.new))
        (Appends (W.contents writer.old) (W.contents writer.new))) }
{
    let others = setup.names(alloc)?;
    let workspace = SessionWorkspace::new(alloc, setup, shown, others);
    let asked = serve(alloc, reader, writer, workspace)?;
    Ok(asked)
}

/// Why a run did not end as its client asked, in words: `None` if it asked to shut down before the
/// end, and only then.
pub fn end_words(end: Result<bool, Stop>) -> Option<&'static str>
    ensures { MatchOption result (end ≡ Ok true) (λ words. end ≢ Ok true) }
{
    match end {
        Ok(true) => None,
        Ok(false) => Some("the client did not ask to shut down"),
        Err(Stop::Memory) => Some("out of memory"),
        Err(Stop::ReadFailed) => Some("read failed"),
        Err(Stop::WriteFailed) => Some("write failed"),
        Err(Stop::BadHead) => Some("the head of a message says no length, or one above 256 MB"),
        Err(Stop::TooLong) => Some("input is too long"),
    }
}

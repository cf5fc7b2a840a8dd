//! A run of the server, from a reader to a writer.
ghost use Rattle.std.specs.Prelude.{◌≡◌, ◌++◌, IfOk, List, OnOk, map, string_bytes, ℕ};
ghost use Rattle.std.specs.Io.KnownBytes.{Appends, Consumes};
ghost use Rattle.std.specs.List.{flat_map};
ghost use Rattle.serde_json.specs.View.{view};
ghost use Rattle.rpc_frames.specs.Frames.{framed};
ghost use Rattle.lsp_server.specs.Serving.{Answers, PrintAll, Prints, Served, has_asked};
ghost use Rattle.lsp_server.specs.Steps.{Serving};
ghost use Rattle.lsp_server.specs.Turns.{Turns};

use crate::phase::Phase;
use crate::server::Server;
use crate::workspace::Workspace;
use rpc_frames::{FrameError, Frames, framed};
use serde_json::Value;
use std::alloc::{AllocError, Global};
use std::io::{Read, Write};

/// Why a run ends without the client's will.
#[derive(Clone, Copy, Debug, PartialEq, Eq)]
pub enum Stop {
    /// There is no memory for an answer, nor to say so.
    Memory,
    /// The reader failed.
    ReadFailed,
    /// The writer failed.
    WriteFailed,
    /// A head says no length, or one above 256 MB.
    BadHead,
    /// 2^64 - 1 turns were made.
    TooLong,
}

impl From<AllocError> for Stop {
    ghost use Rattle.lsp_server.specs.declared.run.Stop.TheVariants.{Memory};

    ghost from_gives = { λ _ stop. stop ≡ Memory };

    fn from(_error: AllocError) -> Stop {
        Stop::Memory
    }
}

// The text of a message.
fn text_of(alloc: Global, message: &Value) -> Result<String, AllocError>
    ensures { IfOk result (λ text. Prints (view message.now) (string_bytes text)) }
{
    message.to_string(alloc)
}

// Writes messages, each in a frame, and flushes.
fn send<W: Write>(alloc: Global, writer: &mut W, messages: &[Value]) -> Result<(), Stop>
    ensures { OnOk result ((texts : List (List ℕ)) × PrintAll (map view messages.now) texts
        × Appends (W.contents writer.old) (W.contents writer.new) (flat_map framed texts)) }
{
    for message in messages {
        let text = text_of(alloc, message)?;
        let frame = framed(alloc, text.as_bytes())?;
        match writer.write_all(frame.as_slice()) {
            Ok(()) => {}
            Err(_) => return Err(Stop::WriteFailed),
        }
    }
    match writer.flush() {
        Ok(()) => Ok(()),
        Err(_) => Err(Stop::WriteFailed),
    }
}

// Reads what is there, and says whether anything was.
fn receive<R: Read>(reader: &mut R, frames: &mut Frames) -> Result<bool, Stop>
    ensures { OnOk result ((piece : List ℕ) × (frames.new ≡ frames.old ++ piece)
        × Consumes (R.remaining reader.old) (R.remaining reader.new) piece) }
{
    let mut room = [0u8; 4096];
    match reader.read(&mut room) {
        Ok(count) => {
            frames.feed(&room[..count])?;
            Ok(count > 0)
        }
        Err(_) => Err(Stop::ReadFailed),
    }
}

// Takes a body, and sends the messages that go for it.
fn answer<W: Write, D: Workspace>(
    alloc: Global,
    writer: &mut W,
    server: &mut Server<D>,
    body: &[u8],
) -> Result<(), Stop>
    ensures { OnOk result (Answers D.documents server.old body.now server.new
        (Appends (W.contents writer.old) (W.contents writer.new))) }
{
    let messages = server.take(body)?;
    send(alloc, writer, messages.as_slice())
}

// Takes a frame that has come and answers it, or reads more. Whether the run is over: the client
// told the server to exit, or nothing more comes.
fn turn<R: Read, W: Write, D: Workspace>(
    alloc: Global,
    reader: &mut R,
    writer: &mut W,
    frames: &mut Frames,
    server: &mut Server<D>,
) -> Result<bool, Stop>
    ensures { OnOk result (Turns D.documents frames.old frames.new server.old server.new
        (Consumes (R.remaining reader.old) (R.remaining reader.new))
        (Appends (W.contents writer.old) (W.contents writer.new))) }
{
    match frames.take() {
        Ok(Some(body)) => {
            answer(alloc, writer, server, body.as_slice())?;
            Ok(has_ended(server.phase()))
        }
        Ok(None) => {
            let has_come = receive(reader, frames)?;
            Ok(!has_come)
        }
        Err(FrameError::Memory) => Err(Stop::Memory),
        Err(FrameError::Broken) => Err(Stop::BadHead),
    }
}

// Whether the client told the server to exit.
fn has_ended(phase: Phase) -> bool {
    match phase {
        Phase::Ended(_) => true,
        _ => false,
    }
}

// Whether the client asked to shut down, and before it told the server to exit.
fn has_asked(phase: Phase) -> bool
    ensures { result ≡ has_asked phase }
{
    match phase {
        Phase::Shut => true,
        Phase::Ended(asked) => asked,
        _ => false,
    }
}

/// Serves a client: reads frames, and writes the messages that go for each, until the client tells
/// the server to exit, or nothing more comes. Answers whether the client asked to shut down before.
///
/// # Errors
///
/// Why the run ends without the client's will.
pub fn serve<R: Read, W: Write, D: Workspace + Drop>(
    alloc: Global,
    reader: &mut R,
    writer: &mut W,
    workspace: D,
) -> Result<bool, Stop>
    ensures { IfOk result (λ asked. (new : Serving D) × (asked ≡ has_asked new.phase)
        × Served D.documents (record { phase = Phase.New; workspace = workspace }) new
        (Consumes (R.remaining reader.old) (R.remaining reader.new))
        (Appends (W.contents writer.old) (W.contents writer.new))) }
{
    let mut frames = Frames::new(alloc);
    let mut server = Server::new(alloc, workspace);
    for _ in 0..u64::MAX {
        let is_over = turn(alloc, reader, writer, &mut frames, &mut server)?;
        if is_over {
            return Ok(has_asked(server.phase()));
        }
    }
    Err(Stop::TooLong)
}

//! The first message of a client.
ghost use Rattle.std.specs.Prelude.{IfOk, IfSome, Some};
ghost use Rattle.std.specs.Io.KnownBytes.{Consumes};
ghost use Rattle.serde_json.specs.View.{view};
ghost use Rattle.lsp_server.specs.Serving.{BeginsWith, BeginsWithBody};
ghost use Rattle.lsp_server.specs.Steps.{Reads};

use crate::run::Stop;
use rpc_frames::{FrameError, Frames};
use serde_json::Value;
use std::alloc::{AllocError, Global};
use std::io::Read;

/// What was read of a client's stream, and the first message in it.
#[derive(Drop)]
pub struct First {
    /// All that was read: the first frame, and what came with its end.
    pub bytes: Vec<u8>,
    /// The message in that frame. `None` where no frame came whole, or its body is no JSON.
    pub message: Option<Value>,
}

// The same, with the body of the first frame. `None` where no frame came whole.
struct FirstFrame {
    bytes: Vec<u8>,
    body: Option<Vec<u8>>,
}

// The next piece of a stream; none at its end.
fn piece_of<R: Read>(alloc: Global, reader: &mut R) -> Result<Vec<u8>, Stop>
    ensures { IfOk result (λ piece.
        Consumes (R.remaining reader.old) (R.remaining reader.new) piece.items) }
{
    let mut room = [0u8; 4096];
    match reader.read(&mut room) {
        Ok(count) => Ok(Vec::from_slice(alloc, &room[..count])?),
        Err(_) => Err(Stop::ReadFailed),
    }
}

// Reads up to the end of the first frame, or of the stream.
fn read_frame<R: Read>(alloc: Global, reader: &mut R) -> Result<FirstFrame, Stop>
    ensures bytes { IfOk result (λ first.
        Consumes (R.remaining reader.old) (R.remaining reader.new) first.bytes.items) }
    ensures body { IfOk result (λ first. IfSome first.body (λ body.
        BeginsWithBody first.bytes.items body.items)) }
{
    let mut frames = Frames::new(alloc);
    let mut bytes = Vec::new(alloc);
    for _ in 0..u64::MAX {
        let piece = piece_of(alloc, reader)?;
        frames.feed(piece.as_slice())?;
        bytes.extend_from_slice(piece.as_slice())?;
        match frames.take() {
            Ok(Some(body)) => return Ok(FirstFrame {
                bytes,
                body: Some(body),
            }),
            Ok(None) if !piece.is_empty() => {}
            Err(FrameError::Memory) => return Err(Stop::Memory),
            _ => return Ok(FirstFrame { bytes, body: None }),
        }
    }
    Err(Stop::TooLong)
}

// The message that a body is, if it is one.
fn message_of(alloc: Global, body: &[u8]) -> Result<Option<Value>, AllocError>
    ensures { IfOk result (λ o. IfSome o (λ message. Reads body.now (Some (view message)))) }
{
    match Value::from_slice(alloc, body) {
        Ok(message) => Ok(Some(message)),
        Err(why) if why.is_memory() => Err(AllocError),
        Err(_) => Ok(None),
    }
}

/// Reads a client's stream until its first message has come whole, or nothing more comes. A server
/// that is to take that message too is given what was read before what is left of the stream.
///
/// # Errors
///
/// `Memory`, `ReadFailed`, or `TooLong`.
pub fn read_first<R: Read>(alloc: Global, reader: &mut R) -> Result<First, Stop>
    ensures bytes { IfOk result (λ first.
        Consumes (R.remaining reader.old) (R.remaining reader.new) first.bytes.items) }
    ensures message { IfOk result (λ first. IfSome first.message (λ message.
        BeginsWith first.bytes.items (view message))) }
{
    let FirstFrame { bytes, body } = read_frame(alloc, reader)?;
    let message = match body {
        Some(body) => message_of(alloc, body.as_slice())?,
        None => None,
    };
    Ok(First { bytes, message })
}

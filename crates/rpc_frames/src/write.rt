//! A body in a frame of its own.
ghost use Rattle.std.specs.Prelude.{◌≡◌, ◌++◌, IfOk, codes, decimal, string_bytes};
ghost use Rattle.rpc_frames.specs.Frames.{empty_line, framed};

use std::alloc::{AllocError, Global};

// The shortest head of a body of this length.
fn head_of(alloc: Global, len: usize) -> Result<String, AllocError>
    ensures { IfOk result (λ head. string_bytes head
        ≡ codes "Content-Length: " ++ (decimal len ++ empty_line)) }
{
    format!(in alloc; "Content-Length: {len}\r\n\r\n")
}

/// A body in a frame with the shortest head.
pub fn framed(alloc: Global, body: &[u8]) -> Result<Vec<u8>, AllocError>
    ensures { IfOk result (λ frame. frame.items ≡ framed body.now) }
{
    let head = head_of(alloc, body.len())?;
    let mut frame = Vec::from_slice(alloc, head.as_bytes())?;
    frame.extend_from_slice(body)?;
    Ok(frame)
}

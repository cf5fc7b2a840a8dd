//! What a stream begins with.
ghost use Rattle.std.specs.Prelude.{◌≡◌};
ghost use Rattle.rpc_frames.specs.Frames.{begin_of};

use crate::head::{head_len, length_in};

/// What a stream begins with.
#[derive(Clone, Copy, Debug, PartialEq, Eq)]
pub enum Begin {
    /// Less than a whole frame.
    Partial,
    /// A head that says no length, or one above 256 MB.
    Broken,
    /// A whole frame, whose head and body have so many bytes.
    Whole(usize, usize),
}

/// What a stream begins with.
pub(crate) fn begin_of(bytes: &[u8]) -> Begin
    ensures { result ≡ begin_of bytes.now }
{
    let Some(head) = head_len(bytes) else {
        return Begin::Partial;
    };
    match length_in(&bytes[..head]) {
        None => Begin::Broken,
        Some(body) if body <= bytes.len() - head => Begin::Whole(head, body),
        Some(_) => Begin::Partial,
    }
}

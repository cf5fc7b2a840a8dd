//! Frames that come in pieces.
ghost use Rattle.std.specs.Prelude.{◌≡◌, ◌++◌, [], IfOk, IfSome, List, OnErr, OnOk, Ok, None};
ghost use Rattle.std.specs.Result.{IsErrOf};
ghost use Rattle.rpc_frames.specs.Frames.{Frame, IsFrame, begin_of, bytes_of};

use crate::begin::{Begin, begin_of};
use std::alloc::{AllocError, Global};
use std::marker::Model;

/// Why no body can be taken.
#[derive(Clone, Copy, Debug, PartialEq, Eq)]
pub enum FrameError {
    /// There is no memory for it.
    Memory,
    /// A head says no length, or one above 256 MB: nothing says where the next frame begins.
    Broken,
}

impl From<AllocError> for FrameError {
    ghost use Rattle.rpc_frames.specs.declared.frames.FrameError.TheVariants.{Memory};

    ghost from_gives = { λ _ error. error ≡ Memory };

    fn from(_error: AllocError) -> FrameError {
        FrameError::Memory
    }
}

/// What has come of a stream and is in no frame that was taken. Callers see it as these bytes.
#[derive(Drop)]
pub struct Frames {
    alloc: Global,
    bytes: Vec<u8>,
}

impl Model for Frames {
    ghost use Rattle.std.specs.Prelude.{ℕ, List};

    ghost Value = { List ℕ };

    ghost view = { λ f. f.bytes.items };
}

impl Frames {
    /// A stream of which nothing has come.
    pub fn new(alloc: Global) -> Frames
        ensures { result ≡ [] }
    {
        Frames {
            alloc,
            bytes: Vec::new(alloc),
        }
    }

    /// Adds the next piece of the stream. An `Err` changes nothing.
    pub fn feed(&mut self, piece: &[u8]) -> Result<(), AllocError>
        ensures ok { OnOk result (self.new ≡ self.old ++ piece.now) }
        ensures err { OnErr result (self.new ≡ self.old) }
    {
        self.bytes.extend_from_slice(piece)
    }

    /// Takes the first frame out, if it has come whole, and gives its body. `None` if it has not
    /// come whole. Unless a body is given, nothing changes.
    ///
    /// # Errors
    ///
    /// `Memory`; or `Broken`, and so from then on, whatever else comes.
    pub fn take(&mut self) -> Result<Option<Vec<u8>>, FrameError>
        ensures some { IfOk result (λ taken. IfSome taken (λ body. (f : Frame) × IsFrame f
            × (f.body ≡ body.items) × (self.old ≡ bytes_of f ++ self.new))) }
        ensures none { result ≡ Ok None
            → (self.new ≡ self.old) × (begin_of self.old ≡ Begin.Partial) }
        ensures broken { IsErrOf result FrameError.Broken → begin_of self.old ≡ Begin.Broken }
        ensures err { OnErr result (self.new ≡ self.old) }
    {
        match begin_of(self.bytes.as_slice()) {
            Begin::Partial => Ok(None),
            Begin::Broken => Err(FrameError::Broken),
            Begin::Whole(head, body) => {
                let end = head + body;
                let taken = Vec::from_slice(self.alloc, &self.bytes[head..end])?;
                self.bytes = Vec::from_slice(self.alloc, &self.bytes[end..])?;
                Ok(Some(taken))
            }
        }
    }
}

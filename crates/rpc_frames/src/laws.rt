//! Facts about the definitions, each the contract of a function that does nothing.
ghost use Rattle.std.specs.Prelude.{◌≡◌, ◌≤◌, All, List, length, ℕ};
ghost use Rattle.rpc_frames.specs.Frames.{Frame, IsFrame, bytes_of, framed, max_body};
ghost use Rattle.rpc_frames.specs.Streams.{Splits};

/// However a stream is cut into pieces, it has one reading: the frames in it, and the rest.
pub fn streams_have_one_reading()
    ensures { (stream : List ℕ) (frames others : List Frame) (rest other_rest : List ℕ)
        → Splits stream frames rest → Splits stream others other_rest
        → (frames ≡ others) × (rest ≡ other_rest) }
{}

/// What is written reads back: a body of at most 256 MB, in its own frame, is a frame with that
/// body.
pub fn frames_read_back()
    ensures { (body : List ℕ) → length body ≤ max_body
        → (f : Frame) × IsFrame f × (f.body ≡ body) × (bytes_of f ≡ framed body) }
{}

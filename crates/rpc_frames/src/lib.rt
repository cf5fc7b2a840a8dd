//! Bodies in frames, as they come on a stream: a head that says the length, and the body.
#![tactic(auto)]

mod begin;
mod frames;
mod head;
pub mod laws;
mod write;

pub use begin::Begin;
pub use frames::{FrameError, Frames};
pub use write::framed;

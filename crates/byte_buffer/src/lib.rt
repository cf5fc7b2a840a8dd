//! A list of bytes that grows at its end, is patched in place, and is cut, in raw memory.
#![tactic(auto)]

mod block;
mod buffer;

pub use buffer::ByteBuffer;

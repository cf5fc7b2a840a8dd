//! A text that follows another one, and its pieces, which are read over those of the text before.
#![tactic(auto)]

mod difference;
mod text;

pub use expander_sources;
pub use text::PiecedText;

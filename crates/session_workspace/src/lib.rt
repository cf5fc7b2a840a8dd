//! A workspace of sessions: the texts that a client of a language server has open, each with a
//! session that is edited as the client edits the text, and what is answered about them.
#![tactic(auto)]

mod actions;
mod calls;
mod definitions;
mod diagnostics;
mod earlier;
mod expansions;
mod lost;
mod names;
mod open_text;
mod outline;
mod ranges;
mod serving;
mod setup;
mod steps;
mod told;
mod workspace;

pub use earlier::byte_before;
pub use serving::{end_words, serve_texts};
pub use setup::{Elsewhere, Setup};
pub use workspace::{SessionWorkspace, Shown};

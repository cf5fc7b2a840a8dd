//! The Language Server Protocol: a machine that takes bodies and gives messages, over a workspace
//! that keeps the client's texts and answers about them.
#![tactic(auto)]

mod capabilities;
mod errors;
mod first;
mod method;
mod phase;
mod run;
mod server;
mod workspace;

pub use first::{First, read_first};
pub use method::Method;
pub use phase::{ErrorCode, Phase};
pub use run::{Stop, serve};
pub use server::Server;
pub use workspace::{Question, Workspace};

//! The command line of `filgordd`: its subcommands and options, and what words ask it for.
#![tactic(auto)]

mod command;
mod job;
mod request;

pub use job::{Action, Diagnostics, Job};
pub use request::{Request, request_of};

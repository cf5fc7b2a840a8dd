//! A run of the program: from a reader to two writers, with its faults reported by line and byte
//! column.
#![tactic(auto)]

pub mod lines;
pub mod options;
pub mod program;
mod stop;
pub mod watched;

pub use expander_session;

//! The steps of the calls of a text: for each call what its name finds, which rule fits, what that
//! gives, and the calls in it, level by level.
#![tactic(auto)]

mod attempt;
pub mod laws;
pub mod limits;
mod list;
pub mod step;
pub mod text_trace;
mod tracing;

pub use call_expansion;

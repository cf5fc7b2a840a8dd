//! Tests of the public calls of `expander_trace` and `step_report`, run from text.
//!
//! It is a program, which does nothing: of a library `rt ci` would sum up the crates below.
#![tactic(auto)]

#[cfg(test)]
mod json;
#[cfg(test)]
mod lines;
#[cfg(test)]
mod traces;

fn main() {}

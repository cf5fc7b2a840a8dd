//! Tests of runs of the expander and of `replay_script`.
//!
//! Expected values were worked out by hand. What texts give with 128 levels is in the stored run of
//! the program `filgordd`. Here are other levels and other grammars, with memory and without, and
//! readers and writers that fail. Sessions are tested in `expander_tests`.
//!
//! It is a program, which does nothing: of a library `rt ci` would sum up the crates below.
#![tactic(auto)]

#[cfg(test)]
mod fakes;
#[cfg(test)]
mod levels;
#[cfg(test)]
mod options;
#[cfg(test)]
mod refused;
#[cfg(test)]
mod runs;
#[cfg(test)]
mod scripts;
#[cfg(test)]
mod watched;

fn main() {}

//! Tests of the public calls of sessions and of `expansion_page`, in a crate of their own so that
//! the expander is proved once.
//!
//! Expected values were worked out by hand. What definitions alone decide are worked examples in
//! the expander's `proofs/`. Here are other levels, other grammars, and calls that no script makes,
//! with memory and without. Runs and scripts are tested in `run_tests`.
//!
//! It is a program, which does nothing: of a library `rt ci` would sum up the crates below.
#![tactic(auto)]

#[cfg(test)]
mod levels;
#[cfg(test)]
mod opened;
#[cfg(test)]
mod pages;
#[cfg(test)]
mod preludes;
#[cfg(test)]
mod printed_again;
#[cfg(test)]
mod refused;
#[cfg(test)]
mod scopes;
#[cfg(test)]
mod sessions;

fn main() {}

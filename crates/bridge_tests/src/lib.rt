//! Tests of the bridge's public calls, in a crate of their own so that the bridge is proved once.
//!
//! Expected values were worked out by hand. What definitions alone decide are worked examples in
//! the bridge's `proofs/`; here each call is run.
#![tactic(auto)]

#[cfg(test)]
mod chunks;
#[cfg(test)]
mod pieces;
#[cfg(test)]
mod prints;
#[cfg(test)]
mod refused;
#[cfg(test)]
mod rows;
#[cfg(test)]
mod texts;

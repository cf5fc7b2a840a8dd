//! Tests of the public calls of `mbe`, in a crate of their own so that it is proved once.
//!
//! Most are run from text: `bridge` reads a definition and a call, and prints what the call gives.
//! Expected values were worked out by hand.
#![tactic(auto)]

#[cfg(test)]
mod calls;
#[cfg(test)]
mod fragments;
#[cfg(test)]
mod groups;
#[cfg(test)]
mod macros;
#[cfg(test)]
mod refused;
#[cfg(test)]
mod texts;

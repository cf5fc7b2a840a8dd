//! Tests of the public calls of `mbe_rules`, in a crate of their own so that it is proved once.
//!
//! A clause holds for all arguments, so tests are few: each public call with enough memory, and
//! each derived one at a type.
#![tactic(auto)]

#[cfg(test)]
mod errors;
#[cfg(test)]
mod parsing;
#[cfg(test)]
mod refused;
#[cfg(test)]
mod styles;
#[cfg(test)]
mod trees;
#[cfg(test)]
mod value_results;

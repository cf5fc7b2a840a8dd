//! Use of the tree layer from a crate above it, by public calls alone: walks with contracts of
//! their own, and the tests of `byte_buffer`, `token_bytes`, `symbols`, `tt_data` and
//! `tt`.
//!
//! A clause holds for all arguments, so tests are few: each public call with enough memory,
//! closures with a state, what `{:?}` prints, deep nesting, and refused requests for memory.
#![tactic(auto)]

#[cfg(test)]
mod byte_buffers;
#[cfg(test)]
mod calls;
#[cfg(test)]
mod faults;
#[cfg(test)]
mod nesting;
#[cfg(test)]
mod refused;
#[cfg(test)]
mod samples;
#[cfg(test)]
mod sharing;
#[cfg(test)]
mod states;
#[cfg(test)]
mod stored;
pub mod walks;

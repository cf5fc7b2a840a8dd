//! Tests of the public calls of `crate_walk` and `crate_items`, in a crate of their own so that
//! each is proved once.
//!
//! Expected values were worked out by hand. Those on where files are were compared with rustc.
#![tactic(auto)]

#[cfg(test)]
mod chains;
#[cfg(test)]
mod items;
#[cfg(test)]
mod listed;
#[cfg(test)]
mod opened;
#[cfg(test)]
mod told;
#[cfg(test)]
mod walks;

//! The parts of a text: its pieces, the definitions and calls among them, their faults, and trees
//! with piece-relative spans. Everything here is about one text by itself: nothing is cached.
#![tactic(auto)]

pub mod begun;
pub mod boundary;
pub mod call;
pub mod definition;
pub mod dialect;
pub mod edition_mark;
pub mod fault;
pub mod hashed_tree;
mod items;
pub mod laws;
pub mod left_out;
pub mod limits;
pub mod relative_spans;
pub mod scope_rules;
pub mod split;
pub mod tree_walk;

pub use mbe;

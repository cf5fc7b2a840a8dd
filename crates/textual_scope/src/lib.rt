//! Rust's textual scope: what definitions in lists of trees mean, and those that expansions make,
//! with laws.
#![tactic(auto)]

pub mod laws;

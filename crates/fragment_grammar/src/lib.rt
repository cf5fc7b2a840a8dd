//! What a grammar of fragments is asked about a list of trees, and what it answers.
//!
//! The matching algorithm depends on no particular grammar. It is given one, and of that it knows
//! what the trait promises.
#![tactic(auto)]

mod counting;
mod fragment;

pub use counting::steps;
pub use fragment::{FragmentGrammar, Prefix, PrefixEntryPoint};

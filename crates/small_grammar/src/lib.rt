//! A small grammar of Rust: how far an expression, a type, a pattern and so on extends at the
//! front of a list of trees.
//!
//! `specs/SmallGrammar.antt` is the grammar, rule by rule, as parsing expressions;
//! `specs/Outcomes.antt` says what such rules mean. Each function of the code is one rule or one
//! alternative of a rule.
#![tactic(auto)]

mod expressions;
mod grammar;
pub mod laws;
pub mod names;
mod operators;
mod patterns;
pub mod tokens;
mod type_parts;
mod type_steps;
mod types;
pub mod units;

pub use grammar::SmallGrammar;

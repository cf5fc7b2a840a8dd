//! A grammar of Rust's fragments: how far an item, a statement, an expression, a type, a pattern and
//! so on extends at the front of a list of trees, in each edition.
//!
//! `specs/Rules.antt` is the grammar, rule by rule, as parsing expressions; `specs/Outcomes.antt`
//! says what such rules mean. The code is one interpreter over a table of nodes, which `table.py`
//! writes from the rules.
#![tactic(auto)]

mod cursor;
mod frames;
mod grammar;
mod interpreter;
pub mod laws;
mod names;
mod node;
mod nodes;
mod outcome;
mod parts;
mod table;
mod tokens;

pub use grammar::RustGrammar;

//! How names are resolved: the definitions before a piece, their ids and rules, and the expansion
//! of one piece in that scope.
#![tactic(auto)]

pub mod definition_ids;
pub mod environment;
pub mod event_sink;
pub mod expand;
pub mod interner;
mod list_walk;
mod locals;
pub mod macro_def;
mod name_stack;
mod name_table;
pub mod offsets;
pub mod outcome;
pub mod refusal;
mod rules;
pub mod scope;

pub use textual_scope;

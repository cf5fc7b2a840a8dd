//! A session over a text: its cache, the evaluation of a text over it, and lists of edits and
//! expansions.
#![tactic(auto)]

mod absolute_spans;
mod cache;
mod cached_output;
pub mod commands;
mod emitter;
mod evaluate;
pub mod laws;
mod lookup_tree;
mod memo;
mod memo_index;
mod memo_ref;
mod new_memo;
mod recent_memos;
pub mod session;

pub use expander_scope;
pub use expander_sources;

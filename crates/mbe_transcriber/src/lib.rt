//! Transcribes a rule's transcriber with the bindings of its metavariables.
#![tactic(auto)]

mod fragment;
mod items;
mod leaf;
mod metavar_expr;
mod repetition;
mod repetition_vars;
mod single_var;
mod transcriber;

pub use fragment::put_in;
pub use items::PlainItems;
pub use mbe_matcher;
pub use metavar_expr::rawness_of;
pub use rustc_lexer;
pub use transcriber::{Transcribed, fill, fill_within};

//! JSON that says what a session replies, why its faults are there, and how a script is answered: a
//! line for each.
#![tactic(auto)]

mod explained;
mod faults;
mod reply;
mod script;
mod tokens;

pub use explained::Question;
pub use reply::{expansion_line, explanation_line, refused_line, unread_line};
pub use script::{bare_line, prelude_line, source_line, source_unread_line, too_long_line};

//! Messages about a text, laid out as rustc lays out its own: a title, the place, the lines of the
//! text with marks under them, and notes.
#![tactic(auto)]

mod layout;
mod line;
mod message;
mod shown;
mod underline;

pub use layout::push_message;
pub use line::{Line, column_in, line_at, line_number};
pub use message::{Label, Quoted, Range, Rank, Section};

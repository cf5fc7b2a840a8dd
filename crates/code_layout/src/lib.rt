//! Rust code laid out in lines: where it has blanks and line ends, and a text laid out so.
#![tactic(auto)]

mod bars;
mod layout;
mod lines;
mod measure;
mod piece;
mod pieces;
mod short;
mod sort;
mod text;
mod touch;
mod words;

pub use layout::{Gap, Layout};
pub use sort::{Sort, sort_of};
pub use text::layout_text;

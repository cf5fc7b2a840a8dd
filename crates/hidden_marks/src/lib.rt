//! Characters that show nothing, or change the order of others, shown by a mark.
#![tactic(auto)]

mod marks;

pub use marks::{is_hidden, push_mark, push_visible, visible_width};

//! What the parameters of a client's messages say about texts, and what changes do to them.
#![tactic(auto)]

mod change;
mod edit;
mod note;
mod params;

pub use change::Change;
pub use edit::{Edit, edit_of};
pub use note::{Note, closed_in, edited_in, opened_in};
pub use params::{place_at, text_at, uri_of};

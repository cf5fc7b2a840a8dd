//! From the definitions of sources, and their places in the files of a crate, to the prelude of a
//! text.
#![tactic(auto)]

mod definitions;
mod editions;
mod file_picks;
mod first_index;
mod places;
mod source_picks;

pub use definitions::Definitions;
pub use editions::edition_of;
pub use file_picks::FilePicks;
pub use places::push_places;
pub use source_picks::{push_behind, push_open, push_source};

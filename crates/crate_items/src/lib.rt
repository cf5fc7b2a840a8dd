//! What a text declares: modules, definitions, and names from elsewhere.
#![tactic(auto)]

mod attributes;
mod events;
mod extents;
mod heads;
mod imports;
mod items;
mod opened;
mod reading;

pub use extents::{Extents, Outline, extents_of};
pub use opened::open_calls;
pub use reading::{content_of, content_of_bytes};

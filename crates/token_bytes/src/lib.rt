//! Lists of tokens as bytes and a table of texts.
//!
//! Only this crate depends on how a token is stored: as a record of 31 bytes for the head of a
//! group, 18 for a punct or an identifier, 23 for a literal, in preorder. A record has the number
//! of its text in a table, in which texts are numbered by first use. So two lists are equal
//! exactly where their bytes and their tables are. `specs/Records.antt` and `specs/Packing.antt`
//! define both.
#![tactic(auto)]

mod buffer;
mod in_place;
pub mod laws;
mod mark;
mod reading;
mod renaming;
mod stored;
mod text_chains;
mod text_table;
mod tokens;
mod writing;

pub use buffer::TokenBuffer;
pub use mark::{Mark, Place};
pub use renaming::Renaming;
pub use tokens::Tokens;

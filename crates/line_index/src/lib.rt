//! Positions in a text by line and UTF-16 column, as editors name them.
#![tactic(auto)]

mod columns;
pub mod laws;
mod lines;
mod positions;
mod spots;

pub use positions::{FIRST, Position, offset_of, position_behind, position_of};
pub use spots::{BEGIN, Spot, spot_at};

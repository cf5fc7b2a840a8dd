//! The expansion of one call of a text: which calls are around a byte, and what comes of the one
//! that is expanded there.
#![tactic(auto)]

pub mod answer;
pub mod around;
pub mod definitions;
mod moved;
pub mod piece_call;
pub mod reading;
pub mod text_call;

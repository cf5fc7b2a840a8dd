//! Reads a text as its pieces, over what is cached of the last one. Segments whose bytes occur
//! again are taken whole, and what an edit touched is read anew. The pieces are those that
//! reading the whole text gives.
#![tactic(auto)]

mod incremental;
pub mod parse;
pub mod piece;
mod recent_pieces;
mod resync;
pub mod segment;
mod segment_builder;
mod segment_piece;
mod shared_bytes;

//! What a run expands by.

use expander_model::dialect::Dialect;
use tt_data::Edition;

/// What a run expands by: a grammar, an edition, a dialect, and a number of levels.
#[derive(Drop)]
pub struct Options<G> {
    /// The grammar of the fragments.
    pub grammar: G,
    /// The edition of all identifiers.
    pub edition: Edition,
    /// The other options of what a text means.
    pub dialect: Dialect,
    /// How many levels of calls are expanded.
    pub depth: u8,
}

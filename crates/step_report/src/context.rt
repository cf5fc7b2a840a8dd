//! What steps are told by.

use crate::texts::Texts;
use tt_data::Edition;

/// The texts that steps name, and by which grammar and edition calls are traced.
#[derive(Drop)]
pub struct Context<'a, G> {
    /// The texts.
    pub texts: &'a Texts<'a>,
    /// Decides what fragments are.
    pub grammar: &'a G,
    /// The edition of all identifiers.
    pub edition: Edition,
}

//! Definitions of other texts, as preludes have them.

use bridge::parts::Place;
use expander_model::hashed_tree::HashedTree;
use std::rc::Rc;

/// A definition of another text: where its piece starts, and its tree.
#[derive(Drop)]
pub struct Import {
    /// Where the piece starts in its text.
    pub place: Place,
    /// The piece, with piece-relative spans whose anchor is the number of its text.
    pub tree: Rc<HashedTree>,
}

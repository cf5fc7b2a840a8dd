//! What a name of a module stands for.

use crate_walk::Place;

/// What a name stands for.
#[derive(Clone, Copy, PartialEq, Eq, Debug, Drop)]
pub enum Target {
    /// The module of this number.
    Module(usize),
    /// The definition at this place.
    Macro(Place),
    /// What the import at this place leads to in another crate, if it leads there.
    Other(Place),
}

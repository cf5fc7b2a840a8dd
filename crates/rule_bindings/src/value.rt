//! What a metavariable stands for in one iteration.

use mbe_rules::MetaVarKind;
use symbols::Symbol;
use tt::TokenTreesView;

/// A fragment of an argument.
#[derive(Clone, Copy)]
pub struct BoundFragment<'a> {
    /// Its kind.
    pub kind: MetaVarKind,
    /// Its trees.
    pub trees: TokenTreesView<'a>,
}

/// What a metavariable stands for in one iteration.
#[derive(Drop)]
pub struct BoundValue<'a> {
    /// The metavariable.
    pub name: &'a Symbol,
    /// The numbers, from 0, of the iterations that it is in, from the outermost.
    pub iterations: Vec<usize>,
    /// What it stands for. `None`: its repetition has no iteration here.
    pub fragment: Option<BoundFragment<'a>>,
}

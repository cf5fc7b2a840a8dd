//! What a walk over the repetitions of a transcriber has left to look at.
ghost use Rattle.std.specs.Prelude.{◌≤◌, ◌+◌};
ghost use Rattle.mbe_transcriber.specs.Limits.{most_rounds};

use mbe_rules::Op;

/// Iterations of a repetition from the one with this number on.
#[derive(Clone, Copy, Drop)]
pub(crate) struct Rounds<'t> {
    /// What is iterated.
    pub(crate) body: &'t [Op],
    /// The number of the first.
    pub(crate) number: usize,
    /// How many are left.
    pub(crate) left: usize,
    ghost fits: { number + left ≤ most_rounds },
}

/// What is left to look at.
#[derive(Clone, Copy, Drop)]
pub(crate) enum Task<'t> {
    /// These ops.
    Items(&'t [Op]),
    /// These iterations.
    Round(Rounds<'t>),
    /// What is outside of the innermost iteration.
    Leave,
}

//! The groups and repetitions that a partial reading is in.
ghost use Rattle.std.specs.Prelude.{◌≡◌, ◌∷◌, IfOk};
ghost use Rattle.mbe_explain.specs.Levels.{mark_of, marks_of};

use bumpalo::Bump;
use mbe_rules::Separator;
use std::alloc::AllocError;

/// What a partial reading is in.
#[derive(Clone, Copy, Drop)]
pub(crate) enum Inside<'a> {
    Group,
    // An iteration of a repetition with this separator.
    Iteration(Option<&'a Separator>),
    // The place after this separator.
    Separated(Option<&'a Separator>),
}

/// A group or repetition, and those around it. Partial readings share those around.
#[derive(Clone, Copy, Drop)]
pub(crate) struct Level<'a> {
    pub(crate) inside: Inside<'a>,
    pub(crate) around: Option<&'a Level<'a>>,
}

/// The levels with one more inside.
pub(crate) fn within<'a>(
    arena: &'a Bump,
    around: Option<&'a Level<'a>>,
    inside: Inside<'a>,
) -> Result<Option<&'a Level<'a>>, AllocError>
    ensures { IfOk result (λ l. marks_of l ≡ mark_of inside.entry ∷ marks_of around.entry) }
{
    let Ok(level) = arena.try_alloc(Level { inside, around }) else {
        return Err(AllocError);
    };
    Ok(Some(level))
}

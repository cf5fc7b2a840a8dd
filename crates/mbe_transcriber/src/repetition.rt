//! The iterations of a repetition.
ghost use Rattle.std.specs.Prelude.{◌≡◌, nat_lt};
ghost use Rattle.mbe_rules.specs.Items.{may_skip};
ghost use Rattle.mbe_transcriber.specs.Given.{is_single};

use mbe_rules::{Op, RepeatKind, Separator};

// The most iterations that a repetition may have.
pub(crate) const MOST_ROUNDS: usize = 65535;

// The iterations of a repetition from index `number` on. Those below `count` take place.
#[derive(Clone, Copy, Drop)]
pub(crate) struct Iterations<'t> {
    pub(crate) body: &'t [Op],
    pub(crate) separator: Option<&'t Separator>,
    pub(crate) number: usize,
    pub(crate) count: usize,
}

// Whether the iteration of this index is one of so many.
pub(crate) fn takes_place(number: usize, count: usize) -> bool
    ensures { result ≡ nat_lt number count }
{
    number < count
}

// Whether a repetition may have no iteration.
pub(crate) fn may_be_empty(kind: RepeatKind) -> bool
    ensures { result ≡ may_skip kind }
{
    kind != RepeatKind::OneOrMore
}

// Whether a repetition has at most one iteration.
pub(crate) fn is_single(kind: RepeatKind) -> bool
    ensures { result ≡ is_single kind }
{
    kind == RepeatKind::ZeroOrOne
}

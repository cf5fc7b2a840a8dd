//! A partial reading, with the groups and repetitions that it is in.
ghost use Rattle.mbe_explain.specs.Levels.{IsInside};

use crate::level::Level;
use mbe_matcher::{Consumed, Thread};

/// A partial reading, and what its last move consumed; where it waits, nothing tells that it has
/// ended.
#[derive(Clone, Copy, Drop)]
pub(crate) struct Step<'a> {
    pub(crate) thread: Thread<'a>,
    pub(crate) taken: Option<Consumed>,
    pub(crate) levels: Option<&'a Level<'a>>,
    ghost inside: { IsInside thread levels },
}

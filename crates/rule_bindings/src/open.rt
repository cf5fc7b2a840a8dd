//! Iterations that are being listed.
ghost use Rattle.std.specs.Prelude.{◌+◌, ◌<◌, ◌^◌, length};

use mbe_matcher::Binding;

/// An iteration that is being listed.
#[derive(Clone, Copy)]
pub(crate) struct Open<'b, 'a> {
    /// Its number, from 0.
    pub(crate) number: usize,
    /// The values of the iterations after it.
    pub(crate) rest: &'b [Binding<'a>],
    ghost fits: { number + 1 + length rest.now < 2 ^ 64 },
}

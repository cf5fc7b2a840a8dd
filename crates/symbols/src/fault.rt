//! Why a call on texts and trees is refused.
ghost use Rattle.std.specs.Prelude.{◌≡◌};
ghost use Rattle.symbols.specs.declared.fault.TtFault.TheVariants.{Memory};

use std::alloc::AllocError;

/// Why a call on texts or trees is refused. A refused call leaves its objects as they were.
#[derive(Clone, Copy, PartialEq, Eq, Debug)]
pub enum TtFault {
    /// Out of memory.
    Memory,
    /// A tree would have more than `u32::MAX` tokens below its top.
    Tokens,
    /// The tokens handed in are not those of one tree.
    Malformed,
    /// The call is impossible here: no group is open, one still is, or no leaf is there.
    Place,
    /// The restore point is no longer valid in its builder.
    Stale,
}

impl From<AllocError> for TtFault {
    ghost from_gives = { λ _ fault. fault ≡ Memory };

    fn from(_error: AllocError) -> TtFault {
        TtFault::Memory
    }
}

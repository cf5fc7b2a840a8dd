//! Why a session gives no reply, and the refusals of the layers below as such reasons.
ghost use Rattle.std.specs.Prelude.{◌≡◌};
ghost use Rattle.expander_scope.specs.Refusals.{refusal_of};
ghost use Rattle.expander_scope.specs.declared.refusal.Refusal.TheVariants.{Memory};

use std::alloc::AllocError;
use tt_data::TtFault;

/// Why there is no reply. A refused call changes nothing.
#[derive(Clone, Copy, Debug, PartialEq, Eq)]
pub enum Refusal {
    /// Memory could not be allocated.
    Memory,
    /// A tree would have more than `u32::MAX` tokens.
    Tokens,
    /// More than `u32::MAX` definitions would need an id.
    Numbers,
}

impl From<TtFault> for Refusal {
    ghost from_gives = { λ fault refusal. refusal ≡ refusal_of fault };

    fn from(fault: TtFault) -> Refusal {
        match fault {
            TtFault::Tokens => Refusal::Tokens,
            _ => Refusal::Memory,
        }
    }
}

impl From<AllocError> for Refusal {
    ghost from_gives = { λ _ refusal. refusal ≡ Memory };

    fn from(_: AllocError) -> Refusal {
        Refusal::Memory
    }
}

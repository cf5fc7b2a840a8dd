//! Why a word sets no option.
ghost use Rattle.std.specs.Prelude.{◌≡◌};
ghost use Rattle.cfg_options.specs.declared.fault.CfgFault.TheVariants.{Memory};

use std::alloc::AllocError;

/// Why a word sets no option.
#[derive(Clone, Copy, PartialEq, Eq, Debug)]
pub enum CfgFault {
    /// Out of memory.
    Memory,
    /// The word has more than `u32::MAX` bytes, or would be read as more tokens.
    TooLong,
    /// The word is no option: neither a name, nor a name, `=` and a string.
    NoOption,
}

impl From<AllocError> for CfgFault {
    ghost from_gives = { λ _ fault. fault ≡ Memory };

    fn from(_error: AllocError) -> CfgFault {
        CfgFault::Memory
    }
}

//! A cache of names, so that a name that is read again shares its text. It decides speed and
//! memory alone.
ghost use Rattle.std.specs.Prelude.{◌≡◌, IfOk, IsOkUnless};
ghost use Rattle.tt_data.specs.fault.TtFault.TheVariants.{Memory};

use std::alloc::Global;
use tt_data::{Symbol, TtFault};

// How many slots there are at first, and at most: powers of two. A text with few names asks for
// few.
const FEW: usize = 16;

const MOST: usize = 4096;

/// A cache of names that were read. A name that is read again shares its text and takes no memory.
#[derive(Drop)]
pub struct NameCache {
    pub(crate) alloc: Global,
    // In each slot, the last name of that slot since there are so many slots.
    recent: Vec<Option<Symbol>>,
    // How many names were made.
    made: usize,
}

// A hash of a name.
fn hash_of(name: &str) -> usize {
    let mut hash: usize = name.len();
    for byte in name.as_bytes() {
        hash = hash.wrapping_mul(31).wrapping_add(*byte as usize);
    }
    hash
}

impl NameCache {
    /// An empty cache.
    pub fn new(alloc: Global) -> NameCache {
        NameCache {
            alloc,
            recent: Vec::new(alloc),
            made: 0,
        }
    }

    // The slot of a name with this hash, where there are slots: their number is a power of two.
    fn slot(&self, hash: usize) -> usize {
        hash & self.recent.len().wrapping_sub(1)
    }

    /// The name as a symbol. `Memory` is the only error.
    pub(crate) fn symbol(&mut self, name: &str) -> Result<Symbol, TtFault>
        ensures name { IfOk result (λ s. s ≡ name.now) }
        ensures memory { IsOkUnless result Memory }
    {
        let hash = hash_of(name);
        if let Some(Some(known)) = self.recent.get(self.slot(hash)) {
            if known.as_str() == name {
                return Ok(known.clone()?);
            }
        }
        let symbol = Symbol::new(self.alloc, name)?;
        self.keep(hash, symbol.clone()?)?;
        Ok(symbol)
    }

    // Stores a name in its slot. There are four times the slots once as many names were made.
    fn keep(&mut self, hash: usize, symbol: Symbol) -> Result<(), TtFault>
        ensures memory { IsOkUnless result Memory }
    {
        let slots = self.recent.len();
        if slots <= self.made && slots < MOST {
            self.recent.resize((4 * slots).max(FEW), None)?;
        }
        self.made = self.made.saturating_add(1);
        let slot = self.slot(hash);
        if let Some(other) = self.recent.get_mut(slot) {
            *other = Some(symbol);
        }
        Ok(())
    }
}

//! How many iterations have ended. No number of bits is enough for every log, so a count has no
//! largest number: beside a word it has a byte for each time that the word was full.
ghost use Rattle.std.specs.Prelude.{◌≡◌, ◌<◌, ◌↔◌, suc, IsTrue, OnOk};

use std::alloc::{AllocError, Global};
use std::marker::Model;

#[derive(Drop)]
pub(crate) struct Count {
    low: usize,
    full: Vec<u8>,
}

impl Model for Count {
    ghost use Rattle.std.specs.Prelude.{ℕ, ◌+◌, ◌*◌, ◌^◌, length};

    ghost Value = { ℕ };

    ghost view = { λ c. length c.full.items * 2 ^ 64 + c.low };
}

impl Count {
    /// Zero.
    pub(crate) fn zero(alloc: Global) -> Count
        ensures { result ≡ 0 }
    {
        Count {
            low: 0,
            full: Vec::new(alloc),
        }
    }

    /// Whether it is above this number.
    #[inline(always)]
    pub(crate) fn is_above(&self, number: usize) -> bool
        ensures { IsTrue result ↔ number < self.now }
    {
        number < self.low || !self.full.is_empty()
    }

    /// Adds one.
    #[inline(always)]
    pub(crate) fn add_one(&mut self) -> Result<(), AllocError>
        ensures { OnOk result (self.new ≡ suc self.old) }
    {
        match self.low.checked_add(1) {
            Some(low) => {
                self.low = low;
                Ok(())
            }
            None => {
                self.full.push(0)?;
                self.low = 0;
                Ok(())
            }
        }
    }
}

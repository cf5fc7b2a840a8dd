//! Bytes of a text with their positions, so that a position is counted on from a near one.
ghost use Rattle.std.specs.Prelude.{◌<◌, ◌^◌, All, IfOk, length};
ghost use Rattle.line_index.specs.Lines.{IsSpot};

use line_index::{BEGIN, Spot, spot_at};
use std::alloc::{AllocError, Global};

// How many bytes are between two spots.
const STEP: usize = 1024;

/// Spots of one text, from left to right.
#[derive(Drop)]
pub struct Spots {
    list: Vec<Spot>,
}

impl Spots {
    ghost use Rattle.call_json.specs.Spots.{AreOf};

    /// Spots of a text of at most `u32::MAX` bytes, one for each 1,024 of them.
    ///
    /// # Errors
    ///
    /// `AllocError` if memory is refused.
    pub fn of(alloc: Global, text: &str) -> Result<Spots, AllocError>
        requires { length text.now < 2 ^ 32 }
        ensures { IfOk result (AreOf text.now) }
    {
        let mut list = Vec::new(alloc);
        let mut last = BEGIN;
        for _ in 0..text.len() / STEP {
            last = spot_at(text, last, last.at.saturating_add(STEP));
            list.push(last)?;
        }
        Ok(Spots { list })
    }

    /// The nearest of these before a byte, or where the text begins.
    pub(crate) fn before(&self, text: &str, at: u32) -> Spot
        requires { AreOf text.now self.now }
        ensures { IsSpot text.now result }
    {
        let index = at as usize / STEP;
        if index == 0 || index > self.list.len() {
            return BEGIN;
        }
        self.list[index - 1]
    }
}

//! Where definitions start, by their ids: the nearest definition of each id.
ghost use Rattle.std.specs.Prelude.{◌≡◌, ℕ, IfOk, OnOk, nat_eq, if◌then◌else◌};
ghost use Rattle.bridge.specs.RelativeSpans.{own_place};
ghost use Rattle.expander_scope.specs.OffsetTables.{place_at};

use bridge::parts::Place;
use std::alloc::{AllocError, Global};
use std::collections::HashMap;

/// Where the nearest definition of each id starts.
#[derive(Drop)]
pub struct Offsets {
    map: HashMap<u32, Place>,
}

impl Offsets {
    /// No definition so far. There is room for `count`.
    #[tactic(auto, unfolding(crate::specs::OffsetTables::place_at))]
    pub fn with_room(alloc: Global, count: usize) -> Result<Self, AllocError>
        ensures { IfOk result (λ starts. (n : ℕ) → place_at starts n ≡ own_place 0) }
    {
        let map = HashMap::with_capacity(alloc, count)?;
        Ok(Offsets { map })
    }

    /// The nearest definition of this id starts at `place` from now on.
    #[tactic(auto, unfolding(crate::specs::OffsetTables::place_at))]
    pub fn insert(&mut self, number: u32, place: Place) -> Result<(), AllocError>
        ensures { OnOk result ((n : ℕ) →
            place_at self.new n ≡ (if nat_eq number n then place else place_at self.old n)) }
    {
        let _ = self.map.insert(number, place)?;
        Ok(())
    }

    /// Where the nearest definition of this id starts, or offset 0 of the text that is expanded if
    /// there is none.
    #[tactic(auto, unfolding(crate::specs::OffsetTables::place_at))]
    pub fn get(&self, number: u32) -> Place
        ensures { result ≡ place_at self.now number }
    {
        self.map
            .get(&number)
            .copied()
            .unwrap_or(Place { text: 0, start: 0 })
    }
}

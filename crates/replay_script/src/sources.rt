//! The sources of a script, by number, and the preludes that are picked out of them.
ghost use Rattle.std.specs.Prelude.{◌≡◌, ◌≤◌, ◌+◌, ◌++◌, IfOk, MatchBool, MatchOption, OnErr, OnOk};
ghost use Rattle.std.specs.Prelude.{List, None, Some, length, option_map, ℕ};
ghost use Rattle.expander_sources.specs.Sources.{Source as SourceOf};
ghost use Rattle.replay_script.specs.Picks.{Picked as PickedOf, all_picked, count_of, named_by};
ghost use Rattle.replay_script.specs.Picks.{picked_by, prelude_of, with_source};
ghost use Rattle.replay_script.specs.Scripts.{indices_of};
ghost use Rattle.replay_script.specs.SourceTables.{source_in};
ghost use Rattle.tt_data.specs.Forest.{Forest};

use crate::line::Pick;
use crate::picks::push_at;
use crate_picks::{push_behind, push_open};
use expander::{Prelude, Source};
use std::alloc::{AllocError, Global};
use std::collections::HashMap;
use tt_data::TtFault;

/// The sources of a script: the last that was read of each number.
#[derive(Drop)]
pub(crate) struct Sources {
    map: HashMap<usize, Source>,
}

/// A prelude, and how many of its definitions are seen by their names.
#[derive(Drop)]
pub(crate) struct Picked {
    pub(crate) prelude: Prelude,
    pub(crate) named: usize,
}

// Adds what a word picks of its source, seen by its name. `false` if an index is not there.
fn push_named(
    alloc: Global,
    prelude: &mut Prelude,
    source: &Source,
    pick: &Pick,
) -> Result<bool, TtFault>
    ensures { IfOk result (λ all. MatchBool all
        ((ps : List Forest) × (named_by source.now (indices_of pick.now) ≡ Some ps)
        × (prelude.new ≡ prelude.old ++ ps))
        (named_by source.now (indices_of pick.now) ≡ None)) }
{
    match &pick.indices {
        Some(indices) => push_at(alloc, prelude, source, indices.as_slice()),
        None => {
            push_open(alloc, prelude, source)?;
            Ok(true)
        }
    }
}

impl Sources {
    /// No sources.
    #[tactic(auto, unfolding(crate::specs::SourceTables::source_in))]
    pub(crate) fn new(alloc: Global) -> Sources
        ensures { (n : ℕ) → source_in result n ≡ None }
    {
        Sources {
            map: HashMap::new(alloc),
        }
    }

    /// The source takes the place of the one with its number. A refused call changes nothing.
    #[tactic(auto, unfolding(crate::specs::SourceTables::source_in))]
    pub(crate) fn put(&mut self, source: Source) -> Result<(), AllocError>
        ensures ok { OnOk result ((n : ℕ) →
            source_in self.new n ≡ with_source source (source_in self.old) n) }
        ensures err { OnErr result ((n : ℕ) → source_in self.new n ≡ source_in self.old n) }
    {
        let number = source.number() as usize;
        let _ = self.map.insert(number, source)?;
        Ok(())
    }

    // The source with this number.
    #[tactic(auto, unfolding(crate::specs::SourceTables::source_in))]
    fn get(&self, number: usize) -> Option<&Source>
        ensures { option_map (λ s. s.now) result ≡ source_in self.now number }
    {
        self.map.get(&number)
    }

    // Adds what a word picks. `false` if there is no such source, or no such index.
    fn push_pick(&self, alloc: Global, picked: &mut Picked, pick: &Pick) -> Result<bool, TtFault>
        requires { picked.old.named ≤ length picked.old.prelude }
        ensures { IfOk result (λ all. MatchBool all
            ((p : PickedOf) × (picked_by (source_in self.now) pick.now ≡ Some p)
            × (picked.new.prelude ≡ picked.old.prelude ++ (p.named ++ p.rooted))
            × (picked.new.named ≡ picked.old.named + length p.named))
            (picked_by (source_in self.now) pick.now ≡ None)) }
    {
        let Some(source) = self.get(pick.source) else {
            return Ok(false);
        };
        let before = picked.prelude.len();
        if !push_named(alloc, &mut picked.prelude, source, pick)? {
            return Ok(false);
        }
        picked.named += picked.prelude.len() - before;
        push_behind(alloc, &mut picked.prelude, source)?;
        Ok(true)
    }

    /// The prelude that words pick. `None` if there is no such source, or no such index.
    pub(crate) fn picked(&self, alloc: Global, picks: &[Pick]) -> Result<Option<Picked>, TtFault>
        ensures { IfOk result (λ o. MatchOption o (all_picked (source_in self.now) picks.now ≡ None)
            (λ r. (ps : List PickedOf) × (all_picked (source_in self.now) picks.now ≡ Some ps)
            × (r.prelude ≡ prelude_of ps) × (r.named ≡ count_of ps))) }
    {
        let mut picked = Picked {
            prelude: Prelude::new(alloc),
            named: 0,
        };
        for pick in picks {
            if !self.push_pick(alloc, &mut picked, pick)? {
                return Ok(None);
            }
        }
        Ok(Some(picked))
    }
}

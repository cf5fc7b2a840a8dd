//! Definitions of a source that indices name, put into a prelude.
ghost use Rattle.std.specs.Prelude.{◌≡◌, ◌++◌, IfOk, List, MatchBool, None, Some};
ghost use Rattle.replay_script.specs.Picks.{picks_at};
ghost use Rattle.tt_data.specs.Forest.{Forest};

use expander::{Prelude, Source};
use std::alloc::Global;
use tt_data::TtFault;

/// Adds the definitions with these indices, seen by their names. `false` if one is not there.
pub(crate) fn push_at(
    alloc: Global,
    prelude: &mut Prelude,
    source: &Source,
    indices: &[usize],
) -> Result<bool, TtFault>
    ensures { IfOk result (λ all. MatchBool all
        ((ps : List Forest) × (picks_at source.now indices.now ≡ Some ps)
        × (prelude.new ≡ prelude.old ++ ps))
        (picks_at source.now indices.now ≡ None)) }
{
    for i in indices {
        if *i >= source.len() {
            return Ok(false);
        }
        prelude.push(alloc, source, *i)?;
    }
    Ok(true)
}

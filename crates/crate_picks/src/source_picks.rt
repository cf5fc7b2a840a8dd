//! All definitions of a source as part of a prelude.
ghost use Rattle.std.specs.Prelude.{◌≡◌, ◌<◌, ◌++◌, OnOk, length};
ghost use Rattle.expander_sources.specs.Sources.{item_at};
ghost use Rattle.crate_picks.specs.SourcePicks.{behind_own, is_open, open_picks, picks_of_source};

use expander_sources::prelude::Prelude;
use expander_sources::source::Source;
use std::alloc::Global;
use tt_data::TtFault;

// Whether a definition is in no inline module, and not built into the compiler.
fn is_open(source: &Source, i: usize) -> bool
    requires { i < length source.now.items }
    ensures { result ≡ is_open (item_at source.now.items i) }
{
    !source.has_attribute(i, "rustc_builtin_macro") && source.modules(i).is_empty()
}

/// Adds the definitions of a source that are in no inline module and not built into the compiler,
/// in order, seen by their names.
pub fn push_open(alloc: Global, prelude: &mut Prelude, source: &Source) -> Result<(), TtFault>
    ensures { OnOk result (prelude.new ≡ prelude.old ++ open_picks source.now) }
{
    for i in 0..source.len() {
        if is_open(source, i) {
            prelude.push(alloc, source, i)?;
        }
    }
    Ok(())
}

/// Adds all definitions of a source of another crate, behind the root of that crate.
pub fn push_behind(alloc: Global, prelude: &mut Prelude, source: &Source) -> Result<(), TtFault>
    ensures { OnOk result (prelude.new ≡ prelude.old ++ behind_own source.now) }
{
    match source.home() {
        Some(home) => prelude.push_rooted(alloc, source, home),
        None => Ok(()),
    }
}

/// Adds the definitions of a source: by their names those that are in no inline module and not
/// built into the compiler, and, where the source is of another crate, all behind the root of that
/// crate.
pub fn push_source(alloc: Global, prelude: &mut Prelude, source: &Source) -> Result<(), TtFault>
    ensures { OnOk result (prelude.new ≡ prelude.old ++ picks_of_source source.now) }
{
    push_open(alloc, prelude, source)?;
    push_behind(alloc, prelude, source)
}

//! Which definitions of libraries a text is expanded after.
ghost use Rattle.std.specs.Prelude.{◌≡◌, ◌<◌, ◌++◌, OnOk, flat_map, length};
ghost use Rattle.expander_sources.specs.Sources.{item_at};
ghost use Rattle.program_files.specs.Picking.{exports_of, is_exported, is_of, picks_at_side};
ghost use Rattle.program_files.specs.Picking.{picks_behind, picks_of_library};
ghost use Rattle.crate_picks.specs.SourcePicks.{picks_of_source};

use crate_picks::push_source;
use expander_sources::home::Home;
use expander_sources::prelude::Prelude;
use expander_sources::source::Source;
use std::alloc::Global;
use tt_data::TtFault;

// Whether a definition is exported by its crate, and not built into the compiler.
fn is_exported(source: &Source, i: usize) -> bool
    requires { i < length source.now.items }
    ensures { result ≡ is_exported (item_at source.now.items i) }
{
    !source.has_attribute(i, "rustc_builtin_macro") && source.has_attribute(i, "macro_export")
}

// Adds the definitions that a source exports, in order, seen by their names.
fn push_exports(alloc: Global, prelude: &mut Prelude, source: &Source) -> Result<(), TtFault>
    ensures { OnOk result (prelude.new ≡ prelude.old ++ exports_of source.now) }
{
    for i in 0..source.len() {
        if is_exported(source, i) {
            prelude.push(alloc, source, i)?;
        }
    }
    Ok(())
}

// Whether a source is of the crate with this root.
fn is_of(source: &Source, root: &Home) -> bool
    ensures { result ≡ is_of root.now source.now }
{
    match source.home() {
        Some(home) => home.root() == root.root(),
        None => false,
    }
}

// Adds the definitions behind a root of those of the sources that are of its crate, or that are
// not.
fn push_side(
    alloc: Global,
    prelude: &mut Prelude,
    sources: &[Source],
    root: &Home,
    own: bool,
) -> Result<(), TtFault>
    ensures { OnOk result (prelude.new
        ≡ prelude.old ++ picks_at_side own sources.now root.now) }
{
    for source in sources {
        if is_of(source, root) == own {
            prelude.push_rooted(alloc, source, root)?;
        }
    }
    Ok(())
}

// Adds the definitions of all the sources behind a root: those of its own crate are nearest.
fn push_behind(
    alloc: Global,
    prelude: &mut Prelude,
    sources: &[Source],
    root: &Home,
) -> Result<(), TtFault>
    ensures { OnOk result (prelude.new ≡ prelude.old ++ picks_behind sources.now root.now) }
{
    push_side(alloc, prelude, sources, root, false)?;
    push_side(alloc, prelude, sources, root, true)
}

// Adds the definitions that the sources export.
fn push_exported(alloc: Global, prelude: &mut Prelude, sources: &[Source]) -> Result<(), TtFault>
    ensures { OnOk result (prelude.new ≡ prelude.old ++ flat_map exports_of sources.now) }
{
    for source in sources {
        push_exports(alloc, prelude, source)?;
    }
    Ok(())
}

// Adds the definitions of the sources behind each of these roots.
fn push_roots(
    alloc: Global,
    prelude: &mut Prelude,
    sources: &[Source],
    roots: &[Home],
) -> Result<(), TtFault>
    ensures { OnOk result (prelude.new
        ≡ prelude.old ++ flat_map (picks_behind sources.now) roots.now) }
{
    for root in roots {
        push_behind(alloc, prelude, sources, root)?;
    }
    Ok(())
}

// Adds the definitions of libraries that export one another's: those that they export, and all
// behind the root of each.
fn push_library(
    alloc: Global,
    prelude: &mut Prelude,
    sources: &[Source],
    roots: &[Home],
) -> Result<(), TtFault>
    ensures { OnOk result (prelude.new ≡ prelude.old ++ picks_of_library sources.now roots.now) }
{
    push_exported(alloc, prelude, sources)?;
    push_roots(alloc, prelude, sources, roots)
}

// Adds the definitions of sources, in order.
fn push_sources(alloc: Global, prelude: &mut Prelude, sources: &[Source]) -> Result<(), TtFault>
    ensures { OnOk result (prelude.new ≡ prelude.old ++ flat_map picks_of_source sources.now) }
{
    for source in sources {
        push_source(alloc, prelude, source)?;
    }
    Ok(())
}

/// Adds the definitions of libraries that export one another's, and then those of other sources.
pub(crate) fn push_before(
    alloc: Global,
    prelude: &mut Prelude,
    library: &[Source],
    roots: &[Home],
    others: &[Source],
) -> Result<(), TtFault>
    ensures { OnOk result (prelude.new ≡ prelude.old
        ++ (picks_of_library library.now roots.now ++ flat_map picks_of_source others.now)) }
{
    push_library(alloc, prelude, library, roots)?;
    push_sources(alloc, prelude, others)
}

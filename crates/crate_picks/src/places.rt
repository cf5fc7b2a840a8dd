//! The definitions at places of a crate, as a prelude.
ghost use Rattle.std.specs.Prelude.{◌≡◌, ◌++◌, OnOk, flat_map, option_map};
ghost use Rattle.crate_picks.specs.Picks.{listed, macro_start, macro_start_at, pick_of, picks_of};
ghost use Rattle.crate_picks.specs.Picks.{source_at};
ghost use Rattle.crate_walk.specs.Modules.{files_of};

use crate::definitions::Definitions;
use crate_walk::{Event, Modules, Place};
use expander_sources::prelude::Prelude;
use std::alloc::Global;
use tt_data::TtFault;

// Where the name of the definition begins that an event is.
fn macro_start(event: &Event) -> Option<usize>
    ensures { result ≡ macro_start event.now }
{
    match event {
        Event::Macro(item) => Some(item.start as usize),
        _ => None,
    }
}

// Where the name of the definition at a place begins.
fn macro_start_at(modules: &Modules, place: Place) -> Option<usize>
    ensures { result ≡ macro_start_at (files_of modules.now) place }
{
    match modules.event(place) {
        Some(event) => macro_start(event),
        None => None,
    }
}

// The definitions of the file of this number.
fn definitions_of(files: &[Option<Definitions>], file: usize) -> Option<&Definitions>
    ensures { option_map (λ d. d.now) result ≡ source_at files.now file }
{
    match files.get(file) {
        Some(Some(definitions)) => Some(definitions),
        _ => None,
    }
}

// Adds the definition at a place.
fn push_place(
    alloc: Global,
    modules: &Modules,
    files: &[Option<Definitions>],
    place: Place,
    prelude: &mut Prelude,
) -> Result<(), TtFault>
    ensures { OnOk result (prelude.new
        ≡ prelude.old ++ listed (pick_of (files_of modules.now) files.now place)) }
{
    let Some(start) = macro_start_at(modules, place) else {
        return Ok(());
    };
    match definitions_of(files, place.file) {
        Some(definitions) => definitions.push_at(alloc, start, prelude),
        None => Ok(()),
    }
}

/// Adds the definitions at these places of a crate, in order: the last is the nearest. `files` has
/// the definitions of each file by its number. A place at which no definition is adds nothing.
///
/// # Errors
///
/// Those of `Prelude::push`. Then some may have been added.
pub fn push_places(
    alloc: Global,
    modules: &Modules,
    files: &[Option<Definitions>],
    places: &[Place],
    prelude: &mut Prelude,
) -> Result<(), TtFault>
    ensures { OnOk result (prelude.new
        ≡ prelude.old ++ picks_of (files_of modules.now) files.now places.now) }
{
    for place in places {
        push_place(alloc, modules, files, *place, prelude)?;
    }
    Ok(())
}

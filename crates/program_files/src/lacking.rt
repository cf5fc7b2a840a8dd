//! Warns of modules that a walk through a crate could not follow.

use crate::shown::push_shown;
use crate::spots::Spots;
use crate_walk::{Content, Event, Lack, ModuleItem, Modules, Place, Step};
use std::alloc::{AllocError, Global};
use std::io;

// The module at a place.
fn module_at(modules: &Modules, place: Place) -> Option<&ModuleItem> {
    match modules.event(place) {
        Some(Event::Outline(item)) => Some(item),
        _ => None,
    }
}

/// The text of a file: nothing if it has none.
pub(crate) fn text_of(modules: &Modules, file: usize) -> &str {
    match modules.content(file) {
        Some(Content::Text(text, _)) => text.as_str(),
        _ => "",
    }
}

// Why a module is passed over.
fn lack_words(why: Lack) -> &'static str {
    match why {
        Lack::Missing => "this module has no file",
        Lack::Ambiguous => "this module has two files",
        Lack::Cycle(_) => "this module is in its own file",
        Lack::Unread(_) => "the file of this module cannot be read",
        Lack::TooMany => "this module is in one file too many",
    }
}

// The line that warns of the module at a place. `folder` is not told of a file that is in it.
fn lack_line(
    alloc: Global,
    modules: &Modules,
    folder: &str,
    spots: &mut Spots,
    place: Place,
    why: Lack,
) -> Result<String, AllocError> {
    let mut line = String::new(alloc);
    let name = modules.file_name(place.file).unwrap_or("");
    push_shown(&mut line, below(folder, name))?;
    if let Some(item) = module_at(modules, place) {
        let text = text_of(modules, place.file);
        let spot = spots.spot(place.file, text, item.start as usize)?;
        let where_it_is = format!(in alloc; ": line {}, byte column {}", spot.line, spot.column)?;
        line.push_str(where_it_is.as_str())?;
    }
    line.push_str(": warning: ")?;
    line.push_str(lack_words(why))?;
    Ok(line)
}

/// The path of a file from a folder that it is in; else as it is.
pub(crate) fn below<'a>(folder: &str, name: &'a str) -> &'a str {
    match name.strip_prefix(folder) {
        Some(rest) => rest.strip_prefix("/").unwrap_or(name),
        None => name,
    }
}

/// Warns of each module that was passed over, in order.
pub fn tell_lacks(rt: &HostRuntime, modules: &Modules, folder: &str) -> io::Result<()> {
    let mut spots = Spots::new(rt.alloc());
    for step in modules.steps() {
        if let Step::Lack(place, why) = step {
            let line = lack_line(rt.alloc(), modules, folder, &mut spots, *place, *why)?;
            eprintln!(rt; "filgordd: {line}")?;
        }
    }
    Ok(())
}

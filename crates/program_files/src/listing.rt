//! Lists the definitions that are in scope at the end of a file.
ghost use Rattle.std.specs.Prelude.{◌<◌, length};

use crate::externs::Extern;
use crate::imports::Import;
use crate::lacking::{below, text_of};
use crate::load::{Loaded, Sources};
use crate::shown::push_shown;
use crate::spots::{Spot, Spots};
use crate::whole::{Whole, brings_all};
use crate_walk::{Event, MacroItem, ModuleItem, Modules, Place};
use expander_sources::source::Source;
use std::alloc::{AllocError, Global};

/// Lines for definitions: the name of each, where it is, and where it comes from.
#[derive(Drop)]
pub(crate) struct Listing<'a> {
    alloc: Global,
    // The folder that is not told of files in it.
    folder: &'a str,
    lines: String,
    sources: Spots,
    files: Spots,
    externs: Vec<Spots>,
}

// Whether a definition of a source is seen by its name: one of a library where it is exported, and
// one of another file where it is in no module.
fn is_seen(source: &Source, i: usize, is_library: bool) -> bool
    requires { i < length source.now.items }
{
    if source.has_attribute(i, "rustc_builtin_macro") {
        return false;
    }
    if is_library {
        source.has_attribute(i, "macro_export")
    } else {
        source.modules(i).is_empty()
    }
}

// Where the name of the definition at a place begins.
fn start_at(modules: &Modules, place: Place) -> usize {
    match modules.event(place) {
        Some(Event::Macro(item)) => item.start as usize,
        _ => 0,
    }
}

// Whether the definitions of an inline module, which is the event of this index, stay in scope
// after it: by an attribute of its own, or by its first item.
fn keeps_macros(item: &ModuleItem, events: &[Event], i: usize) -> bool {
    item.keeps_macros || matches!(events.get(i.saturating_add(1)), Some(Event::MacroUse))
}

// No spot of the files of other crates.
fn spots_of(alloc: Global, externs: &[Extern]) -> Result<Vec<Spots>, AllocError> {
    let mut all = Vec::new(alloc);
    for _ in externs {
        all.push(Spots::new(alloc))?;
    }
    Ok(all)
}

impl<'a> Listing<'a> {
    // No line, for these files.
    fn new(alloc: Global, folder: &'a str, whole: &Whole) -> Result<Listing<'a>, AllocError> {
        Ok(Listing {
            alloc,
            folder,
            lines: String::new(alloc),
            sources: Spots::new(alloc),
            files: Spots::new(alloc),
            externs: spots_of(alloc, whole.externs.as_slice())?,
        })
    }

    // Adds the line of a definition.
    fn push(&mut self, name: &str, file: &str, spot: Spot, from: &str) -> Result<(), AllocError> {
        push_shown(&mut self.lines, name)?;
        self.lines.push(' ')?;
        push_shown(&mut self.lines, file)?;
        let end = format!(in self.alloc; ":{}:{} {from}\n", spot.line, spot.column)?;
        self.lines.push_str(end.as_str())
    }

    // Adds the definitions of a source, which is the one of this index.
    fn push_source(
        &mut self,
        index: usize,
        source: &Source,
        loaded: &Loaded,
        is_library: bool,
    ) -> Result<(), AllocError> {
        let from = if is_library { "std" } else { "with" };
        for i in 0..source.len() {
            if is_seen(source, i, is_library) {
                let start = source.name_range(i).start as usize;
                let spot = self.sources.spot(index, loaded.text.as_str(), start)?;
                self.push(source.name(i), loaded.name.as_str(), spot, from)?;
            }
        }
        Ok(())
    }

    // Adds the definitions of sources, of which the first has this index.
    fn push_sources(
        &mut self,
        first: usize,
        sources: &[Source],
        loaded: &[Loaded],
        is_library: bool,
    ) -> Result<(), AllocError> {
        for (i, source) in sources.iter().enumerate() {
            let index = first.saturating_add(i);
            if let Some(loaded) = loaded.get(index) {
                self.push_source(index, source, loaded, is_library)?;
            }
        }
        Ok(())
    }

    // Adds the definition at a place, which has this name in the file.
    fn push_place(
        &mut self,
        modules: &Modules,
        place: Place,
        name: &str,
        from: &str,
    ) -> Result<(), AllocError> {
        let text = text_of(modules, place.file);
        let spot = self.files.spot(place.file, text, start_at(modules, place))?;
        let file = below(self.folder, modules.file_name(place.file).unwrap_or(""));
        self.push(name, file, spot, from)
    }

    // Adds what is brought of the other crate of this index.
    fn push_extern(
        &mut self,
        index: usize,
        one: &Extern,
        import: &Import,
    ) -> Result<(), AllocError> {
        let place = import.place;
        let modules = &one.walked.modules;
        let text = text_of(modules, place.file);
        let Some(spots) = self.externs.get_mut(index) else {
            return Ok(());
        };
        let spot = spots.spot(place.file, text, start_at(modules, place))?;
        let file = below(self.folder, modules.file_name(place.file).unwrap_or(""));
        self.push(import.name.as_str(), file, spot, "extern")
    }

    // Adds what an event brings of other crates.
    fn push_event(&mut self, externs: &[Extern], event: &Event) -> Result<(), AllocError> {
        for (index, one) in externs.iter().enumerate() {
            for import in &one.brought(self.alloc, event)? {
                self.push_extern(index, one, import)?;
            }
        }
        Ok(())
    }

    // Adds the definition at a place, under this name or its own, or what the place brings of
    // other crates.
    fn push_found(
        &mut self,
        whole: &Whole,
        place: Place,
        name: Option<&str>,
        from: &str,
    ) -> Result<(), AllocError> {
        let modules = &whole.walked.modules;
        match modules.event(place) {
            Some(Event::Macro(item)) => {
                let name = name.unwrap_or(item.name.as_str());
                self.push_place(modules, place, name, from)
            }
            Some(event) => self.push_event(whole.externs.as_slice(), event),
            None => Ok(()),
        }
    }

    // Adds the definitions of the library and of other files.
    fn push_given(&mut self, sources: &Sources) -> Result<(), AllocError> {
        let loaded = sources.files.as_slice();
        let library = sources.library.as_slice();
        self.push_sources(0, library, loaded, true)?;
        self.push_sources(library.len(), sources.with.as_slice(), loaded, false)
    }

    // Adds what a file sees by its place.
    fn push_places(&mut self, whole: &Whole, places: &[Place]) -> Result<(), AllocError> {
        for place in places {
            self.push_found(whole, *place, None, "scope")?;
        }
        Ok(())
    }

    // Adds what a file itself brings of other crates by `extern crate` and by `*`.
    fn push_crates(&mut self, whole: &Whole, file: usize) -> Result<(), AllocError> {
        let Some(content) = whole.walked.modules.content(file) else {
            return Ok(());
        };
        for event in content.events() {
            if brings_all(event) {
                self.push_event(whole.externs.as_slice(), event)?;
            }
        }
        Ok(())
    }

    // Adds what a file imports.
    fn push_imports(&mut self, whole: &Whole, imports: &[Import]) -> Result<(), AllocError> {
        for import in imports {
            let name = Some(import.name.as_str());
            self.push_found(whole, import.place, name, "use")?;
        }
        Ok(())
    }

    // Adds a definition of the file itself.
    fn push_item(
        &mut self,
        modules: &Modules,
        place: Place,
        item: &MacroItem,
    ) -> Result<(), AllocError> {
        self.push_place(modules, place, item.name.as_str(), "own")
    }

    // Adds the definitions of a file itself that are in scope at its end.
    fn push_own(&mut self, modules: &Modules, file: usize) -> Result<(), AllocError> {
        let Some(content) = modules.content(file) else {
            return Ok(());
        };
        let mut next = 0;
        let events = content.events();
        for (i, event) in events.iter().enumerate() {
            match event {
                _ if i < next => {}
                Event::Macro(item) => {
                    let place = Place { file, event: i };
                    self.push_item(modules, place, item)?;
                }
                Event::Inline(item, count) if !keeps_macros(item, events, i) => {
                    next = i.saturating_add(*count).saturating_add(1);
                }
                _ => {}
            }
        }
        Ok(())
    }
}

/// The lines for the definitions that are in scope at the end of a file, the nearest last: those
/// of the library, of other files, of the file's place in the crate, of other crates, of its
/// imports, and its own.
pub fn listed(
    alloc: Global,
    whole: &Whole,
    file: usize,
    folder: &str,
) -> Result<String, AllocError> {
    let walked = &whole.walked;
    let mut listing = Listing::new(alloc, folder, whole)?;
    listing.push_given(&whole.sources)?;
    listing.push_places(whole, walked.seen.places(file))?;
    listing.push_crates(whole, file)?;
    listing.push_imports(whole, walked.imports.of_file(alloc, file)?.as_slice())?;
    listing.push_own(&walked.modules, file)?;
    let Listing { lines, .. } = listing;
    Ok(lines)
}

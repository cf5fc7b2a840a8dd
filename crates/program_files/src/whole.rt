//! All that files of a crate are expanded after.

use crate::chosen::file_at;
use crate::disk::Disk;
use crate::externs::{Extern, push_event};
use crate::imports::Import;
use crate::lacking::text_of;
use crate::load::{Origin, Sources, names_of, origin_of, prelude_of};
use crate::replaced::Replaced;
use crate::walked::{Walked, definitions_of};
use crate_picks::{Definitions, push_places};
use crate_walk::{Content, Event, Modules, Place};
use expander_sources::prelude::Prelude;
use std::alloc::{AllocError, Global};
use tt_data::TtFault;

/// A crate, and what is given of others.
#[derive(Drop)]
pub struct Whole {
    /// The library, and single files.
    pub(crate) sources: Sources,
    /// Other crates.
    pub(crate) externs: Vec<Extern>,
    // The number of the last source of these.
    pub(crate) last: u32,
    /// The path of the crate's root.
    pub(crate) root: String,
    /// Texts that count in place of what the disk has.
    pub(crate) replaced: Replaced,
    /// Whether it has calls that may hand modules on.
    pub(crate) may_hand_on: bool,
    /// The crate.
    pub walked: Walked,
}

/// Whether an event may bring all that another crate exports.
pub(crate) fn brings_all(event: &Event) -> bool {
    match event {
        Event::Crate(_) => true,
        Event::Import(item) => item.name.is_none(),
        _ => false,
    }
}

impl Whole {
    /// The definitions of what the file of this number has, if it has some.
    pub(crate) fn definitions_in(
        &self,
        alloc: Global,
        file: usize,
        content: &Content,
    ) -> Result<Option<Definitions>, TtFault> {
        let number = u64::from(self.last) + file.min(1_000_000) as u64 + 1;
        definitions_of(alloc, Some(content), number.min(0xffff_ffff) as u32, None)
    }

    // Adds the definition at a place, or what it brings of another crate.
    fn push_place(
        &self,
        alloc: Global,
        place: Place,
        prelude: &mut Prelude,
    ) -> Result<(), TtFault> {
        let modules = &self.walked.modules;
        match modules.event(place) {
            Some(Event::Macro(_)) | None => {
                let definitions = self.walked.definitions.as_slice();
                push_places(alloc, modules, definitions, &[place], prelude)
            }
            Some(event) => push_event(alloc, self.externs.as_slice(), event, prelude),
        }
    }

    // Adds what the file itself brings of other crates by `extern crate` and by `*`.
    fn push_crates(
        &self,
        alloc: Global,
        file: usize,
        prelude: &mut Prelude,
    ) -> Result<(), TtFault> {
        let Some(content) = self.walked.modules.content(file) else {
            return Ok(());
        };
        for event in content.events() {
            if brings_all(event) {
                push_event(alloc, self.externs.as_slice(), event, prelude)?;
            }
        }
        Ok(())
    }

    // Adds an import, under the name that it has in its file.
    fn push_import(
        &self,
        alloc: Global,
        import: &Import,
        prelude: &mut Prelude,
    ) -> Result<(), TtFault> {
        match self.walked.modules.event(import.place) {
            Some(Event::Macro(_)) => self.walked.push_import(alloc, import, prelude),
            _ => self.push_place(alloc, import.place, prelude),
        }
    }
}

/// The definitions that a file of a crate is expanded after, the nearest last: those of the
/// library and of single files, those of other crates behind their roots, those by the file's
/// place, its `extern crate` and its imports by `*` of other crates, and those that it imports.
pub fn prelude_of_file(alloc: Global, whole: &Whole, file: usize) -> Result<Prelude, TtFault> {
    let mut prelude = prelude_of(alloc, &whole.sources)?;
    for one in &whole.externs {
        one.push_rooted(alloc, &mut prelude)?;
    }
    for place in whole.walked.seen.places(file) {
        whole.push_place(alloc, *place, &mut prelude)?;
    }
    whole.push_crates(alloc, file, &mut prelude)?;
    for import in &whole.walked.imports.of_file(alloc, file)? {
        whole.push_import(alloc, import, &mut prelude)?;
    }
    Ok(prelude)
}

/// The definitions that the file of this path is expanded after, as `prelude_of_file` has them.
/// Where it is no file of the crate, they are those of the library and of single files.
pub fn prelude_of_path(
    alloc: Global,
    disk: &Disk<'_>,
    whole: &Whole,
    path: &str,
) -> Result<Prelude, TtFault> {
    match file_at(alloc, disk, &whole.walked.modules, path)? {
        Some(file) => prelude_of_file(alloc, whole, file),
        None => prelude_of(alloc, &whole.sources),
    }
}

// The file of a crate of this number.
fn origin_in(modules: &Modules, file: usize) -> Option<Origin<'_>> {
    Some(Origin {
        name: modules.file_name(file)?,
        text: text_of(modules, file),
        is_library: false,
    })
}

/// The file that the source of this index, from 0, comes from, if there is one: in the order of
/// `names_of_whole`.
pub fn origin_of_whole(whole: &Whole, index: usize) -> Option<Origin<'_>> {
    let mut first = whole.sources.files.len();
    if index < first {
        return origin_of(&whole.sources, index);
    }
    for one in &whole.externs {
        let modules = &one.walked.modules;
        let next = first.saturating_add(modules.file_count());
        if index < next {
            return origin_in(modules, index.saturating_sub(first));
        }
        first = next;
    }
    origin_in(&whole.walked.modules, index.saturating_sub(first))
}

// Adds the names of a crate's files.
fn push_names(alloc: Global, modules: &Modules, names: &mut Vec<String>) -> Result<(), AllocError> {
    for file in 0..modules.file_count() {
        let name = modules.file_name(file).unwrap_or("");
        names.push(String::from_str(alloc, name)?)?;
    }
    Ok(())
}

/// The names of the files that definitions come from, in order of their sources' numbers, from 1:
/// those of the library and of single files, those of other crates, and those of the crate.
pub fn names_of_whole(alloc: Global, whole: &Whole) -> Result<Vec<String>, AllocError> {
    let mut names = names_of(alloc, &whole.sources)?;
    for one in &whole.externs {
        push_names(alloc, &one.walked.modules, &mut names)?;
    }
    push_names(alloc, &whole.walked.modules, &mut names)?;
    Ok(names)
}

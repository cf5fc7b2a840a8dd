//! The macros that files of a crate import by `use`.

use crate_imports::{Offers, Target};
use crate_walk::{Event, Modules, Place};
use std::alloc::{AllocError, Global};

/// A name that a file has by path, and where it leads: to a definition of another file, or to an
/// import of something from another crate.
#[derive(Drop)]
pub(crate) struct Import {
    pub(crate) name: String,
    pub(crate) place: Place,
}

/// Names that another crate has here, and where they lead in their own crate.
#[derive(Drop)]
pub(crate) struct Brought {
    alloc: Global,
    pub(crate) all: Vec<Import>,
}

impl Brought {
    /// No name.
    pub(crate) fn new(alloc: Global) -> Brought {
        Brought {
            alloc,
            all: Vec::new(alloc),
        }
    }

    /// Adds a name that leads to this place, if there is one.
    pub(crate) fn push_at(&mut self, name: &str, place: Option<Place>) -> Result<(), AllocError> {
        if let Some(place) = place {
            let name = String::from_str(self.alloc, name)?;
            self.all.push(Import { name, place })?;
        }
        Ok(())
    }
}

/// What the modules of a crate offer, and the modules that are in each file.
#[derive(Drop)]
pub(crate) struct Imports {
    offers: Offers,
    modules: Vec<Vec<usize>>,
}

/// The name of the definition at a place.
pub(crate) fn name_at(modules: &Modules, place: Place) -> Option<&str> {
    match modules.event(place) {
        Some(Event::Macro(item)) => Some(item.name.as_str()),
        _ => None,
    }
}

// No modules, for each of so many files.
fn empty_lists(alloc: Global, count: usize) -> Result<Vec<Vec<usize>>, AllocError> {
    let mut lists = Vec::new(alloc);
    for _ in 0..count {
        lists.push(Vec::new(alloc))?;
    }
    Ok(lists)
}

impl Imports {
    /// The imports of a crate.
    pub(crate) fn new(
        alloc: Global,
        modules: &Modules,
        offers: Offers,
    ) -> Result<Imports, AllocError> {
        let mut lists = empty_lists(alloc, modules.file_count())?;
        for (number, file) in offers.files().iter().enumerate() {
            if let Some(list) = lists.get_mut(*file) {
                list.push(number)?;
            }
        }
        Ok(Imports {
            offers,
            modules: lists,
        })
    }

    // Adds what a module offers of definitions in other files than this.
    fn push_module(
        &self,
        alloc: Global,
        number: usize,
        file: usize,
        all: &mut Vec<Import>,
    ) -> Result<(), AllocError> {
        let Some(macros) = self.offers.macros_of(number) else {
            return Ok(());
        };
        for (name, target) in macros {
            let place = match *target {
                Target::Macro(place) if place.file != file => place,
                Target::Other(place) => place,
                _ => continue,
            };
            let name = String::from_str(alloc, name.as_str())?;
            all.push(Import { name, place })?;
        }
        Ok(())
    }

    // The number of the module that a path of names leads to from the root.
    fn module_at(&self, path: &[String]) -> Option<usize> {
        let mut number = 0;
        for name in path {
            let Target::Module(next) = self.offers.module_named(number, name.as_str())? else {
                return None;
            };
            number = next;
        }
        Some(number)
    }

    /// Where the definition is that a path of names leads to from the root.
    pub(crate) fn export(&self, path: &[String]) -> Option<Place> {
        let (name, modules) = path.split_last()?;
        let number = self.module_at(modules)?;
        match self.offers.macro_named(number, name.as_str())? {
            Target::Macro(place) => Some(place),
            _ => None,
        }
    }

    /// Adds what the module offers that a path of names leads to from the root, in the order of the
    /// names.
    pub(crate) fn push_exports(
        &self,
        path: &[String],
        brought: &mut Brought,
    ) -> Result<(), AllocError> {
        let Some(number) = self.module_at(path) else {
            return Ok(());
        };
        let Some(macros) = self.offers.macros_of(number) else {
            return Ok(());
        };
        for (name, target) in macros {
            if let Target::Macro(place) = *target {
                brought.push_at(name.as_str(), Some(place))?;
            }
        }
        Ok(())
    }

    /// The definitions of other files that the modules in a file have by path.
    pub(crate) fn of_file(&self, alloc: Global, file: usize) -> Result<Vec<Import>, AllocError> {
        let mut all = Vec::new(alloc);
        let Some(numbers) = self.modules.get(file) else {
            return Ok(all);
        };
        for number in numbers {
            self.push_module(alloc, *number, file, &mut all)?;
        }
        Ok(all)
    }
}

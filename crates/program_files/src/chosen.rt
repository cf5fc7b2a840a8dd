//! Which files of a crate a job is on.

use crate::disk::Disk;
use crate::lacking::below;
use crate_walk::{Files, Modules};
use std::alloc::{AllocError, Global};
use std::collections::BTreeMap;

/// A file that a job is on.
#[derive(Drop)]
pub struct Chosen {
    /// Its number in the crate. `None` if it is no file of the crate.
    pub file: Option<usize>,
    /// What it is called in messages.
    pub shown: String,
}

// All files of a crate, in the order in which they are entered.
fn all_files(alloc: Global, modules: &Modules, folder: &str) -> Result<Vec<Chosen>, AllocError> {
    let mut all = Vec::new(alloc);
    for file in 0..modules.file_count() {
        let name = below(folder, modules.file_name(file).unwrap_or(""));
        all.push(Chosen {
            file: Some(file),
            shown: String::from_str(alloc, name)?,
        })?;
    }
    Ok(all)
}

/// The numbers of the files of a crate, by their names.
pub(crate) fn numbers(
    alloc: Global,
    modules: &Modules,
) -> Result<BTreeMap<String, usize>, AllocError> {
    let mut numbers = BTreeMap::new(alloc);
    for file in 0..modules.file_count() {
        if let Some(name) = modules.file_name(file) {
            numbers.insert(String::from_str(alloc, name)?, file)?;
        }
    }
    Ok(numbers)
}

/// The number of the file of a crate that a path leads to, if it is one.
pub(crate) fn file_at(
    alloc: Global,
    disk: &Disk<'_>,
    modules: &Modules,
    path: &str,
) -> Result<Option<usize>, AllocError> {
    match disk.find(alloc, path)? {
        Some(name) => Ok(file_named(modules, name.as_str())),
        None => Ok(None),
    }
}

/// The number of the file of a crate with this name, if it has one.
pub(crate) fn file_named(modules: &Modules, name: &str) -> Option<usize> {
    (0..modules.file_count()).find(|file| modules.file_name(*file) == Some(name))
}

// The files that words name.
fn named_files(
    alloc: Global,
    disk: &Disk<'_>,
    modules: &Modules,
    words: &[&str],
) -> Result<Vec<Chosen>, AllocError> {
    let numbers = numbers(alloc, modules)?;
    let mut named = Vec::new(alloc);
    for word in words {
        let file = match disk.find(alloc, word)? {
            Some(name) => numbers.get(name.as_str()).copied(),
            None => numbers.get(*word).copied(),
        };
        let shown = String::from_str(alloc, word)?;
        named.push(Chosen { file, shown })?;
    }
    Ok(named)
}

/// The files of a crate that these words name, in order, or all of them where there is no word.
/// `folder` is not told of a file that is in it.
pub fn chosen_files(
    alloc: Global,
    disk: &Disk<'_>,
    modules: &Modules,
    words: &[&str],
    folder: &str,
) -> Result<Vec<Chosen>, AllocError> {
    if words.is_empty() {
        all_files(alloc, modules, folder)
    } else {
        named_files(alloc, disk, modules, words)
    }
}

//! Seeks the file of a module.
ghost use Rattle.std.specs.Prelude.{◌≡◌, ℕ, List, Option, IfOk, option_map, string_bytes};
ghost use Rattle.crate_walk.specs.Folders.{Folder, by_folder, by_name, by_path};
ghost use Rattle.crate_walk.specs.Seeking.{IsSought, choice, only, seen};

use crate::event::ModuleItem;
use crate::files::Files;
use crate::folder::Folder;
use std::alloc::{AllocError, Global};

/// What is found out about the file of a module.
#[derive(Drop)]
pub(crate) enum Sought {
    /// There is none.
    Missing,
    /// There are two.
    Ambiguous,
    /// Its name, and where the files of the modules in it are looked for.
    Found(String, Folder),
}

// What is found out where one path was asked for.
fn only(name: Option<String>, folder: Folder) -> Sought
    ensures { seen result ≡ only (option_map string_bytes name) folder }
{
    match name {
        None => Sought::Missing,
        Some(name) => Sought::Found(name, folder),
    }
}

// What is found out where two paths were asked for.
fn choice(
    first: Option<String>,
    first_folder: Folder,
    second: Option<String>,
    second_folder: Folder,
) -> Sought
    ensures { seen result ≡ choice (option_map string_bytes first) first_folder
        (option_map string_bytes second) second_folder }
{
    match first {
        None => only(second, second_folder),
        Some(name) => match second {
            None => Sought::Found(name, first_folder),
            Some(_) => Sought::Ambiguous,
        },
    }
}

// Seeks the file that a `path` attribute names.
fn seek_by_path<F: Files>(
    alloc: Global,
    files: &F,
    folder: &Folder,
    path: &str,
) -> Result<Sought, AllocError>
    ensures { IfOk result (λ s. (a : Option (List ℕ))
        × F.finds files.now (by_path folder.now path.now).0 a
        × (seen s ≡ only a (by_path folder.now path.now).1)) }
{
    let (path, inside) = folder.by_path(alloc, path)?;
    let name = files.find(alloc, path.as_str())?;
    Ok(only(name, inside))
}

// Seeks the file of a module by its name.
fn seek_by_name<F: Files>(
    alloc: Global,
    files: &F,
    folder: &Folder,
    name: &str,
) -> Result<Sought, AllocError>
    ensures { IfOk result (λ s. (a : Option (List ℕ)) × (b : Option (List ℕ))
        × F.finds files.now (by_name folder.now name.now).0 a
        × F.finds files.now (by_folder folder.now name.now).0 b
        × (seen s ≡ choice a (by_name folder.now name.now).1
        b (by_folder folder.now name.now).1)) }
{
    let (path, inside) = folder.by_name(alloc, name)?;
    let first = files.find(alloc, path.as_str())?;
    let (path, beside) = folder.by_folder(alloc, name)?;
    let second = files.find(alloc, path.as_str())?;
    Ok(choice(first, inside, second, beside))
}

/// Seeks the file of a module that is declared where the files of modules are looked for in this
/// folder.
pub(crate) fn seek<F: Files>(
    alloc: Global,
    files: &F,
    folder: &Folder,
    item: &ModuleItem,
) -> Result<Sought, AllocError>
    ensures { IfOk result (λ s. IsSought (F.finds files.now) folder.now item.now (seen s)) }
{
    match &item.path {
        Some(path) => seek_by_path(alloc, files, folder, path.as_str()),
        None => seek_by_name(alloc, files, folder, item.name.as_str()),
    }
}

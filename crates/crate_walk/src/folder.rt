//! Where the file of a module is looked for. (The Rust Reference, "Modules": module source
//! filenames, the `path` attribute.)
ghost use Rattle.std.specs.Prelude.{◌≡◌, ◌++◌, IfOk, OnOk, OnErr, codes, option_map, string_bytes};
ghost use Rattle.crate_walk.specs.Folders.{Folder, as_folder, both, by_folder, by_name, by_path};
ghost use Rattle.crate_walk.specs.Folders.{folder_of, inside, is_folder, joined, root_folder};

use std::alloc::{AllocError, Global};
use std::marker::Model;

/// Where the files of the modules of a place are looked for. It is a text before their paths:
/// empty, or with a slash at its end.
#[derive(Drop)]
pub struct Folder {
    files: String,
    modules: String,
}

impl Model for Folder {
    ghost use Rattle.std.specs.Prelude.{string_bytes};
    ghost use Rattle.crate_walk.specs.Folders.{Folder, folder_code};

    ghost Value = { Folder };

    ghost coded = { folder_code };

    ghost view = { λ f. record { files = string_bytes f.files; modules = string_bytes f.modules } };
}

// A text, and another behind it.
fn appended(alloc: Global, front: &str, back: &str) -> Result<String, AllocError>
    ensures { IfOk result (λ t. string_bytes t ≡ front.now ++ back.now) }
{
    let mut text = String::from_str(alloc, front)?;
    text.push_str(back)?;
    Ok(text)
}

// The folder of the file with this path.
fn folder_of(alloc: Global, path: &str) -> Result<String, AllocError>
    ensures { IfOk result (λ f. string_bytes f ≡ folder_of path.now) }
{
    match path.rsplit_once('/') {
        Some((front, _)) => appended(alloc, front, "/"),
        None => Ok(String::new(alloc)),
    }
}

// Where a path leads from a folder.
fn joined(alloc: Global, folder: &str, path: &str) -> Result<String, AllocError>
    ensures { IfOk result (λ p. string_bytes p ≡ joined folder.now path.now) }
{
    if path.starts_with("/") {
        String::from_str(alloc, path)
    } else {
        appended(alloc, folder, path)
    }
}

// Whether a path is empty or ends with a slash.
fn is_folder(path: &str) -> bool
    ensures { result ≡ is_folder path.now }
{
    path.is_empty() || path.ends_with("/")
}

// A path as a folder.
fn as_folder(path: String) -> Result<String, AllocError>
    ensures { IfOk result (λ p. string_bytes p ≡ as_folder (string_bytes path)) }
{
    if is_folder(path.as_str()) {
        return Ok(path);
    }
    let mut folder = path;
    folder.push_str("/")?;
    Ok(folder)
}

// The text, this name, and what is behind it.
fn named(alloc: Global, folder: &str, name: &str, end: &str) -> Result<String, AllocError>
    ensures { IfOk result (λ p. string_bytes p ≡ folder.now ++ (name.now ++ end.now)) }
{
    let mut all = String::from_str(alloc, folder)?;
    all.push_str(name)?;
    all.push_str(end)?;
    Ok(all)
}

// The folder whose files and modules have this text before them.
fn both(alloc: Global, text: String) -> Result<Folder, AllocError>
    ensures { IfOk result (λ f. f ≡ both (string_bytes text)) }
{
    Ok(Folder {
        files: String::from_str(alloc, text.as_str())?,
        modules: text,
    })
}

impl Folder {
    /// Where the modules of a crate are looked for whose root file has this path.
    pub fn of_root(alloc: Global, path: &str) -> Result<Folder, AllocError>
        ensures { IfOk result (λ f. f ≡ root_folder path.now) }
    {
        let text = folder_of(alloc, path)?;
        both(alloc, text)
    }

    /// Where the modules in an inline module are looked for: `path` is what its attribute says.
    pub fn inside(
        &self,
        alloc: Global,
        name: &str,
        path: Option<&str>,
    ) -> Result<Folder, AllocError>
        ensures { IfOk result (λ f. f
            ≡ inside self.now name.now (option_map (λ p. p.now) path.entry)) }
    {
        let text = match path {
            None => named(alloc, self.modules.as_str(), name, "/")?,
            Some(path) => as_folder(joined(alloc, self.files.as_str(), path)?)?,
        };
        both(alloc, text)
    }

    /// The file that a `path` attribute names, and where the modules in it are looked for.
    pub fn by_path(&self, alloc: Global, path: &str) -> Result<(String, Folder), AllocError>
        ensures { IfOk result (λ r. (string_bytes r.0, r.1) ≡ by_path self.now path.now) }
    {
        let file = joined(alloc, self.files.as_str(), path)?;
        let folder = Folder::of_root(alloc, file.as_str())?;
        Ok((file, folder))
    }

    /// The file `name.rs`, and where the modules in it are looked for.
    pub fn by_name(&self, alloc: Global, name: &str) -> Result<(String, Folder), AllocError>
        ensures { IfOk result (λ r. (string_bytes r.0, r.1) ≡ by_name self.now name.now) }
    {
        let file = named(alloc, self.modules.as_str(), name, ".rs")?;
        let folder = Folder {
            files: String::from_str(alloc, self.modules.as_str())?,
            modules: named(alloc, self.modules.as_str(), name, "/")?,
        };
        Ok((file, folder))
    }

    /// The file `name/mod.rs`, and where the modules in it are looked for.
    pub fn by_folder(&self, alloc: Global, name: &str) -> Result<(String, Folder), AllocError>
        ensures { IfOk result (λ r. (string_bytes r.0, r.1) ≡ by_folder self.now name.now) }
    {
        let file = named(alloc, self.modules.as_str(), name, "/mod.rs")?;
        let text = named(alloc, self.modules.as_str(), name, "/")?;
        Ok((file, both(alloc, text)?))
    }
}

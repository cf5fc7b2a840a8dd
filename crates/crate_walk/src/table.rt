//! The files that were read.
ghost use Rattle.std.specs.Prelude.{◌≡◌, ◌++◌, ◌∷◌, [], false, IfOk, IfSome, OnOk, OnErr, IfNone};
ghost use Rattle.std.specs.Prelude.{length, string_bytes};
ghost use Rattle.indexmap.specs.IndexSet.{contains_text};
ghost use Rattle.crate_walk.specs.Tables.{Adds, HasName};

use crate::files::Content;
use indexmap::IndexSet;
use std::alloc::{AllocError, Global};

/// The files that were read, numbered from 0: their names, and what each has.
#[derive(Drop)]
pub(crate) struct Table {
    pub(crate) names: IndexSet<String>,
    pub(crate) contents: Vec<Content>,
}

impl Table {
    /// No file was read.
    pub(crate) fn new(alloc: Global) -> Table
        ensures names { result.names.keys ≡ [] }
        ensures contents { result.contents.items ≡ [] }
    {
        Table {
            names: IndexSet::new(alloc),
            contents: Vec::new(alloc),
        }
    }

    /// The number of the file of this name.
    pub(crate) fn number_of(&self, name: &str) -> Option<usize>
        ensures found { IfSome result (λ k. HasName self.now k name.now) }
        ensures absent { IfNone result (contains_text self.now.names name.now ≡ false) }
    {
        self.names.get_index_of(name)
    }

    /// Adds a file of a new name, and answers its number.
    pub(crate) fn add(&mut self, name: String, content: Content) -> Result<usize, AllocError>
        requires { contains_text self.old.names (string_bytes name) ≡ false }
        ensures { IfOk result (λ k. Adds self.old self.new (string_bytes name) content k) }
    {
        let number = self.contents.len();
        self.names.insert(name)?;
        self.contents.push(content)?;
        Ok(number)
    }
}

//! The modules of a crate in order.
ghost use Rattle.std.specs.Prelude.{◌≡◌, ◌<◌, Some, length, option_copied, option_map, slice_set};
ghost use Rattle.std.specs.List.{slice_get};
ghost use Rattle.crate_walk.specs.Files.{event_of};
ghost use Rattle.crate_walk.specs.Modules.{files_of, steps_of};

use crate::event::Event;
use crate::files::Content;
use crate::step::{Place, Step};
use crate::table::Table;

/// The modules of a crate in order, and the files that were read.
#[derive(Drop)]
pub struct Modules {
    pub(crate) table: Table,
    pub(crate) steps: Vec<Step>,
}

impl Modules {
    /// The steps of the walk, in order.
    pub fn steps(&self) -> &[Step]
        ensures { result.now ≡ steps_of self.now }
    {
        self.steps.as_slice()
    }

    /// How many files were read.
    pub fn file_count(&self) -> usize
        ensures { result ≡ length (files_of self.now).contents }
    {
        self.table.contents.len()
    }

    /// The name of the file of this number.
    pub fn file_name(&self, file: usize) -> Option<&str>
        ensures { option_map (λ n. n.now) result ≡ slice_get (files_of self.now).names file }
    {
        match self.table.names.get_index(file) {
            Some(name) => Some(name.as_str()),
            None => None,
        }
    }

    /// What the file of this number has.
    pub fn content(&self, file: usize) -> Option<&Content>
        ensures { option_copied result ≡ slice_get (files_of self.now).contents file }
    {
        self.table.contents.as_slice().get(file)
    }

    /// Has the file of this number have this in place of what was read. Nothing changes if there is
    /// no such file.
    pub fn set_content(&mut self, file: usize, content: Content)
        ensures contents { (files_of self.new).contents
            ≡ slice_set (files_of self.old).contents file content }
        ensures names { (files_of self.new).names ≡ (files_of self.old).names }
        ensures steps { steps_of self.new ≡ steps_of self.old }
    {
        if file < self.table.contents.len() {
            self.table.contents[file] = content;
        }
    }

    /// The event of this index of a file.
    pub fn event(&self, place: Place) -> Option<&Event>
        ensures { option_copied result ≡ event_of (files_of self.now) place }
    {
        self.content(place.file)?.events().get(place.event)
    }
}

//! Texts of files that count in place of what the disk has.

use std::alloc::Global;
use std::collections::BTreeMap;

/// Texts of files that count in place of what the disk has, by the names of the files.
#[derive(Drop)]
pub(crate) struct Replaced {
    /// Those that are open.
    pub(crate) open: BTreeMap<String, String>,
    /// Those that were read first of files that were open at some time.
    pub(crate) read_first: BTreeMap<String, String>,
}

impl Replaced {
    /// None.
    pub(crate) fn new(alloc: Global) -> Replaced {
        Replaced {
            open: BTreeMap::new(alloc),
            read_first: BTreeMap::new(alloc),
        }
    }

    /// The text that a file has, if it is one of these.
    pub(crate) fn text(&self, name: &str) -> Option<&str> {
        match self.open.get(name) {
            Some(text) => Some(text.as_str()),
            None => Some(self.read_first.get(name)?.as_str()),
        }
    }
}

//! Files that stand in a list.
use cfg_options::CfgOptions;
use crate_items::content_of;
use crate_walk::{Content, Files, Unread};
use std::alloc::{AllocError, Global};

/// A path, the name of the file that it leads to, and what that has: `None` if it cannot be read.
#[derive(Clone, Copy)]
pub(crate) struct Entry<'a> {
    pub(crate) path: &'a str,
    pub(crate) name: &'a str,
    pub(crate) text: Option<&'a str>,
}

/// A file whose name is its path.
pub(crate) fn file<'a>(path: &'a str, text: &'a str) -> Entry<'a> {
    Entry {
        path,
        name: path,
        text: Some(text),
    }
}

/// Another path to a file.
pub(crate) fn link<'a>(path: &'a str, name: &'a str) -> Entry<'a> {
    Entry {
        path,
        name,
        text: None,
    }
}

/// These files, under these options.
#[derive(Drop)]
pub(crate) struct Listed<'a> {
    pub(crate) entries: &'a [Entry<'a>],
    pub(crate) options: &'a CfgOptions,
}

impl<'a> Files for Listed<'a> {
    ghost finds = { λ _ _ _. Unit {0} };

    ghost reads = { λ _ _ _. Unit {0} };

    fn find(&self, alloc: Global, path: &str) -> Result<Option<String>, AllocError> {
        for entry in self.entries {
            if entry.path == path {
                return Ok(Some(String::from_str(alloc, entry.name)?));
            }
        }
        Ok(None)
    }

    fn read(&self, alloc: Global, name: &str) -> Result<Content, AllocError> {
        for entry in self.entries {
            if entry.path == name {
                return match entry.text {
                    Some(text) => content_of(alloc, self.options, String::from_str(alloc, text)?),
                    None => Ok(Content::Unread(Unread::Failed)),
                };
            }
        }
        Ok(Content::Unread(Unread::Failed))
    }
}

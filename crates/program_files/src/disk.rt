//! The files of a crate, on the disk.
use crate::files::{opened, read_whole};
use crate::source::blank_front;
use cfg_options::CfgOptions;
use crate_items::content_of_bytes;
use crate_walk::{Content, Files, Unread};
use std::alloc::{AllocError, Global};
use std::{fs, io};

/// The files on the disk. What they declare counts under these options. The name of a file is its
/// canonical path.
#[derive(Drop)]
pub struct Disk<'a> {
    pub rt: &'a HostRuntime,
    pub options: &'a CfgOptions,
}

// Nothing, unless memory was refused.
fn nothing<T>(error: &io::Error) -> Result<Option<T>, AllocError> {
    match error.kind() {
        io::ErrorKind::OutOfMemory => Err(AllocError),
        _ => Ok(None),
    }
}

// The canonical path of a file that is no folder.
fn name_of(rt: &HostRuntime, path: &str) -> io::Result<Option<String>> {
    if fs::metadata(rt, path)?.is_dir() {
        return Ok(None);
    }
    Ok(Some(fs::canonicalize(rt, path)?.into_string()))
}

/// The bytes of a file, in which what is no code is blank.
pub fn code_in(rt: &HostRuntime, name: &str) -> io::Result<Vec<u8>> {
    let file = opened(rt, name)?;
    match read_whole(rt.alloc(), file) {
        Ok(mut bytes) => {
            blank_front(bytes.as_mut_slice());
            Ok(bytes)
        }
        Err("out of memory") => Err(io::Error::from(io::ErrorKind::OutOfMemory)),
        Err(_) => Err(io::Error::from(io::ErrorKind::Other)),
    }
}

impl<'a> Files for Disk<'a> {
    ghost finds = { λ _ _ _. Unit {0} };

    ghost reads = { λ _ _ _. Unit {0} };

    fn find(&self, _alloc: Global, path: &str) -> Result<Option<String>, AllocError> {
        match name_of(self.rt, path) {
            Ok(name) => Ok(name),
            Err(error) => nothing(&error),
        }
    }

    fn read(&self, alloc: Global, name: &str) -> Result<Content, AllocError> {
        match code_in(self.rt, name) {
            Ok(bytes) => content_of_bytes(alloc, self.options, bytes),
            Err(error) => match nothing(&error)? {
                Some(content) => Ok(content),
                None => Ok(Content::Unread(Unread::Failed)),
            },
        }
    }
}

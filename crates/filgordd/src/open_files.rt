//! The texts that an editor has open, by the names of their files.

use crate::uri::uri_of;
use session_workspace::{Elsewhere, byte_before};
use std::alloc::{AllocError, Global};
use std::collections::BTreeMap;
use tt_data::TextRange;

// A text that is open: its URI, as the editor says it, and the text.
#[derive(Drop)]
struct OpenFile {
    uri: String,
    text: String,
}

/// The texts that an editor has open, by the names of their files.
#[derive(Drop)]
pub(crate) struct OpenFiles {
    all: BTreeMap<String, OpenFile>,
}

// The byte of an open text that one of a text is of which it was made, by one replaced part. In the
// part itself it is the same one.
fn moved(text: &str, newer: &str, at: u32) -> u32 {
    let at = text.len().min(at as usize);
    let same = byte_before(newer, text, at).unwrap_or(at);
    same.min(u32::MAX as usize) as u32
}

impl OpenFiles {
    /// None.
    pub(crate) fn new(alloc: Global) -> OpenFiles {
        OpenFiles {
            all: BTreeMap::new(alloc),
        }
    }

    /// Has the text of this URI, which is that of the file of this name, be open with this text, or
    /// closed without one.
    pub(crate) fn set(
        &mut self,
        alloc: Global,
        name: &str,
        uri: &str,
        text: Option<&str>,
    ) -> Result<(), AllocError> {
        let Some(text) = text else {
            self.all.remove(name);
            return Ok(());
        };
        let open = OpenFile {
            uri: String::from_str(alloc, uri)?,
            text: String::from_str(alloc, text)?,
        };
        self.all.insert(String::from_str(alloc, name)?, open)?;
        Ok(())
    }

    /// Where these bytes of the file of this name are now, which has this text: in the text that is
    /// open, if one is. Where more than one part of it was replaced they may be beside it.
    pub(crate) fn elsewhere(
        &self,
        alloc: Global,
        name: &str,
        text: &str,
        range: TextRange,
    ) -> Result<Elsewhere, AllocError> {
        let Some(open) = self.all.get(name) else {
            return Ok(Elsewhere {
                uri: uri_of(alloc, name)?,
                text: String::from_str(alloc, text)?,
                range,
            });
        };
        let now = open.text.as_str();
        let start = moved(text, now, range.start);
        let end = start.saturating_add(range.end.saturating_sub(range.start));
        Ok(Elsewhere {
            uri: String::from_str(alloc, open.uri.as_str())?,
            text: String::from_str(alloc, now)?,
            range: TextRange { start, end },
        })
    }
}

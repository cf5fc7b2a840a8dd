//! Readers that give a text in parts or fail, and writers that take little or fail.
use std::alloc::Global;
use std::io;
use std::io::{Read, Write};

/// Gives at most `most` bytes a call, and fails after `cut` bytes. It knows whether it was called
/// after that.
#[derive(Drop)]
pub(crate) struct Pieces<'a> {
    pub left: &'a [u8],
    pub most: usize,
    pub cut: Option<usize>,
    pub kind: io::ErrorKind,
    pub failed: bool,
    pub asked_again: bool,
}

impl Read for Pieces<'_> {
    fn read(&mut self, buf: &mut [u8]) -> io::Result<usize> {
        if self.failed {
            self.asked_again = true;
        }
        let mut most = self.most.min(buf.len()).min(self.left.len());
        if let Some(cut) = self.cut {
            if cut == 0 {
                self.failed = true;
                return Err(io::Error::from(self.kind));
            }
            most = most.min(cut);
            self.cut = Some(cut - most);
        }
        let (front, back) = self.left.split_at(most);
        buf[..most].copy_from_slice(front);
        self.left = back;
        Ok(most)
    }
}

/// How a writer ends.
#[derive(Clone, Copy, Debug, PartialEq, Eq)]
pub(crate) enum End {
    Fails(io::ErrorKind),
    TakesNothing,
}

/// Takes at most `most` bytes a call, has room for `room` bytes, and counts its flushes, which may
/// fail. It knows whether it was called after a failure.
#[derive(Drop)]
pub(crate) struct Narrow {
    pub got: Vec<u8>,
    pub most: usize,
    pub room: usize,
    pub end: End,
    pub flushes: u8,
    pub flush_fails: Option<io::ErrorKind>,
    pub failed: bool,
    pub asked_again: bool,
}

impl Write for Narrow {
    fn write(&mut self, buf: &[u8]) -> io::Result<usize> {
        if self.failed {
            self.asked_again = true;
        }
        let taken = buf.len().min(self.most).min(self.room);
        if taken == 0 {
            self.failed = true;
            return match self.end {
                End::Fails(kind) => Err(io::Error::from(kind)),
                End::TakesNothing => Ok(0),
            };
        }
        if let Err(refusal) = self.got.extend_from_slice(&buf[..taken]) {
            self.failed = true;
            return Err(io::Error::from(refusal));
        }
        self.room -= taken;
        Ok(taken)
    }

    fn flush(&mut self) -> io::Result<()> {
        if self.failed {
            self.asked_again = true;
        }
        self.flushes = self.flushes.saturating_add(1);
        match self.flush_fails {
            Some(kind) => {
                self.failed = true;
                Err(io::Error::from(kind))
            }
            None => Ok(()),
        }
    }
}

/// A reader that does not fail.
pub(crate) fn whole(text: &[u8]) -> Pieces<'_> {
    Pieces {
        left: text,
        most: 4,
        cut: None,
        kind: io::ErrorKind::Other,
        failed: false,
        asked_again: false,
    }
}

/// A writer that does not fail.
pub(crate) fn wide(alloc: Global) -> Narrow {
    Narrow {
        got: Vec::new(alloc),
        most: 3,
        room: 200,
        end: End::TakesNothing,
        flushes: 0,
        flush_fails: None,
        failed: false,
        asked_again: false,
    }
}

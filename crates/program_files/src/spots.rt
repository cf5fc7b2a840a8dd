//! Lines and columns of offsets in files, counted on from one offset to the next.

use std::alloc::{AllocError, Global};
use std::collections::BTreeMap;

/// An offset in a text, and its line and its byte column, from 1.
#[derive(Clone, Copy, Drop)]
pub(crate) struct Spot {
    at: usize,
    pub(crate) line: usize,
    pub(crate) column: usize,
}

const FIRST: Spot = Spot {
    at: 0,
    line: 1,
    column: 1,
};

/// The last spot of each file that was asked for one.
#[derive(Drop)]
pub(crate) struct Spots {
    last: BTreeMap<usize, Spot>,
}

// The spot of an offset, counted on from one that is not behind it.
fn counted(text: &[u8], from: Spot, at: usize) -> Spot {
    let Some(between) = text.get(from.at..at) else {
        return from;
    };
    let mut spot = Spot { at, ..from };
    for byte in between {
        if *byte == b'\n' {
            spot.line = spot.line.saturating_add(1);
            spot.column = 1;
        } else {
            spot.column = spot.column.saturating_add(1);
        }
    }
    spot
}

impl Spots {
    /// No file was asked for one.
    pub(crate) fn new(alloc: Global) -> Spots {
        Spots {
            last: BTreeMap::new(alloc),
        }
    }

    /// The spot of an offset in the text of a file. Spots in order take the time of one pass.
    pub(crate) fn spot(&mut self, file: usize, text: &str, at: usize) -> Result<Spot, AllocError> {
        let from = match self.last.get(&file) {
            Some(last) if last.at <= at => *last,
            _ => FIRST,
        };
        let spot = counted(text.as_bytes(), from, at);
        self.last.insert(file, spot)?;
        Ok(spot)
    }
}

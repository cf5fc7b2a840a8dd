//! Where the memos that a text made last stand among all its memos, so that equal pieces share
//! one. It decides speed and memory alone.

use std::alloc::{AllocError, Global};

// How many memos are kept at most: a power of two.
const MOST: usize = 4096;

// How many are made before the first is kept: a text with few needs none.
const FEW: usize = 512;

/// The indices of the memos that a text made last, by the hash of their tree.
#[derive(Drop)]
pub(crate) struct RecentMemos {
    // How many were made.
    count: usize,
    // In each slot, the index of the last memo of that slot, or 0. Empty before the first is kept.
    slots: Vec<usize>,
}

// The slot of a tree with this hash.
fn slot_of(hash: u64) -> usize {
    hash as usize % MOST
}

impl RecentMemos {
    /// No memo yet.
    pub fn new(alloc: Global) -> Self {
        RecentMemos {
            count: 0,
            slots: Vec::new(alloc),
        }
    }

    /// The index of a memo that may have a tree with this hash.
    pub fn get(&self, hash: u64) -> Option<usize> {
        self.slots.get(slot_of(hash)).copied()
    }

    /// Keeps the index of a memo that has a tree with this hash.
    pub fn keep(&mut self, hash: u64, index: usize) -> Result<(), AllocError> {
        self.count = self.count.saturating_add(1);
        if self.count < FEW {
            return Ok(());
        }
        if self.slots.is_empty() {
            self.slots.resize(MOST, 0)?;
        }
        if let Some(slot) = self.slots.get_mut(slot_of(hash)) {
            *slot = index;
        }
        Ok(())
    }
}

//! The list of bytes.
ghost use Rattle.std.specs.Prelude.{◌≡◌, [], ◌+◌, ◌*◌, ◌^◌, ◌<◌, ◌≤◌, ◌++◌, List, ℕ, length, take};
ghost use Rattle.std.specs.Prelude.{drop, OnOk, OnErr};
ghost use Rattle.std.specs.Mem.Slots.{slots_items, slots_len};
ghost use Rattle.byte_buffer.specs.Blocks.{IsOneOf};
ghost use Rattle.byte_buffer.specs.Places.{HoldsFirst, IsTwice, KeepsFirst};

use crate::block::{Block, lend, write};
use std::alloc::{AllocError, Global};
use std::marker::Model;
use std::mem::replace;

// The least number of places in a block.
const LEAST: usize = 128;

/// A list of bytes in one block of memory.
pub struct ByteBuffer {
    block: Block<u8, Global>,
    len: usize,
    alloc: Global,
}

impl Model for ByteBuffer {
    ghost Value = { List ℕ };

    ghost view = { λ b. take b.len (slots_items b.block.places) };

    ghost invariant = { λ b. IsOneOf b.alloc b.block × HoldsFirst b.len b.block.places };
}

impl Drop for ByteBuffer {
    fn drop(self) {
        let ByteBuffer {
            block,
            len: _,
            alloc,
        } = self;
        block.free(&alloc);
    }
}

impl ByteBuffer {
    /// No bytes. It takes no memory.
    pub fn new(alloc: Global) -> ByteBuffer
        ensures { result ≡ [] }
    {
        let block = Block::none(&alloc);
        ByteBuffer {
            block,
            len: 0,
            alloc,
        }
    }

    /// Makes room for `more` bytes. The bytes stay the same.
    ///
    /// # Errors
    ///
    /// Want of memory.
    pub fn reserve(&mut self, more: usize) -> Result<(), AllocError>
        ensures { self.new ≡ self.old }
    {
        if self.block.places.len() - self.len < more {
            grow(&mut self.block, &self.alloc, self.len, more)?;
        }
        Ok(())
    }

    /// Appends bytes.
    ///
    /// # Errors
    ///
    /// Want of memory. The bytes then stay the same.
    pub fn append(&mut self, more: &[u8]) -> Result<(), AllocError>
        ensures ok { OnOk result (self.new ≡ self.old ++ more.now) }
        ensures err { OnErr result (self.new ≡ self.old) }
    {
        if self.block.places.len() - self.len < more.len() {
            grow(&mut self.block, &self.alloc, self.len, more.len())?;
        }
        self.block.places.copy_in(self.len, more);
        self.len += more.len();
        Ok(())
    }

    /// Appends an array. It is stored as a whole, by a few instructions.
    ///
    /// # Errors
    ///
    /// Want of memory. The bytes then stay the same.
    pub fn append_array<const N: usize>(&mut self, more: [u8; N]) -> Result<(), AllocError>
        ensures ok { OnOk result (self.new ≡ self.old ++ more.entry) }
        ensures err { OnErr result (self.new ≡ self.old) }
    {
        if self.block.places.len() - self.len < N {
            grow(&mut self.block, &self.alloc, self.len, N)?;
        }
        write(&mut self.block.places, self.block.start, self.len, more);
        self.len += N;
        Ok(())
    }

    /// Writes bytes over those from the index `at` on. It takes no memory.
    pub fn patch(&mut self, at: usize, over: &[u8])
        requires { at + length over.now ≤ length self.old }
        ensures { self.new ≡ take at self.old
            ++ (over.now ++ drop (at + length over.now) self.old) }
    {
        self.block.places.copy_in(at, over);
    }

    /// Takes out `count` bytes from the index `at` on. It takes no memory.
    pub fn cut_out(&mut self, at: usize, count: usize)
        requires { at + count ≤ length self.old }
        ensures { self.new ≡ take at self.old ++ drop (at + count) self.old }
    {
        let len = self.len - count;
        self.block.places.move_within(at + count, at, len - at);
        self.len = len;
    }

    /// Keeps the first `len` bytes alone, or all if there are fewer. It takes no memory.
    pub fn cut_back(&mut self, len: usize)
        ensures { self.new ≡ take len self.old }
    {
        if len < self.len {
            self.len = len;
        }
    }

    /// All bytes.
    pub fn bytes(&self) -> &[u8]
        ensures { result.now ≡ self.now }
    {
        lend(&self.block.places, self.block.start, self.len)
    }
}

// How many places the block after one of `places` has: twice as many, or as many as are wanted.
fn grown(places: usize, wanted: usize) -> usize
    ensures enough { (wanted ≤ result) × (0 < result) }
    ensures fits { wanted < 2 ^ 63 → result < 2 ^ 63 }
    ensures twice { places < 2 ^ 62 → 2 * places ≤ result }
{
    let least = if wanted < LEAST { LEAST } else { wanted };
    if places < 1 << 62 && least < 2 * places {
        return 2 * places;
    }
    least
}

// Makes the block one with `more` places behind the first `len` bytes. It is refused where the
// allocator refuses, or where no block has so many places. The bytes stay the same.
#[cold]
#[inline(never)]
fn grow(
    block: &mut Block<u8, Global>,
    alloc: &Global,
    len: usize,
    more: usize,
) -> Result<(), AllocError>
    requires one { IsOneOf alloc.now block.old × HoldsFirst len block.old.places }
    requires lack { slots_len block.old.places < len + more }
    ensures one { IsOneOf alloc.now block.new × HoldsFirst len block.new.places }
    ensures values { KeepsFirst len block.old.places block.new.places }
    ensures room { OnOk result (len + more ≤ slots_len block.new.places) }
    ensures twice { OnOk result (IsTwice block.old.places block.new.places) }
{
    let wanted = grown(block.places.len(), len.saturating_add(more));
    if (isize::MAX as usize) < wanted {
        return Err(AllocError);
    }
    let (next, is_grown) = replace(block, Block::none(alloc)).resized(alloc, len, wanted);
    replace(block, next).free(alloc);
    if is_grown { Ok(()) } else { Err(AllocError) }
}

//! What a buffer has.
ghost use Rattle.std.specs.Prelude.{◌≡◌, ◌↔◌, ◌≤◌, [], IsTrue, List, length, take};
ghost use Rattle.token_bytes.specs.Marks.{records_size};
ghost use Rattle.token_bytes.specs.Numbers.{IsNumbered};
ghost use Rattle.token_bytes.specs.Starts.{AreStarts};
ghost use Rattle.tt_data.specs.declared.tree.TokenTree.{TokenTree};

use crate::text_table::TextTable;
use byte_buffer::ByteBuffer;
use std::alloc::Global;

/// The records of tokens, and the table of their texts.
#[derive(Drop)]
pub(crate) struct Stored {
    pub(crate) records: ByteBuffer,
    pub(crate) texts: TextTable,
    // The byte at which each 64th record begins, the first after 64 records. The last ones may be
    // missing: they are for speed alone.
    pub(crate) starts: Vec<usize>,
}

impl Stored {
    /// No tokens. It takes no memory.
    pub(crate) fn new(alloc: Global, records: ByteBuffer) -> Stored
        ensures records { result.records ≡ records }
        ensures texts { result.texts.texts.items ≡ [] }
        ensures numbered { IsNumbered result.texts }
        ensures starts { result.starts.items ≡ [] }
    {
        Stored {
            records,
            texts: TextTable::new(alloc),
            starts: Vec::new(alloc),
        }
    }
}

/// Notes that the next record begins at a byte, if it is the next of those to be noted. Where
/// memory is refused, nothing is noted.
#[inline(always)]
pub(crate) fn note_start(starts: &mut Vec<usize>, count: usize, byte: usize)
    ensures { (ts : List TokenTree) → AreStarts 64 starts.old.items ts → count ≤ length ts
        → byte ≡ records_size (take count ts) → AreStarts 64 starts.new.items ts }
{
    if count % 64 == 0 && count / 64 == starts.len() + 1 {
        let _ = starts.push(byte);
    }
}

/// Whether both have the same bytes and the same table.
pub(crate) fn is_same(left: &Stored, right: &Stored) -> bool
    ensures { IsTrue result ↔ ((left.now.records ≡ right.now.records)
        × (left.now.texts.texts.items ≡ right.now.texts.texts.items)) }
{
    if left.records.bytes() == right.records.bytes() {
        left.texts.texts.as_slice() == right.texts.texts.as_slice()
    } else {
        false
    }
}

//! The definitions of a file, found by where their names are.
ghost use Rattle.std.specs.Prelude.{◌≡◌, ◌<◌, ◌++◌, IfOk, IfSome, OnOk, length, map};
ghost use Rattle.crate_picks.specs.First.{first_of};
ghost use Rattle.crate_picks.specs.Picks.{found_at, listed, start_of, starts};

use crate::first_index::{FirstIndex, first_index};
use expander_sources::prelude::Prelude;
use expander_sources::source::Source;
use std::alloc::{AllocError, Global};
use std::marker::Model;
use tt_data::TtFault;

/// The definitions of a file, of its inline modules too, found by where their names are.
#[derive(Drop)]
pub struct Definitions {
    source: Source,
    first: FirstIndex,
}

impl Model for Definitions {
    ghost use Rattle.crate_picks.specs.First.{IsFirstIndex};
    ghost use Rattle.crate_picks.specs.Picks.{starts};
    ghost use Rattle.expander_sources.specs.Sources.{Source, source_code};

    ghost Value = { Source };

    ghost coded = { source_code };

    ghost view = { λ d. d.source };

    ghost invariant = { λ d. IsFirstIndex (starts d.source.items) d.first };
}

// The offsets at which the names of the definitions begin, in order.
fn starts(alloc: Global, source: &Source) -> Result<Vec<usize>, AllocError>
    ensures { IfOk result (λ all. all.items ≡ starts source.now.items) }
{
    let mut all = Vec::new(alloc);
    for i in 0..source.len() {
        all.push(source.name_range(i).start as usize)?;
    }
    Ok(all)
}

impl Definitions {
    /// The definitions of a source.
    ///
    /// # Errors
    ///
    /// Out of memory, where a request for memory is refused.
    pub fn new(alloc: Global, source: Source) -> Result<Definitions, AllocError>
        ensures { IfOk result (λ d. d ≡ source) }
    {
        let starts = starts(alloc, &source)?;
        let first = first_index(alloc, starts.as_slice())?;
        Ok(Definitions { source, first })
    }

    /// The source.
    pub fn source(&self) -> &Source
        ensures { result.now ≡ self.now }
    {
        &self.source
    }

    /// The index of the first definition whose name begins at this offset, in bytes.
    pub fn index_at(&self, start: usize) -> Option<usize>
        ensures index { result ≡ first_of (starts self.now.items) start }
        ensures within { IfSome result (λ i. i < length self.now.items) }
    {
        self.first.get(start)
    }

    /// Adds the definition whose name begins at this offset, in bytes, if there is one.
    ///
    /// # Errors
    ///
    /// Those of `Prelude::push`.
    pub fn push_at(&self, alloc: Global, start: usize, prelude: &mut Prelude) -> Result<(), TtFault>
        ensures { OnOk result (prelude.new ≡ prelude.old ++ listed (found_at self.now start)) }
    {
        match self.index_at(start) {
            Some(i) => prelude.push(alloc, &self.source, i),
            None => Ok(()),
        }
    }
}

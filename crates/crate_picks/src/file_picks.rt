//! The places that each file of a crate sees, by its number.
ghost use Rattle.std.specs.Prelude.{◌≡◌, IfOk};
ghost use Rattle.crate_picks.specs.First.{IsFirstIndex};
ghost use Rattle.crate_picks.specs.Seen.{numbers, places_seen};

use crate::first_index::{FirstIndex, first_index};
use crate_walk::{Picks, Place};
use std::alloc::{AllocError, Global};

/// The places that each file sees, by its number.
#[derive(Drop)]
pub struct FilePicks {
    picks: Vec<Picks>,
    first: FirstIndex,
    ghost right: { IsFirstIndex (numbers picks.items) first },
}

// The numbers of the files, in order.
fn numbers(alloc: Global, picks: &[Picks]) -> Result<Vec<usize>, AllocError>
    ensures { IfOk result (λ all. all.items ≡ numbers picks.now) }
{
    let mut all = Vec::new(alloc);
    for one in picks {
        all.push(one.file)?;
    }
    Ok(all)
}

impl FilePicks {
    /// What files see.
    ///
    /// # Errors
    ///
    /// Out of memory, where a request for memory is refused.
    pub fn new(alloc: Global, picks: Vec<Picks>) -> Result<FilePicks, AllocError>
        ensures { IfOk result (λ f. f.picks ≡ picks) }
    {
        let numbers = numbers(alloc, picks.as_slice())?;
        let first = first_index(alloc, numbers.as_slice())?;
        Ok(FilePicks { picks, first })
    }

    /// What the file of this number sees, the nearest last: the first time that it ends. Nothing if
    /// it never does.
    pub fn places(&self, file: usize) -> &[Place]
        ensures { result.now ≡ places_seen self.now.picks.items file }
    {
        let Some(i) = self.first.get(file) else {
            return &[];
        };
        match self.picks.get(i) {
            Some(one) => one.places.as_slice(),
            None => &[],
        }
    }
}

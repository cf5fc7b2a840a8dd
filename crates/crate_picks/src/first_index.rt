//! Where numbers stand first in a list.
ghost use Rattle.std.specs.Prelude.{◌≡◌, ℕ, List, IfOk, length};
ghost use Rattle.crate_picks.specs.First.{IsFirstIndex, first_of};

use std::alloc::{AllocError, Global};
use std::collections::BTreeMap;

/// Where each number of a list stands first.
#[derive(Drop)]
pub(crate) struct FirstIndex {
    first: BTreeMap<usize, usize>,
}

impl FirstIndex {
    /// The index at which this number stands first.
    pub(crate) fn get(&self, number: usize) -> Option<usize>
        ensures { (numbers : List ℕ) → IsFirstIndex numbers self.now
            → result ≡ first_of numbers number }
    {
        self.first.get(&number).copied()
    }
}

/// Where each of these numbers stands first among them.
pub(crate) fn first_index(alloc: Global, numbers: &[usize]) -> Result<FirstIndex, AllocError>
    ensures { IfOk result (IsFirstIndex numbers.now) }
{
    let mut first = BTreeMap::new(alloc);
    let mut i = numbers.len();
    while i > 0 {
        i -= 1;
        first.insert(numbers[i], i)?;
    }
    Ok(FirstIndex { first })
}

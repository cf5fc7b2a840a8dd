//! Tokens by number.
ghost use Rattle.std.specs.Prelude.{◌≡◌, ◌<◌, ◌≤◌, IfOk, length};
ghost use Rattle.html_code.specs.Numbers.{AreNumbers, IsNumberAt};

use std::alloc::{AllocError, Global};

/// The number of the token that a byte is in or behind, from 1; 0 before all tokens. The tokens
/// begin at these offsets, in order.
pub(crate) fn number_at(starts: &[u32], at: u32) -> usize
    ensures { IsNumberAt starts.now at result }
{
    let mut low = 0;
    let mut high = starts.len();
    while low < high {
        let middle = low + (high - low) / 2;
        if starts[middle] <= at {
            low = middle + 1;
        } else {
            high = middle;
        }
    }
    low
}

/// The number for each of these offsets.
pub(crate) fn numbers_of(
    alloc: Global,
    starts: &[u32],
    offsets: &[u32],
) -> Result<Vec<usize>, AllocError>
    ensures { IfOk result (λ numbers. AreNumbers starts.now offsets.now numbers.items) }
{
    let mut numbers = Vec::new(alloc);
    for offset in offsets {
        numbers.push(number_at(starts, *offset))?;
    }
    Ok(numbers)
}

//! Bytes of a text with their positions, one counted on from another.
ghost use Rattle.std.specs.Prelude.{◌≡◌, ◌<◌, ◌^◌, length, min};
ghost use Rattle.line_index.specs.Lines.{IsSpot};

use crate::positions::{FIRST, Position, position_behind};

/// A byte of a text, from 0, with its position.
#[derive(Clone, Copy, Debug, PartialEq, Eq)]
pub struct Spot {
    pub at: usize,
    pub position: Position,
}

/// The byte at which a text begins.
pub const BEGIN: Spot = Spot {
    at: 0,
    position: FIRST,
};

/// A byte with its position, counted on from `from` if that is not past it. A byte past the end of
/// the text, which has at most `u32::MAX` bytes, is taken as the end.
pub fn spot_at(text: &str, from: Spot, at: usize) -> Spot
    requires short { length text.now < 2 ^ 32 }
    requires from { IsSpot text.now from }
    ensures at { result.at ≡ min at (length text.now) }
    ensures spot { IsSpot text.now result }
{
    let at = at.min(text.len());
    let from = if from.at <= at { from } else { BEGIN };
    Spot {
        at,
        position: position_behind(text, from.at, from.position, at),
    }
}

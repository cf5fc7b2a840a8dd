//! Positions in a text by line and by column in characters, each counted on from a near one.
ghost use Rattle.std.specs.Prelude.{◌≡◌, ◌<◌, ◌≤◌, ◌^◌, All, IfOk, length};
ghost use Rattle.step_report.specs.Positions.{is_continuation, position_behind, position_of};
ghost use Rattle.step_report.specs.Spots.{IsSpot};

use std::alloc::{AllocError, Global};

// How many bytes are between two spots.
const STEP: usize = 1024;

/// A position in a text: its line, and its column in characters, both from 1.
#[derive(Clone, Copy, PartialEq, Eq, Debug)]
pub struct Position {
    pub line: usize,
    pub column: usize,
}

// A byte of a text, with its position.
#[derive(Clone, Copy)]
struct Spot {
    at: usize,
    position: Position,
}

// Where a text begins.
const BEGIN: Spot = Spot {
    at: 0,
    position: Position { line: 1, column: 1 },
};

// Whether a byte is in a character, but not its first.
fn is_continuation(byte: u8) -> bool
    ensures { result ≡ is_continuation byte }
{
    128 <= byte && byte < 192
}

// The position behind a byte, by its own.
fn behind(position: Position, byte: u8) -> Position
    requires line { position.line < 2 ^ 63 }
    requires column { position.column < 2 ^ 63 }
    ensures { result ≡ position_behind position byte }
{
    if byte == b'\n' {
        return Position {
            line: position.line + 1,
            column: 1,
        };
    }
    if is_continuation(byte) {
        return position;
    }
    Position {
        line: position.line,
        column: position.column + 1,
    }
}

// The spot of byte `to`, counted on from an earlier one.
fn walked(text: &[u8], from: Spot, to: usize) -> Spot
    requires short { length text.now < 2 ^ 32 }
    requires from { IsSpot text.now from }
    requires before { from.at ≤ to }
    requires inside { to ≤ length text.now }
    ensures spot { IsSpot text.now result }
    ensures at { result.at ≡ to }
{
    let mut spot = from;
    while spot.at < to {
        spot = Spot {
            at: spot.at + 1,
            position: behind(spot.position, text[spot.at]),
        };
    }
    spot
}

/// Spots of one text, from left to right.
#[derive(Drop)]
pub(crate) struct Spots {
    list: Vec<Spot>,
}

impl Spots {
    ghost use Rattle.step_report.specs.Spots.{AreOf};

    /// Spots of a text of at most `u32::MAX` bytes, one for each 1,024 of them.
    pub(crate) fn of(alloc: Global, text: &str) -> Result<Spots, AllocError>
        requires { length text.now < 2 ^ 32 }
        ensures { IfOk result (AreOf text.now) }
    {
        let bytes = text.as_bytes();
        let mut list = Vec::new(alloc);
        let mut last = BEGIN;
        for _ in 0..bytes.len() / STEP {
            let to = last.at.saturating_add(STEP).min(bytes.len());
            last = walked(bytes, last, to);
            list.push(last)?;
        }
        Ok(Spots { list })
    }

    // The nearest of these before a byte, or where the text begins.
    fn before(&self, text: &str, at: usize) -> Spot
        requires { AreOf text.now self.now }
        ensures spot { IsSpot text.now result }
        ensures before { result.at ≤ at }
    {
        let index = at / STEP;
        if index == 0 || index > self.list.len() {
            return BEGIN;
        }
        let near = self.list[index - 1];
        if near.at <= at { near } else { BEGIN }
    }

    /// The position of a byte of the text of these spots. A byte past the end is taken as the end.
    pub(crate) fn position(&self, text: &str, at: u32) -> Position
        requires short { length text.now < 2 ^ 32 }
        requires spots { AreOf text.now self.now }
        ensures { result ≡ position_of text.now at }
    {
        let bytes = text.as_bytes();
        let to = bytes.len().min(at as usize);
        walked(bytes, self.before(text, to), to).position
    }
}

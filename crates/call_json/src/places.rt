//! Places in a text.
ghost use Rattle.std.specs.Prelude.{◌≡◌, ◌<◌, ◌^◌, IfOk, length, min};
ghost use Rattle.serde_json.specs.View.{view};
ghost use Rattle.line_index.specs.Lines.{IsSpot};
ghost use Rattle.call_json.specs.Places.{place};
ghost use Rattle.call_json.specs.Rules.{place_if};
ghost use Rattle.call_json.specs.Spots.{AreOf};

use crate::spots::Spots;
use line_index::{Spot, spot_at};
use serde_json::{Value, json};
use std::alloc::{AllocError, Global};
use tt_data::TextRange;

/// A range of a text of at most `u32::MAX` bytes, of which this is where it starts: its bytes, and
/// the line and the UTF-16 column of both ends, from 0.
///
/// # Errors
///
/// `AllocError` if memory is refused.
pub fn place_from(
    alloc: Global,
    text: &str,
    start: Spot,
    range: TextRange,
) -> Result<Value, AllocError>
    requires short { length text.now < 2 ^ 32 }
    requires start { IsSpot text.now start }
    requires at { start.at ≡ min range.start (length text.now) }
    ensures { IfOk result (λ v. view v ≡ place text.now range) }
{
    let end = spot_at(text, start, range.end as usize);
    json!(in alloc; {
        "bytes": [range.start, range.end],
        "end": [end.position.line, end.position.column],
        "start": [start.position.line, start.position.column]
    })
}

/// A range of a text of at most `u32::MAX` bytes, which has these spots.
///
/// # Errors
///
/// `AllocError` if memory is refused.
pub fn place_in(
    alloc: Global,
    text: &str,
    spots: &Spots,
    range: TextRange,
) -> Result<Value, AllocError>
    requires short { length text.now < 2 ^ 32 }
    requires spots { AreOf text.now spots.now }
    ensures { IfOk result (λ v. view v ≡ place text.now range) }
{
    let start = spot_at(text, spots.before(text, range.start), range.start as usize);
    place_from(alloc, text, start, range)
}

/// The same of a range, if there is one; else `null`.
pub(crate) fn place_if(
    alloc: Global,
    text: &str,
    spots: &Spots,
    range: Option<TextRange>,
) -> Result<Value, AllocError>
    requires short { length text.now < 2 ^ 32 }
    requires spots { AreOf text.now spots.now }
    ensures { IfOk result (λ v. view v ≡ place_if text.now range) }
{
    match range {
        Some(range) => place_in(alloc, text, spots, range),
        None => Ok(Value::Null),
    }
}

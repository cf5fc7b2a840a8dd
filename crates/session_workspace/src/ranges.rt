//! Ranges of a text as a client names them.
ghost use Rattle.std.specs.Prelude.{◌≡◌, ◌<◌, ◌^◌, IfOk, length, min};
ghost use Rattle.serde_json.specs.View.{view};
ghost use Rattle.session_workspace.specs.Ranges.{IsSpot, place_by, range_data};

use line_index::{FIRST, Position, position_behind};
use serde_json::{Value, json};
use std::alloc::{AllocError, Global};
use tt_data::TextRange;

/// A byte of a text, and its position by line and column.
#[derive(Clone, Copy)]
pub(crate) struct Spot {
    pub(crate) at: usize,
    pub(crate) position: Position,
}

/// The begin of a text.
pub(crate) const START: Spot = Spot {
    at: 0,
    position: FIRST,
};

// The spot of a byte, counted on from `last` if that is not past it. A byte past the text's end is
// taken as the end.
fn spot_of(text: &str, last: Spot, at: u32) -> Spot
    requires short { length text.now < 2 ^ 32 }
    requires last { IsSpot text.now last }
    ensures spot { IsSpot text.now result }
    ensures at { result.at ≡ min at (length text.now) }
{
    let to = text.len().min(at as usize);
    let position = if last.at <= to {
        position_behind(text, last.at, last.position, to)
    } else {
        position_behind(text, 0, FIRST, to)
    };
    Spot { at: to, position }
}

fn place_value(alloc: Global, place: Position) -> Result<Value, AllocError>
    ensures { IfOk result (λ v. view v ≡ place_by place.line place.column) }
{
    json!(in alloc; {"line": place.line, "character": place.column})
}

/// A range of a text by lines and columns, and the spot at which it begins. Places are counted on
/// from `last` if that is not past the begin.
pub(crate) fn range_value(
    alloc: Global,
    text: &str,
    last: Spot,
    range: TextRange,
) -> Result<(Value, Spot), AllocError>
    requires short { length text.now < 2 ^ 32 }
    requires last { IsSpot text.now last }
    ensures range { IfOk result (λ r. view r.0 ≡ range_data text.now range) }
    ensures spot { IfOk result (λ r. IsSpot text.now r.1) }
{
    let first = spot_of(text, last, range.start);
    let behind = spot_of(text, first, range.end);
    let start = place_value(alloc, first.position)?;
    let end = place_value(alloc, behind.position)?;
    let value = json!(in alloc; {"start": start, "end": end})?;
    Ok((value, first))
}

//! Changes of a text.
ghost use Rattle.std.specs.Prelude.{◌≡◌, IfOk, map, option_map};
ghost use Rattle.serde_json.specs.View.{items_view, view};
ghost use Rattle.client_texts.specs.Params.{change_of, changes_in, changes_of};
ghost use Rattle.client_texts.specs.Views.{change_view};

use crate::params::{place_at, text_at};
use line_index::Position;
use serde_json::Value;
use std::alloc::{AllocError, Global};

/// A change of a text.
#[derive(Clone, Copy, Drop)]
pub enum Change<'a> {
    /// It is another text.
    Whole(&'a str),
    /// Another text is in place of what is between two places.
    Part(Position, Position, &'a str),
}

fn change_of(value: &Value) -> Option<Change<'_>>
    ensures { option_map change_view result ≡ change_of (view value.now) }
{
    let new = text_at("text", value)?;
    let Some(range) = value.get("range") else {
        return Some(Change::Whole(new));
    };
    let start = place_at("start", range)?;
    let end = place_at("end", range)?;
    Some(Change::Part(start, end, new))
}

// All changes of a list, if each is one.
fn changes_of(alloc: Global, values: &[Value]) -> Result<Option<Vec<Change<'_>>>, AllocError>
    ensures { IfOk result (λ changes. option_map (λ cs. map change_view cs.items) changes
        ≡ changes_of (items_view values.now)) }
{
    let mut changes = Vec::new(alloc);
    for value in values {
        let Some(change) = change_of(value) else {
            return Ok(None);
        };
        changes.push(change)?;
    }
    Ok(Some(changes))
}

/// The changes that parameters tell of.
pub(crate) fn changes_in(
    alloc: Global,
    params: &Value,
) -> Result<Option<Vec<Change<'_>>>, AllocError>
    ensures { IfOk result (λ changes. option_map (λ cs. map change_view cs.items) changes
        ≡ changes_in (view params.now)) }
{
    match params.get("contentChanges").and_then(Value::as_array) {
        Some(values) => changes_of(alloc, values.as_slice()),
        None => Ok(None),
    }
}

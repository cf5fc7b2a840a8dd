//! The definition that a call finds.
ghost use Rattle.std.specs.Prelude.{◌<◌, ◌^◌, length};

use crate::outline::trees_of;
use crate::ranges::{START, range_value};
use crate::setup::{Elsewhere, Setup};
use any_grammar::AnyGrammar;
use call_messages::{call_around, definition_before};
use expander_model::definition::definition_of;
use expander_session::session::Session;
use expander_sources::import::Import;
use expander_sources::prelude::{Prelude, imports_of};
use line_index::{Position, offset_of};
use serde_json::{Value, json};
use std::alloc::{AllocError, Global};
use tt_data::{Symbol, TextRange};

// Where the name of a definition is that a call finds.
#[derive(Drop)]
enum Found {
    // In the text itself.
    Here(TextRange),
    // In the text with this number, of those that definitions come from.
    There(u32, TextRange),
}

// The number of the text that a definition of a prelude comes from, and where its name is there, if
// it has this name.
fn named_at(import: &Import, name: &Symbol) -> Option<(u32, TextRange)> {
    let definition = definition_of(&import.tree.as_ref().tree().iter())?;
    if definition.name.sym.as_str() != name.as_str() {
        return None;
    }
    let range = definition.name.span.range;
    let at = import.place.start;
    let moved = TextRange {
        start: range.start.saturating_add(at),
        end: range.end.saturating_add(at),
    };
    Some((import.place.text, moved))
}

// What a name finds among the definitions of a prelude: the last.
fn found_before(prelude: &Prelude, name: &Symbol) -> Option<Found> {
    for import in imports_of(prelude).iter().rev() {
        if let Some((number, range)) = named_at(import, name) {
            return Some(Found::There(number, range));
        }
    }
    None
}

// Where the name of the definition is that the call finds in whose name a byte is.
fn found_at(
    alloc: Global,
    session: &Session<AnyGrammar>,
    at: u32,
) -> Result<Option<Found>, AllocError>
    requires { length session.now.text < 2 ^ 32 }
{
    let Some(tree) = trees_of(alloc, session.text())? else {
        return Ok(None);
    };
    let trees = tree.token_trees().iter();
    let Some(call) = call_around(&trees, at) else {
        return Ok(None);
    };
    let (start, name) = (call.name.span.range.start, &call.name.sym);
    match definition_before(&trees, start, name.as_str()) {
        Some(definition) => Ok(Some(Found::Here(definition.name.span.range))),
        None => Ok(found_before(session.prelude(), name)),
    }
}

// The place of these bytes of a text.
fn place_value(alloc: Global, uri: &str, text: &str, range: TextRange) -> Result<Value, AllocError>
    requires { length text.now < 2 ^ 32 }
{
    let (range, _spot) = range_value(alloc, text, START, range)?;
    json!(in alloc; {"uri": uri, "range": range})
}

fn elsewhere_value(alloc: Global, found: Option<Elsewhere>) -> Result<Value, AllocError> {
    match found {
        Some(Elsewhere { uri, text, range }) if text.len() <= u32::MAX as usize => {
            place_value(alloc, uri.as_str(), text.as_str(), range)
        }
        _ => Ok(Value::Null),
    }
}

/// The place of the name of the definition that a call finds, in its text or in another one, if a
/// place is in the name of a call.
pub(crate) fn definition_at<S: Setup>(
    alloc: Global,
    setup: &S,
    uri: &str,
    session: &Session<AnyGrammar>,
    place: Position,
) -> Result<Value, AllocError>
    requires { length session.now.text < 2 ^ 32 }
{
    let text = session.text();
    match found_at(alloc, session, offset_of(text, place) as u32)? {
        Some(Found::Here(range)) => place_value(alloc, uri, text, range),
        Some(Found::There(number, range)) => {
            elsewhere_value(alloc, setup.elsewhere(alloc, number, range)?)
        }
        None => Ok(Value::Null),
    }
}

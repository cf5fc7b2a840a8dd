//! The definitions of a text's top level.
ghost use Rattle.std.specs.Prelude.{◌≡◌, ◌<◌, ◌^◌, IfErr, IfOk, length, map, option_map};
ghost use Rattle.serde_json.specs.View.{view};
ghost use Rattle.bridge.specs.ReadText.{IsRead, IsReadRefusal};
ghost use Rattle.bridge.specs.TokenSteps.{text_steps};
ghost use Rattle.expander_model.specs.Pieces.{cut};
ghost use Rattle.expander_sources.specs.Sources.{end_behind, range_of};
ghost use Rattle.session_workspace.specs.Ranges.{IsSpot};
ghost use Rattle.session_workspace.specs.Symbols.{IsReadAs, ListsSymbols, symbol, symbol_at};
ghost use Rattle.session_workspace.specs.Symbols.{symbols_among};

use crate::ranges::{START, Spot, range_value};
use bridge::Read;
use expander_model::definition::{Definition, definition_of};
use expander_model::relative_spans::start_of;
use expander_model::split::{next_piece, set_apart};
use rustc_lexer::LexedText;
use serde_json::{Value, json};
use std::alloc::{AllocError, Global};
use tt::{TopSubtree, TtElement, TtIter};
use tt_data::{TextRange, TtFault};

// A text as trees, or its reading fault.
fn read(alloc: Global, text: &str) -> Result<Read, TtFault>
    requires { length text.now < 2 ^ 32 }
    ensures read { IfOk result (IsRead (text_steps text.now)) }
    ensures refused { IfErr result (IsReadRefusal (text_steps text.now)) }
{
    let held = LexedText::new(alloc, text)?;
    bridge::read(alloc, held.text(), held.tokens())
}

/// The trees of a text, if it can be read.
pub(crate) fn trees_of(alloc: Global, text: &str) -> Result<Option<TopSubtree>, AllocError>
    requires { length text.now < 2 ^ 32 }
    ensures { IfOk result (λ o. IsReadAs text.now (option_map (λ t. t.inner) o)) }
{
    bridge::laws::reading_is_a_relation();
    match read(alloc, text) {
        Ok(Read::Tree(tree)) => Ok(Some(tree)),
        Ok(Read::Fault(_fault)) => Ok(None),
        Err(TtFault::Memory) => Err(AllocError),
        Err(_) => Ok(None),
    }
}

// The offset at which the last of these trees ends.
fn end_of(trees: &TtIter<'_>) -> u32
    ensures { result ≡ end_behind 0 trees.now }
{
    let mut end = 0;
    let mut rest = trees.copied();
    while let Some(element) = rest.next() {
        end = match element {
            TtElement::Leaf(leaf) => leaf.span().range.end,
            TtElement::Subtree(group, _) => group.delimiter.close_span.range.end,
        };
    }
    end
}

// The bytes of a piece.
fn range_of(piece: &TtIter<'_>) -> TextRange
    ensures { result ≡ range_of piece.now }
{
    TextRange {
        start: start_of(piece),
        end: end_of(piece),
    }
}

// A definition whose bytes and whose name are at these ranges.
fn symbol_at(
    alloc: Global,
    definition: &Definition<'_>,
    all: Value,
    name: Value,
) -> Result<Value, AllocError>
    ensures { IfOk result (λ v. view v ≡ symbol_at (view all) (view name) definition.now) }
{
    let word = if definition.is_macro {
        "macro"
    } else {
        "macro_rules!"
    };
    json!(in alloc; {
        "name": definition.name.sym.as_str(),
        "detail": word,
        "kind": 12,
        "range": all,
        "selectionRange": name
    })
}

// A definition, and the spot at which it begins. Places are counted on from `last` if that is not
// past the begin.
fn symbol(
    alloc: Global,
    text: &str,
    last: Spot,
    definition: &Definition<'_>,
) -> Result<(Value, Spot), AllocError>
    requires short { length text.now < 2 ^ 32 }
    requires last { IsSpot text.now last }
    ensures value { IfOk result (λ r. view r.0 ≡ symbol text.now definition.now) }
    ensures spot { IfOk result (λ r. IsSpot text.now r.1) }
{
    let (all, first) = range_value(alloc, text, last, range_of(&definition.piece))?;
    let (name, _spot) = range_value(alloc, text, first, definition.name.span.range)?;
    let value = symbol_at(alloc, definition, all, name)?;
    Ok((value, first))
}

// The definitions among the pieces of a list, in order.
fn symbols_in(alloc: Global, text: &str, list: &TtIter<'_>) -> Result<Vec<Value>, AllocError>
    requires { length text.now < 2 ^ 32 }
    ensures { IfOk result (λ all. map view all.items ≡ symbols_among text.now (cut list.now)) }
{
    let mut symbols = Vec::new(alloc);
    let mut last = START;
    let mut rest = list.copied();
    while let Some(piece) = next_piece(&mut rest) {
        if let Some(definition) = definition_of(&piece) {
            let (value, spot) = symbol(alloc, text, last, &definition)?;
            symbols.push(value)?;
            last = spot;
        }
    }
    Ok(symbols)
}

/// The definitions of a text's top level, in order. There is none where the text cannot be read, or
/// has too many tokens.
pub(crate) fn symbols_of(alloc: Global, text: &str) -> Result<Value, AllocError>
    requires { length text.now < 2 ^ 32 }
    ensures { IfOk result (λ v. ListsSymbols text.now (view v)) }
{
    let Some(mut tree) = trees_of(alloc, text)? else {
        return Ok(Value::Array(Vec::new(alloc)));
    };
    if set_apart(alloc, &mut tree).is_err() {
        return Err(AllocError);
    }
    let symbols = symbols_in(alloc, text, &tree.token_trees().iter())?;
    Ok(Value::Array(symbols))
}

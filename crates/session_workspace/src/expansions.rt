//! What is shown of the call at a place of an open text.
ghost use Rattle.std.specs.Prelude.{◌≡◌, ◌<◌, ◌++◌, ◌^◌, [], IfOk, List, length, string_bytes, ℕ};
ghost use Rattle.serde_json.specs.View.{view};
ghost use Rattle.session_workspace.specs.Layouts.{IsLaidOut};
ghost use Rattle.session_workspace.specs.OpenTexts.{earlier_of};
ghost use Rattle.session_workspace.specs.Questions.{IsHoverText, IsShort, ShowsAsOf};
ghost use Rattle.session_workspace.specs.Questions.{ShowsEarlierHover, ShowsExpansion, ShowsHover};
ghost use Rattle.session_workspace.specs.Questions.{ShowsTokens, code_block, earlier_front};
ghost use Rattle.session_workspace.specs.Questions.{earlier_hover, earlier_words, expansion_data};
ghost use Rattle.session_workspace.specs.Questions.{hover_data};

use crate::calls::call_at;
use crate::earlier::earlier_call_at;
use crate::open_text::OpenText;
use crate::ranges::{START, range_value};
use bridge::Printed;
use code_layout::layout_text;
use expander_model::fault::FaultKind;
use expander_run::lines::fault_words;
use line_index::Position;
use pieced_text::PiecedText;
use serde_json::{Value, json};
use std::alloc::{AllocError, Global};
use step_report::expander_trace::call_expansion::answer::Called;
use tt_data::TextRange;

const UNKNOWN: &str = "no definition of this macro is known here, or no rule of it fits";

// What is in front of an expansion as of an earlier text.
const EARLIER: &str = "// as of the last text that could be read\n";

// The bytes of a name.
fn name_in(text: &str, name: TextRange) -> &str {
    text.get(name.start as usize..name.end as usize)
        .unwrap_or("")
}

fn expansion_data(alloc: Global, name: &str, laid: String) -> Result<Value, AllocError>
    ensures { IfOk result (λ v. view v ≡ expansion_data name.now (string_bytes laid)) }
{
    json!(in alloc; {"name": name, "expansion": laid})
}

// A printed text, laid out behind a text in front.
fn laid_behind(alloc: Global, front: &str, printed: &str) -> Result<String, AllocError>
    ensures { IfOk result (λ shown. (laid : List ℕ) × IsLaidOut printed.now laid
        × (string_bytes shown ≡ front.now ++ laid)) }
{
    let laid = layout_text(alloc, printed)?;
    format!(in alloc; "{front}{laid}")
}

// What came of a call of this macro, behind a text in front, if it does not stay.
fn tokens_value(
    alloc: Global,
    front: &str,
    name: &str,
    gives: &Option<Printed>,
) -> Result<Value, AllocError>
    ensures { IfOk result (λ v. ShowsTokens front.now gives.now (view v)) }
{
    let Some(printed) = gives else {
        return Ok(Value::Null);
    };
    let shown = laid_behind(alloc, front, printed.text.as_str())?;
    expansion_data(alloc, name, shown)
}

fn expansion_value(
    alloc: Global,
    front: &str,
    text: &str,
    called: &Option<Called>,
) -> Result<Value, AllocError>
    ensures { IfOk result (λ v. ShowsExpansion front.now called.now (view v)) }
{
    match called {
        Some(called) => {
            let name = name_in(text, called.place.name);
            tokens_value(alloc, front, name, &called.gives)
        }
        None => Ok(Value::Null),
    }
}

// A printed text, laid out in a block of code.
fn code_block(alloc: Global, printed: &str) -> Result<String, AllocError>
    ensures { IfOk result (λ shown. (laid : List ℕ) × IsLaidOut printed.now laid
        × (string_bytes shown ≡ code_block laid)) }
{
    let laid = layout_text(alloc, printed)?;
    format!(in alloc; "```rust\n{laid}\n```")
}

// What is shown of a call.
fn hover_text(
    alloc: Global,
    gives: &Option<Printed>,
    faults: &[FaultKind],
) -> Result<String, AllocError>
    ensures { IfOk result (λ shown. IsHoverText gives.now faults.now (string_bytes shown)) }
{
    match (gives, faults.first()) {
        (Some(printed), _) => code_block(alloc, printed.text.as_str()),
        (None, Some(fault)) => String::from_str(alloc, fault_words(*fault)),
        (None, None) => String::from_str(alloc, UNKNOWN),
    }
}

// That this is shown for the bytes of a call.
fn hover_data(
    alloc: Global,
    text: &str,
    shown: String,
    called: &Called,
) -> Result<Value, AllocError>
    requires { length text.now < 2 ^ 32 }
    ensures { IfOk result (λ v. view v
        ≡ hover_data text.now (string_bytes shown) called.now) }
{
    let (range, _spot) = range_value(alloc, text, START, called.place.range)?;
    json!(in alloc; {"contents": {"kind": "markdown", "value": shown}, "range": range})
}

fn hover_value(alloc: Global, text: &str, called: &Option<Called>) -> Result<Value, AllocError>
    requires { length text.now < 2 ^ 32 }
    ensures { IfOk result (λ v. ShowsHover text.now called.now (view v)) }
{
    match called {
        Some(called) => {
            let shown = hover_text(alloc, &called.gives, called.faults.as_slice())?;
            hover_data(alloc, text, shown, called)
        }
        None => Ok(Value::Null),
    }
}

// What is shown of a call as of an earlier text.
fn earlier_words(alloc: Global, shown: &str) -> Result<String, AllocError>
    ensures { IfOk result (λ words. string_bytes words ≡ earlier_words shown.now) }
{
    format!(in alloc; "{shown}\n\nAs of the last text that could be read.")
}

// That this is shown of a call as of an earlier text.
fn earlier_hover(alloc: Global, words: String) -> Result<Value, AllocError>
    ensures { IfOk result (λ v. view v ≡ earlier_hover (string_bytes words)) }
{
    json!(in alloc; {"contents": {"kind": "markdown", "value": words}})
}

fn earlier_hover_value(alloc: Global, called: &Option<Called>) -> Result<Value, AllocError>
    ensures { IfOk result (λ v. ShowsEarlierHover called.now (view v)) }
{
    match called {
        Some(called) => {
            let shown = hover_text(alloc, &called.gives, called.faults.as_slice())?;
            let words = earlier_words(alloc, shown.as_str())?;
            earlier_hover(alloc, words)
        }
        None => Ok(Value::Null),
    }
}

/// What the call at a place of an open text expands to, laid out, with the name of its macro: as of
/// the last text that could be read, if one is kept, which a comment says. Null if the call stays,
/// or no call is there.
pub(crate) fn expansion_at(
    alloc: Global,
    open: &OpenText,
    place: Position,
    asked: &mut Option<PiecedText>,
) -> Result<Value, AllocError>
    requires { IsShort open.now }
    ensures { IfOk result (λ v. ShowsAsOf (earlier_of open.now) (ShowsExpansion [])
        (ShowsExpansion earlier_front) open.now.session place (view v)) }
{
    let session = &open.session;
    match &open.earlier {
        None => {
            let called = call_at(alloc, session, place, asked)?;
            expansion_value(alloc, "", session.text(), &called)
        }
        Some(earlier) => {
            let earlier = earlier.as_str();
            let called = earlier_call_at(alloc, session, earlier, place, asked)?;
            expansion_value(alloc, EARLIER, earlier, &called)
        }
    }
}

/// What is shown of the call at a place of an open text: what it expands to, laid out, or why it
/// stays; as of the last text that could be read, if one is kept, which is said. Null if no call is
/// there.
pub(crate) fn hover_at(
    alloc: Global,
    open: &OpenText,
    place: Position,
    asked: &mut Option<PiecedText>,
) -> Result<Value, AllocError>
    requires { IsShort open.now }
    ensures { IfOk result (λ v. ShowsAsOf (earlier_of open.now)
        (ShowsHover open.now.session.text) ShowsEarlierHover open.now.session place (view v)) }
{
    let session = &open.session;
    match &open.earlier {
        None => {
            let called = call_at(alloc, session, place, asked)?;
            hover_value(alloc, session.text(), &called)
        }
        Some(earlier) => {
            let called = earlier_call_at(alloc, session, earlier.as_str(), place, asked)?;
            earlier_hover_value(alloc, &called)
        }
    }
}

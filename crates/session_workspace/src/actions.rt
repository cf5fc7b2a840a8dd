//! What may be done with the call at a place of a text.
ghost use Rattle.std.specs.Prelude.{◌≡◌, ◌<◌, ◌^◌, IfOk, length, string_bytes};
ghost use Rattle.serde_json.specs.View.{view};
ghost use Rattle.session_workspace.specs.Actions.{OffersActions, OffersResult, OffersTokens};
ghost use Rattle.session_workspace.specs.Actions.{action_data, edit_data, is_whole};
ghost use Rattle.session_workspace.specs.Questions.{ShowsCall};

use crate::calls::call_at;
use crate::ranges::{START, range_value};
use any_grammar::AnyGrammar;
use bridge::Printed;
use code_layout::layout_text;
use expander_session::session::Session;
use line_index::Position;
use pieced_text::PiecedText;
use serde_json::{Value, json};
use std::alloc::{AllocError, Global};
use step_report::expander_trace::call_expansion::answer::Called;

fn edit_data(alloc: Global, uri: &str, range: Value, new: String) -> Result<Value, AllocError>
    ensures { IfOk result (λ v. view v ≡ edit_data uri.now (view range) (string_bytes new)) }
{
    json!(in alloc; {"changes": {uri: [{"range": range, "newText": new}]}})
}

fn action_data(alloc: Global, edit: Value) -> Result<Value, AllocError>
    ensures { IfOk result (λ v. view v ≡ action_data (view edit)) }
{
    json!(in alloc; {
        "title": "Replace this call by its tokens",
        "kind": "refactor.inline",
        "edit": edit
    })
}

// That what came of a call may stand in its place.
fn offer(
    alloc: Global,
    uri: &str,
    text: &str,
    called: &Called,
    printed: &Printed,
) -> Result<Value, AllocError>
    requires { length text.now < 2 ^ 32 }
    ensures { IfOk result (λ v. OffersTokens uri.now text.now called.now printed.now (view v)) }
{
    let laid = layout_text(alloc, printed.text.as_str())?;
    let (range, _spot) = range_value(alloc, text, START, called.place.range)?;
    let edit = edit_data(alloc, uri, range, laid)?;
    let action = action_data(alloc, edit)?;
    json!(in alloc; [action])
}

// Whether something came of a call, and each token of it has a spelling.
fn is_whole(printed: &Printed) -> bool
    ensures { result ≡ is_whole printed.now }
{
    0 < printed.tokens.len() && printed.left_out.len() == 0
}

// What may be done with a call.
fn offer_result(alloc: Global, uri: &str, text: &str, called: &Called) -> Result<Value, AllocError>
    requires { length text.now < 2 ^ 32 }
    ensures { IfOk result (λ v.
        OffersResult uri.now text.now called.now called.now.gives (view v)) }
{
    match &called.gives {
        Some(printed) if is_whole(printed) => offer(alloc, uri, text, called, printed),
        _ => Ok(Value::Array(Vec::new(alloc))),
    }
}

fn actions_value(
    alloc: Global,
    uri: &str,
    text: &str,
    called: &Option<Called>,
) -> Result<Value, AllocError>
    requires { length text.now < 2 ^ 32 }
    ensures { IfOk result (λ v. OffersActions uri.now text.now called.now (view v)) }
{
    match called {
        Some(called) => offer_result(alloc, uri, text, called),
        None => Ok(Value::Array(Vec::new(alloc))),
    }
}

/// What may be done with the call at a place of a session's text, which has this name: it may be
/// replaced by what it expands to, laid out. Nothing if it stays or gives no tokens, if one of
/// these has no spelling, or if no call is there.
pub(crate) fn actions_at(
    alloc: Global,
    uri: &str,
    session: &Session<AnyGrammar>,
    place: Position,
    asked: &mut Option<PiecedText>,
) -> Result<Value, AllocError>
    requires { length session.now.text < 2 ^ 32 }
    ensures { IfOk result (λ v.
        ShowsCall (OffersActions uri.now session.now.text) session.now place (view v)) }
{
    let called = call_at(alloc, session, place, asked)?;
    actions_value(alloc, uri, session.text(), &called)
}

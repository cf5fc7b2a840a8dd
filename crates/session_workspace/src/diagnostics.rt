//! The diagnostics of a text.
ghost use Rattle.std.specs.Prelude.{◌≡◌, ◌<◌, ◌++◌, ◌∷◌, ◌^◌, [], IfOk, OnOk, length, map};
ghost use Rattle.serde_json.specs.View.{view};
ghost use Rattle.session_workspace.specs.Diagnostics.{diagnostic, diagnostics_of, fault_diagnostic};
ghost use Rattle.session_workspace.specs.Diagnostics.{faults_shown, is_shown, publication};
ghost use Rattle.session_workspace.specs.Diagnostics.{refusal_diagnostic, unread_diagnostic};
ghost use Rattle.session_workspace.specs.Diagnostics.{withdrawal};
ghost use Rattle.session_workspace.specs.Ranges.{IsSpot};

use crate::names::{kind_name, read_kind_name, refusal_name};
use crate::ranges::{START, Spot, range_value};
use bridge::ReadFault;
use expander_model::fault::{Fault, FaultKind};
use expander_run::lines::{fault_words, read_fault_words, refusal_words};
use expander_scope::refusal::Refusal;
use expander_session::session::Reply;
use rpc_messages::notification;
use serde_json::{Value, json};
use std::alloc::{AllocError, Global};
use tt_data::TextRange;

fn diagnostic(
    alloc: Global,
    range: Value,
    severity: u8,
    code: &str,
    words: &str,
) -> Result<Value, AllocError>
    ensures { IfOk result (λ v. view v
        ≡ diagnostic (view range) severity code.now words.now) }
{
    json!(in alloc; {
        "range": range,
        "severity": severity,
        "source": "filgordd",
        "code": code,
        "message": words
    })
}

// Whether a client is told of faults of this kind.
fn is_shown(kind: FaultKind) -> bool
    ensures { result ≡ is_shown kind }
{
    match kind {
        FaultKind::NestedDefinition => false,
        _ => true,
    }
}

fn fault_diagnostic(
    alloc: Global,
    text: &str,
    last: Spot,
    fault: &Fault,
) -> Result<(Value, Spot), AllocError>
    requires short { length text.now < 2 ^ 32 }
    requires last { IsSpot text.now last }
    ensures value { IfOk result (λ r. view r.0 ≡ fault_diagnostic text.now fault.now) }
    ensures spot { IfOk result (λ r. IsSpot text.now r.1) }
{
    let (range, spot) = range_value(alloc, text, last, fault.range)?;
    let (code, words) = (kind_name(fault.kind), fault_words(fault.kind));
    let value = diagnostic(alloc, range, 2, code, words)?;
    Ok((value, spot))
}

// Adds the diagnostic of a fault, if that is shown: the spot at which the fault begins, or else the
// last one.
fn push_fault(
    alloc: Global,
    text: &str,
    last: Spot,
    fault: &Fault,
    all: &mut Vec<Value>,
) -> Result<Spot, AllocError>
    requires short { length text.now < 2 ^ 32 }
    requires last { IsSpot text.now last }
    ensures added { OnOk result (map view all.new.items
        ≡ map view all.old.items ++ faults_shown text.now (fault.now ∷ [])) }
    ensures spot { IfOk result (IsSpot text.now) }
{
    if is_shown(fault.kind) {
        let (value, spot) = fault_diagnostic(alloc, text, last, fault)?;
        all.push(value)?;
        Ok(spot)
    } else {
        Ok(last)
    }
}

// The diagnostics of the faults that are shown, in order.
fn fault_diagnostics(alloc: Global, text: &str, faults: &[Fault]) -> Result<Vec<Value>, AllocError>
    requires { length text.now < 2 ^ 32 }
    ensures { IfOk result (λ all. map view all.items ≡ faults_shown text.now faults.now) }
{
    let mut all = Vec::new(alloc);
    let mut last = START;
    for fault in faults {
        last = push_fault(alloc, text, last, fault, &mut all)?;
    }
    Ok(all)
}

// A list of one.
fn one(alloc: Global, value: Value) -> Result<Vec<Value>, AllocError>
    ensures { IfOk result (λ all. map view all.items ≡ view value ∷ []) }
{
    let mut all = Vec::new(alloc);
    all.push(value)?;
    Ok(all)
}

// The diagnostic of a text that cannot be read.
fn unread_diagnostic(alloc: Global, text: &str, fault: &ReadFault) -> Result<Value, AllocError>
    requires { length text.now < 2 ^ 32 }
    ensures { IfOk result (λ v. view v ≡ unread_diagnostic text.now fault.now) }
{
    let (range, _spot) = range_value(alloc, text, START, fault.range)?;
    let (code, words) = (read_kind_name(fault.kind), read_fault_words(fault.kind));
    diagnostic(alloc, range, 1, code, words)
}

// The diagnostic of a text whose session has no reply.
fn refusal_diagnostic(alloc: Global, text: &str, refusal: Refusal) -> Result<Value, AllocError>
    requires { length text.now < 2 ^ 32 }
    ensures { IfOk result (λ v. view v ≡ refusal_diagnostic text.now refusal) }
{
    let front = TextRange { start: 0, end: 0 };
    let (range, _spot) = range_value(alloc, text, START, front)?;
    diagnostic(
        alloc,
        range,
        1,
        refusal_name(refusal),
        refusal_words(refusal),
    )
}

/// The diagnostics of a text for which a session gives this: one for each fault of a shown kind, in
/// order; or one for the reading fault, or for why there is no reply.
pub(crate) fn diagnostics_of(
    alloc: Global,
    text: &str,
    given: &Result<Reply, Refusal>,
) -> Result<Vec<Value>, AllocError>
    requires { length text.now < 2 ^ 32 }
    ensures { IfOk result (λ all. map view all.items ≡ diagnostics_of text.now given.now) }
{
    match given {
        Ok(Reply::Read(expansion)) => fault_diagnostics(alloc, text, expansion.faults()),
        Ok(Reply::Unread(fault)) => one(alloc, unread_diagnostic(alloc, text, fault)?),
        Err(refusal) => one(alloc, refusal_diagnostic(alloc, text, *refusal)?),
    }
}

/// The notification that a text of this name and version has these diagnostics.
pub(crate) fn publication(
    alloc: Global,
    uri: &str,
    version: i64,
    diagnostics: Vec<Value>,
) -> Result<Value, AllocError>
    ensures { IfOk result (λ v. view v
        ≡ publication uri.now version (map view diagnostics.items)) }
{
    let params = json!(in alloc; {
        "uri": uri,
        "version": version,
        "diagnostics": diagnostics
    })?;
    notification(alloc, "textDocument/publishDiagnostics", params)
}

/// The notification that a text of this name, which is closed, has none.
pub(crate) fn withdrawal(alloc: Global, uri: &str) -> Result<Value, AllocError>
    ensures { IfOk result (λ v. view v ≡ withdrawal uri.now) }
{
    let params = json!(in alloc; {"uri": uri, "diagnostics": []})?;
    notification(alloc, "textDocument/publishDiagnostics", params)
}

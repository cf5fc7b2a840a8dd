//! The faults of an expansion.
ghost use Rattle.std.specs.Prelude.{◌≡◌, ◌<◌, ◌^◌, ◌++◌, IfOk, OnOk, length, map, min};
ghost use Rattle.serde_json.specs.View.{view};
ghost use Rattle.line_index.specs.Lines.{IsSpot};
ghost use Rattle.reply_json.specs.Lines.{fault, faults, kind_name, read_kind_name};

use bridge::ReadFaultKind;
use call_json::place_from;
use expander_model::fault::{Fault, FaultKind};
use expander_run::lines::fault_words;
use line_index::{BEGIN, Spot, spot_at};
use serde_json::{Value, json};
use std::alloc::{AllocError, Global};

/// The name of a kind of faults.
pub(crate) fn kind_name(kind: FaultKind) -> &'static str
    ensures { result.now ≡ kind_name kind }
{
    match kind {
        FaultKind::CannotExpand => "CannotExpand",
        FaultKind::BrokenDefinition => "BrokenDefinition",
        FaultKind::RecursionLimit => "RecursionLimit",
        FaultKind::NestedDefinition => "NestedDefinition",
        FaultKind::Unspellable => "Unspellable",
        FaultKind::TooLarge => "TooLarge",
    }
}

/// The name of a kind of reading faults.
pub(crate) fn read_kind_name(kind: ReadFaultKind) -> &'static str
    ensures { result.now ≡ read_kind_name kind }
{
    match kind {
        ReadFaultKind::BadToken => "BadToken",
        ReadFaultKind::CloserDoesNotFit => "CloserDoesNotFit",
        ReadFaultKind::GroupLeftOpen => "GroupLeftOpen",
    }
}

/// A fault, of which this is where its range starts.
pub(crate) fn fault_from(
    alloc: Global,
    text: &str,
    start: Spot,
    it: &Fault,
) -> Result<Value, AllocError>
    requires short { length text.now < 2 ^ 32 }
    requires start { IsSpot text.now start }
    requires at { start.at ≡ min it.now.range.start (length text.now) }
    ensures { IfOk result (λ v. view v ≡ fault text.now it.now) }
{
    let at = place_from(alloc, text, start, it.range)?;
    json!(in alloc; {
        "at": at,
        "kind": kind_name(it.kind),
        "message": fault_words(it.kind)
    })
}

/// Adds the faults of a text, in order.
pub(crate) fn push_faults(
    alloc: Global,
    list: &mut Vec<Value>,
    text: &str,
    all: &[Fault],
) -> Result<(), AllocError>
    requires short { length text.now < 2 ^ 32 }
    ensures { OnOk result (map view list.new.items
        ≡ map view list.old.items ++ map (fault text.now) all.now) }
{
    let mut spot = BEGIN;
    for fault in all {
        spot = spot_at(text, spot, fault.range.start as usize);
        list.push(fault_from(alloc, text, spot, fault)?)?;
    }
    Ok(())
}

/// Faults of a text, in order.
pub(crate) fn faults_of(alloc: Global, text: &str, all: &[Fault]) -> Result<Value, AllocError>
    requires short { length text.now < 2 ^ 32 }
    ensures { IfOk result (λ v. view v ≡ faults text.now all.now) }
{
    let mut list = Vec::new(alloc);
    push_faults(alloc, &mut list, text, all)?;
    Ok(Value::Array(list))
}

//! What is said of a call: the tokens that come of it, and its faults.
ghost use Rattle.std.specs.Prelude.{◌≡◌, IfOk, IsOkUnless, map, option_map};
ghost use Rattle.std.specs.List.{list_any};
ghost use Rattle.bridge.specs.PrintedTrees.{print_in};
ghost use Rattle.bridge.specs.Printing.{print_of, step_span};
ghost use Rattle.expander_model.specs.Printing.{steps_of};
ghost use Rattle.expander_scope.specs.Outcomes.{kind_of, placed_of};
ghost use Rattle.tt_data.specs.fault.TtFault.TheVariants.{Memory};
ghost use Rattle.call_expansion.specs.Answers.{answer_among, answer_of, chosen, events_of};
ghost use Rattle.call_expansion.specs.Answers.{has_range, is_named, is_told, is_written, stays};
ghost use Rattle.call_expansion.specs.Answers.{told_at};
ghost use Rattle.call_expansion.specs.Texts.{answer_in};

use crate::around::CallPlace;
use bridge::{Printed, Printer};
use expander_model::fault::FaultKind;
use expander_scope::outcome::{Event, EventKind, lent};
use std::alloc::{AllocError, Global};
use tt_data::{Span, TextRange, TtFault};

/// What is said of a call.
#[derive(Drop)]
pub struct Called {
    /// Where it is written.
    pub place: CallPlace,
    /// Its tokens, printed alone. `None` if the call stays: for a fault, or because no definition
    /// has its name.
    pub gives: Option<Printed>,
    /// The faults at its name, in order: its own if it stays, or those of calls in its result.
    pub faults: Vec<FaultKind>,
}

// An expansion: its events, and its faults, each with the span at which it is told.
#[derive(Drop)]
pub(crate) struct Expanded<'a> {
    pub(crate) events: &'a [Event],
    pub(crate) faults: &'a [(FaultKind, Span)],
}

// Whether a span has these bytes.
fn has_range(name: TextRange, span: Span) -> bool
    ensures { result ≡ has_range name span }
{
    span.range.start == name.start && span.range.end == name.end
}

// Whether the outermost call that an event comes from, if any, has its name at these bytes.
fn is_named(name: TextRange, outer: Option<Span>) -> bool
    ensures { result ≡ is_named name outer }
{
    match outer {
        None => false,
        Some(at) => has_range(name, at),
    }
}

// The span of an event.
fn span_of(kind: &EventKind) -> Span
    ensures { result ≡ step_span (kind_of kind.now) }
{
    match kind {
        EventKind::Leaf(leaf) => leaf.span(),
        EventKind::Opens(_, span) | EventKind::Closes(_, span) => *span,
    }
}

// Whether an event is the name at these bytes, and comes of no call.
fn is_written(name: TextRange, event: &Event) -> bool
    ensures { result ≡ is_written name (placed_of event.now) }
{
    event.outer.is_none() && has_range(name, span_of(&event.kind))
}

// Whether the call with its name at these bytes stays.
fn stays(name: TextRange, events: &[Event]) -> bool
    ensures { result ≡ stays name (map placed_of events.now) }
{
    for event in events {
        if is_written(name, event) {
            return true;
        }
    }
    false
}

// What comes of the call with its name at these bytes, printed alone.
fn printed_alone(alloc: Global, name: TextRange, events: &[Event]) -> Result<Printed, TtFault>
    ensures printed { IfOk result (λ p. print_in p
        ≡ print_of (steps_of (events_of name (map placed_of events.now)))) }
    ensures memory { IsOkUnless result Memory }
{
    let mut printer = Printer::new(alloc);
    for event in events {
        if is_named(name, event.outer) {
            printer.put_event(&lent(&event.kind))?;
        }
    }
    match printer.finish() {
        Ok(printed) => Ok(printed),
        Err((_, fault)) => Err(fault),
    }
}

// The faults at these bytes.
fn told_at(
    alloc: Global,
    name: TextRange,
    faults: &[(FaultKind, Span)],
) -> Result<Vec<FaultKind>, AllocError>
    ensures { IfOk result (λ told. told.items ≡ told_at name faults.now) }
{
    let mut told = Vec::new(alloc);
    for fault in faults {
        if has_range(name, fault.1) {
            told.push(fault.0)?;
        }
    }
    Ok(told)
}

// Whether there is a fault at these bytes.
fn has_fault(name: TextRange, faults: &[(FaultKind, Span)]) -> bool
    ensures { result ≡ list_any (λ f. has_range name f.1) faults.now }
{
    for fault in faults {
        if has_range(name, fault.1) {
            return true;
        }
    }
    false
}

// Whether a call is replaced, or has a fault.
fn is_told(by: &Expanded<'_>, call: &CallPlace) -> bool
    ensures { result ≡ is_told (map placed_of by.now.events.now) by.now.faults.now call.now }
{
    !stays(call.name, by.events) || has_fault(call.name, by.faults)
}

// The first of these calls that is replaced or has a fault, or else the last.
fn chosen(by: &Expanded<'_>, calls: &[CallPlace]) -> Option<CallPlace>
    ensures { result ≡ chosen (map placed_of by.now.events.now) by.now.faults.now calls.now }
{
    let mut last = None;
    for call in calls {
        if is_told(by, call) {
            return Some(*call);
        }
        last = Some(*call);
    }
    last
}

// What is said of a call.
fn answer_of(alloc: Global, by: &Expanded<'_>, place: CallPlace) -> Result<Called, TtFault>
    ensures answer { IfOk result (λ c. answer_in c
        ≡ answer_of (map placed_of by.now.events.now) by.now.faults.now place) }
    ensures memory { IsOkUnless result Memory }
{
    let faults = told_at(alloc, place.name, by.faults)?;
    let gives = if stays(place.name, by.events) {
        None
    } else {
        Some(printed_alone(alloc, place.name, by.events)?)
    };
    Ok(Called {
        place,
        gives,
        faults,
    })
}

/// What is said of the first of these calls that is replaced or has a fault, or else of the last.
pub(crate) fn answer_among(
    alloc: Global,
    by: &Expanded<'_>,
    calls: &[CallPlace],
) -> Result<Option<Called>, TtFault>
    ensures answer { IfOk result (λ c. option_map answer_in c
        ≡ answer_among (map placed_of by.now.events.now) by.now.faults.now calls.now) }
    ensures memory { IsOkUnless result Memory }
{
    match chosen(by, calls) {
        Some(place) => Ok(Some(answer_of(alloc, by, place)?)),
        None => Ok(None),
    }
}

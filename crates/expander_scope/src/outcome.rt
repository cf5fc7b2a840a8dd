//! The result of an expansion, with piece-relative spans: events, faults and look-ups.
ghost use Rattle.std.specs.Prelude.{◌≡◌};
ghost use Rattle.bridge.specs.TokenEvents.{step_of};
ghost use Rattle.expander_scope.specs.Outcomes.{kind_of};

use crate::macro_def::MacroDef;
use bridge::parts::TokenEvent;
use expander_model::fault::FaultKind;
use std::rc::Rc;
use tt_data::{DelimiterKind, Leaf, Span, Symbol};

/// An event of a walk: a leaf, or an opening or closing of a group, which may be invisible.
#[derive(Drop)]
pub enum EventKind {
    Leaf(Leaf),
    Opens(DelimiterKind, Span),
    Closes(DelimiterKind, Span),
}

/// An event of the output, and the span of the name of the outermost call that it comes from, if
/// any.
#[derive(Drop)]
pub struct Event {
    pub kind: EventKind,
    pub outer: Option<Span>,
}

/// A look-up: a name, and the definition that it resolved to, if any.
#[derive(Drop)]
pub struct NameLookup {
    pub name: Symbol,
    pub known: Option<Rc<MacroDef>>,
}

impl NameLookup {
    /// How many bytes the name has, and the name of the definition that was found.
    pub fn size(&self) -> usize {
        let name = self.name.as_str().len();
        match &self.known {
            Some(known) => name.saturating_add(known.as_ref().size()),
            None => name,
        }
    }
}

/// An expansion result: what a tree expands to, with piece-relative spans.
#[derive(Drop)]
pub struct Outcome {
    /// Its events. `None` if they are those of the tree itself.
    pub steps: Option<Vec<Event>>,
    /// Each fault, with the span of the name at which it is reported.
    pub faults: Vec<(FaultKind, Span)>,
    /// The look-ups, in order.
    pub finds: Vec<NameLookup>,
}

/// An owned copy of an event. It shares the text, takes no memory and is never refused.
pub(crate) fn kept_step(step: &TokenEvent<'_>) -> EventKind
    ensures { kind_of result ≡ step_of step.now }
{
    match step {
        TokenEvent::Leaf(leaf) => EventKind::Leaf(leaf.to_leaf()),
        TokenEvent::Opens(kind, span) => EventKind::Opens(*kind, *span),
        TokenEvent::Closes(kind, span) => EventKind::Closes(*kind, *span),
    }
}

/// The event, lent.
pub fn lent(kind: &EventKind) -> TokenEvent<'_>
    ensures { step_of result ≡ kind_of kind.now }
{
    match kind {
        EventKind::Leaf(leaf) => TokenEvent::Leaf(leaf.lent()),
        EventKind::Opens(kind, span) => TokenEvent::Opens(*kind, *span),
        EventKind::Closes(kind, span) => TokenEvent::Closes(*kind, *span),
    }
}

/// An expansion, so far or in all: its output, faults and look-ups, each in order.
#[derive(Drop)]
pub struct Expanding<S> {
    /// What its events were handed to.
    pub output: S,
    /// Each fault, with the span of the name at which it is reported.
    pub faults: Vec<(FaultKind, Span)>,
    /// The look-ups, in order.
    pub finds: Vec<NameLookup>,
}

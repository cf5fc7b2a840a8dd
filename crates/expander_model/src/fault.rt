//! The faults of a text, and their order.
ghost use Rattle.std.specs.Prelude.{◌≡◌, OnOk};
ghost use Rattle.bridge.specs.TokenEvents.{step_of};
ghost use Rattle.expander_model.specs.Faults.{place, is_definition_word, in_order};

use bridge::parts::TokenEvent;
use cfg_options::small_grammar::names::has_text;
use std::alloc::AllocError;
use tt_data::{LeafRef, Span, TextRange};

/// The kind of a fault. Faults with one range are reported in this order.
#[derive(Clone, Copy, Debug, PartialEq, Eq, PartialOrd, Ord)]
pub enum FaultKind {
    /// No rule of the definition fits the call.
    CannotExpand,
    /// The definition is invalid: its rules cannot be parsed. Reported at its name, and at each
    /// call of it.
    BrokenDefinition,
    /// No level is left to expand the call.
    RecursionLimit,
    /// A definition keyword, `macro_rules` or `macro`, is in the output.
    NestedDefinition,
    /// A token has no spelling and was omitted from the output.
    Unspellable,
    /// The call makes more than the limits say.
    TooLarge,
}

/// A fault, and the bytes of the text that it is reported at.
#[derive(Clone, Copy, Debug, PartialEq, Eq)]
pub struct Fault {
    pub kind: FaultKind,
    pub range: TextRange,
}

/// The span at which a fault of an output token is reported: the name of the outermost replaced
/// call, or else the token itself.
pub fn place(step: &TokenEvent<'_>, outer: Option<Span>) -> Span
    ensures { result ≡ place (record { step = step_of step.now; outer = outer }) }
{
    if let Some(outer) = outer {
        return outer;
    }
    match step {
        TokenEvent::Leaf(leaf) => leaf.span(),
        TokenEvent::Opens(_, span) | TokenEvent::Closes(_, span) => *span,
    }
}

/// Whether the event is a definition keyword: `macro_rules` or `macro`, not raw.
pub fn is_definition_word(step: &TokenEvent<'_>) -> bool
    ensures { result ≡ is_definition_word (step_of step.now) }
{
    match step {
        TokenEvent::Leaf(LeafRef::Ident(name)) => has_text(*name, "macro_rules")
            || has_text(*name, "macro"),
        _ => false,
    }
}

/// Sorts faults by start, end and kind.
pub fn sort_faults(faults: &mut Vec<Fault>) -> Result<(), AllocError>
    ensures { OnOk result (faults.new.items ≡ in_order faults.old.items) }
{
    faults.sort_by_key(|fault| (fault.range.start, fault.range.end, fault.kind))
}

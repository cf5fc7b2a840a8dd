//! Sinks of events: what the events of an output are handed to, one by one.
ghost use Rattle.std.specs.Prelude.{◌≡◌, ℕ, ◌∷◌, ◌++◌, [], OnOk, List, length, map};
ghost use Rattle.bridge.specs.TokenEvents.{step_of};
ghost use Rattle.tt_data.specs.Walk.{walk};
ghost use Rattle.expander_model.specs.Expansion.{PlacedStep, placed};
ghost use Rattle.expander_scope.specs.Outcomes.{placed_of};
ghost use Rattle.expander_scope.specs.Sinks.{TakesMore};

use crate::outcome::{Event, kept_step};
use bridge::parts::TokenEvent;
use expander_model::tree_walk::TreeWalk;
use std::alloc::{AllocError, Global};
use tt::TtIter;
use tt_data::Span;

/// What the events of an output are handed to, one by one: a list of them, or a text that they
/// are printed on.
pub trait EventSink: Drop {
    // Exactly these events were taken so far.
    ghost has_taken: { Self → List PlacedStep → Type 0 };

    // This is a mark of where exactly these events were taken.
    ghost marks: { ℕ → List PlacedStep → Type 0 };

    /// Takes one more event. `outer` is the span of the name of the outermost call that it comes
    /// from, if any.
    fn take(&mut self, step: &TokenEvent<'_>, outer: Option<Span>) -> Result<(), AllocError>
        ensures { OnOk result (TakesMore has_taken self.old self.new
            (placed outer (step_of step.now ∷ []))) };

    /// A mark of what was taken so far.
    fn mark(&self) -> usize
        ensures { (before : List PlacedStep) → has_taken self.now before → marks result before };

    /// Takes back what was taken since this mark was made.
    fn take_back(&mut self, mark: usize)
        ensures { (before more : List PlacedStep) → marks mark before →
            has_taken self.old (before ++ more) → has_taken self.new before };
}

impl EventSink for Vec<Event> {
    ghost has_taken = { λ steps taken. map placed_of steps.items ≡ taken };

    ghost marks = { λ mark taken. length taken ≡ mark };

    fn take(&mut self, step: &TokenEvent<'_>, outer: Option<Span>) -> Result<(), AllocError> {
        let kind = kept_step(step);
        self.push(Event { kind, outer })?;
        Ok(())
    }

    fn mark(&self) -> usize {
        self.len()
    }

    fn take_back(&mut self, mark: usize) {
        self.truncate(mark);
    }
}

/// Hands over all events of these trees, each with this `outer`.
pub(crate) fn take_walk<S: EventSink>(
    alloc: Global,
    sink: &mut S,
    trees: &TtIter<'_>,
    outer: Option<Span>,
) -> Result<(), AllocError>
    ensures { OnOk result (TakesMore S.has_taken sink.old sink.new
        (placed outer (walk trees.now))) }
{
    let mut rest = TreeWalk::new(alloc, trees);
    while let Some(step) = rest.next()? {
        sink.take(&step, outer)?;
    }
    Ok(())
}

//! What is cached of a piece's output: its printed text if it can be a chunk, else its events.
ghost use Rattle.std.specs.Prelude.{◌≡◌, ◌∷◌, [], ◌++◌, IfOk, IfSome, List, OnOk};
ghost use Rattle.bridge.specs.TokenEvents.{step_of};
ghost use Rattle.expander_model.specs.Expansion.{PlacedStep, placed};
ghost use Rattle.expander_session.specs.CachedOutputs.{HasPrinted, HasTaken, IsCachedText};
ghost use Rattle.expander_session.specs.CachedOutputs.{IsOutputOf};
ghost use Rattle.tt_data.specs.Forest.{Forest};
ghost use Rattle.expander_session.specs.Emitting.{word_places};

use bridge::Printer;
use bridge::parts::{PrintedChunk, TokenEvent};
use expander_model::fault::{is_definition_word, place};
use expander_scope::event_sink::EventSink;
use expander_scope::outcome::Event;
use std::alloc::{AllocError, Global};
use tt::TopSubtree;
use tt_data::Span;

/// The chunk that events print, and the spans at which their definition keywords are reported.
#[derive(Drop)]
pub(crate) struct CachedText {
    pub printed: PrintedChunk,
    pub words: Vec<Span>,
}

/// A piece's cached output, with piece-relative spans.
#[derive(Drop)]
pub(crate) enum CachedOutput {
    /// The printed text, if the events print as a chunk. The events are not cached then.
    Part(CachedText),
    /// The events, if they are no chunk or could not be appended as one. `None` if they are the
    /// tree's own.
    Steps(Option<Vec<Event>>),
}

/// Events of a piece, printed as they come.
#[derive(Drop)]
pub(crate) struct OwnPrint {
    printer: Printer,
    // The spans at which their definition keywords are reported.
    words: Vec<Span>,
    // Whether there was none.
    is_empty: bool,
    // Whether none was taken back. What was printed cannot be.
    is_whole: bool,
}

// About how many bytes a token takes, with the white space before it.
const TOKEN: usize = 6;

/// Nothing printed yet, with room for about what a tree without calls prints.
pub(crate) fn nothing_printed(alloc: Global, tree: &TopSubtree) -> Result<OwnPrint, AllocError>
    ensures { IfOk result (λ own. HasTaken own []) }
{
    // A group is one token of the tree, and prints two brackets.
    let count = tree.token_trees().len();
    let count = count.saturating_add(count / 2);
    let bytes = count.saturating_mul(TOKEN);
    let printer = Printer::with_token_room(alloc, bytes, count)?;
    Ok(OwnPrint {
        printer,
        words: Vec::new(alloc),
        is_empty: true,
        is_whole: true,
    })
}

// Adds the span at which an event is reported, if it is a definition keyword.
fn add_word(
    words: &mut Vec<Span>,
    step: &TokenEvent<'_>,
    outer: Option<Span>,
) -> Result<(), AllocError>
    ensures { OnOk result (words.new.items ≡ words.old.items
        ++ word_places (placed outer (step_of step.now ∷ []))) }
{
    if is_definition_word(step) {
        words.push(place(step, outer))?;
    }
    Ok(())
}

impl EventSink for OwnPrint {
    ghost has_taken = { HasTaken };

    ghost marks = { λ mark taken. Unit {0} };

    #[inline(always)]
    fn take(&mut self, step: &TokenEvent<'_>, outer: Option<Span>) -> Result<(), AllocError> {
        add_word(&mut self.words, step, outer)?;
        self.is_empty = false;
        match self.printer.put_event(step) {
            Ok(()) => Ok(()),
            Err(_) => Err(AllocError),
        }
    }

    fn mark(&self) -> usize {
        0
    }

    fn take_back(&mut self, _mark: usize) {
        self.is_whole = false;
    }
}

// What was printed, as cached text. `None` if it is no chunk.
fn part_of(own: OwnPrint) -> Result<Option<CachedText>, AllocError>
    ensures { IfOk result (λ o. IfSome o (λ part. (steps : List PlacedStep) →
        HasPrinted own steps → IsCachedText part steps)) }
{
    let OwnPrint { printer, words, .. } = own;
    match printer.into_chunk() {
        Ok(Some(printed)) => Ok(Some(CachedText { printed, words })),
        Ok(None) => Ok(None),
        Err(_) => Err(AllocError),
    }
}

/// What to cache of events that were printed: their text, or no events if there were none. `None`
/// if neither says what they were, or some were taken back.
pub(crate) fn output_of(alloc: Global, own: OwnPrint) -> Result<Option<CachedOutput>, AllocError>
    ensures { IfOk result (λ o. IfSome o (λ output. (tree : Forest) (steps : List PlacedStep) →
        HasTaken own steps → IsOutputOf tree output steps)) }
{
    if !own.is_whole {
        return Ok(None);
    }
    if own.is_empty {
        return Ok(Some(CachedOutput::Steps(Some(Vec::new(alloc)))));
    }
    match part_of(own)? {
        Some(part) => Ok(Some(CachedOutput::Part(part))),
        None => Ok(None),
    }
}

//! The printer: lists of trees and token events as one text that reads back.
ghost use Rattle.std.specs.Prelude.{◌≡◌, ◌<◌, ◌^◌, ◌++◌, ◌∷◌, [], List, OnOk, OnErr, IfOk, IfErr};
ghost use Rattle.std.specs.Prelude.{IfSome, IsOkUnless, is_some, length, map, string_bytes};
ghost use Rattle.bridge.specs.PrintStates.{Fits, Grows, PutsAny, state_of};
ghost use Rattle.bridge.specs.PrintedTrees.{print_in};
ghost use Rattle.bridge.specs.PrintedRanges.{printed_ranges, read_ranges};
ghost use Rattle.bridge.specs.TokenEvents.{step_of};
ghost use Rattle.bridge.specs.Printing.{print_of, printed, visible};
ghost use Rattle.tt_data.specs.Walk.{Step, walk};
ghost use Rattle.tt.specs.Views.{forest};
ghost use Rattle.tt_data.specs.fault.TtFault.TheVariants.{Memory};

use crate::laws::tokens_are_where_they_are_printed;
use crate::printing::chunk::{PrintedChunk, append_at, append_shifted, as_chunk, takes_chunks};
use crate::printing::event::{TokenEvent, events_of, next_event};
use crate::printing::relative_spans::Shift;
use crate::printing::span_list::SpanList;
use crate::printing::state::{
    PrintState, empty_state, empty_state_with_room, end, end_with_spans, put_event, put_next, save,
    undo,
};
use crate::printing::token_ranges::{TokenRanges, token_ranges};
use std::alloc::{AllocError, Global};
use std::marker::Model;
use tt::TokenTreesView;
use tt_data::{Span, TtFault};

/// The printed text of trees, with the spans of its tokens.
#[derive(Drop)]
pub struct Printed {
    /// The text. It reads back as exactly the printed tokens.
    pub text: String,
    /// The spans of the printed tokens, in order.
    pub tokens: Vec<Span>,
    /// The indices, from 0 among all visible tokens, of those without a spelling, which are
    /// omitted.
    pub left_out: Vec<usize>,
}

impl Printed {
    /// Where the printed tokens are in the text, of at most `u32::MAX` bytes, in order. Nothing is
    /// kept for it: it lexes the text as far as it is asked, and takes no memory.
    pub fn token_ranges(&self) -> TokenRanges<'_>
        requires { length (string_bytes self.now.text) < 2 ^ 32 }
        ensures read { result ≡ read_ranges (string_bytes self.now.text) }
        ensures exact { (steps : List Step) → string_bytes self.now.text ≡ (print_of steps).text →
            result ≡ printed_ranges (printed (visible steps)) }
    {
        tokens_are_where_they_are_printed();
        token_ranges(self.text.as_str())
    }
}

/// The printed text of trees, with spans that are computed when asked for.
#[derive(Drop)]
pub struct LazyPrinted {
    /// The text. It reads back as exactly the printed tokens.
    pub text: String,
    /// The spans of the printed tokens, in order.
    pub tokens: SpanList,
    /// The indices, from 0 among all visible tokens, of those without a spelling, which are
    /// omitted.
    pub left_out: Vec<usize>,
}

/// A text under construction: lists of trees, events and chunks are appended, and printed as one
/// list.
///
/// A refused call changes nothing; `Memory` is the only reason.
#[derive(Drop)]
pub struct Printer {
    out: PrintState,
}

impl Model for Printer {
    ghost use Rattle.bridge.specs.Printers.{PrinterState};

    ghost Value = { PrinterState };

    ghost use Rattle.bridge.specs.PrintStates.{Fits, state_of};

    ghost view = { λ p. state_of p.out };

    ghost invariant = { λ p. Fits (state_of p.out) };
}

impl Printer {
    ghost use Rattle.bridge.specs.Printers.{HasPut};
    ghost use Rattle.bridge.specs.PrintedChunks.{IsChunkOf, PutsChunk, is_chunk, takes_chunks};
    ghost use Rattle.bridge.specs.RelativeSpans.{shifted};
    ghost use Rattle.bridge.specs.PrintedTrees.{lazy_print_in};
    ghost use Rattle.bridge.specs.TokenEvents.{step_of};

    /// An empty printer.
    pub fn new(alloc: Global) -> Printer
        ensures { HasPut result [] }
    {
        Printer {
            out: empty_state(alloc),
        }
    }

    /// An empty printer with room for a text of `bytes` bytes, and for `chunks` chunks.
    pub fn with_room(alloc: Global, bytes: usize, chunks: usize) -> Result<Printer, AllocError>
        ensures { IfOk result (λ printer. HasPut printer []) }
    {
        let out = empty_state_with_room(alloc, bytes, chunks, 0)?;
        Ok(Printer { out })
    }

    /// An empty printer with room for a text of `bytes` bytes, and for `tokens` tokens appended
    /// one by one.
    pub fn with_token_room(
        alloc: Global,
        bytes: usize,
        tokens: usize,
    ) -> Result<Printer, AllocError>
        ensures { IfOk result (λ printer. HasPut printer []) }
    {
        let out = empty_state_with_room(alloc, bytes, 0, tokens)?;
        Ok(Printer { out })
    }

    /// Makes room for `bytes` more bytes of text. What is printed does not depend on it.
    pub fn reserve(&mut self, bytes: usize) -> Result<(), AllocError>
        ensures { self.new ≡ self.old }
    {
        self.out.text.reserve(bytes)
    }

    /// How many visible tokens were appended, those without a spelling included.
    pub fn count(&self) -> usize
        ensures { (steps : List Step) → HasPut self.now steps → result ≡ length (visible steps) }
    {
        let settled = self.out.tokens.len() + self.out.left_out.len();
        match self.out.waiting {
            Some(_) => settled + 1,
            None => settled,
        }
    }

    /// Appends these trees. A quote that is last waits for the next call.
    pub fn put(&mut self, view: TokenTreesView<'_>) -> Result<(), TtFault>
        ensures ok { OnOk result ((steps : List Step) → HasPut self.old steps →
            HasPut self.new (steps ++ walk (forest view.entry))) }
        ensures err { OnErr result (self.new ≡ self.old) }
        ensures memory { IsOkUnless result Memory }
    {
        let alloc = *self.out.left_out.allocator();
        let before = save(&self.out);
        match put_trees(alloc, &mut self.out, view) {
            Ok(()) => Ok(()),
            Err(fault) => Err(undo(&mut self.out, before, fault)),
        }
    }

    /// Appends one event, as `put` appends all events of a list of trees.
    pub fn put_event(&mut self, step: &TokenEvent<'_>) -> Result<(), TtFault>
        ensures ok { OnOk result ((steps : List Step) → HasPut self.old steps →
            HasPut self.new (steps ++ step_of step.now ∷ [])) }
        ensures err { OnErr result (self.new ≡ self.old) }
        ensures memory { IsOkUnless result Memory }
    {
        if self.out.waiting.is_none() {
            let alloc = *self.out.left_out.allocator();
            return put_next(alloc, &mut self.out, step);
        }
        put_behind_quote(&mut self.out, step)
    }

    /// Whether a chunk can be appended here: no group is open, no quote waits, and the gap after
    /// the last token does not depend on the next one. It does after a punct that isn't `Alone`
    /// and ends no line.
    pub fn takes_chunks(&self) -> bool
        ensures { result ≡ takes_chunks self.now }
    {
        takes_chunks(&self.out)
    }

    /// Appends a chunk, with its tokens at these spans, as its events would be appended. `false`,
    /// with nothing changed, if none can be appended here.
    pub fn put_chunk(&mut self, chunk: &PrintedChunk, spans: &[Span]) -> Result<bool, TtFault>
        ensures puts { IfOk result (PutsChunk self.old self.new chunk.now spans.now) }
        ensures told { IfOk result (λ done. done ≡ takes_chunks self.old) }
        ensures err { OnErr result (self.new ≡ self.old) }
        ensures memory { IsOkUnless result Memory }
    {
        if !takes_chunks(&self.out) {
            return Ok(false);
        }
        let before = save(&self.out);
        match append_at(&mut self.out, chunk, spans) {
            Ok(()) => Ok(true),
            Err(fault) => Err(undo(&mut self.out, before, fault)),
        }
    }

    /// Appends a chunk as `put_chunk` does, with its own spans, shifted. They are shared with the
    /// chunk and computed when asked for. `false`, with nothing changed, also if they would be no
    /// spans of a text.
    pub fn put_chunk_at(&mut self, chunk: &PrintedChunk, shift: Shift) -> Result<bool, TtFault>
        ensures puts { IfOk result (PutsChunk self.old self.new chunk.now
            (map (shifted shift) chunk.now.tokens)) }
        ensures err { OnErr result (self.new ≡ self.old) }
        ensures memory { IsOkUnless result Memory }
    {
        if !takes_chunks(&self.out) {
            return Ok(false);
        }
        let before = save(&self.out);
        match append_shifted(&mut self.out, chunk, shift) {
            Ok(done) => Ok(done),
            Err(fault) => Err(undo(&mut self.out, before, fault)),
        }
    }

    /// All that was appended, as a chunk. `None` if a group is open, a quote waits, a token was
    /// omitted, or nothing was printed. `Memory` is its only error.
    pub fn into_chunk(self) -> Result<Option<PrintedChunk>, TtFault>
        ensures chunk { IfOk result (λ o. IfSome o
            (λ chunk. (steps : List Step) → HasPut self steps → IsChunkOf chunk steps)) }
        ensures told { IfOk result (λ o. is_some o ≡ is_chunk self) }
        ensures memory { IsOkUnless result Memory }
    {
        as_chunk(self.out)
    }

    /// The text of all that was appended, the spans of its tokens, and the indices of omitted
    /// tokens. A refused call gives the printer back as it was.
    pub fn finish(self) -> Result<Printed, (Printer, TtFault)>
        ensures ok { IfOk result (λ p. (steps : List Step) → HasPut self steps →
            print_in p ≡ print_of steps) }
        ensures err { IfErr result (λ e. (e.0 ≡ self) × (e.1 ≡ Memory)) }
    {
        let mut out = self.out;
        let before = save(&out);
        match end_with_spans(&mut out) {
            Ok(tokens) => Ok(Printed {
                text: out.text,
                tokens,
                left_out: out.left_out,
            }),
            Err(fault) => {
                let fault = undo(&mut out, before, fault);
                Err((Printer { out }, fault))
            }
        }
    }

    /// As `finish`, with spans that are computed when asked for. A refused call gives the printer
    /// back as it was.
    pub fn finish_lazy(self) -> Result<LazyPrinted, (Printer, TtFault)>
        ensures ok { IfOk result (λ p. (steps : List Step) → HasPut self steps →
            lazy_print_in p ≡ print_of steps) }
        ensures err { IfErr result (λ e. (e.0 ≡ self) × (e.1 ≡ Memory)) }
    {
        let mut out = self.out;
        let before = save(&out);
        match end(&mut out) {
            Ok(()) => Ok(LazyPrinted {
                text: out.text,
                tokens: out.tokens,
                left_out: out.left_out,
            }),
            Err(fault) => {
                let fault = undo(&mut out, before, fault);
                Err((Printer { out }, fault))
            }
        }
    }
}

// Appends one event. A refused call changes nothing.
#[inline(never)]
fn put_behind_quote(out: &mut PrintState, step: &TokenEvent<'_>) -> Result<(), TtFault>
    requires fits { Fits (state_of out.old) }
    ensures fits { OnOk result (Fits (state_of out.new)) }
    ensures puts { OnOk result (PutsAny (state_of out.old) (state_of out.new)
        (step_of step.now ∷ [])) }
    ensures err { OnErr result (state_of out.new ≡ state_of out.old) }
    ensures memory { IsOkUnless result Memory }
{
    let alloc = *out.left_out.allocator();
    let before = save(out);
    match put_event(alloc, out, step) {
        Ok(()) => Ok(()),
        Err(fault) => Err(undo(out, before, fault)),
    }
}

// Appends all events of these trees.
fn put_trees(alloc: Global, out: &mut PrintState, view: TokenTreesView<'_>) -> Result<(), TtFault>
    requires fits { Fits (state_of out.old) }
    ensures fits { OnOk result (Fits (state_of out.new)) }
    ensures puts { OnOk result (PutsAny (state_of out.old) (state_of out.new)
        (walk (forest view.entry))) }
    ensures grows { Grows (state_of out.old) (state_of out.new) }
    ensures memory { IsOkUnless result Memory }
{
    let mut left = events_of(alloc, view);
    while let Some(step) = next_event(&mut left)? {
        put_event(alloc, out, &step)?;
        drop(step);
    }
    Ok(())
}

/// The text of these trees' visible tokens that have a spelling. `Memory` is its only error.
pub fn print(alloc: Global, view: TokenTreesView<'_>) -> Result<Printed, TtFault>
    ensures printed { IfOk result (λ p. print_in p ≡ print_of (walk (forest view.entry))) }
    ensures memory { IsOkUnless result Memory }
{
    let mut printer = Printer::new(alloc);
    printer.put(view)?;
    match printer.finish() {
        Ok(printed) => Ok(printed),
        Err((_, fault)) => Err(fault),
    }
}

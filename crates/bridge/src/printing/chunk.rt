//! Chunks: token events printed once, whose text is appended to what was printed before.
ghost use Rattle.std.specs.Prelude.{◌≡◌, IfOk, IfSome, IsOkUnless, OnOk, is_some, map};
ghost use Rattle.std.specs.Rc.{rc_value};
ghost use Rattle.bridge.specs.RelativeSpans.{shifted};
ghost use Rattle.bridge.specs.PrintStates.{Grows, state_of};
ghost use Rattle.bridge.specs.ChunkSteps.{AppendsChunk, chunk_behind, text_behind};
ghost use Rattle.bridge.specs.PrintedChunks.{is_chunk, just_chunk, takes_chunks};
ghost use Rattle.tt_data.specs.fault.TtFault.TheVariants.{Memory};

use crate::printing::relative_spans::{RelativeSpans, Shift};
use crate::printing::spacing::{Edge, gap_outside, has_one_gap};
use crate::printing::state::PrintState;
use std::marker::Model;
use std::rc::Rc;
use tt_data::{Span, TtFault};

/// A chunk: the text of some events, printed by themselves, and the spans of its tokens. None is
/// omitted, no group is open at its end, and no quote waits for what follows.
#[derive(Drop)]
pub struct PrintedChunk {
    text: String,
    tokens: Rc<RelativeSpans>,
    last: Edge,
}

impl Model for PrintedChunk {
    ghost use Rattle.std.specs.Prelude.{string_bytes};
    ghost use Rattle.std.specs.Rc.{rc_value};
    ghost use Rattle.bridge.specs.PrintedChunks.{ChunkState};

    ghost Value = { ChunkState };

    ghost view = { λ p. record { text = string_bytes p.text; tokens = rc_value p.tokens; last = p.last } };
}

impl PrintedChunk {
    /// The spans of the printed tokens, in order.
    pub fn spans(&self) -> &[Span]
        ensures { result.now ≡ self.now.tokens }
    {
        self.tokens.as_slice()
    }

    /// The same spans, shared.
    pub fn relative_spans(&self) -> &Rc<RelativeSpans>
        ensures { rc_value result.now ≡ self.now.tokens }
    {
        &self.tokens
    }
}

/// Whether a chunk may be appended.
pub(crate) fn takes_chunks(out: &PrintState) -> bool
    ensures { result ≡ takes_chunks (state_of out.now) }
{
    if out.depth != 0 || out.waiting.is_some() {
        return false;
    }
    match out.last {
        Some(last) => has_one_gap(last),
        None => true,
    }
}

// Appends a chunk's text.
fn append_text(out: &mut PrintState, chunk: &PrintedChunk) -> Result<(), TtFault>
    ensures puts { OnOk result (state_of out.new ≡ text_behind (state_of out.old) chunk.now) }
    ensures depth { out.new.depth ≡ out.old.depth }
    ensures grows { Grows (state_of out.old) (state_of out.new) }
    ensures memory { IsOkUnless result Memory }
{
    if let Some(last) = out.last {
        out.text.push_str(gap_outside(last))?;
    }
    out.text.push_str(chunk.text.as_str())?;
    out.last = Some(chunk.last);
    Ok(())
}

/// Appends a chunk, with its tokens at these spans.
pub(crate) fn append_at(
    out: &mut PrintState,
    chunk: &PrintedChunk,
    spans: &[Span],
) -> Result<(), TtFault>
    ensures puts { OnOk result (state_of out.new
        ≡ chunk_behind (state_of out.old) chunk.now spans.now) }
    ensures grows { Grows (state_of out.old) (state_of out.new) }
    ensures memory { IsOkUnless result Memory }
{
    append_text(out, chunk)?;
    if out.tokens.extend_from_slice(spans).is_err() {
        return Err(TtFault::Memory);
    }
    Ok(())
}

/// Appends a chunk, with its tokens at their own spans, shifted. `false`, with nothing changed, if
/// they would be no spans of a text.
pub(crate) fn append_shifted(
    out: &mut PrintState,
    chunk: &PrintedChunk,
    shift: Shift,
) -> Result<bool, TtFault>
    ensures puts { IfOk result (AppendsChunk (state_of out.old) (state_of out.new) chunk.now
        (map (shifted shift) chunk.now.tokens)) }
    ensures depth { out.new.depth ≡ out.old.depth }
    ensures grows { Grows (state_of out.old) (state_of out.new) }
    ensures memory { IsOkUnless result Memory }
{
    match out.tokens.push_shared(&chunk.tokens, shift) {
        Ok(true) => {
            append_text(out, chunk)?;
            Ok(true)
        }
        Ok(false) => Ok(false),
        Err(_) => Err(TtFault::Memory),
    }
}

/// What was printed, as a chunk. `None` if it is no chunk. Unused room of its text and its spans
/// is given back.
pub(crate) fn as_chunk(out: PrintState) -> Result<Option<PrintedChunk>, TtFault>
    ensures chunk { IfOk result (λ o. IfSome o (λ chunk. state_of out ≡ just_chunk chunk)) }
    ensures told { IfOk result (λ o. is_some o ≡ is_chunk (state_of out)) }
    ensures memory { IsOkUnless result Memory }
{
    if out.depth != 0 || out.waiting.is_some() || !out.left_out.is_empty() {
        return Ok(None);
    }
    let Some(last) = out.last else {
        return Ok(None);
    };
    let alloc = *out.left_out.allocator();
    let mut text = out.text;
    text.shrink_to_fit();
    let mut tokens = out.tokens;
    let Ok(mut spans) = tokens.take_spans() else {
        return Err(TtFault::Memory);
    };
    spans.shrink_to_fit();
    match Rc::new(alloc, RelativeSpans::new(spans)) {
        Ok(tokens) => Ok(Some(PrintedChunk { text, tokens, last })),
        Err(_) => Err(TtFault::Memory),
    }
}

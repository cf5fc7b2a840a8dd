//! The state of a printer: what is printed so far, visible token by visible token.
ghost use Rattle.std.specs.Prelude.{◌≡◌, ◌+◌, ◌∷◌, [], encode_utf8, List, None, Some, true, IfOk};
ghost use Rattle.std.specs.Prelude.{OnErr, OnOk, IsOkUnless, string_bytes, option_map};
ghost use Rattle.std.specs.Str.{IsCharBoundary};
ghost use Rattle.bridge.specs.FastSpellings.{is_mark_char};
ghost use Rattle.bridge.specs.PrintStates.{Fits, Grows, IsReady, PutsAny, PutsNext, Settles};
ghost use Rattle.bridge.specs.PrintStates.{none_behind, print_with, printed_so_far, saved_of};
ghost use Rattle.bridge.specs.PrintStates.{state_of, token_behind, token_text};
ghost use Rattle.bridge.specs.Printers.{Continues, PrinterState, nothing_put};
ghost use Rattle.bridge.specs.Printing.{Print, is_visible_step};
ghost use Rattle.bridge.specs.Spelling.{begins_with_name, close_text, open_text, spelling};
ghost use Rattle.bridge.specs.declared.printing.spacing.Edge.TheVariants.{Other};
ghost use Rattle.tt.specs.Glued.{is_joint};
ghost use Rattle.bridge.specs.Text.{is_char};
ghost use Rattle.bridge.specs.TokenEvents.{step_of};
ghost use Rattle.tt_data.specs.Lent.{leaf_lent};
ghost use Rattle.tt_data.specs.Walk.{Step, at_leaf, opens, closes};
ghost use Rattle.tt_data.specs.declared.leaf.Leaf.TheVariants as as_leaf;
ghost use Rattle.tt_data.specs.fault.TtFault.TheVariants.{Memory};

use crate::printing::event::TokenEvent;
use crate::printing::fast_spelling::{ascii_name, ident_text, is_mark, number_text};
use crate::printing::spacing::{Edge, closing_edge, leaf_edge};
use crate::printing::span_list::SpanList;
use crate::printing::spelling::leaf_spelling;
use crate::printing::token_text::{TokenText, most_bytes, push_gap, push_text};
use std::alloc::{AllocError, Global};
use tt_data::{DelimiterKind, LeafRef, Punct, Spacing, Span, TtFault};

/// What is printed so far, and all that the next visible token depends on.
#[derive(Drop)]
pub(crate) struct PrintState {
    pub(crate) text: String,
    pub(crate) tokens: SpanList,
    pub(crate) left_out: Vec<usize>,
    // How many visible groups are open.
    pub(crate) depth: usize,
    // The token printed last.
    pub(crate) last: Option<Edge>,
    // The span of a `Joint` quote that is pending: the next visible token decides whether it has
    // a spelling.
    pub(crate) waiting: Option<Span>,
}

fn opening(kind: DelimiterKind) -> Option<char>
    ensures { option_map encode_utf8 result ≡ open_text kind }
{
    match kind {
        DelimiterKind::Parenthesis => Some('('),
        DelimiterKind::Brace => Some('{'),
        DelimiterKind::Bracket => Some('['),
        DelimiterKind::Invisible => None,
    }
}

fn closing(kind: DelimiterKind) -> Option<char>
    ensures { option_map encode_utf8 result ≡ close_text kind }
{
    match kind {
        DelimiterKind::Parenthesis => Some(')'),
        DelimiterKind::Brace => Some('}'),
        DelimiterKind::Bracket => Some(']'),
        DelimiterKind::Invisible => None,
    }
}

// Prints a token, which leaves as many groups open. A refused call changes nothing.
#[inline(always)]
fn add(out: &mut PrintState, edge: Edge, span: Span, text: TokenText<'_>) -> Result<(), TtFault>
    ensures ok { OnOk result (state_of out.new
        ≡ token_behind (state_of out.old) edge span (token_text text.entry)) }
    ensures err { OnErr result (state_of out.new ≡ state_of out.old) }
    ensures memory { IsOkUnless result Memory }
{
    out.text.reserve(most_bytes(text))?;
    if out.tokens.push(span).is_err() {
        return Err(TtFault::Memory);
    }
    push_gap(&mut out.text, out.depth, out.last, edge);
    push_text(&mut out.text, text);
    out.last = Some(edge);
    Ok(())
}

// Records that a token is omitted. A refused call changes nothing.
fn leave_out(out: &mut PrintState) -> Result<(), TtFault>
    ensures ok { OnOk result (state_of out.new ≡ none_behind (state_of out.old)) }
    ensures err { OnErr result (state_of out.new ≡ state_of out.old) }
    ensures memory { IsOkUnless result Memory }
{
    let place = out.tokens.len() + out.left_out.len();
    match out.left_out.push(place) {
        Ok(()) => Ok(()),
        Err(_) => Err(TtFault::Memory),
    }
}

// Prints the pending quote, if there is one and a name follows; else omits it. A refused call
// changes nothing.
fn settle(out: &mut PrintState, is_name: bool) -> Result<(), TtFault>
    requires fits { Fits (state_of out.old) }
    ensures settled { OnOk result (Settles (state_of out.old) (state_of out.new) is_name) }
    ensures err { OnErr result (state_of out.new ≡ state_of out.old) }
    ensures memory { IsOkUnless result Memory }
{
    let Some(span) = out.waiting else {
        return Ok(());
    };
    if !is_name {
        leave_out(out)?;
        out.waiting = None;
        return Ok(());
    }
    add(out, Edge::Mark('\'', true), span, TokenText::Mark('\''))?;
    out.waiting = None;
    Ok(())
}

fn is_joint(spacing: Spacing) -> bool
    ensures { result ≡ is_joint spacing }
{
    matches!(spacing, Spacing::Joint)
}

// Adds a quote: it is pending if it is `Joint`, else it is omitted.
fn put_quote(out: &mut PrintState, punct: Punct) -> Result<(), TtFault>
    requires quote { is_char "'" punct ≡ true }
    requires ready { IsReady (state_of out.old) }
    ensures puts { OnOk result (PutsNext (state_of out.old) (state_of out.new)
        (at_leaf (as_leaf.Punct punct) ∷ [])) }
    ensures err { OnErr result (state_of out.new ≡ state_of out.old) }
    ensures memory { IsOkUnless result Memory }
{
    if is_joint(punct.spacing) {
        out.waiting = Some(punct.span);
        return Ok(());
    }
    leave_out(out)
}

// Adds a punct that is no quote.
#[inline(never)]
fn put_mark(out: &mut PrintState, punct: &Punct) -> Result<(), TtFault>
    requires mark { is_mark_char punct.now.char ≡ true }
    requires ready { IsReady (state_of out.old) }
    ensures puts { OnOk result (PutsNext (state_of out.old) (state_of out.new)
        (at_leaf (as_leaf.Punct punct.now) ∷ [])) }
    ensures err { OnErr result (state_of out.new ≡ state_of out.old) }
    ensures memory { IsOkUnless result Memory }
{
    let edge = leaf_edge(LeafRef::Punct(*punct));
    add(out, edge, punct.span, TokenText::Mark(punct.char))
}

// Prints a name, a number or another text without a punct.
#[inline(never)]
fn add_word(out: &mut PrintState, span: &Span, text: &str) -> Result<(), TtFault>
    ensures ok { OnOk result (state_of out.new
        ≡ token_behind (state_of out.old) Other span.now text.now) }
    ensures err { OnErr result (state_of out.new ≡ state_of out.old) }
    ensures memory { IsOkUnless result Memory }
{
    add(out, Edge::Other, *span, TokenText::Word(text))
}

// Adds a leaf with this spelling, which is no quote.
#[inline(always)]
fn put_spelled(out: &mut PrintState, leaf: LeafRef<'_>, text: &str) -> Result<(), TtFault>
    requires spelled { (more : List Step) →
        spelling (at_leaf (leaf_lent leaf)) more ≡ Some text.now }
    requires ready { IsReady (state_of out.old) }
    ensures puts { OnOk result (PutsNext (state_of out.old) (state_of out.new)
        (at_leaf (leaf_lent leaf.entry) ∷ [])) }
    ensures err { OnErr result (state_of out.new ≡ state_of out.old) }
    ensures memory { IsOkUnless result Memory }
{
    add(out, leaf_edge(leaf), leaf.span(), TokenText::Word(text))
}

// Omits a leaf without a spelling, which is no quote.
fn put_unspelled(out: &mut PrintState, leaf: LeafRef<'_>) -> Result<(), TtFault>
    requires unspelled { (more : List Step) → spelling (at_leaf (leaf_lent leaf)) more ≡ None }
    requires ready { IsReady (state_of out.old) }
    ensures puts { OnOk result (PutsNext (state_of out.old) (state_of out.new)
        (at_leaf (leaf_lent leaf.entry) ∷ [])) }
    ensures err { OnErr result (state_of out.new ≡ state_of out.old) }
    ensures memory { IsOkUnless result Memory }
{
    leave_out(out)
}

// Adds a leaf: a quote, or one whose text may have to be lexed.
#[inline(never)]
fn put_lexed(alloc: Global, out: &mut PrintState, leaf: &LeafRef<'_>) -> Result<(), TtFault>
    requires ready { IsReady (state_of out.old) }
    ensures puts { OnOk result (PutsNext (state_of out.old) (state_of out.new)
        (at_leaf (leaf_lent leaf.now) ∷ [])) }
    ensures err { OnErr result (state_of out.new ≡ state_of out.old) }
    ensures memory { IsOkUnless result Memory }
{
    if let LeafRef::Punct(punct) = leaf {
        if punct.char == '\'' {
            return put_quote(out, *punct);
        }
    }
    match leaf_spelling(alloc, *leaf)? {
        Some(text) => put_spelled(out, *leaf, text.as_str()),
        None => put_unspelled(out, *leaf),
    }
}

// Adds a leaf. Most are numbers and strings.
#[inline(never)]
fn put_other(alloc: Global, out: &mut PrintState, leaf: &LeafRef<'_>) -> Result<(), TtFault>
    requires ready { IsReady (state_of out.old) }
    ensures puts { OnOk result (PutsNext (state_of out.old) (state_of out.new)
        (at_leaf (leaf_lent leaf.now) ∷ [])) }
    ensures err { OnErr result (state_of out.new ≡ state_of out.old) }
    ensures memory { IsOkUnless result Memory }
{
    match leaf {
        LeafRef::Ident(ident) => {
            if let Some(text) = ident_text(*ident) {
                return add_word(out, &ident.span, text);
            }
        }
        LeafRef::Literal(literal) => {
            if let Some(text) = number_text(*literal) {
                return add_word(out, &literal.span(), text);
            }
        }
        LeafRef::Punct(_) => {}
    }
    put_lexed(alloc, out, leaf)
}

// Adds an opening, which is printed if its group is visible.
#[inline(never)]
fn put_opening(out: &mut PrintState, kind: DelimiterKind, span: &Span) -> Result<(), TtFault>
    requires ready { IsReady (state_of out.old) }
    ensures puts { OnOk result (PutsNext (state_of out.old) (state_of out.new)
        (opens kind span.now ∷ [])) }
    ensures err { OnErr result (state_of out.new ≡ state_of out.old) }
    ensures memory { IsOkUnless result Memory }
{
    let Some(text) = opening(kind) else {
        return Ok(());
    };
    // Each open group printed a token, so the minimum is the depth, and one more fits.
    let depth = out.depth.min(out.tokens.len()) + 1;
    add(out, Edge::Other, *span, TokenText::Mark(text))?;
    out.depth = depth;
    Ok(())
}

// Adds a closing, which is printed if its group is visible.
#[inline(never)]
fn put_closing(out: &mut PrintState, kind: DelimiterKind, span: &Span) -> Result<(), TtFault>
    requires ready { IsReady (state_of out.old) }
    ensures puts { OnOk result (PutsNext (state_of out.old) (state_of out.new)
        (closes kind span.now ∷ [])) }
    ensures err { OnErr result (state_of out.new ≡ state_of out.old) }
    ensures memory { IsOkUnless result Memory }
{
    let Some(text) = closing(kind) else {
        return Ok(());
    };
    let depth = out.depth.saturating_sub(1);
    add(out, closing_edge(kind), *span, TokenText::Mark(text))?;
    out.depth = depth;
    Ok(())
}

/// Adds an event where no quote is pending: a leaf, or a bracket of a group that may be invisible.
/// A refused call changes nothing.
///
/// Puncts and ASCII names, which are most tokens, are told first. That and what is inlined decide
/// speed alone.
#[inline(always)]
pub(crate) fn put_next(
    alloc: Global,
    out: &mut PrintState,
    step: &TokenEvent<'_>,
) -> Result<(), TtFault>
    requires ready { IsReady (state_of out.old) }
    ensures puts { OnOk result (PutsNext (state_of out.old) (state_of out.new)
        (step_of step.now ∷ [])) }
    ensures err { OnErr result (state_of out.new ≡ state_of out.old) }
    ensures memory { IsOkUnless result Memory }
{
    match step {
        TokenEvent::Leaf(leaf) => {
            match leaf {
                LeafRef::Punct(punct) => {
                    if is_mark(punct.char) {
                        return put_mark(out, punct);
                    }
                }
                LeafRef::Ident(ident) => {
                    if let Some(name) = ascii_name(*ident) {
                        return add_word(out, &ident.span, name);
                    }
                }
                LeafRef::Literal(_) => {}
            }
            put_other(alloc, out, leaf)
        }
        TokenEvent::Opens(kind, span) => put_opening(out, *kind, span),
        TokenEvent::Closes(kind, span) => put_closing(out, *kind, span),
    }
}

// Whether the event is a name that isn't raw and has a spelling.
fn is_name(alloc: Global, step: &TokenEvent<'_>) -> Result<bool, TtFault>
    ensures name { IfOk result (λ is. (more : List Step) →
        begins_with_name (step_of step.now ∷ more) ≡ is) }
    ensures memory { IsOkUnless result Memory }
{
    match step {
        TokenEvent::Leaf(leaf) => match leaf {
            LeafRef::Ident(ident) if ident.is_raw.no() => {
                // Most need not be lexed.
                Ok(ident_text(*ident).is_some() || leaf_spelling(alloc, *leaf)?.is_some())
            }
            _ => Ok(false),
        },
        _ => Ok(false),
    }
}

// Whether the event is a visible token: all but the ends of invisible groups.
fn is_visible(step: &TokenEvent<'_>) -> bool
    ensures { result ≡ is_visible_step (step_of step.now) }
{
    match step {
        TokenEvent::Leaf(_) => true,
        TokenEvent::Opens(kind, _) | TokenEvent::Closes(kind, _) => *kind
            != DelimiterKind::Invisible,
    }
}

/// Adds an event: a leaf, or a bracket of a group that may be invisible.
pub(crate) fn put_event(
    alloc: Global,
    out: &mut PrintState,
    step: &TokenEvent<'_>,
) -> Result<(), TtFault>
    requires fits { Fits (state_of out.old) }
    ensures fits { OnOk result (Fits (state_of out.new)) }
    ensures puts { OnOk result (PutsAny (state_of out.old) (state_of out.new)
        (step_of step.now ∷ [])) }
    ensures grows { Grows (state_of out.old) (state_of out.new) }
    ensures memory { IsOkUnless result Memory }
{
    if !is_visible(step) {
        return Ok(());
    }
    if out.waiting.is_none() {
        return put_next(alloc, out, step);
    }
    settle(out, is_name(alloc, step)?)?;
    put_next(alloc, out, step)
}

/// Ends the text: a pending quote is omitted, and a newline comes last if anything is printed.
pub(crate) fn end(out: &mut PrintState) -> Result<(), TtFault>
    requires fits { Fits (state_of out.old) }
    ensures ends { OnOk result ((all : Print) → Continues (state_of out.old) [] all →
        printed_so_far (state_of out.new) ≡ all) }
    ensures grows { Grows (state_of out.old) (state_of out.new) }
    ensures memory { IsOkUnless result Memory }
{
    settle(out, false)?;
    if out.last.is_some() {
        out.text.push_str("\n")?;
    }
    Ok(())
}

/// Ends the text, and gives the spans of its tokens in one vector.
pub(crate) fn end_with_spans(out: &mut PrintState) -> Result<Vec<Span>, TtFault>
    requires fits { Fits (state_of out.old) }
    ensures ends { IfOk result (λ spans. (all : Print) → Continues (state_of out.old) [] all →
        print_with out.new spans ≡ all) }
    ensures grows { OnErr result (Grows (state_of out.old) (state_of out.new)) }
    ensures memory { IsOkUnless result Memory }
{
    end(out)?;
    match out.tokens.take_spans() {
        Ok(spans) => Ok(spans),
        Err(_) => Err(TtFault::Memory),
    }
}

/// How much was printed at some time, and what the next visible token depended on then.
#[derive(Clone, Copy)]
pub(crate) struct SavedState {
    text: usize,
    tokens: usize,
    left_out: usize,
    depth: usize,
    last: Option<Edge>,
    waiting: Option<Span>,
}

// Nothing printed yet, with this empty text and no spans.
fn empty_state_in(alloc: Global, text: String, tokens: SpanList) -> PrintState
    requires text { string_bytes text ≡ [] }
    requires tokens { tokens ≡ [] }
    ensures { state_of result ≡ nothing_put }
{
    PrintState {
        text,
        tokens,
        left_out: Vec::new(alloc),
        depth: 0,
        last: None,
        waiting: None,
    }
}

/// Nothing printed yet.
pub(crate) fn empty_state(alloc: Global) -> PrintState
    ensures { state_of result ≡ nothing_put }
{
    empty_state_in(alloc, String::new(alloc), SpanList::new(alloc))
}

/// Nothing printed yet, with room for so many bytes, chunks, and tokens outside chunks.
pub(crate) fn empty_state_with_room(
    alloc: Global,
    bytes: usize,
    parts: usize,
    tokens: usize,
) -> Result<PrintState, AllocError>
    ensures { IfOk result (λ out. state_of out ≡ nothing_put) }
{
    let text = String::with_capacity(alloc, bytes)?;
    let tokens = SpanList::with_room(alloc, parts, tokens)?;
    Ok(empty_state_in(alloc, text, tokens))
}

/// How much is printed now.
pub(crate) fn save(out: &PrintState) -> SavedState
    ensures { result ≡ saved_of (state_of out.now) }
{
    SavedState {
        text: out.text.len(),
        tokens: out.tokens.len(),
        left_out: out.left_out.len(),
        depth: out.depth,
        last: out.last,
        waiting: out.waiting,
    }
}

/// Undoes what a refused call changed since the state was saved, and answers its fault.
pub(crate) fn undo(out: &mut PrintState, saved: SavedState, fault: TtFault) -> TtFault
    requires { IsCharBoundary (string_bytes out.old.text) saved.text }
    ensures fault { result ≡ fault }
    ensures state { (old : PrinterState) → saved ≡ saved_of old →
        Grows old (state_of out.old) → state_of out.new ≡ old }
{
    out.text.truncate(saved.text);
    out.tokens.truncate(saved.tokens);
    out.left_out.truncate(saved.left_out);
    out.depth = saved.depth;
    out.last = saved.last;
    out.waiting = saved.waiting;
    fault
}

//! Piece-relative spans: stored once, and shifted to wherever their piece is.
ghost use Rattle.std.specs.Prelude.{◌≡◌, ◌+◌, ◌<◌, ◌^◌, IfSome, true};
ghost use Rattle.std.specs.List.{list_all};
ghost use Rattle.bridge.specs.RelativeSpans.{is_anchored, is_in_text, is_within, shifted};

use std::marker::Model;
use tt_data::{Span, TextRange};

/// A place in a text.
#[derive(Clone, Copy)]
pub struct Place {
    /// The text: 0 is the one that is expanded, and others are those that define macros for it.
    pub text: u32,
    /// The offset in the text, in bytes.
    pub start: u32,
}

/// The places that the spans of a piece count from: those of its own tokens, and those with
/// another anchor than 0.
#[derive(Clone, Copy)]
pub struct Shift {
    pub own: Place,
    pub other: Place,
}

// A bound on all ranges, and the only anchor besides 0.
#[derive(Clone, Copy)]
struct Bounds {
    reach: u32,
    anchor: u32,
}

/// Piece-relative spans, in order.
#[derive(Drop)]
pub struct RelativeSpans {
    spans: Vec<Span>,
    // `None` if there are two anchors besides 0.
    bounds: Option<Bounds>,
}

impl Model for RelativeSpans {
    ghost use Rattle.std.specs.Prelude.{◌≡◌, IfSome, List, true};
    ghost use Rattle.std.specs.List.{list_all};
    ghost use Rattle.tt_data.specs.declared.span.Span.{Span};
    ghost use Rattle.bridge.specs.RelativeSpans.{is_within};

    ghost Value = { List Span };

    ghost view = { λ h. h.spans.items };

    ghost invariant = { λ h. IfSome h.bounds (λ b. list_all (is_within b.reach b.anchor) h.spans.items ≡ true) };
}

impl RelativeSpans {
    /// These spans.
    pub fn new(spans: Vec<Span>) -> RelativeSpans
        ensures { result ≡ spans.items }
    {
        let bounds = bounds_of(spans.as_slice());
        RelativeSpans { spans, bounds }
    }

    /// The spans in order.
    pub fn as_slice(&self) -> &[Span]
        ensures { result.now ≡ self.now }
    {
        self.spans.as_slice()
    }

    /// The only anchor besides 0, or any number if there is none; `None` if there are more.
    pub fn anchor(&self) -> Option<u32>
        ensures { IfSome result (λ a. list_all (is_anchored a) self.now ≡ true) }
    {
        match self.bounds {
            Some(bounds) => Some(bounds.anchor),
            None => None,
        }
    }

    /// Whether all of them are spans of a text when they are shifted; `false` if there are two
    /// anchors besides 0.
    pub fn fits(&self, shift: Shift) -> bool
        ensures { result ≡ true → list_all (is_in_text shift) self.now ≡ true }
    {
        match self.bounds {
            Some(bounds) => has_room(shift, bounds.reach),
            None => false,
        }
    }
}

// Whether ranges that end at `reach` or before still fit when they are shifted.
fn has_room(shift: Shift, reach: u32) -> bool
    ensures { result ≡ true → (shift.own.start + reach < 2 ^ 32) ×
        (shift.other.start + reach < 2 ^ 32) }
{
    let room = u32::MAX - reach;
    shift.own.start <= room && shift.other.start <= room
}

fn is_within(bounds: Bounds, span: &Span) -> bool
    ensures { result ≡ is_within bounds.reach bounds.anchor span.now }
{
    span.range.start <= bounds.reach
        && (span.range.end <= bounds.reach && (span.anchor == 0 || span.anchor == bounds.anchor))
}

fn are_within(bounds: Bounds, spans: &[Span]) -> bool
    ensures { result ≡ true → list_all (is_within bounds.reach bounds.anchor) spans.now ≡ true }
{
    for span in spans {
        if !is_within(bounds, span) {
            return false;
        }
    }
    true
}

// The greatest end, and the last anchor that isn't 0.
fn widest(spans: &[Span]) -> Bounds {
    let mut bounds = Bounds {
        reach: 0,
        anchor: 0,
    };
    for span in spans {
        bounds.reach = bounds.reach.max(span.range.end);
        if span.anchor != 0 {
            bounds.anchor = span.anchor;
        }
    }
    bounds
}

fn bounds_of(spans: &[Span]) -> Option<Bounds>
    ensures { IfSome result (λ b. list_all (is_within b.reach b.anchor) spans.now ≡ true) }
{
    let bounds = widest(spans);
    if are_within(bounds, spans) {
        Some(bounds)
    } else {
        None
    }
}

/// The span, shifted.
pub(crate) fn shifted(shift: Shift, span: Span) -> Span
    requires { is_in_text shift span ≡ true }
    ensures { result ≡ shifted shift span }
{
    let from = if span.anchor == 0 {
        shift.own
    } else {
        shift.other
    };
    let start = from.start + span.range.start;
    let end = from.start + span.range.end;
    Span {
        range: TextRange { start, end },
        anchor: from.text,
        ctx: span.ctx,
    }
}

//! Where the modules of a file end in its expansion.
ghost use Rattle.std.specs.Prelude.{◌≡◌, ◌<◌, ◌^◌, ℕ, IfNone, IfOk, IfSome, OnOk, length};
ghost use Rattle.std.specs.BTreeMap.{get};
ghost use Rattle.std.specs.List.{AllZip};
ghost use Rattle.std.specs.Ordering.{nat_cmp};
ghost use Rattle.expander_run.specs.expander_session.Expanded.{Expanded};
ghost use Rattle.bridge.specs.PrintedRanges.{read_ranges};
ghost use Rattle.crate_walk.specs.WholeTexts.{has_semicolon};
ghost use Rattle.program_files.specs.EndsFound.{end_after};
ghost use Rattle.program_files.specs.ModuleEnds.{ComesFrom, IsEnd, IsEndOf};

use crate_walk::{Event, FileText};
use expander_run::expander_session::session::Expansion;
use std::alloc::{AllocError, Global};
use std::collections::BTreeMap;
use tt_data::TextRange;

// Where the printed token of this index begins in the text, if it comes from there.
fn own_start(expansion: &Expansion, i: usize) -> Option<u32>
    requires { i < length expansion.now.origins }
    ensures own { IfSome result (λ start. ComesFrom expansion.now i start) }
    ensures other { IfNone result ((start : ℕ) → ComesFrom expansion.now i start → ⊥) }
{
    match expansion.source(i) {
        Some(origin) => {
            if origin.text == 0 {
                Some(origin.range.start)
            } else {
                None
            }
        }
        None => None,
    }
}

// Whether a text has a `;` at an offset.
fn has_semicolon(text: &[u8], at: usize) -> bool
    ensures { result ≡ has_semicolon text.now at }
{
    match text.get(at) {
        Some(byte) => *byte == b';',
        None => false,
    }
}

// Adds that a `;` is printed at an offset, if one is, behind a token that comes from another.
fn push_end(
    ends: &mut BTreeMap<u32, usize>,
    text: &[u8],
    before: Option<u32>,
    at: usize,
) -> Result<(), AllocError>
    ensures { OnOk result ((start : ℕ) → get nat_cmp ends.new start
        ≡ end_after text.now before at start (get nat_cmp ends.old start)) }
{
    let Some(start) = before else {
        return Ok(());
    };
    if has_semicolon(text, at) {
        ends.insert(start, at)?;
    }
    Ok(())
}

/// Where the printed tokens are, in order.
pub(crate) fn ranges_in(alloc: Global, expansion: &Expansion) -> Result<Vec<TextRange>, AllocError>
    requires { length expansion.now.printed < 2 ^ 32 }
    ensures ranges { IfOk result (λ all. all.items ≡ read_ranges expansion.now.printed) }
    ensures count { IfOk result (λ all. length all.items ≡ length expansion.now.origins) }
{
    let mut all = Vec::new(alloc);
    for range in expansion.token_ranges() {
        all.push(range)?;
    }
    Ok(all)
}

// Where a `;` is printed right behind a token that comes from the text, by where that begins there.
// The printed tokens are at these ranges of the printed text.
fn ends_in(
    alloc: Global,
    expansion: &Expansion,
    text: &[u8],
    ranges: &[TextRange],
) -> Result<BTreeMap<u32, usize>, AllocError>
    requires text { text.now ≡ expansion.now.printed }
    requires ranges { ranges.now ≡ read_ranges expansion.now.printed }
    requires count { length ranges.now ≡ length expansion.now.origins }
    ensures { IfOk result (λ ends. (start : ℕ)
        → IsEnd expansion.now start (get nat_cmp ends start)) }
{
    let mut ends = BTreeMap::new(alloc);
    let mut before = None;
    for i in 0..ranges.len() {
        push_end(&mut ends, text, before, ranges[i].start as usize)?;
        before = own_start(expansion, i);
    }
    Ok(ends)
}

// Where an event ends, if it is a module that has one of these ends.
fn end_of(ends: &BTreeMap<u32, usize>, event: &Event) -> Option<usize>
    ensures { (e : Expanded) → ((start : ℕ) → IsEnd e start (get nat_cmp ends.now start))
        → IsEndOf e event.now result }
{
    match event {
        Event::Outline(item) => ends.get(&item.start).copied(),
        _ => None,
    }
}

/// The printed text of an expansion, of at most `u32::MAX` bytes, and where the modules end in it
/// that are among these events of the text.
pub fn file_text(
    alloc: Global,
    expansion: &Expansion,
    events: &[Event],
) -> Result<FileText, AllocError>
    requires { length expansion.now.printed < 2 ^ 32 }
    ensures text { IfOk result (λ t. t.text.items ≡ expansion.now.printed) }
    ensures ends { IfOk result (λ t. AllZip (IsEndOf expansion.now) events.now t.ends.items) }
{
    let text = expansion.printed().as_bytes();
    let ranges = ranges_in(alloc, expansion)?;
    let found = ends_in(alloc, expansion, text, ranges.as_slice())?;
    let mut ends = Vec::new(alloc);
    for event in events {
        ends.push(end_of(&found, event))?;
    }
    Ok(FileText {
        text: Vec::from_slice(alloc, text)?,
        ends,
    })
}

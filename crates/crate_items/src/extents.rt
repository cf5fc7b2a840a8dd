//! Where calls and modules are that are items of a text.
ghost use Rattle.std.specs.Prelude.{◌≡◌, ◌++◌, IfOk, OnOk, option_to_list};
ghost use Rattle.cfg_options.specs.Options.{options_of};
ghost use Rattle.expander_model.specs.Pieces.{cut};
ghost use Rattle.crate_items.specs.Extents.{AreExtentsOf, call_extent, call_extents, found_within};
ghost use Rattle.crate_items.specs.Extents.{inside, outline_extent, outline_extents, piece_found};

use crate::heads::{braced, is_semicolon, module_head};
use crate::reading::read;
use bridge::Read;
use cfg_options::CfgOptions;
use expander_model::call::call_at;
use expander_model::definition::after_attributes;
use expander_model::split::next_piece;
use std::alloc::{AllocError, Global};
use tt::TtIter;
use tt_data::{TextRange, TtFault};

// How many lists of items inside one another are read: that of the text, and 64 modules.
const MOST_LISTS: u8 = 65;

/// A module in a file of its own.
#[derive(Clone, Copy, PartialEq, Eq, Debug)]
pub struct Outline {
    /// The offset of its name in the text, in bytes.
    pub name: u32,
    /// Where it is, from its first attribute to its `;`.
    pub range: TextRange,
}

/// Where items of a text are, in order.
#[derive(Drop)]
pub struct Extents {
    /// Calls, each from its name to its closing bracket.
    pub calls: Vec<TextRange>,
    /// Modules in files of their own.
    pub outlines: Vec<Outline>,
}

// Where the call is that a piece is behind its attributes.
fn call_extent(piece: &TtIter<'_>) -> Option<TextRange>
    ensures { result ≡ call_extent piece.now }
{
    let call = call_at(&after_attributes(piece))?;
    let (brackets, _, _) = call.from_group.first_group()?;
    Some(TextRange {
        start: call.name.span.range.start,
        end: brackets.close_span.range.end,
    })
}

// Where the module in a file of its own is that a piece is.
fn outline_extent(piece: &TtIter<'_>) -> Option<Outline>
    ensures { result ≡ outline_extent piece.now }
{
    let (name, rest) = module_head(piece)?;
    if !is_semicolon(&rest) {
        return None;
    }
    let first = piece.next_span()?;
    let last = rest.next_span()?;
    Some(Outline {
        name: name.span.range.start,
        range: TextRange {
            start: first.range.start,
            end: last.range.end,
        },
    })
}

// What is in the braces of the inline module that a piece is.
fn inside<'a>(piece: &TtIter<'a>) -> Option<TtIter<'a>>
    ensures { result ≡ inside piece.now }
{
    let (_, rest) = module_head(piece)?;
    braced(&rest)
}

// Adds what a piece is by itself.
fn push_own(piece: &TtIter<'_>, extents: &mut Extents) -> Result<(), AllocError>
    ensures calls { OnOk result (extents.new.calls.items
        ≡ extents.old.calls.items ++ option_to_list (call_extent piece.now)) }
    ensures outlines { OnOk result (extents.new.outlines.items
        ≡ extents.old.outlines.items ++ option_to_list (outline_extent piece.now)) }
{
    if let Some(call) = call_extent(piece) {
        extents.calls.push(call)?;
    }
    if let Some(outline) = outline_extent(piece) {
        extents.outlines.push(outline)?;
    }
    Ok(())
}

// Adds what is in some trees, with modules inside one another so many levels deep.
#[cycle(extents)]
fn push_within(
    options: &CfgOptions,
    levels: u8,
    trees: &TtIter<'_>,
    extents: &mut Extents,
) -> Result<(), AllocError>
    ensures calls { OnOk result (extents.new.calls.items ≡ extents.old.calls.items
        ++ found_within (options_of options.now) call_extent levels trees.now) }
    ensures outlines { OnOk result (extents.new.outlines.items ≡ extents.old.outlines.items
        ++ found_within (options_of options.now) outline_extent levels trees.now) }
{
    if levels == 0 {
        return Ok(());
    }
    let mut rest = trees.copied();
    while let Some(piece) = next_piece(&mut rest) {
        push_piece(options, levels - 1, &piece, extents)?;
    }
    Ok(())
}

// Adds what a piece is, and what is in it.
#[cycle(extents)]
fn push_piece(
    options: &CfgOptions,
    levels: u8,
    piece: &TtIter<'_>,
    extents: &mut Extents,
) -> Result<(), AllocError>
    ensures calls { OnOk result (extents.new.calls.items ≡ extents.old.calls.items
        ++ piece_found (options_of options.now) call_extent
        (found_within (options_of options.now) call_extent levels) piece.now) }
    ensures outlines { OnOk result (extents.new.outlines.items ≡ extents.old.outlines.items
        ++ piece_found (options_of options.now) outline_extent
        (found_within (options_of options.now) outline_extent levels) piece.now) }
{
    if !options.is_kept(piece)? {
        return Ok(());
    }
    push_own(piece, extents)?;
    match inside(piece) {
        Some(inner) => push_within(options, levels, &inner, extents),
        None => Ok(()),
    }
}

/// Where calls are that are items of a text, and modules in files of their own: those that count
/// under these options, in modules at most 64 deep. `None` if the text cannot be read, or is too
/// long.
///
/// # Errors
///
/// Out of memory, where a request for memory is refused.
pub fn extents_of(
    alloc: Global,
    options: &CfgOptions,
    text: &str,
) -> Result<Option<Extents>, AllocError>
    ensures { IfOk result (AreExtentsOf (options_of options.now) text.now) }
{
    bridge::laws::reading_is_a_relation();
    if text.len() > u32::MAX as usize {
        return Ok(None);
    }
    let tree = match read(alloc, text) {
        Ok(Read::Tree(tree)) => tree,
        Err(TtFault::Memory) => return Err(AllocError),
        _ => return Ok(None),
    };
    let mut extents = Extents {
        calls: Vec::new(alloc),
        outlines: Vec::new(alloc),
    };
    push_within(
        options,
        MOST_LISTS,
        &tree.token_trees().iter(),
        &mut extents,
    )?;
    Ok(Some(extents))
}

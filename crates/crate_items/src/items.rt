//! The items of a text, as events.
ghost use Rattle.std.specs.Prelude.{◌≡◌, ◌++◌, ◌∷◌, IfOk, OnOk, flat_map, map};
ghost use Rattle.cfg_options.specs.Options.{options_of};
ghost use Rattle.expander_model.specs.Pieces.{cut};
ghost use Rattle.crate_items.specs.Items.{definition, import, items_of_events, items_within};
ghost use Rattle.crate_items.specs.Items.{inner_items, kept_items, listed, macro_in, other};
ghost use Rattle.crate_items.specs.Items.{other_in, own_items};
ghost use Rattle.crate_items.specs.Items.{piece_items, text_items, with_head};
ghost use Rattle.crate_items.specs.Heads.{module_head};

use crate::attributes::is_inner;
use crate::events::{macro_in, module_at, other_in};
use crate::heads::{braced, is_semicolon, module_head};
use crate::imports::push_imports;
use cfg_options::CfgOptions;
use crate_walk::Event;
use expander_model::split::next_piece;
use std::alloc::{AllocError, Global};
use tt::TtIter;

// How many lists of items inside one another are read: that of the text, and 64 modules.
const MOST_LISTS: u8 = 65;

// Adds the definition that a piece is, if it is one.
fn push_macro(alloc: Global, piece: &TtIter<'_>, events: &mut Vec<Event>) -> Result<(), AllocError>
    ensures { OnOk result (items_of_events events.new
        ≡ items_of_events events.old ++ listed definition (macro_in piece.now)) }
{
    match macro_in(alloc, piece)? {
        Some(item) => Ok(events.push(Event::Macro(item))?),
        None => Ok(()),
    }
}

// Adds the other crate that a piece names, if it names one.
fn push_other(alloc: Global, piece: &TtIter<'_>, events: &mut Vec<Event>) -> Result<(), AllocError>
    ensures { OnOk result (items_of_events events.new
        ≡ items_of_events events.old ++ listed other (other_in piece.now)) }
{
    match other_in(alloc, piece)? {
        Some(item) => Ok(events.push(Event::Crate(item))?),
        None => Ok(()),
    }
}

// Adds the items that a piece is but for modules.
#[tactic(auto, using(crate::proofs::ItemLemmas::three_more))]
fn push_own(alloc: Global, piece: &TtIter<'_>, events: &mut Vec<Event>) -> Result<(), AllocError>
    ensures { OnOk result (items_of_events events.new
        ≡ items_of_events events.old ++ own_items piece.now) }
{
    push_macro(alloc, piece, events)?;
    push_other(alloc, piece, events)?;
    push_imports(alloc, piece, events)
}

// Adds that a piece is the inner attribute `macro_use`, if it is.
fn push_inner(
    options: &CfgOptions,
    piece: &TtIter<'_>,
    events: &mut Vec<Event>,
) -> Result<(), AllocError>
    ensures { OnOk result (items_of_events events.new
        ≡ items_of_events events.old ++ inner_items (options_of options.now) piece.now) }
{
    if is_inner(options, piece, "macro_use")? {
        events.push(Event::MacroUse)?;
    }
    Ok(())
}

// Adds the items of some trees, with those of modules inside one another so many levels deep.
#[cycle(items)]
fn push_within(
    alloc: Global,
    options: &CfgOptions,
    levels: u8,
    trees: &TtIter<'_>,
    events: &mut Vec<Event>,
) -> Result<(), AllocError>
    ensures { OnOk result (items_of_events events.new
        ≡ items_of_events events.old ++ items_within (options_of options.now) levels trees.now) }
{
    if levels == 0 {
        return Ok(());
    }
    let mut rest = trees.copied();
    while let Some(piece) = next_piece(&mut rest) {
        push_piece(alloc, options, levels - 1, &piece, events)?;
    }
    Ok(())
}

// Adds the items of a piece.
#[cycle(items)]
#[tactic(auto, using(crate::proofs::ItemLemmas::three_more))]
fn push_piece(
    alloc: Global,
    options: &CfgOptions,
    levels: u8,
    piece: &TtIter<'_>,
    events: &mut Vec<Event>,
) -> Result<(), AllocError>
    ensures { OnOk result (items_of_events events.new ≡ items_of_events events.old
        ++ piece_items (options_of options.now) (items_within (options_of options.now) levels)
        piece.now) }
{
    if !options.is_kept(piece)? {
        return Ok(());
    }
    push_own(alloc, piece, events)?;
    push_inner(options, piece, events)?;
    push_module(alloc, options, levels, piece, events)
}

// Adds the module that a piece is, if it is one, and the items in it.
#[cycle(items)]
fn push_module(
    alloc: Global,
    options: &CfgOptions,
    levels: u8,
    piece: &TtIter<'_>,
    events: &mut Vec<Event>,
) -> Result<(), AllocError>
    ensures { OnOk result (items_of_events events.new ≡ items_of_events events.old
        ++ with_head (options_of options.now) (items_within (options_of options.now) levels)
        piece.now (module_head piece.now)) }
{
    let Some((name, rest)) = module_head(piece) else {
        return Ok(());
    };
    if is_semicolon(&rest) {
        events.push(Event::Outline(module_at(alloc, options, piece, &name)?))?;
        return Ok(());
    }
    let Some(inner) = braced(&rest) else {
        return Ok(());
    };
    let mut inside = Vec::new(alloc);
    push_within(alloc, options, levels, &inner, &mut inside)?;
    let item = module_at(alloc, options, piece, &name)?;
    events.push(Event::Inline(item, inside.len()))?;
    events.append(&mut inside)
}

/// The items of a text that is read as these trees, under these options.
pub(crate) fn text_events(
    alloc: Global,
    options: &CfgOptions,
    trees: &TtIter<'_>,
) -> Result<Vec<Event>, AllocError>
    ensures { IfOk result (λ events. items_of_events events
        ≡ text_items (options_of options.now) trees.now) }
{
    let mut events = Vec::new(alloc);
    push_within(alloc, options, MOST_LISTS, trees, &mut events)?;
    Ok(events)
}

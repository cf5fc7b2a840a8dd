//! Events for single items.
ghost use Rattle.std.specs.Prelude.{◌≡◌, IfOk, option_map, string_bytes};
ghost use Rattle.cfg_options.specs.Options.{options_of};
ghost use Rattle.crate_items.specs.Items.{macro_at, macro_in, macro_of, module_at, module_of};
ghost use Rattle.crate_items.specs.Items.{other_at, other_in, other_of};

use crate::attributes::{attribute_of, path_of};
use crate::heads::{crate_alias, crate_head};
use cfg_options::CfgOptions;
use crate_walk::{CrateItem, MacroItem, ModuleItem};
use expander_model::definition::{definition_of, has_attribute};
use std::alloc::{AllocError, Global};
use tt::TtIter;
use tt_data::Ident;

/// The text of a name.
pub(crate) fn text(alloc: Global, name: &Ident) -> Result<String, AllocError>
    ensures { IfOk result (λ t. string_bytes t ≡ name.now.sym) }
{
    String::from_str(alloc, name.sym.as_str())
}

/// The module of this name that a piece is.
pub(crate) fn module_at(
    alloc: Global,
    options: &CfgOptions,
    piece: &TtIter<'_>,
    name: &Ident,
) -> Result<ModuleItem, AllocError>
    ensures { IfOk result (λ m. module_of m
        ≡ module_at (options_of options.now) piece.now name.now) }
{
    let macro_use = attribute_of(options, piece, "macro_use")?;
    Ok(ModuleItem {
        name: text(alloc, name)?,
        path: path_of(alloc, options, piece)?,
        keeps_macros: macro_use.is_some(),
        start: name.span.range.start,
        end: name.span.range.end,
    })
}

/// The definition that a piece is.
pub(crate) fn macro_in(alloc: Global, piece: &TtIter<'_>) -> Result<Option<MacroItem>, AllocError>
    ensures { IfOk result (λ m. option_map macro_of m ≡ macro_in piece.now) }
{
    let Some(definition) = definition_of(piece) else {
        return Ok(None);
    };
    Ok(Some(MacroItem {
        name: text(alloc, &definition.name)?,
        is_exported: has_attribute(piece, "macro_export"),
        is_macro: definition.is_macro,
        start: definition.name.span.range.start,
        end: definition.name.span.range.end,
    }))
}

// The text of a name that may be missing.
fn text_if(alloc: Global, name: Option<Ident>) -> Result<Option<String>, AllocError>
    ensures { IfOk result (λ t. option_map string_bytes t
        ≡ option_map (λ (i : Ident). i.sym) name) }
{
    match name {
        Some(name) => Ok(Some(text(alloc, &name)?)),
        None => Ok(None),
    }
}

// The other crate of this name that a piece names.
fn other_at(
    alloc: Global,
    piece: &TtIter<'_>,
    name: &Ident,
    alias: Option<Ident>,
) -> Result<CrateItem, AllocError>
    ensures { IfOk result (λ c. other_of c ≡ other_at piece.now name.now alias) }
{
    Ok(CrateItem {
        name: text(alloc, name)?,
        alias: text_if(alloc, alias)?,
        keeps_macros: has_attribute(piece, "macro_use"),
        start: name.span.range.start,
        end: name.span.range.end,
    })
}

/// The other crate that a piece names.
pub(crate) fn other_in(alloc: Global, piece: &TtIter<'_>) -> Result<Option<CrateItem>, AllocError>
    ensures { IfOk result (λ c. option_map other_of c ≡ other_in piece.now) }
{
    let Some((name, rest)) = crate_head(piece) else {
        return Ok(None);
    };
    match crate_alias(&rest) {
        Some(alias) => Ok(Some(other_at(alloc, piece, &name, alias)?)),
        None => Ok(None),
    }
}

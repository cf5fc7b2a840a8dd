//! The pieces of a list that conditional compilation leaves out.
ghost use Rattle.expander_model.specs.Scoping.{is_items, is_out};
ghost use Rattle.std.specs.Prelude.{◌≡◌, IfOk, Option, option_map};
ghost use Rattle.cfg_options.specs.Options.{options_of};
ghost use Rattle.cfg_options.specs.Strings.{string_text};
ghost use Rattle.expander_model.specs.WholeItems.{definition_under, is_configured_out};

use crate::definition::{Definition, definition_of};
use crate::dialect::Dialect;
use crate::items::is_whole_item;
use crate::scope_rules::Standing;
use cfg_options::CfgOptions;
use std::alloc::AllocError;
use tt::TtIter;

/// The definition that the piece is, if these options keep it. Out of memory is its only error.
pub fn definition_under<'a>(
    options: &CfgOptions,
    piece: &TtIter<'a>,
) -> Result<Option<Definition<'a>>, AllocError>
    ensures { IfOk result (λ d. d
        ≡ definition_under (options_of options.now) string_text piece.now) }
{
    if options.is_kept(piece)? {
        Ok(definition_of(piece))
    } else {
        Ok(None)
    }
}

/// Whether the piece is left out: these options do not keep it, and it is a definition, or in a
/// list of `items` a whole item. Out of memory is its only error.
pub fn is_configured_out(
    options: &CfgOptions,
    items: bool,
    piece: &TtIter<'_>,
) -> Result<bool, AllocError>
    ensures { IfOk result (λ out. out
        ≡ is_configured_out (options_of options.now) string_text items piece.now) }
{
    if options.is_kept(piece)? {
        return Ok(false);
    }
    Ok(definition_of(piece).is_some() || items && is_whole_item(piece))
}

/// Whether a list is one of items.
pub fn is_items(standing: Standing) -> bool
    ensures { result ≡ is_items standing }
{
    match standing {
        Standing::Top | Standing::Items => true,
        _ => false,
    }
}

/// Whether conditional compilation leaves a piece of a list out, where the dialect has options for
/// it: but not in the argument of a call that stays. Out of memory is its only error.
pub fn is_out(dialect: &Dialect, standing: Standing, piece: &TtIter<'_>) -> Result<bool, AllocError>
    ensures { IfOk result (λ out. out ≡ is_out dialect.now.cfg standing piece.now) }
{
    match &dialect.cfg {
        Some(options) if standing != Standing::Argument => {
            is_configured_out(options, is_items(standing), piece)
        }
        _ => Ok(false),
    }
}

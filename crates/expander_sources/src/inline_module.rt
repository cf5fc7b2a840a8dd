//! Finds whether a piece is an inline module, or is public.
ghost use Rattle.std.specs.Prelude.{◌≡◌, unwrap_or};
ghost use Rattle.expander_model.specs.Definitions.{after_pub};
ghost use Rattle.expander_sources.specs.Sources.{ends_module, is_public, module_of};

use expander_model::definition::{after_attributes, after_pub, after_word};
use tt::TtIter;
use tt_data::{Delimiter, DelimiterKind, Ident};

// Whether a group ends a module: it is in braces, and nothing follows it.
fn ends_module(brackets: Delimiter, rest: &TtIter<'_>) -> bool
    ensures { result ≡ ends_module brackets rest.now }
{
    brackets.kind == DelimiterKind::Brace && rest.is_empty()
}

// What follows a visibility, if the trees begin with one, or else all of them.
fn behind_visibility<'a>(trees: &TtIter<'a>) -> TtIter<'a>
    ensures { result ≡ unwrap_or (after_pub trees.now) trees.now }
{
    match after_pub(trees) {
        Some(behind) => behind,
        None => trees.copied(),
    }
}

/// The name of the inline module that a piece is, and the trees in it. (The Rust Reference,
/// "Modules".)
pub(crate) fn module_of<'a>(piece: &TtIter<'a>) -> Option<(Ident, TtIter<'a>)>
    ensures { result ≡ module_of piece.now }
{
    let item = behind_visibility(&after_attributes(piece));
    let behind = after_word(&item, "mod")?;
    let (name, after_name) = behind.first_ident()?;
    let (brackets, inner, rest) = after_name.first_group()?;
    if ends_module(brackets, &rest) {
        Some((name, inner))
    } else {
        None
    }
}

/// Whether a piece begins with `pub` behind its attributes.
pub(crate) fn is_public(piece: &TtIter<'_>) -> bool
    ensures { result ≡ is_public piece.now }
{
    after_word(&after_attributes(piece), "pub").is_some()
}

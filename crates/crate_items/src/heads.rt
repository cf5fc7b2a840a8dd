//! What a piece begins with, behind its attributes and its visibility.
ghost use Rattle.std.specs.Prelude.{◌≡◌, codes, unwrap_or};
ghost use Rattle.expander_model.specs.Definitions.{after_pub, is_semicolon};
ghost use Rattle.crate_items.specs.Heads.{behind_visibility, braced, crate_alias, crate_head};
ghost use Rattle.crate_items.specs.Heads.{module_head};

use expander_model::definition::{after_attributes, after_pub, after_word};
use tt::TtIter;
use tt_data::{DelimiterKind, Ident};

/// Whether the trees are exactly a `;`.
pub(crate) fn is_semicolon(trees: &TtIter<'_>) -> bool
    ensures { result ≡ is_semicolon trees.now }
{
    match trees.first_punct() {
        Some((punct, rest)) => punct.char == ';' && rest.is_empty(),
        None => false,
    }
}

/// What follows the attributes and the visibility of a piece.
pub(crate) fn behind_visibility<'a>(piece: &TtIter<'a>) -> TtIter<'a>
    ensures { result ≡ behind_visibility piece.now }
{
    let rest = after_attributes(piece);
    match after_pub(&rest) {
        Some(behind) => behind,
        None => rest,
    }
}

/// The name behind `mod`, and what follows it.
pub(crate) fn module_head<'a>(piece: &TtIter<'a>) -> Option<(Ident, TtIter<'a>)>
    ensures { result ≡ module_head piece.now }
{
    after_word(&behind_visibility(piece), "mod")?.first_ident()
}

/// What is in braces that are all of the trees.
pub(crate) fn braced<'a>(trees: &TtIter<'a>) -> Option<TtIter<'a>>
    ensures { result ≡ braced trees.now }
{
    let (brackets, inner, rest) = trees.first_group()?;
    if brackets.kind == DelimiterKind::Brace && rest.is_empty() {
        Some(inner)
    } else {
        None
    }
}

/// The name behind `extern crate`, and what follows it.
pub(crate) fn crate_head<'a>(piece: &TtIter<'a>) -> Option<(Ident, TtIter<'a>)>
    ensures { result ≡ crate_head piece.now }
{
    let behind = after_word(&behind_visibility(piece), "extern")?;
    after_word(&behind, "crate")?.first_ident()
}

/// The other name that a crate has here, if what follows its name is a `;`, or that name and a `;`.
pub(crate) fn crate_alias<'a>(rest: &TtIter<'a>) -> Option<Option<Ident>>
    ensures { result ≡ crate_alias rest.now }
{
    if is_semicolon(rest) {
        return Some(None);
    }
    let (alias, end) = after_word(rest, "as")?.first_ident()?;
    if is_semicolon(&end) {
        Some(Some(alias))
    } else {
        None
    }
}

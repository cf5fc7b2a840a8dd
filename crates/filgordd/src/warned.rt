//! Where the pieces of a list are warned of for their conditions.
ghost use Rattle.std.specs.Prelude.{◌≡◌, ◌++◌, [], IfOk, OnOk, false, option_map};
ghost use Rattle.bridge.specs.Text.{is_punct};
ghost use Rattle.tt_data.specs.Lent.{leaf_lent};
ghost use Rattle.cfg_options.specs.Options.{options_of};
ghost use Rattle.expander_model.specs.Pieces.{cut};
ghost use Rattle.filgordd.specs.Warnings.{body_of, braced, conditional, names_after, repeated};
ghost use Rattle.filgordd.specs.Warnings.{warned_at, warned_in, warned_inside, warned_of};
ghost use Rattle.filgordd.specs.Warnings.{with_name};

use cfg_options::CfgOptions;
use expander_model::definition::{definition_of, has_attribute};
use expander_model::split::next_piece;
use indexmap::IndexSet;
use std::alloc::{AllocError, Global};
use tt::TtIter;
use tt_data::{DelimiterKind, Ident, LeafRef, Span, Symbol};

// How many lists inside one another are looked into.
const MOST_LISTS: u8 = 64;

// Whether a leaf is a `!`.
fn is_bang(leaf: LeafRef<'_>) -> bool
    ensures { result ≡ is_punct "!" (leaf_lent leaf.entry) }
{
    match leaf {
        LeafRef::Punct(punct) => punct.char == '!',
        _ => false,
    }
}

// The list in the braces of a piece, unless `!` is right before them.
fn braced<'a>(piece: &TtIter<'a>) -> Option<TtIter<'a>>
    ensures { result ≡ braced false piece.now }
{
    let mut rest = piece.copied();
    let mut bang = false;
    loop {
        if let Some((leaf, after)) = rest.lent_leaf() {
            bang = is_bang(leaf);
            rest = after;
            continue;
        }
        let Some((brackets, inner, after)) = rest.first_group() else {
            return None;
        };
        if brackets.kind == DelimiterKind::Brace && !bang {
            return Some(inner);
        }
        bang = false;
        rest = after;
    }
}

/// The list in which further pieces are: no body of a definition, and no argument of a call.
pub(crate) fn body_of<'a>(piece: &TtIter<'a>) -> Option<TtIter<'a>>
    ensures { result ≡ body_of piece.now }
{
    if definition_of(piece).is_some() {
        return None;
    }
    braced(piece)
}

// The name of a definition under a `cfg`.
fn conditional(piece: &TtIter<'_>) -> Option<Ident>
    ensures { result ≡ conditional piece.now }
{
    let definition = definition_of(piece)?;
    if has_attribute(piece, "cfg") {
        Some(definition.name)
    } else {
        None
    }
}

// Adds where the name of a definition under a `cfg` stands, if it is known; else it is from now on.
fn push_repeated(
    names: &mut IndexSet<Symbol>,
    piece: &TtIter<'_>,
    spans: &mut Vec<Span>,
) -> Result<(), AllocError>
    ensures spans { OnOk result (spans.new.items
        ≡ spans.old.items ++ repeated names.old.keys (conditional piece.now)) }
    ensures names { OnOk result (names.new.keys
        ≡ with_name names.old.keys (conditional piece.now)) }
{
    let Some(name) = conditional(piece) else {
        return Ok(());
    };
    if names.contains(&name.sym) {
        spans.push(name.span)?;
        return Ok(());
    }
    let _is_new = names.insert(name.sym)?;
    Ok(())
}

// Adds where a piece is warned of, behind definitions of these names under a `cfg`.
fn push_here(
    cfg: &Option<CfgOptions>,
    names: &mut IndexSet<Symbol>,
    piece: &TtIter<'_>,
    spans: &mut Vec<Span>,
) -> Result<(), AllocError>
    ensures spans { OnOk result (spans.new.items ≡ spans.old.items
        ++ warned_at (option_map options_of cfg.now) names.old.keys piece.now) }
    ensures names { OnOk result (names.new.keys
        ≡ names_after (option_map options_of cfg.now) names.old.keys piece.now) }
{
    let Some(options) = cfg else {
        return push_repeated(names, piece, spans);
    };
    match options.misread(piece)? {
        Some(span) => Ok(spans.push(span)?),
        None => Ok(()),
    }
}

// Adds those of the pieces of a list, and of so many lists in them.
#[cycle(warned)]
fn push_list(
    alloc: Global,
    cfg: &Option<CfgOptions>,
    levels: u8,
    list: &TtIter<'_>,
    spans: &mut Vec<Span>,
) -> Result<(), AllocError>
    ensures { OnOk result (spans.new.items ≡ spans.old.items
        ++ warned_in (option_map options_of cfg.now)
        (warned_inside (option_map options_of cfg.now) levels) [] (cut list.now)) }
{
    let mut names = IndexSet::new(alloc);
    let mut rest = list.copied();
    while let Some(piece) = next_piece(&mut rest) {
        push_here(cfg, &mut names, &piece, spans)?;
        push_body(alloc, cfg, levels, &piece, spans)?;
    }
    Ok(())
}

// Adds those in a piece.
#[cycle(warned)]
fn push_body(
    alloc: Global,
    cfg: &Option<CfgOptions>,
    levels: u8,
    piece: &TtIter<'_>,
    spans: &mut Vec<Span>,
) -> Result<(), AllocError>
    ensures { OnOk result (spans.new.items ≡ spans.old.items
        ++ warned_inside (option_map options_of cfg.now) levels piece.now) }
{
    if levels == 0 {
        return Ok(());
    }
    match body_of(piece) {
        Some(list) => push_list(alloc, cfg, levels - 1, &list, spans),
        None => Ok(()),
    }
}

/// Where the pieces of a list are warned of, from left to right, in lists up to 64 inside one
/// another: with options at the first attribute before a piece that is not read, and without at the
/// name of a definition under a `cfg` behind another of that name in its list. Out of memory is its
/// only error.
pub(crate) fn warned_of(
    alloc: Global,
    cfg: &Option<CfgOptions>,
    trees: &TtIter<'_>,
) -> Result<Vec<Span>, AllocError>
    ensures { IfOk result (λ spans.
        spans.items ≡ warned_of (option_map options_of cfg.now) trees.now) }
{
    let mut spans = Vec::new(alloc);
    push_list(alloc, cfg, MOST_LISTS, trees, &mut spans)?;
    Ok(spans)
}

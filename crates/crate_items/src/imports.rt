//! The names that a `use` brings. (The Rust Reference, "Use declarations".)
ghost use Rattle.std.specs.Prelude.{◌≡◌, ◌++◌, ◌∷◌, [], Some, IfOk, OnOk, flat_map, map};
ghost use Rattle.std.specs.Prelude.{option_map, string_bytes};
ghost use Rattle.crate_items.specs.Imports.{Import, Use, after_colons, as_list, behind_use};
ghost use Rattle.crate_items.specs.Imports.{tree_end, all_of, first_segment, import_at, import_in};
ghost use Rattle.crate_items.specs.Imports.{imports_of, is_end, last_of, one_of, tree_imports};
ghost use Rattle.crate_items.specs.Imports.{use_alias, with_name};
ghost use Rattle.cfg_options.specs.Conditions.{cut_at_commas};
ghost use Rattle.crate_items.specs.Heads.{braced};
ghost use Rattle.crate_items.specs.Items.{import, items_of_events};
ghost use Rattle.tt_data.specs.Forest.{empty};
ghost use Rattle.crate_items.specs.ImportEvents.{import_of, names_in, use_of};

use crate::events::text;
use crate::heads::{behind_visibility, braced, is_semicolon};
use cfg_options::split_part;
use crate_walk::{Event, ImportItem};
use expander_model::definition::{after_attributes, after_pub, after_word};
use small_grammar::names::has_text;
use std::alloc::{AllocError, Global};
use tt::TtIter;
use tt_data::{Ident, TextRange};

// How many names and braces may follow one another.
const MOST_LEVELS: u8 = 64;

/// A `use`.
#[derive(Clone, Copy)]
pub(crate) struct Use {
    /// Whether its path begins with `::`.
    pub(crate) is_global: bool,
    /// Whether it is seen outside the module.
    pub(crate) is_public: bool,
}

// Whether the trees are at their end: nothing, or a `;`.
fn is_end(trees: &TtIter<'_>) -> bool
    ensures { result ≡ is_end trees.now }
{
    trees.is_empty() || is_semicolon(trees)
}

// What follows `::` at the beginning.
fn after_colons<'a>(trees: &TtIter<'a>) -> Option<TtIter<'a>>
    ensures { result ≡ after_colons trees.now }
{
    let (first, after) = trees.first_punct()?;
    if first.char != ':' {
        return None;
    }
    let (second, behind) = after.first_punct()?;
    if second.char == ':' {
        Some(behind)
    } else {
        None
    }
}

// A name that `::` follows, and what follows that.
fn first_segment<'a>(trees: &TtIter<'a>) -> Option<(Ident, TtIter<'a>)>
    ensures { result ≡ first_segment trees.now }
{
    let (name, rest) = trees.first_ident()?;
    let behind = after_colons(&rest)?;
    Some((name, behind))
}

// The other name that follows.
fn use_alias(rest: &TtIter<'_>) -> Option<Option<Ident>>
    ensures { result ≡ use_alias rest.now }
{
    if is_end(rest) {
        return Some(None);
    }
    let (alias, last) = after_word(rest, "as")?.first_ident()?;
    if is_end(&last) {
        Some(Some(alias))
    } else {
        None
    }
}

// The same names.
fn names_of(alloc: Global, path: &Vec<String>) -> Result<Vec<String>, AllocError>
    ensures { IfOk result (λ all. names_in all ≡ names_in path.now) }
{
    let mut all = Vec::with_capacity(alloc, path.len())?;
    for name in path {
        all.push(String::from_str(alloc, name.as_str())?)?;
    }
    Ok(all)
}

// The path with a name.
fn with_name(alloc: Global, path: &Vec<String>, name: &Ident) -> Result<Vec<String>, AllocError>
    ensures { IfOk result (λ all. names_in all ≡ with_name (names_in path.now) name.now) }
{
    let mut all = names_of(alloc, path)?;
    if has_text(name.lent(), "self") && !path.is_empty() {
        return Ok(all);
    }
    all.push(text(alloc, name)?)?;
    Ok(all)
}

// The last name of a path.
fn last_of(alloc: Global, path: &Vec<String>) -> Result<String, AllocError>
    ensures { IfOk result (λ name. string_bytes name ≡ last_of (names_in path.now)) }
{
    match path.as_slice().last() {
        Some(name) => String::from_str(alloc, name.as_str()),
        None => Ok(String::new(alloc)),
    }
}

// One name of a path, or all of them.
fn import_as(at: Use, path: Vec<String>, name: Option<String>, range: TextRange) -> ImportItem
    ensures { import_of result ≡ record {
      path = names_in path;
      is_global = at.is_global;
      name = option_map string_bytes name;
      is_public = at.is_public;
      range = range;
    } }
{
    ImportItem {
        path,
        is_global: at.is_global,
        name,
        is_public: at.is_public,
        start: range.start,
        end: range.end,
    }
}

// All names of a path, by `*`.
fn all_of(
    alloc: Global,
    at: Use,
    path: &Vec<String>,
    trees: &TtIter<'_>,
) -> Result<Option<ImportItem>, AllocError>
    ensures { IfOk result (λ i. option_map import_of i
        ≡ all_of (use_of at) (names_in path.now) trees.now) }
{
    let Some((star, rest)) = trees.first_punct() else {
        return Ok(None);
    };
    if star.char != '*' || !is_end(&rest) {
        return Ok(None);
    }
    let all = names_of(alloc, path)?;
    Ok(Some(import_as(at, all, None, star.span.range)))
}

// The name at the end of a path, under its own name or under another.
fn import_at(
    alloc: Global,
    at: Use,
    path: Vec<String>,
    name: &Ident,
    alias: Option<Ident>,
) -> Result<Option<ImportItem>, AllocError>
    ensures { IfOk result (λ i. option_map import_of i
        ≡ import_at (use_of at) (names_in path) name.now alias) }
{
    let shown = match alias {
        None => last_of(alloc, &path)?,
        Some(alias) => {
            if alias.sym.as_str() == "_" {
                return Ok(None);
            }
            text(alloc, &alias)?
        }
    };
    Ok(Some(import_as(at, path, Some(shown), name.span.range)))
}

// A name, with another or without.
fn one_of(
    alloc: Global,
    at: Use,
    path: &Vec<String>,
    trees: &TtIter<'_>,
) -> Result<Option<ImportItem>, AllocError>
    ensures { IfOk result (λ i. option_map import_of i
        ≡ one_of (use_of at) (names_in path.now) trees.now) }
{
    let Some((name, rest)) = trees.first_ident() else {
        return Ok(None);
    };
    let Some(alias) = use_alias(&rest) else {
        return Ok(None);
    };
    let all = with_name(alloc, path, &name)?;
    import_at(alloc, at, all, &name, alias)
}

// One name, or all.
fn import_in(
    alloc: Global,
    at: Use,
    path: &Vec<String>,
    trees: &TtIter<'_>,
) -> Result<Option<ImportItem>, AllocError>
    ensures { IfOk result (λ i. option_map import_of i
        ≡ import_in (use_of at) (names_in path.now) trees.now) }
{
    match all_of(alloc, at, path, trees)? {
        Some(item) => Ok(Some(item)),
        None => one_of(alloc, at, path, trees),
    }
}

// Adds the name of a path that ends here, or all its names.
fn push_import(
    alloc: Global,
    at: Use,
    path: &Vec<String>,
    trees: &TtIter<'_>,
    events: &mut Vec<Event>,
) -> Result<(), AllocError>
    ensures { OnOk result (items_of_events events.new ≡ items_of_events events.old
        ++ map import (as_list (use_of at) (import_in (use_of at) (names_in path.now) trees.now))) }
{
    match import_in(alloc, at, path, trees)? {
        Some(item) => Ok(events.push(Event::Import(item))?),
        None => Ok(()),
    }
}

// Adds the names that the trees in braces bring, behind the names of a path.
#[cycle(imports)]
fn push_parts(
    alloc: Global,
    at: Use,
    levels: u8,
    path: &mut Vec<String>,
    inner: &TtIter<'_>,
    events: &mut Vec<Event>,
) -> Result<(), AllocError>
    ensures same { OnOk result (names_in path.new ≡ names_in path.old) }
    ensures added { OnOk result (items_of_events events.new ≡ items_of_events events.old
        ++ map import (flat_map (tree_imports (use_of at) levels (names_in path.old))
        (cut_at_commas inner.now empty))) }
{
    let mut rest = inner.copied();
    while !rest.is_empty() {
        let (part, after) = split_part(&rest);
        push_tree(alloc, at, levels, path, &part, events)?;
        rest = after;
    }
    Ok(())
}

// Adds the names that a tree brings whose path ends here.
#[cycle(imports)]
fn push_end(
    alloc: Global,
    at: Use,
    levels: u8,
    path: &mut Vec<String>,
    tree: &TtIter<'_>,
    events: &mut Vec<Event>,
) -> Result<(), AllocError>
    ensures same { OnOk result (names_in path.new ≡ names_in path.old) }
    ensures added { OnOk result (items_of_events events.new ≡ items_of_events events.old
        ++ map import (tree_end (use_of at) (tree_imports (use_of at) levels) (names_in path.old)
        tree.now (braced tree.now))) }
{
    match braced(tree) {
        Some(inner) => push_parts(alloc, at, levels, path, &inner, events),
        None => push_import(alloc, at, path, tree, events),
    }
}

// Adds the names that a tree brings, behind the names of a path.
#[cycle(imports)]
fn push_tree(
    alloc: Global,
    at: Use,
    levels: u8,
    path: &mut Vec<String>,
    tree: &TtIter<'_>,
    events: &mut Vec<Event>,
) -> Result<(), AllocError>
    ensures same { OnOk result (names_in path.new ≡ names_in path.old) }
    ensures added { OnOk result (items_of_events events.new ≡ items_of_events events.old
        ++ map import (tree_imports (use_of at) levels (names_in path.old) tree.now)) }
{
    if levels == 0 {
        return Ok(());
    }
    let Some((name, rest)) = first_segment(tree) else {
        return push_end(alloc, at, levels - 1, path, tree, events);
    };
    path.push(text(alloc, &name)?)?;
    push_tree(alloc, at, levels - 1, path, &rest, events)?;
    let _ = path.pop();
    Ok(())
}

// Adds the names of what follows a `use`.
fn push_use(
    alloc: Global,
    is_public: bool,
    trees: &TtIter<'_>,
    events: &mut Vec<Event>,
) -> Result<(), AllocError>
    ensures { OnOk result (items_of_events events.new ≡ items_of_events events.old
        ++ map import (behind_use is_public (Some trees.now))) }
{
    let mut path = Vec::new(alloc);
    match after_colons(trees) {
        Some(behind) => {
            let is_global = true;
            let at = Use {
                is_global,
                is_public,
            };
            push_tree(alloc, at, MOST_LEVELS, &mut path, &behind, events)
        }
        None => {
            let is_global = false;
            let at = Use {
                is_global,
                is_public,
            };
            push_tree(alloc, at, MOST_LEVELS, &mut path, trees, events)
        }
    }
}

/// Adds the names that a piece brings.
pub(crate) fn push_imports(
    alloc: Global,
    piece: &TtIter<'_>,
    events: &mut Vec<Event>,
) -> Result<(), AllocError>
    ensures { OnOk result (items_of_events events.new
        ≡ items_of_events events.old ++ map import (imports_of piece.now)) }
{
    let is_public = after_pub(&after_attributes(piece)).is_some();
    match after_word(&behind_visibility(piece), "use") {
        Some(trees) => push_use(alloc, is_public, &trees, events),
        None => Ok(()),
    }
}

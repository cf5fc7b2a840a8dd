//! The definitions that pieces have, those of their inline modules too.
ghost use Rattle.std.specs.Prelude.{◌≡◌, ◌+◌, ◌++◌, ◌∷◌, [], IfOk, IsOkUnless, OnOk, flat_map};
ghost use Rattle.std.specs.Prelude.{is_some, true};
ghost use Rattle.expander_model.specs.Definitions.{definition_of};
ghost use Rattle.bridge.specs.RelativeSpans.{moved_to};
ghost use Rattle.tt_data.specs.Forest.{map_spans};
ghost use Rattle.tt_data.specs.fault.TtFault.TheVariants as fault;
ghost use Rattle.expander_model.specs.Pieces.{cut};
ghost use Rattle.expander_reparse.specs.RelativePieces.{piece_at};
ghost use Rattle.expander_sources.specs.Imports.{IsImport, import_piece};
ghost use Rattle.expander_sources.specs.SourceItems.{AreOrdered, IsSourcePiece};
ghost use Rattle.expander_sources.specs.Sources.{end_behind, inner_items, items_of, most_modules};
ghost use Rattle.expander_sources.specs.Sources.{of_text, own_items};

use crate::import::Import;
use crate::inline_module::module_of;
use bridge::parts::Place;
use expander_model::definition::definition_of;
use expander_model::hashed_tree::HashedTree;
use expander_model::relative_spans::{own_tree, start_of};
use expander_model::split::next_piece;
use expander_reparse::piece::Piece;
use std::alloc::{AllocError, Global};
use std::marker::Model;
use std::rc::Rc;
use tt::{TopSubtree, TtElement, TtIter};
use tt_data::{Symbol, TextRange, TtFault};

// How many modules inside one another are looked into.
const MOST_MODULES: u8 = 64;

/// A definition of a source.
#[derive(Drop)]
pub(crate) struct SourceItem {
    /// The names of the modules around it, outermost first.
    pub(crate) modules: Vec<Symbol>,
    pub(crate) name: Symbol,
    pub(crate) name_range: TextRange,
    /// The bytes of the whole piece.
    pub(crate) range: TextRange,
    pub(crate) import: Import,
}

impl Model for SourceItem {
    ghost use Rattle.expander_sources.specs.Imports.{import_piece};
    ghost use Rattle.expander_sources.specs.SourceItems.{IsSourceItem};
    ghost use Rattle.expander_sources.specs.Sources.{Item, item_code};

    ghost Value = { Item };

    ghost coded = { item_code };

    ghost view = { λ i. record { modules = i.modules.items; piece = import_piece i.import } };

    ghost invariant = { λ i. IsSourceItem i.import i.name i.name_range i.range };
}

// A range counted from an offset, as a range of its text.
fn range_from(from: u32, range: TextRange) -> Result<TextRange, AllocError>
    ensures { IfOk result (λ r. r
        ≡ record { start = from + range.start; «end» = from + range.«end» }) }
{
    match (from.checked_add(range.start), from.checked_add(range.end)) {
        (Some(start), Some(end)) => Ok(TextRange { start, end }),
        _ => Err(AllocError),
    }
}

// The offset at which the last of these trees ends.
fn end_of(trees: &TtIter<'_>) -> u32
    ensures { result ≡ end_behind 0 trees.now }
{
    let mut end = 0;
    let mut rest = trees.copied();
    while let Some(element) = rest.next() {
        end = match element {
            TtElement::Leaf(leaf) => leaf.span().range.end,
            TtElement::Subtree(group, _) => group.delimiter.close_span.range.end,
        };
    }
    end
}

// The definition of a source in these modules that has this piece.
fn new_item(modules: Vec<Symbol>, import: Import) -> Result<SourceItem, AllocError>
    requires { IsImport import }
    ensures { IfOk result (λ i. i ≡ record
        { modules = modules.items; piece = import_piece import }) }
{
    let tree = import.tree.as_ref().tree().iter();
    let Some(definition) = definition_of(&tree) else {
        unreachable!()
    };
    let start = import.place.start;
    let whole = TextRange {
        start: 0,
        end: end_of(&tree),
    };
    let range = range_from(start, whole)?;
    let name_range = range_from(start, definition.name.span.range)?;
    Ok(SourceItem {
        modules,
        name: definition.name.sym,
        name_range,
        range,
        import,
    })
}

// The same names, and then one more.
fn with_module(
    alloc: Global,
    modules: &Vec<Symbol>,
    name: Symbol,
) -> Result<Vec<Symbol>, AllocError>
    ensures { IfOk result (λ all. all.items ≡ modules.now.items ++ name ∷ []) }
{
    let mut all = names_of(alloc, modules)?;
    all.push(name)?;
    Ok(all)
}

// The same names.
fn names_of(alloc: Global, modules: &Vec<Symbol>) -> Result<Vec<Symbol>, AllocError>
    ensures { IfOk result (λ all. all.items ≡ modules.now.items) }
{
    let mut all = Vec::with_capacity(alloc, modules.len())?;
    for name in modules {
        all.push(name.clone()?)?;
    }
    Ok(all)
}

// The place of a piece, which starts at this offset from another place.
fn place_from(base: Place, start: u32) -> Result<Place, AllocError>
    ensures { IfOk result (λ p. p ≡ record { text = base.text; start = base.start + start }) }
{
    match base.start.checked_add(start) {
        Some(start) => Ok(Place {
            text: base.text,
            start,
        }),
        None => Err(AllocError),
    }
}

// The definition of a source that a piece is. Its spans are counted from `base`.
fn nested_item(
    alloc: Global,
    modules: &Vec<Symbol>,
    base: Place,
    piece: &TtIter<'_>,
) -> Result<SourceItem, TtFault>
    requires ordered { AreOrdered base.text piece.now }
    requires definition { is_some (definition_of piece.now) ≡ true }
    ensures item { IfOk result (λ i. i ≡ record {
      modules = modules.now.items;
      piece = map_spans (moved_to base) piece.now;
    }) }
    ensures memory { IsOkUnless result fault.Memory }
{
    let place = place_from(base, start_of(piece))?;
    let tree = HashedTree::new(own_tree(alloc, piece)?);
    let Ok(tree) = Rc::new(alloc, tree) else {
        return Err(TtFault::Memory);
    };
    Ok(new_item(names_of(alloc, modules)?, Import { place, tree })?)
}

// Adds the definition that a piece is, if it is one.
#[tactic(auto, using(crate::proofs::ImportLemmas::own_there, crate::proofs::ImportLemmas::own_absent))]
fn push_definition(
    alloc: Global,
    modules: &Vec<Symbol>,
    base: Place,
    piece: &TtIter<'_>,
    items: &mut Vec<SourceItem>,
) -> Result<(), TtFault>
    requires { AreOrdered base.text piece.now }
    ensures ok { OnOk result (items.new.items ≡ items.old.items
        ++ own_items modules.now.items (map_spans (moved_to base) piece.now)) }
    ensures memory { IsOkUnless result fault.Memory }
{
    if definition_of(piece).is_none() {
        return Ok(());
    }
    let item = nested_item(alloc, modules, base, piece)?;
    let Ok(()) = items.push(item) else {
        return Err(TtFault::Memory);
    };
    Ok(())
}

// Adds the definitions that the pieces of a module have.
#[cycle(items)]
fn push_inner(
    alloc: Global,
    levels: u8,
    modules: &Vec<Symbol>,
    base: Place,
    inner: &TtIter<'_>,
    items: &mut Vec<SourceItem>,
) -> Result<(), TtFault>
    requires { AreOrdered base.text inner.now }
    ensures ok { OnOk result (items.new.items ≡ items.old.items
        ++ flat_map (items_of levels modules.now.items)
        (cut (map_spans (moved_to base) inner.now))) }
    ensures memory { IsOkUnless result fault.Memory }
{
    let mut rest = inner.copied();
    while let Some(piece) = next_piece(&mut rest) {
        push_nested(alloc, levels, modules, base, &piece, items)?;
    }
    Ok(())
}

// Adds the definitions that a piece has. Its spans are counted from `base`.
#[cycle(items)]
fn push_nested(
    alloc: Global,
    levels: u8,
    modules: &Vec<Symbol>,
    base: Place,
    piece: &TtIter<'_>,
    items: &mut Vec<SourceItem>,
) -> Result<(), TtFault>
    requires { AreOrdered base.text piece.now }
    ensures ok { OnOk result (items.new.items ≡ items.old.items
        ++ items_of levels modules.now.items (map_spans (moved_to base) piece.now)) }
    ensures memory { IsOkUnless result fault.Memory }
{
    push_definition(alloc, modules, base, piece, items)?;
    push_module(alloc, levels, modules, base, piece, items)
}

// Adds the definitions of the module that a piece is, if it is one.
#[cycle(items)]
fn push_module(
    alloc: Global,
    levels: u8,
    modules: &Vec<Symbol>,
    base: Place,
    piece: &TtIter<'_>,
    items: &mut Vec<SourceItem>,
) -> Result<(), TtFault>
    requires { AreOrdered base.text piece.now }
    ensures ok { OnOk result (items.new.items ≡ items.old.items
        ++ inner_items levels modules.now.items (map_spans (moved_to base) piece.now)) }
    ensures memory { IsOkUnless result fault.Memory }
{
    if levels == 0 {
        return Ok(());
    }
    let Some((name, inner)) = module_of(piece) else {
        return Ok(());
    };
    let modules = with_module(alloc, modules, name.sym)?;
    push_inner(alloc, levels - 1, &modules, base, &inner, items)
}

// A copy of the trees in which each span is of the text of this number.
fn numbered_tree(alloc: Global, number: u32, tree: &TopSubtree) -> Result<TopSubtree, TtFault>
    ensures tree { IfOk result (λ t. t.inner ≡ map_spans (of_text number) tree.now.inner) }
    ensures memory { IsOkUnless result fault.Memory }
{
    let mut copy = tree.try_clone(alloc)?;
    let answer = move |_anchor: u32|
        ensures { result ≡ number }
    { number };
    copy.change_every_ast_id(alloc, answer)?;
    Ok(copy)
}

/// Adds the definitions that a piece of the text of this number has.
pub(crate) fn push_own(
    alloc: Global,
    number: u32,
    piece: &Piece,
    items: &mut Vec<SourceItem>,
) -> Result<(), TtFault>
    requires { IsSourcePiece piece.now }
    ensures ok { OnOk result (items.new.items ≡ items.old.items
        ++ items_of most_modules [] (map_spans (of_text number) (piece_at piece.now))) }
    ensures memory { IsOkUnless result fault.Memory }
{
    let tree = piece.tree.get().as_ref();
    if !tree.is_definition() && module_of(&tree.tree().iter()).is_none() {
        return Ok(());
    }
    let tree = numbered_tree(alloc, number, tree.tree())?;
    let place = Place {
        text: number,
        start: piece.start,
    };
    let none = Vec::new(alloc);
    push_nested(alloc, MOST_MODULES, &none, place, &tree.iter(), items)
}

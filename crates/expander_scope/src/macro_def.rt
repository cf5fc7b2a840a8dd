//! Definitions with piece-relative spans, their ids, and the rules parsed from them.
ghost use Rattle.std.specs.Prelude.{◌≡◌, IfOk, IsOkUnless, true, is_some};
ghost use Rattle.tt_data.specs.Forest.{map_spans};
ghost use Rattle.tt_data.specs.fault.TtFault.TheVariants.{Memory};
ghost use Rattle.expander_model.specs.Definitions.{definition_of};
ghost use Rattle.expander_model.specs.Held.{anchor_by, anchored};
ghost use Rattle.expander_scope.specs.MacroDefs.{definition_in};

use crate::rules::{rules_in, tree_of};
use expander_model::definition::definition_of;
use expander_model::mbe::DeclarativeMacro;
use std::alloc::Global;
use tt::{TopSubtree, TtIter};
use tt_data::{Edition, Span, Symbol, TextRange, TtFault};

/// A definition with piece-relative spans, its id and its rules.
#[derive(Drop)]
pub struct MacroDef {
    /// Its id: equal definitions share it, and others have another. 0 for one in a list.
    pub number: u32,
    /// The whole piece.
    pub tree: TopSubtree,
    /// The name that it defines.
    pub name: Symbol,
    /// The range of its name in the piece.
    pub place: TextRange,
    /// Its rules. All their spans have its id as their anchor, if it has one.
    pub rules: DeclarativeMacro,
    ghost is_definition: { is_some (definition_of tree.inner) ≡ true },
    ghost named: { name ≡ (definition_in tree.inner).name.sym },
    ghost placed: { place ≡ (definition_in tree.inner).name.span.range },
}

// A copy of the tree in which each span has this id as its anchor. 0 is no id: the spans stay.
fn anchored_tree(alloc: Global, number: u32, tree: &TopSubtree) -> Result<TopSubtree, TtFault>
    ensures tree { IfOk result (λ t. t.inner ≡ map_spans (anchored number) tree.now.inner) }
    ensures memory { IsOkUnless result Memory }
{
    let mut copy = tree.try_clone(alloc)?;
    let answer = move |anchor: u32|
        ensures { result ≡ anchor_by number anchor }
    { if number == 0 { anchor } else { number } };
    copy.change_every_ast_id(alloc, answer)?;
    Ok(copy)
}

impl MacroDef {
    ghost use Rattle.expander_scope.specs.Editions.{IsRead};

    /// The definition that a tree is, with this id, or 0 for none. All its identifiers have this
    /// edition. Out of memory is its only error.
    pub fn new(
        alloc: Global,
        edition: Edition,
        number: u32,
        tree: TopSubtree,
    ) -> Result<Self, TtFault>
        requires { is_some (definition_of tree.inner) ≡ true }
        ensures number { IfOk result (λ k. k.number ≡ number) }
        ensures tree { IfOk result (λ k. k.tree ≡ tree) }
        ensures read { IfOk result (IsRead edition) }
        ensures memory { IsOkUnless result Memory }
    {
        let anchored = anchored_tree(alloc, number, &tree)?;
        let Some(definition) = definition_of(&anchored.iter()) else {
            unreachable!()
        };
        let place = definition.name.span.range;
        let rules = rules_in(alloc, edition, &definition)?;
        let Ok(name) = definition.name.sym.clone() else {
            unreachable!()
        };
        Ok(MacroDef {
            number,
            tree,
            name,
            place,
            rules,
        })
    }

    /// The definition that a piece of a list is: it has no id, and its tokens keep their anchors.
    /// Out of memory is its only error.
    pub fn in_list(
        alloc: Global,
        edition: Edition,
        piece: &TtIter<'_>,
        place: Span,
    ) -> Result<Self, TtFault>
        requires { is_some (definition_of piece.now) ≡ true }
        ensures number { IfOk result (λ k. k.number ≡ 0) }
        ensures tree { IfOk result (λ k. k.tree.inner ≡ piece.now) }
        ensures read { IfOk result (IsRead edition) }
        ensures memory { IsOkUnless result Memory }
    {
        let tree = tree_of(alloc, piece, place)?;
        MacroDef::new(alloc, edition, 0, tree)
    }

    /// How many bytes its name has.
    pub fn size(&self) -> usize {
        self.name.as_str().len()
    }
}

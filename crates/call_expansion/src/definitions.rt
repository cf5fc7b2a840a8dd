//! The scope of a piece: the definitions before it, with the spans of their texts and no ids.
ghost use Rattle.std.specs.Prelude.{◌≡◌, ◌∷◌, [], List, IfOk, IsOkUnless, OnOk};
ghost use Rattle.expander_model.specs.Definitions.{Definition, definition_of};
ghost use Rattle.expander_model.specs.Meaning.{definitions_after, with_definition};
ghost use Rattle.expander_scope.specs.Editions.{IsRead};
ghost use Rattle.expander_scope.specs.Outcomes.{numbered_of_known};
ghost use Rattle.expander_scope.specs.ScopeTable.{AreRead};
ghost use Rattle.pieced_text.specs.expander_sources.Imports.{import_piece};
ghost use Rattle.tt_data.specs.fault.TtFault.TheVariants.{Memory};
ghost use Rattle.call_expansion.specs.InScope.{HasInScope};

use crate::moved::moved_tree;
use bridge::parts::Place;
use expander_model::definition::definition_of;
use expander_model::dialect::Dialect;
use expander_model::left_out::is_out;
use expander_model::scope_rules::Standing;
use expander_scope::macro_def::MacroDef;
use expander_scope::scope::Scope;
use pieced_text::expander_sources::import::Import;
use pieced_text::expander_sources::prelude::{Prelude, imports_of};
use std::alloc::Global;
use std::rc::Rc;
use tt::{TopSubtree, TtIter};
use tt_data::{Edition, TtFault};

// Adds a definition without an id. Its name resolves to it if it is not left out. Out of memory is
// the only error.
fn enter(
    alloc: Global,
    dialect: &Dialect,
    scope: &mut Scope,
    known: MacroDef,
) -> Result<(), TtFault>
    requires number { known.number ≡ 0 }
    requires rules { IsRead scope.old.edition known }
    requires read { AreRead scope.old }
    ensures met { (before : List Definition) → HasInScope dialect.now scope.old before →
        OnOk result (HasInScope dialect.now scope.new
        ((numbered_of_known known).definition ∷ before)) }
    ensures edition { OnOk result (scope.new.edition ≡ scope.old.edition) }
    ensures read { OnOk result (AreRead scope.new) }
    ensures memory { IsOkUnless result Memory }
{
    let place = Place { text: 0, start: 0 };
    if is_out(dialect, Standing::Top, &known.tree.iter())? {
        scope.pass(place, &known)?;
        return Ok(());
    }
    let Ok(known) = Rc::new(alloc, known) else {
        return Err(TtFault::Memory);
    };
    scope.define(place, known)?;
    Ok(())
}

/// Adds the definition that a piece is, if it is one. Out of memory is the only error.
pub fn define(
    alloc: Global,
    dialect: &Dialect,
    scope: &mut Scope,
    piece: &TtIter<'_>,
) -> Result<(), TtFault>
    requires read { AreRead scope.old }
    ensures met { (before : List Definition) → HasInScope dialect.now scope.old before →
        OnOk result (HasInScope dialect.now scope.new
        (with_definition (definition_of piece.now) before)) }
    ensures edition { OnOk result (scope.new.edition ≡ scope.old.edition) }
    ensures read { OnOk result (AreRead scope.new) }
    ensures memory { IsOkUnless result Memory }
{
    let Some(definition) = definition_of(piece) else {
        return Ok(());
    };
    let known = MacroDef::in_list(alloc, scope.edition, piece, definition.name.span)?;
    enter(alloc, dialect, scope, known)?;
    Ok(())
}

// A definition of another text, with its spans there.
fn tree_of_import(alloc: Global, import: &Import) -> Result<TopSubtree, TtFault>
    ensures tree { IfOk result (λ t. t.inner ≡ import_piece import.now) }
    ensures memory { IsOkUnless result Memory }
{
    moved_tree(alloc, import.place, &import.tree.as_ref().tree().iter())
}

/// The scope behind a prelude, all of whose identifiers have this edition. Out of memory is the
/// only error.
pub fn scope_behind(
    alloc: Global,
    edition: Edition,
    dialect: &Dialect,
    prelude: &Prelude,
) -> Result<Scope, TtFault>
    ensures met { IfOk result (λ s.
        HasInScope dialect.now s (definitions_after [] prelude.now)) }
    ensures edition { IfOk result (λ s. s.edition ≡ edition) }
    ensures read { IfOk result AreRead }
    ensures memory { IsOkUnless result Memory }
{
    let mut scope = Scope::with_room(alloc, edition, prelude.len())?;
    for import in imports_of(prelude) {
        let tree = tree_of_import(alloc, import)?;
        define(alloc, dialect, &mut scope, &tree.iter())?;
    }
    Ok(scope)
}

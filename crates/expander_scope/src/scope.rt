//! The definitions before a piece: the nearest of each name, and where it starts.
ghost use Rattle.std.specs.Prelude.{length};
ghost use Rattle.expander_scope.specs.NameTables.{IsWithin};

use crate::macro_def::MacroDef;
use crate::name_table::NameTable;
use crate::offsets::Offsets;
use bridge::parts::Place;
use std::alloc::{AllocError, Global};
use std::rc::Rc;
use tt_data::{Edition, Symbol};

/// The definitions before the present piece.
#[derive(Drop)]
pub struct Scope {
    /// The edition of all identifiers.
    pub edition: Edition,
    names: NameTable,
    known: Vec<Rc<MacroDef>>,
    /// Where the nearest definition of each id starts.
    pub starts: Offsets,
    ghost in_range: { IsWithin names (length known.items) },
}

impl Scope {
    ghost use Rattle.std.specs.Prelude.{◌≡◌, ◌∷◌, [], List, IfOk, IfSome, OnOk, false, true};
    ghost use Rattle.std.specs.Prelude.{option_map};
    ghost use Rattle.expander_scope.specs.Editions.{IsRead};
    ghost use Rattle.expander_model.specs.Held.{Met};
    ghost use Rattle.expander_model.specs.Scoping.{is_out};
    ghost use Rattle.expander_model.specs.declared.dialect.Dialect.{Dialect};
    ghost use Rattle.expander_model.specs.declared.scope_rules.Standing.TheVariants.{Top};
    ghost use Rattle.expander_scope.specs.ScopeTable.{AreRead, HasMet, scope_in};
    ghost use Rattle.expander_scope.specs.Outcomes.{numbered_of_known};

    /// The scope before any definition, with room for `count`.
    pub fn with_room(alloc: Global, edition: Edition, count: usize) -> Result<Self, AllocError>
        ensures none { IfOk result (λ scope. (dialect : Dialect) → HasMet dialect scope []) }
        ensures edition { IfOk result (λ scope. scope.edition ≡ edition) }
        ensures read { IfOk result AreRead }
    {
        let names = NameTable::with_room(alloc, count)?;
        let known = Vec::with_capacity(alloc, count)?;
        let starts = Offsets::with_room(alloc, count)?;
        Ok(Scope {
            edition,
            names,
            known,
            starts,
        })
    }

    /// Adds a definition that starts at `place`. From now on its name resolves to it.
    pub fn define(&mut self, place: Place, known: Rc<MacroDef>) -> Result<(), AllocError>
        requires rules { IsRead self.old.edition known.value }
        requires read { AreRead self.old }
        ensures met { (dialect : Dialect) (before : List Met) →
            is_out dialect.cfg Top (numbered_of_known known.value).definition.piece ≡ false →
            HasMet dialect self.old before → OnOk result (HasMet dialect self.new
            (record { place = place; numbered = numbered_of_known known.value } ∷ before)) }
        ensures edition { OnOk result (self.new.edition ≡ self.old.edition) }
        ensures read { OnOk result (AreRead self.new) }
    {
        let Ok(name) = known.as_ref().name.clone() else {
            unreachable!()
        };
        let number = known.as_ref().number;
        self.starts.insert(number, place)?;
        let index = self.known.len();
        self.known.push(known)?;
        self.names.insert(name, index)
    }

    /// Adds a definition that starts at `place` and is left out: no name resolves to it.
    pub fn pass(&mut self, place: Place, known: &MacroDef) -> Result<(), AllocError>
        requires read { AreRead self.old }
        ensures met { (dialect : Dialect) (before : List Met) →
            is_out dialect.cfg Top (numbered_of_known known.now).definition.piece ≡ true →
            HasMet dialect self.old before → OnOk result (HasMet dialect self.new
            (record { place = place; numbered = numbered_of_known known.now } ∷ before)) }
        ensures edition { OnOk result (self.new.edition ≡ self.old.edition) }
        ensures read { OnOk result (AreRead self.new) }
    {
        self.starts.insert(known.number, place)?;
        Ok(())
    }

    /// The definition that a name resolves to.
    #[tactic(auto, unfolding(crate::specs::ScopeTable::scope_in))]
    pub fn find(&self, name: &Symbol) -> Option<&Rc<MacroDef>>
        requires { AreRead self.now }
        ensures found { option_map (λ k. numbered_of_known k.now.value) result
            ≡ scope_in self.now name.now }
        ensures rules { IfSome result (λ k. IsRead self.now.edition k.now.value) }
    {
        self.known.get(self.names.get(name)?)
    }
}

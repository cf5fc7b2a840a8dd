//! The definitions of the lists around a place.
ghost use Rattle.expander_scope.specs.LocalEntries.{AreNamed, AreOfLists};

use crate::macro_def::MacroDef;
use crate::name_stack::NameStack;
use std::alloc::{AllocError, Global};
use std::rc::Rc;
use tt_data::Symbol;

/// The definitions of the lists around a place: a name finds the nearest.
#[derive(Drop)]
pub(crate) struct Locals {
    names: NameStack<Rc<MacroDef>>,
    ghost named: { AreNamed names },
    ghost of_lists: { AreOfLists names },
}

impl Locals {
    ghost use Rattle.std.specs.Prelude.{◌≡◌, ◌∷◌, ◌++◌, [], List, IfSome, OnOk, length, option_map};
    ghost use Rattle.std.specs.Prelude.{true};
    ghost use Rattle.expander_model.specs.Definitions.{Definition, nearest};
    ghost use Rattle.expander_model.specs.Held.{unnumbered};
    ghost use Rattle.expander_scope.specs.Editions.{IsRead};
    ghost use Rattle.expander_scope.specs.LocalTables.{AreReadIn, locals_of};
    ghost use Rattle.tt_data.specs.declared.edition.Edition.{Edition};
    ghost use Rattle.expander_scope.specs.Outcomes.{numbered_of_known};

    /// No definition.
    pub fn new(alloc: Global) -> Self
        ensures none { locals_of result ≡ [] }
        ensures read { (edition : Edition) → AreReadIn edition result }
    {
        Locals {
            names: NameStack::new(alloc),
        }
    }

    /// Whether there is none.
    pub fn is_empty(&self) -> bool
        ensures { result ≡ true → locals_of self.now ≡ [] }
    {
        self.names.is_empty()
    }

    /// How many there are.
    pub fn len(&self) -> usize
        ensures { result ≡ length (locals_of self.now) }
    {
        self.names.len()
    }

    /// The nearest definition of this name.
    pub fn find(&self, name: &Symbol) -> Option<&Rc<MacroDef>>
        ensures found { option_map (λ k. numbered_of_known k.now.value) result
            ≡ option_map unnumbered (nearest (locals_of self.now) name.now) }
        ensures rules { (edition : Edition) → AreReadIn edition self.now →
            IfSome result (λ k. IsRead edition k.now.value) }
    {
        self.names.find(name)
    }

    /// Adds a definition of a list: it is the nearest from now on.
    pub fn push(&mut self, known: Rc<MacroDef>) -> Result<(), AllocError>
        requires number { known.value.number ≡ 0 }
        ensures locals { OnOk result (locals_of self.new
            ≡ (numbered_of_known known.value).definition ∷ locals_of self.old) }
        ensures read { OnOk result ((edition : Edition) → IsRead edition known.value →
            AreReadIn edition self.old → AreReadIn edition self.new) }
    {
        let Ok(name) = known.as_ref().name.clone() else {
            unreachable!()
        };
        self.names.push(name, known)
    }

    /// Removes the nearest ones until there are at most so many.
    pub fn cut_back(&mut self, len: usize)
        ensures locals { (front back : List Definition) → locals_of self.old ≡ front ++ back →
            length back ≡ len → locals_of self.new ≡ back }
        ensures read { (edition : Edition) → AreReadIn edition self.old →
            AreReadIn edition self.new }
    {
        self.names.cut_back(len);
    }
}

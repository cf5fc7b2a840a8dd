//! Finds definitions by their trees, so that equal definitions share one id and one set of rules.
ghost use Rattle.std.specs.Prelude.{◌≡◌, IfOk, OnOk, None, Some, if◌then◌else◌, option_map};
ghost use Rattle.tt.specs.Tops.{Top};
ghost use Rattle.expander_scope.specs.Interning.{known_in};
ghost use Rattle.expander_model.specs.EqualTrees.{same_top};

use crate::macro_def::MacroDef;
use expander_model::hashed_tree::HashedTree;
use std::alloc::{AllocError, Global};
use std::collections::HashMap;
use std::rc::Rc;

/// Definitions, each found by its tree.
#[derive(Drop)]
pub struct Interner {
    map: HashMap<Rc<HashedTree>, Rc<MacroDef>>,
}

impl Interner {
    /// The table without definitions.
    #[tactic(auto, unfolding(crate::specs::Interning::known_in))]
    pub fn new(alloc: Global) -> Self
        ensures { (t : Top) → known_in result t ≡ None }
    {
        Interner {
            map: HashMap::new(alloc),
        }
    }

    /// The table without definitions, with room for `count`.
    #[tactic(auto, unfolding(crate::specs::Interning::known_in))]
    pub fn with_room(alloc: Global, count: usize) -> Result<Self, AllocError>
        ensures { IfOk result (λ table. (t : Top) → known_in table t ≡ None) }
    {
        let map = HashMap::with_capacity(alloc, count)?;
        Ok(Interner { map })
    }

    /// The definition of a tree, if it has one.
    #[tactic(auto, unfolding(crate::specs::Interning::known_in))]
    pub fn get(&self, tree: &Rc<HashedTree>) -> Option<&Rc<MacroDef>>
        ensures { option_map (λ k. k.now.value) result ≡ known_in self.now tree.now.value }
    {
        self.map.get(tree)
    }

    /// Gives the tree this definition, in place of any that it had.
    #[tactic(auto, unfolding(crate::specs::Interning::known_in))]
    pub fn insert(&mut self, tree: Rc<HashedTree>, known: Rc<MacroDef>) -> Result<(), AllocError>
        ensures { OnOk result ((t : Top) → known_in self.new t
            ≡ (if same_top tree.value t then Some known.value else known_in self.old t)) }
    {
        let _ = self.map.insert(tree, known)?;
        Ok(())
    }
}

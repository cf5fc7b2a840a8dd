//! Indexes by name: each name has the latest one.
ghost use Rattle.std.specs.Prelude.{◌≡◌, ℕ, List, IfOk, OnOk, OnErr, if◌then◌else◌};
ghost use Rattle.expander_scope.specs.NameTables.{index_of};
ghost use Rattle.small_grammar.specs.Text.{same_text};

use std::alloc::{AllocError, Global};
use std::collections::HashMap;
use tt_data::Symbol;

/// The index that each name resolves to: the latest one inserted.
#[derive(Drop)]
pub(crate) struct NameTable {
    map: HashMap<Symbol, usize>,
}

impl NameTable {
    /// No name resolves. There is room for `count` names.
    #[tactic(auto, unfolding(crate::specs::NameTables::index_of))]
    pub fn with_room(alloc: Global, count: usize) -> Result<Self, AllocError>
        ensures { IfOk result (λ names. (name : List ℕ) → index_of names name ≡ None) }
    {
        let map = HashMap::with_capacity(alloc, count)?;
        Ok(NameTable { map })
    }

    /// The name resolves to this index from now on.
    #[tactic(auto, unfolding(crate::specs::NameTables::index_of))]
    pub fn insert(&mut self, name: Symbol, index: usize) -> Result<(), AllocError>
        ensures ok { OnOk result ((other : List ℕ) → index_of self.new other
            ≡ (if same_text name other then Some index else index_of self.old other)) }
        ensures err { OnErr result ((other : List ℕ) → index_of self.new other
            ≡ index_of self.old other) }
    {
        let _ = self.map.insert(name, index)?;
        Ok(())
    }

    /// The index that the name resolves to.
    #[tactic(auto, unfolding(crate::specs::NameTables::index_of))]
    pub fn get(&self, name: &Symbol) -> Option<usize>
        ensures { result ≡ index_of self.now name.now }
    {
        self.map.get(name).copied()
    }
}

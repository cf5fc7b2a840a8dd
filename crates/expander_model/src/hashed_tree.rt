//! Trees with piece-relative spans, each with its hash, which the cache looks trees up by.
ghost use Rattle.std.specs.Prelude.{◌≡◌, is_some};
ghost use Rattle.expander_model.specs.Definitions.{definition_of};
ghost use Rattle.expander_model.specs.HashedTrees.{tree_hash};

use crate::definition::definition_of;
use std::hash::{FoldHasher, Hash, Hasher};
use std::marker::Model;
use tt::TopSubtree;

/// A piece's tree with its hash, and whether it is a definition; both are computed once.
#[derive(Drop)]
pub struct HashedTree {
    tree: TopSubtree,
    hash: u64,
    is_definition: bool,
}

impl Model for HashedTree {
    ghost use Rattle.std.specs.Prelude.{◌≡◌, is_some};
    ghost use Rattle.expander_model.specs.Definitions.{definition_of};
    ghost use Rattle.tt.specs.Tops.{Top, top_code};
    ghost use Rattle.expander_model.specs.HashedTrees.{tree_hash};

    ghost Value = { Top };

    ghost coded = { top_code };

    ghost view = { λ t. t.tree };

    ghost invariant = { λ t. (t.hash ≡ tree_hash t.tree)
        × (t.is_definition ≡ is_some (definition_of t.tree.inner)) };
}

// The hash of a tree, by the fast hasher of the standard library.
#[tactic(auto, unfolding(crate::specs::HashedTrees::hash_of))]
fn hash_of(tree: &TopSubtree) -> u64
    ensures { result ≡ tree_hash tree.now }
{
    let mut state = FoldHasher::default();
    tree.hash(&mut state);
    state.finish()
}

impl HashedTree {
    /// The tree with its hash, and whether it is a definition.
    pub fn new(tree: TopSubtree) -> Self
        ensures { result ≡ tree }
    {
        let hash = hash_of(&tree);
        let is_definition = definition_of(&tree.iter()).is_some();
        HashedTree {
            tree,
            hash,
            is_definition,
        }
    }

    /// The tree.
    pub fn tree(&self) -> &TopSubtree
        ensures { result.now ≡ self.now }
    {
        &self.tree
    }

    /// The hash of the tree.
    pub fn kept_hash(&self) -> u64
        ensures { result ≡ tree_hash self.now }
    {
        self.hash
    }

    /// Whether it is a definition.
    pub fn is_definition(&self) -> bool
        ensures { result ≡ is_some (definition_of self.now.inner) }
    {
        self.is_definition
    }
}

// Two are equal if their trees are. Equal trees have equal hashes, so these are compared first.
impl PartialEq for HashedTree {
    ghost use Rattle.tt.specs.contracts.top_subtree.TopSubtreePartialEq.TheImpl.Laws as tree_laws;

    ghost eq = { ⟦<TopSubtree as PartialEq>⟧.eq };

    ghost laws = { tree_laws.laws-law };

    fn eq(&self, other: &HashedTree) -> bool {
        self.hash == other.hash && self.tree == other.tree
    }
}

impl Eq for HashedTree {
    ghost use Rattle.tt.specs.contracts.top_subtree.TopSubtreeEq.TheImpl.Laws as tree_laws;

    ghost laws = { tree_laws.laws-law };
}

impl Hash for HashedTree {
    ghost use Rattle.std.specs.Hash as fed;
    ghost use Rattle.std.proofs.Common.{ap};
    ghost use Rattle.tt.specs.contracts.top_subtree.TopSubtreeHash.TheImpl.Laws as tree_laws;
    ghost use Rattle.expander_model.specs.HashedTrees.{hash_of};

    ghost hash_input = { λ t. fed.u64 (tree_hash t) };

    ghost respects_eq = { λ a b e. ap (λ writes.
        fed.u64 (hash_of writes)) (tree_laws.respects_eq-law a b e) };

    /// Feeds the hash that was computed once.
    fn hash<H: Hasher>(&self, state: &mut H) {
        state.write_u64(self.hash);
    }
}

//! An index of memos by their trees and by what their look-ups found. It decides speed alone: a
//! search of the whole list answers the same.
ghost use Rattle.std.specs.Prelude.{◌≡◌, ◌+◌, ◌<◌, ◌^◌, ℕ, false, IfOk, IfSome, IsSome, List, None};
ghost use Rattle.std.specs.Prelude.{OnOk, Some, is_some, length, option_map, slice_get, true};
ghost use Rattle.std.specs.Global.{Global as GhostGlobal};
ghost use Rattle.std.specs.Rc.{rc_value};
ghost use Rattle.expander_scope.specs.Outcomes.{find_of};
ghost use Rattle.expander_scope.specs.ScopeTable.{AreRead, scope_in};
ghost use Rattle.expander_session.specs.LookupTrees.{AddsMemo, Extends, IsIndexOf, KeepsFirsts};
ghost use Rattle.expander_session.specs.LookupTrees.{branch_of, first_of, id_of, lookups_at, turn};
ghost use Rattle.expander_session.specs.Memos.{AreHashes, IsValidAt, has_match, tree_of};
ghost use Rattle.tt.specs.Tops.{Top};

use crate::memo::{Memo, first_match, is_match};
use expander_model::hashed_tree::HashedTree;
use expander_scope::outcome::NameLookup;
use expander_scope::scope::Scope;
use std::alloc::{AllocError, Global};
use std::collections::HashMap;
use std::rc::Rc;
use tt::laws;
use tt_data::Symbol;

// What a look-up found, as a number: one more than the id of a definition, and 0 for none.
fn known_id(lookup: &NameLookup) -> u64
    ensures { result ≡ id_of (find_of lookup.now).1 }
{
    match &lookup.known {
        Some(known) => u64::from(known.as_ref().number) + 1,
        None => 0,
    }
}

// What a name finds in a scope, as a number.
fn found_id(scope: &Scope, name: &Symbol) -> u64
    requires { AreRead scope.now }
    ensures { result ≡ id_of (scope_in scope.now name.now) }
{
    match scope.find(name) {
        Some(known) => u64::from(known.as_ref().number) + 1,
        None => 0,
    }
}

// A look-up of a memo, by its index, if the memo has so many.
fn lookup_at(memos: &[Rc<Memo>], at: usize, place: usize) -> Option<&NameLookup>
    ensures is { option_map (λ f. find_of f.now) result
        ≡ slice_get (lookups_at memos.now at) place }
    ensures fits { IsSome result → place + 1 < 2 ^ 64 }
{
    memos.get(at)?.as_ref().finds.get(place)
}

/// An index of a list of memos. A search for a tree begins at the first memo with this tree. Where
/// a look-up of that memo finds something else now, a branch leads to the first memo that has the
/// same look-ups before it, and for which it found this.
#[derive(Drop)]
pub(crate) struct LookupTree {
    // The first memo of each tree.
    first: HashMap<Rc<HashedTree>, usize>,
    // By a memo, the index of one of its look-ups, and what that finds: where a search goes on.
    branches: HashMap<(usize, usize, u64), usize>,
    // Whether a search that finds what a memo's look-ups found always ends at a memo. So it is
    // where what was looked up decides what is looked up next, as in every expansion.
    is_whole: bool,
}

impl LookupTree {
    /// The index of no memo, with room for so many trees.
    pub fn with_room(alloc: Global, count: usize) -> Result<Self, AllocError>
        ensures { IfOk result (λ index.
            (memos : List (Rc Memo GhostGlobal)) → IsIndexOf index memos 0) }
    {
        let first = HashMap::with_capacity(alloc, count)?;
        Ok(LookupTree {
            first,
            branches: HashMap::new(alloc),
            is_whole: true,
        })
    }

    // The first memo of a tree.
    #[tactic(auto, unfolding(crate::specs::LookupTrees::first_of))]
    fn first_of(&self, tree: &Rc<HashedTree>) -> Option<usize>
        ensures { result ≡ first_of self.now tree.now.value }
    {
        self.first.get(tree).copied()
    }

    // The memo at which a search goes on behind a look-up of the memo `at` that found `own`, and
    // finds `known` now.
    #[tactic(auto, unfolding(crate::specs::LookupTrees::branch_of))]
    fn turn(&self, at: usize, place: usize, own: u64, known: u64) -> Option<usize>
        ensures { result ≡ turn (branch_of self.now) at place own known }
    {
        if own == known {
            return Some(at);
        }
        self.branches.get(&(at, place, known)).copied()
    }

    // Adds the first memo of a tree.
    #[tactic(auto, unfolding(crate::specs::LookupTrees::first_of, crate::specs::LookupTrees::branch_of))]
    fn start(&mut self, tree: Rc<HashedTree>, index: usize) -> Result<(), AllocError>
        requires none { first_of self.old tree.value ≡ None }
        ensures first { OnOk result (KeepsFirsts self.old self.new) }
        ensures here { OnOk result (first_of self.new tree.value ≡ Some index) }
        ensures more { OnOk result (Extends (branch_of self.old) (branch_of self.new)) }
        ensures whole { OnOk result (self.new.is_whole ≡ self.old.is_whole) }
    {
        laws::equal_trees();
        self.first.insert(tree, index)?;
        Ok(())
    }

    // Adds a branch to a memo, where no other is reached.
    #[tactic(auto, unfolding(crate::specs::LookupTrees::first_of, crate::specs::LookupTrees::branch_of))]
    fn branch(
        &mut self,
        at: usize,
        place: usize,
        known: u64,
        index: usize,
    ) -> Result<(), AllocError>
        requires none { branch_of self.old at place known ≡ None }
        ensures first { OnOk result ((t : Top) → first_of self.new t ≡ first_of self.old t) }
        ensures more { OnOk result (Extends (branch_of self.old) (branch_of self.new)) }
        ensures here { OnOk result (branch_of self.new at place known ≡ Some index) }
        ensures whole { OnOk result (self.new.is_whole ≡ self.old.is_whole) }
    {
        self.branches.insert((at, place, known), index)?;
        Ok(())
    }

    // Adds a memo of whose tree the first memo is `first`.
    fn push_from(
        &mut self,
        memos: &[Rc<Memo>],
        first: usize,
        index: usize,
    ) -> Result<(), AllocError>
        requires within { index < length memos.now }
        requires first { (q : Rc Memo GhostGlobal) → slice_get memos.now index ≡ Some q →
            first_of self.old (tree_of (rc_value q)) ≡ Some first }
        ensures { OnOk result (AddsMemo self.old self.new memos.now index) }
    {
        let memo = memos[index].as_ref();
        let mut at = first;
        for place in 0..memo.finds.len() {
            let lookup = &memo.finds[place];
            let Some(own) = lookup_at(memos, at, place) else {
                return Ok(());
            };
            if own.name != lookup.name {
                self.is_whole = false;
                return Ok(());
            }
            let known = known_id(lookup);
            match self.turn(at, place, known_id(own), known) {
                Some(next) => at = next,
                None => return self.branch(at, place, known, index),
            }
        }
        if lookup_at(memos, at, memo.finds.len()).is_some() {
            self.is_whole = false;
        }
        Ok(())
    }

    /// Adds the memo at this index.
    pub fn push(&mut self, memos: &[Rc<Memo>], index: usize) -> Result<(), AllocError>
        requires within { index < length memos.now }
        ensures { OnOk result (AddsMemo self.old self.new memos.now index) }
    {
        let tree = &memos[index].as_ref().tree;
        match self.first_of(tree) {
            Some(first) => self.push_from(memos, first, index),
            None => self.start(tree.clone()?, index),
        }
    }

    // The memo at which a search ends by what the look-ups find in this scope.
    fn reached(&self, scope: &Scope, memos: &[Rc<Memo>], tree: &Rc<HashedTree>) -> Option<usize>
        requires { AreRead scope.now }
        ensures { result ≡ None → IsIndexOf self.now memos.now (length memos.now) →
            self.now.is_whole ≡ true →
            has_match (scope_in scope.now) tree.now.value memos.now ≡ false }
    {
        laws::equal_trees();
        let Some(first) = self.first_of(tree) else {
            return None;
        };
        let mut at = first;
        let mut place = 0;
        while let Some(lookup) = lookup_at(memos, at, place) {
            let known = found_id(scope, &lookup.name);
            let Some(next) = self.turn(at, place, known_id(lookup), known) else {
                return None;
            };
            at = next;
            place += 1;
        }
        Some(at)
    }

    /// The index of a memo that is valid for a tree, if there is one. `hashes` are those of the
    /// memos' trees.
    pub fn find(
        &self,
        scope: &Scope,
        memos: &[Rc<Memo>],
        hashes: &[u64],
        tree: &Rc<HashedTree>,
    ) -> Option<usize>
        requires read { AreRead scope.now }
        requires hashes { AreHashes hashes.now memos.now }
        requires index { IsIndexOf self.now memos.now (length memos.now) }
        ensures any { is_some result ≡ has_match (scope_in scope.now) tree.now.value memos.now }
        ensures found { IfSome result (IsValidAt (scope_in scope.now) tree.now.value memos.now) }
        ensures within { IfSome result (λ i. i < length memos.now) }
    {
        match self.reached(scope, memos, tree) {
            Some(at) => {
                if at < memos.len() && is_match(scope, tree, memos[at].as_ref()) {
                    return Some(at);
                }
            }
            None => {
                if self.is_whole {
                    return None;
                }
            }
        }
        first_match(scope, memos, hashes, tree)
    }
}

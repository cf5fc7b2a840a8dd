//! The search for a memo that is valid for a tree.
ghost use Rattle.std.specs.Prelude.{◌≡◌, ◌+◌, ◌<◌, IfOk, IfSome, List, OnOk, Some, is_some, length};
ghost use Rattle.std.specs.Prelude.{map, slice_get, true};
ghost use Rattle.std.specs.Global.{Global as GhostGlobal};
ghost use Rattle.expander_session.specs.LookupTrees.{IndexesMemos, IsIndexOf};
ghost use Rattle.expander_scope.specs.ScopeTable.{AreRead, scope_in};
ghost use Rattle.expander_session.specs.MemoRefs.{plain_tops};
ghost use Rattle.expander_session.specs.Memos.{AreHashes, IsMatchAt, IsValidAt, has_match};
ghost use Rattle.tt.specs.Tops.{Top};

use crate::lookup_tree::LookupTree;
use crate::memo::{Memo, first_match, is_match, is_valid};
use crate::recent_memos::RecentMemos;
use expander_model::hashed_tree::HashedTree;
use expander_scope::scope::Scope;
use std::alloc::{AllocError, Global};
use std::rc::Rc;
use tt::laws;

// The index of the linked memo, if it is valid for its own tree.
fn linked_memo(scope: &Scope, held: &[Rc<Memo>], link: Option<usize>) -> Option<usize>
    requires read { AreRead scope.now }
    requires within { IfSome link (λ i. i < length held.now) }
    ensures { (t : Top) → IfSome link (λ i. slice_get (plain_tops held.now) i ≡ Some t) →
        IfSome result (λ i. IsMatchAt (scope_in scope.now) t held.now i) }
{
    laws::equal_trees();
    let Some(i) = link else {
        return None;
    };
    if is_valid(scope, held[i].as_ref()) {
        Some(i)
    } else {
        None
    }
}

// The index of all memos.
fn index_of(alloc: Global, held: &[Rc<Memo>]) -> Result<LookupTree, AllocError>
    ensures { IfOk result (λ index. IsIndexOf index held.now (length held.now)) }
{
    let mut index = LookupTree::with_room(alloc, held.len())?;
    for i in 0..held.len() {
        index.push(held, i)?;
    }
    Ok(index)
}

/// The search for valid memos: in the cache through the whole list the first times, and then by an
/// index.
#[derive(Drop)]
pub(crate) struct MemoIndex {
    alloc: Global,
    /// The index after the memo that was found last.
    pub next: usize,
    // How many searches went through the whole list.
    times: usize,
    // The index of the cached memos, once a search has needed it.
    index: Option<LookupTree>,
    /// Where this text's own memos are looked for.
    pub recent: RecentMemos,
}

// How many searches go through the whole list before the index is made.
const TIMES: usize = 4;

impl MemoIndex {
    /// Before the first search.
    pub fn new(alloc: Global) -> Self
        ensures { (held : List (Rc Memo GhostGlobal)) → IndexesMemos result held }
    {
        MemoIndex {
            alloc,
            next: 0,
            times: 0,
            index: None,
            recent: RecentMemos::new(alloc),
        }
    }

    // Where a memo stands that is valid for a tree, by the index. The first call makes the index.
    fn find_in_index(
        &mut self,
        scope: &Scope,
        held: &[Rc<Memo>],
        hashes: &[u64],
        tree: &Rc<HashedTree>,
    ) -> Result<Option<usize>, AllocError>
        requires read { AreRead scope.now }
        requires hashes { AreHashes hashes.now held.now }
        requires table { IndexesMemos self.old held.now }
        ensures table { OnOk result (IndexesMemos self.new held.now) }
        ensures any { IfOk result (λ at. is_some at
            ≡ has_match (scope_in scope.now) tree.now.value held.now) }
        ensures found { IfOk result (λ at. IfSome at
            (IsValidAt (scope_in scope.now) tree.now.value held.now)) }
        ensures within { IfOk result (λ at. IfSome at (λ i. i < length held.now)) }
    {
        if let Some(index) = &self.index {
            return Ok(index.find(scope, held, hashes, tree));
        }
        let index = index_of(self.alloc, held)?;
        let found = index.find(scope, held, hashes, tree);
        self.index = Some(index);
        Ok(found)
    }

    // The index of a memo that is valid for a tree, if there is one.
    fn find(
        &mut self,
        scope: &Scope,
        held: &[Rc<Memo>],
        hashes: &[u64],
        tree: &Rc<HashedTree>,
    ) -> Result<Option<usize>, AllocError>
        requires read { AreRead scope.now }
        requires hashes { AreHashes hashes.now held.now }
        requires table { IndexesMemos self.old held.now }
        ensures table { OnOk result (IndexesMemos self.new held.now) }
        ensures any { IfOk result (λ at. is_some at
            ≡ has_match (scope_in scope.now) tree.now.value held.now) }
        ensures found { IfOk result (λ at. IfSome at
            (IsValidAt (scope_in scope.now) tree.now.value held.now)) }
        ensures within { IfOk result (λ at. IfSome at (λ i. i < length held.now)) }
    {
        if self.times < TIMES {
            self.times += 1;
            return Ok(first_match(scope, held, hashes, tree));
        }
        self.find_in_index(scope, held, hashes, tree)
    }

    /// Keeps where the next memo of this text stands, unless it is from the cache, where its index
    /// is `at` then. Its tree has this hash.
    pub fn keep(&mut self, at: Option<usize>, hash: u64, index: usize) -> Result<(), AllocError>
        ensures { (held : List (Rc Memo GhostGlobal)) → IndexesMemos self.old held →
            OnOk result (IndexesMemos self.new held) }
    {
        match at {
            Some(_) => Ok(()),
            None => self.recent.keep(hash, index),
        }
    }
}

/// The index of a memo that is valid for a tree, if there is one. The linked memo is tried first,
/// then the one after the memo that was found last, and then all. Out of memory is its only error.
pub(crate) fn find_valid(
    scope: &Scope,
    held: &[Rc<Memo>],
    hashes: &[u64],
    lookup: &mut MemoIndex,
    link: Option<usize>,
    tree: &Rc<HashedTree>,
) -> Result<Option<usize>, AllocError>
    requires read { AreRead scope.now }
    requires hashes { AreHashes hashes.now held.now }
    requires table { IndexesMemos lookup.old held.now }
    requires link { IfSome link (λ i. slice_get (plain_tops held.now) i ≡ Some tree.now.value) }
    ensures table { OnOk result (IndexesMemos lookup.new held.now) }
    ensures any { IfOk result (λ found. is_some found
        ≡ has_match (scope_in scope.now) tree.now.value held.now) }
    ensures found { IfOk result (λ found. IfSome found
        (IsValidAt (scope_in scope.now) tree.now.value held.now)) }
    ensures within { IfOk result (λ found. IfSome found (λ i. i < length held.now)) }
{
    if let Some(i) = linked_memo(scope, held, link) {
        return Ok(Some(i));
    }
    let at = lookup.next;
    if at < held.len() && is_match(scope, tree, held[at].as_ref()) {
        return Ok(Some(at));
    }
    lookup.find(scope, held, hashes, tree)
}

/// The index of a memo of this text that is valid for a tree, if it is found. `made` are the text's
/// memos so far, with the hashes of their trees.
pub(crate) fn find_in_text(
    scope: &Scope,
    made: &[Rc<Memo>],
    hashes: &[u64],
    recent: &RecentMemos,
    tree: &Rc<HashedTree>,
) -> Option<usize>
    requires read { AreRead scope.now }
    ensures found { IfSome result (IsValidAt (scope_in scope.now) tree.now.value made.now) }
    ensures within { IfSome result (λ i. i < length made.now) }
{
    let hash = tree.as_ref().kept_hash();
    let i = recent.get(hash)?;
    if i >= made.len() || i >= hashes.len() || hashes[i] != hash {
        return None;
    }
    if is_match(scope, tree, made[i].as_ref()) {
        Some(i)
    } else {
        None
    }
}

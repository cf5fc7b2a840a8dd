//! Memos: the cached expansions of plain pieces, and when one is valid for a tree.
ghost use Rattle.std.specs.Prelude.{◌≡◌, ◌<◌, IfSome, is_some, length};
ghost use Rattle.std.specs.List.{list_all};
ghost use Rattle.expander_scope.specs.ScopeTable.{AreRead, scope_in};
ghost use Rattle.expander_scope.specs.Outcomes.{find_of};
ghost use Rattle.expander_session.specs.Memos.{AreHashes, IsValidAt, finds_of, has_match, is_match};
ghost use Rattle.expander_session.specs.Reuse.{agrees, same_number};

use crate::cached_output::CachedOutput;
use expander_model::fault::FaultKind;
use expander_model::hashed_tree::HashedTree;
use expander_scope::outcome::NameLookup;
use expander_scope::scope::Scope;
use std::rc::Rc;
use tt::laws;
use tt_data::Span;

/// A plain piece with its cached expansion, all with piece-relative spans.
#[derive(Drop)]
pub(crate) struct Memo {
    pub tree: Rc<HashedTree>,
    /// What its expansion prints.
    pub output: CachedOutput,
    /// Each fault, with the span of the name at which it is reported.
    pub faults: Vec<(FaultKind, Span)>,
    /// The look-ups of its expansion, in order.
    pub finds: Vec<NameLookup>,
}

impl Memo {
    /// How many tokens its cached text has, and how many bytes the names of its first look-up.
    /// Asking brings it into the processor's cache.
    pub(crate) fn size(&self) -> usize {
        let name = match self.finds.first() {
            Some(find) => find.size(),
            None => 0,
        };
        match &self.output {
            CachedOutput::Part(part) => name.saturating_add(part.printed.spans().len()),
            CachedOutput::Steps(_) => name,
        }
    }
}

// Whether a look-up finds an equal definition in this scope, or still none.
fn finds_the_same(scope: &Scope, find: &NameLookup) -> bool
    requires { AreRead scope.now }
    ensures { result ≡ same_number (scope_in scope.now (find_of find.now).0) (find_of find.now).1 }
{
    match (scope.find(&find.name), &find.known) {
        (None, None) => true,
        (Some(found), Some(known)) => found.as_ref().number == known.as_ref().number,
        _ => false,
    }
}

// Whether each look-up finds an equal definition in this scope, or still none.
fn agrees(scope: &Scope, finds: &[NameLookup]) -> bool
    requires { AreRead scope.now }
    ensures { result
        ≡ list_all (λ f. same_number (scope_in scope.now (find_of f).0) (find_of f).1) finds.now }
{
    for find in finds {
        if !finds_the_same(scope, find) {
            return false;
        }
    }
    true
}

/// Whether a memo is valid for a tree: the trees are equal, and its look-ups find the same.
pub(crate) fn is_match(scope: &Scope, tree: &Rc<HashedTree>, held: &Memo) -> bool
    requires { AreRead scope.now }
    ensures { result ≡ is_match (scope_in scope.now) tree.now.value held.now }
{
    *tree == held.tree && agrees(scope, held.finds.as_slice())
}

/// Whether a memo is valid for its own tree: its look-ups find the same in this scope.
pub(crate) fn is_valid(scope: &Scope, held: &Memo) -> bool
    requires { AreRead scope.now }
    ensures { result ≡ agrees (scope_in scope.now) (finds_of held.now) }
{
    agrees(scope, held.finds.as_slice())
}

/// The index of the first memo that is valid for a tree. Hashes are compared first, so only memos
/// with the hash of this tree are looked at.
pub(crate) fn first_match(
    scope: &Scope,
    held: &[Rc<Memo>],
    hashes: &[u64],
    tree: &Rc<HashedTree>,
) -> Option<usize>
    requires read { AreRead scope.now }
    requires hashes { AreHashes hashes.now held.now }
    ensures any { is_some result ≡ has_match (scope_in scope.now) tree.now.value held.now }
    ensures found { IfSome result (IsValidAt (scope_in scope.now) tree.now.value held.now) }
    ensures within { IfSome result (λ i. i < length held.now) }
{
    laws::equal_trees();
    let hash = tree.as_ref().kept_hash();
    for i in 0..held.len() {
        if hashes[i] == hash && is_match(scope, tree, held[i].as_ref()) {
            return Some(i);
        }
    }
    None
}

//! Rewrites trees token by token.
ghost use Rattle.std.specs.Prelude.{◌≡◌, ◌+◌, ◌*◌, ◌-◌, ◌<◌, ◌≤◌, ◌⊎◌, ◌∷◌, ◌++◌, List, [], length, take, drop, reverse, MatchOption, true, false, Err, Some, None, is_none, IfOk, IfErr, OnOk, OnErr};
ghost use Rattle.std.specs.List.{FoldsTo};
ghost use Rattle.tt_data.specs.Forest.{Forest, empty, forest_of, size};
ghost use Rattle.tt_data.specs.fault.TtFault.TheVariants as fault;
ghost use Rattle.tt_data.specs.declared.tree.TokenTree.TheVariants as token;
ghost use Rattle.tt.specs.Building.{count_of, most_tokens};
ghost use Rattle.tt.specs.Rewriting.{Call, IsAnswered, IsRewritten, IsStarted, LeavesOneGroup, replacement, with_answer};
ghost use Rattle.tt.specs.Tops.{Top, forest_of_top, only_group};
ghost use Rattle.token_bytes.specs.Items.{items};
ghost use Rattle.tt.specs.Views.{forest};
ghost use Rattle.tt.specs.Walking.{IsNested, LeavesGroup, after_in, behind, entered, standing, work_of};

use crate::top_subtree::TopSubtree;
use crate::top_subtree::builder::TopSubtreeBuilder;
use crate::view::TokenTreesView;
use std::alloc::{AllocError, Global};
use token_bytes::Tokens;
use tt_data::{Delimiter, Leaf, Span, Subtree, TokenTree, TtFault};

/// What becomes of a token that a walk has reached.
#[derive(Clone, Copy)]
pub enum TransformTtAction<'a> {
    /// It stays. If it is a group, the walk goes on inside.
    Keep,
    /// These trees replace it, a group with all inside it. They are not walked.
    ReplaceWith(TokenTreesView<'a>),
}

impl<'a> TransformTtAction<'a> {
    /// The token goes, a group with all inside it.
    pub fn remove() -> TransformTtAction<'a>
        ensures { replacement result ≡ Some empty }
    {
        TransformTtAction::ReplaceWith(TokenTreesView::empty())
    }
}

/// Asks `callback` about each token, the top's own head first and a group's head before its
/// contents, and does what it answers. Replacements are not walked.
///
/// It refuses `Malformed` exactly where the top gives way to anything but one group. It refuses
/// `Tokens` only where the tree would have more than `u32::MAX` tokens below its top, whatever the
/// callback answered for the tokens left. Its one other error is `Memory`. A refused call leaves
/// the tree as it was.
pub fn transform_tt<'b, F: FnMut(&TokenTree) -> TransformTtAction<'b>>(
    alloc: Global,
    tt: &mut TopSubtree,
    callback: F,
) -> Result<(), TtFault>
    requires { F.IsAlwaysCallable callback }
    ensures ok { OnOk result ((calls : List Call) × (last : F) × FoldsTo (IsAnswered F.FnMut) callback calls last
        × IsRewritten (forest_of_top tt.old) calls (forest_of_top tt.new)) }
    ensures err { OnErr result (tt.new ≡ tt.old) }
    ensures malformed { result ≡ Err fault.Malformed → (calls : List Call) × (last : F) × (g : Forest)
        × FoldsTo (IsAnswered F.FnMut) callback calls last × IsRewritten (forest_of_top tt.old) calls g × (only_group g ≡ None) }
    ensures tokens { result ≡ Err fault.Tokens → (calls : List Call) × (last : F) × (t : Top)
        × FoldsTo (IsAnswered F.FnMut) callback calls last × IsStarted (forest_of_top tt.old) calls (forest_of_top t) × (most_tokens < size t.inner) }
    ensures one_group { IfErr result (λ e. (e ≡ fault.Memory) ⊎ (e ≡ fault.Tokens) → (c : Call) × (next : F)
        × IsAnswered F.FnMut callback c next × LeavesOneGroup tt.old c) }
    ensures faults { IfErr result (λ e. (e ≡ fault.Memory) ⊎ (e ≡ fault.Tokens) ⊎ (e ≡ fault.Malformed)) }
{
    *tt = transformed(alloc, tt, callback)?;
    Ok(())
}

// The tree that the callback makes of this one.
fn transformed<'b, F: FnMut(&TokenTree) -> TransformTtAction<'b>>(
    alloc: Global,
    tt: &TopSubtree,
    mut callback: F,
) -> Result<TopSubtree, TtFault>
    requires { F.IsAlwaysCallable callback }
    ensures ok { IfOk result (λ t. (calls : List Call) × (last : F) × FoldsTo (IsAnswered F.FnMut) callback calls last
        × IsRewritten (forest_of_top tt.now) calls (forest_of_top t)) }
    ensures malformed { result ≡ Err fault.Malformed → (calls : List Call) × (last : F) × (g : Forest)
        × FoldsTo (IsAnswered F.FnMut) callback calls last × IsRewritten (forest_of_top tt.now) calls g × (only_group g ≡ None) }
    ensures tokens { result ≡ Err fault.Tokens → (calls : List Call) × (last : F) × (t : Top)
        × FoldsTo (IsAnswered F.FnMut) callback calls last × IsStarted (forest_of_top tt.now) calls (forest_of_top t) × (most_tokens < size t.inner) }
    ensures one_group { IfErr result (λ e. (e ≡ fault.Memory) ⊎ (e ≡ fault.Tokens) → (c : Call) × (next : F)
        × IsAnswered F.FnMut callback c next × LeavesOneGroup tt.now c) }
    ensures faults { IfErr result (λ e. (e ≡ fault.Memory) ⊎ (e ≡ fault.Tokens) ⊎ (e ≡ fault.Malformed)) }
{
    let head = tt.top_subtree();
    match callback(&TokenTree::Subtree(head)) {
        TransformTtAction::Keep => rewritten(alloc, head.delimiter, tt.token_trees(), callback),
        TransformTtAction::ReplaceWith(trees) => match trees.try_into_subtree() {
            Some(group) => TopSubtree::from_subtree(alloc, group),
            None => Err(TtFault::Malformed),
        },
    }
}

// A group that stays: the span of its closing, and how many tokens come after it.
#[derive(Clone, Copy)]
struct Kept {
    close_span: Span,
    after: usize,
}

// Asks about a leaf, and appends it to the tree, or what replaces it.
fn put_leaf<'b, F: FnMut(&TokenTree) -> TransformTtAction<'b>>(
    tree: &mut TopSubtreeBuilder,
    leaf: Leaf,
    callback: &mut F,
) -> Result<(), TtFault>
    requires { F.IsAlwaysCallable callback.old }
    ensures callable { F.IsAlwaysCallable callback.new }
    ensures ok { OnOk result ((c : Call) × (c.token ≡ token.Leaf leaf) × IsAnswered F.FnMut callback.old c callback.new
        × (tree.new.tree ≡ with_answer c tree.old.tree)) }
    ensures tokens { result ≡ Err fault.Tokens → (c : Call) × (c.token ≡ token.Leaf leaf) × IsAnswered F.FnMut callback.old c callback.new
        × (most_tokens < count_of (with_answer c tree.old.tree)) }
    ensures faults { IfErr result (λ e. (e ≡ fault.Memory) ⊎ (e ≡ fault.Tokens)) }
{
    let token = TokenTree::Leaf(leaf);
    match callback(&token) {
        TransformTtAction::Keep => {
            let TokenTree::Leaf(leaf) = token else {
                unreachable!()
            };
            tree.push(leaf)
        }
        TransformTtAction::ReplaceWith(trees) => tree.extend_with_tt(trees),
    }
}

// Asks about a group, and opens it in the tree, or appends what replaces it. It answers whether
// the group is open, so that the traversal enters it.
fn put_head<'b, F: FnMut(&TokenTree) -> TransformTtAction<'b>>(
    tree: &mut TopSubtreeBuilder,
    head: Subtree,
    callback: &mut F,
) -> Result<bool, TtFault>
    requires { F.IsAlwaysCallable callback.old }
    ensures callable { F.IsAlwaysCallable callback.new }
    ensures ok { IfOk result (λ opened. (c : Call) × (c.token ≡ token.Subtree head) × (opened ≡ is_none c.put)
        × IsAnswered F.FnMut callback.old c callback.new × (tree.new.tree ≡ with_answer c tree.old.tree)) }
    ensures tokens { result ≡ Err fault.Tokens → (c : Call) × (c.token ≡ token.Subtree head) × IsAnswered F.FnMut callback.old c callback.new
        × (most_tokens < count_of (with_answer c tree.old.tree)) }
    ensures faults { IfErr result (λ e. (e ≡ fault.Memory) ⊎ (e ≡ fault.Tokens)) }
{
    match callback(&TokenTree::Subtree(head)) {
        TransformTtAction::Keep => {
            tree.open(head.delimiter.kind, head.delimiter.open_span)?;
            Ok(true)
        }
        TransformTtAction::ReplaceWith(trees) => {
            tree.extend_with_tt(trees)?;
            Ok(false)
        }
    }
}

// A traversal that rewrites trees.
#[derive(Drop)]
struct Walk<'a> {
    tree: TopSubtreeBuilder,
    // All tokens that are left: of the innermost group that stays, then of the list around it, and
    // so on.
    left: Tokens<'a>,
    // The groups that stay around, the innermost last.
    outer: Vec<Kept>,
}

// How many tokens come after the innermost group.
fn after_in(outer: &[Kept]) -> usize
    ensures { result ≡ after_in (reverse outer.now) }
{
    match outer.last() {
        Some(kept) => kept.after,
        None => 0,
    }
}

// The token that comes next in the innermost group, and all tokens after it. `None` at the group's
// end.
fn next_token<'a>(left: Tokens<'a>, outer: &[Kept]) -> Option<(TokenTree, Tokens<'a>)>
    ensures { MatchOption result (length (items left.entry) ≤ after_in (reverse outer.now))
        (λ p. (items left.entry ≡ p.0 ∷ items p.1) × (after_in (reverse outer.now) ≤ length (items p.1))) }
{
    if left.len() <= after_in(outer) {
        return None;
    }
    let (first, more) = left.split_first()?;
    Some((first, more))
}

// Goes on with the trees inside a group, whose head was passed, and then with those after it.
fn go_inside<'a>(walk: &mut Walk<'a>, head: Subtree, more: Tokens<'a>) -> Result<(), AllocError>
    requires { head.len ≤ length (items more) }
    ensures tree { walk.new.tree ≡ walk.old.tree }
    ensures left { OnOk result (items walk.new.left ≡ items more.entry) }
    ensures outer { OnOk result (walk.new.outer.items ≡ walk.old.outer.items ++ record { close_span = head.delimiter.close_span; after = length (items more.entry) - head.len } ∷ []) }
{
    let after = more.len() - head.usize_len();
    let close_span = head.delimiter.close_span;
    let Ok(()) = walk.outer.push(Kept { close_span, after }) else {
        return Err(AllocError);
    };
    walk.left = more;
    Ok(())
}

// Asks about a group. If it stays, the traversal goes on inside it, or else after it.
fn enter<'a, 'b, F: FnMut(&TokenTree) -> TransformTtAction<'b>>(
    walk: &mut Walk<'a>,
    head: Subtree,
    more: Tokens<'a>,
    callback: &mut F,
) -> Result<(), TtFault>
    requires callable { F.IsAlwaysCallable callback.old }
    requires nested { IsNested (items walk.old.left) (reverse walk.old.outer.items) }
    requires first { items walk.old.left ≡ token.Subtree head ∷ items more }
    requires within { after_in (reverse walk.old.outer.items) ≤ length (items more) }
    ensures callable { F.IsAlwaysCallable callback.new }
    ensures nested { OnOk result (IsNested (items walk.new.left) (reverse walk.new.outer.items)) }
    ensures less { OnOk result (work_of walk.new < work_of walk.old) }
    ensures ok { OnOk result ((c : Call) × (c.token ≡ token.Subtree head) × IsAnswered F.FnMut callback.old c callback.new
        × (standing walk.new ≡ entered c head (forest_of (take head.len (items more.entry))) (behind head.len (items more.entry) walk.old))) }
    ensures tokens { result ≡ Err fault.Tokens → (c : Call) × (c.token ≡ token.Subtree head) × IsAnswered F.FnMut callback.old c callback.new
        × (most_tokens < count_of (with_answer c walk.old.tree.tree)) }
    ensures faults { IfErr result (λ e. (e ≡ fault.Memory) ⊎ (e ≡ fault.Tokens)) }
{
    if put_head(&mut walk.tree, head, callback)? {
        go_inside(walk, head, more)?;
    } else {
        walk.left = more.split_at(head.usize_len()).1;
    }
    Ok(())
}

// Closes the innermost group, at whose end the traversal is, and answers whether there was one.
fn leave(walk: &mut Walk<'_>) -> bool
    requires groups { length walk.old.outer.items ≡ length walk.old.tree.tree.groups }
    requires nested { IsNested (items walk.old.left) (reverse walk.old.outer.items) }
    requires at_end { length (items walk.old.left) ≤ after_in (reverse walk.old.outer.items) }
    ensures left { result ≡ true → LeavesGroup (standing walk.old) (standing walk.new) × IsNested (items walk.new.left) (reverse walk.new.outer.items)
        × (work_of walk.new < work_of walk.old) }
    ensures over { result ≡ false → (walk.old.outer.items ≡ []) × (walk.new.tree ≡ walk.old.tree) }
{
    let Some(kept) = walk.outer.pop() else {
        return false;
    };
    let Ok(()) = walk.tree.close(kept.close_span) else {
        unreachable!()
    };
    true
}

// The tree with these delimiters, and inside what the callback makes of these trees.
fn rewritten<'b, F: FnMut(&TokenTree) -> TransformTtAction<'b>>(
    alloc: Global,
    top: Delimiter,
    trees: TokenTreesView<'_>,
    mut callback: F,
) -> Result<TopSubtree, TtFault>
    requires { F.IsAlwaysCallable callback }
    ensures ok { IfOk result (λ t. (calls : List Call) × (last : F) × FoldsTo (IsAnswered F.FnMut) callback calls last
        × IsRewritten (forest trees.entry) calls t.inner × (t.delimiter ≡ top)) }
    ensures tokens { result ≡ Err fault.Tokens → (calls : List Call) × (last : F) × (g : Forest)
        × FoldsTo (IsAnswered F.FnMut) callback calls last × IsStarted (forest trees.entry) calls g × (most_tokens < size g) }
    ensures faults { IfErr result (λ e. (e ≡ fault.Memory) ⊎ (e ≡ fault.Tokens)) }
{
    let mut walk = Walk {
        tree: TopSubtreeBuilder::new(alloc, top)?,
        left: trees.tokens,
        outer: Vec::new(alloc),
    };
    'turns: loop {
        match next_token(walk.left, walk.outer.as_slice()) {
            Some((token, behind)) => match token {
                TokenTree::Leaf(leaf) => {
                    put_leaf(&mut walk.tree, leaf, &mut callback)?;
                    walk.left = behind;
                }
                TokenTree::Subtree(head) => enter(&mut walk, head, behind, &mut callback)?,
            },
            None => {
                if !leave(&mut walk) {
                    break;
                }
            }
        }
    }
    let Ok(tree) = walk.tree.build() else {
        unreachable!()
    };
    Ok(tree)
}

//! Each call that takes no memory, once. Its result is proved, so a value or two are tested here.
use crate::samples::{begun, built, byte_at, punct, put_all, shows, tells, tree};
use crate::stored::are_built_alike;
use crate::walks::{count_leaves, passed, rebuilt};
use std::alloc::Global;
use std::hash::{DefaultHasher, Hash, Hasher};
use std::test::*;
use tt::{SubtreeView, TokenTreesView, TopSubtree, TopSubtreeBuilder, TtIter};
use tt_data::{
    DelimSpan, Delimiter, DelimiterKind, Edition, IdentIsRaw, Subtree, TokenTree, TtFault,
};

fn data_calls() -> bool {
    let pair = DelimSpan::from_pair(byte_at(1), byte_at(4));
    let delimiter = Delimiter::invisible_delim_spanned(pair);
    let head = Subtree { delimiter, len: 2 };
    delimiter.delim_span() == pair
        && DelimSpan::from_single(byte_at(1)).close_span == byte_at(1)
        && head.count() == head.usize_len()
        && TokenTree::from(head).first_span() == byte_at(1)
        && TokenTree::from(punct(',', 3)).first_span() == byte_at(3)
        && Edition::Edition2021.at_least_2021()
        && !Edition::Edition2021.at_least_2024()
        && IdentIsRaw::Yes.yes()
        && IdentIsRaw::No.no()
}

// Calls on the list `+{-[]}`.
fn list_calls(trees: TokenTreesView<'_>) -> bool {
    trees.len() == 4
        && !trees.is_empty()
        && trees.first_span() == Some(byte_at(0))
        && trees.last_span() == Some(byte_at(4))
        && trees.try_into_subtree().is_none()
        && trees.strip_invisible().len() == 4
        && trees.iter_flat_tokens().count() == 4
        && count_leaves(trees) == 2
}

// Calls on an iterator over the same trees.
fn walk_calls(mut walk: TtIter<'_>) -> Option<bool> {
    let start = walk.next_span()?;
    let first = walk.peek()?.first_span();
    let one = walk.next_as_view()?.len();
    let _group = walk.next()?;
    Some(start == first && one == 1 && walk.is_empty() && walk.remaining().is_empty())
}

// Calls on an invisible group of the same trees.
fn group_calls(group: SubtreeView<'_>) -> bool {
    group.top_subtree().len == 4
        && group.as_token_trees().len() == 5
        && group.token_trees().len() == 4
        && group.strip_invisible().len() == 4
        && !group.iter().is_empty()
}

// Calls on a cursor in a list that begins with `+{-[`: into the second group and out of it.
fn cursor_calls(trees: TokenTreesView<'_>) -> bool {
    let mut cursor = trees.cursor();
    for _ in 0..4 {
        if cursor.token_tree().is_none() {
            return false;
        }
        cursor.bump();
    }
    if cursor.is_root() || cursor.token_tree().is_some() {
        return false;
    }
    cursor.end().len == 0
        && cursor.peek_two_leaves().is_none()
        && passed(trees).len() == trees.len()
}

// Calls on a builder to which `{[` was appended.
fn builder_calls(builder: &TopSubtreeBuilder) -> bool {
    let mut expected = builder.expected_delimiters();
    builder.innermost() == Some((DelimiterKind::Bracket, byte_at(1)))
        && expected.next() == Some(DelimiterKind::Bracket)
        && expected.next() == Some(DelimiterKind::Brace)
        && expected.next().is_none()
}

// Whether what comes after a restore point can be taken back, and what remains.
fn goes_back(alloc: Global, before: &str, after: &str, last: &str) -> Result<bool, TtFault> {
    let mut builder = begun(alloc, before)?;
    let point = builder.restore_point();
    put_all(&mut builder, after, 4)?;
    let _gone = builder.restore(point);
    shows(alloc, &built(builder)?, last)
}

fn without_invisible(alloc: Global, text: &str, last: &str) -> Result<bool, TtFault> {
    let mut builder = begun(alloc, text)?;
    builder.remove_last_subtree_if_invisible();
    shows(alloc, &built(builder)?, last)
}

fn only_group(alloc: Global) -> Result<bool, TtFault> {
    match begun(alloc, "{[]}")?.build_skip_top_subtree() {
        Ok(tree) => shows(alloc, &tree, "{[]}"),
        Err((_, fault)) => Err(fault),
    }
}

pub(crate) fn hash_of(tree: &TopSubtree) -> u64 {
    let mut state = DefaultHasher::new();
    tree.hash(&mut state);
    state.finish()
}

// Calls that change a tree in place.
fn in_other_brackets(alloc: Global, mut tree: TopSubtree) -> Result<bool, TtFault> {
    let hash = hash_of(&tree);
    let pair = DelimSpan::from_pair(byte_at(8), byte_at(9));
    tree.set_top_subtree_delimiter_kind(DelimiterKind::Brace);
    tree.set_top_subtree_delimiter_span(pair);
    Ok(
        shows(alloc, &tree, "{+ {- []}}")?
            && tree.top_subtree().delimiter.delim_span() == pair
            && hash != hash_of(&tree),
    )
}

// Calls on the tree `+{-[]}`.
fn tree_calls(tree: &TopSubtree) -> bool {
    list_calls(tree.token_trees())
        && walk_calls(tree.iter()) == Some(true)
        && group_calls(tree.view())
        && cursor_calls(tree.token_trees())
}

#[test]
fn of_trees(rt: HostRuntime) -> Result<(), Fail> {
    let tree = tree(rt.alloc(), "+{-[]}")?;
    assert!(rt; data_calls() && tree_calls(&tree) && rebuilt(rt.alloc(), &tree)? == tree);
    assert!(rt; in_other_brackets(rt.alloc(), tree)?);
    Ok(())
}

fn restores(alloc: Global) -> Result<bool, TtFault> {
    Ok(goes_back(alloc, "+", "{-}", "+")? && goes_back(alloc, "+{", "}", "+ {}")?)
}

fn removes(alloc: Global) -> Result<bool, TtFault> {
    Ok(without_invisible(alloc, "+<,>", "+ ,")? && without_invisible(alloc, "+{,}", "+ {,}")?)
}

#[test]
fn of_builders(rt: HostRuntime) -> Result<(), Fail> {
    assert!(rt; builder_calls(&begun(rt.alloc(), "{[")?));
    assert!(rt; restores(rt.alloc())? && removes(rt.alloc())? && only_group(rt.alloc())?);
    Ok(())
}

// What `{:?}` prints of a tree, and of what borrows it. No clause says it.
fn tell_views(alloc: Global, tree: &TopSubtree) -> Result<bool, TtFault> {
    Ok(
        tells(alloc, tree, "'+'")?
            && tells(alloc, &tree.view(), "'+'")?
            && tells(alloc, &tree.token_trees(), "'+'")?,
    )
}

fn tell_places(alloc: Global, tree: &TopSubtree) -> Result<bool, TtFault> {
    Ok(
        tells(alloc, &tree.iter(), "'+'")?
            && tells(alloc, &tree.token_trees().cursor(), "'+'")?
            && tells(alloc, &tree.iter().peek(), "'+'")?,
    )
}

#[test]
fn tell_what_is_inside(rt: HostRuntime) -> Result<(), Fail> {
    let tree = tree(rt.alloc(), "+")?;
    assert!(rt; tell_views(rt.alloc(), &tree)? && tell_places(rt.alloc(), &tree)?);
    Ok(())
}

#[test]
fn of_bytes(rt: HostRuntime) -> Result<(), Fail> {
    assert!(rt; are_built_alike(rt.alloc())?);
    Ok(())
}

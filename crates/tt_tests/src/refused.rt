//! Each call that takes memory, made once more if it was refused: for runs in which one allocation
//! fails. A refused call changes nothing, so the tree is the expected one.
use crate::byte_buffers::are_kept_whole;
use crate::samples::{begun, built, byte_at, punct, shows, tells, tree};
use crate::states::{number_anchors, rewrite};
use crate::stored::are_stored;
use crate::walks::rebuilt;
use std::alloc::Global;
use std::test::*;
use tt::{TokenTreesView, TopSubtree, TopSubtreeBuilder, pretty, token_to_literal};
use tt_data::{DelimSpan, Ident, Leaf, LitKind, Literal, Symbol, TtFault};

// Appends trees or leaves to a builder by one of three calls.
fn extend(
    builder: &mut TopSubtreeBuilder,
    call: u8,
    trees: TokenTreesView<'_>,
) -> Result<(), TtFault> {
    match call {
        0 => builder.extend_with_tt(trees),
        1 => builder.extend([punct(',', 8), punct(';', 9)]),
        _ => builder.extend_with_tt_alone(trees),
    }
}

// `+{-}`, and what the first of three calls append: the trees, two leaves and the trees.
fn filled(alloc: Global, trees: TokenTreesView<'_>, calls: u8) -> Result<TopSubtree, TtFault> {
    let mut builder = begun(alloc, "+{-}")?;
    for call in 0..calls {
        extend(&mut builder, call, trees)?;
    }
    built(builder)
}

// Whether a builder builds what the first of three calls append.
fn is_filled(
    alloc: Global,
    builder: TopSubtreeBuilder,
    trees: TokenTreesView<'_>,
    calls: u8,
) -> Result<bool, TtFault> {
    Ok(built(builder)? == filled(alloc, trees, calls)?)
}

// Whether a builder, after all three calls or a refused one, builds what the calls before that
// build on another one.
fn are_kept(alloc: Global, trees: TokenTreesView<'_>) -> Result<bool, TtFault> {
    let mut builder = begun(alloc, "+{-}")?;
    for call in 0..3 {
        match extend(&mut builder, call, trees) {
            Err(TtFault::Memory) => return is_filled(alloc, builder, trees, call),
            answer => answer?,
        }
    }
    is_filled(alloc, builder, trees, 3)
}

fn is_whole(alloc: Global, trees: TokenTreesView<'_>) -> Result<bool, TtFault> {
    shows(alloc, &filled(alloc, trees, 3)?, "+ {-} * / , ; * /")
}

fn builds(alloc: Global) -> Result<bool, TtFault> {
    let row = rebuilt(alloc, &tree(alloc, "*/")?)?;
    Ok(are_kept(alloc, row.token_trees())? && is_whole(alloc, row.token_trees())?)
}

// The tree made from the tokens of a tree. A refused call hands them back.
fn read_again(alloc: Global, tree: &TopSubtree) -> Result<TopSubtree, TtFault> {
    let mut tokens = Vec::new(alloc);
    for token in tree.as_token_trees().iter_flat_tokens() {
        let Ok(()) = tokens.push(token) else {
            return Err(TtFault::Memory);
        };
    }
    let tokens = match TopSubtree::from_serialized(alloc, tokens) {
        Ok(tree) => return Ok(tree),
        Err((tokens, _fault)) => tokens,
    };
    match TopSubtree::from_serialized(alloc, tokens) {
        Ok(tree) => Ok(tree),
        Err((_tokens, fault)) => Err(fault),
    }
}

// Whether all copies of a tree are equal to it.
fn copies(alloc: Global, tree: &TopSubtree) -> Result<bool, TtFault> {
    let top = tree.top_subtree().delimiter;
    Ok(
        tree.try_clone(alloc)? == *tree
            && read_again(alloc, tree)? == *tree
            && TopSubtree::from_subtree(alloc, tree.view())? == *tree
            && TopSubtree::from_token_trees(alloc, top, tree.token_trees())? == *tree,
    )
}

// The copies are made once more if one is refused.
fn makes(alloc: Global) -> Result<bool, TtFault> {
    let tree = tree(alloc, "+{-}")?;
    let copied = match copies(alloc, &tree) {
        Err(TtFault::Memory) => copies(alloc, &tree)?,
        answer => answer?,
    };
    Ok(copied && pretty(alloc, tree.token_trees())?.as_str() == "+ {-}")
}

fn empties(alloc: Global) -> Result<bool, TtFault> {
    let bare = TopSubtree::empty(alloc, DelimSpan::from_single(byte_at(0)))?;
    Ok(TopSubtree::invisible_from_leaves(alloc, byte_at(0), [])? == bare)
}

fn names(alloc: Global) -> Result<bool, TtFault> {
    let name = Ident::new(alloc, "r#fn", byte_at(0))?;
    Ok(
        Symbol::new(alloc, "fn")?.as_str() == name.sym.as_str()
            && tells(alloc, &name.sym.clone()?, "\"fn\"")?
            && shows(alloc, &Leaf::from(name), "r#fn")?,
    )
}

fn numbers(alloc: Global) -> Result<bool, TtFault> {
    let number = Literal::new_no_suffix(alloc, "1", byte_at(0), LitKind::Integer)?;
    let short = token_to_literal(alloc, "1u8", byte_at(0), LitKind::Integer, 1)?;
    Ok(short.text_and_suffix() == ("1", "u8") && shows(alloc, &number, "1")?)
}

fn texts(alloc: Global) -> Result<bool, TtFault> {
    let text = Literal::new(alloc, "\"#", byte_at(0), LitKind::StrRaw(2), "é")?;
    Ok(text.text_and_suffix() == ("\"#", "é") && shows(alloc, &text, "r##\"\"#\"##é")?)
}

// Rewrites the tree. Out of memory, it does so once more, and answers whether the tree was as
// before.
fn rewritten(alloc: Global, tree: &mut TopSubtree, before: &TopSubtree) -> Result<bool, TtFault> {
    match rewrite(alloc, tree, before.token_trees()) {
        Err(TtFault::Memory) => {
            let is_kept = *tree == *before;
            rewrite(alloc, tree, before.token_trees())?;
            Ok(is_kept)
        }
        answer => answer.map(|()| true),
    }
}

// A literal that has its text in memory of its own.
fn number(alloc: Global) -> Result<Leaf, TtFault> {
    let literal = Literal::new(alloc, "123456789", byte_at(3), LitKind::Integer, "u64")?;
    Ok(Leaf::Literal(literal))
}

// Sets the second leaf. Out of memory, it does so once more, and answers whether the tree was as
// before.
fn set(alloc: Global, tree: &mut TopSubtree, before: &TopSubtree) -> Result<bool, TtFault> {
    match tree.set_token(alloc, 3, number(alloc)?) {
        Err(TtFault::Memory) => {
            let is_kept = *tree == *before;
            tree.set_token(alloc, 3, number(alloc)?)?;
            Ok(is_kept)
        }
        answer => answer.map(|()| true),
    }
}

// Numbers the anchors of the tree. Out of memory, it does so once more, and answers whether none
// was asked about and the tree was as before.
fn numbered(alloc: Global, tree: &mut TopSubtree, before: &TopSubtree) -> Result<bool, TtFault> {
    match number_anchors(alloc, tree) {
        (asked, Err(TtFault::Memory)) => {
            let is_kept = asked == 0 && *tree == *before;
            number_anchors(alloc, tree).1?;
            Ok(is_kept)
        }
        (_, answer) => answer.map(|()| true),
    }
}

fn is_rewritten(alloc: Global, before: &TopSubtree) -> Result<bool, TtFault> {
    let mut moved = tree(alloc, "+{-}")?;
    Ok(rewritten(alloc, &mut moved, before)? && shows(alloc, &moved, "{+ {-}}")?)
}

fn is_set(alloc: Global, before: &TopSubtree) -> Result<bool, TtFault> {
    let mut tree = tree(alloc, "+{-}")?;
    Ok(set(alloc, &mut tree, before)? && shows(alloc, &tree, "+ {123456789u64}")?)
}

fn is_numbered(alloc: Global, before: &TopSubtree) -> Result<bool, TtFault> {
    let mut tree = tree(alloc, "+{-}")?;
    let is_right = numbered(alloc, &mut tree, before)?;
    Ok(is_right && tree.top_subtree().delimiter.close_span.anchor == 1)
}

fn changes(alloc: Global) -> Result<bool, TtFault> {
    let before = tree(alloc, "+{-}")?;
    Ok(is_rewritten(alloc, &before)? && is_set(alloc, &before)? && is_numbered(alloc, &before)?)
}

// The parts, by their numbers.
fn is_right(alloc: Global, part: u8) -> Result<bool, TtFault> {
    match part {
        0 => builds(alloc),
        1 => makes(alloc),
        2 => empties(alloc),
        3 => names(alloc),
        4 => numbers(alloc),
        5 => texts(alloc),
        _ => changes(alloc),
    }
}

// Whether the parts from one number to another are right. One that is refused is made once more.
fn are_right(alloc: Global, from: u8, to: u8) -> Result<bool, TtFault> {
    for part in from..=to {
        let answer = match is_right(alloc, part) {
            Err(TtFault::Memory) => is_right(alloc, part)?,
            answer => answer?,
        };
        if !answer {
            return Ok(false);
        }
    }
    Ok(true)
}

#[test]
fn trees(rt: HostRuntime) -> Result<(), Fail> {
    assert!(rt; are_right(rt.alloc(), 0, 6)?);
    Ok(())
}

// Whether lists of leaves are as they should be. Where a leaf is refused, they are made once more.
fn are_stored_at_last(alloc: Global) -> Result<bool, TtFault> {
    match are_stored(alloc) {
        Err(TtFault::Memory) => are_stored(alloc),
        answer => answer,
    }
}

#[test]
fn stored_tokens(rt: HostRuntime) -> Result<(), Fail> {
    assert!(rt; are_stored_at_last(rt.alloc())?);
    Ok(())
}

#[test]
fn byte_buffers(rt: HostRuntime) -> Result<(), Fail> {
    assert!(rt; are_kept_whole(rt.alloc())?);
    Ok(())
}

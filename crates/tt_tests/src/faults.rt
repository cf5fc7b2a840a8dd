//! Calls whose arguments do not fit the tree or builder that they are called on.
use crate::calls::hash_of;
use crate::samples::{begun, built, byte_at, punct, shows, tree};
use std::alloc::Global;
use std::test::*;
use tt::{TopSubtree, TopSubtreeBuilder, TransformTtAction, pretty, transform_tt};
use tt_data::{Delimiter, Ident, Leaf, Punct, Spacing, Subtree, TokenTree, TtFault};

// The error with which a list of one token is refused.
fn one_token(alloc: Global, token: TokenTree) -> Result<Option<TtFault>, TtFault> {
    let mut tokens = Vec::new(alloc);
    let Ok(()) = tokens.push(token) else {
        return Err(TtFault::Memory);
    };
    match TopSubtree::from_serialized(alloc, tokens) {
        Ok(_tree) => Ok(None),
        Err((_tokens, fault)) => Ok(Some(fault)),
    }
}

// The head of a group of this many tokens.
fn group(len: u32) -> TokenTree {
    TokenTree::Subtree(Subtree {
        delimiter: Delimiter::invisible_spanned(byte_at(0)),
        len,
    })
}

fn lists(alloc: Global) -> Result<bool, TtFault> {
    let leaf = TokenTree::Leaf(punct('+', 0));
    Ok(
        one_token(alloc, leaf)? == Some(TtFault::Malformed)
            && one_token(alloc, group(1))? == Some(TtFault::Malformed)
            && one_token(alloc, group(0))?.is_none(),
    )
}

// A restore point whose open group was closed.
fn is_stale(alloc: Global) -> Result<bool, TtFault> {
    let mut builder = begun(alloc, "+{-")?;
    let point = builder.restore_point();
    builder.close(byte_at(3))?;
    let answer = builder.restore(point);
    Ok(answer == Err(TtFault::Stale) && shows(alloc, &built(builder)?, "+ {-}")?)
}

// Calls on a builder to which `{` was appended, and the same on an empty one.
fn places(alloc: Global) -> Result<bool, TtFault> {
    let Err((builder, fault)) = begun(alloc, "{")?.build() else {
        return Ok(false);
    };
    let Err((mut builder, skipped)) = builder.build_skip_top_subtree() else {
        return Ok(false);
    };
    builder.close(byte_at(1))?;
    let closed = builder.close(byte_at(2));
    let mut tree = built(builder)?;
    let set = tree.set_token(alloc, 0, punct('+', 0));
    Ok(
        fault == TtFault::Place
            && skipped == TtFault::Place
            && closed == Err(TtFault::Place)
            && set == Err(TtFault::Place)
            && shows(alloc, &tree, "{}")?,
    )
}

// A tree whose top is removed stays as it is, and is equal to its copy.
fn keeps_its_top(alloc: Global) -> Result<bool, TtFault> {
    let mut tree = tree(alloc, "+{-}")?;
    let copy = tree.try_clone(alloc)?;
    let answer = transform_tt(alloc, &mut tree, |_token| TransformTtAction::remove());
    Ok(
        answer == Err(TtFault::Malformed)
            && tree == copy
            && hash_of(&tree) == hash_of(&copy)
            && shows(alloc, &tree, "+ {-}")?,
    )
}

// `a`, a punct that is `JointHidden`, and `b`.
fn hidden(alloc: Global) -> Result<TopSubtree, TtFault> {
    let mut builder = TopSubtreeBuilder::new(alloc, Delimiter::invisible_spanned(byte_at(0)))?;
    builder.push(Leaf::from(Ident::new(alloc, "a", byte_at(0))?))?;
    builder.push(Leaf::from(Punct {
        char: '+',
        spacing: Spacing::JointHidden,
        span: byte_at(2),
    }))?;
    builder.push(Leaf::from(Ident::new(alloc, "b", byte_at(3))?))?;
    built(builder)
}

// A punct that is `JointHidden` is shown beside what follows, but not prettily.
fn hides(alloc: Global) -> Result<bool, TtFault> {
    let tree = hidden(alloc)?;
    let prettily = pretty(alloc, tree.token_trees())?;
    Ok(prettily.as_str() == "a + b" && shows(alloc, &tree, "a +b")?)
}

#[test]
fn are_told(rt: HostRuntime) -> Result<(), Fail> {
    let alloc = rt.alloc();
    assert!(rt; lists(alloc)? && is_stale(alloc)? && places(alloc)?);
    assert!(rt; keeps_its_top(alloc)? && hides(alloc)?);
    Ok(())
}

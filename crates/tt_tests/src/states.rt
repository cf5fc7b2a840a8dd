//! Calls that take a closure, here one that has a state.
ghost use Rattle.std.specs.Prelude.{⊤};

use crate::samples::{byte_at, shows, tree};
use std::alloc::Global;
use std::test::*;
use tt::{TokenTreesView, TopSubtree, TransformTtAction, transform_tt};
use tt_data::{Leaf, Punct, Span, TtFault};

// Removes the second token, and replaces the fourth by these trees. The top is the first.
pub(crate) fn rewrite(
    alloc: Global,
    tree: &mut TopSubtree,
    put: TokenTreesView<'_>,
) -> Result<(), TtFault> {
    let mut asked = 0u8;
    transform_tt(alloc, tree, |_token| {
        asked = asked.wrapping_add(1);
        match asked {
            2 => TransformTtAction::remove(),
            4 => TransformTtAction::ReplaceWith(put),
            _ => TransformTtAction::Keep,
        }
    })
}

// Replaces the anchors by 1, 2 and so on: how many were asked about, and the result.
pub(crate) fn number_anchors(alloc: Global, tree: &mut TopSubtree) -> (u32, Result<(), TtFault>) {
    let mut asked = 0u32;
    let answer = tree.change_every_ast_id(alloc, |_anchor| {
        asked = asked.wrapping_add(1);
        asked
    });
    (asked, answer)
}

// The anchors of the first and the last tree, and of the delimiters around them.
fn anchors(tree: &TopSubtree) -> Option<(u32, u32, u32)> {
    let first = tree.token_trees().first_span()?.anchor;
    let last = tree.token_trees().last_span()?.anchor;
    let top = tree.top_subtree().delimiter.open_span.anchor;
    Some((first, last, top))
}

// How many anchors `+-` has if its second token has another one, and what replaces them.
fn numbered(alloc: Global) -> Result<(u32, Option<(u32, u32, u32)>), TtFault> {
    let mut tree = tree(alloc, "+-")?;
    let span = Span {
        anchor: 7,
        ..byte_at(1)
    };
    let leaf = Leaf::from(Punct {
        span,
        ..Punct::default()
    });
    tree.set_token(alloc, 2, leaf)?;
    let (asked, answer) = number_anchors(alloc, &mut tree);
    answer?;
    Ok((asked, anchors(&tree)))
}

// How many tokens the two parts have if a list of three trees is split at every second one.
fn lengths(trees: TokenTreesView<'_>) -> Option<(usize, usize)> {
    let mut asked = 0u8;
    let mut pieces = trees.split(
        |_tree|
            requires { ⊤ }
            ensures { ⊤ }
        {
            asked = asked.wrapping_add(1);
            asked % 2 == 0
        },
    );
    let first = pieces.next()?.len();
    let second = pieces.next()?.len();
    match pieces.next() {
        None => Some((first, second)),
        Some(_) => None,
    }
}

// The same for the trees of a text.
fn lengths_of(alloc: Global, text: &str) -> Result<Option<(usize, usize)>, TtFault> {
    Ok(lengths(tree(alloc, text)?.token_trees()))
}

// Whether a tree has the second token replaced by the trees of a text, and the fourth removed.
fn is_rewritten(alloc: Global) -> Result<bool, TtFault> {
    let mut changed = tree(alloc, "{-[]}+/")?;
    let row = tree(alloc, ",,")?;
    rewrite(alloc, &mut changed, row.token_trees())?;
    shows(alloc, &changed, "+ , ,")
}

#[test]
fn ask_once(rt: HostRuntime) -> Result<(), Fail> {
    let alloc = rt.alloc();
    assert!(rt; lengths_of(alloc, "{-[]}+/")? == Some((3, 1)));
    assert!(rt; is_rewritten(alloc)? && numbered(alloc)? == (2, Some((1, 2, 1))));
    Ok(())
}

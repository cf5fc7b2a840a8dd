//! Walks over trees by the public calls of `tt` alone: their contracts follow from its contracts.
ghost use Rattle.std.specs.Prelude.{◌≡◌, IfOk, OnOk};
ghost use Rattle.tt_tests.specs.Walks.{leaf_count};
ghost use Rattle.tt.specs.Building.{extended};
ghost use Rattle.tt.specs.Views.{forest};

use std::alloc::Global;
use tt::buffer::Cursor;
use tt::iter::{TtElement, TtIter};
use tt::laws::walk_of_a_cursor;
use tt::{TokenTreesView, TopSubtree, TopSubtreeBuilder};
use tt_data::laws::walk_of_a_forest;
use tt_data::{TokenTree, TtFault};

/// The number of leaves of the trees, those inside groups too.
pub fn count_leaves(trees: TokenTreesView<'_>) -> usize
    ensures { result ≡ leaf_count (forest trees.entry) }
{
    let mut count = trees.len();
    for token in trees.iter_flat_tokens() {
        if let TokenTree::Subtree(_) = token {
            count -= 1;
        }
    }
    count
}

/// The trees that a cursor has passed at the end of a list: all of them.
pub fn passed(trees: TokenTreesView<'_>) -> TokenTreesView<'_>
    ensures { forest result ≡ forest trees.entry }
{
    walk_of_a_cursor();
    walk_of_a_forest();
    let mut cursor: Cursor<'_> = trees.cursor();
    while !cursor.eof() {
        cursor.bump_or_end();
    }
    cursor.crossed()
}

/// A tree equal to this one, built tree by tree. Out of memory is its only error.
pub fn rebuilt(alloc: Global, tree: &TopSubtree) -> Result<TopSubtree, TtFault>
    ensures { IfOk result (λ t. t ≡ tree.now) }
{
    let mut builder = TopSubtreeBuilder::with_room(alloc, tree.top_subtree().delimiter, 4)?;
    put(&mut builder, tree.token_trees().iter())?;
    match builder.build() {
        Ok(tree) => Ok(tree),
        Err((_, fault)) => Err(fault),
    }
}

// Puts the trees after those that the builder has.
fn put(builder: &mut TopSubtreeBuilder, mut trees: TtIter<'_>) -> Result<(), TtFault>
    ensures { OnOk result (builder.new.tree ≡ extended builder.old.tree trees.entry) }
{
    while let Some(tree) = trees.next() {
        match tree {
            TtElement::Leaf(leaf) => builder.push(leaf)?,
            TtElement::Subtree(subtree, inner) => {
                builder.open(subtree.delimiter.kind, subtree.delimiter.open_span)?;
                put(builder, inner)?;
                builder.close(subtree.delimiter.close_span)?;
            }
        }
    }
    Ok(())
}

//! Counts the steps of a list of trees.
ghost use Rattle.std.specs.Prelude.{◌≡◌};
ghost use Rattle.tt.specs.Views.{forest};
ghost use Rattle.fragment_grammar.specs.Steps.{steps};

use tt::TokenTreesView;
use tt_data::TokenTree;

/// The number of steps of the trees: each leaf, each opening and each closing is one.
pub fn steps(trees: TokenTreesView<'_>) -> usize
    ensures { result ≡ steps (forest trees.entry) }
{
    let mut count = trees.len();
    for token in trees.iter_flat_tokens() {
        if let TokenTree::Subtree(_) = token {
            count += 1;
        }
    }
    count
}

//! Splits a list of trees at those for which a test is true.
ghost use Rattle.std.specs.Prelude.{◌≡◌, Some};
ghost use Rattle.tt.specs.Views.{forest};
ghost use Rattle.tt.specs.Splitting.{Cuts, split_steps, pieces_left};

use crate::iter::{TtElement, TtIter};
use crate::view::TokenTreesView;

/// The parts of a list of trees, between the trees for which a test is true.
#[derive(Drop)]
pub struct Split<'a, F> {
    // The trees that are left. `None` once the last part was given.
    pub(crate) rest: Option<TtIter<'a>>,
    pub(crate) test: F,
}

impl<'a> TokenTreesView<'a> {
    /// The parts of the list, between the trees for which `test` is true: one more than there are
    /// such trees, and so one for a list without trees. Each tree is tested once, in order.
    pub fn split<F: FnMut(TtElement<'a>) -> bool>(self, test: F) -> Split<'a, F>
        ensures rest { result.rest ≡ Some (forest self.entry) }
        ensures test { result.test ≡ test }
    {
        Split {
            rest: Some(self.iter()),
            test,
        }
    }
}

// The trees before the first for which the test is true, and those after it. `None` for the
// latter if there is no such tree.
fn cut<'a, F: FnMut(TtElement<'a>) -> bool>(
    trees: TtIter<'a>,
    test: &mut F,
) -> (TokenTreesView<'a>, Option<TtIter<'a>>)
    requires { F.IsAlwaysCallable test.old }
    ensures callable { F.IsAlwaysCallable test.new }
    ensures cut { Cuts F.FnMut trees.entry test.old (forest result.0) result.1 test.new }
{
    let whole = trees.remaining();
    let mut rest = trees;
    loop {
        let piece = rest.passed_since(whole);
        match rest.next() {
            None => return (piece, None),
            Some(tree) => {
                if test(tree) {
                    return (piece, Some(rest));
                }
            }
        }
    }
}

impl<'a, F: FnMut(TtElement<'a>) -> bool> Iterator for Split<'a, F> {
    type Item = TokenTreesView<'a>;

    ghost can_next = { λ s. F.IsAlwaysCallable s.test };

    ghost next_gives = { split_steps F.FnMut };

    ghost remaining = { pieces_left };

    /// The next part. `None` after the last.
    fn next(&mut self) -> Option<TokenTreesView<'a>> {
        let trees = self.rest.take()?;
        let (piece, rest) = cut(trees, &mut self.test);
        self.rest = rest;
        Some(piece)
    }
}

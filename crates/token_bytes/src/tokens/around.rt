//! In which list a group is.
ghost use Rattle.std.specs.Prelude.{◌≡◌, ◌↔◌, ℕ, ◌+◌, ◌-◌, ◌<◌, ◌≤◌, IsTrue, MatchOption, length};
ghost use Rattle.token_bytes.specs.Items.{items};
ghost use Rattle.token_bytes.specs.Marks.{IsPlaceIn};
ghost use Rattle.token_bytes.specs.Lists.{BeginsListOf, IsTreeOf, Reaches};
ghost use Rattle.token_bytes.specs.TokenLists.{as_head};
ghost use Rattle.tt_data.specs.declared.tree.TokenTree.{TokenTree};

use crate::mark::Place;
use crate::tokens::Tokens;
use tt_data::{Subtree, TokenTree};

// Whether a group whose inside begins at `start` has the token at `head` inside.
fn reaches(group: Subtree, start: usize, head: usize) -> bool
    requires { start ≤ head }
    ensures { IsTrue result ↔ (head < start + group.len) }
{
    head - start < group.usize_len()
}

// Whether `group`, the head just before `start` if there is one, has the token at `head` inside.
fn has_inside(group: Option<Subtree>, start: usize, head: usize) -> bool
    requires { start ≤ head }
    ensures { (t : TokenTree) → as_head t ≡ group → (IsTrue result ↔ Reaches t start head) }
{
    match group {
        None => false,
        Some(group) => reaches(group, start, head),
    }
}

// The place at which the list begins that has the group with its head at `head`, if it begins
// after `from` and no later than `upto`.
fn list_between(tokens: Tokens<'_>, from: Place, upto: usize, head: usize) -> Option<Place>
    requires from { IsPlaceIn from (items tokens) }
    requires order { from.count ≤ upto }
    requires before { upto ≤ head }
    requires within { head ≤ length (items tokens) }
    ensures { MatchOption result
        ((start : ℕ) → IsTreeOf (items tokens.entry) head start → start ≤ upto → start ≤ from.count)
        (λ p. IsPlaceIn p (items tokens.entry) × ((start : ℕ)
        → IsTreeOf (items tokens.entry) head start → start ≤ upto → p.count ≡ start)) }
{
    let mut found = None;
    let mut at = from;
    while at.count < upto {
        let token = tokens.after(at).first_head();
        at = tokens.past_token(at);
        if has_inside(token, at.count, head) {
            found = Some(at);
        }
    }
    found
}

impl<'a> Tokens<'a> {
    /// The place at which the list begins that has the group whose inside begins at a place. It
    /// looks back at the tokens from there, at most 64 more than it has to.
    pub fn list_around(self, inside: Place) -> Place
        requires marked { IsPlaceIn inside (items self) }
        requires some { 0 < inside.count }
        ensures begins { BeginsListOf (items self.entry) (inside.count - 1) result.count }
        ensures marked { IsPlaceIn result (items self.entry) }
    {
        let head = inside.count - 1;
        let mut upto = head;
        while upto > 0 {
            let from = self.place_before(upto);
            if let Some(found) = list_between(self, from, upto, head) {
                return found;
            }
            upto = from.count;
        }
        Place::start()
    }
}

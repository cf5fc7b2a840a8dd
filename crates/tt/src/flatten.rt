//! Checks flat lists of tokens: whether one holds a list of trees, and where its trees end.
ghost use Rattle.std.specs.Prelude.{◌≡◌, ◌↔◌, ◌≤◌, ◌^◌, length, IsTrue};
ghost use Rattle.tt_data.specs.Forest.{size, front, forest_of, IsPreorder};
ghost use Rattle.token_bytes.specs.TokenLists.{inside_of};
ghost use Rattle.tt.specs.Tops.{IsOneGroup};

use crate::iter::{TtElement, TtIter};
use tt_data::TokenTree;

// How many tokens a token has inside: a head as many as it counts, a leaf none.
fn inside_of(token: &TokenTree) -> usize
    ensures { result ≡ inside_of token.now }
{
    match token {
        TokenTree::Leaf(_) => 0,
        TokenTree::Subtree(head) => head.usize_len(),
    }
}

// The answer of `is_tree_end` for the trees of a flat list.
fn is_end_in(tts: &[TokenTree], count: usize) -> bool
    requires { IsPreorder tts.now }
    ensures { IsTrue result ↔ (size (front count (forest_of tts.now)) ≡ count) }
{
    let mut rest = tts;
    let mut left = count;
    while left > 0 {
        let Some((first, more)) = rest.split_first() else {
            return false;
        };
        let inside = inside_of(first);
        if left <= inside {
            return false;
        }
        left -= inside + 1;
        rest = more.split_at(inside).1;
    }
    true
}

// Whether a flat list holds trees: each group counts the tokens of whole trees after it.
pub(crate) fn is_flat(tts: &[TokenTree]) -> bool
    ensures { IsTrue result ↔ IsPreorder tts.now }
{
    let mut at = tts.len();
    while at > 0 {
        at -= 1;
        let (_, behind) = tts.split_at(at + 1);
        if !is_end_in(behind, inside_of(&tts[at])) {
            return false;
        }
    }
    true
}

// Whether a flat list holds one group.
pub(crate) fn is_one_group(tts: &[TokenTree]) -> bool
    ensures one { IsTrue result ↔ IsOneGroup tts.now }
    ensures room { IsTrue result → length tts.now ≤ 2 ^ 32 }
{
    match tts.split_first() {
        Some((TokenTree::Subtree(head), inside)) => {
            let counted = head.len as usize;
            counted == inside.len() && is_flat(inside)
        }
        _ => false,
    }
}

// Whether one of these trees ends after `count` tokens, or `count` is 0.
pub(crate) fn is_tree_end(mut trees: TtIter<'_>, count: usize) -> bool
    ensures { IsTrue result ↔ (size (front count trees.entry) ≡ count) }
{
    let mut left = count;
    while left > 0 {
        let passed = match trees.next() {
            None => return false,
            Some(TtElement::Leaf(_)) => 1,
            Some(TtElement::Subtree(head, _)) => head.usize_len() + 1,
        };
        if left < passed {
            return false;
        }
        left -= passed;
    }
    true
}

//! Pieces of texts that are read, with piece-relative spans.
ghost use Rattle.std.specs.Prelude.{◌≡◌, IsTrue};
ghost use Rattle.bridge.specs.Pieces.{IsFrom, StandsBehindFirst, StandsFrom, first_start};
ghost use Rattle.tt.specs.Views.{forest};

use crate::rows::tree;
use bridge::piece;
use std::alloc::Global;
use std::fmt::Write;
use std::test::Fail;
use tt::{Leaf, Span, TokenTree, TokenTreesView, TopSubtree, TtFault};

// Whether a span neither starts nor ends before `start`.
fn is_from(start: u32, span: Span) -> bool
    ensures { IsTrue result → IsFrom start span }
{
    start <= span.range.start && start <= span.range.end
}

// Whether no span of a token starts or ends before `start`.
fn stands_from(start: u32, token: &TokenTree) -> bool
    ensures { IsTrue result → StandsFrom start token.now }
{
    match token {
        TokenTree::Leaf(leaf) => is_from(start, leaf.span()),
        TokenTree::Subtree(subtree) => {
            is_from(start, subtree.delimiter.open_span)
                && is_from(start, subtree.delimiter.close_span)
        }
    }
}

// Where the first token starts.
fn first_start(view: TokenTreesView<'_>) -> u32
    ensures { result ≡ first_start (forest view.entry) }
{
    match view.first_span() {
        Some(span) => span.range.start,
        None => 0,
    }
}

// Whether no span starts or ends before the first token starts.
fn stands_behind_first(view: TokenTreesView<'_>) -> bool
    ensures { IsTrue result → StandsBehindFirst (forest view.entry) }
{
    let start = first_start(view);
    for token in view.iter_flat_tokens() {
        if !stands_from(start, &token) {
            return false;
        }
    }
    true
}

/// The piece of trees. A refused call is made once more.
pub(crate) fn piece_of(alloc: Global, view: TokenTreesView<'_>) -> Result<TopSubtree, Fail> {
    if !stands_behind_first(view) {
        return Err(Fail::new("a token stands before the first"));
    }
    match piece(alloc, view) {
        Err(TtFault::Memory) => Ok(piece(alloc, view)?),
        answer => Ok(answer?),
    }
}

// Writes where a token begins, and the spacing of a punct.
fn put_place(got: &mut String, token: &TokenTree) -> Result<(), Fail> {
    let range = token.first_span().range;
    write!(got, " {}..{}", range.start, range.end)?;
    if let TokenTree::Leaf(Leaf::Punct(punct)) = token {
        write!(got, "{:?}", punct.spacing)?;
    }
    Ok(())
}

// The piece of these trees: how it is displayed, and where each token begins.
fn shown(alloc: Global, view: TokenTreesView<'_>) -> Result<String, Fail> {
    let tree = piece_of(alloc, view)?;
    let mut got = format!(in alloc; "{tree}")?;
    for token in tree.token_trees().iter_flat_tokens() {
        put_place(&mut got, &token)?;
    }
    Ok(got)
}

// The trees after the first `before`: the next tree alone, or all.
fn part<'a>(trees: TokenTreesView<'a>, before: usize, is_one: bool) -> TokenTreesView<'a> {
    let mut rest = trees.iter();
    for _ in 0..before {
        let _ = rest.next();
    }
    let all = rest.remaining();
    match rest.next_as_view() {
        Some(first) if is_one => first,
        _ => all,
    }
}

// The piece of a part of a text.
fn shown_of(alloc: Global, text: &str, before: usize, is_one: bool) -> Result<String, Fail> {
    let tree = tree(alloc, text)?;
    shown(alloc, part(tree.token_trees(), before, is_one))
}

// A text, how many trees come before a part, whether it is one tree, and the piece.
const ROWS: [(&str, usize, bool, &str); 3] = [
    ("", 0, false, ""),
    (
        "x;  a+=(b,);",
        2,
        false,
        "a += (b ,) ; 0..1 1..2Joint 2..3Alone 3..4 4..5 5..6Alone 7..8Alone",
    ),
    ("x ;; y", 1, true, "; 0..1Alone"),
];

#[test]
fn cuts_pieces(rt: HostRuntime) -> Result<(), Fail> {
    for (text, before, is_one, want) in &ROWS {
        let got = shown_of(rt.alloc(), text, *before, *is_one)?;
        assert!(rt; got.as_str() == *want, "{text:?} has the piece {got:?}");
    }
    Ok(())
}

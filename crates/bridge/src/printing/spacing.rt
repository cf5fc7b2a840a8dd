//! Spacing: the gap between two printed tokens.
ghost use Rattle.std.specs.Prelude.{◌≡◌};
ghost use Rattle.bridge.specs.Edges.{are_joined, closing_edge, ends_line, gap_between, gap_outside};
ghost use Rattle.bridge.specs.Edges.{gap_text, has_one_gap, is_comment, leaf_edge};
ghost use Rattle.tt_data.specs.Lent.{leaf_lent};

use tt_data::{DelimiterKind, LeafRef, Spacing};

/// What the gaps before and after a printed token depend on.
#[derive(Clone, Copy)]
pub(crate) enum Edge {
    /// A punct of this character, and whether it isn't `Alone`.
    Mark(char, bool),
    ClosingBrace,
    Other,
}

/// The gap between two printed tokens.
#[derive(Clone, Copy)]
pub(crate) enum Gap {
    Nothing,
    Space,
    Line,
}

#[inline(always)]
pub(crate) fn leaf_edge(leaf: LeafRef<'_>) -> Edge
    ensures { result ≡ leaf_edge (leaf_lent leaf.entry) }
{
    match leaf {
        LeafRef::Punct(punct) => Edge::Mark(punct.char, punct.spacing != Spacing::Alone),
        _ => Edge::Other,
    }
}

pub(crate) fn closing_edge(kind: DelimiterKind) -> Edge
    ensures { result ≡ closing_edge kind }
{
    match kind {
        DelimiterKind::Brace => Edge::ClosingBrace,
        _ => Edge::Other,
    }
}

/// Whether a line ends after the token, outside all groups.
#[inline(always)]
pub(crate) fn ends_line(edge: Edge) -> bool
    ensures { result ≡ ends_line edge }
{
    match edge {
        Edge::Mark(char, _) => char == ';',
        Edge::ClosingBrace => true,
        Edge::Other => false,
    }
}

// Whether two puncts side by side would begin a comment.
fn is_comment(first: char, second: char) -> bool
    ensures { result ≡ is_comment first second }
{
    (first == '/' && second == '/') || (first == '/' && second == '*')
}

// Whether two tokens on one line have nothing between them.
#[inline(always)]
fn are_joined(last: Edge, next: Edge) -> bool
    ensures { result ≡ are_joined last next }
{
    match (last, next) {
        (Edge::Mark(first, is_joined), Edge::Mark(second, _)) => {
            first == '\'' || (is_joined && (second != '\'' && !is_comment(first, second)))
        }
        (Edge::Mark(first, _), _) => first == '\'',
        _ => false,
    }
}

/// The gap between two tokens, where `depth` groups are open after the first.
#[inline(always)]
pub(crate) fn gap_between(depth: usize, last: Edge, next: Edge) -> Gap
    ensures { gap_text result ≡ gap_between depth last next }
{
    if depth == 0 && ends_line(last) {
        return Gap::Line;
    }
    if are_joined(last, next) {
        Gap::Nothing
    } else {
        Gap::Space
    }
}

/// Whether the gap after the token does not depend on what follows, outside all groups.
pub(crate) fn has_one_gap(edge: Edge) -> bool
    ensures { result ≡ has_one_gap edge }
{
    match edge {
        Edge::Mark(char, is_joined) => char == ';' || (char != '\'' && !is_joined),
        Edge::ClosingBrace | Edge::Other => true,
    }
}

/// The text of the gap after such a token.
pub(crate) fn gap_outside(edge: Edge) -> &'static str
    ensures { result.now ≡ gap_outside edge }
{
    if ends_line(edge) { "\n" } else { " " }
}

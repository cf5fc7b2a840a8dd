//! Transcribes the trees of a fragment.
ghost use Rattle.std.specs.Prelude.{◌≡◌, ◌&&◌, not, Err, IfErr, IfSome, OnOk};
ghost use Rattle.tt_data.specs.Forest.{empty, leaf};
ghost use Rattle.tt_data.specs.Lent.{leaf_lent};
ghost use Rattle.tt_data.specs.declared.span.Span.{Span};
ghost use Rattle.mbe_rules.specs.declared.parser.MetaVarKind.{MetaVarKind};
ghost use Rattle.tt.specs.Building.{extended, is_invisible, last_alone};
ghost use Rattle.tt.specs.Views.{forest};
ghost use Rattle.mbe_transcriber.specs.Filling.{stands_alone, in_parentheses, begins_generics};
ghost use Rattle.mbe_transcriber.specs.Filling.{punct_at, colons, with_colons, put_in};
ghost use Rattle.mbe_transcriber.specs.Room.{IsWantOfRoom, LacksRoom};
ghost use Rattle.mbe_transcriber.specs.Putting.{begins_ident, before_more};

use mbe_rules::MetaVarKind;
use tt::{
    DelimiterKind, Leaf, LeafRef, Punct, Spacing, Span, TokenTreesView, TopSubtreeBuilder,
    TtElement, TtFault, TtIter,
};

fn is_seen(kind: DelimiterKind) -> bool
    ensures { result ≡ not (is_invisible kind) }
{
    match kind {
        DelimiterKind::Invisible => false,
        _ => true,
    }
}

// Whether an expression needs no parentheses.
fn stands_alone(trees: TokenTreesView<'_>) -> bool
    ensures { result ≡ stands_alone (forest trees.entry) }
{
    let mut rest = trees.iter();
    match rest.next() {
        None => false,
        Some(TtElement::Subtree(subtree, _)) => match rest.next() {
            None => is_seen(subtree.delimiter.kind),
            Some(_) => false,
        },
        Some(TtElement::Leaf(first)) => match rest.next() {
            None => true,
            Some(TtElement::Leaf(Leaf::Literal(_))) => match rest.next() {
                None => matches!(first, Leaf::Punct(Punct { char: '-', .. })),
                Some(_) => false,
            },
            Some(_) => false,
        },
    }
}

// Appends trees. If the last is a punct it is made `Alone`.
fn put_alone(out: &mut TopSubtreeBuilder, trees: TokenTreesView<'_>) -> Result<(), TtFault>
    ensures faults { IfErr result IsWantOfRoom }
    ensures added { OnOk result (out.new.tree
        ≡ extended out.old.tree (last_alone (forest trees.entry))) }
    ensures tokens { result ≡ Err TtFault.Tokens →
        LacksRoom out.old.tree (last_alone (forest trees.entry)) }
{
    out.extend_with_tt_alone(trees)
}

// Appends an expression, in parentheses if it needs them.
fn put_expression(
    out: &mut TopSubtreeBuilder,
    trees: TokenTreesView<'_>,
    span: Span,
) -> Result<(), TtFault>
    ensures faults { IfErr result IsWantOfRoom }
    ensures added { OnOk result (out.new.tree
        ≡ extended out.old.tree (in_parentheses span (forest trees.entry))) }
    ensures tokens { result ≡ Err TtFault.Tokens →
        LacksRoom out.old.tree (in_parentheses span (forest trees.entry)) }
{
    if stands_alone(trees) {
        return put_alone(out, trees);
    }
    out.open(DelimiterKind::Parenthesis, span)?;
    put_alone(out, trees)?;
    let Ok(()) = out.close(span) else {
        unreachable!()
    };
    Ok(())
}

// One of the two colons of `::`.
fn colon(spacing: Spacing, span: Span) -> Leaf
    ensures { result ≡ punct_at 58 spacing span }
{
    Leaf::Punct(Punct {
        char: ':',
        spacing,
        span,
    })
}

// Appends `::`.
fn put_colons(out: &mut TopSubtreeBuilder, span: Span) -> Result<(), TtFault>
    ensures faults { IfErr result IsWantOfRoom }
    ensures added { OnOk result (out.new.tree ≡ extended out.old.tree (colons span empty)) }
    ensures tokens { result ≡ Err TtFault.Tokens → LacksRoom out.old.tree (colons span empty) }
{
    out.push(colon(Spacing::Joint, span))?;
    out.push(colon(Spacing::Alone, span))
}

fn begins_ident(trees: &TtIter<'_>) -> bool
    ensures { result ≡ begins_ident trees.now }
{
    match trees.peek() {
        Some(TtElement::Leaf(Leaf::Ident(_))) => true,
        _ => false,
    }
}

fn begins_generics(trees: &TtIter<'_>) -> bool
    ensures { result ≡ begins_generics trees.now }
{
    match trees.peek() {
        Some(TtElement::Leaf(Leaf::Punct(punct))) => punct.char == '<',
        _ => false,
    }
}

// Whether `::` is added between a tree of a path and the trees after it.
fn has_colons(tree: TokenTreesView<'_>, rest: &TtIter<'_>) -> bool
    ensures { result ≡ (begins_ident (forest tree.entry) && begins_generics rest.now) }
{
    begins_ident(&tree.iter()) && begins_generics(rest)
}

// Appends the next tree of a path, and `::` if it is added before the trees after it.
fn put_next(
    out: &mut TopSubtreeBuilder,
    tree: TokenTreesView<'_>,
    rest: &TtIter<'_>,
    span: Span,
) -> Result<(), TtFault>
    ensures faults { IfErr result IsWantOfRoom }
    ensures added { OnOk result (out.new.tree
        ≡ extended out.old.tree (before_more span (forest tree.entry) rest.now)) }
    ensures tokens { result ≡ Err TtFault.Tokens →
        LacksRoom out.old.tree (before_more span (forest tree.entry) rest.now) }
{
    out.extend_with_tt(tree)?;
    if has_colons(tree, rest) {
        return put_colons(out, span);
    }
    Ok(())
}

// Appends a path, with `::` added between an identifier and a `<` after it.
fn put_path(
    out: &mut TopSubtreeBuilder,
    trees: TokenTreesView<'_>,
    span: Span,
) -> Result<(), TtFault>
    ensures faults { IfErr result IsWantOfRoom }
    ensures added { OnOk result (out.new.tree
        ≡ extended out.old.tree (with_colons span (forest trees.entry))) }
    ensures tokens { result ≡ Err TtFault.Tokens →
        LacksRoom out.old.tree (with_colons span (forest trees.entry)) }
{
    let mut rest = trees.iter();
    while let Some(tree) = rest.next_as_view() {
        put_next(out, tree, &rest, span)?;
    }
    Ok(())
}

// The identifier or literal that these trees are, if they are one. It is transcribed as it is for
// a metavariable of any kind.
#[tactic(auto, using(crate::proofs::PuttingLemmas::a_word_put, crate::proofs::PuttingLemmas::a_literal_put))]
fn lone_leaf<'a>(trees: TokenTreesView<'a>) -> Option<LeafRef<'a>>
    ensures { (span : Span) (kind : MetaVarKind) →
        IfSome result (λ l. put_in span kind (forest trees.entry) ≡ leaf (leaf_lent l) empty) }
{
    let Some((first, rest)) = trees.iter().lent_leaf() else {
        return None;
    };
    if !rest.is_empty() {
        return None;
    }
    match first {
        LeafRef::Punct(_) => None,
        LeafRef::Ident(_) => Some(first),
        LeafRef::Literal(_) => Some(first),
    }
}

/// Transcribes the trees of a fragment for a metavariable; `span` is that of its `$`.
pub fn put_in(
    out: &mut TopSubtreeBuilder,
    kind: MetaVarKind,
    trees: TokenTreesView<'_>,
    span: Span,
) -> Result<(), TtFault>
    ensures faults { IfErr result IsWantOfRoom }
    ensures added { OnOk result (out.new.tree
        ≡ extended out.old.tree (put_in span kind (forest trees.entry))) }
    ensures tokens { result ≡ Err TtFault.Tokens →
        LacksRoom out.old.tree (put_in span kind (forest trees.entry)) }
{
    if let Some(leaf) = lone_leaf(trees) {
        return out.push(leaf.to_leaf());
    }
    match kind {
        MetaVarKind::Expr | MetaVarKind::Expr2021 => {
            put_expression(out, trees.strip_invisible(), span)
        }
        MetaVarKind::Path => put_path(out, trees, span),
        MetaVarKind::Ident | MetaVarKind::Tt | MetaVarKind::Lifetime | MetaVarKind::Literal => {
            put_alone(out, trees.strip_invisible())
        }
        _ => put_alone(out, trees),
    }
}

//! Cuts the top list of a text into its pieces.
ghost use Rattle.std.specs.Prelude.{◌≡◌, ◌≢◌, IfErr, IfOk, OnOk, true};
ghost use Rattle.tt.specs.Tops.{tokens_of};
ghost use Rattle.tt_data.specs.Forest.{Forest, empty, size};
ghost use Rattle.tt_data.specs.Lent.{leaf_lent};
ghost use Rattle.expander_model.specs.Pieces.{is_pound_bang, ends_piece, separated};
ghost use Rattle.bridge.specs.Text.{is_punct};
ghost use Rattle.tt.specs.Building.{alone};
ghost use Rattle.expander_model.specs.Splitting.{CutsOff, HasShape, PassesAlways, PassesTree};
ghost use Rattle.expander_model.specs.Splitting.{end_alone, put_all};

use std::alloc::{AllocError, Global};
use tt::{TopSubtree, TtElement, TtIter};
use tt_data::{Delimiter, DelimiterKind, Leaf, LeafRef, Punct, Spacing, TtFault};

// Whether these are exactly `#` and `!`.
fn is_pound_bang(begun: &TtIter<'_>) -> bool
    ensures { result ≡ is_pound_bang begun.now }
{
    let Some((pound, after_pound)) = begun.first_punct() else {
        return false;
    };
    let Some((bang, rest)) = after_pound.first_punct() else {
        return false;
    };
    pound.char == '#' && bang.char == '!' && rest.is_empty()
}

fn ends_piece(begun: &TtIter<'_>, brackets: Delimiter) -> bool
    ensures { result ≡ ends_piece begun.now brackets }
{
    match brackets.kind {
        DelimiterKind::Brace => true,
        DelimiterKind::Bracket => is_pound_bang(begun),
        DelimiterKind::Parenthesis | DelimiterKind::Invisible => false,
    }
}

// Whether the leaf is a `;`.
pub(crate) fn ends_statement(leaf: LeafRef<'_>) -> bool
    ensures { result ≡ is_punct ";" (leaf_lent leaf.entry) }
{
    match leaf {
        LeafRef::Punct(punct) => punct.char == ';',
        _ => false,
    }
}

/// A punct with spacing `Alone`, or another leaf as it is.
pub(crate) fn alone(leaf: Leaf) -> Leaf
    ensures { result ≡ alone leaf }
{
    match leaf {
        Leaf::Punct(punct) => Leaf::Punct(Punct {
            spacing: Spacing::Alone,
            ..punct
        }),
        other => other,
    }
}

// A `;` with spacing `Alone`, or `None` for another leaf.
fn end_alone(leaf: Leaf) -> Option<Leaf>
    ensures { result ≡ end_alone leaf }
{
    if ends_statement(leaf.lent()) {
        Some(alone(leaf))
    } else {
        None
    }
}

/// A leaf, and the index among a tree's tokens at which it is set. The tree's own head counts.
#[derive(Drop)]
pub(crate) struct Put {
    at: usize,
    leaf: Leaf,
}

// Each `;` of the tree's top list, with spacing `Alone`.
fn ends_alone(alloc: Global, tree: &TopSubtree) -> Result<Vec<Put>, AllocError>
    ensures { IfOk result (λ puts. put_all puts.items (tokens_of tree.now)
        ≡ tokens_of (record tree.now { inner = separated tree.now.inner })) }
{
    let mut puts = Vec::new(alloc);
    let mut rest = tree.token_trees().iter();
    let most = rest.remaining().len();
    while let Some(element) = rest.next() {
        if let TtElement::Leaf(leaf) = element {
            if let Some(leaf) = end_alone(leaf) {
                let at = most - rest.remaining().len();
                puts.push(Put { at, leaf })?;
            }
        }
    }
    Ok(puts)
}

/// Makes each `;` of the tree's top list `Alone`, in place: nothing is glued to what ends a piece.
pub fn set_apart(alloc: Global, tree: &mut TopSubtree) -> Result<(), TtFault>
    ensures apart { OnOk result (tree.new.inner ≡ separated tree.old.inner) }
    ensures top { OnOk result (tree.new.delimiter ≡ tree.old.delimiter) }
    ensures faults { IfErr result (λ fault. fault ≢ TtFault.Tokens) }
{
    let mut puts = ends_alone(alloc, tree)?;
    while let Some(put) = puts.pop() {
        tree.set_token(alloc, put.at, put.leaf)?;
    }
    Ok(())
}

// Passes the next tree, and answers whether it ends the piece begun. `None` if there is no tree.
fn pass_tree<'a>(rest: &mut TtIter<'a>, begun: &TtIter<'_>) -> Option<bool>
    ensures next { PassesTree begun.now rest.old rest.new result }
    ensures always { PassesAlways begun.now rest.old rest.new result }
{
    if let Some((leaf, behind)) = rest.lent_leaf() {
        *rest = behind;
        return Some(ends_statement(leaf));
    }
    let (brackets, _inside, behind) = rest.first_group()?;
    *rest = behind;
    Some(ends_piece(begun, brackets))
}

/// The next piece, or `None` at the end. The iterator goes on after the piece.
pub fn next_piece<'a>(rest: &mut TtIter<'a>) -> Option<TtIter<'a>>
    ensures { CutsOff rest.old rest.new result }
{
    if rest.is_empty() {
        return None;
    }
    let start = rest.remaining();
    loop {
        let begun = rest.passed_since(start).iter();
        match pass_tree(rest, &begun) {
            None => return Some(begun),
            Some(true) => return Some(rest.passed_since(start).iter()),
            Some(false) => {}
        }
    }
}

/// How many pieces some trees are.
#[derive(Drop)]
pub enum Shape {
    /// One whole piece, wherever they are and whatever follows.
    Whole,
    /// One piece that nothing ends: the last of a text.
    Open,
    /// No piece, or more than one.
    Other,
}

/// Whether these trees are one whole piece, one open one, or neither.
pub fn shape_of(piece: &TtIter<'_>) -> Shape
    ensures { HasShape piece.now result }
{
    let mut rest = piece.copied();
    let start = rest.remaining();
    loop {
        let begun = rest.passed_since(start).iter();
        match pass_tree(&mut rest, &begun) {
            None if piece.is_empty() => return Shape::Other,
            None => return Shape::Open,
            Some(true) if rest.is_empty() => return Shape::Whole,
            Some(true) => return Shape::Other,
            Some(false) => {}
        }
    }
}

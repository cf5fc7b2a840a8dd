//! Takes trees with piece-relative spans to their place in a text.
ghost use Rattle.std.specs.Prelude.{◌≡◌, ◌+◌, ◌∷◌, IfOk, IsOkUnless, map};
ghost use Rattle.bridge.specs.ReadText.{text_top};
ghost use Rattle.bridge.specs.RelativeSpans.{moved_to};
ghost use Rattle.tt_data.specs.Forest.{map_spans, preorder};
ghost use Rattle.tt_data.specs.Spans.{leaf_with, token_with};
ghost use Rattle.tt_data.specs.declared.tree.TokenTree.TheVariants as token;
ghost use Rattle.tt_data.specs.fault.TtFault.TheVariants as fault;

use bridge::parts::Place;
use std::alloc::{AllocError, Global};
use tt::{TopSubtree, TtIter};
use tt_data::{
    Delimiter, Ident, Leaf, Punct, Span, Subtree, SyntaxContext, TextRange, TokenTree, TtFault,
    laws,
};

// An offset counted from a place, as one of its text.
fn moved_offset(place: Place, offset: u32) -> Result<u32, AllocError>
    ensures { IfOk result (λ n. n ≡ place.start + offset) }
{
    place.start.checked_add(offset).ok_or(AllocError)
}

// A span counted from a place, as one of its text.
fn moved_span(place: Place, span: Span) -> Result<Span, AllocError>
    ensures { IfOk result (λ s. s ≡ moved_to place span) }
{
    Ok(Span {
        range: TextRange {
            start: moved_offset(place, span.range.start)?,
            end: moved_offset(place, span.range.end)?,
        },
        anchor: place.text,
        ctx: span.ctx,
    })
}

// A leaf with its span so.
fn moved_leaf(place: Place, leaf: Leaf) -> Result<Leaf, AllocError>
    ensures { IfOk result (λ l. l ≡ leaf_with (moved_to place) leaf) }
{
    let span = moved_span(place, leaf.span())?;
    match leaf {
        Leaf::Literal(literal) => Ok(Leaf::Literal(literal.with_span(span))),
        Leaf::Punct(punct) => Ok(Leaf::Punct(Punct { span, ..punct })),
        Leaf::Ident(ident) => Ok(Leaf::Ident(Ident { span, ..ident })),
    }
}

// A token with its spans so.
fn moved_token(place: Place, token: TokenTree) -> Result<TokenTree, AllocError>
    ensures { IfOk result (λ t. t ≡ token_with (moved_to place) token) }
{
    match token {
        TokenTree::Leaf(leaf) => Ok(TokenTree::Leaf(moved_leaf(place, leaf)?)),
        TokenTree::Subtree(Subtree { delimiter, len }) => {
            let delimiter = Delimiter {
                open_span: moved_span(place, delimiter.open_span)?,
                close_span: moved_span(place, delimiter.close_span)?,
                kind: delimiter.kind,
            };
            Ok(TokenTree::Subtree(Subtree { delimiter, len }))
        }
    }
}

/// The top of a tree: no brackets, at the start of a text.
pub(crate) fn text_top() -> Delimiter
    ensures { result ≡ text_top }
{
    Delimiter::invisible_spanned(Span {
        range: TextRange { start: 0, end: 0 },
        anchor: 0,
        ctx: SyntaxContext::Written,
    })
}

// The tokens of a tree of these trees, with their spans so.
fn moved_tokens(
    alloc: Global,
    place: Place,
    len: u32,
    trees: &TtIter<'_>,
) -> Result<Vec<TokenTree>, AllocError>
    ensures { IfOk result (λ tokens. tokens.items
        ≡ token.Subtree (record { delimiter = text_top; len = len })
        ∷ map (token_with (moved_to place)) (preorder trees.now)) }
{
    let rest = trees.remaining();
    let mut tokens = Vec::with_capacity(alloc, rest.len().saturating_add(1))?;
    let delimiter = text_top();
    tokens.push(TokenTree::Subtree(Subtree { delimiter, len }))?;
    for token in rest.iter_flat_tokens() {
        tokens.push(moved_token(place, token)?)?;
    }
    Ok(tokens)
}

/// These trees, whose spans are counted from a place, with the spans of its text. Out of memory is
/// its only error.
pub(crate) fn moved_tree(
    alloc: Global,
    place: Place,
    trees: &TtIter<'_>,
) -> Result<TopSubtree, TtFault>
    ensures tree { IfOk result (λ t. t.inner ≡ map_spans (moved_to place) trees.now) }
    ensures memory { IsOkUnless result fault.Memory }
{
    let Ok(len) = u32::try_from(trees.remaining().len()) else {
        return Err(TtFault::Memory);
    };
    laws::tokens_of_a_forest();
    laws::spans_mapped();
    let tokens = moved_tokens(alloc, place, len, trees)?;
    match TopSubtree::from_serialized(alloc, tokens) {
        Ok(tree) => Ok(tree),
        Err(_) => Err(TtFault::Memory),
    }
}

//! Copies a piece into a tree of its own, with spans that count from the piece's first token.
ghost use Rattle.std.specs.Prelude.{◌≡◌, ◌∷◌, IfOk, IsOkUnless, List, map};
ghost use Rattle.tt.specs.Tops.{Top};
ghost use Rattle.tt_data.specs.Forest.{preorder, size};
ghost use Rattle.tt_data.specs.Spans.{leaf_with, span_of, token_with};
ghost use Rattle.tt_data.specs.declared.span.Span.{Span};
ghost use Rattle.tt_data.specs.declared.tree.TokenTree.TheVariants as token;
ghost use Rattle.tt_data.specs.fault.TtFault.TheVariants as fault;
ghost use Rattle.bridge.specs.ReadText.{text_top};
ghost use Rattle.expander_model.specs.Pieces.{first_start, moved_back, relative};

use std::alloc::{AllocError, Global};
use tt::{TopSubtree, TtIter};
use tt_data::{
    Delimiter, Ident, Leaf, Punct, Span, Subtree, SyntaxContext, TextRange, TokenTree, TtFault,
    laws,
};

/// The leaf with this span.
pub(crate) fn leaf_at(leaf: Leaf, span: Span) -> Leaf
    ensures { (f : Span → Span) → span ≡ f (span_of leaf) → result ≡ leaf_with f leaf }
{
    match leaf {
        Leaf::Literal(literal) => Leaf::Literal(literal.with_span(span)),
        Leaf::Punct(punct) => Leaf::Punct(Punct { span, ..punct }),
        Leaf::Ident(ident) => Leaf::Ident(Ident { span, ..ident }),
    }
}

// The span counted from offset `from`.
fn moved_back(from: u32, span: Span) -> Span
    ensures { result ≡ moved_back from span }
{
    let start = span.range.start.saturating_sub(from);
    let end = span.range.end.saturating_sub(from);
    Span {
        range: TextRange { start, end },
        ..span
    }
}

// The token with its spans counted from offset `from`.
fn token_from(from: u32, token: TokenTree) -> TokenTree
    ensures { result ≡ token_with (moved_back from) token }
{
    match token {
        TokenTree::Leaf(leaf) => {
            let span = moved_back(from, leaf.span());
            TokenTree::Leaf(leaf_at(leaf, span))
        }
        TokenTree::Subtree(Subtree { delimiter, len }) => {
            let delimiter = Delimiter {
                open_span: moved_back(from, delimiter.open_span),
                close_span: moved_back(from, delimiter.close_span),
                kind: delimiter.kind,
            };
            TokenTree::Subtree(Subtree { delimiter, len })
        }
    }
}

/// The offset at which the first token of a piece starts.
pub fn start_of(piece: &TtIter<'_>) -> u32
    ensures { result ≡ first_start piece.now }
{
    match piece.next_span() {
        Some(span) => span.range.start,
        None => 0,
    }
}

// The top of a tree: no brackets, at the start of a text.
fn text_top() -> Delimiter
    ensures { result ≡ text_top }
{
    Delimiter::invisible_spanned(Span {
        range: TextRange { start: 0, end: 0 },
        anchor: 0,
        ctx: SyntaxContext::Written,
    })
}

// The tokens of a tree of these trees, with their spans counted from offset `from`.
fn tokens_from(
    alloc: Global,
    from: u32,
    len: u32,
    piece: &TtIter<'_>,
) -> Result<Vec<TokenTree>, AllocError>
    ensures { IfOk result (λ tokens. tokens.items
        ≡ token.Subtree (record { delimiter = text_top; len = len })
        ∷ map (token_with (moved_back from)) (preorder piece.now)) }
{
    let rest = piece.remaining();
    let mut tokens = Vec::with_capacity(alloc, rest.len().saturating_add(1))?;
    let delimiter = text_top();
    tokens.push(TokenTree::Subtree(Subtree { delimiter, len }))?;
    for token in rest.iter_flat_tokens() {
        tokens.push(token_from(from, token))?;
    }
    Ok(tokens)
}

/// A piece as a tree with piece-relative spans. It is a part of a tree, so it has no more tokens
/// than a tree may have.
pub fn own_tree(alloc: Global, piece: &TtIter<'_>) -> Result<TopSubtree, TtFault>
    ensures tree { IfOk result (λ t. t
        ≡ record { delimiter = text_top; inner = relative piece.now }) }
    ensures memory { IsOkUnless result fault.Memory }
{
    let Ok(len) = u32::try_from(piece.remaining().len()) else {
        return Err(TtFault::Memory);
    };
    laws::tokens_of_a_forest();
    laws::spans_mapped();
    let tokens = tokens_from(alloc, start_of(piece), len, piece)?;
    match TopSubtree::from_serialized(alloc, tokens) {
        Ok(tree) => Ok(tree),
        Err(_) => Err(TtFault::Memory),
    }
}

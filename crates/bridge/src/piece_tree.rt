//! Cuts a piece out of a text's trees, as a tree with piece-relative spans.
ghost use Rattle.std.specs.Prelude.{◌≡◌, ◌≢◌, ◌↔◌, ◌⊎◌, ◌<◌, [], false, Err, IfOk, IfErr};
ghost use Rattle.std.specs.Prelude.{IsOkUnless};
ghost use Rattle.bridge.specs.PieceTokens.{alone_token, ends_in_leaf, last_token_alone};
ghost use Rattle.bridge.specs.Pieces.{IsFrom, StandsBehindFirst, StandsFrom, first_start};
ghost use Rattle.bridge.specs.Pieces.{moved_back, piece_of, relative};
ghost use Rattle.bridge.specs.ReadText.{text_top};
ghost use Rattle.tt.specs.Building.{most_tokens};
ghost use Rattle.tt.specs.Tops.{Top, tokens_of};
ghost use Rattle.tt.specs.Views.{forest};
ghost use Rattle.tt_data.specs.Forest.{head_of, size};
ghost use Rattle.tt_data.specs.Spans.{delimiter_with, leaf_with, span_of, token_with};
ghost use Rattle.tt_data.specs.fault.TtFault.TheVariants as fault;

use crate::reading::leaf::written_at;
use std::alloc::Global;
use tt::{TokenTreesView, TopSubtree, TtElement};
use tt_data::{
    Delimiter, Ident, Leaf, Punct, Spacing, Span, Subtree, TextRange, TokenTree, TtFault, laws,
};

// The offset at which the first token starts.
fn first_start(view: TokenTreesView<'_>) -> u32
    ensures { result ≡ first_start (forest view.entry) }
{
    match view.first_span() {
        Some(span) => span.range.start,
        None => 0,
    }
}

// The span counted from offset `start`.
fn moved_back(start: u32, span: Span) -> Span
    requires { IsFrom start span }
    ensures { result ≡ moved_back start span }
{
    Span {
        range: TextRange {
            start: span.range.start - start,
            end: span.range.end - start,
        },
        anchor: span.anchor,
        ctx: span.ctx,
    }
}

fn moved_leaf(start: u32, leaf: Leaf) -> Leaf
    requires { IsFrom start (span_of leaf) }
    ensures { result ≡ leaf_with (moved_back start) leaf }
{
    let span = moved_back(start, leaf.span());
    match leaf {
        Leaf::Literal(literal) => Leaf::Literal(literal.with_span(span)),
        Leaf::Punct(punct) => Leaf::Punct(Punct { span, ..punct }),
        Leaf::Ident(ident) => Leaf::Ident(Ident { span, ..ident }),
    }
}

fn moved_delimiter(start: u32, delimiter: Delimiter) -> Delimiter
    requires opening { IsFrom start delimiter.open_span }
    requires closing { IsFrom start delimiter.close_span }
    ensures { result ≡ delimiter_with (moved_back start) delimiter }
{
    Delimiter {
        open_span: moved_back(start, delimiter.open_span),
        close_span: moved_back(start, delimiter.close_span),
        kind: delimiter.kind,
    }
}

fn moved_token(start: u32, token: TokenTree) -> TokenTree
    requires { StandsFrom start token }
    ensures { result ≡ token_with (moved_back start) token }
{
    match token {
        TokenTree::Leaf(leaf) => TokenTree::Leaf(moved_leaf(start, leaf)),
        TokenTree::Subtree(subtree) => TokenTree::Subtree(Subtree {
            delimiter: moved_delimiter(start, subtree.delimiter),
            len: subtree.len,
        }),
    }
}

// The head of a tree with `len` tokens inside.
fn head(len: u32) -> TokenTree
    ensures { result ≡ head_of text_top len }
{
    let start_of_text = written_at(TextRange { start: 0, end: 0 });
    let delimiter = Delimiter::invisible_spanned(start_of_text);
    TokenTree::Subtree(Subtree { delimiter, len })
}

// The tokens of the tree that has these trees inside, with spans counted from the first token.
fn moved_tokens(alloc: Global, view: TokenTreesView<'_>) -> Result<Vec<TokenTree>, TtFault>
    requires { StandsBehindFirst (forest view) }
    ensures ok { IfOk result (λ tokens. tokens.items
        ≡ tokens_of (record { delimiter = text_top; inner = relative (forest view.entry) })) }
    ensures tokens { (result ≡ Err fault.Tokens) ↔ (most_tokens < size (forest view.entry)) }
    ensures faults { IfErr result (λ e. (e ≡ fault.Memory) ⊎ (e ≡ fault.Tokens)) }
{
    let Ok(len) = u32::try_from(view.len()) else {
        return Err(TtFault::Tokens);
    };
    laws::spans_mapped();
    let start = first_start(view);
    let mut tokens = Vec::new(alloc);
    let Ok(()) = tokens.push(head(len)) else {
        return Err(TtFault::Memory);
    };
    for token in view.iter_flat_tokens() {
        let Ok(()) = tokens.push(moved_token(start, token)) else {
            return Err(TtFault::Memory);
        };
    }
    Ok(tokens)
}

// Whether the last of the trees is a leaf.
fn ends_in_leaf(view: TokenTreesView<'_>) -> bool
    ensures { result ≡ ends_in_leaf false (forest view.entry) }
{
    let mut is_leaf = false;
    for tree in view.iter() {
        is_leaf = matches!(tree, TtElement::Leaf(_));
    }
    is_leaf
}

// Makes a punct `Alone`.
fn set_alone(token: &mut TokenTree)
    ensures { token.new ≡ alone_token token.old }
{
    if let TokenTree::Leaf(leaf) = token {
        if let Leaf::Punct(punct) = leaf {
            punct.spacing = Spacing::Alone;
        }
    }
}

// Makes the last token `Alone`, if it is a punct.
fn set_last_alone(tokens: &mut Vec<TokenTree>)
    requires { tokens.old.items ≢ [] }
    ensures { tokens.new.items ≡ last_token_alone tokens.old.items }
{
    let last = tokens.len() - 1;
    set_alone(&mut tokens[last]);
}

// The tree whose tokens these are.
fn whole(alloc: Global, tokens: Vec<TokenTree>) -> Result<TopSubtree, TtFault>
    ensures ok { IfOk result (λ t. (u : Top) → tokens_of u ≡ tokens.items → t ≡ u) }
    ensures memory { (u : Top) → tokens_of u ≡ tokens.items → IsOkUnless result fault.Memory }
{
    match TopSubtree::from_serialized(alloc, tokens) {
        Ok(tree) => Ok(tree),
        Err((_, fault)) => Err(fault),
    }
}

/// These trees as a piece: a tree with invisible delimiters, whose ranges count from the start of
/// the first token. Anchors and contexts stay; a punct that is the last tree is made `Alone`. No
/// range starts or ends before that start.
///
/// It refuses `Tokens` exactly where the trees have more than `u32::MAX` tokens; its one other
/// error is `Memory`.
pub fn piece(alloc: Global, view: TokenTreesView<'_>) -> Result<TopSubtree, TtFault>
    requires { StandsBehindFirst (forest view) }
    ensures ok { IfOk result (λ t. t ≡ piece_of (forest view.entry)) }
    ensures tokens { (result ≡ Err fault.Tokens) ↔ (most_tokens < size (forest view.entry)) }
    ensures faults { IfErr result (λ e. (e ≡ fault.Memory) ⊎ (e ≡ fault.Tokens)) }
{
    let mut tokens = moved_tokens(alloc, view)?;
    if ends_in_leaf(view) {
        set_last_alone(&mut tokens);
    }
    whole(alloc, tokens)
}

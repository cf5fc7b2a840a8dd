//! Writes the records of tokens.
ghost use Rattle.std.specs.Prelude.{◌≡◌, ◌∷◌, ◌++◌, [], OnOk, OnErr};
ghost use Rattle.token_bytes.specs.Records.{context_byte, group_tag, hashes, ident_tag, leaf_bytes};
ghost use Rattle.token_bytes.specs.Records.{literal_tag, punct_tag, span_bytes, token_bytes, word};
ghost use Rattle.token_bytes.specs.Packed.{IsToken};
ghost use Rattle.std.specs.Char.{IsScalar};
ghost use Rattle.tt_data.specs.declared.leaf.Leaf.TheVariants as as_leaf;
ghost use Rattle.tt_data.specs.declared.tree.TokenTree.TheVariants as token;

use byte_buffer::ByteBuffer;
use std::alloc::AllocError;
use tt_data::{
    DelimiterKind, Ident, IdentIsRaw, Leaf, LitKind, Literal, Punct, Spacing, Span, Subtree,
    SyntaxContext, TokenTree,
};

// The four bytes of a number, the least first.
#[tactic(auto, using(crate::proofs::RecordLemmas::word_bytes))]
fn word(number: u32) -> [u8; 4]
    ensures { result ≡ word number }
{
    number.to_le_bytes()
}

fn context_byte(ctx: SyntaxContext) -> u8
    ensures { result ≡ context_byte ctx }
{
    match ctx {
        SyntaxContext::Written => 0,
        SyntaxContext::Made => 1,
    }
}

/// The bytes of a span.
pub(crate) fn span_bytes(span: Span) -> [u8; 13]
    ensures { result ≡ span_bytes span }
{
    let [a, b, c, d] = word(span.range.start);
    let [e, f, g, h] = word(span.range.end);
    let [i, j, k, l] = word(span.anchor);
    [a, b, c, d, e, f, g, h, i, j, k, l, context_byte(span.ctx)]
}

fn group_tag(kind: DelimiterKind) -> u8
    ensures { result ≡ group_tag kind }
{
    match kind {
        DelimiterKind::Parenthesis => 0,
        DelimiterKind::Brace => 1,
        DelimiterKind::Bracket => 2,
        DelimiterKind::Invisible => 3,
    }
}

fn punct_tag(spacing: Spacing) -> u8
    ensures { result ≡ punct_tag spacing }
{
    match spacing {
        Spacing::Alone => 4,
        Spacing::Joint => 5,
        Spacing::JointHidden => 6,
    }
}

fn ident_tag(is_raw: IdentIsRaw) -> u8
    ensures { result ≡ ident_tag is_raw }
{
    match is_raw {
        IdentIsRaw::No => 7,
        IdentIsRaw::Yes => 8,
    }
}

// The tag of a literal of this form, and its hashes.
fn form_bytes(form: LitKind) -> (u8, u8)
    ensures tag { result.0 ≡ literal_tag form }
    ensures hashes { result.1 ≡ hashes form }
{
    match form {
        LitKind::Byte => (9, 0),
        LitKind::Char => (10, 0),
        LitKind::Integer => (11, 0),
        LitKind::Float => (12, 0),
        LitKind::Str => (13, 0),
        LitKind::StrRaw(n) => (14, n),
        LitKind::ByteStr => (15, 0),
        LitKind::ByteStrRaw(n) => (16, n),
        LitKind::CStr => (17, 0),
        LitKind::CStrRaw(n) => (18, n),
        LitKind::StrGuarded(n) => (19, n),
        LitKind::Err(()) => (20, 0),
    }
}

// A record of a span and one number.
fn record_18(tag: u8, span: Span, last: u32) -> [u8; 18]
    ensures { result ≡ tag ∷ (span_bytes span ++ word last) }
{
    let [a, b, c, d, e, f, g, h, i, j, k, l, m] = span_bytes(span);
    let [w, x, y, z] = word(last);
    [tag, a, b, c, d, e, f, g, h, i, j, k, l, m, w, x, y, z]
}

// The record of a punct.
fn punct_bytes(punct: &Punct) -> [u8; 18]
    ensures bytes { result ≡ leaf_bytes 0 (as_leaf.Punct punct.now) }
    ensures token { IsScalar punct.now.char }
{
    let tag = punct_tag(punct.spacing);
    record_18(tag, punct.span, u32::from(punct.char))
}

// The record of an identifier with this number.
fn ident_bytes(number: u32, ident: &Ident) -> [u8; 18]
    ensures { result ≡ leaf_bytes number (as_leaf.Ident ident.now) }
{
    record_18(ident_tag(ident.is_raw), ident.span, number)
}

// The record of a literal with this number.
fn literal_bytes(number: u32, literal: &Literal) -> [u8; 23]
    ensures bytes { result ≡ leaf_bytes number (as_leaf.Literal literal.now) }
    ensures token { IsToken (token.Leaf (as_leaf.Literal literal.now)) }
{
    let (tag, hashes) = form_bytes(literal.kind());
    let [a, b, c, d, e, f, g, h, i, j, k, l, m] = span_bytes(literal.span());
    let [n, o, p, q] = word(number);
    let [w, x, y, z] = word(literal.suffix_len());
    [
        tag, a, b, c, d, e, f, g, h, i, j, k, l, m, n, o, p, q, w, x, y, z, hashes,
    ]
}

/// The record of the head of a group.
pub(crate) fn head_bytes(head: &Subtree) -> [u8; 31]
    ensures { result ≡ token_bytes 0 (token.Subtree head.now) }
{
    let mut record = [0; 31];
    let (tag, rest) = record.split_at_mut(1);
    let (open, rest) = rest.split_at_mut(13);
    let (close, len) = rest.split_at_mut(13);
    tag[0] = group_tag(head.delimiter.kind);
    open.copy_from_slice(&span_bytes(head.delimiter.open_span));
    close.copy_from_slice(&span_bytes(head.delimiter.close_span));
    len.copy_from_slice(&word(head.len));
    record
}

// Appends the record of the head of a group. That it and those below are never inlined decides
// speed alone. A refused call changes nothing.
#[inline(never)]
fn append_head(buffer: &mut ByteBuffer, head: &Subtree) -> Result<(), AllocError>
    ensures ok { OnOk result (buffer.new ≡ buffer.old ++ token_bytes 0 (token.Subtree head.now)) }
    ensures err { OnErr result (buffer.new ≡ buffer.old) }
{
    buffer.append_array(head_bytes(head))
}

// Appends the record of a punct.
#[inline(never)]
fn append_punct(buffer: &mut ByteBuffer, punct: &Punct) -> Result<(), AllocError>
    ensures ok { OnOk result (buffer.new ≡ buffer.old ++ leaf_bytes 0 (as_leaf.Punct punct.now)) }
    ensures err { OnErr result (buffer.new ≡ buffer.old) }
    ensures token { IsScalar punct.now.char }
{
    buffer.append_array(punct_bytes(punct))
}

// Appends the record of an identifier with this number.
#[inline(never)]
fn append_ident(buffer: &mut ByteBuffer, ident: &Ident, number: u32) -> Result<(), AllocError>
    ensures ok { OnOk result (buffer.new
        ≡ buffer.old ++ leaf_bytes number (as_leaf.Ident ident.now)) }
    ensures err { OnErr result (buffer.new ≡ buffer.old) }
{
    buffer.append_array(ident_bytes(number, ident))
}

// Appends the record of a literal with this number.
#[inline(never)]
fn append_literal(buffer: &mut ByteBuffer, literal: &Literal, number: u32) -> Result<(), AllocError>
    ensures ok { OnOk result (buffer.new
        ≡ buffer.old ++ leaf_bytes number (as_leaf.Literal literal.now)) }
    ensures err { OnErr result (buffer.new ≡ buffer.old) }
    ensures token { IsToken (token.Leaf (as_leaf.Literal literal.now)) }
{
    buffer.append_array(literal_bytes(number, literal))
}

/// Appends the record of a token, the text of which is the entry with this number. The number of
/// a token without a text has no effect.
///
/// # Errors
///
/// Want of memory. The bytes then stay the same.
#[inline(always)]
pub(crate) fn append_token(
    buffer: &mut ByteBuffer,
    token: &TokenTree,
    number: u32,
) -> Result<(), AllocError>
    ensures ok { OnOk result (buffer.new ≡ buffer.old ++ token_bytes number token.now) }
    ensures err { OnErr result (buffer.new ≡ buffer.old) }
    ensures token { IsToken token.now }
{
    match token {
        TokenTree::Subtree(head) => append_head(buffer, head),
        TokenTree::Leaf(Leaf::Literal(literal)) => append_literal(buffer, literal, number),
        TokenTree::Leaf(Leaf::Punct(punct)) => append_punct(buffer, punct),
        TokenTree::Leaf(Leaf::Ident(ident)) => append_ident(buffer, ident, number),
    }
}

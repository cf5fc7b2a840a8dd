//! Reads the records of tokens.
ghost use Rattle.std.specs.Prelude.{◌≡◌, [], ◌+◌, ◌-◌, ◌<◌, ◌≤◌, length, drop, option_map};
ghost use Rattle.tt_data.specs.Lent.{ident_lent, leaf_lent, literal_lent};
ghost use Rattle.tt_data.specs.Spans.{first_span_of};
ghost use Rattle.tt_data.specs.declared.leaf.Leaf.TheVariants as as_leaf;
ghost use Rattle.tt_data.specs.declared.tree.TokenTree.TheVariants as token;
ghost use Rattle.token_bytes.specs.TokenLists.{as_head};
ghost use Rattle.token_bytes.specs.Leaves.{ident_of, kind_of, leaf_of, punct_of};
ghost use Rattle.token_bytes.specs.Records.{BeginsWithToken, Decodes, entry_in, first_size};
ghost use Rattle.token_bytes.specs.Records.{first_token, form_of, number, of_group, of_ident};
ghost use Rattle.token_bytes.specs.Records.{of_literal, of_punct, size_of, sort_of, span_in};
ghost use Rattle.token_bytes.specs.Records.{token_by};
ghost use Rattle.token_bytes.specs.Marks.{texts_in};

use tt_data::{
    Delimiter, DelimiterKind, IdentIsRaw, IdentRef, LeafRef, LitKind, LiteralRef, Punct, Spacing,
    Span, Subtree, Symbol, SyntaxContext, TextRange,
};

/// The bytes from the index `count` on.
#[inline(always)]
pub(crate) fn from(bytes: &[u8], count: usize) -> &[u8]
    requires { count ≤ length bytes.now }
    ensures bytes { result.now ≡ drop count bytes.now }
    ensures left { length result.now ≡ length bytes.now - count }
{
    bytes.split_at(count).1
}

// The number in the first four bytes.
#[inline(always)]
fn number_in(bytes: &[u8]) -> u32
    requires { 4 ≤ length bytes.now }
    ensures { result ≡ number bytes.now }
{
    let [a, b, c, d, ..] = bytes else {
        unreachable!()
    };
    u32::from_le_bytes([*a, *b, *c, *d])
}

/// The span in the first thirteen bytes.
#[inline(always)]
pub(crate) fn span_in(bytes: &[u8]) -> Span
    requires { 13 ≤ length bytes.now }
    ensures { result ≡ span_in bytes.now }
{
    let ctx = match bytes[12] {
        0 => SyntaxContext::Written,
        _ => SyntaxContext::Made,
    };
    Span {
        range: TextRange {
            start: number_in(bytes),
            end: number_in(from(bytes, 4)),
        },
        anchor: number_in(from(bytes, 8)),
        ctx,
    }
}

// The bytes of a record with this tag.
#[inline(always)]
fn size_of(tag: u8) -> usize
    ensures { result ≡ size_of (sort_of tag) }
{
    match tag {
        0 | 1 | 2 | 3 => 31,
        4 | 5 | 6 | 7 | 8 => 18,
        _ => 23,
    }
}

// The head of a group, by the bytes after its tag.
#[inline(always)]
fn head_of(kind: DelimiterKind, body: &[u8]) -> Subtree
    requires { 30 ≤ length body.now }
    ensures { token.Subtree result ≡ token_by (of_group kind) 0 [] body.now }
{
    let delimiter = Delimiter {
        open_span: span_in(body),
        close_span: span_in(from(body, 13)),
        kind,
    };
    Subtree {
        delimiter,
        len: number_in(from(body, 26)),
    }
}

// A punct, by the bytes after its tag.
#[inline(always)]
fn punct_of(spacing: Spacing, body: &[u8]) -> Punct
    requires whole { 17 ≤ length body.now }
    requires decodes { Decodes (of_punct spacing) [] body.now }
    ensures { token.Leaf (as_leaf.Punct result) ≡ token_by (of_punct spacing) 0 [] body.now }
{
    let Some(char) = char::from_u32(number_in(from(body, 13))) else {
        unreachable!()
    };
    Punct {
        char,
        spacing,
        span: span_in(body),
    }
}

// The entry whose number comes after the span.
#[inline(always)]
fn entry_in<'a>(table: &'a [Symbol], body: &[u8]) -> &'a Symbol
    requires whole { 17 ≤ length body.now }
    requires there { number (drop 13 body.now) < length table.now }
    ensures { result.now ≡ entry_in table.now body.now }
{
    &table[number_in(from(body, 13)) as usize]
}

// An identifier, by the bytes after its tag.
#[inline(always)]
fn ident_of<'a>(is_raw: IdentIsRaw, table: &'a [Symbol], body: &[u8]) -> IdentRef<'a>
    requires whole { 17 ≤ length body.now }
    requires decodes { Decodes (of_ident is_raw) table.now body.now }
    ensures { token.Leaf (as_leaf.Ident (ident_lent result))
        ≡ token_by (of_ident is_raw) 0 table.now body.now }
{
    IdentRef {
        sym: entry_in(table, body),
        span: span_in(body),
        is_raw,
    }
}

// The form of a literal with this tag and so many hashes.
#[inline(always)]
fn form_of(tag: u8, hashes: u8) -> LitKind
    ensures { result ≡ form_of tag hashes }
{
    match tag {
        9 => LitKind::Byte,
        10 => LitKind::Char,
        11 => LitKind::Integer,
        12 => LitKind::Float,
        13 => LitKind::Str,
        14 => LitKind::StrRaw(hashes),
        15 => LitKind::ByteStr,
        16 => LitKind::ByteStrRaw(hashes),
        17 => LitKind::CStr,
        18 => LitKind::CStrRaw(hashes),
        19 => LitKind::StrGuarded(hashes),
        _ => LitKind::Err(()),
    }
}

// A literal, by its tag and the bytes after it.
#[inline(always)]
fn literal_of<'a>(tag: u8, table: &'a [Symbol], body: &[u8]) -> LiteralRef<'a>
    requires whole { 22 ≤ length body.now }
    requires decodes { Decodes of_literal table.now body.now }
    ensures { token.Leaf (as_leaf.Literal (literal_lent result))
        ≡ token_by of_literal tag table.now body.now }
{
    let suffix_len = number_in(from(body, 17));
    let kind = form_of(tag, body[21]);
    LiteralRef::from_parts(entry_in(table, body), suffix_len, kind, span_in(body))
}

/// The head of the group that the first record is of, if it is of one.
#[inline(always)]
pub(crate) fn first_head(_table: &[Symbol], bytes: &[u8]) -> Option<Subtree>
    requires { BeginsWithToken _table.now bytes.now }
    ensures { result ≡ as_head (first_token _table.now bytes.now) }
{
    let kind = match bytes[0] {
        0 => DelimiterKind::Parenthesis,
        1 => DelimiterKind::Brace,
        2 => DelimiterKind::Bracket,
        3 => DelimiterKind::Invisible,
        _ => return None,
    };
    Some(head_of(kind, from(bytes, 1)))
}

/// The punct that the first record is of, if it is of one.
#[inline(always)]
pub(crate) fn first_punct(_table: &[Symbol], bytes: &[u8]) -> Option<Punct>
    requires { BeginsWithToken _table.now bytes.now }
    ensures { result ≡ punct_of (first_token _table.now bytes.now) }
{
    match bytes[0] {
        4 => Some(punct_of(Spacing::Alone, from(bytes, 1))),
        5 => Some(punct_of(Spacing::Joint, from(bytes, 1))),
        6 => Some(punct_of(Spacing::JointHidden, from(bytes, 1))),
        _ => None,
    }
}

/// The identifier that the first record is of, lent, if it is of one.
#[inline(always)]
pub(crate) fn first_ident<'a>(table: &'a [Symbol], bytes: &[u8]) -> Option<IdentRef<'a>>
    requires { BeginsWithToken table.now bytes.now }
    ensures { option_map ident_lent result ≡ ident_of (first_token table.now bytes.now) }
{
    match bytes[0] {
        7 => Some(ident_of(IdentIsRaw::No, table, from(bytes, 1))),
        8 => Some(ident_of(IdentIsRaw::Yes, table, from(bytes, 1))),
        _ => None,
    }
}

/// The leaf that the first record is of, lent, if it is of one.
#[inline(always)]
pub(crate) fn first_leaf<'a>(table: &'a [Symbol], bytes: &[u8]) -> Option<LeafRef<'a>>
    requires { BeginsWithToken table.now bytes.now }
    ensures { option_map leaf_lent result ≡ leaf_of (first_token table.now bytes.now) }
{
    match bytes[0] {
        0 | 1 | 2 | 3 => None,
        4 => Some(LeafRef::Punct(punct_of(Spacing::Alone, from(bytes, 1)))),
        5 => Some(LeafRef::Punct(punct_of(Spacing::Joint, from(bytes, 1)))),
        6 => Some(LeafRef::Punct(punct_of(Spacing::JointHidden, from(bytes, 1)))),
        7 => Some(LeafRef::Ident(ident_of(IdentIsRaw::No, table, from(bytes, 1)))),
        8 => Some(LeafRef::Ident(ident_of(IdentIsRaw::Yes, table, from(bytes, 1)))),
        tag => Some(LeafRef::Literal(literal_of(tag, table, from(bytes, 1)))),
    }
}

/// The kind of the literal that the first record is of, if it is of one.
#[inline(always)]
pub(crate) fn first_kind(_table: &[Symbol], bytes: &[u8]) -> Option<LitKind>
    requires { BeginsWithToken _table.now bytes.now }
    ensures { result ≡ kind_of (first_token _table.now bytes.now) }
{
    match bytes[0] {
        0 | 1 | 2 | 3 | 4 | 5 | 6 | 7 | 8 => None,
        tag => Some(form_of(tag, bytes[22])),
    }
}

/// The span of the token that the first record is of. For a head, that is the span of its opening.
#[inline(always)]
pub(crate) fn first_span(_table: &[Symbol], bytes: &[u8]) -> Span
    requires { BeginsWithToken _table.now bytes.now }
    ensures { result ≡ first_span_of (first_token _table.now bytes.now) }
{
    span_in(from(bytes, 1))
}

/// The bytes of the first record.
#[inline(always)]
pub(crate) fn first_size(bytes: &[u8]) -> usize
    requires { 0 < length bytes.now }
    ensures { result ≡ first_size bytes.now }
{
    size_of(bytes[0])
}

/// What a record says of its place: its bytes, and how many texts a table has at least that has
/// its text.
#[derive(Clone, Copy)]
pub(crate) struct Extent {
    pub(crate) size: usize,
    pub(crate) texts: usize,
}

/// What the first record, which is there whole, says of its place.
pub(crate) fn first_extent(bytes: &[u8]) -> Extent
    requires { first_size bytes.now ≤ length bytes.now }
    ensures size { result.size ≡ first_size bytes.now }
    ensures texts { result.texts ≡ texts_in bytes.now }
{
    let tag = bytes[0];
    let texts = match tag {
        0 | 1 | 2 | 3 | 4 | 5 | 6 => 0,
        _ => number_in(from(bytes, 14)) as usize + 1,
    };
    Extent {
        size: size_of(tag),
        texts,
    }
}

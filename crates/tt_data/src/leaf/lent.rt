//! Leaves that are lent: what a reader of a tree sees of a leaf, however the tree stores it.
//!
//! Each is small and passed by value. Its text stays in the tree and gets no other owner.
ghost use Rattle.std.specs.Prelude.{◌≡◌, ◌≤◌, ◌-◌, length};
ghost use Rattle.std.specs.Str.{IsCharBoundary};

use crate::leaf::{Ident, IdentIsRaw, Leaf, LitKind, Literal, Punct};
use crate::span::Span;
use crate::symbol::Symbol;

/// An identifier, lent: its name without `r#`, its span, and whether it is raw.
#[derive(Clone, Copy, Debug)]
pub struct IdentRef<'a> {
    pub sym: &'a Symbol,
    pub span: Span,
    pub is_raw: IdentIsRaw,
}

/// A literal, lent.
#[derive(Clone, Copy, Debug)]
pub struct LiteralRef<'a> {
    // The text and right after it the suffix.
    text_and_suffix: &'a Symbol,
    // The number of bytes of the suffix.
    suffix_len: u32,
    kind: LitKind,
    span: Span,
    ghost fits: { suffix_len ≤ length text_and_suffix.now },
    ghost boundary: { IsCharBoundary text_and_suffix.now (length text_and_suffix.now - suffix_len) },
}

/// A leaf, lent.
#[derive(Clone, Copy, Debug)]
pub enum LeafRef<'a> {
    Literal(LiteralRef<'a>),
    Punct(Punct),
    Ident(IdentRef<'a>),
}

impl<'a> IdentRef<'a> {
    ghost use Rattle.tt_data.specs.Lent.{ident_lent};

    /// The identifier, owned. It shares the text, takes no memory and is never refused.
    #[inline]
    pub fn to_ident(self) -> Ident
        ensures { result ≡ ident_lent self.entry }
    {
        let Ok(sym) = self.sym.clone() else {
            unreachable!()
        };
        Ident {
            sym,
            span: self.span,
            is_raw: self.is_raw,
        }
    }
}

#[tactic(auto, unfolding(crate::specs::Lent::literal_lent))]
impl<'a> LiteralRef<'a> {
    ghost use Rattle.tt_data.specs.Lent.{literal_lent};
    ghost use Rattle.tt_data.specs.Literals.{HasSuffix, literal_in};

    /// The literal whose text and suffix are together this text. Its last `suffix_len` bytes are
    /// whole characters.
    #[inline]
    pub fn from_parts(
        entry: &'a Symbol,
        suffix_len: u32,
        kind: LitKind,
        span: Span,
    ) -> LiteralRef<'a>
        requires whole { HasSuffix entry.now suffix_len }
        ensures { literal_lent result ≡ literal_in entry.now suffix_len kind span }
    {
        LiteralRef {
            text_and_suffix: entry,
            suffix_len,
            kind,
            span,
        }
    }

    /// The text, and the suffix, which may be empty.
    #[inline]
    pub fn text_and_suffix(self) -> (&'a str, &'a str)
        ensures text { result.0.now ≡ (literal_lent self.entry).text }
        ensures suffix { result.1.now ≡ (literal_lent self.entry).suffix }
    {
        let all = self.text_and_suffix.as_str();
        all.split_at(all.len() - self.suffix_len as usize)
    }

    /// The text without the suffix.
    #[inline]
    pub fn text(self) -> &'a str
        ensures { result.now ≡ (literal_lent self.entry).text }
    {
        self.text_and_suffix().0
    }

    /// The suffix, which may be empty.
    #[inline]
    pub fn suffix(self) -> &'a str
        ensures { result.now ≡ (literal_lent self.entry).suffix }
    {
        self.text_and_suffix().1
    }

    /// Its form.
    #[inline]
    pub fn kind(self) -> LitKind
        ensures { result ≡ (literal_lent self.entry).kind }
    {
        self.kind
    }

    /// Its span.
    #[inline]
    pub fn span(self) -> Span
        ensures { result ≡ (literal_lent self.entry).span }
    {
        self.span
    }

    /// The same literal at another span.
    pub fn with_span(self, span: Span) -> LiteralRef<'a>
        ensures { literal_lent result ≡ record (literal_lent self.entry) { span = span } }
    {
        LiteralRef {
            text_and_suffix: self.text_and_suffix,
            suffix_len: self.suffix_len,
            kind: self.kind,
            span,
        }
    }

    /// The literal, owned. It shares the text, takes no memory and is never refused.
    #[inline]
    pub fn to_literal(self) -> Literal
        ensures { result ≡ literal_lent self.entry }
    {
        let Ok(text_and_suffix) = self.text_and_suffix.clone() else {
            unreachable!()
        };
        Literal {
            text_and_suffix,
            suffix_len: self.suffix_len,
            kind: self.kind,
            span: self.span,
        }
    }
}

impl<'a> LeafRef<'a> {
    ghost use Rattle.tt_data.specs.Lent.{leaf_lent};
    ghost use Rattle.tt_data.specs.Spans.{span_of};

    /// The span of the leaf.
    #[inline]
    pub fn span(self) -> Span
        ensures { result ≡ span_of (leaf_lent self.entry) }
    {
        match self {
            LeafRef::Literal(literal) => literal.span(),
            LeafRef::Punct(punct) => punct.span,
            LeafRef::Ident(ident) => ident.span,
        }
    }

    /// The leaf, owned. It shares the text, takes no memory and is never refused.
    #[inline]
    pub fn to_leaf(self) -> Leaf
        ensures { result ≡ leaf_lent self.entry }
    {
        match self {
            LeafRef::Literal(literal) => Leaf::Literal(literal.to_literal()),
            LeafRef::Punct(punct) => Leaf::Punct(punct),
            LeafRef::Ident(ident) => Leaf::Ident(ident.to_ident()),
        }
    }
}

impl Ident {
    ghost use Rattle.tt_data.specs.Lent.{ident_lent};

    /// The identifier, lent.
    #[inline]
    pub fn lent(&self) -> IdentRef<'_>
        ensures { ident_lent result ≡ self.now }
    {
        IdentRef {
            sym: &self.sym,
            span: self.span,
            is_raw: self.is_raw,
        }
    }
}

impl Literal {
    ghost use Rattle.tt_data.specs.Lent.{literal_lent};

    /// The literal, lent.
    #[inline]
    #[tactic(auto, unfolding(crate::specs::Lent::literal_lent))]
    pub fn lent(&self) -> LiteralRef<'_>
        ensures { literal_lent result ≡ self.now }
    {
        LiteralRef {
            text_and_suffix: &self.text_and_suffix,
            suffix_len: self.suffix_len,
            kind: self.kind,
            span: self.span,
        }
    }
}

impl Leaf {
    ghost use Rattle.tt_data.specs.Lent.{leaf_lent};

    /// The leaf, lent.
    #[inline]
    pub fn lent(&self) -> LeafRef<'_>
        ensures { leaf_lent result ≡ self.now }
    {
        match self {
            Leaf::Literal(literal) => LeafRef::Literal(literal.lent()),
            Leaf::Punct(punct) => LeafRef::Punct(*punct),
            Leaf::Ident(ident) => LeafRef::Ident(ident.lent()),
        }
    }
}

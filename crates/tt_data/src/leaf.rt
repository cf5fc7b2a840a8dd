//! The leaves of token trees: literals, puncts and identifiers.
ghost use Rattle.std.specs.Prelude.{◌≡◌, ◌^◌, ◌<◌, ◌-◌, ◌++◌, ◌↔◌, ⊤, [], length, take, drop, IfOk};
ghost use Rattle.std.specs.Prelude.{IsOkUnless, IsTrue, SomeIff};
ghost use Rattle.std.specs.Str.{IsCharBoundary};
ghost use Rattle.tt_data.specs.Literals.{HasSuffix, literal_in, literal_of};
ghost use Rattle.tt_data.specs.Names.{prefix_of, rawness, bare_name, ident_of};
ghost use Rattle.tt_data.specs.Spans.{span_of};
ghost use Rattle.symbols.specs.declared.fault.TtFault.TheVariants as fault;
ghost use Rattle.tt_data.specs.declared.leaf.IdentIsRaw.TheVariants.{No, Yes};
ghost use Rattle.tt_data.specs.declared.leaf.Leaf.TheVariants as as_leaf;

pub(crate) mod lent;

use crate::fault::TtFault;
use crate::span::Span;
use crate::symbol::Symbol;
use std::alloc::{AllocError, Global};
use std::marker::Model;

/// Whether a punct is glued to what follows it.
#[derive(Clone, Copy, Default, PartialEq, Eq, Hash, Debug)]
pub enum Spacing {
    /// No punct follows right after it.
    #[default]
    Alone,
    /// A punct follows right after it.
    Joint,
    /// It is glued to something else. No text is read so.
    JointHidden,
}

/// A punct: one character of punctuation. (The Rust Reference, "Tokens": punctuation.)
#[derive(Clone, Copy, Default, PartialEq, Eq, Hash, Debug)]
pub struct Punct {
    pub char: char,
    pub spacing: Spacing,
    pub span: Span,
}

/// Whether an identifier is raw: written with `r#`. (The Rust Reference, "Identifiers".)
#[derive(Clone, Copy, PartialEq, Eq, Hash, Debug)]
pub enum IdentIsRaw {
    No,
    Yes,
}

impl IdentIsRaw {
    /// Whether it is raw.
    pub fn yes(self) -> bool
        ensures { IsTrue result ↔ (self ≡ Yes) }
    {
        matches!(self, IdentIsRaw::Yes)
    }

    /// Whether it is not raw.
    pub fn no(&self) -> bool
        ensures { IsTrue result ↔ (self.now ≡ No) }
    {
        matches!(self, IdentIsRaw::No)
    }

    /// The prefix that is written: `r#`, or nothing.
    pub fn as_str(self) -> &'static str
        ensures { result.now ≡ prefix_of self }
    {
        match self {
            IdentIsRaw::No => "",
            IdentIsRaw::Yes => "r#",
        }
    }

    /// Whether `sym` begins with `r#`, and the name without it.
    pub fn split_from_symbol(sym: &str) -> (IdentIsRaw, &str)
        ensures raw { result.0 ≡ rawness sym.now }
        ensures name { result.1.now ≡ bare_name sym.now }
        ensures whole { prefix_of result.0 ++ result.1.now ≡ sym.now }
    {
        match sym.strip_prefix("r#") {
            Some(name) => (IdentIsRaw::Yes, name),
            None => (IdentIsRaw::No, sym),
        }
    }
}

/// An identifier: its name without `r#`, its span, and whether it is raw.
#[derive(Clone, PartialEq, Eq, Hash, Debug, Drop)]
pub struct Ident {
    pub sym: Symbol,
    pub span: Span,
    pub is_raw: IdentIsRaw,
}

impl Ident {
    /// The identifier that is written `text`: a leading `r#` makes it raw and is no part of its
    /// name.
    ///
    /// # Errors
    ///
    /// `Memory`, the only error.
    pub fn new(alloc: Global, text: &str, span: Span) -> Result<Ident, TtFault>
        ensures ident { IfOk result (λ i. i ≡ ident_of text.now span) }
        ensures memory { IsOkUnless result fault.Memory }
    {
        let (is_raw, name) = IdentIsRaw::split_from_symbol(text);
        Ok(Ident {
            sym: Symbol::new(alloc, name)?,
            span,
            is_raw,
        })
    }
}

/// The form of a literal. The number of a raw or guarded form is that of its hashes on either side.
/// (The Rust Reference, "Literals"; guarded strings: RFC 3593.)
#[derive(Clone, Copy, PartialEq, Eq, Hash, Debug)]
pub enum LitKind {
    Byte,
    Char,
    Integer,
    Float,
    Str,
    StrRaw(u8),
    ByteStr,
    ByteStrRaw(u8),
    CStr,
    CStrRaw(u8),
    /// A guarded string, as `#"a"#`.
    StrGuarded(u8),
    /// What is no whole literal. No text is read so.
    Err(()),
}

/// A literal without its span: its form, the text between its quotes, and its suffix.
#[derive(Clone, PartialEq, Eq, Hash, Debug, Drop)]
pub struct Lit {
    pub kind: LitKind,
    pub symbol: Symbol,
    pub suffix: Option<Symbol>,
}

/// A literal: the text between its quotes, its suffix, its form, and its span. Of a number the
/// text is all before the suffix.
#[derive(PartialEq, Eq, Hash, Debug, Drop)]
pub struct Literal {
    // The text and right after it the suffix.
    text_and_suffix: Symbol,
    // The number of bytes of the suffix.
    suffix_len: u32,
    kind: LitKind,
    span: Span,
}

impl Model for Literal {
    ghost use Rattle.std.specs.Prelude.{◌≤◌, ◌-◌, ◌++◌, length, take, drop};
    ghost use Rattle.std.specs.Str.{IsCharBoundary};
    ghost use Rattle.tt_data.specs.Literals.{LiteralParts, put_together};

    ghost Value = { LiteralParts };

    ghost view = { λ l. record {
      text = take (length l.text_and_suffix - l.suffix_len) l.text_and_suffix;
      suffix = drop (length l.text_and_suffix - l.suffix_len) l.text_and_suffix;
      kind = l.kind;
      span = l.span;
    } };

    ghost invariant = { λ l. (l.suffix_len ≤ length l.text_and_suffix)
        × IsCharBoundary l.text_and_suffix (length l.text_and_suffix - l.suffix_len) };

    ghost inverse = { λ v. record { text_and_suffix = v.text ++ v.suffix; suffix_len = length v.suffix; kind = v.kind; span = v.span } };

    ghost inverse_ok = { λ l whole. put_together (λ all n. record { text_and_suffix = all; suffix_len = n; kind = l.kind; span = l.span })
        l.text_and_suffix l.suffix_len whole.0 };
}

impl Clone for Literal {
    ghost is_clone = { λ literal copy. copy ≡ literal };

    ghost is_infallible = { λ _. ⊤ };

    /// The same literal. It shares the text, takes no memory and is never refused.
    fn clone(&self) -> Result<Literal, AllocError> {
        Ok(Literal {
            text_and_suffix: self.text_and_suffix.clone()?,
            suffix_len: self.suffix_len,
            kind: self.kind,
            span: self.span,
        })
    }
}

impl Literal {
    /// The literal with this text and suffix; the suffix may be empty, and has at most `u32::MAX`
    /// bytes.
    ///
    /// # Errors
    ///
    /// `Memory`, the only error.
    pub fn new(
        alloc: Global,
        text: &str,
        span: Span,
        kind: LitKind,
        suffix: &str,
    ) -> Result<Literal, TtFault>
        requires suffix_fits { length suffix.now < 2 ^ 32 }
        ensures literal { IfOk result (λ l. l
            ≡ record { text = text.now; suffix = suffix.now; kind = kind; span = span }) }
        ensures memory { IsOkUnless result fault.Memory }
    {
        if suffix.is_empty() {
            return Literal::new_no_suffix(alloc, text, span, kind);
        }
        let mut all = String::from_str(alloc, text)?;
        all.push_str(suffix)?;
        Ok(Literal {
            text_and_suffix: Symbol::new(alloc, all.as_str())?,
            suffix_len: suffix.len() as u32,
            kind,
            span,
        })
    }

    /// The literal with this text and no suffix.
    ///
    /// # Errors
    ///
    /// `Memory`, the only error.
    pub fn new_no_suffix(
        alloc: Global,
        text: &str,
        span: Span,
        kind: LitKind,
    ) -> Result<Literal, TtFault>
        ensures literal { IfOk result (λ l. l
            ≡ record { text = text.now; suffix = []; kind = kind; span = span }) }
        ensures memory { IsOkUnless result fault.Memory }
    {
        Ok(Literal {
            text_and_suffix: Symbol::new(alloc, text)?,
            suffix_len: 0,
            kind,
            span,
        })
    }

    /// The literal whose text and suffix are together this entry of a table, shared. `None` if
    /// the entry's last `suffix_len` bytes are not whole characters.
    pub fn from_entry(entry: Symbol, suffix_len: u32, kind: LitKind, span: Span) -> Option<Literal>
        ensures { SomeIff result (HasSuffix entry suffix_len)
            (literal_of (take (length entry - suffix_len) entry) (drop (length entry - suffix_len) entry) kind span) }
    {
        let at = entry.as_str().len().checked_sub(suffix_len as usize)?;
        if !entry.as_str().is_char_boundary(at) {
            return None;
        }
        Some(Literal {
            text_and_suffix: entry,
            suffix_len,
            kind,
            span,
        })
    }

    /// The text and right after it the suffix: the entry that a table has for this literal.
    pub fn entry(&self) -> &Symbol
        ensures { result.now ≡ self.now.text ++ self.now.suffix }
    {
        &self.text_and_suffix
    }

    /// The text and right after it the suffix, the number of bytes of the suffix, the form, and the
    /// span.
    #[inline]
    pub fn into_parts(self) -> (Symbol, u32, LitKind, Span)
        ensures literal { literal_in result.0 result.1 result.2 result.3 ≡ self }
        ensures whole { HasSuffix result.0 result.1 }
    {
        let Literal {
            text_and_suffix,
            suffix_len,
            kind,
            span,
        } = self;
        (text_and_suffix, suffix_len, kind, span)
    }

    /// The number of bytes of the suffix.
    pub fn suffix_len(&self) -> u32
        ensures len { result ≡ length self.now.suffix }
        ensures whole { IsCharBoundary (self.now.text ++ self.now.suffix) (length self.now.text) }
    {
        self.suffix_len
    }

    /// The text, and the suffix, which may be empty.
    pub fn text_and_suffix(&self) -> (&str, &str)
        ensures text { result.0.now ≡ self.now.text }
        ensures suffix { result.1.now ≡ self.now.suffix }
    {
        let all = self.text_and_suffix.as_str();
        all.split_at(all.len() - self.suffix_len as usize)
    }

    /// The text without the suffix.
    pub fn text(&self) -> &str
        ensures { result.now ≡ self.now.text }
    {
        self.text_and_suffix().0
    }

    /// The suffix, which may be empty.
    pub fn suffix(&self) -> &str
        ensures { result.now ≡ self.now.suffix }
    {
        self.text_and_suffix().1
    }

    /// Its form.
    pub fn kind(&self) -> LitKind
        ensures { result ≡ self.now.kind }
    {
        self.kind
    }

    /// Its span.
    pub fn span(&self) -> Span
        ensures { result ≡ self.now.span }
    {
        self.span
    }

    /// The same literal at another span.
    pub fn with_span(self, span: Span) -> Literal
        ensures { result ≡ record self { span = span } }
    {
        let mut moved = self;
        moved.span = span;
        moved
    }
}

/// A leaf: a token that holds no other tokens.
#[derive(Clone, PartialEq, Eq, Hash, Debug, Drop)]
pub enum Leaf {
    Literal(Literal),
    Punct(Punct),
    Ident(Ident),
}

impl Leaf {
    /// The span of the leaf.
    pub fn span(&self) -> Span
        ensures { result ≡ span_of self.now }
    {
        match self {
            Leaf::Literal(literal) => literal.span(),
            Leaf::Punct(punct) => punct.span,
            Leaf::Ident(ident) => ident.span,
        }
    }
}

impl From<Literal> for Leaf {
    ghost from_gives = { λ literal leaf. leaf ≡ as_leaf.Literal literal };

    fn from(literal: Literal) -> Leaf {
        Leaf::Literal(literal)
    }
}

impl From<Punct> for Leaf {
    ghost from_gives = { λ punct leaf. leaf ≡ as_leaf.Punct punct };

    fn from(punct: Punct) -> Leaf {
        Leaf::Punct(punct)
    }
}

impl From<Ident> for Leaf {
    ghost from_gives = { λ ident leaf. leaf ≡ as_leaf.Ident ident };

    fn from(ident: Ident) -> Leaf {
        Leaf::Ident(ident)
    }
}

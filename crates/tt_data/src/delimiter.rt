//! The delimiters of groups.
ghost use Rattle.std.specs.Prelude.{◌≡◌};
ghost use Rattle.tt_data.specs.declared.delimiter.DelimiterKind.TheVariants.{Invisible};

use crate::span::Span;

/// The kind of a group's delimiters. (The Rust Reference, "Tokens": delimiters.)
#[derive(Clone, Copy, PartialEq, Eq, Hash, Debug)]
pub enum DelimiterKind {
    Parenthesis,
    Brace,
    Bracket,
    /// No delimiters in the text.
    Invisible,
}

/// The delimiters of a group, with their spans.
#[derive(Clone, Copy, PartialEq, Eq, Hash, Debug)]
pub struct Delimiter {
    pub open_span: Span,
    pub close_span: Span,
    pub kind: DelimiterKind,
}

/// The spans of a group's two delimiters.
#[derive(Clone, Copy, PartialEq, Eq, Hash, Debug)]
pub struct DelimSpan {
    pub open_span: Span,
    pub close_span: Span,
}

impl DelimSpan {
    /// Both delimiters at one span.
    pub fn from_single(sp: Span) -> DelimSpan
        ensures { result ≡ record { open_span = sp; close_span = sp } }
    {
        DelimSpan {
            open_span: sp,
            close_span: sp,
        }
    }

    /// The opening delimiter at the first span, the closing one at the second.
    pub fn from_pair(open: Span, close: Span) -> DelimSpan
        ensures { result ≡ record { open_span = «open»; close_span = close } }
    {
        DelimSpan {
            open_span: open,
            close_span: close,
        }
    }
}

impl Delimiter {
    /// Invisible delimiters, both at one span.
    pub fn invisible_spanned(span: Span) -> Delimiter
        ensures { result ≡ record { open_span = span; close_span = span; kind = Invisible } }
    {
        Delimiter {
            open_span: span,
            close_span: span,
            kind: DelimiterKind::Invisible,
        }
    }

    /// Invisible delimiters at these two spans.
    pub fn invisible_delim_spanned(span: DelimSpan) -> Delimiter
        ensures { result ≡ record
            { open_span = span.open_span; close_span = span.close_span; kind = Invisible } }
    {
        Delimiter {
            open_span: span.open_span,
            close_span: span.close_span,
            kind: DelimiterKind::Invisible,
        }
    }

    /// The spans of the two delimiters.
    pub fn delim_span(&self) -> DelimSpan
        ensures { result ≡ record
            { open_span = self.now.open_span; close_span = self.now.close_span } }
    {
        DelimSpan {
            open_span: self.open_span,
            close_span: self.close_span,
        }
    }
}

//! Classes of tokens: what a token is read as, by its kind.
ghost use Rattle.std.specs.Prelude.{◌≡◌};
ghost use Rattle.bridge.specs.TokenSteps.{class_of, literal_form};

use rustc_lexer::{DocStyle, LiteralKind, TokenKind};
use tt_data::{DelimiterKind, IdentIsRaw, LitKind};

/// What a token is read as, by its kind.
#[derive(Clone, Copy, Debug, PartialEq, Eq)]
pub(crate) enum TokenClass {
    /// White space and plain comments: nothing.
    Blank,
    Name(IdentIsRaw),
    Mark(char),
    Opening(DelimiterKind),
    Closing(DelimiterKind),
    /// A lifetime: a quote and a name.
    QuotedName,
    /// A doc comment: an attribute.
    Doc { style: DocStyle, is_block: bool },
    Value { form: LitKind, suffix_start: u32 },
    /// It cannot be read.
    Neither,
}

// The form of a literal that is whole.
fn literal_form(kind: LiteralKind) -> Option<LitKind>
    ensures { result ≡ literal_form kind }
{
    match kind {
        LiteralKind::Int { .. } => Some(LitKind::Integer),
        LiteralKind::Float { .. } => Some(LitKind::Float),
        LiteralKind::Char { terminated: true } => Some(LitKind::Char),
        LiteralKind::Byte { terminated: true } => Some(LitKind::Byte),
        LiteralKind::Str { terminated: true } => Some(LitKind::Str),
        LiteralKind::ByteStr { terminated: true } => Some(LitKind::ByteStr),
        LiteralKind::CStr { terminated: true } => Some(LitKind::CStr),
        LiteralKind::RawStr { n_hashes: Some(n) } => Some(LitKind::StrRaw(n)),
        LiteralKind::RawByteStr { n_hashes: Some(n) } => Some(LitKind::ByteStrRaw(n)),
        LiteralKind::RawCStr { n_hashes: Some(n) } => Some(LitKind::CStrRaw(n)),
        LiteralKind::GuardedStr { n_hashes: Some(n) } => Some(LitKind::StrGuarded(n)),
        _ => None,
    }
}

#[inline]
pub(crate) fn class_of(kind: TokenKind) -> TokenClass
    ensures { result ≡ class_of kind }
{
    match kind {
        TokenKind::Whitespace => TokenClass::Blank,
        TokenKind::LineComment { doc_style: None } => TokenClass::Blank,
        TokenKind::LineComment {
            doc_style: Some(style),
        } => TokenClass::Doc {
            style,
            is_block: false,
        },
        TokenKind::BlockComment {
            doc_style: None,
            terminated: true,
        } => TokenClass::Blank,
        TokenKind::BlockComment {
            doc_style: Some(style),
            terminated: true,
        } => TokenClass::Doc {
            style,
            is_block: true,
        },
        TokenKind::Ident => TokenClass::Name(IdentIsRaw::No),
        TokenKind::RawIdent => TokenClass::Name(IdentIsRaw::Yes),
        TokenKind::Lifetime {
            starts_with_number: false,
        } => TokenClass::QuotedName,
        TokenKind::Literal { kind, suffix_start } => match literal_form(kind) {
            Some(form) => TokenClass::Value { form, suffix_start },
            None => TokenClass::Neither,
        },
        TokenKind::Semi => TokenClass::Mark(';'),
        TokenKind::Comma => TokenClass::Mark(','),
        TokenKind::Dot => TokenClass::Mark('.'),
        TokenKind::At => TokenClass::Mark('@'),
        TokenKind::Pound => TokenClass::Mark('#'),
        TokenKind::Tilde => TokenClass::Mark('~'),
        TokenKind::Question => TokenClass::Mark('?'),
        TokenKind::Colon => TokenClass::Mark(':'),
        TokenKind::Dollar => TokenClass::Mark('$'),
        TokenKind::Eq => TokenClass::Mark('='),
        TokenKind::Bang => TokenClass::Mark('!'),
        TokenKind::Lt => TokenClass::Mark('<'),
        TokenKind::Gt => TokenClass::Mark('>'),
        TokenKind::Minus => TokenClass::Mark('-'),
        TokenKind::And => TokenClass::Mark('&'),
        TokenKind::Or => TokenClass::Mark('|'),
        TokenKind::Plus => TokenClass::Mark('+'),
        TokenKind::Star => TokenClass::Mark('*'),
        TokenKind::Slash => TokenClass::Mark('/'),
        TokenKind::Caret => TokenClass::Mark('^'),
        TokenKind::Percent => TokenClass::Mark('%'),
        TokenKind::OpenParen => TokenClass::Opening(DelimiterKind::Parenthesis),
        TokenKind::OpenBrace => TokenClass::Opening(DelimiterKind::Brace),
        TokenKind::OpenBracket => TokenClass::Opening(DelimiterKind::Bracket),
        TokenKind::CloseParen => TokenClass::Closing(DelimiterKind::Parenthesis),
        TokenKind::CloseBrace => TokenClass::Closing(DelimiterKind::Brace),
        TokenKind::CloseBracket => TokenClass::Closing(DelimiterKind::Bracket),
        _ => TokenClass::Neither,
    }
}

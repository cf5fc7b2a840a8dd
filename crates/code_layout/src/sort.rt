//! What a token is to the layout.

use rustc_lexer::TokenKind;

/// What a token is to the layout of code.
#[derive(Clone, Copy, PartialEq, Eq)]
pub enum Sort {
    /// Nothing: the text begins.
    Start,
    /// A name, a literal or a lifetime.
    Operand,
    /// A name that generics may follow: a type, a function that is declared, `impl`.
    Generic,
    /// `fn`
    Function,
    /// A keyword that an expression or a type follows.
    Keyword,
    /// `else`
    Else,
    /// `(` or `[`
    Open,
    /// `)` or `]`, or the `}` of names side by side.
    Close,
    /// The `]` of an attribute.
    AttributeEnd,
    /// `{`
    Brace,
    /// `}`
    BraceEnd,
    Comma,
    Semi,
    Dot,
    /// `:`
    Colon,
    /// Half of `::`
    Path,
    /// `!` alone.
    Bang,
    Question,
    /// `#`
    Pound,
    /// The `<` before generic arguments.
    Angle,
    /// The `>` behind them.
    AngleEnd,
    /// `<` or `>` alone.
    Less,
    Greater,
    /// `&`, `*` or `-` alone.
    Sign,
    /// An operator before its operand.
    Prefix,
    /// Another operator.
    Operator,
}

// A keyword that an expression or a type follows.
fn is_keyword(word: &str) -> bool {
    matches!(
        word,
        "as" | "box" | "break" | "const" | "dyn" | "for" | "if" | "in" | "let" | "match"
    ) || matches!(
        word,
        "move" | "mut" | "ref" | "return" | "static" | "type" | "use" | "where" | "while" | "yield"
    )
}

fn word_sort(word: &str) -> Sort {
    if word == "else" {
        return Sort::Else;
    }
    if word == "fn" {
        return Sort::Function;
    }
    if is_keyword(word) {
        return Sort::Keyword;
    }
    match word.as_bytes().first() {
        Some(b'A'..=b'Z') => Sort::Generic,
        _ if word == "impl" => Sort::Generic,
        _ => Sort::Operand,
    }
}

// What a punct is; `next` is the byte behind it.
fn punct_sort(kind: TokenKind, next: Option<u8>) -> Sort {
    let is_last = matches!(next, None | Some(b' ' | b'\n'));
    match kind {
        TokenKind::Semi => Sort::Semi,
        TokenKind::Comma => Sort::Comma,
        TokenKind::Dot => Sort::Dot,
        TokenKind::Question => Sort::Question,
        TokenKind::Pound | TokenKind::Dollar => Sort::Pound,
        TokenKind::Gt => Sort::Greater,
        TokenKind::Lt if !matches!(next, Some(b'=' | b'<' | b'-')) => Sort::Less,
        TokenKind::Colon if next == Some(b':') => Sort::Path,
        TokenKind::Colon => Sort::Colon,
        TokenKind::Bang if is_last => Sort::Bang,
        TokenKind::And | TokenKind::Star | TokenKind::Minus if is_last => Sort::Sign,
        _ => Sort::Operator,
    }
}

/// What a token with this text is. `next` is the byte behind it.
pub fn sort_of(kind: TokenKind, text: &str, next: Option<u8>) -> Sort {
    match kind {
        TokenKind::Ident => word_sort(text),
        TokenKind::RawIdent | TokenKind::Literal { .. } | TokenKind::Lifetime { .. } => {
            Sort::Operand
        }
        TokenKind::OpenParen | TokenKind::OpenBracket => Sort::Open,
        TokenKind::CloseParen | TokenKind::CloseBracket => Sort::Close,
        TokenKind::OpenBrace => Sort::Brace,
        TokenKind::CloseBrace => Sort::BraceEnd,
        _ => punct_sort(kind, next),
    }
}

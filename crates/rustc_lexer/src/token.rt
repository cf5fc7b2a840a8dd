//! Tokens and their kinds.

/// A token: the kind of a lexeme, and its length. (The Rust Reference, "Tokens".)
#[derive(Clone, Copy, PartialEq, Eq, Debug)]
pub struct Token {
    pub kind: TokenKind,
    /// The length in bytes, at least 1 but for `Eof`.
    pub len: u32,
}

/// The kind of a lexeme. An error in it, as a missing quote, is a part of its kind.
#[derive(Clone, Copy, PartialEq, Eq, Debug)]
pub enum TokenKind {
    /// `// ..`, up to the end of the line, without the line feed.
    LineComment {
        doc_style: Option<DocStyle>,
    },
    /// `/* .. */`, with comments nested in it; `terminated` says whether its end was found.
    BlockComment {
        doc_style: Option<DocStyle>,
        terminated: bool,
    },
    /// A run of white space.
    Whitespace,
    /// An identifier or a keyword.
    Ident,
    /// An identifier with characters that no identifier has. It is never given.
    InvalidIdent,
    /// `r#name`.
    RawIdent,
    /// `k#name`.
    ForcedKeywordIdent,
    /// A word right before `#`, `"` or `'` that is no prefix of a known form, without that
    /// character.
    UnknownPrefix,
    /// `'name` right before `#`, without that character.
    UnknownPrefixLifetime,
    /// `'r#name`.
    RawLifetime,
    /// The start of a guarded string. It is never given: a guarded string is a literal.
    GuardedStrPrefix,
    /// A literal; `suffix_start` is the length in bytes of all before its suffix.
    Literal {
        kind: LiteralKind,
        suffix_start: u32,
    },
    /// `'name`; `starts_with_number` marks one such as `'1`.
    Lifetime {
        starts_with_number: bool,
    },
    /// `;`
    Semi,
    /// `,`
    Comma,
    /// `.`
    Dot,
    /// `(`
    OpenParen,
    /// `)`
    CloseParen,
    /// `{`
    OpenBrace,
    /// `}`
    CloseBrace,
    /// `[`
    OpenBracket,
    /// `]`
    CloseBracket,
    /// `@`
    At,
    /// `#`
    Pound,
    /// `~`
    Tilde,
    /// `?`
    Question,
    /// `:`
    Colon,
    /// `$`
    Dollar,
    /// `=`
    Eq,
    /// `!`
    Bang,
    /// `<`
    Lt,
    /// `>`
    Gt,
    /// `-`
    Minus,
    /// `&`
    And,
    /// `|`
    Or,
    /// `+`
    Plus,
    /// `*`
    Star,
    /// `/`
    Slash,
    /// `^`
    Caret,
    /// `%`
    Percent,
    /// A character with which no lexeme begins.
    Unknown,
    /// The end of the text, of length 0.
    Eof,
}

/// What a doc comment documents: the item after it (`///`, `/**`), or the one around it (`//!`,
/// `/*!`). (The Rust Reference, "Comments".)
#[derive(Clone, Copy, PartialEq, Eq, Debug)]
pub enum DocStyle {
    Outer,
    Inner,
}

/// The kind of a literal. (The Rust Reference, "Literals".)
#[derive(Clone, Copy, PartialEq, Eq, PartialOrd, Ord, Debug)]
pub enum LiteralKind {
    /// `12`, `0x1f`; `empty_int` says that no digit follows the prefix of the base.
    Int { base: Base, empty_int: bool },
    /// `1.5`, `1e3`; `empty_exponent` says that no digit follows the `e`.
    Float { base: Base, empty_exponent: bool },
    /// `'a'`
    Char { terminated: bool },
    /// `b'a'`
    Byte { terminated: bool },
    /// `"a"`
    Str { terminated: bool },
    /// `b"a"`
    ByteStr { terminated: bool },
    /// `c"a"`
    CStr { terminated: bool },
    /// `r#"a"#`; the number of hashes, or `None` if it is not terminated or has more than 255.
    RawStr { n_hashes: Option<u8> },
    /// `br#"a"#`; hashes as for `RawStr`.
    RawByteStr { n_hashes: Option<u8> },
    /// `cr#"a"#`; hashes as for `RawStr`.
    RawCStr { n_hashes: Option<u8> },
    /// `#"a"#`, which edition 2024 reserves; the number of hashes, or `None` if it is not
    /// terminated, has fewer hashes after it, or more than 255. (The Rust Reference, "Reserved
    /// guards".)
    GuardedStr { n_hashes: Option<u8> },
}

/// What [`crate::Cursor::guarded_double_quoted_string`] takes: `#"a"#` with any number of hashes,
/// and at most as many after it. (The Rust Reference, "Reserved guards".)
#[derive(Clone, Copy, PartialEq, Eq, PartialOrd, Ord, Debug)]
pub struct GuardedStr {
    /// How many hashes precede the string.
    pub n_hashes: u32,
    /// Whether the string's end was found.
    pub terminated: bool,
    /// The length in bytes, all hashes and the suffix included.
    pub token_len: u32,
}

/// The base of a number.
#[derive(Clone, Copy, PartialEq, Eq, PartialOrd, Ord, Debug)]
pub enum Base {
    /// `0b`
    Binary = 2,
    /// `0o`
    Octal = 8,
    /// No prefix.
    Decimal = 10,
    /// `0x`
    Hexadecimal = 16,
}

/// Whether a text may begin with a frontmatter. None is read here.
#[derive(Clone, Copy, PartialEq, Eq, Debug)]
pub enum FrontmatterAllowed {
    No,
}

//! Texts and their tokens.
ghost use Rattle.std.specs.Prelude.{◌<◌, ◌^◌, length};

use rustc_lexer::{Cursor, FrontmatterAllowed, TokenKind, strip_shebang, tokenize};
use std::alloc::Global;
use std::fmt::Write;
use std::test::Fail;
use ucd_category::GeneralCategory;

// Whether a cursor gives the text's tokens too, and then the end.
fn are_given_by_a_cursor(text: &str) -> bool
    requires { length text.now < 2 ^ 32 }
{
    let mut cursor = Cursor::new(text, FrontmatterAllowed::No);
    for token in tokenize(text, FrontmatterAllowed::No) {
        if cursor.advance_token() != token {
            return false;
        }
    }
    cursor.advance_token().kind == TokenKind::Eof
}

// The kinds and lengths of the text's tokens.
fn printed(alloc: Global, text: &str) -> Result<String, Fail> {
    if text.len() >= 100 || !are_given_by_a_cursor(text) {
        return Err(Fail::new("a text is long, or a cursor gives other tokens"));
    }
    let mut got = String::new(alloc);
    for token in tokenize(text, FrontmatterAllowed::No) {
        write!(got, "{:?} {}; ", token.kind, token.len)?;
    }
    Ok(got)
}

// A text, and its tokens.
const TEXTS: [(&str, &str); 19] = [
    ("", ""),
    ("fn f", "Ident 2; Whitespace 1; Ident 1; "),
    ("x+=\r\n", "Ident 1; Plus 1; Eq 1; Whitespace 2; "),
    ("a#b", "UnknownPrefix 1; Pound 1; Ident 1; "),
    (
        "//a\n///b",
        "LineComment { doc_style: None } 3; Whitespace 1; LineComment { doc_style: Some(Outer) } 4; ",
    ),
    (
        "/* /* */ */",
        "BlockComment { doc_style: None, terminated: true } 11; ",
    ),
    (
        "0x_u8",
        "Literal { kind: Int { base: Hexadecimal, empty_int: true }, suffix_start: 3 } 5; ",
    ),
    (
        "1.5e-3f32",
        "Literal { kind: Float { base: Decimal, empty_exponent: false }, suffix_start: 6 } 9; ",
    ),
    (
        "'a' 'abc",
        "Literal { kind: Char { terminated: true }, suffix_start: 3 } 3; Whitespace 1; Lifetime { starts_with_number: false } 4; ",
    ),
    (
        "'r#a 'b#",
        "RawLifetime 4; Whitespace 1; UnknownPrefixLifetime 2; Pound 1; ",
    ),
    (
        "b\"\" c\"",
        "Literal { kind: ByteStr { terminated: true }, suffix_start: 3 } 3; Whitespace 1; Literal { kind: CStr { terminated: false }, suffix_start: 2 } 2; ",
    ),
    (
        "r#\"a\"b\"#s",
        "Literal { kind: RawStr { n_hashes: Some(1) }, suffix_start: 8 } 9; ",
    ),
    (
        "br\"\" cr#x",
        "Literal { kind: RawByteStr { n_hashes: Some(0) }, suffix_start: 4 } 4; Whitespace 1; Literal { kind: RawCStr { n_hashes: None }, suffix_start: 4 } 4; ",
    ),
    (
        "r#fn k#x",
        "RawIdent 4; Whitespace 1; ForcedKeywordIdent 3; ",
    ),
    (
        "##\"",
        "Literal { kind: GuardedStr { n_hashes: None }, suffix_start: 3 } 3; ",
    ),
    (
        "##\"a\"##x;",
        "Literal { kind: GuardedStr { n_hashes: Some(2) }, suffix_start: 7 } 8; Semi 1; ",
    ),
    (
        "#\"é\"##",
        "Literal { kind: GuardedStr { n_hashes: Some(1) }, suffix_start: 6 } 6; Pound 1; ",
    ),
    (
        "## #a",
        "Pound 1; Pound 1; Whitespace 1; Pound 1; Ident 1; ",
    ),
    (
        "\\é😀\u{85}",
        "Unknown 1; Ident 2; Unknown 4; Whitespace 2; ",
    ),
];

#[test]
fn cuts_texts_into_tokens(rt: HostRuntime) -> Result<(), Fail> {
    for (text, want) in &TEXTS {
        let got = printed(rt.alloc(), text)?;
        assert!(rt; got.as_str() == *want, "tokens of {text:?}: {got}");
    }
    Ok(())
}

// A character of each category but that of surrogates.
const CHARACTERS: &str =
    "Éß\u{1c5}\u{2b0}\u{3042}\u{301}\u{903}\u{20dd}\u{663}\u{2160}²\u{203f}\u{2013}\u{2045}\u{2046}«»¡×€¨©\u{a0}\u{2028}\u{2029}\u{85}\u{200e}\u{e000}\u{378}";

// Their categories and tokens.
const CATEGORIES: &str = "
UppercaseLetter Ident 2;
LowercaseLetter Ident 2;
TitlecaseLetter Ident 2;
ModifierLetter Ident 2;
OtherLetter Ident 3;
NonspacingMark Unknown 2;
SpacingMark Unknown 3;
EnclosingMark Unknown 3;
DecimalNumber Unknown 2;
LetterNumber Ident 3;
OtherNumber Unknown 2;
ConnectorPunctuation Unknown 3;
DashPunctuation Unknown 3;
OpenPunctuation Unknown 3;
ClosePunctuation Unknown 3;
InitialPunctuation Unknown 2;
FinalPunctuation Unknown 2;
OtherPunctuation Unknown 2;
MathSymbol Unknown 2;
CurrencySymbol Unknown 3;
ModifierSymbol Unknown 2;
OtherSymbol Unknown 2;
SpaceSeparator Unknown 2;
LineSeparator Whitespace 3;
ParagraphSeparator Whitespace 3;
Control Whitespace 2;
Format Whitespace 3;
PrivateUse Unknown 3;
Unassigned Unknown 2;
";

// The category of a character, and its token.
fn classed(alloc: Global, c: char) -> Result<String, Fail> {
    let tokens = printed(alloc, c.to_string(alloc)?.as_str())?;
    Ok(format!(in alloc; "{:?} {}", GeneralCategory::for_char(c), tokens.trim_end())?)
}

#[test]
fn lexes_a_character_of_each_category(rt: HostRuntime) -> Result<(), Fail> {
    let mut rows = CATEGORIES.trim_start().lines();
    for c in CHARACTERS.chars() {
        let got = classed(rt.alloc(), c)?;
        assert!(rt; rows.next() == Some(got.as_str()), "{got}");
    }
    assert!(rt; rows.next().is_none());
    Ok(())
}

// A text, and the length of the first line if that is for a shell.
const SCRIPTS: [(&str, Option<usize>); 8] = [
    ("", None),
    (" #!a", None),
    ("#!/bin/sh\nfn", Some(9)),
    ("#!a\r\r\n", Some(4)),
    ("#!é😀\n", Some(8)),
    ("#![a]", None),
    ("#!// c\n/* d */ [a]", None),
    ("#!/** c */[a]", Some(13)),
];

#[test]
fn finds_the_first_line_of_a_script(rt: HostRuntime) {
    for (text, want) in &SCRIPTS {
        assert!(rt;
            text.len() < 100 && strip_shebang(text) == *want,
            "first line of {text:?}"
        );
    }
}

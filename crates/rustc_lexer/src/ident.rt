//! Lexes identifiers, keywords, and the literals and unknown prefixes that begin with a letter.
ghost use Rattle.std.specs.Prelude.{◌≡◌, ◌<◌, ◌^◌, ◌==◌, ◌&&◌, ◌||◌, true, codes, slice_index};
ghost use Rattle.std.specs.Prelude.{length, chars};
ghost use Rattle.rustc_lexer.specs.Ascii.{are_ascii};
ghost use Rattle.rustc_lexer.specs.Character.{char_at, begins, is_id_start, is_ident};
ghost use Rattle.rustc_lexer.specs.Lexeme.{plain_word, marked_word, word, quoted, string};
ghost use Rattle.rustc_lexer.specs.Lexeme.{raw_string};
ghost use Rattle.rustc_lexer.specs.Scanned.{IsRead};
ghost use Rattle.rustc_lexer.specs.FirstCharacter.{b_word, c_word, k_word, r_word, word_kind};
ghost use Rattle.rustc_lexer.specs.declared.token.LiteralKind.TheVariants.{Byte, ByteStr, CStr};
ghost use Rattle.rustc_lexer.specs.declared.token.LiteralKind.TheVariants.{RawStr, RawByteStr};
ghost use Rattle.rustc_lexer.specs.declared.token.LiteralKind.TheVariants.{RawCStr};

use crate::character::is_id_start;
use crate::literal::{literal, quoted_body, raw_form, skip_identifier, string_body};
use crate::scan::{
    Continue, begins, behind, first, first_byte, skip_ascii, skip_while, split_first, start_of,
    third,
};
use crate::token::{LiteralKind, TokenKind};

/// Whether the text is one identifier: a character that may begin one, and others that may
/// continue it. Keywords and `_` are identifiers here. (The Rust Reference, "Identifiers".)
pub fn is_ident(string: &str) -> bool
    ensures { result ≡ is_ident (chars string.now) }
{
    match split_first(string) {
        Some((c, after)) => is_id_start(c) && skip_while::<Continue>(after).is_empty(),
        None => false,
    }
}

/// Whether the text is one identifier of ASCII characters. It is inlined, and calls nothing.
#[inline(always)]
pub fn is_ascii_ident(string: &str) -> bool
    ensures { result ≡ (is_ident (chars string.now) && are_ascii string.now) }
{
    start_of(first_byte(string)) == b'a' && skip_ascii::<Continue>(string).is_empty()
}

// The lexeme that begins with a character that may begin an identifier. Most are ASCII, and no
// `#` or quote follows them.
#[inline(always)]
pub fn word(text: &str) -> (TokenKind, &str)
    requires small { length text.now < 2 ^ 32 }
    requires start { is_id_start (char_at (chars text.now) 0) ≡ true }
    ensures { IsRead (word (chars text.now)) text.now result.0 result.1.now }
{
    let rest = skip_ascii::<Continue>(text);
    if start_of(first_byte(rest)) == b'?' {
        // Taken apart, so that the usual answer stays in registers.
        let (kind, rest) = word_by_letter(text);
        return (kind, rest);
    }
    (TokenKind::Ident, rest)
}

// The answer of `word`, by the first letter.
#[inline(never)]
fn word_by_letter(text: &str) -> (TokenKind, &str)
    requires small { length text.now < 2 ^ 32 }
    requires start { is_id_start (char_at (chars text.now) 0) ≡ true }
    ensures { IsRead (word (chars text.now)) text.now result.0 result.1.now }
{
    match first(text) {
        'r' => r_word(text),
        'b' => b_word(text),
        'c' => c_word(text),
        'k' => k_word(text),
        _ => plain_word(text),
    }
}

// An identifier, a keyword or an unknown prefix.
pub fn plain_word(text: &str) -> (TokenKind, &str)
    requires { is_id_start (char_at (chars text.now) 0) ≡ true }
    ensures { IsRead (plain_word (chars text.now)) text.now result.0 result.1.now }
{
    let rest = skip_while::<Continue>(text);
    (word_kind(first_byte(rest)), rest)
}

// The kind of a word before a character that begins with this byte: before `#` or a quote it is a
// prefix.
#[inline]
fn word_kind(next: u8) -> TokenKind
    ensures { result ≡ word_kind next }
{
    match next {
        b'#' | b'"' | b'\'' => TokenKind::UnknownPrefix,
        _ => TokenKind::Ident,
    }
}

// A raw identifier, a raw string, or a word.
fn r_word(text: &str) -> (TokenKind, &str)
    requires small { length text.now < 2 ^ 32 }
    requires start { is_id_start (char_at (chars text.now) 0) ≡ true }
    ensures { IsRead (r_word (chars text.now)) text.now result.0 result.1.now }
{
    if begins_raw_word(text) {
        marked_word(TokenKind::RawIdent, text)
    } else if begins_raw_string(text) {
        raw_string(text)
    } else {
        plain_word(text)
    }
}

// A byte, a byte string, or a word.
fn b_word(text: &str) -> (TokenKind, &str)
    requires small { length text.now < 2 ^ 32 }
    requires start { is_id_start (char_at (chars text.now) 0) ≡ true }
    ensures { IsRead (b_word (chars text.now)) text.now result.0 result.1.now }
{
    if begins(text, 'b', '\'') {
        byte(text)
    } else if begins(text, 'b', '"') {
        byte_string(text)
    } else if begins_raw_byte_string(text) {
        raw_byte_string(text)
    } else {
        plain_word(text)
    }
}

// A C string, or a word.
fn c_word(text: &str) -> (TokenKind, &str)
    requires small { length text.now < 2 ^ 32 }
    requires start { is_id_start (char_at (chars text.now) 0) ≡ true }
    ensures { IsRead (c_word (chars text.now)) text.now result.0 result.1.now }
{
    if begins(text, 'c', '"') {
        c_string(text)
    } else if begins_raw_c_string(text) {
        raw_c_string(text)
    } else {
        plain_word(text)
    }
}

// A forced keyword, or a word.
fn k_word(text: &str) -> (TokenKind, &str)
    requires { is_id_start (char_at (chars text.now) 0) ≡ true }
    ensures { IsRead (k_word (chars text.now)) text.now result.0 result.1.now }
{
    if begins_forced_keyword(text) {
        marked_word(TokenKind::ForcedKeywordIdent, text)
    } else {
        plain_word(text)
    }
}

// `r#` and the start of an identifier.
#[inline]
fn begins_raw_word(text: &str) -> bool
    ensures { result ≡ (begins "r#" (chars text.now) && is_id_start (char_at (chars text.now) 2)) }
{
    begins(text, 'r', '#') && is_id_start(third(text))
}

// `k#` and the start of an identifier.
#[inline]
fn begins_forced_keyword(text: &str) -> bool
    ensures { result ≡ (begins "k#" (chars text.now) && is_id_start (char_at (chars text.now) 2)) }
{
    begins(text, 'k', '#') && is_id_start(third(text))
}

// `r#` or `r"`
#[inline]
fn begins_raw_string(text: &str) -> bool
    ensures { result ≡ (begins "r#" (chars text.now) || begins "r\"" (chars text.now)) }
{
    begins(text, 'r', '#') || begins(text, 'r', '"')
}

// `br#` or `br"`
#[inline]
fn begins_raw_byte_string(text: &str) -> bool
    ensures { result ≡ (begins "br#" (chars text.now) || begins "br\"" (chars text.now)) }
{
    begins(text, 'b', 'r') && matches!(third(text), '#' | '"')
}

// `cr#` or `cr"`
#[inline]
fn begins_raw_c_string(text: &str) -> bool
    ensures { result ≡ (begins "cr#" (chars text.now) || begins "cr\"" (chars text.now)) }
{
    begins(text, 'c', 'r') && matches!(third(text), '#' | '"')
}

// An identifier after two characters.
fn marked_word(kind: TokenKind, text: &str) -> (TokenKind, &str)
    ensures { IsRead (marked_word kind (chars text.now)) text.now result.0 result.1.now }
{
    (kind, skip_identifier(behind(behind(text))))
}

// `b'a'`
fn byte(text: &str) -> (TokenKind, &str)
    requires { length text.now < 2 ^ 32 }
    ensures { IsRead (quoted Byte 2 (chars text.now)) text.now result.0 result.1.now }
{
    let (terminated, rest) = quoted_body(behind(behind(text)));
    literal(terminated, LiteralKind::Byte { terminated }, text, rest)
}

// `b"a"`
fn byte_string(text: &str) -> (TokenKind, &str)
    requires { length text.now < 2 ^ 32 }
    ensures { IsRead (string ByteStr 2 (chars text.now)) text.now result.0 result.1.now }
{
    let (terminated, rest) = string_body(behind(behind(text)));
    literal(terminated, LiteralKind::ByteStr { terminated }, text, rest)
}

// `c"a"`
fn c_string(text: &str) -> (TokenKind, &str)
    requires { length text.now < 2 ^ 32 }
    ensures { IsRead (string CStr 2 (chars text.now)) text.now result.0 result.1.now }
{
    let (terminated, rest) = string_body(behind(behind(text)));
    literal(terminated, LiteralKind::CStr { terminated }, text, rest)
}

// `r"a"`
fn raw_string(text: &str) -> (TokenKind, &str)
    requires { length text.now < 2 ^ 32 }
    ensures { IsRead (raw_string RawStr 1 (chars text.now)) text.now result.0 result.1.now }
{
    let (n_hashes, rest) = raw_form(behind(text));
    let kind = LiteralKind::RawStr { n_hashes };
    literal(n_hashes.is_some(), kind, text, rest)
}

// `br"a"`
fn raw_byte_string(text: &str) -> (TokenKind, &str)
    requires { length text.now < 2 ^ 32 }
    ensures { IsRead (raw_string RawByteStr 2 (chars text.now)) text.now result.0 result.1.now }
{
    let (n_hashes, rest) = raw_form(behind(behind(text)));
    let kind = LiteralKind::RawByteStr { n_hashes };
    literal(n_hashes.is_some(), kind, text, rest)
}

// `cr"a"`
fn raw_c_string(text: &str) -> (TokenKind, &str)
    requires { length text.now < 2 ^ 32 }
    ensures { IsRead (raw_string RawCStr 2 (chars text.now)) text.now result.0 result.1.now }
{
    let (n_hashes, rest) = raw_form(behind(behind(text)));
    let kind = LiteralKind::RawCStr { n_hashes };
    literal(n_hashes.is_some(), kind, text, rest)
}

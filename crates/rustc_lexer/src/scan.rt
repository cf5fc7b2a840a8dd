//! Scans the characters of a text: each function takes the remaining text and gives what remains
//! after it.
ghost use Rattle.std.specs.Prelude.{◌≡◌, ◌<◌, ◌≤◌, ◌^◌, ◌==◌, ◌&&◌, ◌||◌, ℕ, Bool, drop, ◌∷◌, []};
ghost use Rattle.std.specs.Prelude.{◌++◌, length, chars, encode_utf8, MatchOption, IfSome, IsTrue};
ghost use Rattle.std.specs.Prelude.{IsUtf8, get_or};
ghost use Rattle.std.specs.List.{prefix_len, position_or_len};
ghost use Rattle.rustc_lexer.specs.Character.{ascii_part, char_at, is, is_whitespace};
ghost use Rattle.rustc_lexer.specs.Character.{is_id_continue, is_digit, is_hex_digit};
ghost use Rattle.rustc_lexer.specs.FirstCharacter.{start_of};

use crate::character::{is_id_continue, is_whitespace};
use memchr::{memchr, memchr2};

// At the index of each ASCII character that an identifier may continue with, that character; a
// comma at every other index.
static CONTINUES: [u8; 256] = *b"\
    ,,,,,,,,,,,,,,,,,,,,,,,,,,,,,,,,\
    ,,,,,,,,,,,,,,,,0123456789,,,,,,\
    ,ABCDEFGHIJKLMNOPQRSTUVWXYZ,,,,_\
    ,abcdefghijklmnopqrstuvwxyz,,,,,\
    ,,,,,,,,,,,,,,,,,,,,,,,,,,,,,,,,\
    ,,,,,,,,,,,,,,,,,,,,,,,,,,,,,,,,\
    ,,,,,,,,,,,,,,,,,,,,,,,,,,,,,,,,\
    ,,,,,,,,,,,,,,,,,,,,,,,,,,,,,,,,";

// What the first byte of a lexeme says of it: ` ` white space, `a` a word, `.` one character
// alone, and `?` nothing yet.
static STARTS: [u8; 256] = *b"\
    .........     ..................\
    \x20.??...?.......???????????......\
    .aaaaaaaaaaaaaaaaaaaaaaaaaa....a\
    .aaaaaaaaaaaaaaaaaaaaaaaaaa.....\
    ????????????????????????????????\
    ????????????????????????????????\
    ????????????????????????????????\
    ????????????????????????????????";

// What the first byte of a lexeme says of it, by `STARTS`.
#[inline(always)]
pub fn start_of(b: u8) -> u8
    ensures { result ≡ start_of b }
{
    STARTS[b as usize]
}

// A test of a character.
pub trait CharTest {
    ghost passes: { ℕ → Bool };

    fn test(c: char) -> bool
        ensures { result ≡ passes c };

    // The test of a byte: whether it is an ASCII character that passes.
    #[inline]
    fn test_byte(b: u8) -> bool
        ensures { result ≡ ascii_part passes b }
    {
        b < 128 && Self::test(b as char)
    }
}

pub struct White;

impl CharTest for White {
    ghost passes = { is_whitespace };

    #[inline]
    fn test(c: char) -> bool {
        is_whitespace(c)
    }

    #[inline]
    fn test_byte(b: u8) -> bool {
        start_of(b) == b' '
    }
}

pub struct Continue;

impl CharTest for Continue {
    ghost passes = { is_id_continue };

    #[inline]
    fn test(c: char) -> bool {
        is_id_continue(c)
    }

    #[inline]
    fn test_byte(b: u8) -> bool {
        CONTINUES[b as usize] != b','
    }
}

pub struct Underscore;

impl CharTest for Underscore {
    ghost passes = { is "_" };

    #[inline]
    fn test(c: char) -> bool {
        c == '_'
    }
}

pub struct Hash;

impl CharTest for Hash {
    ghost passes = { is "#" };

    #[inline]
    fn test(c: char) -> bool {
        c == '#'
    }
}

// A digit or `_`.
pub struct DecimalRun;

impl CharTest for DecimalRun {
    ghost passes = { λ c. is_digit c || is "_" c };

    #[inline]
    fn test(c: char) -> bool {
        is_digit(c) || c == '_'
    }
}

// A hexadecimal digit or `_`.
pub struct HexRun;

impl CharTest for HexRun {
    ghost passes = { λ c. is_hex_digit c || is "_" c };

    #[inline]
    fn test(c: char) -> bool {
        is_hex_digit(c) || c == '_'
    }
}

// Whether the character is an ASCII digit.
#[inline]
pub fn is_digit(c: char) -> bool
    ensures { result ≡ is_digit c }
{
    matches!(c, '0'..='9')
}

// Whether the character is an ASCII hexadecimal digit.
#[inline]
pub fn is_hex_digit(c: char) -> bool
    ensures { result ≡ is_hex_digit c }
{
    matches!(c, '0'..='9' | 'A'..='F' | 'a'..='f')
}

// The first character and what follows it, or `None` at the end.
#[inline(always)]
pub fn split_first(text: &str) -> Option<(char, &str)>
    ensures chars { MatchOption result (chars text.now ≡ [])
        (λ (c, rest). chars text.now ≡ c ∷ chars rest.now) }
    ensures utf8 { IsUtf8 text.now × IfSome result (λ p. IsUtf8 p.1.now) }
    ensures bytes { IfSome result (λ (c, rest). text.now ≡ encode_utf8 c ++ rest.now) }
{
    let mut chars = text.chars();
    match chars.next() {
        Some(c) => Some((c, chars.as_str())),
        None => None,
    }
}

// The first byte, or 0 at the end.
#[inline(always)]
pub fn first_byte(text: &str) -> u8
    ensures ascii { result < 128 → char_at (chars text.now) 0 ≡ result }
    ensures beyond { 128 ≤ result → 128 ≤ char_at (chars text.now) 0 }
{
    let bytes = text.as_bytes();
    if bytes.is_empty() {
        return 0;
    }
    bytes[0]
}

// The first character, or U+0000 at the end.
#[inline(always)]
pub fn first(text: &str) -> char
    ensures { result ≡ char_at (chars text.now) 0 }
{
    let b = first_byte(text);
    if b < 128 {
        return b as char;
    }
    decoded(text)
}

// The first character, which may be any.
#[inline(never)]
fn decoded(text: &str) -> char
    ensures { result ≡ char_at (chars text.now) 0 }
{
    text.chars().next().unwrap_or('\0')
}

// The second character, or U+0000 if there is none.
#[inline(always)]
pub fn second(text: &str) -> char
    ensures { result ≡ char_at (chars text.now) 1 }
{
    first(behind(text))
}

// The third character, or U+0000 if there is none.
#[inline(always)]
pub fn third(text: &str) -> char
    ensures { result ≡ char_at (chars text.now) 2 }
{
    first(behind(behind(text)))
}

// What follows the first character.
#[inline(always)]
pub fn behind(text: &str) -> &str
    ensures { chars result.now ≡ drop 1 (chars text.now) }
{
    if begins_ascii(text) {
        return &text[1..];
    }
    behind_any(text)
}

// Whether the first character is ASCII.
#[inline(always)]
fn begins_ascii(text: &str) -> bool
    ensures { IsTrue result → (0 < length text.now) × (get_or text.now 0 0 < 128) }
{
    let bytes = text.as_bytes();
    !bytes.is_empty() && bytes[0] < 128
}

// What follows the first character, which may be any.
#[inline(never)]
fn behind_any(text: &str) -> &str
    ensures { chars result.now ≡ drop 1 (chars text.now) }
{
    match split_first(text) {
        Some((_, after)) => after,
        None => text,
    }
}

// Whether the text begins with these two characters.
#[inline(always)]
pub fn begins(text: &str, a: char, b: char) -> bool
    ensures { result ≡ ((char_at (chars text.now) 0 == a) && (char_at (chars text.now) 1 == b)) }
{
    first(text) == a && second(text) == b
}

// What follows all characters at the front that pass the test.
#[inline]
pub fn skip_while<'a, T: CharTest>(text: &'a str) -> &'a str
    ensures { chars result.now ≡ drop (prefix_len T.passes (chars text.now)) (chars text.now) }
{
    let rest = skip_ascii::<T>(text);
    if first_byte(rest) < 128 {
        return rest;
    }
    skip_chars::<T>(rest)
}

// What follows all ASCII characters at the front that pass the test. Other characters that pass
// may follow.
#[inline(always)]
pub fn skip_ascii<'a, T: CharTest>(text: &'a str) -> &'a str
    ensures on { drop (prefix_len T.passes (chars result.now)) (chars result.now)
        ≡ drop (prefix_len T.passes (chars text.now)) (chars text.now) }
    ensures stops { char_at (chars result.now) 0 < 128 →
        chars result.now ≡ drop (prefix_len T.passes (chars text.now)) (chars text.now) }
    ensures bytes { result.now ≡ drop (prefix_len (ascii_part T.passes) text.now) text.now }
{
    &text[ascii_run::<T>(text)..]
}

// How many bytes at the front are ASCII characters that pass the test.
#[inline(always)]
fn ascii_run<T: CharTest>(text: &str) -> usize
    ensures { result ≡ prefix_len (ascii_part T.passes) text.now }
{
    let bytes = text.as_bytes();
    let mut i = 0;
    while i < bytes.len() && T::test_byte(bytes[i]) {
        i += 1;
    }
    i
}

// The answer of `skip_while`, found character by character.
#[inline(never)]
fn skip_chars<'a, T: CharTest>(text: &'a str) -> &'a str
    ensures { chars result.now ≡ drop (prefix_len T.passes (chars text.now)) (chars text.now) }
{
    let mut rest = text;
    while let Some((c, after)) = split_first(rest) {
        if !T::test(c) {
            break;
        }
        rest = after;
    }
    rest
}

// The text from the first line feed on.
pub fn from_line_feed(text: &str) -> &str
    ensures { chars result.now ≡ drop (position_or_len (λ c. c == 10) (chars text.now))
        (chars text.now) }
{
    match memchr(b'\n', text.as_bytes()) {
        Some(i) => &text[i..],
        None => &text[text.len()..],
    }
}

// The text from the first `"` on.
pub fn from_quote(text: &str) -> &str
    ensures { chars result.now ≡ drop (position_or_len
        (is "\"") (chars text.now)) (chars text.now) }
{
    match memchr(b'"', text.as_bytes()) {
        Some(i) => &text[i..],
        None => &text[text.len()..],
    }
}

// The text from the first `"` or `\` on.
pub fn from_quote_or_escape(text: &str) -> &str
    ensures { chars result.now ≡ drop (position_or_len
        (λ c. is "\"" c || is "\\" c) (chars text.now)) (chars text.now) }
{
    match memchr2(b'"', b'\\', text.as_bytes()) {
        Some(i) => &text[i..],
        None => &text[text.len()..],
    }
}

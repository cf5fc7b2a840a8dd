//! Lexes the bodies and suffixes of literals.
ghost use Rattle.std.specs.Prelude.{◌≡◌, ◌==◌, ◌&&◌, ◌<◌, ◌≤◌, ◌^◌, ◌-◌, ℕ, List, Bool, true};
ghost use Rattle.std.specs.Prelude.{false, nat_le, min, drop, length, chars, MatchOption, IsUtf8};
ghost use Rattle.std.specs.Prelude.{IfSome};
ghost use Rattle.std.specs.List.{prefix_len};
ghost use Rattle.rustc_lexer.specs.Character.{is, identifier_len};
ghost use Rattle.rustc_lexer.specs.Literals.{with_suffix, bare, literal, quoted_body, quoted_rest};
ghost use Rattle.rustc_lexer.specs.Literals.{string_body, raw_body, raw_form, hashes, hashes_of};
ghost use Rattle.rustc_lexer.specs.Literals.{guarded_body, guarded_form, guarded_string};
ghost use Rattle.rustc_lexer.specs.Scanned.{IsRead};

use crate::character::is_id_start;
use crate::scan::{
    Continue, Hash, behind, first, from_quote, from_quote_or_escape, second, skip_while,
    split_first,
};
use crate::token::{LiteralKind, TokenKind};

// How many bytes of `text` come before `rest`, which is its end.
#[inline]
fn bytes_before(text: &str, rest: &str) -> u32
    requires { length text.now < 2 ^ 32 }
    ensures { length rest.now ≤ length text.now → result ≡ length text.now - length rest.now }
{
    text.len().saturating_sub(rest.len()) as u32
}

// What follows an identifier, if the text begins with one.
#[inline]
pub fn skip_identifier(text: &str) -> &str
    ensures { chars result.now ≡ drop (identifier_len (chars text.now)) (chars text.now) }
{
    if is_id_start(first(text)) {
        skip_while::<Continue>(behind(text))
    } else {
        text
    }
}

// The literal before `rest`, with a suffix.
pub fn with_suffix<'a>(kind: LiteralKind, text: &'a str, rest: &'a str) -> (TokenKind, &'a str)
    requires { length text.now < 2 ^ 32 }
    ensures { (n : ℕ) → chars rest.now ≡ drop n (chars text.now) →
        IsRead (with_suffix kind n (chars text.now)) text.now result.0 result.1.now }
{
    let suffix_start = bytes_before(text, rest);
    (
        TokenKind::Literal { kind, suffix_start },
        skip_identifier(rest),
    )
}

// The literal before `rest`, without a suffix.
pub fn bare<'a>(kind: LiteralKind, text: &'a str, rest: &'a str) -> (TokenKind, &'a str)
    requires { length text.now < 2 ^ 32 }
    ensures { (n : ℕ) → chars rest.now ≡ drop n (chars text.now) →
        IsRead (bare kind n (chars text.now)) text.now result.0 result.1.now }
{
    let suffix_start = bytes_before(text, rest);
    (TokenKind::Literal { kind, suffix_start }, rest)
}

// The literal before `rest`, with a suffix if it is whole.
pub fn literal<'a>(
    whole: bool,
    kind: LiteralKind,
    text: &'a str,
    rest: &'a str,
) -> (TokenKind, &'a str)
    requires { length text.now < 2 ^ 32 }
    ensures { (n : ℕ) → chars rest.now ≡ drop n (chars text.now) →
        IsRead (literal whole kind n (chars text.now)) text.now result.0 result.1.now }
{
    if whole {
        with_suffix(kind, text, rest)
    } else {
        bare(kind, text, rest)
    }
}

// The rest of a character literal after its first `'`: whether its end was found, and what
// follows it.
pub fn quoted_body(text: &str) -> (bool, &str)
    ensures { IsRead (quoted_body (chars text.now)) text.now result.0 result.1.now }
{
    if second(text) == '\'' && first(text) != '\\' {
        (true, behind(behind(text)))
    } else {
        quoted_rest(text)
    }
}

#[tactic(auto, using(crate::proofs::EscapeLemmas::quoted_same))]
fn quoted_rest(text: &str) -> (bool, &str)
    ensures { IsRead (quoted_rest (chars text.now)) text.now result.0 result.1.now }
{
    let mut rest = text;
    while let Some((c, after)) = split_first(rest) {
        match c {
            '\'' => return (true, after),
            '/' => return (false, rest),
            '\n' if first(after) != '\'' => return (false, rest),
            '\\' => rest = behind(after),
            _ => rest = after,
        }
    }
    (false, rest)
}

// The rest of a string after its first `"`: whether its end was found, and what follows it.
pub fn string_body(text: &str) -> (bool, &str)
    ensures { IsRead (string_body (chars text.now)) text.now result.0 result.1.now }
{
    let mut rest = text;
    loop {
        let mark = from_quote_or_escape(rest);
        let Some((c, after)) = split_first(mark) else {
            return (false, mark);
        };
        if c == '"' {
            return (true, after);
        }
        rest = behind(after);
    }
}

// What follows the first n hashes, or `None` if there are fewer.
fn skip_hashes(text: &str, n: usize) -> Option<&str>
    ensures utf8 { IfSome result (λ rest. IsUtf8 rest.now) }
    ensures hashes { MatchOption result (nat_le n (prefix_len (is "#") (chars text.now)) ≡ false)
        (λ rest. (nat_le n (prefix_len (is "#") (chars text.now)) ≡ true) × (chars rest.now ≡ drop n (chars text.now))) }
{
    let mut left = n;
    let mut rest = text;
    while left > 0 {
        if first(rest) != '#' {
            return None;
        }
        rest = behind(rest);
        left -= 1;
    }
    Some(rest)
}

// The rest of a raw string after its first `"`: whether its end was found, and what follows it.
fn raw_body(text: &str, n: usize) -> (bool, &str)
    ensures { IsRead (raw_body n (chars text.now)) text.now result.0 result.1.now }
{
    let mut rest = text;
    loop {
        let mark = from_quote(rest);
        let Some((_, after)) = split_first(mark) else {
            return (false, mark);
        };
        if let Some(end) = skip_hashes(after, n) {
            return (true, end);
        }
        rest = after;
    }
}

// The number of hashes at the front, and what follows them.
pub fn count_hashes(text: &str) -> (usize, &str)
    ensures utf8 { IsUtf8 text.now }
    ensures read { IsRead (hashes (chars text.now)) text.now result.0 result.1.now }
{
    let rest = skip_while::<Hash>(text);
    let n = text.len() - rest.len();
    (n, rest)
}

// The number of hashes of a raw or guarded string, if it is whole.
fn hashes_of(terminated: bool, n: usize) -> Option<u8>
    ensures { result ≡ hashes_of terminated n }
{
    if terminated {
        u8::try_from(n).ok()
    } else {
        None
    }
}

// The rest of a raw string after its `r`: the number of its hashes if it is whole, and what
// follows it.
pub fn raw_form(text: &str) -> (Option<u8>, &str)
    ensures { IsRead (raw_form (chars text.now)) text.now result.0 result.1.now }
{
    let (n, opening) = count_hashes(text);
    if first(opening) != '"' {
        return (None, behind(opening));
    }
    let (terminated, rest) = raw_body(behind(opening), n);
    (hashes_of(terminated, n), rest)
}

// Passes at most n hashes at the front. Answers how many of the n are not there, and what follows.
fn skip_closing(text: &str, n: usize) -> (usize, &str)
    ensures missing { result.0 ≡ n - min n (hashes (chars text.now)).size }
    ensures rest { chars result.1.now ≡ drop (min n (hashes (chars text.now)).size)
        (chars text.now) }
    ensures utf8 { IsUtf8 result.1.now }
{
    let mut left = n;
    let mut rest = text;
    while left > 0 && first(rest) == '#' {
        rest = behind(rest);
        left -= 1;
    }
    (left, rest)
}

// A guarded string after n hashes, from its quote on: n, if it is whole, and what follows it.
pub fn guarded_form(text: &str, n: usize) -> (Option<u8>, &str)
    ensures { IsRead (guarded_form n (chars text.now)) text.now result.0 result.1.now }
{
    let (terminated, body_end) = string_body(behind(text));
    let (missing, rest) = skip_closing(body_end, n);
    (hashes_of(is_closed(terminated, missing), n), rest)
}

// Whether a guarded string is terminated and no hash is missing after it.
#[inline]
fn is_closed(terminated: bool, missing: usize) -> bool
    ensures { result ≡ (terminated && (missing == 0)) }
{
    terminated && missing == 0
}

// What a cursor takes of a string after n hashes, from its quote on: whether it is terminated, and
// what follows it.
fn guarded_body(text: &str, n: usize) -> (bool, &str)
    ensures { IsRead (guarded_body n (chars text.now)) text.now result.0 result.1.now }
{
    let (terminated, rest) = string_body(behind(text));
    if !terminated {
        return (false, rest);
    }
    let (_, rest) = skip_closing(rest, n);
    (true, skip_identifier(rest))
}

// The rest of a guarded string after n hashes: whether it is terminated, and what follows it.
// `None` if no string begins here.
pub fn guarded_string(opening: &str, n: usize) -> (Option<bool>, &str)
    ensures { (text : List ℕ) → IsRead (hashes (chars text)) text n opening.now →
        IsRead (guarded_string (chars text)) text result.0 result.1.now }
{
    if first(opening) != '"' {
        return (None, opening);
    }
    let (terminated, rest) = guarded_body(opening, n);
    (Some(terminated), rest)
}

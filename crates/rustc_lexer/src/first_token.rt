//! Lexes the first token of a text: its kind, and the text after it.
ghost use Rattle.std.specs.Prelude.{◌≡◌, ◌<◌, ◌^◌, length, chars, IsUtf8};
ghost use Rattle.rustc_lexer.specs.Character.{char_at};
ghost use Rattle.rustc_lexer.specs.Lexeme.{lexeme, string, one_char_kind, guarded, numeral};
ghost use Rattle.rustc_lexer.specs.Lexeme.{white_space};
ghost use Rattle.rustc_lexer.specs.Literals.{hashes};
ghost use Rattle.rustc_lexer.specs.Scanned.{IsRead};
ghost use Rattle.rustc_lexer.specs.FirstCharacter.{ArePlain, hash, sign, uncommented};
ghost use Rattle.rustc_lexer.specs.declared.token.LiteralKind.TheVariants.{Str};

use crate::character::{is_id_start, is_whitespace};
use crate::comment::{block_comment, line_comment};
use crate::ident::word;
use crate::literal::{count_hashes, guarded_form, literal, string_body, with_suffix};
use crate::number::number;
use crate::quote::quote;
use crate::scan::{White, behind, first, first_byte, is_digit, second, skip_while, start_of};
use crate::token::{LiteralKind, TokenKind};

// The kind of the first lexeme of the text, and what follows it. While the text has more than
// `behind_run` bytes, it begins with hashes that are known to be tokens by themselves, so a run of
// hashes is looked at once and not again for each of them.
pub fn first_lexeme<'a>(text: &'a str, behind_run: &mut usize) -> (TokenKind, &'a str)
    requires small { length text.now < 2 ^ 32 }
    requires plain { ArePlain text.now behind_run.old }
    ensures utf8 { IsUtf8 text.now }
    ensures read { IsRead (lexeme (chars text.now)) text.now result.0 result.1.now }
    ensures plain { ArePlain result.1.now behind_run.new }
{
    let b = first_byte(text);
    match start_of(b) {
        b'.' => (one_char_kind(b as char), behind(text)),
        b'a' => word(text),
        b' ' => (TokenKind::Whitespace, skip_while::<White>(text)),
        _ => {
            // Taken apart, so that the usual answers stay in registers.
            let (kind, rest) = other_lexeme(text, behind_run);
            (kind, rest)
        }
    }
}

// The first lexeme, if the first byte does not determine its kind.
#[inline(never)]
fn other_lexeme<'a>(text: &'a str, behind_run: &mut usize) -> (TokenKind, &'a str)
    requires small { length text.now < 2 ^ 32 }
    requires plain { ArePlain text.now behind_run.old }
    ensures read { IsRead (lexeme (chars text.now)) text.now result.0 result.1.now }
    ensures plain { ArePlain result.1.now behind_run.new }
{
    let c = first(text);
    if c == '/' {
        slash(text)
    } else if c == '#' {
        hash(text, behind_run)
    } else {
        begun_by(c, text)
    }
}

// The lexeme that `#` begins: a guarded string, or the character alone. No `"` follows a run that
// is known to be tokens by themselves.
fn hash<'a>(text: &'a str, behind_run: &mut usize) -> (TokenKind, &'a str)
    requires small { length text.now < 2 ^ 32 }
    requires first { char_at (chars text.now) 0 ≡ 35 }
    requires plain { ArePlain text.now behind_run.old }
    ensures read { IsRead (hash (chars text.now)) text.now result.0 result.1.now }
    ensures plain { ArePlain result.1.now behind_run.new }
{
    if *behind_run < text.len() {
        return (TokenKind::Pound, behind(text));
    }
    let (n, opening) = count_hashes(text);
    if first(opening) == '"' {
        return guarded(text, n, opening);
    }
    *behind_run = opening.len();
    (TokenKind::Pound, behind(text))
}

// `#"a"#`, after its n hashes
fn guarded<'a>(text: &'a str, n: usize, opening: &'a str) -> (TokenKind, &'a str)
    requires small { length text.now < 2 ^ 32 }
    requires opening { IsRead (hashes (chars text.now)) text.now n opening.now }
    ensures { IsRead (guarded (chars text.now)) text.now result.0 result.1.now }
{
    let (n_hashes, rest) = guarded_form(opening, n);
    let kind = LiteralKind::GuardedStr { n_hashes };
    literal(n_hashes.is_some(), kind, text, rest)
}

// The lexeme that `/` begins: a comment, or the character alone.
fn slash(text: &str) -> (TokenKind, &str)
    requires { char_at (chars text.now) 0 ≡ 47 }
    ensures { IsRead (lexeme (chars text.now)) text.now result.0 result.1.now }
{
    let next = second(text);
    if next == '/' {
        line_comment(text)
    } else if next == '*' {
        block_comment(text)
    } else {
        (TokenKind::Slash, behind(text))
    }
}

// The lexeme that begins with this character, if it is no comment and the character no `#`.
#[inline(always)]
fn begun_by(c: char, text: &str) -> (TokenKind, &str)
    requires small { length text.now < 2 ^ 32 }
    requires first { char_at (chars text.now) 0 ≡ c }
    ensures { IsRead (uncommented (chars text.now)) text.now result.0 result.1.now }
{
    if is_whitespace(c) {
        (TokenKind::Whitespace, skip_while::<White>(text))
    } else if is_id_start(c) {
        word(text)
    } else if is_digit(c) {
        numeral(text)
    } else {
        sign(text)
    }
}

// The lexeme that begins with neither white space, nor a letter, nor a digit, nor `#`, and is no
// comment.
#[inline(always)]
fn sign(text: &str) -> (TokenKind, &str)
    requires { length text.now < 2 ^ 32 }
    ensures { IsRead (sign (chars text.now)) text.now result.0 result.1.now }
{
    match first(text) {
        '\'' => quote(text),
        '"' => string(text),
        c => (one_char_kind(c), behind(text)),
    }
}

// A number and its suffix.
fn numeral(text: &str) -> (TokenKind, &str)
    requires { length text.now < 2 ^ 32 }
    ensures { IsRead (numeral (chars text.now)) text.now result.0 result.1.now }
{
    let (kind, rest) = number(text);
    with_suffix(kind, text, rest)
}

// `"a"`
fn string(text: &str) -> (TokenKind, &str)
    requires { length text.now < 2 ^ 32 }
    ensures { IsRead (string Str 1 (chars text.now)) text.now result.0 result.1.now }
{
    let (terminated, rest) = string_body(behind(text));
    literal(terminated, LiteralKind::Str { terminated }, text, rest)
}

// The kind of a character that is a token by itself, and `Unknown` for any other.
fn one_char_kind(c: char) -> TokenKind
    ensures { result ≡ one_char_kind c }
{
    match c {
        ';' => TokenKind::Semi,
        ',' => TokenKind::Comma,
        '.' => TokenKind::Dot,
        '(' => TokenKind::OpenParen,
        ')' => TokenKind::CloseParen,
        '{' => TokenKind::OpenBrace,
        '}' => TokenKind::CloseBrace,
        '[' => TokenKind::OpenBracket,
        ']' => TokenKind::CloseBracket,
        '@' => TokenKind::At,
        '#' => TokenKind::Pound,
        '~' => TokenKind::Tilde,
        '?' => TokenKind::Question,
        ':' => TokenKind::Colon,
        '$' => TokenKind::Dollar,
        '=' => TokenKind::Eq,
        '!' => TokenKind::Bang,
        '<' => TokenKind::Lt,
        '>' => TokenKind::Gt,
        '-' => TokenKind::Minus,
        '&' => TokenKind::And,
        '|' => TokenKind::Or,
        '+' => TokenKind::Plus,
        '*' => TokenKind::Star,
        '/' => TokenKind::Slash,
        '^' => TokenKind::Caret,
        '%' => TokenKind::Percent,
        _ => TokenKind::Unknown,
    }
}

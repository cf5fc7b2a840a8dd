//! Lexes what begins with `'`: lifetimes and character literals.
ghost use Rattle.std.specs.Prelude.{◌≡◌, ◌<◌, ◌^◌, not, ◌==◌, ◌&&◌, codes, length, chars};
ghost use Rattle.rustc_lexer.specs.Character.{char_at, begins, is, is_id_start};
ghost use Rattle.rustc_lexer.specs.Lexeme.{begins_lifetime, lifetime, quote, quoted};
ghost use Rattle.rustc_lexer.specs.Scanned.{IsRead};
ghost use Rattle.rustc_lexer.specs.declared.token.LiteralKind.TheVariants.{Char};

use crate::character::is_id_start;
use crate::literal::{bare, literal, quoted_body};
use crate::scan::{Continue, begins, behind, first, is_digit, second, skip_while, third};
use crate::token::{LiteralKind, TokenKind};

// A lifetime or a character literal.
pub fn quote(text: &str) -> (TokenKind, &str)
    requires small { length text.now < 2 ^ 32 }
    requires mark { char_at (chars text.now) 0 ≡ 39 }
    ensures { IsRead (quote (chars text.now)) text.now result.0 result.1.now }
{
    if begins_lifetime(text) {
        lifetime(text)
    } else {
        character(text)
    }
}

// Whether a letter or a digit follows the `'`, without a second `'` right after it.
fn begins_lifetime(text: &str) -> bool
    ensures { result ≡ begins_lifetime (chars text.now) }
{
    if third(text) == '\'' {
        return false;
    }
    let c = second(text);
    is_id_start(c) || is_digit(c)
}

// `'a'`
fn character(text: &str) -> (TokenKind, &str)
    requires { length text.now < 2 ^ 32 }
    ensures { IsRead (quoted Char 1 (chars text.now)) text.now result.0 result.1.now }
{
    let (terminated, rest) = quoted_body(behind(text));
    literal(terminated, LiteralKind::Char { terminated }, text, rest)
}

// `'r#` and the start of an identifier.
fn begins_raw_lifetime(text: &str) -> bool
    requires { char_at (chars text.now) 0 ≡ 39 }
    ensures { result ≡ (begins "'r#" (chars text.now) && is_id_start (char_at (chars text.now) 3)) }
{
    let name = behind(text);
    begins(name, 'r', '#') && is_id_start(third(name))
}

// A lifetime, or a character literal of one letter.
fn lifetime(text: &str) -> (TokenKind, &str)
    requires small { length text.now < 2 ^ 32 }
    requires mark { char_at (chars text.now) 0 ≡ 39 }
    ensures { IsRead (lifetime (chars text.now)) text.now result.0 result.1.now }
{
    let name = behind(text);
    if begins_raw_lifetime(text) {
        let rest = skip_while::<Continue>(behind(behind(name)));
        return (TokenKind::RawLifetime, rest);
    }
    let starts_with_number = is_digit(first(name));
    let rest = skip_while::<Continue>(behind(name));
    let next = first(rest);
    if next == '\'' {
        let terminated = true;
        return bare(LiteralKind::Char { terminated }, text, behind(rest));
    }
    if is_unknown_prefix(next, starts_with_number) {
        return (TokenKind::UnknownPrefixLifetime, rest);
    }
    (TokenKind::Lifetime { starts_with_number }, rest)
}

// Whether a name after a `'` is an unknown prefix before this character.
#[inline]
fn is_unknown_prefix(next: char, starts_with_number: bool) -> bool
    ensures { result ≡ (is "#" next && not starts_with_number) }
{
    next == '#' && !starts_with_number
}

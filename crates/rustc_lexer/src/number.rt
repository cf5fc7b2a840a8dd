//! Lexes numbers.
ghost use Rattle.std.specs.Prelude.{◌≡◌, chars};
ghost use Rattle.rustc_lexer.specs.Numbers.{digit_of, run, is_exponent_mark, exponent};
ghost use Rattle.rustc_lexer.specs.Numbers.{after_fraction, fraction, begins_fraction, after_run};
ghost use Rattle.rustc_lexer.specs.Numbers.{based, decimal, number};
ghost use Rattle.rustc_lexer.specs.Scanned.{IsRead};

use crate::character::is_id_start;
use crate::scan::{
    DecimalRun, HexRun, Underscore, behind, first, is_digit, is_hex_digit, second, skip_while,
};
use crate::token::{Base, LiteralKind};

// A number, up to its suffix.
pub fn number(text: &str) -> (LiteralKind, &str)
    ensures { IsRead (number (chars text.now)) text.now result.0 result.1.now }
{
    if first(text) != '0' {
        return decimal(text);
    }
    match second(text) {
        'b' => based(Base::Binary, behind(behind(text))),
        'o' => based(Base::Octal, behind(behind(text))),
        'x' => based(Base::Hexadecimal, behind(behind(text))),
        _ => decimal(text),
    }
}

fn decimal(text: &str) -> (LiteralKind, &str)
    ensures { IsRead (decimal (chars text.now)) text.now result.0 result.1.now }
{
    after_run(Base::Decimal, skip_while::<DecimalRun>(text))
}

// The rest of a number after the prefix of a base.
fn based(base: Base, text: &str) -> (LiteralKind, &str)
    ensures { IsRead (based base (digit_of base) (chars text.now)) text.now result.0 result.1.now }
{
    let (digits, rest) = run(base, text);
    if digits {
        return after_run(base, rest);
    }
    let empty_int = true;
    (LiteralKind::Int { base, empty_int }, rest)
}

// A run of the base's digits and `_`: whether it has a digit, and what follows it.
fn run(base: Base, text: &str) -> (bool, &str)
    ensures { IsRead (run (digit_of base) (chars text.now)) text.now result.0 result.1.now }
{
    let next = first(skip_while::<Underscore>(text));
    match base {
        Base::Hexadecimal => (is_hex_digit(next), skip_while::<HexRun>(text)),
        _ => (is_digit(next), skip_while::<DecimalRun>(text)),
    }
}

// The rest of a number after its first run of digits.
fn after_run(base: Base, text: &str) -> (LiteralKind, &str)
    ensures { IsRead (after_run base (chars text.now)) text.now result.0 result.1.now }
{
    if begins_fraction(text) {
        return fraction(base, behind(text));
    }
    if is_exponent_mark(first(text)) {
        return exponent(base, behind(text));
    }
    let empty_int = false;
    (LiteralKind::Int { base, empty_int }, text)
}

// Whether the text begins with a point that belongs to the number.
fn begins_fraction(text: &str) -> bool
    ensures { result ≡ begins_fraction (chars text.now) }
{
    if first(text) != '.' {
        return false;
    }
    let next = second(text);
    next != '.' && !is_id_start(next)
}

#[inline]
fn is_exponent_mark(c: char) -> bool
    ensures { result ≡ is_exponent_mark c }
{
    matches!(c, 'e' | 'E')
}

// The rest of a number after its point.
fn fraction(base: Base, text: &str) -> (LiteralKind, &str)
    ensures { IsRead (fraction base (chars text.now)) text.now result.0 result.1.now }
{
    if is_digit(first(text)) {
        return after_fraction(base, skip_while::<DecimalRun>(text));
    }
    let empty_exponent = false;
    (
        LiteralKind::Float {
            base,
            empty_exponent,
        },
        text,
    )
}

// The rest of a number after the digits that follow its point.
fn after_fraction(base: Base, text: &str) -> (LiteralKind, &str)
    ensures { IsRead (after_fraction base (chars text.now)) text.now result.0 result.1.now }
{
    if is_exponent_mark(first(text)) {
        return exponent(base, behind(text));
    }
    let empty_exponent = false;
    (
        LiteralKind::Float {
            base,
            empty_exponent,
        },
        text,
    )
}

// The rest of a number after the `e` of its exponent.
fn exponent(base: Base, text: &str) -> (LiteralKind, &str)
    ensures { IsRead (exponent base (chars text.now)) text.now result.0 result.1.now }
{
    let signed = if matches!(first(text), '+' | '-') {
        behind(text)
    } else {
        text
    };
    let (digits, rest) = run(Base::Decimal, signed);
    (
        LiteralKind::Float {
            base,
            empty_exponent: !digits,
        },
        rest,
    )
}

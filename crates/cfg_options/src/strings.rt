//! What string literals stand for. (The Rust Reference, "Tokens": string literals.)
ghost use Rattle.std.specs.Prelude.{◌≡◌, ◌<◌, ◌≤◌, ◌++◌, IfOk, IfSome, OnOk};
ghost use Rattle.std.specs.Prelude.{encode_utf8, length, option_map};
ghost use Rattle.tt_data.specs.Lent.{literal_lent};
ghost use Rattle.cfg_options.specs.Strings.{after_blanks, digits_value, escape, hex_escape};
ghost use Rattle.cfg_options.specs.Strings.{hex_value, is_blank, line_feed, plain, short_escape};
ghost use Rattle.cfg_options.specs.Strings.{starts_line, starts_with_byte, string_kind};
ghost use Rattle.cfg_options.specs.Strings.{string_text, unescaped, unicode_escape};
ghost use Rattle.cfg_options.specs.StringSteps.{LeavesLess, bytes_of, unit_and_rest, unit_at};

use std::alloc::{AllocError, Global};
use tt_data::{LitKind, LiteralRef};

/// What a part of a string's text stands for.
#[derive(Clone, Copy)]
pub(crate) enum StringPart {
    Nothing,
    Byte(u8),
    Char(char),
}

// The value of a hexadecimal digit.
fn hex_value(c: u8) -> Option<u32>
    ensures value { result ≡ hex_value c }
    ensures small { IfSome result (λ v. v < 16) }
{
    match c {
        b'0'..=b'9' => Some(u32::from(c - b'0')),
        b'a'..=b'f' => Some(u32::from(c - b'W')),
        b'A'..=b'F' => Some(u32::from(c - b'7')),
        _ => None,
    }
}

// The byte that an escape of one character stands for.
fn short_escape(c: u8) -> Option<u8>
    ensures { result ≡ short_escape c }
{
    match c {
        b'n' => Some(b'\n'),
        b'r' => Some(b'\r'),
        b't' => Some(b'\t'),
        b'0' => Some(0),
        b'\\' | b'\'' | b'"' => Some(c),
        _ => None,
    }
}

// The byte of `\x7F`, behind its `x`, and the text after it.
fn hex_escape(text: &[u8]) -> Option<(StringPart, &[u8])>
    ensures value { option_map unit_and_rest result ≡ hex_escape text.now }
    ensures shorter { LeavesLess text.now result }
{
    let (first, more) = text.split_first()?;
    let (second, rest) = more.split_first()?;
    let high = hex_value(*first)?;
    let low = hex_value(*second)?;
    if high < 8 {
        Some((StringPart::Byte((16 * high + low) as u8), rest))
    } else {
        None
    }
}

// The number that up to five digits give after a first one, up to a `}`, and the text after that.
fn digits_value(first: u32, text: &[u8]) -> Option<(u32, &[u8])>
    requires { first < 16 }
    ensures value { option_map (λ p. (p.0, p.1.now)) result ≡ digits_value 5 first text.now }
    ensures shorter { LeavesLess text.now result }
{
    let mut value = first;
    let mut count: u32 = 1;
    let mut rest = text;
    loop {
        let (c, more) = rest.split_first()?;
        rest = more;
        match *c {
            b'}' => return Some((value, rest)),
            b'_' => {}
            _ => {
                let digit = hex_value(*c)?;
                if count == 6 {
                    return None;
                }
                value = 16 * value + digit;
                count += 1;
            }
        }
    }
}

// The character of `\u{7FFF}`, behind its `u`, and the text after it.
fn unicode_escape(text: &[u8]) -> Option<(StringPart, &[u8])>
    ensures value { option_map unit_and_rest result ≡ unicode_escape text.now }
    ensures shorter { LeavesLess text.now result }
{
    let (brace, more) = text.split_first()?;
    let (first, digits) = more.split_first()?;
    if *brace != b'{' {
        return None;
    }
    let value = hex_value(*first)?;
    let (code, rest) = digits_value(value, digits)?;
    let c = char::from_u32(code)?;
    Some((StringPart::Char(c), rest))
}

// Whether a line end behind a backslash takes this byte along.
fn is_blank(c: u8) -> bool
    ensures { result ≡ is_blank c }
{
    c == b' ' || c == b'\t' || c == b'\n' || c == b'\r'
}

// What follows the blanks at the beginning.
fn after_blanks(text: &[u8]) -> &[u8]
    ensures value { result.now ≡ after_blanks text.now }
    ensures within { length result.now ≤ length text.now }
{
    let mut rest = text;
    while let Some((c, more)) = rest.split_first() {
        if !is_blank(*c) {
            break;
        }
        rest = more;
    }
    rest
}

// Whether a line feed is at the beginning.
fn starts_feed(text: &[u8]) -> bool
    ensures { result ≡ starts_with_byte line_feed text.now }
{
    match text.first() {
        Some(c) => *c == b'\n',
        None => false,
    }
}

// Whether a line end is at the beginning.
fn starts_line(text: &[u8]) -> bool
    ensures { result ≡ starts_line text.now }
{
    match text.split_first() {
        Some((c, rest)) => *c == b'\n' || *c == b'\r' && starts_feed(rest),
        None => false,
    }
}

// What a backslash and what follows it stand for, and the text after that.
fn escape(text: &[u8]) -> Option<(StringPart, &[u8])>
    ensures value { option_map unit_and_rest result ≡ escape text.now }
    ensures shorter { LeavesLess text.now result }
{
    let (c, rest) = text.split_first()?;
    if starts_line(text) {
        return Some((StringPart::Nothing, after_blanks(rest)));
    }
    match *c {
        b'x' => hex_escape(rest),
        b'u' => unicode_escape(rest),
        _ => {
            let byte = short_escape(*c)?;
            Some((StringPart::Byte(byte), rest))
        }
    }
}

// What a byte that is not escaped stands for, before this text.
fn plain(c: u8, rest: &[u8]) -> Option<StringPart>
    ensures { option_map (λ u. (bytes_of u, rest.now)) result ≡ plain c rest.now }
{
    if c != b'\r' {
        Some(StringPart::Byte(c))
    } else if starts_feed(rest) {
        Some(StringPart::Nothing)
    } else {
        None
    }
}

// What the text of a string begins with, and the text after that.
fn first_unit(is_raw: bool, text: &[u8]) -> Option<(StringPart, &[u8])>
    ensures value { option_map unit_and_rest result ≡ unit_at is_raw text.now }
    ensures shorter { LeavesLess text.now result }
{
    let (c, rest) = text.split_first()?;
    if !is_raw && *c == b'\\' {
        return escape(rest);
    }
    let unit = plain(*c, rest)?;
    Some((unit, rest))
}

// Adds a character.
fn add_char(out: &mut Vec<u8>, c: char) -> Result<(), AllocError>
    ensures { OnOk result (out.new.items ≡ out.old.items ++ encode_utf8 c) }
{
    let mut room = [0; 4];
    let text = c.encode_utf8(&mut room);
    out.extend_from_slice(text.as_bytes())
}

// Adds what a part of the text stands for.
fn add_unit(out: &mut Vec<u8>, unit: StringPart) -> Result<(), AllocError>
    ensures { OnOk result (out.new.items ≡ out.old.items ++ bytes_of unit) }
{
    match unit {
        StringPart::Nothing => Ok(()),
        StringPart::Byte(byte) => {
            out.push(byte)?;
            Ok(())
        }
        StringPart::Char(c) => add_char(out, c),
    }
}

// What the text between the quotes stands for, of a raw string or another.
fn unescaped(alloc: Global, is_raw: bool, text: &[u8]) -> Result<Option<Vec<u8>>, AllocError>
    ensures { IfOk result (λ v. option_map (λ b. b.items) v
        ≡ unescaped is_raw (length text.now) text.now) }
{
    let mut out = Vec::new(alloc);
    let mut rest = text;
    while !rest.is_empty() {
        let Some((unit, more)) = first_unit(is_raw, rest) else {
            return Ok(None);
        };
        add_unit(&mut out, unit)?;
        rest = more;
    }
    Ok(Some(out))
}

// Whether a literal of this kind is a string, raw if `true`.
fn string_kind(kind: LitKind) -> Option<bool>
    ensures { result ≡ string_kind kind }
{
    match kind {
        LitKind::Str => Some(false),
        LitKind::StrRaw(_) => Some(true),
        _ => None,
    }
}

/// What a string literal stands for, or `None` for another literal, a suffix, and an escape that
/// Rust has not. Its only error is out of memory.
pub fn string_text(alloc: Global, literal: LiteralRef<'_>) -> Result<Option<Vec<u8>>, AllocError>
    ensures { IfOk result (λ v. option_map (λ b. b.items) v
        ≡ string_text (literal_lent literal.entry)) }
{
    let Some(is_raw) = string_kind(literal.kind()) else {
        return Ok(None);
    };
    let (text, suffix) = literal.text_and_suffix();
    if suffix.is_empty() {
        unescaped(alloc, is_raw, text.as_bytes())
    } else {
        Ok(None)
    }
}

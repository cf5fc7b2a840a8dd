//! The fast path of spelling: leaves whose kind and text alone show how they are spelled, so that
//! nothing is lexed. It decides speed alone.
ghost use Rattle.std.specs.Prelude.{◌≡◌, ◌↔◌, ◌<◌, ◌^◌, true, IfSome, IsTrue, Some, length};
ghost use Rattle.std.specs.Prelude.{option_map};
ghost use Rattle.std.specs.List.{list_all};
ghost use Rattle.bridge.specs.FastSpellings.{is_mark_char, is_plain_byte};
ghost use Rattle.bridge.specs.Spelling.{behind_mark, is_root_text, is_text_of, leaf_spelling};
ghost use Rattle.bridge.specs.Spelling.{root_name};
ghost use Rattle.rustc_lexer.specs.Character.{is_digit};
ghost use Rattle.tt_data.specs.Displayed.{displayed_leaf};
ghost use Rattle.tt_data.specs.Lent.{ident_lent, leaf_lent, literal_lent};
ghost use Rattle.tt_data.specs.declared.leaf.Leaf.TheVariants as as_leaf;

use rustc_lexer::{is_ascii_ident, is_ident, laws};
use tt_data::{IdentRef, LeafRef, LitKind, LiteralRef};

// Whether the text is no longer than a text with tokens may be.
fn is_short(text: &str) -> bool
    ensures { IsTrue result ↔ (length text.now < 2 ^ 32) }
{
    text.len() <= u32::MAX as usize
}

// At the index of each character that is a punct in a text, and no quote, that character; a blank
// at every other index.
static MARKS: [u8; 128] = *b"\
    \x20                               \
    \x20! #$%&   *+,-./          :;<=>?\
    @                             ^ \
    \x20                           | ~ ";

/// Whether the character is a punct in a text, and no quote.
#[inline(always)]
pub(crate) fn is_mark(char: char) -> bool
    ensures { IsTrue result → is_mark_char char ≡ true }
{
    char.is_ascii() && MARKS[char as usize] != b' '
}

// The name, if it is an identifier that is not raw.
fn name_text<'a>(ident: IdentRef<'a>) -> Option<&'a str>
    ensures { IfSome result (λ t. leaf_spelling (as_leaf.Ident (ident_lent ident.entry))
        ≡ Some t.now) }
{
    laws::token_lengths();
    laws::one_identifier();
    let name = ident.sym.as_str();
    if ident.is_raw.no() && is_short(name) && is_ident(name) {
        Some(name)
    } else {
        None
    }
}

/// The name, if it is an identifier of ASCII characters that is not raw.
#[inline(always)]
pub(crate) fn ascii_name<'a>(ident: IdentRef<'a>) -> Option<&'a str>
    ensures { IfSome result (λ t. leaf_spelling (as_leaf.Ident (ident_lent ident.entry))
        ≡ Some t.now) }
{
    laws::token_lengths();
    laws::one_identifier();
    let name = ident.sym.as_str();
    if ident.is_raw.no() && is_short(name) && is_ascii_ident(name) {
        Some(name)
    } else {
        None
    }
}

// Whether a crate's root may be spelled so: the name is neither a root nor a keyword of definitions.
fn is_root_text(name: &str) -> bool
    ensures { result ≡ is_root_text name.now }
{
    !name.starts_with("$") && name != "macro_rules" && name != "macro"
}

// The name behind the mark of roots.
fn behind_mark(sym: &str) -> Option<&str>
    ensures { option_map (λ t. t.now) result ≡ behind_mark sym.now }
{
    let name = sym.strip_prefix("$crate:")?;
    if is_short(sym) && is_root_text(name) {
        Some(name)
    } else {
        None
    }
}

/// The name of the crate whose root the identifier stands for: `crate` of `$crate`, and `std` of
/// `$crate:std`.
pub(crate) fn root_name<'a>(ident: IdentRef<'a>) -> Option<&'a str>
    ensures { option_map (λ t. t.now) result ≡ root_name (ident_lent ident.entry) }
{
    if ident.is_raw.yes() {
        return None;
    }
    let name = ident.sym.as_str();
    if name == "$crate" {
        return Some("crate");
    }
    behind_mark(name)
}

// The name of the crate whose root the identifier stands for, if that is an identifier.
fn root_text<'a>(ident: IdentRef<'a>) -> Option<&'a str>
    ensures { IfSome result (λ t. leaf_spelling (as_leaf.Ident (ident_lent ident.entry))
        ≡ Some t.now) }
{
    laws::token_lengths();
    laws::one_identifier();
    let name = root_name(ident)?;
    if is_short(name) && is_ident(name) {
        Some(name)
    } else {
        None
    }
}

/// The spelling of an identifier that is not raw: its name, or that of the crate whose root it
/// stands for.
pub(crate) fn ident_text<'a>(ident: IdentRef<'a>) -> Option<&'a str>
    ensures { IfSome result (λ t. leaf_spelling (as_leaf.Ident (ident_lent ident.entry))
        ≡ Some t.now) }
{
    match name_text(ident) {
        Some(name) => Some(name),
        None => root_text(ident),
    }
}

// Whether the text has only digits.
fn has_digits_alone(text: &str) -> bool
    ensures { IsTrue result → list_all is_digit text.now ≡ true }
{
    for byte in text.as_bytes() {
        if !byte.is_ascii_digit() {
            return false;
        }
    }
    true
}

/// The text of a number that is only digits, without a suffix.
pub(crate) fn number_text<'a>(literal: LiteralRef<'a>) -> Option<&'a str>
    ensures { IfSome result (λ t. leaf_spelling (as_leaf.Literal (literal_lent literal.entry))
        ≡ Some t.now) }
{
    laws::token_lengths();
    laws::one_number();
    let (text, suffix) = literal.text_and_suffix();
    if literal.kind() == LitKind::Integer
        && suffix.is_empty()
        && is_short(text)
        && !text.is_empty()
        && has_digits_alone(text)
    {
        Some(text)
    } else {
        None
    }
}

// Whether the text is ASCII, without a quote and without a `\`.
fn stands_for_itself(text: &str) -> bool
    ensures { IsTrue result → list_all is_plain_byte text.now ≡ true }
{
    for byte in text.as_bytes() {
        if !byte.is_ascii() || *byte == b'"' || *byte == b'\\' {
            return false;
        }
    }
    true
}

/// Whether the literal is a string whose displayed text is clearly one token.
pub(crate) fn is_plain_string(literal: LiteralRef<'_>) -> bool
    ensures { IsTrue result → is_text_of (as_leaf.Literal (literal_lent literal.entry))
        (displayed_leaf (as_leaf.Literal (literal_lent literal.entry))) ≡ true }
{
    laws::token_lengths();
    laws::one_string();
    let (text, suffix) = literal.text_and_suffix();
    if literal.kind() == LitKind::Str && suffix.is_empty() && text.len() < u32::MAX as usize - 2 {
        return stands_for_itself(text);
    }
    false
}

//! The classes of characters in Rust's grammar.
ghost use Rattle.std.specs.Prelude.{◌≡◌};
ghost use Rattle.rustc_lexer.specs.Character.{is_whitespace, is_horizontal_whitespace, is_id_start};
ghost use Rattle.rustc_lexer.specs.Character.{is_id_continue};

/// The version of Unicode whose tables decide what an identifier may contain.
pub const UNICODE_VERSION: (u8, u8, u8) = (18, 0, 0);

/// Whether the character is white space: one of Unicode's `Pattern_White_Space`.
#[inline]
pub fn is_whitespace(c: char) -> bool
    ensures { result ≡ is_whitespace c }
{
    matches!(
        c,
        '\u{9}'..='\u{d}' | ' ' | '\u{85}' | '\u{200e}' | '\u{200f}' | '\u{2028}' | '\u{2029}'
    )
}

/// Whether the character is white space within a line: a tabulator or a space.
#[inline]
pub fn is_horizontal_whitespace(c: char) -> bool
    ensures { result ≡ is_horizontal_whitespace c }
{
    matches!(c, '\t' | ' ')
}

/// Whether an identifier may begin with the character: `_`, or one of Unicode's `XID_Start`.
#[inline]
pub fn is_id_start(c: char) -> bool
    ensures { result ≡ is_id_start c }
{
    if c.is_ascii() {
        return c == '_' || c.is_ascii_alphabetic();
    }
    unicode_ident::is_xid_start(c)
}

/// Whether an identifier may continue with the character: one of Unicode's `XID_Continue`.
#[inline]
pub fn is_id_continue(c: char) -> bool
    ensures { result ≡ is_id_continue c }
{
    if c.is_ascii() {
        return c.is_ascii_alphanumeric() || c == '_';
    }
    unicode_ident::is_xid_continue(c)
}

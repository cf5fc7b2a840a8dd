//! Literals of whole tokens: the text inside, and the suffix.
ghost use Rattle.std.specs.Prelude.{◌≡◌, ◌<◌, ◌≤◌, ◌^◌, length, drop, IfOk, IsOkUnless};
ghost use Rattle.std.specs.Str.{IsCharBoundary};
ghost use Rattle.tt.specs.TokenLiterals.{IsLiteralToken, form_begin, form_end, inside_of, literal_in};
ghost use Rattle.tt_data.specs.fault.TtFault.TheVariants.{Memory};

use std::alloc::Global;
use tt_data::{LitKind, Literal, Span, TtFault};

// How many bytes of letters, hashes and a quote come before the text.
fn begin_len(kind: LitKind) -> usize
    ensures { result ≡ length (form_begin kind) }
{
    match kind {
        LitKind::Integer | LitKind::Float | LitKind::Err(_) => 0,
        LitKind::Char | LitKind::Str => 1,
        LitKind::Byte | LitKind::ByteStr | LitKind::CStr => 2,
        LitKind::StrGuarded(hashes) => 1 + hashes as usize,
        LitKind::StrRaw(hashes) => 2 + hashes as usize,
        LitKind::ByteStrRaw(hashes) | LitKind::CStrRaw(hashes) => 3 + hashes as usize,
    }
}

// How many bytes of a quote and hashes come after the text.
fn end_len(kind: LitKind) -> usize
    ensures { result ≡ length (form_end kind) }
{
    match kind {
        LitKind::Integer | LitKind::Float | LitKind::Err(_) => 0,
        LitKind::StrRaw(hashes)
        | LitKind::ByteStrRaw(hashes)
        | LitKind::CStrRaw(hashes)
        | LitKind::StrGuarded(hashes) => 1 + hashes as usize,
        _ => 1,
    }
}

/// The text between the quotes of the literal that the whole token `text` is, and its suffix,
/// which starts at the byte `suffix_start`. Of a number, and of what is no literal, the text is
/// all before the suffix.
pub fn literal_parts(text: &str, kind: LitKind, suffix_start: u32) -> (&str, &str)
    requires boundary { IsCharBoundary text.now suffix_start }
    requires token { IsLiteralToken kind suffix_start text.now }
    ensures inside { result.0.now ≡ inside_of kind suffix_start text.now }
    ensures suffix { result.1.now ≡ drop suffix_start text.now }
{
    let start = suffix_start as usize;
    let inside = &text[begin_len(kind)..start - end_len(kind)];
    (inside, &text[start..])
}

/// The literal that the whole token `text` is: the text between its quotes, and the suffix, which
/// starts at the byte `suffix_start`. Of a number, and of what is no literal, the text is all
/// before the suffix.
///
/// `Memory` is its only error.
pub fn token_to_literal(
    alloc: Global,
    text: &str,
    span: Span,
    kind: LitKind,
    suffix_start: u32,
) -> Result<Literal, TtFault>
    requires short { length text.now < 2 ^ 32 }
    requires boundary { IsCharBoundary text.now suffix_start }
    requires token { IsLiteralToken kind suffix_start text.now }
    ensures literal { IfOk result (λ l. l ≡ literal_in kind suffix_start text.now span) }
    ensures memory { IsOkUnless result Memory }
{
    let (inside, suffix) = literal_parts(text, kind, suffix_start);
    Literal::new(alloc, inside, span, kind, suffix)
}

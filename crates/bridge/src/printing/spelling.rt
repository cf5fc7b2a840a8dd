//! How a leaf is spelled: by its displayed text, if that is one token that is read as the leaf.
ghost use Rattle.std.specs.Prelude.{◌≡◌, ◌<◌, ◌^◌, List, [], ◌∷◌, Some, None, chars, length, IfOk};
ghost use Rattle.std.specs.Prelude.{IsOkUnless, option_map, string_bytes, if◌then◌else◌};
ghost use Rattle.bridge.specs.ReadSteps.{MayCut};
ghost use Rattle.bridge.specs.Reading.{PlacedToken};
ghost use Rattle.bridge.specs.Spelling.{is_text_of, is_that_leaf, leaf_spelling, own_spelling};
ghost use Rattle.bridge.specs.Spelling.{same_form, same_leaf, same_rawness};
ghost use Rattle.bridge.specs.TokenSteps.{steps_of_class};
ghost use Rattle.rustc_lexer.specs.Lexing.{tokens_of};
ghost use Rattle.tt.specs.TokenLiterals.{IsLiteralToken, literal_in};
ghost use Rattle.tt_data.specs.Displayed.{displayed_leaf};
ghost use Rattle.tt_data.specs.Lent.{leaf_lent, literal_lent};
ghost use Rattle.tt_data.specs.fault.TtFault.TheVariants.{Memory};
ghost use Rattle.tt_data.specs.declared.leaf.Leaf.TheVariants as as_leaf;
ghost use Rattle.tt_data.specs.declared.leaf.IdentIsRaw.TheVariants as raw;
ghost use Rattle.tt_data.specs.declared.span.Span.{Span};
ghost use Rattle.std.specs.Str.{IsCharBoundary};

use crate::printing::fast_spelling::{is_plain_string, root_name};
use crate::reading::classify::{TokenClass, class_of};
use crate::reading::leaf::name_in;
use rustc_lexer::{FrontmatterAllowed, Token, tokenize};
use std::alloc::Global;
use tt::literal_parts;
use tt_data::{Ident, IdentIsRaw, Leaf, LeafRef, LitKind, LiteralRef, Span, Symbol, TtFault};

// Whether two literals are of one form. What is no literal has no form.
fn are_of_one_form(first: LitKind, second: LitKind) -> bool
    ensures { result ≡ same_form first second }
{
    match (first, second) {
        (LitKind::Byte, LitKind::Byte) => true,
        (LitKind::Char, LitKind::Char) => true,
        (LitKind::Integer, LitKind::Integer) => true,
        (LitKind::Float, LitKind::Float) => true,
        (LitKind::Str, LitKind::Str) => true,
        (LitKind::ByteStr, LitKind::ByteStr) => true,
        (LitKind::CStr, LitKind::CStr) => true,
        (LitKind::StrRaw(m), LitKind::StrRaw(n)) => m == n,
        (LitKind::ByteStrRaw(m), LitKind::ByteStrRaw(n)) => m == n,
        (LitKind::CStrRaw(m), LitKind::CStrRaw(n)) => m == n,
        (LitKind::StrGuarded(m), LitKind::StrGuarded(n)) => m == n,
        _ => false,
    }
}

// Whether both names are raw, or neither.
fn are_alike_raw(first: IdentIsRaw, second: IdentIsRaw) -> bool
    ensures { result ≡ same_rawness first second }
{
    match first {
        IdentIsRaw::No => second.no(),
        IdentIsRaw::Yes => second.yes(),
    }
}

// Whether the literal is the one that this whole token is read as.
fn is_literal(literal: LiteralRef<'_>, form: LitKind, suffix_start: u32, text: &str) -> bool
    requires boundary { IsCharBoundary text.now suffix_start }
    requires token { IsLiteralToken form suffix_start text.now }
    ensures { (span : Span) → result ≡ same_leaf (as_leaf.Literal (literal_lent literal.entry))
        (as_leaf.Literal (literal_in form suffix_start text.now span)) }
{
    let (inside, suffix) = literal_parts(text, form, suffix_start);
    are_of_one_form(literal.kind(), form) && literal.text() == inside && literal.suffix() == suffix
}

// Whether the leaf is what this whole token is read as, apart from spans and spacing.
fn is_read_as(leaf: LeafRef<'_>, class: TokenClass, text: &str) -> bool
    requires { MayCut class text.now }
    ensures { (t : PlacedToken) (more : List PlacedToken) → t.text ≡ text.now →
        result ≡ is_that_leaf (leaf_lent leaf.entry) (steps_of_class class t more) }
{
    match (leaf, class) {
        (LeafRef::Ident(ident), TokenClass::Name(is_raw)) => {
            let name = name_in(is_raw, text);
            are_alike_raw(ident.is_raw, is_raw) && ident.sym.as_str() == name
        }
        (LeafRef::Punct(punct), TokenClass::Mark(char)) => punct.char == char,
        (LeafRef::Literal(literal), TokenClass::Value { form, suffix_start }) => {
            is_literal(literal, form, suffix_start, text)
        }
        _ => false,
    }
}

// Whether the leaf is what the text, which is this one token, is read as.
fn is_token_of(leaf: LeafRef<'_>, token: Token, text: &str) -> bool
    requires short { length text.now < 2 ^ 32 }
    requires one { tokens_of (chars text.now) ≡ token ∷ [] }
    ensures { result ≡ is_text_of (leaf_lent leaf.entry) text.now }
{
    rustc_lexer::laws::tokens_begin();
    rustc_lexer::laws::next_token();
    rustc_lexer::laws::token_lengths();
    rustc_lexer::laws::token_shapes();
    rustc_lexer::laws::suffix_starts();
    is_read_as(leaf, class_of(token.kind), text)
}

// Whether the text is one token that is read as the leaf.
fn is_text_of(leaf: LeafRef<'_>, text: &str) -> bool
    ensures { result ≡ is_text_of (leaf_lent leaf.entry) text.now }
{
    if text.len() > u32::MAX as usize {
        return false;
    }
    let mut tokens = tokenize(text, FrontmatterAllowed::No);
    let Some(token) = tokens.next() else {
        return false;
    };
    if tokens.next().is_some() {
        return false;
    }
    is_token_of(leaf, token, text)
}

// Whether the leaf's displayed text is one token that is read as the leaf.
fn is_own_text(leaf: LeafRef<'_>, text: &str) -> bool
    requires { text.now ≡ displayed_leaf (leaf_lent leaf) }
    ensures { result ≡ is_text_of (leaf_lent leaf.entry) text.now }
{
    match leaf {
        LeafRef::Literal(literal) if is_plain_string(literal) => true,
        _ => is_text_of(leaf, text),
    }
}

// Room for a displayed text. Most have no more bytes.
const MOST_TEXTS: usize = 64;

// The displayed text of the leaf, if it is one token that is read as the leaf.
fn own_text(alloc: Global, leaf: LeafRef<'_>) -> Result<Option<String>, TtFault>
    ensures some { IfOk result (λ o. option_map string_bytes o ≡
        own_spelling (leaf_lent leaf.entry)) }
    ensures memory { IsOkUnless result Memory }
{
    let mut text = String::with_capacity(alloc, MOST_TEXTS)?;
    write!(text, "{leaf}")?;
    if is_own_text(leaf, text.as_str()) {
        Ok(Some(text))
    } else {
        Ok(None)
    }
}

// The spelling of an identifier that isn't raw and has this name, which is not that of a root.
fn name_spelling(alloc: Global, name: &str, span: Span) -> Result<Option<String>, TtFault>
    ensures spelling { IfOk result (λ o. option_map string_bytes o ≡
        own_spelling (as_leaf.Ident (record { sym = name.now; span = span; is_raw = raw.No }))) }
    ensures memory { IsOkUnless result Memory }
{
    let leaf = Leaf::Ident(Ident {
        sym: Symbol::new(alloc, name)?,
        span,
        is_raw: IdentIsRaw::No,
    });
    own_text(alloc, leaf.lent())
}

/// The spelling of the leaf, if it has one. What stands for the root of a crate is spelled as the
/// crate's name: `$crate` as `crate`, `$crate:std` as `std`. Its only error is out of memory.
pub(crate) fn leaf_spelling(alloc: Global, leaf: LeafRef<'_>) -> Result<Option<String>, TtFault>
    ensures spelling { IfOk result (λ o. option_map string_bytes o
        ≡ leaf_spelling (leaf_lent leaf.entry)) }
    ensures memory { IsOkUnless result Memory }
{
    if let LeafRef::Ident(ident) = leaf {
        if let Some(name) = root_name(ident) {
            return name_spelling(alloc, name, ident.span);
        }
    }
    own_text(alloc, leaf)
}

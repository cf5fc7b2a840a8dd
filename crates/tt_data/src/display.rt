//! Writes leaves as text.
ghost use Rattle.std.specs.Prelude.{◌≡◌, ◌++◌, replicate};
ghost use Rattle.std.specs.Fmt.{WritesOnOk};
ghost use Rattle.tt_data.specs.Displayed.{form_letters, form_quote, form_hashes};

use crate::leaf::lent::{IdentRef, LeafRef, LiteralRef};
use crate::leaf::{Ident, Leaf, LitKind, Literal, Punct};
use std::fmt;

impl fmt::Display for Leaf {
    ghost use Rattle.std.specs.Prelude.{Some};
    ghost use Rattle.tt_data.specs.Displayed.{displayed_leaf};

    ghost output = { λ leaf. Some (displayed_leaf leaf) };

    fn fmt<W: fmt::Write>(&self, f: &mut fmt::Formatter<W>) -> fmt::Result {
        self.lent().fmt(f)
    }
}

impl fmt::Display for LeafRef<'_> {
    ghost use Rattle.std.specs.Prelude.{Some};
    ghost use Rattle.tt_data.specs.Displayed.{displayed_leaf};
    ghost use Rattle.tt_data.specs.Lent.{leaf_lent};

    ghost output = { λ leaf. Some (displayed_leaf (leaf_lent leaf)) };

    fn fmt<W: fmt::Write>(&self, f: &mut fmt::Formatter<W>) -> fmt::Result {
        match self {
            LeafRef::Literal(literal) => literal.fmt(f),
            LeafRef::Punct(punct) => punct.fmt(f),
            LeafRef::Ident(ident) => ident.fmt(f),
        }
    }
}

impl fmt::Display for Ident {
    ghost use Rattle.std.specs.Prelude.{Some};
    ghost use Rattle.tt_data.specs.Displayed.{ident_text};

    ghost output = { λ ident. Some (ident_text ident) };

    fn fmt<W: fmt::Write>(&self, f: &mut fmt::Formatter<W>) -> fmt::Result {
        self.lent().fmt(f)
    }
}

impl fmt::Display for IdentRef<'_> {
    ghost use Rattle.std.specs.Prelude.{Some};
    ghost use Rattle.tt_data.specs.Displayed.{ident_text};
    ghost use Rattle.tt_data.specs.Lent.{ident_lent};

    ghost output = { λ ident. Some (ident_text (ident_lent ident)) };

    fn fmt<W: fmt::Write>(&self, f: &mut fmt::Formatter<W>) -> fmt::Result {
        f.write_str(self.is_raw.as_str())?;
        f.write_str(self.sym.as_str())
    }
}

impl fmt::Display for Punct {
    ghost use Rattle.std.specs.Prelude.{Some};
    ghost use Rattle.tt_data.specs.Displayed.{punct_text};

    ghost output = { λ punct. Some (punct_text punct) };

    fn fmt<W: fmt::Write>(&self, f: &mut fmt::Formatter<W>) -> fmt::Result {
        f.write_char(self.char)
    }
}

impl fmt::Display for Literal {
    ghost use Rattle.std.specs.Prelude.{Some};
    ghost use Rattle.tt_data.specs.Displayed.{literal_text};

    ghost output = { λ literal. Some (literal_text literal) };

    fn fmt<W: fmt::Write>(&self, f: &mut fmt::Formatter<W>) -> fmt::Result {
        self.lent().fmt(f)
    }
}

impl fmt::Display for LiteralRef<'_> {
    ghost use Rattle.std.specs.Prelude.{Some};
    ghost use Rattle.tt_data.specs.Displayed.{literal_text};
    ghost use Rattle.tt_data.specs.Lent.{literal_lent};

    ghost output = { λ literal. Some (literal_text (literal_lent literal)) };

    fn fmt<W: fmt::Write>(&self, f: &mut fmt::Formatter<W>) -> fmt::Result {
        write_opening(self.kind(), f)?;
        f.write_str(self.text())?;
        write_closing(self.kind(), f)?;
        f.write_str(self.suffix())
    }
}

// Writes what comes before the text of a literal of this form.
fn write_opening<W: fmt::Write>(kind: LitKind, f: &mut fmt::Formatter<W>) -> fmt::Result
    ensures { WritesOnOk W.write_str_gives f.old result
        (form_letters kind ++ form_hashes kind ++ form_quote kind) f.new }
{
    f.write_str(letters(kind))?;
    write_hashes(hash_count(kind), f)?;
    f.write_str(quote(kind))
}

// Writes what comes after the text of a literal of this form.
fn write_closing<W: fmt::Write>(kind: LitKind, f: &mut fmt::Formatter<W>) -> fmt::Result
    ensures { WritesOnOk W.write_str_gives f.old result (form_quote kind ++ form_hashes kind)
        f.new }
{
    f.write_str(quote(kind))?;
    write_hashes(hash_count(kind), f)
}

fn write_hashes<W: fmt::Write>(count: u8, f: &mut fmt::Formatter<W>) -> fmt::Result
    ensures { WritesOnOk W.write_str_gives f.old result (replicate count 35) f.new }
{
    for _hash in 0..count {
        f.write_str("#")?;
    }
    Ok(())
}

// The letters before a literal of this form.
fn letters(kind: LitKind) -> &'static str
    ensures { result.now ≡ form_letters kind }
{
    match kind {
        LitKind::Byte | LitKind::ByteStr => "b",
        LitKind::CStr => "c",
        LitKind::StrRaw(_) => "r",
        LitKind::ByteStrRaw(_) => "br",
        LitKind::CStrRaw(_) => "cr",
        LitKind::Char
        | LitKind::Integer
        | LitKind::Float
        | LitKind::Str
        | LitKind::StrGuarded(_)
        | LitKind::Err(_) => "",
    }
}

// The quote on either side of its text.
fn quote(kind: LitKind) -> &'static str
    ensures { result.now ≡ form_quote kind }
{
    match kind {
        LitKind::Byte | LitKind::Char => "'",
        LitKind::Integer | LitKind::Float | LitKind::Err(_) => "",
        LitKind::Str
        | LitKind::StrRaw(_)
        | LitKind::ByteStr
        | LitKind::ByteStrRaw(_)
        | LitKind::CStr
        | LitKind::CStrRaw(_)
        | LitKind::StrGuarded(_) => "\"",
    }
}

// The number of hashes outside of each quote.
fn hash_count(kind: LitKind) -> u8
    ensures { replicate result 35 ≡ form_hashes kind }
{
    match kind {
        LitKind::StrRaw(count)
        | LitKind::ByteStrRaw(count)
        | LitKind::CStrRaw(count)
        | LitKind::StrGuarded(count) => count,
        _ => 0,
    }
}

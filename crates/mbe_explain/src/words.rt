//! The words for what is wanted.
ghost use Rattle.std.specs.Prelude.{◌≡◌};
ghost use Rattle.std.specs.Fmt.{WritesOnOk};
ghost use Rattle.mbe_explain.specs.Words.{colon_specifier, op_text, opening_text, puncts_text};
ghost use Rattle.mbe_explain.specs.Words.{separator_text, specifier};

use crate::wanted::Wanted;
use mbe_rules::{MetaVarKind, Op, Separator};
use std::fmt;
use std::fmt::Display;
use tt::{DelimiterKind, Punct};

// The fragment specifier of a kind. That of the edition of 2024, if it differs by edition.
fn specifier(kind: MetaVarKind) -> &'static str
    ensures { result.now ≡ specifier kind }
{
    match kind {
        MetaVarKind::Path => "path",
        MetaVarKind::Ty => "ty",
        MetaVarKind::Pat => "pat",
        MetaVarKind::PatParam => "pat_param",
        MetaVarKind::Stmt => "stmt",
        MetaVarKind::Block => "block",
        MetaVarKind::Meta => "meta",
        MetaVarKind::Item => "item",
        MetaVarKind::Vis => "vis",
        MetaVarKind::Expr => "expr",
        MetaVarKind::Expr2021 => "expr_2021",
        MetaVarKind::Ident => "ident",
        MetaVarKind::Tt => "tt",
        MetaVarKind::Lifetime => "lifetime",
        MetaVarKind::Literal => "literal",
    }
}

// The opening bracket of a group.
fn opening(kind: DelimiterKind) -> &'static str
    ensures { result.now ≡ opening_text kind }
{
    match kind {
        DelimiterKind::Parenthesis => "(",
        DelimiterKind::Brace => "{",
        DelimiterKind::Bracket => "[",
        DelimiterKind::Invisible => "",
    }
}

fn write_puncts<W: fmt::Write>(puncts: &[Punct], f: &mut fmt::Formatter<W>) -> fmt::Result
    ensures { WritesOnOk W.write_str_gives f.old result (puncts_text puncts.now) f.new }
{
    for punct in puncts {
        f.write_char(punct.char)?;
    }
    Ok(())
}

// A colon and a fragment specifier, if there is one.
fn write_specifier<W: fmt::Write>(
    kind: Option<MetaVarKind>,
    f: &mut fmt::Formatter<W>,
) -> fmt::Result
    ensures { WritesOnOk W.write_str_gives f.old result (colon_specifier kind) f.new }
{
    match kind {
        None => Ok(()),
        Some(kind) => {
            f.write_str(":")?;
            f.write_str(specifier(kind))
        }
    }
}

// An op as it is written, a group by its opening bracket.
fn write_op<W: fmt::Write>(op: &Op, f: &mut fmt::Formatter<W>) -> fmt::Result
    ensures { WritesOnOk W.write_str_gives f.old result (op_text op.now) f.new }
{
    match op {
        Op::Var { name, kind, .. } => {
            f.write_str("$")?;
            f.write_str(name.as_str())?;
            write_specifier(*kind, f)
        }
        Op::Literal(literal) => literal.fmt(f),
        Op::Ident(ident) => ident.fmt(f),
        Op::Punct(puncts) => write_puncts(puncts, f),
        Op::Lifetime(_, ident) => {
            f.write_str("'")?;
            f.write_str(ident.sym.as_str())
        }
        Op::Subtree { delimiter, .. } => f.write_str(opening(delimiter.kind)),
        _ => f.write_str("$"),
    }
}

// A separator as it is written.
fn write_separator<W: fmt::Write>(separator: &Separator, f: &mut fmt::Formatter<W>) -> fmt::Result
    ensures { WritesOnOk W.write_str_gives f.old result (separator_text separator.now) f.new }
{
    match separator {
        Separator::Literal(literal) => literal.fmt(f),
        Separator::Ident(ident) => ident.fmt(f),
        Separator::Lifetime(_, ident) => {
            f.write_str("'")?;
            f.write_str(ident.sym.as_str())
        }
        Separator::Puncts(puncts) => write_puncts(puncts, f),
    }
}

impl fmt::Display for Wanted<'_> {
    ghost use Rattle.std.specs.Prelude.{Some};
    ghost use Rattle.mbe_explain.specs.Words.{words_of};

    ghost output = { λ wanted. Some (words_of wanted) };

    fn fmt<W: fmt::Write>(&self, f: &mut fmt::Formatter<W>) -> fmt::Result {
        match self {
            Wanted::Op(op) => {
                f.write_str("`")?;
                write_op(op, f)?;
                f.write_str("`")
            }
            Wanted::Separator(separator) => {
                f.write_str("`")?;
                write_separator(separator, f)?;
                f.write_str("`")
            }
            Wanted::Close => f.write_str("the group's end"),
            Wanted::End => f.write_str("the end"),
        }
    }
}

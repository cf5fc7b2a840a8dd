//! Parses what a `$` or another punct begins, except for repetitions.
ghost use Rattle.std.specs.Prelude.{◌≡◌, ◌&&◌, IfOk, Ok};
ghost use Rattle.tt_data.specs.Forest.{leaf, group};
ghost use Rattle.tt_data.specs.declared.edition.Edition.{Edition};
ghost use Rattle.tt_data.specs.declared.leaf.Leaf.TheVariants as as_leaf;
ghost use Rattle.tt_data.specs.declared.span.SyntaxContext.{SyntaxContext};
ghost use Rattle.tt.specs.Glued.{glued_count};
ghost use Rattle.mbe_rules.specs.Items.{word, done, item};
ghost use Rattle.mbe_rules.specs.Ops.{put_op};
ghost use Rattle.mbe_rules.specs.Text.{is_truth, is_nil};
ghost use Rattle.mbe_rules.specs.Patterns.{dollar_head, punct_head, head_at, in_pattern, glued};
ghost use Rattle.mbe_rules.specs.Patterns.{crate_at};
ghost use Rattle.mbe_rules.specs.Reading.{edition_in, mode_of, op_read, head_read, typing};
ghost use Rattle.mbe_rules.specs.Reading.{variable_read, expression_read};
ghost use Rattle.mbe_rules.specs.declared.errors.ParseError.TheVariants as error;

use crate::errors::ParseError;
use crate::parse::editions::Editions;
use crate::parse::expression::expression;
use crate::parse::fragment_specifier::kind_of;
use crate::parser::Op;
use std::alloc::{AllocError, Global};
use symbols::Symbol;
use tt::{TtElement, TtIter};
use tt_data::{Delimiter, DelimiterKind, Ident, IdentIsRaw, Leaf, Literal, Punct, Span};

// Whether a matcher or a transcriber is parsed.
#[derive(Clone, Copy, PartialEq, Eq)]
pub(crate) enum Mode {
    Pattern,
    Template,
}

// What is parsed, or the first fault.
pub(crate) type Parsed<T> = Result<T, ParseError>;

// An op, and the trees after it.
pub(crate) type Read<'a> = (Op, TtIter<'a>);

// A symbol with this text. Its only error is out of memory.
fn symbol(alloc: Global, text: &str) -> Result<Symbol, AllocError>
    ensures { IfOk result (λ s. s ≡ text.now) }
{
    match Symbol::new(alloc, text) {
        Ok(symbol) => Ok(symbol),
        Err(_) => Err(AllocError),
    }
}

// The fault that a token is not allowed where it is.
pub(crate) fn unexpected(alloc: Global, text: &str) -> Result<ParseError, AllocError>
    ensures { IfOk result (λ e. e ≡ error.UnexpectedToken text.now) }
{
    Ok(ParseError::UnexpectedToken(symbol(alloc, text)?))
}

// The fault that something is missing.
pub(crate) fn expected(alloc: Global, text: &str) -> Result<ParseError, AllocError>
    ensures { IfOk result (λ e. e ≡ error.Expected text.now) }
{
    Ok(ParseError::Expected(symbol(alloc, text)?))
}

// The fragment specifier after a colon at the front of a list, and the trees after it. `None` if
// there is none.
fn typing<'a>(trees: &TtIter<'a>) -> Option<(Ident, TtIter<'a>)>
    ensures { result ≡ typing trees.now }
{
    let mut rest = trees.copied();
    let Ok(()) = rest.expect_char(':') else {
        return None;
    };
    match rest.expect_ident() {
        Ok(word) => Some((word, rest)),
        Err(()) => None,
    }
}

// A metavariable of a matcher: a colon and a fragment specifier have to come after its name.
fn typed_variable<'a>(
    alloc: Global,
    editions: Editions,
    id: Span,
    name: Symbol,
    trees: &TtIter<'a>,
) -> Result<Parsed<Read<'a>>, AllocError>
    ensures { IfOk result (λ r. op_read r ≡ variable_read (edition_in editions) in_pattern id name
        trees.now) }
{
    let Some((word, rest)) = typing(trees) else {
        let e = unexpected(alloc, "missing fragment specifier")?;
        return Ok(Err(e));
    };
    let kind = kind_of(&word, editions);
    Ok(Ok((Op::Var { name, kind, id }, rest)))
}

// A metavariable with this name.
fn variable<'a>(
    alloc: Global,
    editions: Editions,
    mode: Mode,
    id: Span,
    name: Symbol,
    trees: &TtIter<'a>,
) -> Result<Parsed<Read<'a>>, AllocError>
    ensures { IfOk result (λ r. op_read r ≡ variable_read (edition_in editions) (mode_of mode) id
        name trees.now) }
{
    match mode {
        Mode::Pattern => typed_variable(alloc, editions, id, name, trees),
        Mode::Template => {
            let kind = None;
            Ok(Ok((Op::Var { name, kind, id }, trees.copied())))
        }
    }
}

// `$crate`, as an identifier with the span of its `$`.
fn crate_at(alloc: Global, span: Span) -> Result<Op, AllocError>
    ensures { IfOk result (λ o. put_op o done ≡ item (word (crate_at span)) done) }
{
    let sym = symbol(alloc, "$crate")?;
    let is_raw = IdentIsRaw::No;
    Ok(Op::Ident(Ident { sym, span, is_raw }))
}

// What a `$` before a name begins.
fn dollar_name<'a>(
    alloc: Global,
    editions: Editions,
    mode: Mode,
    sign: Punct,
    name: Ident,
    rest: TtIter<'a>,
) -> Result<Parsed<Read<'a>>, AllocError>
    ensures { IfOk result (λ r. op_read r ≡ head_read sign (leaf (as_leaf.Ident name) rest.entry)
        (dollar_head (edition_in editions) (mode_of mode) (leaf (as_leaf.Ident name) rest.entry))) }
{
    if name.sym.as_str() == "crate" {
        let op = crate_at(alloc, sign.span)?;
        return Ok(Ok((op, rest)));
    }
    variable(alloc, editions, mode, sign.span, name.sym, &rest)
}

// Whether a literal is `true` or `false`, which can be a name.
fn is_name(literal: &Literal) -> bool
    ensures { result ≡ (is_truth literal.now.text && is_nil literal.now.suffix) }
{
    let text = literal.text();
    if text == "true" {
        return literal.suffix().is_empty();
    }
    if text == "false" {
        return literal.suffix().is_empty();
    }
    false
}

// What a `$` before a literal begins.
fn dollar_literal<'a>(
    alloc: Global,
    editions: Editions,
    mode: Mode,
    sign: Punct,
    literal: &Literal,
    rest: TtIter<'a>,
) -> Result<Parsed<Read<'a>>, AllocError>
    ensures { IfOk result (λ r. op_read r
        ≡ head_read sign (leaf (as_leaf.Literal literal.now) rest.entry)
        (dollar_head (edition_in editions) (mode_of mode) (leaf (as_leaf.Literal literal.now)
        rest.entry))) }
{
    if !is_name(literal) {
        let e = expected(alloc, "expected ident")?;
        return Ok(Err(e));
    }
    let name = symbol(alloc, literal.text())?;
    variable(alloc, editions, mode, sign.span, name, &rest)
}

// What a `$` before a punct begins: in a transcriber the second of two `$` stays.
fn dollar_punct<'a>(
    alloc: Global,
    mode: Mode,
    sign: Punct,
    second: Punct,
    rest: TtIter<'a>,
) -> Result<Parsed<Read<'a>>, AllocError>
    ensures { IfOk result (λ r. (edition : SyntaxContext → Edition) → op_read r
        ≡ head_read sign (leaf (as_leaf.Punct second) rest.entry)
        (dollar_head edition (mode_of mode) (leaf (as_leaf.Punct second) rest.entry))) }
{
    if second.char != '$' {
        let e = expected(alloc, "expected ident")?;
        return Ok(Err(e));
    }
    match mode {
        Mode::Pattern => {
            let e = unexpected(alloc, "`$$` is not allowed on the pattern side")?;
            Ok(Err(e))
        }
        Mode::Template => {
            let mut puncts = Vec::new(alloc);
            puncts.push(second)?;
            Ok(Ok((Op::Punct(puncts), rest)))
        }
    }
}

// The metavariable expression that `${..}` is.
fn braces<'a>(
    alloc: Global,
    sign: Punct,
    inner: TtIter<'a>,
    rest: TtIter<'a>,
) -> Result<Parsed<Read<'a>>, AllocError>
    ensures { IfOk result (λ r. op_read r ≡ expression_read sign inner.entry rest.entry) }
{
    // Out of memory is its only error.
    let Ok(read) = expression(alloc, inner, sign.span) else {
        return Err(AllocError);
    };
    match read {
        Some(op) => Ok(Ok((op, rest))),
        None => {
            let e = unexpected(alloc, "invalid metavariable expression")?;
            Ok(Err(e))
        }
    }
}

// What a `$` before a group begins. It is no repetition.
fn dollar_group<'a>(
    alloc: Global,
    mode: Mode,
    sign: Punct,
    delimiter: Delimiter,
    inner: TtIter<'a>,
    rest: TtIter<'a>,
) -> Result<Parsed<Read<'a>>, AllocError>
    ensures { IfOk result (λ r. (edition : SyntaxContext → Edition) → op_read r
        ≡ head_read sign (group delimiter inner.entry rest.entry)
        (dollar_head edition (mode_of mode) (group delimiter inner.entry rest.entry))) }
{
    match delimiter.kind {
        DelimiterKind::Brace => match mode {
            Mode::Pattern => {
                let text = "`${}` metavariable expressions are not allowed in matchers";
                let e = unexpected(alloc, text)?;
                Ok(Err(e))
            }
            Mode::Template => braces(alloc, sign, inner, rest),
        },
        _ => {
            let e = expected(alloc, "expected `$()` repetition or `${}` expression")?;
            Ok(Err(e))
        }
    }
}

// What a `$` begins, except for a repetition.
fn dollar<'a>(
    alloc: Global,
    editions: Editions,
    mode: Mode,
    sign: Punct,
    trees: &TtIter<'a>,
) -> Result<Parsed<Read<'a>>, AllocError>
    ensures { IfOk result (λ r. op_read r ≡ head_read sign trees.now
        (dollar_head (edition_in editions) (mode_of mode) trees.now)) }
{
    let mut rest = trees.copied();
    match rest.next() {
        None => {
            let mut puncts = Vec::new(alloc);
            puncts.push(sign)?;
            Ok(Ok((Op::Punct(puncts), rest)))
        }
        Some(TtElement::Leaf(Leaf::Ident(name))) => dollar_name(
            alloc, editions, mode, sign, name, rest,
        ),
        Some(TtElement::Leaf(Leaf::Literal(literal))) => dollar_literal(
            alloc, editions, mode, sign, &literal, rest,
        ),
        Some(TtElement::Leaf(Leaf::Punct(second))) => dollar_punct(alloc, mode, sign, second, rest),
        Some(TtElement::Subtree(subtree, inner)) => dollar_group(
            alloc,
            mode,
            sign,
            subtree.delimiter,
            inner,
            rest,
        ),
    }
}

// The one to three puncts that are glued to one operator, and the trees after them.
fn glued<'a>(
    alloc: Global,
    first: Punct,
    trees: &TtIter<'a>,
) -> Result<(Op, TtIter<'a>), AllocError>
    ensures { IfOk result (λ r. Ok (put_op r.0 done, r.1)
        ≡ head_read first trees.now
        (Ok (glued (glued_count (leaf (as_leaf.Punct first) trees.now))))) }
{
    let (glued, rest) = trees.copied().glued_to(first);
    let mut puncts = Vec::new(alloc);
    puncts.extend_from_slice(glued.as_slice())?;
    Ok((Op::Punct(puncts), rest))
}

// What a quote of a matcher begins: its name has to follow.
fn named_quote<'a>(
    alloc: Global,
    sign: Punct,
    trees: &TtIter<'a>,
) -> Result<Parsed<Read<'a>>, AllocError>
    requires { sign.char ≡ 39 }
    ensures { IfOk result (λ r. op_read r ≡ head_read sign trees.now (punct_head in_pattern sign
        trees.now)) }
{
    let mut rest = trees.copied();
    match rest.next() {
        Some(TtElement::Leaf(Leaf::Ident(name))) => Ok(Ok((Op::Lifetime(sign, name), rest))),
        _ => {
            let e = unexpected(alloc, "quote without a name")?;
            Ok(Err(e))
        }
    }
}

// What a punct begins that is no `$`.
fn punct<'a>(
    alloc: Global,
    mode: Mode,
    sign: Punct,
    trees: &TtIter<'a>,
) -> Result<Parsed<Read<'a>>, AllocError>
    ensures { IfOk result (λ r. op_read r ≡ head_read sign trees.now (punct_head (mode_of mode) sign
        trees.now)) }
{
    match mode {
        Mode::Pattern => {
            if sign.char == '\'' {
                return named_quote(alloc, sign, trees);
            }
            let read = glued(alloc, sign, trees)?;
            Ok(Ok(read))
        }
        Mode::Template => {
            let read = glued(alloc, sign, trees)?;
            Ok(Ok(read))
        }
    }
}

// What a punct begins, except for a repetition.
pub(crate) fn head<'a>(
    alloc: Global,
    editions: Editions,
    mode: Mode,
    sign: Punct,
    trees: &TtIter<'a>,
) -> Result<Parsed<Read<'a>>, AllocError>
    ensures { IfOk result (λ r. op_read r ≡ head_read sign trees.now (head_at (edition_in editions)
        (mode_of mode) sign trees.now)) }
{
    if sign.char == '$' {
        return dollar(alloc, editions, mode, sign, trees);
    }
    punct(alloc, mode, sign, trees)
}

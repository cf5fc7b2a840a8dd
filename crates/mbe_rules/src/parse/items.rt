//! Parses lists of ops. One loop parses nested lists, with the lists around the innermost one in
//! memory, so that nesting takes no call stack.
ghost use Rattle.std.specs.Prelude.{◌≡◌, [], ◌∷◌, ◌++◌, IfOk};
ghost use Rattle.tt_data.specs.declared.edition.Edition.{Edition};
ghost use Rattle.tt_data.specs.declared.span.SyntaxContext.{SyntaxContext};
ghost use Rattle.tt_data.specs.Forest.{empty, leaf};
ghost use Rattle.tt_data.specs.declared.leaf.Leaf.TheVariants as as_leaf;
ghost use Rattle.mbe_rules.specs.Items.{done};
ghost use Rattle.mbe_rules.specs.Lists.{enclosed, found_read, Leaves, left_for, whole, weight};
ghost use Rattle.mbe_rules.specs.Lists.{step_read, IsLess};
ghost use Rattle.mbe_rules.specs.Ops as ops;
ghost use Rattle.mbe_rules.specs.Ops.{put_op};
ghost use Rattle.mbe_rules.specs.Patterns as patterns;
ghost use Rattle.mbe_rules.specs.Patterns.{items_of};
ghost use Rattle.mbe_rules.specs.Reading.{edition_in, mode_of, ops_read, repetition_parts};

use crate::errors::ParseError;
use crate::parse::dollar::{Mode, Parsed, head};
use crate::parse::editions::Editions;
use crate::parse::repetition::repeat;
use crate::parser::{Op, RepeatKind, Separator};
use std::alloc::{AllocError, Global};
use tt::{TtElement, TtIter};
use tt_data::{Delimiter, DelimiterKind, Leaf, Punct};

// An op with a list inside, without that list.
#[derive(Drop)]
pub(crate) enum Enclosing {
    Group(Delimiter),
    Repetition(Option<Separator>, RepeatKind),
}

// What is at the front of a list, and the trees after it.
#[derive(Drop)]
pub(crate) enum Found<'a> {
    Nothing,
    Item(Op, TtIter<'a>),
    // An op with a list inside, and the trees of that list.
    List(Enclosing, TtIter<'a>, TtIter<'a>),
}

// A list around the present one: its ops before that one, and the trees after it.
#[derive(Drop)]
pub(crate) struct Around<'a> {
    pub(crate) before: Vec<Op>,
    pub(crate) enclosing: Enclosing,
    pub(crate) rest: TtIter<'a>,
}

// The innermost list: its ops so far, its trees that are left, and the lists around it, the
// outermost first.
#[derive(Drop)]
pub(crate) struct Nest<'a> {
    pub(crate) before: Vec<Op>,
    pub(crate) rest: TtIter<'a>,
    pub(crate) around: Vec<Around<'a>>,
}

// More is left to parse, or all is parsed.
#[derive(Drop)]
pub(crate) enum Step<'a> {
    More(Nest<'a>),
    Last(Parsed<Vec<Op>>),
}

// The op with this list inside.
pub(crate) fn enclosed(enclosing: Enclosing, tokens: Vec<Op>) -> Op
    ensures { put_op result done ≡ enclosed enclosing (ops.items_of tokens.items) }
{
    match enclosing {
        Enclosing::Group(delimiter) => Op::Subtree { tokens, delimiter },
        Enclosing::Repetition(separator, kind) => Op::Repeat {
            tokens,
            separator,
            kind,
        },
    }
}

// The trees inside a repetition that begins with this punct, and the trees after its parentheses.
fn repetition<'a>(sign: Punct, trees: &TtIter<'a>) -> Option<(TtIter<'a>, TtIter<'a>)>
    ensures { result ≡ repetition_parts sign trees.now }
{
    if sign.char != '$' {
        return None;
    }
    let mut rest = trees.copied();
    match rest.next()? {
        TtElement::Subtree(subtree, inner) => {
            if subtree.delimiter.kind == DelimiterKind::Parenthesis {
                Some((inner, rest))
            } else {
                None
            }
        }
        TtElement::Leaf(_leaf) => None,
    }
}

// What a punct begins, before these trees.
fn at_punct<'a>(
    alloc: Global,
    editions: Editions,
    mode: Mode,
    sign: Punct,
    trees: &TtIter<'a>,
) -> Result<Parsed<Found<'a>>, AllocError>
    ensures read { IfOk result (λ r. items_of (edition_in editions) (mode_of mode)
        (leaf (as_leaf.Punct sign) trees.now) ≡ found_read (edition_in editions) (mode_of mode) r) }
    ensures leaves { IfOk result (λ r. Leaves (leaf (as_leaf.Punct sign) trees.now) r) }
{
    let Some((inner, behind)) = repetition(sign, trees) else {
        return match head(alloc, editions, mode, sign, trees)? {
            Ok((op, rest)) => Ok(Ok(Found::Item(op, rest))),
            Err(e) => Ok(Err(e)),
        };
    };
    match repeat(alloc, &behind)? {
        Some((separator, kind, rest)) => Ok(Ok(Found::List(
            Enclosing::Repetition(separator, kind),
            inner,
            rest,
        ))),
        None => Ok(Err(ParseError::InvalidRepeat)),
    }
}

// What is at the front of a list.
fn at_head<'a>(
    alloc: Global,
    editions: Editions,
    mode: Mode,
    trees: &TtIter<'a>,
) -> Result<Parsed<Found<'a>>, AllocError>
    ensures read { IfOk result (λ r. items_of (edition_in editions) (mode_of mode) trees.now
        ≡ found_read (edition_in editions) (mode_of mode) r) }
    ensures leaves { IfOk result (λ r. Leaves trees.now r) }
{
    let mut rest = trees.copied();
    match rest.next() {
        None => Ok(Ok(Found::Nothing)),
        Some(TtElement::Leaf(Leaf::Ident(ident))) => Ok(Ok(Found::Item(Op::Ident(ident), rest))),
        Some(TtElement::Leaf(Leaf::Literal(literal))) => {
            Ok(Ok(Found::Item(Op::Literal(literal), rest)))
        }
        Some(TtElement::Leaf(Leaf::Punct(sign))) => at_punct(alloc, editions, mode, sign, &rest),
        Some(TtElement::Subtree(subtree, inner)) => Ok(Ok(Found::List(
            Enclosing::Group(subtree.delimiter),
            inner,
            rest,
        ))),
    }
}

// The nest with one more op in its innermost list, before these trees.
fn put<'a>(nest: Nest<'a>, op: Op, rest: TtIter<'a>) -> Result<Nest<'a>, AllocError>
    ensures before { IfOk result (λ o. o.before.items ≡ nest.entry.before.items ++ (op ∷ [])) }
    ensures rest { IfOk result (λ o. o.rest ≡ rest.entry) }
    ensures around { IfOk result (λ o. o.around.items ≡ nest.entry.around.items) }
{
    let mut before = nest.before;
    before.push(op)?;
    Ok(Nest {
        before,
        rest,
        around: nest.around,
    })
}

// Enters a list inside this one. `rest` are the trees after it.
fn enter<'a>(
    alloc: Global,
    nest: Nest<'a>,
    enclosing: Enclosing,
    inner: TtIter<'a>,
    rest: TtIter<'a>,
) -> Result<Nest<'a>, AllocError>
    ensures before { IfOk result (λ o. o.before.items ≡ []) }
    ensures rest { IfOk result (λ o. o.rest ≡ inner.entry) }
    ensures around { IfOk result (λ o. o.around.items ≡ nest.entry.around.items
        ++ (left_for nest.entry enclosing rest.entry ∷ [])) }
{
    let mut around = nest.around;
    around.push(Around {
        before: nest.before,
        enclosing,
        rest,
    })?;
    Ok(Nest {
        before: Vec::new(alloc),
        rest: inner,
        around,
    })
}

// Leaves a list: the list around it, with the op that has this list inside. If none is around,
// all is parsed.
fn leave<'a>(nest: Nest<'a>) -> Result<Step<'a>, AllocError>
    requires { nest.rest ≡ empty }
    ensures read { IfOk result (λ s. (edition : SyntaxContext → Edition) → (m : patterns.Mode) →
        whole edition m nest.entry ≡ step_read edition m s) }
    ensures less { IfOk result (λ s. IsLess (weight nest.entry) s) }
{
    let mut around = nest.around;
    let Some(list) = around.pop() else {
        return Ok(Step::Last(Ok(nest.before)));
    };
    let mut before = list.before;
    before.push(enclosed(list.enclosing, nest.before))?;
    Ok(Step::More(Nest {
        before,
        rest: list.rest,
        around,
    }))
}

// Parses what is at the front of the innermost list.
fn read_on<'a>(
    alloc: Global,
    editions: Editions,
    mode: Mode,
    nest: Nest<'a>,
) -> Result<Step<'a>, AllocError>
    ensures read { IfOk result (λ s. whole (edition_in editions) (mode_of mode) nest.entry
        ≡ step_read (edition_in editions) (mode_of mode) s) }
    ensures less { IfOk result (λ s. IsLess (weight nest.entry) s) }
{
    match at_head(alloc, editions, mode, &nest.rest)? {
        Ok(Found::Nothing) => leave(nest),
        Ok(Found::Item(op, rest)) => {
            let more = put(nest, op, rest)?;
            Ok(Step::More(more))
        }
        Ok(Found::List(enclosing, inner, rest)) => {
            let more = enter(alloc, nest, enclosing, inner, rest)?;
            Ok(Step::More(more))
        }
        Err(e) => Ok(Step::Last(Err(e))),
    }
}

// The ops of a list of trees.
pub(crate) fn items<'a>(
    alloc: Global,
    editions: Editions,
    mode: Mode,
    trees: &TtIter<'a>,
) -> Result<Parsed<Vec<Op>>, AllocError>
    ensures { IfOk result (λ r. ops_read r ≡ items_of (edition_in editions) (mode_of mode)
        trees.now) }
{
    let mut nest = Nest {
        before: Vec::new(alloc),
        rest: trees.copied(),
        around: Vec::new(alloc),
    };
    loop {
        match read_on(alloc, editions, mode, nest)? {
            Step::More(more) => nest = more,
            Step::Last(read) => return Ok(read),
        }
    }
}

//! Parses what comes after `$(..)`: a separator and an operator.
ghost use Rattle.std.specs.Prelude.{◌≡◌, Some, IfOk, option_map};
ghost use Rattle.mbe_rules.specs.Ops.{separator_of};
ghost use Rattle.mbe_rules.specs.Repetitions.{operator_of, after_one, after_two};
ghost use Rattle.mbe_rules.specs.Repetitions.{between_and_operator};
ghost use Rattle.mbe_rules.specs.Trees.{signs};
ghost use Rattle.mbe_rules.specs.Reading.{taken_from, repeat_of, operator_next};
ghost use Rattle.mbe_rules.specs.declared.parser.RepeatKind.{RepeatKind};
ghost use Rattle.tt_data.specs.Forest.{Forest, leaf};
ghost use Rattle.tt_data.specs.declared.leaf.Leaf.TheVariants as as_leaf;

use crate::parser::{RepeatKind, Separator};
use std::alloc::{AllocError, Global};
use tt::{TtElement, TtIter};
use tt_data::{Leaf, Punct};

// A separator, an operator, and the trees after them.
pub(crate) type Repeat<'a> = (Option<Separator>, RepeatKind, TtIter<'a>);

// The operator that a character is.
fn operator_of(c: char) -> Option<RepeatKind>
    ensures { result ≡ operator_of c }
{
    match c {
        '*' => Some(RepeatKind::ZeroOrMore),
        '+' => Some(RepeatKind::OneOrMore),
        '?' => Some(RepeatKind::ZeroOrOne),
        _ => None,
    }
}

// The operator at the front of a list.
fn operator_next<'a>(trees: &TtIter<'a>) -> Option<(RepeatKind, TtIter<'a>)>
    ensures { result ≡ operator_next trees.now }
{
    let mut rest = trees.copied();
    match rest.next()? {
        TtElement::Leaf(Leaf::Punct(punct)) => {
            let operator = operator_of(punct.char)?;
            Some((operator, rest))
        }
        _ => None,
    }
}

// This separator, and the operator at the front of the list after it.
fn followed<'a>(separator: Separator, trees: &TtIter<'a>) -> Option<Repeat<'a>>
    ensures { repeat_of result
        ≡ option_map (λ (x : RepeatKind × Forest). (Some (separator_of separator), x.0, x.1))
        (operator_next trees.now) }
{
    let (operator, after) = operator_next(trees)?;
    Some((Some(separator), operator, after))
}

// The separator and the operator that begin with these two puncts.
fn after_two<'a>(
    alloc: Global,
    first: Punct,
    second: Punct,
    trees: &TtIter<'a>,
) -> Result<Option<Repeat<'a>>, AllocError>
    ensures { IfOk result (λ r. repeat_of r
        ≡ taken_from (leaf (as_leaf.Punct first) (leaf (as_leaf.Punct second) trees.now))
        (after_two (signs trees.now))) }
{
    let mut rest = trees.copied();
    let Some(TtElement::Leaf(Leaf::Punct(third))) = rest.next() else {
        return Ok(None);
    };
    let mut puncts = Vec::new(alloc);
    puncts.push(first)?;
    puncts.push(second)?;
    match operator_of(third.char) {
        Some(operator) => Ok(Some((Some(Separator::Puncts(puncts)), operator, rest))),
        None => {
            puncts.push(third)?;
            Ok(followed(Separator::Puncts(puncts), &rest))
        }
    }
}

// The separator and the operator that begin with this punct.
fn after_one<'a>(
    alloc: Global,
    first: Punct,
    trees: &TtIter<'a>,
) -> Result<Option<Repeat<'a>>, AllocError>
    ensures { IfOk result (λ r. repeat_of r ≡ taken_from (leaf (as_leaf.Punct first) trees.now)
        (after_one first.char (signs trees.now))) }
{
    let mut rest = trees.copied();
    match rest.next() {
        Some(TtElement::Leaf(Leaf::Ident(name))) => {
            if first.char != '\'' {
                return Ok(None);
            }
            Ok(followed(Separator::Lifetime(first, name), &rest))
        }
        Some(TtElement::Leaf(Leaf::Punct(second))) => match operator_of(second.char) {
            Some(operator) => {
                if first.char == '\'' {
                    return Ok(None);
                }
                let mut puncts = Vec::new(alloc);
                puncts.push(first)?;
                Ok(Some((Some(Separator::Puncts(puncts)), operator, rest)))
            }
            None => after_two(alloc, first, second, &rest),
        },
        _ => Ok(None),
    }
}

// The separator and the operator at the front of a list, as they come after `$(..)`.
pub(crate) fn repeat<'a>(
    alloc: Global,
    trees: &TtIter<'a>,
) -> Result<Option<Repeat<'a>>, AllocError>
    ensures { IfOk result (λ r. repeat_of r
        ≡ taken_from trees.now (between_and_operator (signs trees.now))) }
{
    let mut rest = trees.copied();
    match rest.next() {
        Some(TtElement::Leaf(Leaf::Literal(literal))) => {
            Ok(followed(Separator::Literal(literal), &rest))
        }
        Some(TtElement::Leaf(Leaf::Ident(ident))) => Ok(followed(Separator::Ident(ident), &rest)),
        Some(TtElement::Leaf(Leaf::Punct(punct))) => match operator_of(punct.char) {
            Some(operator) => Ok(Some((None, operator, rest))),
            None => after_one(alloc, punct, &rest),
        },
        _ => Ok(None),
    }
}

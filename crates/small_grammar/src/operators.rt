//! Sets of operators. Their puncts are glued.
ghost use Rattle.std.specs.Prelude.{◌≡◌};
ghost use Rattle.small_grammar.specs.SmallGrammar.{takes, glued, binop};
ghost use Rattle.small_grammar.specs.Tokens.{is_operator};

use crate::units::{Operator, first_operator};
use tt::TtIter;

fn is_sign(operator: Operator) -> bool
    ensures { result ≡ is_operator "- ! *" operator }
{
    matches!(operator, Operator::One('-' | '!' | '*'))
}

fn is_reference(operator: Operator) -> bool
    ensures { result ≡ is_operator "& &&" operator }
{
    matches!(operator, Operator::One('&') | Operator::Two('&', '&'))
}

fn is_range(operator: Operator) -> bool
    ensures { result ≡ is_operator "..= .." operator }
{
    matches!(
        operator,
        Operator::Two('.', '.') | Operator::Three('.', '.', '=')
    )
}

fn is_binop(operator: Operator) -> bool
    ensures { result ≡ is_operator "+ - * / % ^ & | && || << >> == != < > <= >= = += -= *= /= %= ^= &= |= <<= >>= .. ..=" operator }
{
    match operator {
        Operator::One(first) => matches!(
            first,
            '+' | '-' | '*' | '/' | '%' | '^' | '&' | '|' | '<' | '>' | '='
        ),
        Operator::Two(first, '=') => matches!(
            first,
            '=' | '!' | '<' | '>' | '+' | '-' | '*' | '/' | '%' | '^' | '&' | '|'
        ),
        Operator::Two(first, second) => first == second
            && matches!(first, '&' | '|' | '<' | '>' | '.'),
        Operator::Three(first, second, '=') => first == second && matches!(first, '<' | '>' | '.'),
        Operator::Three(_, _, _) => false,
    }
}

/// `-`, `!` or `*`.
pub(crate) fn sign<'a>(trees: &TtIter<'a>) -> Option<TtIter<'a>>
    ensures { result ≡ takes (glued "- ! *") trees.now }
{
    let (operator, rest) = first_operator(trees)?;
    if is_sign(operator) { Some(rest) } else { None }
}

/// `&` or `&&`.
pub(crate) fn reference<'a>(trees: &TtIter<'a>) -> Option<TtIter<'a>>
    ensures { result ≡ takes (glued "& &&") trees.now }
{
    let (operator, rest) = first_operator(trees)?;
    if is_reference(operator) {
        Some(rest)
    } else {
        None
    }
}

/// `..=` or `..`.
pub(crate) fn range<'a>(trees: &TtIter<'a>) -> Option<TtIter<'a>>
    ensures { result ≡ takes (glued "..= ..") trees.now }
{
    let (operator, rest) = first_operator(trees)?;
    if is_range(operator) { Some(rest) } else { None }
}

/// An operator between two operands.
pub(crate) fn binop<'a>(trees: &TtIter<'a>) -> Option<TtIter<'a>>
    ensures { result ≡ takes binop trees.now }
{
    let (operator, rest) = first_operator(trees)?;
    if is_binop(operator) { Some(rest) } else { None }
}

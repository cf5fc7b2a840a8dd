//! The operator at the front of a list of trees.
ghost use Rattle.std.specs.Prelude.{◌≡◌};
ghost use Rattle.tt.specs.Glued.{characters};
ghost use Rattle.small_grammar.specs.Tokens.{operator_of, first_operator};

use tt::TtIter;
use tt_data::Punct;

/// One punct, or two or three that are glued to one operator.
#[derive(Clone, Copy, PartialEq, Eq)]
pub enum Operator {
    /// One punct.
    One(char),
    /// Two puncts.
    Two(char, char),
    /// Three puncts.
    Three(char, char, char),
}

// The operator that these puncts are.
fn operator_of(puncts: &[Punct]) -> Option<Operator>
    ensures { result ≡ operator_of (characters puncts.now) }
{
    match puncts {
        [a] => Some(Operator::One(a.char)),
        [a, b] => Some(Operator::Two(a.char, b.char)),
        [a, b, c] => Some(Operator::Three(a.char, b.char, c.char)),
        _ => None,
    }
}

/// The operator at the front, and the trees after it.
pub fn first_operator<'a>(trees: &TtIter<'a>) -> Option<(Operator, TtIter<'a>)>
    ensures { result ≡ first_operator trees.now }
{
    let mut rest = trees.copied();
    let Ok(puncts) = rest.expect_glued_punct() else {
        return None;
    };
    let operator = operator_of(puncts.as_slice())?;
    Some((operator, rest))
}

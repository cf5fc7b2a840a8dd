//! Single tokens of the table.
ghost use Rattle.std.specs.Prelude.{◌≡◌, ◌<◌, IsTrue, map};
ghost use Rattle.std.specs.List.{list_any};
ghost use Rattle.small_grammar.specs.Tokens.{is_one_of_words, same_operator};
ghost use Rattle.rust_grammar.specs.Table.{is_sound_token, letters, set_texts, token_of};
ghost use Rattle.rust_grammar.specs.Tokens.{token_at, one_of, a_literal, is_c_string};

use crate::names::{const_bracket, name, year_of};
use crate::node::Token;
use crate::nodes::{operators_of, text_of};
use small_grammar::names::restriction;
use small_grammar::tokens::{group_of, identifier, number, punct, two_puncts, word};
use small_grammar::units::{Operator, first_operator};
use tt::TtIter;
use tt_data::{Edition, LitKind};

// Whether two operators have the same characters.
fn is_same(known: Operator, operator: Operator) -> bool
    ensures { result ≡ same_operator known operator }
{
    known == operator
}

// Whether an operator is one of these.
fn is_among(operators: &[Operator], operator: Operator) -> bool
    ensures { result ≡ list_any (λ known. same_operator known operator) operators.now }
{
    for known in operators {
        if is_same(*known, operator) {
            return true;
        }
    }
    false
}

// One of the operators of a set.
#[tactic(auto, unfolding(crate::specs::Tokens::token_at))]
fn one_of<'a>(edition: Edition, set: u8, trees: &TtIter<'a>) -> Option<TtIter<'a>>
    requires { set < 23 }
    ensures { result ≡ token_at edition (one_of (set_texts set)) trees.now }
{
    let (operator, rest) = first_operator(trees)?;
    if is_among(operators_of(set), operator) {
        Some(rest)
    } else {
        None
    }
}

// Whether a literal is a C string.
fn is_c_string(kind: LitKind) -> bool
    ensures { result ≡ is_c_string kind }
{
    match kind {
        LitKind::CStr | LitKind::CStrRaw(_) => true,
        _ => false,
    }
}

// A literal, which before edition 2021 no C string is.
#[tactic(auto, unfolding(crate::specs::Tokens::token_at))]
fn literal<'a>(edition: Edition, trees: &TtIter<'a>) -> Option<TtIter<'a>>
    ensures { result ≡ token_at edition a_literal trees.now }
{
    let (kind, rest) = trees.first_literal()?;
    if year_of(edition) < 2021 && is_c_string(kind) {
        None
    } else {
        Some(rest)
    }
}

/// The trees after a token, or `None` if another one comes first.
#[tactic(auto, unfolding(crate::specs::Tokens::token_at))]
pub(crate) fn behind<'a>(edition: Edition, token: Token, trees: &TtIter<'a>) -> Option<TtIter<'a>>
    requires { IsTrue (is_sound_token token) }
    ensures { result ≡ token_at edition (token_of token) trees.now }
{
    match token {
        Token::Word(text) => word(trees, text_of(text)),
        Token::Name => name(edition, trees),
        Token::Identifier => identifier(trees),
        Token::Literal => literal(edition, trees),
        Token::Number => number(trees),
        Token::Group(kind) => group_of(trees, kind),
        Token::Restriction => restriction(trees),
        Token::ConstBracket => const_bracket(edition, trees),
        Token::Punct(char) => punct(trees, char),
        Token::TwoPuncts(first, second) => two_puncts(trees, first, second),
        Token::OneOf(set) => one_of(edition, set, trees),
    }
}

//! Single tokens. Each function gives the trees after the token, or `None` if another one comes
//! first.
ghost use Rattle.std.specs.Prelude.{◌≡◌, [], ◌∷◌};
ghost use Rattle.small_grammar.specs.Expressions.{◌∣◌};
ghost use Rattle.small_grammar.specs.Signs.{joint_punct};
ghost use Rattle.small_grammar.specs.SmallGrammar.{takes, paren, bracket, group, lifetime};
ghost use Rattle.small_grammar.specs.Tokens.{token_at, a_word, an_identifier, a_literal, a_number};
ghost use Rattle.small_grammar.specs.Tokens.{a_group, puncts, operator, same_operator};

use crate::names::has_text;
use crate::units::{Operator, first_operator};
use tt::TtIter;
use tt_data::{DelimiterKind, LitKind, Spacing};

/// An identifier of this text that isn't raw.
#[tactic(auto, unfolding(crate::specs::Tokens::token_at))]
pub fn word<'a>(trees: &TtIter<'a>, text: &str) -> Option<TtIter<'a>>
    ensures { result ≡ token_at (a_word text.now) trees.now }
{
    let (ident, rest) = trees.lent_ident()?;
    if has_text(ident, text) {
        Some(rest)
    } else {
        None
    }
}

/// Any identifier.
#[tactic(auto, unfolding(crate::specs::Tokens::token_at))]
pub fn identifier<'a>(trees: &TtIter<'a>) -> Option<TtIter<'a>>
    ensures { result ≡ token_at an_identifier trees.now }
{
    let (_, rest) = trees.first_ident()?;
    Some(rest)
}

/// A literal of any kind.
#[tactic(auto, unfolding(crate::specs::Tokens::token_at))]
pub fn literal<'a>(trees: &TtIter<'a>) -> Option<TtIter<'a>>
    ensures { result ≡ token_at a_literal trees.now }
{
    let (_, rest) = trees.first_literal()?;
    Some(rest)
}

/// An integer or a float.
#[tactic(auto, unfolding(crate::specs::Tokens::token_at))]
pub fn number<'a>(trees: &TtIter<'a>) -> Option<TtIter<'a>>
    ensures { result ≡ token_at a_number trees.now }
{
    let (kind, rest) = trees.first_literal()?;
    match kind {
        LitKind::Integer | LitKind::Float => Some(rest),
        _ => None,
    }
}

/// A group in brackets of this kind.
#[tactic(auto, unfolding(crate::specs::Tokens::token_at))]
pub fn group_of<'a>(trees: &TtIter<'a>, kind: DelimiterKind) -> Option<TtIter<'a>>
    ensures { result ≡ token_at (a_group kind) trees.now }
{
    let (delimiter, _, rest) = trees.first_group()?;
    if kind == delimiter.kind {
        Some(rest)
    } else {
        None
    }
}

/// A group in parentheses or square brackets.
pub(crate) fn parts<'a>(trees: &TtIter<'a>) -> Option<TtIter<'a>>
    ensures { result ≡ takes (paren ∣ bracket) trees.now }
{
    match group_of(trees, DelimiterKind::Parenthesis) {
        Some(rest) => Some(rest),
        None => group_of(trees, DelimiterKind::Bracket),
    }
}

/// A group in visible brackets.
#[tactic(auto, unfolding(crate::specs::Tokens::token_at))]
pub(crate) fn group<'a>(trees: &TtIter<'a>) -> Option<TtIter<'a>>
    ensures { result ≡ takes group trees.now }
{
    let (delimiter, _, rest) = trees.first_group()?;
    match delimiter.kind {
        DelimiterKind::Invisible => None,
        _ => Some(rest),
    }
}

/// A punct of this character.
#[tactic(auto, unfolding(crate::specs::Tokens::token_at))]
pub fn punct<'a>(trees: &TtIter<'a>, char: char) -> Option<TtIter<'a>>
    ensures { result ≡ token_at (puncts (char ∷ [])) trees.now }
{
    let (punct, rest) = trees.first_punct()?;
    if punct.char == char { Some(rest) } else { None }
}

// A punct of this character that isn't `Alone`.
fn joint_punct<'a>(trees: &TtIter<'a>, char: char) -> Option<TtIter<'a>>
    ensures { result ≡ joint_punct char trees.now }
{
    let (punct, rest) = trees.first_punct()?;
    if punct.char == char && punct.spacing != Spacing::Alone {
        Some(rest)
    } else {
        None
    }
}

/// A punct of the first character that isn't `Alone`, and one of the second.
#[tactic(auto, unfolding(crate::specs::Tokens::token_at))]
pub fn two_puncts<'a>(trees: &TtIter<'a>, first: char, second: char) -> Option<TtIter<'a>>
    ensures { result ≡ token_at (puncts (first ∷ second ∷ [])) trees.now }
{
    punct(&joint_punct(trees, first)?, second)
}

/// A quote and any identifier.
#[tactic(auto, unfolding(crate::specs::SmallGrammar::lifetime))]
pub(crate) fn lifetime<'a>(trees: &TtIter<'a>) -> Option<TtIter<'a>>
    ensures { result ≡ takes lifetime trees.now }
{
    let rest = punct(trees, '\'')?;
    identifier(&rest)
}

fn same_operator(first: Operator, second: Operator) -> bool
    ensures { result ≡ same_operator first second }
{
    first == second
}

/// The puncts of this operator, glued.
#[tactic(auto, unfolding(crate::specs::Tokens::token_at))]
pub(crate) fn glued<'a>(trees: &TtIter<'a>, wanted: Operator) -> Option<TtIter<'a>>
    ensures { result ≡ token_at (operator wanted) trees.now }
{
    let (found, rest) = first_operator(trees)?;
    if same_operator(wanted, found) {
        Some(rest)
    } else {
        None
    }
}

//! Finds whether a piece is a definition, and its parts.
ghost use Rattle.std.specs.Prelude.{◌≡◌, Option, option_map, unwrap_or};
ghost use Rattle.expander_model.specs.Definitions.{after_attribute, after_attributes};
ghost use Rattle.expander_model.specs.Definitions.{after_parenthesis, after_word, after_pub};
ghost use Rattle.expander_model.specs.Definitions.{after_macro_rules, has_attribute, is_semicolon};
ghost use Rattle.expander_model.specs.Definitions.{ends_definition, macro_rules_of, macro_body};
ghost use Rattle.expander_model.specs.Definitions.{macro_of, definition_of};

use cfg_options::first_attribute;
use cfg_options::small_grammar::names::has_text;
use std::marker::Model;
use tt::TtIter;
use tt_data::{Delimiter, DelimiterKind, Ident};

/// A definition of a macro. Its trees are borrowed from the text.
#[derive(Drop)]
pub struct Definition<'a> {
    pub name: Ident,
    /// The group before the body, for a `macro` with a single rule.
    pub arguments: Option<TtIter<'a>>,
    pub body: TtIter<'a>,
    /// Whether it is a `macro`; else it is a `macro_rules`.
    pub is_macro: bool,
    /// The whole piece.
    pub piece: TtIter<'a>,
}

impl<'a> Model for Definition<'a> {
    ghost use Rattle.expander_model.specs.Definitions.{Definition, definition_code};

    ghost Value = { Definition };

    ghost coded = { definition_code };

    ghost view = { λ d. record {
      name = d.name;
      arguments = d.arguments;
      body = d.body;
      is_macro =
          d.is_macro;
      piece = d.piece;
    } };
}

// What follows an outer attribute, if the list begins with one.
fn after_attribute<'a>(trees: &TtIter<'a>) -> Option<TtIter<'a>>
    ensures { result ≡ after_attribute trees.now }
{
    let (pound, after_pound) = trees.first_punct()?;
    if pound.char != '#' {
        return None;
    }
    let (brackets, _, rest) = after_pound.first_group()?;
    if brackets.kind == DelimiterKind::Bracket {
        Some(rest)
    } else {
        None
    }
}

/// What follows the outer attributes at the beginning.
pub fn after_attributes<'a>(piece: &TtIter<'a>) -> TtIter<'a>
    ensures { result ≡ after_attributes piece.now }
{
    let mut rest = piece.copied();
    while let Some(after) = after_attribute(&rest) {
        rest = after;
    }
    rest
}

// What follows a parenthesis group at the beginning.
fn after_parenthesis<'a>(trees: &TtIter<'a>) -> Option<TtIter<'a>>
    ensures { result ≡ after_parenthesis trees.now }
{
    let (brackets, _, rest) = trees.first_group()?;
    if brackets.kind == DelimiterKind::Parenthesis {
        Some(rest)
    } else {
        None
    }
}

/// What follows this word, which isn't raw, at the beginning.
pub fn after_word<'a>(trees: &TtIter<'a>, word: &str) -> Option<TtIter<'a>>
    ensures { result ≡ after_word word.now trees.now }
{
    let (name, rest) = trees.lent_ident()?;
    if has_text(name, word) {
        Some(rest)
    } else {
        None
    }
}

/// Whether one of the outer attributes of a piece begins with this word.
pub fn has_attribute(piece: &TtIter<'_>, word: &str) -> bool
    ensures { result ≡ has_attribute word.now piece.now }
{
    let mut rest = piece.copied();
    while let Some((inner, after)) = first_attribute(&rest) {
        if after_word(&inner, word).is_some() {
            return true;
        }
        rest = after;
    }
    false
}

/// What follows a `pub`, with its parenthesis group, at the beginning.
pub fn after_pub<'a>(trees: &TtIter<'a>) -> Option<TtIter<'a>>
    ensures { result ≡ after_pub trees.now }
{
    let rest = after_word(trees, "pub")?;
    match after_parenthesis(&rest) {
        Some(after) => Some(after),
        None => Some(rest),
    }
}

// Whether the trees are exactly a `;`.
pub(crate) fn is_semicolon(trees: &TtIter<'_>) -> bool
    ensures { result ≡ is_semicolon trees.now }
{
    match trees.first_punct() {
        Some((punct, rest)) => punct.char == ';' && rest.is_empty(),
        None => false,
    }
}

fn ends_definition(brackets: Delimiter, rest: &TtIter<'_>) -> bool
    ensures { result ≡ ends_definition brackets rest.now }
{
    match brackets.kind {
        DelimiterKind::Brace => rest.is_empty(),
        DelimiterKind::Parenthesis | DelimiterKind::Bracket => is_semicolon(rest),
        DelimiterKind::Invisible => false,
    }
}

// What follows `macro_rules !` at the beginning.
fn after_macro_rules<'a>(trees: &TtIter<'a>) -> Option<TtIter<'a>>
    ensures { result ≡ after_macro_rules trees.now }
{
    let rest = after_word(trees, "macro_rules")?;
    let (bang, after_bang) = rest.first_punct()?;
    if bang.char == '!' {
        Some(after_bang)
    } else {
        None
    }
}

// `macro_rules ! name { .. }`.
fn macro_rules_of<'a>(piece: &TtIter<'a>, trees: &TtIter<'a>) -> Option<Definition<'a>>
    ensures { result ≡ macro_rules_of piece.now trees.now }
{
    let after = after_macro_rules(trees)?;
    let (name, after_name) = after.first_ident()?;
    let (brackets, body, rest) = after_name.first_group()?;
    if !ends_definition(brackets, &rest) {
        return None;
    }
    Some(Definition {
        name,
        arguments: None,
        body,
        is_macro: false,
        piece: piece.copied(),
    })
}

// The body of a `macro`: `{ .. }`, or after its one rule's matcher, `(..) { .. }`.
fn macro_body<'a>(trees: &TtIter<'a>) -> Option<(Option<TtIter<'a>>, TtIter<'a>)>
    ensures { result ≡ macro_body trees.now }
{
    let (brackets, inner, rest) = trees.first_group()?;
    if rest.is_empty() {
        return if brackets.kind == DelimiterKind::Brace {
            Some((None, inner))
        } else {
            None
        };
    }
    if brackets.kind != DelimiterKind::Parenthesis {
        return None;
    }
    let (braces, body, last) = rest.first_group()?;
    if braces.kind == DelimiterKind::Brace && last.is_empty() {
        Some((Some(inner), body))
    } else {
        None
    }
}

// `macro name { .. }` or `macro name(..) { .. }`.
fn macro_of<'a>(piece: &TtIter<'a>, trees: &TtIter<'a>) -> Option<Definition<'a>>
    ensures { result ≡ macro_of piece.now trees.now }
{
    let after = after_word(trees, "macro")?;
    let (name, after_name) = after.first_ident()?;
    let (arguments, body) = macro_body(&after_name)?;
    Some(Definition {
        name,
        arguments,
        body,
        is_macro: true,
        piece: piece.copied(),
    })
}

/// The definition that a piece is, or `None` for a plain piece. (The Rust Reference, "Macros By
/// Example"; Rust's unstable book, `decl_macro`.)
pub fn definition_of<'a>(piece: &TtIter<'a>) -> Option<Definition<'a>>
    ensures { result ≡ definition_of piece.now }
{
    let rest = after_attributes(piece);
    match macro_rules_of(piece, &rest) {
        Some(definition) => Some(definition),
        None => match after_pub(&rest) {
            Some(after) => macro_of(piece, &after),
            None => macro_of(piece, &rest),
        },
    }
}

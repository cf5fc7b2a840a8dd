//! Names, by edition.
ghost use Rattle.std.specs.Prelude.{◌≡◌, ◌||◌, codes};
ghost use Rattle.tt_data.specs.Editions.{year_of};
ghost use Rattle.tt_data.specs.Lent.{ident_lent};
ghost use Rattle.tt.specs.FirstTrees.{first_ident};
ghost use Rattle.rust_grammar.specs.Tokens.{token_at, a_name, a_const_bracket, is_name};
ghost use Rattle.rust_grammar.specs.Tokens.{is_reserved, is_not_yet_reserved, is_of_2018};
ghost use Rattle.rust_grammar.specs.Tokens.{is_lone_const};

use small_grammar::names::{has_text, is_path_word, is_raw_name, is_reserved as is_ever_reserved};
use tt::TtIter;
use tt_data::{DelimiterKind, Edition, IdentRef};

/// The year that an edition is named after.
pub(crate) fn year_of(edition: Edition) -> u16
    ensures { result ≡ year_of edition }
{
    match edition {
        Edition::Edition2015 => 2015,
        Edition::Edition2018 => 2018,
        Edition::Edition2021 => 2021,
        Edition::Edition2024 => 2024,
    }
}

// Whether edition 2018 was the first to reserve the word.
fn is_of_2018(text: &str) -> bool
    ensures { result ≡ is_of_2018 text.now }
{
    text == "async" || text == "await" || text == "dyn" || text == "try"
}

// Whether a later edition reserves the word.
fn is_not_yet_reserved(edition: Edition, text: &str) -> bool
    ensures { result ≡ is_not_yet_reserved edition text.now }
{
    let year = year_of(edition);
    year < 2018 && is_of_2018(text) || year < 2024 && text == "gen"
}

// Whether the edition reserves the word.
fn is_reserved(edition: Edition, text: &str) -> bool
    ensures { result ≡ is_reserved edition text.now }
{
    is_ever_reserved(text) && !is_not_yet_reserved(edition, text)
}

// Whether it is a name in the edition.
fn is_name(edition: Edition, ident: IdentRef<'_>) -> bool
    ensures { result ≡ is_name edition (ident_lent ident.entry) }
{
    let text = ident.sym.as_str();
    text != "_" && (is_raw_name(ident) || !is_reserved(edition, text) || is_path_word(text))
}

/// A name.
#[tactic(auto, unfolding(crate::specs::Tokens::token_at))]
pub(crate) fn name<'a>(edition: Edition, trees: &TtIter<'a>) -> Option<TtIter<'a>>
    ensures { result ≡ token_at edition a_name trees.now }
{
    let (ident, rest) = trees.lent_ident()?;
    if is_name(edition, ident) {
        Some(rest)
    } else {
        None
    }
}

// Whether these trees are exactly the word `const`.
fn is_lone_const(trees: &TtIter<'_>) -> bool
    ensures { result ≡ is_lone_const (first_ident trees.now) }
{
    match trees.lent_ident() {
        Some((ident, rest)) => rest.is_empty() && has_text(ident, "const"),
        None => false,
    }
}

/// A bracket group of exactly `const`.
#[tactic(auto, unfolding(crate::specs::Tokens::token_at))]
pub(crate) fn const_bracket<'a>(edition: Edition, trees: &TtIter<'a>) -> Option<TtIter<'a>>
    ensures { result ≡ token_at edition a_const_bracket trees.now }
{
    let (delimiter, inner, rest) = trees.first_group()?;
    if delimiter.kind == DelimiterKind::Bracket && is_lone_const(&inner) {
        Some(rest)
    } else {
        None
    }
}

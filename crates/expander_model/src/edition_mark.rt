//! The edition that a mark before a definition says.
ghost use Rattle.std.specs.Prelude.{◌≡◌};
ghost use Rattle.expander_model.specs.EditionMarks.{edition_in, edition_named, marked_edition};

use tt::TtIter;
use tt_data::{DelimiterKind, Edition};

// The edition of this word.
fn edition_named(word: &str) -> Option<Edition>
    ensures { result ≡ edition_named word.now }
{
    match word {
        "$2015" => Some(Edition::Edition2015),
        "$2018" => Some(Edition::Edition2018),
        "$2021" => Some(Edition::Edition2021),
        "$2024" => Some(Edition::Edition2024),
        _ => None,
    }
}

// The edition of the mark that the trees begin with.
fn marked_edition(trees: &TtIter<'_>) -> Option<Edition>
    ensures { result ≡ marked_edition trees.now }
{
    let (pound, after_pound) = trees.first_punct()?;
    if pound.char != '#' {
        return None;
    }
    let (brackets, inside, _) = after_pound.first_group()?;
    if brackets.kind != DelimiterKind::Bracket {
        return None;
    }
    let (word, _) = inside.lent_ident()?;
    edition_named(word.sym.as_str())
}

/// The edition of a definition's identifiers: that of the mark before it, `# [ $2021 ]`, or else
/// this one. No text has such a mark.
pub fn edition_in(edition: Edition, piece: &TtIter<'_>) -> Edition
    ensures { result ≡ edition_in edition piece.now }
{
    match marked_edition(piece) {
        Some(own) => own,
        None => edition,
    }
}

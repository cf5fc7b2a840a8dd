//! The words that name files of definitions.
ghost use Rattle.std.specs.Prelude.{◌≡◌, option_map, IfOk};
ghost use Rattle.program_files.specs.Others.{Meant, parts_of};

use crate_picks::edition_of;
use expander_sources::home::Home;
use std::alloc::{AllocError, Global};

/// What a word names.
#[derive(Drop)]
pub(crate) enum Other<'a> {
    /// A file of definitions, and the crate that they are of: `None` for that of the text.
    File(Option<Home>, &'a str),
    /// Nothing: this is no name of a crate.
    BadRoot(&'a str),
    /// Nothing: this is no edition.
    BadEdition(&'a str),
}

// The root, the edition and the file of a word `ROOT@EDITION=FILE`.
fn parts_of(word: &str) -> Option<(&str, &str, &str)>
    ensures { option_map (λ p. (p.0.now, (p.1.now, p.2.now))) result ≡ parts_of word.now }
{
    let (front, file) = word.split_once('=')?;
    let (root, edition) = front.split_once('@')?;
    Some((root, edition, file))
}

/// What a word `FILE` or `ROOT@EDITION=FILE` names.
pub(crate) fn other_of(alloc: Global, word: &str) -> Result<Other<'_>, AllocError>
    ensures { IfOk result (Meant word.now) }
{
    let Some((root, year, file)) = parts_of(word) else {
        return Ok(Other::File(None, word));
    };
    let Some(edition) = edition_of(year) else {
        return Ok(Other::BadEdition(year));
    };
    match Home::new(alloc, root, edition)? {
        Some(home) => Ok(Other::File(Some(home), file)),
        None => Ok(Other::BadRoot(root)),
    }
}

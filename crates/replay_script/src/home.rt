//! Words that name a crate of another text: its root and its edition.
ghost use Rattle.std.specs.Prelude.{◌≢◌, ◌∷◌, [], IfOk, MatchOption, Option};
ghost use Rattle.expander_sources.specs.Homes.{Home as HomeOf};
ghost use Rattle.replay_script.specs.Words.{IsHome};

use crate::words::cut_at;
use crate_picks::edition_of;
use expander::Home;
use std::alloc::{AllocError, Global};

// The home that a word `ROOT@EDITION` names. `None` if it names no home.
fn crate_home(alloc: Global, word: &str) -> Result<Option<Option<Home>>, AllocError>
    requires { word.now ≢ 45 ∷ [] }
    ensures { IfOk result (λ o. MatchOption o
        ((home : Option HomeOf) → IsHome word.now home → ⊥) (IsHome word.now)) }
{
    let Some((root, year)) = cut_at(word, '@') else {
        return Ok(None);
    };
    let Some(edition) = edition_of(year) else {
        return Ok(None);
    };
    match Home::new(alloc, root, edition)? {
        Some(home) => Ok(Some(Some(home))),
        None => Ok(None),
    }
}

/// The home that a word `-` or `ROOT@EDITION` names: `-` names that of the text that is expanded,
/// which is none. `None` if it names no home.
pub(crate) fn home_of(alloc: Global, word: &str) -> Result<Option<Option<Home>>, AllocError>
    ensures { IfOk result (λ o. MatchOption o
        ((home : Option HomeOf) → IsHome word.now home → ⊥) (IsHome word.now)) }
{
    match word {
        "-" => Ok(Some(None)),
        _ => crate_home(alloc, word),
    }
}

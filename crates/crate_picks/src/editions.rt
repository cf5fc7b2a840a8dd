//! Names of editions, as options and scripts have them.
ghost use Rattle.std.specs.Prelude.{◌≡◌, ◌≢◌, MatchOption};
ghost use Rattle.tt_data.specs.declared.edition.Edition.{Edition};
ghost use Rattle.crate_picks.specs.Editions.{edition_name};

use tt_data::Edition;

/// The edition of a name, if it is one's.
pub fn edition_of(name: &str) -> Option<Edition>
    ensures { MatchOption result ((e : Edition) → name.now ≢ edition_name e)
        (λ e. name.now ≡ edition_name e) }
{
    match name {
        "2015" => Some(Edition::Edition2015),
        "2018" => Some(Edition::Edition2018),
        "2021" => Some(Edition::Edition2021),
        "2024" => Some(Edition::Edition2024),
        _ => None,
    }
}

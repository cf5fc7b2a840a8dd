//! The files of an installed library in which its macros are defined.
use crate_picks::edition_of;
use tt_data::Edition;

/// The crates of the library.
pub(crate) static CRATES: [&str; 3] = ["core", "alloc", "std"];

/// The files below the library's folder, each in the folder of its crate.
pub(crate) static FILES: [&str; 4] = [
    "core/src/macros/mod.rs",
    "alloc/src/macros.rs",
    "std/src/macros.rs",
    "std/src/thread/local.rs",
];

// The edition that a line of a manifest names, if it does.
fn edition_at(line: &str) -> Option<Edition> {
    let value = line.strip_prefix("edition")?.trim().strip_prefix('=')?;
    edition_of(value.trim().strip_prefix('"')?.strip_suffix('"')?)
}

/// The edition that a crate's manifest names.
pub(crate) fn edition_in(manifest: &str) -> Option<Edition> {
    for line in manifest.lines() {
        if let Some(edition) = edition_at(line) {
            return Some(edition);
        }
    }
    None
}

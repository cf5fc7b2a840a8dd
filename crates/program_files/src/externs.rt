//! Other crates, from their roots.

use crate::disk::Disk;
use crate::files::misused;
use crate::imports::{Brought, Import};
use crate::load::Ended;
use crate::other::{Other, other_of};
use crate::walked::{Walked, crate_from};
use crate_walk::{Event, ImportItem};
use expander_sources::home::Home;
use expander_sources::prelude::Prelude;
use std::alloc::{AllocError, Global};
use tt_data::TtFault;

/// Another crate.
#[derive(Drop)]
pub(crate) struct Extern {
    pub(crate) home: Home,
    pub(crate) walked: Walked,
}

// The crate with this root file, which a word names. Its sources have the numbers behind this one.
fn rooted_at(
    rt: &HostRuntime,
    disk: &Disk<'_>,
    word: &str,
    home: Option<Home>,
    root: &str,
    last: u32,
) -> Result<Extern, Ended> {
    let Some(home) = home else {
        return wrong(rt, word, "NAME@EDITION=ROOT is wanted");
    };
    let walked = crate_from(rt, disk, root, last, Some(&home))?;
    Ok(Extern { home, walked })
}

// The crate that a word names, whose sources have the numbers behind this one.
fn extern_of(rt: &HostRuntime, disk: &Disk<'_>, word: &str, last: u32) -> Result<Extern, Ended> {
    match other_of(rt.alloc(), word)? {
        Other::File(home, root) => rooted_at(rt, disk, word, home, root, last),
        Other::BadRoot(_) => wrong(rt, word, "this is no name of a crate"),
        Other::BadEdition(_) => wrong(rt, word, "there is no such edition"),
    }
}

// The end where a word is wrong.
fn wrong<T>(rt: &HostRuntime, word: &str, why: &str) -> Result<T, Ended> {
    Err(Ended::Status(misused(rt, word, &why)?))
}

/// The crates that words name, in order, and the number of their last source. Their sources have
/// the numbers behind this one.
pub(crate) fn externs_of(
    rt: &HostRuntime,
    disk: &Disk<'_>,
    words: &[&str],
    last: u32,
) -> Result<(Vec<Extern>, u32), Ended> {
    let mut all = Vec::new(rt.alloc());
    let mut last = last;
    for word in words {
        let one = extern_of(rt, disk, word, last)?;
        let count = one.walked.modules.file_count().min(1_000_000) as u32;
        last = last.saturating_add(count);
        all.push(one)?;
    }
    Ok((all, last))
}

impl Extern {
    /// Adds all definitions of the crate behind its root.
    pub(crate) fn push_rooted(&self, alloc: Global, prelude: &mut Prelude) -> Result<(), TtFault> {
        for file in &self.walked.definitions {
            if let Some(definitions) = file {
                prelude.push_rooted(alloc, definitions.source(), &self.home)?;
            }
        }
        Ok(())
    }

    // Adds what an import brings of the crate: the macro that its path leads to, or by `*` all that
    // the module offers to which it leads.
    fn push_imported(&self, item: &ImportItem, brought: &mut Brought) -> Result<(), AllocError> {
        let Some((root, path)) = item.path.as_slice().split_first() else {
            return Ok(());
        };
        if root.as_str() != self.home.root() {
            return Ok(());
        }
        match &item.name {
            Some(shown) => {
                let place = self.walked.imports.export(path);
                brought.push_at(shown.as_str(), place)
            }
            None => self.walked.imports.push_exports(path, brought),
        }
    }

    /// What an event of another crate brings of this one: an `extern crate` with `macro_use` all
    /// that it exports, an import what it names.
    pub(crate) fn brought(&self, alloc: Global, event: &Event) -> Result<Vec<Import>, AllocError> {
        let mut brought = Brought::new(alloc);
        match event {
            Event::Crate(item) if item.keeps_macros && item.name.as_str() == self.home.root() => {
                self.walked.imports.push_exports(&[], &mut brought)?;
            }
            Event::Import(item) => self.push_imported(item, &mut brought)?,
            _ => {}
        }
        Ok(brought.all)
    }
}

/// Adds what an event brings of other crates.
pub(crate) fn push_event(
    alloc: Global,
    externs: &[Extern],
    event: &Event,
    prelude: &mut Prelude,
) -> Result<(), TtFault> {
    for one in externs {
        for import in &one.brought(alloc, event)? {
            one.walked.push_import(alloc, import, prelude)?;
        }
    }
    Ok(())
}

//! Many files in one another.
use cfg_options::CfgOptions;
use crate_items::content_of;
use crate_walk::{Content, Files, Unread, walk_crate};
use std::alloc::{AllocError, Global};
use std::test::Fail;

/// Files `0.rs`, `1.rs` and so on, up to this number: each has the next as a module.
#[derive(Drop)]
struct Chain<'a> {
    last: usize,
    options: &'a CfgOptions,
}

// The number of a file with this path.
fn number_of(path: &str) -> Option<usize> {
    path.strip_suffix(".rs")?.parse::<usize>().ok()
}

impl<'a> Files for Chain<'a> {
    ghost finds = { λ _ _ _. Unit {0} };

    ghost reads = { λ _ _ _. Unit {0} };

    fn find(&self, alloc: Global, path: &str) -> Result<Option<String>, AllocError> {
        match number_of(path) {
            Some(number) if number <= self.last => Ok(Some(String::from_str(alloc, path)?)),
            _ => Ok(None),
        }
    }

    fn read(&self, alloc: Global, name: &str) -> Result<Content, AllocError> {
        let Some(number) = number_of(name) else {
            return Ok(Content::Unread(Unread::Failed));
        };
        let next = number.saturating_add(1);
        let text = format!(in alloc; "#[path = \"{next}.rs\"] mod m;")?;
        content_of(alloc, self.options, text)
    }
}

// How many files the walk from the first file reads, and how many steps it has.
fn counts(alloc: Global, last: usize) -> Result<(usize, usize), Fail> {
    let options = CfgOptions::new(alloc);
    let files = Chain {
        last,
        options: &options,
    };
    match walk_crate(alloc, &files, "0.rs", usize::MAX)? {
        Some(modules) => Ok((modules.file_count(), modules.steps().len())),
        None => Err(Fail::new("no root")),
    }
}

// Each file is entered and ends; the module of the last one has no file.
#[test]
fn files_in_one_another(rt: HostRuntime) -> Result<(), Fail> {
    for (last, files, steps) in [(0, 1, 2), (1, 2, 4), (10_000, 10_001, 20_002)] {
        assert_eq!(rt; counts(rt.alloc(), last)?, (files, steps));
    }
    Ok(())
}

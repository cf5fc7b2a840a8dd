//! A definition under another name.

use crate_picks::Definitions;
use expander_sources::home::Home;
use expander_sources::prelude::Prelude;
use expander_sources::source::{Source, SourceRead};
use std::alloc::{AllocError, Global};
use tt_data::{TextRange, TtFault};

/// The same home.
pub(crate) fn home_of(alloc: Global, home: Option<&Home>) -> Result<Option<Home>, AllocError> {
    match home {
        Some(home) => Ok(Some(home.try_clone(alloc)?)),
        None => Ok(None),
    }
}

// A part of a text: nothing where there is no such part.
fn part(text: &str, start: u32, end: u32) -> &str {
    text.get(start as usize..end as usize).unwrap_or("")
}

// The text of a definition in which another name stands for its own.
fn renamed(
    alloc: Global,
    text: &str,
    whole: TextRange,
    own: TextRange,
    name: &str,
) -> Result<String, AllocError> {
    let mut renamed = String::from_str(alloc, part(text, whole.start, own.start))?;
    renamed.push_str(name)?;
    renamed.push_str(part(text, own.end, whole.end))?;
    Ok(renamed)
}

/// Adds the definition whose name begins at this offset of a text, under another name. It is a
/// source of its own, at the same home, so the origins of its tokens are counted from its
/// beginning.
pub(crate) fn push_renamed(
    alloc: Global,
    definitions: &Definitions,
    text: &str,
    start: usize,
    name: &str,
    prelude: &mut Prelude,
) -> Result<(), TtFault> {
    let Some(i) = definitions.index_at(start) else {
        return Ok(());
    };
    let source = definitions.source();
    let text = renamed(alloc, text, source.range(i), source.name_range(i), name)?;
    let number = source.number();
    if number == 0 || text.len() > u32::MAX as usize {
        return Ok(());
    }
    let home = home_of(alloc, source.home())?;
    match Source::new(alloc, text.as_str(), number, home)? {
        SourceRead::Read(source) if source.len() > 0 => prelude.push(alloc, &source, 0),
        _ => Ok(()),
    }
}

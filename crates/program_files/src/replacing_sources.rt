//! Texts that count in place of single files of definitions.
ghost use Rattle.std.specs.Prelude.{◌≤◌};

use crate::disk::Disk;
use crate::load::{Ended, Loaded, Sources, fault_words, refusal};
use crate::renamed::home_of;
use crate::same::same_sources;
use crate::source::code_of;
use crate_walk::Files;
use expander_sources::source::{Source, SourceRead};
use std::alloc::{AllocError, Global};
use tt_data::TtFault;

// The source with this number that a text is, at the home of another one, if it can be read.
fn source_like(
    alloc: Global,
    number: u32,
    known: &Source,
    text: &str,
) -> Result<Option<Source>, TtFault>
    requires { 1 ≤ number }
{
    if text.len() > u32::MAX as usize {
        return Ok(None);
    }
    let home = home_of(alloc, known.home())?;
    match Source::new(alloc, text, number, home)? {
        SourceRead::Read(source) => Ok(Some(source)),
        SourceRead::Unread(_) => Ok(None),
    }
}

// Which of the single files has this name.
fn source_named(
    alloc: Global,
    disk: &Disk<'_>,
    sources: &Sources,
    name: &str,
) -> Result<Option<usize>, AllocError> {
    let first = sources.library.len();
    for i in 0..sources.with.len() {
        let Some(loaded) = sources.files.get(first.saturating_add(i)) else {
            return Ok(None);
        };
        let found = disk.find(alloc, loaded.name.as_str())?;
        match &found {
            Some(found) if found.as_str() == name => return Ok(Some(i)),
            _ => {}
        }
    }
    Ok(None)
}

// The text that is to count: the one that is given, or the one that was read.
fn wanted_text(alloc: Global, loaded: &Loaded, text: Option<&str>) -> Result<String, AllocError> {
    match text {
        Some(text) => match String::from_utf8(code_of(alloc, text)?) {
            Ok(text) => Ok(text),
            Err(_) => Ok(String::new(alloc)),
        },
        None => String::from_str(alloc, loaded.text.as_str()),
    }
}

// Has the single file of this index have this text. Answers whether its definitions are others
// than before.
fn replace_at(
    alloc: Global,
    sources: &mut Sources,
    index: usize,
    text: Option<&str>,
) -> Result<bool, TtFault> {
    let file = sources.library.len().saturating_add(index);
    let number = file.min(1_000_000) as u32 + 1;
    let (Some(known), Some(loaded)) = (sources.with.get(index), sources.files.get(file)) else {
        return Ok(false);
    };
    let text = wanted_text(alloc, loaded, text)?;
    let Some(source) = source_like(alloc, number, known, text.as_str())? else {
        return Ok(false);
    };
    if same_sources(known, loaded.text_now(), &source, text.as_str()) {
        return Ok(false);
    }
    sources.with[index] = source;
    sources.files[file].other = Some(text);
    Ok(true)
}

/// Has this text count as that of the single file with this path, in place of what was read:
/// without a text, what was read counts again. Answers whether its definitions are others than
/// before. If no such file has the path, or the text cannot be read, nothing changes.
pub fn replace_source(
    rt: &HostRuntime,
    disk: &Disk<'_>,
    sources: &mut Sources,
    path: &str,
    text: Option<&str>,
) -> Result<bool, Ended> {
    let Some(name) = disk.find(rt.alloc(), path)? else {
        return Ok(false);
    };
    let Some(index) = source_named(rt.alloc(), disk, sources, name.as_str())? else {
        return Ok(false);
    };
    match replace_at(rt.alloc(), sources, index, text) {
        Ok(changed) => Ok(changed),
        Err(fault) => refusal(rt, path, fault_words(fault)),
    }
}

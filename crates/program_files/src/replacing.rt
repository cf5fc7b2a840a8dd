//! Texts that count in place of what was read of a crate's files.

use crate::calls::Expands;
use crate::chosen::file_named;
use crate::disk::Disk;
use crate::lacking::text_of;
use crate::load::{Ended, fault_words, refusal};
use crate::replacing_sources::replace_source;
use crate::rounds::walk_replaced;
use crate::same::{Change, change_of};
use crate::source::code_of;
use crate::whole::Whole;
use crate_items::content_of_bytes;
use crate_picks::Definitions;
use crate_walk::{Content, Files};
use std::alloc::{AllocError, Global};

// What a file has whose text is this, if it can be read.
fn content_with(alloc: Global, disk: &Disk<'_>, text: &str) -> Result<Option<Content>, AllocError> {
    let content = content_of_bytes(alloc, disk.options, code_of(alloc, text)?)?;
    match content {
        Content::Text(_, _) => Ok(Some(content)),
        Content::Unread(_) => Ok(None),
    }
}

// What was read of the file of this name, if that is not kept as its first text.
fn first_text(alloc: Global, whole: &Whole, name: &str) -> Result<Option<String>, AllocError> {
    if whole.replaced.read_first.get(name).is_some() {
        return Ok(None);
    }
    let modules = &whole.walked.modules;
    match file_named(modules, name) {
        Some(file) => Ok(Some(String::from_str(alloc, text_of(modules, file))?)),
        None => Ok(None),
    }
}

// Keeps what was read of a file as the text that it had first, if none is kept.
fn keep_first(alloc: Global, whole: &mut Whole, name: &str) -> Result<(), AllocError> {
    if let Some(text) = first_text(alloc, whole, name)? {
        let name = String::from_str(alloc, name)?;
        whole.replaced.read_first.insert(name, text)?;
    }
    Ok(())
}

// Notes what the file of this name has in place of what was read: nothing without one.
fn note(
    alloc: Global,
    whole: &mut Whole,
    name: &str,
    content: Option<&Content>,
) -> Result<(), AllocError> {
    let Some(Content::Text(text, _)) = content else {
        whole.replaced.open.remove(name);
        return Ok(());
    };
    keep_first(alloc, whole, name)?;
    let text = String::from_str(alloc, text.as_str())?;
    whole
        .replaced
        .open
        .insert(String::from_str(alloc, name)?, text)?;
    Ok(())
}

// What was read first of the file of this name, if it was replaced at some time.
fn first_content(
    alloc: Global,
    disk: &Disk<'_>,
    whole: &Whole,
    name: &str,
) -> Result<Option<Content>, AllocError> {
    match whole.replaced.text(name) {
        Some(text) => content_with(alloc, disk, text),
        None => Ok(None),
    }
}

// Has the file of this number have this, which declares the same as before: these definitions are
// others.
fn set_content(whole: &mut Whole, file: usize, content: Content, definitions: Option<Definitions>) {
    whole.walked.modules.set_content(file, content);
    if let Some(known) = whole.walked.definitions.get_mut(file) {
        *known = definitions;
    }
}

// Has the file of this number have this, and takes a walk if that is needed.
fn replace_content(
    rt: &HostRuntime,
    disk: &Disk<'_>,
    whole: &mut Whole,
    file: usize,
    content: Content,
    expands: &impl Expands,
) -> Result<bool, Ended> {
    let definitions = match whole.definitions_in(rt.alloc(), file, &content) {
        Ok(definitions) => definitions,
        Err(fault) => return refusal(rt, "definitions of a file", fault_words(fault)),
    };
    let change = change_of(&whole.walked, file, &content, definitions.as_ref());
    if change == Change::Nothing {
        return Ok(false);
    }
    if change == Change::Definitions && !whole.may_hand_on {
        set_content(whole, file, content, definitions);
    } else {
        walk_replaced(rt, disk, whole, expands)?;
    }
    Ok(true)
}

/// Has this text count as that of the file with this path, in place of what was read: without a
/// text, what was read first counts again. Answers whether files of the crate may see other
/// definitions now. If the file is none of the crate, and none that it is expanded after, if the
/// text cannot be read, or if it declares and defines the same as before, nothing changes.
pub fn replace_text(
    rt: &HostRuntime,
    disk: &Disk<'_>,
    whole: &mut Whole,
    path: &str,
    text: Option<&str>,
    expands: &impl Expands,
) -> Result<bool, Ended> {
    let Some(name) = disk.find(rt.alloc(), path)? else {
        return Ok(false);
    };
    let name = name.as_str();
    let content = match text {
        Some(text) => content_with(rt.alloc(), disk, text)?,
        None => None,
    };
    if text.is_some() && content.is_none() {
        return Ok(false);
    }
    note(rt.alloc(), whole, name, content.as_ref())?;
    let Some(file) = file_named(&whole.walked.modules, name) else {
        return replace_source(rt, disk, &mut whole.sources, path, text);
    };
    let content = match content {
        Some(content) => Some(content),
        None => first_content(rt.alloc(), disk, whole, name)?,
    };
    match content {
        Some(content) => replace_content(rt, disk, whole, file, content, expands),
        None => Ok(false),
    }
}

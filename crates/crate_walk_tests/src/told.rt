//! Events and steps as text.
use crate_walk::{
    Content, CrateItem, Event, ImportItem, Lack, MacroItem, ModuleItem, Modules, Place, Step,
    Unread,
};
use std::alloc::{AllocError, Global};

// The names of a path.
fn push_path(text: &mut String, import: &ImportItem) -> Result<(), AllocError> {
    if import.is_global {
        text.push_str("::")?;
    }
    for (i, name) in import.path.iter().enumerate() {
        if i > 0 {
            text.push_str("::")?;
        }
        text.push_str(name.as_str())?;
    }
    Ok(())
}

// A module: its name, and what is said of it.
fn push_module(text: &mut String, item: &ModuleItem) -> Result<(), AllocError> {
    text.push_str("mod ")?;
    text.push_str(item.name.as_str())?;
    if let Some(path) = &item.path {
        text.push_str(" by ")?;
        text.push_str(path.as_str())?;
    }
    if item.keeps_macros {
        text.push_str(" kept")?;
    }
    Ok(())
}

// An import.
fn push_import(text: &mut String, import: &ImportItem) -> Result<(), AllocError> {
    if import.is_public {
        text.push_str("pub ")?;
    }
    text.push_str("use ")?;
    push_path(text, import)?;
    match &import.name {
        Some(name) => {
            text.push_str(" as ")?;
            text.push_str(name.as_str())
        }
        None => text.push_str(" all"),
    }
}

// A definition.
fn push_macro(text: &mut String, item: &MacroItem) -> Result<(), AllocError> {
    if item.is_exported {
        text.push_str("exported ")?;
    }
    text.push_str(if item.is_macro {
        "macro "
    } else {
        "macro_rules "
    })?;
    text.push_str(item.name.as_str())
}

// Another crate.
fn push_crate(text: &mut String, item: &CrateItem) -> Result<(), AllocError> {
    text.push_str("crate ")?;
    text.push_str(item.name.as_str())?;
    if let Some(alias) = &item.alias {
        text.push_str(" as ")?;
        text.push_str(alias.as_str())?;
    }
    if item.keeps_macros {
        text.push_str(" kept")?;
    }
    Ok(())
}

/// An event.
pub(crate) fn push_event(
    alloc: Global,
    text: &mut String,
    event: &Event,
) -> Result<(), AllocError> {
    match event {
        Event::Outline(item) => push_module(text, item),
        Event::Inline(item, count) => {
            push_module(text, item)?;
            let count = format!(in alloc; " of {count}")?;
            text.push_str(count.as_str())
        }
        Event::Macro(item) => push_macro(text, item),
        Event::Import(import) => push_import(text, import),
        Event::Crate(item) => push_crate(text, item),
        Event::MacroUse => text.push_str("macro_use"),
    }
}

/// What a file has: a line for each event.
pub(crate) fn content_told(alloc: Global, content: &Content) -> Result<String, AllocError> {
    let mut text = String::new(alloc);
    match content {
        Content::Unread(Unread::Fault(start)) => {
            let fault = format!(in alloc; "fault at {start}")?;
            text.push_str(fault.as_str())?;
        }
        Content::Unread(Unread::NotUtf8) => text.push_str("no UTF-8")?,
        Content::Unread(Unread::TooLong) => text.push_str("too long")?,
        Content::Unread(Unread::Failed) => text.push_str("failed")?,
        Content::Text(_, events) => {
            for event in events {
                push_event(alloc, &mut text, event)?;
                text.push_str("\n")?;
            }
        }
    }
    Ok(text)
}

// The event at a place.
fn push_at(
    alloc: Global,
    text: &mut String,
    modules: &Modules,
    place: Place,
) -> Result<(), AllocError> {
    match modules.event(place) {
        Some(event) => push_event(alloc, text, event),
        None => text.push_str("no event"),
    }
}

// Why a module has no file.
fn push_lack(alloc: Global, text: &mut String, why: Lack) -> Result<(), AllocError> {
    let why = match why {
        Lack::Missing => format!(in alloc; " missing")?,
        Lack::Ambiguous => format!(in alloc; " twice")?,
        Lack::Cycle(file) => format!(in alloc; " in itself, {file}")?,
        Lack::Unread(file) => format!(in alloc; " unread, {file}")?,
        Lack::TooMany => format!(in alloc; " too many")?,
    };
    text.push_str(why.as_str())
}

// A step.
fn push_step(
    alloc: Global,
    text: &mut String,
    modules: &Modules,
    step: Step,
) -> Result<(), AllocError> {
    match step {
        Step::Item(place) => push_at(alloc, text, modules, place),
        Step::Inline(place) => {
            push_at(alloc, text, modules, place)?;
            text.push_str(" {")
        }
        Step::File(place, file) => {
            push_at(alloc, text, modules, place)?;
            text.push_str(" in ")?;
            text.push_str(modules.file_name(file).unwrap_or("no name"))?;
            text.push_str(" {")
        }
        Step::Lack(place, why) => {
            push_at(alloc, text, modules, place)?;
            push_lack(alloc, text, why)
        }
        Step::End => text.push_str("}"),
    }
}

/// The steps of a walk, a line for each.
pub(crate) fn walk_told(alloc: Global, modules: &Modules) -> Result<String, AllocError> {
    let mut text = String::new(alloc);
    for step in modules.steps() {
        push_step(alloc, &mut text, modules, *step)?;
        text.push_str("\n")?;
    }
    Ok(text)
}

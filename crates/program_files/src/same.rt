//! Whether two texts of a file mean the same for other files, wherever that stands in them.

use crate::lacking::text_of;
use crate::walked::Walked;
use crate_picks::Definitions;
use crate_walk::{Content, CrateItem, Event, ImportItem, MacroItem, ModuleItem};
use expander_sources::source::Source;

fn same_module(a: &ModuleItem, b: &ModuleItem) -> bool {
    a.name == b.name && a.path == b.path && a.keeps_macros == b.keeps_macros
}

fn same_macro(a: &MacroItem, b: &MacroItem) -> bool {
    a.name == b.name && a.is_exported == b.is_exported && a.is_macro == b.is_macro
}

fn same_import(a: &ImportItem, b: &ImportItem) -> bool {
    a.path == b.path && a.is_global == b.is_global && a.name == b.name && a.is_public == b.is_public
}

fn same_crate(a: &CrateItem, b: &CrateItem) -> bool {
    a.name == b.name && a.alias == b.alias && a.keeps_macros == b.keeps_macros
}

fn same_event(a: &Event, b: &Event) -> bool {
    match (a, b) {
        (Event::Outline(a), Event::Outline(b)) => same_module(a, b),
        (Event::Inline(a, n), Event::Inline(b, m)) => n == m && same_module(a, b),
        (Event::Macro(a), Event::Macro(b)) => same_macro(a, b),
        (Event::Import(a), Event::Import(b)) => same_import(a, b),
        (Event::Crate(a), Event::Crate(b)) => same_crate(a, b),
        (Event::MacroUse, Event::MacroUse) => true,
        _ => false,
    }
}

fn same_events(a: &[Event], b: &[Event]) -> bool {
    if a.len() != b.len() {
        return false;
    }
    for i in 0..a.len().min(b.len()) {
        if !same_event(&a[i], &b[i]) {
            return false;
        }
    }
    true
}

// The bytes of a definition of a text.
fn bytes_of<'a>(source: &Source, text: &'a str, i: usize) -> Option<&'a [u8]> {
    if i >= source.len() {
        return None;
    }
    let range = source.range(i);
    text.as_bytes()
        .get(range.start as usize..range.end as usize)
}

/// Whether the definitions of two texts have the same bytes, in order.
pub(crate) fn same_sources(a: &Source, text: &str, b: &Source, other: &str) -> bool {
    if a.len() != b.len() {
        return false;
    }
    for i in 0..a.len() {
        if bytes_of(a, text, i) != bytes_of(b, other, i) {
            return false;
        }
    }
    true
}

fn same_definitions(
    a: Option<&Definitions>,
    text: &str,
    b: Option<&Definitions>,
    other: &str,
) -> bool {
    match (a, b) {
        (Some(a), Some(b)) => same_sources(a.source(), text, b.source(), other),
        (None, None) => true,
        _ => false,
    }
}

/// What of a text's declarations and definitions is another than before.
#[derive(Clone, Copy, PartialEq, Eq)]
pub(crate) enum Change {
    /// Nothing: the bytes of its definitions are the same, and so are its modules and imports.
    Nothing,
    /// The bytes of definitions.
    Definitions,
    /// Which modules, definitions and imports it has.
    Items,
}

/// What changes for other files if a file of a crate has this, whose definitions are these.
pub(crate) fn change_of(
    walked: &Walked,
    file: usize,
    content: &Content,
    definitions: Option<&Definitions>,
) -> Change {
    let (Some(before), Content::Text(text, events)) = (walked.modules.content(file), content) else {
        return Change::Items;
    };
    if !same_events(before.events(), events.as_slice()) {
        return Change::Items;
    }
    let known = match walked.definitions.get(file) {
        Some(known) => known.as_ref(),
        None => None,
    };
    let old = text_of(&walked.modules, file);
    if same_definitions(known, old, definitions, text.as_str()) {
        Change::Nothing
    } else {
        Change::Definitions
    }
}

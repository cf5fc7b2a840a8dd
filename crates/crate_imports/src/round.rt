//! What the names of modules stand for, by what they stood for before.
ghost use Rattle.std.specs.Prelude.{◌≡◌, IfOk, OnOk, map, option_map, string_bytes};
ghost use Rattle.crate_imports.specs.Names.{put_if};
ghost use Rattle.crate_imports.specs.Rounds.{after_round, behind_event, behind_import, behind_item};
ghost use Rattle.crate_imports.specs.Rounds.{behind_macro, behind_module, behind_name, last_name};
ghost use Rattle.crate_imports.specs.Rounds.{led, macro_target, module_target, names_of, nothing};
ghost use Rattle.crate_imports.specs.Rounds.{path_to, with_all};
ghost use Rattle.crate_imports.specs.Tables.{looked_up};
ghost use Rattle.crate_walk.specs.Modules.{files_of};

use crate::paths::reached;
use crate::table::Table;
use crate::target::Target;
use crate::tree::{Declared, Tree};
use crate_walk::{Event, ImportItem, MacroItem, ModuleItem, Modules};
use std::alloc::{AllocError, Global};

/// What names of modules stand for: as modules, as macros, and the `macro_rules` that stand in
/// the module itself.
#[derive(Drop)]
pub struct Known {
    pub(crate) modules: Table,
    pub(crate) macros: Table,
    pub(crate) rules: Table,
}

impl Known {
    /// No name stands for anything.
    pub(crate) fn new(alloc: Global) -> Known
        ensures { names_of result ≡ nothing }
    {
        Known {
            modules: Table::new(alloc),
            macros: Table::new(alloc),
            rules: Table::new(alloc),
        }
    }
}

// The same text.
fn copy(alloc: Global, text: &String) -> Result<String, AllocError>
    ensures { IfOk result (λ t. string_bytes t ≡ string_bytes text.now) }
{
    String::from_str(alloc, text.as_str())
}

// Passes a definition in a module.
fn pass_macro(
    alloc: Global,
    next: &mut Known,
    item: &MacroItem,
    at: Declared,
) -> Result<(), AllocError>
    ensures { OnOk result (names_of next.new ≡ behind_macro (names_of next.old) item.now at) }
{
    let target = Target::Macro(at.place);
    if item.is_macro {
        return next
            .macros
            .put(alloc, at.within, copy(alloc, &item.name)?, target);
    }
    if item.is_exported {
        next.macros.put(alloc, 0, copy(alloc, &item.name)?, target)?;
    }
    next.rules
        .put(alloc, at.within, copy(alloc, &item.name)?, target)
}

// Passes a module in a module.
fn pass_module(
    alloc: Global,
    next: &mut Known,
    item: &ModuleItem,
    at: Declared,
) -> Result<(), AllocError>
    ensures { OnOk result (names_of next.new
        ≡ behind_module (names_of next.old) item.now at.child at.within) }
{
    match at.child {
        Some(number) => {
            let target = Target::Module(number);
            next.modules
                .put(alloc, at.within, copy(alloc, &item.name)?, target)
        }
        None => Ok(()),
    }
}

// The last name of the path of an import.
fn last_name(item: &ImportItem) -> &str
    ensures { result.now ≡ last_name item.now }
{
    match item.path.get(item.path.len().saturating_sub(1)) {
        Some(name) => name.as_str(),
        None => "",
    }
}

// The module to which the names of a path lead, unless the path begins with `::`.
fn led(
    parents: &[Option<usize>],
    modules: &Table,
    item: &ImportItem,
    at: usize,
    names: &[String],
) -> Option<usize>
    ensures { result ≡ led parents.now (looked_up modules.now) item.now at
        (map string_bytes names.now) }
{
    if item.is_global {
        None
    } else {
        reached(parents, modules, at, names)
    }
}

// The module in which an import looks for its last name.
fn path_to(
    parents: &[Option<usize>],
    modules: &Table,
    item: &ImportItem,
    at: usize,
) -> Option<usize>
    ensures { result ≡ path_to parents.now (looked_up modules.now) item.now at }
{
    let names = item.path.as_slice();
    let front = names.len().saturating_sub(1);
    led(parents, modules, item, at, &names[..front])
}

// What an import brings as a macro from this module.
fn macro_target(
    macros: &Table,
    rules: &Table,
    item: &ImportItem,
    at: Declared,
    found: Option<usize>,
) -> Option<Target>
    ensures { result
        ≡ macro_target (looked_up macros.now) (looked_up rules.now) item.now at found }
{
    let Some(found) = found else {
        return Some(Target::Other(at.place));
    };
    let last = last_name(item);
    if item.path.len() == 1 {
        rules.get(at.within, last).or(macros.get(found, last))
    } else {
        macros.get(found, last)
    }
}

// What an import brings as a module from this one.
fn module_target(modules: &Table, item: &ImportItem, found: Option<usize>) -> Option<Target>
    ensures { result ≡ module_target (looked_up modules.now) item.now found }
{
    modules.get(found?, last_name(item))
}

// A name of a module stands for this from now on, if it is there.
fn put_if(
    alloc: Global,
    table: &mut Table,
    at: usize,
    name: &String,
    target: Option<Target>,
) -> Result<(), AllocError>
    ensures { OnOk result (looked_up table.new
        ≡ put_if (looked_up table.old) at (string_bytes name.now) target) }
{
    match target {
        Some(target) => table.put(alloc, at, copy(alloc, name)?, target),
        None => Ok(()),
    }
}

/// The module around each module, and what is known from the round before.
#[derive(Clone, Copy)]
pub(crate) struct Before<'a> {
    pub(crate) parents: &'a [Option<usize>],
    pub(crate) known: &'a Known,
}

// Passes an import of one name.
fn pass_name(
    alloc: Global,
    before: Before<'_>,
    next: &mut Known,
    item: &ImportItem,
    name: &String,
    at: Declared,
) -> Result<(), AllocError>
    ensures { OnOk result (names_of next.new
        ≡ behind_name before.entry.parents.now (names_of before.entry.known.now) (names_of next.old)
        item.now (string_bytes name.now) at) }
{
    let known = before.known;
    let found = path_to(before.parents, &known.modules, item, at.within);
    let target = macro_target(&known.macros, &next.rules, item, at, found);
    put_if(alloc, &mut next.macros, at.within, name, target)?;
    let target = module_target(&known.modules, item, found);
    put_if(alloc, &mut next.modules, at.within, name, target)
}

// Passes an import of all names of a module.
fn pass_all(
    alloc: Global,
    known: &Known,
    next: &mut Known,
    at: usize,
    found: Option<usize>,
) -> Result<(), AllocError>
    ensures { OnOk result (names_of next.new
        ≡ with_all (names_of known.now) (names_of next.old) at found) }
{
    let Some(found) = found else {
        return Ok(());
    };
    next.macros.fill(alloc, at, &known.macros, found)?;
    next.modules.fill(alloc, at, &known.modules, found)
}

// Passes an import.
fn pass_import(
    alloc: Global,
    before: Before<'_>,
    next: &mut Known,
    item: &ImportItem,
    at: Declared,
) -> Result<(), AllocError>
    ensures { OnOk result (names_of next.new
        ≡ behind_import before.entry.parents.now (names_of before.entry.known.now)
        (names_of next.old) item.now (option_map string_bytes item.now.name) at) }
{
    match &item.name {
        Some(name) => pass_name(alloc, before, next, item, name, at),
        None => {
            let names = item.path.as_slice();
            let modules = &before.known.modules;
            let found = led(before.parents, modules, item, at.within, names);
            pass_all(alloc, before.known, next, at.within, found)
        }
    }
}

// Passes an event, which is an item of a module.
fn pass_event(
    alloc: Global,
    before: Before<'_>,
    next: &mut Known,
    event: &Event,
    at: Declared,
) -> Result<(), AllocError>
    ensures { OnOk result (names_of next.new
        ≡ behind_event before.entry.parents.now (names_of before.entry.known.now)
        (names_of next.old) at event.now) }
{
    match event {
        Event::Macro(item) => pass_macro(alloc, next, item, at),
        Event::Outline(item) => pass_module(alloc, next, item, at),
        Event::Inline(item, _) => pass_module(alloc, next, item, at),
        Event::Import(item) => pass_import(alloc, before, next, item, at),
        Event::Crate(_) | Event::MacroUse => Ok(()),
    }
}

// Passes an item of a crate.
fn pass_item(
    alloc: Global,
    modules: &Modules,
    before: Before<'_>,
    next: &mut Known,
    at: Declared,
) -> Result<(), AllocError>
    ensures { OnOk result (names_of next.new
        ≡ behind_item before.entry.parents.now (names_of before.entry.known.now)
        (files_of modules.now) (names_of next.old) at) }
{
    match modules.event(at.place) {
        Some(event) => pass_event(alloc, before, next, event, at),
        None => Ok(()),
    }
}

/// What names stand for after one round more.
pub(crate) fn round(
    alloc: Global,
    modules: &Modules,
    tree: &Tree,
    known: &Known,
) -> Result<Known, AllocError>
    ensures { IfOk result (λ next. names_of next ≡ after_round (files_of modules.now)
        tree.now.parents.items tree.now.declared.items (names_of known.now)) }
{
    let before = Before {
        parents: tree.parents.as_slice(),
        known,
    };
    let mut next = Known::new(alloc);
    for at in &tree.declared {
        pass_item(alloc, modules, before, &mut next, *at)?;
    }
    Ok(next)
}

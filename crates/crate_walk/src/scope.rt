//! Which definitions are in scope by their place. (The Rust Reference, "Macros By Example": textual
//! scope, the `macro_use` attribute.)
ghost use Rattle.std.specs.Prelude.{◌≡◌, ◌++◌, ◌∷◌, [], false, IfOk, OnOk, filter, nat_eq};
ghost use Rattle.std.specs.Prelude.{not};
ghost use Rattle.crate_walk.specs.Files.{Files};
ghost use Rattle.crate_walk.specs.Marks.{IsMarked, all_picks, file_picks};
ghost use Rattle.crate_walk.specs.Modules.{files_of, steps_of};
ghost use Rattle.crate_walk.specs.Scopes.{Scope, after, at_root, holds_at, is_scoped, keeps_macros};
ghost use Rattle.crate_walk.specs.Scopes.{keeps_own, kept, passed};
ghost use Rattle.crate_walk.specs.Scopes.{begins, ends, picks_at, picks_at_end, picks_from};
ghost use Rattle.crate_walk.specs.Scopes.{picks_of, picks_where};

use crate::event::Event;
use crate::modules::Modules;
use crate::step::{Place, Step};
use std::alloc::{AllocError, Global};
use std::collections::VecDeque;

/// The definitions of other files that a file sees by their places: each `macro_rules`, and each
/// `extern crate` whose macros are used.
#[derive(Drop)]
pub struct Picks {
    /// The number of the file.
    pub file: usize,
    /// Where they are, the nearest last.
    pub places: Vec<Place>,
}

/// A module that is begun.
#[derive(Clone, Copy, Drop)]
pub(crate) struct Mark {
    /// How many places were in scope before it.
    pub(crate) from: usize,
    /// Whether its definitions stay in scope.
    pub(crate) keeps: bool,
    /// The number of its file, if it has one of its own.
    pub(crate) file: Option<usize>,
}

/// What is in scope, and the modules that are begun, the innermost first.
#[derive(Drop)]
pub(crate) struct Marked {
    pub(crate) places: Vec<Place>,
    pub(crate) marks: VecDeque<Mark>,
}

// Whether an item is in scope from its place on.
fn is_scoped(event: &Event) -> bool
    ensures { result ≡ is_scoped event.now }
{
    match event {
        Event::Macro(item) => !item.is_macro,
        Event::Crate(item) => item.keeps_macros,
        _ => false,
    }
}

// Whether the definitions of a module stay in scope after it.
fn keeps_macros(event: &Event) -> bool
    ensures { result ≡ keeps_macros event.now }
{
    match event {
        Event::Outline(item) | Event::Inline(item, _) => item.keeps_macros,
        _ => false,
    }
}

// Whether the item at a place is in scope from there on.
fn is_scoped_at(modules: &Modules, place: Place) -> bool
    ensures { result ≡ holds_at is_scoped (files_of modules.now) place }
{
    match modules.event(place) {
        Some(event) => is_scoped(event),
        None => false,
    }
}

// Whether the item at a place keeps the definitions of its module in scope.
fn keeps_own_at(modules: &Modules, place: Place) -> bool
    ensures { result ≡ holds_at keeps_own (files_of modules.now) place }
{
    match modules.event(place) {
        Some(Event::MacroUse) => true,
        _ => false,
    }
}

// Whether the definitions of the module at a place stay in scope after it.
fn keeps_macros_at(modules: &Modules, place: Place) -> bool
    ensures { result ≡ holds_at keeps_macros (files_of modules.now) place }
{
    match modules.event(place) {
        Some(event) => keeps_macros(event),
        None => false,
    }
}

// The places of other files than this.
fn picks_of(alloc: Global, places: &[Place], file: usize) -> Result<Picks, AllocError>
    ensures { IfOk result (λ p. file_picks p ≡ picks_of file places.now) }
{
    let mut others = Vec::new(alloc);
    for place in places {
        if place.file != file {
            others.push(*place)?;
        }
    }
    Ok(Picks {
        file,
        places: others,
    })
}

// A module begins.
fn enter(scope: &mut Marked, keeps: bool, file: Option<usize>) -> Result<(), AllocError>
    ensures { OnOk result ((s : Scope) → IsMarked scope.old s
        → IsMarked scope.new (begins s keeps file)) }
{
    let from = scope.places.len();
    scope.marks.push_front(Mark { from, keeps, file })?;
    Ok(())
}

// The definitions of the innermost module stay in scope after it.
fn keep(scope: &mut Marked) -> Result<(), AllocError>
    ensures { OnOk result ((s : Scope) → IsMarked scope.old s
        → IsMarked scope.new (record s { begun = kept s.begun })) }
{
    if let Some(mark) = scope.marks.pop_front() {
        scope.marks.push_front(Mark {
            keeps: true,
            ..mark
        })?;
    }
    Ok(())
}

// An item is in scope from here on, if it can be.
fn pass(scope: &mut Marked, is_scoped: bool, place: Place) -> Result<(), AllocError>
    ensures { OnOk result ((s : Scope) → IsMarked scope.old s
        → IsMarked scope.new (passed s place is_scoped false)) }
{
    if is_scoped {
        scope.places.push(place)?;
    }
    Ok(())
}

// Passes an item that is no module.
fn pass_item(modules: &Modules, scope: &mut Marked, place: Place) -> Result<(), AllocError>
    ensures { OnOk result ((s : Scope) → IsMarked scope.old s → IsMarked scope.new
        (passed s place (holds_at is_scoped (files_of modules.now) place)
        (holds_at keeps_own (files_of modules.now) place))) }
{
    if keeps_own_at(modules, place) {
        keep(scope)
    } else {
        pass(scope, is_scoped_at(modules, place), place)
    }
}

// Adds what the file of a module sees that ends, if it has one of its own.
fn push_picks(
    alloc: Global,
    places: &[Place],
    file: Option<usize>,
    picks: &mut Vec<Picks>,
) -> Result<(), AllocError>
    ensures { OnOk result (all_picks picks.new
        ≡ all_picks picks.old ++ picks_where places.now file) }
{
    match file {
        Some(file) => Ok(picks.push(picks_of(alloc, places, file)?)?),
        None => Ok(()),
    }
}

// The innermost module ends.
fn leave(alloc: Global, scope: &mut Marked, picks: &mut Vec<Picks>) -> Result<(), AllocError>
    ensures scope { OnOk result ((s : Scope) → IsMarked scope.old s
        → IsMarked scope.new (ends s.places s.begun)) }
    ensures picks { OnOk result ((s : Scope) → IsMarked scope.old s
        → all_picks picks.new ≡ all_picks picks.old ++ picks_at_end s.places s.begun) }
{
    let Some(mark) = scope.marks.pop_front() else {
        return Ok(());
    };
    push_picks(alloc, scope.places.as_slice(), mark.file, picks)?;
    if !mark.keeps {
        scope.places.truncate(mark.from);
    }
    Ok(())
}

// Passes a step.
fn pass_step(
    alloc: Global,
    modules: &Modules,
    scope: &mut Marked,
    step: Step,
    picks: &mut Vec<Picks>,
) -> Result<(), AllocError>
    ensures scope { OnOk result ((s : Scope) → IsMarked scope.old s
        → IsMarked scope.new (after (files_of modules.now) s step)) }
    ensures picks { OnOk result ((s : Scope) → IsMarked scope.old s
        → all_picks picks.new ≡ all_picks picks.old ++ picks_at s step) }
{
    match step {
        Step::Item(place) => pass_item(modules, scope, place),
        Step::Inline(place) => enter(scope, keeps_macros_at(modules, place), None),
        Step::File(place, file) => enter(scope, keeps_macros_at(modules, place), Some(file)),
        Step::Lack(_, _) => Ok(()),
        Step::End => leave(alloc, scope, picks),
    }
}

// At the beginning of the root.
fn at_root(alloc: Global) -> Result<Marked, AllocError>
    ensures { IfOk result (λ m. IsMarked m at_root) }
{
    let mut scope = Marked {
        places: Vec::new(alloc),
        marks: VecDeque::new(alloc),
    };
    scope.marks.push_front(Mark {
        from: 0,
        keeps: false,
        file: Some(0),
    })?;
    Ok(scope)
}

/// The definitions of other files that each file sees by their places, in the order in which the
/// files end: those in scope at its end. A definition that comes into scope in the middle of the
/// file is among them. A file that is entered twice is there twice. Out of memory is the only
/// error.
pub fn textual_picks(alloc: Global, modules: &Modules) -> Result<Vec<Picks>, AllocError>
    ensures { IfOk result (λ p. all_picks p
        ≡ picks_from (files_of modules.now) at_root (steps_of modules.now)) }
{
    let mut scope = at_root(alloc)?;
    let mut picks = Vec::new(alloc);
    for step in modules.steps() {
        pass_step(alloc, modules, &mut scope, *step, &mut picks)?;
    }
    Ok(picks)
}

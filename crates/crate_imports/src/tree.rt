//! The modules of a crate by numbers, in the order in which they begin.
ghost use Rattle.std.specs.Prelude.{◌≡◌, IfOk, OnOk};
ghost use Rattle.crate_imports.specs.Offers.{IsTreeOf};
ghost use Rattle.crate_imports.specs.Trees.{at_root, begins, behind, grown, passed};
ghost use Rattle.crate_walk.specs.Modules.{steps_of};

use crate_walk::{Modules, Place, Step};
use std::alloc::{AllocError, Global};
use std::collections::VecDeque;

/// An item of a module: the number of the module, where the item is, and its own number if it is
/// a module that was entered.
#[derive(Clone, Copy, Drop)]
pub struct Declared {
    pub(crate) within: usize,
    pub(crate) place: Place,
    pub(crate) child: Option<usize>,
}

/// The modules of a crate by numbers from 0, the root's.
#[derive(Drop)]
pub struct Tree {
    /// The module around each.
    pub(crate) parents: Vec<Option<usize>>,
    /// The number of the file of each.
    pub(crate) files: Vec<usize>,
    /// The items of all modules, in order.
    pub(crate) declared: Vec<Declared>,
}

/// A tree, and the modules that are begun, the innermost first.
#[derive(Drop)]
pub(crate) struct Growing {
    pub(crate) tree: Tree,
    pub(crate) begun: VecDeque<usize>,
}

// Passes an item, which is the module of this number if it is one.
fn pass(growing: &mut Growing, place: Place, child: Option<usize>) -> Result<(), AllocError>
    ensures { OnOk result (grown growing.new ≡ record (grown growing.old)
        { declared = passed (grown growing.old) place child growing.old.begun.items }) }
{
    if let Some(within) = growing.begun.front() {
        growing.tree.declared.push(Declared {
            within: *within,
            place,
            child,
        })?;
    }
    Ok(())
}

// Begins a module that is in this file.
fn begin(growing: &mut Growing, place: Place, file: usize) -> Result<(), AllocError>
    ensures { OnOk result (grown growing.new ≡ begins (grown growing.old) place file) }
{
    let number = growing.tree.parents.len();
    let parent = growing.begun.front().copied();
    pass(growing, place, Some(number))?;
    growing.tree.parents.push(parent)?;
    growing.tree.files.push(file)?;
    growing.begun.push_front(number)?;
    Ok(())
}

// Passes a step.
fn pass_step(growing: &mut Growing, step: Step) -> Result<(), AllocError>
    ensures { OnOk result (grown growing.new ≡ behind (grown growing.old) step) }
{
    match step {
        Step::Item(place) => pass(growing, place, None),
        Step::Inline(place) => begin(growing, place, place.file),
        Step::File(place, file) => begin(growing, place, file),
        Step::Lack(_, _) => Ok(()),
        Step::End => {
            let _ = growing.begun.pop_front();
            Ok(())
        }
    }
}

// The root alone.
fn root(alloc: Global) -> Result<Growing, AllocError>
    ensures { IfOk result (λ g. grown g ≡ at_root) }
{
    let mut growing = Growing {
        tree: Tree {
            parents: Vec::new(alloc),
            files: Vec::new(alloc),
            declared: Vec::new(alloc),
        },
        begun: VecDeque::new(alloc),
    };
    growing.tree.parents.push(None)?;
    growing.tree.files.push(0)?;
    growing.begun.push_front(0)?;
    Ok(growing)
}

/// The modules of a crate.
pub(crate) fn tree_of(alloc: Global, modules: &Modules) -> Result<Tree, AllocError>
    ensures { IfOk result (IsTreeOf (steps_of modules.now)) }
{
    let mut growing = root(alloc)?;
    for step in modules.steps() {
        pass_step(&mut growing, *step)?;
    }
    let Growing { tree, .. } = growing;
    Ok(tree)
}

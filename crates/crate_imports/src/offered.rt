//! The macros that the modules of a crate offer.
ghost use Rattle.std.specs.Prelude.{◌≡◌, IfOk, option_copied};
ghost use Rattle.std.specs.List.{slice_get};
ghost use Rattle.crate_imports.specs.Offers.{IsTreeOf, offered};
ghost use Rattle.crate_imports.specs.Rounds.{after_rounds, names_of};
ghost use Rattle.crate_walk.specs.Modules.{files_of, steps_of};

use crate::round::{Known, round};
use crate::target::Target;
use crate::tree::{Tree, tree_of};
use crate_walk::Modules;
use std::alloc::{AllocError, Global};
use std::collections::BTreeMap;

/// How many rounds there are: as many imports are followed one after another.
pub const ROUNDS: u8 = 8;

/// The macros that the modules of a crate offer by path. Modules have numbers in the order in
/// which they begin, from 0: the root's.
#[derive(Drop)]
pub struct Offers {
    pub(crate) tree: Tree,
    pub(crate) known: Known,
}

impl Offers {
    /// The number of the file of each module.
    pub fn files(&self) -> &[usize]
        ensures { result.now ≡ self.now.tree.files.items }
    {
        self.tree.files.as_slice()
    }

    /// What the module of this number offers, by names without `r#`.
    pub fn macros_of(&self, number: usize) -> Option<&BTreeMap<String, Target>>
        ensures { option_copied result ≡ slice_get self.now.known.macros.names.items number }
    {
        self.known.macros.names_of(number)
    }

    /// What a name of the module of this number stands for as a macro.
    pub fn macro_named(&self, number: usize, name: &str) -> Option<Target>
        ensures { result ≡ (names_of self.now.known).macros number name.now }
    {
        self.known.macros.get(number, name)
    }

    /// What a name of the module of this number stands for as a module.
    pub fn module_named(&self, number: usize, name: &str) -> Option<Target>
        ensures { result ≡ (names_of self.now.known).modules number name.now }
    {
        self.known.modules.get(number, name)
    }
}

// What names stand for after all rounds.
fn known_of(alloc: Global, modules: &Modules, tree: &Tree) -> Result<Known, AllocError>
    ensures { IfOk result (λ k. names_of k ≡ after_rounds 8 (files_of modules.now)
        tree.now.parents.items tree.now.declared.items) }
{
    let mut known = Known::new(alloc);
    for n in 0..ROUNDS {
        known = round(alloc, modules, tree, &known)?;
    }
    Ok(known)
}

/// The macros that the modules of a crate offer by path.
///
/// # Errors
///
/// Out of memory, where a request for memory is refused.
pub fn offers_of(alloc: Global, modules: &Modules) -> Result<Offers, AllocError>
    ensures tree { IfOk result (λ o. IsTreeOf (steps_of modules.now) o.tree) }
    ensures names { IfOk result (λ o. names_of o.known
        ≡ offered (files_of modules.now) (steps_of modules.now)) }
{
    let tree = tree_of(alloc, modules)?;
    let known = known_of(alloc, modules, &tree)?;
    Ok(Offers { tree, known })
}

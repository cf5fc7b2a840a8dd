//! What names stand for, by modules.
ghost use Rattle.std.specs.Prelude.{◌≡◌, ◌<◌, ℕ, List, OnOk, length, option_copied, string_bytes};
ghost use Rattle.std.specs.List.{slice_get};
ghost use Rattle.std.specs.Option.{option_or};
ghost use Rattle.std.specs.BTreeMap.{get_by_text};
ghost use Rattle.crate_imports.specs.Names.{empty, filled, put};
ghost use Rattle.crate_imports.specs.Tables.{looked_up};

use crate::target::Target;
use std::alloc::{AllocError, Global};
use std::collections::BTreeMap;

/// What names stand for, by the numbers of modules.
#[derive(Drop)]
pub(crate) struct Table {
    pub(crate) names: Vec<BTreeMap<String, Target>>,
}

impl Table {
    /// No name stands for anything.
    pub(crate) fn new(alloc: Global) -> Table
        ensures { looked_up result ≡ empty }
    {
        Table {
            names: Vec::new(alloc),
        }
    }

    /// What a name of a module stands for.
    pub(crate) fn get(&self, at: usize, name: &str) -> Option<Target>
        ensures { result ≡ looked_up self.now at name.now }
    {
        self.names_of(at)?.get(name).copied()
    }

    /// The names of a module.
    pub(crate) fn names_of(&self, at: usize) -> Option<&BTreeMap<String, Target>>
        ensures { option_copied result ≡ slice_get self.now.names.items at }
    {
        self.names.get(at)
    }

    // Makes room for the names of a module.
    fn reach(&mut self, alloc: Global, at: usize) -> Result<(), AllocError>
        ensures same { OnOk result (looked_up self.new ≡ looked_up self.old) }
        ensures room { OnOk result (at < length self.new.names.items) }
    {
        'room: while self.names.len() <= at {
            self.names.push(BTreeMap::new(alloc))?;
        }
        Ok(())
    }

    /// A name of a module stands for this from now on.
    pub(crate) fn put(
        &mut self,
        alloc: Global,
        at: usize,
        name: String,
        target: Target,
    ) -> Result<(), AllocError>
        ensures { OnOk result (looked_up self.new
            ≡ put (looked_up self.old) at (string_bytes name) target) }
    {
        self.reach(alloc, at)?;
        self.names[at].insert(name, target)?;
        Ok(())
    }

    /// The names of a module that stood for nothing stand for what they do in a module of another
    /// table.
    pub(crate) fn fill(
        &mut self,
        alloc: Global,
        at: usize,
        from: &Table,
        of: usize,
    ) -> Result<(), AllocError>
        ensures { OnOk result (looked_up self.new
            ≡ filled (looked_up self.old) at (looked_up from.now of)) }
    {
        self.reach(alloc, at)?;
        match from.names_of(of) {
            Some(more) => fill_names(&mut self.names[at], more),
            None => Ok(()),
        }
    }
}

// Names that stood for nothing stand for what they do in others.
fn fill_names(
    names: &mut BTreeMap<String, Target>,
    more: &BTreeMap<String, Target>,
) -> Result<(), AllocError>
    ensures { OnOk result ((name : List ℕ) → get_by_text names.new name
        ≡ option_or (get_by_text names.old name) (get_by_text more.now name)) }
{
    for (name, target) in more {
        if names.get(name.as_str()).is_none() {
            names.insert(name.clone()?, *target)?;
        }
    }
    Ok(())
}

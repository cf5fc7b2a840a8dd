//! Where paths lead.
ghost use Rattle.std.specs.Prelude.{◌≡◌, map, option_and_then, string_bytes};
ghost use Rattle.std.specs.List.{slice_get};
ghost use Rattle.crate_imports.specs.Paths.{module_at, reached, step};
ghost use Rattle.crate_imports.specs.Tables.{looked_up};

use crate::table::Table;
use crate::target::Target;

// The module that a name stands for.
fn module_at(target: Option<Target>) -> Option<usize>
    ensures { result ≡ module_at target }
{
    match target {
        Some(Target::Module(number)) => Some(number),
        _ => None,
    }
}

// The module around a module.
fn parent_of(parents: &[Option<usize>], at: usize) -> Option<usize>
    ensures { result ≡ option_and_then (λ p. p) (slice_get parents.now at) }
{
    match parents.get(at) {
        Some(parent) => *parent,
        None => None,
    }
}

// The module to which one name leads.
fn step(parents: &[Option<usize>], modules: &Table, at: usize, name: &str) -> Option<usize>
    ensures { result ≡ step parents.now (looked_up modules.now) at name.now }
{
    if name == "self" {
        Some(at)
    } else if name == "super" {
        parent_of(parents, at)
    } else if name == "crate" {
        Some(0)
    } else {
        module_at(modules.get(at, name))
    }
}

/// The module to which names lead from a module, one after another.
pub(crate) fn reached(
    parents: &[Option<usize>],
    modules: &Table,
    at: usize,
    names: &[String],
) -> Option<usize>
    ensures { result
        ≡ reached parents.now (looked_up modules.now) at (map string_bytes names.now) }
{
    let mut reached = at;
    for name in names {
        reached = step(parents, modules, reached, name.as_str())?;
    }
    Some(reached)
}

//! The metavariables of a transcriber that nothing binds.
ghost use Rattle.std.specs.Prelude.{◌≡◌, IfOk, OnOk, map};
ghost use Rattle.mbe_rules.specs.Ops.{items_of};
ghost use Rattle.mbe_rules.specs.Text.{is_one_of};
ghost use Rattle.mbe_matcher.specs.Bound.{map_of};
ghost use Rattle.rule_bindings.specs.Notes.{unbound_names, with_unbound};

use crate::names::Names;
use mbe_matcher::Bindings;
use mbe_rules::Op;
use std::alloc::{AllocError, Global};
use symbols::Symbol;

// How many names are told of at most.
const MOST_NAMES: usize = 8;

// Whether a name is one of these.
fn is_one_of(names: &[&Symbol], name: &Symbol) -> bool
    ensures { result ≡ is_one_of (map (λ n. n.now) names.now) name.now }
{
    for known in names {
        if name == *known {
            return true;
        }
    }
    false
}

// Adds a name, unless it is bound, is among the names already, or they are enough.
fn push_unbound<'t>(
    names: &mut Vec<&'t Symbol>,
    bindings: &Bindings<'_>,
    name: &'t Symbol,
) -> Result<(), AllocError>
    ensures { OnOk result (map (λ n. n.now) names.new.items
        ≡ with_unbound (map_of bindings.now) (map (λ n. n.now) names.old.items) name.now) }
{
    if bindings.get(name).is_some() || is_one_of(names, name) || MOST_NAMES <= names.len() {
        return Ok(());
    }
    names.push(name)?;
    Ok(())
}

/// The metavariables of a transcriber that nothing binds, each once, at most eight of them.
pub(crate) fn unbound_names<'t>(
    alloc: Global,
    bindings: &Bindings<'_>,
    template: &'t [Op],
) -> Result<Vec<&'t Symbol>, AllocError>
    ensures { IfOk result (λ ns. map (λ n. n.now) ns.items
        ≡ unbound_names (map_of bindings.now) (items_of template.now)) }
{
    let mut names = Vec::new(alloc);
    let mut ahead = Names::new(alloc, template);
    while let Some(name) = ahead.next()? {
        push_unbound(&mut names, bindings, name)?;
    }
    Ok(names)
}

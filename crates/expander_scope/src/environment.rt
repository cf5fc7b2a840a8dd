//! What a tree is expanded in.
ghost use Rattle.std.specs.Prelude.{◌≡◌, ◌-◌, ◌<◌};

use crate::scope::Scope;
use expander_model::dialect::Dialect;
use std::alloc::Global;

/// What a tree is expanded in: the grammar, the definitions before it, the dialect, and how many
/// levels of calls may be expanded.
///
/// The caller of `expand_into` makes one for each piece. The search makes another for each
/// result, with a level less.
#[derive(Drop)]
pub struct Environment<'a, G> {
    pub alloc: Global,
    /// Decides what fragments are.
    pub grammar: &'a G,
    /// Resolves names.
    pub scope: &'a Scope,
    /// By which options.
    pub dialect: &'a Dialect,
    /// How many levels of calls may still be expanded.
    pub depth: u8,
}

impl<'a, G> Environment<'a, G> {
    // The environment of a result: one level less is left.
    pub(crate) fn deeper(&self) -> Environment<'a, G>
        requires { 0 < self.now.depth }
        ensures { result ≡ record self.now { depth = self.now.depth - 1 } }
    {
        Environment {
            alloc: self.alloc,
            grammar: self.grammar,
            scope: self.scope,
            dialect: self.dialect,
            depth: self.depth - 1,
        }
    }
}

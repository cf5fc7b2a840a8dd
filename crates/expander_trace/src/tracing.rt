//! By what calls are traced.
ghost use Rattle.std.specs.Prelude.{◌≡◌, ◌<◌, ◌+◌, ◌-◌};

use expander_model::scope_rules::ScopeRules;
use expander_scope::scope::Scope;
use std::alloc::Global;

/// By what the calls of trees are traced: the grammar, what names find, the rules of scopes, how
/// many levels are left, and in the results of how many calls the trees are.
#[derive(Drop)]
pub(crate) struct Tracing<'a, G> {
    pub(crate) alloc: Global,
    pub(crate) grammar: &'a G,
    pub(crate) scope: &'a Scope,
    pub(crate) rules: ScopeRules,
    pub(crate) depth: u8,
    pub(crate) level: u8,
}

impl<'a, G> Tracing<'a, G> {
    /// The same for what a call gives: one level less is left.
    pub(crate) fn deeper(&self) -> Tracing<'a, G>
        requires left { 0 < self.now.depth }
        requires counted { self.now.level + self.now.depth < 256 }
        ensures { result
            ≡ record self.now { depth = self.now.depth - 1; level = self.now.level + 1 } }
    {
        Tracing {
            alloc: self.alloc,
            grammar: self.grammar,
            scope: self.scope,
            rules: self.rules,
            depth: self.depth - 1,
            level: self.level + 1,
        }
    }
}

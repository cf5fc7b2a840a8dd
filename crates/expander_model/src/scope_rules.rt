//! Which definitions a name can find, and where lists of trees are.

/// Which definitions a name can find.
#[derive(Clone, Copy, Debug, PartialEq, Eq)]
pub enum ScopeRules {
    /// Those that are pieces of a text.
    TopLevel,
    /// Those of the lists around the call, by Rust's textual scope, and then those.
    Rust,
}

/// Where a list of trees is.
#[derive(Clone, Copy, Debug, PartialEq, Eq)]
pub enum Standing {
    /// In no visible group.
    Top,
    /// In a visible group.
    Enclosed,
    /// In the braces of a module, an implementation, a trait or an `extern` block.
    Items,
    /// In the argument of a call that stays.
    Argument,
}

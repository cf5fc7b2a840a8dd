//! What a text declares, in order.

/// A module, as an item declares it.
#[derive(Drop)]
pub struct ModuleItem {
    /// Its name, without `r#`.
    pub name: String,
    /// What its attribute `path` says.
    pub path: Option<String>,
    /// Whether its definitions stay in scope after it: it has the attribute `macro_use`.
    pub keeps_macros: bool,
    /// The offset of its name in the text, in bytes.
    pub start: u32,
    /// The offset at which its name ends.
    pub end: u32,
}

/// A definition of a macro.
#[derive(Drop)]
pub struct MacroItem {
    /// Its name, without `r#`.
    pub name: String,
    /// Whether it has the attribute `macro_export`.
    pub is_exported: bool,
    /// Whether it is a `macro`, and no `macro_rules`.
    pub is_macro: bool,
    /// The offset of its name in the text, in bytes.
    pub start: u32,
    /// The offset at which its name ends.
    pub end: u32,
}

/// One name that a `use` brings into scope, or all names of a path.
#[derive(Drop)]
pub struct ImportItem {
    /// The names of its path in order, without `r#`.
    pub path: Vec<String>,
    /// Whether the path begins with `::`.
    pub is_global: bool,
    /// The name that it has here. `None` for all names that the path leads to, by `*`.
    pub name: Option<String>,
    /// Whether it is seen outside its module: it begins with `pub`.
    pub is_public: bool,
    /// The offset of its last name in the text, in bytes.
    pub start: u32,
    /// The offset at which that ends.
    pub end: u32,
}

/// Another crate, by `extern crate`.
#[derive(Drop)]
pub struct CrateItem {
    /// Its name, without `r#`.
    pub name: String,
    /// The other name that it has here.
    pub alias: Option<String>,
    /// Whether what it exports is in scope from here on: it has the attribute `macro_use`.
    pub keeps_macros: bool,
    /// The offset of its name in the text, in bytes.
    pub start: u32,
    /// The offset at which its name ends.
    pub end: u32,
}

/// One item of a text that matters to the scope of macros.
#[derive(Drop)]
pub enum Event {
    /// `mod name;`
    Outline(ModuleItem),
    /// `mod name { .. }`, and how many of the next events are in it.
    Inline(ModuleItem, usize),
    /// A definition.
    Macro(MacroItem),
    /// A name of a `use`.
    Import(ImportItem),
    /// `extern crate name;`
    Crate(CrateItem),
    /// `#![macro_use]`: the definitions of the module that it is in stay in scope after that.
    MacroUse,
}

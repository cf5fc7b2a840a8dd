//! The type of a macro: its parsed rules, or the fault of its definition.
ghost use Rattle.std.specs.Prelude.{◌≡◌};
ghost use Rattle.mbe.specs.Kept.{IsOfDefinition, kept_keys, kept_rules};
ghost use Rattle.mbe.specs.Keys.{keys_of};

use mbe_rules::{ParseError, Rules};

// A definition: its rules, or the fault that makes it invalid.
#[derive(Debug, Drop)]
pub(crate) enum Definition {
    // Its rules, and for each the key of the identifier that its matcher begins with
    // (`rule_index`).
    Read(Rules, Vec<Option<u32>>),
    // The fault alone.
    Broken(ParseError),
}

/// A macro by example: its rules, or the fault that makes it invalid. (The Rust Reference, "Macros
/// By Example".)
#[derive(Debug, Drop)]
pub struct DeclarativeMacro {
    pub(crate) kept: Definition,
    ghost sound: { IsOfDefinition (kept_rules kept) },
    ghost keyed: { kept_keys kept ≡ keys_of (kept_rules kept).list },
}

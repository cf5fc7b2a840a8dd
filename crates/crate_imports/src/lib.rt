//! The macros that the modules of a crate offer by path: their own, and those that a `use` brings.
#![tactic(auto)]

mod offered;
mod paths;
mod round;
mod table;
mod target;
mod tree;

pub use offered::{Offers, ROUNDS, offers_of};
pub use round::Known;
pub use target::Target;
pub use tree::{Declared, Tree};

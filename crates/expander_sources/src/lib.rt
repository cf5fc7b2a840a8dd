//! Definitions of other texts: sources, which are texts read for their definitions, and preludes,
//! the lists of definitions that are picked out of them.
#![tactic(auto)]

pub mod home;
pub mod import;
mod inline_module;
mod items;
pub mod prelude;
mod rooting;
pub mod source;

//! Shared text in a counted block: clones take no memory and are never refused, the last one frees it.
#![tactic(auto)]

mod fault;
pub mod rc;
mod symbol;

pub use fault::TtFault;
pub use symbol::Symbol;

//! What the metavariables of a rule's matcher stand for in a call, iteration by iteration.
#![tactic(auto)]

mod flatten;
mod names;
mod notes;
mod open;
mod passed;
mod rounds;
mod rule;
mod unbound;
mod unequal;
mod value;
mod walk;

pub use notes::{BoundRule, Notes};
pub use rule::bindings_by;
pub use unequal::{Counted, Unequal};
pub use value::{BoundFragment, BoundValue};

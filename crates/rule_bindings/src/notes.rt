//! What is told of a rule that takes an argument.

use crate::unequal::Unequal;
use crate::value::BoundValue;
use symbols::Symbol;

/// Where rustc refuses a call that a rule gives something for.
#[derive(Drop)]
pub struct Notes<'a> {
    /// The number, from 0, of the first rule before it, of its style, that is ambiguous for the
    /// call. rustc stops there with an error.
    pub passed_over: Option<usize>,
    /// The first repetition of its transcriber whose metavariables have not as many iterations.
    /// The shorter list counts, and rustc reports an error.
    pub unequal: Option<Unequal<'a>>,
    /// The metavariables of its transcriber that nothing binds, each once, at most eight of them.
    /// They stay as they are written, which rustc may refuse where it reads what the rule gives.
    pub unbound: Vec<&'a Symbol>,
}

/// What the metavariables of a rule stand for in a call, and where rustc refuses that.
#[derive(Drop)]
pub struct BoundRule<'a> {
    /// One value for each fragment that is bound, and one for each repetition that has no
    /// iteration, in the order in which the names are bound.
    pub values: Vec<BoundValue<'a>>,
    /// Where rustc refuses the call.
    pub notes: Notes<'a>,
}

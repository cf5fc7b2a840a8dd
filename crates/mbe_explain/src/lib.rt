//! Explains why the rules of a macro by example do not fit a call: where and why their matchers
//! stop, and what they want there.
#![tactic(auto)]

mod choices;
mod distance;
mod explain;
mod level;
mod rules;
mod search;
mod step;
mod survey;
mod wanted;
mod words;

pub use explain::{Stop, StopKind, explain_pattern};
pub use mbe;
pub use rules::{Explanation, RuleStop, explain_call};
pub use wanted::Wanted;

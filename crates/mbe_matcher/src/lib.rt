//! Matches a matcher of macros by example against an argument, and binds its metavariables.
#![tactic(auto)]

mod bind;
mod bindings;
mod count;
mod fragment;
mod fragments;
mod lookahead;
mod matcher;
mod position;
mod repetition;
mod same;
mod same_state;
mod seen_states;
mod step;
mod thread;
mod way;

pub use bind::bindings_of;
pub use bindings::{Binding, Bindings, Bound};
pub use fragment::{PassedFragment, expect_fragment, pass_fragment};
pub use fragment_grammar;
pub use fragment_grammar::{FragmentGrammar, Prefix, PrefixEntryPoint};
pub use fragments::{is_refused, is_refused_2021};
pub use lookahead::is_blocked;
pub use matcher::match_pattern;
pub use position::{Consumed, Place};
pub use same_state::{Seen, is_same_state, was_settled, was_settled_twice};
pub use seen_states::SeenStates;
pub use step::{Choice, Choices};
pub use thread::{Entry, Move, Thread};

//! JSON that tells where something is in a text, and why no rule fits a call.
#![tactic(auto)]

mod numbers;
mod places;
mod rules;
mod spots;
mod wants;
mod why;

pub use numbers::push_number;
pub use places::{place_from, place_in};
pub use spots::Spots;
pub use why::{Why, why_unfit};

//! Messages about the faults of a text: where they are, and why no rule fits a call.
#![tactic(auto)]

mod known;
mod marks;
mod plain;
mod search;
mod source;
mod stops;
mod unfit;
mod units;
mod words;

pub use expander_model;
pub use known::{Known, explain_known, known_at};
pub use marks::wanted_range;
pub use plain::push_plain;
pub use search::{call_around, definition_before};
pub use source::Source;
pub use unfit::{Place, Unfit, nearest_unfit, push_unfit};
pub use units::stop_range;

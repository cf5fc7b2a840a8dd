//! What is told of the steps of calls: lines of text, and lines of JSON.
#![tactic(auto)]

mod answer;
mod asked;
mod bound;
mod bound_lines;
mod bound_values;
mod context;
mod faults;
mod json;
mod layout;
mod lines;
mod note_values;
mod notes;
mod places;
mod positions;
mod shown;
mod texts;
mod tokens;
mod values;

pub use answer::{Answer, Asked, Form, Lines, Question, answer_to};
pub use context::Context;
pub use expander_trace;
pub use expander_trace::limits::Limits;
pub use faults::one_stays;
pub use json::push_json;
pub use lines::push_text;
pub use texts::Texts;

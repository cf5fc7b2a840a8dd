//! Rust code as HTML: escaped, an element for each token, laid out anew; and a page of it.
#![tactic(auto)]

mod escape;
mod expansion;
mod faults;
pub mod laws;
mod layout;
mod number;
mod origin;
pub mod page;
mod source;
mod token;
mod word;

pub use escape::push_escaped;
pub use origin::Origin;
pub use source::{Mark, push_source};

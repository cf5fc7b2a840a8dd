//! Conditional compilation: which options are set, the value of predicates, and which attributes
//! keep what they stand at.
#![tactic(auto)]

mod attributes;
mod fault;
mod options;
mod parts;
mod pieces;
mod predicate;
mod reading;
mod strings;
mod words;

pub use attributes::first_attribute;
pub use fault::CfgFault;
pub use options::CfgOptions;
pub use parts::split_part;
pub use small_grammar;
pub use strings::string_text;

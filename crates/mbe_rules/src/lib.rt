//! The rules of a macro's definition: how they are parsed, and the errors that are reported.
#![tactic(auto)]

mod clone;
mod equality;
mod errors;
mod expand_error;
pub mod laws;
mod macro_call_style;
mod parse;
mod parser;
mod rules;
mod validation;
mod value_result;

pub use errors::{CountError, ExpandErrorKind, ParseError};
pub use expand_error::ExpandError;
pub use macro_call_style::{MacroCallStyle, MacroCallStyles};
pub use parse::definition::{parse_macro_rules, parse_macro2};
pub use parser::{ConcatElement, MetaVarKind, Op, RepeatKind, Separator};
pub use rules::{Rule, Rules};
pub use validation::{can_match_nothing, has_empty_round};
pub use value_result::{ExpandResult, MatchedArmIndex, ValueResult};

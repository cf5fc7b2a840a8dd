//! Macros by example: parses definitions and expands calls.
#![tactic(auto)]

mod declarative_macro;
mod expand;
pub mod laws;
mod parse;
mod recovery;
mod rule_index;
mod select_rule;

pub use declarative_macro::DeclarativeMacro;
pub use mbe_rules::{
    CountError, ExpandError, ExpandErrorKind, ExpandResult, MacroCallStyle, MacroCallStyles,
    MatchedArmIndex, ParseError, ValueResult,
};
pub use mbe_transcriber::mbe_matcher::fragment_grammar::{
    FragmentGrammar, Prefix, PrefixEntryPoint,
};
pub use mbe_transcriber::mbe_matcher::{
    Binding, Bindings, Entry, Move, PassedFragment, bindings_of, expect_fragment, match_pattern,
    pass_fragment,
};
pub use select_rule::{Bounds, Tried, rule_result};
pub use tt::{Delimiter, DelimiterKind, Punct};

//! The rules of a definition, as they are stored.
use crate::errors::ParseError;
use crate::macro_call_style::MacroCallStyle;
use crate::parser::Op;

/// A rule of a macro. (The Rust Reference, "Macros By Example".)
#[derive(PartialEq, Eq, Debug, Drop)]
pub struct Rule {
    /// The style of calls that it is for.
    pub style: MacroCallStyle,
    /// The pattern, or matcher: what an argument has to look like.
    pub pattern: Vec<Op>,
    /// The template, or transcriber: what replaces the call.
    pub template: Vec<Op>,
}

/// The rules of a definition, and the first fault, which makes it invalid.
#[derive(PartialEq, Eq, Debug, Drop)]
pub struct Rules {
    /// The rules before the fault; also the one right before it, if a separator is missing after
    /// it.
    pub list: Vec<Rule>,
    /// The first fault. A repetition that can iterate without end comes before all others.
    pub err: Option<ParseError>,
}

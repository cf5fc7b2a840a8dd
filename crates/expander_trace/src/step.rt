//! A step: a call, what its name finds, and what comes of it.

use crate::limits::Room;
use expander_model::fault::FaultKind;
use expander_scope::macro_def::MacroDef;
use std::rc::Rc;
use tt::TopSubtree;
use tt_data::{Span, Symbol};

/// What a rule gives for a call.
#[derive(Drop)]
pub struct Given {
    /// The number of the rule among those of its definition, from 0.
    pub rule: u32,
    /// What it gives.
    pub tree: Rc<TopSubtree>,
}

/// A call of a definition.
#[derive(Drop)]
pub struct Attempt {
    /// The definition that its name finds.
    pub known: Rc<MacroDef>,
    /// Its tokens: its path or name, `!` and the group.
    pub call: TopSubtree,
    /// How many tokens rules put out for it.
    pub tokens: usize,
    /// What the first rule that fits gives, or the fault for which the call stays.
    pub given: Result<Given, FaultKind>,
}

/// A call.
#[derive(Drop)]
pub struct Step {
    /// In the results of how many calls it is: 0 for one that is written in the text. It is in that
    /// of the nearest step before it with one less.
    pub level: u8,
    /// Where its name is written. A rule put it out if the context of the span is `Made`.
    pub name: Span,
    /// What it is looked up by.
    pub key: Symbol,
    /// What comes of it. `None` if no definition has its name: then it stays, and the calls in its
    /// group follow at the same level.
    pub attempt: Option<Attempt>,
}

/// Steps in order, each before those in what it gives, and what is left of the limits behind them.
#[derive(Drop)]
pub struct Trace {
    pub steps: Vec<Step>,
    pub room: Room,
}

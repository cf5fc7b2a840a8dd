//! Expands the macros of a text: sessions over a text, and the run of a program.
#![tactic(auto)]

pub mod laws;

pub use bridge::{ReadFault, ReadFaultKind, TokenRanges};
pub use cfg_options::{CfgFault, CfgOptions};
pub use expander_model::dialect::Dialect;
pub use expander_model::fault::{Fault, FaultKind};
pub use expander_model::limits::Limits;
pub use expander_model::scope_rules::ScopeRules;
pub use expander_run::lines;
pub use expander_run::options::Options;
pub use expander_run::program::{Status, put, run, run_after, run_with};
pub use expander_run::watched::Watched;
pub use expander_scope::refusal::Refusal;
pub use expander_session::commands::{Answer, Command, replay};
pub use expander_session::expander_sources::home::Home;
pub use expander_session::expander_sources::prelude::Prelude;
pub use expander_session::expander_sources::source::{Source, SourceRead};
pub use expander_session::session::{Expansion, Origin, Reply, Session};
pub use small_grammar::SmallGrammar;
pub use tt_data::{Edition, TextRange};

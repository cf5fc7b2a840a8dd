//! The small grammar or the grammar of Rust, chosen while a program runs.
#![tactic(auto)]

mod chosen;

pub use chosen::AnyGrammar;

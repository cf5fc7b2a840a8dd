//! Messages of JSON-RPC 2.0, as values: what comes, and what goes.
#![tactic(auto)]

mod incoming;
mod outgoing;

pub use incoming::{Call, Incoming, read_message};
pub use outgoing::{failure, notification, response};

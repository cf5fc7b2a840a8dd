//! Tests of the public calls of `mbe_explain` and `call_messages`, run from text: `bridge` reads a
//! definition and the argument of a call, or a whole text. The places are those that rustc 1.95
//! names.
#![tactic(auto)]

#[cfg(test)]
mod calls;
#[cfg(test)]
mod messages;
#[cfg(test)]
mod texts;

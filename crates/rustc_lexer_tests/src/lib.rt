//! Tests of the lexer's public calls, in a crate of their own so that the lexer is proved once.
//!
//! Expected values were worked out by hand. What definitions alone decide are worked examples in
//! the lexer's `proofs/`; here each call is run, with memory and without.
#![tactic(auto)]

#[cfg(test)]
mod characters;
#[cfg(test)]
mod cursors;
#[cfg(test)]
mod edits;
#[cfg(test)]
mod orders;
#[cfg(test)]
mod raw_strings;
#[cfg(test)]
mod texts;

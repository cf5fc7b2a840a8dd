//! Parses the rules of a definition from its token tree.
//!
//! `definition` splits the body into rules, `rule` finds the matcher and the transcriber of one,
//! and `items` parses each of these as a list of ops, by `dollar`, `repetition` and `expression`.
//! What is parsed, or which fault comes first, is decided here. Callers use `parse_macro_rules`
//! and `parse_macro2`.
pub(crate) mod definition;
mod dollar;
mod editions;
mod expression;
mod fragment_specifier;
pub(crate) mod items;
mod repetition;
mod rule;

//! Prints trees as text that reads back.
//!
//! `printer` is what callers use. It adds token events (`event`) to a state (`state`): each
//! token's spelling (`spelling`, with `fast_spelling` for most tokens) and the gap before it
//! (`spacing`, `token_text`). A chunk (`chunk`) is text printed once and appended as a whole, with
//! spans that are shifted when they are asked for (`relative_spans`, `span_list`). Where the
//! printed tokens are is found out when it is asked for (`token_ranges`, `token_share`).
pub(crate) mod chunk;
pub(crate) mod event;
mod fast_spelling;
pub(crate) mod printer;
pub(crate) mod relative_spans;
mod spacing;
pub(crate) mod span_list;
mod spelling;
mod state;
pub(crate) mod token_ranges;
mod token_share;
mod token_text;

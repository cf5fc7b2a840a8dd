//! The expander as a library for C: sessions behind a handle, and a code for each call.
//!
//! `bindings/c/filgordd.h` says the same to users of C. `live` is the safe layer, whose contracts
//! repeat those of the session; `exports` adds the handle and the numbers of the codes.
#![tactic(auto)]

mod answers;
mod calls;
mod code;
mod conditions;
mod exports;
mod handle;
mod last;
mod live;
mod options;
mod position;
mod room;
mod sources;
mod words;

//! Shared text.
pub use symbols::Symbol;

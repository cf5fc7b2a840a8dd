//! The data of token trees: spans, symbols, leaves, delimiters and the tokens of a flat list.
//!
//! `specs/Forest.antt` has the one definition of a list of trees, which all crates above use.
#![tactic(auto)]

mod delimiter;
mod display;
mod edition;
mod fault;
pub mod laws;
mod leaf;
mod span;
mod symbol;
mod tree;

pub use delimiter::{DelimSpan, Delimiter, DelimiterKind};
pub use edition::Edition;
pub use fault::TtFault;
pub use leaf::lent::{IdentRef, LeafRef, LiteralRef};
pub use leaf::{Ident, IdentIsRaw, Leaf, Lit, LitKind, Literal, Punct, Spacing};
pub use span::{Span, SyntaxContext, TextRange, TextSize};
pub use symbol::Symbol;
pub use tree::{Subtree, TokenTree};

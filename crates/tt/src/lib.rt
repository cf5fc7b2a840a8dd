//! Token trees as a flat list of tokens, in which each group counts the tokens inside it.
//!
//! Every contract sees a list of trees as its forest (`tt_data/specs/Forest.antt`), whatever
//! borrows it: a view, an iterator's rest or a whole tree. These contracts name no token's index,
//! except that `set_token` takes one, and a builder has that of the group that was closed last.
//! `specs/Building.antt` says what a tree under construction is.
#![tactic(auto)]

pub mod buffer;
mod display;
mod flat;
mod flatten;
pub mod iter;
pub mod laws;
mod literals;
mod split;
mod top_subtree;
mod view;

pub use buffer::Cursor;
pub use display::pretty;
pub use flat::FlatTokens;
pub use iter::expect::MAX_GLUED_PUNCT_LEN;
pub use iter::{TtElement, TtIter, TtIterSavepoint};
pub use literals::{literal_parts, token_to_literal};
pub use split::Split;
pub use top_subtree::TopSubtree;
pub use top_subtree::builder::{ExpectedDelimiters, SubtreeBuilderRestorePoint, TopSubtreeBuilder};
pub use top_subtree::transform::{TransformTtAction, transform_tt};
pub use tt_data::{
    DelimSpan, Delimiter, DelimiterKind, Edition, Ident, IdentIsRaw, IdentRef, Leaf, LeafRef, Lit,
    LitKind, Literal, LiteralRef, Punct, Spacing, Span, Subtree, Symbol, SyntaxContext, TextRange,
    TextSize, TokenTree, TtFault,
};
pub use view::{SubtreeView, TokenTreesView};

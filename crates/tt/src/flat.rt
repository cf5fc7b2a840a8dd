//! The tokens of a list of trees, one by one.
use std::marker::Model;
use token_bytes::Tokens;
use tt_data::TokenTree;

/// A walk over all tokens of a list of trees: a group's head before the tokens inside.
#[derive(Drop)]
pub struct FlatTokens<'a> {
    pub(crate) tokens: Tokens<'a>,
}

impl<'a> Model for FlatTokens<'a> {
    ghost use Rattle.std.specs.Prelude.{List, ◌<◌, ◌^◌, length};
    ghost use Rattle.token_bytes.specs.Items.{items};
    ghost use Rattle.tt_data.specs.declared.tree.TokenTree.{TokenTree};

    ghost Value = { List TokenTree };

    ghost view = { λ it. items it.tokens };

    ghost invariant = { λ it. length (items it.tokens) < 2 ^ 63 };
}

impl<'a> Iterator for FlatTokens<'a> {
    ghost use Rattle.std.specs.Iterator.{item_count, YieldsFirst};

    type Item = TokenTree;

    ghost next_gives = { YieldsFirst (λ left. left) };

    ghost remaining = { item_count (λ left. left) };

    /// The next token, or `None` at the end.
    #[inline]
    fn next(&mut self) -> Option<TokenTree> {
        let (first, more) = self.tokens.split_first()?;
        self.tokens = more;
        Some(first)
    }
}

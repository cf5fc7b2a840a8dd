//! Borrowed lists of trees.
ghost use Rattle.std.specs.Prelude.{◌≡◌, IsSome, IsTrue, ◌↔◌, true, ◌<◌, ◌^◌};
ghost use Rattle.tt_data.specs.Forest.{IsPreorder, forest_of};
ghost use Rattle.token_bytes.specs.Items.{items};
ghost use Rattle.tt.specs.Groups.{is_one_group};

use crate::flat::FlatTokens;
use token_bytes::Tokens;
use tt_data::{DelimiterKind, Span, Subtree, TokenTree};

/// A borrowed list of trees.
#[derive(Clone, Copy, Debug)]
pub struct TokenTreesView<'a> {
    pub(crate) tokens: Tokens<'a>,
    ghost whole: { IsPreorder (items tokens) },
}

impl<'a> TokenTreesView<'a> {
    ghost use Rattle.std.specs.Prelude.{option_map};
    ghost use Rattle.tt_data.specs.Forest.{empty, size, preorder};
    ghost use Rattle.tt.specs.Elements.{first_place, last_place};
    ghost use Rattle.tt.specs.Groups.{stripped};
    ghost use Rattle.tt.specs.Tops.{only_group};
    ghost use Rattle.tt.specs.Views.{forest, top_of};

    /// An empty list.
    #[tactic(auto, unfolding(crate::specs::Views::forest))]
    pub fn empty() -> TokenTreesView<'a>
        ensures { forest result ≡ empty }
    {
        TokenTreesView {
            tokens: Tokens::empty(),
        }
    }

    /// A walk over all tokens: a group's head before the tokens inside.
    #[tactic(auto, unfolding(crate::specs::Views::forest))]
    pub fn iter_flat_tokens(&self) -> FlatTokens<'a>
        ensures { result ≡ preorder (forest self.now) }
    {
        let flat = self.tokens;
        // The proof that the iterator's tokens can be counted needs this.
        let _count = flat.len();
        FlatTokens { tokens: flat }
    }

    /// The number of all tokens: each leaf is one, each group one and its contents. It is below
    /// 2^63.
    pub fn len(&self) -> usize
        ensures len { result ≡ size (forest self.now) }
        ensures fits { result < 2 ^ 63 }
    {
        self.tokens.len()
    }

    /// Whether there is no tree.
    #[tactic(auto, unfolding(crate::specs::Views::forest))]
    pub fn is_empty(&self) -> bool
        ensures { IsTrue result ↔ (forest self.now ≡ empty) }
    {
        self.tokens.is_empty()
    }

    /// The span of the first token. `None` for an empty list.
    #[tactic(auto, unfolding(crate::specs::Views::forest))]
    pub fn first_span(&self) -> Option<Span>
        ensures { result ≡ first_place (forest self.now) }
    {
        self.tokens.first_span()
    }

    /// The span of the last token. `None` for an empty list.
    ///
    /// A leaf has its own span; a group with nothing inside, if it is last, that of its closing
    /// delimiter.
    #[tactic(auto, unfolding(crate::specs::Views::forest))]
    pub fn last_span(&self) -> Option<Span>
        ensures { result ≡ last_place (forest self.now) }
    {
        match self.tokens.last()? {
            TokenTree::Leaf(leaf) => Some(leaf.span()),
            TokenTree::Subtree(subtree) => Some(subtree.delimiter.close_span),
        }
    }

    /// The group, if the list is exactly one group.
    #[tactic(auto, unfolding(crate::specs::Views::forest, crate::specs::Views::top_of))]
    pub fn try_into_subtree(self) -> Option<SubtreeView<'a>>
        ensures { option_map top_of result ≡ only_group (forest self.entry) }
    {
        let (head, inside) = self.tokens.split_head()?;
        if head.usize_len() != inside.len() {
            return None;
        }
        Some(SubtreeView {
            tokens: self.tokens,
        })
    }

    // Whether the list is one group.
    pub(crate) fn is_one_group(self) -> bool
        ensures { IsTrue result ↔ IsSome (only_group (forest self.entry)) }
    {
        self.try_into_subtree().is_some()
    }

    /// The trees inside, if the list is one invisible group; else the list as it is.
    pub fn strip_invisible(self) -> TokenTreesView<'a>
        ensures { forest result ≡ stripped (forest self.entry) }
    {
        match self.try_into_subtree() {
            Some(group) => group.strip_invisible(),
            None => self,
        }
    }
}

/// A borrowed group.
#[derive(Clone, Copy, Debug)]
pub struct SubtreeView<'a> {
    pub(crate) tokens: Tokens<'a>,
    ghost whole: { IsPreorder (items tokens) },
    ghost one: { is_one_group (forest_of (items tokens)) ≡ true },
}

impl<'a> SubtreeView<'a> {
    ghost use Rattle.tt_data.specs.Forest.{empty, group};
    ghost use Rattle.tt.specs.Groups.{stripped};
    ghost use Rattle.tt.specs.Tops.{head_of};
    ghost use Rattle.tt.specs.Views.{forest, top_of};

    /// The list with this group as its one tree.
    #[tactic(auto, unfolding(crate::specs::Views::forest, crate::specs::Views::top_of))]
    pub fn as_token_trees(self) -> TokenTreesView<'a>
        ensures { forest result ≡ group (top_of self.entry).delimiter (top_of self.entry).inner empty }
    {
        let whole = self.tokens;
        TokenTreesView { tokens: whole }
    }

    /// The trees inside the group.
    #[tactic(auto, unfolding(crate::specs::Views::forest, crate::specs::Views::top_of))]
    pub fn token_trees(&self) -> TokenTreesView<'a>
        ensures { forest result ≡ (top_of self.now).inner }
    {
        match self.tokens.split_head() {
            Some((_, inside)) => TokenTreesView { tokens: inside },
            None => unreachable!(),
        }
    }

    /// The head of the group: its delimiters, and how many tokens are inside.
    #[tactic(auto, unfolding(crate::specs::Views::forest, crate::specs::Views::top_of))]
    pub fn top_subtree(&self) -> Subtree
        ensures { result ≡ head_of (top_of self.now) }
    {
        match self.tokens.split_head() {
            Some((head, _)) => head,
            None => unreachable!(),
        }
    }

    /// The trees inside, if the group is invisible; else the group.
    pub fn strip_invisible(&self) -> TokenTreesView<'a>
        ensures { forest result ≡ stripped (group (top_of self.now).delimiter (top_of self.now).inner empty) }
    {
        match self.top_subtree().delimiter.kind {
            DelimiterKind::Invisible => self.token_trees(),
            _ => self.as_token_trees(),
        }
    }
}

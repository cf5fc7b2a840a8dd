//! Whole trees: one group with all inside it.
ghost use Rattle.std.specs.Prelude.{◌≡◌, ◌↔◌, ◌⊎◌, ◌<◌, Err, IfOk, IfErr, IsOkUnless, OnOk, OnErr, false};
ghost use Rattle.std.specs.Prelude.{IsTrue, length, set};
ghost use Rattle.tt_data.specs.declared.tree.TokenTree.TheVariants as token;
ghost use Rattle.tt_data.specs.fault.TtFault.TheVariants as fault;
ghost use Rattle.token_bytes.specs.Items.{items};

pub(crate) mod builder;
mod relabel;
pub(crate) mod transform;

use crate::flatten::is_one_group;
use crate::iter::TtIter;
use crate::view::{SubtreeView, TokenTreesView};
use std::alloc::Global;
use std::hash::{Hash, Hasher};
use std::marker::Model;
use token_bytes::{Mark, TokenBuffer, Tokens};
use tt_data::{
    DelimSpan, Delimiter, DelimiterKind, Leaf, Span, Subtree, Symbol, TokenTree, TtFault,
};

/// A whole tree: one group, and the trees inside it.
#[derive(Debug, Drop)]
pub struct TopSubtree {
    // The group's own token, and those inside.
    pub(crate) tokens: TokenBuffer,
}

impl Model for TopSubtree {
    ghost use Rattle.std.specs.Prelude.{length, ◌≤◌, ◌^◌};
    ghost use Rattle.tt.specs.Tops.{Top, top_code, tree_of, IsOneGroup};

    ghost Value = { Top };

    ghost coded = { top_code };

    ghost view = { λ t. tree_of t.tokens };

    ghost invariant = { λ t. IsOneGroup t.tokens × (length t.tokens ≤ 2 ^ 32) };
}

// Whether this leaf is at an index.
fn has_leaf(tokens: Tokens<'_>, at: usize, leaf: &Leaf) -> bool
    requires { at < length (items tokens) }
    ensures { IsTrue result →
        set (items tokens.entry) at (token.Leaf leaf.now) ≡ items tokens.entry }
{
    match tokens.split_at(at).1.first() {
        Some(TokenTree::Leaf(there)) => there == *leaf,
        _ => false,
    }
}

impl TopSubtree {
    ghost use Rattle.tt_data.specs.Forest.{size, empty};
    ghost use Rattle.std.specs.Prelude.{[]};
    ghost use Rattle.token_bytes.specs.Packing.{records, table_after};
    ghost use Rattle.tt_data.specs.declared.delimiter.DelimiterKind.TheVariants.{Invisible};
    ghost use Rattle.tt.specs.Building.{most_tokens, leaves as leaves_of};
    ghost use Rattle.tt.specs.Tops.{Top, head_of, forest_of_top, tokens_of, no_brackets};
    ghost use Rattle.token_bytes.specs.TokenLists.{has_leaf_at};
    ghost use Rattle.tt.specs.Views.{forest, top_of};

    /// The tree with invisible delimiters at the spans of `span`, and nothing inside.
    ///
    /// `Memory` is its only error.
    pub fn empty(alloc: Global, span: DelimSpan) -> Result<TopSubtree, TtFault>
        ensures ok { IfOk result (λ t. t ≡ record { delimiter = no_brackets span; inner = empty }) }
        ensures memory { IsOkUnless result fault.Memory }
    {
        match TopSubtree::from_token_trees(
            alloc,
            Delimiter::invisible_delim_spanned(span),
            TokenTreesView::empty(),
        ) {
            Err(_) => Err(TtFault::Memory),
            tree => tree,
        }
    }

    /// The group with this delimiter around a copy of these trees.
    ///
    /// It refuses `Tokens` exactly where the trees have more than `u32::MAX` tokens; its one other
    /// error is `Memory`.
    pub fn from_token_trees(
        alloc: Global,
        delimiter: Delimiter,
        token_trees: TokenTreesView<'_>,
    ) -> Result<TopSubtree, TtFault>
        ensures ok { IfOk result (λ t. t ≡ record { delimiter = delimiter; inner = forest token_trees.entry }) }
        ensures tokens { (result ≡ Err fault.Tokens) ↔ (most_tokens < size (forest token_trees.entry)) }
        ensures faults { IfErr result (λ e. (e ≡ fault.Memory) ⊎ (e ≡ fault.Tokens)) }
    {
        let Ok(len) = u32::try_from(token_trees.len()) else {
            return Err(TtFault::Tokens);
        };
        let mut tokens = TokenBuffer::new(alloc);
        tokens.push(TokenTree::Subtree(Subtree { delimiter, len }))?;
        tokens.extend(token_trees.tokens)?;
        Ok(TopSubtree { tokens })
    }

    /// A copy of this group, as a tree of its own.
    ///
    /// `Memory` is its only error.
    pub fn from_subtree(alloc: Global, subtree: SubtreeView<'_>) -> Result<TopSubtree, TtFault>
        ensures ok { IfOk result (λ t. t ≡ top_of subtree.entry) }
        ensures memory { IsOkUnless result fault.Memory }
    {
        let delimiter = subtree.top_subtree().delimiter;
        match TopSubtree::from_token_trees(alloc, delimiter, subtree.token_trees()) {
            Err(_) => Err(TtFault::Memory),
            tree => tree,
        }
    }

    /// The tree with this flat list of tokens: the head of a group, and then all that is inside.
    ///
    /// The list comes back with `Malformed` exactly where it is not that of one group, or with
    /// `Memory`, its one other error. It may take memory from `alloc`.
    pub fn from_serialized(
        alloc: Global,
        tts: Vec<TokenTree>,
    ) -> Result<TopSubtree, (Vec<TokenTree>, TtFault)>
        ensures ok { IfOk result (λ t. tokens_of t ≡ tts.items) }
        ensures err { IfErr result (λ e. (e.0 ≡ tts) × ((e.1 ≡ fault.Memory) ⊎ (e.1 ≡ fault.Malformed))) }
        ensures malformed { IfErr result (λ e. e.1 ≡ fault.Malformed → (t : Top) → tokens_of t ≡ tts.items → ⊥) }
    {
        if !is_one_group(tts.as_slice()) {
            return Err((tts, TtFault::Malformed));
        }
        match TokenBuffer::from_vec(alloc, tts) {
            Ok(tokens) => Ok(TopSubtree { tokens }),
            Err((tts, _)) => Err((tts, TtFault::Memory)),
        }
    }

    /// The tree with invisible delimiters, both at `delim_span`, and these leaves inside.
    ///
    /// It refuses `Tokens` exactly where there are more than `u32::MAX` leaves; its one other
    /// error is `Memory`.
    pub fn invisible_from_leaves<const N: usize>(
        alloc: Global,
        delim_span: Span,
        leaves: [Leaf; N],
    ) -> Result<TopSubtree, TtFault>
        ensures ok { IfOk result (λ t. t ≡ record { delimiter = record { open_span = delim_span; close_span = delim_span; kind = Invisible }; inner = leaves_of leaves.entry }) }
        ensures tokens { (result ≡ Err fault.Tokens) ↔ (most_tokens < N) }
        ensures faults { IfErr result (λ e. (e ≡ fault.Memory) ⊎ (e ≡ fault.Tokens)) }
    {
        let Ok(len) = u32::try_from(N) else {
            return Err(TtFault::Tokens);
        };
        let delimiter = Delimiter::invisible_spanned(delim_span);
        let mut tokens = TokenBuffer::new(alloc);
        tokens.push(TokenTree::Subtree(Subtree { delimiter, len }))?;
        for leaf in leaves {
            tokens.push(TokenTree::Leaf(leaf))?;
        }
        Ok(TopSubtree { tokens })
    }

    /// An equal tree.
    ///
    /// `Memory` is its only error.
    pub fn try_clone(&self, alloc: Global) -> Result<TopSubtree, TtFault>
        ensures ok { IfOk result (λ t. t ≡ self.now) }
        ensures memory { IsOkUnless result fault.Memory }
    {
        let mut tokens = TokenBuffer::new(alloc);
        tokens.extend(self.tokens.tokens())?;
        Ok(TopSubtree { tokens })
    }

    /// The trees inside the group.
    pub fn token_trees(&self) -> TokenTreesView<'_>
        ensures { forest result ≡ self.now.inner }
    {
        self.view().token_trees()
    }

    /// Gives the group another kind of delimiters. It takes no memory.
    pub fn set_top_subtree_delimiter_kind(&mut self, kind: DelimiterKind)
        ensures { self.new ≡ record self.old { delimiter = record self.old.delimiter { kind = kind } } }
    {
        let mut head = self.top_subtree();
        head.delimiter.kind = kind;
        self.tokens.set_head(Mark::start(), head);
    }

    /// Gives the group's delimiters other spans. It takes no memory.
    pub fn set_top_subtree_delimiter_span(&mut self, span: DelimSpan)
        ensures { self.new ≡ record self.old { delimiter = record { open_span = span.open_span; close_span = span.close_span; kind = self.old.delimiter.kind } } }
    {
        let mut head = self.top_subtree();
        head.delimiter.open_span = span.open_span;
        head.delimiter.close_span = span.close_span;
        self.tokens.set_head(Mark::start(), head);
    }

    /// Replaces the leaf at index `idx` of the flat list, in which the group's own head is 0.
    ///
    /// It refuses `Place` exactly where no leaf is there. It may take memory from `alloc` for the
    /// leaf's text; its one other error is `Memory`.
    pub fn set_token(&mut self, _alloc: Global, idx: usize, leaf: Leaf) -> Result<(), TtFault>
        ensures ok { OnOk result (tokens_of self.new ≡ set (tokens_of self.old) idx (token.Leaf leaf)) }
        ensures err { OnErr result (self.new ≡ self.old) }
        ensures place { (result ≡ Err fault.Place) ↔ (has_leaf_at idx (tokens_of self.old) ≡ false) }
        ensures faults { IfErr result (λ e. (e ≡ fault.Memory) ⊎ (e ≡ fault.Place)) }
    {
        if !self.tokens.tokens().is_leaf_at(idx) {
            return Err(TtFault::Place);
        }
        // To replace a leaf takes time for all tokens.
        if has_leaf(self.tokens.tokens(), idx, &leaf) {
            return Ok(());
        }
        self.tokens.set_leaf(idx, leaf)?;
        Ok(())
    }

    /// The tree as a borrowed group.
    #[tactic(auto, unfolding(crate::specs::Views::top_of))]
    pub fn view(&self) -> SubtreeView<'_>
        ensures { top_of result ≡ self.now }
    {
        let tokens = self.tokens.tokens();
        SubtreeView { tokens }
    }

    /// The tree as a list of one group.
    pub fn as_token_trees(&self) -> TokenTreesView<'_>
        ensures { forest result ≡ forest_of_top self.now }
    {
        self.view().as_token_trees()
    }

    /// A walk over the trees inside the group.
    pub fn iter(&self) -> TtIter<'_>
        ensures { result ≡ self.now.inner }
    {
        self.token_trees().iter()
    }

    /// The tree as bytes: the records of its tokens, a group's before those inside. A record has 31
    /// bytes for a group, 18 for a punct or an identifier, 23 for a literal.
    pub fn bytes(&self) -> &[u8]
        ensures { result.now ≡ records [] (tokens_of self.now) }
    {
        self.tokens.bytes()
    }

    /// The table of the tree's texts, which the records number: each once, in the order of first
    /// use.
    pub fn texts(&self) -> &[Symbol]
        ensures { result.now ≡ table_after [] (tokens_of self.now) }
    {
        self.tokens.texts()
    }

    /// The head of the group: its delimiters, and how many tokens are inside.
    pub fn top_subtree(&self) -> Subtree
        ensures { result ≡ head_of self.now }
    {
        let Some(head) = self.tokens.tokens().first_head() else {
            unreachable!()
        };
        head
    }
}

// Two trees are equal if their tokens are, spans included.
impl PartialEq for TopSubtree {
    ghost use Rattle.std.specs.Cmp.{on_per};
    ghost use Rattle.tt_data.specs.contracts.tree.TokenTreePartialEq.TheImpl.Laws as token_laws;
    ghost use Rattle.std.specs.Cmp.Lexicographic.{pointwise, lists_per};
    ghost use Rattle.tt.specs.Tops.{tokens_of};

    ghost eq = { λ a b. pointwise ⟦<TokenTree as PartialEq>⟧.eq (tokens_of a) (tokens_of b) };

    ghost laws = { on_per tokens_of (lists_per token_laws.laws-law) };

    fn eq(&self, other: &TopSubtree) -> bool {
        self.tokens.is_equal(&other.tokens)
    }
}

impl Eq for TopSubtree {
    ghost use Rattle.std.specs.Cmp.{on_equiv};
    ghost use Rattle.tt_data.specs.contracts.tree.TokenTreeEq.TheImpl.Laws as token_laws;
    ghost use Rattle.std.specs.Cmp.Lexicographic.{lists_equiv};
    ghost use Rattle.tt.specs.Tops.{tokens_of};

    ghost laws = { on_equiv tokens_of (lists_equiv token_laws.laws-law) };
}

// What is fed is the tree's bytes as a whole, and then each text of its table.
impl Hash for TopSubtree {
    ghost use Rattle.std.specs.Prelude.{[], ◌∷◌};
    ghost use Rattle.std.specs.Cmp.Lexicographic.{pointwise_decides};
    ghost use Rattle.std.proofs.Common.{ap};
    ghost use Rattle.token_bytes.specs.Packing.{records, table_after};
    ghost use Rattle.tt_data.proofs.EqualityLemmas.{tokens as token_decides};
    ghost use Rattle.tt.specs.Tops.{tokens_of};

    ghost hash_input = { λ t. records [] (tokens_of t) ∷ table_after [] (tokens_of t) };

    ghost respects_eq = { λ a b same. ap (λ ts. records [] ts ∷ table_after [] ts)
        ((pointwise_decides token_decides (tokens_of a) (tokens_of b)).0 same) };

    fn hash<H: Hasher>(&self, state: &mut H) {
        self.tokens.feed(state);
    }
}

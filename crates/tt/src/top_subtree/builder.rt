//! Builders of trees.
ghost use Rattle.std.specs.Prelude.{◌≡◌, ◌≢◌, ◌↔◌, ◌⊎◌, ◌+◌, ◌<◌, ◌^◌, ◌≤◌, ◌++◌, ◌∷◌, [], reverse};
ghost use Rattle.std.specs.Prelude.{length, take, drop, List, Err, Some, None, option_map, map};
ghost use Rattle.std.specs.Prelude.{IfOk, IfErr, IsOk, IsOkUnless, IsSome, IfSome, IsTrue};
ghost use Rattle.std.specs.Prelude.{MatchOption, OnOk, OnErr};
ghost use Rattle.tt_data.specs.Forest.{size, front, preorder};
ghost use Rattle.tt.specs.Views.{forest};
ghost use Rattle.tt.specs.BuilderTokens.{alone_where, with_last_alone, here_of, groups_of};
ghost use Rattle.tt.specs.BuilderTokens.{start_of, begins_invisible, moved_back, AreHeads, IsHeld};
ghost use Rattle.tt.specs.BuilderTokens.{IsListAt, IsNoListAt, IsSettled};
ghost use Rattle.tt.specs.Building.{cut_in};
ghost use Rattle.token_bytes.specs.Marks.{IsMarkIn};
ghost use Rattle.tt_data.specs.fault.TtFault.TheVariants as fault;
ghost use Rattle.tt_data.specs.declared.leaf.Leaf.{Leaf};
ghost use Rattle.tt_data.specs.declared.tree.TokenTree.{TokenTree};
ghost use Rattle.tt_data.specs.declared.tree.TokenTree.TheVariants as token;
ghost use Rattle.token_bytes.specs.Items.{items};
ghost use Rattle.token_bytes.specs.TokenLists.{as_head};
ghost use Rattle.std.specs.Iterator.{Drains, Yields, IsFinite};

use crate::flatten::is_tree_end;
use crate::iter::TtIter;
use crate::top_subtree::TopSubtree;
use crate::view::TokenTreesView;
use std::alloc::Global;
use std::marker::Model;
use token_bytes::{Mark, TokenBuffer, Tokens};
use tt_data::{Delimiter, DelimiterKind, Leaf, Span, Subtree, TokenTree, TtFault};

// The most tokens that a tree may have below its top.
const MOST_TOKENS: usize = u32::MAX as usize;

/// A restore point of a builder: how many tokens it had below the top, and how many groups were
/// open.
#[derive(Clone, Copy)]
pub struct SubtreeBuilderRestorePoint {
    tokens: u32,
    depth: usize,
}

impl Model for SubtreeBuilderRestorePoint {
    ghost use Rattle.tt.specs.Building.{Point, point_code};

    ghost Value = { Point };

    ghost coded = { point_code };

    ghost view = { λ p. record { tokens = p.tokens; depth = p.depth } };

    ghost inverse = { λ p. record { tokens = p.tokens; depth = p.depth } };
}

// A group that is open, and the mark before its head.
#[derive(Clone, Copy)]
struct Opening {
    at: Mark,
    kind: DelimiterKind,
    open_span: Span,
}

impl Opening {
    // The opening once the head at `removed` is taken out.
    fn moved_back(self, removed: Mark) -> Opening
        ensures { result ≡ moved_back removed.count self }
    {
        Opening {
            at: self.at.without_head(removed),
            ..self
        }
    }
}

/// The kinds of a builder's open groups, innermost first.
#[derive(Drop)]
pub struct ExpectedDelimiters<'a> {
    // The innermost last.
    openings: &'a [Opening],
}

impl<'a> Model for ExpectedDelimiters<'a> {
    ghost use Rattle.std.specs.Prelude.{List, map, reverse};
    ghost use Rattle.std.specs.Coded.{coded_list};
    ghost use Rattle.tt_data.specs.contracts.delimiter.DelimiterKind as kind_row;
    ghost use Rattle.tt_data.specs.declared.delimiter.DelimiterKind.{DelimiterKind};

    ghost Value = { List DelimiterKind };

    ghost coded = { coded_list kind_row.the_row.coded };

    ghost view = { λ it. map (λ o. o.kind) (reverse it.openings.now) };
}

impl<'a> Iterator for ExpectedDelimiters<'a> {
    ghost use Rattle.std.specs.Iterator.{YieldsFirst, item_count};

    type Item = DelimiterKind;

    ghost next_gives = { YieldsFirst (λ it. it) };

    ghost remaining = { item_count (λ it. it) };

    /// The next kind, further out. `None` after the outermost group.
    fn next(&mut self) -> Option<DelimiterKind> {
        let (innermost, outer) = self.openings.split_last()?;
        self.openings = outer;
        Some(innermost.kind)
    }
}

/// A tree under construction. Some of its groups are open, one inside the other. What comes next
/// goes into the innermost one, or into the top if none is open.
///
/// A refused call changes nothing.
#[derive(Drop)]
pub struct TopSubtreeBuilder {
    top: Delimiter,
    // The top's token, and those below it. The top and the open groups have no count yet.
    tokens: TokenBuffer,
    // The open groups, the innermost last.
    openings: Vec<Opening>,
    // The mark before the group that was closed last.
    last_closed: Option<Mark>,
    // A mark that no closed group lies across: that of the last point restored, or of the group
    // around it that was closed since. So restoring at growing indices visits each tree once.
    settled: Mark,
}

impl Model for TopSubtreeBuilder {
    ghost use Rattle.std.specs.Prelude.{reverse, length, ◌≤◌, ◌^◌, IfSome};
    ghost use Rattle.tt.specs.Building.{Builder, builder_code};
    ghost use Rattle.tt.specs.BuilderTokens.{here_of, groups_of, index_of, IsHeld, IsTreeAt};
    ghost use Rattle.tt.specs.BuilderTokens.{IsSettled, AreMarks};

    ghost Value = { Builder };

    ghost coded = { builder_code };

    ghost view = { λ b. record {
      tree = record {
        top = b.top;
        groups = groups_of b.tokens (reverse b.openings.items);
        here = here_of b.tokens (reverse b.openings.items);
      };
      last_closed = index_of b.last_closed;
    } };

    ghost invariant = { λ b. IsHeld b.tokens (reverse b.openings.items) × (length b.tokens ≤ 2 ^ 32)
        × IsTreeAt (index_of b.last_closed) b.tokens (reverse b.openings.items)
        × IsSettled b.settled.count (groups_of b.tokens (reverse b.openings.items)) (here_of b.tokens (reverse b.openings.items))
        × IfSome b.last_closed (λ at. b.settled.count ≤ at.count)
        × AreMarks b.tokens (reverse b.openings.items) b.last_closed b.settled };
}

impl TopSubtreeBuilder {
    ghost use Rattle.tt_data.specs.Forest.{empty};
    ghost use Rattle.tt.specs.Building.{leaves as leaves_of};
    ghost use Rattle.tt.specs.Tops.{only_group};
    ghost use Rattle.tt.specs.Building.{pushed, extended, last_alone, opened, closed, count_of};
    ghost use Rattle.tt.specs.Building.{count_in, most_tokens, innermost_group, point_of, cut_back};
    ghost use Rattle.tt.specs.Building.{unwrapped_at};

    /// A builder of a tree with the delimiters `top`, with nothing inside.
    ///
    /// `Memory` is its only error.
    pub fn new(alloc: Global, top: Delimiter) -> Result<TopSubtreeBuilder, TtFault>
        ensures ok { IfOk result (λ b. b ≡ record
            { tree = record { top = top; groups = []; here = empty }; last_closed = None }) }
        ensures memory { IsOkUnless result fault.Memory }
    {
        TopSubtreeBuilder::within(alloc, top, TokenBuffer::new(alloc))
    }

    /// The same, with room for so many tokens, the top's own among them. A tree keeps the room.
    ///
    /// `Memory` is its only error.
    #[inline(always)]
    pub fn with_room(
        alloc: Global,
        top: Delimiter,
        tokens: usize,
    ) -> Result<TopSubtreeBuilder, TtFault>
        ensures ok { IfOk result (λ b. b ≡ record
            { tree = record { top = top; groups = []; here = empty }; last_closed = None }) }
        ensures memory { IsOkUnless result fault.Memory }
    {
        let tokens = TokenBuffer::with_room(alloc, tokens)?;
        TopSubtreeBuilder::within(alloc, top, tokens)
    }

    // A builder over a list without tokens.
    #[inline(always)]
    fn within(
        alloc: Global,
        top: Delimiter,
        mut tokens: TokenBuffer,
    ) -> Result<TopSubtreeBuilder, TtFault>
        requires { tokens ≡ [] }
        ensures ok { IfOk result (λ b. b ≡ record
            { tree = record { top = top; groups = []; here = empty }; last_closed = None }) }
        ensures memory { IsOkUnless result fault.Memory }
    {
        let first = TokenTree::Subtree(Subtree {
            delimiter: top,
            len: 0,
        });
        tokens.push(first)?;
        let settled = tokens.end();
        Ok(TopSubtreeBuilder {
            top,
            tokens,
            openings: Vec::new(alloc),
            last_closed: None,
            settled,
        })
    }

    /// Appends a leaf to the innermost open group.
    ///
    /// It refuses `Tokens` exactly where `u32::MAX` tokens are below the top; its one other error
    /// is `Memory`.
    #[inline(always)]
    pub fn push(&mut self, leaf: Leaf) -> Result<(), TtFault>
        ensures ok { OnOk result (self.new.tree ≡ pushed self.old.tree leaf) }
        ensures last { self.new.last_closed ≡ self.old.last_closed }
        ensures err { OnErr result (self.new ≡ self.old) }
        ensures tokens { (result ≡ Err fault.Tokens) ↔ (count_of self.old.tree ≡ most_tokens) }
        ensures faults { IfErr result (λ e. (e ≡ fault.Memory) ⊎ (e ≡ fault.Tokens)) }
    {
        put_leaf(&mut self.tokens, leaf)?;
        Ok(())
    }

    /// Appends these trees to the innermost open group.
    ///
    /// It refuses `Tokens` exactly where there would be more than `u32::MAX` tokens below the top;
    /// its one other error is `Memory`.
    pub fn extend_with_tt(&mut self, tt: TokenTreesView<'_>) -> Result<(), TtFault>
        ensures ok { OnOk result (self.new.tree ≡ extended self.old.tree (forest tt.entry)) }
        ensures last { self.new.last_closed ≡ self.old.last_closed }
        ensures err { OnErr result (self.new ≡ self.old) }
        ensures tokens { (result ≡ Err fault.Tokens)
            ↔ (most_tokens < count_of self.old.tree + size (forest tt.entry)) }
        ensures faults { IfErr result (λ e. (e ≡ fault.Memory) ⊎ (e ≡ fault.Tokens)) }
    {
        self.put(tt, false)
    }

    /// Appends these leaves to the innermost open group. The iterator ends.
    ///
    /// It refuses `Tokens` only where the leaves that it asked for would be more than fit below
    /// the top; its one other error is `Memory`.
    pub fn extend<I: IntoIterator<Item = Leaf>>(&mut self, leaves: I) -> Result<(), TtFault>
        requires { (all : I.IntoIter) → I.into_iter_gives leaves all →
            I.IntoIter.can_next all × IsFinite (I.IntoIter.remaining all) }
        ensures ok { OnOk result ((all : I.IntoIter) × (ls : List Leaf) × I.into_iter_gives leaves
            all × Drains I.IntoIter.next_gives all ls ×
            (self.new.tree ≡ extended self.old.tree (leaves_of ls))) }
        ensures last { self.new.last_closed ≡ self.old.last_closed }
        ensures err { OnErr result (self.new ≡ self.old) }
        ensures tokens { result ≡ Err fault.Tokens →
            (all : I.IntoIter) × (ls : List Leaf) × (rest : I.IntoIter) × I.into_iter_gives leaves
            all × Yields I.IntoIter.next_gives all ls rest ×
            (most_tokens < count_of self.old.tree + length ls) }
        ensures faults { IfErr result (λ e. (e ≡ fault.Memory) ⊎ (e ≡ fault.Tokens)) }
    {
        let end = self.tokens.end();
        match put_leaves(&mut self.tokens, leaves) {
            Ok(()) => Ok(()),
            Err(fault) => {
                self.tokens.cut_back(end);
                Err(fault)
            }
        }
    }

    /// Appends these trees to the innermost open group, with the very last token, be it inside a
    /// last group, `Alone` if it is a punct.
    ///
    /// It refuses `Tokens` exactly where there would be more than `u32::MAX` tokens below the top;
    /// its one other error is `Memory`.
    pub fn extend_with_tt_alone(&mut self, tt: TokenTreesView<'_>) -> Result<(), TtFault>
        ensures ok { OnOk result (self.new.tree
            ≡ extended self.old.tree (last_alone (forest tt.entry))) }
        ensures last { self.new.last_closed ≡ self.old.last_closed }
        ensures err { OnErr result (self.new ≡ self.old) }
        ensures tokens { (result ≡ Err fault.Tokens)
            ↔ (most_tokens < count_of self.old.tree + size (forest tt.entry)) }
        ensures faults { IfErr result (λ e. (e ≡ fault.Memory) ⊎ (e ≡ fault.Tokens)) }
    {
        self.put(tt, true)
    }

    // Appends these trees, the very last token `Alone` if it is said so.
    fn put(&mut self, tt: TokenTreesView<'_>, is_alone: bool) -> Result<(), TtFault>
        ensures ok { OnOk result (self.new.tree
            ≡ extended self.old.tree (alone_where is_alone (forest tt.entry))) }
        ensures last { self.new.last_closed ≡ self.old.last_closed }
        ensures err { OnErr result (self.new ≡ self.old) }
        ensures tokens { (result ≡ Err fault.Tokens)
            ↔ (most_tokens < count_of self.old.tree + size (forest tt.entry)) }
        ensures faults { IfErr result (λ e. (e ≡ fault.Memory) ⊎ (e ≡ fault.Tokens)) }
    {
        put_trees(&mut self.tokens, tt, is_alone)?;
        Ok(())
    }

    /// Opens a group in the innermost open group. It is now the innermost one, with nothing
    /// inside.
    ///
    /// It refuses `Tokens` exactly where `u32::MAX` tokens are below the top; its one other error
    /// is `Memory`.
    pub fn open(&mut self, delimiter_kind: DelimiterKind, open_span: Span) -> Result<(), TtFault>
        ensures ok { OnOk result (self.new.tree ≡ opened self.old.tree delimiter_kind open_span) }
        ensures last { self.new.last_closed ≡ self.old.last_closed }
        ensures err { OnErr result (self.new ≡ self.old) }
        ensures tokens { (result ≡ Err fault.Tokens) ↔ (count_of self.old.tree ≡ most_tokens) }
        ensures faults { IfErr result (λ e. (e ≡ fault.Memory) ⊎ (e ≡ fault.Tokens)) }
    {
        if self.tokens.len() > MOST_TOKENS {
            return Err(TtFault::Tokens);
        }
        let opening = Opening {
            at: self.tokens.end(),
            kind: delimiter_kind,
            open_span,
        };
        let Ok(()) = self.openings.push(opening) else {
            return Err(TtFault::Memory);
        };
        let delimiter = Delimiter {
            open_span,
            close_span: open_span,
            kind: delimiter_kind,
        };
        match self
            .tokens
            .push(TokenTree::Subtree(Subtree { delimiter, len: 0 }))
        {
            Ok(()) => Ok(()),
            Err(_) => {
                let _ = self.openings.pop();
                Err(TtFault::Memory)
            }
        }
    }

    /// The kind of the innermost open group, and the span of its opening delimiter. `None` if no
    /// group is open.
    pub fn innermost(&self) -> Option<(DelimiterKind, Span)>
        ensures { result ≡ innermost_group self.now.tree.groups }
    {
        let opening = self.openings.last()?;
        Some((opening.kind, opening.open_span))
    }

    /// The kinds of the open groups, innermost first: which closing delimiters have to come.
    pub fn expected_delimiters(&self) -> ExpectedDelimiters<'_>
        ensures { result ≡ map (λ o. o.kind) self.now.tree.groups }
    {
        ExpectedDelimiters {
            openings: self.openings.as_slice(),
        }
    }

    /// Closes the innermost open group, which is now one tree of the group around it.
    ///
    /// It refuses `Place` exactly where no group is open. It takes no memory.
    #[inline(always)]
    pub fn close(&mut self, close_span: Span) -> Result<(), TtFault>
        ensures ok { OnOk result (self.new.tree ≡ closed self.old.tree close_span) }
        ensures last { OnOk result (self.new.last_closed ≡ Some (count_in self.old.tree.groups)) }
        ensures place { IsOkUnless result TtFault.Place }
        ensures err { OnErr result (self.new ≡ self.old) }
        ensures none_open { IsOk result ↔ (self.old.tree.groups ≢ []) }
    {
        let Some(opening) = self.openings.pop() else {
            return Err(TtFault::Place);
        };
        let delimiter = Delimiter {
            open_span: opening.open_span,
            close_span,
            kind: opening.kind,
        };
        let len = (self.tokens.len() - opening.at.count() - 1) as u32;
        self.tokens.set_head(opening.at, Subtree { delimiter, len });
        self.last_closed = Some(opening.at);
        self.settled = self.settled.earlier(opening.at);
        Ok(())
    }

    /// Replaces the group closed last by its contents, if it is invisible. Until another group is
    /// closed, none counts as closed last. It takes no memory.
    pub fn remove_last_subtree_if_invisible(&mut self)
        ensures tree { self.new.tree ≡ unwrapped_at self.old.last_closed self.old.tree }
        ensures last { self.new.last_closed ≡ None }
    {
        let Some(at) = self.last_closed.take() else {
            return;
        };
        if is_invisible_head(self.tokens.head_at(at)) {
            self.tokens.remove_head(at);
            move_back(&mut self.openings, at);
        }
    }

    /// How many tokens are below the top. A group counts as one, beside those inside it, be it open
    /// or closed.
    pub fn len(&self) -> usize
        ensures { result ≡ count_of self.now.tree }
    {
        self.tokens.len() - 1
    }

    /// A restore point at the present state, for `restore`.
    pub fn restore_point(&self) -> SubtreeBuilderRestorePoint
        ensures { result ≡ point_of self.now.tree }
    {
        SubtreeBuilderRestorePoint {
            tokens: (self.tokens.len() - 1) as u32,
            depth: self.openings.len(),
        }
    }

    /// Takes back all that came after a restore point. No group counts as closed last then.
    ///
    /// It refuses `Stale` exactly where the point is not valid. A point is valid if the builder
    /// has at least its number of tokens, exactly its number of open groups begin among these, and
    /// no closed group begins among them and ends past them. It takes no memory.
    pub fn restore(&mut self, restore_point: SubtreeBuilderRestorePoint) -> Result<(), TtFault>
        ensures ok { OnOk result (cut_back restore_point self.old.tree ≡ Some self.new.tree) }
        ensures last { OnOk result (self.new.last_closed ≡ None) }
        ensures stands { IsOk result ↔ IsSome (cut_back restore_point self.old.tree) }
        ensures stale { IsOkUnless result fault.Stale }
        ensures err { OnErr result (self.new ≡ self.old) }
    {
        let openings = self.openings.as_slice();
        let Some(mark) = point_mark(&self.tokens, openings, self.settled, restore_point) else {
            return Err(TtFault::Stale);
        };
        self.tokens.cut_back(mark);
        self.openings.truncate(restore_point.depth);
        self.last_closed = None;
        self.settled = mark;
        Ok(())
    }

    /// The tree, with all that is inside the top.
    ///
    /// Exactly where a group is open, the builder comes back as it was, with `Place`. It takes no
    /// memory.
    #[inline(always)]
    pub fn build(self) -> Result<TopSubtree, (TopSubtreeBuilder, TtFault)>
        ensures ok { IfOk result (λ t. t ≡ record
            { delimiter = self.tree.top; inner = self.tree.here }) }
        ensures err { IfErr result (λ e. (e.0 ≡ self) × (e.1 ≡ TtFault.Place)) }
        ensures built { IsOk result ↔ (self.tree.groups ≡ []) }
    {
        if !self.openings.is_empty() {
            return Err((self, TtFault::Place));
        }
        let TopSubtreeBuilder {
            top,
            mut tokens,
            openings: _,
            last_closed: _,
            settled: _,
        } = self;
        let len = (tokens.len() - 1) as u32;
        let head = Subtree {
            delimiter: top,
            len,
        };
        tokens.set_head(Mark::start(), head);
        Ok(TopSubtree { tokens })
    }

    /// The one group inside the top, as a tree. The top's own delimiters are dropped.
    ///
    /// If a group is open, the builder comes back as it was, with `Place`; if the trees inside the
    /// top are not exactly one group, with `Malformed`. It takes no memory.
    pub fn build_skip_top_subtree(self) -> Result<TopSubtree, (TopSubtreeBuilder, TtFault)>
        ensures ok { IfOk result (λ t. only_group self.tree.here ≡ Some t) }
        ensures err { IfErr result (λ e. e.0 ≡ self) }
        ensures place { IfErr result (λ e. (self.tree.groups ≢ []) → e.1 ≡ fault.Place) }
        ensures malformed { IfErr result (λ e. self.tree.groups ≡ [] → e.1 ≡ fault.Malformed) }
        ensures built { IsOk result ↔ ((self.tree.groups ≡ []) × IsSome
            (only_group self.tree.here)) }
    {
        let open_groups = self.openings.len();
        if open_groups > 0 {
            return Err((self, TtFault::Place));
        }
        let start = self.tokens.past_head(Mark::start());
        let tokens = self.tokens.tokens_after(start);
        let inside = TokenTreesView { tokens };
        if !inside.is_one_group() {
            return Err((self, TtFault::Malformed));
        }
        let TopSubtreeBuilder {
            top: _,
            mut tokens,
            openings: _,
            last_closed: _,
            settled: _,
        } = self;
        tokens.remove_head(Mark::start());
        Ok(TopSubtree { tokens })
    }
}

// Appends a leaf, if there is room below the top.
#[inline(always)]
fn put_leaf(tokens: &mut TokenBuffer, leaf: Leaf) -> Result<(), TtFault>
    ensures ok { OnOk result (tokens.new ≡ tokens.old ++ token.Leaf leaf ∷ []) }
    ensures err { OnErr result (tokens.new ≡ tokens.old) }
    ensures tokens { (result ≡ Err fault.Tokens) ↔ (2 ^ 32 ≤ length tokens.old) }
    ensures room { OnOk result (length tokens.old < 2 ^ 32) }
    ensures faults { IfErr result (λ e. (e ≡ fault.Memory) ⊎ (e ≡ fault.Tokens)) }
{
    if tokens.len() > MOST_TOKENS {
        return Err(TtFault::Tokens);
    }
    tokens.push(TokenTree::Leaf(leaf))?;
    Ok(())
}

// Makes the last token `Alone` if it is a punct, unless no token is after this mark.
fn set_last_alone(tokens: &mut TokenBuffer, from: Mark)
    requires { IsMarkIn from tokens.old }
    ensures some { from.count < length tokens.old → tokens.new ≡ with_last_alone tokens.old }
    ensures none { length tokens.old ≤ from.count → tokens.new ≡ tokens.old }
{
    if from.count() < tokens.len() {
        let last = tokens.mark_after(from, tokens.len() - 1);
        tokens.set_alone(last);
    }
}

// Appends these trees, if there is room below the top, the very last token `Alone` if it is said
// so. A refused call changes nothing.
fn put_trees(
    tokens: &mut TokenBuffer,
    trees: TokenTreesView<'_>,
    is_alone: bool,
) -> Result<(), TtFault>
    requires { length tokens.old ≤ 2 ^ 32 }
    ensures ok { OnOk result (tokens.new ≡ tokens.old
        ++ preorder (alone_where is_alone (forest trees.entry))) }
    ensures err { OnErr result (tokens.new ≡ tokens.old) }
    ensures tokens { (result ≡ Err fault.Tokens)
        ↔ (2 ^ 32 < length tokens.old + size (forest trees.entry)) }
    ensures room { OnOk result (length tokens.old + size (forest trees.entry) ≤ 2 ^ 32) }
    ensures faults { IfErr result (λ e. (e ≡ fault.Memory) ⊎ (e ≡ fault.Tokens)) }
{
    let room = MOST_TOKENS + 1 - tokens.len();
    if room < trees.len() {
        return Err(TtFault::Tokens);
    }
    let end = tokens.end();
    tokens.extend(trees.tokens)?;
    if is_alone {
        set_last_alone(tokens, end);
    }
    Ok(())
}

// Appends leaves. If it is refused, some of them may have been appended.
fn put_leaves<I: IntoIterator<Item = Leaf>>(
    tokens: &mut TokenBuffer,
    leaves: I,
) -> Result<(), TtFault>
    requires finite { (all : I.IntoIter) → I.into_iter_gives leaves all →
        I.IntoIter.can_next all × IsFinite (I.IntoIter.remaining all) }
    requires room { length tokens.old ≤ 2 ^ 32 }
    ensures ok { OnOk result ((all : I.IntoIter) × (ls : List Leaf) × I.into_iter_gives leaves all ×
        Drains I.IntoIter.next_gives all ls × (tokens.new ≡ tokens.old ++ map token.Leaf ls) ×
        (length tokens.new ≤ 2 ^ 32)) }
    ensures err { OnErr result (take (length tokens.old) tokens.new ≡ tokens.old) }
    ensures tokens { result ≡ Err fault.Tokens →
        (all : I.IntoIter) × (ls : List Leaf) × (rest : I.IntoIter) × I.into_iter_gives leaves all ×
        Yields I.IntoIter.next_gives all ls rest × (2 ^ 32 < length tokens.old + length ls) }
    ensures faults { IfErr result (λ e. (e ≡ fault.Memory) ⊎ (e ≡ fault.Tokens)) }
{
    for leaf in leaves {
        put_leaf(tokens, leaf)?;
    }
    Ok(())
}

// Whether a token begins an invisible group. `head` is its head, if it has one.
fn is_invisible_head(head: Option<Subtree>) -> bool
    ensures { (t : TokenTree) → as_head t ≡ head → result ≡ begins_invisible t }
{
    match head {
        Some(head) => head.delimiter.kind == DelimiterKind::Invisible,
        None => false,
    }
}

// Moves the openings back once the head at `removed` is taken out.
fn move_back(openings: &mut Vec<Opening>, removed: Mark)
    ensures { openings.new.items ≡ map (moved_back removed.count) openings.old.items }
{
    for opening in openings.iter_mut() {
        *opening = opening.moved_back(removed);
    }
}

// The mark before the trees of the innermost list.
fn list_start(tokens: &TokenBuffer, openings: &[Opening]) -> Mark
    requires { AreHeads tokens.now (reverse openings.now) }
    ensures marked { IsMarkIn result tokens.now }
    ensures count { result.count ≡ start_of (reverse openings.now) }
{
    match openings.last() {
        Some(opening) => tokens.past_head(opening.at),
        None => tokens.past_head(Mark::start()),
    }
}

// The list in which exactly `depth` groups are open: the mark before its trees, and all tokens up
// to its end. `None` if fewer groups are open.
fn list_at<'a>(
    tokens: &'a TokenBuffer,
    openings: &[Opening],
    depth: usize,
) -> Option<(Mark, Tokens<'a>)>
    requires held { IsHeld tokens.now (reverse openings.now) }
    requires heads { AreHeads tokens.now (reverse openings.now) }
    requires room { length tokens.now ≤ 2 ^ 32 }
    ensures { MatchOption result (IsNoListAt tokens.now (reverse openings.now) depth)
        (λ l. IsListAt tokens.now (reverse openings.now) depth l.0 (items l.1)) }
{
    let mut upto = tokens.tokens();
    let mut around = openings;
    while around.len() > depth {
        let last = around.len() - 1;
        upto = upto.front(around[last].at.count());
        around = &around[..last];
    }
    if around.len() < depth {
        return None;
    }
    Some((list_start(tokens, around), upto))
}

// The tokens after a mark, of those up to the end of a list.
fn tokens_behind<'a>(tokens: &'a TokenBuffer, upto: Tokens<'a>, from: Mark) -> Tokens<'a>
    requires marked { IsMarkIn from tokens.now }
    requires within { from.count ≤ length (items upto) }
    requires first { items upto ≡ take (length (items upto)) tokens.now }
    ensures { items result ≡ drop from.count (items upto.entry) }
{
    tokens.tokens_after(from).front(upto.len() - from.count())
}

// The mark of a restore point, if the point is valid. No closed group lies across `settled`.
fn point_mark(
    tokens: &TokenBuffer,
    openings: &[Opening],
    settled: Mark,
    point: SubtreeBuilderRestorePoint,
) -> Option<Mark>
    requires held { IsHeld tokens.now (reverse openings.now) }
    requires heads { AreHeads tokens.now (reverse openings.now) }
    requires room { length tokens.now ≤ 2 ^ 32 }
    requires known { IsMarkIn settled tokens.now }
    requires settled { IsSettled settled.count (groups_of tokens.now (reverse openings.now))
        (here_of tokens.now (reverse openings.now)) }
    ensures valid { IsSome result ↔ IsSome
        (cut_in point (groups_of tokens.now (reverse openings.now))
        (here_of tokens.now (reverse openings.now))) }
    ensures mark { IfSome result (λ m. IsMarkIn m tokens.now × (m.count ≡ point.tokens + 1)) }
{
    let count = point.tokens as usize + 1;
    let (start, upto) = list_at(tokens, openings, point.depth)?;
    let from = start.or_later(settled, count.min(upto.len()));
    if count < from.count() {
        return None;
    }
    let trees = TtIter {
        tokens: tokens_behind(tokens, upto, from),
    };
    if !is_tree_end(trees, count - from.count()) {
        return None;
    }
    Some(tokens.mark_after(from, count))
}

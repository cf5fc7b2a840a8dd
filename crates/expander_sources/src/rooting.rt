//! Definitions of other crates, written so that they can be expanded here: with the mark of their
//! edition, and their `$crate` standing for their crate.
ghost use Rattle.std.specs.Prelude.{◌≡◌, IfErr, IfOk, IsOkUnless, OnOk};
ghost use Rattle.bridge.specs.Text.{is_punct};
ghost use Rattle.tt.specs.Building.{extended};
ghost use Rattle.tt_data.specs.Forest.{empty, group, leaf as leaf_tree};
ghost use Rattle.tt_data.specs.Spans.{no_span};
ghost use Rattle.tt_data.specs.Lent.{leaf_lent};
ghost use Rattle.tt_data.specs.fault.TtFault.TheVariants as fault;
ghost use Rattle.expander_model.specs.HashedTrees.{own_top};
ghost use Rattle.expander_model.specs.EditionMarks.{edition_word};
ghost use Rattle.expander_sources.specs.Builds.{Adds, IsBuildFault, PutsRooted};
ghost use Rattle.expander_sources.specs.Picks.{brackets_at, first_span, groups_at, head_at};
ghost use Rattle.expander_sources.specs.Picks.{home_piece, keyword_at, marked_with, own_arguments};
ghost use Rattle.expander_sources.specs.Picks.{punct_at, word_at};
ghost use Rattle.expander_sources.specs.Rooting.{is_crate, root_at, rooted};

use crate::home::Home;
use bridge::parts::TokenEvent;
use expander_model::definition::Definition;
use expander_model::tree_walk::TreeWalk;
use small_grammar::names::has_text;
use std::alloc::Global;
use tt::{TopSubtree, TopSubtreeBuilder, TtIter};
use tt_data::{
    Delimiter, DelimiterKind, Edition, Ident, IdentIsRaw, Leaf, LeafRef, Punct, Spacing, Span,
    Symbol, SyntaxContext, TextRange, TtFault,
};

// Whether the leaf is a `$`.
fn is_dollar(leaf: LeafRef<'_>) -> bool
    ensures { result ≡ is_punct "$" (leaf_lent leaf.entry) }
{
    match leaf {
        LeafRef::Punct(punct) => punct.char == '$',
        _ => false,
    }
}

// Whether the leaf is the identifier `crate`, which isn't raw.
fn is_crate(leaf: LeafRef<'_>) -> bool
    ensures { result ≡ is_crate (leaf_lent leaf.entry) }
{
    match leaf {
        LeafRef::Ident(ident) => has_text(ident, "crate"),
        _ => false,
    }
}

// The identifier with this text, at the span of a leaf.
fn root_at(root: &Symbol, leaf: LeafRef<'_>) -> Leaf
    ensures { result ≡ root_at root.now (leaf_lent leaf.entry) }
{
    let Ok(sym) = root.clone() else {
        unreachable!()
    };
    Leaf::Ident(Ident {
        sym,
        span: leaf.span(),
        is_raw: IdentIsRaw::No,
    })
}

// Adds two leaves.
fn push_two(first: Leaf, second: Leaf, tree: &mut TopSubtreeBuilder) -> Result<(), TtFault>
    ensures ok { OnOk result (Adds tree.old.tree tree.new.tree
        (leaf_tree first (leaf_tree second empty))) }
    ensures faults { IfErr result IsBuildFault }
{
    tree.push(first)?;
    tree.push(second)
}

// Adds a leaf and, if it is a `$`, what stands with it: one identifier for `$crate`, and a `$$` as
// it is. `rest` goes on after what was added.
fn push_leaf<'a>(
    root: &Symbol,
    leaf: LeafRef<'a>,
    rest: &mut TtIter<'a>,
    tree: &mut TopSubtreeBuilder,
) -> Result<(), TtFault>
    ensures puts { OnOk result (PutsRooted root.now
        (leaf_tree (leaf_lent leaf.entry) rest.old) rest.new
        tree.old.tree tree.new.tree) }
    ensures faults { IfErr result IsBuildFault }
{
    if is_dollar(leaf) {
        if let Some((next, after)) = rest.lent_leaf() {
            if is_crate(next) {
                *rest = after;
                return tree.push(root_at(root, leaf));
            }
            if is_dollar(next) {
                *rest = after;
                return push_two(leaf.to_leaf(), next.to_leaf(), tree);
            }
        }
    }
    tree.push(leaf.to_leaf())
}

// Adds these trees, their `$crate` as the one identifier with this text.
fn push_rooted(
    alloc: Global,
    root: &Symbol,
    trees: &TtIter<'_>,
    tree: &mut TopSubtreeBuilder,
) -> Result<(), TtFault>
    ensures ok { OnOk result (tree.new.tree ≡ extended tree.old.tree (rooted root.now trees.now)) }
    ensures faults { IfErr result IsBuildFault }
{
    let mut walk = TreeWalk::new(alloc, trees);
    while let Some(event) = walk.next()? {
        match event {
            TokenEvent::Leaf(leaf) => push_leaf(root, leaf, &mut walk.here, tree)?,
            TokenEvent::Opens(kind, span) => tree.open(kind, span)?,
            TokenEvent::Closes(_, span) => tree.close(span)?,
        }
    }
    Ok(())
}

// Adds a group of this kind with these trees, their `$crate` as the one identifier with this text.
fn push_group(
    alloc: Global,
    kind: DelimiterKind,
    root: &Symbol,
    at: Span,
    trees: &TtIter<'_>,
    tree: &mut TopSubtreeBuilder,
) -> Result<(), TtFault>
    ensures ok { OnOk result (Adds tree.old.tree tree.new.tree
        (group (brackets_at kind at) (rooted root.now trees.now) empty)) }
    ensures faults { IfErr result IsBuildFault }
{
    tree.open(kind, at)?;
    push_rooted(alloc, root, trees, tree)?;
    tree.close(at)
}

// A new identifier.
fn word_at(alloc: Global, word: &str, at: Span) -> Result<Leaf, TtFault>
    ensures word { IfOk result (λ l. l ≡ word_at word.now at) }
    ensures memory { IsOkUnless result fault.Memory }
{
    Ok(Leaf::Ident(Ident {
        sym: Symbol::new(alloc, word)?,
        span: at,
        is_raw: IdentIsRaw::No,
    }))
}

// A new punct.
fn punct_at(char: char, at: Span) -> Leaf
    ensures { result ≡ punct_at char at }
{
    Leaf::Punct(Punct {
        char,
        spacing: Spacing::Alone,
        span: at,
    })
}

// What a definition whose identifiers are of this edition is marked with.
fn edition_word(edition: Edition) -> &'static str
    ensures { result.now ≡ edition_word edition }
{
    match edition {
        Edition::Edition2015 => "$2015",
        Edition::Edition2018 => "$2018",
        Edition::Edition2021 => "$2021",
        Edition::Edition2024 => "$2024",
    }
}

// Adds the mark of an edition.
fn push_mark(
    alloc: Global,
    edition: Edition,
    at: Span,
    tree: &mut TopSubtreeBuilder,
) -> Result<(), TtFault>
    ensures ok { OnOk result (Adds tree.old.tree tree.new.tree (marked_with edition at empty)) }
    ensures faults { IfErr result IsBuildFault }
{
    tree.push(punct_at('#', at))?;
    tree.open(DelimiterKind::Bracket, at)?;
    tree.push(word_at(alloc, edition_word(edition), at)?)?;
    tree.close(at)
}

// Adds the keyword of a definition.
fn push_keyword(
    alloc: Global,
    is_macro: bool,
    at: Span,
    tree: &mut TopSubtreeBuilder,
) -> Result<(), TtFault>
    ensures ok { OnOk result (Adds tree.old.tree tree.new.tree (keyword_at is_macro at)) }
    ensures faults { IfErr result IsBuildFault }
{
    if is_macro {
        return tree.push(word_at(alloc, "macro", at)?);
    }
    tree.push(word_at(alloc, "macro_rules", at)?)?;
    tree.push(punct_at('!', at))
}

// Adds the keyword of a definition, and its name as this key.
fn push_head(
    alloc: Global,
    key: Symbol,
    definition: &Definition<'_>,
    at: Span,
    tree: &mut TopSubtreeBuilder,
) -> Result<(), TtFault>
    ensures ok { OnOk result (Adds tree.old.tree tree.new.tree
        (head_at key definition.now at empty)) }
    ensures faults { IfErr result IsBuildFault }
{
    push_keyword(alloc, definition.is_macro, at, tree)?;
    tree.push(Leaf::Ident(Ident {
        sym: key,
        span: definition.name.span,
        is_raw: definition.name.is_raw,
    }))
}

// The span of the first of some trees.
fn first_span(trees: &TtIter<'_>) -> Span
    ensures { result ≡ first_span trees.now }
{
    match trees.next_span() {
        Some(span) => span,
        None => no_span(),
    }
}

// No span.
fn no_span() -> Span
    ensures { result ≡ no_span }
{
    Span {
        range: TextRange { start: 0, end: 0 },
        anchor: 0,
        ctx: SyntaxContext::Written,
    }
}

// Adds what a definition has before its body.
fn push_arguments(
    alloc: Global,
    root: &Symbol,
    definition: &Definition<'_>,
    at: Span,
    tree: &mut TopSubtreeBuilder,
) -> Result<(), TtFault>
    ensures ok { OnOk result (Adds tree.old.tree tree.new.tree
        (own_arguments root.now definition.now at)) }
    ensures faults { IfErr result IsBuildFault }
{
    if !definition.is_macro {
        return Ok(());
    }
    match &definition.arguments {
        Some(trees) => push_group(alloc, DelimiterKind::Parenthesis, root, at, trees, tree),
        None => Ok(()),
    }
}

// Adds what stands behind the name of a definition.
fn push_groups(
    alloc: Global,
    root: &Symbol,
    definition: &Definition<'_>,
    at: Span,
    tree: &mut TopSubtreeBuilder,
) -> Result<(), TtFault>
    ensures ok { OnOk result (Adds tree.old.tree tree.new.tree
        (groups_at root.now definition.now at)) }
    ensures faults { IfErr result IsBuildFault }
{
    push_arguments(alloc, root, definition, at, tree)?;
    push_group(
        alloc,
        DelimiterKind::Brace,
        root,
        at,
        &definition.body,
        tree,
    )
}

/// The tree of a definition of another crate, which is looked up by this key.
pub(crate) fn home_tree(
    alloc: Global,
    home: &Home,
    key: Symbol,
    definition: &Definition<'_>,
) -> Result<TopSubtree, TtFault>
    ensures tree { IfOk result (λ t. t ≡ own_top (home_piece home.now key definition.now)) }
    ensures faults { IfErr result IsBuildFault }
{
    let root = Symbol::new(alloc, home.mark(alloc)?.as_str())?;
    let at = first_span(&definition.piece);
    let mut tree = TopSubtreeBuilder::new(alloc, Delimiter::invisible_spanned(no_span()))?;
    push_mark(alloc, home.edition(), at, &mut tree)?;
    push_head(alloc, key, definition, at, &mut tree)?;
    push_groups(alloc, &root, definition, at, &mut tree)?;
    match tree.build() {
        Ok(tree) => Ok(tree),
        Err((_, fault)) => Err(fault),
    }
}

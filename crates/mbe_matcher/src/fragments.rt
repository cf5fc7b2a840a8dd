//! What each fragment specifier accepts: how many trees a metavariable takes at the head of a
//! list.
ghost use Rattle.std.specs.Prelude.{◌≡◌, Some, ◌-◌, ◌+◌};
ghost use Rattle.mbe_matcher.specs.Fragments.{taken, ident_trees, lifetime_trees, unsigned_trees};
ghost use Rattle.mbe_matcher.specs.Fragments.{literal_trees, tree_trees, is_refused};
ghost use Rattle.mbe_matcher.specs.Fragments.{is_refused_2021, unless_refused};
ghost use Rattle.mbe_matcher.specs.Grammar.{asked, reach};
ghost use Rattle.mbe_matcher.specs.Places.{left_after};
ghost use Rattle.fragment_grammar.specs.declared.fragment.PrefixEntryPoint.TheVariants as entry;

use crate::position::quoted;
use fragment_grammar::{FragmentGrammar, PrefixEntryPoint, steps};
use mbe_rules::MetaVarKind;
use tt::{Leaf, LeafRef, TtElement, TtIter};

// How many trees an `ident` takes: one identifier, raw or not, but no `_`.
#[tactic(auto, using(crate::proofs::LentLemmas::an_ident, crate::proofs::LentLemmas::no_ident))]
fn ident_trees(trees: &TtIter<'_>) -> Option<usize>
    ensures { result ≡ ident_trees trees.now }
{
    match trees.lent_ident() {
        Some((name, _behind)) => {
            if name.sym.as_str() == "_" {
                return None;
            }
            Some(1)
        }
        None => None,
    }
}

// How many trees a `lifetime` takes: a quote and its name.
fn lifetime_trees(trees: &TtIter<'_>) -> Option<usize>
    ensures { result ≡ lifetime_trees trees.now }
{
    match quoted(trees) {
        Some(_name) => Some(2),
        None => None,
    }
}

// How many trees a literal without sign takes: a literal token, `true` or `false`.
#[tactic(auto, using(crate::proofs::LentLemmas::a_leaf, crate::proofs::LentLemmas::no_unsigned))]
fn unsigned_trees(trees: &TtIter<'_>) -> Option<usize>
    ensures { result ≡ unsigned_trees trees.now }
{
    let Some((leaf, _behind)) = trees.lent_leaf() else {
        return None;
    };
    match leaf {
        LeafRef::Literal(_) => Some(1),
        LeafRef::Ident(name) => {
            let name = name.sym.as_str();
            if name == "true" || name == "false" {
                return Some(1);
            }
            None
        }
        LeafRef::Punct(_) => None,
    }
}

// How many trees a `literal` takes: one without sign, or `-` and one without sign.
#[tactic(auto, using(crate::proofs::LentLemmas::a_punct_leaf, crate::proofs::LentLemmas::no_minus))]
fn literal_trees(trees: &TtIter<'_>) -> Option<usize>
    ensures { result ≡ literal_trees trees.now }
{
    let Some((minus, rest)) = trees.first_punct() else {
        return unsigned_trees(trees);
    };
    if minus.char != '-' {
        return None;
    }
    match unsigned_trees(&rest) {
        Some(_) => Some(2),
        None => None,
    }
}

// How many trees a `tt` takes: a quote with its name, a glued operator, or one tree.
#[inline]
#[tactic(auto, using(crate::proofs::LentLemmas::a_punct_leaf, crate::proofs::LentLemmas::tree_else))]
fn tree_trees(trees: &TtIter<'_>) -> Option<usize>
    ensures { result ≡ tree_trees trees.now }
{
    if let Some((punct, _behind)) = trees.first_punct() {
        if punct.char == '\'' {
            return lifetime_trees(trees);
        }
        return Some(trees.glued_count());
    }
    if trees.is_empty() {
        return None;
    }
    Some(1)
}

/// Whether a list cannot begin an `expr`: it begins with `let`.
#[tactic(auto, using(crate::proofs::LentLemmas::an_ident, crate::proofs::LentLemmas::nothing_refused))]
pub fn is_refused(trees: &TtIter<'_>) -> bool
    ensures { result ≡ is_refused trees.now }
{
    match trees.lent_ident() {
        Some((name, _behind)) => name.sym.as_str() == "let",
        None => false,
    }
}

/// Whether a list cannot begin an `expr_2021`: it begins with `let`, `_` or `const`. A raw
/// `r#const` may begin one.
pub fn is_refused_2021(trees: &TtIter<'_>) -> bool
    ensures { result ≡ is_refused_2021 trees.now }
{
    match trees.peek() {
        Some(TtElement::Leaf(Leaf::Ident(name))) => {
            let word = name.sym.as_str();
            if word == "let" {
                return true;
            }
            if name.is_raw.yes() {
                return false;
            }
            word == "_" || word == "const"
        }
        _ => false,
    }
}

// The steps that are left of `number` after all steps of a tree. `None` if the tree has more.
fn without_tree(tree: &TtElement<'_>, number: usize) -> Option<usize>
    ensures { result ≡ left_after tree.now number }
{
    match tree {
        TtElement::Leaf(_) => {
            if number == 0 {
                return None;
            }
            Some(number - 1)
        }
        TtElement::Subtree(_, inner) => {
            let inside = steps(inner.remaining());
            if number < 2 {
                return None;
            }
            if number - 2 < inside {
                return None;
            }
            Some(number - 2 - inside)
        }
    }
}

// How many trees the first `number` steps of a list reach, and whether they end inside the last of
// them or go on after the list.
pub(crate) fn reached(trees: &TtIter<'_>, number: usize) -> (usize, bool)
    ensures { result ≡ reach trees.now number }
{
    let mut rest = trees.copied();
    let mut left = number;
    let mut count = 0;
    while left > 0 {
        let Some(tree) = rest.next() else {
            return (count, true);
        };
        let Some(after) = without_tree(&tree, left) else {
            return (count + 1, true);
        };
        left = after;
        count += 1;
    }
    (count, false)
}

// How many trees the grammar takes at the head of a list. `None` if it finds no such fragment, or
// stops inside a tree.
fn asked<G: FragmentGrammar>(
    grammar: &G,
    entry: PrefixEntryPoint,
    trees: &TtIter<'_>,
) -> Option<usize>
    ensures { result ≡ asked (G.answer grammar.now) entry trees.now }
{
    let prefix = grammar.prefix(entry, trees.remaining());
    if prefix.fault {
        return None;
    }
    let (count, is_inside) = reached(trees, prefix.tokens);
    if is_inside {
        return None;
    }
    Some(count)
}

// How many trees an expression takes, unless the list is refused.
#[inline]
fn expr_trees<G: FragmentGrammar>(
    grammar: &G,
    is_refused: bool,
    trees: &TtIter<'_>,
) -> Option<usize>
    ensures { result ≡ unless_refused is_refused (asked (G.answer grammar.now) entry.Expr
        trees.now) }
{
    if is_refused {
        return None;
    }
    asked(grammar, PrefixEntryPoint::Expr, trees)
}

/// How many trees a metavariable with this fragment specifier takes at the head of a list. `None`
/// if there is no such fragment.
#[inline]
pub(crate) fn fragment_trees<G: FragmentGrammar>(
    grammar: &G,
    kind: MetaVarKind,
    trees: &TtIter<'_>,
) -> Option<usize>
    ensures { result ≡ taken (G.answer grammar.now) kind trees.now }
{
    match kind {
        MetaVarKind::Ident => ident_trees(trees),
        MetaVarKind::Tt => tree_trees(trees),
        MetaVarKind::Lifetime => lifetime_trees(trees),
        MetaVarKind::Literal => literal_trees(trees),
        MetaVarKind::Expr => expr_trees(grammar, is_refused(trees), trees),
        MetaVarKind::Expr2021 => expr_trees(grammar, is_refused_2021(trees), trees),
        MetaVarKind::Path => asked(grammar, PrefixEntryPoint::Path, trees),
        MetaVarKind::Ty => asked(grammar, PrefixEntryPoint::Ty, trees),
        MetaVarKind::Pat => asked(grammar, PrefixEntryPoint::PatTop, trees),
        MetaVarKind::PatParam => asked(grammar, PrefixEntryPoint::Pat, trees),
        MetaVarKind::Stmt => asked(grammar, PrefixEntryPoint::Stmt, trees),
        MetaVarKind::Block => asked(grammar, PrefixEntryPoint::Block, trees),
        MetaVarKind::Meta => asked(grammar, PrefixEntryPoint::MetaItem, trees),
        MetaVarKind::Item => asked(grammar, PrefixEntryPoint::Item, trees),
        MetaVarKind::Vis => asked(grammar, PrefixEntryPoint::Vis, trees),
    }
}

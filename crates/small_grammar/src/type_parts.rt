//! Parts of types in which no type stands. Each function gives the trees after what it is named
//! for, or `None` if the list begins otherwise.
ghost use Rattle.std.specs.Prelude.{◌≡◌, ◌≤◌, [], ◌∷◌, Some, None};
ghost use Rattle.tt_data.specs.Forest.{size};
ghost use Rattle.small_grammar.specs.Expressions.{◌⨾◌, ◌∣◌, maybe};
ghost use Rattle.small_grammar.specs.Signs.{type_sign};
ghost use Rattle.small_grammar.specs.SmallGrammar.{takes, type, lifetime, name, literal, group};
ghost use Rattle.small_grammar.specs.SmallGrammar.{paren, bracket, brace, single, word};

use crate::names::name;
use crate::tokens::{group, group_of, lifetime, literal, parts, punct, two_puncts, word};
use tt::TtIter;
use tt_data::DelimiterKind;

// `&`, perhaps with a lifetime and `mut`.
fn reference_sign<'a>(trees: &TtIter<'a>) -> Option<TtIter<'a>>
    ensures { result ≡ takes (single "&" ⨾ maybe lifetime ⨾ maybe (word "mut")) trees.now }
{
    let rest = punct(trees, '&')?;
    let rest = lifetime(&rest).unwrap_or(rest);
    Some(word(&rest, "mut").unwrap_or(rest))
}

// `*const` or `*mut`.
fn pointer_sign<'a>(trees: &TtIter<'a>) -> Option<TtIter<'a>>
    ensures { result ≡ takes (single "*" ⨾ (word "const" ∣ word "mut")) trees.now }
{
    let rest = punct(trees, '*')?;
    match word(&rest, "const") {
        Some(rest) => Some(rest),
        None => word(&rest, "mut"),
    }
}

/// `dyn` or `impl`.
pub(crate) fn bounds_sign<'a>(trees: &TtIter<'a>) -> Option<TtIter<'a>>
    ensures { result ≡ takes (word "dyn" ∣ word "impl") trees.now }
{
    match word(trees, "dyn") {
        Some(rest) => Some(rest),
        None => word(trees, "impl"),
    }
}

/// `fn` and its parameters.
pub(crate) fn function_sign<'a>(trees: &TtIter<'a>) -> Option<TtIter<'a>>
    ensures { result ≡ takes (word "fn" ⨾ paren) trees.now }
{
    let rest = word(trees, "fn")?;
    group_of(&rest, DelimiterKind::Parenthesis)
}

/// A type of one tree.
pub(crate) fn plain_type<'a>(trees: &TtIter<'a>) -> Option<TtIter<'a>>
    ensures { result ≡ takes (word "_" ∣ single "!" ∣ paren ∣ bracket) trees.now }
{
    if let Some(rest) = word(trees, "_") {
        return Some(rest);
    }
    if let Some(rest) = punct(trees, '!') {
        return Some(rest);
    }
    parts(trees)
}

/// The trees after `!` and a group, or all trees if these do not come first.
pub(crate) fn with_call<'a>(trees: TtIter<'a>) -> TtIter<'a>
    ensures { Some result ≡ takes (maybe (single "!" ⨾ group)) trees.entry }
{
    match punct(&trees, '!') {
        None => trees,
        Some(rest) => group(&rest).unwrap_or(trees),
    }
}

// A literal, perhaps with `-` before it.
fn signed_literal<'a>(trees: &TtIter<'a>) -> Option<TtIter<'a>>
    ensures { result ≡ takes (maybe (single "-") ⨾ literal) trees.now }
{
    let rest = punct(trees, '-').unwrap_or(trees.copied());
    literal(&rest)
}

/// A name and `=`.
pub(crate) fn binding_sign<'a>(trees: &TtIter<'a>) -> Option<TtIter<'a>>
    ensures { result ≡ takes (name ⨾ single "=") trees.now }
{
    let rest = name(trees)?;
    punct(&rest, '=')
}

// `&`, `*const` or `*mut`: what may come before a type.
fn type_sign<'a>(trees: &TtIter<'a>) -> Option<TtIter<'a>>
    ensures { result ≡ takes type_sign trees.now }
{
    match reference_sign(trees) {
        Some(rest) => Some(rest),
        None => pointer_sign(trees),
    }
}

/// The trees after all such signs before a type.
pub(crate) fn behind_signs<'a>(trees: &TtIter<'a>) -> TtIter<'a>
    ensures same { takes type result ≡ takes type trees.now }
    ensures no_more { takes type_sign result ≡ None }
    ensures further { size result ≤ size trees.now }
{
    let mut rest = trees.copied();
    while let Some(next) = type_sign(&rest) {
        rest = next;
    }
    rest
}

/// `::` and a name, or a name: what a path of a type begins with.
pub(crate) fn path_start<'a>(trees: &TtIter<'a>) -> Option<TtIter<'a>>
    ensures { result ≡ takes (maybe (single "::") ⨾ name) trees.now }
{
    name(&two_puncts(trees, ':', ':').unwrap_or(trees.copied()))
}

/// An argument in which no type stands: a lifetime, a literal or a block.
pub(crate) fn plain_arg<'a>(trees: &TtIter<'a>) -> Option<TtIter<'a>>
    ensures { result ≡ takes (lifetime ∣ maybe (single "-") ⨾ literal ∣ brace) trees.now }
{
    if let Some(rest) = lifetime(trees) {
        return Some(rest);
    }
    match signed_literal(trees) {
        Some(rest) => Some(rest),
        None => group_of(trees, DelimiterKind::Brace),
    }
}

//! Patterns. Each function gives the trees after what it is named for, or `None` if the list
//! begins otherwise.
ghost use Rattle.std.specs.Prelude.{◌≡◌, ◌≤◌, Some, None};
ghost use Rattle.tt_data.specs.Forest.{size};
ghost use Rattle.small_grammar.specs.Expressions.{◌⨾◌, ◌∣◌, many, maybe};
ghost use Rattle.small_grammar.specs.Signs.{reference_sign, binding_sign, bare_pattern};
ghost use Rattle.small_grammar.specs.SmallGrammar.{takes, pat, pat_top, num, name, word, paren};
ghost use Rattle.small_grammar.specs.SmallGrammar.{brace, bracket, group, glued, path};

use crate::expressions::{call, path};
use crate::names::name;
use crate::operators::{range, reference};
use crate::tokens::{glued, group_of, literal, parts, word};
use crate::units::Operator;
use tt::TtIter;
use tt_data::DelimiterKind;

// A literal, perhaps with `-` before it.
#[tactic(auto, unfolding(crate::specs::SmallGrammar::num))]
fn num<'a>(trees: &TtIter<'a>) -> Option<TtIter<'a>>
    ensures { result ≡ takes num trees.now }
{
    literal(&glued(trees, Operator::One('-')).unwrap_or(trees.copied()))
}

// The trees after the end of a range, or all trees if none comes first.
fn with_end<'a>(trees: TtIter<'a>) -> TtIter<'a>
    ensures { Some result ≡ takes (maybe (glued "..= .." ⨾ num)) trees.entry }
{
    match range(&trees) {
        None => trees,
        Some(rest) => num(&rest).unwrap_or(trees),
    }
}

// A literal, or a range of two.
fn literals<'a>(trees: &TtIter<'a>) -> Option<TtIter<'a>>
    ensures { result ≡ takes (num ⨾ maybe (glued "..= .." ⨾ num)) trees.now }
{
    let rest = num(trees)?;
    Some(with_end(rest))
}

// `true` or `false`.
fn truth<'a>(trees: &TtIter<'a>) -> Option<TtIter<'a>>
    ensures { result ≡ takes (word "true" ∣ word "false") trees.now }
{
    match word(trees, "true") {
        Some(rest) => Some(rest),
        None => word(trees, "false"),
    }
}

// `&` or `&&`, perhaps with `mut`.
fn reference_sign<'a>(trees: &TtIter<'a>) -> Option<TtIter<'a>>
    ensures { result ≡ takes reference_sign trees.now }
{
    let rest = reference(trees)?;
    Some(word(&rest, "mut").unwrap_or(rest))
}

// A name and `@`, perhaps with `ref` and `mut` before them.
fn binding_sign<'a>(trees: &TtIter<'a>) -> Option<TtIter<'a>>
    ensures { result ≡ takes binding_sign trees.now }
{
    let rest = word(trees, "ref").unwrap_or(trees.copied());
    let rest = word(&rest, "mut").unwrap_or(rest);
    let rest = name(&rest)?;
    glued(&rest, Operator::One('@'))
}

// `ref`, perhaps with `mut`; or `mut`.
fn mode<'a>(trees: &TtIter<'a>) -> Option<TtIter<'a>>
    ensures { result ≡ takes (word "ref" ⨾ maybe (word "mut") ∣ word "mut") trees.now }
{
    match word(trees, "ref") {
        Some(rest) => Some(word(&rest, "mut").unwrap_or(rest)),
        None => word(trees, "mut"),
    }
}

// A name after `ref` or `mut`.
fn moded_name<'a>(trees: &TtIter<'a>) -> Option<TtIter<'a>>
    ensures { result ≡ takes ((word "ref" ⨾ maybe (word "mut") ∣ word "mut") ⨾ name) trees.now }
{
    let rest = mode(trees)?;
    name(&rest)
}

// The trees after what may follow a path in a pattern, if it does.
fn with_parts<'a>(trees: TtIter<'a>) -> TtIter<'a>
    ensures { Some result ≡ takes (maybe (paren ∣ brace ∣ glued "!" ⨾ group)) trees.entry }
{
    if let Some(rest) = group_of(&trees, DelimiterKind::Parenthesis) {
        return rest;
    }
    if let Some(rest) = group_of(&trees, DelimiterKind::Brace) {
        return rest;
    }
    call(&trees).unwrap_or(trees)
}

// A path, with what may follow it.
fn path_pattern<'a>(trees: &TtIter<'a>) -> Option<TtIter<'a>>
    ensures { result ≡ takes (path ⨾ maybe (paren ∣ brace ∣ glued "!" ⨾ group)) trees.now }
{
    let rest = path(trees)?;
    Some(with_parts(rest))
}

// A pattern that begins with no reference sign, and with no name and `@`.
#[tactic(auto, unfolding(crate::specs::Signs::bare_pattern))]
fn bare_pattern<'a>(trees: &TtIter<'a>) -> Option<TtIter<'a>>
    ensures { result ≡ takes bare_pattern trees.now }
{
    if let Some(rest) = word(trees, "_") {
        return Some(rest);
    }
    if let Some(rest) = glued(trees, Operator::Two('.', '.')) {
        return Some(rest);
    }
    if let Some(rest) = literals(trees) {
        return Some(rest);
    }
    if let Some(rest) = truth(trees) {
        return Some(rest);
    }
    if let Some(rest) = parts(trees) {
        return Some(rest);
    }
    match moded_name(trees) {
        Some(rest) => Some(rest),
        None => path_pattern(trees),
    }
}

// The trees after all reference signs before a pattern.
fn behind_references<'a>(trees: &TtIter<'a>) -> TtIter<'a>
    ensures same { takes pat result ≡ takes pat trees.now }
    ensures no_more { takes reference_sign result ≡ None }
    ensures further { size result ≤ size trees.now }
{
    let mut rest = trees.copied();
    while let Some(next) = reference_sign(&rest) {
        rest = next;
    }
    rest
}

/// A pattern without alternatives.
///
/// If what follows the last name and `@` is no pattern, the name by itself is one.
pub(crate) fn pat<'a>(trees: &TtIter<'a>) -> Option<TtIter<'a>>
    ensures { result ≡ takes pat trees.now }
{
    let mut rest = behind_references(trees);
    let mut named = None;
    while let Some(next) = binding_sign(&rest) {
        named = Some(rest);
        rest = behind_references(&next);
    }
    match bare_pattern(&rest) {
        Some(rest) => Some(rest),
        None => bare_pattern(&named?),
    }
}

// Another alternative.
fn alternative<'a>(trees: &TtIter<'a>) -> Option<TtIter<'a>>
    ensures { result ≡ takes (glued "|" ⨾ pat) trees.now }
{
    let rest = glued(trees, Operator::One('|'))?;
    pat(&rest)
}

// The trees after all further alternatives.
fn alternatives<'a>(trees: TtIter<'a>) -> TtIter<'a>
    ensures { Some result ≡ takes (many (glued "|" ⨾ pat)) trees.entry }
{
    let mut rest = trees;
    while let Some(next) = alternative(&rest) {
        rest = next;
    }
    rest
}

/// A pattern with alternatives.
#[tactic(auto, unfolding(crate::specs::SmallGrammar::pat_top))]
pub(crate) fn pat_top<'a>(trees: &TtIter<'a>) -> Option<TtIter<'a>>
    ensures { result ≡ takes pat_top trees.now }
{
    let rest = pat(&glued(trees, Operator::One('|')).unwrap_or(trees.copied()))?;
    Some(alternatives(rest))
}

//! Expressions. Each function gives the trees after what it is named for, or `None` if the list
//! begins otherwise.
ghost use Rattle.std.specs.Prelude.{◌≡◌, Some};
ghost use Rattle.small_grammar.specs.Expressions.{◌⨾◌, ◌∣◌, many, maybe};
ghost use Rattle.small_grammar.specs.SmallGrammar.{takes, path, post, atom, operand, binop, expr};
ghost use Rattle.small_grammar.specs.SmallGrammar.{name, literal, number, brace, group, generics};
ghost use Rattle.small_grammar.specs.SmallGrammar.{type, word, glued};

use crate::names::name;
use crate::operators::{binop, reference, sign};
use crate::tokens::{glued, group, group_of, literal, number, parts, word};
use crate::types::{generics, ty};
use crate::units::Operator;
use tt::TtIter;
use tt_data::DelimiterKind;

/// A path of an expression or a pattern.
#[tactic(auto, unfolding(crate::specs::SmallGrammar::path))]
pub(crate) fn path<'a>(trees: &TtIter<'a>) -> Option<TtIter<'a>>
    ensures { result ≡ takes path trees.now }
{
    let rest = name(&glued(trees, Operator::Two(':', ':')).unwrap_or(trees.copied()))?;
    Some(more_parts(rest))
}

// The further parts of a path.
fn more_parts<'a>(trees: TtIter<'a>) -> TtIter<'a>
    ensures { Some result ≡ takes (many (glued "::" ⨾ (name ∣ generics))) trees.entry }
{
    let mut rest = trees;
    loop {
        let Some(after) = glued(&rest, Operator::Two(':', ':')) else {
            return rest;
        };
        let Some(next) = name(&after).or(generics(&after)) else {
            return rest;
        };
        rest = next;
    }
}

// A call, an index, a question mark, a field or a method.
#[tactic(auto, unfolding(crate::specs::SmallGrammar::post))]
fn post<'a>(trees: &TtIter<'a>) -> Option<TtIter<'a>>
    ensures { result ≡ takes post trees.now }
{
    if let Some(rest) = glued(trees, Operator::One('?')) {
        return Some(rest);
    }
    if let Some(rest) = parts(trees) {
        return Some(rest);
    }
    let rest = glued(trees, Operator::One('.'))?;
    member(&rest)
}

// What may follow a dot.
fn member<'a>(trees: &TtIter<'a>) -> Option<TtIter<'a>>
    ensures { result ≡ takes (name ⨾ maybe (glued "::" ⨾ generics) ∣ word "await" ∣ number)
        trees.now }
{
    if let Some(rest) = name(trees) {
        return Some(with_generics(rest));
    }
    match word(trees, "await") {
        Some(rest) => Some(rest),
        None => number(trees),
    }
}

// The trees after `::` and arguments, or all trees if these do not come first.
fn with_generics<'a>(trees: TtIter<'a>) -> TtIter<'a>
    ensures { Some result ≡ takes (maybe (glued "::" ⨾ generics)) trees.entry }
{
    match glued(&trees, Operator::Two(':', ':')) {
        None => trees,
        Some(rest) => generics(&rest).unwrap_or(trees),
    }
}

// An expression of one tree.
fn plain_atom<'a>(trees: &TtIter<'a>) -> Option<TtIter<'a>>
    ensures { result ≡ takes (literal ∣ word "true" ∣ word "false" ∣ word "_" ∣ group) trees.now }
{
    if let Some(rest) = literal(trees) {
        return Some(rest);
    }
    if let Some(rest) = word(trees, "true") {
        return Some(rest);
    }
    if let Some(rest) = word(trees, "false") {
        return Some(rest);
    }
    match word(trees, "_") {
        Some(rest) => Some(rest),
        None => group(trees),
    }
}

// A block after `const` or `unsafe`.
fn marked_block<'a>(trees: &TtIter<'a>) -> Option<TtIter<'a>>
    ensures { result ≡ takes ((word "const" ∣ word "unsafe") ⨾ brace) trees.now }
{
    let rest = word(trees, "const").or(word(trees, "unsafe"))?;
    group_of(&rest, DelimiterKind::Brace)
}

// The trees after what may follow a path, if it does: a macro's `!` and group, or the fields of a
// struct.
fn with_fields<'a>(trees: TtIter<'a>) -> TtIter<'a>
    ensures { Some result ≡ takes (maybe (glued "!" ⨾ group ∣ brace)) trees.entry }
{
    if let Some(rest) = call(&trees) {
        return rest;
    }
    group_of(&trees, DelimiterKind::Brace).unwrap_or(trees)
}

/// `!` and a group.
pub(crate) fn call<'a>(trees: &TtIter<'a>) -> Option<TtIter<'a>>
    ensures { result ≡ takes (glued "!" ⨾ group) trees.now }
{
    let rest = glued(trees, Operator::One('!'))?;
    group(&rest)
}

// An operand without prefix signs, and without calls after it.
#[tactic(auto, unfolding(crate::specs::SmallGrammar::atom))]
fn atom<'a>(trees: &TtIter<'a>) -> Option<TtIter<'a>>
    ensures { result ≡ takes atom trees.now }
{
    if let Some(rest) = plain_atom(trees) {
        return Some(rest);
    }
    if let Some(rest) = marked_block(trees) {
        return Some(rest);
    }
    let rest = path(trees)?;
    Some(with_fields(rest))
}

// `-`, `!`, `*`, or `&`, the last with `mut` if it follows.
fn prefix<'a>(trees: &TtIter<'a>) -> Option<TtIter<'a>>
    ensures { result ≡ takes (glued "- ! *" ∣ glued "& &&" ⨾ maybe (word "mut")) trees.now }
{
    if let Some(rest) = sign(trees) {
        return Some(rest);
    }
    let rest = reference(trees)?;
    Some(word(&rest, "mut").unwrap_or(rest))
}

// The trees after all signs before an operand.
fn prefixes<'a>(trees: &TtIter<'a>) -> TtIter<'a>
    ensures { Some result ≡ takes (many (glued "- ! *" ∣ glued "& &&" ⨾ maybe (word "mut")))
        trees.now }
{
    let mut rest = trees.copied();
    while let Some(next) = prefix(&rest) {
        rest = next;
    }
    rest
}

// The trees after all calls and members that follow an operand.
fn posts<'a>(trees: TtIter<'a>) -> TtIter<'a>
    ensures { Some result ≡ takes (many post) trees.entry }
{
    let mut rest = trees;
    while let Some(next) = post(&rest) {
        rest = next;
    }
    rest
}

// An operand.
#[tactic(auto, unfolding(crate::specs::SmallGrammar::operand))]
fn operand<'a>(trees: &TtIter<'a>) -> Option<TtIter<'a>>
    ensures { result ≡ takes operand trees.now }
{
    let rest = atom(&prefixes(trees))?;
    Some(posts(rest))
}

// An operator and an operand, or `as` and a type.
fn tail<'a>(trees: &TtIter<'a>) -> Option<TtIter<'a>>
    ensures { result ≡ takes (binop ⨾ operand ∣ word "as" ⨾ type) trees.now }
{
    if let Some(rest) = second_operand(trees) {
        return Some(rest);
    }
    let rest = word(trees, "as")?;
    ty(&rest)
}

fn second_operand<'a>(trees: &TtIter<'a>) -> Option<TtIter<'a>>
    ensures { result ≡ takes (binop ⨾ operand) trees.now }
{
    let rest = binop(trees)?;
    operand(&rest)
}

// The trees after all operators with operands, and all `as` with types, that follow an operand.
fn tails<'a>(trees: TtIter<'a>) -> TtIter<'a>
    ensures { Some result ≡ takes (many (binop ⨾ operand ∣ word "as" ⨾ type)) trees.entry }
{
    let mut rest = trees;
    while let Some(next) = tail(&rest) {
        rest = next;
    }
    rest
}

/// An expression.
#[tactic(auto, unfolding(crate::specs::SmallGrammar::expr))]
pub(crate) fn expr<'a>(trees: &TtIter<'a>) -> Option<TtIter<'a>>
    ensures { result ≡ takes expr trees.now }
{
    let rest = operand(trees)?;
    Some(tails(rest))
}

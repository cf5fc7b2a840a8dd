//! Equality of ops. One loop compares nested lists, with those that are left in memory, so that
//! nesting takes no call stack. Only where that memory is refused, a list inside takes some.
ghost use Rattle.std.specs.Prelude.{◌≡◌, suc, None, option_map};
ghost use Rattle.std.specs.Option.{option_eq};
ghost use Rattle.mbe_rules.specs.Comparing.{pair_same, step_same, IsFewer, pair_count};
ghost use Rattle.mbe_rules.specs.Counts.{count_of};
ghost use Rattle.mbe_rules.specs.Equality as spec;
ghost use Rattle.mbe_rules.specs.Equality.{heads_of, inside_of, no_more, same_names, same_leaves};
ghost use Rattle.mbe_rules.specs.Equality.{same_head, same_heads, same_marks};
ghost use Rattle.mbe_rules.specs.Items.{done};
ghost use Rattle.mbe_rules.specs.Ops.{items_of, put_op};

use crate::parser::{ConcatElement, MetaVarKind, Op, RepeatKind, Separator};
use std::alloc::Global;
use symbols::Symbol;
use tt_data::{Delimiter, Ident, Literal, Punct, Span};

// The number of an op's sort.
fn sort_of(op: &Op) -> usize
    ensures { result ≡ spec.sort_of op.now }
{
    match op {
        Op::Var { .. } => 0,
        Op::Count { .. } => 1,
        Op::Index { .. } => 2,
        Op::Len { .. } => 3,
        Op::Ignore { .. } => 4,
        Op::Concat { .. } => 5,
        Op::Repeat { .. } => 6,
        Op::Subtree { .. } => 7,
        Op::Literal(_) => 8,
        Op::Ident(_) => 9,
        Op::Punct(_) => 10,
        Op::Lifetime(_, _) => 11,
    }
}

fn name_of(op: &Op) -> Option<&Symbol>
    ensures { option_map (λ s. s.now) result ≡ spec.name_of op.now }
{
    match op {
        Op::Var { name, .. } => Some(name),
        Op::Count { name, .. } => Some(name),
        Op::Ignore { name, .. } => Some(name),
        _ => None,
    }
}

fn kind_of(op: &Op) -> Option<MetaVarKind>
    ensures { result ≡ spec.kind_of op.now }
{
    match op {
        Op::Var { kind, .. } => *kind,
        _ => None,
    }
}

fn depth_of(op: &Op) -> usize
    ensures { result ≡ spec.depth_of op.now }
{
    match op {
        Op::Count { depth, .. } => *depth,
        Op::Index { depth, .. } => *depth,
        Op::Len { depth, .. } => *depth,
        _ => 0,
    }
}

fn id_of(op: &Op) -> Option<Span>
    ensures { result ≡ spec.id_of op.now }
{
    match op {
        Op::Var { id, .. } => Some(*id),
        Op::Count { id, .. } => Some(*id),
        Op::Index { id, .. } => Some(*id),
        Op::Len { id, .. } => Some(*id),
        Op::Ignore { id, .. } => Some(*id),
        Op::Concat { id, .. } => Some(*id),
        _ => None,
    }
}

fn elements_of(op: &Op) -> &[ConcatElement]
    ensures { result.now ≡ spec.elements_of op.now }
{
    match op {
        Op::Concat { elements, .. } => elements,
        _ => &[],
    }
}

fn literal_of(op: &Op) -> Option<&Literal>
    ensures { option_map (λ l. l.now) result ≡ spec.literal_of op.now }
{
    match op {
        Op::Literal(literal) => Some(literal),
        _ => None,
    }
}

fn ident_of(op: &Op) -> Option<&Ident>
    ensures { option_map (λ i. i.now) result ≡ spec.ident_of op.now }
{
    match op {
        Op::Ident(ident) => Some(ident),
        Op::Lifetime(_, name) => Some(name),
        _ => None,
    }
}

fn quote_of(op: &Op) -> Option<Punct>
    ensures { result ≡ spec.quote_of op.now }
{
    match op {
        Op::Lifetime(quote, _) => Some(*quote),
        _ => None,
    }
}

fn puncts_of(op: &Op) -> &[Punct]
    ensures { result.now ≡ spec.puncts_of op.now }
{
    match op {
        Op::Punct(puncts) => puncts,
        _ => &[],
    }
}

fn separator_of(op: &Op) -> Option<&Separator>
    ensures { option_map (λ s. s.now) result ≡ spec.separator_of op.now }
{
    match op {
        Op::Repeat {
            separator: Some(separator),
            ..
        } => Some(separator),
        _ => None,
    }
}

fn operator_of(op: &Op) -> Option<RepeatKind>
    ensures { result ≡ spec.operator_of op.now }
{
    match op {
        Op::Repeat { kind, .. } => Some(*kind),
        _ => None,
    }
}

fn delimiter_of(op: &Op) -> Option<Delimiter>
    ensures { result ≡ spec.delimiter_of op.now }
{
    match op {
        Op::Subtree { delimiter, .. } => Some(*delimiter),
        _ => None,
    }
}

// Whether two parts are equal, or both are missing.
fn same_part<T: PartialEq>(first: Option<&T>, second: Option<&T>) -> bool
    ensures { result ≡ option_eq T.eq (option_map (λ x. x.now) first.entry)
        (option_map (λ x. x.now) second.entry) }
{
    match (first, second) {
        (Some(first), Some(second)) => first == second,
        (None, None) => true,
        _ => false,
    }
}

// Whether sorts, names, fragment specifiers, depths and spans are equal.
fn same_names(a: &Op, b: &Op) -> bool
    ensures { result ≡ same_names a.now b.now }
{
    sort_of(a) == sort_of(b)
        && same_part(name_of(a), name_of(b))
        && kind_of(a) == kind_of(b)
        && depth_of(a) == depth_of(b)
        && id_of(a) == id_of(b)
}

// Whether literals, identifiers, puncts and parts of `${concat(..)}` are equal.
fn same_leaves(a: &Op, b: &Op) -> bool
    ensures { result ≡ same_leaves a.now b.now }
{
    same_part(literal_of(a), literal_of(b))
        && same_part(ident_of(a), ident_of(b))
        && quote_of(a) == quote_of(b)
        && puncts_of(a) == puncts_of(b)
        && elements_of(a) == elements_of(b)
}

// Whether separators are alike, and operators and delimiters equal.
fn same_marks(a: &Op, b: &Op) -> bool
    ensures { result ≡ same_marks a.now b.now }
{
    same_part(separator_of(a), separator_of(b))
        && operator_of(a) == operator_of(b)
        && delimiter_of(a) == delimiter_of(b)
}

// Whether two ops are equal but for those inside them.
fn same_head(a: &Op, b: &Op) -> bool
    ensures { result ≡ same_head a.now b.now }
{
    same_names(a, b) && same_leaves(a, b) && same_marks(a, b)
}

// The ops inside an op.
fn inside(op: &Op) -> &[Op]
    ensures same { heads_of result.now ≡ inside_of op.now }
    ensures fewer { count_of (put_op op.now done) ≡ suc (count_of (items_of result.now)) }
{
    match op {
        Op::Repeat { tokens, .. } => tokens,
        Op::Subtree { tokens, .. } => tokens,
        _ => &[],
    }
}

// Two lists that are to be compared.
#[derive(Clone, Copy)]
struct Pair<'a> {
    first: &'a [Op],
    second: &'a [Op],
}

// What the fronts of two lists show.
#[derive(Clone, Copy)]
enum Step<'a> {
    Differ,
    // Both lists are empty.
    Ended,
    // The first ops are equal but for those inside them.
    More { inside: Pair<'a>, rest: Pair<'a> },
}

// Compares the first ops of two lists.
fn compared<'a>(pair: Pair<'a>) -> Step<'a>
    ensures same { step_same result ≡ pair_same pair.entry }
    ensures fewer { IsFewer (pair_count pair.entry) result }
{
    let Some((a, first)) = pair.first.split_first() else {
        return if pair.second.is_empty() {
            Step::Ended
        } else {
            Step::Differ
        };
    };
    let Some((b, second)) = pair.second.split_first() else {
        return Step::Differ;
    };
    if !same_head(a, b) {
        return Step::Differ;
    }
    Step::More {
        inside: Pair {
            first: inside(a),
            second: inside(b),
        },
        rest: Pair { first, second },
    }
}

// Whether two lists are equal. What is left of the lists around the present ones is in memory.
#[cycle(compares)]
fn same_ops(alloc: Global, pair: Pair<'_>) -> bool
    ensures { result ≡ pair_same pair.entry }
{
    let mut around = Vec::new(alloc);
    let mut here = pair;
    loop {
        match compared(here) {
            Step::Differ => return false,
            Step::Ended => match around.pop() {
                Some(outer) => here = outer,
                None => return true,
            },
            Step::More { inside, rest } => {
                if inside.first.is_empty() && inside.second.is_empty() {
                    here = rest;
                } else if around.push(rest).is_ok() {
                    here = inside;
                } else if same_ops(alloc, inside) {
                    here = rest;
                } else {
                    return false;
                }
            }
        }
    }
}

// The allocator of the list inside an op.
fn memory_of(op: &Op) -> Option<Global>
    ensures { result ≡ None → inside_of op.now ≡ no_more }
{
    match op {
        Op::Repeat { tokens, .. } => Some(*tokens.allocator()),
        Op::Subtree { tokens, .. } => Some(*tokens.allocator()),
        _ => None,
    }
}

/// Ops are equal if their parts are, spans included. Separators are equal by their texts.
impl PartialEq for Op {
    ghost use Rattle.std.specs.Cmp.{partial_equiv_from_equiv};
    ghost use Rattle.mbe_rules.specs.Equality.{same_op, same_op_equiv};

    ghost eq = { same_op };

    ghost laws = { partial_equiv_from_equiv same_op_equiv };

    fn eq(&self, other: &Op) -> bool {
        if !same_head(self, other) {
            return false;
        }
        let pair = Pair {
            first: inside(self),
            second: inside(other),
        };
        match memory_of(self) {
            Some(alloc) => same_ops(alloc, pair),
            None => pair.second.is_empty(),
        }
    }
}

impl Eq for Op {
    ghost use Rattle.mbe_rules.specs.Equality.{same_op_equiv};

    ghost laws = { same_op_equiv };
}

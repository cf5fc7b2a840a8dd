//! Clones of rules. A loop copies nested lists, so that nesting takes no call stack.
ghost use Rattle.std.specs.Prelude.{◌≡◌, [], ◌∷◌, ◌++◌, IfOk, option_map, map};
ghost use Rattle.mbe_rules.specs.Copying.{begun, whole, next_whole, weight, IsLess};
ghost use Rattle.mbe_rules.specs.Items.{done};
ghost use Rattle.mbe_rules.specs.Ops.{put_op, items_of, rule_of, rules_of, separator_of, part_of};

use crate::parse::items::{Enclosing, enclosed};
use crate::parser::{ConcatElement, Op, Separator};
use crate::rules::{Rule, Rules};
use std::alloc::{AllocError, Global};
use tt_data::Punct;

fn copy_puncts(alloc: Global, puncts: &[Punct]) -> Result<Vec<Punct>, AllocError>
    ensures { IfOk result (λ v. v.items ≡ puncts.now) }
{
    let mut copies = Vec::new(alloc);
    copies.extend_from_slice(puncts)?;
    Ok(copies)
}

fn copy_separator(alloc: Global, separator: &Separator) -> Result<Separator, AllocError>
    ensures { IfOk result (λ s. separator_of s ≡ separator_of separator.now) }
{
    match separator {
        Separator::Literal(literal) => {
            let literal = literal.clone()?;
            Ok(Separator::Literal(literal))
        }
        Separator::Ident(ident) => {
            let ident = ident.clone()?;
            Ok(Separator::Ident(ident))
        }
        Separator::Lifetime(quote, name) => {
            let name = name.clone()?;
            Ok(Separator::Lifetime(*quote, name))
        }
        Separator::Puncts(puncts) => {
            let puncts = copy_puncts(alloc, puncts)?;
            Ok(Separator::Puncts(puncts))
        }
    }
}

fn copy_elements(
    alloc: Global,
    elements: &[ConcatElement],
) -> Result<Vec<ConcatElement>, AllocError>
    ensures { IfOk result (λ v. v.items ≡ elements.now) }
{
    let mut copies = Vec::new(alloc);
    for element in elements {
        match element {
            ConcatElement::Text(text) => {
                let text = text.clone()?;
                copies.push(ConcatElement::Text(text))?;
            }
            ConcatElement::Var(name) => {
                let name = name.clone()?;
                copies.push(ConcatElement::Var(name))?;
            }
        }
    }
    Ok(copies)
}

fn copy_between(
    alloc: Global,
    separator: &Option<Separator>,
) -> Result<Option<Separator>, AllocError>
    ensures { IfOk result (λ s. option_map separator_of s ≡ option_map separator_of separator.now) }
{
    match separator {
        None => Ok(None),
        Some(separator) => {
            let separator = copy_separator(alloc, separator)?;
            Ok(Some(separator))
        }
    }
}

// The copy of an op. One with a list inside is copied without it.
#[derive(Drop)]
enum Begun<'a> {
    Whole(Op),
    List(Enclosing, &'a [Op]),
}

// Copies an op, but not what is inside it.
fn copy_op<'a>(alloc: Global, op: &'a Op) -> Result<Begun<'a>, AllocError>
    ensures { IfOk result (λ b. begun b ≡ put_op op.now done) }
{
    match op {
        Op::Var { name, kind, id } => {
            let name = name.clone()?;
            Ok(Begun::Whole(Op::Var {
                name,
                kind: *kind,
                id: *id,
            }))
        }
        Op::Count { name, depth, id } => {
            let name = name.clone()?;
            Ok(Begun::Whole(Op::Count {
                name,
                depth: *depth,
                id: *id,
            }))
        }
        Op::Index { depth, id } => Ok(Begun::Whole(Op::Index {
            depth: *depth,
            id: *id,
        })),
        Op::Len { depth, id } => Ok(Begun::Whole(Op::Len {
            depth: *depth,
            id: *id,
        })),
        Op::Ignore { name, id } => {
            let name = name.clone()?;
            Ok(Begun::Whole(Op::Ignore { name, id: *id }))
        }
        Op::Concat { elements, id } => {
            let elements = copy_elements(alloc, elements)?;
            Ok(Begun::Whole(Op::Concat { elements, id: *id }))
        }
        Op::Repeat {
            tokens,
            separator,
            kind,
        } => {
            let separator = copy_between(alloc, separator)?;
            Ok(Begun::List(Enclosing::Repetition(separator, *kind), tokens))
        }
        Op::Subtree { tokens, delimiter } => Ok(Begun::List(Enclosing::Group(*delimiter), tokens)),
        Op::Literal(literal) => {
            let literal = literal.clone()?;
            Ok(Begun::Whole(Op::Literal(literal)))
        }
        Op::Ident(ident) => {
            let ident = ident.clone()?;
            Ok(Begun::Whole(Op::Ident(ident)))
        }
        Op::Punct(puncts) => {
            let puncts = copy_puncts(alloc, puncts)?;
            Ok(Begun::Whole(Op::Punct(puncts)))
        }
        Op::Lifetime(quote, name) => {
            let name = name.clone()?;
            Ok(Begun::Whole(Op::Lifetime(*quote, name)))
        }
    }
}

// A list around the present one: its copies before that one, and its ops after it.
#[derive(Drop)]
struct Around<'a> {
    copies: Vec<Op>,
    enclosing: Enclosing,
    rest: &'a [Op],
}

// The innermost list: its copies so far, its ops that are left, and the lists around it, the
// outermost first.
#[derive(Drop)]
struct Copying<'a> {
    copies: Vec<Op>,
    rest: &'a [Op],
    around: Vec<Around<'a>>,
}

// More is left to copy, or all is copied.
#[derive(Drop)]
enum Next<'a> {
    More(Copying<'a>),
    Last(Vec<Op>),
}

// Leaves a list: the list around it, with the op that has this list inside. If none is around,
// all is copied.
fn leave<'a>(nest: Copying<'a>) -> Result<Next<'a>, AllocError>
    requires { nest.rest.now ≡ [] }
    ensures same { IfOk result (λ n. next_whole n ≡ whole nest.entry) }
    ensures less { IfOk result (λ n. IsLess (weight nest.entry) n) }
{
    let mut around = nest.around;
    let Some(list) = around.pop() else {
        return Ok(Next::Last(nest.copies));
    };
    let mut copies = list.copies;
    copies.push(enclosed(list.enclosing, nest.copies))?;
    Ok(Next::More(Copying {
        copies,
        rest: list.rest,
        around,
    }))
}

// Enters the list inside an op: what is left of the list around it joins those around that one.
fn enter<'a>(
    alloc: Global,
    list: Around<'a>,
    outer: Vec<Around<'a>>,
    inner: &'a [Op],
) -> Result<Copying<'a>, AllocError>
    ensures copies { IfOk result (λ n. n.copies.items ≡ []) }
    ensures rest { IfOk result (λ n. n.rest.now ≡ inner.now) }
    ensures around { IfOk result (λ n. n.around.items ≡ outer.entry.items ++ (list.entry ∷ [])) }
{
    let mut around = outer;
    around.push(list)?;
    Ok(Copying {
        copies: Vec::new(alloc),
        rest: inner,
        around,
    })
}

// Copies what is at the front of the innermost list.
fn copy_on<'a>(alloc: Global, nest: Copying<'a>) -> Result<Next<'a>, AllocError>
    ensures same { IfOk result (λ n. next_whole n ≡ whole nest.entry) }
    ensures less { IfOk result (λ n. IsLess (weight nest.entry) n) }
{
    let Some((op, rest)) = nest.rest.split_first() else {
        return leave(nest);
    };
    let mut copies = nest.copies;
    let around = nest.around;
    match copy_op(alloc, op)? {
        Begun::Whole(copy) => {
            copies.push(copy)?;
            Ok(Next::More(Copying {
                copies,
                rest,
                around,
            }))
        }
        Begun::List(enclosing, inner) => {
            let list = Around {
                copies,
                enclosing,
                rest,
            };
            let more = enter(alloc, list, around, inner)?;
            Ok(Next::More(more))
        }
    }
}

// Copies ops by one loop, with the lists around the innermost one in memory, so that nesting takes
// no call stack.
fn copy_ops(alloc: Global, ops: &[Op]) -> Result<Vec<Op>, AllocError>
    ensures { IfOk result (λ v. items_of v.items ≡ items_of ops.now) }
{
    let mut nest = Copying {
        copies: Vec::new(alloc),
        rest: ops,
        around: Vec::new(alloc),
    };
    loop {
        match copy_on(alloc, nest)? {
            Next::More(more) => nest = more,
            Next::Last(copies) => return Ok(copies),
        }
    }
}

impl Rule {
    /// An equal rule, separators the same in every part. Its only error is out of memory.
    pub fn try_clone(&self, alloc: Global) -> Result<Rule, AllocError>
        ensures { IfOk result (λ r. rule_of r ≡ rule_of self.now) }
    {
        let pattern = copy_ops(alloc, &self.pattern)?;
        let template = copy_ops(alloc, &self.template)?;
        Ok(Rule {
            style: self.style,
            pattern,
            template,
        })
    }
}

impl Rules {
    /// Equal rules, separators the same in every part. The only error is out of memory.
    pub fn try_clone(&self, alloc: Global) -> Result<Rules, AllocError>
        ensures { IfOk result (λ r. rules_of r ≡ rules_of self.now) }
    {
        let mut list = Vec::new(alloc);
        for rule in &self.list {
            let copy = rule.try_clone(alloc)?;
            list.push(copy)?;
        }
        let err = self.err.clone()?;
        Ok(Rules { list, err })
    }
}

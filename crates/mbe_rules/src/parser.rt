//! Matchers and transcribers as data: lists of ops. A loop frees them, so that nesting takes no
//! call stack.
ghost use Rattle.std.specs.Prelude.{◌≡◌, ◌<◌, suc, length, IfSome};
ghost use Rattle.std.specs.Str.{bytes_eq};
ghost use Rattle.std.proofs.Common.{rules};
ghost use denote.Param.Weighed.{most};
ghost use Rattle.tt.specs.Glued.{characters};
ghost use Rattle.mbe_rules.specs.Counts.{count_of};
ghost use Rattle.mbe_rules.specs.Items.{done};
ghost use Rattle.mbe_rules.specs.Ops.{put_op, items_of};
ghost use Rattle.mbe_rules.specs.declared.parser.Op.{size-Op};

use std::mem;
use symbols::Symbol;
use tt_data::{Delimiter, Ident, Literal, Punct, Span};

/// A fragment specifier: what a metavariable may take. (The Rust Reference, "Macros By Example":
/// metavariables.)
#[derive(Clone, Copy, PartialEq, Eq, Debug)]
pub enum MetaVarKind {
    /// `path`
    Path,
    /// `ty`
    Ty,
    /// `pat`, since edition 2021: a pattern, or several with `|` between them.
    Pat,
    /// `pat_param`, and `pat` before edition 2021: one pattern.
    PatParam,
    /// `stmt`
    Stmt,
    /// `block`
    Block,
    /// `meta`
    Meta,
    /// `item`
    Item,
    /// `vis`
    Vis,
    /// `expr`, since edition 2024.
    Expr,
    /// `expr_2021`, and `expr` before edition 2024: neither `_` nor a `const` block begins it.
    Expr2021,
    /// `ident`
    Ident,
    /// `tt`
    Tt,
    /// `lifetime`
    Lifetime,
    /// `literal`
    Literal,
}

/// The operator of a repetition. (The Rust Reference, "Macros By Example": repetitions.)
#[derive(Clone, Copy, PartialEq, Eq, Debug)]
pub enum RepeatKind {
    /// `*`
    ZeroOrMore,
    /// `+`
    OneOrMore,
    /// `?`
    ZeroOrOne,
}

/// What separates the iterations of a repetition.
#[derive(Debug, Drop)]
pub enum Separator {
    /// A literal.
    Literal(Literal),
    /// An identifier.
    Ident(Ident),
    /// A quote and its name.
    Lifetime(Punct, Ident),
    /// One to three puncts, glued or not.
    Puncts(Vec<Punct>),
}

// Whether two lists of puncts have the same characters.
fn same_characters(first: &[Punct], second: &[Punct]) -> bool
    ensures { result ≡ bytes_eq (characters first.now) (characters second.now) }
{
    let Some((a, more)) = first.split_first() else {
        return match second.split_first() {
            None => true,
            Some(_) => false,
        };
    };
    let Some((b, others)) = second.split_first() else {
        return false;
    };
    if a.char != b.char {
        return false;
    }
    same_characters(more, others)
}

/// Separators are equal if sorts, texts and suffixes are. Spans, spacing, rawness and forms of
/// literals do not count.
impl PartialEq for Separator {
    ghost use Rattle.std.specs.Cmp.Rules.{comparing};
    ghost use Rattle.mbe_rules.specs.Likeness.{same_separator};

    ghost eq = { same_separator };

    ghost laws = { Prim.search (comparing, rules) };

    fn eq(&self, other: &Separator) -> bool {
        match (self, other) {
            (Separator::Literal(a), Separator::Literal(b)) => {
                a.text() == b.text() && a.suffix() == b.suffix()
            }
            (Separator::Ident(a), Separator::Ident(b)) => a.sym == b.sym,
            (Separator::Lifetime(_, a), Separator::Lifetime(_, b)) => a.sym == b.sym,
            (Separator::Puncts(a), Separator::Puncts(b)) => same_characters(a, b),
            _ => false,
        }
    }
}

impl Eq for Separator {
    ghost use Rattle.std.specs.Cmp.Rules.{comparing};

    ghost laws = { Prim.search (comparing, rules) };
}

/// A part of `${concat(..)}`.
#[derive(PartialEq, Eq, Debug, Drop)]
pub enum ConcatElement {
    /// An identifier or a literal, by its text.
    Text(Symbol),
    /// `$name`
    Var(Symbol),
}

/// An op of a matcher or of a transcriber. `id` is the span of the `$` that begins it. A depth
/// counts levels of repetitions. (The Rust Reference, "Macros By Example".)
#[derive(Debug)]
pub enum Op {
    /// `$name:kind` in a matcher, where `kind` is `None` if no specifier is written; `$name` in a
    /// transcriber.
    Var {
        name: Symbol,
        kind: Option<MetaVarKind>,
        id: Span,
    },
    /// `${count($name, depth)}`
    Count {
        name: Symbol,
        depth: usize,
        id: Span,
    },
    /// `${index(depth)}`
    Index {
        depth: usize,
        id: Span,
    },
    /// `${len(depth)}`
    Len {
        depth: usize,
        id: Span,
    },
    /// `${ignore($name)}`
    Ignore {
        name: Symbol,
        id: Span,
    },
    /// `${concat(..)}`
    Concat {
        elements: Vec<ConcatElement>,
        id: Span,
    },
    /// `$(..) sep op`
    Repeat {
        tokens: Vec<Op>,
        separator: Option<Separator>,
        kind: RepeatKind,
    },
    /// A group.
    Subtree {
        tokens: Vec<Op>,
        delimiter: Delimiter,
    },
    /// A literal.
    Literal(Literal),
    /// An identifier.
    Ident(Ident),
    /// One to three puncts that are glued to one operator.
    Punct(Vec<Punct>),
    /// In a matcher, a quote and its name.
    Lifetime(Punct, Ident),
}

impl Op {
    // The ops inside. What else the op owns is freed.
    fn into_inner(self) -> Option<Vec<Op>>
        ensures fewer { IfSome result (λ v. count_of (put_op self done)
            ≡ suc (count_of (items_of v.items))) }
        ensures flatter { IfSome result (λ v. most size-Op v.items < size-Op self) }
    {
        match self {
            Op::Repeat {
                tokens,
                separator: _separator,
                kind: _kind,
            } => Some(tokens),
            Op::Subtree {
                tokens,
                delimiter: _delimiter,
            } => Some(tokens),
            Op::Var {
                name: _name,
                kind: _kind,
                id: _id,
            } => None,
            Op::Count {
                name: _name,
                depth: _depth,
                id: _id,
            } => None,
            Op::Index {
                depth: _depth,
                id: _id,
            } => None,
            Op::Len {
                depth: _depth,
                id: _id,
            } => None,
            Op::Ignore {
                name: _name,
                id: _id,
            } => None,
            Op::Concat {
                elements: _elements,
                id: _id,
            } => None,
            Op::Literal(_literal) => None,
            Op::Ident(_ident) => None,
            Op::Punct(_puncts) => None,
            Op::Lifetime(_quote, _name) => None,
        }
    }
}

impl Drop for Op {
    #[cycle(frees)]
    fn drop(self) {
        if let Some(tokens) = self.into_inner()
            && !tokens.is_empty()
        {
            free(tokens);
        }
    }
}

// Frees ops and those inside them. Where an op has ops inside, these come first: the list that is
// left takes the place of the first of them, so that no memory is needed for it.
#[cycle(frees)]
fn free(ops: Vec<Op>)
    requires { 0 < length ops.items }
{
    let mut list = ops;
    while let Some(op) = list.pop() {
        let mut next = op;
        while let Some(mut tokens) = next.into_inner() {
            if list.is_empty() {
                list = tokens;
                break;
            }
            let Some(first) = tokens.first_mut() else {
                break;
            };
            next = mem::replace(
                first,
                Op::Repeat {
                    tokens: list,
                    separator: None,
                    kind: RepeatKind::ZeroOrMore,
                },
            );
            list = tokens;
        }
    }
}

//! The error for an op of a matcher that the argument does not have.
use crate::recovery::values::Partial;
use mbe_rules::{ExpandErrorKind, MetaVarKind, Op};
use mbe_transcriber::mbe_matcher::fragment_grammar::{FragmentGrammar, PrefixEntryPoint};
use mbe_transcriber::mbe_matcher::{is_refused, is_refused_2021, pass_fragment};
use std::alloc::Global;
use symbols::Symbol;
use tt::{Leaf, Punct, TokenTreesView, TtElement, TtFault, TtIter};

// The error for something that cannot be bound or transcribed.
pub(crate) fn binding_error(alloc: Global, text: &str) -> Result<ExpandErrorKind, TtFault> {
    let text = Symbol::new(alloc, text)?;
    Ok(ExpandErrorKind::BindingError(text))
}

// The error where these puncts are expected.
fn expected_puncts(alloc: Global, puncts: &[Punct]) -> Result<ExpandErrorKind, TtFault> {
    let mut text = String::from_str(alloc, "expected punct: `")?;
    for punct in puncts {
        text.push(punct.char)?;
    }
    text.push('`')?;
    binding_error(alloc, &text)
}

// What the grammar is asked for a fragment of this kind. `None` if it is not asked.
fn entry_of(kind: MetaVarKind) -> Option<PrefixEntryPoint> {
    match kind {
        MetaVarKind::Path => Some(PrefixEntryPoint::Path),
        MetaVarKind::Ty => Some(PrefixEntryPoint::Ty),
        MetaVarKind::Pat => Some(PrefixEntryPoint::PatTop),
        MetaVarKind::PatParam => Some(PrefixEntryPoint::Pat),
        MetaVarKind::Stmt => Some(PrefixEntryPoint::Stmt),
        MetaVarKind::Block => Some(PrefixEntryPoint::Block),
        MetaVarKind::Meta => Some(PrefixEntryPoint::MetaItem),
        MetaVarKind::Item => Some(PrefixEntryPoint::Item),
        MetaVarKind::Vis => Some(PrefixEntryPoint::Vis),
        MetaVarKind::Expr | MetaVarKind::Expr2021 => Some(PrefixEntryPoint::Expr),
        MetaVarKind::Ident | MetaVarKind::Tt | MetaVarKind::Lifetime | MetaVarKind::Literal => None,
    }
}

// Whether no expression of this kind begins with the first identifier.
fn is_no_expression(kind: MetaVarKind, trees: &TtIter<'_>) -> bool {
    match kind {
        MetaVarKind::Expr => is_refused(trees),
        MetaVarKind::Expr2021 => is_refused_2021(trees),
        _ => false,
    }
}

// The error where a fragment is expected.
fn expected_fragment(
    alloc: Global,
    kind: MetaVarKind,
    trees: &TtIter<'_>,
) -> Result<ExpandErrorKind, TtFault> {
    if is_no_expression(kind, trees) {
        return Ok(ExpandErrorKind::NoMatchingRule);
    }
    match kind {
        MetaVarKind::Ident => binding_error(alloc, "expected ident"),
        MetaVarKind::Tt => binding_error(alloc, "expected token tree"),
        MetaVarKind::Lifetime => binding_error(alloc, "expected lifetime"),
        MetaVarKind::Literal => binding_error(alloc, "expected literal"),
        _ => match entry_of(kind) {
            Some(entry) => binding_error(alloc, &format!(in alloc; "expected {entry:?}")?),
            None => Ok(ExpandErrorKind::UnexpectedToken),
        },
    }
}

// The error where a thread cannot go on at this op. `None` for other ops, as groups and
// metavariables without a fragment specifier.
pub(crate) fn fault_at(
    alloc: Global,
    op: &Op,
    trees: &TtIter<'_>,
) -> Result<Option<ExpandErrorKind>, TtFault> {
    let (is_leaf, is_punct) = match trees.peek() {
        Some(TtElement::Leaf(Leaf::Punct(punct))) => (true, punct.char != '\''),
        Some(TtElement::Leaf(_)) => (true, false),
        _ => (false, false),
    };
    let kind = match op {
        Op::Ident(_) | Op::Literal(_) if is_leaf => ExpandErrorKind::UnexpectedToken,
        Op::Ident(ident) => binding_error(alloc, &format!(in alloc; "expected ident: `{ident}`")?)?,
        Op::Literal(literal) => {
            binding_error(alloc, &format!(in alloc; "expected literal: `{literal}`")?)?
        }
        Op::Punct(_) | Op::Lifetime(..) if !is_punct => ExpandErrorKind::UnexpectedToken,
        Op::Punct(puncts) => expected_puncts(alloc, puncts)?,
        Op::Lifetime(..) => binding_error(alloc, "expected punct: `'`")?,
        Op::Var {
            kind: Some(kind),
            ..
        } => expected_fragment(alloc, *kind, trees)?,
        _ => return Ok(None),
    };
    Ok(Some(kind))
}

// The metavariable whose fragment is wrong, and the trees that the grammar passes for it. `None`
// if the op is no metavariable with a fragment specifier.
pub(crate) fn partial_at<'a, G: FragmentGrammar>(
    grammar: &G,
    op: &'a Op,
    trees: &TtIter<'a>,
) -> Option<Partial<'a>> {
    let Op::Var {
        name,
        kind: Some(kind),
        ..
    } = op
    else {
        return None;
    };
    let kind = *kind;
    let trees = match entry_of(kind) {
        Some(entry) if !is_no_expression(kind, trees) => {
            let mut rest = trees.remaining().iter();
            pass_fragment(grammar, &mut rest, entry).trees
        }
        _ => TokenTreesView::empty(),
    };
    Some(Partial { name, kind, trees })
}

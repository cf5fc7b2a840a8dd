//! Placeholder tokens where transcription goes on after a fault, and the text of `${concat(..)}`.
use crate::recovery::values::VarLookup;
use mbe_rules::{MetaVarKind, Separator};
use mbe_transcriber::rawness_of;
use std::alloc::Global;
use symbols::Symbol;
use tt::{
    DelimiterKind, Ident, IdentIsRaw, Leaf, LitKind, Literal, Punct, Spacing, Span,
    TopSubtreeBuilder, TtElement, TtFault,
};

pub(crate) fn punct(char: char, spacing: Spacing, span: Span) -> Leaf {
    Leaf::Punct(Punct {
        char,
        spacing,
        span,
    })
}

// An identifier, which is raw if it is a reserved word.
pub(crate) fn word(alloc: Global, text: &str, span: Span) -> Result<Leaf, TtFault> {
    Ok(Leaf::Ident(Ident {
        sym: Symbol::new(alloc, text)?,
        span,
        is_raw: rawness_of(text),
    }))
}

// Adds a number.
pub(crate) fn put_number(
    alloc: Global,
    out: &mut TopSubtreeBuilder,
    number: usize,
    span: Span,
) -> Result<(), TtFault> {
    let text = format!(in alloc; "{number}")?;
    let literal = Literal::new_no_suffix(alloc, &text, span, LitKind::Integer)?;
    out.push(Leaf::Literal(literal))
}

// Adds the placeholder for a fragment of this kind of which nothing was consumed.
pub(crate) fn put_missing(
    alloc: Global,
    out: &mut TopSubtreeBuilder,
    kind: MetaVarKind,
    span: Span,
) -> Result<(), TtFault> {
    match kind {
        MetaVarKind::Meta | MetaVarKind::Item | MetaVarKind::Tt | MetaVarKind::Vis => Ok(()),
        MetaVarKind::Stmt => out.push(punct(';', Spacing::Alone, span)),
        MetaVarKind::Block => {
            out.open(DelimiterKind::Brace, span)?;
            out.close(span)
        }
        MetaVarKind::Lifetime => {
            out.push(punct('\'', Spacing::Joint, span))?;
            out.push(word(alloc, "missing", span)?)
        }
        _ => out.push(word(alloc, "missing", span)?),
    }
}

// Adds a separator, as it is written in the transcriber.
pub(crate) fn put_separator(
    out: &mut TopSubtreeBuilder,
    separator: &Option<Separator>,
) -> Result<(), TtFault> {
    match separator {
        None => Ok(()),
        Some(Separator::Literal(literal)) => out.push(Leaf::Literal(literal.clone()?)),
        Some(Separator::Ident(ident)) => out.push(Leaf::Ident(ident.clone()?)),
        Some(Separator::Lifetime(quote, ident)) => {
            out.push(Leaf::Punct(*quote))?;
            out.push(Leaf::Ident(ident.clone()?))
        }
        Some(Separator::Puncts(puncts)) => {
            for punct in puncts {
                out.push(Leaf::Punct(*punct))?;
            }
            Ok(())
        }
    }
}

// Adds the text that a metavariable gives, if it is one identifier or literal, and answers
// whether it is.
pub(crate) fn add_text(text: &mut String, found: VarLookup<'_>) -> Result<bool, TtFault> {
    let trees = match found {
        VarLookup::Missing(
            MetaVarKind::Path
            | MetaVarKind::Ty
            | MetaVarKind::Pat
            | MetaVarKind::PatParam
            | MetaVarKind::Expr
            | MetaVarKind::Expr2021
            | MetaVarKind::Ident
            | MetaVarKind::Literal,
        ) => {
            text.push_str("missing")?;
            return Ok(true);
        }
        VarLookup::Fragment(MetaVarKind::Path | MetaVarKind::Expr | MetaVarKind::Expr2021, _) => {
            return Ok(false);
        }
        VarLookup::Fragment(_, trees) => trees,
        _ => return Ok(false),
    };
    let mut rest = trees.iter();
    match (rest.next(), rest.is_empty()) {
        (Some(TtElement::Leaf(Leaf::Ident(ident))), true) => text.push_str(ident.sym.as_str())?,
        (Some(TtElement::Leaf(Leaf::Literal(literal))), true) => text.push_str(literal.text())?,
        _ => return Ok(false),
    }
    Ok(true)
}

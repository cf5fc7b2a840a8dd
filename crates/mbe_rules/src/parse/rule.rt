//! Finds the parts of one rule: its style, its matcher and its transcriber.
ghost use Rattle.std.specs.Prelude.{◌≡◌, IfOk, Err};
ghost use Rattle.mbe_rules.specs.Parsing.{arms, with_parentheses, styled, rule_shape};
ghost use Rattle.mbe_rules.specs.Reading.{group_next, after_char, parts_read};
ghost use Rattle.mbe_rules.specs.Trees.{signs};
ghost use Rattle.mbe_rules.specs.declared.errors.ParseError.TheVariants as error;

use crate::macro_call_style::MacroCallStyle;
use crate::parse::dollar::{Parsed, expected};
use std::alloc::{AllocError, Global};
use tt::{TtElement, TtIter};

// A rule's style, the trees inside its matcher and its transcriber, and the trees after it.
#[derive(Drop)]
pub(crate) struct RuleParts<'a> {
    pub(crate) style: MacroCallStyle,
    pub(crate) pattern: TtIter<'a>,
    pub(crate) template: TtIter<'a>,
    pub(crate) rest: TtIter<'a>,
}

// The fault that something is missing.
fn missing<'a>(alloc: Global, text: &str) -> Result<Parsed<RuleParts<'a>>, AllocError>
    ensures { IfOk result (λ r. r ≡ Err (error.Expected text.now)) }
{
    let e = expected(alloc, text)?;
    Ok(Err(e))
}

// The trees inside the group at the front of a list, and the trees after it.
fn group_next<'a>(trees: &TtIter<'a>) -> Option<(TtIter<'a>, TtIter<'a>)>
    ensures { result ≡ group_next trees.now }
{
    let mut rest = trees.copied();
    match rest.next()? {
        TtElement::Subtree(_subtree, inner) => Some((inner, rest)),
        TtElement::Leaf(_leaf) => None,
    }
}

// The trees after this character.
fn after_char<'a>(c: char, trees: &TtIter<'a>) -> Option<TtIter<'a>>
    ensures { result ≡ after_char c trees.now }
{
    let (punct, rest) = trees.first_punct()?;
    if punct.char != c {
        return None;
    }
    Some(rest)
}

// A matcher, `=>` and a transcriber.
#[tactic(auto, using(crate::proofs::RuleLemmas::arms_steps))]
fn arms<'a>(
    alloc: Global,
    style: MacroCallStyle,
    trees: &TtIter<'a>,
) -> Result<Parsed<RuleParts<'a>>, AllocError>
    ensures { IfOk result (λ r. r ≡ parts_read trees.now (arms style 0 (signs trees.now))) }
{
    let Some((pattern, behind)) = group_next(trees) else {
        return missing(alloc, "expected subtree");
    };
    let Some(arrow) = after_char('=', &behind) else {
        return missing(alloc, "expected `=`");
    };
    let Some(right) = after_char('>', &arrow) else {
        return missing(alloc, "expected `>`");
    };
    let Some((template, rest)) = group_next(&right) else {
        return missing(alloc, "expected subtree");
    };
    Ok(Ok(RuleParts {
        style,
        pattern,
        template,
        rest,
    }))
}

// A rule after the keyword for its style: a group has to come before its matcher.
#[tactic(auto, using(crate::proofs::RuleLemmas::parentheses_steps))]
fn with_parentheses<'a>(
    alloc: Global,
    style: MacroCallStyle,
    trees: &TtIter<'a>,
) -> Result<Parsed<RuleParts<'a>>, AllocError>
    ensures { IfOk result (λ r.
        r ≡ parts_read trees.now (with_parentheses style 0 (signs trees.now))) }
{
    let Some((_inner, rest)) = group_next(trees) else {
        return missing(alloc, "expected `()`");
    };
    arms(alloc, style, &rest)
}

// A rule of one of the styles.
#[tactic(auto, using(crate::proofs::RuleLemmas::styled_steps))]
fn styled<'a>(alloc: Global, trees: &TtIter<'a>) -> Result<Parsed<RuleParts<'a>>, AllocError>
    ensures { IfOk result (λ r. r ≡ parts_read trees.now (styled 0 (signs trees.now))) }
{
    let Some((word, rest)) = trees.first_ident() else {
        return arms(alloc, MacroCallStyle::FnLike, trees);
    };
    if word.sym.as_str() == "attr" {
        return with_parentheses(alloc, MacroCallStyle::Attr, &rest);
    }
    if word.sym.as_str() == "derive" {
        return with_parentheses(alloc, MacroCallStyle::Derive, &rest);
    }
    arms(alloc, MacroCallStyle::FnLike, trees)
}

// The parts of the rule at the front of a list. An `unsafe` before it changes nothing.
#[tactic(auto, using(crate::proofs::RuleLemmas::shape_steps))]
pub(crate) fn parts<'a>(
    alloc: Global,
    trees: &TtIter<'a>,
) -> Result<Parsed<RuleParts<'a>>, AllocError>
    ensures { IfOk result (λ r. r ≡ parts_read trees.now (rule_shape (signs trees.now))) }
{
    let Some((word, rest)) = trees.first_ident() else {
        return styled(alloc, trees);
    };
    if word.sym.as_str() == "unsafe" {
        return styled(alloc, &rest);
    }
    styled(alloc, trees)
}

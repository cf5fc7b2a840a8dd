//! Parses a definition as its rules, up to the first fault.
ghost use Rattle.std.specs.Prelude.{◌≡◌, ◌<◌, None, IfOk, IsOkUnless, map, option_map};
ghost use Rattle.std.specs.List.{list_any};
ghost use Rattle.symbols.specs.declared.fault.TtFault.TheVariants as fault;
ghost use Rattle.tt_data.specs.Forest.{empty};
ghost use Rattle.mbe_rules.specs.Editions.{IsAnsweredBy};
ghost use Rattle.mbe_rules.specs.Items.{has_empty_round};
ghost use Rattle.mbe_rules.specs.Ops as ops;
ghost use Rattle.mbe_rules.specs.Ops.{rules_of};
ghost use Rattle.mbe_rules.specs.Parsing as parsing;
ghost use Rattle.mbe_rules.specs.Parsing.{Delimiting, rule_shape, rules_after, rule_then, no_rules};
ghost use Rattle.mbe_rules.specs.Parsing.{macro_rules_of, macro_of};
ghost use Rattle.mbe_rules.specs.Reading.{edition_in, delimiting_of, after_delimiter, parts_read};
ghost use Rattle.mbe_rules.specs.Reading.{rule_in, rule_read, rule_and_rest};
ghost use Rattle.mbe_rules.specs.Trees.{signs};
ghost use Rattle.mbe_rules.specs.declared.macro_call_style.MacroCallStyle.TheVariants as style;

use crate::errors::ParseError;
use crate::macro_call_style::MacroCallStyle;
use crate::parse::dollar::{Mode, Parsed, expected};
use crate::parse::editions::Editions;
use crate::parse::items::items;
use crate::parse::rule::parts;
use crate::rules::{Rule, Rules};
use crate::validation::has_empty_round;
use std::alloc::{AllocError, Global};
use symbols::TtFault;
use tt::{TopSubtree, TtElement, TtIter};
use tt_data::{Edition, Leaf, SyntaxContext};

// What may separate rules.
#[derive(Clone, Copy, PartialEq, Eq)]
pub(crate) enum Delimiting {
    Semicolon,
    SemicolonOrComma,
}

impl Delimiting {
    // Whether this character may separate them.
    fn is_between(self, c: char) -> bool
        ensures { result ≡ (delimiting_of self).is_between c }
    {
        match self {
            Delimiting::Semicolon => c == ';',
            Delimiting::SemicolonOrComma => c == ';' || c == ',',
        }
    }

    // The fault if something else separates them.
    fn fault(self, alloc: Global) -> Result<ParseError, AllocError>
        ensures { IfOk result (λ e. e ≡ (delimiting_of self).fault) }
    {
        match self {
            Delimiting::Semicolon => expected(alloc, "expected `;`"),
            Delimiting::SemicolonOrComma => {
                expected(alloc, "expected `;` or `,` to delimit rules")
            }
        }
    }
}

// The rule of a matcher and a transcriber.
fn rule_of(
    alloc: Global,
    editions: Editions,
    style: MacroCallStyle,
    pattern: &TtIter<'_>,
    template: &TtIter<'_>,
) -> Result<Parsed<Rule>, AllocError>
    ensures { IfOk result (λ r. rule_read r ≡ parsing.rule_of (edition_in editions) style
        pattern.now template.now) }
{
    match items(alloc, editions, Mode::Pattern, pattern)? {
        Err(e) => Ok(Err(e)),
        Ok(pattern) => match items(alloc, editions, Mode::Template, template)? {
            Err(e) => Ok(Err(e)),
            Ok(template) => Ok(Ok(Rule {
                style,
                pattern,
                template,
            })),
        },
    }
}

// The rule at the front of a list, and the trees after it.
fn rule<'a>(
    alloc: Global,
    editions: Editions,
    trees: &TtIter<'a>,
) -> Result<Parsed<(Rule, TtIter<'a>)>, AllocError>
    ensures { IfOk result (λ r. rule_and_rest r ≡ rule_in (edition_in editions)
        (parts_read trees.now (rule_shape (signs trees.now)))) }
{
    match parts(alloc, trees)? {
        Err(e) => Ok(Err(e)),
        Ok(parts) => {
            match rule_of(
                alloc,
                editions,
                parts.style,
                &parts.pattern,
                &parts.template,
            )? {
                Err(e) => Ok(Err(e)),
                Ok(rule) => Ok(Ok((rule, parts.rest))),
            }
        }
    }
}

// The trees after the delimiter between two rules. `None` if something else is there.
fn after_delimiter<'a>(between: Delimiting, trees: TtIter<'a>) -> Option<TtIter<'a>>
    ensures { result ≡ after_delimiter (delimiting_of between) trees.entry }
{
    let mut rest = TtIter::copied(&trees);
    match rest.next() {
        None => Some(trees),
        Some(TtElement::Leaf(Leaf::Punct(punct))) => {
            if between.is_between(punct.char) {
                Some(rest)
            } else {
                None
            }
        }
        _ => None,
    }
}

// The rules in a list of trees, up to the first fault.
fn rules_of(
    alloc: Global,
    editions: Editions,
    between: Delimiting,
    trees: &TtIter<'_>,
) -> Result<Rules, AllocError>
    ensures { IfOk result (λ r. rules_of r ≡ rules_after (edition_in editions)
        (delimiting_of between) 0 trees.now) }
{
    let mut list = Vec::new(alloc);
    let mut rest = trees.copied();
    while !rest.is_empty() {
        match rule(alloc, editions, &rest)? {
            Err(e) => return Ok(Rules { list, err: Some(e) }),
            Ok((rule, behind)) => {
                list.push(rule)?;
                let Some(next) = after_delimiter(between, behind) else {
                    let e = between.fault(alloc)?;
                    return Ok(Rules { list, err: Some(e) });
                };
                rest = next;
            }
        }
    }
    Ok(Rules { list, err: None })
}

// The one rule of a matcher and a transcriber.
fn one_rule(
    alloc: Global,
    editions: Editions,
    pattern: &TtIter<'_>,
    template: &TtIter<'_>,
) -> Result<Rules, AllocError>
    ensures { IfOk result (λ r. rules_of r
        ≡ rule_then (parsing.rule_of (edition_in editions) style.FnLike pattern.now template.now)
        (no_rules None)) }
{
    let mut list = Vec::new(alloc);
    match rule_of(alloc, editions, MacroCallStyle::FnLike, pattern, template)? {
        Err(e) => Ok(Rules { list, err: Some(e) }),
        Ok(rule) => {
            list.push(rule)?;
            Ok(Rules { list, err: None })
        }
    }
}

// Whether a matcher of these rules can iterate without end.
fn is_endless(alloc: Global, list: &[Rule]) -> Result<bool, AllocError>
    ensures { IfOk result (λ b. b ≡ list_any (λ r. has_empty_round r.pattern)
        (map ops.rule_of list.now)) }
{
    for rule in list {
        if has_empty_round(alloc, &rule.pattern)? {
            return Ok(true);
        }
    }
    Ok(false)
}

// These rules. If one can iterate without end, that fault replaces any other.
fn ending(alloc: Global, rules: Rules) -> Result<Rules, AllocError>
    ensures { IfOk result (λ r. rules_of r ≡ parsing.ending (rules_of rules)) }
{
    if is_endless(alloc, &rules.list)? {
        return Ok(Rules {
            list: rules.list,
            err: Some(ParseError::RepetitionEmptyTokenTree),
        });
    }
    Ok(rules)
}

/// Parses the rules of `macro_rules! name { .. }`, whose delimiters are those of `tt`. They are
/// separated by `;`, which may also follow the last. (The Rust Reference, "Macros By Example".)
///
/// A rule with a fault ends the parse: the rules before it stay, and `err` is that fault. If one
/// of the matchers can iterate without end, `err` is `RepetitionEmptyTokenTree`, whatever else is
/// wrong.
///
/// `ctx_edition` answers the edition of the tokens of each of the two contexts, and is asked once
/// about each. `Memory` is the only error.
pub fn parse_macro_rules<F: Fn(SyntaxContext) -> Edition>(
    alloc: Global,
    tt: &TopSubtree,
    ctx_edition: F,
) -> Result<Rules, TtFault>
    requires { F.IsAlwaysCallable ctx_edition }
    ensures ok { (edition : SyntaxContext → Edition) → IsAnsweredBy (F.post ctx_edition) edition →
        IfOk result (λ r. rules_of r ≡ macro_rules_of edition tt.now.inner) }
    ensures memory { IsOkUnless result fault.Memory }
{
    let editions = Editions::of(ctx_edition);
    let rules = rules_of(alloc, editions, Delimiting::Semicolon, &tt.iter())?;
    let rules = ending(alloc, rules)?;
    Ok(rules)
}

/// Parses the rules of `macro name { .. }`, whose delimiters are those of `body`, as
/// `parse_macro_rules` does; they are separated by `;` or `,`. With `args` it parses `macro
/// name(..) { .. }`: one rule, with its matcher in `args` and its transcriber in `body`. (Rust's
/// unstable book, `decl_macro`.)
pub fn parse_macro2<F: Fn(SyntaxContext) -> Edition>(
    alloc: Global,
    args: Option<&TopSubtree>,
    body: &TopSubtree,
    ctx_edition: F,
) -> Result<Rules, TtFault>
    requires { F.IsAlwaysCallable ctx_edition }
    ensures ok { (edition : SyntaxContext → Edition) → IsAnsweredBy (F.post ctx_edition) edition →
        IfOk result (λ r. rules_of r ≡ macro_of edition (option_map (λ t. t.now.inner) args.entry)
        body.now.inner) }
    ensures memory { IsOkUnless result fault.Memory }
{
    let editions = Editions::of(ctx_edition);
    match args {
        Some(args) => {
            let rules = one_rule(alloc, editions, &args.iter(), &body.iter())?;
            let rules = ending(alloc, rules)?;
            Ok(rules)
        }
        None => {
            let rules = rules_of(alloc, editions, Delimiting::SemicolonOrComma, &body.iter())?;
            let rules = ending(alloc, rules)?;
            Ok(rules)
        }
    }
}

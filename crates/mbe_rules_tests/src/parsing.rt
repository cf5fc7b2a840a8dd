//! Texts of definitions: how many rules are parsed from them, and the fault.
use crate::trees::tree;
use mbe_rules::{MetaVarKind, Op, ParseError, Rules, parse_macro_rules, parse_macro2};
use std::alloc::{AllocError, Global};
use std::test::Fail;
use symbols::TtFault;
use tt::{Edition, SyntaxContext, TopSubtree};

fn at_2018(_context: SyntaxContext) -> Edition {
    Edition::Edition2018
}

fn at_2021(_context: SyntaxContext) -> Edition {
    Edition::Edition2021
}

pub(crate) fn at_2024(_context: SyntaxContext) -> Edition {
    Edition::Edition2024
}

fn fault_of(rules: &Rules) -> &str {
    match &rules.err {
        None => "",
        Some(ParseError::UnexpectedToken(text)) => text.as_str(),
        Some(ParseError::Expected(text)) => text.as_str(),
        Some(ParseError::InvalidRepeat) => "invalid repeat",
        Some(ParseError::RepetitionEmptyTokenTree) => "empty round",
    }
}

/// Whether so many rules were parsed, and this is the fault.
pub(crate) fn has(rules: &Rules, count: usize, fault: &str) -> bool {
    rules.list.len() == count && fault_of(rules) == fault
}

// A definition by `macro_rules!`, how many rules it has, and the fault.
const ROWS: [(&str, usize, &str); 25] = [
    ("", 0, ""),
    ("() => {}", 1, ""),
    ("(a) => [b]; {c} => (d);", 2, ""),
    (
        "unsafe attr(a) (b) => {}; derive() ($c:ty) => {}; () => {$c}",
        3,
        "",
    ),
    (
        "($($x:ident),*) => { ${count($x)} $( ${concat(get_, $x)} ${index()} )* $$ }",
        1,
        "",
    ),
    ("(a) => {b} (c) => {d}", 1, "expected `;`"),
    ("(a) => {b}, (c) => {d}", 1, "expected `;`"),
    ("(a) => {b};; (c) => {d}", 1, "expected subtree"),
    ("()", 0, "expected `=`"),
    ("() = {}", 0, "expected `>`"),
    ("attr => {}", 0, "expected `()`"),
    ("($x) => {}", 0, "missing fragment specifier"),
    ("($x:foo) => {}", 1, ""),
    ("($1) => {}", 0, "expected ident"),
    ("($$) => {}", 0, "`$$` is not allowed on the pattern side"),
    (
        "(${index()}) => {}",
        0,
        "`${}` metavariable expressions are not allowed in matchers",
    ),
    ("() => {${}}", 0, "invalid metavariable expression"),
    (
        "() => {$[]}",
        0,
        "expected `$()` repetition or `${}` expression",
    ),
    ("($($x)) => {}", 0, "invalid repeat"),
    ("($(a)==) => {}", 0, "invalid repeat"),
    ("($(a);;;?) => {}", 1, ""),
    ("($()*) => {}", 1, "empty round"),
    ("() => {$()*}", 1, ""),
    ("(a) => {b}; ($x) => {}; c", 1, "missing fragment specifier"),
    ("($()*) => {}; ($x) => {}", 1, "empty round"),
];

fn parsed(alloc: Global, text: &str) -> Result<Rules, Fail> {
    Ok(parse_macro_rules(alloc, &tree(alloc, text)?, at_2024)?)
}

#[test]
fn of_macro_rules(rt: HostRuntime) -> Result<(), Fail> {
    for (text, count, fault) in &ROWS {
        assert!(rt; has(&parsed(rt.alloc(), text)?, *count, fault), "{text}");
    }
    Ok(())
}

// A definition whose pattern and template have lists in one another.
fn deep(alloc: Global) -> Result<String, AllocError> {
    let begun = "$([".repeat(alloc, 50_000)?;
    let ended = "])+".repeat(alloc, 50_000)?;
    format!(in alloc; "({begun}x{ended}) => {{{begun}x{ended}}}")
}

#[test]
fn of_lists_a_hundred_thousand_deep(rt: HostRuntime) -> Result<(), Fail> {
    let rules = parsed(rt.alloc(), &deep(rt.alloc())?)?;
    assert!(rt; has(&rules, 1, "") && rules.try_clone(rt.alloc())? == rules);
    Ok(())
}

// The rules of a `macro` definition. With `args`, these are the matcher of its one rule.
fn by_word(alloc: Global, args: Option<&TopSubtree>, body: &str) -> Result<Rules, Fail> {
    Ok(parse_macro2(alloc, args, &tree(alloc, body)?, at_2024)?)
}

fn with_args(alloc: Global, args: &str, body: &str) -> Result<Rules, Fail> {
    if args.is_empty() {
        return by_word(alloc, None, body);
    }
    by_word(alloc, Some(&tree(alloc, args)?), body)
}

// The arguments and the body of such a definition, how many rules it has, and the fault.
const WORDS: [(&str, &str, usize, &str); 4] = [
    ("", "(a) => {b}, (c) => {d}; (e) => {f}", 3, ""),
    (
        "",
        "() => {} () => {}",
        1,
        "expected `;` or `,` to delimit rules",
    ),
    ("$x:expr", "$x + 1", 1, ""),
    ("$x + 1", "$x + 1", 0, "missing fragment specifier"),
];

// Whether the first rule has one op in its matcher and three in its transcriber.
fn has_items(rules: &Rules) -> bool {
    match rules.list.first() {
        Some(rule) => rule.pattern.len() == 1 && rule.template.len() == 3,
        None => false,
    }
}

#[test]
fn of_macros(rt: HostRuntime) -> Result<(), Fail> {
    for (args, body, count, fault) in &WORDS {
        assert!(rt;
            has(&with_args(rt.alloc(), args, body)?, *count, fault),
            "{body}"
        );
    }
    assert!(rt; has_items(&with_args(rt.alloc(), "$x:expr", "$x + 1")?));
    Ok(())
}

fn parsed_in(alloc: Global, body: &TopSubtree, edition: Edition) -> Result<Rules, TtFault> {
    match edition {
        Edition::Edition2018 => parse_macro_rules(alloc, body, at_2018),
        Edition::Edition2021 => parse_macro_rules(alloc, body, at_2021),
        _ => parse_macro_rules(alloc, body, at_2024),
    }
}

// The fragment specifier of the first metavariable of the first rule.
fn first_kind(rules: &Rules) -> Option<MetaVarKind> {
    match rules.list.first()?.pattern.first()? {
        Op::Var { kind, .. } => *kind,
        _ => None,
    }
}

// A definition, an edition, and that specifier.
const KINDS: [(&str, Edition, MetaVarKind); 4] = [
    (
        "($x:pat) => {}",
        Edition::Edition2018,
        MetaVarKind::PatParam,
    ),
    ("($x:pat) => {}", Edition::Edition2021, MetaVarKind::Pat),
    (
        "($x:expr) => {}",
        Edition::Edition2021,
        MetaVarKind::Expr2021,
    ),
    ("($x:expr) => {}", Edition::Edition2024, MetaVarKind::Expr),
];

fn kind_in(alloc: Global, text: &str, edition: Edition) -> Result<Option<MetaVarKind>, Fail> {
    let rules = parsed_in(alloc, &tree(alloc, text)?, edition)?;
    Ok(first_kind(&rules))
}

#[test]
fn kinds_by_edition(rt: HostRuntime) -> Result<(), Fail> {
    for (text, edition, kind) in &KINDS {
        assert!(rt;
            kind_in(rt.alloc(), text, *edition)? == Some(*kind),
            "{text}"
        );
    }
    Ok(())
}

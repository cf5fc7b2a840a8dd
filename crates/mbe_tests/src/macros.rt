//! Macros: their rules, their styles of call, and their faults.
use crate::texts::{Answer, call_site, defined, given, tree};
use mbe::{
    DeclarativeMacro, DelimiterKind, ExpandErrorKind, MacroCallStyle, MacroCallStyles, ParseError,
};
use small_grammar::SmallGrammar;
use std::alloc::Global;
use std::test::Fail;
use tt::{DelimSpan, Edition, TopSubtree};

// Rules, how many they are, whether they are for calls like a function's or for attributes and
// derives, and the fault.
const ROWS: [(&str, usize, bool, &str); 5] = [
    ("", 0, true, ""),
    ("(a) => {b}", 1, true, ""),
    (
        "derive() (a) => {b}; attr() (a) => {c}; attr() (c) => {}",
        3,
        false,
        "",
    ),
    ("(a) => {b} (c) => {d}", 1, true, "expected `;`"),
    (
        "($($($v:vis),+)*) => {}",
        1,
        true,
        "empty token tree in repetition",
    ),
];

// The macro of these rules.
fn rules_of(alloc: Global, rules: &str) -> Result<DeclarativeMacro, Fail> {
    defined(alloc, rules, Edition::Edition2024)
}

// Whether this is the fault of a macro.
fn has_fault(alloc: Global, found: &DeclarativeMacro, fault: &str) -> Result<bool, Fail> {
    match found.err() {
        None => Ok(fault.is_empty()),
        Some(err) => Ok(format!(in alloc; "{err}")?.as_str() == fault),
    }
}

// Whether a macro, which is equal to its copy, has so many rules, these styles and this fault.
fn is_told(
    alloc: Global,
    found: &DeclarativeMacro,
    count: usize,
    is_call: bool,
    fault: &str,
) -> Result<bool, Fail> {
    let styles = if is_call {
        MacroCallStyles::FN_LIKE
    } else {
        MacroCallStyles::ATTR.union(MacroCallStyles::DERIVE)
    };
    let is_copied = found.try_clone(alloc)? == *found;
    let is_sized = found.num_rules() == count && found.rule_styles() == styles;
    Ok(is_copied && is_sized && has_fault(alloc, found, fault)?)
}

fn is_row(alloc: Global, row: &(&str, usize, bool, &str)) -> Result<bool, Fail> {
    let (rules, count, is_call, fault) = *row;
    is_told(alloc, &rules_of(alloc, rules)?, count, is_call, fault)
}

#[test]
fn of_rules(rt: HostRuntime) -> Result<(), Fail> {
    for row in &ROWS {
        assert!(rt; is_row(rt.alloc(), row)?, "{}", row.0);
    }
    let broken = DeclarativeMacro::from_err(ParseError::InvalidRepeat);
    assert!(rt; is_told(rt.alloc(), &broken, 0, true, "invalid repeat")?);
    Ok(())
}

// Whether the macros of these rules are equal.
fn are_equal(alloc: Global, first: &str, second: &str) -> Result<bool, Fail> {
    let first = rules_of(alloc, first)?;
    Ok(rules_of(alloc, second)? == first)
}

#[test]
fn compared(rt: HostRuntime) -> Result<(), Fail> {
    let rules = "($($a:tt)a*) => {}";
    assert!(rt; are_equal(rt.alloc(), rules, rules)?);
    assert!(rt; !are_equal(rt.alloc(), rules, "($($a:tt)b*) => {}")?);
    assert!(rt; !are_equal(rt.alloc(), rules, "($($a:tt)a+) => {}")?);
    Ok(())
}

// Whether no rule fits, and the result is empty.
fn is_nothing(answer: &Answer) -> bool {
    let (tree, rule) = &answer.value;
    let Some(err) = &answer.err else {
        return false;
    };
    let top = tree.top_subtree();
    rule.is_none()
        && top.len == 0
        && top.delimiter.kind == DelimiterKind::Invisible
        && top.delimiter.delim_span() == DelimSpan::from_single(call_site())
        && err.span() == call_site()
        && *err.kind() == ExpandErrorKind::NoMatchingRule
}

fn derived(alloc: Global, found: &DeclarativeMacro, argument: &TopSubtree) -> Result<Answer, Fail> {
    given(
        alloc,
        &SmallGrammar,
        found,
        argument,
        MacroCallStyle::Derive,
    )
}

// Whether that is the result of a call of the style `Derive`.
fn derives_nothing(alloc: Global, rules: &str) -> Result<bool, Fail> {
    let found = rules_of(alloc, rules)?;
    Ok(is_nothing(&derived(alloc, &found, &tree(alloc, "a")?)?))
}

#[test]
fn by_style(rt: HostRuntime) -> Result<(), Fail> {
    assert!(rt; derives_nothing(rt.alloc(), "(a) => {b}")?);
    assert!(rt; !derives_nothing(rt.alloc(), "derive() (a) => {b}")?);
    Ok(())
}

//! Definitions that are parsed and copied, and errors: for runs in which one request for memory is
//! refused.
use crate::parsing::{at_2024, has};
use crate::trees::tree;
use mbe_rules::{
    ExpandError, ExpandErrorKind, Rules, ValueResult, parse_macro_rules, parse_macro2,
};
use std::alloc::{AllocError, Global};
use std::test::Fail;
use symbols::{Symbol, TtFault};
use tt::TopSubtree;
use tt_data::Span;

// A definition, whether it is by the word `macro`, how many rules it has, and the fault.
const ROWS: [(&str, bool, usize, &str); 4] = [
    (
        "unsafe attr(a r#b) ({$x:expr} 'q 1.5 += $($y:ident $z:vis),* $(a)+) => { $x ${count($y)} $( ${concat(a, $y)} ${index()} ${ignore($z)} $y )* 'q $$ ${len()} };",
        false,
        1,
        "",
    ),
    ("(a) => {b} (c) => {d}", false, 1, "expected `;`"),
    ("($($($v:vis),+)*) => {}", false, 1, "empty round"),
    ("(a) => {b}, (c) => {d}; (e) => {f}", true, 3, ""),
];

// The rules of a body, by `macro_rules!` or by `macro`. A refused call is made once more.
fn parsed(alloc: Global, is_word: bool, body: &TopSubtree) -> Result<Rules, TtFault> {
    if is_word {
        return match parse_macro2(alloc, None, body, at_2024) {
            Err(TtFault::Memory) => parse_macro2(alloc, None, body, at_2024),
            answer => answer,
        };
    }
    match parse_macro_rules(alloc, body, at_2024) {
        Err(TtFault::Memory) => parse_macro_rules(alloc, body, at_2024),
        answer => answer,
    }
}

// The rules of a body that is parsed twice. At least one of the two has no refused call, and they
// have to be equal.
fn same_twice(alloc: Global, is_word: bool, body: &TopSubtree) -> Result<Rules, Fail> {
    let first = parsed(alloc, is_word, body)?;
    if first == parsed(alloc, is_word, body)? {
        Ok(first)
    } else {
        Err(Fail::new("a refused call changes the rules"))
    }
}

// Whether copies of the rules are equal to them. Each refused call is made once more.
fn have_copies(alloc: Global, rules: &Rules) -> Result<bool, AllocError> {
    for rule in &rules.list {
        let copy = match rule.try_clone(alloc) {
            Ok(copy) => copy,
            Err(_) => rule.try_clone(alloc)?,
        };
        if copy != *rule {
            return Ok(false);
        }
    }
    Ok(true)
}

// An equal copy. A refused call is made once more.
fn copied(alloc: Global, rules: &Rules) -> Result<Rules, AllocError> {
    match rules.try_clone(alloc) {
        Ok(copy) => Ok(copy),
        Err(_) => rules.try_clone(alloc),
    }
}

// The copy of the rules of a definition. All copies have to be equal to them.
fn copy_of(alloc: Global, text: &str, is_word: bool) -> Result<Rules, Fail> {
    let rules = same_twice(alloc, is_word, &tree(alloc, text)?)?;
    let copy = copied(alloc, &rules)?;
    if copy == rules && have_copies(alloc, &rules)? {
        return Ok(copy);
    }
    Err(Fail::new("a copy differs"))
}

#[test]
fn refused_rules(rt: HostRuntime) -> Result<(), Fail> {
    for (text, is_word, count, fault) in &ROWS {
        assert!(rt;
            has(&copy_of(rt.alloc(), text, *is_word)?, *count, fault),
            "{text}"
        );
    }
    Ok(())
}

// An error with a text. A refused call is made once more.
fn error(alloc: Global) -> Result<ExpandError, TtFault> {
    let text = match Symbol::new(alloc, "x") {
        Err(TtFault::Memory) => Symbol::new(alloc, "x")?,
        answer => answer?,
    };
    let kind = ExpandErrorKind::BindingError(text.clone()?);
    match ExpandError::new(alloc, Span::default(), kind) {
        Err(TtFault::Memory) => {
            ExpandError::new(alloc, Span::default(), ExpandErrorKind::BindingError(text))
        }
        answer => answer,
    }
}

// Whether a result's reference and its copy are equal to it. Each refused call is made once more.
fn seen(held: &ValueResult<u8, ExpandError>) -> Result<bool, TtFault> {
    let copy = match held.clone() {
        Err(TtFault::Memory) => held.clone()?,
        answer => answer?,
    };
    let seen = match held.as_ref() {
        Err(TtFault::Memory) => held.as_ref()?,
        answer => answer?,
    };
    Ok(*seen.value == 7 && seen.err == copy.err && copy.err == held.err && copy.value == 7)
}

#[test]
fn refused_errors(rt: HostRuntime) -> Result<(), Fail> {
    let held = ValueResult::new(7, error(rt.alloc())?);
    assert!(rt; seen(&held)?);
    Ok(())
}

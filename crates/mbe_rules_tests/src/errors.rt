//! Errors: the texts that they display, and calls on them.
use mbe_rules::{CountError, ExpandError, ExpandErrorKind, ParseError};
use std::alloc::Global;
use std::fmt::{Debug, Display};
use std::hash::{DefaultHasher, Hash, Hasher};
use std::test::Fail;
use symbols::{Symbol, TtFault};
use tt_data::{Span, SyntaxContext, TextRange};

// Whether a value displays this text.
fn shows<D: Display>(alloc: Global, value: D, text: &str) -> Result<bool, TtFault>
where
    D: Drop,
{
    Ok(format!(in alloc; "{value}")?.as_str() == text)
}

// Whether `{:?}` prints this within a value's text.
fn tells<D: Debug>(alloc: Global, value: &D, text: &str) -> Result<bool, TtFault> {
    Ok(format!(in alloc; "{value:?}")?.as_str().contains(text))
}

fn hash_of<H: Hash>(value: &H) -> u64 {
    let mut state = DefaultHasher::new();
    value.hash(&mut state);
    state.finish()
}

// Whether an error of a definition displays this text, and its clone is equal.
fn shows_fault(alloc: Global, error: ParseError, text: &str) -> Result<bool, TtFault> {
    Ok(error.clone()? == error && tells(alloc, &error, "")? && shows(alloc, error, text)?)
}

fn are_parse_errors(alloc: Global) -> Result<bool, TtFault> {
    let text = Symbol::new(alloc, "x")?;
    let empty = "empty token tree in repetition";
    Ok(
        shows_fault(alloc, ParseError::UnexpectedToken(text.clone()?), "x")?
            && shows_fault(alloc, ParseError::Expected(text), "x")?
            && shows_fault(alloc, ParseError::InvalidRepeat, "invalid repeat")?
            && shows_fault(alloc, ParseError::RepetitionEmptyTokenTree, empty)?,
    )
}

fn are_expand_errors(alloc: Global) -> Result<bool, TtFault> {
    let text = Symbol::new(alloc, "x")?;
    let error = ExpandErrorKind::BindingError(text.clone()?);
    let unresolved = ExpandErrorKind::UnresolvedBinding(text);
    Ok(
        shows(alloc, error, "x")?
            && shows(alloc, unresolved, "could not find binding x")?
            && shows(alloc, ExpandErrorKind::LeftoverTokens, "leftover tokens")?
            && shows(alloc, ExpandErrorKind::LimitExceeded, "Expand exceed limit")?,
    )
}

fn are_other_errors(alloc: Global) -> Result<bool, TtFault> {
    let no_rule = "no rule matches input tokens";
    Ok(
        shows(alloc, ExpandErrorKind::NoMatchingRule, no_rule)?
            && shows(
                alloc,
                ExpandErrorKind::UnexpectedToken,
                "unexpected token in input",
            )?
            && shows(alloc, CountError::OutOfBounds, "${count} out of bounds")?
            && shows(alloc, CountError::Misplaced, "${count} misplaced")?,
    )
}

#[test]
fn are_displayed(rt: HostRuntime) -> Result<(), Fail> {
    assert!(rt; are_parse_errors(rt.alloc())?);
    assert!(rt; are_expand_errors(rt.alloc())? && are_other_errors(rt.alloc())?);
    Ok(())
}

const PLACE: Span = Span {
    range: TextRange { start: 1, end: 2 },
    anchor: 3,
    ctx: SyntaxContext::Made,
};

// Whether an error with the same place is another one.
fn is_no_limit(alloc: Global, error: &ExpandError) -> Result<bool, TtFault> {
    let other = ExpandError::new(alloc, PLACE, ExpandErrorKind::LimitExceeded)?;
    Ok(other != *error && hash_of(&other) != hash_of(error))
}

// An error with a span: its parts, a clone of it, and another error.
fn with_place(alloc: Global) -> Result<bool, TtFault> {
    let error = ExpandError::new(alloc, PLACE, ExpandErrorKind::LeftoverTokens)?;
    let clone = error.clone()?;
    Ok(
        error.span() == PLACE
            && *error.kind() == ExpandErrorKind::LeftoverTokens
            && clone == error
            && hash_of(&clone) == hash_of(&error)
            && is_no_limit(alloc, &error)?
            && tells(alloc, &error, "LeftoverTokens")?
            && shows(alloc, clone, "leftover tokens")?,
    )
}

#[test]
fn have_places(rt: HostRuntime) -> Result<(), Fail> {
    assert!(rt; with_place(rt.alloc())?);
    assert!(rt; hash_of(&CountError::Misplaced) != hash_of(&CountError::OutOfBounds));
    assert!(rt; CountError::Misplaced.clone()? == CountError::Misplaced);
    assert!(rt; tells(rt.alloc(), &CountError::Misplaced, "Misplaced")?);
    Ok(())
}

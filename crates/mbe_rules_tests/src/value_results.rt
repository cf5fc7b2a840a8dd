//! Values with an optional error.
use mbe_rules::laws::equal_value_results;
use mbe_rules::{CountError, ExpandError, ExpandErrorKind, ExpandResult, ValueResult};
use std::alloc::Global;
use std::test::Fail;
use symbols::TtFault;
use tt_data::{Span, SyntaxContext, TextRange};

fn next(value: u8) -> u16 {
    u16::from(value) + 1
}

fn told(error: CountError) -> ExpandErrorKind {
    match error {
        CountError::OutOfBounds => ExpandErrorKind::LeftoverTokens,
        CountError::Misplaced => ExpandErrorKind::LimitExceeded,
    }
}

// The calls that change a value or an error.
fn changed() -> bool {
    let held: ValueResult<u8, CountError> = ValueResult::new(7, CountError::Misplaced);
    let pair = held.map(next).map_err(told).zip_val('x');
    pair == ValueResult::new((8, 'x'), ExpandErrorKind::LimitExceeded)
}

// The calls that make one, and those that take it apart.
fn made(alloc: Global) -> Result<bool, TtFault> {
    let held: ValueResult<u8, CountError> = ValueResult::new(7, CountError::Misplaced);
    let copy = held.clone()?;
    let seen = held.as_ref()?;
    let same = *seen.value == 7 && seen.err == copy.err;
    let told = format!(in alloc; "{copy:?}")?;
    Ok(
        same && told.as_str().contains("Misplaced")
            && copy.result() == Err(CountError::Misplaced)
            && ValueResult::<u8, CountError>::ok(7).result() == Ok(7),
    )
}

// The calls that take a default value.
fn by_default() -> bool {
    let none: ValueResult<u8, CountError> = ValueResult::default();
    let only = ValueResult::<u8, CountError>::only_err(CountError::OutOfBounds);
    none == ValueResult::from(Ok(0)) && only == ValueResult::from(Err(CountError::OutOfBounds))
}

// The value and the error of an expansion's answer, of which neither call is ever refused: the check proves it.
fn never_refused(held: &ExpandResult<u8>) -> bool {
    let Ok(seen) = held.as_ref() else {
        unreachable!();
    };
    let Ok(copy) = held.clone() else {
        unreachable!();
    };
    *seen.value == copy.value && seen.err == copy.err
}

// An error with a place, of which many owners come and go.
fn with_owners(alloc: Global) -> Result<bool, TtFault> {
    let span = Span {
        range: TextRange { start: 1, end: 2 },
        anchor: 3,
        ctx: SyntaxContext::Made,
    };
    let error = ExpandError::new(alloc, span, ExpandErrorKind::LeftoverTokens)?;
    let held: ExpandResult<u8> = ValueResult::new(7, error);
    let mut same = true;
    for _ in 0..1000 {
        same = same && never_refused(&held);
    }
    Ok(same)
}

#[test]
fn answer(rt: HostRuntime) -> Result<(), Fail> {
    equal_value_results::<u8, CountError>();
    assert!(rt; changed());
    assert!(rt; made(rt.alloc())?);
    assert!(rt; by_default());
    assert!(rt; with_owners(rt.alloc())?);
    Ok(())
}

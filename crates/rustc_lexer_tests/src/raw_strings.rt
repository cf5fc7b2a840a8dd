//! Faults of raw strings.
use rustc_lexer::{Cursor, FrontmatterAllowed, RawStrError, validate_raw_str};
use std::alloc::Global;
use std::test::Fail;

// The fault of a raw string after a prefix of one letter. `None` if the text is long or does not
// begin with `r`.
fn answer(text: &str) -> Option<Result<(), RawStrError>> {
    if text.len() >= 1000 || Cursor::new(text, FrontmatterAllowed::No).first() != 'r' {
        return None;
    }
    Some(validate_raw_str(text, 1))
}

const ROWS: [(&str, Result<(), RawStrError>); 7] = [
    ("r\"a\"", Ok(())),
    ("r#\"a\"\"##", Ok(())),
    ("r##", Err(RawStrError::InvalidStarter { bad_char: '\0' })),
    ("r#é\"", Err(RawStrError::InvalidStarter { bad_char: 'é' })),
    (
        "r#\"a\"",
        Err(RawStrError::NoTerminator {
            expected: 1,
            found: 0,
            possible_terminator_offset: None,
        }),
    ),
    (
        "r##\"é\"#",
        Err(RawStrError::NoTerminator {
            expected: 2,
            found: 1,
            possible_terminator_offset: Some(7),
        }),
    ),
    (
        "r###\"a\"#b\"##c\"##",
        Err(RawStrError::NoTerminator {
            expected: 3,
            found: 2,
            possible_terminator_offset: Some(10),
        }),
    ),
];

#[test]
fn tells_what_is_wrong_with_a_raw_string(rt: HostRuntime) {
    for (text, want) in &ROWS {
        assert!(rt; answer(text) == Some(*want), "raw string {text:?}");
    }
}

// A raw string with n hashes.
fn with_hashes(alloc: Global, n: usize) -> Result<String, Fail> {
    let hashes = "#".repeat(alloc, n)?;
    Ok(format!(in alloc; "r{hashes}\"\"{hashes}")?)
}

#[test]
fn takes_no_more_than_255_hashes(rt: HostRuntime) -> Result<(), Fail> {
    let too_many = Err(RawStrError::TooManyDelimiters { found: 256 });
    assert!(rt; answer(&with_hashes(rt.alloc(), 255)?) == Some(Ok(())));
    assert!(rt; answer(&with_hashes(rt.alloc(), 256)?) == Some(too_many));
    Ok(())
}

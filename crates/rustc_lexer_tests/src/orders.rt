//! The order of variants and fields, the numbers of bases, and printed forms.
use rustc_lexer::{Base, GuardedStr, LiteralKind, RawStrError, Token, TokenKind};
use std::cmp::Ordering;
use std::test::Fail;

// Whether each value is less than the next one.
fn ascend<T: Ord>(values: &[T]) -> bool {
    for (low, high) in values.iter().zip(values.iter().skip(1)) {
        if low.cmp(high) != Ordering::Less || low >= high {
            return false;
        }
    }
    true
}

const BASES: [Base; 4] = [Base::Binary, Base::Octal, Base::Decimal, Base::Hexadecimal];

const KINDS: [LiteralKind; 26] = [
    LiteralKind::Int {
        base: Base::Binary,
        empty_int: true,
    },
    LiteralKind::Int {
        base: Base::Octal,
        empty_int: false,
    },
    LiteralKind::Int {
        base: Base::Octal,
        empty_int: true,
    },
    LiteralKind::Float {
        base: Base::Binary,
        empty_exponent: true,
    },
    LiteralKind::Float {
        base: Base::Decimal,
        empty_exponent: false,
    },
    LiteralKind::Float {
        base: Base::Decimal,
        empty_exponent: true,
    },
    LiteralKind::Char { terminated: false },
    LiteralKind::Char { terminated: true },
    LiteralKind::Byte { terminated: false },
    LiteralKind::Byte { terminated: true },
    LiteralKind::Str { terminated: false },
    LiteralKind::Str { terminated: true },
    LiteralKind::ByteStr { terminated: false },
    LiteralKind::ByteStr { terminated: true },
    LiteralKind::CStr { terminated: false },
    LiteralKind::CStr { terminated: true },
    LiteralKind::RawStr { n_hashes: None },
    LiteralKind::RawStr { n_hashes: Some(0) },
    LiteralKind::RawStr { n_hashes: Some(1) },
    LiteralKind::RawByteStr { n_hashes: None },
    LiteralKind::RawByteStr { n_hashes: Some(0) },
    LiteralKind::RawCStr { n_hashes: None },
    LiteralKind::RawCStr { n_hashes: Some(0) },
    LiteralKind::GuardedStr { n_hashes: None },
    LiteralKind::GuardedStr { n_hashes: Some(1) },
    LiteralKind::GuardedStr { n_hashes: Some(2) },
];

const ERRORS: [RawStrError; 9] = [
    RawStrError::InvalidStarter { bad_char: 'y' },
    RawStrError::InvalidStarter { bad_char: 'z' },
    RawStrError::NoTerminator {
        expected: 0,
        found: 2,
        possible_terminator_offset: None,
    },
    RawStrError::NoTerminator {
        expected: 1,
        found: 0,
        possible_terminator_offset: Some(5),
    },
    RawStrError::NoTerminator {
        expected: 1,
        found: 1,
        possible_terminator_offset: None,
    },
    RawStrError::NoTerminator {
        expected: 1,
        found: 1,
        possible_terminator_offset: Some(0),
    },
    RawStrError::NoTerminator {
        expected: 1,
        found: 1,
        possible_terminator_offset: Some(1),
    },
    RawStrError::TooManyDelimiters { found: 0 },
    RawStrError::TooManyDelimiters { found: 1 },
];

const STRINGS: [GuardedStr; 4] = [
    GuardedStr {
        n_hashes: 0,
        terminated: true,
        token_len: 9,
    },
    GuardedStr {
        n_hashes: 1,
        terminated: false,
        token_len: 8,
    },
    GuardedStr {
        n_hashes: 1,
        terminated: true,
        token_len: 6,
    },
    GuardedStr {
        n_hashes: 1,
        terminated: true,
        token_len: 7,
    },
];

#[test]
fn values_ascend(rt: HostRuntime) {
    assert!(rt; ascend(&BASES) && ascend(&KINDS) && ascend(&ERRORS) && ascend(&STRINGS));
    assert!(rt; Base::Binary as u32 == 2 && Base::Octal as u32 == 8);
    assert!(rt; Base::Decimal as u32 == 10 && Base::Hexadecimal as u32 == 16);
}

#[test]
fn prints_tokens_and_errors(rt: HostRuntime) -> Result<(), Fail> {
    let token = Token {
        kind: TokenKind::Ident,
        len: 2,
    };
    let error = RawStrError::TooManyDelimiters { found: 256 };
    let printed = format!(in rt.alloc(); "{token:?} {error:?} {:?}", STRINGS[2])?;
    assert!(rt;
        printed.as_str()
            == "Token { kind: Ident, len: 2 } TooManyDelimiters { found: 256 } GuardedStr { n_hashes: 1, terminated: true, token_len: 6 }"
    );
    Ok(())
}

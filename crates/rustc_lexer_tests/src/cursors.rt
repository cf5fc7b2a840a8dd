//! The calls of a cursor.
use rustc_lexer::{Base, Cursor, FrontmatterAllowed, LiteralKind, Token, TokenKind};

const END: Token = Token {
    kind: TokenKind::Eof,
    len: 0,
};

#[test]
fn a_cursor_shows_what_is_left(rt: HostRuntime) {
    let mut cursor = Cursor::new("aé#", FrontmatterAllowed::No);
    assert!(rt; cursor.first() == 'a' && cursor.third() == '#');
    let word = cursor.advance_token();
    assert!(rt; word.len == 3 && cursor.as_str() == "#" && cursor.third() == '\0');
    cursor.advance_token();
    assert!(rt;
        cursor.first() == '\0' && cursor.advance_token() == END && cursor.advance_token() == END
    );
}

// A text, the number of hashes, whether the string ends, and the length of its token, if there is
// a string, and the rest.
type Row = (&'static str, Option<(u32, bool, u32)>, &'static str);

const ROWS: [Row; 8] = [
    ("#\"a\"#;", Some((1, true, 5)), ";"),
    ("##\"a\"#;", Some((2, true, 6)), ";"),
    ("#\"a\"##", Some((1, true, 5)), "#"),
    ("#\"\"x;", Some((1, true, 4)), ";"),
    ("\"é\"", Some((0, true, 4)), ""),
    ("##\"a", Some((2, false, 4)), ""),
    ("##a", None, "a"),
    ("", None, ""),
];

fn is_read(row: &Row) -> bool {
    let (text, want, left) = *row;
    if text.len() >= 100 {
        return false;
    }
    let mut cursor = Cursor::new(text, FrontmatterAllowed::No);
    let string = match cursor.guarded_double_quoted_string() {
        Some(it) => Some((it.n_hashes, it.terminated, it.token_len)),
        None => None,
    };
    string == want && cursor.as_str() == left
}

#[test]
fn reads_guarded_strings(rt: HostRuntime) {
    for row in &ROWS {
        assert!(rt; is_read(row), "guarded string of {:?}", row.0);
    }
}

#[test]
fn hashes_without_a_string_count_in_the_next_token(rt: HostRuntime) {
    let mut cursor = Cursor::new("##1u8", FrontmatterAllowed::No);
    assert!(rt; cursor.guarded_double_quoted_string().is_none());
    let kind = LiteralKind::Int {
        base: Base::Decimal,
        empty_int: false,
    };
    let want = Token {
        kind: TokenKind::Literal {
            kind,
            suffix_start: 3,
        },
        len: 5,
    };
    assert!(rt; cursor.advance_token() == want);
}

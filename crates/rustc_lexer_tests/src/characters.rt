//! Classes of characters.
use rustc_lexer::{
    UNICODE_VERSION, is_ascii_ident, is_horizontal_whitespace, is_id_continue, is_id_start,
    is_ident, is_whitespace,
};

// Characters that are white space, that are white space inside a line, that begin an identifier,
// and that continue one.
const CHARACTERS: &str = " \t\n\u{85}\u{a0}_z7é\u{301}#";

const WHITE: &str = " \t\n\u{85}";

const HORIZONTAL: &str = " \t";

const STARTS: &str = "_zé";

const CONTINUES: &str = "_z7é\u{301}";

// Whether the character is in each class exactly where it stands in the class's list.
fn is_classed(c: char) -> bool {
    is_whitespace(c) == WHITE.contains(c)
        && is_horizontal_whitespace(c) == HORIZONTAL.contains(c)
        && is_id_start(c) == STARTS.contains(c)
        && is_id_continue(c) == CONTINUES.contains(c)
}

#[test]
fn tells_characters_apart(rt: HostRuntime) {
    for c in CHARACTERS.chars() {
        assert!(rt; is_classed(c), "classes of {c:?}");
    }
}

const IDENTIFIERS: [&str; 3] = ["a", "_", "fn1é"];

const OTHERS: [&str; 4] = ["", "1a", "a b", "r#a"];

#[test]
fn tells_identifiers(rt: HostRuntime) {
    for text in IDENTIFIERS {
        assert!(rt;
            is_ident(text) && is_ascii_ident(text) == text.is_ascii(),
            "{text:?}"
        );
    }
    for text in OTHERS {
        assert!(rt; !is_ident(text) && !is_ascii_ident(text), "{text:?}");
    }
    assert!(rt; UNICODE_VERSION == (18, 0, 0));
}

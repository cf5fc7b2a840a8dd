//! The text of a printed token, and the gap before it.
ghost use Rattle.std.specs.Prelude.{◌≡◌, ◌≤◌, ◌+◌, ◌++◌, encode_utf8, length, string_bytes};
ghost use Rattle.std.specs.Prelude.{string_capacity, string_len};
ghost use Rattle.bridge.specs.PrintStates.{gap_behind, token_text};

use crate::printing::spacing::{Edge, Gap, gap_between};

/// The text of a token: a character, or any text.
#[derive(Clone, Copy)]
pub(crate) enum TokenText<'a> {
    Mark(char),
    Word(&'a str),
}

// Adds a character. There is room for it.
#[inline(always)]
fn push_char(text: &mut String, char: char)
    requires { string_len text.old + length (encode_utf8 char) ≤ string_capacity text.old }
    ensures bytes { string_bytes text.new ≡ string_bytes text.old ++ encode_utf8 char }
    ensures len { string_len text.new ≡ string_len text.old + length (encode_utf8 char) }
    ensures capacity { string_capacity text.old ≤ string_capacity text.new }
{
    let Ok(()) = text.push(char) else {
        unreachable!()
    };
}

/// Adds the gap between the token printed last and the next one. There is room for it.
#[inline(always)]
pub(crate) fn push_gap(text: &mut String, depth: usize, last: Option<Edge>, next: Edge)
    requires { string_len text.old + 1 ≤ string_capacity text.old }
    ensures bytes { string_bytes text.new ≡ string_bytes text.old ++ gap_behind depth last next }
    ensures len { string_len text.new ≤ string_len text.old + 1 }
    ensures capacity { string_capacity text.old ≤ string_capacity text.new }
{
    if let Some(last) = last {
        match gap_between(depth, last, next) {
            Gap::Nothing => {}
            Gap::Space => push_char(text, ' '),
            Gap::Line => push_char(text, '\n'),
        }
    }
}

/// Adds the text of a token. There is room for it.
#[inline(always)]
pub(crate) fn push_text(text: &mut String, added: TokenText<'_>)
    requires { string_len text.old + length (token_text added) ≤ string_capacity text.old }
    ensures { string_bytes text.new ≡ string_bytes text.old ++ token_text added.entry }
{
    match added {
        TokenText::Mark(char) => push_char(text, char),
        TokenText::Word(word) => {
            let Ok(()) = text.push_str(word) else {
                unreachable!()
            };
        }
    }
}

/// How many bytes a gap and a text have at most. A character has at most 4.
#[inline(always)]
pub(crate) fn most_bytes(text: TokenText<'_>) -> usize
    ensures { length (token_text text.entry) + 1 ≤ result }
{
    match text {
        TokenText::Mark(_) => 5,
        TokenText::Word(word) => word.len() + 1,
    }
}

//! Finds the first line of a script, `#!..`.
ghost use Rattle.std.specs.Prelude.{◌≡◌, ◌<◌, ◌≤◌, ◌^◌, length, chars};
ghost use Rattle.rustc_lexer.specs.Lexing.{tokens_of};
ghost use Rattle.rustc_lexer.specs.Shebang.{is_blank, is_open_bracket, begins_with_bracket};
ghost use Rattle.rustc_lexer.specs.Shebang.{first_line, shebang};

use crate::lex::tokenize;
use crate::token::{FrontmatterAllowed, TokenKind};

/// The length in bytes of a script's first line, from its `#!` up to but not including the line
/// end (`\n` or `\r\n`). The text has at most `u32::MAX` bytes. (The Rust Reference, "Input
/// format".)
///
/// `None` if the text does not begin with `#!`, or begins with an inner attribute, as `#![a]`:
/// there `[` is the first token after `#!` that is neither white space nor a plain comment.
pub fn strip_shebang(input: &str) -> Option<usize>
    requires { length input.now < 2 ^ 32 }
    ensures { result ≡ shebang input.now }
{
    let rest = input.strip_prefix("#!")?;
    if begins_with_bracket(rest) {
        return None;
    }
    Some(2 + first_line_len(rest))
}

// Whether `[` is the first token that is not trivia.
fn begins_with_bracket(text: &str) -> bool
    requires { length text.now < 2 ^ 32 }
    ensures { result ≡ begins_with_bracket (tokens_of (chars text.now)) }
{
    for token in tokenize(text, FrontmatterAllowed::No) {
        if !is_blank(token.kind) {
            return is_open_bracket(token.kind);
        }
    }
    false
}

// Whether this is trivia: white space, or a comment that is no doc comment.
fn is_blank(kind: TokenKind) -> bool
    ensures { result ≡ is_blank kind }
{
    matches!(
        kind,
        TokenKind::Whitespace
            | TokenKind::LineComment { doc_style: None }
            | TokenKind::BlockComment {
                doc_style: None,
                ..
            }
    )
}

fn is_open_bracket(kind: TokenKind) -> bool
    ensures { result ≡ is_open_bracket kind }
{
    matches!(kind, TokenKind::OpenBracket)
}

// The length of the first line in bytes, without its end.
fn first_line_len(text: &str) -> usize
    ensures line { result ≡ length (first_line text.now) }
    ensures fits { result ≤ length text.now }
{
    match text.lines().next() {
        Some(line) => line.len(),
        None => 0,
    }
}

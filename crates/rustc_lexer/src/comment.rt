//! Lexes comments.
ghost use Rattle.std.specs.Prelude.{◌≡◌, ◌&&◌, true, codes, chars};
ghost use Rattle.rustc_lexer.specs.Character.{begins, is};
ghost use Rattle.rustc_lexer.specs.Comments.{line_style, line_comment, block_style, block_body};
ghost use Rattle.rustc_lexer.specs.Comments.{block_comment};
ghost use Rattle.rustc_lexer.specs.Scanned.{IsRead};

use crate::scan::{behind, first, from_line_feed, second, split_first, third};
use crate::token::{DocStyle, TokenKind};

// A line comment, up to the end of its line.
pub fn line_comment(text: &str) -> (TokenKind, &str)
    requires { begins "//" (chars text.now) ≡ true }
    ensures { IsRead (line_comment (chars text.now)) text.now result.0 result.1.now }
{
    let doc_style = line_style(text);
    (TokenKind::LineComment { doc_style }, from_line_feed(text))
}

// The doc style of a line comment, if it is a doc comment.
fn line_style(text: &str) -> Option<DocStyle>
    requires { begins "//" (chars text.now) ≡ true }
    ensures { result ≡ line_style (chars text.now) }
{
    match third(text) {
        '!' => Some(DocStyle::Inner),
        '/' if second(behind(behind(text))) != '/' => Some(DocStyle::Outer),
        _ => None,
    }
}

// A block comment, with the comments nested in it.
pub fn block_comment(text: &str) -> (TokenKind, &str)
    requires { begins "/*" (chars text.now) ≡ true }
    ensures { IsRead (block_comment (chars text.now)) text.now result.0 result.1.now }
{
    let doc_style = block_style(text);
    let (terminated, rest) = block_body(behind(behind(text)));
    (
        TokenKind::BlockComment {
            doc_style,
            terminated,
        },
        rest,
    )
}

// The doc style of a block comment, if it is a doc comment.
fn block_style(text: &str) -> Option<DocStyle>
    requires { begins "/*" (chars text.now) ≡ true }
    ensures { result ≡ block_style (chars text.now) }
{
    match third(text) {
        '!' => Some(DocStyle::Inner),
        '*' if !matches!(second(behind(behind(text))), '*' | '/') => Some(DocStyle::Outer),
        _ => None,
    }
}

// The rest of a block comment after its `/*`: whether its end was found, and what follows it.
fn block_body(text: &str) -> (bool, &str)
    ensures { IsRead (block_body 0 (chars text.now)) text.now result.0 result.1.now }
{
    let mut depth = 0usize;
    let mut rest = text;
    while let Some((c, after)) = split_first(rest) {
        let d = first(after);
        if opens_comment(c, d) {
            depth += 1;
            rest = behind(after);
        } else if !ends_comment(c, d) {
            rest = after;
        } else if depth == 0 {
            return (true, behind(after));
        } else {
            depth -= 1;
            rest = behind(after);
        }
    }
    (false, rest)
}

#[inline]
fn opens_comment(c: char, d: char) -> bool
    ensures { result ≡ (is "/" c && is "*" d) }
{
    c == '/' && d == '*'
}

#[inline]
fn ends_comment(c: char, d: char) -> bool
    ensures { result ≡ (is "*" c && is "/" d) }
{
    c == '*' && d == '/'
}

//! The bars of closures, which are as brackets to the layout.

use crate::sort::Sort;
use crate::words::Placed;
use rustc_lexer::TokenKind;

// Among how many tokens the second bar is looked for.
const TOKENS: usize = 100;

// Whether this token is a bar by itself, before this one.
fn is_bar(word: &Placed<'_>, after: Option<&Placed<'_>>) -> bool {
    let goes_on = match after {
        Some(next) => next.joined,
        None => false,
    };
    word.kind == TokenKind::Or && !word.joined && !goes_on
}

// How many groups are open behind a token, if that is none fewer.
fn depth_behind(kind: TokenKind, depth: usize) -> Option<usize> {
    match kind {
        TokenKind::OpenParen | TokenKind::OpenBracket | TokenKind::OpenBrace => {
            Some(depth.saturating_add(1))
        }
        TokenKind::CloseParen | TokenKind::CloseBracket | TokenKind::CloseBrace => {
            depth.checked_sub(1)
        }
        _ => Some(depth),
    }
}

// The index of the first bar from this one on that no group is open before.
fn next_bar(words: &[Placed<'_>], from: usize) -> Option<usize> {
    let mut depth = 0;
    for at in from..from.saturating_add(TOKENS) {
        let word = words.get(at)?;
        if word.kind == TokenKind::Semi {
            return None;
        }
        if depth == 0 && is_bar(word, words.get(at.saturating_add(1))) {
            return Some(at);
        }
        depth = depth_behind(word.kind, depth)?;
    }
    None
}

/// The index of the second bar of a closure, where this token is the first one. `before` is what
/// the token before it is.
pub(crate) fn second_bar(words: &[Placed<'_>], at: usize, before: Sort) -> Option<usize> {
    let next = at.saturating_add(1);
    let begins_operand = matches!(
        before,
        Sort::Open | Sort::Comma | Sort::Operator | Sort::Greater | Sort::Keyword | Sort::Prefix
    );
    if begins_operand && is_bar(words.get(at)?, words.get(next)) {
        return next_bar(words, next);
    }
    None
}

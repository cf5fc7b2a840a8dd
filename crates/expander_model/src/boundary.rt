//! Guesses where a piece ends, by the kinds of its tokens alone. It decides speed alone: the
//! reader uses the guess to choose how far to read, and what it reads decides.
ghost use Rattle.std.specs.Prelude.{◌≤◌, IfSome, length};

use bridge::rustc_lexer::{DocStyle, Token, TokenKind};

// What a piece begins with, outside groups.
#[derive(Clone, Copy, PartialEq, Eq)]
enum Head {
    Nothing,
    Pound,
    PoundBang,
    Other,
}

// What was seen of a piece: how many groups are open, and what it begins with.
#[derive(Clone, Copy)]
struct Begun {
    depth: usize,
    head: Head,
}

// What a piece begins with, after one more token.
fn head_with(head: Head, kind: TokenKind) -> Head {
    match (head, kind) {
        (Head::Nothing, TokenKind::Pound) => Head::Pound,
        (Head::Pound, TokenKind::Bang) => Head::PoundBang,
        (Head::PoundBang, TokenKind::OpenBracket) => Head::PoundBang,
        _ => Head::Other,
    }
}

// Whether the token is an inner doc comment.
fn is_inner_doc(kind: TokenKind) -> bool {
    match kind {
        TokenKind::LineComment { doc_style } => doc_style == Some(DocStyle::Inner),
        TokenKind::BlockComment { doc_style, .. } => doc_style == Some(DocStyle::Inner),
        _ => false,
    }
}

// Whether the token is trivia: white space, or a comment that is no doc comment.
fn is_between(kind: TokenKind) -> bool {
    match kind {
        TokenKind::Whitespace => true,
        TokenKind::LineComment { doc_style } => doc_style.is_none(),
        TokenKind::BlockComment { doc_style, .. } => doc_style.is_none(),
        _ => false,
    }
}

// Whether the closing bracket of an outermost group ends the piece.
fn closes_piece(head: Head, kind: TokenKind) -> bool {
    match kind {
        TokenKind::CloseBrace => true,
        TokenKind::CloseBracket => head == Head::PoundBang,
        _ => false,
    }
}

// The piece after a token outside groups, or `None` if the token ends it.
fn with_outer(begun: Begun, kind: TokenKind) -> Option<Begun> {
    let begins = begun.head == Head::Nothing;
    if is_between(kind) {
        return Some(begun);
    }
    if matches!(kind, TokenKind::Semi) || begins && is_inner_doc(kind) {
        return None;
    }
    let head = head_with(begun.head, kind);
    match kind {
        TokenKind::OpenBrace | TokenKind::OpenParen | TokenKind::OpenBracket => Some(Begun {
            depth: 1,
            head,
        }),
        TokenKind::CloseBrace | TokenKind::CloseParen | TokenKind::CloseBracket => None,
        _ => Some(Begun { depth: 0, head }),
    }
}

// The piece after a token in a group, or `None` if the token ends it.
fn with_inner(begun: Begun, kind: TokenKind) -> Option<Begun> {
    let Begun { depth, head } = begun;
    match kind {
        TokenKind::OpenBrace | TokenKind::OpenParen | TokenKind::OpenBracket => Some(Begun {
            depth: depth.saturating_add(1),
            head,
        }),
        TokenKind::CloseBrace | TokenKind::CloseParen | TokenKind::CloseBracket => {
            if depth <= 1 && closes_piece(head, kind) {
                return None;
            }
            let head = if depth <= 1 { Head::Other } else { head };
            Some(Begun {
                depth: depth.saturating_sub(1),
                head,
            })
        }
        _ => Some(begun),
    }
}

/// A guess of how many of the tokens the first piece has, by their kinds alone. `None` if nothing
/// seems to end it.
pub fn piece_end(tokens: &[Token]) -> Option<usize>
    ensures { IfSome result (λ n. n ≤ length tokens.now) }
{
    let mut begun = Begun {
        depth: 0,
        head: Head::Nothing,
    };
    for (i, token) in tokens.iter().enumerate() {
        let more = if begun.depth == 0 {
            with_outer(begun, token.kind)
        } else {
            with_inner(begun, token.kind)
        };
        match more {
            Some(more) => begun = more,
            None => return Some(i + 1),
        }
    }
    None
}

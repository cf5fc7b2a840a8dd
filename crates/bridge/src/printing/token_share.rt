//! How the tokens that one token of a text is read as share its range.
ghost use Rattle.std.specs.Prelude.{◌≡◌};
ghost use Rattle.bridge.specs.TokenShares.{comment_share, share_of};

use rustc_lexer::{DocStyle, TokenKind};

/// How the tokens that one token of a text is read as share its range.
#[derive(Clone, Copy)]
pub(crate) enum Share {
    /// So many tokens have all of it each.
    Times(u8),
    /// A lifetime: the quote has its first byte, and the name the others.
    QuoteAndName,
}

// How the tokens of the attribute that a comment is read as share its range; a plain one is none.
fn comment_share(style: Option<DocStyle>) -> Share
    ensures { result ≡ comment_share style }
{
    match style {
        None => Share::Times(0),
        Some(DocStyle::Outer) => Share::Times(6),
        Some(DocStyle::Inner) => Share::Times(7),
    }
}

/// How the tokens that a token of this kind is read as share its range.
pub(crate) fn share_of(kind: TokenKind) -> Share
    ensures { result ≡ share_of kind }
{
    match kind {
        TokenKind::Whitespace => Share::Times(0),
        TokenKind::LineComment { doc_style } => comment_share(doc_style),
        TokenKind::BlockComment {
            doc_style,
            terminated: true,
        } => comment_share(doc_style),
        TokenKind::Lifetime {
            starts_with_number: false,
        } => Share::QuoteAndName,
        _ => Share::Times(1),
    }
}

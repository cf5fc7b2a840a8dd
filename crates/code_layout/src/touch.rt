//! Which tokens may stand side by side.

use crate::words::{Placed, joins};
use rustc_lexer::{LiteralKind, TokenKind};

fn is_number(kind: TokenKind) -> bool {
    match kind {
        TokenKind::Literal { kind, .. } => {
            matches!(kind, LiteralKind::Int { .. } | LiteralKind::Float { .. })
        }
        _ => false,
    }
}

// Whether a number stays one before a `.` and this token.
fn stays_number(number: &str, behind: Option<TokenKind>) -> bool {
    !number.ends_with('.')
        && matches!(
            behind,
            Some(TokenKind::Ident | TokenKind::RawIdent | TokenKind::Dot)
        )
}

/// Whether two tokens stay these tokens with nothing between them. `behind` is the kind of the
/// token behind the second.
///
/// It is a guess: where it is wrong, the text is not laid out.
pub(crate) fn may_touch(first: &Placed<'_>, second: TokenKind, behind: Option<TokenKind>) -> bool {
    if first.kind == TokenKind::Pound {
        return matches!(second, TokenKind::OpenBracket | TokenKind::Bang);
    }
    if is_number(first.kind) && second == TokenKind::Dot {
        return stays_number(first.text, behind);
    }
    !joins(first.kind, second)
}

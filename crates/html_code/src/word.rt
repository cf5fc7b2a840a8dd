//! The text of a token.
ghost use Rattle.std.specs.Prelude.{◌≡◌, ◌<◌, ◌^◌, drop, length, take};
ghost use Rattle.rustc_lexer.specs.TokensAt.{IsTokenAt};

use rustc_lexer::Token;

/// The text of the token at this offset.
pub(crate) fn word_at(text: &str, start: u32, token: Token) -> &str
    requires short { length text.now < 2 ^ 32 }
    requires here { IsTokenAt text.now start token }
    ensures { result.now ≡ take token.len (drop start text.now) }
{
    let end = start + token.len;
    &text[start as usize..end as usize]
}

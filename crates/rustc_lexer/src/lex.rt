//! Lexes a whole text as an iterator of tokens.
ghost use Rattle.std.specs.Prelude.{◌≡◌, ◌<◌, ◌^◌, length, chars};
ghost use Rattle.rustc_lexer.specs.Lexing.{tokens_of};
ghost use Rattle.rustc_lexer.specs.Remaining.{tokens_left};

use crate::token::FrontmatterAllowed;
use crate::tokens::Tokens;

/// The tokens of a text of at most `u32::MAX` bytes, in order. (The Rust Reference, "Lexical
/// structure".)
///
/// Each length is in bytes and at least 1, each token ends at a character boundary, and the
/// lengths sum to that of the text ([`crate::laws`] states it). `Eof` is never among them.
pub fn tokenize(input: &str, frontmatter_allowed: FrontmatterAllowed) -> Tokens<'_>
    requires { length input.now < 2 ^ 32 }
    ensures { tokens_left result ≡ tokens_of (chars input.now) }
{
    match frontmatter_allowed {
        FrontmatterAllowed::No => Tokens {
            rest: input,
            behind_run: input.len(),
        },
    }
}

//! A cursor over the tokens of a text, which consumes them one by one.
ghost use Rattle.std.specs.Prelude.{◌≡◌, ◌<◌, ◌+◌, ◌^◌, length, chars};
ghost use Rattle.rustc_lexer.specs.Character.{char_at};
ghost use Rattle.rustc_lexer.specs.Cursors.{Unread, next_token, past_token, next_guarded};
ghost use Rattle.rustc_lexer.specs.Cursors.{past_guarded, later_suffix, suffix_of};
ghost use Rattle.rustc_lexer.specs.FirstCharacter.{ArePlain};

use crate::first_token::first_lexeme;
use crate::literal::{count_hashes, guarded_string};
use crate::scan::{first, third};
use crate::token::{FrontmatterAllowed, GuardedStr, Token, TokenKind};
use std::marker::Model;

/// A cursor over a text, which reads it lexeme by lexeme, from left to right.
///
/// Hashes that [`Cursor::guarded_double_quoted_string`] consumed without a string after them count
/// in the next token.
#[derive(Drop)]
pub struct Cursor<'a> {
    rest: &'a str,
    // How many bytes were consumed that count in the next token.
    pending: u32,
    // How many bytes remain behind the run of hashes that was looked at last.
    behind_run: usize,
    ghost small: { length rest.now + pending < 2 ^ 32 },
    ghost plain: { ArePlain rest.now behind_run },
}

impl<'a> Model for Cursor<'a> {
    ghost use Rattle.rustc_lexer.specs.Cursors.{Unread};

    ghost Value = { Unread };

    ghost view = { λ c. record { rest = c.rest.now; pending = c.pending } };
}

impl<'a> Cursor<'a> {
    /// A cursor at the start of a text of at most `u32::MAX` bytes.
    pub fn new(input: &'a str, frontmatter_allowed: FrontmatterAllowed) -> Cursor<'a>
        requires { length input.now < 2 ^ 32 }
        ensures { result ≡ record { rest = input.now; pending = 0 } }
    {
        match frontmatter_allowed {
            FrontmatterAllowed::No => Cursor {
                rest: input,
                pending: 0,
                behind_run: input.len(),
            },
        }
    }

    /// The remaining text.
    pub fn as_str(&self) -> &'a str
        ensures { result.now ≡ self.now.rest }
    {
        self.rest
    }

    /// The first remaining character, or U+0000 at the end.
    pub fn first(&self) -> char
        ensures { result ≡ char_at (chars self.now.rest) 0 }
    {
        first(self.rest)
    }

    /// The third remaining character, or U+0000 where there are fewer.
    pub fn third(&self) -> char
        ensures { result ≡ char_at (chars self.now.rest) 2 }
    {
        third(self.rest)
    }

    /// The next token, which is consumed. Its length is in bytes and at least 1; at the end of the
    /// text it is `Eof`, of length 0.
    pub fn advance_token(&mut self) -> Token
        ensures token { result ≡ next_token self.old }
        ensures rest { self.new ≡ past_token self.old }
    {
        let text = self.rest;
        if text.is_empty() {
            let kind = TokenKind::Eof;
            return Token { kind, len: 0 };
        }
        let (kind, rest) = first_lexeme(text, &mut self.behind_run);
        let pending = self.pending;
        let len = pending + (text.len() - rest.len()) as u32;
        self.rest = rest;
        self.pending = 0;
        Token {
            kind: later_suffix(pending, kind),
            len,
        }
    }

    /// Consumes a guarded string, as `#"a"#`: hashes, a string, at most as many hashes, and a
    /// suffix. (The Rust Reference, "Reserved guards".)
    ///
    /// `None` if no `"` follows the hashes: these are consumed and count in the next token.
    pub fn guarded_double_quoted_string(&mut self) -> Option<GuardedStr>
        ensures guarded { result ≡ next_guarded self.old }
        ensures rest { self.new ≡ past_guarded self.old }
    {
        let text = self.rest;
        let (n_hashes, opening) = count_hashes(text);
        let (found, rest) = guarded_string(opening, n_hashes);
        let token_len = self.pending + (text.len() - rest.len()) as u32;
        self.rest = rest;
        self.behind_run = rest.len();
        match found {
            Some(terminated) => {
                self.pending = 0;
                Some(GuardedStr {
                    n_hashes: n_hashes as u32,
                    terminated,
                    token_len,
                })
            }
            None => {
                self.pending = token_len;
                None
            }
        }
    }
}

// The kind of a token that begins `pending` bytes before its lexeme: the suffix of a literal
// starts that much later.
fn later_suffix(pending: u32, kind: TokenKind) -> TokenKind
    requires { pending + suffix_of kind < 2 ^ 32 }
    ensures { result ≡ later_suffix pending kind }
{
    match kind {
        TokenKind::Literal { kind, suffix_start } => TokenKind::Literal {
            kind,
            suffix_start: pending + suffix_start,
        },
        kind => kind,
    }
}

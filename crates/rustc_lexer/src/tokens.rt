//! The iterator over the tokens of a text.
ghost use Rattle.std.specs.Prelude.{◌<◌, ◌^◌, length};
ghost use Rattle.rustc_lexer.specs.FirstCharacter.{ArePlain};

use crate::first_token::first_lexeme;
use crate::token::Token;

/// The tokens of a text, in order. [`crate::tokenize`] makes it.
#[derive(Drop)]
pub struct Tokens<'a> {
    pub(crate) rest: &'a str,
    // How many bytes remain behind the run of hashes that was looked at last.
    pub(crate) behind_run: usize,
    ghost small: { length rest.now < 2 ^ 32 },
    ghost plain: { ArePlain rest.now behind_run },
}

impl<'a> Iterator for Tokens<'a> {
    ghost use Rattle.std.specs.Iterator.{YieldsFirst, item_count};
    ghost use Rattle.rustc_lexer.specs.Remaining.{tokens_left};

    type Item = Token;

    ghost next_gives = { YieldsFirst tokens_left };

    ghost remaining = { item_count tokens_left };

    fn next(&mut self) -> Option<Token> {
        let text = self.rest;
        if text.is_empty() {
            return None;
        }
        let (kind, rest) = first_lexeme(text, &mut self.behind_run);
        let len = (text.len() - rest.len()) as u32;
        self.rest = rest;
        Some(Token { kind, len })
    }
}

//! Where the tokens of a text are in it, one by one.
ghost use Rattle.std.specs.Prelude.{◌≡◌, ◌<◌, ◌^◌, length};
ghost use Rattle.bridge.specs.PrintedRanges.{read_ranges};

use crate::printing::token_share::{Share, share_of};
use rustc_lexer::{FrontmatterAllowed, Tokens, laws, tokenize};
use std::marker::Model;
use tt_data::TextRange;

/// The ranges of the tokens of a text, in order. [`token_ranges`] makes it.
///
/// It lexes the text as far as it is asked, and takes no memory.
#[derive(Drop)]
pub struct TokenRanges<'a> {
    // The tokens that are left, the first of which begins at `start`.
    tokens: Tokens<'a>,
    start: u32,
    // The next tokens share this range.
    share: Share,
    range: TextRange,
}

impl<'a> Model for TokenRanges<'a> {
    ghost use Rattle.std.specs.Prelude.{List};
    ghost use Rattle.bridge.specs.TokenShares.{AreInText, ranges_left};
    ghost use Rattle.rustc_lexer.specs.Remaining.{tokens_left};
    ghost use Rattle.tt_data.specs.declared.span.TextRange.{TextRange};

    ghost Value = { List TextRange };

    ghost view = { λ it. ranges_left it.share it.range it.start (tokens_left it.tokens) };

    ghost invariant = { λ it. AreInText it.share it.range it.start (tokens_left it.tokens) };
}

impl<'a> Iterator for TokenRanges<'a> {
    ghost use Rattle.std.specs.Iterator.{item_count, YieldsFirst};

    type Item = TextRange;

    ghost next_gives = { YieldsFirst (λ left. left) };

    ghost remaining = { item_count (λ left. left) };

    /// The next range, or `None` at the end.
    fn next(&mut self) -> Option<TextRange> {
        laws::token_lengths();
        loop {
            match self.share {
                Share::Times(0) => {
                    let token = self.tokens.next()?;
                    let (start, end) = (self.start, self.start + token.len);
                    self.share = share_of(token.kind);
                    self.range = TextRange { start, end };
                    self.start = end;
                }
                Share::Times(times) => {
                    self.share = Share::Times(times - 1);
                    return Some(self.range);
                }
                Share::QuoteAndName => {
                    let TextRange { start, end } = self.range;
                    let middle = start + 1;
                    self.share = Share::Times(1);
                    self.range = TextRange { start: middle, end };
                    return Some(TextRange { start, end: middle });
                }
            }
        }
    }
}

/// Where the tokens of a text of at most `u32::MAX` bytes are in it, in order, as [`crate::read`]
/// reads it. A token that cannot be read has its range, too.
///
/// A lifetime is two tokens, its quote and its name. The tokens of the attribute that a doc
/// comment is read as all have the comment's range. The tokens of a printed text are where they
/// were printed ([`crate::laws`]).
pub fn token_ranges(text: &str) -> TokenRanges<'_>
    requires { length text.now < 2 ^ 32 }
    ensures { result ≡ read_ranges text.now }
{
    laws::token_lengths();
    TokenRanges {
        tokens: tokenize(text, FrontmatterAllowed::No),
        start: 0,
        share: Share::Times(0),
        range: TextRange { start: 0, end: 0 },
    }
}

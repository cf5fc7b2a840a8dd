//! A text that follows another one, and its pieces.
ghost use Rattle.std.specs.Prelude.{◌≡◌, ◌<◌, ◌^◌, Err, IfOk, OnErr, OnOk, length, option_map};
ghost use Rattle.bridge.specs.ReadText.{HasTooMany};
ghost use Rattle.bridge.specs.TokenSteps.{text_steps};
ghost use Rattle.pieced_text.specs.TextPieces.{IsInPieces};

use crate::difference::{Change, change_of};
use expander_reparse::parse::{Parsed, read_pieces};
use expander_reparse::piece::Piece;
use expander_reparse::segment::Segments;
use rustc_lexer::LexedText;
use std::alloc::{AllocError, Global};
use std::marker::Model;
use tt_data::TtFault;

/// A text that follows another one. It keeps what is the same: its tokens, and its pieces as they
/// were read last. Contracts see it as the list of its bytes.
#[derive(Drop)]
pub struct PiecedText {
    alloc: Global,
    text: LexedText,
    cached: Segments,
}

impl Model for PiecedText {
    ghost use Rattle.std.specs.Prelude.{List, ℕ, ◌<◌, ◌^◌, length};
    ghost use Rattle.expander_reparse.specs.Segments.{AreSegments};

    ghost Value = { List ℕ };

    ghost view = { λ t. t.text };

    ghost invariant = { λ t. (length t.text < 2 ^ 32) × AreSegments t.cached };
}

impl PiecedText {
    /// A copy of a text of at most `u32::MAX` bytes. Refused if there is no memory for it.
    pub fn new(alloc: Global, text: &str) -> Result<PiecedText, AllocError>
        requires { length text.now < 2 ^ 32 }
        ensures { IfOk result (λ t. t ≡ text.now) }
    {
        let text = LexedText::new(alloc, text)?;
        Ok(PiecedText {
            alloc,
            text,
            cached: Segments::new(alloc),
        })
    }

    /// It becomes this text, of at most `u32::MAX` bytes. Only what lies between the first and the
    /// last byte that differ is lexed anew. Refused if there is no memory for it; then nothing
    /// changes.
    pub fn follow(&mut self, text: &str) -> Result<(), AllocError>
        requires { length text.now < 2 ^ 32 }
        ensures ok { OnOk result (self.new ≡ text.now) }
        ensures err { OnErr result (self.new ≡ self.old) }
    {
        let Change {
            start,
            old_end,
            new_end,
        } = change_of(self.text.text(), text);
        self.text.edit(start, old_end, &text[start..new_end])?;
        Ok(())
    }

    /// The pieces of the text, read over those that were read last. `None` if it cannot be read as
    /// trees.
    ///
    /// # Errors
    ///
    /// `Memory`. `Tokens`, only if what is read of the text has more than `u32::MAX` tokens, which
    /// doc comments alone can bring about.
    pub fn pieces(&mut self) -> Result<Option<Vec<Piece>>, TtFault>
        ensures pieces { IfOk result (λ own.
            IsInPieces self.old (option_map (λ o. o.items) own)) }
        ensures many { result ≡ Err TtFault.Tokens → HasTooMany (text_steps self.old) }
        ensures same { self.new ≡ self.old }
    {
        bridge::laws::reading_is_a_relation();
        bridge::laws::tokens_follow_one_another();
        bridge::laws::tokens_are_written();
        let (text, tokens) = (self.text.text(), self.text.tokens());
        match read_pieces(self.alloc, text, tokens, &self.cached)? {
            Parsed::Fault(_fault) => Ok(None),
            Parsed::Pieces(pieces, cached) => {
                self.cached = cached;
                Ok(Some(pieces))
            }
        }
    }
}

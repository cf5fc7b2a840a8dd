//! Incremental lexing: a text that keeps its tokens while it is edited.
//!
//! An edit keeps the tokens that end at least two characters before it, and not inside a run of
//! hashes that ends at it or one character before. Lexing starts after them, and stops at the first
//! new token boundary that is an old one too.
ghost use Rattle.std.specs.Prelude.{◌≡◌, ◌+◌, ◌-◌, ◌<◌, ◌≤◌, ◌^◌, ◌↔◌, IsTrue, IfOk, OnOk, OnErr};
ghost use Rattle.std.specs.Prelude.{length, chars, string_bytes, IsCharBoundary};
ghost use Rattle.rustc_lexer.specs.Edit.{edited, kept};
ghost use Rattle.rustc_lexer.specs.Lexing.{tokens_of};

mod checkpoints;
mod gap_buffer;
mod lookahead;
mod splice;

use crate::lex::tokenize;
use crate::relex::checkpoints::{Checkpoint, move_checkpoints, refine};
use crate::relex::gap_buffer::GapBuffer;
use crate::relex::splice::edit_and_relex;
use crate::token::{FrontmatterAllowed, Token};
use std::alloc::{AllocError, Global};
use std::marker::Model;

/// How many tokens an edit kept, and how many it lexed again.
#[derive(Clone, Copy, PartialEq, Eq, Debug)]
pub struct Kept {
    /// Kept tokens before the edit.
    pub front: usize,
    /// Tokens lexed again.
    pub lexed: usize,
    /// Kept tokens after the edit.
    pub back: usize,
}

/// A text that keeps its tokens while it is edited. Contracts see it as the list of its bytes.
#[derive(Drop)]
pub struct LexedText {
    text: String,
    tokens: GapBuffer,
    checkpoints: Vec<Checkpoint>,
}

impl Model for LexedText {
    ghost use Rattle.std.specs.Prelude.{List, ℕ, ◌≡◌, ◌<◌, ◌^◌, length, chars, string_bytes};
    ghost use Rattle.std.specs.List.{All};
    ghost use Rattle.rustc_lexer.specs.Lexing.{tokens_of};
    ghost use Rattle.rustc_lexer.specs.Relexing.{IsCheckpoint};

    ghost Value = { List ℕ };

    ghost view = { λ t. string_bytes t.text };

    ghost invariant = { λ t. (length (string_bytes t.text) < 2 ^ 32) × (t.tokens ≡ tokens_of (chars (string_bytes t.text)))
        × All (IsCheckpoint t.tokens) t.checkpoints.items };
}

impl LexedText {
    /// A copy of a text of at most `u32::MAX` bytes, with its tokens. Refused if there is no
    /// memory for them.
    pub fn new(alloc: Global, text: &str) -> Result<LexedText, AllocError>
        requires { length text.now < 2 ^ 32 }
        ensures { IfOk result (λ t. t ≡ text.now) }
    {
        let tokens = tokenize(text, FrontmatterAllowed::No).collect(alloc)?;
        let tokens = GapBuffer::new(tokens);
        let text = String::from_str(alloc, text)?;
        let checkpoints = Vec::new(alloc);
        Ok(LexedText {
            text,
            tokens,
            checkpoints,
        })
    }

    /// The text.
    pub fn text(&self) -> &str
        ensures { result.now ≡ self.now }
    {
        self.text.as_str()
    }

    /// The tokens of the present text, as [`crate::tokenize`] gives them.
    pub fn tokens(&self) -> &[Token]
        ensures { result.now ≡ tokens_of (chars self.now) }
    {
        self.tokens.as_slice()
    }

    /// Whether the offset `at`, in bytes, is a character boundary of the text, its end included.
    pub fn is_boundary(&self, at: usize) -> bool
        ensures { IsTrue result ↔ IsCharBoundary self.now at }
    {
        self.text().is_char_boundary(at)
    }

    /// Whether the bytes from `start` to `end` are in the text, and it has at most `u32::MAX`
    /// bytes after `replacement_len` bytes replace them.
    pub fn fits(&self, start: usize, end: usize, replacement_len: usize) -> bool
        ensures { IsTrue result ↔ ((start ≤ end) × (end ≤ length self.now)
            × (length self.now - (end - start) + replacement_len < 2 ^ 32)) }
    {
        let len = self.text.len();
        start <= end && end <= len && replacement_len <= 0xffff_ffff - (len - (end - start))
    }

    /// Replaces the bytes from `start` to `end`, and relexes. Both offsets are character
    /// boundaries, in order, and the edit fits.
    ///
    /// Tokens that end at least two characters before `start` are kept, unless they end inside a
    /// run of hashes that ends at `start` or one character before it. Lexing starts after them. It
    /// stops at the first token boundary at or after `end` that is an old boundary, shifted by the
    /// edit; the old tokens after it are kept.
    ///
    /// Refused if there is no memory for the text or its tokens; then nothing changes.
    pub fn edit(&mut self, start: usize, end: usize, replacement: &str) -> Result<Kept, AllocError>
        requires start { IsCharBoundary self.old start }
        requires stop { IsCharBoundary self.old «end» }
        requires order { start ≤ «end» }
        requires fits { length self.old - («end» - start) + length replacement.now < 2 ^ 32 }
        ensures text { OnOk result (self.new ≡ edited self.old start «end» replacement.now) }
        ensures kept { IfOk result (λ k. k ≡ kept self.old start «end» replacement.now) }
        ensures err { OnErr result (self.new ≡ self.old) }
    {
        let tokens = &self.tokens;
        let old_count = tokens.as_slice().len();
        let near = refine(&self.text, &mut self.checkpoints, tokens.as_slice(), start)?;
        let relexed = edit_and_relex(
            &mut self.text,
            &mut self.tokens,
            near,
            start,
            end,
            replacement,
        )?;
        move_checkpoints(&mut self.checkpoints, &relexed);
        Ok(Kept {
            front: relexed.front.tokens,
            lexed: relexed.new.tokens - relexed.front.tokens,
            back: old_count - relexed.old.tokens,
        })
    }
}

//! The pieces that were read last of a text, so that a short one that comes again shares its
//! block. It decides speed and memory alone.
ghost use Rattle.std.specs.Prelude.{◌≡◌, [], IfSome, OnOk};
ghost use Rattle.std.specs.Rc.{rc_value};
ghost use Rattle.expander_reparse.specs.RecentPieces.{AreRight};
ghost use Rattle.expander_reparse.specs.Reparsing.{IsCachedHere};
ghost use Rattle.expander_reparse.specs.Segments.{IsCachedPiece};

use crate::segment::{CachedPiece, occurs_first};
use bridge::parts::NameCache;
use rustc_lexer::Token;
use std::alloc::{AllocError, Global};
use std::rc::Rc;

// How many pieces are kept at most: a power of two.
const MOST: usize = 4096;

// How many tokens a piece that is kept has at most. A long one seldom comes again.
const SHORT: usize = 8;

// How many short pieces are read before the first is kept: a text with few needs none.
const FEW: usize = 512;

// How many of its first bytes a piece is found by.
const BYTES: usize = 4;

/// The short pieces and the names that were read last of a text.
#[derive(Drop)]
pub(crate) struct RecentPieces {
    pub names: NameCache,
    // How many short pieces were read.
    count: usize,
    // In each slot, the last piece of that slot, or the very first of all. Empty before it.
    pieces: Vec<Rc<CachedPiece>>,
}

// The slot of the piece that a text begins with.
fn slot_of(text: &str) -> usize {
    let mut slot: usize = 0;
    for byte in text.as_bytes().iter().take(BYTES) {
        slot = slot.wrapping_mul(53).wrapping_add(*byte as usize);
    }
    slot % MOST
}

impl RecentPieces {
    /// No piece yet.
    pub fn new(alloc: Global) -> Self
        ensures { result.pieces.items ≡ [] }
    {
        RecentPieces {
            names: NameCache::new(alloc),
            count: 0,
            pieces: Vec::new(alloc),
        }
    }

    /// A piece that was read, if it occurs first in a text with these tokens.
    #[tactic(auto, using(crate::proofs::RecentPieceLemmas::right_at))]
    pub fn find(&self, text: &str, tokens: &[Token]) -> Option<&Rc<CachedPiece>>
        requires { AreRight self.now.pieces.items }
        ensures { IfSome result (λ q. IsCachedHere text.now tokens.now (rc_value q.now)) }
    {
        let slot = slot_of(text);
        if slot >= self.pieces.len() {
            return None;
        }
        let source = &self.pieces[slot];
        if occurs_first(&source.as_ref().cutout, text, tokens) {
            Some(source)
        } else {
            None
        }
    }

    /// Keeps the piece that a text begins with, if it is short.
    #[tactic(auto, using(crate::proofs::RecentPieceLemmas::right_set))]
    pub fn keep(&mut self, text: &str, source: &Rc<CachedPiece>) -> Result<(), AllocError>
        requires kept { AreRight self.old.pieces.items }
        requires right { IsCachedPiece (rc_value source.now) }
        ensures { OnOk result (AreRight self.new.pieces.items) }
    {
        if source.as_ref().cutout.count > SHORT {
            return Ok(());
        }
        self.count = self.count.saturating_add(1);
        if self.count < FEW {
            return Ok(());
        }
        let slot = slot_of(text);
        let source = source.clone()?;
        if self.pieces.is_empty() {
            self.pieces.resize(MOST, source)?;
        } else if slot < self.pieces.len() {
            self.pieces[slot] = source;
        }
        Ok(())
    }
}

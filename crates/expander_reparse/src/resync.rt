//! Chooses which cached pieces are tried after an edit. It decides speed alone, and nothing of
//! what is read.
ghost use Rattle.std.specs.Prelude.{◌≡◌, IfOk, IfSome, IsOkUnless};
ghost use Rattle.std.specs.Rc.{rc_value};
ghost use Rattle.tt_data.specs.fault.TtFault.TheVariants as fault;
ghost use Rattle.expander_reparse.specs.Reparsing.{IsCachedHere};
ghost use Rattle.expander_reparse.specs.Segments.{AreSegments, IsHeldAt};

use crate::segment::{CachedPiece, Segments, find_cached};
use rustc_lexer::Token;
use std::rc::Rc;
use tt_data::TtFault;

// How many cached pieces are tried at an offset, and at how many offsets a segment is tried.
const TRIED: usize = 16;

/// Where the next cached piece is looked for.
#[derive(Drop)]
pub(crate) struct Resync {
    /// The index after the piece that was found last.
    pub next: usize,
    // That index before the last leap.
    left: usize,
    // How many pieces may be tried far ahead: at first as many as are cached, and some more for
    // each offset where one is looked for. So all trials together take linear time.
    saved: usize,
    // Whether none was found at the last offset.
    missed: bool,
    // How often a segment was tried since a piece was found.
    trials: usize,
}

impl Resync {
    /// Starts at the first cached piece.
    pub fn new(held: &Segments) -> Self {
        Resync {
            next: 0,
            left: 0,
            saved: held.len(),
            missed: false,
            trials: 0,
        }
    }

    // Piece `i` was found, near the one that was found last.
    fn step(&mut self, i: usize) {
        self.next = i.saturating_add(1);
        self.missed = false;
        self.trials = 0;
    }

    /// `count` pieces were found in a row, starting with the one that was expected next.
    pub(crate) fn pass(&mut self, count: usize) {
        self.next = self.next.saturating_add(count);
        self.missed = false;
        self.trials = 0;
    }

    /// Whether a segment is tried once more where none of its pieces was found. The number of
    /// trials is limited, so that all take linear time.
    pub(crate) fn tries(&mut self) -> bool {
        if self.trials >= TRIED {
            return false;
        }
        self.trials += 1;
        true
    }

    // Piece `i` was found elsewhere.
    fn leap(&mut self, i: usize) {
        self.left = self.next;
        self.step(i);
    }
}

// A cached piece far ahead that occurs first in a text with these tokens, and its index. All
// pieces far ahead are tried, or none.
fn seek_far(
    held: &Segments,
    seeker: &mut Resync,
    text: &str,
    tokens: &[Token],
) -> Result<Option<(usize, Rc<CachedPiece>)>, TtFault>
    requires { AreSegments held.now }
    ensures found { IfOk result (λ found.
        IfSome found (λ p. IsCachedHere text.now tokens.now (rc_value p.1))) }
    ensures number { IfOk result (λ found.
        IfSome found (λ p. IsHeldAt held.now p.0 (rc_value p.1))) }
    ensures memory { IsOkUnless result fault.Memory }
{
    let from = seeker.next.saturating_add(TRIED);
    let ahead = held.len().saturating_sub(from);
    if seeker.saved < ahead {
        return Ok(None);
    }
    if let Some((i, source)) = find_cached(held, from, text, tokens, ahead)? {
        seeker.saved = seeker.saved.saturating_sub(i.saturating_sub(from));
        seeker.leap(i);
        return Ok(Some((i, source)));
    }
    seeker.saved = seeker.saved.saturating_sub(ahead);
    Ok(None)
}

/// A cached piece that occurs first in a text with these tokens, and its index.
///
/// The pieces after the one found last are tried, then those from where the last leap started. If
/// none was found at the last offset either, all further ahead are tried too.
pub(crate) fn seek_cached(
    held: &Segments,
    seeker: &mut Resync,
    text: &str,
    tokens: &[Token],
) -> Result<Option<(usize, Rc<CachedPiece>)>, TtFault>
    requires { AreSegments held.now }
    ensures found { IfOk result (λ found.
        IfSome found (λ p. IsCachedHere text.now tokens.now (rc_value p.1))) }
    ensures number { IfOk result (λ found.
        IfSome found (λ p. IsHeldAt held.now p.0 (rc_value p.1))) }
    ensures memory { IsOkUnless result fault.Memory }
{
    seeker.saved = seeker.saved.saturating_add(TRIED);
    if let Some((i, source)) = find_cached(held, seeker.next, text, tokens, TRIED)? {
        seeker.step(i);
        return Ok(Some((i, source)));
    }
    if let Some((i, source)) = find_cached(held, seeker.left, text, tokens, TRIED)? {
        seeker.leap(i);
        return Ok(Some((i, source)));
    }
    if seeker.missed {
        return seek_far(held, seeker, text, tokens);
    }
    seeker.missed = true;
    Ok(None)
}

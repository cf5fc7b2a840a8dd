//! Checkpoints: token boundaries with known offsets. With them an offset in a long text is found
//! without a walk over all tokens before it.
//!
//! Which checkpoints there are decides speed alone. A long walk leaves a checkpoint half-way, and
//! an edit moves the checkpoints after it.
ghost use Rattle.std.specs.Prelude.{◌≡◌, ◌+◌, ◌<◌, ◌≤◌, ◌^◌, ℕ, true, length, map, take, drop};
ghost use Rattle.std.specs.Prelude.{chars, IfOk, IsCharBoundary};
ghost use Rattle.std.specs.List.{All, list_any};
ghost use Rattle.rustc_lexer.specs.Edit.{boundaries_from, is_clear_of, moves_to};
ghost use Rattle.rustc_lexer.specs.Lexing.{tokens_of};
ghost use Rattle.rustc_lexer.specs.Relexing.{IsCheckpoint, IsInRange, IsRunStart, moved_checkpoint};
ghost use Rattle.rustc_lexer.specs.Relexing.{total};

use crate::relex::lookahead::{is_clear, run_start};
use crate::token::Token;
use std::alloc::AllocError;

// A walk over so many bytes leaves a checkpoint.
const FAR: usize = 8192;

// A checkpoint for so few tokens saves nothing.
const FEW: usize = 32;

/// A boundary of a text's tokens.
#[derive(Clone, Copy)]
pub struct Checkpoint {
    /// The number of tokens before it.
    pub tokens: usize,
    /// The number of bytes before it.
    pub place: usize,
}

/// Where the tokens of a text and of an edited one agree: before `front` in both, and from `old`
/// on in the one as from `new` on in the other.
#[derive(Drop)]
pub struct Relexed {
    pub front: Checkpoint,
    pub old: Checkpoint,
    pub new: Checkpoint,
}

/// How many checkpoints are clear of `start`, and the last of them, or the start of the text if
/// there is none.
pub fn nearest(
    text: &str,
    checkpoints: &[Checkpoint],
    start: usize,
    run: usize,
) -> (usize, Checkpoint)
    requires checkpoints { All (IsCheckpoint (tokens_of (chars text.now))) checkpoints.now }
    requires start { IsCharBoundary text.now start }
    requires run { IsRunStart text.now start run }
    ensures within { result.0 ≤ length checkpoints.now }
    ensures checkpoint { IsCheckpoint (tokens_of (chars text.now)) result.1 }
    ensures clear { 0 < result.1.tokens → is_clear_of text.now start result.1.place ≡ true }
{
    let mut near = Checkpoint {
        tokens: 0,
        place: 0,
    };
    for (k, checkpoint) in checkpoints.iter().enumerate() {
        if !is_clear(text, checkpoint.place, start, run) {
            return (k, near);
        }
        near = *checkpoint;
    }
    (checkpoints.len(), near)
}

/// How many of the tokens, the first of which begins at `at`, come before the first boundary that
/// is at `stop` or after it, and that boundary.
pub fn first_from(tokens: &[Token], at: usize, stop: usize) -> (usize, usize)
    requires fits { at + total tokens.now < 2 ^ 32 }
    requires reaches { stop ≤ at + total tokens.now }
    ensures place { result.1 ≡ at + total (take result.0 tokens.now) }
    ensures within { result.0 ≤ length tokens.now }
    ensures stop { stop ≤ result.1 }
    ensures moves { (moved place : ℕ) → list_any (moves_to stop moved place)
        (boundaries_from at tokens.now)
        ≡ list_any (moves_to stop moved place)
        (boundaries_from result.1 (drop result.0 tokens.now)) }
{
    let mut place = at;
    for (k, token) in tokens.iter().enumerate() {
        if stop <= place {
            return (k, place);
        }
        place += token.len as usize;
    }
    (tokens.len(), place)
}

// Drops all checkpoints if they are too many for the tokens, as they may be after a large
// deletion.
fn thin_out(checkpoints: &mut Vec<Checkpoint>, tokens: &[Token])
    requires { All (IsCheckpoint tokens.now) checkpoints.old.items }
    ensures { All (IsCheckpoint tokens.now) checkpoints.new.items }
{
    if checkpoints.len() > tokens.len() / FEW {
        checkpoints.clear();
    }
}

/// The last checkpoint that is clear of `start`, or the start of the text. If `start` and the run
/// of hashes before it are far from it, a checkpoint is left half-way first, unless a single token
/// extends from there to `start`.
pub fn refine(
    text: &str,
    checkpoints: &mut Vec<Checkpoint>,
    tokens: &[Token],
    start: usize,
) -> Result<Checkpoint, AllocError>
    requires checkpoints { All (IsCheckpoint tokens.now) checkpoints.old.items }
    requires tokens { tokens.now ≡ tokens_of (chars text.now) }
    requires small { length text.now < 2 ^ 32 }
    requires start { IsCharBoundary text.now start }
    ensures checkpoints { All (IsCheckpoint tokens.now) checkpoints.new.items }
    ensures checkpoint { IfOk result (IsCheckpoint tokens.now) }
    ensures clear { IfOk result (λ m. 0 < m.tokens → is_clear_of text.now start m.place ≡ true) }
{
    thin_out(checkpoints, tokens);
    let run = run_start(text, start);
    let (passed, near) = nearest(text, checkpoints, start, run);
    if run < near.place || run - near.place < FAR {
        return Ok(near);
    }
    let half = near.place + (run - near.place) / 2;
    let (walked, place) = first_from(&tokens[near.tokens..], near.place, half);
    if !is_clear(text, place, start, run) {
        return Ok(near);
    }
    let tokens = near.tokens + walked;
    let checkpoint = Checkpoint { tokens, place };
    checkpoints.insert(passed, checkpoint)?;
    Ok(checkpoint)
}

// The checkpoint's boundary in the edited text. If that boundary is gone, the one where lexing
// began.
fn moved(checkpoint: Checkpoint, relexed: &Relexed) -> Checkpoint
    requires checkpoint { IsInRange checkpoint }
    requires to { IsInRange relexed.now.new }
    ensures { result ≡ moved_checkpoint relexed.now checkpoint }
{
    if checkpoint.tokens <= relexed.front.tokens {
        checkpoint
    } else if relexed.old.tokens <= checkpoint.tokens {
        Checkpoint {
            tokens: checkpoint.tokens - relexed.old.tokens + relexed.new.tokens,
            place: checkpoint.place.saturating_sub(relexed.old.place) + relexed.new.place,
        }
    } else {
        relexed.front
    }
}

/// The checkpoints of the edited text.
pub fn move_checkpoints(checkpoints: &mut Vec<Checkpoint>, relexed: &Relexed)
    requires checkpoints { All IsInRange checkpoints.old.items }
    requires to { IsInRange relexed.now.new }
    ensures { checkpoints.new.items ≡ map (moved_checkpoint relexed.now) checkpoints.old.items }
{
    for checkpoint in checkpoints.iter_mut() {
        *checkpoint = moved(*checkpoint, relexed);
    }
}

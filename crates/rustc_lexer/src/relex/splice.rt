//! Edits a text and relexes it: the tokens well before the edit and those after it are kept.
ghost use Rattle.std.specs.Prelude.{◌≡◌, ◌+◌, ◌-◌, ◌<◌, ◌≤◌, ◌^◌, true, length, take, drop, chars};
ghost use Rattle.std.specs.Prelude.{string_bytes, string_len, string_capacity, IfOk, OnOk, OnErr};
ghost use Rattle.std.specs.Prelude.{IsCharBoundary};
ghost use Rattle.std.specs.List.{splice};
ghost use Rattle.rustc_lexer.specs.Edit.{edited, front_of, is_clear_of, kept};
ghost use Rattle.rustc_lexer.specs.Lexing.{tokens_of};
ghost use Rattle.rustc_lexer.specs.Relexing.{IsBegun, IsChanged, IsCheckpoint, IsRelexed};
ghost use Rattle.rustc_lexer.specs.Relexing.{IsSpliced, IsScan, LexesOne, count_to_meeting, total};
ghost use Rattle.rustc_lexer.specs.Remaining.{tokens_left};

use crate::lex::tokenize;
use crate::relex::checkpoints::{Checkpoint, Relexed, first_from};
use crate::relex::gap_buffer::GapBuffer;
use crate::relex::lookahead::{is_clear_from, run_start};
use crate::token::{FrontmatterAllowed, Token};
use crate::tokens::Tokens;
use std::alloc::{AllocError, Global};

// How many tokens of the text end clear of `start`, and the offset at which the last of them ends.
// The search begins at the checkpoint `near`, before which all tokens do.
fn front(text: &str, tokens: &[Token], near: Checkpoint, start: usize) -> (usize, usize)
    requires small { length text.now < 2 ^ 32 }
    requires tokens { tokens.now ≡ tokens_of (chars text.now) }
    requires near { IsCheckpoint tokens.now near }
    requires clear { 0 < near.tokens → is_clear_of text.now start near.place ≡ true }
    requires start { IsCharBoundary text.now start }
    ensures count { result.0 ≡ front_of text.now start }
    ensures at { result.1 ≡ total (take result.0 tokens.now) }
    ensures clear { 0 < result.0 → is_clear_of text.now start result.1 ≡ true }
    ensures within { result.0 ≤ length tokens.now }
{
    let run = run_start(text, start);
    // Up to here, offsets are clear at a glance.
    let sure = (run + 1).min(start.saturating_sub(7));
    let mut at = near.place;
    for k in near.tokens..tokens.len() {
        let next = at + tokens[k].len as usize;
        if !is_clear_from(text, next, start, run, sure) {
            return (k, at);
        }
        at = next;
    }
    (tokens.len(), at)
}

// Lexes the next token, appends it to the fresh ones, and answers its length in bytes.
fn lex_one(tokens: &mut Tokens<'_>, fresh: &mut Vec<Token>) -> Result<usize, AllocError>
    requires { 0 < length (tokens_left tokens.old) }
    ensures lexed { IfOk result (λ len. LexesOne (tokens_left tokens.old) (tokens_left tokens.new)
        fresh.old.items fresh.new.items len) }
    ensures short { IfOk result (λ len. len < 2 ^ 32) }
{
    match tokens.next() {
        Some(token) => {
            fresh.push(token)?;
            Ok(token.len as usize)
        }
        None => unreachable!(),
    }
}

// Lexes `text`, which begins at offset `at`, up to the first boundary that is one of the old
// tokens too. The first old token begins at offset `to`. Answers the fresh tokens, how many old
// ones come before this boundary, and its offset.
fn relex(
    alloc: Global,
    text: &str,
    at: usize,
    old: &[Token],
    to: usize,
) -> Result<(Vec<Token>, usize, usize), AllocError>
    requires small { length text.now < 2 ^ 32 }
    requires fits { at + length text.now < 2 ^ 33 }
    requires same_end { at + length text.now ≡ to + total old.now }
    ensures fresh { IfOk result (λ r. r.0.items
        ≡ take (count_to_meeting at (tokens_of (chars text.now)) to old.now)
        (tokens_of (chars text.now))) }
    ensures count { IfOk result (λ r. length r.0.items
        ≡ count_to_meeting at (tokens_of (chars text.now)) to old.now) }
    ensures met { IfOk result (λ r. (r.1 ≤ length old.now) × (at + total r.0.items ≡ r.2) ×
        (to + total (take r.1 old.now) ≡ r.2)) }
{
    let mut fresh = Vec::new(alloc);
    let mut tokens = tokenize(text, FrontmatterAllowed::No);
    let mut place = at;
    let mut boundary = to;
    let mut met = 0;
    while place != boundary {
        if place < boundary {
            place += lex_one(&mut tokens, &mut fresh)?;
        } else {
            boundary += old[met].len as usize;
            met += 1;
        }
    }
    Ok((fresh, met, place))
}

// Lexes the text from the checkpoint `front` on, up to the first boundary that is one of the old
// tokens too, and replaces the old tokens up to it. The old token after the first `stop` ones
// begins at offset `to`. Answers the boundary as a checkpoint of the new tokens, and how many old
// tokens come before it.
fn relex_into(
    alloc: Global,
    text: &str,
    tokens: &mut GapBuffer,
    front: Checkpoint,
    stop: usize,
    to: usize,
) -> Result<(Checkpoint, usize), AllocError>
    requires small { length text.now < 2 ^ 32 }
    requires at { IsCharBoundary text.now front.place }
    requires order { front.tokens ≤ stop }
    requires within { stop ≤ length tokens.old }
    requires same_end { length text.now ≡ to + total (drop stop tokens.old) }
    ensures relexed { IfOk result (λ r. IsSpliced text.now tokens.old tokens.new front.tokens
        front.place stop to r.1 r.0) }
    ensures err { OnErr result (tokens.new ≡ tokens.old) }
{
    let (fresh, met, place) = relex(
        alloc,
        &text[front.place..],
        front.place,
        &tokens.as_slice()[stop..],
        to,
    )?;
    let new = Checkpoint {
        tokens: front.tokens + fresh.len(),
        place,
    };
    let behind = stop + met;
    tokens.replace(front.tokens, behind, fresh)?;
    Ok((new, behind))
}

// Where relexing starts, and where it may stop: `front` ends the tokens that are kept. `passed`
// tokens later is the first old boundary at or after the edit's end, at the offset `boundary`.
#[derive(Clone, Copy)]
struct RelexStart {
    front: Checkpoint,
    passed: usize,
    boundary: usize,
}

// Where relexing starts for an edit of the bytes from `start` to `stop`.
fn find_start(
    text: &str,
    tokens: &[Token],
    near: Checkpoint,
    start: usize,
    stop: usize,
) -> RelexStart
    requires small { length text.now < 2 ^ 32 }
    requires tokens { tokens.now ≡ tokens_of (chars text.now) }
    requires near { IsCheckpoint tokens.now near }
    requires clear { 0 < near.tokens → is_clear_of text.now start near.place ≡ true }
    requires start { IsCharBoundary text.now start }
    requires stop { IsCharBoundary text.now stop }
    ensures begun { IsBegun text.now tokens.now start result.front.tokens result.front.place }
    ensures scan { IsScan result.front.place stop result.passed result.boundary
        (drop result.front.tokens tokens.now) }
    ensures fits { result.boundary ≤ length text.now }
{
    let (count, at) = front(text, tokens, near, start);
    let (passed, boundary) = first_from(&tokens[count..], at, stop);
    let front = Checkpoint {
        tokens: count,
        place: at,
    };
    RelexStart {
        front,
        passed,
        boundary,
    }
}

// Replaces the bytes from `start` to `stop`. The text keeps room for what was there.
fn replace_bytes(
    text: &mut String,
    start: usize,
    stop: usize,
    replacement: &str,
) -> Result<(), AllocError>
    requires start { IsCharBoundary (string_bytes text.old) start }
    requires stop { IsCharBoundary (string_bytes text.old) stop }
    requires order { start ≤ stop }
    ensures text { OnOk result (string_bytes text.new
        ≡ edited (string_bytes text.old) start stop replacement.now) }
    ensures room { OnOk result (string_len text.new + (stop - start) ≤ string_capacity text.new) }
    ensures err { OnErr result (string_bytes text.new ≡ string_bytes text.old) }
{
    text.reserve(replacement.len())?;
    text.replace_range(start..stop, replacement)
}

// Replaces the bytes from `start` to `stop`, and answers what was there. The text keeps room for
// it.
fn replace(
    alloc: Global,
    text: &mut String,
    start: usize,
    stop: usize,
    replacement: &str,
) -> Result<String, AllocError>
    requires start { IsCharBoundary (string_bytes text.old) start }
    requires stop { IsCharBoundary (string_bytes text.old) stop }
    requires order { start ≤ stop }
    ensures text { OnOk result (string_bytes text.new
        ≡ edited (string_bytes text.old) start stop replacement.now) }
    ensures gone { IfOk result (λ gone. string_bytes gone
        ≡ take (stop - start) (drop start (string_bytes text.old))) }
    ensures room { IfOk result (λ gone. string_len text.new + length (string_bytes gone)
        ≤ string_capacity text.new) }
    ensures err { OnErr result (string_bytes text.new ≡ string_bytes text.old) }
{
    let gone = String::from_str(alloc, &text[start..stop])?;
    replace_bytes(text, start, stop, replacement)?;
    Ok(gone)
}

// Undoes a replacement. The text has room for what was there, so this never fails.
fn put_back(text: &mut String, start: usize, stop: usize, gone: &str)
    requires start { IsCharBoundary (string_bytes text.old) start }
    requires stop { IsCharBoundary (string_bytes text.old) stop }
    requires order { start ≤ stop }
    requires room { string_len text.old + length gone.now ≤ string_capacity text.old }
    ensures { string_bytes text.new ≡ edited (string_bytes text.old) start stop gone.now }
{
    match text.replace_range(start..stop, gone) {
        Ok(()) => {}
        Err(_) => unreachable!(),
    }
}

// Relexes an edited text, in which the old offset `stop` has become `end`.
fn relex_tokens(
    alloc: Global,
    text: &str,
    tokens: &mut GapBuffer,
    found: RelexStart,
    stop: usize,
    end: usize,
) -> Result<Relexed, AllocError>
    requires small { length text.now < 2 ^ 32 }
    requires changed { IsChanged text.now tokens.old found.front.tokens found.front.place
        found.passed found.boundary stop «end» }
    ensures tokens { OnOk result (tokens.new ≡ tokens_of (chars text.now)) }
    ensures relexed { IfOk result (IsRelexed tokens.old tokens.new) }
    ensures kept { IfOk result (λ m.
        (w : IsChanged text.now tokens.old found.front.tokens found.front.place found.passed
        found.boundary stop «end») →
        kept w.old w.start stop w.replacement
        ≡ record {
          front = m.front.tokens;
          lexed = m.new.tokens - m.front.tokens;
          back = length
              tokens.old - m.old.tokens;
        }) }
    ensures err { OnErr result (tokens.new ≡ tokens.old) }
{
    let RelexStart {
        front,
        passed,
        boundary,
    } = found;
    let to = boundary - stop + end;
    let (new, behind) = relex_into(alloc, text, tokens, front, front.tokens + passed, to)?;
    let old = Checkpoint {
        tokens: behind,
        place: new.place - end + stop,
    };
    Ok(Relexed { front, old, new })
}

/// Replaces the text's bytes from `start` to `stop`, and relexes the text. `near` is a checkpoint
/// of its tokens before the edit. Refused if there is no memory for the text or its tokens; then
/// neither changes.
pub fn edit_and_relex(
    text: &mut String,
    tokens: &mut GapBuffer,
    near: Checkpoint,
    start: usize,
    stop: usize,
    replacement: &str,
) -> Result<Relexed, AllocError>
    requires tokens { tokens.old ≡ tokens_of (chars (string_bytes text.old)) }
    requires near { IsCheckpoint tokens.old near }
    requires clear { 0 < near.tokens → is_clear_of (string_bytes text.old) start near.place ≡ true }
    requires start { IsCharBoundary (string_bytes text.old) start }
    requires stop { IsCharBoundary (string_bytes text.old) stop }
    requires order { start ≤ stop }
    requires small { length (string_bytes text.old) < 2 ^ 32 }
    requires fits { length (string_bytes text.old) - (stop - start) + length replacement.now < 2 ^
        32 }
    ensures text { OnOk result (string_bytes text.new
        ≡ edited (string_bytes text.old) start stop replacement.now) }
    ensures tokens { OnOk result (tokens.new ≡ tokens_of (chars (string_bytes text.new))) }
    ensures relexed { IfOk result (IsRelexed tokens.old tokens.new) }
    ensures kept { IfOk result (λ m. kept (string_bytes text.old) start stop replacement.now
        ≡ record {
          front = m.front.tokens;
          lexed = m.new.tokens - m.front.tokens;
          back = length
              tokens.old - m.old.tokens;
        }) }
    ensures err { OnErr result (string_bytes text.new ≡ string_bytes text.old) }
    ensures err_tokens { OnErr result (tokens.new ≡ tokens.old) }
{
    let alloc = *text.allocator();
    let found = find_start(text, tokens.as_slice(), near, start, stop);
    let gone = replace(alloc, text, start, stop, replacement)?;
    let end = start + replacement.len();
    match relex_tokens(alloc, text, tokens, found, stop, end) {
        Ok(relexed) => Ok(relexed),
        Err(e) => {
            put_back(text, start, end, &gone);
            Err(e)
        }
    }
}

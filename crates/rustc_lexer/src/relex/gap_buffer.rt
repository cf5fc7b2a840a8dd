//! The gap buffer of a text's tokens: a vector of tokens with a gap before them.
//!
//! An edit can move the tokens before it, if these are fewer than those after it. How wide the
//! gap is decides speed alone.
ghost use Rattle.std.specs.Prelude.{◌≡◌, ◌+◌, ◌-◌, ◌≤◌, true, length, drop, IfOk, OnOk, OnErr};
ghost use Rattle.std.specs.List.{copy_within, splice};

use crate::token::{Token, TokenKind};
use std::alloc::AllocError;
use std::marker::Model;

// For how many more tokens than needed room is made at once.
const MORE: usize = 64;

// What fills the gap.
const NOTHING: Token = Token {
    kind: TokenKind::Eof,
    len: 0,
};

/// Tokens in order.
#[derive(Drop)]
pub struct GapBuffer {
    // The tokens, after the gap.
    items: Vec<Token>,
    // The width of the gap: how many items come before the tokens.
    room: usize,
}

impl Model for GapBuffer {
    ghost use Rattle.std.specs.Prelude.{List, drop, length, ◌≤◌};
    ghost use Rattle.rustc_lexer.specs.declared.token.Token.{Token};

    ghost Value = { List Token };

    ghost view = { λ h. drop h.room h.items.items };

    ghost invariant = { λ h. h.room ≤ length h.items.items };
}

impl GapBuffer {
    /// These tokens.
    pub fn new(tokens: Vec<Token>) -> GapBuffer
        ensures { result ≡ tokens.items }
    {
        GapBuffer {
            items: tokens,
            room: 0,
        }
    }

    /// The tokens in order.
    pub fn as_slice(&self) -> &[Token]
        ensures { result.now ≡ self.now }
    {
        &self.items[self.room..]
    }

    /// Replaces the tokens from `start` to `stop`. Refused if memory runs out; then nothing
    /// changes.
    pub fn replace(
        &mut self,
        start: usize,
        stop: usize,
        fresh: Vec<Token>,
    ) -> Result<(), AllocError>
        requires order { start ≤ stop }
        requires within { stop ≤ length self.old }
        ensures tokens { OnOk result (self.new ≡ splice self.old start stop fresh.items) }
        ensures err { OnErr result (self.new ≡ self.old) }
    {
        let (room, in_front) = found_room(&mut self.items, self.room, start, stop, fresh.len())?;
        self.room = room;
        if in_front {
            self.room = replace_moving_front(&mut self.items, room, start, stop, &fresh);
            return Ok(());
        }
        replace_moving_back(&mut self.items, room, start, stop, fresh)
    }
}

// Widens the gap if it is too narrow to put `added` tokens in place of `gone` others, and answers
// its width.
fn widened(
    items: &mut Vec<Token>,
    room: usize,
    gone: usize,
    added: usize,
) -> Result<usize, AllocError>
    requires within { room + gone ≤ length items.old.items }
    ensures size { IfOk result (λ r. r + length items.old.items ≡ room + length items.new.items) }
    ensures same { IfOk result (λ r. drop r items.new.items ≡ drop room items.old.items) }
    ensures err { OnErr result (items.new.items ≡ items.old.items) }
{
    if added <= room + gone {
        return Ok(room);
    }
    let more = (added - (room + gone)).saturating_add(MORE);
    let alloc = *items.allocator();
    items.splice(0..0, Vec::from_elem(alloc, NOTHING, more)?)?;
    Ok(room + more)
}

// Whether the gap is wide enough, and not too wide afterwards.
fn fits_in_front(items: &[Token], room: usize, gone: usize, added: usize) -> bool
    requires within { room + gone ≤ length items.now }
    ensures { result ≡ true → added ≤ room + gone }
{
    added <= room + gone && room + gone - added <= MORE.max(items.len() / 4)
}

// The width of the gap with which `added` tokens can replace those from `start` to `stop`, and
// whether the tokens before `start` are to be moved. They are if they are fewer than those after
// `stop`, for which the gap is widened, or if as many tokens come as go; but not if the gap would
// then be too wide.
fn found_room(
    items: &mut Vec<Token>,
    room: usize,
    start: usize,
    stop: usize,
    added: usize,
) -> Result<(usize, bool), AllocError>
    requires order { start ≤ stop }
    requires within { room + stop ≤ length items.old.items }
    ensures size { IfOk result (λ r. r.0 + length items.old.items ≡ room + length items.new.items) }
    ensures same { IfOk result (λ r. drop r.0 items.new.items ≡ drop room items.old.items) }
    ensures fits { IfOk result (λ r. r.1 ≡ true → added ≤ r.0 + (stop - start)) }
    ensures err { OnErr result (items.new.items ≡ items.old.items) }
{
    if added != stop - start && start >= items.len() - (room + stop) {
        return Ok((room, false));
    }
    let room = widened(items, room, stop - start, added)?;
    let in_front = fits_in_front(items, room, stop - start, added);
    Ok((room, in_front))
}

// Moves `count` tokens from one index to another.
fn shift(items: &mut Vec<Token>, from: usize, to: usize, count: usize)
    requires from { from + count ≤ length items.old.items }
    requires to { to + count ≤ length items.old.items }
    ensures { items.new.items ≡ copy_within items.old.items from (from + count) to }
{
    if from != to {
        items.copy_within(from..from + count, to);
    }
}

// Overwrites the tokens from index `at` on.
fn overwrite(items: &mut Vec<Token>, at: usize, fresh: &[Token])
    requires { at + length fresh.now ≤ length items.old.items }
    ensures { items.new.items ≡ splice items.old.items at (at + length fresh.now) fresh.now }
{
    items[at..at + fresh.len()].copy_from_slice(fresh);
}

// Replaces the tokens from `start` to `stop` after the gap, and moves those before them. Answers
// the new width of the gap.
fn replace_moving_front(
    items: &mut Vec<Token>,
    room: usize,
    start: usize,
    stop: usize,
    fresh: &[Token],
) -> usize
    requires order { start ≤ stop }
    requires within { room + stop ≤ length items.old.items }
    requires fits { length fresh.now ≤ room + (stop - start) }
    ensures tokens { drop result items.new.items
        ≡ splice (drop room items.old.items) start stop fresh.now }
    ensures within { result ≤ length items.new.items }
{
    let to = room + (stop - start) - fresh.len();
    shift(items, room, to, start);
    overwrite(items, to + start, fresh);
    to
}

// Replaces the tokens from `start` to `stop` after the gap, and moves those after them.
fn replace_moving_back(
    items: &mut Vec<Token>,
    room: usize,
    start: usize,
    stop: usize,
    fresh: Vec<Token>,
) -> Result<(), AllocError>
    requires order { start ≤ stop }
    requires within { room + stop ≤ length items.old.items }
    ensures tokens { OnOk result (drop room items.new.items
        ≡ splice (drop room items.old.items) start stop fresh.items) }
    ensures within { OnOk result (room ≤ length items.new.items) }
    ensures err { OnErr result (items.new.items ≡ items.old.items) }
{
    items.splice(room + start..room + stop, fresh)?;
    Ok(())
}

//! Threads: partial readings by a matcher, with the log of their moves.
ghost use Rattle.std.specs.Prelude.{◌≡◌, [], ◌∷◌, ◌++◌, IfOk, option_map, true};
ghost use Rattle.std.specs.List.{slice_get};
ghost use Rattle.tt.specs.Views.{forest};
ghost use Rattle.mbe_rules.specs.Ops.{items_of};
ghost use Rattle.mbe_matcher.specs.Numbers.{number_after, number_of};
ghost use Rattle.mbe_matcher.specs.Places.{place_of};
ghost use Rattle.mbe_matcher.specs.Readings as r;
ghost use Rattle.mbe_matcher.specs.Threads.{state_of, frames_in, moves_of, move_of, rounds_of};
ghost use Rattle.mbe_matcher.specs.Threads.{steps};
ghost use Rattle.mbe_matcher.specs.Units as u;

use crate::position::Place;
use bumpalo::Bump;
use mbe_rules::{MetaVarKind, Op, RepeatKind, Separator};
use std::alloc::AllocError;
use std::marker::Model;
use symbols::Symbol;
use tt::TokenTreesView;

// A repetition that a thread is in, and what comes after it.
#[derive(Clone, Copy)]
pub(crate) struct Round<'a> {
    pub(crate) body: &'a [Op],
    pub(crate) separator: Option<&'a Separator>,
    pub(crate) kind: RepeatKind,
    pub(crate) after: &'a [Op],
}

// What goes on after the present list of ops.
#[derive(Clone, Copy)]
pub(crate) enum Frame<'a> {
    // After a group's closing.
    InGroup { after: &'a [Op] },
    // After an iteration.
    InRound(Round<'a>),
    // After a separator, when only another iteration may come.
    Parted(Round<'a>),
}

/// A move of a reading.
#[derive(Clone, Copy, Drop)]
pub enum Move<'a> {
    /// Over a unit: a leaf, a glued operator, a lifetime or a delimiter.
    Unit,
    /// Over the trees of a fragment.
    Fragment {
        name: &'a Symbol,
        kind: MetaVarKind,
        trees: TokenTreesView<'a>,
    },
    /// A `vis` that consumes nothing.
    Nothing {
        name: &'a Symbol,
    },
    /// Into the first iteration of a repetition.
    Enter,
    /// Past a repetition with this body, without an iteration.
    Skip {
        body: &'a [Op],
    },
    /// Out of a repetition, after an iteration.
    Leave,
    /// Over a separator.
    Separator,
    /// Into another iteration.
    NextRound,
}

// The iterations that begin with an entry of the log. The moves into them have no entries of
// their own.
#[derive(Clone, Copy, Drop)]
pub(crate) enum IterationStart {
    Nothing,
    Round,
    // One for each tree of the fragment that was consumed. Each iteration consumes only its tree.
    RoundForEach,
}

/// A move of the log, and the entry of the move before it; or several iterations of a single
/// metavariable that consume one tree each. Threads share entries.
#[derive(Clone, Copy, Drop)]
pub struct Entry<'a> {
    pub(crate) begun: IterationStart,
    pub(crate) made: Move<'a>,
    pub(crate) before: Option<&'a Entry<'a>>,
}

// The log with one more entry.
#[inline(always)]
fn with_entry<'a>(
    arena: &'a Bump,
    before: Option<&'a Entry<'a>>,
    begun: IterationStart,
    made: Move<'a>,
) -> Result<Option<&'a Entry<'a>>, AllocError>
    ensures { IfOk result (λ e. moves_of e ≡ moves_of before.entry ++ steps begun made.entry) }
{
    let Ok(entry) = arena.try_alloc(Entry {
        begun,
        made,
        before,
    }) else {
        return Err(AllocError);
    };
    Ok(Some(entry))
}

// The log with one more move.
#[inline(always)]
pub(crate) fn extended<'a>(
    arena: &'a Bump,
    before: Option<&'a Entry<'a>>,
    made: Move<'a>,
) -> Result<Option<&'a Entry<'a>>, AllocError>
    ensures { IfOk result (λ e. moves_of e ≡ moves_of before.entry ++ (move_of made.entry ∷ [])) }
{
    with_entry(arena, before, IterationStart::Nothing, made)
}

// The log with a move into another iteration, and one more.
#[inline(always)]
pub(crate) fn extended_by_round<'a>(
    arena: &'a Bump,
    before: Option<&'a Entry<'a>>,
    made: Move<'a>,
) -> Result<Option<&'a Entry<'a>>, AllocError>
    ensures { IfOk result (λ e. moves_of e ≡ moves_of before.entry
        ++ (r.next_round ∷ move_of made.entry ∷ [])) }
{
    with_entry(arena, before, IterationStart::Round, made)
}

// The log with an iteration for each of these trees, which is the metavariable's value there.
#[inline(always)]
pub(crate) fn extended_by_rounds<'a>(
    arena: &'a Bump,
    before: Option<&'a Entry<'a>>,
    name: &'a Symbol,
    kind: MetaVarKind,
    trees: TokenTreesView<'a>,
) -> Result<Option<&'a Entry<'a>>, AllocError>
    ensures { IfOk result (λ e. moves_of e ≡ moves_of before.entry ++ rounds_of name.now kind
        (forest trees.entry)) }
{
    let made = Move::Fragment { name, kind, trees };
    with_entry(arena, before, IterationStart::RoundForEach, made)
}

// A group or repetition that a thread is in, and the one around it. Threads share those around.
#[derive(Drop)]
pub(crate) struct Rung<'a> {
    pub(crate) frame: Frame<'a>,
    pub(crate) around: Option<&'a Rung<'a>>,
    // Tells this frame and those around it from others, but for rare cases.
    number: usize,
}

impl<'a> Model for Rung<'a> {
    ghost use Rattle.std.specs.Prelude.{◌≡◌, ◌∷◌, ◌+◌, List, length};
    ghost use Rattle.std.specs.Coded.{codes};
    ghost use Rattle.std.proofs.Common.{arith};
    ghost use Rattle.mbe_rules.specs.contracts.parser.Op as op;
    ghost use Rattle.mbe_rules.specs.contracts.parser.Separator as separator;
    ghost use Rattle.mbe_matcher.specs.declared.thread.Frame.{Frame};
    ghost use Rattle.mbe_matcher.specs.Frames.{frames_in};
    ghost use Rattle.mbe_matcher.specs.Numbers.{number_of};

    ghost Value = { Frame × List Frame };

    ghost coded = { Prim.hlevel (codes, op.the_row.coded, separator.the_row.coded) };

    ghost view = { λ r. (r.frame, frames_in r.around) };

    ghost invariant = { λ r. r.number ≡ number_of (r.frame ∷ frames_in r.around) };

    ghost size = { λ v. length v.1 + 1 };

    ghost size_decreases = { λ a h. Prim.grind arith };
}

// The number of frames with one more inside.
fn number_after(around: usize, frame: Frame<'_>) -> usize
    ensures { result ≡ number_after frame.entry around }
{
    let (count, factor) = match frame {
        Frame::InGroup { after } => (after.len(), 11_400_714_819_323_198_485),
        Frame::InRound(round) => (round.after.len(), 14_029_467_366_897_019_727),
        Frame::Parted(round) => (round.after.len(), 1_609_587_929_392_839_161),
    };
    around
        .wrapping_add(count)
        .wrapping_add(1)
        .wrapping_mul(factor)
}

// The number of the groups and repetitions that a thread is in.
#[inline(always)]
pub(crate) fn number_in(frames: Option<&Rung<'_>>) -> usize
    ensures { result ≡ number_of (frames_in frames.entry) }
{
    match frames {
        None => 0,
        Some(rung) => rung.number,
    }
}

// The groups and repetitions, with one more inside.
#[inline(always)]
pub(crate) fn inside<'a>(
    arena: &'a Bump,
    around: Option<&'a Rung<'a>>,
    frame: Frame<'a>,
) -> Result<Option<&'a Rung<'a>>, AllocError>
    ensures { IfOk result (λ f. frames_in f ≡ frame.entry ∷ frames_in around.entry) }
{
    let number = number_after(number_in(around), frame);
    let Ok(rung) = arena.try_alloc(Rung {
        frame,
        around,
        number,
    }) else {
        return Err(AllocError);
    };
    Ok(Some(rung))
}

/// A partial reading: the ops that come next, the groups and repetitions it is in, and its moves.
#[derive(Clone, Copy, Drop)]
pub struct Thread<'a> {
    pub(crate) items: &'a [Op],
    pub(crate) frames: Option<&'a Rung<'a>>,
    pub(crate) moves: Option<&'a Entry<'a>>,
}

impl<'a> Thread<'a> {
    /// The thread that begins to read by a matcher.
    pub fn start(pattern: &'a [Op]) -> Thread<'a>
        ensures state { (p : u.Place) → state_of result p ≡ r.at (items_of pattern.now) [] p }
        ensures moves { moves_of result.moves ≡ [] }
    {
        Thread {
            items: pattern,
            frames: None,
            moves: None,
        }
    }

    /// Whether all ops are read, and no group or repetition is open.
    pub fn is_past_pattern(&self) -> bool
        ensures { (p : u.Place) → u.is_end p ≡ true → result ≡ r.has_used_up (state_of self.now p) }
    {
        match self.items.first() {
            Some(_) => false,
            None => match self.frames {
                Some(_) => false,
                None => true,
            },
        }
    }

    /// The op that is read next, if one is left in the innermost group or iteration.
    pub fn next_item(&self) -> Option<&'a Op>
        ensures { option_map (λ op. op.now) result ≡ slice_get self.now.items.now 0 }
    {
        self.items.first()
    }

    /// The moves so far.
    pub fn moves(&self) -> Option<&'a Entry<'a>>
        ensures { moves_of result ≡ moves_of self.now.moves }
    {
        self.moves
    }

    // The thread after a move, in these groups and repetitions.
    #[inline(always)]
    pub(crate) fn moved(
        &self,
        arena: &'a Bump,
        items: &'a [Op],
        frames: Option<&'a Rung<'a>>,
        made: Move<'a>,
    ) -> Result<Thread<'a>, AllocError>
        ensures items { IfOk result (λ t. t.items.now ≡ items.now) }
        ensures frames { IfOk result (λ t. frames_in t.frames ≡ frames_in frames.entry) }
        ensures moves { IfOk result (λ t. moves_of t.moves ≡ moves_of self.now.moves
            ++ (move_of made.entry ∷ [])) }
    {
        let moves = extended(arena, self.moves, made)?;
        Ok(Thread {
            items,
            frames,
            moves,
        })
    }

    // Whether the matcher and the argument are read to their ends.
    #[inline(always)]
    pub(crate) fn has_ended(&self, place: &Place<'a>) -> bool
        ensures { result ≡ r.has_used_up (state_of self.now (place_of place.now)) }
    {
        match self.items.first() {
            Some(_) => false,
            None => match self.frames {
                Some(_) => false,
                None => place.is_end(),
            },
        }
    }
}

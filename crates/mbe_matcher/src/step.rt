//! The next moves of a thread.
ghost use Rattle.std.specs.Prelude.{◌≡◌, [], ◌∷◌, ◌++◌, map, option_map, false, None, IfOk, IfSome};
ghost use Rattle.mbe_rules.specs.Items.{Items, may_skip};
ghost use Rattle.mbe_rules.specs.Ops.{items_of, put_op, separator_of};
ghost use Rattle.mbe_matcher.specs.Fragments.{taken};
ghost use Rattle.mbe_matcher.specs.Grammar.{Grammar};
ghost use Rattle.mbe_matcher.specs.Paths.{when};
ghost use Rattle.mbe_matcher.specs.Places.{place_of, place_after};
ghost use Rattle.mbe_matcher.specs.Readings as r;
ghost use Rattle.mbe_matcher.specs.Units as u;
ghost use Rattle.mbe_matcher.specs.Threads.{state_of, frame_of, frames_in, frames_of, move_of};
ghost use Rattle.mbe_matcher.specs.Threads.{moves_of, made_of, given, extended, between_of};
ghost use Rattle.mbe_matcher.specs.Threads.{repetition_of, is_some_taken, is_trees};
ghost use Rattle.mbe_matcher.specs.Steps.{is_unit_here, is_repetition, is_round, may_go_on};
ghost use Rattle.mbe_matcher.specs.Steps.{further};
ghost use Rattle.mbe_matcher.specs.declared.thread.Frame.TheVariants.{InRound};

use crate::fragments::fragment_trees;
use crate::position::{Consumed, Place, before};
use crate::thread::{Entry, Frame, Move, Round, Rung, Thread, inside};
use bumpalo::Bump;
use fragment_grammar::FragmentGrammar;
use mbe_rules::{MetaVarKind, Op, RepeatKind, Separator};
use std::alloc::AllocError;
use symbols::Symbol;
use tt::DelimiterKind;

/// A thread after one more move, and what that move consumes.
#[derive(Clone, Copy, Drop)]
pub struct Choice<'a> {
    pub thread: Thread<'a>,
    pub taken: Option<Consumed>,
}

/// A thread that waits for the others: at the end, or after a move that consumes something.
#[derive(Clone, Copy, Drop)]
pub(crate) enum Waiting<'a> {
    Ended(Option<&'a Entry<'a>>),
    Pending { thread: Thread<'a>, taken: Consumed },
}

/// The next moves of a thread: at most two.
pub type Choices<'a> = (Option<Choice<'a>>, Option<Choice<'a>>);

// A metavariable of a matcher, and its fragment specifier.
#[derive(Clone, Copy)]
struct Variable<'a> {
    name: &'a Symbol,
    kind: MetaVarKind,
}

// The separator, borrowed.
#[inline(always)]
fn borrowed<'a>(separator: &'a Option<Separator>) -> Option<&'a Separator>
    ensures { between_of result ≡ option_map separator_of separator.now }
{
    match separator {
        Some(between) => Some(between),
        None => None,
    }
}

// The repetition that an op is, before these ops.
#[inline(always)]
pub(crate) fn round_of<'a>(op: &'a Op, after: &'a [Op]) -> Option<Round<'a>>
    ensures some { IfSome result (λ x. repetition_of x ≡ put_op op.now (items_of after.now)) }
    ensures none { result ≡ None → is_repetition (put_op op.now (items_of after.now)) ≡ false }
{
    match op {
        Op::Repeat {
            tokens,
            separator,
            kind,
        } => Some(Round {
            body: tokens,
            separator: borrowed(separator),
            kind: *kind,
            after,
        }),
        _ => None,
    }
}

// Whether another iteration may follow.
#[inline(always)]
fn may_repeat(kind: RepeatKind) -> bool
    ensures { result ≡ r.may_repeat kind }
{
    match kind {
        RepeatKind::ZeroOrOne => false,
        _ => true,
    }
}

// Whether a repetition may have no iteration.
#[inline(always)]
pub(crate) fn may_skip(kind: RepeatKind) -> bool
    ensures { result ≡ may_skip kind }
{
    match kind {
        RepeatKind::OneOrMore => false,
        _ => true,
    }
}

// Whether a repetition may go on after an iteration: its separator is here, or there is none and
// another iteration may follow.
#[inline(always)]
pub(crate) fn may_go_on<'a>(round: Round<'a>, place: &Place<'a>) -> bool
    ensures { result ≡ may_go_on (between_of round.entry.separator) round.entry.kind
        (place_of place.now) }
{
    match round.separator {
        Some(between) => place.is_between(between),
        None => may_repeat(round.kind),
    }
}

// Whether the unit of an op is here. A metavariable, a group and a repetition have none.
#[inline(always)]
fn is_unit_here(op: &Op, place: &Place<'_>) -> bool
    ensures { (rest : Items) → result ≡ is_unit_here (put_op op.now rest) (place_of place.now) }
{
    match op {
        Op::Literal(literal) => place.is_literal(literal),
        Op::Ident(ident) => place.is_name(&ident.sym),
        Op::Punct(puncts) => place.is_puncts(puncts),
        Op::Lifetime(_, ident) => place.is_lifetime(&ident.sym),
        _ => false,
    }
}

impl<'a> Thread<'a> {
    // The choice of this move, with the ops and the groups and repetitions after it.
    #[inline(always)]
    pub(crate) fn choice(
        &self,
        arena: &'a Bump,
        items: &'a [Op],
        frames: Option<&'a Rung<'a>>,
        made: Move<'a>,
        taken: Option<Consumed>,
    ) -> Result<Choice<'a>, AllocError>
        ensures { (p : u.Place) → IfOk result (λ c. made_of p c
            ≡ (
              moves_of self.now.moves ++ (move_of made.entry ∷ []),
              is_some_taken taken,
              is_trees
                  taken,
              r.at (items_of items.now) (frames_of frames.entry) (place_after p taken),
            )) }
    {
        let thread = self.moved(arena, items, frames, made)?;
        Ok(Choice { thread, taken })
    }

    // The choice that consumes a unit, if it is here. `items` and `frames` come after it.
    #[inline(always)]
    fn unit(
        &self,
        arena: &'a Bump,
        is_here: bool,
        items: &'a [Op],
        frames: Option<&'a Rung<'a>>,
    ) -> Result<Option<Choice<'a>>, AllocError>
        ensures { (p : u.Place) → IfOk result (λ o. given p o
            ≡ map (extended (moves_of self.now.moves))
            (when is_here (
              r.unit_move,
              r.at (items_of items.now) (frames_of frames.entry)
                  (u.after_unit p),
            ))) }
    {
        if !is_here {
            return Ok(None);
        }
        let choice = self.choice(arena, items, frames, Move::Unit, Some(Consumed::Unit))?;
        Ok(Some(choice))
    }

    // The choice that opens a group, if that is here. `inner` are the ops of the group, and
    // `after` those after it.
    #[inline(always)]
    fn opening(
        &self,
        arena: &'a Bump,
        kind: DelimiterKind,
        inner: &'a [Op],
        after: &'a [Op],
        place: &Place<'a>,
    ) -> Result<Option<Choice<'a>>, AllocError>
        ensures { let p = place_of place.now in IfOk result (λ o. given p o
            ≡ map (extended (moves_of self.now.moves))
            (when (u.same_unit (u.opening kind) (u.unit_at p)) (
              r.unit_move,
              r.at (items_of inner.now) (r.in_group (items_of after.now)
                  ∷ frames_of self.now.frames) (u.after_unit p),
            ))) }
    {
        if !place.is_opening(kind) {
            return Ok(None);
        }
        let frames = inside(arena, self.frames, Frame::InGroup { after })?;
        let choice = self.choice(arena, inner, frames, Move::Unit, Some(Consumed::Unit))?;
        Ok(Some(choice))
    }

    // The choice that consumes a fragment, if there is one here. Only a `vis` may have no tree.
    // `items` are the ops after it.
    #[inline(always)]
    fn fragment<G: FragmentGrammar>(
        &self,
        arena: &'a Bump,
        grammar: &G,
        variable: Variable<'a>,
        items: &'a [Op],
        place: &Place<'a>,
    ) -> Result<Option<Choice<'a>>, AllocError>
        ensures { let p = place_of place.now in IfOk result (λ o. given p o
            ≡ map (extended (moves_of self.now.moves)) (r.fragment_moves variable.entry.name.now
            variable.entry.kind
            (taken (G.answer grammar.now) variable.entry.kind (r.trees_here p)) (items_of items.now)
            (frames_of self.now.frames) p)) }
    {
        let Variable { name, kind } = variable;
        match fragment_trees(grammar, kind, &place.rest) {
            None => Ok(None),
            Some(0) => {
                if kind != MetaVarKind::Vis {
                    return Ok(None);
                }
                let choice = self.choice(arena, items, self.frames, Move::Nothing { name }, None)?;
                Ok(Some(choice))
            }
            Some(count) => {
                let trees = before(&place.rest, count);
                let made = Move::Fragment { name, kind, trees };
                let taken = Some(Consumed::Fragment(count));
                let choice = self.choice(arena, items, self.frames, made, taken)?;
                Ok(Some(choice))
            }
        }
    }

    // The choice at this op, which comes next and is no repetition. `rest` are the ops after it.
    #[inline(always)]
    pub(crate) fn choice_at<G: FragmentGrammar>(
        &self,
        arena: &'a Bump,
        grammar: &G,
        op: &'a Op,
        rest: &'a [Op],
        place: &Place<'a>,
    ) -> Result<Option<Choice<'a>>, AllocError>
        requires items { self.now.items.now ≡ op.now ∷ rest.now }
        requires single { is_repetition (items_of self.now.items.now) ≡ false }
        ensures { let p = place_of place.now in IfOk result (λ o. given p o
            ≡ map (extended (moves_of self.now.moves)) (r.next (G.answer grammar.now)
            (state_of self.now p))) }
    {
        match op {
            Op::Subtree { tokens, delimiter } => {
                let choice = self.opening(arena, delimiter.kind, tokens, rest, place)?;
                Ok(choice)
            }
            Op::Var {
                name,
                kind: Some(kind),
                ..
            } => {
                let variable = Variable { name, kind: *kind };
                let choice = self.fragment(arena, grammar, variable, rest, place)?;
                Ok(choice)
            }
            _ => {
                let choice = self.unit(arena, is_unit_here(op, place), rest, self.frames)?;
                Ok(choice)
            }
        }
    }

    // The choice at the end of the ops of this frame, which is no iteration. `around` are the
    // frames around it.
    #[inline(always)]
    pub(crate) fn choice_after(
        &self,
        arena: &'a Bump,
        frame: Frame<'a>,
        around: Option<&'a Rung<'a>>,
        place: &Place<'a>,
    ) -> Result<Option<Choice<'a>>, AllocError>
        requires items { self.now.items.now ≡ [] }
        requires frames { frames_in self.now.frames ≡ frame ∷ frames_in around }
        requires outside { is_round frame ≡ false }
        ensures { (g : Grammar) → let p = place_of place.now in IfOk result (λ o. given p o
            ≡ map (extended (moves_of self.now.moves)) (r.next g (state_of self.now p))) }
    {
        match frame {
            Frame::InGroup { after } => {
                let choice = self.unit(arena, place.is_closing(), after, around)?;
                Ok(choice)
            }
            Frame::InRound(_) => Ok(None),
            // There is no next iteration for the operator `?`.
            Frame::Parted(round) => {
                if !may_repeat(round.kind) {
                    return Ok(None);
                }
                let frames = inside(arena, around, Frame::InRound(round))?;
                let choice = self.choice(arena, round.body, frames, Move::NextRound, None)?;
                Ok(Some(choice))
            }
        }
    }

    // The choice that enters the first iteration of a repetition.
    #[inline(always)]
    pub(crate) fn enter(&self, arena: &'a Bump, round: Round<'a>) -> Result<Choice<'a>, AllocError>
        ensures { (p : u.Place) → IfOk result (λ c. made_of p c
            ≡ extended (moves_of self.now.moves) (
              r.enter,
              r.at (items_of round.entry.body.now)
                  (frame_of (InRound round.entry) ∷ frames_of self.now.frames) p,
            )) }
    {
        let inner = inside(arena, self.frames, Frame::InRound(round))?;
        let choice = self.choice(arena, round.body, inner, Move::Enter, None)?;
        Ok(choice)
    }

    // The choice that goes on with a repetition after an iteration: over its separator, or without
    // one into the next iteration.
    #[inline(always)]
    pub(crate) fn further(
        &self,
        arena: &'a Bump,
        round: Round<'a>,
        around: Option<&'a Rung<'a>>,
    ) -> Result<Choice<'a>, AllocError>
        requires items { self.now.items.now ≡ [] }
        requires frames { frames_in self.now.frames ≡ InRound round ∷ frames_in around }
        ensures { (p : u.Place) → IfOk result (λ c. made_of p c ≡ extended (moves_of self.now.moves)
            (further (items_of round.entry.body.now) (between_of round.entry.separator)
            round.entry.kind (items_of round.entry.after.now) (frames_of around.entry) p)) }
    {
        match round.separator {
            Some(_) => {
                let frames = inside(arena, around, Frame::Parted(round))?;
                let taken = Some(Consumed::Unit);
                let choice = self.choice(arena, self.items, frames, Move::Separator, taken)?;
                Ok(choice)
            }
            // The frame stays: it is the same repetition.
            None => {
                let choice = self.choice(arena, round.body, self.frames, Move::NextRound, None)?;
                Ok(choice)
            }
        }
    }

    // The thread in the first iteration of a repetition, and unless the operator is `+` the one
    // after skipping it.
    fn before_rounds(&self, arena: &'a Bump, round: Round<'a>) -> Result<Choices<'a>, AllocError>
        requires { items_of self.now.items.now ≡ repetition_of round }
        ensures { (g : Grammar) (p : u.Place) → IfOk result (λ cs. given p cs.0 ++ given p cs.1
            ≡ map (extended (moves_of self.now.moves)) (r.next g (state_of self.now p))) }
    {
        let entered = self.enter(arena, round)?;
        if !may_skip(round.kind) {
            return Ok((Some(entered), None));
        }
        let made = Move::Skip { body: round.body };
        let skipped = self.choice(arena, round.after, self.frames, made, None)?;
        Ok((Some(entered), Some(skipped)))
    }

    // The thread that goes on with the repetition after an iteration, if it may, and the one after
    // the repetition.
    fn after_round(
        &self,
        arena: &'a Bump,
        round: Round<'a>,
        around: Option<&'a Rung<'a>>,
        place: &Place<'a>,
    ) -> Result<Choices<'a>, AllocError>
        requires items { self.now.items.now ≡ [] }
        requires frames { frames_in self.now.frames ≡ InRound round ∷ frames_in around }
        ensures { (g : Grammar) → let p = place_of place.now in
            IfOk result (λ cs. given p cs.0 ++ given p cs.1
            ≡ map (extended (moves_of self.now.moves)) (r.next g (state_of self.now p))) }
    {
        let left = self.choice(arena, round.after, around, Move::Leave, None)?;
        if !may_go_on(round, place) {
            return Ok((None, Some(left)));
        }
        let further = self.further(arena, round, around)?;
        Ok((Some(further), Some(left)))
    }

    // The next moves at the end of the ops of this frame. `around` are the frames around it.
    fn choices_after(
        &self,
        arena: &'a Bump,
        frame: Frame<'a>,
        around: Option<&'a Rung<'a>>,
        place: &Place<'a>,
    ) -> Result<Choices<'a>, AllocError>
        requires items { self.now.items.now ≡ [] }
        requires frames { frames_in self.now.frames ≡ frame ∷ frames_in around }
        ensures { (g : Grammar) → let p = place_of place.now in
            IfOk result (λ cs. given p cs.0 ++ given p cs.1
            ≡ map (extended (moves_of self.now.moves)) (r.next g (state_of self.now p))) }
    {
        match frame {
            Frame::InRound(round) => {
                let choices = self.after_round(arena, round, around, place)?;
                Ok(choices)
            }
            _ => {
                let choice = self.choice_after(arena, frame, around, place)?;
                Ok((choice, None))
            }
        }
    }

    /// The next moves, at most two, each with the thread after it.
    pub fn choices<G: FragmentGrammar>(
        &self,
        arena: &'a Bump,
        grammar: &G,
        place: &Place<'a>,
    ) -> Result<Choices<'a>, AllocError>
        ensures { let p = place_of place.now in
            IfOk result (λ cs. given p cs.0 ++ given p cs.1
            ≡ map (extended (moves_of self.now.moves)) (r.next (G.answer grammar.now)
            (state_of self.now p))) }
    {
        let Some((op, rest)) = self.items.split_first() else {
            let Some(rung) = self.frames else {
                return Ok((None, None));
            };
            let choices = self.choices_after(arena, rung.frame, rung.around, place)?;
            return Ok(choices);
        };
        match round_of(op, rest) {
            Some(round) => {
                let choices = self.before_rounds(arena, round)?;
                Ok(choices)
            }
            None => {
                let choice = self.choice_at(arena, grammar, op, rest, place)?;
                Ok((choice, None))
            }
        }
    }
}

//! The way of a thread, as long as it is clear: the thread is settled without tasks. It decides
//! speed alone.
ghost use Rattle.std.specs.Prelude.{◌≡◌, List, [], ◌∷◌, true, IfOk, IfSome};
ghost use Rattle.mbe_rules.specs.Items.{Items};
ghost use Rattle.mbe_rules.specs.Ops.{items_of};
ghost use Rattle.mbe_matcher.specs.Grammar.{Grammar};
ghost use Rattle.mbe_matcher.specs.Places.{place_of};
ghost use Rattle.mbe_matcher.specs.Readings as r;
ghost use Rattle.mbe_matcher.specs.Settled.{IsGood, IsSound};
ghost use Rattle.mbe_matcher.specs.Threads.{state_of, frames_in, moves_of, between_of};
ghost use Rattle.mbe_matcher.specs.Threads.{repetition_of};
ghost use Rattle.mbe_matcher.specs.Steps.{further};
ghost use Rattle.mbe_matcher.specs.Ways.{IsDead, IsOnly, IsWay, LeadsAlone};
ghost use Rattle.mbe_matcher.specs.declared.thread.Frame.TheVariants.{InRound};

use crate::lookahead::{is_over, is_over_at};
use crate::position::Place;
use crate::step::{Choice, Waiting, may_go_on, may_skip, round_of};
use crate::thread::{Entry, Frame, Move, Round, Rung, Thread};
use bumpalo::Bump;
use fragment_grammar::FragmentGrammar;
use std::alloc::AllocError;

// What a thread leads to at a position.
#[derive(Clone, Copy, Drop)]
pub(crate) enum Way<'a> {
    // One thread waits.
    Waits(Waiting<'a>),
    // No thread waits.
    Stops,
    // The threads that wait are those that this one leads to.
    Open(Thread<'a>),
}

// What a thread leads to that was alone.
#[derive(Clone, Copy, Drop)]
pub(crate) enum Alone<'a> {
    // The only reading, or none.
    Done(Option<Option<&'a Entry<'a>>>),
    // The readings are those that this thread leads to.
    Open(Thread<'a>),
}

// Whether a repetition has no separator, and no move leads on from its next iteration here.
#[inline(always)]
fn is_over_again<'a>(round: Round<'a>, place: &Place<'a>) -> bool
    ensures { result ≡ true → (fs : List r.Frame) →
        IsDead (further (items_of round.entry.body.now) (between_of round.entry.separator)
        round.entry.kind (items_of round.entry.after.now) fs (place_of place.now)) }
{
    match round.separator {
        Some(_) => false,
        None => is_over_at(round.body, place),
    }
}

impl<'a> Thread<'a> {
    // The choice that enters or skips this repetition, which comes next, if only one of them
    // leads on.
    #[inline(always)]
    fn only_repetition(
        &self,
        arena: &'a Bump,
        round: Round<'a>,
        place: &Place<'a>,
    ) -> Result<Option<Choice<'a>>, AllocError>
        requires { items_of self.now.items.now ≡ repetition_of round }
        ensures { (g : Grammar) →
            IfOk result (λ o. IfSome o (λ c. IsOnly g (place_of place.now) self.now c)) }
    {
        if may_skip(round.kind) && !is_over(round.after, self.frames, place) {
            if !is_over_at(round.body, place) {
                return Ok(None);
            }
            let made = Move::Skip { body: round.body };
            let skipped = self.choice(arena, round.after, self.frames, made, None)?;
            return Ok(Some(skipped));
        }
        let entered = self.enter(arena, round)?;
        Ok(Some(entered))
    }

    // The choice after an iteration, if only one leads on.
    #[inline(always)]
    fn only_round(
        &self,
        arena: &'a Bump,
        round: Round<'a>,
        around: Option<&'a Rung<'a>>,
        place: &Place<'a>,
    ) -> Result<Option<Choice<'a>>, AllocError>
        requires items { self.now.items.now ≡ [] }
        requires frames { frames_in self.now.frames ≡ InRound round ∷ frames_in around }
        ensures { (g : Grammar) →
            IfOk result (λ o. IfSome o (λ c. IsOnly g (place_of place.now) self.now c)) }
    {
        if !may_go_on(round, place) || is_over_again(round, place) {
            let left = self.choice(arena, round.after, around, Move::Leave, None)?;
            return Ok(Some(left));
        }
        if !is_over(round.after, around, place) {
            return Ok(None);
        }
        let further = self.further(arena, round, around)?;
        Ok(Some(further))
    }

    // The choice at the end of the ops of this frame, if only one leads on. `around` are the frames
    // around it.
    #[inline(always)]
    fn only_after(
        &self,
        arena: &'a Bump,
        frame: Frame<'a>,
        around: Option<&'a Rung<'a>>,
        place: &Place<'a>,
    ) -> Result<Option<Choice<'a>>, AllocError>
        requires items { self.now.items.now ≡ [] }
        requires frames { frames_in self.now.frames ≡ frame ∷ frames_in around }
        ensures { (g : Grammar) →
            IfOk result (λ o. IfSome o (λ c. IsOnly g (place_of place.now) self.now c)) }
    {
        match frame {
            Frame::InRound(round) => {
                let choice = self.only_round(arena, round, around, place)?;
                Ok(choice)
            }
            _ => {
                let choice = self.choice_after(arena, frame, around, place)?;
                Ok(choice)
            }
        }
    }

    // The only choice of this thread that leads on, if it is clear which one this is.
    #[inline(always)]
    fn only_choice<G: FragmentGrammar>(
        &self,
        arena: &'a Bump,
        grammar: &G,
        place: &Place<'a>,
    ) -> Result<Option<Choice<'a>>, AllocError>
        ensures { IfOk result (λ o.
            IfSome o (λ c. IsOnly (G.answer grammar.now) (place_of place.now) self.now c)) }
    {
        let Some((op, rest)) = self.items.split_first() else {
            let Some(rung) = self.frames else {
                return Ok(None);
            };
            let choice = self.only_after(arena, rung.frame, rung.around, place)?;
            return Ok(choice);
        };
        match round_of(op, rest) {
            Some(round) => {
                let choice = self.only_repetition(arena, round, place)?;
                Ok(choice)
            }
            None => {
                let choice = self.choice_at(arena, grammar, op, rest, place)?;
                Ok(choice)
            }
        }
    }

    // What this thread leads to.
    #[inline(always)]
    pub(crate) fn way<G: FragmentGrammar>(
        &self,
        arena: &'a Bump,
        grammar: &G,
        place: &Place<'a>,
    ) -> Result<Way<'a>, AllocError>
        requires { IsGood (state_of self.now (place_of place.now)) }
        ensures { IfOk result (λ w. IsWay (G.answer grammar.now) (place_of place.now) self.now w) }
    {
        let mut now = *self;
        loop {
            if now.has_ended(place) {
                return Ok(Way::Waits(Waiting::Ended(now.moves)));
            }
            let Some(choice) = now.only_choice(arena, grammar, place)? else {
                if is_over(now.items, now.frames, place) {
                    return Ok(Way::Stops);
                }
                return Ok(Way::Open(now));
            };
            let thread = choice.thread;
            let Some(taken) = choice.taken else {
                now = thread;
                continue;
            };
            return Ok(Way::Waits(Waiting::Pending { thread, taken }));
        }
    }

    // What this thread leads to, which is alone. It goes on as far as its way is clear, and
    // `place` moves there.
    pub(crate) fn go_alone<G: FragmentGrammar>(
        &self,
        arena: &'a Bump,
        grammar: &G,
        place: &mut Place<'a>,
    ) -> Result<Alone<'a>, AllocError>
        requires { (pattern : Items) × IsSound pattern (state_of self.now (place_of place.old)) }
        ensures { IfOk result (λ a. LeadsAlone (G.answer grammar.now) (moves_of self.now.moves)
            (state_of self.now (place_of place.old)) (place_of place.new) a) }
    {
        let mut now = *self;
        loop {
            now.pass_rounds(arena, grammar, place)?;
            let waiting = match now.way(arena, grammar, place)? {
                Way::Open(thread) => return Ok(Alone::Open(thread)),
                Way::Stops => return Ok(Alone::Done(None)),
                Way::Waits(waiting) => waiting,
            };
            match waiting {
                Waiting::Ended(moves) => return Ok(Alone::Done(Some(moves))),
                Waiting::Pending { thread, taken } => {
                    place.pass(taken)?;
                    now = thread;
                }
            }
        }
    }
}

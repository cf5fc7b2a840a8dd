//! Repetitions of a single metavariable with no other way on: their iterations are consumed in one
//! loop. This decides speed alone.
ghost use Rattle.std.specs.Prelude.{◌≡◌, ◌≢◌, true, Some, IfOk, IfSome};
ghost use Rattle.tt.specs.Views.{forest};
ghost use Rattle.tt_data.specs.Forest.{empty};
ghost use Rattle.mbe_rules.specs.Ops.{items_of};
ghost use Rattle.mbe_matcher.specs.Fragments.{taken};
ghost use Rattle.mbe_matcher.specs.Places.{place_of};
ghost use Rattle.mbe_matcher.specs.Rounds.{AreSingle, IsLone, IsShut, HasLone};
ghost use Rattle.mbe_matcher.specs.Threads.{frames_of, moves_of, state_of};
ghost use Rattle.mbe_matcher.specs.Ways.{Follows};

use crate::fragments::fragment_trees;
use crate::position::{Place, after_first, parted};
use crate::thread::{Frame, Move, Round, Rung, Thread, extended_by_round, extended_by_rounds};
use bumpalo::Bump;
use fragment_grammar::FragmentGrammar;
use mbe_rules::{MetaVarKind, Op, RepeatKind};
use std::alloc::AllocError;
use symbols::Symbol;
use tt::{TokenTreesView, TtIter};

// The metavariable that is the whole body of a repetition, if the repetition has no separator, its
// operator is not `?`, and no op comes after it in its list.
#[inline(always)]
fn lone_variable<'a>(round: &Round<'a>) -> Option<(&'a Symbol, MetaVarKind)>
    ensures { IfSome result (λ v. IsLone round.now v.0.now v.1) }
{
    if round.separator.is_some() || !round.after.is_empty() {
        return None;
    }
    if round.kind == RepeatKind::ZeroOrOne {
        return None;
    }
    let Some((op, rest)) = round.body.split_first() else {
        return None;
    };
    if !rest.is_empty() {
        return None;
    }
    match op {
        Op::Var {
            name,
            kind: Some(kind),
            ..
        } => Some((name, *kind)),
        _ => None,
    }
}

// Whether only an end can come after the present list of ops: the closing of a group, or the end
// of the argument.
#[inline(always)]
fn is_shut<'a>(frames: Option<&'a Rung<'a>>) -> bool
    ensures { result ≡ true → IsShut (frames_of frames.entry) }
{
    match frames {
        None => true,
        Some(rung) => match rung.frame {
            Frame::InGroup { .. } => true,
            _ => false,
        },
    }
}

// How many trees an iteration takes at the head of a list, if it takes any.
#[inline(always)]
fn trees_of_round<G: FragmentGrammar>(
    grammar: &G,
    kind: MetaVarKind,
    trees: &TtIter<'_>,
) -> Option<usize>
    ensures { IfSome result (λ n. (taken (G.answer grammar.now) kind trees.now ≡ Some n) × (n ≢ 0)
        × (trees.now ≢ empty)) }
{
    if trees.is_empty() {
        return None;
    }
    match fragment_trees(grammar, kind, trees) {
        Some(0) => None,
        count => count,
    }
}

// Whether an iteration clearly takes a single tree at the head of a list. The grammar is not
// asked: for a longer fragment it would have to be asked again.
#[inline(always)]
fn is_single<G: FragmentGrammar>(grammar: &G, kind: MetaVarKind, trees: &TtIter<'_>) -> bool
    ensures { result ≡ true → (trees.now ≢ empty) × (taken (G.answer grammar.now) kind trees.now
        ≡ Some 1) }
{
    match kind {
        MetaVarKind::Tt | MetaVarKind::Ident | MetaVarKind::Literal => {
            match trees_of_round(grammar, kind, trees) {
                Some(count) => count == 1,
                None => false,
            }
        }
        _ => false,
    }
}

// The trees at the head of a list that are an iteration each, and the list after them.
#[inline(always)]
fn singles<'a, G: FragmentGrammar>(
    grammar: &G,
    kind: MetaVarKind,
    trees: &TtIter<'a>,
) -> Option<(TokenTreesView<'a>, TtIter<'a>)>
    ensures { IfSome result (λ r. AreSingle (G.answer grammar.now) kind trees.now (forest r.0)
        r.1) }
{
    if !is_single(grammar, kind, trees) {
        return None;
    }
    let mut rest = after_first(trees);
    while is_single(grammar, kind, &rest) {
        rest = after_first(&rest);
    }
    Some((rest.passed_since(trees.remaining()), rest))
}

impl<'a> Thread<'a> {
    // The metavariable of an iteration that has just ended, if only another iteration can follow
    // but for an end.
    #[inline(always)]
    fn lone_variable(&self) -> Option<(&'a Symbol, MetaVarKind)>
        ensures { IfSome result (λ v. HasLone (items_of self.now.items.now)
            (frames_of self.now.frames) v.0.now v.1) }
    {
        if !self.items.is_empty() {
            return None;
        }
        let Some(rung) = self.frames else {
            return None;
        };
        let Frame::InRound(round) = &rung.frame else {
            return None;
        };
        if !is_shut(rung.around) {
            return None;
        }
        lone_variable(round)
    }

    ghost use Rattle.std.specs.Prelude.{List, OnOk};
    ghost use Rattle.mbe_matcher.specs.Going.{Goes, IsFewer, left_in};
    ghost use Rattle.mbe_matcher.specs.Readings as r;

    // Passes the next iterations that take a single tree each. `false` if there are none.
    #[inline(always)]
    fn pass_singles<G: FragmentGrammar>(
        &mut self,
        arena: &'a Bump,
        grammar: &G,
        name: &'a Symbol,
        kind: MetaVarKind,
        place: &mut Place<'a>,
    ) -> Result<bool, AllocError>
        ensures passed { (ms : List r.Move) (s : r.State) → Goes (G.answer grammar.now) name.now
            kind ms s self.old place.old →
            OnOk result (Goes (G.answer grammar.now) name.now kind ms s self.new place.new) }
        ensures fewer { IfOk result (λ some. IsFewer some (left_in place.new) (left_in place.old)) }
    {
        let Some((trees, rest)) = singles(grammar, kind, &place.rest) else {
            return Ok(false);
        };
        self.moves = extended_by_rounds(arena, self.moves, name, kind, trees)?;
        place.rest = rest;
        Ok(true)
    }

    // Passes one iteration. `false` if there is none.
    #[inline(always)]
    fn pass_round<G: FragmentGrammar>(
        &mut self,
        arena: &'a Bump,
        grammar: &G,
        name: &'a Symbol,
        kind: MetaVarKind,
        place: &mut Place<'a>,
    ) -> Result<bool, AllocError>
        ensures passed { (ms : List r.Move) (s : r.State) → Goes (G.answer grammar.now) name.now
            kind ms s self.old place.old →
            OnOk result (Goes (G.answer grammar.now) name.now kind ms s self.new place.new) }
        ensures fewer { IfOk result (λ some. IsFewer some (left_in place.new) (left_in place.old)) }
    {
        let Some(count) = trees_of_round(grammar, kind, &place.rest) else {
            return Ok(false);
        };
        let (trees, rest) = parted(&place.rest, count);
        let made = Move::Fragment { name, kind, trees };
        self.moves = extended_by_round(arena, self.moves, made)?;
        place.rest = rest;
        Ok(true)
    }

    // Goes on by as many iterations as are clearly the only way on.
    pub(crate) fn pass_rounds<G: FragmentGrammar>(
        &mut self,
        arena: &'a Bump,
        grammar: &G,
        place: &mut Place<'a>,
    ) -> Result<(), AllocError>
        ensures { OnOk result (Follows (G.answer grammar.now) (moves_of self.old.moves)
            (state_of self.old (place_of place.old))
            (moves_of self.new.moves) (state_of self.new (place_of place.new))) }
    {
        let Some((name, kind)) = self.lone_variable() else {
            return Ok(());
        };
        let mut more = true;
        while more {
            let some = self.pass_singles(arena, grammar, name, kind, place)?;
            more = self.pass_round(arena, grammar, name, kind, place)? || some;
        }
        Ok(())
    }
}

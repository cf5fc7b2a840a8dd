//! Why a matcher does not match an argument: where all partial readings stop.
ghost use Rattle.std.specs.Prelude.{◌≡◌, ◌↔◌, ◌≤◌, IfOk, Some, false, is_some, true};
ghost use Rattle.fragment_grammar.specs.Steps.{steps};
ghost use Rattle.tt.specs.Views.{forest};
ghost use Rattle.mbe_rules.specs.Items.{has_empty_round};
ghost use Rattle.mbe_rules.specs.Ops.{items_of};
ghost use Rattle.mbe_matcher.specs.Paths.{IsAmong};
ghost use Rattle.mbe_matcher.specs.Places.{place_of};
ghost use Rattle.mbe_matcher.specs.Readings.{the_reading};
ghost use Rattle.mbe_matcher.specs.Settled.{IsSoundAt};
ghost use Rattle.mbe_matcher.specs.Units as u;
ghost use Rattle.mbe_matcher.specs.Waiting.{Each};
ghost use Rattle.mbe_explain.specs.Distances.{span_before_end};
ghost use Rattle.mbe_explain.specs.Searches.{IsNearWant, come_to};
ghost use Rattle.mbe_explain.specs.Stops as spec;
ghost use Rattle.mbe_explain.specs.Stops.{HasTwoReadings, IsFirstClash, IsUnreadAt, IsWantedAt};
ghost use Rattle.mbe_explain.specs.Surveys.{comes_of, kind_at_end};
ghost use Rattle.mbe_explain.specs.Wants.{wants_of};
ghost use Rattle.mbe_explain.specs.declared.explain.StopKind.TheVariants as kind;

use crate::distance::{advanced, span_before_end};
use crate::search::wanted_at;
use crate::step::Step;
use crate::survey::{Survey, first_taken, has_clash};
use crate::wanted::Wanted;
use bumpalo::Bump;
use fragment_grammar::steps;
use mbe_matcher::{FragmentGrammar, Place};
use mbe_rules::Op;
use std::alloc::{AllocError, Global};
use tt::{Span, TokenTreesView};

/// Why the partial readings of an argument stop.
#[derive(Clone, Copy, PartialEq, Eq, Debug)]
pub enum StopKind {
    /// They do not: exactly one reading uses up the argument, without a clash.
    Matches,
    /// None can go on, and none has used up the argument.
    Unread,
    /// One consumes a fragment while another consumes something too.
    Ambiguous,
    /// More than one use up the argument.
    TwoReadings,
}

/// Where the partial readings of an argument stop, and why.
#[derive(Drop)]
pub struct Stop<'a> {
    pub kind: StopKind,
    /// The furthest position; or the first one at which there is a clash.
    pub place: Place<'a>,
    /// How many steps of the argument are left there: each leaf, opening and closing is one.
    pub left: usize,
    /// The span of the token there: of a leaf, an opening or a closing. `None` at the end of the
    /// argument.
    pub at: Option<Span>,
    /// What the matcher has to read there, by any partial reading that comes there.
    pub wanted: Vec<Wanted<'a>>,
}

// Where the partial readings stop, why, and those that have come there.
#[derive(Drop)]
struct Found<'a> {
    kind: StopKind,
    place: Place<'a>,
    // How many steps are left there.
    left: usize,
    entries: Vec<Step<'a>>,
}

// The kind where nothing waits but what has ended.
fn kind_at_end(waiting: &[Step<'_>]) -> StopKind
    ensures { result ≡ kind_at_end waiting.now }
{
    match waiting {
        [] => StopKind::Unread,
        [_] => StopKind::Matches,
        _ => StopKind::TwoReadings,
    }
}

// Where and why all partial readings stop.
fn find<'a, G: FragmentGrammar>(
    alloc: Global,
    arena: &'a Bump,
    grammar: &G,
    pattern: &'a [Op],
    argument: TokenTreesView<'a>,
) -> Result<Found<'a>, AllocError>
    requires { has_empty_round (items_of pattern.now) ≡ false }
    ensures matches { let gr = G.answer grammar.now in IfOk result (λ f. f.kind ≡ kind.Matches
        ↔ is_some (the_reading gr (items_of pattern.now) (forest argument.entry)) ≡ true) }
    ensures unread { let gr = G.answer grammar.now in IfOk result (λ f. f.kind ≡ kind.Unread →
        IsUnreadAt gr (items_of pattern.now) (forest argument.entry) (place_of f.place)) }
    ensures ambiguous { let gr = G.answer grammar.now in IfOk result (λ f. f.kind ≡ kind.Ambiguous →
        IsFirstClash gr (items_of pattern.now) (forest argument.entry) (place_of f.place)) }
    ensures two { let gr = G.answer grammar.now in IfOk result (λ f. f.kind ≡ kind.TwoReadings →
        HasTwoReadings gr (items_of pattern.now) (forest argument.entry)) }
    ensures sound { IfOk result (λ f.
        Each (IsSoundAt (items_of pattern.now)) (comes_of (place_of f.place) f.entries.items)) }
    ensures near { let gr = G.answer grammar.now in
        IfOk result (λ f. let p = place_of f.place in (w : spec.Wanted) →
        IsNearWant gr (come_to p f.entries.items) w
        ↔ IsWantedAt gr (items_of pattern.now) (forest argument.entry) p w) }
    ensures left { IfOk result (λ f. f.left ≡ u.left (place_of f.place)) }
    ensures fewer { IfOk result (λ f. f.left ≤ steps (forest argument.entry)) }
{
    let mut place = Place::start(alloc, argument);
    let mut left = steps(argument);
    let mut found = Survey::new(alloc);
    let mut entries = Vec::new(alloc);
    entries.push(Step::start(pattern))?;
    loop {
        found.advance_all(arena, grammar, &entries, &place)?;
        if has_clash(&found.waiting) {
            let kind = StopKind::Ambiguous;
            return Ok(Found {
                kind,
                place,
                left,
                entries,
            });
        }
        let Some(taken) = first_taken(&found.waiting) else {
            let kind = kind_at_end(&found.waiting);
            return Ok(Found {
                kind,
                place,
                left,
                entries,
            });
        };
        let (after, passed) = advanced(place, taken)?;
        place = after;
        left -= passed;
        found.hand_over(&mut entries);
    }
}

/// Where and why all partial readings of an argument by a matcher stop.
///
/// No repetition of the matcher may iterate without end. At most two threads of one state go on,
/// as in `match_pattern`.
///
/// # Errors
///
/// `AllocError` if memory is refused.
pub fn explain_pattern<'a, G: FragmentGrammar>(
    alloc: Global,
    arena: &'a Bump,
    grammar: &G,
    pattern: &'a [Op],
    argument: TokenTreesView<'a>,
) -> Result<Stop<'a>, AllocError>
    requires { has_empty_round (items_of pattern.now) ≡ false }
    ensures matches { let gr = G.answer grammar.now in IfOk result (λ s. s.kind ≡ kind.Matches
        ↔ is_some (the_reading gr (items_of pattern.now) (forest argument.entry)) ≡ true) }
    ensures unread { let gr = G.answer grammar.now in IfOk result (λ s. s.kind ≡ kind.Unread →
        IsUnreadAt gr (items_of pattern.now) (forest argument.entry) (place_of s.place)) }
    ensures ambiguous { let gr = G.answer grammar.now in IfOk result (λ s. s.kind ≡ kind.Ambiguous →
        IsFirstClash gr (items_of pattern.now) (forest argument.entry) (place_of s.place)) }
    ensures two { let gr = G.answer grammar.now in IfOk result (λ s. s.kind ≡ kind.TwoReadings →
        HasTwoReadings gr (items_of pattern.now) (forest argument.entry)) }

    // Whatever the kind: exactly what is wanted there.
    ensures wanted { let gr = G.answer grammar.now in IfOk result (λ s. (w : spec.Wanted) →
        IsAmong (Some w) (wants_of s.wanted.items)
        ↔ IsWantedAt gr (items_of pattern.now) (forest argument.entry) (place_of s.place) w) }
    ensures left { IfOk result (λ s. s.left ≡ u.left (place_of s.place)) }
    ensures at { IfOk result (λ s.
        s.at ≡ span_before_end (forest argument.entry) (u.left (place_of s.place))) }
{
    let Found {
        kind,
        place,
        left,
        entries,
    } = find(alloc, arena, grammar, pattern, argument)?;
    let wanted = wanted_at(alloc, arena, grammar, &entries, &place)?;
    let at = span_before_end(argument, left);
    Ok(Stop {
        kind,
        place,
        left,
        at,
        wanted,
    })
}

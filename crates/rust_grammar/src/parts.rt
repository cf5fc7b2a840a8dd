//! One turn of the interpreter: into a node, or out of an open one.
ghost use Rattle.std.specs.Prelude.{◌≡◌, ◌<◌, ◌+◌, suc, ◌∷◌, true, Bool, IsTrue, IfSome, List};
ghost use Rattle.std.specs.Prelude.{nat_le};
ghost use Rattle.tt.specs.Views.{forest};
ghost use Rattle.tt_data.specs.Editions.{year_of};
ghost use Rattle.tt_data.specs.declared.edition.Edition.{Edition};
ghost use Rattle.rust_grammar.specs.Expressions.{decided, found, nothing_if, or_nothing, without};
ghost use Rattle.rust_grammar.specs.Frames.{Frame, frame, has_room};
ghost use Rattle.rust_grammar.specs.Table.{comes_at, is_sound_token, token_of, node_at};
ghost use Rattle.rust_grammar.specs.Table.{expression_at, name_at, IsSound};
ghost use Rattle.rust_grammar.specs.Rules.{says};
ghost use Rattle.rust_grammar.specs.Tokens.{token_at};
ghost use Rattle.rust_grammar.specs.Turns.{on, GoesOn, IsAsGood, IsOption, Leaves};
ghost use Rattle.rust_grammar.specs.declared.node.Node.TheVariants as node;
ghost use Rattle.rust_grammar.specs.declared.parts.Turn.TheVariants as turn;

use crate::cursor::Cursor;
use crate::frames::Frames;
use crate::names::year_of;
use crate::node::{At, Node, Token};
use crate::nodes::{read_node, root_of};
use crate::outcome::Outcome;
use crate::tokens::behind;
use tt::TokenTreesView;
use tt_data::Edition;

/// How the reading goes on.
#[derive(Drop)]
pub(crate) enum Turn<'a> {
    /// With the node at a place, before these trees.
    Node(At, Cursor<'a>),
    /// Behind a node, of which this came.
    Came(Outcome<'a>),
}

// What comes of a token.
fn of_token<'a>(edition: Edition, token: Token, trees: Cursor<'a>) -> Outcome<'a>
    requires { IsTrue (is_sound_token token) }
    ensures { result ≡ found (token_at edition (token_of token) trees.entry) }
{
    match behind(edition, token, trees.trees()) {
        Some(rest) => Outcome::Fits(Cursor::new(rest)),
        None => Outcome::Misses,
    }
}

// Nothing is taken from an edition on.
fn since<'a>(first: Edition, edition: Edition, trees: Cursor<'a>) -> Outcome<'a>
    ensures { result ≡ nothing_if (nat_le (year_of first) (year_of edition)) trees.entry }
{
    if year_of(first) <= year_of(edition) {
        Outcome::Fits(trees)
    } else {
        Outcome::Misses
    }
}

// What was found, or else nothing is taken.
fn or_nothing<'a>(found: Outcome<'a>, trees: Cursor<'a>) -> Outcome<'a>
    ensures { result ≡ or_nothing found.entry trees.entry }
{
    match found {
        Outcome::Misses => Outcome::Fits(trees),
        other => other,
    }
}

// What was found, or else a fault.
fn decided(found: Outcome<'_>) -> Outcome<'_>
    ensures { result ≡ decided found.entry }
{
    match found {
        Outcome::Misses => Outcome::Faults,
        other => other,
    }
}

// Nothing is taken where nothing was found.
fn without<'a>(found: Outcome<'a>, trees: Cursor<'a>) -> Outcome<'a>
    ensures { result ≡ without found.entry trees.entry }
{
    match found {
        Outcome::Fits(_) => Outcome::Misses,
        Outcome::Misses => Outcome::Fits(trees),
        Outcome::Faults => Outcome::Faults,
    }
}

// So many nodes further on.
fn on(at: At, places: u16) -> At
    requires { at.place + places < 1564 }
    ensures { result ≡ on at places }
{
    At {
        place: at.place + places,
        levels: at.levels,
    }
}

// What comes of a token.
#[inline]
fn if_token<'a>(edition: Edition, at: At, wanted: Token, trees: &Cursor<'a>) -> Option<Outcome<'a>>
    requires node { node.Token wanted ≡ node_at at.place }
    requires sound { IsSound at.place (node.Token wanted) }
    requires within { at.place < 1564 }
    ensures { IfSome result (λ o. o ≡ comes_at edition at.levels at.place trees.now) }
{
    Some(of_token(edition, wanted, trees.copied()))
}

// What comes of a node that needs no other one: a token, an edition, or what the class of the first
// tree leaves out.
#[inline]
fn if_plain<'a>(edition: Edition, at: At, trees: &Cursor<'a>) -> Option<Outcome<'a>>
    requires { at.place < 1564 }
    ensures { IfSome result (λ o. o ≡ comes_at edition at.levels at.place trees.now) }
{
    match read_node(at.place) {
        Node::Token(wanted) => if_token(edition, at, wanted, trees),
        Node::Since(first) => Some(since(first, edition, trees.copied())),
        Node::Many => if_left_out(at, trees),
        Node::Maybe => if_left_out(at, trees),
        _ => None,
    }
}

// Nothing is taken where the class of the first tree rules out the part of a node that may be left
// out.
#[inline]
fn if_left_out<'a>(at: At, trees: &Cursor<'a>) -> Option<Outcome<'a>>
    requires node { IsOption (node_at at.place) }
    requires sound { at.place + 1 < 1564 }
    requires within { at.place < 1564 }
    ensures { (ed : Edition) → IfSome result (λ o. o ≡ comes_at ed at.levels at.place trees.now) }
{
    if trees.misses(at.place + 1, at.levels) {
        return Some(Outcome::Fits(trees.copied()));
    }
    None
}

// What comes of a node that needs no other one, or that the class of the first tree rules out.
#[inline]
fn at_once<'a>(edition: Edition, at: At, trees: &Cursor<'a>) -> Option<Outcome<'a>>
    requires { at.place < 1564 }
    ensures { IfSome result (λ o. o ≡ comes_at edition at.levels at.place trees.now) }
{
    if trees.misses(at.place, at.levels) {
        return Some(Outcome::Misses);
    }
    if_plain(edition, at, trees)
}

// The node that decides: the first one of a rule, and behind alternatives that the class of the
// first tree rules out the next one.
#[inline]
fn deciding(first: At, trees: &Cursor<'_>) -> At
    requires { first.place < 1564 }
    ensures { IsAsGood first trees.now result }
{
    let mut at = first;
    'nodes: loop {
        match read_node(at.place) {
            Node::Or(behind) => {
                if !trees.misses(at.place + 1, at.levels) {
                    return at;
                }
                at = on(at, behind);
            }
            Node::Rule(rule) => {
                if at.levels == 0 {
                    return at;
                }
                at = root(at, rule);
            }
            _ => return at,
        }
    }
}

// The first node of a rule, with one level fewer.
fn root(at: At, rule: u8) -> At
    requires known { rule < 94 }
    requires some { 0 < at.levels }
    ensures place { expression_at result.place ≡ says (name_at rule) }
    ensures levels { at.levels ≡ suc result.levels }
    ensures within { result.place < 1564 }
{
    At {
        place: root_of(rule),
        levels: at.levels - 1,
    }
}

#[inline]
fn read_then<'a>(
    edition: Edition,
    at: At,
    behind: u16,
    trees: Cursor<'a>,
    frames: &mut Frames<'a>,
) -> Turn<'a>
    requires node { node.Then behind ≡ node_at at.place }
    requires sound { IsSound at.place (node.Then behind) }
    requires within { at.place < 1564 }
    requires room { has_room frames.old ≡ true }
    ensures { GoesOn edition (turn.Node at trees.entry) frames.old result frames.new }
{
    match at_once(edition, on(at, 1), &trees) {
        Some(Outcome::Fits(next)) => Turn::Node(on(at, behind), next),
        Some(Outcome::Misses) => Turn::Came(Outcome::Misses),
        Some(Outcome::Faults) => Turn::Came(Outcome::Faults),
        None => {
            frames.open(at);
            Turn::Node(on(at, 1), trees)
        }
    }
}

// An alternative that is the last which may fit is not opened.
#[inline]
fn read_or<'a>(
    edition: Edition,
    at: At,
    behind: u16,
    trees: Cursor<'a>,
    frames: &mut Frames<'a>,
) -> Turn<'a>
    requires node { node.Or behind ≡ node_at at.place }
    requires sound { IsSound at.place (node.Or behind) }
    requires within { at.place < 1564 }
    requires room { has_room frames.old ≡ true }
    ensures { GoesOn edition (turn.Node at trees.entry) frames.old result frames.new }
{
    match if_plain(edition, on(at, 1), &trees) {
        Some(Outcome::Misses) => Turn::Node(on(at, behind), trees),
        Some(Outcome::Fits(next)) => Turn::Came(Outcome::Fits(next)),
        Some(Outcome::Faults) => Turn::Came(Outcome::Faults),
        None => {
            if trees.misses(at.place + behind, at.levels) {
                return Turn::Node(on(at, 1), trees);
            }
            frames.open_before(at, trees.trees());
            Turn::Node(on(at, 1), trees)
        }
    }
}

#[inline]
fn read_many<'a>(edition: Edition, at: At, trees: Cursor<'a>, frames: &mut Frames<'a>) -> Turn<'a>
    requires node { node.Many ≡ node_at at.place }
    requires sound { IsSound at.place node.Many }
    requires within { at.place < 1564 }
    requires room { has_room frames.old ≡ true }
    ensures { GoesOn edition (turn.Node at trees.entry) frames.old result frames.new }
{
    match at_once(edition, on(at, 1), &trees) {
        Some(Outcome::Fits(next)) => Turn::Node(at, next),
        Some(Outcome::Misses) => Turn::Came(Outcome::Fits(trees)),
        Some(Outcome::Faults) => Turn::Came(Outcome::Faults),
        None => {
            frames.open_before(at, trees.trees());
            Turn::Node(on(at, 1), trees)
        }
    }
}

#[inline]
fn read_maybe<'a>(edition: Edition, at: At, trees: Cursor<'a>, frames: &mut Frames<'a>) -> Turn<'a>
    requires node { node.Maybe ≡ node_at at.place }
    requires sound { IsSound at.place node.Maybe }
    requires within { at.place < 1564 }
    requires room { has_room frames.old ≡ true }
    ensures { GoesOn edition (turn.Node at trees.entry) frames.old result frames.new }
{
    match at_once(edition, on(at, 1), &trees) {
        Some(found) => Turn::Came(or_nothing(found, trees)),
        None => {
            frames.open_before(at, trees.trees());
            Turn::Node(on(at, 1), trees)
        }
    }
}

fn read_unless<'a>(edition: Edition, at: At, trees: Cursor<'a>, frames: &mut Frames<'a>) -> Turn<'a>
    requires node { node.Unless ≡ node_at at.place }
    requires sound { IsSound at.place node.Unless }
    requires within { at.place < 1564 }
    requires room { has_room frames.old ≡ true }
    ensures { GoesOn edition (turn.Node at trees.entry) frames.old result frames.new }
{
    match at_once(edition, on(at, 1), &trees) {
        Some(found) => Turn::Came(without(found, trees)),
        None => {
            frames.open_before(at, trees.trees());
            Turn::Node(on(at, 1), trees)
        }
    }
}

fn read_rule<'a>(at: At, rule: u8, trees: Cursor<'a>) -> Turn<'a>
    requires node { node.Rule rule ≡ node_at at.place }
    requires sound { IsSound at.place (node.Rule rule) }
    requires within { at.place < 1564 }
    ensures { (ed : Edition) (frs : List Frame) →
        GoesOn ed (turn.Node at trees.entry) frs result frs }
{
    if at.levels == 0 {
        return Turn::Came(Outcome::Faults);
    }
    Turn::Node(root(at, rule), trees)
}

// A token.
fn read_token<'a>(edition: Edition, at: At, wanted: Token, trees: Cursor<'a>) -> Turn<'a>
    requires node { node.Token wanted ≡ node_at at.place }
    requires sound { IsSound at.place (node.Token wanted) }
    requires within { at.place < 1564 }
    ensures { (frs : List Frame) → GoesOn edition (turn.Node at trees.entry) frs result frs }
{
    Turn::Came(of_token(edition, wanted, trees))
}

// Goes into a node.
#[inline]
fn read<'a>(edition: Edition, at: At, trees: Cursor<'a>, frames: &mut Frames<'a>) -> Turn<'a>
    requires within { at.place < 1564 }
    requires room { has_room frames.old ≡ true }
    ensures { GoesOn edition (turn.Node at trees.entry) frames.old result frames.new }
{
    match read_node(at.place) {
        Node::Token(wanted) => read_token(edition, at, wanted, trees),
        Node::Since(first) => Turn::Came(since(first, edition, trees)),
        Node::Then(behind) => read_then(edition, at, behind, trees, frames),
        Node::Or(behind) => read_or(edition, at, behind, trees, frames),
        Node::Many => read_many(edition, at, trees, frames),
        Node::Maybe => read_maybe(edition, at, trees, frames),
        Node::Surely => {
            frames.open(at);
            Turn::Node(on(at, 1), trees)
        }
        Node::Unless => read_unless(edition, at, trees, frames),
        Node::Rule(rule) => read_rule(at, rule, trees),
    }
}

// Goes into a node, by the one that decides.
#[inline]
fn enter<'a>(edition: Edition, at: At, trees: Cursor<'a>, frames: &mut Frames<'a>) -> Turn<'a>
    requires within { at.place < 1564 }
    requires room { has_room frames.old ≡ true }
    ensures { GoesOn edition (turn.Node at trees.entry) frames.old result frames.new }
{
    read(edition, deciding(at, &trees), trees, frames)
}

/// Goes into nodes, until one is behind, or there is no room for another open node.
#[inline]
pub(crate) fn descend<'a>(
    edition: Edition,
    start: At,
    trees: Cursor<'a>,
    frames: &mut Frames<'a>,
) -> Turn<'a>
    requires within { start.place < 1564 }
    requires room { has_room frames.old ≡ true }
    ensures { GoesOn edition (turn.Node start trees.entry) frames.old result frames.new }
{
    let mut at = start;
    let mut rest = trees;
    'nodes: loop {
        match enter(edition, at, rest, frames) {
            Turn::Node(next, left) => {
                if frames.is_full() {
                    return Turn::Node(next, left);
                }
                at = next;
                rest = left;
            }
            Turn::Came(found) => return Turn::Came(found),
        }
    }
}

// Behind the first of two parts.
fn leave_then<'a>(at: At, behind: u16, found: Outcome<'a>) -> Turn<'a>
    requires node { node.Then behind ≡ node_at at.place }
    requires sound { IsSound at.place (node.Then behind) }
    ensures { (ed : Edition) (fr : Frame) (frs : List Frame) → fr.at ≡ at →
        GoesOn ed (turn.Came found.entry) (fr ∷ frs) result frs }
{
    match found {
        Outcome::Fits(next) => Turn::Node(on(at, behind), next),
        Outcome::Misses => Turn::Came(Outcome::Misses),
        Outcome::Faults => Turn::Came(Outcome::Faults),
    }
}

// Behind the first of two alternatives.
fn leave_or<'a>(at: At, behind: u16, found: Outcome<'a>, trees: TokenTreesView<'a>) -> Turn<'a>
    requires node { node.Or behind ≡ node_at at.place }
    requires sound { IsSound at.place (node.Or behind) }
    ensures { Leaves at (forest trees.entry) found.entry result }
{
    match found {
        Outcome::Misses => Turn::Node(on(at, behind), Cursor::new(trees.iter())),
        Outcome::Fits(next) => Turn::Came(Outcome::Fits(next)),
        Outcome::Faults => Turn::Came(Outcome::Faults),
    }
}

// Behind a round.
fn leave_many<'a>(at: At, found: Outcome<'a>, trees: TokenTreesView<'a>) -> Turn<'a>
    requires node { node.Many ≡ node_at at.place }
    requires within { at.place < 1564 }
    ensures { Leaves at (forest trees.entry) found.entry result }
{
    match found {
        Outcome::Fits(next) => Turn::Node(at, next),
        Outcome::Misses => Turn::Came(Outcome::Fits(Cursor::new(trees.iter()))),
        Outcome::Faults => Turn::Came(Outcome::Faults),
    }
}

// Behind what may be left out.
fn leave_maybe<'a>(at: At, found: Outcome<'a>, trees: TokenTreesView<'a>) -> Turn<'a>
    requires node { node.Maybe ≡ node_at at.place }
    ensures { Leaves at (forest trees.entry) found.entry result }
{
    match found {
        Outcome::Misses => Turn::Came(Outcome::Fits(Cursor::new(trees.iter()))),
        Outcome::Fits(next) => Turn::Came(Outcome::Fits(next)),
        Outcome::Faults => Turn::Came(Outcome::Faults),
    }
}

/// Goes on with an open node, of whose first part this came.
#[inline]
pub(crate) fn leave<'a>(at: At, found: Outcome<'a>, trees: TokenTreesView<'a>) -> Turn<'a>
    requires within { at.place < 1564 }
    ensures { Leaves at (forest trees.entry) found.entry result }
{
    match read_node(at.place) {
        Node::Then(behind) => leave_then(at, behind, found),
        Node::Or(behind) => leave_or(at, behind, found, trees),
        Node::Many => leave_many(at, found, trees),
        Node::Maybe => leave_maybe(at, found, trees),
        Node::Surely => Turn::Came(decided(found)),
        Node::Unless => Turn::Came(without(found, Cursor::new(trees.iter()))),
        Node::Token(_) => Turn::Came(found),
        Node::Since(_) => Turn::Came(found),
        Node::Rule(_) => Turn::Came(found),
    }
}

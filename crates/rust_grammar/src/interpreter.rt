//! The interpreter of the table.
ghost use Rattle.std.specs.Prelude.{◌≡◌, ◌<◌};
ghost use Rattle.rust_grammar.specs.Answer.{most_levels, rules_to};
ghost use Rattle.rust_grammar.specs.Table.{comes_at, name_at};

use crate::cursor::Cursor;
use crate::frames::Frames;
use crate::node::At;
use crate::nodes::root_of;
use crate::outcome::Outcome;
use crate::parts::{Turn, descend, leave};
use tt_data::Edition;

// What comes of the node at a place.
//
// It calls itself only where there is no room for another open node.
fn come_of<'a>(edition: Edition, start: At, trees: Cursor<'a>) -> Outcome<'a>
    requires { start.place < 1564 }
    ensures { result ≡ comes_at edition start.levels start.place trees.entry }
{
    let mut frames = Frames::new();
    let mut turn = Turn::Node(start, trees);
    'turns: loop {
        match turn {
            Turn::Node(at, rest) => {
                if frames.is_full() {
                    turn = Turn::Came(come_of(edition, at, rest));
                } else {
                    turn = descend(edition, at, rest, &mut frames);
                }
            }
            Turn::Came(found) => match frames.close() {
                Some((at, kept)) => turn = leave(at, found, kept),
                None => return found,
            },
        }
    }
}

// The most rules that may stand in one another.
#[tactic(auto, unfolding(crate::specs::Answer::most_levels))]
fn most_levels() -> u16
    ensures { result ≡ most_levels }
{
    4096
}

// What comes of a rule that may refer to rules this many levels deep.
fn come_of_levels<'a>(edition: Edition, rule: u8, levels: u16, trees: &Cursor<'a>) -> Outcome<'a>
    requires { rule < 94 }
    ensures { result ≡ rules_to edition levels (name_at rule) trees.now }
{
    if levels == 0 {
        return Outcome::Faults;
    }
    let start = At {
        place: root_of(rule),
        levels: levels - 1,
    };
    come_of(edition, start, trees.copied())
}

/// What comes of a rule.
pub(crate) fn come_of_rule<'a>(edition: Edition, rule: u8, trees: &Cursor<'a>) -> Outcome<'a>
    requires { rule < 94 }
    ensures { result ≡ rules_to edition most_levels (name_at rule) trees.now }
{
    come_of_levels(edition, rule, most_levels(), trees)
}

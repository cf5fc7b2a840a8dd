//! What a caller can prove of any grammar, and tests of the small grammar and that of Rust.
//!
//! `behind_prefix` shows that the laws of a grammar suffice for a crate above: it goes as far as
//! the grammar says, without a check of how much remains.
#![tactic(auto)]

ghost use Rattle.std.specs.Prelude.{◌≡◌, length};
ghost use Rattle.tt.specs.Places.{steps_before};
ghost use Rattle.tt.specs.Views.{forest};
ghost use Rattle.tt_data.specs.Forest.{shape};

#[cfg(test)]
mod rust;
#[cfg(test)]
mod small;
#[cfg(test)]
mod trees;

use fragment_grammar::{FragmentGrammar, PrefixEntryPoint};
use tt::laws::walk_of_a_cursor;
use tt::{Cursor, TokenTreesView};

/// The position after the steps that the grammar takes of a list.
pub fn behind_prefix<'a, G: FragmentGrammar>(
    grammar: &G,
    entry: PrefixEntryPoint,
    input: TokenTreesView<'a>,
) -> Cursor<'a>
    ensures { length (steps_before result) ≡ (G.answer grammar.now entry (shape (forest input.entry))).tokens }
{
    walk_of_a_cursor();
    let mut left = grammar.prefix(entry, input).tokens;
    let mut cursor = input.cursor();
    while left > 0 {
        cursor.bump_or_end();
        left -= 1;
    }
    cursor
}

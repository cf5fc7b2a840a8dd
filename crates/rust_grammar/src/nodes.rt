//! The table of rules, read: its nodes, roots, words and sets.
ghost use Rattle.std.specs.Prelude.{◌≡◌, ◌<◌, ◌+◌, ◌*◌, ◌%◌, min, Some, slice_get, get_or, length};
ghost use Rattle.std.specs.Prelude.{[]};
ghost use Rattle.rust_grammar.specs.Classes.{sign_class};
ghost use Rattle.rust_grammar.specs.Starts.{starts_at};
ghost use Rattle.rust_grammar.specs.Rules.{says};
ghost use Rattle.rust_grammar.specs.Table.{expression_at, name_at, node_at, set_texts, word_text};
ghost use Rattle.rust_grammar.specs.Table.{letters, IsSound};
ghost use Rattle.rust_grammar.specs.declared.table.TheConstants.{IDENTS};
ghost use Rattle.std.specs.Prelude.{map};

use crate::node::Node;
use crate::table::{IDENTS, NODES, ROOTS, SETS, SIGNS, STARTS, WORDS};
use small_grammar::units::Operator;

// An element of a table.
fn element<T: Copy>(table: &[T], place: usize) -> T
    requires { place < length table.now }
    ensures { slice_get table.now place ≡ Some result }
{
    table[place]
}

/// The node at this place.
pub(crate) fn read_node(place: u16) -> Node
    requires { place < 1564 }
    ensures same { result ≡ node_at place }
    ensures sound { IsSound place result }
{
    element(&NODES, place as usize)
}

/// The place of a rule's first node.
pub(crate) fn root_of(rule: u8) -> u16
    requires { rule < 94 }
    ensures same { expression_at result ≡ says (name_at rule) }
    ensures within { result < 1564 }
{
    element(&ROOTS, rule as usize)
}

/// What the table says of the first trees of the node at this place.
pub(crate) fn starts_at(place: u16) -> u64
    requires { place < 1564 }
    ensures { result ≡ starts_at place }
{
    element(&STARTS, place as usize)
}

/// The class of an identifier whose text has this first byte and so many more.
pub(crate) fn class_of_ident(first: u8, more: usize) -> u8
    ensures { result ≡ get_or IDENTS (min more 15 * 32 + first % 32) 6 }
{
    element(&IDENTS, more.min(15) * 32 + (first % 32) as usize)
}

/// The class of a punct of this character.
pub(crate) fn class_of_sign(char: char) -> u8
    ensures { result ≡ sign_class char }
{
    element(&SIGNS, (char as usize).min(127))
}

// A text of a table.
fn text_in(texts: &[&'static str], place: usize) -> &'static str
    requires { place < length texts.now }
    ensures { result.now ≡ get_or (map (λ t. t.now) texts.now) place [] }
{
    texts[place]
}

// A set of a table.
fn set_in(sets: &[&'static [Operator]], place: usize) -> &'static [Operator]
    requires { place < length sets.now }
    ensures { map letters result.now ≡ get_or (map (λ s. map letters s.now) sets.now) place [] }
{
    sets[place]
}

/// A word of the table.
#[tactic(auto, unfolding(crate::specs::Table::word_text))]
pub(crate) fn text_of(word: u8) -> &'static str
    requires { word < 54 }
    ensures { result.now ≡ word_text word }
{
    text_in(&WORDS, word as usize)
}

/// A set of the table.
#[tactic(auto, unfolding(crate::specs::Table::set_texts))]
pub(crate) fn operators_of(set: u8) -> &'static [Operator]
    requires { set < 23 }
    ensures { map letters result.now ≡ set_texts set }
{
    set_in(&SETS, set as usize)
}

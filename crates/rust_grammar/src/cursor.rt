//! A place in a list of trees, with the class of the tree that comes first.
ghost use Rattle.std.specs.Prelude.{◌≡◌, ◌<◌, IsTrue};
ghost use Rattle.tt_data.specs.declared.edition.Edition.{Edition};
ghost use Rattle.rust_grammar.specs.Classes.{class_of, group_class, ident_class, sign_class};
ghost use Rattle.rust_grammar.specs.Table.{comes_at};
ghost use Rattle.rust_grammar.specs.declared.outcome.Outcome.TheVariants.{Misses};

use crate::nodes::{class_of_ident, class_of_sign, starts_at};
use std::marker::Model;
use tt::TtIter;
use tt_data::{DelimiterKind, LeafRef};

/// Trees that are left, and the class of the first. Contracts see it as the trees.
#[derive(Drop)]
pub struct Cursor<'a> {
    trees: TtIter<'a>,
    // As wide as the rest: the copies of what would pad a narrower field wait for each other.
    class: u64,
}

impl<'a> Model for Cursor<'a> {
    ghost use Rattle.std.specs.Prelude.{◌≡◌};
    ghost use Rattle.rust_grammar.specs.Classes.{class_of};
    ghost use Rattle.tt_data.specs.Coded.{forest_code};
    ghost use Rattle.tt_data.specs.Forest.{Forest};

    ghost Value = { Forest };

    ghost coded = { forest_code };

    ghost view = { λ c. c.trees };

    ghost invariant = { λ c. c.class ≡ class_of c.trees };
}

// The class of an identifier with this text.
fn ident_class(text: &str) -> u8
    ensures { result ≡ ident_class text.now }
{
    match text.as_bytes().split_first() {
        Some((first, more)) => class_of_ident(*first, more.len()),
        None => 6,
    }
}

fn group_class(kind: DelimiterKind) -> u8
    ensures { result ≡ group_class kind }
{
    match kind {
        DelimiterKind::Parenthesis => 2,
        DelimiterKind::Brace => 3,
        DelimiterKind::Bracket => 4,
        DelimiterKind::Invisible => 5,
    }
}

// The class of the first tree.
fn class_of(trees: &TtIter<'_>) -> u8
    ensures { result ≡ class_of trees.now }
{
    match trees.lent_leaf() {
        Some((LeafRef::Ident(ident), _)) => ident_class(ident.sym.as_str()),
        Some((LeafRef::Punct(punct), _)) => class_of_sign(punct.char),
        Some((LeafRef::Literal(_), _)) => 1,
        None => match trees.first_group() {
            Some((delimiter, _, _)) => group_class(delimiter.kind),
            None => 0,
        },
    }
}

impl<'a> Cursor<'a> {
    /// Before these trees.
    pub(crate) fn new(trees: TtIter<'a>) -> Cursor<'a>
        ensures { result ≡ trees.entry }
    {
        let class = class_of(&trees) as u64;
        Cursor { trees, class }
    }

    /// The trees that are left.
    pub(crate) fn trees(&self) -> &TtIter<'a>
        ensures { result.now ≡ self.now }
    {
        &self.trees
    }

    /// A second cursor at the same place.
    pub(crate) fn copied(&self) -> Cursor<'a>
        ensures { result ≡ self.now }
    {
        Cursor {
            trees: TtIter::copied(&self.trees),
            class: self.class,
        }
    }

    /// Whether the table tells by the class alone that the node at this place misses.
    pub(crate) fn misses(&self, place: u16, levels: u16) -> bool
        requires { place < 1564 }
        ensures { IsTrue result → (ed : Edition) → comes_at ed levels place self.now ≡ Misses }
    {
        let starts = starts_at(place);
        (starts >> self.class) & 1 == 0 && starts >> 60 <= levels as u64
    }
}

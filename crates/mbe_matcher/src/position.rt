//! Positions in an argument: the unit at a position, and the position after a move.
ghost use Rattle.std.specs.Prelude.{◌≡◌, IfOk, OnOk, Some, option_map, ◌-◌, []};
ghost use Rattle.tt.specs.Views.{forest};
ghost use Rattle.mbe_rules.specs.Ops.{separator_of};
ghost use Rattle.mbe_rules.specs.Text.{same_text, is_truth};
ghost use Rattle.mbe_rules.specs.Trees.{before, past};
ghost use Rattle.tt.specs.Glued.{characters};
ghost use Rattle.mbe_matcher.specs.Readings as r;
ghost use Rattle.mbe_matcher.specs.Units as u;
ghost use Rattle.mbe_matcher.specs.Units.{same_unit, a_name, a_literal, glued, a_lifetime, opening};
ghost use Rattle.mbe_matcher.specs.Units.{closing, first_characters, is_separator, unit_at};
ghost use Rattle.mbe_matcher.specs.Units.{unit_trees};
ghost use Rattle.mbe_matcher.specs.Places.{place_of, place_after, quoted_name, is_named_truth};

use mbe_rules::Separator;
use std::alloc::{AllocError, Global};
use symbols::Symbol;
use tt::{DelimiterKind, Leaf, LeafRef, Literal, Punct, TokenTreesView, TtElement, TtIter};

/// A position in the argument: the trees left in the innermost open group, and those after each
/// open group.
#[derive(Drop)]
pub struct Place<'a> {
    pub(crate) rest: TtIter<'a>,
    pub(crate) outer: Vec<TtIter<'a>>,
}

/// What a move consumes.
#[derive(Clone, Copy, Drop)]
pub enum Consumed {
    /// One unit: a leaf, a glued operator, a lifetime or a delimiter.
    Unit,
    /// A fragment of this many trees.
    Fragment(usize),
}

// The trees after the first one, or none if there is none.
#[inline]
#[tactic(auto, using(crate::proofs::PlaceLemmas::after_leaf, crate::proofs::PlaceLemmas::after_group, crate::proofs::PlaceLemmas::after_nothing))]
pub(crate) fn after_first<'a>(trees: &TtIter<'a>) -> TtIter<'a>
    ensures { result ≡ past 1 trees.now }
{
    if let Some((_leaf, rest)) = trees.lent_leaf() {
        return rest;
    }
    match trees.first_group() {
        Some((_brackets, _inner, rest)) => rest,
        None => trees.copied(),
    }
}

// The trees after the first `count`.
#[inline(always)]
pub(crate) fn past<'a>(trees: &TtIter<'a>, count: usize) -> TtIter<'a>
    ensures { result ≡ past count trees.now }
{
    let mut rest = trees.copied();
    let mut left = count;
    while left > 0 {
        rest = after_first(&rest);
        left -= 1;
    }
    rest
}

// The first `count` trees, and those after them.
#[inline(always)]
pub(crate) fn parted<'a>(trees: &TtIter<'a>, count: usize) -> (TokenTreesView<'a>, TtIter<'a>)
    ensures first { forest result.0 ≡ before count trees.now }
    ensures rest { result.1 ≡ past count trees.now }
{
    let rest = past(trees, count);
    (rest.passed_since(trees.remaining()), rest)
}

// The first `count` trees.
#[inline(always)]
pub(crate) fn before<'a>(trees: &TtIter<'a>, count: usize) -> TokenTreesView<'a>
    ensures { forest result ≡ before count trees.now }
{
    let (first, _rest) = parted(trees, count);
    first
}

// The name after a quote at the head of a list, if both are there.
#[inline]
#[tactic(auto, using(crate::proofs::LentLemmas::no_quote, crate::proofs::LentLemmas::another_punct, crate::proofs::LentLemmas::a_quote_alone, crate::proofs::LentLemmas::a_quote))]
pub(crate) fn quoted<'a>(trees: &TtIter<'a>) -> Option<&'a Symbol>
    ensures { option_map (λ n. n.now) result ≡ quoted_name trees.now }
{
    let Some((quote, rest)) = trees.first_punct() else {
        return None;
    };
    if quote.char != '\'' {
        return None;
    }
    match rest.lent_ident() {
        Some((name, _behind)) => Some(name.sym),
        None => None,
    }
}

// Whether the puncts at the head of a list, at most `count` of them, have exactly the characters
// of these.
#[tactic(auto, using(crate::proofs::PlaceLemmas::no_punct, crate::proofs::PlaceLemmas::a_punct))]
fn same_puncts(puncts: &[Punct], trees: &TtIter<'_>, count: usize) -> bool
    ensures { result ≡ same_text (characters puncts.now) (first_characters count trees.now) }
{
    let Some((punct, more)) = puncts.split_first() else {
        return count == 0 || trees.first_punct().is_none();
    };
    if count == 0 {
        return false;
    }
    let Some((here, rest)) = trees.first_punct() else {
        return false;
    };
    if punct.char != here.char {
        return false;
    }
    same_puncts(more, &rest, count - 1)
}

impl<'a> Place<'a> {
    /// The position at the beginning of an argument.
    pub fn start(alloc: Global, argument: TokenTreesView<'a>) -> Place<'a>
        ensures { place_of result ≡ u.place (forest argument.entry) [] }
    {
        Place {
            rest: argument.iter(),
            outer: Vec::new(alloc),
        }
    }

    /// The trees left in the innermost open group.
    pub fn rest(&self) -> &TtIter<'a>
        ensures { result.now ≡ r.trees_here (place_of self.now) }
    {
        &self.rest
    }

    /// Whether the whole argument is consumed.
    #[inline(always)]
    pub fn is_end(&self) -> bool
        ensures { result ≡ u.is_end (place_of self.now) }
    {
        if !self.rest.is_empty() {
            return false;
        }
        self.outer.is_empty()
    }

    // Whether the closing of the innermost open group is here.
    #[inline(always)]
    pub(crate) fn is_closing(&self) -> bool
        ensures { result ≡ same_unit closing (unit_at (place_of self.now)) }
    {
        if !self.rest.is_empty() {
            return false;
        }
        !self.outer.is_empty()
    }

    // Whether a group with delimiters of this kind opens here.
    #[inline]
    #[tactic(auto, using(crate::proofs::LentLemmas::opened, crate::proofs::LentLemmas::unopened))]
    pub(crate) fn is_opening(&self, kind: DelimiterKind) -> bool
        ensures { result ≡ same_unit (opening kind) (unit_at (place_of self.now)) }
    {
        match self.rest.first_group() {
            Some((brackets, _inner, _behind)) => kind == brackets.kind,
            None => false,
        }
    }

    // Whether an identifier with this name is here, raw or not.
    #[inline]
    #[tactic(auto, using(crate::proofs::LentLemmas::named, crate::proofs::LentLemmas::unnamed))]
    pub(crate) fn is_name(&self, name: &Symbol) -> bool
        ensures { result ≡ same_unit (a_name name.now) (unit_at (place_of self.now)) }
    {
        match self.rest.lent_ident() {
            Some((here, _behind)) => name.as_str() == here.sym.as_str(),
            None => false,
        }
    }

    // Whether a literal with this text and suffix is here.
    #[tactic(auto, using(crate::proofs::LentLemmas::a_leaf, crate::proofs::LentLemmas::leaf_here, crate::proofs::LentLemmas::no_literal_here))]
    pub(crate) fn is_literal(&self, literal: &Literal) -> bool
        ensures { result ≡ same_unit (a_literal literal.now.text literal.now.suffix)
            (unit_at (place_of self.now)) }
    {
        let Some((leaf, _behind)) = self.rest.lent_leaf() else {
            return false;
        };
        match leaf {
            LeafRef::Literal(here) => {
                literal.text() == here.text() && literal.suffix() == here.suffix()
            }
            _ => false,
        }
    }

    // Whether a quote with this name is here.
    pub(crate) fn is_lifetime(&self, name: &Symbol) -> bool
        ensures { result ≡ same_unit (a_lifetime name.now) (unit_at (place_of self.now)) }
    {
        match quoted(&self.rest) {
            Some(here) => name.as_str() == here.as_str(),
            None => false,
        }
    }

    // Whether a glued operator with exactly these characters is here.
    #[tactic(auto, using(crate::proofs::LentLemmas::unglued, crate::proofs::LentLemmas::a_punct_leaf))]
    pub(crate) fn is_puncts(&self, puncts: &[Punct]) -> bool
        ensures { result ≡ same_unit (glued (characters puncts.now)) (unit_at (place_of self.now)) }
    {
        let Some(_punct) = self.rest.first_punct() else {
            return false;
        };
        if let Some(_name) = quoted(&self.rest) {
            return false;
        }
        let count = self.rest.glued_count();
        same_puncts(puncts, &self.rest, count)
    }

    // Whether a literal without suffix has the text of the identifier here, which is `true` or
    // `false`.
    fn is_truth(&self, literal: &Literal) -> bool
        ensures { result ≡ is_named_truth literal.now.text literal.now.suffix
            (unit_at (place_of self.now)) }
    {
        match self.rest.peek() {
            Some(TtElement::Leaf(Leaf::Ident(here))) => {
                let name = here.sym.as_str();
                literal.suffix().is_empty()
                    && literal.text() == name
                    && (name == "true" || name == "false")
            }
            _ => false,
        }
    }

    // Whether this separator is here.
    pub(crate) fn is_between(&self, separator: &Separator) -> bool
        ensures { result ≡ is_separator (separator_of separator.now) (unit_at (place_of self.now)) }
    {
        match separator {
            Separator::Literal(literal) => self.is_truth(literal) || self.is_literal(literal),
            Separator::Ident(ident) => self.is_name(&ident.sym),
            Separator::Lifetime(_, ident) => self.is_lifetime(&ident.sym),
            Separator::Puncts(puncts) => self.is_puncts(puncts),
        }
    }

    // Moves to the position after a move.
    #[inline]
    pub(crate) fn pass(&mut self, taken: Consumed) -> Result<(), AllocError>
        ensures { OnOk result (place_of self.new ≡ place_after (place_of self.old) (Some taken)) }
    {
        match taken {
            Consumed::Fragment(count) => {
                self.rest = past(&self.rest, count);
                Ok(())
            }
            Consumed::Unit => self.pass_unit(),
        }
    }

    // Moves to the position after the unit here.
    #[tactic(auto, using(crate::proofs::LentLemmas::past_unit, crate::proofs::LentLemmas::into_group))]
    fn pass_unit(&mut self) -> Result<(), AllocError>
        ensures { OnOk result (place_of self.new ≡ u.after_unit (place_of self.old)) }
    {
        if let Some((_brackets, inner, more)) = self.rest.first_group() {
            self.outer.push(more)?;
            self.rest = inner;
            return Ok(());
        }
        if self.rest.is_empty() {
            if let Some(rest) = self.outer.pop() {
                self.rest = rest;
            }
            return Ok(());
        }
        let count = unit_trees(&self.rest);
        self.rest = past(&self.rest, count);
        Ok(())
    }

    /// The position after a move. Out of memory is its only error.
    #[inline]
    pub fn after(self, taken: Consumed) -> Result<Place<'a>, AllocError>
        ensures { IfOk result (λ p. place_of p ≡ place_after (place_of self.entry) (Some taken)) }
    {
        let mut place = self;
        place.pass(taken)?;
        Ok(place)
    }
}

// How many trees the unit at the head of a list has.
fn unit_trees(trees: &TtIter<'_>) -> usize
    ensures { result ≡ unit_trees trees.now }
{
    if let Some(_name) = quoted(trees) {
        return 2;
    }
    let count = trees.glued_count();
    if count == 0 { 1 } else { count }
}

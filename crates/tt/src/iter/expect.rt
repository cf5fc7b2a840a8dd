//! Consumes the first tree of a list if it is what is expected.
//!
//! Each call answers what it consumed, and leaves the iterator after that. If something else
//! comes first, or nothing, it answers `Err(())`, and the iterator stays where it was.
ghost use Rattle.std.specs.Prelude.{◌≡◌, nat_eq, Some, None, IfOk, OnOk, OnErr};
ghost use Rattle.tt.specs.FirstTrees.{behind_punct, first_ident, first_leaf, first_literal_leaf, first_name, first_punct, first_subtree, is_among, is_literal};
ghost use Rattle.tt.specs.Glued.{first_glued, glued_at, glued_count, is_pair, is_three, is_triple, is_two};

use crate::iter::TtIter;
use arrayvec::ArrayVec;
use tt_data::{Ident, Leaf, Punct, Spacing, Subtree};

/// The most puncts that are glued to one operator.
pub const MAX_GLUED_PUNCT_LEN: usize = 3;

// Whether two characters make one operator.
fn is_two(first: char, second: char) -> bool
    ensures { result ≡ is_two first second }
{
    match second {
        '=' => matches!(
            first,
            '-' | '!' | '*' | '/' | '&' | '%' | '^' | '+' | '<' | '=' | '>' | '|'
        ),
        '>' => matches!(first, '-' | '=' | '>'),
        '-' => first == '<',
        ':' | '.' | '&' | '<' | '|' => first == second,
        _ => false,
    }
}

// Whether three characters make one operator: `...`, `..=`, `<<=`, `>>=`.
fn is_three(first: char, second: char, third: char) -> bool
    ensures { result ≡ is_three first second third }
{
    match (first, second, third) {
        ('.', '.', '.' | '=') | ('<', '<', '=') | ('>', '>', '=') => true,
        _ => false,
    }
}

// Whether two puncts side by side are glued to one operator.
fn is_pair(first: Punct, second: Punct) -> bool
    ensures { result ≡ is_pair first second }
{
    first.spacing != Spacing::Alone && is_two(first.char, second.char)
}

// Whether three puncts side by side are glued to one operator.
fn is_triple(first: Punct, second: Punct, third: Punct) -> bool
    ensures { result ≡ is_triple first second third }
{
    first.spacing != Spacing::Alone
        && second.spacing == Spacing::Joint
        && is_three(first.char, second.char, third.char)
}

// Whether a character is one of these.
fn is_among(chars: &[char], char: char) -> bool
    ensures { result ≡ is_among chars.now char }
{
    chars.contains(&char)
}

// Whether a leaf is a literal, as `true` and `false` are.
fn is_literal(leaf: &Leaf) -> bool
    ensures { result ≡ is_literal leaf.now }
{
    match leaf {
        Leaf::Literal(_) => true,
        Leaf::Ident(ident) => ident.sym.as_str() == "true" || ident.sym.as_str() == "false",
        Leaf::Punct(_) => false,
    }
}

impl<'a> TtIter<'a> {
    /// Takes a punct of this character.
    pub fn expect_char(&mut self, char: char) -> Result<(), ()>
        ensures ok { OnOk result (behind_punct (λ c. nat_eq c char) self.old ≡ Some self.new) }
        ensures err { OnErr result ((behind_punct (λ c. nat_eq c char) self.old ≡ None) × (self.new ≡ self.old)) }
    {
        match self.first_punct() {
            Some((punct, rest)) if punct.char == char => {
                *self = rest;
                Ok(())
            }
            _ => Err(()),
        }
    }

    /// Takes a punct of one of these characters.
    pub fn expect_any_char(&mut self, chars: &[char]) -> Result<(), ()>
        ensures ok { OnOk result (behind_punct (is_among chars.now) self.old ≡ Some self.new) }
        ensures err { OnErr result ((behind_punct (is_among chars.now) self.old ≡ None) × (self.new ≡ self.old)) }
    {
        match self.first_punct() {
            Some((punct, rest)) if is_among(chars, punct.char) => {
                *self = rest;
                Ok(())
            }
            _ => Err(()),
        }
    }

    /// Takes a `$`.
    pub fn expect_dollar(&mut self) -> Result<(), ()>
        ensures ok { OnOk result (behind_punct (λ c. nat_eq c 36) self.old ≡ Some self.new) }
        ensures err { OnErr result ((behind_punct (λ c. nat_eq c 36) self.old ≡ None) × (self.new ≡ self.old)) }
    {
        self.expect_char('$')
    }

    /// Takes a comma.
    pub fn expect_comma(&mut self) -> Result<(), ()>
        ensures ok { OnOk result (behind_punct (λ c. nat_eq c 44) self.old ≡ Some self.new) }
        ensures err { OnErr result ((behind_punct (λ c. nat_eq c 44) self.old ≡ None) × (self.new ≡ self.old)) }
    {
        self.expect_char(',')
    }

    /// Takes a group: its head, and a walk over the trees inside.
    pub fn expect_subtree(&mut self) -> Result<(Subtree, TtIter<'a>), ()>
        ensures ok { IfOk result (λ g. first_subtree self.old ≡ Some (g.0, g.1, self.new)) }
        ensures err { OnErr result ((first_subtree self.old ≡ None) × (self.new ≡ self.old)) }
    {
        let Some((head, inner, rest)) = self.first_subtree() else {
            return Err(());
        };
        *self = rest;
        Ok((head, inner))
    }

    /// Takes a leaf.
    pub fn expect_leaf(&mut self) -> Result<Leaf, ()>
        ensures ok { IfOk result (λ l. first_leaf self.old ≡ Some (l, self.new)) }
        ensures err { OnErr result ((first_leaf self.old ≡ None) × (self.new ≡ self.old)) }
    {
        let Some((leaf, rest)) = self.first_leaf() else {
            return Err(());
        };
        *self = rest;
        Ok(leaf)
    }

    /// Takes an identifier other than `_`.
    pub fn expect_ident(&mut self) -> Result<Ident, ()>
        ensures ok { IfOk result (λ i. first_name self.old ≡ Some (i, self.new)) }
        ensures err { OnErr result ((first_name self.old ≡ None) × (self.new ≡ self.old)) }
    {
        match self.first_ident() {
            Some((ident, rest)) if ident.sym.as_str() != "_" => {
                *self = rest;
                Ok(ident)
            }
            _ => Err(()),
        }
    }

    /// Takes an identifier, `_` included.
    pub fn expect_ident_or_underscore(&mut self) -> Result<Ident, ()>
        ensures ok { IfOk result (λ i. first_ident self.old ≡ Some (i, self.new)) }
        ensures err { OnErr result ((first_ident self.old ≡ None) × (self.new ≡ self.old)) }
    {
        let Some((ident, rest)) = self.first_ident() else {
            return Err(());
        };
        *self = rest;
        Ok(ident)
    }

    /// Takes a literal, or `true` or `false`.
    pub fn expect_literal(&mut self) -> Result<Leaf, ()>
        ensures ok { IfOk result (λ l. first_literal_leaf self.old ≡ Some (l, self.new)) }
        ensures err { OnErr result ((first_literal_leaf self.old ≡ None) × (self.new ≡ self.old)) }
    {
        match self.first_leaf() {
            Some((leaf, rest)) if is_literal(&leaf) => {
                *self = rest;
                Ok(leaf)
            }
            _ => Err(()),
        }
    }

    /// Takes a punct.
    pub fn expect_single_punct(&mut self) -> Result<Punct, ()>
        ensures ok { IfOk result (λ p. first_punct self.old ≡ Some (p, self.new)) }
        ensures err { OnErr result ((first_punct self.old ≡ None) × (self.new ≡ self.old)) }
    {
        let Some((punct, rest)) = self.first_punct() else {
            return Err(());
        };
        *self = rest;
        Ok(punct)
    }

    /// The longest operator that begins with the punct `first`, which was right before these
    /// trees: one to three puncts, and the trees after it. `expect_glued_punct` says what is
    /// glued.
    pub fn glued_to(self, first: Punct) -> (ArrayVec<Punct, MAX_GLUED_PUNCT_LEN>, TtIter<'a>)
        ensures { (result.0.items, result.1) ≡ glued_at first self.entry }
    {
        let mut glued = ArrayVec::new();
        glued.push(first);
        let Some((second, behind_two)) = self.first_punct() else {
            return (glued, self);
        };
        if let Some((third, behind_three)) = behind_two.first_punct() {
            if is_triple(first, second, third) {
                glued.push(second);
                glued.push(third);
                return (glued, behind_three);
            }
        }
        if is_pair(first, second) {
            glued.push(second);
            return (glued, behind_two);
        }
        (glued, self)
    }

    /// How many puncts come next that are glued to one operator: 0 if another tree comes first.
    pub fn glued_count(&self) -> usize
        ensures { result ≡ glued_count self.now }
    {
        match self.first_punct() {
            None => 0,
            Some((first, rest)) => rest.glued_to(first).0.len(),
        }
    }

    /// Takes the longest operator: one to three puncts, all but the last not `Alone`, and of three
    /// the second `Joint`. (The Rust Reference, "Tokens": punctuation.)
    pub fn expect_glued_punct(&mut self) -> Result<ArrayVec<Punct, MAX_GLUED_PUNCT_LEN>, ()>
        ensures ok { IfOk result (λ ps. first_glued self.old ≡ Some (ps.items, self.new)) }
        ensures err { OnErr result ((first_glued self.old ≡ None) × (self.new ≡ self.old)) }
    {
        let Some((first, rest)) = self.first_punct() else {
            return Err(());
        };
        let (glued, rest) = rest.glued_to(first);
        *self = rest;
        Ok(glued)
    }
}

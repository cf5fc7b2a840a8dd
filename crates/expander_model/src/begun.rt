//! What of a piece came so far, as far as its end and what it is depend on it.
ghost use Rattle.std.specs.Prelude.{◌≡◌};
ghost use Rattle.tt_data.specs.Lent.{ident_lent, leaf_lent};
ghost use Rattle.expander_model.specs.PieceStates.{after_call, after_group, after_ident};
ghost use Rattle.expander_model.specs.PieceStates.{after_leaf, after_literal, after_name};
ghost use Rattle.expander_model.specs.PieceStates.{begun_with, by_word, holds_items, is_at_start};
ghost use Rattle.expander_model.specs.PieceStates.{is_dropped, is_item_word, is_qualifier};

use cfg_options::small_grammar::names::has_text;
use tt_data::{DelimiterKind, IdentRef, LeafRef, Punct};

/// What of a piece came so far.
#[derive(Clone, Copy, Debug, PartialEq, Eq)]
pub enum Begun {
    Nothing,
    /// Exactly `#`.
    Pound,
    /// Exactly `#` and `!`.
    PoundBang,
    /// Attributes alone.
    Attributes,
    /// Attributes, and `#`.
    AttributesPound,
    /// What may stand before `pub`, and that word.
    Visible,
    /// What may stand before `unsafe`, `auto` or `default`, and that word; or a whole visibility.
    Qualified,
    /// The beginning of a module, an implementation or a trait.
    Item,
    /// What may stand before `extern`, and that word.
    Extern,
    /// The same, and a literal.
    Abi,
    /// A call with which a `;` goes.
    Gone,
    Other,
}

// Whether a module, an implementation or a trait begins with this word.
fn is_item_word(ident: IdentRef<'_>) -> bool
    ensures { result ≡ is_item_word (ident_lent ident.entry) }
{
    has_text(ident, "mod") || has_text(ident, "impl") || has_text(ident, "trait")
}

// Whether it is a word between the visibility of an item and what it is.
fn is_qualifier(ident: IdentRef<'_>) -> bool
    ensures { result ≡ is_qualifier (ident_lent ident.entry) }
{
    has_text(ident, "unsafe") || has_text(ident, "auto") || has_text(ident, "default")
}

// Once this word follows attributes, visibility and qualifiers.
fn by_word(ident: IdentRef<'_>) -> Begun
    ensures { result ≡ by_word (ident_lent ident.entry) }
{
    if has_text(ident, "pub") {
        Begun::Visible
    } else if is_qualifier(ident) {
        Begun::Qualified
    } else if is_item_word(ident) {
        Begun::Item
    } else if has_text(ident, "extern") {
        Begun::Extern
    } else {
        Begun::Other
    }
}

impl Begun {
    ghost use Rattle.expander_model.specs.PieceStates.{after_punct};

    // Once this punct goes on with the piece.
    fn begun_with(self, punct: Punct) -> Self
        ensures { result ≡ begun_with self punct }
    {
        match self {
            Begun::Nothing if punct.char == '#' => Begun::Pound,
            Begun::Attributes if punct.char == '#' => Begun::AttributesPound,
            Begun::Pound if punct.char == '!' => Begun::PoundBang,
            Begun::Item => Begun::Item,
            _ => Begun::Other,
        }
    }

    // Once this punct follows.
    #[inline(always)]
    fn with_punct(self, punct: Punct) -> Self
        ensures { result ≡ after_punct self punct }
    {
        if punct.char == ';' {
            return Begun::Nothing;
        }
        self.begun_with(punct)
    }

    // Once an identifier follows.
    fn with_ident(self, ident: IdentRef<'_>) -> Self
        ensures { result ≡ after_ident self (ident_lent ident.entry) }
    {
        match self {
            Begun::Nothing | Begun::Attributes | Begun::Visible | Begun::Qualified => {
                by_word(ident)
            }
            Begun::Item => Begun::Item,
            _ => Begun::Other,
        }
    }

    // Once a literal follows.
    fn with_literal(self) -> Self
        ensures { result ≡ after_literal self }
    {
        match self {
            Begun::Extern => Begun::Abi,
            Begun::Item => Begun::Item,
            _ => Begun::Other,
        }
    }

    /// Once this leaf follows: a `;` ends a piece.
    #[inline(always)]
    pub fn with_leaf(self, leaf: LeafRef<'_>) -> Self
        ensures { result ≡ after_leaf self (leaf_lent leaf.entry) }
    {
        match leaf {
            LeafRef::Punct(punct) => self.with_punct(punct),
            LeafRef::Ident(ident) => self.with_ident(ident),
            LeafRef::Literal(_) => self.with_literal(),
        }
    }

    /// Once a group of this kind follows: braces end a piece, and brackets after `#` and `!`.
    pub fn with_group(self, kind: DelimiterKind) -> Self
        ensures { result ≡ after_group self kind }
    {
        match (self, kind) {
            (_, DelimiterKind::Brace) => Begun::Nothing,
            (Begun::PoundBang, DelimiterKind::Bracket) => Begun::Nothing,
            (Begun::Pound, DelimiterKind::Bracket) => Begun::Attributes,
            (Begun::AttributesPound, DelimiterKind::Bracket) => Begun::Attributes,
            (Begun::Visible, DelimiterKind::Parenthesis) => Begun::Qualified,
            (Begun::Item, _) => Begun::Item,
            _ => Begun::Other,
        }
    }

    /// Once the tokens of a call before its group follow.
    pub fn behind_name(self) -> Self
        ensures { result ≡ after_name self }
    {
        match self {
            Begun::Item => Begun::Item,
            _ => Begun::Other,
        }
    }

    /// Once a call follows whose group is of this kind; `gone` tells that a `;` right behind it
    /// goes with it.
    pub fn behind_call(self, gone: bool, kind: DelimiterKind) -> Self
        ensures { result ≡ after_call gone self kind }
    {
        if gone {
            Begun::Gone
        } else {
            self.behind_name().with_group(kind)
        }
    }

    /// Whether braces that follow have a list of items.
    pub fn holds_items(self, kind: DelimiterKind) -> bool
        ensures { result ≡ holds_items self kind }
    {
        match (self, kind) {
            (Begun::Item | Begun::Extern | Begun::Abi, DelimiterKind::Brace) => true,
            _ => false,
        }
    }

    /// Whether nothing came but attributes.
    pub fn is_at_start(self) -> bool
        ensures { result ≡ is_at_start self }
    {
        match self {
            Begun::Nothing | Begun::Attributes => true,
            _ => false,
        }
    }

    /// Whether this leaf is a `;` that goes with the call before it.
    #[inline(always)]
    pub fn drops(self, leaf: LeafRef<'_>) -> bool
        ensures { result ≡ is_dropped self (leaf_lent leaf.entry) }
    {
        match (self, leaf) {
            (Begun::Gone, LeafRef::Punct(punct)) => punct.char == ';',
            _ => false,
        }
    }
}

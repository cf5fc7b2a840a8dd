//! Kinds of fragments, and the trait of grammars, which say how far a fragment extends.
ghost use Rattle.std.specs.Prelude.{◌≡◌, ◌≢◌, ◌≤◌, false};
ghost use Rattle.tt.specs.Views.{forest};
ghost use Rattle.tt_data.specs.Forest.{Forest, shape};
ghost use Rattle.fragment_grammar.specs.Steps.{steps};
ghost use Rattle.fragment_grammar.specs.declared.fragment.Prefix.{Prefix};
ghost use Rattle.fragment_grammar.specs.declared.fragment.PrefixEntryPoint.{PrefixEntryPoint};
ghost use Rattle.fragment_grammar.specs.declared.fragment.PrefixEntryPoint.TheVariants.{Vis};

use tt::TokenTreesView;

/// What is looked for at the beginning of a list of trees. (The Rust Reference, "Macros By
/// Example": metavariables.)
#[derive(Clone, Copy, PartialEq, Eq, Debug)]
pub enum PrefixEntryPoint {
    /// A visibility. No tokens are one too.
    Vis,
    /// A block.
    Block,
    /// A statement.
    Stmt,
    /// A pattern without alternatives.
    Pat,
    /// A pattern with alternatives.
    PatTop,
    /// A type.
    Ty,
    /// An expression.
    Expr,
    /// A path, as in a type.
    Path,
    /// An item.
    Item,
    /// The content of an attribute.
    MetaItem,
}

/// A grammar's answer: how far a fragment reaches, or that none is there.
#[derive(Clone, Copy, PartialEq, Eq, Debug)]
pub struct Prefix {
    /// How many steps the fragment takes: each leaf, each opening and each closing is one.
    pub tokens: usize,
    /// Whether no fragment of the kind begins the list.
    pub fault: bool,
}

/// A grammar of fragments: it says how far a fragment of a kind reaches.
///
/// The answer depends on kinds, texts, rawness and spacing of the trees, never on their spans. It
/// takes no more steps than there are, and without a fault at least one, except for a visibility.
/// It takes no memory. Whoever implements the trait proves these laws.
pub trait FragmentGrammar {
    // The answer for an entry point, at trees without their spans.
    ghost answer: { Self → PrefixEntryPoint → Forest → Prefix };

    /// How many steps a fragment takes at the beginning of the list, or that none begins it.
    fn prefix(&self, entry: PrefixEntryPoint, input: TokenTreesView<'_>) -> Prefix
        ensures { result ≡ answer self.now entry (shape (forest input.entry)) };

    // The answer never has more steps than there are.
    ghost within: { (g : Self) (entry : PrefixEntryPoint) (f : Forest) → (answer g entry (shape f)).tokens ≤ steps f };

    // Without a fault the answer has at least one step, except for a visibility.
    ghost takes: { (g : Self) (entry : PrefixEntryPoint) (f : Forest) → entry ≢ Vis → (answer g entry (shape f)).fault ≡ false →
        1 ≤ (answer g entry (shape f)).tokens };
}

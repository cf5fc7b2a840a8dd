//! A grammar that has items, over one that has none.
ghost use Rattle.std.specs.Prelude.{◌≡◌};
ghost use Rattle.example_grammar.specs.Items.{with_items};
ghost use Rattle.example_grammar.specs.ItemLaws.{with_items-within, with_items-takes};

use fragment_grammar::{FragmentGrammar, Prefix, PrefixEntryPoint, steps};
use tt::TokenTreesView;

/// Takes all that is left of an argument as an item, and any other fragment as the grammar inside does.
#[derive(Clone, Copy, Drop, Debug)]
pub struct WithItems<G> {
    pub inner: G,
}

impl<G: FragmentGrammar> FragmentGrammar for WithItems<G> {
    ghost answer = { λ g. with_items (G.answer g.inner) };

    fn prefix(&self, entry: PrefixEntryPoint, input: TokenTreesView<'_>) -> Prefix {
        match entry {
            PrefixEntryPoint::Item => Prefix {
                tokens: steps(input),
                fault: input.is_empty(),
            },
            _ => self.inner.prefix(entry, input),
        }
    }

    ghost within = { λ g. with_items-within (G.answer g.inner) (G.within g.inner) };

    ghost takes = { λ g. with_items-takes (G.answer g.inner) (G.takes g.inner) };
}

//! A grammar that is one of the two.
ghost use Rattle.any_grammar.specs.Answer.{answer};
ghost use Rattle.any_grammar.specs.Laws.{answer-within, answer-takes};

use fragment_grammar::{FragmentGrammar, Prefix, PrefixEntryPoint};
use rust_grammar::RustGrammar;
use small_grammar::SmallGrammar;
use tt::TokenTreesView;
use tt_data::Edition;

/// The small grammar, or the grammar of Rust in an edition. It answers as that one does.
///
/// It takes no memory.
#[derive(Clone, Copy, Drop, Debug)]
pub enum AnyGrammar {
    /// The small grammar, `SmallGrammar`.
    Small,
    /// The grammar of Rust, `RustGrammar`, in an edition.
    Rust(Edition),
}

impl FragmentGrammar for AnyGrammar {
    ghost answer = { answer };

    fn prefix(&self, entry: PrefixEntryPoint, input: TokenTreesView<'_>) -> Prefix {
        match *self {
            AnyGrammar::Small => SmallGrammar.prefix(entry, input),
            AnyGrammar::Rust(edition) => RustGrammar::new(edition).prefix(entry, input),
        }
    }

    ghost within = { answer-within };

    ghost takes = { answer-takes };
}

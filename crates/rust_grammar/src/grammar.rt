//! The answers of the grammar of Rust, by entry point.
ghost use Rattle.std.specs.Prelude.{◌≡◌, ◌<◌};
ghost use Rattle.rust_grammar.specs.Answer.{answer, comes_of, entry_rule};
ghost use Rattle.rust_grammar.specs.Table.{name_at};
ghost use Rattle.rust_grammar.specs.Laws.{shape-within, shape-takes};

use crate::cursor::Cursor;
use crate::interpreter::come_of_rule;
use crate::outcome::Outcome;
use fragment_grammar::{FragmentGrammar, Prefix, PrefixEntryPoint, steps};
use tt::{TokenTreesView, TtIter};
use tt_data::Edition;

// No fragment begins the list.
const FAULT: Prefix = Prefix {
    tokens: 0,
    fault: true,
};

/// The grammar of Rust's fragments in an edition. `specs/Rules.antt` is its table of rules.
///
/// It takes no memory. It passes groups without looking inside, except for what restricts a
/// visibility. Where rules stand in one another more than 4,096 levels deep it answers a fault.
/// It may read trees again that an alternative gave back. Measured, not proved: the nodes that it
/// visits for each tree do not grow with the input (docs/COMPATIBILITY.md).
#[derive(Clone, Copy, Drop, Debug)]
pub struct RustGrammar {
    /// The edition that says which words are reserved.
    pub edition: Edition,
}

impl RustGrammar {
    /// The grammar of an edition.
    pub fn new(edition: Edition) -> RustGrammar
        ensures { result.edition ≡ edition }
    {
        RustGrammar { edition }
    }
}

// The number of an entry point's rule.
#[tactic(auto, unfolding(crate::specs::Table::name_at))]
fn rule_of(entry: PrefixEntryPoint) -> u8
    ensures same { name_at result ≡ entry_rule entry }
    ensures within { result < 94 }
{
    match entry {
        PrefixEntryPoint::Vis => 0,
        PrefixEntryPoint::Block => 1,
        PrefixEntryPoint::Stmt => 2,
        PrefixEntryPoint::Pat => 3,
        PrefixEntryPoint::PatTop => 4,
        PrefixEntryPoint::Ty => 5,
        PrefixEntryPoint::Expr => 6,
        PrefixEntryPoint::Path => 7,
        PrefixEntryPoint::Item => 8,
        PrefixEntryPoint::MetaItem => 9,
    }
}

// What comes of an entry point's rule.
#[tactic(auto, unfolding(crate::specs::Answer::comes_of))]
fn come_of_entry<'a>(edition: Edition, entry: PrefixEntryPoint, trees: &TtIter<'a>) -> Outcome<'a>
    ensures { result ≡ comes_of edition entry trees.now }
{
    come_of_rule(edition, rule_of(entry), &Cursor::new(TtIter::copied(trees)))
}

impl FragmentGrammar for RustGrammar {
    ghost answer = { λ g. answer g.edition };

    fn prefix(&self, entry: PrefixEntryPoint, input: TokenTreesView<'_>) -> Prefix {
        match come_of_entry(self.edition, entry, &input.iter()) {
            Outcome::Fits(rest) => Prefix {
                tokens: steps(rest.trees().passed_since(input)),
                fault: false,
            },
            Outcome::Misses => FAULT,
            Outcome::Faults => FAULT,
        }
    }

    ghost within = { λ g. shape-within g.edition };

    ghost takes = { λ g. shape-takes g.edition };
}

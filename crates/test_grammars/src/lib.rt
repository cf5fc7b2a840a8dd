//! Grammars that are not Rust's, for tests: a matcher must behave alike with any grammar.
#![tactic(auto)]

ghost use Rattle.test_grammars.specs.FakeLaws.{one_step-within, one_step-takes, all_steps-within};
ghost use Rattle.test_grammars.specs.FakeLaws.{all_steps-takes, a_fault-within, a_fault-takes};
ghost use Rattle.std.specs.Prelude.{◌≡◌};
ghost use Rattle.test_grammars.specs.Fakes.{at_end, one_step, all_steps, a_fault};

use fragment_grammar::{FragmentGrammar, Prefix, PrefixEntryPoint, steps};
use std::cell::Cell;
use tt::TokenTreesView;

// The answer at the end of a list: a `vis` may be empty, and everything else is missing.
fn at_end(entry: PrefixEntryPoint) -> Prefix
    ensures { result ≡ at_end entry }
{
    Prefix {
        tokens: 0,
        fault: entry != PrefixEntryPoint::Vis,
    }
}

/// Takes one step of a list that is not empty.
#[derive(Clone, Copy, Drop, Debug)]
pub struct OneStep;

impl FragmentGrammar for OneStep {
    ghost answer = { λ g. one_step };

    fn prefix(&self, entry: PrefixEntryPoint, input: TokenTreesView<'_>) -> Prefix {
        if input.is_empty() {
            return at_end(entry);
        }
        Prefix {
            tokens: 1,
            fault: false,
        }
    }

    ghost within = { λ g. one_step-within };

    ghost takes = { λ g. one_step-takes };
}

/// Takes all steps of a list, whatever they are.
#[derive(Clone, Copy, Drop, Debug)]
pub struct AllSteps;

impl FragmentGrammar for AllSteps {
    ghost answer = { λ g. all_steps };

    fn prefix(&self, entry: PrefixEntryPoint, input: TokenTreesView<'_>) -> Prefix {
        if input.is_empty() {
            return at_end(entry);
        }
        Prefix {
            tokens: steps(input),
            fault: false,
        }
    }

    ghost within = { λ g. all_steps-within };

    ghost takes = { λ g. all_steps-takes };
}

/// Answers with a fault for every entry point, `Vis` included.
#[derive(Clone, Copy, Drop, Debug)]
pub struct Faults;

impl FragmentGrammar for Faults {
    ghost answer = { λ g. a_fault };

    fn prefix(&self, _entry: PrefixEntryPoint, _input: TokenTreesView<'_>) -> Prefix {
        Prefix {
            tokens: 0,
            fault: true,
        }
    }

    ghost within = { λ g. a_fault-within };

    ghost takes = { λ g. a_fault-takes };
}

/// Answers as the grammar inside, and counts its calls.
///
/// The count is in a cell, of which no contract says anything. It starts again at zero when it is
/// full.
#[derive(Drop)]
pub struct Counting<'a, G> {
    pub inner: G,
    pub calls: &'a Cell<u64>,
}

impl<G: FragmentGrammar> FragmentGrammar for Counting<'_, G> {
    ghost answer = { λ g. G.answer g.inner };

    fn prefix(&self, entry: PrefixEntryPoint, input: TokenTreesView<'_>) -> Prefix {
        self.calls.set(self.calls.get().wrapping_add(1));
        self.inner.prefix(entry, input)
    }

    ghost within = { λ g. G.within g.inner };

    ghost takes = { λ g. G.takes g.inner };
}

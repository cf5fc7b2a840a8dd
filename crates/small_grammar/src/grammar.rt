//! The answers of the small grammar, by entry point.
ghost use Rattle.std.specs.Prelude.{◌≡◌, Some};
ghost use Rattle.small_grammar.specs.Answer.{answer, entry_rule};
ghost use Rattle.small_grammar.specs.Expressions.{◌⨾◌, ◌∣◌, maybe};
ghost use Rattle.small_grammar.specs.Laws.{shape-within, shape-takes};
ghost use Rattle.small_grammar.specs.SmallGrammar.{takes, vis, meta_item, group, glued, expr};

use crate::expressions::{expr, path};
use crate::names::restriction;
use crate::patterns::{pat, pat_top};
use crate::tokens::{glued, group, group_of, word};
use crate::types::{tpath, ty};
use crate::units::Operator;
use fragment_grammar::{FragmentGrammar, Prefix, PrefixEntryPoint, steps};
use tt::{TokenTreesView, TtIter};
use tt_data::DelimiterKind;

/// A small grammar of Rust: visibilities, expressions, types, paths, patterns, attributes and
/// blocks. `specs/SmallGrammar.antt` is its table of rules.
///
/// It takes no memory. It passes groups without looking inside, except for a visibility's.
#[derive(Clone, Copy, Drop, Debug)]
pub struct SmallGrammar;

// The trees after a visibility, or all trees if none comes first.
#[tactic(auto, unfolding(crate::specs::SmallGrammar::vis))]
fn vis<'a>(trees: &TtIter<'a>) -> TtIter<'a>
    ensures { Some result ≡ takes vis trees.now }
{
    match word(trees, "pub") {
        None => trees.copied(),
        Some(rest) => restriction(&rest).unwrap_or(rest),
    }
}

// An attribute's path, with its group or its value.
#[tactic(auto, unfolding(crate::specs::SmallGrammar::meta_item))]
fn meta_item<'a>(trees: &TtIter<'a>) -> Option<TtIter<'a>>
    ensures { result ≡ takes meta_item trees.now }
{
    let rest = path(trees)?;
    Some(with_value(rest))
}

// The trees after a group or a value, or all trees if neither comes first.
fn with_value<'a>(trees: TtIter<'a>) -> TtIter<'a>
    ensures { Some result ≡ takes (maybe (group ∣ glued "=" ⨾ expr)) trees.entry }
{
    if let Some(rest) = group(&trees) {
        return rest;
    }
    match glued(&trees, Operator::One('=')) {
        None => trees,
        Some(rest) => expr(&rest).unwrap_or(trees),
    }
}

// The trees after the fragment that the entry point asks for.
fn behind<'a>(entry: PrefixEntryPoint, trees: &TtIter<'a>) -> Option<TtIter<'a>>
    ensures { result ≡ takes (entry_rule entry) trees.now }
{
    match entry {
        PrefixEntryPoint::Vis => Some(vis(trees)),
        PrefixEntryPoint::Block => group_of(trees, DelimiterKind::Brace),
        PrefixEntryPoint::Stmt | PrefixEntryPoint::Item => None,
        PrefixEntryPoint::Pat => pat(trees),
        PrefixEntryPoint::PatTop => pat_top(trees),
        PrefixEntryPoint::Ty => ty(trees),
        PrefixEntryPoint::Expr => expr(trees),
        PrefixEntryPoint::Path => tpath(trees),
        PrefixEntryPoint::MetaItem => meta_item(trees),
    }
}

impl FragmentGrammar for SmallGrammar {
    ghost answer = { λ g. answer };

    fn prefix(&self, entry: PrefixEntryPoint, input: TokenTreesView<'_>) -> Prefix {
        match behind(entry, &input.iter()) {
            Some(rest) => Prefix {
                tokens: steps(rest.passed_since(input)),
                fault: false,
            },
            None => Prefix {
                tokens: 0,
                fault: true,
            },
        }
    }

    ghost within = { λ g. shape-within };

    ghost takes = { λ g. shape-takes };
}

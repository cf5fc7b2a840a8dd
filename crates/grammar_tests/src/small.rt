//! The small grammar, and those that other tests use.
use crate::behind_prefix;
use crate::trees::{answer, tree};
use fragment_grammar::{FragmentGrammar, Prefix, PrefixEntryPoint, steps};
use small_grammar::SmallGrammar;
use std::alloc::Global;
use std::cell::Cell;
use std::test::Fail;
use test_grammars::{AllSteps, Counting, Faults, OneStep};
use tt::TokenTreesView;
use tt_data::TtFault;

// What the small grammar is asked for, a list, and how many steps it takes, or none for a fault.
const ROWS: [(PrefixEntryPoint, &str, Option<usize>); 17] = [
    (PrefixEntryPoint::Expr, "1 + 2 ;", Some(3)),
    (PrefixEntryPoint::Expr, "a . 0 ? [ 1 ]", Some(7)),
    (PrefixEntryPoint::Expr, "a . 0.1 < b", Some(5)),
    (PrefixEntryPoint::Expr, "const { 1 } ,", Some(4)),
    (PrefixEntryPoint::Expr, "; a", None),
    (PrefixEntryPoint::Ty, "Vec < Vec < u8 >> a", Some(7)),
    (
        PrefixEntryPoint::Ty,
        "fn ( a ) -> & mut F ( b ) ;",
        Some(12),
    ),
    (PrefixEntryPoint::Path, "a :: b < c , > ( )", Some(8)),
    (
        PrefixEntryPoint::PatTop,
        "| ref mut x @ ( a ) | - 1 ..= 2",
        Some(15),
    ),
    (PrefixEntryPoint::Pat, "S { y } | z", Some(4)),
    (PrefixEntryPoint::MetaItem, "doc = 1 + 2 x", Some(5)),
    (PrefixEntryPoint::Block, "{ a { } } b", Some(5)),
    (PrefixEntryPoint::Vis, "pub ( in a ) b", Some(5)),
    (PrefixEntryPoint::Vis, "pub ( a ) b", Some(1)),
    (PrefixEntryPoint::Vis, "a", Some(0)),
    (PrefixEntryPoint::Stmt, "a ;", None),
    (PrefixEntryPoint::Item, "a ;", None),
];

fn answer_to(alloc: Global, entry: PrefixEntryPoint, text: &str) -> Result<Prefix, TtFault> {
    let tree = tree(alloc, text)?;
    Ok(SmallGrammar.prefix(entry, tree.token_trees()))
}

#[test]
fn answers(rt: HostRuntime) -> Result<(), Fail> {
    for (entry, text, want) in &ROWS {
        let got = answer_to(rt.alloc(), *entry, text)?;
        assert!(rt; got == answer(*want), "{text}: {got:?}");
    }
    Ok(())
}

// Whether the grammars for tests answer as they are meant to on a list of five steps.
fn are_fakes(view: TokenTreesView<'_>) -> bool {
    let empty = TokenTreesView::empty();
    OneStep.prefix(PrefixEntryPoint::Ty, view) == answer(Some(1))
        && AllSteps.prefix(PrefixEntryPoint::Ty, view) == answer(Some(5))
        && AllSteps.prefix(PrefixEntryPoint::Ty, empty) == answer(None)
        && OneStep.prefix(PrefixEntryPoint::Vis, empty) == answer(Some(0))
        && Faults.prefix(PrefixEntryPoint::Vis, view) == answer(None)
}

#[test]
fn other_grammars(rt: HostRuntime) -> Result<(), Fail> {
    let tree = tree(rt.alloc(), "{ a b } c")?;
    let view = tree.token_trees();
    let calls = Cell::new(0);
    let counting = Counting {
        inner: SmallGrammar,
        calls: &calls,
    };
    let place = behind_prefix(&counting, PrefixEntryPoint::Block, view);
    assert!(rt; place.is_root() && calls.get() == 1);
    assert!(rt; place.crossed().len() == 3 && steps(view) == 5 && are_fakes(view));
    Ok(())
}

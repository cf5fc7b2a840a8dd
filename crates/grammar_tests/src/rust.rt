//! The grammar of Rust.
use crate::trees::{answer, repeated, tree};
use fragment_grammar::{FragmentGrammar, Prefix, PrefixEntryPoint};
use rust_grammar::RustGrammar;
use std::alloc::Global;
use std::process::Abort;
use std::test::Fail;
use tt_data::{Edition, TtFault};

// What the grammar is asked for, an edition, a list, and how many steps it takes, or none for a
// fault.
const ROWS: [(PrefixEntryPoint, Edition, &str, Option<usize>); 25] = [
    (
        PrefixEntryPoint::Item,
        Edition::Edition2021,
        "pub const unsafe fn f < T > ( x ) -> Vec < Vec < T >> where T : A { } x",
        Some(26),
    ),
    (
        PrefixEntryPoint::Item,
        Edition::Edition2021,
        "struct S ( u8 ) x",
        None,
    ),
    (
        PrefixEntryPoint::Item,
        Edition::Edition2021,
        "impl < T > ! Send for S < T > { }",
        Some(13),
    ),
    (
        PrefixEntryPoint::Item,
        Edition::Edition2021,
        "macro_rules ! m { } x",
        Some(5),
    ),
    (
        PrefixEntryPoint::Stmt,
        Edition::Edition2021,
        "let Some ( x ) = y else { } ;",
        Some(10),
    ),
    (
        PrefixEntryPoint::Stmt,
        Edition::Edition2021,
        "match a { } - 1",
        Some(4),
    ),
    (
        PrefixEntryPoint::Stmt,
        Edition::Edition2021,
        "match a { } . b - 1 ;",
        Some(8),
    ),
    (
        PrefixEntryPoint::Expr,
        Edition::Edition2021,
        "if a == S { b } else { c } + 1 ,",
        Some(14),
    ),
    (
        PrefixEntryPoint::Expr,
        Edition::Edition2021,
        "move | a , b : u8 | a + b ,",
        Some(11),
    ),
    (
        PrefixEntryPoint::Expr,
        Edition::Edition2021,
        "a as u8 < b ,",
        Some(5),
    ),
    (PrefixEntryPoint::Expr, Edition::Edition2021, "a as ;", None),
    (
        PrefixEntryPoint::Expr,
        Edition::Edition2021,
        "S { a } . b",
        Some(6),
    ),
    (
        PrefixEntryPoint::Expr,
        Edition::Edition2015,
        "async + 1",
        Some(3),
    ),
    (
        PrefixEntryPoint::Expr,
        Edition::Edition2018,
        "async + 1",
        None,
    ),
    (
        PrefixEntryPoint::Expr,
        Edition::Edition2021,
        "gen + 1",
        Some(3),
    ),
    (
        PrefixEntryPoint::Expr,
        Edition::Edition2024,
        "gen + 1",
        None,
    ),
    (
        PrefixEntryPoint::Ty,
        Edition::Edition2021,
        "Vec < Vec < u8 >> a",
        Some(7),
    ),
    (
        PrefixEntryPoint::Ty,
        Edition::Edition2021,
        "& ' a mut dyn for < ' b > Fn ( u8 ) -> u8 ;",
        Some(17),
    ),
    (
        PrefixEntryPoint::Path,
        Edition::Edition2021,
        "a :: b < c , > ( )",
        Some(8),
    ),
    (
        PrefixEntryPoint::PatTop,
        Edition::Edition2021,
        "| ref mut x @ ( a ) | - 1 ..= 2 =",
        Some(15),
    ),
    (
        PrefixEntryPoint::Pat,
        Edition::Edition2021,
        "S { y } | z",
        Some(4),
    ),
    (
        PrefixEntryPoint::MetaItem,
        Edition::Edition2021,
        "doc = 1 + 2 x",
        Some(5),
    ),
    (
        PrefixEntryPoint::Block,
        Edition::Edition2021,
        "{ a { } } b",
        Some(5),
    ),
    (
        PrefixEntryPoint::Vis,
        Edition::Edition2021,
        "pub ( in a ) b",
        Some(5),
    ),
    (PrefixEntryPoint::Vis, Edition::Edition2021, "a", Some(0)),
];

// What begins no fragment by rustc 1.95, which then goes on with the next rule, and what ends one
// early.
const BEGINNINGS: [(PrefixEntryPoint, Edition, &str, Option<usize>); 28] = [
    (
        PrefixEntryPoint::Path,
        Edition::Edition2021,
        "< T as X > :: Y",
        None,
    ),
    (
        PrefixEntryPoint::Path,
        Edition::Edition2021,
        "< T > :: f ( 1 )",
        None,
    ),
    (
        PrefixEntryPoint::PatTop,
        Edition::Edition2021,
        "..= 9",
        None,
    ),
    (PrefixEntryPoint::Pat, Edition::Edition2018, "..= 9", None),
    (
        PrefixEntryPoint::PatTop,
        Edition::Edition2021,
        "a @ ..= 9",
        Some(6),
    ),
    (PrefixEntryPoint::Vis, Edition::Edition2021, "", None),
    (PrefixEntryPoint::Vis, Edition::Edition2021, "= a", None),
    (PrefixEntryPoint::Vis, Edition::Edition2021, ", a", Some(0)),
    (
        PrefixEntryPoint::Ty,
        Edition::Edition2021,
        "< T > :: m ! ( )",
        Some(6),
    ),
    (
        PrefixEntryPoint::PatTop,
        Edition::Edition2021,
        "< T > :: m ! ( )",
        Some(6),
    ),
    (PrefixEntryPoint::Ty, Edition::Edition2021, "!= x", None),
    (PrefixEntryPoint::Ty, Edition::Edition2021, "! = x", Some(1)),
    (
        PrefixEntryPoint::Stmt,
        Edition::Edition2021,
        "safe fn f ( ) ;",
        Some(1),
    ),
    (
        PrefixEntryPoint::Item,
        Edition::Edition2021,
        "safe fn f ( ) ;",
        Some(6),
    ),
    (
        PrefixEntryPoint::Stmt,
        Edition::Edition2015,
        "async unsafe fn f ( ) { }",
        Some(1),
    ),
    (
        PrefixEntryPoint::Stmt,
        Edition::Edition2018,
        "async unsafe fn f ( ) { }",
        Some(8),
    ),
    (
        PrefixEntryPoint::Stmt,
        Edition::Edition2021,
        "gen fn f ( ) { }",
        Some(1),
    ),
    (
        PrefixEntryPoint::Stmt,
        Edition::Edition2024,
        "gen fn f ( ) { }",
        Some(7),
    ),
    (
        PrefixEntryPoint::Expr,
        Edition::Edition2021,
        "become x",
        None,
    ),
    (
        PrefixEntryPoint::Expr,
        Edition::Edition2021,
        "a + become x",
        Some(4),
    ),
    (
        PrefixEntryPoint::Expr,
        Edition::Edition2021,
        "continue ( )",
        Some(3),
    ),
    (
        PrefixEntryPoint::Expr,
        Edition::Edition2021,
        "continue . x",
        Some(3),
    ),
    (
        PrefixEntryPoint::Expr,
        Edition::Edition2021,
        ".. _",
        Some(2),
    ),
    (
        PrefixEntryPoint::Stmt,
        Edition::Edition2021,
        "super let a = 1 ;",
        Some(5),
    ),
    (
        PrefixEntryPoint::Ty,
        Edition::Edition2021,
        "& pin mut a ,",
        Some(4),
    ),
    (
        PrefixEntryPoint::Expr,
        Edition::Edition2021,
        "a :: ( b ) -> c ,",
        Some(9),
    ),
    (
        PrefixEntryPoint::Expr,
        Edition::Edition2021,
        "return . a ? + 1 ,",
        Some(6),
    ),
    (
        PrefixEntryPoint::Expr,
        Edition::Edition2021,
        "for i in 0 .. { } ,",
        Some(8),
    ),
];

fn answer_in(
    alloc: Global,
    edition: Edition,
    entry: PrefixEntryPoint,
    text: &str,
) -> Result<Prefix, TtFault> {
    let tree = tree(alloc, text)?;
    Ok(RustGrammar::new(edition).prefix(entry, tree.token_trees()))
}

fn check_rows(
    alloc: Global,
    rt: &impl Abort,
    rows: &[(PrefixEntryPoint, Edition, &str, Option<usize>)],
) -> Result<(), Fail> {
    for (entry, edition, text, want) in rows {
        let got = answer_in(alloc, *edition, *entry, text)?;
        assert!(rt; got == answer(*want), "{text}: {got:?}");
    }
    Ok(())
}

#[test]
fn answers(rt: HostRuntime) -> Result<(), Fail> {
    check_rows(rt.alloc(), &rt, &ROWS)
}

#[test]
fn beginnings(rt: HostRuntime) -> Result<(), Fail> {
    check_rows(rt.alloc(), &rt, &BEGINNINGS)
}

// Lists whose rules stand in one another without end.
const NESTED: [(PrefixEntryPoint, &str); 12] = [
    (PrefixEntryPoint::Expr, "if"),
    (PrefixEntryPoint::Expr, "match"),
    (PrefixEntryPoint::Expr, "while"),
    (PrefixEntryPoint::Expr, "return"),
    (PrefixEntryPoint::Expr, "| x |"),
    (PrefixEntryPoint::Expr, "if let x ="),
    (PrefixEntryPoint::Ty, "A <"),
    (PrefixEntryPoint::Ty, "fn ( ) ->"),
    (PrefixEntryPoint::Ty, "< A as"),
    (PrefixEntryPoint::PatTop, "&"),
    (PrefixEntryPoint::PatTop, "a @"),
    (PrefixEntryPoint::Item, "impl A <"),
];

// The answer for a text again and again, and then another.
fn answer_to_many(
    alloc: Global,
    entry: PrefixEntryPoint,
    unit: &str,
    times: usize,
    last: &str,
) -> Result<Prefix, TtFault> {
    let tree = repeated(alloc, unit, times, last)?;
    Ok(RustGrammar::new(Edition::Edition2021).prefix(entry, tree.token_trees()))
}

#[test]
fn nested_rules_end(rt: HostRuntime) -> Result<(), Fail> {
    for (entry, unit) in &NESTED {
        let got = answer_to_many(rt.alloc(), *entry, unit, 5000, "x")?;
        assert!(rt; got == answer(None), "{unit}: {got:?}");
    }
    Ok(())
}

#[test]
fn many_signs(rt: HostRuntime) -> Result<(), Fail> {
    for (unit, times) in [("-", 100_000), ("1 +", 50_000), ("x =", 50_000)] {
        let got = answer_to_many(rt.alloc(), PrefixEntryPoint::Expr, unit, times, "1")?;
        assert!(rt; got == answer(Some(100_001)), "{unit}: {got:?}");
    }
    Ok(())
}

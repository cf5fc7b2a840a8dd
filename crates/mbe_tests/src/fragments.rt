//! What a grammar takes at the head of a list.
use crate::texts::{bracket, call_site, tree};
use mbe::{ExpandResult, FragmentGrammar, PrefixEntryPoint, expect_fragment};
use std::alloc::Global;
use std::test::Fail;
use test_grammars::{AllSteps, Faults, OneStep};
use tt::{DelimSpan, TokenTreesView};

// A grammar, what it is asked for, and a list; the trees that are passed, those that remain, and
// the error with its range.
const ROWS: [(&str, PrefixEntryPoint, &str, &str); 6] = [
    ("OneStep", PrefixEntryPoint::Expr, "a b", "a | b |"),
    (
        "OneStep",
        PrefixEntryPoint::Ty,
        "(a b) c",
        "(a b) | c | expected Ty at 0..1",
    ),
    ("OneStep", PrefixEntryPoint::Vis, "", " |  |"),
    (
        "OneStep",
        PrefixEntryPoint::Item,
        "",
        " |  | expected Item at 77..78",
    ),
    ("AllSteps", PrefixEntryPoint::Block, "{a} b", "{a} b |  |"),
    (
        "Faults",
        PrefixEntryPoint::Vis,
        "a",
        " | a | expected Vis at 0..1",
    ),
];

// What is passed, what remains and the error, written as an example.
fn told(
    alloc: Global,
    found: &ExpandResult<TokenTreesView<'_>>,
    left: TokenTreesView<'_>,
) -> Result<String, Fail> {
    let Some(err) = &found.err else {
        return Ok(format!(in alloc; "{} | {left} |", found.value)?);
    };
    let at = err.span().range;
    Ok(format!(in alloc;
        "{} | {left} | {err} at {}..{}",
        found.value, at.start, at.end
    )?)
}

// What a grammar passes of a text.
fn passed<G: FragmentGrammar>(
    alloc: Global,
    grammar: &G,
    entry: PrefixEntryPoint,
    text: &str,
) -> Result<String, Fail> {
    let tree = tree(alloc, text)?;
    let mut rest = tree.iter();
    let end = DelimSpan::from_pair(bracket(90), call_site());
    let found = expect_fragment(alloc, grammar, &mut rest, entry, end)?;
    told(alloc, &found, rest.remaining())
}

// The same, with the grammar by its name.
fn passed_by(
    alloc: Global,
    grammar: &str,
    entry: PrefixEntryPoint,
    text: &str,
) -> Result<String, Fail> {
    match grammar {
        "OneStep" => passed(alloc, &OneStep, entry, text),
        "AllSteps" => passed(alloc, &AllSteps, entry, text),
        _ => passed(alloc, &Faults, entry, text),
    }
}

#[test]
fn are_passed(rt: HostRuntime) -> Result<(), Fail> {
    for (grammar, entry, text, want) in &ROWS {
        let got = passed_by(rt.alloc(), grammar, *entry, text)?;
        assert!(rt; got.as_str() == *want, "{grammar} on {text}: {got}");
    }
    Ok(())
}

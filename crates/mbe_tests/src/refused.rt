//! Definitions, the results of their calls, and fragments: for runs in which one request for
//! memory is refused.
use crate::texts::{Answer, at_2024, call_site, defined, given, made, tree};
use mbe::{DeclarativeMacro, ExpandResult, MacroCallStyle, PrefixEntryPoint, expect_fragment};
use small_grammar::SmallGrammar;
use std::alloc::Global;
use std::test::Fail;
use test_grammars::OneStep;
use tt::{DelimSpan, Delimiter, Edition, TokenTreesView, TopSubtree, TtFault, TtIter};

// Rules, an argument, and the result: the index of the rule, the error with its range, and the
// tree.
const ROWS: [(&str, &str, &str); 2] = [
    (
        "(no) => {}; ($($x:ident = $v:expr),*) => { $($x = $v; ${concat($x, 1)} ${index()})* ${count($x)} }",
        "a = 1 + 2, b = 3",
        "Some(1)  a = (1 + 2) ; a1 0 b = 3 ; b1 1 2",
    ),
    (
        "(a $x:ty) => {x $x}; (b) => {y}",
        "a ;",
        "Some(0) expected Ty 2..3 x missing",
    ),
];

// The macro of a body by `macro`, with an argument if there is one. A refused call is made once
// more.
fn by_word(
    alloc: Global,
    argument: Option<&TopSubtree>,
    body: &str,
) -> Result<DeclarativeMacro, Fail> {
    let body = tree(alloc, body)?;
    match DeclarativeMacro::parse_macro2(alloc, argument, &body, at_2024) {
        Err(TtFault::Memory) => {
            Ok(DeclarativeMacro::parse_macro2(alloc, argument, &body, at_2024)?)
        }
        answer => Ok(answer?),
    }
}

// A copy of a macro. A refused call is made once more.
fn copied(alloc: Global, found: &DeclarativeMacro) -> Result<DeclarativeMacro, Fail> {
    let copy = match found.try_clone(alloc) {
        Err(TtFault::Memory) => found.try_clone(alloc)?,
        answer => answer?,
    };
    if copy != *found || copy.err().is_some() {
        return Err(Fail::new("a copy differs, or the definition is broken"));
    }
    Ok(copy)
}

// The rule that fits, and what it gives inside these delimiters. A refused call is made once more.
fn fit(
    alloc: Global,
    found: &DeclarativeMacro,
    argument: &TopSubtree,
    top: Delimiter,
) -> Result<Option<(u32, TopSubtree)>, TtFault> {
    if found.err().is_some() {
        return Ok(None);
    }
    let view = argument.token_trees();
    let style = MacroCallStyle::FnLike;
    match found.fit(alloc, &SmallGrammar, view, &made, style, top) {
        Err(TtFault::Memory) => found.fit(alloc, &SmallGrammar, view, &made, style, top),
        answer => answer,
    }
}

// Whether this is the result of a call whose rule fits.
fn is_given(fit: &Option<(u32, TopSubtree)>, answer: &Answer) -> bool {
    match (fit, &answer.err) {
        (Some((rule, tree)), None) => { answer.value.1 == Some(*rule) && *tree == answer.value.0 }
        (None, Some(_)) => true,
        _ => false,
    }
}

// A result, written as an example.
fn shown(alloc: Global, answer: &Answer) -> Result<String, TtFault> {
    let (tree, rule) = &answer.value;
    let Some(err) = &answer.err else {
        return Ok(format!(in alloc; "{rule:?}  {tree}")?);
    };
    let range = err.span().range;
    Ok(format!(in alloc; "{rule:?} {err} {}..{} {tree}", range.start, range.end)?)
}

// Whether this is how a result is written. A refused call is made once more.
fn is_shown(alloc: Global, answer: &Answer, want: &str) -> Result<bool, TtFault> {
    let got = match shown(alloc, answer) {
        Err(TtFault::Memory) => shown(alloc, answer)?,
        got => got?,
    };
    Ok(got.as_str() == want)
}

// Whether this is the result of a call by both ways.
fn is_answered(
    alloc: Global,
    found: &DeclarativeMacro,
    argument: &TopSubtree,
    want: &str,
) -> Result<bool, Fail> {
    let answer = given(
        alloc,
        &SmallGrammar,
        found,
        argument,
        MacroCallStyle::FnLike,
    )?;
    let top = answer.value.0.top_subtree().delimiter;
    let is_same = is_given(&fit(alloc, found, argument, top)?, &answer);
    Ok(is_same && is_shown(alloc, &answer, want)?)
}

// A copy of the macro of these rules.
fn copy_of(alloc: Global, rules: &str) -> Result<DeclarativeMacro, Fail> {
    copied(alloc, &defined(alloc, rules, Edition::Edition2024)?)
}

fn is_row(alloc: Global, row: &(&str, &str, &str)) -> Result<bool, Fail> {
    let (rules, argument, want) = *row;
    let found = copy_of(alloc, rules)?;
    is_answered(alloc, &found, &tree(alloc, argument)?, want)
}

#[test]
fn refused_calls(rt: HostRuntime) -> Result<(), Fail> {
    for row in &ROWS {
        assert!(rt; is_row(rt.alloc(), row)?, "{}", row.0);
    }
    Ok(())
}

// How many rules there are with this argument.
fn count_with(alloc: Global, argument: &str, body: &str) -> Result<usize, Fail> {
    let argument = tree(alloc, argument)?;
    Ok(by_word(alloc, Some(&argument), body)?.num_rules())
}

#[test]
fn refused_words(rt: HostRuntime) -> Result<(), Fail> {
    assert!(rt; count_with(rt.alloc(), "$x:expr", "$x + 1")? == 1);
    let body = "(a) => {b}, (c) => {d}; (e) => {f}";
    assert!(rt; by_word(rt.alloc(), None, body)?.num_rules() == 3);
    Ok(())
}

// The type at the head of four tokens. A refused call passes nothing, and is made once more.
fn passed<'a>(
    alloc: Global,
    rest: &mut TtIter<'a>,
) -> Result<ExpandResult<TokenTreesView<'a>>, TtFault> {
    let end = DelimSpan::from_single(call_site());
    match expect_fragment(alloc, &OneStep, rest, PrefixEntryPoint::Ty, end) {
        Err(TtFault::Memory) if rest.remaining().len() == 4 => {
            expect_fragment(alloc, &OneStep, rest, PrefixEntryPoint::Ty, end)
        }
        answer => answer,
    }
}

// A group of which one step is taken is passed as a whole, with an error.
fn is_passed(alloc: Global) -> Result<bool, Fail> {
    let tree = tree(alloc, "(a b) c")?;
    let mut rest = tree.iter();
    let found = passed(alloc, &mut rest)?;
    Ok(found.err.is_some() && found.value.len() == 3 && rest.remaining().len() == 1)
}

#[test]
fn refused_fragments(rt: HostRuntime) -> Result<(), Fail> {
    assert!(rt; is_passed(rt.alloc())?);
    Ok(())
}

//! A definition and an argument, as texts, and what is told of the rules.
use bridge::{Read, read};
use bumpalo::Bump;
use mbe::{DeclarativeMacro, MacroCallStyle};
use mbe_explain::{Explanation, RuleStop, Stop, StopKind, explain_call};
use rust_grammar::RustGrammar;
use rustc_lexer::LexedText;
use std::alloc::{AllocError, Global};
use std::test::Fail;
use tt::{Edition, SyntaxContext, TopSubtree};

/// The trees of a text that is short and has no reading fault.
pub(crate) fn tree(alloc: Global, text: &str) -> Result<TopSubtree, Fail> {
    if text.len() >= 100_000 {
        return Err(Fail::new("a text is long"));
    }
    let held = LexedText::new(alloc, text)?;
    match read(alloc, held.text(), held.tokens())? {
        Read::Tree(tree) => Ok(tree),
        Read::Fault(_fault) => Err(Fail::new("a text is not read")),
    }
}

fn at_2024(_context: SyntaxContext) -> Edition {
    Edition::Edition2024
}

// What a stop is, in one word.
fn kind_word(kind: StopKind) -> &'static str {
    match kind {
        StopKind::Matches => "matches",
        StopKind::Unread => "unread",
        StopKind::Ambiguous => "ambiguous",
        StopKind::TwoReadings => "two readings",
    }
}

// Adds what is told of a matcher: the kind, where, and what is wanted there.
fn push_stop(line: &mut String, stop: &Stop<'_>) -> Result<(), AllocError> {
    line.push_str(kind_word(stop.kind))?;
    match stop.at {
        Some(span) => write!(line, " at {}..{}", span.range.start, span.range.end)?,
        None => line.push_str(" at the end")?,
    }
    let mut mark = " wants ";
    for wanted in &stop.wanted {
        write!(line, "{mark}{wanted}")?;
        mark = ", ";
    }
    Ok(())
}

// Adds what is told of a rule, which has its number from 1.
fn push_rule(line: &mut String, told: &RuleStop<'_>) -> Result<(), AllocError> {
    let number = told.index.saturating_add(1);
    write!(line, "{number} ")?;
    push_stop(line, &told.stop)?;
    if told.fits {
        line.push_str(" fits")?;
    }
    Ok(())
}

// What is told of all rules, and the number of the nearest.
fn line_of(alloc: Global, told: &Explanation<'_>) -> Result<String, AllocError> {
    let mut line = String::new(alloc);
    if let Some(place) = told.nearest {
        write!(line, "{}", place.saturating_add(1))?;
    }
    for rule in &told.rules {
        line.push_str("; ")?;
        push_rule(&mut line, rule)?;
    }
    Ok(line)
}

/// What is told of these rules for an argument, in one line.
pub(crate) fn told(alloc: Global, rules: &str, argument: &str) -> Result<String, Fail> {
    let body = tree(alloc, rules)?;
    let found = DeclarativeMacro::parse_macro_rules(alloc, &body, at_2024)?;
    if found.err().is_some() {
        return Err(Fail::new("the definition is broken"));
    }
    let argument = tree(alloc, argument)?;
    let arena = Bump::new(alloc);
    let told = explain_call(
        alloc,
        &arena,
        &RustGrammar::new(Edition::Edition2024),
        &found,
        argument.token_trees(),
        MacroCallStyle::FnLike,
    )?;
    Ok(line_of(alloc, &told)?)
}

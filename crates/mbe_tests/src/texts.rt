//! A definition and a call, as texts, and the text that the call's result prints. Each call that
//! takes memory is made once more if it is refused.
ghost use Rattle.std.specs.Prelude.{◌≡◌, ◌<◌, ◌^◌, IfOk, length};

use bridge::{Read, print, read};
use mbe::{DeclarativeMacro, ExpandResult, FragmentGrammar, MacroCallStyle, MatchedArmIndex};
use rustc_lexer::LexedText;
use std::alloc::{AllocError, Global};
use std::test::Fail;
use tt::{DelimSpan, Edition, Span, SyntaxContext, TextRange, TopSubtree, TtFault};

/// The result of a call: a tree and the rule, and the error.
pub(crate) type Answer = ExpandResult<(TopSubtree, MatchedArmIndex)>;

// A text with its tokens.
fn lexed(alloc: Global, text: &str) -> Result<LexedText, AllocError>
    requires { length text.now < 2 ^ 32 }
    ensures { IfOk result (λ t. t ≡ text.now) }
{
    match LexedText::new(alloc, text) {
        Ok(held) => Ok(held),
        Err(_) => LexedText::new(alloc, text),
    }
}

// The trees of a text, or its reading fault.
fn read_of(alloc: Global, held: &LexedText) -> Result<Read, TtFault>
    requires { length held.now < 2 ^ 32 }
{
    match read(alloc, held.text(), held.tokens()) {
        Err(TtFault::Memory) => read(alloc, held.text(), held.tokens()),
        answer => answer,
    }
}

/// The trees of a text that is short and has no reading fault.
pub(crate) fn tree(alloc: Global, text: &str) -> Result<TopSubtree, Fail> {
    if text.len() >= 100_000 {
        return Err(Fail::new("a text is long"));
    }
    match read_of(alloc, &lexed(alloc, text)?)? {
        Read::Tree(tree) => Ok(tree),
        Read::Fault(_fault) => Err(Fail::new("a text is not read")),
    }
}

/// The edition of all identifiers.
pub(crate) fn at_2021(_context: SyntaxContext) -> Edition {
    Edition::Edition2021
}

pub(crate) fn at_2024(_context: SyntaxContext) -> Edition {
    Edition::Edition2024
}

/// Marks a span as that of a synthesized token.
pub(crate) fn made(span: Span) -> Span {
    Span {
        range: span.range,
        anchor: span.anchor,
        ctx: SyntaxContext::Made,
    }
}

/// The span of the calls.
pub(crate) fn call_site() -> Span {
    Span {
        range: TextRange { start: 77, end: 78 },
        anchor: 3,
        ctx: SyntaxContext::Written,
    }
}

/// A byte of no text: the span of a delimiter of an argument.
pub(crate) fn bracket(start: u32) -> Span {
    Span {
        range: TextRange {
            start,
            end: start.saturating_add(1),
        },
        anchor: 3,
        ctx: SyntaxContext::Written,
    }
}

// The macro of a body by `macro_rules!`.
fn parsed(alloc: Global, body: &TopSubtree, edition: Edition) -> Result<DeclarativeMacro, TtFault> {
    if edition == Edition::Edition2024 {
        return DeclarativeMacro::parse_macro_rules(alloc, body, at_2024);
    }
    DeclarativeMacro::parse_macro_rules(alloc, body, at_2021)
}

/// The macro of these rules by `macro_rules!`.
pub(crate) fn defined(
    alloc: Global,
    rules: &str,
    edition: Edition,
) -> Result<DeclarativeMacro, Fail> {
    let body = tree(alloc, rules)?;
    match parsed(alloc, &body, edition) {
        Err(TtFault::Memory) => Ok(parsed(alloc, &body, edition)?),
        answer => Ok(answer?),
    }
}

/// The result of a call.
pub(crate) fn given<G: FragmentGrammar>(
    alloc: Global,
    grammar: &G,
    found: &DeclarativeMacro,
    argument: &TopSubtree,
    style: MacroCallStyle,
) -> Result<Answer, Fail> {
    if found.err().is_some() {
        return Err(Fail::new("the definition is broken"));
    }
    match found.expand(alloc, grammar, argument, &made, style, call_site()) {
        Err(TtFault::Memory) => {
            Ok(found.expand(alloc, grammar, argument, &made, style, call_site())?)
        }
        answer => Ok(answer?),
    }
}

fn number_of(alloc: Global, rule: MatchedArmIndex) -> Result<String, AllocError> {
    match rule {
        Some(number) => format!(in alloc; "{number}"),
        None => String::from_str(alloc, "none"),
    }
}

fn printed(alloc: Global, tree: &TopSubtree) -> Result<String, Fail> {
    Ok(
        print(alloc, tree.token_trees())?
            .text
            .replace(alloc, "\n", "⏎")?,
    )
}

// The result of a call, in one line.
fn shown(alloc: Global, answer: &Answer) -> Result<String, Fail> {
    let (tree, rule) = &answer.value;
    let number = number_of(alloc, *rule)?;
    let Some(err) = &answer.err else {
        return Ok(format!(in alloc; "{number} {}", printed(alloc, tree)?)?);
    };
    let range = err.span().range;
    Ok(format!(in alloc;
        "none: {err} ({}..{}, {number}) {tree}",
        range.start, range.end
    )?)
}

// An argument, which opens at 90..91 and closes at 92..93.
fn argument_of(alloc: Global, text: &str) -> Result<TopSubtree, Fail> {
    let mut argument = tree(alloc, text)?;
    argument.set_top_subtree_delimiter_span(DelimSpan::from_pair(bracket(90), bracket(92)));
    Ok(argument)
}

/// The result of a call, in one line.
pub(crate) fn told<G: FragmentGrammar>(
    alloc: Global,
    grammar: &G,
    found: &DeclarativeMacro,
    argument: &TopSubtree,
) -> Result<String, Fail> {
    shown(
        alloc,
        &given(alloc, grammar, found, argument, MacroCallStyle::FnLike)?,
    )
}

/// The result of a call of these rules, in one line.
pub(crate) fn answered<G: FragmentGrammar>(
    alloc: Global,
    grammar: &G,
    edition: Edition,
    rules: &str,
    argument: &str,
) -> Result<String, Fail> {
    let found = defined(alloc, rules, edition)?;
    told(alloc, grammar, &found, &argument_of(alloc, argument)?)
}

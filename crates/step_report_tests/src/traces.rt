//! What is told of the calls of texts.
use call_expansion::text_call::CallOptions;
use expander_model::dialect::Dialect;
use expander_sources::prelude::Prelude;
use expander_sources::source::{Source, SourceRead};
use expander_trace::limits::Limits;
use rust_grammar::RustGrammar;
use std::alloc::{AllocError, Global};
use std::test::Fail;
use step_report::{Answer, Question, Texts, answer_to};
use tt_data::{Edition, TtFault};

/// What is traced where nothing limits it.
pub(crate) const ALL: Limits = Limits {
    steps: 1000,
    tokens: 1000000,
};

// The definitions of a short text, as source 1.
fn prelude_of(alloc: Global, text: &str) -> Result<Prelude, TtFault> {
    let mut prelude = Prelude::new(alloc);
    if text.len() > 1000000 {
        return Ok(prelude);
    }
    let SourceRead::Read(source) = Source::new(alloc, text, 1, None)? else {
        return Ok(prelude);
    };
    for i in 0..source.len() {
        prelude.push(alloc, &source, i)?;
    }
    Ok(prelude)
}

// The names of the other texts.
fn names_of(alloc: Global) -> Result<Vec<String>, AllocError> {
    let mut names = Vec::new(alloc);
    names.push(String::from_str(alloc, "other.rs")?)?;
    Ok(names)
}

/// What is told of a short text after the definitions of another: its lines, and whether a call
/// stays for a fault. `unread` if it cannot be read.
pub(crate) fn told(
    alloc: Global,
    other: &str,
    text: &str,
    question: Question,
) -> Result<(String, bool), TtFault> {
    if text.len() > 1000000 {
        return Ok((String::from_str(alloc, "too long")?, true));
    }
    let prelude = prelude_of(alloc, other)?;
    let edition = Edition::Edition2024;
    let grammar = RustGrammar::new(edition);
    let by = CallOptions {
        grammar: &grammar,
        edition,
        dialect: &Dialect::rust(),
        depth: 128,
    };
    let names = names_of(alloc)?;
    let texts = Texts::of(alloc, "calls.rs", text, &names)?;
    match answer_to(alloc, &texts, &by, &prelude, question)? {
        Answer::Told(lines) => Ok((lines.text, lines.stays)),
        Answer::Unread(_) => Ok((String::from_str(alloc, "unread")?, true)),
    }
}

/// Fails with a text if that is not what is expected.
pub(crate) fn expect(got: &str, want: &str) -> Result<(), Fail> {
    if got == want {
        return Ok(());
    }
    Err(Fail::new(got))
}

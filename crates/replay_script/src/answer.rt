//! Answers a line of a script.
ghost use Rattle.std.specs.Prelude.{◌≡◌, ◌<◌, ◌≤◌, ◌^◌, length, string_bytes};
ghost use Rattle.expander_session.specs.State.{layers_of};
ghost use Rattle.replay_script.specs.LineTurns.{IsAnswerable, Keeps, LineTurn, Picks, Reads};

use crate::line::{Line, Pick};
use crate::sources::{Picked, Sources};
use expander::{Answer, Home, ReadFault, Refusal, Session, Source, SourceRead};
use expander_session::commands::answer_to;
use fragment_grammar::FragmentGrammar;
use std::alloc::{AllocError, Global};

/// The answer to a line.
#[derive(Drop)]
pub enum LineAnswer {
    /// To a command.
    Command(Answer),
    /// The text is read as the source of this number, with so many definitions.
    Source {
        number: u32,
        definitions: usize,
    },
    /// This text, which was to be the source of this number, cannot be read as trees. No source
    /// changes.
    Unread {
        number: u32,
        text: String,
        fault: ReadFault,
    },
    /// The text is expanded after this many definitions that are seen by their names.
    Prelude(usize),
    /// There is no such source, or no such index. Nothing changes.
    BadPrelude,
    /// A source or a prelude was refused. Nothing changes.
    Refused(Refusal),
}

// A source that was read is kept.
fn put_answer(sources: &mut Sources, source: Source) -> LineAnswer
    ensures { Keeps sources.old sources.new source result }
{
    let (number, definitions) = (source.number(), source.len());
    match sources.put(source) {
        Ok(()) => LineAnswer::Source {
            number,
            definitions,
        },
        Err(AllocError) => LineAnswer::Refused(Refusal::Memory),
    }
}

// A text is read as a source.
fn source_answer(
    alloc: Global,
    sources: &mut Sources,
    number: u32,
    home: Option<Home>,
    text: String,
) -> LineAnswer
    requires number { 1 ≤ number }
    requires fits { length (string_bytes text) < 2 ^ 32 }
    ensures { Reads sources.old sources.new number home (string_bytes text) result }
{
    match Source::new(alloc, text.as_str(), number, home) {
        Ok(SourceRead::Read(source)) => put_answer(sources, source),
        Ok(SourceRead::Unread(fault)) => LineAnswer::Unread {
            number,
            text,
            fault,
        },
        Err(fault) => LineAnswer::Refused(Refusal::from(fault)),
    }
}

// The text is expanded after what words pick.
fn prelude_answer<G: FragmentGrammar + Drop>(
    alloc: Global,
    session: &mut Session<G>,
    sources: &Sources,
    picks: &[Pick],
) -> LineAnswer
    ensures { Picks session.old session.new sources.now picks.now result }
{
    match sources.picked(alloc, picks) {
        Ok(Some(picked)) => {
            let Picked { prelude, named } = picked;
            session.set_prelude(prelude);
            LineAnswer::Prelude(named)
        }
        Ok(None) => LineAnswer::BadPrelude,
        Err(fault) => LineAnswer::Refused(Refusal::from(fault)),
    }
}

/// The answer to a line.
pub(crate) fn answer_of<G: FragmentGrammar + Drop>(
    alloc: Global,
    session: &mut Session<G>,
    sources: &mut Sources,
    line: Line,
) -> LineAnswer
    requires { IsAnswerable line }
    ensures { LineTurn (layers_of G.answer session.old) session.old session.new sources.old
        sources.new line result }
{
    match line {
        Line::Command(command) => LineAnswer::Command(answer_to(session, &command)),
        Line::Source { number, home, text } => { source_answer(alloc, sources, number, home, text) }
        Line::Prelude(picks) => prelude_answer(alloc, session, sources, picks.as_slice()),
    }
}

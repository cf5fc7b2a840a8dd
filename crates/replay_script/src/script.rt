//! Answers a script line by line, and keeps nothing of a line that was answered.
ghost use Rattle.std.specs.Prelude.{◌≡◌, ◌↔◌, ◌<◌, ◌^◌, [], IfOk, IsTrue, None, OnOk, false};
ghost use Rattle.std.specs.Prelude.{length, string_bytes};
ghost use Rattle.std.specs.Io.KnownBytes.{Appends, Consumes};
ghost use Rattle.expander_session.specs.State.{layers_of as session_layers};
ghost use Rattle.expander.specs.Runs.{layers_of};
ghost use Rattle.replay_script.specs.LineTurns.{AnswersLine, IsAnswerable, IsNew, IsNext, LineTurn};
ghost use Rattle.replay_script.specs.LineTurns.{ReadsLine};
ghost use Rattle.replay_script.specs.Replays.{Answers, asking};
ghost use Rattle.replay_script.specs.Written.{written};
ghost use Rattle.replay_script.specs.declared.answer.LineAnswer.{LineAnswer as LineAnswerOf};

use crate::answer::answer_of;
use crate::form::{Form, Style, written};
use crate::line::{Line, Wrong, read_line};
use crate::sources::Sources;
use expander::{Options, Prelude, Session, Watched, put};
use fragment_grammar::FragmentGrammar;
use std::alloc::{AllocError, Global};
use std::io;
use std::io::{BufRead, Write};

/// Why answering ends.
#[derive(Clone, Copy, PartialEq, Eq, Debug)]
pub enum End {
    /// The script has no further line.
    Whole,
    /// The next line is wrong.
    Wrong(Wrong),
    /// The next line could not be read.
    ReadFailed,
    /// An answer could not be written.
    WriteFailed,
    /// The next line or its answer found no memory.
    Memory,
    /// There are more lines than numbers for them.
    TooLong,
}

/// How many lines of a script were read, and why no more were.
#[derive(Clone, Copy, PartialEq, Eq, Debug)]
pub struct Answered {
    pub lines: usize,
    pub end: End,
}

// Whether this line, after so many others, asks for origins.
fn asks_for_origins(lines: usize, line: &[u8]) -> bool
    ensures { IsTrue result ↔ ((lines ≡ 0) × (line.now ≡ asking)) }
{
    lines == 0 && line == b"origins\n".as_slice()
}

// Reads the next line in the place of what these bytes were. `Whole` if there is none.
fn next_line<R: BufRead>(reader: &mut R, bytes: &mut Vec<u8>) -> Result<(), End>
    ensures read { Consumes (R.remaining reader.old) (R.remaining reader.new) bytes.new.items }
    ensures line { ReadsLine (R.remaining reader.old) bytes.new.items result }
{
    bytes.clear();
    match reader.read_until(b'\n', bytes) {
        Ok(0) => Err(End::Whole),
        Ok(_) => Ok(()),
        Err(error) => {
            if error.kind() == io::ErrorKind::OutOfMemory {
                Err(End::Memory)
            } else {
                Err(End::ReadFailed)
            }
        }
    }
}

// The answer to a line, as it is written.
fn told_of<G: FragmentGrammar + Drop>(
    alloc: Global,
    session: &mut Session<G>,
    sources: &mut Sources,
    line: Line,
    style: Style,
) -> Result<String, AllocError>
    requires line { IsAnswerable line }
    requires short { length session.old.text < 2 ^ 32 }
    ensures { IfOk result (λ told. (answer : LineAnswerOf)
        × LineTurn (session_layers G.answer session.old) session.old session.new
        sources.old sources.new line answer
        × (string_bytes told ≡ written style.form style.origins session.new.text answer)) }
{
    let answer = answer_of(alloc, session, sources, line);
    written(alloc, style, session.text(), &answer)
}

// Answers a line.
fn answer_line<G: FragmentGrammar + Drop, W: Write>(
    alloc: Global,
    session: &mut Session<G>,
    sources: &mut Sources,
    writer: &mut Watched<W>,
    bytes: &[u8],
    style: Style,
) -> Result<(), End>
    requires next { IsNext bytes.now }
    requires short { length session.old.text < 2 ^ 32 }
    requires fresh { writer.old.failed ≡ false }
    ensures line { AnswersLine (session_layers G.answer session.old) session.old session.new
        sources.old sources.new bytes.now style.form style.origins
        (Appends (W.contents writer.old.inner) (W.contents writer.new.inner)) result }
    ensures fresh { OnOk result (writer.new.failed ≡ false) }
{
    let line = match read_line(alloc, bytes) {
        Ok(Ok(line)) => line,
        Ok(Err(wrong)) => return Err(End::Wrong(wrong)),
        Err(AllocError) => return Err(End::Memory),
    };
    match told_of(alloc, session, sources, line, style) {
        Ok(told) => {
            if put(writer, told.as_bytes()) {
                Ok(())
            } else {
                Err(End::WriteFailed)
            }
        }
        Err(AllocError) => Err(End::Memory),
    }
}

// Answers the lines of a script by a session that has read nothing.
fn answer_lines<G: FragmentGrammar + Drop, R: BufRead, W: Write>(
    alloc: Global,
    mut session: Session<G>,
    reader: &mut R,
    writer: &mut Watched<W>,
    form: Form,
) -> Answered
    requires new { IsNew session }
    requires fresh { writer.old.failed ≡ false }
    ensures { Answers (session_layers G.answer session) session.depth session.prelude form
        (R.remaining reader.old) (R.remaining reader.new)
        (Appends (W.contents writer.old.inner) (W.contents writer.new.inner)) result }
{
    let mut sources = Sources::new(alloc);
    let mut bytes = Vec::new(alloc);
    let mut origins = false;
    let mut lines = 0;
    while lines < usize::MAX {
        if let Err(end) = next_line(reader, &mut bytes) {
            return Answered { lines, end };
        }
        let line = bytes.as_slice();
        if asks_for_origins(lines, line) {
            origins = true;
        } else if let Err(end) = answer_line(
            alloc,
            &mut session,
            &mut sources,
            writer,
            line,
            Style { form, origins },
        ) {
            return Answered {
                lines: lines + 1,
                end,
            };
        }
        lines += 1;
    }
    Answered {
        lines,
        end: End::TooLong,
    }
}

// A session without a text, after these definitions.
fn opened<G: FragmentGrammar + Drop>(
    alloc: Global,
    options: Options<G>,
    prelude: Prelude,
) -> Result<Session<G>, AllocError>
    ensures { IfOk result (λ s. s ≡ record {
      text = [];
      grammar = options.grammar;
      edition = options.edition;
      dialect = options.dialect;
      depth = options.depth;
      prelude = prelude;
      held = None;
      trees = [];
      given = 0;
    }) }
{
    let Options {
        grammar,
        edition,
        dialect,
        depth,
    } = options;
    let mut session = Session::with_dialect(alloc, "", grammar, edition, dialect, depth)?;
    session.set_prelude(prelude);
    Ok(session)
}

/// Answers the lines of a script, up to its end or its first wrong line, by a grammar, an edition,
/// a dialect and a number of levels. Up to its first `prelude` line the text is expanded after
/// this prelude. The answer to a line is written in this form and flushed before the next line is
/// read. The forms of lines and answers are at the head of this crate. The writer has not failed
/// before.
pub fn answer_script<G: FragmentGrammar + Drop, R: BufRead, W: Write>(
    alloc: Global,
    reader: &mut R,
    writer: &mut Watched<W>,
    options: Options<G>,
    prelude: Prelude,
    form: Form,
) -> Answered
    requires { writer.old.failed ≡ false }
    ensures { Answers (layers_of G.answer options) options.depth prelude form
        (R.remaining reader.old) (R.remaining reader.new)
        (Appends (W.contents writer.old.inner) (W.contents writer.new.inner)) result }
{
    match opened(alloc, options, prelude) {
        Ok(session) => answer_lines(alloc, session, reader, writer, form),
        Err(AllocError) => Answered {
            lines: 0,
            end: End::Memory,
        },
    }
}

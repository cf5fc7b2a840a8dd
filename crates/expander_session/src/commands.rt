//! Lists of commands, and the session that answers them in order.
ghost use Rattle.std.specs.Prelude.{◌<◌, ◌^◌, [], length, IfOk};
ghost use Rattle.expander_session.specs.Answers.{AreAnswers, given, last_reads};
ghost use Rattle.expander_session.specs.CommandTurns.{Edits, Turn};
ghost use Rattle.expander_model.specs.Dialects.{top_level};
ghost use Rattle.expander_session.specs.Layered.{layers};
ghost use Rattle.expander_session.specs.State.{layers_of};

use crate::session::{Reply, Session};
use expander_scope::refusal::Refusal;
use fragment_grammar::FragmentGrammar;
use std::alloc::{AllocError, Global};
use tt_data::Edition;

/// A command to a session.
#[derive(Debug, Drop)]
pub enum Command {
    /// Replace the bytes from offset `start` to offset `end` of the text.
    Edit {
        start: usize,
        end: usize,
        replacement: String,
    },
    /// Expand the text.
    Expand,
}

/// The answer to a command.
#[derive(Drop)]
pub enum Answer {
    /// The edit was made.
    Edited,
    /// One of the two offsets is no character boundary, they are not in order, or the edit does
    /// not fit. Nothing changes.
    BadEdit,
    /// What the text gives.
    Reply(Reply),
    /// The command was refused. Nothing changes.
    Refused(Refusal),
}

/// The answers to these commands, one to each, in order, by a new session over this text, with no
/// option of the dialect set. Each is by the text at its turn. The text has at most `u32::MAX`
/// bytes.
///
/// Its only error is out of memory, for the session or the list of answers. At most `u32::MAX`
/// definitions get an id in all the texts that are read: `numbers`.
pub fn replay<G: FragmentGrammar + Drop>(
    alloc: Global,
    text: &str,
    grammar: G,
    edition: Edition,
    depth: u8,
    commands: &[Command],
) -> Result<Vec<Answer>, AllocError>
    requires { length text.now < 2 ^ 32 }
    ensures answers { IfOk result (λ answers.
        AreAnswers (layers (G.answer grammar) edition top_level) depth text.now [] commands.now
        answers.items) }
    ensures numbers { IfOk result (λ answers.
        given (layers (G.answer grammar) edition top_level) depth
        (last_reads text.now [] commands.now answers.items) < 2 ^ 32) }
{
    let mut session = Session::new(alloc, text, grammar, edition, depth)?;
    let mut answers = Vec::new(alloc);
    for command in commands {
        let answer = answer_to(&mut session, command);
        answers.push(answer)?;
    }
    Ok(answers)
}

/// The answer to one command.
pub fn answer_to<G: FragmentGrammar + Drop>(session: &mut Session<G>, command: &Command) -> Answer
    ensures turn { Turn (layers_of G.answer session.old) session.old session.new
        command.now result }
    ensures few { session.old.given < 2 ^ 32 → session.new.given < 2 ^ 32 }
{
    match command {
        Command::Edit {
            start,
            end,
            replacement,
        } => edit_answer(session, *start, *end, replacement.as_str()),
        Command::Expand => match session.expansion() {
            Ok(reply) => Answer::Reply(reply),
            Err(refusal) => Answer::Refused(refusal),
        },
    }
}

// Edits the text if the offsets are boundaries, in order, and the edit fits.
fn edit_answer<G: FragmentGrammar + Drop>(
    session: &mut Session<G>,
    start: usize,
    end: usize,
    replacement: &str,
) -> Answer
    ensures { Edits session.old session.new start end replacement.now result }
{
    let is_edit = session.is_boundary(start)
        && session.is_boundary(end)
        && session.fits(start, end, replacement.len());
    if !is_edit {
        return Answer::BadEdit;
    }
    match session.edit(start, end, replacement) {
        Ok(()) => Answer::Edited,
        Err(AllocError) => Answer::Refused(Refusal::Memory),
    }
}

//! Writes answers as JSON.
ghost use Rattle.std.specs.Prelude.{◌≡◌, ◌<◌, ◌^◌, IfOk, length, string_bytes};
ghost use Rattle.serde_json.specs.Written.{compact_text};
ghost use Rattle.replay_script.specs.LineTurns.{IsShort};
ghost use Rattle.replay_script.specs.Written.{answer_value, command_value, expansion_value};
ghost use Rattle.replay_script.specs.Written.{reply_value};

use crate::answer::LineAnswer;
use expander::{Answer, Expansion, Reply};
use reply_json::{
    bare_line, expansion_line, prelude_line, refused_line, source_line, source_unread_line,
    too_long_line, unread_line,
};
use std::alloc::{AllocError, Global};

// The line of an expansion of a text.
fn expansion_json(alloc: Global, text: &str, found: &Expansion) -> Result<String, AllocError>
    requires { length text.now < 2 ^ 32 }
    ensures { IfOk result (λ line. string_bytes line
        ≡ compact_text (expansion_value text.now found.now)) }
{
    if found.printed().len() > u32::MAX as usize {
        return too_long_line(alloc);
    }
    expansion_line(alloc, text, found)
}

// The line of a reply to a text.
fn reply_line(alloc: Global, text: &str, reply: &Reply) -> Result<String, AllocError>
    requires { length text.now < 2 ^ 32 }
    ensures { IfOk result (λ line. string_bytes line
        ≡ compact_text (reply_value text.now reply.now)) }
{
    match reply {
        Reply::Read(found) => expansion_json(alloc, text, found),
        Reply::Unread(fault) => unread_line(alloc, text, *fault),
    }
}

// The line of an answer to a command.
fn command_json(alloc: Global, text: &str, answer: &Answer) -> Result<String, AllocError>
    requires { length text.now < 2 ^ 32 }
    ensures { IfOk result (λ line. string_bytes line
        ≡ compact_text (command_value text.now answer.now)) }
{
    match answer {
        Answer::Edited => bare_line(alloc, "edited"),
        Answer::BadEdit => bare_line(alloc, "bad_edit"),
        Answer::Reply(reply) => reply_line(alloc, text, reply),
        Answer::Refused(refusal) => refused_line(alloc, *refusal),
    }
}

/// The line, without a line feed, of an answer, where the session has this text.
pub(crate) fn json_line(
    alloc: Global,
    text: &str,
    answer: &LineAnswer,
) -> Result<String, AllocError>
    requires short { length text.now < 2 ^ 32 }
    requires source { IsShort answer.now }
    ensures { IfOk result (λ line. string_bytes line
        ≡ compact_text (answer_value text.now answer.now)) }
{
    match answer {
        LineAnswer::Command(answer) => command_json(alloc, text, answer),
        LineAnswer::Source {
            number,
            definitions,
        } => source_line(alloc, *number, *definitions),
        LineAnswer::Unread {
            number,
            text,
            fault,
        } => source_unread_line(alloc, *number, text.as_str(), *fault),
        LineAnswer::Prelude(count) => prelude_line(alloc, *count),
        LineAnswer::BadPrelude => bare_line(alloc, "bad_prelude"),
        LineAnswer::Refused(refusal) => refused_line(alloc, *refusal),
    }
}

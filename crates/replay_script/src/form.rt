//! Writes answers in one of two forms.
ghost use Rattle.std.specs.Prelude.{◌≡◌, ◌<◌, ◌^◌, IfOk, length, string_bytes};
ghost use Rattle.replay_script.specs.LineTurns.{IsShort};
ghost use Rattle.replay_script.specs.Written.{written};

use crate::answer::LineAnswer;
use crate::json::json_line;
use crate::tell::push_answer;
use std::alloc::{AllocError, Global};

/// How answers are written.
#[derive(Clone, Copy, PartialEq, Eq, Debug)]
pub enum Form {
    /// As lines of text.
    Text,
    /// As one line of JSON each.
    Json,
}

/// How answers are written, and whether as text they have the origins of tokens.
#[derive(Clone, Copy)]
pub(crate) struct Style {
    pub(crate) form: Form,
    pub(crate) origins: bool,
}

/// An answer as it is written, where the session has this text.
pub(crate) fn written(
    alloc: Global,
    style: Style,
    text: &str,
    answer: &LineAnswer,
) -> Result<String, AllocError>
    requires short { length text.now < 2 ^ 32 }
    requires source { IsShort answer.now }
    ensures { IfOk result (λ out. string_bytes out
        ≡ written style.form style.origins text.now answer.now) }
{
    match style.form {
        Form::Text => {
            let mut out = String::new(alloc);
            push_answer(&mut out, answer, style.origins)?;
            Ok(out)
        }
        Form::Json => {
            let mut out = json_line(alloc, text, answer)?;
            out.push('\n')?;
            Ok(out)
        }
    }
}

//! The steps of the call at a place of a text.
ghost use Rattle.std.specs.Prelude.{◌≡◌, ◌<◌, ◌++◌, ◌∷◌, ◌^◌, IfOk, MatchOption, length, map};
ghost use Rattle.std.specs.Prelude.{string_bytes};
ghost use Rattle.serde_json.specs.View.{view};
ghost use Rattle.session_workspace.specs.Steps.{AreValuesOf, HasNoFeed, ShowsAnswer, ShowsSteps};
ghost use Rattle.session_workspace.specs.Steps.{line_data, question_at, values_data};

use crate::calls::{byte_at, options_of};
use any_grammar::AnyGrammar;
use expander_session::session::Session;
use line_index::Position;
use serde_json::Value;
use std::alloc::{AllocError, Global};
use step_report::{Answer, Asked, Form, Limits, Question, Texts, answer_to};
use tt_data::TtFault;

// How many steps are told of where no number is asked for.
const MOST_STEPS: usize = 10_000;

// How many tokens rules may put out for the steps.
const MOST_TOKENS: u32 = 1_000_000;

// What is asked of the calls at a byte.
fn question_at(at: u32, most: Option<u64>) -> Question
    ensures { result ≡ question_at at most }
{
    let steps = match most {
        Some(most) => most as usize,
        None => MOST_STEPS,
    };
    Question {
        asked: Asked::At(at),
        limits: Limits {
            steps,
            tokens: MOST_TOKENS,
        },
        form: Form::Json,
    }
}

// The first line of a text, and what is behind its line feed.
fn first_line(text: &str) -> Option<(&str, &str)>
    ensures { MatchOption result (HasNoFeed text.now) (λ parts.
        (text.now ≡ parts.0.now ++ 10 ∷ parts.1.now) × HasNoFeed parts.0.now) }
{
    text.split_once('\n')
}

fn line_value(alloc: Global, line: &str) -> Result<Value, AllocError>
    ensures { IfOk result (λ v. view v ≡ line_data line.now) }
{
    match Value::from_str(alloc, line) {
        Ok(value) => Ok(value),
        Err(why) if why.is_memory() => Err(AllocError),
        Err(_) => Ok(Value::Null),
    }
}

// The values that the lines of a text are.
fn line_values(alloc: Global, text: &str) -> Result<Vec<Value>, AllocError>
    ensures { IfOk result (λ all. AreValuesOf text.now (map view all.items)) }
{
    let mut all = Vec::new(alloc);
    let mut rest = text;
    while let Some((line, behind)) = first_line(rest) {
        let value = line_value(alloc, line)?;
        all.push(value)?;
        rest = behind;
    }
    Ok(all)
}

// A list of values, if there is more than the last.
fn values_value(values: Vec<Value>) -> Value
    ensures { view result ≡ values_data (map view values.items) }
{
    if values.len() > 1 {
        Value::Array(values)
    } else {
        Value::Null
    }
}

fn answer_value(alloc: Global, answer: &Answer) -> Result<Value, AllocError>
    ensures { IfOk result (λ v. ShowsAnswer answer.now (view v)) }
{
    match answer {
        Answer::Told(lines) => {
            let values = line_values(alloc, lines.text.as_str())?;
            Ok(values_value(values))
        }
        Answer::Unread(_) => Ok(Value::Null),
    }
}

/// The steps of the call at a place of a session's text, which has this name, as `filgordd trace`
/// tells of them in lines of JSON: the values of these lines. At most so many are traced. Null if
/// no call is there. `others` are the names of the texts that definitions come from, in order of
/// their numbers, from 1.
pub(crate) fn steps_at(
    alloc: Global,
    uri: &str,
    others: &[String],
    session: &Session<AnyGrammar>,
    place: Position,
    most: Option<u64>,
) -> Result<Value, AllocError>
    requires { length session.now.text < 2 ^ 32 }
    ensures { IfOk result (λ v. ShowsSteps uri.now (map string_bytes others.now) session.now
        place most (view v)) }
{
    let text = session.text();
    let texts = Texts::of(alloc, uri, text, others)?;
    let question = question_at(byte_at(text, place), most);
    match answer_to(
        alloc,
        &texts,
        &options_of(session),
        session.prelude(),
        question,
    ) {
        Ok(answer) => answer_value(alloc, &answer),
        Err(TtFault::Tokens) => Ok(Value::Null),
        Err(_) => Err(AllocError),
    }
}

//! A line for each reply.
ghost use Rattle.std.specs.Prelude.{◌≡◌, ◌<◌, ◌^◌, IfOk, List, length, map, string_bytes};
ghost use Rattle.serde_json.specs.Data.{Data};
ghost use Rattle.serde_json.specs.Written.{compact_text};
ghost use Rattle.serde_json.specs.View.{view};
ghost use Rattle.reply_json.specs.Explanations.{AreExplained, explanation};
ghost use Rattle.reply_json.specs.Lines.{expansion, refused, unread};

use crate::explained::{Question, explained_faults};
use crate::faults::{faults_of, read_kind_name};
use crate::tokens::{origins_of, ranges_of};
use bridge::ReadFault;
use call_json::place_from;
use expander_model::fault::Fault;
use expander_run::expander_session::expander_scope::refusal::Refusal;
use expander_run::expander_session::session::Expansion;
use expander_run::lines::{read_fault_words, refusal_words};
use fragment_grammar::FragmentGrammar;
use line_index::{BEGIN, spot_at};
use serde_json::{Value, json};
use std::alloc::{AllocError, Global};
use tt_data::TtFault;

// The value that tells of an expansion of a text.
fn expansion_value(alloc: Global, text: &str, it: &Expansion) -> Result<Value, AllocError>
    requires short { length text.now < 2 ^ 32 }
    requires printed { length it.now.printed < 2 ^ 32 }
    ensures { IfOk result (λ v. view v ≡ expansion text.now it.now) }
{
    let faults = faults_of(alloc, text, it.faults())?;
    let origins = origins_of(alloc, it)?;
    let ranges = ranges_of(alloc, it)?;
    json!(in alloc; {
        "answer": "expansion",
        "expanded": it.expanded(),
        "faults": faults,
        "origins": origins,
        "ranges": ranges,
        "text": it.printed(),
        "v": 1
    })
}

/// The line, without a line feed, that tells of an expansion of a text of at most `u32::MAX` bytes,
/// whose printed text has at most as many.
pub fn expansion_line(alloc: Global, text: &str, it: &Expansion) -> Result<String, AllocError>
    requires short { length text.now < 2 ^ 32 }
    requires printed { length it.now.printed < 2 ^ 32 }
    ensures { IfOk result (λ line. string_bytes line ≡ compact_text (expansion text.now it.now)) }
{
    expansion_value(alloc, text, it)?.to_string(alloc)
}

// The value that explains faults, by their values.
fn explanation_value(alloc: Global, faults: Vec<Value>) -> Result<Value, AllocError>
    ensures { IfOk result (λ v. view v ≡ explanation (map view faults.items)) }
{
    json!(in alloc; {
        "answer": "explanation",
        "faults": Value::Array(faults),
        "v": 1
    })
}

/// The line, without a line feed, that explains faults of a text, in order. The first hundred are
/// explained: of a call that no rule fits, how each rule stops. The others are named.
///
/// # Errors
///
/// `Memory`; or `Tokens` if a definition or what a rule gives has too many tokens.
pub fn explanation_line<G: FragmentGrammar>(
    alloc: Global,
    question: &Question<'_, G>,
    faults: &[Fault],
) -> Result<String, TtFault>
    requires { length question.now.text.now < 2 ^ 32 }
    ensures { IfOk result (λ line. (ds : List Data)
        × AreExplained (G.answer question.now.grammar.now) question.now.text.now faults.now ds
        × (string_bytes line ≡ compact_text (explanation ds))) }
{
    let values = explained_faults(alloc, question, faults)?;
    let line = explanation_value(alloc, values)?.to_string(alloc)?;
    Ok(line)
}

// The value that tells why a text cannot be read.
fn unread_value(alloc: Global, text: &str, it: ReadFault) -> Result<Value, AllocError>
    requires { length text.now < 2 ^ 32 }
    ensures { IfOk result (λ v. view v ≡ unread text.now it) }
{
    let start = spot_at(text, BEGIN, it.range.start as usize);
    let at = place_from(alloc, text, start, it.range)?;
    json!(in alloc; {
        "answer": "unread",
        "at": at,
        "kind": read_kind_name(it.kind),
        "message": read_fault_words(it.kind),
        "v": 1
    })
}

/// The line, without a line feed, that tells why a text of at most `u32::MAX` bytes cannot be read.
pub fn unread_line(alloc: Global, text: &str, it: ReadFault) -> Result<String, AllocError>
    requires { length text.now < 2 ^ 32 }
    ensures { IfOk result (λ line. string_bytes line ≡ compact_text (unread text.now it)) }
{
    unread_value(alloc, text, it)?.to_string(alloc)
}

// The value that tells why a session refused.
fn refused_value(alloc: Global, refusal: Refusal) -> Result<Value, AllocError>
    ensures { IfOk result (λ v. view v ≡ refused refusal) }
{
    json!(in alloc; {
        "answer": "refused",
        "message": refusal_words(refusal),
        "v": 1
    })
}

/// The line, without a line feed, that tells why a session refused.
pub fn refused_line(alloc: Global, refusal: Refusal) -> Result<String, AllocError>
    ensures { IfOk result (λ line. string_bytes line ≡ compact_text (refused refusal)) }
{
    refused_value(alloc, refusal)?.to_string(alloc)
}

//! JSON values that tell of notes.
ghost use Rattle.std.specs.Prelude.{◌≡◌, IfOk, map};
ghost use Rattle.serde_json.specs.Data.{array};
ghost use Rattle.serde_json.specs.View.{items_of, view};
ghost use Rattle.rule_bindings.specs.Given.{notes_given};
ghost use Rattle.step_report.specs.NoteValues.{note, number_if, strings};
ghost use Rattle.step_report.specs.Notes as spec;
ghost use Rattle.step_report.specs.NotesGiven.{note_given};

use crate::notes::{Note, notes_of};
use rule_bindings::Notes;
use serde_json::{Number, Value, json};
use std::alloc::{AllocError, Global};
use symbols::Symbol;

// The number of a rule, if there is one.
fn number_if(number: Option<usize>) -> Value
    ensures { view result ≡ number_if number }
{
    match number {
        Some(number) => Value::Number(Number::from(number)),
        None => Value::Null,
    }
}

// Names.
fn strings(alloc: Global, names: &[&Symbol]) -> Result<Value, AllocError>
    ensures { IfOk result (λ v. view v ≡ strings (map (λ n. n.now) names.now)) }
{
    let mut list = Vec::new(alloc);
    for name in names {
        list.push(Value::String(String::from_str(alloc, name.as_str())?))?;
    }
    Ok(Value::Array(list))
}

// A note.
fn note(alloc: Global, it: &Note<'_>) -> Result<Value, AllocError>
    ensures { IfOk result (λ v. view v ≡ note (note_given it.now)) }
{
    let names = strings(alloc, &it.names)?;
    json!(in alloc; {
        "kind": it.kind,
        "message": it.words.as_str(),
        "names": names,
        "rule": number_if(it.rule)
    })
}

// Some notes.
fn list(alloc: Global, notes: &[Note<'_>]) -> Result<Value, AllocError>
    ensures { IfOk result (λ v. view v ≡ array (items_of (map note (map note_given notes.now)))) }
{
    let mut list = Vec::new(alloc);
    for it in notes {
        let value = note(alloc, it)?;
        list.push(value)?;
    }
    Ok(Value::Array(list))
}

/// All notes.
pub(crate) fn notes(alloc: Global, notes: &Notes<'_>) -> Result<Value, AllocError>
    ensures { IfOk result (λ v. view v
        ≡ array (items_of (map note (spec.notes_of (notes_given notes.now))))) }
{
    let all = notes_of(alloc, notes)?;
    list(alloc, &all)
}

//! What is told of notes: where rustc refuses a call that a rule gives something for.
ghost use Rattle.std.specs.Prelude.{◌≡◌, ◌∷◌, [], ◌++◌, IfOk, OnOk, codes, flat_map, map};
ghost use Rattle.std.specs.Prelude.{option_map};
ghost use Rattle.rule_bindings.specs.Given.{counted_given, notes_given, unequal_given};
ghost use Rattle.step_report.specs.Notes.{both, counted, note_line, note_lines, notes_of};
ghost use Rattle.step_report.specs.Notes.{passed_note, passed_notes, unbound_note, unequal_note};
ghost use Rattle.step_report.specs.Notes.{unequal_notes, unequal_words, variable};
ghost use Rattle.step_report.specs.NotesGiven.{note_given};
ghost use Rattle.step_report.specs.Shown.{Adds};

use crate::bound::told_number;
use crate::layout::push_indent;
use crate::shown::push_shown;
use rule_bindings::{Counted, Notes, Unequal};
use std::alloc::{AllocError, Global};
use symbols::Symbol;

/// A note.
#[derive(Drop)]
pub(crate) struct Note<'a> {
    /// Which one it is.
    pub(crate) kind: &'static str,
    /// Its words.
    pub(crate) words: String,
    /// The metavariables that it names.
    pub(crate) names: Vec<&'a Symbol>,
    /// The number of the rule that it names, from 1, if it names one.
    pub(crate) rule: Option<usize>,
}

// Adds a metavariable.
fn push_variable(alloc: Global, out: &mut String, name: &Symbol) -> Result<(), AllocError>
    ensures { Adds result out.old out.new (variable name.now) }
{
    out.push_str("`$")?;
    push_shown(alloc, out, name.as_str())?;
    out.push('`')
}

// The note of a rule that is passed over.
fn passed_note<'a>(alloc: Global, number: usize) -> Result<Note<'a>, AllocError>
    ensures { IfOk result (λ n. note_given n ≡ passed_note number) }
{
    let number = told_number(number);
    let mut words = String::new(alloc);
    write!(words, "rule {number}")?;
    words.push_str(" is ambiguous for this call, and is passed over; rustc stops there")?;
    Ok(Note {
        kind: "PassedOver",
        words,
        names: Vec::new(alloc),
        rule: Some(number),
    })
}

// Adds a metavariable with its iterations.
fn push_count(alloc: Global, out: &mut String, it: Counted<'_>) -> Result<(), AllocError>
    ensures { Adds result out.old out.new (counted (counted_given it.entry)) }
{
    let count = it.count;
    write!(out, "{count} of ")?;
    push_variable(alloc, out, it.name)
}

// Adds two metavariables with their iterations.
fn push_both(alloc: Global, out: &mut String, it: Unequal<'_>) -> Result<(), AllocError>
    ensures { Adds result out.old out.new (both (unequal_given it.entry)) }
{
    push_count(alloc, out, it.one)?;
    out.push_str(" and ")?;
    push_count(alloc, out, it.other)
}

// Adds what comes of that.
fn push_refusal(out: &mut String) -> Result<(), AllocError>
    ensures { Adds result out.old out.new (codes ": the fewer count, and rustc refuses it") }
{
    out.push_str(": the fewer count, and rustc refuses it")
}

// Adds how many iterations two metavariables of a repetition have.
fn push_unequal(alloc: Global, out: &mut String, unequal: Unequal<'_>) -> Result<(), AllocError>
    ensures { Adds result out.old out.new (unequal_words (unequal_given unequal.entry)) }
{
    out.push_str("a repetition has ")?;
    push_both(alloc, out, unequal)?;
    push_refusal(out)
}

// The note of a repetition whose metavariables have not as many iterations.
fn unequal_note<'a>(alloc: Global, unequal: Unequal<'a>) -> Result<Note<'a>, AllocError>
    ensures { IfOk result (λ n. note_given n ≡ unequal_note (unequal_given unequal.entry)) }
{
    let mut words = String::new(alloc);
    push_unequal(alloc, &mut words, unequal)?;
    let mut names = Vec::new(alloc);
    names.push(unequal.one.name)?;
    names.push(unequal.other.name)?;
    Ok(Note {
        kind: "Unequal",
        words,
        names,
        rule: None,
    })
}

// The note of a metavariable that nothing binds.
fn unbound_note<'a>(alloc: Global, name: &'a Symbol) -> Result<Note<'a>, AllocError>
    ensures { IfOk result (λ n. note_given n ≡ unbound_note name.now) }
{
    let mut words = String::new(alloc);
    words.push_str("nothing binds ")?;
    push_variable(alloc, &mut words, name)?;
    words.push_str(", which stays as it is")?;
    let mut names = Vec::new(alloc);
    names.push(name)?;
    Ok(Note {
        kind: "Unbound",
        words,
        names,
        rule: None,
    })
}

// Adds the note of a rule that is passed over, if one is.
fn push_passed<'a>(
    alloc: Global,
    list: &mut Vec<Note<'a>>,
    passed: Option<usize>,
) -> Result<(), AllocError>
    ensures { OnOk result (map note_given list.new.items
        ≡ map note_given list.old.items ++ passed_notes passed) }
{
    if let Some(number) = passed {
        let note = passed_note(alloc, number)?;
        list.push(note)?;
    }
    Ok(())
}

// Adds the note of a repetition, if there is one.
fn push_repetition<'a>(
    alloc: Global,
    list: &mut Vec<Note<'a>>,
    unequal: Option<Unequal<'a>>,
) -> Result<(), AllocError>
    ensures { OnOk result (map note_given list.new.items ≡ map note_given list.old.items
        ++ unequal_notes (option_map unequal_given unequal.entry)) }
{
    if let Some(unequal) = unequal {
        let note = unequal_note(alloc, unequal)?;
        list.push(note)?;
    }
    Ok(())
}

// Adds the note of a metavariable.
fn push_name<'a>(
    alloc: Global,
    list: &mut Vec<Note<'a>>,
    name: &'a Symbol,
) -> Result<(), AllocError>
    ensures { OnOk result (map note_given list.new.items
        ≡ map note_given list.old.items ++ (unbound_note name.now ∷ [])) }
{
    let note = unbound_note(alloc, name)?;
    list.push(note)?;
    Ok(())
}

// Adds the notes of metavariables.
fn push_names<'a>(
    alloc: Global,
    list: &mut Vec<Note<'a>>,
    names: &[&'a Symbol],
) -> Result<(), AllocError>
    ensures { OnOk result (map note_given list.new.items ≡ map note_given list.old.items
        ++ map unbound_note (map (λ n. n.now) names.now)) }
{
    for name in names {
        push_name(alloc, list, *name)?;
    }
    Ok(())
}

/// All notes, in order.
pub(crate) fn notes_of<'a>(alloc: Global, notes: &Notes<'a>) -> Result<Vec<Note<'a>>, AllocError>
    ensures { IfOk result (λ list. map note_given list.items ≡ notes_of (notes_given notes.now)) }
{
    let mut list = Vec::new(alloc);
    push_passed(alloc, &mut list, notes.passed_over)?;
    push_repetition(alloc, &mut list, notes.unequal)?;
    push_names(alloc, &mut list, &notes.unbound)?;
    Ok(list)
}

// Adds the line of a note.
fn push_note(out: &mut String, level: u8, note: &Note<'_>) -> Result<(), AllocError>
    ensures { Adds result out.old out.new (note_line level (note_given note.now)) }
{
    out.push_str("       ")?;
    push_indent(out, level)?;
    out.push_str("note: ")?;
    out.push_str(note.words.as_str())?;
    out.push('\n')
}

// Adds the lines of notes.
fn push_list(out: &mut String, level: u8, notes: &[Note<'_>]) -> Result<(), AllocError>
    ensures { Adds result out.old out.new
        (flat_map (note_line level) (map note_given notes.now)) }
{
    for note in notes {
        push_note(out, level, note)?;
    }
    Ok(())
}

/// Adds the lines of all notes.
pub(crate) fn push_notes(
    alloc: Global,
    out: &mut String,
    level: u8,
    notes: &Notes<'_>,
) -> Result<(), AllocError>
    ensures { Adds result out.old out.new (note_lines level (notes_given notes.now)) }
{
    let list = notes_of(alloc, notes)?;
    push_list(out, level, &list)
}

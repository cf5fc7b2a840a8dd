//! The texts of a crate's files as one text.
ghost use Rattle.std.specs.Prelude.{◌≡◌, ◌<◌, ◌^◌, ◌++◌, ◌∷◌, [], IfOk, IfSome, OnOk, length};
ghost use Rattle.std.specs.Prelude.{option_copied};
ghost use Rattle.std.specs.Prelude.{slice_range, true};
ghost use Rattle.crate_walk.specs.Closing.{closes};
ghost use Rattle.crate_walk.specs.Joining.{after, around, begun_at, ending, put, put_at, rest_of};
ghost use Rattle.crate_walk.specs.WholeTexts.{IsWhole, bytes_of, end_in, has_semicolon, place_in};
ghost use Rattle.crate_walk.specs.WholeTexts.{text_of};

use crate::step::Step;
use std::alloc::{AllocError, Global};
use std::collections::VecDeque;

/// The text of a file, and where its modules end in it.
#[derive(Drop)]
pub struct FileText {
    /// The text.
    pub text: Vec<u8>,
    /// For each event of the file: the offset of the `;` at its end, if it is a module with one.
    pub ends: Vec<Option<usize>>,
}

/// What is begun.
#[derive(Clone, Copy, PartialEq, Eq)]
pub(crate) enum Kind {
    /// The root.
    Root,
    /// A module in braces.
    Inline,
    /// A module in the place of which its file stands.
    File,
    /// A module that stays as it is.
    Left,
}

/// A part of the text that is begun.
#[derive(Clone, Copy)]
pub(crate) struct Part {
    /// The number of the file that is written.
    pub(crate) file: Option<usize>,
    /// How much of its text is.
    pub(crate) at: usize,
    /// What is begun.
    pub(crate) kind: Kind,
}

// The text of a file, if it has one.
fn text_of(texts: &[Option<FileText>], file: Option<usize>) -> Option<&FileText>
    ensures { option_copied result ≡ text_of texts.now file }
{
    match texts.get(file?) {
        Some(Some(text)) => Some(text),
        _ => None,
    }
}

// The bytes of the text of a file.
fn bytes_of(texts: &[Option<FileText>], file: Option<usize>) -> &[u8]
    ensures { result.now ≡ bytes_of (text_of texts.now file) }
{
    match text_of(texts, file) {
        Some(text) => text.text.as_slice(),
        None => &[],
    }
}

// Whether a text has a `;` at an offset.
fn has_semicolon(text: &[u8], at: usize) -> bool
    ensures test { result ≡ has_semicolon text.now at }
    ensures within { result ≡ true → at < length text.now }
{
    match text.get(at) {
        Some(byte) => *byte == b';',
        None => false,
    }
}

// Where the `;` of an event is in the text of its file.
fn end_in(text: &FileText, event: usize) -> Option<usize>
    ensures end { result ≡ end_in (Some text.now) event }
    ensures small { IfSome result (λ at. at < 2 ^ 63) }
{
    let at = (*text.ends.as_slice().get(event)?)?;
    if has_semicolon(text.text.as_slice(), at) {
        Some(at)
    } else {
        None
    }
}

// Where the text of this file stands in that of another: at the end of an event.
fn place_in(
    texts: &[Option<FileText>],
    file: Option<usize>,
    event: usize,
    inner: usize,
) -> Option<usize>
    ensures place { result ≡ place_in texts.now file event inner }
    ensures small { IfSome result (λ at. at < 2 ^ 63) }
{
    text_of(texts, Some(inner))?;
    end_in(text_of(texts, file)?, event)
}

// The bytes from one offset to another, as far as they are there.
fn between(text: &[u8], from: usize, to: usize) -> &[u8]
    ensures { result.now ≡ slice_range text.now from to }
{
    let to = to.min(text.len());
    if from < to { &text[from..to] } else { &[] }
}

// The text of this file begins in that of a part, at the `;` of an event if there is one.
fn begin_file(
    texts: &[Option<FileText>],
    parts: &mut VecDeque<Part>,
    out: &mut Vec<u8>,
    part: Part,
    event: usize,
    file: usize,
) -> Result<(), AllocError>
    ensures parts { OnOk result (parts.new.items ≡ begun_at texts.now part file
        (place_in texts.now part.file event file) ++ parts.old.items) }
    ensures out { OnOk result (out.new.items ≡ out.old.items
        ++ put_at texts.now part (place_in texts.now part.file event file)) }
{
    let Some(here) = place_in(texts, part.file, event, file) else {
        parts.push_front(part)?;
        parts.push_front(Part {
            file: None,
            at: 0,
            kind: Kind::Left,
        })?;
        return Ok(());
    };
    out.extend_from_slice(between(bytes_of(texts, part.file), part.at, here))?;
    out.extend_from_slice(b"{\n")?;
    let at = here + 1;
    parts.push_front(Part { at, ..part })?;
    parts.push_front(Part {
        file: Some(file),
        at: 0,
        kind: Kind::File,
    })?;
    Ok(())
}

// A part ends.
fn end(
    texts: &[Option<FileText>],
    parts: &mut VecDeque<Part>,
    out: &mut Vec<u8>,
    part: Part,
) -> Result<(), AllocError>
    ensures parts { OnOk result (parts.new.items ≡ around part.kind part.at parts.old.items) }
    ensures out { OnOk result (out.new.items
        ≡ out.old.items ++ ending part.kind (rest_of texts.now part)) }
{
    let text = bytes_of(texts, part.file);
    let rest = between(text, part.at, text.len());
    match part.kind {
        Kind::Root => out.extend_from_slice(rest)?,
        Kind::File => {
            out.extend_from_slice(rest)?;
            out.push(b'}')?;
        }
        Kind::Inline => {
            if let Some(outer) = parts.pop_front() {
                let at = part.at;
                parts.push_front(Part { at, ..outer })?;
            }
        }
        Kind::Left => {}
    }
    Ok(())
}

// Passes a step in the innermost part.
fn pass_in(
    texts: &[Option<FileText>],
    parts: &mut VecDeque<Part>,
    out: &mut Vec<u8>,
    part: Part,
    step: Step,
) -> Result<(), AllocError>
    ensures parts { OnOk result (parts.new.items
        ≡ after texts.now (part ∷ parts.old.items) step) }
    ensures out { OnOk result (out.new.items
        ≡ out.old.items ++ put texts.now (part ∷ parts.old.items) step) }
{
    match step {
        Step::Item(_) | Step::Lack(_, _) => Ok(parts.push_front(part)?),
        Step::Inline(_) => {
            let kind = Kind::Inline;
            parts.push_front(part)?;
            Ok(parts.push_front(Part { kind, ..part })?)
        }
        Step::File(place, file) => begin_file(texts, parts, out, part, place.event, file),
        Step::End => end(texts, parts, out, part),
    }
}

// Passes a step.
fn pass(
    texts: &[Option<FileText>],
    parts: &mut VecDeque<Part>,
    out: &mut Vec<u8>,
    step: Step,
) -> Result<(), AllocError>
    ensures parts { OnOk result (parts.new.items ≡ after texts.now parts.old.items step) }
    ensures out { OnOk result (out.new.items
        ≡ out.old.items ++ put texts.now parts.old.items step) }
{
    match parts.pop_front() {
        Some(part) => pass_in(texts, parts, out, part, step),
        None => Ok(()),
    }
}

/// The texts of a crate's files as one text, by the steps of a walk through its modules: that of
/// the root, in which the text of each file that was entered stands in braces in the place of its
/// module's `;`. `texts` has the texts of the files in the order of their numbers.
///
/// A module stays as it is where it was passed over, where its file has no text, or where no `;` is
/// known for it. A file that is entered twice stands in both places. Out of memory is the only
/// error.
pub fn joined(
    alloc: Global,
    steps: &[Step],
    texts: &[Option<FileText>],
) -> Result<Vec<u8>, AllocError>
    ensures { IfOk result (λ out. closes 1 steps.now ≡ true
        → IsWhole texts.now steps.now out.items) }
{
    let mut out = Vec::new(alloc);
    let mut parts = VecDeque::new(alloc);
    parts.push_front(Part {
        file: Some(0),
        at: 0,
        kind: Kind::Root,
    })?;
    for step in steps {
        pass(texts, &mut parts, &mut out, *step)?;
    }
    Ok(out)
}

//! A message about a call that no rule fits.
ghost use Rattle.std.specs.Prelude.{◌≡◌, ◌<◌, IfOk, IfSome, length, string_bytes};
ghost use Rattle.std.specs.List.{list_any};
ghost use Rattle.call_messages.specs.Unfits.{AddsIfUnfit, nearest_unfit};

use crate::known::{explain_known, known_at};
use crate::marks::{lines_of, ranges_of};
use crate::plain::section;
use crate::source::Source;
use crate::stops::{label_of, note_of, number_of};
use crate::units::stop_range;
use bumpalo::Bump;
use expander_model::call::Call;
use expander_model::definition::Definition;
use mbe_explain::mbe::FragmentGrammar;
use mbe_explain::{Explanation, RuleStop, StopKind};
use source_snippet::{Section, column_in, line_at, line_number, push_message};
use std::alloc::{AllocError, Global};
use tt::TokenTreesView;
use tt_data::{Edition, TextRange, TtFault};

// How many rules are told of without counting the others.
const FEW: usize = 4;

// Why a matcher that is ambiguous matches nothing.
const NO_CHOICE: &str = "a matcher must not choose between a fragment and something else";

// The section that says where the nearest rule stops.
fn error_section<'a>(
    alloc: Global,
    source: Source<'a>,
    call: &Call<'_>,
    stop: &RuleStop<'_>,
) -> Result<Section<'a>, AllocError> {
    let name = call.name.sym.as_str();
    let title = format!(in alloc; "error: no rule matches this call of `{name}`")?;
    let words = label_of(alloc, source.text, stop)?;
    section(alloc, source, title, stop_range(call, stop), words)
}

// The title of the note on a rule, of so many.
fn note_title(
    alloc: Global,
    name: &str,
    stop: &RuleStop<'_>,
    count: usize,
) -> Result<String, AllocError> {
    let number = number_of(stop);
    let mut title = format!(in alloc; "note: rule {number} of `{name}`")?;
    if count > 1 {
        title.push_str(match stop.stop.kind {
            StopKind::Unread => ", which comes furthest",
            _ => ", after which rustc tries no other",
        })?;
    }
    Ok(title)
}

// The next rule by what is left, after those that are told of already.
fn next_nearest(rules: &[RuleStop<'_>], told: &[usize]) -> Option<usize>
    ensures { IfSome result (λ i. i < length rules.now) }
{
    let mut best: Option<usize> = None;
    for i in 0..rules.len() {
        let is_nearer = match best {
            Some(best) => rules[i].stop.left < rules[best].stop.left,
            None => true,
        };
        if is_nearer && !told.contains(&i) {
            best = Some(i);
        }
    }
    best
}

// How many rules of so many are told of by themselves: all if they are few.
fn count_told(count: usize) -> usize {
    if count <= FEW { FEW } else { FEW - 1 }
}

// The notes on the rules that are not the nearest: on all if they are few, else on two.
fn other_notes(
    alloc: Global,
    source: Source<'_>,
    rules: &[RuleStop<'_>],
    nearest: usize,
) -> Result<Vec<String>, AllocError> {
    let mut notes = Vec::new(alloc);
    let mut told = Vec::new(alloc);
    told.push(nearest)?;
    for _ in 1..count_told(rules.len()) {
        if let Some(next) = next_nearest(rules, &told) {
            notes.push(note_of(alloc, source, &rules[next])?)?;
            told.push(next)?;
        }
    }
    let left = rules.len().saturating_sub(told.len());
    if left > 0 {
        notes.push(format!(in alloc; "{left} more rules come no further")?)?;
    }
    Ok(notes)
}

// Where the nearest rule has what it wants; if it wants the end alone, the name of the definition.
fn wanted_ranges(
    alloc: Global,
    text: &str,
    definition: &Definition<'_>,
    stop: &RuleStop<'_>,
) -> Result<Vec<TextRange>, AllocError> {
    let mut ranges = ranges_of(alloc, text, &stop.stop.wanted)?;
    if ranges.is_empty() {
        ranges.push(definition.name.span.range)?;
    }
    Ok(ranges)
}

// The section about the nearest rule, with notes on the others.
fn note_section<'a>(
    alloc: Global,
    source: Source<'a>,
    definition: &Definition<'_>,
    told: &Explanation<'_>,
    nearest: usize,
) -> Result<Option<Section<'a>>, AllocError> {
    let Some(stop) = told.rules.get(nearest) else {
        return Ok(None);
    };
    let ranges = wanted_ranges(alloc, source.text, definition, stop)?;
    let Some(first) = ranges.first() else {
        return Ok(None);
    };
    let at = first.start as usize;
    let line = line_at(source.text, at);
    let name = definition.name.sym.as_str();
    let mut notes = other_notes(alloc, source, &told.rules, nearest)?;
    if stop.stop.kind == StopKind::Ambiguous {
        notes.push(String::from_str(alloc, NO_CHOICE)?)?;
    }
    Ok(Some(Section {
        title: note_title(alloc, name, stop, told.rules.len())?,
        file: source.file,
        line: line_number(source.text, at),
        column: column_in(line.text, at.saturating_sub(line.start)),
        quoted: lines_of(alloc, source, &ranges)?,
        notes,
    }))
}

/// Why nothing is said of a call's rules.
#[derive(Clone, Copy, PartialEq, Eq, Debug)]
pub enum Unfit {
    /// A rule fits.
    Fits,
    /// No call is there, or no valid definition of its name with rules comes before it.
    Unknown,
}

// Whether one of the rules fits.
fn one_fits(rules: &[RuleStop<'_>]) -> bool
    ensures { result ≡ list_any (λ s. s.fits) rules.now }
{
    for rule in rules {
        if rule.fits {
            return true;
        }
    }
    false
}

/// The place in `rules` of the rule that is nearest to a match, where none fits; or why there is no
/// such rule: one fits, or there are no rules.
pub fn nearest_unfit(explained: &Explanation<'_>) -> Result<usize, Unfit>
    ensures { result ≡ nearest_unfit explained.now }
{
    if one_fits(&explained.rules) {
        return Err(Unfit::Fits);
    }
    explained.nearest.ok_or(Unfit::Unknown)
}

// Adds a message about a call by how the rules of its definition take the argument.
fn push_explained(
    alloc: Global,
    out: &mut String,
    source: Source<'_>,
    call: &Call<'_>,
    definition: &Definition<'_>,
    explained: &Explanation<'_>,
) -> Result<Result<(), Unfit>, AllocError>
    ensures { IfOk result (AddsIfUnfit (string_bytes out.old) (string_bytes out.new)) }
{
    let nearest = match nearest_unfit(explained) {
        Ok(nearest) => nearest,
        Err(unfit) => return Ok(Err(unfit)),
    };
    let Some(stop) = explained.rules.get(nearest) else {
        return Ok(Err(Unfit::Unknown));
    };
    let mut sections = Vec::new(alloc);
    sections.push(error_section(alloc, source, call, stop)?)?;
    if let Some(note) = note_section(alloc, source, definition, explained, nearest)? {
        sections.push(note)?;
    }
    push_message(alloc, out, &sections)?;
    Ok(Ok(()))
}

/// A place in a text: the text, its trees with spans in it, and a byte.
#[derive(Clone, Copy)]
pub struct Place<'a> {
    pub source: Source<'a>,
    pub trees: TokenTreesView<'a>,
    pub at: u32,
}

/// Adds a message about the call whose name begins at a place, if no rule fits it: where the
/// nearest rule stops and what it wants there, where in the definition that stands, and where other
/// rules stop. Else nothing is added, and the answer says why.
///
/// The definition is the last one of the call's name before it, in the innermost list around it
/// that has one.
///
/// # Errors
///
/// `Memory`; or `Tokens` if a definition or what a rule gives has too many tokens.
pub fn push_unfit<G: FragmentGrammar>(
    alloc: Global,
    out: &mut String,
    grammar: &G,
    edition: Edition,
    place: Place<'_>,
) -> Result<Result<(), Unfit>, TtFault>
    ensures { IfOk result (AddsIfUnfit (string_bytes out.old) (string_bytes out.new)) }
{
    let Some(known) = known_at(alloc, edition, &place.trees.iter(), place.at)? else {
        return Ok(Err(Unfit::Unknown));
    };
    let arena = Bump::new(alloc);
    let explained = explain_known(alloc, &arena, grammar, &known)?;
    Ok(push_explained(
        alloc,
        out,
        place.source,
        &known.call,
        &known.definition,
        &explained,
    )?)
}

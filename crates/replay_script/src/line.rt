//! Reads a line of a script.
ghost use Rattle.std.specs.Prelude.{◌≢◌, IfOk, List, MatchOption, MatchResult, [], string_bytes, ℕ};
ghost use Rattle.std.specs.Io.{StopsAt};
ghost use Rattle.replay_script.specs.LineReads.{IsLineReadAs, IsNoWord, IsReadAs, IsReadAsEdit};
ghost use Rattle.replay_script.specs.LineReads.{IsReadAsPrelude, IsReadAsSource, IsSourceText};
ghost use Rattle.replay_script.specs.Scripts.{HasSourceNumber, IsPick, IsSourceNumber, IsWrongText};
ghost use Rattle.replay_script.specs.Scripts.{Says};
ghost use Rattle.replay_script.specs.Words.{HasNumber, IsNumber, Lacks, Lists};
ghost use Rattle.replay_script.specs.declared.line.Pick.{Pick as PickOf};

use crate::home::home_of;
use crate::words::{behind, cut_at, number_before, number_of, replacement_of};
use expander::{Command, Home};
use std::alloc::{AllocError, Global};

/// What is wrong with a line.
#[derive(Clone, Copy, PartialEq, Eq, Debug)]
pub enum Wrong {
    /// No line feed ends it.
    LineFeed,
    /// It is not UTF-8.
    Utf8,
    /// It has a carriage return.
    CarriageReturn,
    /// It is neither `expand` nor `prelude`, and begins with none of `edit`, `source` and `prelude`
    /// and a space.
    Command,
    /// No number and a space come after `edit`.
    Start,
    /// No number and a space come after START.
    End,
    /// A backslash comes before no `n`, `r` or backslash.
    Replacement,
    /// No number from 1 to `u32::MAX` and a space come after `source`.
    Number,
    /// No home and a space come after N.
    Home,
    /// In TEXT a backslash comes before no `n`, `r` or backslash.
    Text,
    /// TEXT means more than `u32::MAX` bytes.
    TooLong,
    /// A word after `prelude` picks nothing.
    Pick,
}

/// A word of a `prelude` line: definitions of a source.
#[derive(Drop)]
pub struct Pick {
    /// The number of the source.
    pub source: usize,
    /// Which of its definitions, by index; `None` for all that are seen from outside.
    pub indices: Option<Vec<usize>>,
}

/// A line of a script, but for the one that asks for origins.
#[derive(Drop)]
pub enum Line {
    /// The session answers it.
    Command(Command),
    /// A text is read for its definitions.
    Source {
        number: u32,
        home: Option<Home>,
        text: String,
    },
    /// The definitions that the text is expanded after are these.
    Prelude(Vec<Pick>),
}

// The edit that a line asks for, without its first word, or what is wrong with it.
fn edit_of(alloc: Global, line: &str) -> Result<Result<Line, Wrong>, AllocError>
    ensures { IfOk result (IsReadAsEdit line.now) }
{
    let Some((start, rest)) = number_before(line) else {
        return Ok(Err(Wrong::Start));
    };
    let Some((end, last)) = number_before(rest) else {
        return Ok(Err(Wrong::End));
    };
    match replacement_of(alloc, last)? {
        Some(replacement) => Ok(Ok(Line::Command(Command::Edit {
            start,
            end,
            replacement,
        }))),
        None => Ok(Err(Wrong::Replacement)),
    }
}

// The number of a source that a text begins with, and the text after the space that ends it.
fn source_number(line: &str) -> Option<(u32, &str)>
    ensures { MatchOption result ((rest : List ℕ) → HasSourceNumber line.now rest → ⊥)
        (λ r. HasNumber line.now r.0 r.1.now × IsSourceNumber r.0) }
{
    let Some((number, rest)) = number_before(line) else {
        return None;
    };
    if number == 0 || number > u32::MAX as usize {
        return None;
    }
    Some((number as u32, rest))
}

// The text of a source that this means, or what is wrong with it.
fn text_of(alloc: Global, last: &str) -> Result<Result<String, Wrong>, AllocError>
    ensures { IfOk result (λ r. MatchResult r
        (λ text. IsSourceText last.now (string_bytes text)) (IsWrongText last.now)) }
{
    match replacement_of(alloc, last)? {
        Some(text) => {
            if text.len() > u32::MAX as usize {
                return Ok(Err(Wrong::TooLong));
            }
            Ok(Ok(text))
        }
        None => Ok(Err(Wrong::Text)),
    }
}

// The source that a line asks for, without its first word, or what is wrong with it.
fn source_of(alloc: Global, line: &str) -> Result<Result<Line, Wrong>, AllocError>
    ensures { IfOk result (IsReadAsSource line.now) }
{
    let Some((number, rest)) = source_number(line) else {
        return Ok(Err(Wrong::Number));
    };
    let Some((word, last)) = cut_at(rest, ' ') else {
        return Ok(Err(Wrong::Home));
    };
    let Some(home) = home_of(alloc, word)? else {
        return Ok(Err(Wrong::Home));
    };
    match text_of(alloc, last)? {
        Ok(text) => Ok(Ok(Line::Source { number, home, text })),
        Err(wrong) => Ok(Err(wrong)),
    }
}

// The numbers that a text lists, with a comma between two, or `None`.
fn indices_of(alloc: Global, list: &str) -> Result<Option<Vec<usize>>, AllocError>
    ensures { IfOk result (λ o. MatchOption o
        ((is : List ℕ) → Lists 44 IsNumber list.now is → ⊥)
        (λ is. Lists 44 IsNumber list.now is.items)) }
{
    let mut indices = Vec::new(alloc);
    let mut rest = list;
    while let Some((word, more)) = cut_at(rest, ',') {
        let Some(index) = number_of(word) else {
            return Ok(None);
        };
        indices.push(index)?;
        rest = more;
    }
    let Some(index) = number_of(rest) else {
        return Ok(None);
    };
    indices.push(index)?;
    Ok(Some(indices))
}

// The pick of all definitions of a source that a word is, or `None`.
fn whole_pick(word: &str) -> Option<Pick>
    requires { Lacks 58 word.now }
    ensures { MatchOption result ((p : PickOf) → IsPick word.now p → ⊥) (IsPick word.now) }
{
    let Some(source) = number_of(word) else {
        return None;
    };
    Some(Pick {
        source,
        indices: None,
    })
}

// The pick that a word is, or `None`.
fn pick_of(alloc: Global, word: &str) -> Result<Option<Pick>, AllocError>
    ensures { IfOk result (λ o. MatchOption o
        ((p : PickOf) → IsPick word.now p → ⊥) (IsPick word.now)) }
{
    let Some((front, list)) = cut_at(word, ':') else {
        return Ok(whole_pick(word));
    };
    let Some(source) = number_of(front) else {
        return Ok(None);
    };
    let Some(indices) = indices_of(alloc, list)? else {
        return Ok(None);
    };
    Ok(Some(Pick {
        source,
        indices: Some(indices),
    }))
}

// The picks that words are, with a space between two, or `None`.
fn picks_of(alloc: Global, words: &str) -> Result<Option<Vec<Pick>>, AllocError>
    ensures { IfOk result (λ o. MatchOption o
        ((ps : List PickOf) → Lists 32 IsPick words.now ps → ⊥)
        (λ ps. Lists 32 IsPick words.now ps.items)) }
{
    let mut picks = Vec::new(alloc);
    let mut rest = words;
    while let Some((word, more)) = cut_at(rest, ' ') {
        let Some(pick) = pick_of(alloc, word)? else {
            return Ok(None);
        };
        picks.push(pick)?;
        rest = more;
    }
    let Some(pick) = pick_of(alloc, rest)? else {
        return Ok(None);
    };
    picks.push(pick)?;
    Ok(Some(picks))
}

// The prelude that words ask for, or what is wrong with them.
fn prelude_of(alloc: Global, words: &str) -> Result<Result<Line, Wrong>, AllocError>
    ensures { IfOk result (IsReadAsPrelude words.now) }
{
    match picks_of(alloc, words)? {
        Some(picks) => Ok(Ok(Line::Prelude(picks))),
        None => Ok(Err(Wrong::Pick)),
    }
}

// What a line asks for that is a word alone, if it is one.
fn word_line(alloc: Global, line: &str) -> Option<Line>
    ensures { MatchOption result (IsNoWord line.now) (Says line.now) }
{
    match line {
        "expand" => Some(Line::Command(Command::Expand)),
        "prelude" => Some(Line::Prelude(Vec::new(alloc))),
        _ => None,
    }
}

// What a line asks for that begins with a word and a space, or what is wrong with it.
fn line_behind(alloc: Global, line: &str) -> Result<Result<Line, Wrong>, AllocError>
    requires { IsNoWord line.now }
    ensures { IfOk result (IsReadAs line.now) }
{
    if let Some(rest) = behind(line, "edit ") {
        return edit_of(alloc, rest);
    }
    if let Some(rest) = behind(line, "source ") {
        return source_of(alloc, rest);
    }
    match behind(line, "prelude ") {
        Some(words) => prelude_of(alloc, words),
        None => Ok(Err(Wrong::Command)),
    }
}

// What a line asks for, or what is wrong with it.
fn line_of(alloc: Global, line: &str) -> Result<Result<Line, Wrong>, AllocError>
    ensures { IfOk result (IsReadAs line.now) }
{
    match word_line(alloc, line) {
        Some(asked) => Ok(Ok(asked)),
        None => line_behind(alloc, line),
    }
}

/// What these bytes of a script ask for, which stop at a line feed if they have one, or what is
/// wrong with them.
pub(crate) fn read_line(alloc: Global, bytes: &[u8]) -> Result<Result<Line, Wrong>, AllocError>
    requires some { bytes.now ≢ [] }
    requires stops { StopsAt bytes.now 10 }
    ensures { IfOk result (IsLineReadAs bytes.now) }
{
    let Some((last, line)) = bytes.split_last() else {
        return Ok(Err(Wrong::LineFeed));
    };
    if *last != b'\n' {
        return Ok(Err(Wrong::LineFeed));
    }
    let Ok(line) = std::str::from_utf8(line) else {
        return Ok(Err(Wrong::Utf8));
    };
    if cut_at(line, '\r').is_some() {
        return Ok(Err(Wrong::CarriageReturn));
    }
    line_of(alloc, line)
}

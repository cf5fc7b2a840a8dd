//! The value of a predicate, without recursion: the lists that are open are in memory.
ghost use Rattle.std.specs.Prelude.{◌≡◌, ◌++◌, ◌∷◌, [], Bool, IfOk, Option};
ghost use Rattle.tt_data.specs.Forest.{Forest, empty};
ghost use Rattle.cfg_options.specs.Conditions.{predicate_value};
ghost use Rattle.cfg_options.specs.Options.{options_of};
ghost use Rattle.cfg_options.specs.Parts.{ended, open_value, with_value};
ghost use Rattle.cfg_options.specs.OpenLists.{IsLess, IsWithin, list_of, lists_value, turn_value};
ghost use Rattle.cfg_options.specs.OpenLists.{value_around, value_under, weight, whole_value};
ghost use Rattle.cfg_options.specs.Strings.{string_text};

use crate::options::CfgOptions;
use crate::parts::{list_behind, split_part};
use bridge::tt::TtIter;
use std::alloc::AllocError;

/// What the values of a list so far give.
#[derive(Clone, Copy)]
pub(crate) enum SoFar {
    /// Whether all were true.
    All(bool),
    /// Whether one was true.
    Any(bool),
    /// Of a `not`: none came.
    Not,
    /// Of a `not`: one came.
    NotOf(bool),
}

impl SoFar {
    // What they give with one more.
    fn with_value(self, value: bool) -> Option<SoFar>
        ensures { result ≡ with_value self value }
    {
        match self {
            SoFar::All(all) => Some(SoFar::All(all && value)),
            SoFar::Any(any) => Some(SoFar::Any(any || value)),
            SoFar::Not => Some(SoFar::NotOf(value)),
            SoFar::NotOf(_) => None,
        }
    }

    // What they give if no more come.
    fn ended(self) -> Option<bool>
        ensures { result ≡ ended self }
    {
        match self {
            SoFar::All(all) => Some(all),
            SoFar::Any(any) => Some(any),
            SoFar::Not => None,
            SoFar::NotOf(value) => Some(!value),
        }
    }
}

/// A list of predicates that is being read.
#[derive(Drop)]
pub(crate) struct OpenList<'a> {
    pub(crate) so_far: SoFar,
    /// The trees that are left.
    pub(crate) rest: TtIter<'a>,
}

// The list that a predicate is.
fn list_of<'a>(part: &TtIter<'a>) -> Option<OpenList<'a>>
    ensures { result ≡ list_of part.now }
{
    if let Some(rest) = list_behind(part, "all") {
        let so_far = SoFar::All(true);
        return Some(OpenList { so_far, rest });
    }
    if let Some(rest) = list_behind(part, "any") {
        let so_far = SoFar::Any(false);
        return Some(OpenList { so_far, rest });
    }
    let rest = list_behind(part, "not")?;
    let so_far = SoFar::Not;
    Some(OpenList { so_far, rest })
}

/// The open lists: the innermost, and those around it, the outermost first.
#[derive(Drop)]
pub(crate) struct OpenLists<'a> {
    pub(crate) list: OpenList<'a>,
    pub(crate) around: Vec<OpenList<'a>>,
}

/// What a step leads to: further lists, or the value.
#[derive(Drop)]
pub(crate) enum Turn<'a> {
    More(OpenLists<'a>),
    Done(Option<bool>),
}

// The innermost list gets the value of its next predicate.
fn given<'a>(lists: OpenLists<'a>, value: Option<bool>) -> Turn<'a>
    ensures value { (f : Forest → Option Bool) → turn_value f result
        ≡ whole_value f lists.entry.around.items (value_around f lists.entry.list value) }
    ensures less { IsWithin (weight lists.entry) result }
{
    let OpenLists { list, around } = lists;
    let Some(value) = value else {
        return Turn::Done(None);
    };
    let Some(so_far) = list.so_far.with_value(value) else {
        return Turn::Done(None);
    };
    let rest = list.rest;
    let list = OpenList { so_far, rest };
    Turn::More(OpenLists { list, around })
}

// The innermost list ends.
fn close<'a>(lists: OpenLists<'a>) -> Turn<'a>
    requires { lists.list.rest ≡ empty }
    ensures value { (f : Forest → Option Bool) → turn_value f result ≡ lists_value f lists.entry }
    ensures less { IsLess (weight lists.entry) result }
{
    let value = lists.list.so_far.ended();
    let mut around = lists.around;
    match around.pop() {
        Some(list) => given(OpenLists { list, around }, value),
        None => Turn::Done(value),
    }
}

// A list begins inside the innermost one.
fn enter<'a>(lists: OpenLists<'a>, list: OpenList<'a>) -> Result<OpenLists<'a>, AllocError>
    ensures list { IfOk result (λ l. l.list ≡ list.entry) }
    ensures around { IfOk result (λ l. l.around.items
        ≡ lists.entry.around.items ++ (lists.entry.list ∷ [])) }
{
    let mut around = lists.around;
    around.push(lists.list)?;
    Ok(OpenLists { list, around })
}

// Reads the next predicate of the innermost list, or ends it.
fn step<'a>(options: &CfgOptions, lists: OpenLists<'a>) -> Result<Turn<'a>, AllocError>
    ensures value { IfOk result (λ t. turn_value (value_under options.now) t
        ≡ lists_value (value_under options.now) lists.entry) }
    ensures less { IfOk result (IsLess (weight lists.entry)) }
{
    if lists.list.rest.is_empty() {
        return Ok(close(lists));
    }
    let (part, rest) = split_part(&lists.list.rest);
    let so_far = lists.list.so_far;
    let around = lists.around;
    let list = OpenList { so_far, rest };
    let lists = OpenLists { list, around };
    match list_of(&part) {
        Some(inner) => {
            let more = enter(lists, inner)?;
            Ok(Turn::More(more))
        }
        None => {
            let value = options.option_value(&part)?;
            Ok(given(lists, value))
        }
    }
}

// The value of a list.
fn list_value(options: &CfgOptions, list: OpenList<'_>) -> Result<Option<bool>, AllocError>
    ensures { IfOk result (λ v. v ≡ open_value (value_under options.now) list.entry) }
{
    let around = Vec::new(options.alloc);
    let mut lists = OpenLists { list, around };
    loop {
        match step(options, lists)? {
            Turn::More(more) => lists = more,
            Turn::Done(value) => return Ok(value),
        }
    }
}

impl CfgOptions {
    /// The value of a predicate, or `None` if the trees are no predicate. Its only error is out of
    /// memory. (The Rust Reference, "Conditional compilation".)
    pub fn predicate_value(&self, predicate: &TtIter<'_>) -> Result<Option<bool>, AllocError>
        ensures { IfOk result (λ v. v
            ≡ predicate_value (options_of self.now) string_text predicate.now) }
    {
        match list_of(predicate) {
            Some(list) => list_value(self, list),
            None => self.option_value(predicate),
        }
    }
}

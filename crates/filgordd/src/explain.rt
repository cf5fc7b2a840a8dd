//! Explains the faults of a text.
ghost use Rattle.std.specs.Prelude.{◌<◌, ◌^◌, length};

use crate::place::{Place, byte_at};
use crate::view::reply_of;
use any_grammar::AnyGrammar;
use bridge::{Read, ReadFault, ReadFaultKind, read};
use call_messages::{Place as TextPlace, Source, Unfit, push_plain, push_unfit};
use expander::{Edition, Fault, FaultKind, Options, Prelude, Reply};
use expander_run::lines::{fault_words, read_fault_words, refusal_words};
use program_files::stopped;
use rustc_lexer::LexedText;
use std::alloc::{AllocError, Global};
use std::io;
use std::process::ExitCode;
use tt::TopSubtree;
use tt_data::{TextRange, TtFault};

// How many faults are explained.
const MOST: usize = 100;

// What is said under a reading fault.
fn read_fault_label(kind: ReadFaultKind) -> &'static str {
    match kind {
        ReadFaultKind::BadToken => "this token does not end, or is unknown or reserved",
        ReadFaultKind::CloserDoesNotFit => "this closes no open bracket of its kind",
        ReadFaultKind::GroupLeftOpen => "this bracket is not closed",
    }
}

// What is said under a fault of a call that is not explained by its rules, and under other faults.
fn label(kind: FaultKind, unfit: Unfit) -> &'static str {
    match (kind, unfit) {
        (FaultKind::CannotExpand, Unfit::Fits) => "in what this call gives",
        (FaultKind::CannotExpand, _) => "no rule of its definition matches",
        (FaultKind::BrokenDefinition, _) => "the rules of this definition cannot be read",
        (FaultKind::RecursionLimit, _) => "what this call gives calls macros level after level",
        (FaultKind::NestedDefinition, _) => "this stays as it is, and defines nothing",
        (FaultKind::Unspellable, _) => "a token of this cannot be written, and is left out",
        (FaultKind::TooLarge, _) => "this makes more than --most-calls and --most-tokens say",
    }
}

// Which faults are explained: all, or those that begin at a byte.
#[derive(Clone, Copy)]
enum Asked {
    All,
    At(usize),
    Nothing,
}

// Those at a place; without a place all.
fn asked_of(text: &str, place: Option<Place>) -> Asked {
    match place {
        None => Asked::All,
        Some(place) => match byte_at(text, place) {
            Some(at) => Asked::At(at),
            None => Asked::Nothing,
        },
    }
}

// Whether a range is one of them.
fn is_asked(asked: Asked, range: TextRange) -> bool {
    match asked {
        Asked::All => true,
        Asked::At(at) => range.start as usize == at,
        Asked::Nothing => false,
    }
}

/// The faults at a place of a text; without a place all.
pub(crate) fn asked_faults(
    alloc: Global,
    text: &str,
    faults: &[Fault],
    place: Option<Place>,
) -> Result<Vec<Fault>, AllocError> {
    let asked = asked_of(text, place);
    let mut list = Vec::new(alloc);
    for fault in faults {
        if is_asked(asked, fault.range) {
            list.push(*fault)?;
        }
    }
    Ok(list)
}

/// The trees of a text, or why it cannot be read.
pub(crate) fn tree_of(alloc: Global, text: &str) -> Result<Result<TopSubtree, ReadFault>, TtFault>
    requires { length text.now < 2 ^ 32 }
{
    let lexed = LexedText::new(alloc, text)?;
    match read(alloc, lexed.text(), lexed.tokens())? {
        Read::Tree(tree) => Ok(Ok(tree)),
        Read::Fault(fault) => Ok(Err(fault)),
    }
}

// What is explained of a text, and by which language.
#[derive(Clone, Copy, Drop)]
struct Question<'a> {
    alloc: Global,
    grammar: AnyGrammar,
    edition: Edition,
    source: Source<'a>,
    tree: &'a TopSubtree,
}

impl Question<'_> {
    // Adds a message about a call that no rule fits, or says why not.
    fn push_call(&self, out: &mut String, at: u32) -> Result<Result<(), Unfit>, TtFault> {
        let place = TextPlace {
            source: self.source,
            trees: self.tree.token_trees(),
            at,
        };
        push_unfit(self.alloc, out, &self.grammar, self.edition, place)
    }

    // Adds a message about a fault.
    fn push_fault(&self, out: &mut String, fault: &Fault) -> Result<(), TtFault> {
        let mut unfit = Unfit::Unknown;
        if fault.kind == FaultKind::CannotExpand {
            match self.push_call(out, fault.range.start)? {
                Ok(()) => return Ok(()),
                Err(why) => unfit = why,
            }
        }
        let words = fault_words(fault.kind);
        let title = format!(in self.alloc; "error: {words}")?;
        let label = label(fault.kind, unfit);
        push_plain(
            self.alloc,
            out,
            self.source,
            title.as_str(),
            fault.range,
            label,
        )?;
        Ok(())
    }

    // Adds a message about each of these faults, with an empty line between. Only the first ones
    // are explained.
    fn push_faults(&self, out: &mut String, faults: &[Fault]) -> Result<(), TtFault> {
        for (i, fault) in faults.iter().enumerate() {
            if i >= MOST {
                break;
            }
            if i > 0 {
                out.push('\n')?;
            }
            self.push_fault(out, fault)?;
        }
        Ok(())
    }
}

// The message about a reading fault, if that is at the place.
fn read_fault_message(
    alloc: Global,
    source: Source<'_>,
    fault: &ReadFault,
    place: Option<Place>,
) -> Result<String, AllocError> {
    let mut out = String::new(alloc);
    if is_asked(asked_of(source.text, place), fault.range) {
        let words = read_fault_words(fault.kind);
        let title = format!(in alloc; "error: {words}")?;
        let label = read_fault_label(fault.kind);
        push_plain(alloc, &mut out, source, title.as_str(), fault.range, label)?;
    }
    Ok(out)
}

// The messages about faults of a text that can be read.
fn messages(
    alloc: Global,
    language: (AnyGrammar, Edition),
    source: Source<'_>,
    faults: &[Fault],
) -> Result<String, TtFault>
    requires { length source.text.now < 2 ^ 32 }
{
    let mut out = String::new(alloc);
    let (grammar, edition) = language;
    if let Ok(tree) = tree_of(alloc, source.text)? {
        let question = Question {
            alloc,
            grammar,
            edition,
            source,
            tree: &tree,
        };
        question.push_faults(&mut out, faults)?;
    }
    let more = faults.len().saturating_sub(MOST);
    if more > 0 {
        writeln!(out, "\n{more} more faults")?;
    }
    Ok(out)
}

// Prints messages. The status is 0 if there is none, else 1.
fn printed(rt: &HostRuntime, out: &str) -> io::Result<ExitCode> {
    if out.is_empty() {
        return Ok(ExitCode::SUCCESS);
    }
    print!(rt; "{out}")?;
    Ok(ExitCode::FAILURE)
}

/// Prints a message about each fault of a text after these definitions, or about those at a place.
/// Of a call in the text that no rule fits, it says where the nearest rule stops and what it wants
/// there. The status is 0 if there is no such fault, else 1.
pub(crate) fn explain(
    rt: &HostRuntime,
    options: Options<AnyGrammar>,
    prelude: Prelude,
    name: &str,
    text: &str,
    place: Option<Place>,
) -> io::Result<ExitCode> {
    if text.len() > 0xffff_ffff {
        return stopped(rt, "input is too long");
    }
    let source = Source { file: name, text };
    let language = (options.grammar, options.edition);
    match reply_of(rt.alloc(), options, prelude, text) {
        Err(refusal) => stopped(rt, refusal_words(refusal)),
        Ok(Reply::Unread(fault)) => {
            let out = read_fault_message(rt.alloc(), source, &fault, place)?;
            printed(rt, out.as_str())
        }
        Ok(Reply::Read(expansion)) => {
            let faults = asked_faults(rt.alloc(), text, expansion.faults(), place)?;
            match messages(rt.alloc(), language, source, &faults) {
                Ok(out) => printed(rt, out.as_str()),
                Err(TtFault::Tokens) => stopped(rt, "too many tokens"),
                Err(_) => stopped(rt, "out of memory"),
            }
        }
    }
}

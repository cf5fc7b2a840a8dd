//! Shows a text with its expansion.
ghost use Rattle.std.specs.Prelude.{◌<◌, ◌^◌, length, None, IfOk};
ghost use Rattle.any_grammar.specs.Answer.{answer};
ghost use Rattle.expander_run.specs.Runs.{layers_of};
ghost use Rattle.expander_session.specs.Replies.{IsReplyIn};
ghost use Rattle.expander_session.specs.State.{definitions_of};

use crate::call::call_options;
use any_grammar::AnyGrammar;
use expander::{Options, Prelude, Refusal, Reply, Session};
use expansion_page::{page_with_names, push_steps};
use program_files::Others;
use std::alloc::{AllocError, Global};
use std::io;
use std::process::ExitCode;
use step_report::{Answer, Asked, Form, Limits, Question, Texts, answer_to};

/// The reply of a new session over a text after these definitions.
pub(crate) fn reply_of(
    alloc: Global,
    options: Options<AnyGrammar>,
    prelude: Prelude,
    text: &str,
) -> Result<Reply, Refusal>
    requires { length text.now < 2 ^ 32 }
    ensures { IfOk result (IsReplyIn (layers_of answer options) options.depth
        (definitions_of prelude) text.now None) }
{
    let mut session = match Session::with_dialect(
        alloc,
        text,
        options.grammar,
        options.edition,
        options.dialect,
        options.depth,
    ) {
        Ok(session) => session,
        Err(AllocError) => return Err(Refusal::Memory),
    };
    session.set_prelude(prelude);
    session.expansion()
}

// How many steps a page carries, how many tokens rules may put out for them, and how many bytes
// tell of them.
const MOST_STEPS: usize = 1_000;

const MOST_TOKENS: u32 = 50_000;

const MOST_BYTES: usize = 262_144;

// As many whole lines as a page carries, and a last one where they are not all.
fn shortened(alloc: Global, lines: String) -> Result<String, AllocError> {
    if lines.len() <= MOST_BYTES {
        return Ok(lines);
    }
    let mut kept = String::new(alloc);
    for line in lines.as_str().lines() {
        if kept.len().saturating_add(line.len()) >= MOST_BYTES {
            kept.push_str("cut: there are more steps than a page carries\n")?;
            return Ok(kept);
        }
        kept.push_str(line)?;
        kept.push('\n')?;
    }
    Ok(kept)
}

// Lines that tell of the steps of a text's calls; none if the text cannot be read or traced.
fn steps_of(
    alloc: Global,
    options: &Options<AnyGrammar>,
    others: &Others,
    title: &str,
    text: &str,
) -> Result<String, AllocError>
    requires { length text.now < 2 ^ 32 }
{
    let by = call_options(options);
    let texts = Texts::of(alloc, title, text, others.names.as_slice())?;
    let question = Question {
        asked: Asked::All,
        limits: Limits {
            steps: MOST_STEPS,
            tokens: MOST_TOKENS,
        },
        form: Form::Text,
    };
    match answer_to(alloc, &texts, &by, &others.prelude, question) {
        Ok(Answer::Told(lines)) => shortened(alloc, lines.text),
        Ok(Answer::Unread(_)) => Ok(String::new(alloc)),
        Err(_) => Ok(String::new(alloc)),
    }
}

fn is_faultless(reply: &Reply) -> bool {
    match reply {
        Reply::Read(expansion) => expansion.faults().is_empty(),
        Reply::Unread(_) => false,
    }
}

fn stopped(rt: &HostRuntime, why: &str) -> io::Result<ExitCode> {
    eprintln!(rt; "{why}")?;
    Ok(ExitCode::FAILURE)
}

/// Prints the page of a text after these definitions, with this title. A token of another file says
/// the name of that file. The status is 0 if the text has no fault, else 1.
pub(crate) fn view(
    rt: &HostRuntime,
    options: Options<AnyGrammar>,
    others: Others,
    title: &str,
    text: &str,
) -> io::Result<ExitCode> {
    if text.len() > 0xffff_ffff {
        return stopped(rt, "input is too long");
    }
    let steps = steps_of(rt.alloc(), &options, &others, title, text)?;
    let Others { prelude, names } = others;
    match reply_of(rt.alloc(), options, prelude, text) {
        Ok(reply) => {
            let mut html = page_with_names(rt.alloc(), title, text, names.as_slice(), &reply)?;
            push_steps(&mut html, steps.as_str())?;
            print!(rt; "{html}")?;
            Ok(if is_faultless(&reply) {
                ExitCode::SUCCESS
            } else {
                ExitCode::FAILURE
            })
        }
        Err(Refusal::Memory) => stopped(rt, "out of memory"),
        Err(Refusal::Tokens) => stopped(rt, "too many tokens"),
        Err(Refusal::Numbers) => stopped(rt, "too many definitions"),
    }
}

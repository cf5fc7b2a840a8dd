//! Does what the program is asked for.

use crate::call::expand_call;
use crate::conditions::{cfg_of, under};
use crate::crates::{other_words, perform_crate};
use crate::explain::explain;
use crate::json::{Asked, answer_as_json};
use crate::layout::expand_in_lines;
use crate::place::{Place, named_place};
use crate::server::serve_editor;
use crate::trace::{Steps, most_steps, trace};
use crate::view::view;
use crate::warnings::warn;
use any_grammar::AnyGrammar;
use cfg_options::CfgOptions;
use command_line::{Action, Job};
use expander::{Options, Prelude, Status, Watched, run_after};
use program_files::{Ended, Others, blank_front, misused, opened, others_of, read_whole, stopped};
use replay_script::{Answered, End, Form, answer_script, wrong_words};
use std::io;
use std::io::{BufReader, Read};
use std::process::ExitCode;

// Expands a text, as the crate `expander` says of `run_after`.
fn expand(
    rt: &HostRuntime,
    options: Options<AnyGrammar>,
    prelude: Prelude,
    text: &[u8],
) -> ExitCode {
    let mut reader = Watched::new(text);
    let mut writer = Watched::new(rt.stdout());
    let mut faults = Watched::new(rt.stderr());
    let alloc = rt.alloc();
    let Status(status) = run_after(
        alloc,
        &mut reader,
        &mut writer,
        &mut faults,
        options,
        prelude,
    );
    ExitCode::from(status)
}

// Shows a text as a page. `name` is its file's.
fn show(
    rt: &HostRuntime,
    options: Options<AnyGrammar>,
    others: Others,
    name: &str,
    text: &[u8],
) -> io::Result<ExitCode> {
    match std::str::from_utf8(text) {
        Ok(text) => view(rt, options, others, name, text),
        Err(_) => stopped(rt, "input is not UTF-8"),
    }
}

// Explains the faults of a text, those too that its dialect excuses. `name` is its file's.
fn tell(
    rt: &HostRuntime,
    task: Task,
    prelude: Prelude,
    name: &str,
    text: &[u8],
) -> io::Result<ExitCode> {
    let mut options = task.options;
    options.dialect.excuses = false;
    if task.json {
        let asked = Asked::Explanation(task.place);
        return answer_as_json(rt, options, prelude, text, asked);
    }
    match std::str::from_utf8(text) {
        Ok(text) => explain(rt, options, prelude, name, text, task.place),
        Err(_) => stopped(rt, "input is not UTF-8"),
    }
}

// Expands the call at a place of a text, and tells of faults too that its dialect excuses.
fn expand_at(
    rt: &HostRuntime,
    task: Task,
    prelude: &Prelude,
    text: &[u8],
    place: Place,
) -> io::Result<ExitCode> {
    if task.json {
        return misused(rt, "--json", &"it takes no place in a file");
    }
    let mut options = task.options;
    options.dialect.excuses = false;
    expand_call(rt, &options, prelude, text, place, task.layout)
}

// Answers a script line by line, as the crate `replay_script` says, and reports why it ended.
fn replay<R: Read + Drop>(
    rt: &HostRuntime,
    options: Options<AnyGrammar>,
    prelude: Prelude,
    form: Form,
    reader: R,
) -> io::Result<ExitCode> {
    let alloc = rt.alloc();
    let mut reader = BufReader::new(alloc, reader)?;
    let mut writer = Watched::new(rt.stdout());
    let Answered { lines, end } = answer_script(
        alloc,
        &mut reader,
        &mut writer,
        options,
        prelude,
        form,
    );
    match end {
        End::Whole => Ok(ExitCode::SUCCESS),
        End::Wrong(wrong) => {
            eprintln!(rt; "line {lines}: {}", wrong_words(wrong))?;
            Ok(ExitCode::FAILURE)
        }
        End::ReadFailed => stopped(rt, "read failed"),
        End::WriteFailed => stopped(rt, "write failed"),
        End::Memory => stopped(rt, "out of memory"),
        End::TooLong => stopped(rt, "input is too long"),
    }
}

// What is done with a text, and by which options.
#[derive(Drop)]
struct Task {
    action: Action,
    options: Options<AnyGrammar>,
    // Whether the expansion is laid out.
    layout: bool,
    // Whether the reply is told as JSON.
    json: bool,
    // The place of the call that is expanded, of those that are traced, or of the faults that are
    // explained. Without one all are.
    place: Option<Place>,
    // How many steps are traced at most.
    steps: usize,
}

// Shows a text or its expansion. `name` is its file's.
fn reply(
    rt: &HostRuntime,
    task: Task,
    others: Others,
    name: &str,
    text: &[u8],
) -> io::Result<ExitCode> {
    let Task {
        action,
        options,
        layout,
        json,
        ..
    } = task;
    match action {
        Action::View => show(rt, options, others, name, text),
        _ if json => answer_as_json(rt, options, others.prelude, text, Asked::Expansion),
        _ if layout => expand_in_lines(rt, options, others.prelude, text),
        _ => Ok(expand(rt, options, others.prelude, text)),
    }
}

// Which steps a task asks for of a text. `file` is its file's name.
fn steps_of<'a>(task: &Task, file: &'a str) -> Steps<'a> {
    Steps {
        file,
        place: task.place,
        most: task.steps,
        json: task.json,
    }
}

// Does a task on a whole text, in which what is no code is blank. `name` is its file's.
fn answer(
    rt: &HostRuntime,
    task: Task,
    others: Others,
    name: &str,
    text: &[u8],
) -> io::Result<ExitCode> {
    warn(rt, &task.options, name, text);
    if task.action == Action::Explain {
        return tell(rt, task, others.prelude, name, text);
    }
    if task.action == Action::Trace {
        return trace(rt, &task.options, &others, &steps_of(&task, name), text);
    }
    match task.place {
        Some(place) => expand_at(rt, task, &others.prelude, text, place),
        None => reply(rt, task, others, name, text),
    }
}

// Does a task on what a reader has left. `name` is the reader's.
fn work_on<R: Read + Drop>(
    rt: &HostRuntime,
    task: Task,
    others: Others,
    name: &str,
    reader: R,
) -> io::Result<ExitCode> {
    if task.action == Action::Replay {
        let form = if task.json { Form::Json } else { Form::Text };
        return replay(rt, task.options, others.prelude, form, reader);
    }
    match read_whole(rt.alloc(), reader) {
        Ok(mut text) => {
            blank_front(text.as_mut_slice());
            answer(rt, task, others, name, text.as_slice())
        }
        Err(why) => stopped(rt, why),
    }
}

// Does a job on its text after these definitions, where these options are set for conditions.
fn work(
    rt: &HostRuntime,
    job: Job<'_>,
    cfg: Option<CfgOptions>,
    others: Others,
) -> io::Result<ExitCode> {
    let Job {
        action,
        options,
        layout,
        json,
        file,
        steps,
        ..
    } = job;
    let (file, place) = named_place(action, file);
    let task = Task {
        action,
        options: under(&options, cfg),
        layout,
        json,
        place,
        steps: most_steps(steps),
    };
    match file {
        None => work_on(rt, task, others, "standard input", rt.stdin()),
        Some(path) => match opened(rt, path) {
            Ok(file) => work_on(rt, task, others, path, file),
            Err(error) => misused(rt, path, &error),
        },
    }
}

// The status of work that may have ended before its end.
fn ended(done: Result<ExitCode, Ended>) -> io::Result<ExitCode> {
    match done {
        Ok(status) | Err(Ended::Status(status)) => Ok(status),
        Err(Ended::Failed(error)) => Err(error),
    }
}

/// Does a job. The status is 2 where a word for `cfg` names no option, or one of its files cannot
/// be opened.
pub(crate) fn perform(rt: &HostRuntime, job: Job<'_>) -> io::Result<ExitCode> {
    if job.action == Action::Serve {
        return ended(serve_editor(rt, &job));
    }
    if job.json && (job.layout || job.root.is_some()) {
        return misused(rt, "--json", &"it takes neither --layout nor --crate");
    }
    if let Some(root) = job.root {
        return ended(perform_crate(rt, &job, root));
    }
    if job.apart {
        return misused(rt, "--files", &"it takes --crate");
    }
    if job.action == Action::Macros {
        return misused(rt, "macros", &"it takes --crate");
    }
    if job.files.len() > 1 {
        return misused(rt, "several files", &"they take --crate");
    }
    let cfg = match cfg_of(rt.alloc(), job.cfg.as_slice())? {
        Ok(cfg) => cfg,
        Err(word) => return misused(rt, word, &"no option for cfg"),
    };
    match others_of(rt, other_words(&job)) {
        Ok(others) => work(rt, job, cfg, others),
        Err(Ended::Status(status)) => Ok(status),
        Err(Ended::Failed(error)) => Err(error),
    }
}

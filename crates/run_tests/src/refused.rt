//! Runs and scripts, for runs of the tests in which one request for memory is refused. A refused
//! call changes nothing, and gives the same when it is made again.
use crate::fakes::{whole, wide};
use crate::scripts::OPTIONS;
use any_grammar::AnyGrammar;
use expander::{Dialect, Edition, Options, Prelude, Status, Watched, run, run_with};
use replay_script::{Answered, End, Form, answer_script};
use std::alloc::Global;
use std::test::Fail;

// The grammar of Rust in edition 2021.
fn rust_2021() -> Options<AnyGrammar> {
    let edition = Edition::Edition2021;
    Options {
        grammar: AnyGrammar::Rust(edition),
        edition,
        dialect: Dialect::top_level(),
        depth: 128,
    }
}

// What a run that is refused says: the writer's own memory may be refused.
fn cause(is_cut: bool) -> &'static [u8] {
    if is_cut {
        b"write failed\n".as_slice()
    } else {
        b"out of memory\n".as_slice()
    }
}

// Whether a run writes all, or if it was refused only why: by the small grammar, or that of Rust.
// Where the writer did not fail, it is then as one of which nothing was asked.
fn is_run(alloc: Global, is_rust: bool) -> Option<bool> {
    let mut reader = Watched::new(whole(b"let x = y ;\n"));
    let mut writer = Watched::new(wide(alloc));
    let mut faults = Watched::new(wide(alloc));
    let status = if is_rust {
        run_with(alloc, &mut reader, &mut writer, &mut faults, rust_2021())
    } else {
        run(alloc, &mut reader, &mut writer, &mut faults, 128)
    };
    let failed = reader.failed() || faults.failed();
    let is_cut = writer.failed();
    let (writer, faults) = (writer.into_inner(), faults.into_inner());
    let (got, told) = (writer.got.as_slice(), faults.got.as_slice());
    let is_whole = status == Status(0) && got == b"let x = y ;\n".as_slice() && told.is_empty();
    let is_unasked = got.is_empty() && writer.flushes == 0 && !writer.asked_again;
    let is_refused = status == Status(1) && (is_cut || is_unasked) && told == cause(is_cut);
    if failed || !(is_whole || is_refused) {
        return None;
    }
    Some(is_whole)
}

#[test]
fn refused_runs(rt: HostRuntime) -> Result<(), Fail> {
    for is_rust in [false, true] {
        let first = is_run(rt.alloc(), is_rust);
        assert!(rt; first.is_some());
        assert!(rt; first == Some(true) || is_run(rt.alloc(), is_rust) == Some(true));
    }
    Ok(())
}

// A script, how many lines it has, and the bytes of the answers to so many lines. What is written
// for it; and what for it if one of its lines is refused: the answers to a script without that
// line, and its refusal.
struct RefusedScript {
    script: &'static str,
    lines: usize,
    sizes: [usize; 5],
    answers: [&'static str; 5],
}

const SCRIPTS: [RefusedScript; 2] = [
    RefusedScript {
        script: "edit 0 0 a;\nexpand\nedit 2 2 b;\nexpand\n",
        lines: 4,
        sizes: [0, 7, 32, 39, 68],
        answers: [
            "edited\nprinted 4\na ;\nexpanded 1\nedited\nprinted 8\na ;\nb ;\nexpanded 1\n",
            "refused Memory\nprinted 0\nexpanded 0\nbad edit\nprinted 0\nexpanded 0\n",
            "edited\nrefused Memory\nedited\nprinted 8\na ;\nb ;\nexpanded 2\n",
            "edited\nprinted 4\na ;\nexpanded 1\nrefused Memory\nprinted 4\na ;\nexpanded 0\n",
            "edited\nprinted 4\na ;\nexpanded 1\nedited\nrefused Memory\n",
        ],
    },
    RefusedScript {
        script: "source 1 a@2021 macro_rules! m { () => { 1 } }\nprelude 1:0\nedit 0 0 m!{}\nexpand\n",
        lines: 4,
        sizes: [0, 11, 21, 28, 51],
        answers: [
            "source 1 1\nprelude 1\nedited\nprinted 2\n1\nexpanded 1\n",
            "refused Memory\nbad prelude\nedited\nprinted 8\nm ! { }\nexpanded 1\n",
            "source 1 1\nrefused Memory\nedited\nprinted 8\nm ! { }\nexpanded 1\n",
            "source 1 1\nprelude 1\nrefused Memory\nprinted 0\nexpanded 0\n",
            "source 1 1\nprelude 1\nedited\nrefused Memory\n",
        ],
    },
];

// Whether memory ran out after so many lines and bytes: for the next line, or for its answer.
fn is_end(sizes: &[usize], lines: usize, bytes: usize) -> bool {
    sizes.get(lines) == Some(&bytes) || (lines > 0 && sizes.get(lines - 1) == Some(&bytes))
}

// Whether a script is answered, or if it was refused what is said of that. It may be the writer's
// own memory that is refused.
fn is_answered_script(alloc: Global, row: &RefusedScript) -> Option<bool> {
    let mut reader = row.script.as_bytes();
    let mut writer = Watched::new(wide(alloc));
    let none = Prelude::new(alloc);
    let form = Form::Text;
    let Answered { lines, end } = answer_script(
        alloc,
        &mut reader,
        &mut writer,
        OPTIONS,
        none,
        form,
    );
    let got = writer.into_inner().got;
    let got = std::str::from_utf8(got.as_slice()).ok()?;
    let is_front = row.answers[0].as_bytes().starts_with(got.as_bytes());
    match end {
        End::Whole if lines == row.lines && got == row.answers[0] => Some(true),
        End::Whole if lines == row.lines && row.answers.as_slice().contains(&got) => Some(false),
        End::Memory if is_front && is_end(row.sizes.as_slice(), lines, got.len()) => Some(false),
        End::WriteFailed if is_front => Some(false),
        _ => None,
    }
}

#[test]
fn refused_scripts(rt: HostRuntime) -> Result<(), Fail> {
    for row in &SCRIPTS {
        let first = is_answered_script(rt.alloc(), row);
        assert!(rt; first.is_some());
        assert!(rt; first == Some(true) || is_answered_script(rt.alloc(), row) == Some(true));
    }
    Ok(())
}

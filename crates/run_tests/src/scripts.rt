//! Scripts, line by line: what is written, how many lines are read, and how a script ends.
use crate::fakes::{Narrow, whole, wide};
use expander::{Dialect, Edition, Options, Prelude, ScopeRules, SmallGrammar, Watched};
use replay_script::{Answered, End, Form, answer_script};
use std::alloc::Global;
use std::io::BufReader;
use std::test::Fail;

// A script, what is written, the number of lines and the end.
const ROWS: [(&str, &str, usize, &str); 28] = [
    ("", "", 0, "Whole"),
    ("origins\n", "", 1, "Whole"),
    ("origins", "", 1, "Wrong(LineFeed)"),
    (
        "edit 0 0 a\nexpand\n",
        "edited\nprinted 2\na\nexpanded 1\n",
        2,
        "Whole",
    ),
    (
        "origins\nedit 0 0 a\nexpand\nedit 0 x b\nexpand\n",
        "edited\nprinted 2\na\nexpanded 1\norigin 0 1\n",
        4,
        "Wrong(End)",
    ),
    (
        "expand\norigins\n",
        "printed 0\nexpanded 0\n",
        2,
        "Wrong(Command)",
    ),
    ("edit 0 0 a\r\nexpand\n", "", 1, "Wrong(CarriageReturn)"),
    ("expand\r\n", "", 1, "Wrong(CarriageReturn)"),
    ("edit 0 0 b\\q\n", "", 1, "Wrong(Replacement)"),
    ("edit -1 0 b\n", "", 1, "Wrong(Start)"),
    ("edit 0 18446744073709551616 b\n", "", 1, "Wrong(End)"),
    ("edit 0 0\n", "", 1, "Wrong(End)"),
    ("edit\n", "", 1, "Wrong(Command)"),
    ("\n", "", 1, "Wrong(Command)"),
    (
        "source 1 - macro_rules! m { () => { 1 } }\nprelude 1\nedit 0 0 m!{}\nexpand\n",
        "source 1 1\nprelude 1\nedited\nprinted 2\n1\nexpanded 1\n",
        4,
        "Whole",
    ),
    (
        "source 1 a@2021 m\nprelude 1:0\nprelude 2\nprelude 1 1\nprelude\n",
        "source 1 0\nbad prelude\nbad prelude\nprelude 0\nprelude 0\n",
        5,
        "Whole",
    ),
    ("source 1 - (\n", "unread GroupLeftOpen 0 1\n", 1, "Whole"),
    ("source 0 - \n", "", 1, "Wrong(Number)"),
    ("source 4294967296 - \n", "", 1, "Wrong(Number)"),
    ("source 1 -\n", "", 1, "Wrong(Home)"),
    ("source 1 crate@2021 \n", "", 1, "Wrong(Home)"),
    ("source 1 a@2020 \n", "", 1, "Wrong(Home)"),
    ("source 1 - \\q\n", "", 1, "Wrong(Text)"),
    ("prelude \n", "", 1, "Wrong(Pick)"),
    ("prelude 1  2\n", "", 1, "Wrong(Pick)"),
    ("prelude 1:\n", "", 1, "Wrong(Pick)"),
    ("prelude 1:1,\n", "", 1, "Wrong(Pick)"),
    ("prelude1\n", "", 1, "Wrong(Command)"),
];

// A script, and what is written as JSON.
const JSON_ROWS: [(&str, &str); 4] = [
    (
        "origins\nedit 0 0 \\n\\\\\nexpand\nedit 9 9 b\nedit 0 2 \\n(\nexpand\n",
        "{\"answer\":\"edited\",\"v\":1}\n\
        {\"answer\":\"unread\",\"at\":{\"bytes\":[1,2],\"end\":[1,1],\"start\":[1,0]},\
        \"kind\":\"BadToken\",\"message\":\"bad token\",\"v\":1}\n\
        {\"answer\":\"bad_edit\",\"v\":1}\n{\"answer\":\"edited\",\"v\":1}\n\
        {\"answer\":\"unread\",\"at\":{\"bytes\":[1,2],\"end\":[1,1],\"start\":[1,0]},\
        \"kind\":\"GroupLeftOpen\",\"message\":\"group left open\",\"v\":1}\n",
    ),
    (
        "edit 0 0 macro_rules! m { () => { \"a\" } } m!{}\nexpand\n",
        "{\"answer\":\"edited\",\"v\":1}\n{\"answer\":\"expansion\",\"expanded\":1,\"faults\":[],\
        \"origins\":[0,25,28],\"ranges\":[0,3],\"text\":\"\\\"a\\\"\\n\",\"v\":1}\n",
    ),
    (
        "source 1 - macro_rules! m { () => { 1 } }\nprelude 1\nprelude 2\n",
        "{\"answer\":\"source\",\"definitions\":1,\"source\":1,\"v\":1}\n\
        {\"answer\":\"prelude\",\"definitions\":1,\"v\":1}\n{\"answer\":\"bad_prelude\",\"v\":1}\n",
    ),
    (
        "source 7 - a\\n(\n",
        "{\"answer\":\"unread\",\"at\":{\"bytes\":[2,3],\"end\":[1,1],\"start\":[1,0]},\
        \"kind\":\"GroupLeftOpen\",\"message\":\"group left open\",\"source\":7,\"v\":1}\n",
    ),
];

pub(crate) const OPTIONS: Options<SmallGrammar> = Options {
    grammar: SmallGrammar,
    edition: Edition::Edition2024,
    dialect: Dialect {
        scope: ScopeRules::TopLevel,
        items: false,
        cfg: None,
        limits: None,
        excuses: false,
    },
    depth: 128,
};

/// A writer with much room that does not fail.
pub(crate) fn roomy(alloc: Global) -> Narrow {
    let mut narrow = wide(alloc);
    narrow.room = 10_000;
    narrow
}

// What is written for a script, the number of lines and the end.
fn answered(alloc: Global, script: &str, form: Form) -> Result<(String, Answered), Fail> {
    let mut reader = BufReader::new(alloc, whole(script.as_bytes()))?;
    let mut writer = Watched::new(roomy(alloc));
    let answered = answer_script(
        alloc,
        &mut reader,
        &mut writer,
        OPTIONS,
        Prelude::new(alloc),
        form,
    );
    Ok((String::from_utf8(writer.into_inner().got)?, answered))
}

// Whether that is what is expected.
fn is_answered(alloc: Global, row: &(&str, &str, usize, &str)) -> Result<bool, Fail> {
    let (script, want, lines, end) = *row;
    let (told, answered) = answered(alloc, script, Form::Text)?;
    let is_told = told.as_str() == want && answered.lines == lines;
    Ok(is_told && format!(in alloc; "{:?}", answered.end)?.as_str() == end)
}

#[test]
fn scripts(rt: HostRuntime) -> Result<(), Fail> {
    for row in &ROWS {
        assert!(rt; is_answered(rt.alloc(), row)?, "{}", row.0);
    }
    Ok(())
}

#[test]
fn scripts_as_json(rt: HostRuntime) -> Result<(), Fail> {
    for (script, want) in &JSON_ROWS {
        let (got, _answered) = answered(rt.alloc(), script, Form::Json)?;
        assert!(rt; got.as_str() == *want, "{script}: {got}");
    }
    Ok(())
}

// An answer that cannot be written ends a script, and no line after it is read.
#[test]
fn a_writer_that_fails(rt: HostRuntime) -> Result<(), Fail> {
    let mut reader = b"edit 0 0 a\nexpand\nexpand\n".as_slice();
    let mut narrow = wide(rt.alloc());
    narrow.room = 9;
    let mut writer = Watched::new(narrow);
    let answered = answer_script(
        rt.alloc(),
        &mut reader,
        &mut writer,
        OPTIONS,
        Prelude::new(rt.alloc()),
        Form::Text,
    );
    let writer = writer.into_inner();
    assert!(rt; matches!(answered.end, End::WriteFailed) && reader == b"expand\n".as_slice());
    assert!(rt; writer.got.as_slice() == b"edited\npr".as_slice() && !writer.asked_again);
    Ok(())
}

//! Sessions and lists of commands, for runs of the tests in which one request for memory is
//! refused. A refused call changes nothing, and gives the same when it is made again.
use crate::opened::{found, opened};
use expander::{
    Answer, Command, Edition, Expansion, Refusal, Reply, Session, SmallGrammar, TextRange, replay,
};
use std::alloc::{AllocError, Global};
use std::test::Fail;

// A text, how many plain pieces it has and how many of them an edit changes, the printed text, its
// number of tokens, and the text printed after the edit, which replaces the first `1` by `2`.
struct Row {
    text: &'static str,
    pieces: usize,
    changed: usize,
    old: &'static str,
    tokens: usize,
    new: &'static str,
}

const ROWS: [Row; 2] = [
    Row {
        text: "macro_rules! m { () => { 1 } }\nm!{}\nfn f() { m!{} }\n",
        pieces: 2,
        changed: 2,
        old: "1 fn f ( ) { 1 }\n",
        tokens: 8,
        new: "2 fn f ( ) { 2 }\n",
    },
    Row {
        text: "macro_rules! m { () => { 1 } }\nm!();a;b;c;d;e;f;g;h;i;j;k;l;m;n;o;p;q;r;s;t;u;v;w;x;y;z",
        pieces: 27,
        changed: 1,
        old: "1 ;\na ;\nb ;\nc ;\nd ;\ne ;\nf ;\ng ;\nh ;\ni ;\nj ;\nk ;\nl ;\nm ;\nn ;\no ;\np ;\nq ;\nr ;\ns ;\nt ;\nu ;\nv ;\nw ;\nx ;\ny ;\nz\n",
        tokens: 53,
        new: "2 ;\na ;\nb ;\nc ;\nd ;\ne ;\nf ;\ng ;\nh ;\ni ;\nj ;\nk ;\nl ;\nm ;\nn ;\no ;\np ;\nq ;\nr ;\ns ;\nt ;\nu ;\nv ;\nw ;\nx ;\ny ;\nz\n",
    },
];

// Whether this text is printed, with this number of cache misses, and the origin of the first
// token is in the definition.
fn prints(row: &Row, found: &Expansion, printed: &str, expanded: usize) -> bool {
    let first = Some(TextRange { start: 25, end: 26 });
    found.printed() == printed
        && found.expanded() == expanded
        && found.faults().is_empty()
        && found.tokens() == row.tokens
        && found.tokens() > 0
        && found.origin(0) == first
}

// Makes the edit. If it is refused, it is made once more, if the text is as before.
fn edit(text: &str, session: &mut Session<SmallGrammar>) -> Result<(), Fail> {
    for _ in 0..2 {
        let is_text = session.text() == text && session.fits(25, 26, 1);
        let is_edit = is_text && session.is_boundary(25) && session.is_boundary(26);
        if is_edit && session.edit(25, 26, "2").is_ok() {
            return Ok(());
        }
    }
    Err(Fail::new("no edit"))
}

// Whether the session's expansion is as expected.
fn is_old(session: &mut Session<SmallGrammar>, row: &Row) -> Result<bool, Fail> {
    Ok(prints(row, &found(session)?, row.old, row.pieces))
}

fn is_same(session: &mut Session<SmallGrammar>, row: &Row) -> Result<bool, Fail> {
    Ok(prints(row, &found(session)?, row.new, 0))
}

// The same after the edit, and of a copy. If that is refused, it is made once more.
fn is_new(alloc: Global, session: &mut Session<SmallGrammar>, row: &Row) -> Result<bool, Fail> {
    let found = found(session)?;
    let copy = match found.try_clone(alloc) {
        Ok(copy) => copy,
        Err(_) => found.try_clone(alloc)?,
    };
    let is_new = prints(row, &found, row.new, row.changed);
    Ok(is_new && prints(row, &copy, row.new, row.changed))
}

// Whether a session gives what the example says, before the edit, after it and once more.
fn is_answered(
    alloc: Global,
    session: &mut Session<SmallGrammar>,
    row: &Row,
) -> Result<bool, Fail> {
    let is_old = is_old(session, row)?;
    edit(row.text, session)?;
    Ok(is_old && is_new(alloc, session, row)? && is_same(session, row)?)
}

#[test]
fn refused_sessions(rt: HostRuntime) -> Result<(), Fail> {
    for row in &ROWS {
        let mut session = opened(rt.alloc(), row.text, 128)?;
        assert!(rt; is_answered(rt.alloc(), &mut session, row)?, "{}", row.text);
    }
    Ok(())
}

// An expansion, the edit, and an expansion.
fn commands(alloc: Global) -> Result<Vec<Command>, AllocError> {
    let edit = Command::Edit {
        start: 25,
        end: 26,
        replacement: String::from_str(alloc, "2")?,
    };
    Ok(vec![in alloc; Command::Expand, edit, Command::Expand]?)
}

// The answers. If all were refused, they are asked for once more.
fn answered(alloc: Global, row: &Row, commands: &[Command]) -> Result<Vec<Answer>, Fail> {
    if row.text.len() >= 1000 {
        return Err(Fail::new("a text is long"));
    }
    let edition = Edition::Edition2024;
    match replay(alloc, row.text, SmallGrammar, edition, 128, commands) {
        Ok(answers) => Ok(answers),
        Err(_) => Ok(replay(alloc, row.text, SmallGrammar, edition, 128, commands)?),
    }
}

fn gives(row: &Row, answer: &Answer, printed: &str, expanded: usize) -> bool {
    match answer {
        Answer::Reply(Reply::Read(found)) => prints(row, found, printed, expanded),
        _ => false,
    }
}

fn is_refused(answer: &Answer) -> bool {
    match answer {
        Answer::Refused(refusal) => *refusal == Refusal::Memory,
        _ => false,
    }
}

// How many of the three answers are refusals: none or one. The others are those of the commands
// without that one.
fn refusals(row: &Row, answers: &[Answer]) -> Option<u8> {
    let (first, rest) = answers.split_first()?;
    let (edit, rest) = rest.split_first()?;
    let last = rest.first()?;
    let is_old = gives(row, first, row.old, row.pieces);
    let is_edited = matches!(edit, Answer::Edited);
    let is_new = gives(row, last, row.new, row.changed);
    let is_first_new = gives(row, last, row.new, row.pieces);
    if is_old && is_edited && is_new {
        Some(0)
    } else if (is_refused(first) && is_edited && is_first_new)
        || (is_old && is_refused(edit) && gives(row, last, row.old, 0))
        || (is_old && is_edited && is_refused(last))
    {
        Some(1)
    } else {
        None
    }
}

fn count_refused(alloc: Global, row: &Row, commands: &[Command]) -> Result<Option<u8>, Fail> {
    let answers = answered(alloc, row, commands)?;
    Ok(refusals(row, answers.as_slice()))
}

// A list goes on after a command that is refused. It has all answers when it is run again.
fn is_listed(alloc: Global, row: &Row, commands: &[Command]) -> Result<bool, Fail> {
    match count_refused(alloc, row, commands)? {
        Some(0) => Ok(true),
        Some(_) => Ok(count_refused(alloc, row, commands)? == Some(0)),
        None => Ok(false),
    }
}

#[test]
fn refused_commands(rt: HostRuntime) -> Result<(), Fail> {
    let commands = match commands(rt.alloc()) {
        Ok(commands) => commands,
        Err(_) => commands(rt.alloc())?,
    };
    for row in &ROWS {
        assert!(rt;
            is_listed(rt.alloc(), row, commands.as_slice())?,
            "{}",
            row.text
        );
    }
    Ok(())
}

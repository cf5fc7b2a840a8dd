//! Sessions with a grammar that is not Rust's and counts its calls.
ghost use Rattle.std.specs.Prelude.{◌<◌, ◌^◌, length};

use crate::opened::found;
use expander::{Answer, Command, Edition, Expansion, Reply, Session, replay};
use fragment_grammar::FragmentGrammar;
use std::alloc::{AllocError, Global};
use std::cell::Cell;
use std::fmt::Write;
use std::test::Fail;
use test_grammars::{Counting, OneStep};

// A text, an edit, the text printed afterwards, the faults with their ranges, and how often the
// grammar is called before and after the edit: once for each fragment, except for those in pieces
// that the text had before, and twice where a token has no spelling. In the last rows more calls
// have one tree than are searched one by one.
type Row = (&'static str, (usize, usize, &'static str), &'static str);

const ROWS: [Row; 10] = [
    (
        "macro_rules! t { ($x:ty $y:ident) => { $x z } } t!{'a}",
        (0, 0, ""),
        "z ¦ Unspellable 48 49 ¦ 2",
    ),
    (
        "macro_rules! t { ($x:path $y:ident) => { $x z } } t!{'a}",
        (0, 0, ""),
        "'z ¦ ¦ 1",
    ),
    (
        "macro_rules! t { ($x:path $y:ident) => { $x r#z } } t!{'a}",
        (0, 0, ""),
        "r#z ¦ Unspellable 52 53 ¦ 2",
    ),
    (
        "macro_rules! t { ($x:expr) => { $x } } t!{1} t!{2}",
        (0, 0, ""),
        "1 2 ¦ ¦ 2",
    ),
    (
        "macro_rules! t { ($x:expr) => { $x } } t!{1} t!{2}",
        (0, 0, " "),
        "1 2 ¦ ¦ 2",
    ),
    (
        "macro_rules! t { ($x:expr) => { $x } } t!{1} t!{2}",
        (48, 49, "3"),
        "1 3 ¦ ¦ 3",
    ),
    (
        "macro_rules! t { ($x:expr) => { $x } } t!{1} t!{2}",
        (50, 50, "t!{4}"),
        "1 2 4 ¦ ¦ 3",
    ),
    (
        "macro_rules! s { ($($y:tt)*) => { x +$($y)* } } macro_rules! t { ($x:expr) => { $x } } s!{}t!{1}",
        (0, 0, " "),
        "x + 1 ¦ ¦ 1",
    ),
    (
        "macro_rules! t { ($x:expr) => { $x } } t!{1} t!{1} t!{1} t!{1} t!{1} t!{1} macro_rules! t { ($x:expr) => { $x + $x } } t!{1}",
        (32, 34, "$x + $x"),
        "1 + 1 1 + 1 1 + 1 1 + 1 1 + 1 1 + 1 1 + 1 ¦ ¦ 7",
    ),
    (
        "macro_rules! t { ($x:expr) => { $x } } t!{1} t!{1} t!{1} t!{1} t!{1} t!{1} macro_rules! t { ($x:expr) => { $x + $x } } t!{1}",
        (32, 34, "-"),
        "- - - - - - 1 + 1 ¦ ¦ 13",
    ),
];

// An expansion, an edit, and an expansion.
fn commands(alloc: Global, edit: (usize, usize, &str)) -> Result<Vec<Command>, AllocError> {
    let edit = Command::Edit {
        start: edit.0,
        end: edit.1,
        replacement: String::from_str(alloc, edit.2)?,
    };
    Ok(vec![in alloc; Command::Expand, edit, Command::Expand]?)
}

// What the last answer prints, its faults, and how often the grammar was called, written as an
// example.
fn shown(alloc: Global, answers: &[Answer], calls: u64) -> Result<String, Fail> {
    let mut shown = String::new(alloc);
    if let Some(Answer::Reply(Reply::Read(found))) = answers.last() {
        write!(shown, "{} ¦", found.printed().trim_end())?;
        for fault in found.faults() {
            let range = fault.range;
            write!(shown, " {:?} {} {}", fault.kind, range.start, range.end)?;
        }
    }
    write!(shown, " ¦ {calls}")?;
    Ok(shown)
}

// The results for a text and an edit, written as an example.
fn told(alloc: Global, text: &str, edit: (usize, usize, &str)) -> Result<String, Fail> {
    if text.len() >= 10_000_000 {
        return Err(Fail::new("a text is long"));
    }
    let calls = Cell::new(0);
    let grammar = Counting {
        inner: OneStep,
        calls: &calls,
    };
    let commands = commands(alloc, edit)?;
    let edition = Edition::Edition2024;
    let answers = replay(alloc, text, grammar, edition, 128, commands.as_slice())?;
    shown(alloc, answers.as_slice(), calls.get())
}

// Cached pieces are not expanded again.
fn is_told(alloc: Global, row: &Row) -> Result<bool, Fail> {
    let (text, edit, want) = *row;
    Ok(told(alloc, text, edit)?.as_str() == want)
}

#[test]
fn the_grammar_is_asked_for_what_is_new(rt: HostRuntime) -> Result<(), Fail> {
    for row in &ROWS {
        assert!(rt; is_told(rt.alloc(), row)?, "{}", row.0);
    }
    Ok(())
}

// The expansion of the session's text, with the calls of the grammar counted. A refused call leaves
// the session as it was, so it is made once more.
fn expanded<G: FragmentGrammar + Drop>(
    session: &mut Session<G>,
    calls: &Cell<u64>,
) -> Result<Expansion, Fail> {
    calls.set(0);
    if let Ok(Reply::Read(found)) = session.expansion() {
        return Ok(found);
    }
    calls.set(0);
    found(session)
}

// Edits the text. A refused call leaves the session as it was, so it is made once more.
fn edit<G: FragmentGrammar + Drop>(
    session: &mut Session<G>,
    start: usize,
    end: usize,
    replacement: &str,
) -> Result<(), Fail> {
    for _ in 0..2 {
        let is_edit = session.is_boundary(start)
            && session.is_boundary(end)
            && session.fits(start, end, replacement.len());
        if is_edit && session.edit(start, end, replacement).is_ok() {
            return Ok(());
        }
    }
    Err(Fail::new("no edit"))
}

// Whether a session over `aé;` tells its boundaries and what fits.
fn is_bounded<G: FragmentGrammar + Drop>(session: &Session<G>) -> bool {
    let bounds = session.is_boundary(3) && !session.is_boundary(2) && !session.is_boundary(5);
    bounds && session.fits(1, 3, 4_294_967_293) && !session.fits(1, 3, 4_294_967_294)
}

// Whether a copy of an expansion has this text and so many tokens. A refused copy is made once
// more.
fn has_copy(alloc: Global, found: &Expansion, printed: &str, tokens: usize) -> Result<bool, Fail> {
    let copy = match found.try_clone(alloc) {
        Ok(copy) => copy,
        Err(_) => found.try_clone(alloc)?,
    };
    Ok(copy.printed() == printed && copy.tokens() == tokens)
}

// Edits a session over `aé;`.
fn is_edited<G: FragmentGrammar + Drop>(
    alloc: Global,
    session: &mut Session<G>,
    calls: &Cell<u64>,
) -> Result<bool, Fail> {
    let bounds = is_bounded(session);
    edit(session, 1, 3, "bc")?;
    let is_text = bounds && session.text() == "abc;";
    Ok(is_text && has_copy(alloc, &expanded(session, calls)?, "abc ;\n", 2)?)
}

// An expansion that is refused between edits drops nothing from the cache. So afterwards the
// grammar is called only for the changed piece.
fn is_held<G: FragmentGrammar + Drop>(
    session: &mut Session<G>,
    calls: &Cell<u64>,
) -> Result<bool, Fail> {
    let first = expanded(session, calls)?.expanded();
    edit(session, 49, 50, "3")?;
    let found = expanded(session, calls)?;
    let is_asked = first == 2 && calls.get() == 1 && found.expanded() == 1;
    Ok(is_asked && found.printed() == "1 ;\n3 ;\n")
}

// A session with a grammar that counts its calls.
fn counting<'a>(
    alloc: Global,
    text: &str,
    calls: &'a Cell<u64>,
) -> Result<Session<Counting<'a, OneStep>>, AllocError>
    requires { length text.now < 2 ^ 32 }
{
    let grammar = Counting {
        inner: OneStep,
        calls,
    };
    Session::new(alloc, text, grammar, Edition::Edition2024, 128)
}

// Whether a session is edited, if it is not refused.
fn edits(alloc: Global) -> Result<bool, Fail> {
    let calls = Cell::new(0);
    match counting(alloc, "aé;", &calls) {
        Ok(mut session) => is_edited(alloc, &mut session, &calls),
        Err(_) => Ok(true),
    }
}

// Whether a session keeps its cache, if it is not refused.
fn holds(alloc: Global) -> Result<bool, Fail> {
    let text = "macro_rules! t { ($x:expr) => { $x } }\nt!(1);\nt!(2);\n";
    let calls = Cell::new(0);
    match counting(alloc, text, &calls) {
        Ok(mut session) => is_held(&mut session, &calls),
        Err(_) => Ok(true),
    }
}

// Both tests, also for runs in which a request for memory is refused.
#[test]
fn refused_calls_can_be_made_again(rt: HostRuntime) -> Result<(), Fail> {
    assert!(rt; edits(rt.alloc())? && holds(rt.alloc())?);
    Ok(())
}

// Adds a definition with this transcriber, and so many equal calls.
fn push_calls(text: &mut String, transcriber: &str, count: usize) -> Result<(), Fail> {
    write!(
        text,
        "macro_rules! t {{ ($x:expr) => {{ {transcriber} }} }}\n"
    )?;
    for _ in 0..count {
        text.push_str("t!{1}\n")?;
    }
    Ok(())
}

// Equal calls, two others, and equal ones again.
fn many_calls(alloc: Global) -> Result<String, Fail> {
    let mut text = String::new(alloc);
    push_calls(&mut text, "$x", 600)?;
    push_calls(&mut text, "$x $x", 2)?;
    push_calls(&mut text, "$x", 600)?;
    Ok(text)
}

// Whether each call is a cache miss, but the grammar is asked for few.
fn shares(alloc: Global, text: &str) -> Result<bool, Fail>
    requires { length text.now < 2 ^ 32 }
{
    let calls = Cell::new(0);
    let mut session = counting(alloc, text, &calls)?;
    let found = expanded(&mut session, &calls)?;
    Ok(calls.get() == 514 && found.expanded() == 1202 && found.tokens() == 1204)
}

// From the 513th on, equal calls of one text share an expansion, as long as the name finds an equal
// definition. Each counts as a cache miss all the same.
#[test]
fn equal_pieces_share(rt: HostRuntime) -> Result<(), Fail> {
    let text = many_calls(rt.alloc())?;
    assert!(rt; text.len() < 10_000_000);
    assert!(rt; shares(rt.alloc(), text.as_str())?);
    Ok(())
}

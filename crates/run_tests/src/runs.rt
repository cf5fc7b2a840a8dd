//! Runs over readers and writers, some of which fail.
use crate::fakes::{End, Narrow, Pieces, whole, wide};
use expander::{Status, Watched, run};
use std::alloc::Global;
use std::io;
use std::test::Fail;

// Who fails, after how many bytes, and how.
type Fails<'a> = (&'a str, usize, &'a str);

// Who fails; the text; the status, who was seen to fail, and how often the output and the fault
// lines were flushed; the printed text; the fault lines.
type Row = (Fails<'static>, &'static str, &'static str);

const ROWS: [Row; 20] = [
    (("-", 0, "-"), "", "0 - 1 0 ¦  ¦ "),
    (("-", 0, "-"), "let x = y ;\n", "0 - 1 0 ¦ let x = y ;\n ¦ "),
    (
        ("-", 0, "-"),
        "macro_rules! m { (a) => { b } }\nm!{a} m!{c}\n",
        "1 - 1 1 ¦ b m ! { c }\n ¦ line 2, byte column 7: no rule matches this call\n",
    ),
    (
        ("-", 0, "-"),
        "macro_rules! l { () => { l!{} } }\nl!{}\n",
        "1 - 1 1 ¦ l ! { }\n ¦ line 2, byte column 1: recursion limit reached\n",
    ),
    (
        ("-", 0, "-"),
        "macro_rules! m { a }\n",
        "1 - 1 1 ¦  ¦ line 1, byte column 14: broken macro definition\n",
    ),
    (
        ("-", 0, "-"),
        "\"é\" macro ;\n\nmacro_rules x ;\n",
        "1 - 1 1 ¦ \"é\" macro ;\nmacro_rules x ;\n ¦ line 1, byte column 6: macro definition in the output\nline 3, byte column 1: macro definition in the output\n",
    ),
    (
        ("-", 0, "-"),
        "fn f( {",
        "1 - 0 1 ¦  ¦ line 1, byte column 7: group left open\n",
    ),
    (
        ("-", 0, "-"),
        "(]",
        "1 - 0 1 ¦  ¦ line 1, byte column 2: closing bracket does not fit\n",
    ),
    (
        ("-", 0, "-"),
        "\n#\"",
        "1 - 0 1 ¦  ¦ line 2, byte column 1: bad token\n",
    ),
    (
        ("reader", 0, "Interrupted"),
        "let x = y ;\n",
        "1 reader 0 1 ¦  ¦ read failed\n",
    ),
    (
        ("reader", 5, "Other"),
        "let x = y ;\n",
        "1 reader 0 1 ¦  ¦ read failed\n",
    ),
    (
        ("reader", 12, "Interrupted"),
        "let x = y ;\n",
        "1 reader 0 1 ¦  ¦ read failed\n",
    ),
    (
        ("writer", 0, "Interrupted"),
        "let x = y ;\n",
        "1 writer 0 1 ¦  ¦ write failed\n",
    ),
    (
        ("writer", 1, "Other"),
        "let x = y ;\n",
        "1 writer 0 1 ¦ l ¦ write failed\n",
    ),
    (
        ("writer", 5, "nothing"),
        "let x = y ;\n",
        "1 writer 0 1 ¦ let x ¦ write failed\n",
    ),
    (
        ("writer", 11, "Other"),
        "let x = y ;\n",
        "1 writer 0 1 ¦ let x = y ; ¦ write failed\n",
    ),
    (
        ("flush", 0, "BrokenPipe"),
        "let x = y ;\n",
        "1 writer 1 1 ¦ let x = y ;\n ¦ write failed\n",
    ),
    (("faults", 0, "Other"), "#\"", "1 faults 0 0 ¦  ¦ "),
    (("faults", 3, "nothing"), "#\"", "1 faults 0 0 ¦  ¦ lin"),
    (
        ("faults", 8, "Interrupted"),
        "#\"",
        "1 faults 0 0 ¦  ¦ line 1, ",
    ),
];

fn kind_of(how: &str) -> io::ErrorKind {
    match how {
        "Interrupted" => io::ErrorKind::Interrupted,
        "BrokenPipe" => io::ErrorKind::BrokenPipe,
        _ => io::ErrorKind::Other,
    }
}

// How many bytes a reader or writer gives or takes before it fails, if it is the one that fails.
fn room_of(name: &str, who: &str, room: usize) -> Option<usize> {
    if name == who { Some(room) } else { None }
}

// A writer that takes at most `most` bytes a call.
fn writer(alloc: Global, most: usize, room: Option<usize>, how: &str) -> Narrow {
    Narrow {
        most,
        room: room.unwrap_or(200),
        end: if how == "nothing" {
            End::TakesNothing
        } else {
            End::Fails(kind_of(how))
        },
        ..wide(alloc)
    }
}

// How often writers were flushed and what they got, written as an example.
fn got_by(alloc: Global, output: &Narrow, faults: &Narrow) -> Result<String, Fail> {
    let printed = str::from_utf8(output.got.as_slice())?;
    let told = str::from_utf8(faults.got.as_slice())?;
    let (first, second) = (output.flushes, faults.flushes);
    Ok(format!(in alloc; "{first} {second} ¦ {printed} ¦ {told}")?)
}

// Who was seen to fail.
fn failed_of(is_reader: bool, is_output: bool, is_faults: bool) -> &'static str {
    if is_reader {
        "reader"
    } else if is_output {
        "writer"
    } else if is_faults {
        "faults"
    } else {
        "-"
    }
}

// The writer for the printed text.
fn output_of(alloc: Global, most: usize, fails: Fails<'_>) -> Narrow {
    let (who, room, how) = fails;
    let mut narrow = writer(alloc, most, room_of("writer", who, room), how);
    if who == "flush" {
        narrow.flush_fails = Some(kind_of(how));
    }
    narrow
}

// The results of a run over bytes, written as an example, where each call reads or writes at most
// `most` bytes.
fn shown(alloc: Global, fails: Fails<'_>, input: &[u8], most: usize) -> Result<String, Fail> {
    let (who, room, how) = fails;
    let mut reader = Watched::new(Pieces {
        most,
        cut: room_of("reader", who, room),
        kind: kind_of(how),
        ..whole(input)
    });
    let mut output = Watched::new(output_of(alloc, most, fails));
    let mut faults = Watched::new(writer(alloc, most, room_of("faults", who, room), how));
    let Status(status) = run(alloc, &mut reader, &mut output, &mut faults, 128);
    let failed = failed_of(reader.failed(), output.failed(), faults.failed());
    let (output, faults) = (output.into_inner(), faults.into_inner());
    if reader.into_inner().asked_again || output.asked_again || faults.asked_again {
        return Err(Fail::new("a call follows one that failed"));
    }
    let got = got_by(alloc, &output, &faults)?;
    Ok(format!(in alloc; "{status} {failed} {got}")?)
}

// Fails with the results of a run if they are not the expected ones.
fn expect(
    alloc: Global,
    fails: Fails<'_>,
    input: &[u8],
    most: usize,
    want: &str,
) -> Result<(), Fail> {
    let got = shown(alloc, fails, input, most)?;
    if got.as_str() == want {
        return Ok(());
    }
    Err(Fail::new(got.as_str()))
}

const NONE: Fails<'static> = ("-", 0, "-");

const NO_TEXT: &str = "1 - 0 1 ¦  ¦ input is not UTF-8\n";

// The same where each call reads or writes one byte, few, or many.
fn expect_each(alloc: Global, row: &Row) -> Result<(), Fail> {
    let (fails, text, want) = *row;
    for most in [1, 3, 4096] {
        expect(alloc, fails, text.as_bytes(), most, want)?;
    }
    Ok(())
}

#[test]
fn runs(rt: HostRuntime) -> Result<(), Fail> {
    for row in &ROWS {
        expect_each(rt.alloc(), row)?;
    }
    Ok(())
}

#[test]
fn bytes_that_are_no_text(rt: HostRuntime) -> Result<(), Fail> {
    expect(rt.alloc(), NONE, b"\xff", 3, NO_TEXT)?;
    expect(rt.alloc(), NONE, b"\xc3", 4096, NO_TEXT)
}

// A text with `levels` nested groups around an `x`.
fn nested(alloc: Global, before: &str, levels: usize, after: &str) -> Result<String, Fail> {
    let begun = "(".repeat(alloc, levels)?;
    let ended = ")".repeat(alloc, levels)?;
    Ok(format!(in alloc; "{before}{begun}x{ended}{after}")?)
}

// How many bytes such a text prints, without a fault.
fn printed(alloc: Global, before: &str, levels: usize, after: &str) -> Result<usize, Fail> {
    let text = nested(alloc, before, levels, after)?;
    let mut reader = Watched::new(Pieces {
        most: 4096,
        ..whole(text.as_bytes())
    });
    let mut output = Watched::new(Narrow {
        most: 4096,
        room: 10_000_000,
        ..wide(alloc)
    });
    let mut faults = Watched::new(wide(alloc));
    if run(alloc, &mut reader, &mut output, &mut faults, 128) != Status(0) {
        return Err(Fail::new("there is a fault"));
    }
    Ok(output.into_inner().got.len())
}

#[test]
fn deep_groups(rt: HostRuntime) -> Result<(), Fail> {
    let alloc = rt.alloc();
    let one = "macro_rules! m { ($a:tt) => { $a } }\nm!{";
    let any = "macro_rules! m { ($($t:tt)*) => { $($t)* } }\nm!{";
    assert!(rt; printed(alloc, one, 500, "}")? == 2_002);
    assert!(rt; printed(alloc, any, 1_000_000, "}")? == 4_000_002);
    assert!(rt; printed(alloc, "", 1_000_000, "")? == 4_000_002);
    Ok(())
}

// Two lines that print one.
const TWICE: &str = "macro_rules! twice { ($x:expr) => { $x + $x } }\nlet y = twice!(3);\n";

const PRINTED: &str = "let y = 3 + 3 ;";

// A writer that fails or takes nothing after any byte.
fn expect_front(alloc: Global, at: usize, how: &str) -> Result<(), Fail> {
    let (front, _rest) = PRINTED.split_at_checked(at).unwrap_or(("", ""));
    let want = format!(in alloc; "1 writer 0 1 ¦ {front} ¦ write failed\n")?;
    expect(
        alloc,
        ("writer", at, how),
        TWICE.as_bytes(),
        4096,
        want.as_str(),
    )
}

// A reader that fails at any byte, and such a writer.
#[test]
fn every_end(rt: HostRuntime) -> Result<(), Fail> {
    let want = "1 reader 0 1 ¦  ¦ read failed\n";
    for at in 0..=TWICE.len() {
        expect(
            rt.alloc(),
            ("reader", at, "Other"),
            TWICE.as_bytes(),
            5,
            want,
        )?;
    }
    for at in 0..=PRINTED.len() {
        expect_front(rt.alloc(), at, "Other")?;
        expect_front(rt.alloc(), at, "nothing")?;
    }
    Ok(())
}

// Texts, each front of which is run.
const FRONTS: [&str; 8] = [
    "macro_rules! p { ($a:ident $b:tt) => { $b $a } }\np!{ x y }\n",
    "x+/*c*/=y",
    "fn f<'a>(x: &'a T) {}",
    "/// a \"b\"\nstruct S;\n",
    "macro_rules! e { () => { } }\ne!{}\n",
    "#![a]\nmacro_rules! e { () => { 1 } }\ne!{}\n",
    "macro_rules! e { ($($e:expr),* $(,)?) => { $($e);* ; } }\ne!{ _, const { 1 }, }\n",
    "é",
];

// Whether a run over the front of a text ends with a status that a run has.
fn is_ended(alloc: Global, text: &str, len: usize) -> Result<bool, Fail> {
    let (front, _rest) = text.as_bytes().split_at_checked(len).unwrap_or((b"", b""));
    let got = shown(alloc, NONE, front, 4096)?;
    Ok(got.as_str().starts_with("0 - ") || got.as_str().starts_with("1 - "))
}

#[test]
fn every_front(rt: HostRuntime) -> Result<(), Fail> {
    for text in FRONTS {
        for len in 0..=text.len() {
            assert!(rt; is_ended(rt.alloc(), text, len)?, "{text} cut at {len}");
        }
    }
    Ok(())
}

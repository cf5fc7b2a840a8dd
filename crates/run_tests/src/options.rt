//! Runs by other grammars, editions and numbers of levels than `run` has.
use crate::fakes::{Pieces, whole, wide};
use any_grammar::AnyGrammar;
use expander::{Dialect, Edition, Options, Status, Watched, run_with};
use std::alloc::Global;
use std::test::Fail;

// Whether the grammar is that of Rust, an edition and a number of levels; a text; the status, what
// is printed and what is reported.
const ROWS: [(bool, Edition, u8, &str, &str); 8] = [
    (
        true,
        Edition::Edition2024,
        128,
        "macro_rules! i { ($i:item) => { pub $i } }\ni!{ fn f() {} }\n",
        "0 ¦ pub fn f ( ) { }\n ¦ ",
    ),
    (
        false,
        Edition::Edition2024,
        128,
        "macro_rules! i { ($i:item) => { pub $i } }\ni!{ fn f() {} }\n",
        "1 ¦ i ! { fn f ( ) { } }\n ¦ line 2, byte column 1: no rule matches this call\n",
    ),
    (
        true,
        Edition::Edition2015,
        128,
        "macro_rules! e { ($e:expr) => { $e ; } }\ne!{ async }\n",
        "0 ¦ async ;\n ¦ ",
    ),
    (
        true,
        Edition::Edition2024,
        128,
        "macro_rules! e { ($e:expr) => { $e ; } }\ne!{ async }\n",
        "1 ¦ e ! { async }\n ¦ line 2, byte column 1: no rule matches this call\n",
    ),
    (
        false,
        Edition::Edition2015,
        128,
        "macro_rules! p { ($p:pat) => { ; } }\np!{ a | b }\n",
        "1 ¦ p ! { a | b }\n ¦ line 2, byte column 1: no rule matches this call\n",
    ),
    (
        false,
        Edition::Edition2024,
        128,
        "macro_rules! p { ($p:pat) => { ; } }\np!{ a | b }\n",
        "0 ¦ ;\n ¦ ",
    ),
    (
        true,
        Edition::Edition2024,
        1,
        "macro_rules! a { () => { ; } }\na!{}\n",
        "0 ¦ ;\n ¦ ",
    ),
    (
        true,
        Edition::Edition2024,
        0,
        "macro_rules! a { () => { ; } }\na!{}\n",
        "1 ¦ a ! { }\n ¦ line 2, byte column 1: recursion limit reached\n",
    ),
];

fn options_of(is_rust: bool, edition: Edition, depth: u8) -> Options<AnyGrammar> {
    let grammar = if is_rust {
        AnyGrammar::Rust(edition)
    } else {
        AnyGrammar::Small
    };
    Options {
        grammar,
        edition,
        dialect: Dialect::top_level(),
        depth,
    }
}

// The results of a run, written as an example.
fn shown(alloc: Global, options: Options<AnyGrammar>, text: &str) -> Result<String, Fail> {
    let mut reader = Watched::new(Pieces {
        most: 4096,
        ..whole(text.as_bytes())
    });
    let mut output = Watched::new(wide(alloc));
    let mut faults = Watched::new(wide(alloc));
    let Status(status) = run_with(alloc, &mut reader, &mut output, &mut faults, options);
    let printed = String::from_utf8(output.into_inner().got)?;
    let told = String::from_utf8(faults.into_inner().got)?;
    Ok(format!(in alloc; "{status} ¦ {printed} ¦ {told}")?)
}

#[test]
fn grammars_editions_and_levels(rt: HostRuntime) -> Result<(), Fail> {
    for (is_rust, edition, depth, text, want) in &ROWS {
        let got = shown(rt.alloc(), options_of(*is_rust, *edition, *depth), text)?;
        assert!(rt; got.as_str() == *want, "{text}: {got}");
    }
    Ok(())
}

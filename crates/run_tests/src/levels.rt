//! Other numbers of levels than the stored run of scripts has, and the origins of printed tokens.
use crate::scripts::roomy;
use expander::{Dialect, Edition, Options, Prelude, SmallGrammar, Watched};
use replay_script::{Form, answer_script};
use std::alloc::Global;
use std::test::Fail;

// A number of levels, a text as a script has it, and the output of a script that asks for its
// expansion and origins.
const ROWS: [(u8, &str, &str); 16] = [
    (
        2,
        "macro_rules! i { ($a:tt) => { $a } }\\nmacro_rules! y { () => { x } }\\ni!{(y!())}\\n",
        "edited\nprinted 6\n( x )\nexpanded 1\norigin 71 72\norigin 62 63\norigin 76 77\n",
    ),
    (
        1,
        "macro_rules! i { ($a:tt) => { $a } }\\nmacro_rules! y { () => { x } }\\ni!{(y!())}\\n",
        "edited\nprinted 12\n( y ! ( ) )\nfault RecursionLimit 68 69\nexpanded 1\norigin 71 72\norigin 72 73\norigin 73 74\norigin 74 75\norigin 75 76\norigin 76 77\n",
    ),
    (
        0,
        "macro_rules! i { ($a:tt) => { $a } }\\nmacro_rules! y { () => { x } }\\ni!{(y!())}\\n",
        "edited\nprinted 20\ni ! { ( y ! ( ) ) }\nfault RecursionLimit 68 69\nexpanded 1\norigin 68 69\norigin 69 70\norigin 70 71\norigin 71 72\norigin 72 73\norigin 73 74\norigin 74 75\norigin 75 76\norigin 76 77\norigin 77 78\n",
    ),
    (
        1,
        "macro_rules! p { ($a:ident $b:tt) => { $b $a } }\\np!{ x y }\\n",
        "edited\nprinted 4\ny x\nexpanded 1\norigin 55 56\norigin 53 54\n",
    ),
    (
        0,
        "macro_rules! p { ($a:ident $b:tt) => { $b $a } }\\np!{ x y }\\n",
        "edited\nprinted 12\np ! { x y }\nfault RecursionLimit 49 50\nexpanded 1\norigin 49 50\norigin 50 51\norigin 51 52\norigin 53 54\norigin 55 56\norigin 57 58\n",
    ),
    (
        0,
        "macro_rules! s { (a) => { b } }\\ns!{c}\\n",
        "edited\nprinted 10\ns ! { c }\nfault RecursionLimit 32 33\nexpanded 1\norigin 32 33\norigin 33 34\norigin 34 35\norigin 35 36\norigin 36 37\n",
    ),
    (
        0,
        "macro_rules! s { a }\\ns!{c} t!{}\\n",
        "edited\nprinted 18\ns ! { c }\nt ! { }\nfault BrokenDefinition 13 14\nfault BrokenDefinition 21 22\nexpanded 2\norigin 21 22\norigin 22 23\norigin 23 24\norigin 24 25\norigin 25 26\norigin 27 28\norigin 28 29\norigin 29 30\norigin 30 31\n",
    ),
    (
        0,
        "macro_rules! l { () => { (l!{}) } }\\nl!{}\\n",
        "edited\nprinted 8\nl ! { }\nfault RecursionLimit 36 37\nexpanded 1\norigin 36 37\norigin 37 38\norigin 38 39\norigin 39 40\n",
    ),
    (
        3,
        "macro_rules! l { () => { (l!{}) } }\\nl!{}\\n",
        "edited\nprinted 20\n( ( ( l ! { } ) ) )\nfault RecursionLimit 36 37\nexpanded 1\norigin 25 26\norigin 25 26\norigin 25 26\norigin 26 27\norigin 27 28\norigin 28 29\norigin 29 30\norigin 30 31\norigin 30 31\norigin 30 31\n",
    ),
    (
        255,
        "macro_rules! l { () => { l!{} } }\\nl!{}\\n",
        "edited\nprinted 8\nl ! { }\nfault RecursionLimit 34 35\nexpanded 1\norigin 25 26\norigin 26 27\norigin 27 28\norigin 28 29\n",
    ),
    (
        2,
        "macro_rules! d { ($a:tt) => { d!($a) d!($a) } }\\nd!(x);\\n",
        "edited\nprinted 42\nd ! ( x ) d ! ( x ) d ! ( x ) d ! ( x ) ;\nfault RecursionLimit 48 49\nfault RecursionLimit 48 49\nfault RecursionLimit 48 49\nfault RecursionLimit 48 49\nexpanded 1\norigin 30 31\norigin 31 32\norigin 32 33\norigin 51 52\norigin 35 36\norigin 37 38\norigin 38 39\norigin 39 40\norigin 51 52\norigin 42 43\norigin 30 31\norigin 31 32\norigin 32 33\norigin 51 52\norigin 35 36\norigin 37 38\norigin 38 39\norigin 39 40\norigin 51 52\norigin 42 43\norigin 53 54\n",
    ),
    (
        128,
        "macro_rules! m { ($a:tt) => { x +$a 1 } }\\nm!{=}\\n",
        "edited\nprinted 7\nx += 1\nexpanded 1\norigin 30 31\norigin 32 33\norigin 45 46\norigin 36 37\n",
    ),
    (
        128,
        "macro_rules! a { ($x:ident) => { $x y } }\\nmacro_rules! b { ($x:ident) => { a!{$x} z } }\\nb!{w}\\nv\\n",
        "edited\nprinted 8\nw y z v\nexpanded 2\norigin 91 92\norigin 36 37\norigin 82 83\norigin 94 95\n",
    ),
    (
        128,
        "macro_rules! s { ($x:tt) => { [$x] } }\\ns!{ ( a ) } b",
        "edited\nprinted 12\n[ ( a ) ] b\nexpanded 2\norigin 30 31\norigin 43 44\norigin 45 46\norigin 47 48\norigin 33 34\norigin 51 52\n",
    ),
    (
        128,
        "macro_rules! p { ($e:expr) => { $e ; } }\\np!{1+2}\\n",
        "edited\nprinted 12\n( 1 + 2 ) ;\nexpanded 1\norigin 32 33\norigin 44 45\norigin 45 46\norigin 46 47\norigin 32 33\norigin 35 36\n",
    ),
    (
        128,
        "/// d\\nv",
        "edited\nprinted 19\n# [ doc = \" d\" ] v\nexpanded 1\norigin 0 5\norigin 0 5\norigin 0 5\norigin 0 5\norigin 0 5\norigin 0 5\norigin 6 7\n",
    ),
];

// The output of a script that expands a text.
fn told(alloc: Global, depth: u8, text: &str) -> Result<String, Fail> {
    let script = format!(in alloc; "origins\nedit 0 0 {text}\nexpand\n")?;
    let options = Options {
        grammar: SmallGrammar,
        edition: Edition::Edition2024,
        dialect: Dialect::top_level(),
        depth,
    };
    let mut writer = Watched::new(roomy(alloc));
    answer_script(
        alloc,
        &mut script.as_bytes(),
        &mut writer,
        options,
        Prelude::new(alloc),
        Form::Text,
    );
    Ok(String::from_utf8(writer.into_inner().got)?)
}

#[test]
fn levels_and_origins(rt: HostRuntime) -> Result<(), Fail> {
    for (depth, text, want) in &ROWS {
        let got = told(rt.alloc(), *depth, text)?;
        assert!(rt; got.as_str() == *want, "{text}: {got}");
    }
    Ok(())
}

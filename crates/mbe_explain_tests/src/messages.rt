//! Messages about calls that no rule fits: whole texts, and what is told of the call in them.
use crate::texts::tree;
use call_messages::{Place, Source, Unfit, push_unfit};
use rust_grammar::RustGrammar;
use std::alloc::Global;
use std::test::Fail;
use tt::Edition;

const SET: &str = r##"macro_rules! set { ($n:ident = $v:literal) => { let $n = $v; } }
set!(7 = x);
"##;

const SET_TOLD: &str = r##"error: no rule matches this call of `set`
 --> calls.rs:2:6
  |
2 | set!(7 = x);
  |      ^ rule 1 wants `$n:ident` here
  |
note: rule 1 of `set`
 --> calls.rs:1:21
  |
1 | macro_rules! set { ($n:ident = $v:literal) => { let $n = $v; } }
  |                     ^^^^^^^^
"##;

const PAIR: &str = r##"// Two rules.
fn main() {
    macro_rules! pair { ($l:expr; $r:expr) => { ($l, $r) }; (none) => { () } }
    let both = pair!(1 2);
}
"##;

const PAIR_TOLD: &str = r##"error: no rule matches this call of `pair`
 --> calls.rs:4:24
  |
4 |     let both = pair!(1 2);
  |                        ^ rule 1 wants `;` here
  |
note: rule 1 of `pair`, which comes furthest
 --> calls.rs:3:33
  |
3 |     macro_rules! pair { ($l:expr; $r:expr) => { ($l, $r) }; (none) => { () } }
  |                                 ^
  = rule 2 stops at 4:22, `1`: it wants `none`
"##;

const ROW: &str = r##"macro_rules! row { ($($f:ident: $v:literal),* $(,)?) => { [$($v),*] } }
let r = row!(a: 1   b: 2);
"##;

const ROW_TOLD: &str = r##"error: no rule matches this call of `row`
 --> calls.rs:2:21
  |
2 | let r = row!(a: 1   b: 2);
  |                     ^ rule 1 wants `,` here, or the end of the argument
  |
note: rule 1 of `row`
 --> calls.rs:1:44
  |
1 | macro_rules! row { ($($f:ident: $v:literal),* $(,)?) => { [$($v),*] } }
  |                                            ^    ^
"##;

const LAST: &str = r##"macro_rules! last { ($($h:ident)* $t:ident) => { $t } }
last!(p q);
"##;

const LAST_TOLD: &str = r##"error: no rule matches this call of `last`
 --> calls.rs:2:7
  |
2 | last!(p q);
  |       ^ rule 1 may read `p` as `$h:ident` or `$t:ident`, so it matches nothing
  |
note: rule 1 of `last`
 --> calls.rs:1:24
  |
1 | macro_rules! last { ($($h:ident)* $t:ident) => { $t } }
  |                        ^^^^^^^^   ^^^^^^^^
  = a matcher must not choose between a fragment and something else
"##;

const ONE: &str = r##"macro_rules! one { ($i:ident) => { $i } }
one!();
"##;

const ONE_TOLD: &str = r##"error: no rule matches this call of `one`
 --> calls.rs:2:6
  |
2 | one!();
  |      ^ the argument ends here; rule 1 wants `$i:ident`
  |
note: rule 1 of `one`
 --> calls.rs:1:21
  |
1 | macro_rules! one { ($i:ident) => { $i } }
  |                     ^^^^^^^^
"##;

const SIX: &str = r##"macro_rules! six {
    (x) => {}; (y z) => {}; (y w v) => {};
    (y w u $i:ident) => {}; ($i:ident : $e:expr) => {}; (y w u 5 6) => {}
}
six!(y w u 7);
"##;

const SIX_TOLD: &str = r##"error: no rule matches this call of `six`
 --> calls.rs:5:12
  |
5 | six!(y w u 7);
  |            ^ rule 4 wants `$i:ident` here
  |
note: rule 4 of `six`, which comes furthest
 --> calls.rs:3:12
  |
3 |     (y w u $i:ident) => {}; ($i:ident : $e:expr) => {}; (y w u 5 6) => {}
  |            ^^^^^^^^
  = rule 6 stops at 5:12, `7`: it wants `5`
  = rule 3 stops at 5:10, `u`: it wants `v`
  = 3 more rules come no further
"##;

const KEYS: &str = r##"macro_rules! keys { ($($k:ident ..= $v:lifetime),*) => {} }
keys!(a ..= 'one, b => 'two);
keys!(a ..= 'one, 'two);
"##;

const OPERATOR_TOLD: &str = r##"error: no rule matches this call of `keys`
 --> calls.rs:2:21
  |
2 | keys!(a ..= 'one, b => 'two);
  |                     ^^ rule 1 wants `..=` here
  |
note: rule 1 of `keys`
 --> calls.rs:1:33
  |
1 | macro_rules! keys { ($($k:ident ..= $v:lifetime),*) => {} }
  |                                 ^^^
"##;

const LIFETIME_TOLD: &str = r##"error: no rule matches this call of `keys`
 --> calls.rs:3:19
  |
3 | keys!(a ..= 'one, 'two);
  |                   ^^^^ rule 1 wants `$k:ident` here
  |
note: rule 1 of `keys`
 --> calls.rs:1:24
  |
1 | macro_rules! keys { ($($k:ident ..= $v:lifetime),*) => {} }
  |                        ^^^^^^^^
"##;

const FIT: &str = r##"macro_rules! row { ($($f:ident: $v:literal),*) => { [$($v),*] } }
macro_rules! outer { ($($t:tt)*) => { row!($($t)* ; ; ) } }
outer!(a: 1);
"##;

// What is told of the call whose name is at this byte.
fn told(alloc: Global, text: &str, at: u32) -> Result<(Result<(), Unfit>, String), Fail> {
    let read = tree(alloc, text)?;
    let place = Place {
        source: Source {
            file: "calls.rs",
            text,
        },
        trees: read.token_trees(),
        at,
    };
    let mut out = String::new(alloc);
    let edition = Edition::Edition2024;
    let told = push_unfit(alloc, &mut out, &RustGrammar::new(edition), edition, place)?;
    Ok((told, out))
}

// Fails with what is told of the last call of a name if that is not what is expected.
fn expect(alloc: Global, text: &str, name: &str, want: &str) -> Result<(), Fail> {
    let Some(at) = text.rfind(name) else {
        return Err(Fail::new("no such call"));
    };
    let Ok(at) = u32::try_from(at) else {
        return Err(Fail::new("a text is long"));
    };
    let (answer, out) = told(alloc, text, at)?;
    if answer == Ok(()) && out.as_str() == want {
        return Ok(());
    }
    Err(Fail::new(out.as_str()))
}

#[test]
fn calls_are_explained(rt: HostRuntime) -> Result<(), Fail> {
    expect(rt.alloc(), SET, "set!", SET_TOLD)?;
    expect(rt.alloc(), PAIR, "pair!", PAIR_TOLD)?;
    expect(rt.alloc(), ROW, "row!", ROW_TOLD)?;
    expect(rt.alloc(), LAST, "last!", LAST_TOLD)?;
    expect(rt.alloc(), ONE, "one!", ONE_TOLD)?;
    expect(rt.alloc(), SIX, "six!", SIX_TOLD)?;
    expect(rt.alloc(), KEYS, "keys!(a ..= 'one, b", OPERATOR_TOLD)?;
    expect(rt.alloc(), KEYS, "keys!(a ..= 'one, '", LIFETIME_TOLD)
}

#[test]
fn a_call_that_a_rule_fits_is_not_explained(rt: HostRuntime) -> Result<(), Fail> {
    let (answer, out) = told(rt.alloc(), FIT, 126)?;
    if answer == Err(Unfit::Fits) && out.is_empty() {
        return Ok(());
    }
    Err(Fail::new(format!(in rt.alloc(); "{answer:?} {out}")?.as_str()))
}

//! Texts, and the lines that tell of the steps of their calls.
use crate::traces::{ALL, expect, told};
use expander_trace::limits::Limits;
use std::alloc::Global;
use std::test::Fail;
use step_report::{Asked, Form, Question};
use tt_data::{TextRange, TtFault};

const OTHER: &str = "macro_rules! pair { ($a:tt) => { ($a, $a) } }";

const TEXT: &str = r##"macro_rules! list { ($($x:expr),*) => { make!([] $($x)*) } }
macro_rules! make {
    ([ $($d:expr)* ] $h:tt $($r:tt)*) => { make!([ $($d)* $h ] $($r)*) };
    ([ $($d:expr)* ]) => { [ $($d),* ] };
}
let v = list![1, 2];
let é = pair!("­"); none!(of::it!(list!(3)));
make!(x);
"##;

const ALL_TOLD: &str = r##"calls.rs:6:9: list!
  1  list ! [ 1 , 2 ]                             rule 1 of list (calls.rs:1:14)
       $x:expr #1 1                               calls.rs:6:15
       $x:expr #2 2                               calls.rs:6:18
     = make ! ( [ ] 1 2 )
  2    make ! ( [ ] 1 2 )                         rule 1 of make (calls.rs:2:14)
         $d no iteration
         $h:tt 1                                  calls.rs:6:15
         $r:tt #1 2                               calls.rs:6:18
       = make ! ( [ 1 ] 2 )
  3      make ! ( [ 1 ] 2 )                       rule 1 of make (calls.rs:2:14)
           $d:expr #1 1                           calls.rs:6:15
           $h:tt 2                                calls.rs:6:18
           $r no iteration
         = make ! ( [ 1 2 ] )
  4        make ! ( [ 1 2 ] )                     rule 2 of make (calls.rs:2:14)
             $d:expr #1 1                         calls.rs:6:15
             $d:expr #2 2                         calls.rs:6:18
           = [ 1 , 2 ]
calls.rs:7:9: pair!
  1  pair ! ( "⟦U+00AD⟧" )                    rule 1 of pair (other.rs)
       $a:tt "⟦U+00AD⟧"                       calls.rs:7:15
     = ( "⟦U+00AD⟧" , "⟦U+00AD⟧" )
calls.rs:7:21: none!
  1  none !                                       stays: no definition of this macro is known here
calls.rs:7:35: list!
  1  list ! ( 3 )                                 rule 1 of list (calls.rs:1:14)
       $x:expr #1 3                               calls.rs:7:41
     = make ! ( [ ] 3 )
  2    make ! ( [ ] 3 )                           rule 1 of make (calls.rs:2:14)
         $d no iteration
         $h:tt 3                                  calls.rs:7:41
         $r no iteration
       = make ! ( [ 3 ] )
  3      make ! ( [ 3 ] )                         rule 2 of make (calls.rs:2:14)
           $d:expr #1 3                           calls.rs:7:41
         = [ 3 ]
calls.rs:8:1: make!
  1  make ! ( x )                                 stays: no rule matches: make (calls.rs:2:14)
"##;

const PAIR_TOLD: &str = r##"calls.rs:7:9: pair!
  1  pair ! ( "⟦U+00AD⟧" )                    rule 1 of pair (other.rs)
       $a:tt "⟦U+00AD⟧"                       calls.rs:7:15
     = ( "⟦U+00AD⟧" , "⟦U+00AD⟧" )
"##;

const CUT_TOLD: &str = r##"calls.rs:6:9: list!
  1  list ! [ 1 , 2 ]                             rule 1 of list (calls.rs:1:14)
       $x:expr #1 1                               calls.rs:6:15
       $x:expr #2 2                               calls.rs:6:18
     = make ! ( [ ] 1 2 )
  2    make ! ( [ ] 1 2 )                         rule 1 of make (calls.rs:2:14)
         $d no iteration
         $h:tt 1                                  calls.rs:6:15
         $r:tt #1 2                               calls.rs:6:18
       = make ! ( [ 1 ] 2 )
cut: there are more steps than are asked for
"##;

const LONG: &str = r##"macro_rules! drop { ($($x:tt)*) => {} }
drop!(aaaaaaaaaaaaaaa bbbbbbbbbbbbbbb ccccccccccccccc ddddddddddddddd);
fn f() { macro_rules! g { () => {} } g!(); }
"##;

const LONG_TOLD: &str = r##"calls.rs:2:1: drop!
  1  drop ! ( aaaaaaaaaaaaaaa bbb .. cccccccccc ddddddddddddddd ) (8 tokens)  rule 1 of drop (calls.rs:1:14)
       $x:tt #1 aaaaaaaaaaaaaaa                   calls.rs:2:7
       $x:tt #2 bbbbbbbbbbbbbbb                   calls.rs:2:23
       $x:tt #3 ccccccccccccccc                   calls.rs:2:39
       $x:tt #4 ddddddddddddddd                   calls.rs:2:55
     = (no tokens)
cut: what comes next may define macros, and is not traced
"##;

const CUT_BEFORE: &str = "cut: there are more steps than are asked for\n";

// The lines for the calls of a text that are asked for, and whether one stays for a fault.
fn lines(
    alloc: Global,
    text: &str,
    asked: Asked,
    limits: Limits,
) -> Result<(String, bool), TtFault> {
    let form = Form::Text;
    told(
        alloc,
        OTHER,
        text,
        Question {
            asked,
            limits,
            form,
        },
    )
}

#[test]
fn all_calls(rt: HostRuntime) -> Result<(), Fail> {
    let (text, stays) = lines(rt.alloc(), TEXT, Asked::All, ALL)?;
    expect(text.as_str(), ALL_TOLD)?;
    assert!(rt; stays);
    Ok(())
}

#[test]
fn calls_at_a_byte_and_on_a_line(rt: HostRuntime) -> Result<(), Fail> {
    let at = TEXT.find("pair").unwrap_or(0) as u32;
    let (text, stays) = lines(rt.alloc(), TEXT, Asked::At(at), ALL)?;
    expect(text.as_str(), PAIR_TOLD)?;
    assert!(rt; !stays);
    let range = TextRange {
        start: at,
        end: at + 5,
    };
    let (text, stays) = lines(rt.alloc(), TEXT, Asked::In(range), ALL)?;
    assert!(rt; !stays);
    expect(text.as_str(), PAIR_TOLD)
}

#[test]
fn cut_traces(rt: HostRuntime) -> Result<(), Fail> {
    let limits = Limits { steps: 2, ..ALL };
    let (text, _) = lines(rt.alloc(), TEXT, Asked::All, limits)?;
    expect(text.as_str(), CUT_TOLD)?;
    let (text, _) = lines(rt.alloc(), LONG, Asked::All, ALL)?;
    expect(text.as_str(), LONG_TOLD)
}

// A limit that is passed before the calls that are asked for is told, and no other cut.
#[test]
fn cuts_of_other_calls(rt: HostRuntime) -> Result<(), Fail> {
    let limits = Limits { steps: 2, ..ALL };
    let end = TEXT.len() as u32;
    let range = TextRange { start: end, end };
    let (text, _) = lines(rt.alloc(), TEXT, Asked::In(range), limits)?;
    expect(text.as_str(), CUT_BEFORE)?;
    let range = TextRange { start: 0, end: 1 };
    let (text, _) = lines(rt.alloc(), LONG, Asked::In(range), ALL)?;
    expect(text.as_str(), "")
}

// Lines that are refused memory are the same when they are made again.
#[test]
fn refused_lines(rt: HostRuntime) -> Result<(), Fail> {
    let (text, _) = match lines(rt.alloc(), TEXT, Asked::All, ALL) {
        Ok(lines) => lines,
        Err(_) => lines(rt.alloc(), TEXT, Asked::All, ALL)?,
    };
    expect(text.as_str(), ALL_TOLD)
}

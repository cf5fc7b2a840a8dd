//! Another number of levels than the stored run of scripts has.
use crate::opened::{found, opened};
use expander::{Expansion, FaultKind};
use std::alloc::Global;
use std::test::Fail;

// Whether the only fault is that the call at this offset has too many levels.
fn has_limit(found: &Expansion, start: u32) -> bool {
    match found.faults().first() {
        Some(fault) => {
            found.faults().len() == 1
                && fault.kind == FaultKind::RecursionLimit
                && fault.range.start == start
        }
        None => false,
    }
}

// Whether a call with so many names is printed.
fn prints_call(alloc: Global, found: &Expansion, names: usize) -> Result<bool, Fail> {
    let names = " a".repeat(alloc, names)?;
    let want = format!(in alloc; "w ! {{{names} }}\n")?;
    Ok(found.printed() == want.as_str())
}

fn found_of(alloc: Global, text: &str, depth: u8) -> Result<Expansion, Fail> {
    found(&mut opened(alloc, text, depth)?)
}

const WORDS: &str = "macro_rules! w { ($($x:tt)*) => { w!{ $($x)* $($x)* } } }\nw!{a}\n";

// With ten levels the last call has 1,024 names, and stays.
#[test]
fn doubled(rt: HostRuntime) -> Result<(), Fail> {
    let found = found_of(rt.alloc(), WORDS, 10)?;
    assert!(rt; prints_call(rt.alloc(), &found, 1024)?);
    assert!(rt; found.tokens() == 1028 && has_limit(&found, 58));
    Ok(())
}

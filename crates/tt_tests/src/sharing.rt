//! Tests that the memory of shared texts is freed.
use std::alloc::Global;
use std::fs;
use std::test::*;
use tt_data::{Symbol, TtFault};

// The pages of the process that are in memory, or 0 if the system does not say.
fn resident_pages(rt: &HostRuntime) -> u64 {
    let Ok(text) = fs::read_to_string(rt, "/proc/self/statm") else {
        return 0;
    };
    match text.as_str().split_ascii_whitespace().nth(1) {
        Some(pages) => pages.parse::<u64>().unwrap_or(0),
        None => 0,
    }
}

// Makes a text, as a symbol with a clone or as a string, and drops it.
fn come_and_go(alloc: Global, as_symbol: bool) -> Result<(), TtFault> {
    let text = "a text that is freed at once, of some length";
    if as_symbol {
        let first = Symbol::new(alloc, text)?;
        let _second = first.clone()?;
    } else {
        let _text = String::from_str(alloc, text)?;
    }
    Ok(())
}

// By how many pages the process grows while many texts are made and dropped.
fn growth(rt: &HostRuntime, as_symbols: bool) -> Result<u64, TtFault> {
    let before = resident_pages(rt);
    for _ in 0..100_000 {
        come_and_go(rt.alloc(), as_symbols)?;
    }
    Ok(resident_pages(rt).saturating_sub(before))
}

// A build that looks for bad accesses does not reuse freed memory, so the test would show nothing
// there.
#[test]
fn dropped_texts_give_their_memory_back(rt: HostRuntime) -> Result<(), Fail> {
    if growth(&rt, false)? < 64 {
        assert!(rt; growth(&rt, true)? < 64);
    }
    Ok(())
}

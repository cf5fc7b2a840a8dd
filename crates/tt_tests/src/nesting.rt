//! A tree with groups in one another, more than a call for each would have stack for.
use crate::samples::{begun, built, put_all};
use std::alloc::Global;
use std::test::*;
use tt::{TopSubtree, pretty};
use tt_data::TtFault;

const DEPTH: usize = 100_000;

// `DEPTH` groups in one another, with a comma in the innermost.
fn nested(alloc: Global) -> Result<TopSubtree, TtFault> {
    let mut builder = begun(alloc, "")?;
    for _ in 0..DEPTH {
        put_all(&mut builder, "{", 0)?;
    }
    put_all(&mut builder, ",", 0)?;
    for _ in 0..DEPTH {
        put_all(&mut builder, "}", 0)?;
    }
    built(builder)
}

// Whether this is the text of the tree.
fn is_deep(text: &str) -> bool {
    text.len() == 2 * DEPTH + 1 && text.starts_with("{{{{") && text.ends_with("}}}}")
}

fn are_deep(alloc: Global, tree: &TopSubtree) -> Result<bool, TtFault> {
    let is_shown = is_deep(format!(in alloc; "{tree}")?.as_str());
    Ok(is_shown && is_deep(pretty(alloc, tree.token_trees())?.as_str()))
}

#[test]
fn displays_groups_a_hundred_thousand_deep(rt: HostRuntime) -> Result<(), Fail> {
    assert!(rt; are_deep(rt.alloc(), &nested(rt.alloc())?)?);
    Ok(())
}

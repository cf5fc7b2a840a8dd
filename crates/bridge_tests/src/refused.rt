//! A text that is read, and its piece: for runs in which one request for memory is refused.
use crate::pieces::piece_of;
use crate::rows::tree;
use std::alloc::Global;
use std::test::Fail;
use tt::TopSubtree;

const TEXT: &str = "  x /// d\n 'a+={1u8, \"é\", r#fn, b'y'};";

const SHOWN: &str = "x # [doc = \" d\"] 'a += {1u8 , \"é\" , r#fn , b'y'} ;";

// Whether a tree of the text is shown, and its first token begins at this offset.
fn is_shown(alloc: Global, tree: &TopSubtree, start: u32) -> Result<bool, Fail> {
    let shown = match format!(in alloc; "{tree}") {
        Ok(shown) => shown,
        Err(_) => format!(in alloc; "{tree}")?,
    };
    let is_first = match tree.token_trees().first_span() {
        Some(span) => span.range.start == start,
        None => false,
    };
    Ok(is_first && shown.as_str() == SHOWN)
}

// Whether the text and its piece are read.
fn are_read(alloc: Global) -> Result<bool, Fail> {
    let tree = tree(alloc, TEXT)?;
    let is_read = is_shown(alloc, &tree, 2)?;
    Ok(is_read && is_shown(alloc, &piece_of(alloc, tree.token_trees())?, 0)?)
}

#[test]
fn refused_readings(rt: HostRuntime) -> Result<(), Fail> {
    assert!(rt; are_read(rt.alloc())?);
    Ok(())
}

//! Sessions after definitions of other texts, and where tokens come from. The script
//! `preludes.script` of the examples shows what is expanded anew.
use crate::opened::{found, opened};
use expander::{
    Edition, Expansion, Home, Origin, Prelude, Session, SmallGrammar, Source, SourceRead,
};
use std::alloc::Global;
use std::test::Fail;

/// The source that a short text is.
pub(crate) fn source_of(alloc: Global, text: &str, home: Option<Home>) -> Result<Source, Fail> {
    if text.len() >= 1000 {
        return Err(Fail::new("a text is long"));
    }
    match Source::new(alloc, text, 1, home) {
        Ok(SourceRead::Read(source)) => Ok(source),
        _ => Err(Fail::new("a source is not read")),
    }
}

/// All definitions of a source, in order.
pub(crate) fn prelude_of(alloc: Global, source: &Source) -> Result<Prelude, Fail> {
    let mut prelude = Prelude::new(alloc);
    for i in 0..source.len() {
        if prelude.push(alloc, source, i).is_err() {
            return Err(Fail::new("a definition is not picked"));
        }
    }
    Ok(prelude)
}

// The expansion of the session's text after the definitions of this text.
fn expanded_after(
    alloc: Global,
    session: &mut Session<SmallGrammar>,
    text: &str,
) -> Result<Expansion, Fail> {
    let source = source_of(alloc, text, None)?;
    session.set_prelude(prelude_of(alloc, &source)?);
    found(session)
}

// Whether the first token comes from these bytes of source 1, and so is not of the own text.
fn is_from(found: &Expansion, start: u32, end: u32) -> bool {
    if found.tokens() == 0 || found.origin(0).is_some() {
        return false;
    }
    match found.source(0) {
        Some(Origin { text, range }) => text == 1 && range.start == start && range.end == end,
        None => false,
    }
}

#[test]
fn tokens_follow_their_source(rt: HostRuntime) -> Result<(), Fail> {
    let mut session = opened(rt.alloc(), "m!{}", 128)?;
    let first = expanded_after(rt.alloc(), &mut session, "macro_rules! m { () => { 1 } }")?;
    assert!(rt; is_from(&first, 25, 26), "first");
    let moved = expanded_after(
        rt.alloc(),
        &mut session,
        "a; macro_rules! m { () => { 1 } }",
    )?;
    assert!(rt; is_from(&moved, 28, 29), "moved");
    Ok(())
}

// What a session over this text defines for another text, which is printed.
fn printed_after_session(alloc: Global, other: &str, text: &str) -> Result<bool, Fail> {
    let source = match opened(alloc, other, 128)?.source(1, None) {
        Ok(SourceRead::Read(source)) => source,
        _ => return Err(Fail::new("a session is no source")),
    };
    let mut session = opened(alloc, text, 128)?;
    session.set_prelude(prelude_of(alloc, &source)?);
    Ok(source.len() == 2 && source.name(0) == "m" && found(&mut session)?.printed() == "1 2\n")
}

#[test]
fn a_session_is_a_source(rt: HostRuntime) -> Result<(), Fail> {
    let other = "macro_rules! m { () => { 1 } } mod n { macro_rules! n { () => { 2 } } }";
    assert!(rt;
        printed_after_session(rt.alloc(), other, "m!{} n!{}")?,
        "m and n"
    );
    Ok(())
}

// What a call of `a` prints, whose definition belongs to the crate `one`.
fn printed_of_crate(alloc: Global, text: &str, want: &str) -> Result<bool, Fail> {
    let Some(home) = Home::new(alloc, "one", Edition::Edition2021)? else {
        return Err(Fail::new("a root is refused"));
    };
    let root = home.try_clone(alloc)?;
    let source = source_of(alloc, text, Some(home))?;
    let mut prelude = prelude_of(alloc, &source)?;
    if prelude.push_rooted(alloc, &source, &root).is_err() {
        return Err(Fail::new("a definition is not picked"));
    }
    let mut session = opened(alloc, "a!{}", 128)?;
    session.set_prelude(prelude);
    Ok(found(&mut session)?.printed() == want)
}

#[test]
fn definitions_belong_to_their_crate(rt: HostRuntime) -> Result<(), Fail> {
    let text = "macro_rules! a { () => { $crate::b!{} $crate::c } } macro_rules! b { () => { 1 } }";
    assert!(rt; printed_of_crate(rt.alloc(), text, "1 one :: c\n")?, "one");
    assert!(rt;
        Home::new(rt.alloc(), "crate", Edition::Edition2021)?.is_none(),
        "crate"
    );
    Ok(())
}

//! Sessions by both rules of scopes: what they print, and what an edit makes them expand anew.
use crate::opened::found;
use cfg_options::CfgOptions;
use expander::{Dialect, Edition, Expansion, FaultKind, Limits, ScopeRules, Session, SmallGrammar};
use std::alloc::Global;
use std::test::Fail;

// Rules of scopes and a text; what is printed, and how many faults there are.
const ROWS: [(ScopeRules, &str, &str, usize); 9] = [
    (
        ScopeRules::TopLevel,
        "fn f() { macro_rules! m { () => { 1 } } m!{} }",
        "fn f ( ) { macro_rules ! m { ( ) => { 1 } } m ! { } }\n",
        1,
    ),
    (
        ScopeRules::Rust,
        "fn f() { macro_rules! m { () => { 1 } } m!{} }",
        "fn f ( ) { 1 }\n",
        0,
    ),
    (
        ScopeRules::Rust,
        "fn f() { macro_rules! m { () => { 1 } } m!(); \
         { macro_rules! m { () => { 2 } } m!(); } m!(); }",
        "fn f ( ) { 1 ; { 2 ; } 1 ; }\n",
        0,
    ),
    (
        ScopeRules::Rust,
        "macro_rules! m { () => { 0 } } fn f() { m!{} macro_rules! m { () => { 1 } } m!{} } m!{}",
        "fn f ( ) { 0 1 }\n0\n",
        0,
    ),
    (
        ScopeRules::Rust,
        "macro_rules! k { () => { j!{} $crate::j!{} } } macro_rules! j { () => { 1 } } \
         fn f() { macro_rules! j { () => { 2 } } k!{} }",
        "fn f ( ) { 2 1 }\n",
        0,
    ),
    (
        ScopeRules::Rust,
        "macro_rules! mk { ($n:ident $e:tt) => { macro_rules! $n { () => { $e } } } } \
         fn f() { mk!{a 1} { mk!{a 2} a!{} } a!{} }",
        "fn f ( ) { { 2 } 1 }\n",
        0,
    ),
    (
        ScopeRules::Rust,
        "u!({ macro_rules! m { () => { 1 } } m!{} });",
        "u ! ( { macro_rules ! m { ( ) => { 1 } } 1 } ) ;\n",
        1,
    ),
    (
        ScopeRules::Rust,
        "mod a { macro_rules! m { () => { 1 } } mod b { m!{} } } m!{}",
        "mod a { mod b { 1 } }\nm ! { }\n",
        0,
    ),
    (
        ScopeRules::Rust,
        "({ macro_rules! m { () => { 1 } } m!{} } (macro_rules! m { () => { 2 } } m!{}) \
         [macro_rules! m { () => { 3 } } m!{}] m!{});",
        "( { 1 } ( 2 ) [ 3 ] m ! { } ) ;\n",
        0,
    ),
];

// A session by these rules over a text that is short.
fn scoped(alloc: Global, text: &str, scope: ScopeRules) -> Result<Session<SmallGrammar>, Fail> {
    if text.len() >= 1000 {
        return Err(Fail::new("a text is long"));
    }
    let (edition, dialect) = (
        Edition::Edition2024,
        Dialect {
            scope,
            items: false,
            cfg: None,
            limits: None,
            excuses: false,
        },
    );
    Ok(Session::with_dialect(alloc, text, SmallGrammar, edition, dialect, 128)?)
}

#[test]
fn definitions_in_lists(rt: HostRuntime) -> Result<(), Fail> {
    for (scope, text, want, faults) in &ROWS {
        let given = found(&mut scoped(rt.alloc(), text, *scope)?)?;
        assert!(rt; given.printed() == *want, "{text}: {}", given.printed());
        assert!(rt; given.faults().len() == *faults, "{text}");
    }
    Ok(())
}

// The expansion once this text is in the place of the first such digit.
fn expanded_with(
    session: &mut Session<SmallGrammar>,
    digit: char,
    text: &str,
) -> Result<Expansion, Fail> {
    let Some(at) = session.text().find(digit) else {
        return Err(Fail::new("there is no such digit"));
    };
    let end = at + 1;
    if !(session.is_boundary(at) && session.is_boundary(end) && session.fits(at, end, text.len())) {
        return Err(Fail::new("it does not fit"));
    }
    session.edit(at, end, text)?;
    found(session)
}

// A name that a list answers is looked up nowhere else: of two calls of one name only that which
// finds a changed definition is expanded anew.
#[test]
fn own_names_are_no_look_ups(rt: HostRuntime) -> Result<(), Fail> {
    let text = "macro_rules! m { () => { 0 } } fn f() { macro_rules! m { () => { 1 } } m!{} } \
         fn g() { m!{} }";
    let mut session = scoped(rt.alloc(), text, ScopeRules::Rust)?;
    let first = found(&mut session)?;
    assert!(rt; first.printed() == "fn f ( ) { 1 }\nfn g ( ) { 0 }\n" && first.expanded() == 2);
    let inside = expanded_with(&mut session, '1', "2")?;
    assert!(rt; inside.printed() == "fn f ( ) { 2 }\nfn g ( ) { 0 }\n" && inside.expanded() == 1);
    let outside = expanded_with(&mut session, '0', "3")?;
    assert!(rt; outside.printed() == "fn f ( ) { 2 }\nfn g ( ) { 3 }\n" && outside.expanded() == 1);
    Ok(())
}

// A session in which only the option `x` is set, over a text that is short.
fn with_option(alloc: Global, text: &str) -> Result<Session<SmallGrammar>, Fail> {
    if text.len() >= 1000 {
        return Err(Fail::new("a text is long"));
    }
    let mut options = CfgOptions::new(alloc);
    let Ok(()) = options.push("x") else {
        return Err(Fail::new("it is no option"));
    };
    let dialect = Dialect {
        scope: ScopeRules::Rust,
        items: true,
        cfg: Some(options),
        limits: None,
        excuses: false,
    };
    Ok(Session::with_dialect(
        alloc,
        text,
        SmallGrammar,
        Edition::Edition2024,
        dialect,
        128,
    )?)
}

// What is left out is not looked at: an edit in it expands nothing.
#[test]
fn conditions_leave_out(rt: HostRuntime) -> Result<(), Fail> {
    let text = "#[cfg(x)] macro_rules! m { () => { 1 } } #[cfg(y)] macro_rules! m { () => { 2 } } \
                m!{} #[cfg(y)] mod a { m!{} }";
    let mut session = with_option(rt.alloc(), text)?;
    let first = found(&mut session)?;
    assert!(rt; first.printed() == "1\n" && first.expanded() == 2);
    let nowhere = expanded_with(&mut session, '2', "4")?;
    assert!(rt; nowhere.printed() == "1\n" && nowhere.expanded() == 0);
    let there = expanded_with(&mut session, '1', "3")?;
    assert!(rt; there.printed() == "3\n" && there.expanded() == 1);
    Ok(())
}

// How many calls one call may make, and how many tokens, and a text; what is printed, and how many
// calls make too much.
const LIMITED: [(usize, usize, &str, &str, usize); 7] = [
    (
        3,
        9,
        "macro_rules! m { () => { n!{} n!{} } } macro_rules! n { () => { 1 } } m!{} fn f() { m!{} }",
        "1 1 fn f ( ) { 1 1 }\n",
        0,
    ),
    (
        2,
        9,
        "macro_rules! m { () => { n!{} n!{} } } macro_rules! n { () => { 1 } } m!{} n!{}",
        "m ! { }\n1\n",
        1,
    ),
    (
        3,
        7,
        "macro_rules! m { () => { n!{} n!{} } } macro_rules! n { () => { 1 } } m!{} n!{}",
        "m ! { }\n1\n",
        1,
    ),
    (
        1000,
        100_000,
        "macro_rules! w { () => { w!{} w!{} } } fn f() { w!(); 1 }",
        "fn f ( ) { w ! ( ) ; 1 }\n",
        1,
    ),
    (
        1000,
        100_000,
        "macro_rules! d { ($x:tt) => { d!{ ($x $x) } } } d!{ a }",
        "d ! { a }\n",
        1,
    ),
    (
        2,
        100,
        "macro_rules! d { () => { macro_rules! e { () => { 1 } } e!{} e!{} } } fn f() { d!{} e!{} }",
        "fn f ( ) { d ! { } e ! { } }\n",
        1,
    ),
    (
        0,
        100,
        "macro_rules! m { () => { 1 } } mod a { m!(); }",
        "mod a { m ! ( ) ; }\n",
        1,
    ),
];

// By the rules of Rust, with these limits, over a text that is short.
fn limited(alloc: Global, text: &str, limits: Limits) -> Result<Session<SmallGrammar>, Fail> {
    if text.len() >= 1000 {
        return Err(Fail::new("a text is long"));
    }
    let mut dialect = Dialect::rust();
    dialect.limits = Some(limits);
    Ok(Session::with_dialect(
        alloc,
        text,
        SmallGrammar,
        Edition::Edition2024,
        dialect,
        128,
    )?)
}

// Whether this text is printed, with so many faults, all of which are calls that make too much.
fn says(given: &Expansion, want: &str, faults: usize) -> bool {
    if given.printed() != want || given.faults().len() != faults {
        return false;
    }
    for fault in given.faults() {
        if fault.kind != FaultKind::TooLarge {
            return false;
        }
    }
    true
}

fn makes(alloc: Global, row: &(usize, usize, &str, &str, usize)) -> Result<bool, Fail> {
    let limits = Limits {
        calls: row.0,
        tokens: row.1,
    };
    let given = found(&mut limited(alloc, row.2, limits)?)?;
    Ok(says(&given, row.3, row.4))
}

#[test]
fn what_a_call_makes(rt: HostRuntime) -> Result<(), Fail> {
    for row in &LIMITED {
        assert!(rt; makes(rt.alloc(), row)?, "{}", row.2);
    }
    Ok(())
}

// An edit of one digit in a session, and what is said then.
fn says_with(
    session: &mut Session<SmallGrammar>,
    edit: (char, &str),
    want: &str,
    faults: usize,
) -> Result<bool, Fail> {
    let given = expanded_with(session, edit.0, edit.1)?;
    Ok(says(&given, want, faults))
}

// Where a call makes too much its look-ups until then are kept: it is expanded anew once one of
// them finds another definition.
#[test]
fn what_is_too_large(rt: HostRuntime) -> Result<(), Fail> {
    let text = "macro_rules! m { () => { n!{} n!{} } } macro_rules! n { () => { 1 2 3 } } m!{} 5";
    let limits = Limits {
        calls: 9,
        tokens: 11,
    };
    let mut session = limited(rt.alloc(), text, limits)?;
    assert!(rt; says(&found(&mut session)?, "m ! { }\n5\n", 1));
    assert!(rt; says_with(&mut session, ('5', "6"), "m ! { }\n6\n", 1)?);
    assert!(rt; says_with(&mut session, ('3', ""), "1 2 1 2 6\n", 0)?);
    Ok(())
}

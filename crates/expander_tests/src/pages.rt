//! Pages, for runs of the tests in which one request for memory is refused. A refused call changes
//! nothing, and gives the same when it is made again.
use crate::opened::{opened, reply_of};
use crate::preludes::{prelude_of, source_of};
use expander::Reply;
use expansion_page::{page, page_with_names};
use std::alloc::Global;
use std::test::Fail;

// A text, and what its page has to show of it.
struct Row {
    text: &'static str,
    shows: &'static str,
}

const ROWS: [Row; 3] = [
    Row {
        text: "macro_rules! m { ($x:tt) => { $x } }\nm!(a);\nm!();",
        shows: "<bdi class=f id=s",
    },
    Row {
        text: "fn \u{5d0}() { \"\u{3164}\" }",
        shows: "<bdi>&#34;\u{27e6}U+3164\u{27e7}&#34;</bdi>",
    },
    Row {
        text: "(",
        shows: "The text cannot be read",
    },
];

// The page of a reply. If it is refused, it is made once more.
fn page_of(alloc: Global, text: &str, reply: &Reply) -> Result<String, Fail> {
    if text.len() >= 1000 {
        return Err(Fail::new("a text is long"));
    }
    match page(alloc, "a<b", text, reply) {
        Ok(html) => Ok(html),
        Err(_) => Ok(page(alloc, "a<b", text, reply)?),
    }
}

fn reply_to(alloc: Global, text: &str) -> Result<Reply, Fail> {
    reply_of(&mut opened(alloc, text, 128)?)
}

// Whether a page shows what it has to, and the title is escaped.
fn is_page(row: &Row, html: &str) -> bool {
    html.contains(row.shows) && html.contains("<title>a&#60;b: expansion</title>")
}

// Whether two pages of a text are equal and so.
fn is_shown(alloc: Global, row: &Row) -> Result<bool, Fail> {
    let reply = reply_to(alloc, row.text)?;
    let first = page_of(alloc, row.text, &reply)?;
    let is_same = page_of(alloc, row.text, &reply)?.as_str() == first.as_str();
    Ok(is_same && is_page(row, first.as_str()))
}

#[test]
fn refused_pages(rt: HostRuntime) -> Result<(), Fail> {
    for row in &ROWS {
        assert!(rt; is_shown(rt.alloc(), row)?, "{}", row.text);
    }
    Ok(())
}

// The reply to `m!(a);` after a definition of another text.
fn reply_after(alloc: Global) -> Result<Reply, Fail> {
    let mut session = opened(alloc, "m!(a);", 128)?;
    let source = source_of(alloc, "macro_rules! m { ($x:tt) => { $x b } }", None)?;
    session.set_prelude(prelude_of(alloc, &source)?);
    reply_of(&mut session)
}

// A token of another text has no link, and a title that says which text, and which bytes.
#[test]
fn tokens_of_other_texts(rt: HostRuntime) -> Result<(), Fail> {
    let alloc = rt.alloc();
    let reply = reply_after(alloc)?;
    let numbered = page(alloc, "t", "m!(a);", &reply)?;
    let mut names = Vec::new(alloc);
    names.push(String::from_str(alloc, "d<e.rs")?)?;
    let named = page_with_names(alloc, "t", "m!(a);", names.as_slice(), &reply)?;
    let rows = [
        (
            &numbered,
            "<bdi o=4>a</bdi> <bdi o=0 title=\"source 1, bytes 33 to 34\">b</bdi>",
        ),
        (
            &named,
            "<bdi o=4>a</bdi> <bdi o=0 title=\"d&#60;e.rs, bytes 33 to 34\">b</bdi>",
        ),
    ];
    for (html, shows) in rows {
        assert!(rt; html.contains(shows), "{shows}");
    }
    Ok(())
}

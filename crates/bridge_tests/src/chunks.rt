//! Chunks of printed text, appended to one another.
use crate::rows::tree;
use bridge::Printer;
use bridge::parts::{LazyPrinted, Place, PrintedChunk, Shift, SpanList, TokenEvent};
use std::alloc::Global;
use std::test::Fail;
use tt_data::{Leaf, Punct, Spacing, Span, TtFault};

// A printer with the trees of a text appended.
fn printer_of(alloc: Global, text: &str) -> Result<Printer, Fail> {
    let tree = tree(alloc, text)?;
    let mut printer = Printer::new(alloc);
    printer.put(tree.token_trees())?;
    Ok(printer)
}

// The chunk that the trees of a text print.
fn chunk_of(alloc: Global, text: &str) -> Result<PrintedChunk, Fail> {
    match printer_of(alloc, text)?.into_chunk()? {
        Some(chunk) => Ok(chunk),
        None => Err(Fail::new("what is printed of a text is no chunk")),
    }
}

// Appends a chunk at its own spans. A refused call is made once more.
fn put(printer: &mut Printer, chunk: &PrintedChunk) -> Result<bool, TtFault> {
    match printer.put_chunk(chunk, chunk.spans()) {
        Err(TtFault::Memory) => printer.put_chunk(chunk, chunk.spans()),
        answer => answer,
    }
}

// Appends the chunk of a text: whether it was appended, and whether another can follow.
fn put_text(alloc: Global, printer: &mut Printer, text: &str) -> Result<(bool, bool), Fail> {
    let is_put = put(printer, &chunk_of(alloc, text)?)?;
    Ok((is_put, printer.takes_chunks()))
}

// Appends the chunks of texts.
fn put_texts(alloc: Global, printer: &mut Printer, texts: &[&str]) -> Result<(), Fail> {
    for text in texts {
        if put_text(alloc, printer, text)? != (true, true) {
            return Err(Fail::new(text));
        }
    }
    Ok(())
}

// A space comes after a name.
#[test]
fn puts_parts_behind_one_another(rt: HostRuntime) -> Result<(), Fail> {
    let mut printer = Printer::with_token_room(rt.alloc(), 24, 8)?;
    put_texts(rt.alloc(), &mut printer, &["a;", "f {b;}", "c", "a;"])?;
    let Ok(printed) = printer.finish() else {
        return Err(Fail::new("no memory"));
    };
    let text = printed.text.as_str();
    assert!(rt;
        text == "a ;\nf { b ; }\nc a ;\n" && printed.tokens.len() == 10,
        "{text}"
    );
    Ok(())
}

// Appends a `Joint` punct.
fn put_joined(printer: &mut Printer, char: char) -> Result<(), TtFault> {
    let spacing = Spacing::Joint;
    let span = Span::default();
    let punct = Leaf::Punct(Punct {
        char,
        spacing,
        span,
    });
    printer.put_event(&TokenEvent::Leaf(punct.lent()))
}

// Appends a text and a joined punct, after which no chunk is appended. Whether this is a chunk.
fn ends_chunk(alloc: Global, text: &str, last: char) -> Result<bool, Fail> {
    let mut printer = printer_of(alloc, text)?;
    put_joined(&mut printer, last)?;
    if put_text(alloc, &mut printer, "b;")? != (false, false) {
        return Err(Fail::new("a chunk is appended"));
    }
    Ok(printer.into_chunk()?.is_some())
}

// A quote that waits at the end, and nothing at all, are no chunks.
#[test]
fn what_ends_as_a_chunk(rt: HostRuntime) -> Result<(), Fail> {
    assert!(rt; ends_chunk(rt.alloc(), "a", '<')? && !ends_chunk(rt.alloc(), "a;", '\'')?);
    assert!(rt; printer_of(rt.alloc(), "")?.into_chunk()?.is_none());
    Ok(())
}

// Appends a chunk twice with a shift, and once with a shift past the end of any text.
fn put_at(printer: &mut Printer, part: &PrintedChunk) -> Result<(bool, bool, bool), TtFault> {
    let shift = Shift {
        own: Place { text: 0, start: 10 },
        other: Place { text: 1, start: 20 },
    };
    let far = Shift {
        own: Place {
            text: 0,
            start: u32::MAX,
        },
        other: Place { text: 1, start: 0 },
    };
    let first = printer.put_chunk_at(part, shift)?;
    let second = printer.put_chunk_at(part, shift)?;
    Ok((first, second, printer.put_chunk_at(part, far)?))
}

// What two shifted chunks print.
fn placed(alloc: Global) -> Result<LazyPrinted, Fail> {
    let part = chunk_of(alloc, "a;")?;
    let mut printer = printer_of(alloc, "b;")?;
    let is_at_0 = part.relative_spans().anchor() == Some(0);
    if !is_at_0 || put_at(&mut printer, &part)? != (true, true, false) {
        return Err(Fail::new("a part is put where it has no place"));
    }
    match printer.finish_lazy() {
        Ok(placed) => Ok(placed),
        Err(_) => Err(Fail::new("no memory")),
    }
}

// Whether a copy of the six spans has the fourth where it was put, and the first three are taken.
fn are_spans(alloc: Global, tokens: &mut SpanList) -> Result<bool, TtFault> {
    let copy = tokens.try_clone(alloc)?;
    tokens.truncate(3);
    let spans = tokens.take_spans()?;
    let start = copy.get(3).map_or(0, |span| span.range.start);
    Ok(copy.len() == 6 && start == 11 && spans.as_slice().last().copied() == copy.get(2))
}

#[test]
fn chunks_stand_where_they_are_put(rt: HostRuntime) -> Result<(), Fail> {
    let mut placed = placed(rt.alloc())?;
    assert!(rt; placed.text.as_str() == "b ;\na ;\na ;\n");
    assert!(rt; are_spans(rt.alloc(), &mut placed.tokens)?);
    Ok(())
}

//! Edits of a text that keeps its tokens, against lexing from scratch. Each call that takes memory
//! is made once more if it is refused: a refused call changes nothing.
use rustc_lexer::{Kept, LexedText};
use std::alloc::{AllocError, Global};
use std::test::Fail;

// A text with its tokens, lexed from scratch. It is not made if the text is long.
fn lexed(alloc: Global, text: &str) -> Result<LexedText, Fail> {
    if text.len() >= 200_000 {
        return Err(Fail::new("a text is long"));
    }
    match LexedText::new(alloc, text) {
        Ok(held) => Ok(held),
        Err(_) => Ok(LexedText::new(alloc, text)?),
    }
}

// Fails if the tokens are not those of the text.
fn expect_tokens(alloc: Global, held: &LexedText) -> Result<(), Fail> {
    if held.tokens() == lexed(alloc, held.text())?.tokens() {
        return Ok(());
    }
    Err(Fail::new("the tokens are not those of the text"))
}

// What an edit keeps, or `None` if it does not fit. Fails if the tokens are then not those of the
// text.
fn edited(
    alloc: Global,
    held: &mut LexedText,
    start: usize,
    end: usize,
    word: &str,
) -> Result<Option<Kept>, Fail> {
    let inside = start <= end && held.is_boundary(start) && held.is_boundary(end);
    if !inside || !held.fits(start, end, word.len()) {
        return Ok(None);
    }
    let kept = match held.edit(start, end, word) {
        Ok(kept) => kept,
        Err(_) => {
            expect_tokens(alloc, held)?;
            held.edit(start, end, word)?
        }
    };
    expect_tokens(alloc, held)?;
    Ok(Some(kept))
}

// A text, the edited range, the replacement, the edited text, and how many tokens are kept before,
// lexed again, and kept after.
type Row = (
    &'static str,
    (usize, usize),
    &'static str,
    &'static str,
    Option<(usize, usize, usize)>,
);

const ROWS: [Row; 9] = [
    ("r ;", (1, 1), "\"a\"", "r\"a\" ;", Some((0, 1, 2))),
    ("a; b", (4, 4), " c", "a; b c", Some((2, 4, 0))),
    ("a; b c", (5, 6), "d;e", "a; b d;e", Some((3, 5, 0))),
    ("a; /* b */ c", (8, 10), "", "a; /* b  c", Some((3, 1, 0))),
    ("é😀 x; y", (2, 6), "ü", "éü x; y", Some((0, 1, 5))),
    (
        ";### x",
        (4, 4),
        "\"a\"###",
        ";###\"a\"### x",
        Some((1, 1, 2)),
    ),
    (";##\"a\"## x", (3, 4), "", ";##a\"## x", Some((1, 4, 0))),
    ("é", (1, 1), "a", "é", None),
    ("ab", (2, 1), "", "ab", None),
];

fn is_edited(alloc: Global, row: &Row) -> Result<bool, Fail> {
    let (text, (start, end), word, then, want) = *row;
    let mut held = lexed(alloc, text)?;
    let kept = match edited(alloc, &mut held, start, end, word)? {
        Some(kept) => Some((kept.front, kept.lexed, kept.back)),
        None => None,
    };
    Ok(kept == want && held.text() == then)
}

#[test]
fn refused_edits(rt: HostRuntime) -> Result<(), Fail> {
    for row in &ROWS {
        assert!(rt; is_edited(rt.alloc(), row)?, "edit of {}", row.0);
    }
    Ok(())
}

// Makes an edit, and takes the replacement out again.
fn edit_and_back(
    alloc: Global,
    text: &str,
    start: usize,
    end: usize,
    word: &str,
) -> Result<(), Fail> {
    let mut held = lexed(alloc, text)?;
    if edited(alloc, &mut held, start, end, word)?.is_some() {
        edited(
            alloc,
            &mut held,
            start,
            start.saturating_add(word.len()),
            "",
        )?;
    }
    Ok(())
}

// Runs of hashes that an edit makes longer, cuts, or parts from a quote.
#[test]
fn edits_at_each_place_of_a_run(rt: HostRuntime) -> Result<(), Fail> {
    let text = "a;####\"é\"###; ## [b]";
    for word in ["", "\"", "#", "x", "\"#", "\"\"##"] {
        for start in 0..text.len() {
            for len in 0..4usize {
                edit_and_back(rt.alloc(), text, start, start.saturating_add(len), word)?;
            }
        }
    }
    Ok(())
}

// A text that is long enough for checkpoints.
fn long_text(alloc: Global) -> Result<String, AllocError> {
    "fn f(x: &str) { g!(x + 1) } // é\n".repeat(alloc, 700)
}

// Makes edits of a long text here and there.
fn edit_all_over(alloc: Global, held: &mut LexedText) -> Result<(), Fail> {
    let mut start = 1usize;
    for word in ["", " ", "x", "/*", "*/", "a b c"] {
        for len in 0..5usize {
            start = start.wrapping_mul(1_103_515_245).wrapping_add(12_345) % 20_000;
            edited(alloc, held, start, start.saturating_add(len), word)?;
        }
    }
    Ok(())
}

// Whether a text can be replaced by a short one, and this one edited. Without most of its text, it
// drops its checkpoints.
fn is_cut_down(alloc: Global, held: &mut LexedText) -> Result<bool, Fail> {
    let len = held.text().len();
    let all = edited(alloc, held, 0, len, ";")?.is_some();
    let one = edited(alloc, held, 1, 1, "a")?.is_some();
    Ok(len >= 9_000 && all && one && held.text() == ";a")
}

#[test]
fn edits_all_over_a_long_text(rt: HostRuntime) -> Result<(), Fail> {
    let mut held = lexed(rt.alloc(), &long_text(rt.alloc())?)?;
    edit_all_over(rt.alloc(), &mut held)?;
    assert!(rt; is_cut_down(rt.alloc(), &mut held)?);
    Ok(())
}

// Whether an edit in the middle of a long text lexes few tokens again.
fn is_near(alloc: Global, text: &str) -> Result<bool, Fail> {
    let mut held = lexed(alloc, text)?;
    let at = (text.len() / 2).saturating_sub(5);
    match edited(alloc, &mut held, at, at, "/*")? {
        Some(kept) => Ok(kept.front >= 1000 && kept.lexed <= 20),
        None => Ok(false),
    }
}

#[test]
fn refused_edits_of_a_long_text(rt: HostRuntime) -> Result<(), Fail> {
    let text = match long_text(rt.alloc()) {
        Ok(text) => text,
        Err(_) => long_text(rt.alloc())?,
    };
    assert!(rt; is_near(rt.alloc(), text.as_str())?);
    Ok(())
}

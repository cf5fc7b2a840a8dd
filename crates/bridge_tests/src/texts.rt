//! Texts and the trees or reading faults that they give.
ghost use Rattle.rustc_lexer.specs.Lexing.{tokens_of};
ghost use Rattle.rustc_lexer.specs.TokensAt.{AreTokensFrom};
ghost use Rattle.std.specs.Prelude.{◌≡◌, ◌<◌, ◌^◌, IfSome, chars, length};

use crate::rows::lexed;
use bridge::parts::{NameCache, begins_with_mark, read_part};
use bridge::{Read, read};
use rustc_lexer::{LexedText, Token, laws};
use std::alloc::{AllocError, Global};
use std::test::Fail;
use tt::TtFault;

// The trees as they are displayed, or the reading fault.
fn displayed(alloc: Global, answer: Read) -> Result<String, Fail> {
    match answer {
        Read::Tree(tree) => Ok(format!(in alloc; "{tree}")?),
        Read::Fault(fault) => {
            let range = fault.range;
            Ok(format!(in alloc; "{:?} {}..{}", fault.kind, range.start, range.end)?)
        }
    }
}

// The trees of a text, or its reading fault.
fn shown(alloc: Global, text: &str) -> Result<String, Fail> {
    if text.len() >= 1000 {
        return Err(Fail::new("a text is long"));
    }
    let held = lexed(alloc, text)?;
    displayed(alloc, read(alloc, held.text(), held.tokens())?)
}

// The tokens after the first ones, and the offset at which they start.
fn after_first<'a>(text: &str, tokens: &'a [Token], before: usize) -> Option<(u32, &'a [Token])>
    requires small { length text.now < 2 ^ 32 }
    requires tokens { tokens.now ≡ tokens_of (chars text.now) }
    ensures { IfSome result (λ r. AreTokensFrom text.now r.0 r.1.now) }
{
    laws::tokens_begin();
    laws::next_token();
    let mut rest = tokens;
    let mut start: u32 = 0;
    let mut left = before;
    while left > 0 {
        let Some((token, more)) = rest.split_first() else {
            return None;
        };
        start += token.len;
        rest = more;
        left -= 1;
    }
    Some((start, rest))
}

// The answer for `count` tokens after the first `before`, if these begin with a punct or not, as
// is expected.
fn part(
    alloc: Global,
    held: &LexedText,
    places: (usize, usize, bool),
) -> Result<Option<Read>, TtFault>
    requires { length held.now < 2 ^ 32 }
{
    let (before, count, is_mark) = places;
    let Some((start, rest)) = after_first(held.text(), held.tokens(), before) else {
        return Ok(None);
    };
    if rest.len() < count || begins_with_mark(rest) != is_mark {
        return Ok(None);
    }
    let mut names = NameCache::new(alloc);
    Ok(Some(read_part(&mut names, held.text(), start, rest, count)?))
}

// The same, written as an example.
fn part_shown(alloc: Global, text: &str, places: (usize, usize, bool)) -> Result<String, Fail> {
    if text.len() >= 1000 {
        return Err(Fail::new("a text is long"));
    }
    match part(alloc, &lexed(alloc, text)?, places)? {
        Some(answer) => displayed(alloc, answer),
        None => Err(Fail::new("a text is short, or begins otherwise")),
    }
}

// A text, how many tokens come before a part, how many it has and whether it begins with a punct,
// and the part's trees or fault.
const PARTS: [(&str, (usize, usize, bool), &str); 7] = [
    ("a;b+=c", (2, 2, false), "b +"),
    ("a;b+=c", (3, 2, true), "+="),
    ("a; (b) c", (3, 3, false), "(b)"),
    ("a; ## b", (3, 1, true), "#"),
    ("a; #\"b c", (3, 1, false), "BadToken 0..5"),
    ("a;b{c", (2, 2, false), "GroupLeftOpen 1..2"),
    ("a", (1, 0, false), ""),
];

#[test]
fn reads_parts(rt: HostRuntime) -> Result<(), Fail> {
    for (text, places, want) in &PARTS {
        let got = part_shown(rt.alloc(), text, *places)?;
        assert!(rt; got.as_str() == *want, "{text}: {got}");
    }
    Ok(())
}

// A text, and its trees or reading fault.
const TEXTS: [(&str, &str); 34] = [
    ("", ""),
    ("x+/*c*/=y", "x + = y"),
    ("a>>=b;c{d}e..=f", "a >>= b ; c {d} e ..= f"),
    ("fn f<'a>(x: &'a T) {}", "fn f < 'a > (x : & 'a T) {}"),
    ("/// a \"b\"\r\ns;", "# [doc = \" a \\\"b\\\"\"] s ;"),
    ("//! a\\\nx", "# ! [doc = \" a\\\\\"] x"),
    ("/** b */s", "# [doc = \" b \"] s"),
    ("0x 1e r#fn b'x'", "0x 1e r#fn b'x'"),
    (
        "1u8 'a' c\"b\" br##\"\"#\"##s",
        "1u8 'a' c\"b\" br##\"\"#\"##s",
    ),
    ("fn f( {", "GroupLeftOpen 6..7"),
    ("(]", "CloserDoesNotFit 1..2"),
    ("a)", "CloserDoesNotFit 1..2"),
    ("a ## b", "a ## b"),
    ("### x #\"a\"#", "### x #\"a\"#"),
    ("let s = #\"x\"#;", "let s = #\"x\"# ;"),
    ("##\"a\"#\"##", "BadToken 0..6"),
    ("\"abc", "BadToken 0..4"),
    ("( b'x", "BadToken 2..5"),
    ("/* /* */", "BadToken 0..8"),
    ("'1", "BadToken 0..2"),
    ("'r#a", "BadToken 0..4"),
    ("a#b", "BadToken 0..1"),
    ("'a#b", "BadToken 0..2"),
    ("k#a", "BadToken 0..3"),
    ("\u{feff}a", "BadToken 0..3"),
    ("#\"a\"#", "#\"a\"#"),
    ("##\"\"##x", "##\"\"##x"),
    ("#\"a\\\"b\"#", "#\"a\\\"b\"#"),
    ("#\"a\"##", "#\"a\"# #"),
    ("#\"a\" b", "BadToken 0..4"),
    ("##\"a\"#x", "BadToken 0..6"),
    ("a #\"b", "BadToken 2..5"),
    ("a \0", "BadToken 2..3"),
    ("a \\", "BadToken 2..3"),
];

#[test]
fn reads_texts(rt: HostRuntime) -> Result<(), Fail> {
    for (text, want) in &TEXTS {
        let got = shown(rt.alloc(), text)?;
        assert!(rt; got.as_str() == *want, "{text}: {got}");
    }
    Ok(())
}

// An empty string after these letters, between this many hashes.
fn empty_string(alloc: Global, letters: &str, hashes: usize) -> Result<String, AllocError> {
    let hashes = "#".repeat(alloc, hashes)?;
    format!(in alloc; "{letters}{hashes}\"\"{hashes}")
}

// Whether such a string is read with 255 hashes, and has this reading fault with one too many.
fn has_a_limit(alloc: Global, letters: &str, fault: &str) -> Result<bool, Fail> {
    let most = empty_string(alloc, letters, 255)?;
    let is_read = shown(alloc, &most)?.as_str() == most.as_str();
    Ok(is_read && shown(alloc, &empty_string(alloc, letters, 256)?)?.as_str() == fault)
}

#[test]
fn reads_many_hashes(rt: HostRuntime) -> Result<(), Fail> {
    assert!(rt; has_a_limit(rt.alloc(), "r", "BadToken 0..515")?);
    assert!(rt; has_a_limit(rt.alloc(), "", "BadToken 0..514")?);
    Ok(())
}

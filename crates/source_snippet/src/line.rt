//! The line of a text in which a byte is.
ghost use Rattle.std.specs.Prelude.{◌≡◌, ◌≢◌, ◌≤◌, ◌<◌, ◌⊎◌, ◌-◌, ℕ, length, slice_index};
ghost use Rattle.source_snippet.specs.Lines.{EndsAt, IsLineAt, column_in, line_number};

use crate::underline::part;

/// A line of a text.
#[derive(Clone, Copy)]
pub struct Line<'a> {
    /// The byte of the text with which it begins.
    pub start: usize,
    /// The line, without its end.
    pub text: &'a str,
}

// Where the line begins in which byte `at` is.
fn line_start(text: &[u8], at: usize) -> usize
    requires { at ≤ length text.now }
    ensures before { result ≤ at }
    ensures begins { (result ≡ 0) ⊎ (slice_index text.now (result - 1) ≡ 10) }
    ensures one { (k : ℕ) → result ≤ k → k < at → slice_index text.now k ≢ 10 }
{
    let mut start = at;
    while start > 0 && text[start - 1] != b'\n' {
        start -= 1;
    }
    start
}

// Where the next line feed is from byte `at` on, or the end.
fn next_feed(text: &[u8], at: usize) -> usize
    requires { at ≤ length text.now }
    ensures after { at ≤ result }
    ensures inside { result ≤ length text.now }
    ensures ends { (result ≡ length text.now) ⊎ (slice_index text.now result ≡ 10) }
    ensures one { (k : ℕ) → at ≤ k → k < result → slice_index text.now k ≢ 10 }
{
    let mut end = at;
    while end < text.len() && text[end] != b'\n' {
        end += 1;
    }
    end
}

// Where the line ends that has its line feed, or the end of the text, at `feed`: before a carriage
// return that is right before a line feed.
fn line_end(text: &[u8], start: usize, feed: usize) -> usize
    requires after { start ≤ feed }
    requires inside { feed ≤ length text.now }
    requires ends { (feed ≡ length text.now) ⊎ (slice_index text.now feed ≡ 10) }
    ensures after { start ≤ result }
    ensures before { result ≤ feed }
    ensures ends { EndsAt text.now start result }
{
    if feed < text.len() && feed > start && text[feed - 1] == b'\r' {
        return feed - 1;
    }
    feed
}

/// The line in which byte `at` of a text is. Lines end at `\n` and at `\r\n`; a byte past the end
/// of the text is taken as the end.
pub fn line_at(text: &str, at: usize) -> Line<'_>
    ensures { IsLineAt text.now at result.start result.text.now }
{
    let bytes = text.as_bytes();
    let at = at.min(bytes.len());
    let start = line_start(bytes, at);
    let feed = next_feed(bytes, at);
    let end = line_end(bytes, start, feed);
    Line {
        start,
        text: &text[start..end],
    }
}

/// The number of the line in which a byte is, from 1. A byte past the end of the text is taken as
/// the end.
pub fn line_number(text: &str, at: usize) -> usize
    ensures { result ≡ line_number text.now at }
{
    let bytes = text.as_bytes();
    let end = at.min(bytes.len());
    let mut number = 1;
    for byte in &bytes[..end] {
        if *byte == b'\n' {
            number += 1;
        }
    }
    number
}

/// The column of a byte of a line in characters, from 1. It is 1 for a byte that is not between
/// characters.
pub fn column_in(line: &str, at: usize) -> usize
    ensures { result ≡ column_in line.now at }
{
    part(line, 0, at).chars().count() + 1
}

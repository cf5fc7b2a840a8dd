//! Where lines begin and end.
ghost use Rattle.std.specs.Prelude.{◌≡◌, ◌≤◌, ◌+◌, ◌<◌, drop, length, slice_index};
ghost use Rattle.line_index.specs.LineEnds.{IsNextEnd};
ghost use Rattle.line_index.specs.Lines.{ends_line, line_start};

use memchr::memchr2;

// Whether a line ends with the byte at this place.
fn ends_line(text: &[u8], at: usize) -> bool
    requires { at < length text.now }
    ensures { result ≡ ends_line (slice_index text.now at) (drop (at + 1) text.now) }
{
    match text[at] {
        b'\n' => true,
        b'\r' => at + 1 == text.len() || text[at + 1] != b'\n',
        _ => false,
    }
}

// The bytes from a place on.
fn behind(text: &[u8], at: usize) -> &[u8]
    requires { at ≤ length text.now }
    ensures { result.now ≡ drop at text.now }
{
    text.split_at(at).1
}

/// The first byte from this place on with which a line ends.
pub(crate) fn line_end(text: &[u8], at: usize) -> Option<usize>
    requires { at ≤ length text.now }
    ensures { IsNextEnd text.now at result }
{
    let mut from = at;
    while let Some(passed) = memchr2(b'\n', b'\r', behind(text, from)) {
        let here = from + passed;
        if ends_line(text, here) {
            return Some(here);
        }
        from = here + 1;
    }
    None
}

/// Where a line begins, from line 0 on. A text with fewer lines ends there.
pub(crate) fn line_start(text: &[u8], line: usize) -> usize
    ensures start { result ≡ line_start text.now line }
    ensures within { result ≤ length text.now }
{
    let mut start = 0;
    for _ in 0..line {
        match line_end(text, start) {
            Some(at) => start = at + 1,
            None => return text.len(),
        }
    }
    start
}

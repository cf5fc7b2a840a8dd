//! How many columns bytes are, and how many bytes come before a column.
ghost use Rattle.std.specs.Prelude.{◌≡◌, ◌≤◌, ◌+◌, ◌<◌, ◌^◌, IsCharBoundary, drop, length};
ghost use Rattle.std.specs.Prelude.{slice_range, sum_by};
ghost use Rattle.line_index.specs.Lines.{column_offset, units};

// The UTF-16 code units of the character that begins with this byte; none of a byte within one.
fn units(byte: u8) -> usize
    ensures count { result ≡ units byte }
    ensures few { result ≤ 2 }
{
    match byte {
        0..=127 => 1,
        128..=191 => 0,
        192..=239 => 1,
        _ => 2,
    }
}

/// The units of the bytes from `start` up to `end`, of at most `u32::MAX`.
pub(crate) fn units_between(text: &[u8], start: usize, end: usize) -> usize
    requires short { length text.now < 2 ^ 32 }
    requires order { start ≤ «end» }
    requires within { «end» ≤ length text.now }
    ensures { result ≡ sum_by units (slice_range text.now start «end») }
{
    let mut count = 0;
    for byte in &text[start..end] {
        count += units(*byte);
    }
    count
}

/// How many bytes of a text, from `start` on, come before a column of its first line.
pub(crate) fn column_offset(text: &[u8], start: usize, column: usize) -> usize
    requires { start ≤ length text.now }
    ensures offset { result ≡ column_offset (drop start text.now) column }
    ensures within { start + result ≤ length text.now }
    ensures boundary { IsCharBoundary text.now (start + result) }
{
    let mut left = column;
    let mut at = start;
    while at < text.len() {
        let byte = text[at];
        let count = units(byte);
        if byte == b'\n' || byte == b'\r' || left < count {
            return at - start;
        }
        left -= count;
        at += 1;
    }
    at - start
}

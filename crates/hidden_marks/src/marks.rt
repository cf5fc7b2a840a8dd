//! The marks of hidden characters.
ghost use Rattle.std.specs.Prelude.{◌≡◌, ◌<◌, length};
ghost use Rattle.hidden_marks.specs.Marks.{Adds, four_digits, hex_digit, hex_digits, is_control};
ghost use Rattle.hidden_marks.specs.Marks.{is_hidden, is_invisible, is_marked, mark_of, visible};

use std::alloc::AllocError;
use ucd_derived::is_default_ignorable_code_point;

// Whether this character is a control, but no tab and no line feed.
fn is_control(c: u32) -> bool
    ensures { result ≡ is_control c }
{
    (c < 0x20 && c != 9 && c != 10) || (0x7f <= c && c <= 0x9f)
}

// Whether this character shows nothing by itself, or changes the order of others.
fn is_invisible(c: char) -> bool
    ensures { result ≡ is_invisible c }
{
    is_default_ignorable_code_point(c)
        || matches!(c as u32, 0x2028 | 0x2029)
        || matches!(c as u32, 0xfff9..=0xfffb)
}

/// Whether this character is shown by a mark: a control but tab and line feed, a character of
/// Unicode's `Default_Ignorable_Code_Point`, a separator of lines, an interlinear annotation, and
/// the bracket that begins a mark. Those of ASCII are not looked up.
pub fn is_hidden(c: char) -> bool
    ensures { result ≡ is_hidden c }
{
    let n = c as u32;
    if n < 0x80 {
        return is_control(n);
    }
    is_control(n) || is_invisible(c) || c == '⟦'
}

// A digit of a hexadecimal number.
fn hex_digit(n: u32) -> char
    requires { n < 16 }
    ensures { result ≡ hex_digit n }
{
    if n < 10 {
        (b'0' + n as u8) as char
    } else {
        (b'A' + (n - 10) as u8) as char
    }
}

// Adds a number below 65,536 in four hexadecimal digits.
fn push_four(text: &mut String, n: u32) -> Result<(), AllocError>
    requires { n < 65536 }
    ensures { Adds result text.old text.new (four_digits n) }
{
    text.push(hex_digit(n / 16 / 16 / 16))?;
    text.push(hex_digit(n / 16 / 16 % 16))?;
    text.push(hex_digit(n / 16 % 16))?;
    text.push(hex_digit(n % 16))
}

// Adds a number below 1,048,576 in four hexadecimal digits, or in five.
fn push_digits(text: &mut String, n: u32) -> Result<(), AllocError>
    requires { n < 1048576 }
    ensures { Adds result text.old text.new (hex_digits n) }
{
    if n < 65536 {
        push_four(text, n)
    } else {
        text.push(hex_digit(n / 65536))?;
        push_four(text, n % 65536)
    }
}

/// Adds the mark of a character, as `⟦U+202E⟧`.
pub fn push_mark(text: &mut String, c: u32) -> Result<(), AllocError>
    requires { c < 1048576 }
    ensures { Adds result text.old text.new (mark_of c) }
{
    text.push('⟦')?;
    text.push_str("U+")?;
    push_digits(text, c)?;
    text.push('⟧')
}

// Whether a character is shown by its mark within a line.
fn is_marked(c: char) -> bool
    ensures { result ≡ is_marked c }
{
    is_hidden(c) || c == '\n'
}

/// Adds a character as it is shown within a line: one that is hidden, or a line feed, by its mark.
pub fn push_visible(text: &mut String, c: char) -> Result<(), AllocError>
    ensures { Adds result text.old text.new (visible c) }
{
    if is_marked(c) {
        push_mark(text, c as u32)
    } else {
        text.push(c)?;
        Ok(())
    }
}

/// How many characters show a character within a line: one, or the eight or nine of its mark.
pub fn visible_width(c: char) -> usize
    ensures { result ≡ length (visible c) }
{
    if !is_marked(c) {
        return 1;
    }
    if (c as u32) < 65536 { 8 } else { 9 }
}

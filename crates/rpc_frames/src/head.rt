//! The head of a frame: where it ends, and the length that it says.
ghost use Rattle.std.specs.Prelude.{◌≡◌, ◌≤◌, IfSome, IsTrue, drop, length};
ghost use Rattle.rpc_frames.specs.Frames.{field_name, has_name, head_len, length_in, number_from};
ghost use Rattle.rpc_frames.specs.Frames.{number_in};

// The most bytes that a body may have.
const MAX_BODY: usize = 268_435_456;

const EMPTY_LINE: &[u8] = b"\r\n\r\n";

const NAME: &[u8] = b"content-length:";

// The bytes from a place on.
fn from(bytes: &[u8], at: usize) -> &[u8]
    requires { at ≤ length bytes.now }
    ensures { result.now ≡ drop at bytes.now }
{
    bytes.split_at(at).1
}

/// How many bytes there are up to the end of the first empty line.
pub(crate) fn head_len(bytes: &[u8]) -> Option<usize>
    ensures len { result ≡ head_len bytes.now }
    ensures within { IfSome result (λ n. n ≤ length bytes.now) }
{
    for at in 0..bytes.len() {
        if from(bytes, at).starts_with(EMPTY_LINE) {
            return Some(at + 4);
        }
    }
    None
}

// Whether a line begins with the name of the field that has the length.
fn has_name(line: &[u8]) -> bool
    ensures name { result ≡ has_name field_name line.now }
    ensures within { IsTrue result → length field_name ≤ length line.now }
{
    for i in 0..NAME.len() {
        if i >= line.len() || line[i].to_ascii_lowercase() != NAME[i] {
            return false;
        }
    }
    true
}

// The number that the digits up to the line's end write.
fn number_from(digits: &[u8]) -> Option<usize>
    ensures { result ≡ number_from 0 digits.now }
{
    let mut number = 0;
    for digit in digits {
        if *digit == b'\r' {
            return Some(number);
        }
        if !digit.is_ascii_digit() {
            return None;
        }
        number = number * 10 + (*digit - b'0') as usize;
        if number > MAX_BODY {
            return None;
        }
    }
    None
}

// The number of a field: blanks, and then one digit or more.
fn number_in(value: &[u8]) -> Option<usize>
    ensures { result ≡ number_in value.now }
{
    let mut at = 0;
    while at < value.len() && value[at] == b' ' {
        at += 1;
    }
    if at < value.len() && value[at].is_ascii_digit() {
        number_from(from(value, at))
    } else {
        None
    }
}

/// The length that a head says.
pub(crate) fn length_in(head: &[u8]) -> Option<usize>
    ensures { result ≡ length_in head.now }
{
    let mut is_begin = true;
    for at in 0..head.len() {
        if is_begin && has_name(from(head, at)) {
            return number_in(from(head, at + NAME.len()));
        }
        is_begin = head[at] == b'\n';
    }
    None
}

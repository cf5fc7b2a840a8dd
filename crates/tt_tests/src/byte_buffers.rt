//! Lists of bytes, each call of which is made once more if it was refused.
use byte_buffer::ByteBuffer;
use std::alloc::{AllocError, Global};

// Makes one of the calls that take memory.
fn call(bytes: &mut ByteBuffer, number: u8) -> Result<(), AllocError> {
    match number {
        0 => bytes.append(b"ab".as_slice()),
        1 => bytes.reserve(100),
        2 => bytes.append_array([7; 200]),
        _ => bytes.append([8; 300].as_slice()),
    }
}

// The bytes after the first calls.
fn after(alloc: Global, calls: u8) -> Result<ByteBuffer, AllocError> {
    let mut bytes = ByteBuffer::new(alloc);
    for number in 0..calls {
        call(&mut bytes, number)?;
    }
    Ok(bytes)
}

// Makes a call. If it is refused, it is made once more, and the answer is whether the bytes were
// those of the calls before.
fn is_kept(alloc: Global, bytes: &mut ByteBuffer, number: u8) -> Result<bool, AllocError> {
    if call(bytes, number).is_ok() {
        return Ok(true);
    }
    let is_kept = bytes.bytes() == after(alloc, number)?.bytes();
    call(bytes, number)?;
    Ok(is_kept)
}

/// Whether a list of bytes is as it was after each refused call, and has all bytes in the end.
pub(crate) fn are_kept_whole(alloc: Global) -> Result<bool, AllocError> {
    let mut bytes = ByteBuffer::new(alloc);
    let mut is_right = true;
    for number in 0..4 {
        is_right = is_right && is_kept(alloc, &mut bytes, number)?;
    }
    let (front, rest) = bytes.bytes().split_at(2.min(bytes.bytes().len()));
    let ends = (rest.first().copied(), rest.last().copied());
    Ok(is_right && front == b"ab".as_slice() && rest.len() == 500 && ends == (Some(7), Some(8)))
}

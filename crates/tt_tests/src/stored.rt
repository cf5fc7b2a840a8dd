//! Tokens as bytes and a table of texts: each call that takes memory, made once more if it was
//! refused.
use crate::samples::{begun, built, byte_at, punct, put_all};
use std::alloc::Global;
use std::hash::{DefaultHasher, Hasher};
use token_bytes::TokenBuffer;
use tt::TopSubtree;
use tt_data::{Ident, Leaf, LitKind, Literal, TokenTree, TtFault};

// More tokens than any list here has.
const MANY: usize = 1000;

// What a character stands for: a name, a literal with a suffix, or a punct.
fn leaf(alloc: Global, char: char, start: u8) -> Result<Leaf, TtFault> {
    let span = byte_at(start);
    match char {
        '0'..='9' => Ok(Leaf::from(Literal::new(alloc, "1", span, LitKind::Integer, "u8")?)),
        'a'..='z' => {
            let mut text = String::new(alloc);
            text.push(char)?;
            Ok(Leaf::from(Ident::new(alloc, text.as_str(), span)?))
        }
        other => Ok(punct(other, start)),
    }
}

// Appends a leaf. A refused call changes nothing, so it is made once more.
fn put(buffer: &mut TokenBuffer, alloc: Global, char: char, start: u8) -> Result<(), TtFault> {
    if buffer.len() > MANY {
        return Err(TtFault::Tokens);
    }
    let first = TokenTree::Leaf(leaf(alloc, char, start)?);
    if buffer.push(first).is_ok() {
        return Ok(());
    }
    buffer.push(TokenTree::Leaf(leaf(alloc, char, start)?))?;
    Ok(())
}

// The leaves that these characters stand for.
fn stored(alloc: Global, text: &str) -> Result<TokenBuffer, TtFault> {
    let mut buffer = TokenBuffer::new(alloc);
    let mut at = 0u8;
    for char in text.chars() {
        put(&mut buffer, alloc, char, at)?;
        at = at.wrapping_add(1);
    }
    Ok(buffer)
}

// The same leaves, from a vector.
fn listed(alloc: Global, text: &str) -> Result<TokenBuffer, TtFault> {
    let mut tts = Vec::new(alloc);
    let mut at = 0u8;
    for char in text.chars() {
        let Ok(()) = tts.push(TokenTree::Leaf(leaf(alloc, char, at)?)) else {
            return Err(TtFault::Memory);
        };
        at = at.wrapping_add(1);
    }
    if tts.len() > MANY {
        return Err(TtFault::Tokens);
    }
    match TokenBuffer::from_vec(alloc, tts) {
        Ok(buffer) => Ok(buffer),
        Err((tts, _)) => match TokenBuffer::from_vec(alloc, tts) {
            Ok(buffer) => Ok(buffer),
            Err(_) => Err(TtFault::Memory),
        },
    }
}

// Whether a list has the same tokens twice once they are appended to it.
fn is_doubled(alloc: Global, text: &str) -> Result<bool, TtFault> {
    let more = stored(alloc, text)?;
    let mut twice = stored(alloc, text)?;
    if more.len() > MANY || twice.len() > MANY {
        return Err(TtFault::Tokens);
    }
    if twice.extend(more.tokens()).is_err() {
        if !twice.is_equal(&more) {
            return Ok(false);
        }
        twice.extend(more.tokens())?;
    }
    Ok(twice.len() == 2 * more.len() && !twice.is_equal(&more))
}

// Whether a list with its first leaf replaced is the one with that leaf.
fn is_replaced(alloc: Global) -> Result<bool, TtFault> {
    let mut buffer = stored(alloc, "ab;")?;
    if buffer.len() > MANY || !buffer.tokens().is_leaf_at(0) {
        return Ok(false);
    }
    if buffer.set_leaf(0, leaf(alloc, 'b', 0)?).is_err() {
        if !buffer.is_equal(&stored(alloc, "ab;")?) {
            return Ok(false);
        }
        if buffer.len() > MANY || !buffer.tokens().is_leaf_at(0) {
            return Ok(false);
        }
        buffer.set_leaf(0, leaf(alloc, 'b', 0)?)?;
    }
    Ok(buffer.is_equal(&stored(alloc, "bb;")?))
}

// The tree of a name, a literal and a punct. Where there is a detour, a name and a group came after
// the first, and were taken back.
fn written(alloc: Global, has_detour: bool) -> Result<TopSubtree, TtFault> {
    let mut builder = begun(alloc, "")?;
    builder.push(leaf(alloc, 'a', 1)?)?;
    if has_detour {
        let point = builder.restore_point();
        builder.push(leaf(alloc, 'b', 2)?)?;
        put_all(&mut builder, "{-}", 3)?;
        builder.restore(point)?;
    }
    builder.push(leaf(alloc, '1', 6)?)?;
    builder.push(leaf(alloc, ';', 7)?)?;
    built(builder)
}

/// Whether a tree has the bytes of its tokens, and one that was built with a detour the same.
pub(crate) fn are_built_alike(alloc: Global) -> Result<bool, TtFault> {
    let (one, two) = (written(alloc, false)?, written(alloc, true)?);
    Ok(
        one.bytes().len() == 31 + 18 + 23 + 18
            && one.texts().len() == 2
            && one.bytes() == two.bytes()
            && one.texts() == two.texts(),
    )
}

fn hash_of(buffer: &TokenBuffer) -> u64 {
    let mut hasher = DefaultHasher::new();
    buffer.feed(&mut hasher);
    hasher.finish()
}

/// Whether lists of leaves are as they should be, with more texts than are searched one by one.
pub(crate) fn are_stored(alloc: Global) -> Result<bool, TtFault> {
    let names = "abcdefghijklmnopqrstuvwxyz1;a1z";
    let (one, two) = (stored(alloc, names)?, listed(alloc, names)?);
    let with_room = TokenBuffer::with_room(alloc, 8)?;
    Ok(
        one.is_equal(&two)
            && hash_of(&one) == hash_of(&two)
            && with_room.len() == 0
            && is_doubled(alloc, names)?
            && is_replaced(alloc)?,
    )
}

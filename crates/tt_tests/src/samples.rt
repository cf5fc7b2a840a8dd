//! Trees as tests write them: each character is a token, with its own span.
use std::alloc::Global;
use std::fmt::{Debug, Display};
use tt::{TopSubtree, TopSubtreeBuilder};
use tt_data::{
    Delimiter, DelimiterKind, Leaf, Punct, Spacing, Span, SyntaxContext, TextRange, TtFault,
};

// The span of the byte at this offset, in the context `Written`.
pub(crate) fn byte_at(start: u8) -> Span {
    let start = u32::from(start);
    Span {
        range: TextRange {
            start,
            end: start + 1,
        },
        anchor: 0,
        ctx: SyntaxContext::Written,
    }
}

pub(crate) fn punct(char: char, start: u8) -> Leaf {
    Leaf::from(Punct {
        char,
        spacing: Spacing::Alone,
        span: byte_at(start),
    })
}

// Appends what a character stands for: a bracket opens or closes a group, an invisible one for `<`
// and `>`, and every other character is a punct.
fn put(builder: &mut TopSubtreeBuilder, char: char, start: u8) -> Result<(), TtFault> {
    let kind = match char {
        '{' => DelimiterKind::Brace,
        '[' => DelimiterKind::Bracket,
        '<' => DelimiterKind::Invisible,
        '}' | ']' | '>' => return builder.close(byte_at(start)),
        _ => return builder.push(punct(char, start)),
    };
    builder.open(kind, byte_at(start))
}

// Appends what the characters stand for, the first one with the span at `start`. A call that is
// out of memory changes nothing, so it is made once more.
pub(crate) fn put_all(
    builder: &mut TopSubtreeBuilder,
    text: &str,
    start: u8,
) -> Result<(), TtFault> {
    let mut at = start;
    for char in text.chars() {
        match put(builder, char, at) {
            Err(TtFault::Memory) => put(builder, char, at)?,
            answer => answer?,
        }
        at = at.wrapping_add(1);
    }
    Ok(())
}

// A builder to which these characters were appended.
pub(crate) fn begun(alloc: Global, text: &str) -> Result<TopSubtreeBuilder, TtFault> {
    let top = Delimiter::invisible_spanned(byte_at(0));
    let mut builder = TopSubtreeBuilder::new(alloc, top)?;
    put_all(&mut builder, text, 0)?;
    Ok(builder)
}

pub(crate) fn built(builder: TopSubtreeBuilder) -> Result<TopSubtree, TtFault> {
    match builder.build() {
        Ok(tree) => Ok(tree),
        Err((_, fault)) => Err(fault),
    }
}

// The tree of a text.
pub(crate) fn tree(alloc: Global, text: &str) -> Result<TopSubtree, TtFault> {
    built(begun(alloc, text)?)
}

// Whether a value displays this text.
pub(crate) fn shows<D: Display>(alloc: Global, value: &D, text: &str) -> Result<bool, TtFault> {
    Ok(format!(in alloc; "{value}")?.as_str() == text)
}

// Whether `{:?}` prints this within a value's text.
pub(crate) fn tells<D: Debug>(alloc: Global, value: &D, text: &str) -> Result<bool, TtFault> {
    Ok(format!(in alloc; "{value:?}")?.as_str().contains(text))
}

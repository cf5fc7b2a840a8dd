//! Trees that a builder makes of texts, with spaces between their tokens, and answers of a grammar.
use fragment_grammar::Prefix;
use std::alloc::Global;
use tt::{TopSubtree, TopSubtreeBuilder};
use tt_data::{
    Delimiter, DelimiterKind, Ident, Leaf, LitKind, Literal, Punct, Spacing, Span, SyntaxContext,
    TextRange, TtFault,
};

fn span() -> Span {
    Span {
        range: TextRange { start: 0, end: 0 },
        anchor: 0,
        ctx: SyntaxContext::Written,
    }
}

// Appends the tokens of a text.
fn put_all(alloc: Global, builder: &mut TopSubtreeBuilder, text: &str) -> Result<(), TtFault> {
    for word in text.split_whitespace() {
        put(alloc, builder, word)?;
    }
    Ok(())
}

/// The tree of a text again and again, and then another.
pub(crate) fn repeated(
    alloc: Global,
    unit: &str,
    times: usize,
    last: &str,
) -> Result<TopSubtree, TtFault> {
    let mut builder = TopSubtreeBuilder::new(alloc, Delimiter::invisible_spanned(span()))?;
    for _ in 0..times {
        put_all(alloc, &mut builder, unit)?;
    }
    put_all(alloc, &mut builder, last)?;
    match builder.build() {
        Ok(tree) => Ok(tree),
        Err((_, fault)) => Err(fault),
    }
}

/// The tree of a text.
pub(crate) fn tree(alloc: Global, text: &str) -> Result<TopSubtree, TtFault> {
    repeated(alloc, "", 0, text)
}

fn put(alloc: Global, builder: &mut TopSubtreeBuilder, word: &str) -> Result<(), TtFault> {
    match word {
        "(" => builder.open(DelimiterKind::Parenthesis, span()),
        "{" => builder.open(DelimiterKind::Brace, span()),
        "[" => builder.open(DelimiterKind::Bracket, span()),
        ")" | "}" | "]" => builder.close(span()),
        _ => put_word(alloc, builder, word),
    }
}

fn put_word(alloc: Global, builder: &mut TopSubtreeBuilder, word: &str) -> Result<(), TtFault> {
    let first = word.as_bytes().first().copied().unwrap_or(b'_');
    if first.is_ascii_digit() {
        let kind = if word.contains('.') {
            LitKind::Float
        } else {
            LitKind::Integer
        };
        builder.push(Leaf::from(Literal::new_no_suffix(alloc, word, span(), kind)?))
    } else if first.is_ascii_alphabetic() || first == b'_' {
        builder.push(Leaf::from(Ident::new(alloc, word, span())?))
    } else {
        put_puncts(builder, word.as_bytes())
    }
}

// Appends puncts, each `Joint` but the last.
fn put_puncts(builder: &mut TopSubtreeBuilder, chars: &[u8]) -> Result<(), TtFault> {
    let mut left = chars.len();
    for char in chars {
        left = left.saturating_sub(1);
        let spacing = if left == 0 {
            Spacing::Alone
        } else {
            Spacing::Joint
        };
        builder.push(Leaf::Punct(Punct {
            char: char::from(*char),
            spacing,
            span: span(),
        }))?;
    }
    Ok(())
}

/// The answer that takes so many steps, or none for a fault.
pub(crate) fn answer(tokens: Option<usize>) -> Prefix {
    Prefix {
        tokens: tokens.unwrap_or(0),
        fault: tokens.is_none(),
    }
}

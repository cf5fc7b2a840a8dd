//! The tokens of a text without the white space between them.
ghost use Rattle.std.specs.Prelude.{Some, false, slice_get, ◌≡◌, ◌≢◌, ◌<◌, ◌^◌, ◌↔◌, ◌+◌, ◌++◌};
ghost use Rattle.std.specs.Prelude.{List, IfOk, OnOk, IsTrue, drop, length, take};
ghost use Rattle.code_layout.specs.Places.{all_words, word_of};
ghost use Rattle.code_layout.specs.Words.{Word, is_white, joins, shown, takes_equals};
ghost use Rattle.code_layout.specs.Words.{takes_greater, words_of};
ghost use Rattle.rustc_lexer.specs.TokensAt.{IsTokenAt};

use rustc_lexer::{FrontmatterAllowed, Token, TokenKind, laws, tokenize};
use std::alloc::{AllocError, Global};

/// A token that is not white space.
#[derive(Clone, Copy)]
pub(crate) struct Placed<'a> {
    pub kind: TokenKind,
    pub text: &'a str,
    /// Whether it goes on with an operator of the token right before it.
    pub joined: bool,
    /// Whether white space comes before it.
    pub apart: bool,
}

// Whether a token of this kind is white space.
fn is_white(kind: TokenKind) -> bool
    ensures { result ≡ is_white kind }
{
    match kind {
        TokenKind::Whitespace => true,
        _ => false,
    }
}

// Whether `=` follows this sign in an operator.
fn takes_equals(kind: TokenKind) -> bool
    ensures { result ≡ takes_equals kind }
{
    match kind {
        TokenKind::Eq | TokenKind::Bang | TokenKind::Lt | TokenKind::Gt => true,
        TokenKind::Plus | TokenKind::Minus | TokenKind::Star | TokenKind::Slash => true,
        TokenKind::Percent | TokenKind::Caret | TokenKind::And | TokenKind::Or => true,
        TokenKind::Dot => true,
        _ => false,
    }
}

// Whether `>` follows this sign in an operator.
fn takes_greater(kind: TokenKind) -> bool
    ensures { result ≡ takes_greater kind }
{
    match kind {
        TokenKind::Minus | TokenKind::Eq | TokenKind::Gt => true,
        _ => false,
    }
}

/// Whether two signs follow each other in an operator.
pub(crate) fn joins(before: TokenKind, after: TokenKind) -> bool
    ensures { result ≡ joins before after }
{
    match after {
        TokenKind::Eq => takes_equals(before),
        TokenKind::Gt => takes_greater(before),
        TokenKind::Lt | TokenKind::Minus => matches!(before, TokenKind::Lt),
        TokenKind::And => matches!(before, TokenKind::And),
        TokenKind::Or => matches!(before, TokenKind::Or),
        TokenKind::Colon => matches!(before, TokenKind::Colon),
        TokenKind::Dot => matches!(before, TokenKind::Dot),
        _ => false,
    }
}

// The text of the token at this offset.
fn text_at(text: &str, at: usize, token: Token) -> &str
    requires { IsTokenAt text.now at token }
    ensures { result.now ≡ take token.len (drop at text.now) }
{
    &text[at..at + token.len as usize]
}

// Adds a token behind one of the kind `before`, if it shows anything.
fn push_word<'a>(
    words: &mut Vec<Placed<'a>>,
    before: TokenKind,
    kind: TokenKind,
    text: &'a str,
) -> Result<(), AllocError>
    ensures { OnOk result (all_words words.new.items
        ≡ all_words words.old.items ++ shown before kind text.now) }
{
    if is_white(kind) {
        return Ok(());
    }
    words.push(Placed {
        kind,
        text,
        joined: joins(before, kind),
        apart: is_white(before),
    })?;
    Ok(())
}

/// The tokens of a text.
pub(crate) fn words_in<'a>(alloc: Global, text: &'a str) -> Result<Vec<Placed<'a>>, AllocError>
    requires { length text.now < 2 ^ 32 }
    ensures { IfOk result (λ words. all_words words.items ≡ words_of text.now) }
{
    laws::tokens_begin();
    laws::next_token();
    let mut words = Vec::new(alloc);
    let mut before = TokenKind::Whitespace;
    let mut at = 0;
    for token in tokenize(text, FrontmatterAllowed::No) {
        push_word(&mut words, before, token.kind, text_at(text, at, token))?;
        before = token.kind;
        at += token.len as usize;
    }
    Ok(words)
}

// Whether this is what a token shows behind one of the kind `before`.
fn is_word(word: &Placed<'_>, before: TokenKind, kind: TokenKind, text: &str) -> bool
    ensures { IsTrue result
        ↔ (word_of word.now ≡ record { kind = kind; text = text.now; joined = joins before kind }) }
{
    laws::equal_tokens();
    word.kind == kind && word.text == text && word.joined == joins(before, kind)
}

// Whether these tokens begin with what a token shows behind one of the kind `before`.
fn begin_with(words: &[Placed<'_>], before: TokenKind, kind: TokenKind, text: &str) -> bool
    ensures { IsTrue result ↔ (slice_get (all_words words.now) 0
        ≡ Some (record { kind = kind; text = text.now; joined = joins before kind })) }
{
    match words.first() {
        Some(first) => is_word(first, before, kind, text),
        None => false,
    }
}

// The items behind the first one.
fn behind_first<T>(items: &[T]) -> &[T]
    ensures { result.now ≡ drop 1 items.now }
{
    if items.is_empty() { items } else { &items[1..] }
}

// Tokens that are left to be found.
#[derive(Drop)]
struct Left<'a, 'b> {
    words: &'a [Placed<'b>],
}

// Passes what a token shows behind one of the kind `before`, if it comes first.
fn passes(left: &mut Left<'_, '_>, before: TokenKind, kind: TokenKind, text: &str) -> bool
    ensures passed { IsTrue result → all_words left.old.words.now
        ≡ shown before kind text.now ++ all_words left.new.words.now }
    ensures other { result ≡ false → (more : List Word) → all_words left.old.words.now
        ≢ shown before kind text.now ++ more }
{
    if is_white(kind) {
        return true;
    }
    if begin_with(left.words, before, kind, text) {
        left.words = behind_first(left.words);
        return true;
    }
    false
}

/// Whether a text has exactly these tokens.
pub(crate) fn has_words(text: &str, words: &[Placed<'_>]) -> bool
    requires { length text.now < 2 ^ 32 }
    ensures { IsTrue result ↔ (words_of text.now ≡ all_words words.now) }
{
    laws::tokens_begin();
    laws::next_token();
    let mut left = Left { words };
    let mut before = TokenKind::Whitespace;
    let mut at = 0;
    for token in tokenize(text, FrontmatterAllowed::No) {
        if !passes(&mut left, before, token.kind, text_at(text, at, token)) {
            return false;
        }
        before = token.kind;
        at += token.len as usize;
    }
    left.words.is_empty()
}

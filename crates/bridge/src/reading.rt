//! Reads the tokens of a text as trees. Each token is classified, and added to the trees under
//! construction as a leaf, a doc comment or a bracket.
ghost use Rattle.std.specs.Prelude.{◌≡◌, ◌≢◌, ◌+◌, ◌<◌, ◌≤◌, ◌^◌, ℕ, List, [], length, drop, chars};
ghost use Rattle.std.specs.Prelude.{true, false, IfOk, IfErr, OnOk};
ghost use Rattle.bridge.specs.Parts.{begins_with_mark, part_steps};
ghost use Rattle.bridge.specs.ReadSteps.{IsClosed, IsRefusal, IsStepRefusal, MayCut, Takes};
ghost use Rattle.bridge.specs.ReadSteps.{first_kind, spacing_at, steps_at, steps_in, trees_of};
ghost use Rattle.bridge.specs.ReadText.{IsRead, IsReadRefusal, text_top};
ghost use Rattle.bridge.specs.Reading.{DoesNotFit, IsFault, PlacedToken, placed_from, range_of};
ghost use Rattle.bridge.specs.TokenSteps.{class_of, is_mark, steps_of_class, text_steps};
ghost use Rattle.bridge.specs.declared.reading.classify.TokenClass.TheVariants.{Closing};
ghost use Rattle.rustc_lexer.specs.Lexing.{tokens_of};
ghost use Rattle.rustc_lexer.specs.TokensAt.{AreTokensFrom, IsTokenAt};
ghost use Rattle.tt.specs.Building.{count_of, extended};
ghost use Rattle.tt_data.specs.Forest.{size};

pub(crate) mod classify;
mod doc_comment;
pub(crate) mod leaf;
pub(crate) mod name_cache;
pub(crate) mod outcome;

use crate::reading::classify::{TokenClass, class_of};
use crate::reading::doc_comment::{add_doc, doc_text};
use crate::reading::leaf::{
    add_literal, add_mark, add_name, add_quoted_name, name_in, open_group, written_at,
};
use crate::reading::name_cache::NameCache;
use crate::reading::outcome::{Read, ReadFault, ReadFaultKind};
use rustc_lexer::{Token, TokenKind, laws};
use std::alloc::Global;
use tt::TopSubtreeBuilder;
use tt_data::{Delimiter, DelimiterKind, Spacing, TextRange, TtFault};

// Whether a token of this kind is read as a punct.
fn is_mark(kind: TokenKind) -> bool
    ensures { result ≡ is_mark (class_of kind) }
{
    matches!(class_of(kind), TokenClass::Mark(_))
}

// The spacing of a punct before a token of this kind.
fn spacing_at(next: Option<TokenKind>) -> Spacing
    ensures { result ≡ spacing_at next }
{
    match next {
        Some(kind) if is_mark(kind) => Spacing::Joint,
        _ => Spacing::Alone,
    }
}

// Adds what a token is read as. The token is no bracket.
fn add_trees(
    names: &mut NameCache,
    builder: &mut TopSubtreeBuilder,
    class: TokenClass,
    text: &str,
    range: TextRange,
    next: Option<TokenKind>,
) -> Result<(), TtFault>
    requires some { range.start < range.«end» }
    requires short { length text.now < 2 ^ 32 }
    requires cut { MayCut class text.now }
    ensures ok { OnOk result (builder.new.tree
        ≡ extended builder.old.tree (trees_of class text.now range next)) }
    ensures refused { IfErr result (IsRefusal
        (count_of builder.old.tree + size (trees_of class text.now range next))) }
{
    let span = written_at(range);
    match class {
        TokenClass::Name(is_raw) => add_name(names, builder, name_in(is_raw, text), is_raw, span),
        TokenClass::Mark(char) => add_mark(builder, char, spacing_at(next), span),
        TokenClass::QuotedName => add_quoted_name(names, builder, text, range),
        TokenClass::Doc { style, is_block } => {
            add_doc(names, builder, style, doc_text(is_block, text), span)
        }
        TokenClass::Value { form, suffix_start } => {
            add_literal(names.alloc, builder, form, suffix_start, text, span)
        }
        _ => Ok(()),
    }
}

// Closes the innermost open group if a closing of this kind fits it, and answers whether it does.
fn close_innermost(builder: &mut TopSubtreeBuilder, kind: DelimiterKind, range: TextRange) -> bool
    ensures closed { result ≡ true → IsClosed kind range builder.old.tree builder.new.tree }
    ensures kept { result ≡ false → (builder.new.tree ≡ builder.old.tree) × DoesNotFit kind
        builder.old.tree.groups }
{
    match builder.innermost() {
        Some((open, _)) if open == kind => builder.close(written_at(range)).is_ok(),
        _ => false,
    }
}

// Closes the innermost open group by a closing of this kind, or answers the fault if it does not
// fit.
fn close(
    builder: &mut TopSubtreeBuilder,
    kind: DelimiterKind,
    range: TextRange,
) -> Option<ReadFault>
    ensures { (t : PlacedToken) (after : List PlacedToken) → range_of t ≡ range →
        Takes (steps_of_class (Closing kind) t after) builder.old.tree builder.new.tree result }
{
    if close_innermost(builder, kind, range) {
        return None;
    }
    let kind = ReadFaultKind::CloserDoesNotFit;
    Some(ReadFault { kind, range })
}

// Adds what a token is read as, before a token of kind `next`, or answers the fault.
fn add(
    names: &mut NameCache,
    builder: &mut TopSubtreeBuilder,
    class: TokenClass,
    text: &str,
    range: TextRange,
    next: Option<TokenKind>,
) -> Result<Option<ReadFault>, TtFault>
    requires some { range.start < range.«end» }
    requires short { length text.now < 2 ^ 32 }
    requires cut { MayCut class text.now }
    ensures takes { IfOk result (λ fault. (t : PlacedToken) (after : List PlacedToken) →
        t.text ≡ text.now → range_of t ≡ range → first_kind after ≡ next →
        Takes (steps_of_class class t after) builder.old.tree builder.new.tree fault) }
    ensures refused { IfErr result (λ e. (t : PlacedToken) (after : List PlacedToken) →
        t.text ≡ text.now → range_of t ≡ range → first_kind after ≡ next →
        IsStepRefusal (steps_of_class class t after) builder.old.tree e) }
{
    match class {
        TokenClass::Opening(kind) => open_group(builder, kind, written_at(range))?,
        TokenClass::Closing(kind) => return Ok(close(builder, kind, range)),
        TokenClass::Neither => {
            let kind = ReadFaultKind::BadToken;
            return Ok(Some(ReadFault { kind, range }));
        }
        _ => add_trees(names, builder, class, text, range, next)?,
    }
    Ok(None)
}

// The fault of a text that ends with open groups: at the opening of the innermost.
fn left_open(builder: TopSubtreeBuilder) -> ReadFault
    requires { builder.tree.groups ≢ [] }
    ensures { IsFault (steps_in builder.tree) result }
{
    let Some((_, open_span)) = builder.innermost() else {
        unreachable!("a group is open");
    };
    ReadFault {
        kind: ReadFaultKind::GroupLeftOpen,
        range: open_span.range,
    }
}

// The trees of all tokens, or the fault if a group is left open.
fn whole(builder: TopSubtreeBuilder) -> Read
    requires { builder.tree.top ≡ text_top }
    ensures { IsRead (steps_in builder.tree) result }
{
    match builder.build() {
        Ok(tree) => Read::Tree(tree),
        Err((builder, _)) => Read::Fault(left_open(builder)),
    }
}

// The kind of the first of the tokens, if there is one.
fn first_kind(tokens: &[Token]) -> Option<TokenKind>
    ensures { (start : ℕ) (text : List ℕ) →
        first_kind (placed_from start text tokens.now) ≡ result }
{
    let first = tokens.first()?;
    Some(first.kind)
}

/// Whether the first of these tokens is read as a punct.
pub fn begins_with_mark(tokens: &[Token]) -> bool
    ensures { result ≡ begins_with_mark tokens.now }
{
    match tokens.first() {
        Some(token) => is_mark(token.kind),
        None => false,
    }
}

// Adds what the token at offset `start` is read as, before the others, or answers the fault.
fn add_token(
    names: &mut NameCache,
    builder: &mut TopSubtreeBuilder,
    text: &str,
    start: u32,
    token: Token,
    more: &[Token],
) -> Result<Option<ReadFault>, TtFault>
    requires small { length text.now < 2 ^ 32 }
    requires here { IsTokenAt text.now start token }
    ensures takes { IfOk result (Takes (steps_at text.now start token more.now) builder.old.tree
        builder.new.tree) }
    ensures refused { IfErr result (IsStepRefusal (steps_at text.now start token more.now)
        builder.old.tree) }
{
    laws::token_shapes();
    laws::suffix_starts();
    let end = start + token.len;
    let word = &text[start as usize..end as usize];
    let range = TextRange { start, end };
    let class = class_of(token.kind);
    add(names, builder, class, word, range, first_kind(more))
}

// What the first `count` tokens of the text are read as by themselves.
fn read_first(
    names: &mut NameCache,
    text: &str,
    tokens: &[Token],
    count: usize,
) -> Result<Read, TtFault>
    requires small { length text.now < 2 ^ 32 }
    requires tokens { AreTokensFrom text.now 0 tokens.now }
    requires within { count ≤ length tokens.now }
    ensures read { IfOk result (IsRead (part_steps 0 count text.now tokens.now)) }
    ensures refused { IfErr result (IsReadRefusal (part_steps 0 count text.now tokens.now)) }
{
    laws::next_token();
    let start_of_text = written_at(TextRange { start: 0, end: 0 });
    let top = Delimiter::invisible_spanned(start_of_text);
    let mut builder = TopSubtreeBuilder::new(names.alloc, top)?;
    let mut start: u32 = 0;
    let mut rest = tokens;
    let mut left = count;
    while left > 0 {
        let Some((token, more)) = rest.split_first() else {
            unreachable!("so many tokens are left");
        };
        if let Some(fault) = add_token(names, &mut builder, text, start, *token, more)? {
            return Ok(Read::Fault(fault));
        }
        start += token.len;
        rest = more;
        left -= 1;
    }
    Ok(whole(builder))
}

/// What the first `count` of these tokens, which are in the text from the offset `start` on, are
/// read as by themselves. Spans count from `start`.
///
/// A punct that is last is glued to the token after it, as in the text. `names` shares the text of
/// repeated names and does not change the answer. The errors are those of [`read`].
pub fn read_part(
    names: &mut NameCache,
    text: &str,
    start: u32,
    tokens: &[Token],
    count: usize,
) -> Result<Read, TtFault>
    requires small { length text.now < 2 ^ 32 }
    requires tokens { AreTokensFrom text.now start tokens.now }
    requires within { count ≤ length tokens.now }
    ensures read { IfOk result (IsRead (part_steps 0 count (drop start text.now) tokens.now)) }
    ensures refused { IfErr result (IsReadRefusal
        (part_steps 0 count (drop start text.now) tokens.now)) }
{
    read_first(names, &text[start as usize..], tokens, count)
}

/// Reads a text of at most `u32::MAX` bytes, with its tokens, as trees, or answers its first
/// reading fault. (The Rust Reference, "Tokens", "Comments", and token trees in "Macros".)
///
/// It refuses `Tokens` only where the tree read so far would have more than `u32::MAX` tokens,
/// which doc comments alone can bring about; its one other error is `Memory`.
pub fn read(alloc: Global, text: &str, tokens: &[Token]) -> Result<Read, TtFault>
    requires small { length text.now < 2 ^ 32 }
    requires tokens { tokens.now ≡ tokens_of (chars text.now) }
    ensures read { IfOk result (IsRead (text_steps text.now)) }
    ensures refused { IfErr result (IsReadRefusal (text_steps text.now)) }
{
    laws::tokens_begin();
    read_first(&mut NameCache::new(alloc), text, tokens, tokens.len())
}

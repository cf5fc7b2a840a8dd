//! Doc comments, read as attributes.
ghost use Rattle.std.specs.Prelude.{◌≡◌, ◌+◌, ◌-◌, ◌≤◌, true, length, string_bytes, IfErr, IfOk};
ghost use Rattle.std.specs.Prelude.{OnOk};
ghost use Rattle.std.specs.Str.{IsCharBoundary};
ghost use Rattle.bridge.specs.ReadSteps.{IsRefusal, doc_inside, doc_puncts, doc_trees};
ghost use Rattle.bridge.specs.TokenSteps.{doc_text, escaped, without_last_return};
ghost use Rattle.tt.specs.Building.{count_of, extended};
ghost use Rattle.tt_data.specs.Forest.{size};

use crate::reading::leaf::{add_leaf, add_mark, add_name, open_group};
use crate::reading::name_cache::NameCache;
use memchr::memchr2;
use rustc_lexer::DocStyle;
use std::alloc::{AllocError, Global};
use tt::TopSubtreeBuilder;
use tt_data::{DelimiterKind, IdentIsRaw, Leaf, LitKind, Literal, Spacing, Span, TtFault};

// The text without a carriage return at its end.
fn without_last_return(text: &str) -> &str
    ensures { result.now ≡ without_last_return text.now }
{
    let Some(last) = text.len().checked_sub(1) else {
        return text;
    };
    if text.as_bytes()[last] == b'\r' {
        &text[..last]
    } else {
        text
    }
}

// The text of a doc comment: without its first three characters, and without the end of a block.
pub fn doc_text(is_block: bool, text: &str) -> &str
    requires begin { IsCharBoundary text.now 3 }
    requires block { is_block ≡ true → (5 ≤ length text.now) × IsCharBoundary text.now
        (length text.now - 2) }
    ensures { result.now ≡ doc_text is_block text.now }
{
    if is_block {
        &text[3..text.len() - 2]
    } else {
        without_last_return(&text[3..])
    }
}

// The text with a `\` before each `\` and each `"`.
fn escaped(alloc: Global, text: &str) -> Result<String, AllocError>
    ensures { IfOk result (λ s. string_bytes s ≡ escaped text.now) }
{
    let mut out = String::new(alloc);
    let mut rest = text;
    while let Some(at) = memchr2(b'\\', b'"', rest.as_bytes()) {
        out.push_str(&rest[..at])?;
        out.push_str("\\")?;
        out.push_str(&rest[at..at + 1])?;
        rest = &rest[at + 1..];
    }
    out.push_str(rest)?;
    Ok(out)
}

// The `#`, or the `#` and `!`, before the brackets.
fn add_puncts(builder: &mut TopSubtreeBuilder, style: DocStyle, span: Span) -> Result<(), TtFault>
    ensures ok { OnOk result (builder.new.tree
        ≡ extended builder.old.tree (doc_puncts style span)) }
    ensures refused { IfErr result (IsRefusal
        (count_of builder.old.tree + size (doc_puncts style span))) }
{
    add_mark(builder, '#', Spacing::Alone, span)?;
    match style {
        DocStyle::Outer => Ok(()),
        DocStyle::Inner => add_mark(builder, '!', Spacing::Alone, span),
    }
}

// The tokens inside the brackets.
fn add_inside(
    names: &mut NameCache,
    builder: &mut TopSubtreeBuilder,
    text: &str,
    span: Span,
) -> Result<(), TtFault>
    ensures ok { OnOk result (builder.new.tree
        ≡ extended builder.old.tree (doc_inside text.now span)) }
    ensures refused { IfErr result (IsRefusal (count_of builder.old.tree + 3)) }
{
    let text = escaped(names.alloc, text)?;
    let literal = Literal::new_no_suffix(names.alloc, text.as_str(), span, LitKind::Str)?;
    add_name(names, builder, "doc", IdentIsRaw::No, span)?;
    add_mark(builder, '=', Spacing::Alone, span)?;
    add_leaf(builder, Leaf::Literal(literal))
}

// Adds the attribute that a doc comment with this text is. All its tokens have the comment's
// span.
pub fn add_doc(
    names: &mut NameCache,
    builder: &mut TopSubtreeBuilder,
    style: DocStyle,
    text: &str,
    span: Span,
) -> Result<(), TtFault>
    ensures ok { OnOk result (builder.new.tree
        ≡ extended builder.old.tree (doc_trees style text.now span)) }
    ensures refused { IfErr result (IsRefusal
        (count_of builder.old.tree + size (doc_trees style text.now span))) }
{
    add_puncts(builder, style, span)?;
    open_group(builder, DelimiterKind::Bracket, span)?;
    add_inside(names, builder, text, span)?;
    builder.close(span)
}

//! Adds the leaves of tokens to the trees under construction.
ghost use Rattle.std.specs.Prelude.{◌≡◌, ◌+◌, ◌<◌, ◌^◌, length, IfErr, OnOk};
ghost use Rattle.std.specs.Str.{IsCharBoundary};
ghost use Rattle.bridge.specs.ReadSteps.{IsRefusal, quoted_name};
ghost use Rattle.bridge.specs.TokenSteps.{mark_leaf, name_in, name_leaf};
ghost use Rattle.bridge.specs.Reading.{written_at};
ghost use Rattle.tt.specs.Building.{count_of, extended, opened};
ghost use Rattle.tt.specs.TokenLiterals.{IsLiteralToken, literal_in};
ghost use Rattle.tt_data.specs.Forest.{empty, leaf};
ghost use Rattle.tt_data.specs.declared.leaf.IdentIsRaw.TheVariants.{Yes};
ghost use Rattle.tt_data.specs.declared.leaf.Leaf.TheVariants as as_leaf;

use crate::reading::name_cache::NameCache;
use std::alloc::Global;
use tt::{TopSubtreeBuilder, token_to_literal};
use tt_data::{
    DelimiterKind, Ident, IdentIsRaw, Leaf, LitKind, Punct, Spacing, Span, SyntaxContext,
    TextRange, TtFault,
};

// A span of the text itself.
pub fn written_at(range: TextRange) -> Span
    ensures { result ≡ written_at range }
{
    Span {
        range,
        anchor: 0,
        ctx: SyntaxContext::Written,
    }
}

// A name as it is written, without its `r#` if it is raw.
pub fn name_in(is_raw: IdentIsRaw, text: &str) -> &str
    requires { is_raw ≡ Yes → IsCharBoundary text.now 2 }
    ensures { result.now ≡ name_in is_raw text.now }
{
    match is_raw {
        IdentIsRaw::No => text,
        IdentIsRaw::Yes => &text[2..],
    }
}

#[inline]
pub fn add_leaf(builder: &mut TopSubtreeBuilder, token: Leaf) -> Result<(), TtFault>
    ensures ok { OnOk result (builder.new.tree ≡ extended builder.old.tree (leaf token empty)) }
    ensures refused { IfErr result (IsRefusal (count_of builder.old.tree + 1)) }
{
    builder.push(token)
}

pub fn open_group(
    builder: &mut TopSubtreeBuilder,
    kind: DelimiterKind,
    span: Span,
) -> Result<(), TtFault>
    ensures ok { OnOk result (builder.new.tree ≡ opened builder.old.tree kind span) }
    ensures refused { IfErr result (IsRefusal (count_of builder.old.tree + 1)) }
{
    builder.open(kind, span)
}

pub fn add_name(
    names: &mut NameCache,
    builder: &mut TopSubtreeBuilder,
    name: &str,
    is_raw: IdentIsRaw,
    span: Span,
) -> Result<(), TtFault>
    ensures ok { OnOk result (builder.new.tree
        ≡ extended builder.old.tree (leaf (name_leaf name.now is_raw span) empty)) }
    ensures refused { IfErr result (IsRefusal (count_of builder.old.tree + 1)) }
{
    let sym = names.symbol(name)?;
    add_leaf(builder, Leaf::Ident(Ident { sym, span, is_raw }))
}

pub fn add_mark(
    builder: &mut TopSubtreeBuilder,
    char: char,
    spacing: Spacing,
    span: Span,
) -> Result<(), TtFault>
    ensures ok { OnOk result (builder.new.tree
        ≡ extended builder.old.tree (leaf (mark_leaf char spacing span) empty)) }
    ensures refused { IfErr result (IsRefusal (count_of builder.old.tree + 1)) }
{
    let punct = Punct {
        char,
        spacing,
        span,
    };
    add_leaf(builder, Leaf::Punct(punct))
}

// Adds a lifetime: its quote, glued to the name after it.
pub fn add_quoted_name(
    names: &mut NameCache,
    builder: &mut TopSubtreeBuilder,
    text: &str,
    range: TextRange,
) -> Result<(), TtFault>
    requires some { range.start < range.«end» }
    requires boundary { IsCharBoundary text.now 1 }
    ensures ok { OnOk result (builder.new.tree
        ≡ extended builder.old.tree (quoted_name text.now range)) }
    ensures refused { IfErr result (IsRefusal (count_of builder.old.tree + 2)) }
{
    let start = range.start;
    let end = start + 1;
    let quote = written_at(TextRange { start, end });
    let name = written_at(TextRange {
        start: end,
        end: range.end,
    });
    add_mark(builder, '\'', Spacing::Joint, quote)?;
    add_name(names, builder, &text[1..], IdentIsRaw::No, name)
}

pub fn add_literal(
    alloc: Global,
    builder: &mut TopSubtreeBuilder,
    form: LitKind,
    suffix_start: u32,
    text: &str,
    span: Span,
) -> Result<(), TtFault>
    requires short { length text.now < 2 ^ 32 }
    requires boundary { IsCharBoundary text.now suffix_start }
    requires token { IsLiteralToken form suffix_start text.now }
    ensures ok { OnOk result (builder.new.tree
        ≡ extended builder.old.tree (leaf
        (as_leaf.Literal (literal_in form suffix_start text.now span)) empty)) }
    ensures refused { IfErr result (IsRefusal (count_of builder.old.tree + 1)) }
{
    let literal = token_to_literal(alloc, text, span, form, suffix_start)?;
    add_leaf(builder, Leaf::Literal(literal))
}

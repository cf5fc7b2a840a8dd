//! Transcribes an op without ops inside, and separators.
ghost use Rattle.std.specs.Prelude.{◌≡◌, true, map, Some, Err, IfErr, OnOk, option_map};
ghost use Rattle.tt.specs.Building.{extended};
ghost use Rattle.tt_data.specs.Forest.{empty, leaf, size};
ghost use Rattle.tt_data.specs.Spans.{leaf_with};
ghost use Rattle.tt_data.specs.declared.leaf.Leaf.TheVariants as as_leaf;
ghost use Rattle.tt_data.specs.declared.span.Span.{Span};
ghost use Rattle.mbe_rules.specs.Items.{done};
ghost use Rattle.mbe_rules.specs.Ops.{put_op, separator_of};
ghost use Rattle.mbe_rules.specs.Relabelling.{punct_with};
ghost use Rattle.mbe_matcher.specs.Bound.{map_of};
ghost use Rattle.mbe_transcriber.specs.Filling.{punct_leaves, separator_leaves};
ghost use Rattle.mbe_transcriber.specs.Given.{FailsAfter, Fills, IsBurstBy, KeepsAtFault};
ghost use Rattle.mbe_transcriber.specs.Given.{dollar_gives, dollar_place};
ghost use Rattle.mbe_transcriber.specs.Given.{first_gives, first_puts_out, is_plain, plain_gives};
ghost use Rattle.mbe_transcriber.specs.Markers.{IsMarkedBy};
ghost use Rattle.mbe_transcriber.specs.Output.{size_of};
ghost use Rattle.mbe_transcriber.specs.Room.{IsWantOfRoom, LacksRoom};

use crate::metavar_expr::{
    is_ignored, number_at, put_concat, put_count, put_integer, put_leaf, put_variable,
};
use mbe_matcher::Bindings;
use mbe_rules::{Op, Separator};
use tt::{Ident, Leaf, Literal, Punct, Span, TopSubtreeBuilder, TtFault};

// Appends puncts as they are.
fn put_puncts(out: &mut TopSubtreeBuilder, puncts: &[Punct]) -> Result<(), TtFault>
    ensures faults { IfErr result IsWantOfRoom }
    ensures added { OnOk result (out.new.tree ≡ extended out.old.tree (punct_leaves puncts.now)) }
    ensures tokens { result ≡ Err TtFault.Tokens →
        LacksRoom out.old.tree (punct_leaves puncts.now) }
{
    for punct in puncts {
        out.push(Leaf::Punct(*punct))?;
    }
    Ok(())
}

// Appends a quote and its name as they are.
fn put_lifetime(out: &mut TopSubtreeBuilder, quote: Punct, name: Ident) -> Result<(), TtFault>
    ensures faults { IfErr result IsWantOfRoom }
    ensures added { OnOk result (out.new.tree
        ≡ extended out.old.tree (leaf (as_leaf.Punct quote) (leaf (as_leaf.Ident name) empty))) }
    ensures tokens { result ≡ Err TtFault.Tokens →
        LacksRoom out.old.tree (leaf (as_leaf.Punct quote) (leaf (as_leaf.Ident name) empty)) }
{
    out.push(Leaf::Punct(quote))?;
    out.push(Leaf::Ident(name))
}

// Appends a separator, as it is written.
#[inline(never)]
pub(crate) fn put_separator(
    out: &mut TopSubtreeBuilder,
    separator: Option<&Separator>,
) -> Result<(), TtFault>
    ensures faults { IfErr result IsWantOfRoom }
    ensures added { OnOk result (out.new.tree
        ≡ extended out.old.tree (separator_leaves (option_map (λ s. separator_of s.now)
        separator.entry))) }
    ensures tokens { result ≡ Err TtFault.Tokens →
        LacksRoom out.old.tree (separator_leaves (option_map (λ s. separator_of s.now)
        separator.entry)) }
{
    match separator {
        None => Ok(()),
        Some(Separator::Literal(literal)) => out.push(Leaf::Literal(literal.clone()?)),
        Some(Separator::Ident(ident)) => out.push(Leaf::Ident(ident.clone()?)),
        Some(Separator::Lifetime(quote, name)) => put_lifetime(out, *quote, name.clone()?),
        Some(Separator::Puncts(puncts)) => put_puncts(out, puncts),
    }
}

// The span of a transcriber's token in the output.
pub(crate) fn marked<M: Fn(Span) -> Span>(marker: &M, span: Span) -> Span
    requires { M.IsAlwaysCallable marker.now }
    ensures { (mark : Span → Span) → IsMarkedBy (M.post marker.now) mark → result ≡ mark span }
{
    marker(span)
}

// Transcribes puncts.
fn put_marked_puncts<M: Fn(Span) -> Span>(
    out: &mut TopSubtreeBuilder,
    puncts: &[Punct],
    marker: &M,
) -> Result<bool, TtFault>
    requires { M.IsAlwaysCallable marker.now }
    ensures faults { IfErr result IsWantOfRoom }
    ensures filled { (mark : Span → Span) → IsMarkedBy (M.post marker.now) mark →
        Fills result out.old.tree out.new.tree
        (Some (punct_leaves (map (punct_with mark) puncts.now))) }
    ensures tokens { (mark : Span → Span) → IsMarkedBy (M.post marker.now) mark →
        IsBurstBy result out.old.tree (size (punct_leaves (map (punct_with mark) puncts.now))) }
{
    for punct in puncts {
        let span = marked(marker, punct.span);
        out.push(Leaf::Punct(Punct { span, ..*punct }))?;
    }
    Ok(true)
}

// Transcribes an identifier.
#[inline(always)]
fn put_ident<M: Fn(Span) -> Span>(
    out: &mut TopSubtreeBuilder,
    ident: &Ident,
    marker: &M,
) -> Result<bool, TtFault>
    requires { M.IsAlwaysCallable marker.now }
    ensures faults { IfErr result IsWantOfRoom }
    ensures filled { (mark : Span → Span) → IsMarkedBy (M.post marker.now) mark →
        Fills result out.old.tree out.new.tree
        (Some (leaf (leaf_with mark (as_leaf.Ident ident.now)) empty)) }
    ensures tokens { IsBurstBy result out.old.tree 1 }
{
    let sym = ident.sym.clone()?;
    let span = marked(marker, ident.span);
    let is_raw = ident.is_raw;
    put_leaf(out, Leaf::Ident(Ident { sym, span, is_raw }))
}

// Transcribes a literal.
fn put_literal<M: Fn(Span) -> Span>(
    out: &mut TopSubtreeBuilder,
    literal: &Literal,
    marker: &M,
) -> Result<bool, TtFault>
    requires { M.IsAlwaysCallable marker.now }
    ensures faults { IfErr result IsWantOfRoom }
    ensures filled { (mark : Span → Span) → IsMarkedBy (M.post marker.now) mark →
        Fills result out.old.tree out.new.tree
        (Some (leaf (leaf_with mark (as_leaf.Literal literal.now)) empty)) }
    ensures tokens { IsBurstBy result out.old.tree 1 }
{
    let span = marked(marker, literal.span());
    put_leaf(out, Leaf::Literal(literal.clone()?.with_span(span)))
}

// Transcribes a quote and its name.
fn put_marked_lifetime<M: Fn(Span) -> Span>(
    out: &mut TopSubtreeBuilder,
    quote: Punct,
    name: &Ident,
    marker: &M,
) -> Result<bool, TtFault>
    requires { M.IsAlwaysCallable marker.now }
    ensures faults { IfErr result IsWantOfRoom }
    ensures filled { (mark : Span → Span) → IsMarkedBy (M.post marker.now) mark →
        Fills result out.old.tree out.new.tree
        (Some (leaf (leaf_with mark (as_leaf.Punct quote))
        (leaf (leaf_with mark (as_leaf.Ident name.now)) empty))) }
    ensures tokens { IsBurstBy result out.old.tree 2 }
{
    let span = marked(marker, quote.span);
    out.push(Leaf::Punct(Punct { span, ..quote }))?;
    put_ident(out, name, marker)
}

// Transcribes a metavariable or metavariable expression. `span` is that of its `$` in the output.
fn put_dollar(
    out: &mut TopSubtreeBuilder,
    op: &Op,
    bindings: &Bindings<'_>,
    rounds: &[usize],
    span: Span,
) -> Result<bool, TtFault>
    ensures faults { IfErr result IsWantOfRoom }
    ensures filled { (mark : Span → Span) → Fills result out.old.tree out.new.tree
        (dollar_gives mark (map_of bindings.now) rounds.now (put_op op.now done) span) }
    ensures tokens { (mark : Span → Span) →
        IsBurstBy result out.old.tree (size_of (dollar_gives mark (map_of bindings.now) rounds.now
        (put_op op.now done) span)) }
    ensures same { KeepsAtFault result out.old.tree out.new.tree }
{
    let alloc = bindings.allocator();
    match op {
        Op::Var { name, .. } => put_variable(out, name, bindings, rounds, span),
        Op::Count { name, depth, .. } => put_count(out, name, *depth, bindings, rounds, span),
        Op::Index { depth, .. } => put_integer(alloc, out, number_at(*depth, rounds), span),
        Op::Len { .. } => put_integer(alloc, out, 0, span),
        Op::Ignore { name, .. } => Ok(is_ignored(name, bindings, rounds)),
        Op::Concat { elements, .. } => put_concat(out, elements, bindings, rounds, span),
        _ => Ok(false),
    }
}

// The span of the `$` that begins an op, if one does.
fn dollar_place(op: &Op) -> Option<Span>
    ensures { result ≡ dollar_place (put_op op.now done) }
{
    match op {
        Op::Var { id, .. } => Some(*id),
        Op::Count { id, .. } => Some(*id),
        Op::Index { id, .. } => Some(*id),
        Op::Len { id, .. } => Some(*id),
        Op::Ignore { id, .. } => Some(*id),
        Op::Concat { id, .. } => Some(*id),
        _ => None,
    }
}

// Transcribes an op without ops inside. `Ok(false)` is a fault.
fn put_item<M: Fn(Span) -> Span>(
    out: &mut TopSubtreeBuilder,
    op: &Op,
    bindings: &Bindings<'_>,
    marker: &M,
    rounds: &[usize],
) -> Result<bool, TtFault>
    requires { M.IsAlwaysCallable marker.now }
    ensures faults { IfErr result IsWantOfRoom }
    ensures filled { (mark : Span → Span) → IsMarkedBy (M.post marker.now) mark →
        Fills result out.old.tree out.new.tree (plain_gives mark (map_of bindings.now) rounds.now
        (put_op op.now done)) }
    ensures tokens { (mark : Span → Span) → IsMarkedBy (M.post marker.now) mark →
        IsBurstBy result out.old.tree (size_of (plain_gives mark (map_of bindings.now) rounds.now
        (put_op op.now done))) }
    ensures same { (mark : Span → Span) → IsMarkedBy (M.post marker.now) mark →
        KeepsAtFault result out.old.tree out.new.tree }
{
    if let Some(place) = dollar_place(op) {
        return put_dollar(out, op, bindings, rounds, marked(marker, place));
    }
    match op {
        Op::Literal(literal) => put_literal(out, literal, marker),
        Op::Ident(ident) => put_ident(out, ident, marker),
        Op::Punct(puncts) => put_marked_puncts(out, puncts, marker),
        Op::Lifetime(quote, name) => put_marked_lifetime(out, *quote, name, marker),
        _ => Ok(false),
    }
}

// Transcribes an op that is known to have no ops inside.
pub(crate) fn put_plain<M: Fn(Span) -> Span>(
    out: &mut TopSubtreeBuilder,
    op: &Op,
    bindings: &Bindings<'_>,
    marker: &M,
    rounds: &[usize],
) -> Result<bool, TtFault>
    requires marker { M.IsAlwaysCallable marker.now }
    requires plain { is_plain (put_op op.now done) ≡ true }
    ensures faults { IfErr result IsWantOfRoom }
    ensures filled { (mark : Span → Span) → IsMarkedBy (M.post marker.now) mark →
        Fills result out.old.tree out.new.tree (first_gives mark (map_of bindings.now) rounds.now
        (put_op op.now done)) }
    ensures tokens { (mark : Span → Span) → IsMarkedBy (M.post marker.now) mark →
        IsBurstBy result out.old.tree (first_puts_out mark (map_of bindings.now) rounds.now
        (put_op op.now done)) }
    ensures fails { (mark : Span → Span) → IsMarkedBy (M.post marker.now) mark →
        FailsAfter result out.old.tree out.new.tree
        (first_puts_out mark (map_of bindings.now) rounds.now (put_op op.now done)) }
{
    put_item(out, op, bindings, marker, rounds)
}

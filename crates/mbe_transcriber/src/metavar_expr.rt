//! Transcribes metavariables and metavariable expressions, `${..}`.
ghost use Rattle.std.specs.Prelude.{◌≡◌, ◌+◌, length, ◌++◌, ◌∷◌, [], true, false, reverse, map};
ghost use Rattle.std.specs.Prelude.{Some, None, Ok, Err, IfOk, IfErr, OnOk, option_map};
ghost use Rattle.std.specs.Prelude.{option_and_then, string_bytes};
ghost use Rattle.tt.specs.Building.{extended};
ghost use Rattle.tt.specs.Views.{forest};
ghost use Rattle.tt_data.specs.Forest.{empty, leaf, size};
ghost use Rattle.tt_data.specs.declared.span.Span.{Span};
ghost use Rattle.mbe_rules.specs.Items as items;
ghost use Rattle.mbe_rules.specs.Ops.{part_of};
ghost use Rattle.std.specs.List.{list_any};
ghost use Rattle.mbe_rules.specs.Text.{same_text};
ghost use Rattle.mbe_matcher.specs.Bindings.{Map, binding_of};
ghost use Rattle.mbe_matcher.specs.Bound.{map_of, standing_for};
ghost use Rattle.mbe_matcher.specs.Counts.{count_of};
ghost use Rattle.mbe_transcriber.specs.Counting.{left_sum, amount_of, IsFewer};
ghost use Rattle.mbe_transcriber.specs.Filling.{count_in, dollar_in, fragment_in, identifier};
ghost use Rattle.mbe_transcriber.specs.Filling.{ignored, integer, joined_text, number_at, put_in};
ghost use Rattle.mbe_transcriber.specs.Filling.{rawness_of, reserved_words, text_in, text_of_value};
ghost use Rattle.mbe_transcriber.specs.Filling.{unbound, value_in, variable_in};
ghost use Rattle.mbe_transcriber.specs.Limits.{most_rounds};
ghost use Rattle.mbe_transcriber.specs.Given.{Fills, IsBurstBy, KeepsAtFault};
ghost use Rattle.mbe_transcriber.specs.Markers.{is_name};
ghost use Rattle.mbe_transcriber.specs.Output.{size_of};
ghost use Rattle.mbe_transcriber.specs.Room.{IsWantOfRoom};

use crate::fragment::put_in;
use crate::repetition_vars::{value_here, value_in};
use mbe_matcher::{Binding, Bindings};
use mbe_rules::{ConcatElement, MetaVarKind};
use rustc_lexer::is_ident;
use std::alloc::{AllocError, Global};
use std::slice::from_ref;
use symbols::Symbol;
use tt::{
    Ident, IdentIsRaw, Leaf, LitKind, Literal, Punct, Spacing, Span, TokenTreesView,
    TopSubtreeBuilder, TtElement, TtFault,
};

// The reserved words, which are identifiers only if they are raw.
const RESERVED: [&str; 52] = [
    "as", "break", "const", "continue", "crate", "else", "enum", "extern", "false", "fn", "for",
    "if", "impl", "in", "let", "loop", "match", "mod", "move", "mut", "pub", "ref", "return",
    "self", "Self", "static", "struct", "super", "trait", "true", "type", "unsafe", "use", "where",
    "while", "async", "await", "dyn", "abstract", "become", "box", "do", "final", "macro",
    "override", "priv", "typeof", "unsized", "virtual", "yield", "try", "gen",
];

/// Appends a leaf.
#[inline(always)]
pub(crate) fn put_leaf(out: &mut TopSubtreeBuilder, token: Leaf) -> Result<bool, TtFault>
    ensures faults { IfErr result IsWantOfRoom }
    ensures filled { Fills result out.old.tree out.new.tree (Some (leaf token empty)) }
    ensures tokens { IsBurstBy result out.old.tree 1 }
{
    out.push(token)?;
    Ok(true)
}

// Appends `$` and a name without a binding.
fn put_unbound(out: &mut TopSubtreeBuilder, name: &Symbol, span: Span) -> Result<bool, TtFault>
    ensures faults { IfErr result IsWantOfRoom }
    ensures filled { (mark : Span → Span) (bound : Map) → Fills result out.old.tree out.new.tree
        (Some (unbound is_name most_rounds mark bound name.now span)) }
    ensures tokens { IsBurstBy result out.old.tree 2 }
{
    let sym = name.clone()?;
    out.push(Leaf::Punct(Punct {
        char: '$',
        spacing: Spacing::Alone,
        span,
    }))?;
    put_leaf(
        out,
        Leaf::Ident(Ident {
            sym,
            span,
            is_raw: IdentIsRaw::No,
        }),
    )
}

// Appends a fragment.
fn put_fragment(
    out: &mut TopSubtreeBuilder,
    kind: MetaVarKind,
    trees: TokenTreesView<'_>,
    span: Span,
) -> Result<bool, TtFault>
    ensures faults { IfErr result IsWantOfRoom }
    ensures filled { Fills result out.old.tree out.new.tree
        (Some (put_in span kind (forest trees.entry))) }
    ensures tokens { IsBurstBy result out.old.tree (size (put_in span kind (forest trees.entry))) }
{
    put_in(out, kind, trees, span)?;
    Ok(true)
}

/// Appends the value of a metavariable. `Ok(false)`, a fault, if it is no fragment.
pub(crate) fn put_value(
    out: &mut TopSubtreeBuilder,
    value: Option<&Binding<'_>>,
    span: Span,
) -> Result<bool, TtFault>
    ensures faults { IfErr result IsWantOfRoom }
    ensures filled { (mark : Span → Span) (bound : Map) →
        Fills result out.old.tree out.new.tree (fragment_in is_name most_rounds mark bound span
        (option_map (λ b. standing_for b.now) value.entry)) }
    ensures tokens { (mark : Span → Span) (bound : Map) →
        IsBurstBy result out.old.tree (size_of (fragment_in is_name most_rounds mark bound span
        (option_map (λ b. standing_for b.now) value.entry))) }
    ensures same { KeepsAtFault result out.old.tree out.new.tree }
{
    match value {
        Some(Binding::Fragment { kind, trees }) => put_fragment(out, *kind, *trees, span),
        _ => Ok(false),
    }
}

/// Appends what a metavariable gives in these iterations.
pub(crate) fn put_variable(
    out: &mut TopSubtreeBuilder,
    name: &Symbol,
    bindings: &Bindings<'_>,
    rounds: &[usize],
    span: Span,
) -> Result<bool, TtFault>
    ensures faults { IfErr result IsWantOfRoom }
    ensures filled { (mark : Span → Span) → Fills result out.old.tree out.new.tree
        (variable_in is_name most_rounds mark (map_of bindings.now) rounds.now name.now span
        (binding_of name.now (map_of bindings.now))) }
    ensures tokens { (mark : Span → Span) → IsBurstBy result out.old.tree
        (size_of (variable_in is_name most_rounds mark (map_of bindings.now) rounds.now name.now
        span (binding_of name.now (map_of bindings.now)))) }
    ensures same { KeepsAtFault result out.old.tree out.new.tree }
{
    match bindings.get(name) {
        Some(binding) => put_value(out, value_in(binding, rounds), span),
        None => put_unbound(out, name, span),
    }
}

// Values that are left to count, each of them `depth` lists further in.
#[derive(Clone, Copy)]
struct Left<'b, 'a> {
    values: &'b [Binding<'a>],
    depth: usize,
}

// What a binding counts for: nothing, these values, or what the values inside it do.
#[derive(Clone, Copy)]
enum Amount<'b, 'a> {
    Nothing,
    Values(&'b [Binding<'a>]),
    Inside(Left<'b, 'a>),
}

// What a binding counts for, `depth` lists further in.
fn counted<'b, 'a>(binding: &'b Binding<'a>, depth: usize) -> Amount<'b, 'a>
    ensures sum { amount_of result ≡ count_in depth (standing_for binding.now) }
    ensures fewer { IsFewer (count_of (standing_for binding.now)) result }
{
    match binding {
        Binding::Fragment { .. } => Amount::Values(from_ref(binding)),
        Binding::Skipped => Amount::Nothing,
        Binding::Rounds(values) => match depth.checked_sub(1) {
            None => Amount::Values(values),
            Some(depth) => Amount::Inside(Left { values, depth }),
        },
    }
}

// Adds references to these values.
fn add_all<'b, 'a>(
    found: &mut Vec<&'b Binding<'a>>,
    values: &'b [Binding<'a>],
) -> Result<(), AllocError>
    ensures { OnOk result (length found.new.items ≡ length found.old.items + length values.now) }
{
    found.reserve(values.len())?;
    for value in values {
        found.push(value)?;
    }
    Ok(())
}

// The values that these count for. They are listed, so that memory bounds their number. The lists
// around the present one are in memory, so that nesting takes no call stack.
fn values_in<'b, 'a>(alloc: Global, left: Left<'b, 'a>) -> Result<Vec<&'b Binding<'a>>, AllocError>
    ensures { IfOk result (λ found. length found.items ≡ left_sum left.entry) }
{
    let mut around = Vec::new(alloc);
    let mut list = left;
    let mut found = Vec::new(alloc);
    loop {
        let Some((value, values)) = list.values.split_first() else {
            let Some(outer) = around.pop() else {
                return Ok(found);
            };
            list = outer;
            continue;
        };
        let depth = list.depth;
        list = Left { values, depth };
        match counted(value, depth) {
            Amount::Inside(inner) => {
                around.push(list)?;
                list = inner;
            }
            Amount::Values(more) => add_all(&mut found, more)?,
            Amount::Nothing => {}
        }
    }
}

// The number of values in a binding, `depth` lists further in.
fn count_in(alloc: Global, binding: &Binding<'_>, depth: usize) -> Result<usize, AllocError>
    ensures { IfOk result (λ n. n ≡ count_in depth (standing_for binding.now)) }
{
    match counted(binding, depth) {
        Amount::Nothing => Ok(0),
        Amount::Values(values) => Ok(values.len()),
        Amount::Inside(left) => Ok(values_in(alloc, left)?.len()),
    }
}

/// Appends a number, as a literal.
pub(crate) fn put_integer(
    alloc: Global,
    out: &mut TopSubtreeBuilder,
    number: usize,
    span: Span,
) -> Result<bool, TtFault>
    ensures faults { IfErr result IsWantOfRoom }
    ensures filled { Fills result out.old.tree out.new.tree (Some (integer number span)) }
    ensures tokens { IsBurstBy result out.old.tree 1 }
{
    let text = format!(in alloc; "{number}")?;
    let literal = Literal::new_no_suffix(alloc, &text, span, LitKind::Integer)?;
    put_leaf(out, Leaf::Literal(literal))
}

/// Appends the number of values that a name has, `depth` lists further in.
pub(crate) fn put_count(
    out: &mut TopSubtreeBuilder,
    name: &Symbol,
    depth: usize,
    bindings: &Bindings<'_>,
    rounds: &[usize],
    span: Span,
) -> Result<bool, TtFault>
    ensures faults { IfErr result IsWantOfRoom }
    ensures filled { Fills result out.old.tree out.new.tree
        (option_map (λ b. integer (count_in depth b) span) (option_and_then (value_in rounds.now)
        (binding_of name.now (map_of bindings.now)))) }
    ensures tokens { IsBurstBy result out.old.tree
        (size_of (option_map (λ b. integer (count_in depth b) span)
        (option_and_then (value_in rounds.now) (binding_of name.now (map_of bindings.now))))) }
    ensures same { KeepsAtFault result out.old.tree out.new.tree }
{
    match value_here(name, bindings, rounds) {
        Some(binding) => {
            let alloc = bindings.allocator();
            let count = count_in(alloc, binding, depth)?;
            put_integer(alloc, out, count, span)
        }
        None => Ok(false),
    }
}

/// The index of the iteration `depth` levels up, or 0 past the outermost.
pub(crate) fn number_at(depth: usize, rounds: &[usize]) -> usize
    ensures { result ≡ number_at depth (reverse rounds.now) }
{
    let mut left = rounds;
    let mut depth = depth;
    loop {
        let Some((number, outer)) = left.split_last() else {
            return 0;
        };
        match depth.checked_sub(1) {
            Some(less) => depth = less,
            None => return *number,
        }
        left = outer;
    }
}

/// Whether a name has a fragment here, as `${ignore(..)}` needs.
pub(crate) fn is_ignored(name: &Symbol, bindings: &Bindings<'_>, rounds: &[usize]) -> bool
    ensures { (mark : Span → Span) → elim result [ true ↦ Some empty | false ↦ None ]
        ≡ ignored is_name most_rounds mark (map_of bindings.now)
        (option_and_then (value_in rounds.now) (binding_of name.now (map_of bindings.now))) }
{
    matches!(
        value_here(name, bindings, rounds),
        Some(Binding::Fragment { .. })
    )
}

// Appends the text of one identifier or literal, and answers whether the trees are one.
fn append_text(text: &mut String, trees: TokenTreesView<'_>) -> Result<bool, AllocError>
    ensures { IfOk result (λ b. elim b [ true ↦ Some (string_bytes text.new) | false ↦ None ]
        ≡ option_map (λ t. string_bytes text.old ++ t) (text_in (forest trees.entry))) }
{
    let mut rest = trees.iter();
    let Some(TtElement::Leaf(leaf)) = rest.next() else {
        return Ok(false);
    };
    if !rest.is_empty() {
        return Ok(false);
    }
    match leaf {
        Leaf::Ident(ident) => text.push_str(ident.sym.as_str())?,
        Leaf::Literal(literal) => text.push_str(literal.text())?,
        Leaf::Punct(_) => return Ok(false),
    }
    Ok(true)
}

// Appends the text of a value, and answers whether it has one. A path and an expression have
// none.
fn append_value(text: &mut String, value: Option<&Binding<'_>>) -> Result<bool, AllocError>
    ensures { IfOk result (λ b. elim b [ true ↦ Some (string_bytes text.new) | false ↦ None ]
        ≡ option_map (λ t. string_bytes text.old ++ t)
        (text_of_value (option_map (λ b. standing_for b.now) value.entry))) }
{
    let Some(Binding::Fragment { kind, trees }) = value else {
        return Ok(false);
    };
    match kind {
        MetaVarKind::Path | MetaVarKind::Expr | MetaVarKind::Expr2021 => Ok(false),
        _ => append_text(text, *trees),
    }
}

// Appends the text of a part of `${concat(..)}`, and answers whether it has one.
fn append_part(
    text: &mut String,
    part: &ConcatElement,
    bindings: &Bindings<'_>,
    rounds: &[usize],
) -> Result<bool, AllocError>
    ensures { (mark : Span → Span) →
        IfOk result (λ b. elim b [ true ↦ Some (string_bytes text.new) | false ↦ None ]
        ≡ option_map (λ t. string_bytes text.old ++ t) (joined_text is_name most_rounds mark
        (map_of bindings.now) rounds.now (part_of part.now ∷ []))) }
{
    match part {
        ConcatElement::Text(itself) => {
            text.push_str(itself.as_str())?;
            Ok(true)
        }
        ConcatElement::Var(name) => append_value(text, value_here(name, bindings, rounds)),
    }
}

// The joined text of these parts, if all have one.
fn joined_text(
    parts: &[ConcatElement],
    bindings: &Bindings<'_>,
    rounds: &[usize],
) -> Result<Option<String>, AllocError>
    ensures { (mark : Span → Span) → IfOk result (λ o. option_map string_bytes o
        ≡ joined_text is_name most_rounds mark (map_of bindings.now) rounds.now
        (map part_of parts.now)) }
{
    let mut text = String::new(bindings.allocator());
    for part in parts {
        if !append_part(&mut text, part, bindings, rounds)? {
            return Ok(None);
        }
    }
    Ok(Some(text))
}

// Whether the text is one of these.
fn is_one_of(words: &[&str], text: &str) -> bool
    ensures { result ≡ list_any (λ w. same_text text.now w.now) words.now }
{
    for word in words {
        if text == *word {
            return true;
        }
    }
    false
}

/// Whether a synthesized name is raw: if it is a reserved word.
pub fn rawness_of(text: &str) -> IdentIsRaw
    ensures { result ≡ rawness_of text.now }
{
    let reserved: [&str; 52] = RESERVED;
    if is_one_of(reserved.as_slice(), text) {
        IdentIsRaw::Yes
    } else {
        IdentIsRaw::No
    }
}

// Appends the identifier that a text is. `Ok(false)`, a fault, if it is none.
fn put_name(
    alloc: Global,
    out: &mut TopSubtreeBuilder,
    text: &str,
    span: Span,
) -> Result<bool, TtFault>
    ensures faults { IfErr result IsWantOfRoom }
    ensures filled { (mark : Span → Span) (bound : Map) → Fills result out.old.tree out.new.tree
        (identifier is_name most_rounds mark bound span text.now) }
    ensures tokens { (mark : Span → Span) (bound : Map) →
        IsBurstBy result out.old.tree (size_of (identifier is_name most_rounds mark bound span
        text.now)) }
    ensures same { KeepsAtFault result out.old.tree out.new.tree }
{
    if !is_ident(text) {
        return Ok(false);
    }
    let sym = Symbol::new(alloc, text)?;
    let is_raw = rawness_of(text);
    put_leaf(out, Leaf::Ident(Ident { sym, span, is_raw }))
}

/// Appends the identifier that these parts are joined to.
pub(crate) fn put_concat(
    out: &mut TopSubtreeBuilder,
    parts: &[ConcatElement],
    bindings: &Bindings<'_>,
    rounds: &[usize],
    span: Span,
) -> Result<bool, TtFault>
    ensures faults { IfErr result IsWantOfRoom }
    ensures filled { (mark : Span → Span) → Fills result out.old.tree out.new.tree
        (dollar_in is_name most_rounds mark (map_of bindings.now) rounds.now
        (items.concat_of (map part_of parts.now)) span) }
    ensures tokens { (mark : Span → Span) → IsBurstBy result out.old.tree
        (size_of (dollar_in is_name most_rounds mark (map_of bindings.now) rounds.now
        (items.concat_of (map part_of parts.now)) span)) }
    ensures same { KeepsAtFault result out.old.tree out.new.tree }
{
    match joined_text(parts, bindings, rounds)? {
        Some(text) => put_name(bindings.allocator(), out, &text, span),
        None => Ok(false),
    }
}

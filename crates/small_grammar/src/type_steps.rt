//! Steps through a type, from one place where another type may begin to the next. None of these
//! functions calls itself: what is open around a place is kept by the caller.
ghost use Rattle.std.specs.Prelude.{◌≡◌, ◌<◌, ◌≤◌, ◌+◌, ◌*◌, [], ◌∷◌, Some, None, option_map};
ghost use Rattle.std.specs.Prelude.{IfSome};
ghost use Rattle.tt_data.specs.Forest.{size};
ghost use Rattle.small_grammar.specs.Expressions.{◌⨾◌, ◌∣◌, many, maybe};
ghost use Rattle.small_grammar.specs.Levels.{after, behind, behind_result, ending, segments, left};
ghost use Rattle.small_grammar.specs.Levels.{closing, gone, weight, next_weight};
ghost use Rattle.small_grammar.specs.Signs.{bare_type};
ghost use Rattle.small_grammar.specs.SmallGrammar.{takes, type, arrow, arg, generics, tpath, bound};
ghost use Rattle.small_grammar.specs.SmallGrammar.{name, paren, single, word};

use crate::names::name;
use crate::tokens::{group_of, lifetime, punct, two_puncts};
use crate::type_parts::{
    behind_signs, binding_sign, bounds_sign, function_sign, path_start, plain_arg, plain_type,
    with_call,
};
use tt::TtIter;
use tt_data::DelimiterKind;

/// What may follow a segment.
#[derive(Clone, Copy)]
pub(crate) enum Follow {
    /// Further segments.
    Segments,
    /// Further segments, and `!` with a group.
    Call,
    /// Further segments, and further bounds.
    Bounds,
}

/// A type, a bound or a path of which the beginning is passed, with the trees that are left.
#[derive(Drop)]
pub(crate) enum Begun<'a> {
    /// All of it is passed.
    Whole(TtIter<'a>),
    /// The name of a segment is passed.
    Named(TtIter<'a>, Follow),
    /// `<` or `::` and `<` come, and begin the arguments of a segment if those are complete.
    Angle(TtIter<'a>, Follow),
    /// `->` comes, and begins a result if a type is behind it. A segment ends with the result, or
    /// `fn (..)`, which nothing follows.
    Arrow(TtIter<'a>, Option<Follow>),
}

/// How arguments go on.
#[derive(Drop)]
pub(crate) enum Next<'a> {
    /// With a type.
    Part(Begun<'a>),
    /// With `>`, which is passed.
    End(TtIter<'a>),
}

// What comes after a bound.
fn more_bounds<'a>(trees: TtIter<'a>) -> Begun<'a>
    ensures what { left result ≡ after (many (single "+" ⨾ bound)) trees.entry }
    ensures further { weight result ≤ size trees.entry * 8 + 1 }
{
    let mut rest = trees;
    loop {
        let Some(sign) = punct(&rest, '+') else {
            return Begun::Whole(rest);
        };
        let Some(next) = lifetime(&sign) else {
            return match by_path(&sign) {
                Some(begun) => begun,
                None => Begun::Whole(rest),
            };
        };
        rest = next;
    }
}

// A bound that is a path, perhaps with `?` before it, up to behind its first name.
fn by_path<'a>(trees: &TtIter<'a>) -> Option<Begun<'a>>
    ensures what { option_map left result
        ≡ takes (maybe (single "?") ⨾ tpath ⨾ many (single "+" ⨾ bound)) trees.now }
    ensures further { IfSome result (λ b. weight b ≤ size trees.now * 8) }
{
    let rest = path_start(&punct(trees, '?').unwrap_or(trees.copied()))?;
    Some(Begun::Named(rest, Follow::Bounds))
}

// Bounds after `dyn` or `impl`, up to behind the first name of a path.
fn begin_bounds<'a>(trees: &TtIter<'a>) -> Option<Begun<'a>>
    ensures what { option_map left result
        ≡ takes ((word "dyn" ∣ word "impl") ⨾ bound ⨾ many (single "+" ⨾ bound)) trees.now }
    ensures further { IfSome result (λ b. weight b ≤ size trees.now * 8) }
{
    first_bound(&bounds_sign(trees)?)
}

// Bounds, up to behind the first name of a path.
fn first_bound<'a>(trees: &TtIter<'a>) -> Option<Begun<'a>>
    ensures what { option_map left result ≡ takes (bound ⨾ many (single "+" ⨾ bound)) trees.now }
    ensures further { IfSome result (λ b. weight b ≤ size trees.now * 8) }
{
    match lifetime(trees) {
        Some(rest) => Some(more_bounds(rest)),
        None => by_path(trees),
    }
}

// What comes after all segments of a path.
fn behind_path<'a>(trees: TtIter<'a>, follow: Follow) -> Begun<'a>
    ensures what { left result ≡ ending follow trees.entry }
    ensures further { weight result ≤ size trees.entry * 8 + 1 }
{
    match follow {
        Follow::Segments => Begun::Whole(trees),
        Follow::Call => Begun::Whole(with_call(trees)),
        Follow::Bounds => more_bounds(trees),
    }
}

/// What comes after a segment.
pub(crate) fn behind_segment<'a>(trees: TtIter<'a>, follow: Follow) -> Begun<'a>
    ensures what { left result ≡ behind follow trees.entry }
    ensures further { weight result ≤ size trees.entry * 8 + 2 }
{
    let Some(rest) = two_puncts(&trees, ':', ':') else {
        return behind_path(trees, follow);
    };
    if let Some(next) = name(&rest) {
        return Begun::Named(next, follow);
    }
    match punct(&rest, '<') {
        Some(_) => Begun::Angle(trees, follow),
        None => behind_path(trees, follow),
    }
}

/// What comes after the result of a function, or after the parameters of one that has none.
pub(crate) fn behind_result<'a>(trees: TtIter<'a>, follow: Option<Follow>) -> Begun<'a>
    ensures what { left result ≡ behind_result follow trees.entry }
    ensures further { weight result ≤ size trees.entry * 8 + 2 }
{
    match follow {
        Some(follow) => behind_segment(trees, follow),
        None => Begun::Whole(trees),
    }
}

// What comes after the parameters of a function.
fn behind_parameters<'a>(trees: TtIter<'a>, follow: Option<Follow>) -> Begun<'a>
    ensures what { left result ≡ behind_result follow (after (single "->" ⨾ type) trees.entry) }
    ensures further { weight result ≤ size trees.entry * 8 + 3 }
{
    match two_puncts(&trees, '-', '>') {
        Some(_) => Begun::Arrow(trees, follow),
        None => behind_result(trees, follow),
    }
}

/// What comes after the name of a segment.
pub(crate) fn behind_name<'a>(trees: TtIter<'a>, follow: Follow) -> Begun<'a>
    ensures what { left result ≡ behind follow (after (generics ∣ paren ⨾ arrow) trees.entry) }
    ensures further { weight result ≤ size trees.entry * 8 + 2 }
{
    if let Some(_) = punct(&trees, '<') {
        return Begun::Angle(trees, follow);
    }
    match group_of(&trees, DelimiterKind::Parenthesis) {
        Some(rest) => behind_parameters(rest, Some(follow)),
        None => behind_segment(trees, follow),
    }
}

// The beginning of a type before which no reference or pointer sign stands.
fn begin_bare_type<'a>(trees: &TtIter<'a>) -> Option<Begun<'a>>
    ensures what { option_map left result ≡ takes bare_type trees.now }
    ensures further { IfSome result (λ b. weight b ≤ size trees.now * 8) }
{
    if let Some(begun) = begin_bounds(trees) {
        return Some(begun);
    }
    if let Some(rest) = function_sign(trees) {
        return Some(behind_parameters(rest, None));
    }
    if let Some(rest) = plain_type(trees) {
        return Some(Begun::Whole(rest));
    }
    Some(Begun::Named(path_start(trees)?, Follow::Call))
}

/// The beginning of a type.
pub(crate) fn begin_type<'a>(trees: &TtIter<'a>) -> Option<Begun<'a>>
    ensures what { option_map left result ≡ takes type trees.now }
    ensures further { IfSome result (λ b. weight b ≤ size trees.now * 8) }
{
    begin_bare_type(&behind_signs(trees))
}

// The beginning of a type that comes after a name and `=`.
fn begin_binding<'a>(trees: &TtIter<'a>) -> Option<Begun<'a>>
    ensures what { option_map left result ≡ takes (name ⨾ single "=" ⨾ type) trees.now }
    ensures further { IfSome result (λ b. weight b ≤ size trees.now * 8) }
{
    begin_type(&binding_sign(trees)?)
}

// The beginning of an argument: behind a name and `=` if a type is there.
fn begin_arg<'a>(trees: &TtIter<'a>) -> Option<Begun<'a>>
    ensures what { option_map left result ≡ takes arg trees.now }
    ensures further { IfSome result (λ b. weight b ≤ size trees.now * 8) }
{
    if let Some(rest) = plain_arg(trees) {
        return Some(Begun::Whole(rest));
    }
    match begin_binding(trees) {
        Some(begun) => Some(begun),
        None => begin_type(trees),
    }
}

/// The beginning of the first argument, or the `>` if there is none. `None` if neither comes.
pub(crate) fn first_arg<'a>(trees: &TtIter<'a>) -> Option<Next<'a>>
    ensures what { gone (takes closing) result
        ≡ takes (maybe (arg ⨾ many (single "," ⨾ arg) ⨾ maybe (single ",")) ⨾ single ">")
        trees.now }
    ensures further { IfSome result (λ n. next_weight n ≤ size trees.now * 8) }
{
    match begin_arg(trees) {
        Some(begun) => Some(Next::Part(begun)),
        None => Some(Next::End(punct(trees, '>')?)),
    }
}

/// The beginning of the argument after another, or the `>` if there is none.
pub(crate) fn next_arg<'a>(trees: &TtIter<'a>) -> Option<Next<'a>>
    ensures what { gone (takes closing) result ≡ takes closing trees.now }
    ensures further { IfSome result (λ n. next_weight n ≤ size trees.now * 8) }
{
    match punct(trees, ',') {
        Some(rest) => first_arg(&rest),
        None => Some(Next::End(punct(trees, '>')?)),
    }
}

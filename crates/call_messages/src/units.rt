//! Where a rule stops in a call: the unit that is there, or the end of the argument.
ghost use Rattle.std.specs.Prelude.{◌≡◌};
ghost use Rattle.call_messages.specs.Units.{after_first, begins_lifetime, joined, place_behind};
ghost use Rattle.call_messages.specs.Units.{end_of, stop_range, unit_end, unit_range, unit_trees};

use expander_model::call::Call;
use mbe_explain::RuleStop;
use tt::TtIter;
use tt_data::{Span, TextRange};

// Whether a lifetime comes first: a quote and a name.
fn begins_lifetime(trees: &TtIter<'_>) -> bool
    ensures { result ≡ begins_lifetime trees.now }
{
    match trees.first_punct() {
        Some((quote, rest)) => quote.char == '\'' && rest.lent_ident().is_some(),
        None => false,
    }
}

// How many trees the unit has that a list begins with: a lifetime two, a glued operator its puncts.
// Another tree counts as none.
fn unit_trees(trees: &TtIter<'_>) -> usize
    ensures { result ≡ unit_trees trees.now }
{
    if begins_lifetime(trees) {
        2
    } else {
        trees.glued_count()
    }
}

// The trees after the first one.
fn after_first<'a>(trees: &TtIter<'a>) -> Option<TtIter<'a>>
    ensures { result ≡ after_first trees.now }
{
    if let Some((_leaf, rest)) = trees.lent_leaf() {
        return Some(rest);
    }
    let (_brackets, _inner, rest) = trees.first_group()?;
    Some(rest)
}

// Where the tree behind so many others stands.
fn place_behind(trees: &TtIter<'_>, count: usize) -> Option<Span>
    ensures { result ≡ place_behind count trees.now }
{
    let mut rest = trees.copied();
    let mut left = count;
    while left > 0 {
        rest = after_first(&rest)?;
        left -= 1;
    }
    rest.next_span()
}

// Where the last tree of the unit stands that a list begins with.
fn unit_end(trees: &TtIter<'_>) -> Option<Span>
    ensures { result ≡ unit_end trees.now }
{
    place_behind(trees, unit_trees(trees).saturating_sub(1))
}

// From the beginning of one token to the end of another, if that is not before it.
fn joined(first: Span, last: Option<Span>) -> TextRange
    ensures { result ≡ joined first last }
{
    match last {
        Some(last) if first.range.start <= last.range.end => TextRange {
            start: first.range.start,
            end: last.range.end,
        },
        _ => first.range,
    }
}

/// The range of the unit at which a rule stops: from its first token to the end of its last one.
/// `None` at the end of the argument.
pub(crate) fn unit_range(stop: &RuleStop<'_>) -> Option<TextRange>
    ensures { result ≡ unit_range stop.now }
{
    let first = stop.stop.at?;
    Some(joined(first, unit_end(stop.stop.place.rest())))
}

// The range of the closing bracket of a call.
fn end_of(call: &Call<'_>) -> TextRange
    ensures { result ≡ end_of call.now }
{
    match call.from_group.first_group() {
        Some((brackets, _inner, _rest)) => brackets.close_span.range,
        None => call.name.span.range,
    }
}

/// The range of the unit of a call at which a rule stops, or of the call's closing bracket.
pub fn stop_range(call: &Call<'_>, stop: &RuleStop<'_>) -> TextRange
    ensures { result ≡ stop_range call.now stop.now }
{
    match unit_range(stop) {
        Some(range) => range,
        None => end_of(call),
    }
}

//! Finds the call that is at a byte of a text, and the definition that comes last before it.
use expander_model::call::{Call, call_at};
use expander_model::definition::{Definition, definition_of};
use expander_model::split::next_piece;
use tt::TtIter;

// How many lists inside one another are searched for a definition.
const MOST_LISTS: usize = 1024;

/// The trees from the one on that begins at this byte, in whatever list it is.
pub(crate) fn trees_at<'a>(trees: &TtIter<'a>, at: u32) -> Option<TtIter<'a>> {
    let mut rest = trees.copied();
    loop {
        if rest.next_span()?.range.start == at {
            return Some(rest);
        }
        if let Some((_leaf, behind)) = rest.lent_leaf() {
            rest = behind;
            continue;
        }
        let (brackets, inner, behind) = rest.first_group()?;
        rest = if at <= brackets.close_span.range.start {
            inner
        } else {
            behind
        };
    }
}

// The call that these trees begin with, if a byte is in its name, or behind it.
fn call_named_at<'a>(trees: &TtIter<'a>, at: u32) -> Option<Call<'a>> {
    let call = call_at(trees)?;
    let name = call.name.span.range;
    if name.start <= at && at <= name.end {
        Some(call)
    } else {
        None
    }
}

/// The call in whose name a byte is, or behind whose name, in whatever list of a text it stands.
pub fn call_around<'a>(trees: &TtIter<'a>, at: u32) -> Option<Call<'a>> {
    let mut rest = trees.copied();
    loop {
        if let Some(call) = call_named_at(&rest, at) {
            return Some(call);
        }
        if let Some((_leaf, behind)) = rest.lent_leaf() {
            rest = behind;
            continue;
        }
        let (brackets, inner, behind) = rest.first_group()?;
        rest = if at <= brackets.close_span.range.start {
            inner
        } else {
            behind
        };
    }
}

/// The call whose name is at this byte.
pub(crate) fn call_of<'a>(trees: &TtIter<'a>, at: u32) -> Option<Call<'a>> {
    call_at(&trees_at(trees, at)?)
}

// The inside of the group in which a byte is, among the trees of a piece.
fn group_around<'a>(piece: &TtIter<'a>, at: u32) -> Option<TtIter<'a>> {
    let mut rest = piece.copied();
    loop {
        if let Some((_leaf, behind)) = rest.lent_leaf() {
            rest = behind;
            continue;
        }
        let (brackets, inner, behind) = rest.first_group()?;
        let opening = brackets.open_span.range.start;
        if opening < at && at <= brackets.close_span.range.start {
            return Some(inner);
        }
        rest = behind;
    }
}

// Whether what is left of a list begins after a byte, or nothing is left.
fn is_behind(rest: &TtIter<'_>, at: u32) -> bool {
    match rest.next_span() {
        Some(span) => at < span.range.start,
        None => true,
    }
}

// The definition of this name that a piece is.
fn named<'a>(piece: &TtIter<'a>, name: &str) -> Option<Definition<'a>> {
    let definition = definition_of(piece)?;
    if definition.name.sym.as_str() == name {
        Some(definition)
    } else {
        None
    }
}

// The last definition of this name in a list before a byte, and the piece in which the byte is.
fn search_list<'a>(
    list: &TtIter<'a>,
    at: u32,
    name: &str,
) -> (Option<Definition<'a>>, Option<TtIter<'a>>) {
    let mut rest = list.copied();
    let mut last = None;
    while let Some(piece) = next_piece(&mut rest) {
        if is_behind(&rest, at) {
            return (last, Some(piece));
        }
        if let Some(definition) = named(&piece, name) {
            last = Some(definition);
        }
    }
    (last, None)
}

/// The last definition of this name before a byte, in the lists in which the byte is: of the
/// innermost list that has one. Lists beyond 1,024 inside one another are not looked into.
pub fn definition_before<'a>(trees: &TtIter<'a>, at: u32, name: &str) -> Option<Definition<'a>> {
    let mut list = trees.copied();
    let mut found = None;
    for _ in 0..MOST_LISTS {
        let (last, piece) = search_list(&list, at, name);
        if let Some(definition) = last {
            found = Some(definition);
        }
        let Some(piece) = piece else {
            return found;
        };
        let Some(inner) = group_around(&piece, at) else {
            return found;
        };
        list = inner;
    }
    found
}

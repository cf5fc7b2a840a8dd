//! Token events: the pre-order traversal of trees, event by event. The open groups are on a stack
//! in memory, so that no function calls itself.
ghost use Rattle.std.specs.Prelude.{◌≡◌, IfOk, OnOk, IsOkUnless, ◌∷◌, ◌++◌};
ghost use Rattle.bridge.specs.PrintSteps.{Gives, steps_around, steps_left};
ghost use Rattle.tt.specs.Views.{forest};
ghost use Rattle.tt_data.specs.Walk.{closes, walk};
ghost use Rattle.tt_data.specs.Forest.{empty};
ghost use Rattle.tt_data.specs.fault.TtFault.TheVariants.{Memory};

use std::alloc::Global;
use std::mem::replace;
use tt::{TokenTreesView, TtIter};
use tt_data::{Delimiter, DelimiterKind, LeafRef, Span, TtFault};

/// An event of a traversal: a leaf, which is lent, or the opening or closing of a group that
/// may be invisible.
#[derive(Drop)]
pub enum TokenEvent<'a> {
    Leaf(LeafRef<'a>),
    Opens(DelimiterKind, Span),
    Closes(DelimiterKind, Span),
}

/// An open group: its closing delimiter, and the trees after it.
#[derive(Drop)]
pub(crate) struct OpenGroup<'a> {
    kind: DelimiterKind,
    close_span: Span,
    rest: TtIter<'a>,
}

/// The events that are left: the trees left in the innermost list, and the open groups, innermost
/// last.
#[derive(Drop)]
pub(crate) struct Events<'a> {
    here: TtIter<'a>,
    around: Vec<OpenGroup<'a>>,
}

/// The events of these trees.
pub(crate) fn events_of<'a>(alloc: Global, view: TokenTreesView<'a>) -> Events<'a>
    ensures { steps_left result ≡ walk (forest view.entry) }
{
    Events {
        here: view.iter(),
        around: Vec::new(alloc),
    }
}

// Enters a group, which has these trees inside.
fn enter<'a>(left: &mut Events<'a>, group: Delimiter, inner: TtIter<'a>) -> Result<(), TtFault>
    ensures ok { OnOk result (steps_left left.new ≡ walk inner.entry
        ++ (closes group.kind group.close_span ∷ steps_left left.old)) }
    ensures memory { IsOkUnless result Memory }
{
    let rest = replace(&mut left.here, inner);
    let outer = OpenGroup {
        kind: group.kind,
        close_span: group.close_span,
        rest,
    };
    match left.around.push(outer) {
        Ok(()) => Ok(()),
        Err(_) => Err(TtFault::Memory),
    }
}

// Leaves the innermost group and answers its closing. `None` if no group is open.
fn leave<'a>(left: &mut Events<'a>) -> Option<TokenEvent<'a>>
    requires { left.old.here ≡ empty }
    ensures { Gives (steps_left left.old) result (steps_left left.new) }
{
    let outer = left.around.pop()?;
    left.here = outer.rest;
    Some(TokenEvent::Closes(outer.kind, outer.close_span))
}

/// Takes the next event. `None` at the end.
pub(crate) fn next_event<'a>(left: &mut Events<'a>) -> Result<Option<TokenEvent<'a>>, TtFault>
    ensures gives { IfOk result (λ step. Gives (steps_left left.old) step (steps_left left.new)) }
    ensures memory { IsOkUnless result Memory }
{
    if let Some((leaf, rest)) = left.here.lent_leaf() {
        left.here = rest;
        return Ok(Some(TokenEvent::Leaf(leaf)));
    }
    match left.here.first_group() {
        Some((brackets, inner, rest)) => {
            left.here = rest;
            enter(left, brackets, inner)?;
            Ok(Some(TokenEvent::Opens(brackets.kind, brackets.open_span)))
        }
        None => Ok(leave(left)),
    }
}

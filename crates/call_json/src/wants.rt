//! What a rule wants where it stops.
ghost use Rattle.std.specs.Prelude.{◌≡◌, ◌<◌, ◌^◌, IfOk, length, map};
ghost use Rattle.serde_json.specs.View.{view};
ghost use Rattle.call_json.specs.Rules.{op_sort, sort, want};
ghost use Rattle.call_json.specs.Spots.{AreOf};

use crate::places::place_if;
use crate::spots::Spots;
use call_messages::wanted_range;
use mbe_explain::Wanted;
use mbe_rules::Op;
use serde_json::{Value, json};
use std::alloc::{AllocError, Global};

// The sort of an op.
fn op_sort(op: &Op) -> &'static str
    ensures { result.now ≡ op_sort op.now }
{
    match op {
        Op::Var { .. } => "fragment",
        Op::Subtree { .. } => "group",
        _ => "token",
    }
}

// The sort of what is wanted.
fn sort(wanted: &Wanted<'_>) -> &'static str
    ensures { result.now ≡ sort wanted.now }
{
    match wanted {
        Wanted::Op(op) => op_sort(op),
        Wanted::Separator(_) => "separator",
        Wanted::Close => "close",
        Wanted::End => "end",
    }
}

// What is wanted: where it stands in the definition, of which sort it is, and in words.
fn want(alloc: Global, text: &str, spots: &Spots, wanted: &Wanted<'_>) -> Result<Value, AllocError>
    requires short { length text.now < 2 ^ 32 }
    requires spots { AreOf text.now spots.now }
    ensures { IfOk result (λ v. view v ≡ want text.now wanted.now) }
{
    let range = wanted_range(alloc, text, wanted)?;
    let at = place_if(alloc, text, spots, range)?;
    let words = format!(in alloc; "{wanted}")?;
    json!(in alloc; {
        "at": at,
        "what": sort(wanted),
        "words": words
    })
}

/// What a rule wants, in order.
pub(crate) fn wants(
    alloc: Global,
    text: &str,
    spots: &Spots,
    wanted: &[Wanted<'_>],
) -> Result<Vec<Value>, AllocError>
    requires short { length text.now < 2 ^ 32 }
    requires spots { AreOf text.now spots.now }
    ensures { IfOk result (λ list. map view list.items ≡ map (want text.now) wanted.now) }
{
    let mut list = Vec::new(alloc);
    for one in wanted {
        list.push(want(alloc, text, spots, one)?)?;
    }
    Ok(list)
}

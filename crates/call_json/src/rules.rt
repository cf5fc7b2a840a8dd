//! How the rules of a definition stop at a call.
ghost use Rattle.std.specs.Prelude.{◌≡◌, ◌<◌, ◌^◌, IfOk, length, map};
ghost use Rattle.serde_json.specs.View.{view};
ghost use Rattle.call_json.specs.Rules.{all_rules, number_of, rule, stop_name};
ghost use Rattle.call_json.specs.Spots.{AreOf};

use crate::places::place_in;
use crate::spots::Spots;
use crate::wants::wants;
use call_messages::expander_model::call::Call;
use call_messages::stop_range;
use mbe_explain::{RuleStop, StopKind};
use serde_json::{Value, json};
use std::alloc::{AllocError, Global};

fn stop_name(kind: StopKind) -> &'static str
    ensures { result.now ≡ stop_name kind }
{
    match kind {
        StopKind::Matches => "Matches",
        StopKind::Unread => "Unread",
        StopKind::Ambiguous => "Ambiguous",
        StopKind::TwoReadings => "TwoReadings",
    }
}

// A rule: where it stops, whether the argument ends there, its number from 1, how it stops, and
// what it wants there.
fn rule(
    alloc: Global,
    text: &str,
    spots: &Spots,
    call: &Call<'_>,
    stop: &RuleStop<'_>,
) -> Result<Value, AllocError>
    requires short { length text.now < 2 ^ 32 }
    requires spots { AreOf text.now spots.now }
    ensures { IfOk result (λ v. view v ≡ rule text.now call.now stop.now) }
{
    let at = place_in(alloc, text, spots, stop_range(call, stop))?;
    let wants = wants(alloc, text, spots, &stop.stop.wanted)?;
    json!(in alloc; {
        "at": at,
        "at_end": stop.stop.at.is_none(),
        "rule": number_of(stop.index),
        "stop": stop_name(stop.stop.kind),
        "wants": Value::Array(wants)
    })
}

/// The number of the rule of an index, from 1.
pub(crate) fn number_of(index: usize) -> usize
    ensures { result ≡ number_of index }
{
    index.saturating_add(1)
}

/// The rules, in order.
pub(crate) fn all_rules(
    alloc: Global,
    text: &str,
    spots: &Spots,
    call: &Call<'_>,
    stops: &[RuleStop<'_>],
) -> Result<Value, AllocError>
    requires short { length text.now < 2 ^ 32 }
    requires spots { AreOf text.now spots.now }
    ensures { IfOk result (λ v. view v ≡ all_rules text.now call.now stops.now) }
{
    let mut list = Vec::new(alloc);
    for stop in stops {
        list.push(rule(alloc, text, spots, call, stop)?)?;
    }
    Ok(Value::Array(list))
}

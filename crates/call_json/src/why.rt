//! Why no rule fits a call.
ghost use Rattle.std.specs.Prelude.{◌≡◌, ◌<◌, ◌^◌, IfOk, None, length};
ghost use Rattle.serde_json.specs.View.{view};
ghost use Rattle.mbe.specs.Macros.{rules_of};
ghost use Rattle.mbe_explain.specs.Rules.{IsNearest};
ghost use Rattle.call_json.specs.Rules.{name};
ghost use Rattle.call_json.specs.Spots.{AreOf};
ghost use Rattle.call_json.specs.Whys.{IsWhy, IsWhyOf};

use crate::places::place_in;
use crate::rules::{all_rules, number_of};
use crate::spots::Spots;
use bumpalo::Bump;
use call_messages::{Known, Unfit, explain_known, nearest_unfit};
use mbe::FragmentGrammar;
use mbe_explain::Explanation;
use serde_json::{Value, json};
use std::alloc::{AllocError, Global};
use tt_data::{Ident, TtFault};

/// Why no rule fits a call, as parts of a JSON value.
#[derive(Drop)]
pub struct Why {
    /// The name of the definition, and where it stands.
    pub definition: Value,
    /// The number, from 1, of the rule that is nearest to a match.
    pub nearest: usize,
    /// All rules, in order: how each stops.
    pub rules: Value,
}

// A name, and where it stands.
fn name(alloc: Global, text: &str, spots: &Spots, it: &Ident) -> Result<Value, AllocError>
    requires short { length text.now < 2 ^ 32 }
    requires spots { AreOf text.now spots.now }
    ensures { IfOk result (λ v. view v ≡ name text.now it.now) }
{
    let at = place_in(alloc, text, spots, it.span.range)?;
    json!(in alloc; {
        "at": at,
        "name": it.sym.as_str()
    })
}

// Why no rule fits a call, by how the rules take the argument.
fn why_of(
    alloc: Global,
    text: &str,
    spots: &Spots,
    known: &Known<'_>,
    explained: &Explanation<'_>,
) -> Result<Result<Why, Unfit>, AllocError>
    requires short { length text.now < 2 ^ 32 }
    requires spots { AreOf text.now spots.now }
    requires nearest { IsNearest explained.now.rules.items explained.now.nearest }
    ensures { IfOk result (IsWhyOf text.now known.now explained.now) }
{
    let nearest = match nearest_unfit(explained) {
        Ok(nearest) => nearest,
        Err(unfit) => return Ok(Err(unfit)),
    };
    let index = explained.rules[nearest].index;
    Ok(Ok(Why {
        definition: name(alloc, text, spots, &known.definition.name)?,
        nearest: number_of(index),
        rules: all_rules(alloc, text, spots, &known.call, &explained.rules)?,
    }))
}

/// Why no rule of its definition fits a call of a text of at most `u32::MAX` bytes, which has these
/// spots. `Err(Fits)` if a rule fits; `Err(Unknown)` if the definition has no rules.
///
/// # Errors
///
/// `Memory`; or `Tokens` if what a rule gives has too many tokens.
pub fn why_unfit<G: FragmentGrammar>(
    alloc: Global,
    grammar: &G,
    text: &str,
    spots: &Spots,
    known: &Known<'_>,
) -> Result<Result<Why, Unfit>, TtFault>
    requires short { length text.now < 2 ^ 32 }
    requires spots { AreOf text.now spots.now }
    requires valid { (rules_of known.now.rules).err ≡ None }
    ensures { IfOk result (IsWhy (G.answer grammar.now) text.now known.now) }
{
    let arena = Bump::new(alloc);
    let explained = explain_known(alloc, &arena, grammar, known)?;
    let why = why_of(alloc, text, spots, known, &explained)?;
    Ok(why)
}

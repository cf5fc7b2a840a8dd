//! Why the faults of a text are there.
ghost use Rattle.std.specs.Prelude.{◌≡◌, ◌<◌, ◌^◌, ◌++◌, ◌∷◌, [], IfOk, OnOk, length, map, min};
ghost use Rattle.std.specs.List.{AllZip};
ghost use Rattle.serde_json.specs.Data.{Data};
ghost use Rattle.serde_json.specs.View.{view};
ghost use Rattle.line_index.specs.Lines.{IsSpot};
ghost use Rattle.call_json.specs.Spots.{AreOf};
ghost use Rattle.reply_json.specs.Explanations.{AreExplained, Explains, IsFound};
ghost use Rattle.reply_json.specs.Explanations.{IsFoundAt, explained, most, unfit_name};

use crate::faults::{fault_from, kind_name, push_faults};
use call_json::{Spots, Why, place_from, why_unfit};
use call_messages::{Unfit, known_at};
use expander_model::fault::{Fault, FaultKind};
use expander_run::lines::fault_words;
use fragment_grammar::FragmentGrammar;
use line_index::{BEGIN, Spot, spot_at};
use serde_json::{Value, json};
use std::alloc::{AllocError, Global};
use tt::TokenTreesView;
use tt_data::{Edition, TtFault};

// How many faults are explained.
const MOST: usize = 100;

/// A text of at most `u32::MAX` bytes and its trees, of which faults are explained by a grammar and
/// an edition.
#[derive(Drop)]
pub struct Question<'a, G> {
    pub grammar: &'a G,
    pub edition: Edition,
    pub text: &'a str,
    pub trees: TokenTreesView<'a>,
}

// The name of why nothing is said of a call's rules.
fn unfit_name(unfit: Unfit) -> &'static str
    ensures { result.now ≡ unfit_name unfit }
{
    match unfit {
        Unfit::Fits => "RuleFits",
        Unfit::Unknown => "Unknown",
    }
}

// Why no rule fits the call whose name begins at this byte.
fn found_at<G: FragmentGrammar>(
    alloc: Global,
    question: &Question<'_, G>,
    spots: &Spots,
    at: u32,
) -> Result<Result<Why, Unfit>, TtFault>
    requires short { length question.now.text.now < 2 ^ 32 }
    requires spots { AreOf question.now.text.now spots.now }
    ensures { IfOk result (IsFoundAt (G.answer question.now.grammar.now) question.now.text.now) }
{
    let trees = question.trees.iter();
    match known_at(alloc, question.edition, &trees, at)? {
        None => Ok(Err(Unfit::Unknown)),
        Some(known) => why_unfit(alloc, question.grammar, question.text, spots, &known),
    }
}

// Why no rule fits the call of a fault, if that is its kind.
fn found_of<G: FragmentGrammar>(
    alloc: Global,
    question: &Question<'_, G>,
    spots: &Spots,
    fault: &Fault,
) -> Result<Option<Result<Why, Unfit>>, TtFault>
    requires short { length question.now.text.now < 2 ^ 32 }
    requires spots { AreOf question.now.text.now spots.now }
    ensures { IfOk result (IsFound (G.answer question.now.grammar.now) question.now.text.now
        fault.now) }
{
    match fault.kind {
        FaultKind::CannotExpand => {
            let found = found_at(alloc, question, spots, fault.range.start)?;
            Ok(Some(found))
        }
        _ => Ok(None),
    }
}

// A fault that no rules explain, of which this is where its range starts.
fn unfit_from(
    alloc: Global,
    text: &str,
    start: Spot,
    it: &Fault,
    unfit: Unfit,
) -> Result<Value, AllocError>
    requires short { length text.now < 2 ^ 32 }
    requires start { IsSpot text.now start }
    requires at { start.at ≡ min it.now.range.start (length text.now) }
    ensures { IfOk result (λ v. view v ≡ explained text.now it.now (Some (Err unfit))) }
{
    let at = place_from(alloc, text, start, it.range)?;
    json!(in alloc; {
        "at": at,
        "kind": kind_name(it.kind),
        "message": fault_words(it.kind),
        "why": unfit_name(unfit)
    })
}

// A fault with how the rules of its call stop, of which this is where its range starts.
fn rules_from(
    alloc: Global,
    text: &str,
    start: Spot,
    it: &Fault,
    why: Why,
) -> Result<Value, AllocError>
    requires short { length text.now < 2 ^ 32 }
    requires start { IsSpot text.now start }
    requires at { start.at ≡ min it.now.range.start (length text.now) }
    ensures { IfOk result (λ v. view v ≡ explained text.now it.now (Some (Ok why))) }
{
    let at = place_from(alloc, text, start, it.range)?;
    let Why {
        definition,
        nearest,
        rules,
    } = why;
    json!(in alloc; {
        "at": at,
        "definition": definition,
        "kind": kind_name(it.kind),
        "message": fault_words(it.kind),
        "nearest": nearest,
        "rules": rules,
        "why": "NoRuleFits"
    })
}

// A fault of which this is where its range starts, and what was found of its call.
fn explained_from(
    alloc: Global,
    text: &str,
    start: Spot,
    it: &Fault,
    found: Option<Result<Why, Unfit>>,
) -> Result<Value, AllocError>
    requires short { length text.now < 2 ^ 32 }
    requires start { IsSpot text.now start }
    requires at { start.at ≡ min it.now.range.start (length text.now) }
    ensures { IfOk result (λ v. view v ≡ explained text.now it.now found) }
{
    match found {
        None => fault_from(alloc, text, start, it),
        Some(Err(unfit)) => unfit_from(alloc, text, start, it, unfit),
        Some(Ok(why)) => rules_from(alloc, text, start, it, why),
    }
}

// Adds a value.
fn add(list: &mut Vec<Value>, value: Value) -> Result<(), AllocError>
    ensures { OnOk result (list.new.items ≡ list.old.items ++ value ∷ []) }
{
    list.push(value)?;
    Ok(())
}

// Faults, in order, each with why it is there.
fn explained_list<G: FragmentGrammar>(
    alloc: Global,
    question: &Question<'_, G>,
    faults: &[Fault],
) -> Result<Vec<Value>, TtFault>
    requires { length question.now.text.now < 2 ^ 32 }
    ensures { IfOk result (λ list. AllZip
        (Explains (G.answer question.now.grammar.now) question.now.text.now)
        faults.now (map view list.items)) }
{
    let text = question.text;
    let spots = Spots::of(alloc, text)?;
    let mut list = Vec::new(alloc);
    let mut spot = BEGIN;
    for fault in faults {
        spot = spot_at(text, spot, fault.range.start as usize);
        let found = found_of(alloc, question, &spots, fault)?;
        let value = explained_from(alloc, text, spot, fault, found)?;
        add(&mut list, value)?;
    }
    Ok(list)
}

/// Faults, in order, the first hundred with why they are there.
pub(crate) fn explained_faults<G: FragmentGrammar>(
    alloc: Global,
    question: &Question<'_, G>,
    faults: &[Fault],
) -> Result<Vec<Value>, TtFault>
    requires { length question.now.text.now < 2 ^ 32 }
    ensures { IfOk result (λ list. AreExplained (G.answer question.now.grammar.now)
        question.now.text.now faults.now (map view list.items)) }
{
    let (first, rest) = faults.split_at(faults.len().min(MOST));
    let mut list = explained_list(alloc, question, first)?;
    push_faults(alloc, &mut list, question.text, rest)?;
    Ok(list)
}

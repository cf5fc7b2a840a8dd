//! JSON values that tell of trees.
ghost use Rattle.std.specs.Prelude.{◌≡◌, ◌++◌, IfOk, OnOk, map};
ghost use Rattle.serde_json.specs.View.{view};
ghost use Rattle.tt.specs.Views.{forest};
ghost use Rattle.call_json.specs.Places.{count, numbers};
ghost use Rattle.step_report.specs.Tokens as spec;
ghost use Rattle.step_report.specs.Tokens.{numbers_of, span_numbers};

use crate::shown::print_trees;
use call_json::push_number;
use serde_json::{Value, json};
use std::alloc::{AllocError, Global};
use tt::TokenTreesView;
use tt_data::Span;

// Adds the three numbers that tell of a span.
fn push_span(list: &mut Vec<Value>, span: Span) -> Result<(), AllocError>
    ensures { OnOk result (map view list.new.items
        ≡ map view list.old.items ++ map count (numbers_of span)) }
{
    push_number(list, span.anchor)?;
    push_number(list, span.range.start)?;
    push_number(list, span.range.end)?;
    Ok(())
}

// Where tokens come from, three numbers for each.
fn origins(alloc: Global, spans: &[Span]) -> Result<Value, AllocError>
    ensures { IfOk result (λ v. view v ≡ numbers (span_numbers spans.now)) }
{
    let mut list = Vec::new(alloc);
    for span in spans {
        push_span(&mut list, *span)?;
    }
    Ok(Value::Array(list))
}

/// Trees, printed alone, and where their tokens come from.
pub(crate) fn trees(alloc: Global, trees: TokenTreesView<'_>) -> Result<Value, AllocError>
    ensures { IfOk result (λ v. view v ≡ spec.trees (forest trees.entry)) }
{
    let printed = print_trees(alloc, trees)?;
    let origins = origins(alloc, &printed.tokens)?;
    json!(in alloc; {
        "origins": origins,
        "text": printed.text.as_str()
    })
}

//! Where printed tokens are, and where they come from.
ghost use Rattle.std.specs.Prelude.{◌≡◌, ◌<◌, ◌^◌, IfOk, length};
ghost use Rattle.bridge.specs.PrintedRanges.{read_ranges};
ghost use Rattle.serde_json.specs.View.{view};
ghost use Rattle.call_json.specs.Places.{numbers};
ghost use Rattle.reply_json.specs.Lines.{ends_of, origin_numbers};

use call_json::push_number;
use expander_run::expander_session::session::Expansion;
use serde_json::Value;
use std::alloc::{AllocError, Global};

/// Where the printed tokens are in the printed text, two numbers for each.
pub(crate) fn ranges_of(alloc: Global, expansion: &Expansion) -> Result<Value, AllocError>
    requires { length expansion.now.printed < 2 ^ 32 }
    ensures { IfOk result (λ v. view v ≡ numbers (ends_of (read_ranges expansion.now.printed))) }
{
    let mut list = Vec::new(alloc);
    for range in expansion.token_ranges() {
        push_number(&mut list, range.start)?;
        push_number(&mut list, range.end)?;
    }
    Ok(Value::Array(list))
}

/// Where the printed tokens come from, three numbers for each.
pub(crate) fn origins_of(alloc: Global, expansion: &Expansion) -> Result<Value, AllocError>
    ensures { IfOk result (λ v. view v
        ≡ numbers (origin_numbers expansion.now.texts expansion.now.origins)) }
{
    let mut list = Vec::new(alloc);
    let tokens = expansion.tokens();
    let mut i = 0;
    while i < tokens {
        let Some(origin) = expansion.source(i) else {
            unreachable!("a printed token has an origin");
        };
        push_number(&mut list, origin.text)?;
        push_number(&mut list, origin.range.start)?;
        push_number(&mut list, origin.range.end)?;
        i += 1;
    }
    Ok(Value::Array(list))
}

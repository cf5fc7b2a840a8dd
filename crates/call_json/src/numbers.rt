//! Numbers, and lists of them.
ghost use Rattle.std.specs.Prelude.{◌≡◌, ◌++◌, ◌∷◌, [], OnOk, map};
ghost use Rattle.serde_json.specs.View.{view};
ghost use Rattle.call_json.specs.Places.{count};

use serde_json::{Number, Value};
use std::alloc::AllocError;

/// Adds a number to a list.
///
/// # Errors
///
/// `AllocError` if memory is refused.
pub fn push_number(list: &mut Vec<Value>, number: u32) -> Result<(), AllocError>
    ensures { OnOk result (map view list.new.items
        ≡ map view list.old.items ++ count number ∷ []) }
{
    list.push(Value::Number(Number::from(number)))?;
    Ok(())
}

//! Lines that tell of the faults of a file.
ghost use Rattle.std.specs.Prelude.{◌<◌, ◌^◌, length};

use crate::shown::push_shown;
use expander_model::fault::Fault;
use expander_run::lines::{FIRST, fault_words, push_line, spot_of};
use std::alloc::{AllocError, Global};

/// A line for each fault of a text, with the name of its file in front.
pub fn fault_lines(
    alloc: Global,
    name: &str,
    text: &str,
    faults: &[Fault],
) -> Result<String, AllocError>
    requires { length text.now < 2 ^ 32 }
{
    let mut lines = String::new(alloc);
    let mut spot = FIRST;
    for fault in faults {
        spot = spot_of(text.as_bytes(), spot, fault.range.start);
        push_shown(&mut lines, name)?;
        lines.push_str(": ")?;
        push_line(&mut lines, spot, fault_words(fault.kind))?;
    }
    Ok(lines)
}

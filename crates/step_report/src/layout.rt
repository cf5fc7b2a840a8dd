//! The parts of a line that tells of a step.
ghost use Rattle.step_report.specs.Layout.{beside, head, indent};
ghost use Rattle.step_report.specs.Shown.{Adds};

use crate::shown::push_blanks;
use std::alloc::{AllocError, Global};

// The column in bytes, from 0, in which it stands what is said of a call.
const COLUMN: usize = 50;

// How many levels are indented at most.
const MOST_LEVELS: usize = 16;

/// Adds blanks for a level.
pub(crate) fn push_indent(out: &mut String, level: u8) -> Result<(), AllocError>
    ensures { Adds result out.old out.new (indent level) }
{
    push_blanks(out, 2 * (level as usize).min(MOST_LEVELS))
}

/// Adds the number of a level, from 1.
pub(crate) fn push_head(alloc: Global, out: &mut String, level: u8) -> Result<(), AllocError>
    ensures { Adds result out.old out.new (head level) }
{
    let number = level as usize + 1;
    let digits = format!(in alloc; "{number}")?;
    push_blanks(out, 3usize.saturating_sub(digits.len()))?;
    out.push_str(digits.as_str())?;
    out.push_str("  ")?;
    push_indent(out, level)
}

/// Adds what is said of a call in the column for it, or two blanks behind, and ends the line.
pub(crate) fn push_beside(out: &mut String, left: &str, right: &str) -> Result<(), AllocError>
    ensures { Adds result out.old out.new (beside left.now right.now) }
{
    out.push_str(left)?;
    push_blanks(out, COLUMN.saturating_sub(left.len()).max(2))?;
    out.push_str(right)?;
    out.push('\n')
}

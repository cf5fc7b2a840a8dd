//! The faults of a text on a page, as links.
ghost use Rattle.std.specs.Prelude.{◌≡◌, ◌++◌, IfOk, OnOk, map, string_bytes};
ghost use Rattle.html_code.specs.PageParts.{fault_part, fault_parts, link_tag};
ghost use Rattle.html_code.specs.Parts.{Adds, html_of};

use crate::expansion::{items_after, number_here};
use crate::source::Mark;
use crate::token::push_isolated;
use std::alloc::{AllocError, Global};

/// Where each fault begins.
pub(crate) fn fault_starts(alloc: Global, faults: &[Mark<'_>]) -> Result<Vec<u32>, AllocError>
    ensures { IfOk result (λ starts. starts.items ≡ map (λ f. f.start) faults.now) }
{
    faults.iter().map(|fault| fault.start).collect(alloc)
}

// Adds the tag of a link to the token of this number.
fn push_link_tag(page: &mut String, number: usize) -> Result<(), AllocError>
    ensures { Adds result page.old page.new (link_tag number) }
{
    write!(page, "<li><a href=#s{number}>")
}

// Adds a link to the token of this number.
fn push_fault(page: &mut String, number: usize, told: &str) -> Result<(), AllocError>
    ensures { Adds result page.old page.new (html_of (fault_part number told.now)) }
{
    push_link_tag(page, number)?;
    push_isolated(page, told)?;
    page.push_str("</a>")?;
    Ok(())
}

/// Adds a link for each fault, to the tokens of these numbers.
pub(crate) fn push_faults(
    page: &mut String,
    numbers: &[usize],
    faults: &[Mark<'_>],
) -> Result<(), AllocError>
    ensures { Adds result page.old page.new (html_of (fault_parts numbers.now faults.now)) }
{
    let mut left = numbers;
    for fault in faults {
        push_fault(page, number_here(left), fault.told)?;
        left = items_after(left, 1);
    }
    Ok(())
}

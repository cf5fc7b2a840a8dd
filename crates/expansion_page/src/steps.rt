//! The pane of steps.
ghost use Rattle.expansion_page.specs.Steps.{steps_html};
ghost use Rattle.html_code.specs.Parts.{Adds};

use html_code::push_escaped;
use std::alloc::AllocError;

// It stands behind all else of a page, in a column of its own, and is hidden where no script runs.
const STEPS: &str =
    r##"<aside id=p aria-label="Steps" tabindex=0 hidden><h2>Steps</h2><pre><bdi>"##;

const STEPS_END: &str = "</bdi></pre></aside>\n";

/// Adds a pane of steps to a page: lines that tell of steps, as `filgordd trace` prints them. The
/// page's script shows those of the call that is marked, one by one.
///
/// # Errors
///
/// `AllocError` if memory is refused.
pub fn push_steps(html: &mut String, lines: &str) -> Result<(), AllocError>
    ensures { Adds result html.old html.new (steps_html lines.now) }
{
    html.push_str(STEPS)?;
    push_escaped(html, lines)?;
    html.push_str(STEPS_END)
}

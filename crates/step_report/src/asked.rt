//! Which steps are told of.
ghost use Rattle.std.specs.Prelude.{◌≡◌};
ghost use Rattle.expander_trace.specs.Given.{step_in};
ghost use Rattle.step_report.specs.Asked.{is_asked, is_cut_told};

use expander_trace::limits::Cut;
use expander_trace::step::Step;
use tt_data::TextRange;

/// Whether a step is asked for: one of a call that is written within a range, or in what such a
/// call gives. `last` says it of the step before.
pub(crate) fn is_asked(asked: Option<TextRange>, last: bool, step: &Step) -> bool
    ensures { result ≡ is_asked asked last (step_in step.now) }
{
    if step.level > 0 {
        return last;
    }
    let start = step.name.range.start;
    match asked {
        None => true,
        Some(range) => range.start <= start && start <= range.end,
    }
}

/// Whether it is told why there are no more steps: where a limit is passed, and else if `last`, the
/// last step, is told of.
pub(crate) fn is_cut_told(last: bool, cut: Cut) -> bool
    ensures { result ≡ is_cut_told last cut }
{
    match cut {
        Cut::Definitions => last,
        Cut::Steps | Cut::Tokens => true,
    }
}

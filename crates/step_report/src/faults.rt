//! Whether a call that is told of stays for a fault.
ghost use Rattle.std.specs.Prelude.{◌≡◌, ◌||◌, ◌&&◌, map};
ghost use Rattle.expander_trace.specs.Given.{step_in, trace_in};
ghost use Rattle.step_report.specs.Faults.{one_stays, stays, trace_stays};

use crate::asked::is_asked;
use expander_trace::step::{Step, Trace};
use tt_data::TextRange;

// Whether a call stays for a fault.
fn stays(step: &Step) -> bool
    ensures { result ≡ stays (step_in step.now) }
{
    match &step.attempt {
        None => false,
        Some(attempt) => match &attempt.given {
            Ok(_) => false,
            Err(_) => true,
        },
    }
}

// Whether one does so far, or this step, if it is told of.
fn or_stays(found: bool, asked: bool, step: &Step) -> bool
    ensures { result ≡ (found || (asked && stays (step_in step.now))) }
{
    found || (asked && stays(step))
}

// Whether one of the steps of a trace that are told of does.
fn trace_stays(asked: Option<TextRange>, trace: &Trace) -> bool
    ensures { result ≡ trace_stays asked (trace_in trace.now) }
{
    let mut on = asked.is_none();
    let mut found = false;
    for step in &trace.steps {
        on = is_asked(asked, on, step);
        found = or_stays(found, on, step);
    }
    found
}

/// Whether one of the steps that are told of is of a call that stays for a fault. One whose name
/// finds nothing is none.
pub fn one_stays(asked: Option<TextRange>, traces: &[Trace]) -> bool
    ensures { result ≡ one_stays asked (map trace_in traces.now) }
{
    for trace in traces {
        if trace_stays(asked, trace) {
            return true;
        }
    }
    false
}

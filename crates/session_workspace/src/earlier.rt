//! What comes of a call as of the last text that could be read, while a text cannot be.
ghost use Rattle.std.specs.Prelude.{◌≡◌, ◌≤◌, ◌<◌, ◌^◌, IfOk, IfSome, length};
ghost use Rattle.session_workspace.specs.Earlier.{byte_before};
ghost use Rattle.session_workspace.specs.Questions.{IsSaidBefore};

use crate::calls::{byte_at, call_in};
use any_grammar::AnyGrammar;
use expander_session::session::Session;
use line_index::Position;
use pieced_text::PiecedText;
use std::alloc::{AllocError, Global};
use step_report::expander_trace::call_expansion::answer::Called;

/// The byte of an earlier text that one of a newer text comes from: the same where all before it is
/// the same in both, else as far from the end where all from it on is. `None` in what was replaced.
pub fn byte_before(old: &str, new: &str, at: usize) -> Option<usize>
    requires { at ≤ length new.now }
    ensures is { result ≡ byte_before old.now new.now at }
    ensures within { IfSome result (λ byte. byte ≤ length old.now) }
{
    let old = old.as_bytes();
    let (front, back) = new.as_bytes().split_at(at);
    if old.starts_with(front) {
        return Some(at);
    }
    if old.ends_with(back) {
        return Some(old.len() - back.len());
    }
    None
}

/// What is said of the call at the byte of an earlier text that a place of a session's text comes
/// from. `None` if it comes from none. `asked` is the text that was asked about last: it becomes
/// the earlier text.
pub(crate) fn earlier_call_at(
    alloc: Global,
    session: &Session<AnyGrammar>,
    earlier: &str,
    place: Position,
    asked: &mut Option<PiecedText>,
) -> Result<Option<Called>, AllocError>
    requires now { length session.now.text < 2 ^ 32 }
    requires earlier { length earlier.now < 2 ^ 32 }
    ensures { IfOk result (IsSaidBefore session.now earlier.now place) }
{
    let text = session.text();
    match byte_before(earlier, text, byte_at(text, place) as usize) {
        Some(at) => call_in(alloc, session, earlier, at as u32, asked),
        None => Ok(None),
    }
}

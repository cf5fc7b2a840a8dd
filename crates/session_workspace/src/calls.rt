//! What the meaning of a text says of the call at a place.
ghost use Rattle.std.specs.Prelude.{◌≡◌, ◌<◌, ◌^◌, Err, IfOk, length};
ghost use Rattle.tt_data.specs.fault.TtFault.TheVariants as fault;
ghost use Rattle.session_workspace.specs.Questions.{IsSaidAt, IsSaidIn, NeedsTooManyIn, Says};
ghost use Rattle.session_workspace.specs.Ranges.{byte_at};

use any_grammar::AnyGrammar;
use expander_session::session::Session;
use line_index::{Position, offset_of};
use pieced_text::PiecedText;
use std::alloc::{AllocError, Global};
use step_report::expander_trace::call_expansion::answer::Called;
use step_report::expander_trace::call_expansion::piece_call::call_in_followed;
use step_report::expander_trace::call_expansion::text_call::CallOptions;
use tt_data::TtFault;

/// The byte at a position of a text.
pub(crate) fn byte_at(text: &str, place: Position) -> u32
    requires { length text.now < 2 ^ 32 }
    ensures { result ≡ byte_at text.now place }
{
    text.len().min(offset_of(text, place)) as u32
}

/// By what the calls of a session's text are expanded.
pub(crate) fn options_of(session: &Session<AnyGrammar>) -> CallOptions<'_, AnyGrammar>
    ensures grammar { result.grammar.now ≡ session.now.grammar }
    ensures edition { result.edition ≡ session.now.edition }
    ensures dialect { result.dialect.now ≡ session.now.dialect }
    ensures depth { result.depth ≡ session.now.depth }
{
    CallOptions {
        grammar: session.grammar(),
        edition: session.edition(),
        dialect: session.dialect(),
        depth: session.depth(),
    }
}

// The text that was asked about last becomes this one, or there is a new one.
fn followed(alloc: Global, asked: Option<PiecedText>, text: &str) -> Result<PiecedText, AllocError>
    requires { length text.now < 2 ^ 32 }
    ensures { IfOk result (λ t. t ≡ text.now) }
{
    match asked {
        Some(mut pieced) => {
            pieced.follow(text)?;
            Ok(pieced)
        }
        None => PiecedText::new(alloc, text),
    }
}

// What is said of the call at a byte of a text, by a session's options. `asked` is the text that
// was asked about last: it becomes this text. If there is no memory for that, it is none.
fn said_in(
    alloc: Global,
    session: &Session<AnyGrammar>,
    text: &str,
    at: u32,
    asked: &mut Option<PiecedText>,
) -> Result<Option<Called>, TtFault>
    requires { length text.now < 2 ^ 32 }
    ensures says { IfOk result (Says session.now text.now at) }
    ensures tokens { result ≡ Err fault.Tokens → NeedsTooManyIn session.now text.now }
{
    let mut pieced = followed(alloc, asked.take(), text)?;
    let by = options_of(session);
    let said = call_in_followed(alloc, &by, session.prelude(), &mut pieced, at);
    *asked = Some(pieced);
    said
}

/// What is said of the call at a byte of a text, by a session's options. `None` if there is none,
/// or that takes too many tokens. `asked` is the text that was asked about last: it becomes this
/// text.
pub(crate) fn call_in(
    alloc: Global,
    session: &Session<AnyGrammar>,
    text: &str,
    at: u32,
    asked: &mut Option<PiecedText>,
) -> Result<Option<Called>, AllocError>
    requires { length text.now < 2 ^ 32 }
    ensures { IfOk result (IsSaidIn session.now text.now at) }
{
    match said_in(alloc, session, text, at, asked) {
        Ok(called) => Ok(called),
        Err(TtFault::Tokens) => Ok(None),
        Err(_) => Err(AllocError),
    }
}

/// What is said of the call at a place of a session's text, as `call_in` has it.
pub(crate) fn call_at(
    alloc: Global,
    session: &Session<AnyGrammar>,
    place: Position,
    asked: &mut Option<PiecedText>,
) -> Result<Option<Called>, AllocError>
    requires { length session.now.text < 2 ^ 32 }
    ensures { IfOk result (IsSaidAt session.now place) }
{
    let text = session.text();
    call_in(alloc, session, text, byte_at(text, place), asked)
}

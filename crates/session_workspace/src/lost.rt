//! Why a text is no longer followed.
ghost use Rattle.std.specs.Prelude.{◌≡◌, IfOk, string_bytes};
ghost use Rattle.serde_json.specs.View.{view};
ghost use Rattle.session_workspace.specs.Losses.{loss_message, loss_text, loss_words};

use expander_run::lines::refusal_words;
use expander_scope::refusal::Refusal;
use rpc_messages::notification;
use serde_json::{Value, json};
use std::alloc::{AllocError, AllocFailed, Global};
use tt_data::TtFault;

/// Why a text is no longer followed.
#[derive(Clone, Copy, Debug, PartialEq, Eq)]
pub(crate) enum Lost {
    /// There is no session over it, or no memory for a change of it.
    Refused(Refusal),
    /// It has more than `u32::MAX` bytes.
    TooLong,
}

impl From<Refusal> for Lost {
    fn from(refusal: Refusal) -> Lost {
        Lost::Refused(refusal)
    }
}

impl From<TtFault> for Lost {
    fn from(fault: TtFault) -> Lost {
        Lost::Refused(Refusal::from(fault))
    }
}

impl From<AllocError> for Lost {
    fn from(_error: AllocError) -> Lost {
        Lost::Refused(Refusal::Memory)
    }
}

impl<T: Drop> From<AllocFailed<T>> for Lost {
    fn from(_error: AllocFailed<T>) -> Lost {
        Lost::Refused(Refusal::Memory)
    }
}

fn loss_words(lost: Lost) -> &'static str
    ensures { result.now ≡ loss_words lost }
{
    match lost {
        Lost::Refused(refusal) => refusal_words(refusal),
        Lost::TooLong => "more than 4294967295 bytes",
    }
}

fn message_text(alloc: Global, uri: &str, words: &str) -> Result<String, AllocError>
    ensures { IfOk result (λ text. string_bytes text ≡ loss_text uri.now words.now) }
{
    format!(in alloc; "{uri}: {words}; it is not followed until it is opened again")
}

/// What the user is shown where a text is no longer followed.
pub(crate) fn loss_message(alloc: Global, uri: &str, lost: Lost) -> Result<Value, AllocError>
    ensures { IfOk result (λ v. view v ≡ loss_message uri.now (loss_words lost)) }
{
    let message = message_text(alloc, uri, loss_words(lost))?;
    let params = json!(in alloc; {"type": 1, "message": message})?;
    notification(alloc, "window/showMessage", params)
}

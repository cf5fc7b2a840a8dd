//! What a message is.
ghost use Rattle.std.specs.Prelude.{◌≡◌, IsSome, codes};
ghost use Rattle.serde_json.specs.Find.{get};
ghost use Rattle.serde_json.specs.View.{view};
ghost use Rattle.rpc_messages.specs.Messages.{Asks, IsReadAs, asked, wanted};

use serde_json::Value;

/// A method that is called, and its parameters.
#[derive(Clone, Copy, Drop)]
pub struct Call<'a> {
    /// The method's name. `None` if what stands in its place is no text.
    pub method: Option<&'a str>,
    pub params: Option<&'a Value>,
}

/// What a message is.
#[derive(Clone, Copy, Drop)]
pub enum Incoming<'a> {
    /// A request, which wants an answer with this id.
    Request(&'a Value, Call<'a>),
    /// A notification, which wants no answer.
    Note(Call<'a>),
    /// An answer, which wants none either.
    Answer,
    /// No message: a batch, or what has neither a method nor an id.
    Bad,
}

// The method and the parameters of a message that has a method.
fn call_of(message: &Value) -> Call<'_>
    requires { IsSome (get (codes "method") (view message.now)) }
    ensures { Asks (view message.now) result }
{
    Call {
        method: message.get("method").and_then(Value::as_str),
        params: message.get("params"),
    }
}

/// What a message is: an object with a method and an id is a request, one with a method alone a
/// notification, and one with an id alone an answer.
pub fn read_message(message: &Value) -> Incoming<'_>
    ensures asked { wanted result ≡ asked (view message.now) }
    ensures read { IsReadAs (view message.now) result }
{
    match (message.get("method"), message.get("id")) {
        (Some(_), Some(id)) => Incoming::Request(id, call_of(message)),
        (Some(_), None) => Incoming::Note(call_of(message)),
        (None, Some(_)) => Incoming::Answer,
        (None, None) => Incoming::Bad,
    }
}

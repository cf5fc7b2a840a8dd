//! The machine: a body comes, and messages go.
ghost use Rattle.std.specs.Prelude.{◌≡◌, [], ◌∷◌, IfOk, OnOk, Some, codes, map, option_and_then};
ghost use Rattle.std.specs.Prelude.{option_map};
ghost use Rattle.serde_json.specs.Find.{get};
ghost use Rattle.serde_json.specs.View.{view};
ghost use Rattle.client_texts.specs.Views.{note_view};
ghost use Rattle.rpc_messages.specs.Messages.{answered};
ghost use Rattle.lsp_server.specs.Protocol.{method_named, note_told, phase_asked, phase_told};
ghost use Rattle.lsp_server.specs.Protocol.{refused_by};
ghost use Rattle.lsp_server.specs.Steps.{Steps, Takes, TextsFollow, error};

use crate::capabilities::capabilities;
use crate::errors::error;
use crate::method::{Method, method_named};
use crate::phase::{ErrorCode, Phase};
use crate::workspace::{Question, Workspace};
use client_texts::{Note, closed_in, edited_in, opened_in, place_at, uri_of};
use rpc_messages::{Call, Incoming, read_message, response};
use serde_json::Value;
use std::alloc::{AllocError, Global};
use std::marker::Model;

// With which error a request is refused before it is looked at.
fn refused_by(phase: Phase, name: Option<&str>, method: Option<Method>) -> Option<ErrorCode>
    ensures { result ≡ refused_by phase (option_map (λ n. n.now) name.entry) method }
{
    match (phase, method) {
        (Phase::New, Some(Method::Initialize)) => None,
        (Phase::New, _) => Some(ErrorCode::NotInitialized),
        (Phase::Open, Some(Method::Initialize)) => Some(ErrorCode::InvalidRequest),
        (
            Phase::Open,
            Some(Method::DidOpen | Method::DidChange | Method::DidClose | Method::Exit),
        ) => Some(ErrorCode::UnknownMethod),
        (Phase::Open, Some(_)) => None,
        (Phase::Open, None) if name.is_some() => Some(ErrorCode::UnknownMethod),
        _ => Some(ErrorCode::InvalidRequest),
    }
}

// The phase after a request.
fn phase_asked(phase: Phase, method: Option<Method>) -> Phase
    ensures { result ≡ phase_asked phase method }
{
    match (phase, method) {
        (Phase::New, Some(Method::Initialize)) => Phase::Open,
        (Phase::Open, Some(Method::Shutdown)) => Phase::Shut,
        _ => phase,
    }
}

// The phase after a notification.
fn phase_told(phase: Phase, method: Option<Method>) -> Phase
    ensures { result ≡ phase_told phase method }
{
    match (phase, method) {
        (Phase::Shut, Some(Method::Exit)) => Phase::Ended(true),
        (Phase::Ended(asked), Some(Method::Exit)) => Phase::Ended(asked),
        (_, Some(Method::Exit)) => Phase::Ended(false),
        _ => phase,
    }
}

// What a notification tells of the client's texts.
fn note_told<'a>(
    alloc: Global,
    phase: Phase,
    method: Option<Method>,
    params: &'a Value,
) -> Result<Option<Note<'a>>, AllocError>
    ensures { IfOk result (λ note. option_map note_view note
        ≡ note_told phase method (view params.now)) }
{
    match (phase, method) {
        (Phase::Open, Some(Method::DidOpen)) => Ok(opened_in(params)),
        (Phase::Open, Some(Method::DidChange)) => edited_in(alloc, params),
        (Phase::Open, Some(Method::DidClose)) => Ok(closed_in(params)),
        _ => Ok(None),
    }
}

// How many steps are wanted at most, if parameters say so. `None` if they say it in another form.
fn limit_in(params: &Value) -> Option<Option<u64>> {
    match params.get("limit") {
        Some(limit) => Some(Some(limit.as_u64()?)),
        None => Some(None),
    }
}

// What a request asks about a text, and the text's name. `None` if the parameters have another
// form, or it asks about none.
fn question_of(method: Method, params: &Value) -> Option<(Question, &str)> {
    let uri = uri_of(params)?;
    match method {
        Method::DocumentSymbol => return Some((Question::Symbols, uri)),
        Method::CodeAction => {
            let place = place_at("start", params.get("range")?)?;
            return Some((Question::Actions(place), uri));
        }
        _ => {}
    }
    let place = place_at("position", params)?;
    match method {
        Method::Hover => Some((Question::Hover(place), uri)),
        Method::Definition => Some((Question::Definition(place), uri)),
        Method::ExpandMacro => Some((Question::Expansion(place), uri)),
        Method::Trace => Some((Question::Steps(place, limit_in(params)?), uri)),
        _ => None,
    }
}

// A list of one message.
fn one(alloc: Global, message: Value) -> Result<Vec<Value>, AllocError>
    ensures { IfOk result (λ list. map view list.items ≡ view message ∷ []) }
{
    let mut list = Vec::new(alloc);
    list.push(message)?;
    Ok(list)
}

/// A language server: it takes the bodies of a client's messages, one after the other, and gives
/// the messages that go for each. Callers see its phase and its workspace.
#[derive(Drop)]
pub struct Server<W> {
    alloc: Global,
    phase: Phase,
    workspace: W,
}

impl<W> Model for Server<W> {
    ghost use Rattle.lsp_server.specs.Steps.{Serving};

    ghost Value = { Serving W };

    ghost view = { λ s. record { phase = s.phase; workspace = s.workspace } };
}

impl<W: Workspace> Server<W> {
    /// A server that no message has come to, over a workspace.
    pub fn new(alloc: Global, workspace: W) -> Server<W>
        ensures { result ≡ record { phase = Phase.New; workspace = workspace } }
    {
        Server {
            alloc,
            phase: Phase::New,
            workspace,
        }
    }

    /// How far the conversation is.
    pub fn phase(&self) -> Phase
        ensures { result ≡ self.now.phase }
    {
        self.phase
    }

    // The answer to a question about a text.
    fn ask(&mut self, id: &Value, question: Option<(Question, &str)>) -> Result<Value, AllocError>
        ensures id { IfOk result (λ v. get (codes "id") (view v) ≡ Some (view id.now)) }
        ensures phase { self.new.phase ≡ self.old.phase }
        ensures texts { W.documents self.new.workspace ≡ W.documents self.old.workspace }
    {
        let Some((question, uri)) = question else {
            return error(self.alloc, id, ErrorCode::InvalidParams);
        };
        match self.workspace.ask(question, uri) {
            Ok(Some(answer)) => response(self.alloc, id, answer),
            Ok(None) => error(self.alloc, id, ErrorCode::InvalidParams),
            Err(_) => error(self.alloc, id, ErrorCode::Failed),
        }
    }

    // The answer to a request that is not refused.
    fn respond(
        &mut self,
        id: &Value,
        method: Option<Method>,
        params: Option<&Value>,
    ) -> Result<Value, AllocError>
        ensures id { IfOk result (λ v. get (codes "id") (view v) ≡ Some (view id.now)) }
        ensures phase { self.new.phase ≡ self.old.phase }
        ensures texts { W.documents self.new.workspace ≡ W.documents self.old.workspace }
    {
        match (method, params) {
            (Some(Method::Initialize), _) => response(self.alloc, id, capabilities(self.alloc)?),
            (Some(Method::Shutdown), _) => response(self.alloc, id, Value::Null),
            (Some(method), Some(params)) => self.ask(id, question_of(method, params)),
            _ => error(self.alloc, id, ErrorCode::InvalidParams),
        }
    }

    // The answer to a request.
    fn answer(&mut self, id: &Value, call: Call<'_>) -> Result<Value, AllocError>
        ensures id { IfOk result (λ v. get (codes "id") (view v) ≡ Some (view id.now)) }
        ensures refused { IfOk result (λ v. (code : ErrorCode)
            → refused_by self.old.phase (option_map (λ n. n.now) call.entry.method)
            (option_and_then method_named (option_map (λ n. n.now) call.entry.method)) ≡ Some code
            → view v ≡ error code (view id.now)) }
        ensures phase { self.new.phase ≡ phase_asked self.old.phase
            (option_and_then method_named (option_map (λ n. n.now) call.entry.method)) }
        ensures texts { W.documents self.new.workspace ≡ W.documents self.old.workspace }
    {
        let method = call.method.and_then(method_named);
        let refused = refused_by(self.phase, call.method, method);
        let phase = phase_asked(self.phase, method);
        if let Some(code) = refused {
            return error(self.alloc, id, code);
        }
        self.phase = phase;
        self.respond(id, method, call.params)
    }

    // Does what a notification tells, and gives what goes for it.
    fn take_note(&mut self, call: Call<'_>) -> Result<Vec<Value>, AllocError>
        ensures quiet { IfOk result (λ outs. answered (map view outs.items) ≡ []) }
        ensures phase { OnOk result (self.new.phase ≡ phase_told self.old.phase
            (option_and_then method_named (option_map (λ n. n.now) call.entry.method))) }
        ensures texts { IfOk result (λ outs. TextsFollow (option_and_then
            (note_told self.old.phase (option_and_then method_named
            (option_map (λ n. n.now) call.entry.method)))
            (option_map (λ p. view p.now) call.entry.params)) []
            (W.documents self.old.workspace) (W.documents self.new.workspace)
            (map view outs.items)) }
    {
        let method = call.method.and_then(method_named);
        let phase = self.phase;
        self.phase = phase_told(phase, method);
        let Some(params) = call.params else {
            return Ok(Vec::new(self.alloc));
        };
        let Some(note) = note_told(self.alloc, phase, method, params)? else {
            return Ok(Vec::new(self.alloc));
        };
        self.workspace.tell(note)
    }

    // Takes a message.
    fn take_message(&mut self, message: &Value) -> Result<Vec<Value>, AllocError>
        ensures { IfOk result (λ outs. Takes W.documents self.old (Some (view message.now))
            (map view outs.items) self.new) }
    {
        match read_message(message) {
            Incoming::Request(id, call) => {
                let answer = self.answer(id, call)?;
                let answers = one(self.alloc, answer)?;
                Ok(answers)
            }
            Incoming::Note(call) => self.take_note(call),
            Incoming::Answer => Ok(Vec::new(self.alloc)),
            Incoming::Bad => one(
                self.alloc,
                error(self.alloc, &Value::Null, ErrorCode::InvalidRequest)?,
            ),
        }
    }

    /// Takes the body of a message, and gives the messages that go for it: each answer that it asks
    /// for, once, and with its id; for a notification of a text the diagnostics of texts.
    ///
    /// # Errors
    ///
    /// There is no memory for an answer, nor to say so.
    pub fn take(&mut self, body: &[u8]) -> Result<Vec<Value>, AllocError>
        ensures { IfOk result (λ outs. Steps W.documents self.old body.now
            (map view outs.items) self.new) }
    {
        match Value::from_slice(self.alloc, body) {
            Ok(message) => self.take_message(&message),
            Err(why) if why.is_memory() => Err(AllocError),
            Err(_) => one(
                self.alloc,
                error(self.alloc, &Value::Null, ErrorCode::NoJson)?,
            ),
        }
    }
}

//! What a client tells of its texts.
ghost use Rattle.std.specs.Prelude.{◌≡◌, IfOk, option_map};
ghost use Rattle.serde_json.specs.View.{view};
ghost use Rattle.client_texts.specs.Params.{closed_in, edited_in, opened_in};
ghost use Rattle.client_texts.specs.Views.{note_view};

use crate::change::{Change, changes_in};
use crate::params::{text_at, uri_of, version_of};
use serde_json::Value;
use std::alloc::{AllocError, Global};

/// What a client tells of its texts. Each has a name, and a version unless it is closed.
#[derive(Drop)]
pub enum Note<'a> {
    /// It opened this text.
    Opened(&'a str, i64, &'a str),
    /// It changed a text, one change after the other.
    Edited(&'a str, i64, Vec<Change<'a>>),
    /// It closed a text.
    Closed(&'a str),
}

/// What the parameters of `textDocument/didOpen` tell. `None` if they have another form.
pub fn opened_in(params: &Value) -> Option<Note<'_>>
    ensures { option_map note_view result ≡ opened_in (view params.now) }
{
    let uri = uri_of(params)?;
    let version = version_of(params)?;
    let text = text_at("text", params.get("textDocument")?)?;
    Some(Note::Opened(uri, version, text))
}

/// What the parameters of `textDocument/didChange` tell. `None` if they have another form.
pub fn edited_in(alloc: Global, params: &Value) -> Result<Option<Note<'_>>, AllocError>
    ensures { IfOk result (λ note. option_map note_view note ≡ edited_in (view params.now)) }
{
    let (Some(uri), Some(version)) = (uri_of(params), version_of(params)) else {
        return Ok(None);
    };
    match changes_in(alloc, params)? {
        Some(changes) => Ok(Some(Note::Edited(uri, version, changes))),
        None => Ok(None),
    }
}

/// What the parameters of `textDocument/didClose` tell. `None` if they have another form.
pub fn closed_in(params: &Value) -> Option<Note<'_>>
    ensures { option_map note_view result ≡ closed_in (view params.now) }
{
    let uri = uri_of(params)?;
    Some(Note::Closed(uri))
}

//! A text that a client has open.
ghost use Rattle.std.specs.Prelude.{◌≡◌, IfOk, None, OnOk, false, if◌then◌else◌, map, option_map};
ghost use Rattle.std.specs.Prelude.{MatchBool, string_bytes};
ghost use Rattle.serde_json.specs.View.{view};
ghost use Rattle.client_texts.specs.Texts.{after_changes, after_edit};
ghost use Rattle.client_texts.specs.Views.{change_view};
ghost use Rattle.session_workspace.specs.Diagnostics.{diagnostics_of, publication};
ghost use Rattle.session_workspace.specs.OpenTexts.{IsTold, WasTold, document_of, earlier_of};
ghost use Rattle.session_workspace.specs.OpenTexts.{is_expansion, kept_of};

use crate::diagnostics::{diagnostics_of, publication};
use crate::lost::Lost;
use crate::told::{Told, is_told_of, told_of};
use any_grammar::AnyGrammar;
use client_texts::{Change, edit_of};
use expander_scope::refusal::Refusal;
use expander_session::session::{Reply, Session};
use serde_json::Value;
use std::alloc::{AllocError, Global};

/// A text that a client has open: its name, its version, and a session over it.
#[derive(Drop)]
pub(crate) struct OpenText {
    pub(crate) uri: String,
    pub(crate) version: i64,
    pub(crate) session: Session<AnyGrammar>,
    /// Whether the text could be read when its diagnostics were made. Else they were not made, or
    /// it could not be.
    pub(crate) is_read: bool,
    /// The last text before it that could be read, if there is one and it cannot be.
    pub(crate) earlier: Option<String>,
    /// What the client was told of it last. `None` before the first time.
    pub(crate) told: Option<Told>,
}

// Whether a session's text could be read.
fn is_expansion(given: &Result<Reply, Refusal>) -> bool
    ensures { result ≡ is_expansion given.now }
{
    match given {
        Ok(Reply::Read(_)) => true,
        _ => false,
    }
}

// Changes the text of a session. If that is refused, some changes may have been made.
fn change(session: &mut Session<AnyGrammar>, changes: &[Change<'_>]) -> Result<(), Lost>
    ensures text { OnOk result (session.new.text
        ≡ after_changes (map change_view changes.now) session.old.text) }
    ensures prelude { session.new.prelude ≡ session.old.prelude }
{
    for change in changes {
        let edit = edit_of(change, session.text());
        if !session.fits(edit.start, edit.end, edit.new.len()) {
            return Err(Lost::TooLong);
        }
        session.edit(edit.start, edit.end, edit.new)?;
    }
    Ok(())
}

impl OpenText {
    // Keeps the text as the last one that could be read, if it could be.
    fn keep(&mut self, alloc: Global) -> Result<(), AllocError>
        ensures kept { OnOk result (earlier_of self.new ≡ kept_of self.old) }
        ensures unread { OnOk result (self.new.is_read ≡ false) }
        ensures session { self.new.session ≡ self.old.session }
        ensures same { document_of self.new ≡ document_of self.old }
    {
        if self.is_read {
            let text = String::from_str(alloc, self.session.text())?;
            self.earlier = Some(text);
            self.is_read = false;
        }
        Ok(())
    }

    /// Makes these changes, one after the other, after which the text has this version. If that is
    /// refused, some of them may have been made.
    pub(crate) fn edit(
        &mut self,
        alloc: Global,
        version: i64,
        changes: &[Change<'_>],
    ) -> Result<(), Lost>
        ensures edited { OnOk result (document_of self.new
            ≡ after_edit version (map change_view changes.now) (document_of self.old)) }
        ensures kept { OnOk result (earlier_of self.new ≡ kept_of self.old) }
        ensures unread { OnOk result (self.new.is_read ≡ false) }
        ensures prelude { self.new.session.prelude ≡ self.old.session.prelude }
    {
        self.keep(alloc)?;
        change(&mut self.session, changes)?;
        self.version = version;
        Ok(())
    }

    // Notes whether the text could be read. If so, nothing is kept.
    fn note(&mut self, is_read: bool)
        ensures read { self.new.is_read ≡ is_read }
        ensures earlier { earlier_of self.new
            ≡ (if is_read then None else earlier_of self.old) }
        ensures session { self.new.session ≡ self.old.session }
        ensures told { self.new.told ≡ self.old.told }
        ensures same { document_of self.new ≡ document_of self.old }
    {
        self.is_read = is_read;
        if is_read {
            self.earlier = None;
        }
    }

    // Whether the client was told of it what its session gives here.
    fn was_told(&self, given: &Result<Reply, Refusal>) -> bool
        ensures { MatchBool result (WasTold self.now.told given.now)
            (WasTold self.now.told given.now → ⊥) }
    {
        match &self.told {
            Some(told) => is_told_of(told, given),
            None => false,
        }
    }

    // The notification of the diagnostics of the text, whose session gives this.
    fn publication(&self, alloc: Global, given: &Result<Reply, Refusal>) -> Result<Value, Lost>
        ensures { IfOk result (λ v. view v ≡ publication (string_bytes self.now.uri)
            self.now.version (diagnostics_of self.now.session.text given.now)) }
    {
        let text = self.session.text();
        if text.len() > u32::MAX as usize {
            return Err(Lost::TooLong);
        }
        let diagnostics = diagnostics_of(alloc, text, given)?;
        let message = publication(alloc, self.uri.as_str(), self.version, diagnostics)?;
        Ok(message)
    }

    /// The notification of the text's diagnostics. `None` for a text that the client did not change,
    /// where it was told the same last, and only then.
    pub(crate) fn tell(&mut self, alloc: Global, is_own: bool) -> Result<Option<Value>, Lost>
        ensures { IfOk result (λ m. IsTold is_own self.old self.new (option_map view m)) }
    {
        let given = self.session.expansion();
        self.note(is_expansion(&given));
        if !is_own && self.was_told(&given) {
            return Ok(None);
        }
        let message = self.publication(alloc, &given)?;
        self.told = Some(told_of(alloc, &given)?);
        Ok(Some(message))
    }
}

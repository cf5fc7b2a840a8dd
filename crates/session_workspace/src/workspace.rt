//! The workspace of sessions.
ghost use Rattle.std.specs.Prelude.{◌≡◌, ◌⊎◌, ◌++◌, ◌∷◌, [], All, IfOk, List, MatchBool, OnErr};
ghost use Rattle.std.specs.Prelude.{OnOk, false, map, option_map, string_bytes, ℕ};
ghost use Rattle.serde_json.specs.Data.{Data};
ghost use Rattle.serde_json.specs.View.{view};
ghost use Rattle.client_texts.specs.Params.{opened};
ghost use Rattle.client_texts.specs.Views.{change_view, note_view};
ghost use Rattle.lsp_server.specs.Workspaces.{Follows, listed, name_of};
ghost use Rattle.session_workspace.specs.OpenTexts.{HaveNone, IsEdited, IsFirstOf, IsLost};
ghost use Rattle.session_workspace.specs.OpenTexts.{IsOpened, IsOver, IsRefreshed, IsSettled};
ghost use Rattle.session_workspace.specs.OpenTexts.{IsToldBy, IsWithout, Starts, Tells};
ghost use Rattle.session_workspace.specs.OpenTexts.{documents_of};
ghost use Rattle.session_workspace.specs.Questions.{Answers, IsAnswered, IsShort};
ghost use Rattle.session_workspace.specs.Refreshing.{AreRefreshed, IsDone};
ghost use Rattle.tt_data.specs.Forest.{Forest};

use crate::actions::actions_at;
use crate::definitions::definition_at;
use crate::diagnostics::withdrawal;
use crate::expansions::{expansion_at, hover_at};
use crate::lost::{Lost, loss_message};
use crate::open_text::OpenText;
use crate::outline::symbols_of;
use crate::setup::{Setup, session_over};
use crate::steps::steps_at;
use client_texts::{Change, Note};
use lsp_server::{Question, Workspace};
use pieced_text::PiecedText;
use serde_json::Value;
use std::alloc::{AllocError, Global};
use std::mem::replace;

/// Which diagnostics a client is sent.
#[derive(Clone, Copy, Debug, PartialEq, Eq)]
pub enum Shown {
    /// Those of each fault, but for definitions in the output.
    All,
    /// None.
    Nothing,
}

/// A workspace that keeps a session over each text that the client has open.
#[derive(Drop)]
pub struct SessionWorkspace<S> {
    pub(crate) alloc: Global,
    pub(crate) setup: S,
    pub(crate) shown: Shown,
    /// The names of the texts that definitions come from, in order of their numbers, from 1.
    pub(crate) others: Vec<String>,
    pub(crate) texts: Vec<OpenText>,
    /// The text that was asked about last, if there is one. It may be one that is closed.
    pub(crate) asked: Option<PiecedText>,
}

// Whether a session's text has less than 2^32 bytes, and so has the one that is kept.
fn is_short(open: &OpenText) -> bool
    ensures { MatchBool result (IsShort open.now) (IsShort open.now → ⊥) }
{
    let most = u32::MAX as usize;
    match &open.earlier {
        Some(earlier) if earlier.len() > most => false,
        _ => open.session.text().len() <= most,
    }
}

// The answer to a question about an open text. `others` are the names of the texts that definitions
// come from, and `asked` is the text that was asked about last.
fn answer_of<S: Setup>(
    alloc: Global,
    question: Question,
    setup: &S,
    others: &[String],
    open: &OpenText,
    asked: &mut Option<PiecedText>,
) -> Result<Value, AllocError>
    ensures { IfOk result (λ v. IsShort open.now → Answers question (string_bytes open.now.uri)
        (map string_bytes others.now) open.now (view v)) }
{
    if !is_short(open) {
        return Ok(Value::Null);
    }
    let (uri, session) = (open.uri.as_str(), &open.session);
    let text = session.text();
    match question {
        Question::Hover(place) => hover_at(alloc, open, place, asked),
        Question::Expansion(place) => expansion_at(alloc, open, place, asked),
        Question::Actions(place) => actions_at(alloc, uri, session, place, asked),
        Question::Steps(place, most) => steps_at(alloc, uri, others, session, place, most),
        Question::Symbols => symbols_of(alloc, text),
        Question::Definition(place) => definition_at(alloc, setup, uri, session, place),
    }
}

// The first of these texts that has this name.
fn find(texts: &[OpenText], uri: &str) -> Option<usize>
    ensures { IsFirstOf uri.now texts.now result }
{
    for i in 0..texts.len() {
        let is_it = uri == texts[i].uri.as_str();
        if is_it {
            return Some(i);
        }
    }
    None
}

// The name of the text that a note is about.
fn name_of<'a>(note: &Note<'a>) -> &'a str
    ensures { result.now ≡ name_of (note_view note.now) }
{
    match note {
        Note::Opened(uri, _, _) | Note::Edited(uri, _, _) | Note::Closed(uri) => uri,
    }
}

// Adds a message, if there is one.
fn push_message(messages: &mut Vec<Value>, message: Option<Value>) -> Result<(), AllocError>
    ensures { OnOk result (map view messages.new.items
        ≡ map view messages.old.items ++ listed (option_map view message)) }
{
    match message {
        Some(message) => Ok(messages.push(message)?),
        None => Ok(()),
    }
}

// Has the open text of this name count as it is now, or as it was at the start if it is not open.
// Answers whether texts may be given other definitions now.
fn replaced<S: Setup>(alloc: Global, setup: &mut S, texts: &[OpenText], uri: &str) -> bool
    ensures { result ≡ false → (name : List ℕ) (p : List Forest) → S.gives setup.old name p
        → S.gives setup.new name p }
{
    let text = match find(texts, uri) {
        Some(i) => Some(texts[i].session.text()),
        None => None,
    };
    match setup.replace(alloc, uri, text) {
        Ok(changed) => changed,
        Err(_) => true,
    }
}

impl<S: Setup> SessionWorkspace<S> {
    /// A workspace in which no text is open. `others` are the names of the texts that definitions
    /// come from, in order of their numbers, from 1.
    pub fn new(alloc: Global, setup: S, shown: Shown, others: Vec<String>) -> SessionWorkspace<S>
        ensures { documents_of result.texts.items ≡ [] }
    {
        SessionWorkspace {
            alloc,
            setup,
            shown,
            others,
            texts: Vec::new(alloc),
            asked: None,
        }
    }

    // The text of this name is no longer open.
    fn forget(&mut self, uri: &str)
        ensures texts { IsWithout uri.now self.old.texts.items self.new.texts.items }
        ensures shown { self.new.shown ≡ self.old.shown }
        ensures setup { self.new.setup ≡ self.old.setup }
    {
        if let Some(i) = find(self.texts.as_slice(), uri) {
            self.texts.remove(i);
        }
    }

    // A text that the client opened.
    fn opened(&self, uri: &str, version: i64, text: &str) -> Result<OpenText, Lost>
        ensures { IfOk result (IsOpened (S.gives self.now.setup)
            (record { uri = uri.now; version = version; text = text.now })) }
    {
        if text.len() > u32::MAX as usize {
            return Err(Lost::TooLong);
        }
        let session = session_over(self.alloc, &self.setup, uri, text)?;
        let uri = String::from_str(self.alloc, uri)?;
        Ok(OpenText {
            uri,
            version,
            session,
            is_read: false,
            earlier: None,
            told: None,
        })
    }

    // Opens a text.
    fn open(&mut self, uri: &str, version: i64, text: &str) -> Result<(), Lost>
        ensures ok { OnOk result ((t : OpenText)
            × (self.new.texts.items ≡ self.old.texts.items ++ t ∷ [])
            × IsOpened (S.gives self.old.setup)
            (record { uri = uri.now; version = version; text = text.now }) t) }
        ensures err { OnErr result (self.new.texts.items ≡ self.old.texts.items) }
        ensures shown { self.new.shown ≡ self.old.shown }
        ensures setup { self.new.setup ≡ self.old.setup }
    {
        let text = self.opened(uri, version, text)?;
        self.texts.push(text)?;
        Ok(())
    }

    // Changes the text of this name, if it is open. If that is refused, it is no longer open.
    fn edit(&mut self, uri: &str, version: i64, changes: &[Change<'_>]) -> Result<(), Lost>
        ensures ok { OnOk result (IsEdited uri.now version (map change_view changes.now)
            self.old.texts.items self.new.texts.items
            ⊎ (HaveNone uri.now self.old.texts.items
            × (self.new.texts.items ≡ self.old.texts.items))) }
        ensures err { OnErr result
            (IsWithout uri.now self.old.texts.items self.new.texts.items) }
        ensures shown { self.new.shown ≡ self.old.shown }
        ensures setup { self.new.setup ≡ self.old.setup }
    {
        let Some(i) = find(self.texts.as_slice(), uri) else {
            return Ok(());
        };
        let mut text = self.texts.remove(i);
        text.edit(self.alloc, version, changes)?;
        self.texts.insert(i, text)?;
        Ok(())
    }

    // What the client is sent at once, where this was done for the text of this name.
    fn answer(&self, uri: &str, done: Result<(), Lost>) -> Result<Option<Value>, AllocError>
        ensures { IfOk result (λ m. IsDone done (option_map view m)) }
    {
        match done {
            Ok(()) => Ok(None),
            Err(lost) => Ok(Some(loss_message(self.alloc, uri, lost)?)),
        }
    }

    // Opens a text in place of one of its name, and answers what the client is sent at once.
    fn open_anew(
        &mut self,
        uri: &str,
        version: i64,
        text: &str,
    ) -> Result<Option<Value>, AllocError>
        ensures starts { IfOk result (λ m. Starts (S.gives self.old.setup)
            (opened uri.now version text.now) self.old.texts.items self.new.texts.items
            (option_map view m)) }
        ensures shown { self.new.shown ≡ self.old.shown }
        ensures setup { self.new.setup ≡ self.old.setup }
    {
        self.forget(uri);
        let done = self.open(uri, version, text);
        self.answer(uri, done)
    }

    // Does what the client tells of a text, and answers what it is sent at once.
    fn start(&mut self, note: Note<'_>) -> Result<Option<Value>, AllocError>
        ensures starts { IfOk result (λ m. Starts (S.gives self.old.setup) (note_view note.entry)
            self.old.texts.items self.new.texts.items (option_map view m)) }
        ensures shown { self.new.shown ≡ self.old.shown }
        ensures setup { self.new.setup ≡ self.old.setup }
    {
        match note {
            Note::Opened(uri, version, text) => self.open_anew(uri, version, text),
            Note::Edited(uri, version, changes) => {
                let done = self.edit(uri, version, changes.as_slice());
                self.answer(uri, done)
            }
            Note::Closed(uri) => {
                self.forget(uri);
                let message = withdrawal(self.alloc, uri)?;
                Ok(Some(message))
            }
        }
    }

    // Gives a text its definitions anew, if they may be others than before.
    fn renew(&self, text: &mut OpenText, changed: bool) -> Result<(), Lost>
        ensures { OnOk result (IsOver (S.gives self.now.setup) changed text.old text.new) }
    {
        if changed {
            let prelude = self.setup.prelude(self.alloc, text.uri.as_str())?;
            text.session.set_prelude(prelude);
        }
        Ok(())
    }

    // What the client is sent for a text, if it is sent diagnostics at all.
    fn told(&self, text: &mut OpenText, is_own: bool) -> Result<Option<Value>, Lost>
        ensures { IfOk result (λ m. IsToldBy self.now.shown is_own text.old text.new
            (option_map view m)) }
    {
        match self.shown {
            Shown::All => text.tell(self.alloc, is_own),
            Shown::Nothing => Ok(None),
        }
    }

    // What the client is sent for a text, which it has changed itself or not, where definitions
    // may be others than before or not.
    fn refreshed(
        &self,
        text: &mut OpenText,
        is_own: bool,
        changed: bool,
    ) -> Result<Option<Value>, Lost>
        ensures { IfOk result (λ m. IsRefreshed (S.gives self.now.setup) self.now.shown is_own
            changed text.old text.new (option_map view m)) }
    {
        let stays = !is_own && !changed;
        if stays {
            return Ok(None);
        }
        self.renew(text, changed)?;
        self.told(text, is_own)
    }

    // Adds a text, and what the client is sent for it, where it told of the text of this name; or
    // what the user is shown, if there is no memory for it.
    fn push_refreshed(
        &mut self,
        text: OpenText,
        uri: &str,
        changed: bool,
        messages: &mut Vec<Value>,
    ) -> Result<(), AllocError>
        ensures added { OnOk result (AreRefreshed (S.gives self.old.setup) self.old.shown uri.now
            changed (text ∷ []) self.old.texts.items self.new.texts.items
            (map view messages.old.items) (map view messages.new.items)) }
        ensures shown { self.new.shown ≡ self.old.shown }
        ensures setup { self.new.setup ≡ self.old.setup }
    {
        let mut text = text;
        let is_own = uri == text.uri.as_str();
        match self.refreshed(&mut text, is_own, changed) {
            Ok(message) => {
                push_message(messages, message)?;
                self.texts.push(text)?;
            }
            Err(lost) => {
                let message = loss_message(self.alloc, text.uri.as_str(), lost)?;
                messages.push(message)?;
            }
        }
        Ok(())
    }

    // Asks for the names of the texts anew that definitions come from, if they may be others.
    fn rename(&mut self, changed: bool) -> Result<(), AllocError>
        ensures texts { self.new.texts.items ≡ self.old.texts.items }
        ensures shown { self.new.shown ≡ self.old.shown }
        ensures setup { self.new.setup ≡ self.old.setup }
    {
        if changed {
            self.others = self.setup.names(self.alloc)?;
        }
        Ok(())
    }

    // Adds what the client is sent for each open text, in order, where it told of the text of this
    // name.
    fn refresh(
        &mut self,
        uri: &str,
        changed: bool,
        messages: &mut Vec<Value>,
    ) -> Result<(), AllocError>
        ensures added { OnOk result (AreRefreshed (S.gives self.old.setup) self.old.shown uri.now
            changed self.old.texts.items [] self.new.texts.items
            (map view messages.old.items) (map view messages.new.items)) }
        ensures setup { self.new.setup ≡ self.old.setup }
    {
        let texts = replace(&mut self.texts, Vec::new(self.alloc));
        for text in texts {
            self.push_refreshed(text, uri, changed, messages)?;
        }
        Ok(())
    }
}

impl<S: Setup> Workspace for SessionWorkspace<S> {
    ghost documents = { λ w. documents_of w.texts.items };

    fn tell(&mut self, note: Note<'_>) -> Result<Vec<Value>, AllocError>
        ensures follows { IfOk result (λ messages. Follows (note_view note.entry)
            (documents_of self.old.texts.items) (documents_of self.new.texts.items)
            (map view messages.items)) }
        ensures told { IfOk result (λ messages. Tells (S.gives self.old.setup)
            (S.gives self.new.setup) self.old.shown (note_view note.entry)
            self.old.texts.items self.new.texts.items (map view messages.items)) }
        ensures settled { OnOk result (
            All (IsSettled (S.gives self.old.setup) self.old.shown) self.old.texts.items
            → All (IsSettled (S.gives self.new.setup) self.old.shown) self.new.texts.items) }
    {
        let uri = name_of(&note);
        let first = self.start(note)?;
        let mut messages = Vec::new(self.alloc);
        push_message(&mut messages, first)?;
        let changed = replaced(self.alloc, &mut self.setup, self.texts.as_slice(), uri);
        self.rename(changed)?;
        self.refresh(uri, changed, &mut messages)?;
        Ok(messages)
    }

    fn ask(&mut self, question: Question, uri: &str) -> Result<Option<Value>, AllocError>
        ensures same { documents_of self.new.texts.items ≡ documents_of self.old.texts.items }
        ensures answered { IfOk result (λ answer. IsAnswered question uri.now
            (map string_bytes self.old.others.items) self.old.texts.items
            (option_map view answer)) }
    {
        let Some(i) = find(self.texts.as_slice(), uri) else {
            return Ok(None);
        };
        let answer = answer_of(
            self.alloc,
            question,
            &self.setup,
            self.others.as_slice(),
            &self.texts[i],
            &mut self.asked,
        )?;
        Ok(Some(answer))
    }
}

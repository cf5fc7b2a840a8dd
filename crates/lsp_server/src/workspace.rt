//! What keeps the client's texts and answers about them.
ghost use Rattle.std.specs.Prelude.{◌≡◌, IfOk, List, map};
ghost use Rattle.serde_json.specs.View.{view};
ghost use Rattle.client_texts.specs.Texts.{Document};
ghost use Rattle.client_texts.specs.Views.{note_view};
ghost use Rattle.lsp_server.specs.Workspaces.{Follows};

use client_texts::Note;
use line_index::Position;
use serde_json::Value;
use std::alloc::AllocError;

/// What a client asks about a text.
#[derive(Clone, Copy, Debug, PartialEq, Eq)]
pub enum Question {
    /// What is shown for a place.
    Hover(Position),
    /// Where what is named at a place is defined.
    Definition(Position),
    /// Which definitions the text has.
    Symbols,
    /// What the call at a place expands to.
    Expansion(Position),
    /// What may be done at a place.
    Actions(Position),
    /// Which steps the call at a place has, and how many of them are wanted at most.
    Steps(Position, Option<u64>),
}

/// What keeps the client's texts and answers about them.
pub trait Workspace {
    /// The texts that are open, in the order in which they were opened.
    ghost documents: { Self → List Document };

    /// Does what the client tells of a text, and answers what it is told for it: the diagnostics of
    /// this text and of others, or that there was no memory for a text, so that it is no longer
    /// followed. An `Err` says that there is no memory even for that.
    fn tell(&mut self, note: Note<'_>) -> Result<Vec<Value>, AllocError>
        ensures { IfOk result (λ messages. Follows (note_view note.entry) (documents self.old)
            (documents self.new) (map view messages.items)) };

    /// Answers a question about the text of this name. `None` if no such text is open.
    fn ask(&mut self, question: Question, uri: &str) -> Result<Option<Value>, AllocError>
        ensures { documents self.new ≡ documents self.old };
}

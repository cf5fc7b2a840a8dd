//! What a call answers to C.
ghost use Rattle.std.specs.Prelude.{◌≡◌};
ghost use Rattle.filgordd_c.specs.Codes.{number, refused};

use expander::Refusal;

/// What a call answers.
#[derive(Clone, Copy, Debug, PartialEq, Eq)]
pub enum Code {
    /// It was done.
    Done,
    /// The text cannot be read as trees. The answer is its reading fault.
    Unread,
    /// There is no memory for it.
    Memory,
    /// There would be too many tokens.
    Tokens,
    /// Too many definitions would have got an id.
    Numbers,
    /// The handle holds no session.
    Closed,
    /// The bytes are not UTF-8.
    Utf8,
    /// A text would have more than 4,294,967,295 bytes.
    Length,
    /// There is no such edition.
    Edition,
    /// There is no such grammar.
    Grammar,
    /// An offset is within a character.
    Boundary,
    /// The range is not in the text, or ends before it starts.
    Range,
    /// The last answer is not of this kind, or there is none.
    Nothing,
    /// There is nothing of this index.
    Index,
    /// There is not enough room.
    Room,
    /// The word cannot stand for a crate.
    Root,
    /// There is no source of this number, or there can be none.
    Source,
    /// There are no such rules of scopes.
    Scope,
    /// A word names no option for conditional compilation.
    Cfg,
}

impl Code {
    /// Its number.
    pub(crate) fn number(self) -> u32
        ensures { result ≡ number self }
    {
        match self {
            Code::Done => 0,
            Code::Unread => 1,
            Code::Memory => 2,
            Code::Tokens => 3,
            Code::Numbers => 4,
            Code::Closed => 5,
            Code::Utf8 => 6,
            Code::Length => 7,
            Code::Edition => 8,
            Code::Grammar => 9,
            Code::Boundary => 10,
            Code::Range => 11,
            Code::Nothing => 12,
            Code::Index => 13,
            Code::Room => 14,
            // 15 is that of a null pointer, which the header alone answers.
            Code::Root => 16,
            Code::Source => 17,
            Code::Scope => 18,
            Code::Cfg => 19,
        }
    }
}

/// The code of a refusal.
pub(crate) fn refused(refusal: Refusal) -> Code
    ensures { result ≡ refused refusal }
{
    match refusal {
        Refusal::Memory => Code::Memory,
        Refusal::Tokens => Code::Tokens,
        Refusal::Numbers => Code::Numbers,
    }
}

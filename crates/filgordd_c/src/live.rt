//! A session with its last answer: what a handle of C's holds.
ghost use Rattle.std.specs.Prelude.{◌≡◌, ◌<◌, ◌^◌, length, IfOk, IfErr, IsUtf8, MatchResult};
ghost use Rattle.filgordd_c.specs.Calls.{BoundaryTold, CannotOpen, EditTold, ExpandTold, FitTold};
ghost use Rattle.filgordd_c.specs.Calls.{IsHome, IsNew, IsSource, NoHome, NoSource, NoText};
ghost use Rattle.filgordd_c.specs.Calls.{PreludeTold, SourceAdded, dialect_of, edition_of};
ghost use Rattle.filgordd_c.specs.Calls.{grammar_of, limit_of, limits_of};
ghost use Rattle.filgordd_c.specs.Words.{PositionTold};

use crate::answers::{SourceTold, told_unread};
use crate::code::{Code, refused};
use crate::options::SessionOptions;
use crate::position::Position;
use crate::sources::{Pick, Sources};
use any_grammar::AnyGrammar;
use cfg_options::CfgOptions;
use expander::{
    Dialect, Edition, Expansion, Home, Limits, ReadFault, Reply, Session, Source, SourceRead,
};
use expander_run::lines::{FIRST, spot_of};
use std::alloc::{AllocError, Global};
use tt_data::TtFault;

/// The last answer of a session.
#[derive(Drop)]
pub enum Answer {
    /// There was none yet.
    Nothing,
    /// The text was read and expanded.
    Read(Expansion),
    /// The text cannot be read.
    Unread(ReadFault),
}

/// A session, its last answer, and the sources that its prelude may be picked out of.
#[derive(Drop)]
pub struct Live {
    pub session: Session<AnyGrammar>,
    pub answer: Answer,
    /// Whether the text was expanded, and not edited since.
    pub is_current: bool,
    pub sources: Sources,
}

/// A text that is to be a source, as C hands it over: its number, the root and the edition of the
/// crate that it belongs to, and its bytes. Without a root it is of the crate of the session's
/// text.
#[derive(Clone, Copy)]
pub(crate) struct Given<'a> {
    pub number: u32,
    pub root: &'a [u8],
    pub edition: u32,
    pub text: &'a [u8],
}

// The edition of a year.
fn edition_of(year: u32) -> Option<Edition>
    ensures { result ≡ edition_of year }
{
    match year {
        2015 => Some(Edition::Edition2015),
        2018 => Some(Edition::Edition2018),
        2021 => Some(Edition::Edition2021),
        2024 => Some(Edition::Edition2024),
        _ => None,
    }
}

// The grammar of a number, which is of this edition.
fn grammar_of(number: u32, edition: Edition) -> Option<AnyGrammar>
    ensures { result ≡ grammar_of number edition }
{
    match number {
        0 => Some(AnyGrammar::Small),
        1 => Some(AnyGrammar::Rust(edition)),
        _ => None,
    }
}

// A number as a limit.
fn limit_of(n: usize) -> usize
    ensures { result ≡ limit_of n }
{
    if n == 0 { usize::MAX } else { n }
}

// How much one call may make, if a number limits it.
fn limits_of(options: &SessionOptions) -> Option<Limits>
    ensures { result ≡ limits_of options.now }
{
    if options.calls == 0 && options.tokens == 0 {
        return None;
    }
    Some(Limits {
        calls: limit_of(options.calls),
        tokens: limit_of(options.tokens),
    })
}

// The dialect of a number of rules of scopes.
fn dialect_of(number: u32) -> Option<Dialect>
    ensures { result ≡ dialect_of number }
{
    match number {
        0 => Some(Dialect::top_level()),
        1 => Some(Dialect::rust()),
        _ => None,
    }
}

/// Bytes as a text of at most `u32::MAX` bytes.
pub(crate) fn text_in(bytes: &[u8]) -> Result<&str, Code>
    ensures text { IfOk result (λ text. (text.now ≡ bytes.now) × (length bytes.now < 2 ^ 32)) }
    ensures no_text { IfErr result (NoText bytes.now) }
{
    if bytes.len() > 0xffff_ffff {
        return Err(Code::Length);
    }
    match std::str::from_utf8(bytes) {
        Ok(text) => Ok(text),
        Err(_) => Err(Code::Utf8),
    }
}

// The home with this root and edition. None without a root.
fn home_of(alloc: Global, root: &[u8], edition: u32) -> Result<Option<Home>, Code>
    ensures home { IfOk result (IsHome root.now edition) }
    ensures no_home { IfErr result (NoHome root.now edition) }
{
    if root.is_empty() {
        return Ok(None);
    }
    let Some(edition) = edition_of(edition) else {
        return Err(Code::Edition);
    };
    let root = text_in(root)?;
    match Home::new(alloc, root, edition) {
        Ok(Some(home)) => Ok(Some(home)),
        Ok(None) => Err(Code::Root),
        Err(_) => Err(Code::Memory),
    }
}

// What a text is read as.
fn read_source(alloc: Global, given: &Given<'_>) -> Result<SourceRead, Code>
    ensures read { IfOk result
        (IsSource given.now.number given.now.root.now given.now.edition given.now.text.now) }
    ensures why { IfErr result
        (NoSource given.now.number given.now.root.now given.now.edition given.now.text.now) }
{
    if given.number == 0 {
        return Err(Code::Source);
    }
    let home = home_of(alloc, given.root, given.edition)?;
    let text = text_in(given.text)?;
    match Source::new(alloc, text, given.number, home) {
        Ok(read) => Ok(read),
        Err(TtFault::Tokens) => Err(Code::Tokens),
        Err(_) => Err(Code::Memory),
    }
}

impl Live {
    /// A session over a copy of the text, under a set of options for conditional compilation, or
    /// without one. Nothing is expanded yet.
    pub(crate) fn new(
        alloc: Global,
        text: &[u8],
        options: &SessionOptions,
        cfg: Option<CfgOptions>,
    ) -> Result<Live, Code>
        ensures new { IfOk result (IsNew text.now options.now cfg) }
        ensures why { IfErr result (CannotOpen text.now options.now) }
    {
        let Some(edition) = edition_of(options.edition) else {
            return Err(Code::Edition);
        };
        let Some(grammar) = grammar_of(options.grammar, edition) else {
            return Err(Code::Grammar);
        };
        let Some(dialect) = dialect_of(options.scope) else {
            return Err(Code::Scope);
        };
        let Dialect {
            scope,
            items,
            excuses,
            ..
        } = dialect;
        let dialect = Dialect {
            scope,
            items,
            cfg,
            limits: limits_of(options),
            excuses,
        };
        let text = text_in(text)?;
        match Session::with_dialect(alloc, text, grammar, edition, dialect, options.depth) {
            Ok(session) => Ok(Live {
                session,
                answer: Answer::Nothing,
                is_current: false,
                sources: Sources::new(alloc),
            }),
            Err(_) => Err(Code::Memory),
        }
    }

    /// Whether the offset `at` is a character boundary of the text, its end included.
    pub(crate) fn is_boundary(&self, at: usize) -> Code
        ensures { BoundaryTold self.now.session.text at result }
    {
        if at > self.session.text().len() {
            return Code::Range;
        }
        if !self.session.is_boundary(at) {
            return Code::Boundary;
        }
        Code::Done
    }

    /// Whether the text has these bytes, and at most `u32::MAX` after `len` bytes replace them.
    pub(crate) fn fits(&self, start: usize, end: usize, len: usize) -> Code
        ensures { FitTold self.now.session.text start «end» len result }
    {
        if start > end || end > self.session.text().len() {
            return Code::Range;
        }
        if !self.session.fits(start, end, len) {
            return Code::Length;
        }
        Code::Done
    }

    /// The line and byte column of the offset `at`, counted from the beginning of the text.
    pub(crate) fn position(&self, at: usize, into: &mut Position) -> Code
        ensures { PositionTold self.now.session.text at into.old into.new result }
    {
        let text = self.session.text().as_bytes();
        if text.len() > 0xffff_ffff {
            return Code::Length;
        }
        if at > text.len() {
            return Code::Range;
        }
        let spot = spot_of(text, FIRST, at as u32);
        *into = Position {
            line: spot.line,
            column: spot.column,
        };
        Code::Done
    }

    /// Replaces the bytes from `start` to `end`. The last answer stays.
    pub(crate) fn edit(&mut self, start: usize, end: usize, replacement: &[u8]) -> Code
        ensures { EditTold start «end» replacement.now self.old self.new result }
    {
        match self.fits(start, end, replacement.len()) {
            Code::Done => {}
            code => return code,
        }
        if !(self.session.is_boundary(start) && self.session.is_boundary(end)) {
            return Code::Boundary;
        }
        let Ok(replacement) = std::str::from_utf8(replacement) else {
            return Code::Utf8;
        };
        match self.session.edit(start, end, replacement) {
            Ok(()) => {
                self.is_current = false;
                Code::Done
            }
            Err(_) => Code::Memory,
        }
    }

    /// Expands the text, and keeps the answer in place of the last one.
    pub(crate) fn expand(&mut self) -> Code
        ensures { ExpandTold self.old self.new result }
    {
        match self.session.expansion() {
            Ok(Reply::Read(expansion)) => {
                self.answer = Answer::Read(expansion);
                self.is_current = true;
                Code::Done
            }
            Ok(Reply::Unread(fault)) => {
                self.answer = Answer::Unread(fault);
                self.is_current = true;
                Code::Unread
            }
            Err(refusal) => refused(refusal),
        }
    }

    /// Reads a text as a source, and keeps it in place of the one of its number. The prelude stays.
    pub(crate) fn source(&mut self, alloc: Global, given: &Given<'_>, into: &mut SourceTold) -> Code
        ensures { SourceAdded given.now.number given.now.root.now given.now.edition
            given.now.text.now into.old into.new self.old self.new result }
    {
        let source = match read_source(alloc, given) {
            Ok(SourceRead::Read(source)) => source,
            Ok(SourceRead::Unread(fault)) => {
                into.fault = told_unread(fault);
                return Code::Unread;
            }
            Err(code) => return code,
        };
        let definitions = source.len();
        match self.sources.put(source) {
            Ok(()) => {
                into.definitions = definitions;
                Code::Done
            }
            Err(AllocError) => Code::Memory,
        }
    }

    /// Has the text expanded after these definitions, from the next expansion on.
    pub(crate) fn prelude(&mut self, alloc: Global, picks: &[Pick]) -> Code
        ensures { PreludeTold picks.now self.old self.new result }
    {
        match self.sources.prelude(alloc, picks) {
            Ok(prelude) => {
                self.session.set_prelude(prelude);
                Code::Done
            }
            Err(code) => code,
        }
    }
}

//! Reads the texts whose definitions a text is expanded after.
ghost use Rattle.std.specs.Prelude.{◌≡◌, ◌≤◌, ◌<◌, ◌+◌, ◌^◌, length, IfOk};

use crate::files::{misused, opened, read_whole, refused};
use crate::library::{CRATES, FILES, edition_in};
use crate::other::{Other, other_of};
use crate::picks::push_before;
use crate::source::blank_front;
use bridge::ReadFault;
use expander_run::lines::{FIRST, push_line, read_fault_words, spot_of};
use expander_sources::home::Home;
use expander_sources::prelude::Prelude;
use expander_sources::source::{Source, SourceRead};
use std::alloc::{AllocError, AllocFailed, Global};
use std::process::ExitCode;
use std::{fs, io};
use tt_data::{Edition, TtFault};

/// The words for what else is read: all but the texts that work is done on.
#[derive(Clone, Copy, Drop)]
pub struct OtherWords<'a> {
    /// The folder of the libraries whose definitions come first.
    pub library: Option<&'a str>,
    /// The words for the other files, in order.
    pub with: &'a [&'a str],
    /// The words for other crates, in order.
    pub externs: &'a [&'a str],
}

/// The definitions that a text is expanded after.
#[derive(Drop)]
pub struct Others {
    pub prelude: Prelude,
    /// The names of the files that they come from, in order of the sources' numbers, from 1.
    pub names: Vec<String>,
}

/// A file that was read: its name as it was given, and its text.
#[derive(Drop)]
pub(crate) struct Loaded {
    pub(crate) name: String,
    pub(crate) text: String,
    /// The text that counts in place of it, if there is one.
    pub(crate) other: Option<String>,
}

/// The sources whose definitions texts are expanded after, with numbers from 1 in this order.
#[derive(Drop)]
pub struct Sources {
    /// The files of the library.
    pub(crate) library: Vec<Source>,
    /// The crates of the library.
    pub(crate) homes: Vec<Home>,
    /// Other files.
    pub(crate) with: Vec<Source>,
    /// All these files, in order.
    pub(crate) files: Vec<Loaded>,
}

impl Loaded {
    /// The text that counts.
    pub(crate) fn text_now(&self) -> &str {
        match &self.other {
            Some(other) => other.as_str(),
            None => self.text.as_str(),
        }
    }
}

/// A file that definitions come from.
#[derive(Clone, Copy, Drop)]
pub struct Origin<'a> {
    /// Its path: of a file of the library, below the library's folder.
    pub name: &'a str,
    /// Its text, as it counts.
    pub text: &'a str,
    /// Whether it is a file of the library.
    pub is_library: bool,
}

/// Why the program ends before it reads its text.
#[derive(Drop)]
pub enum Ended {
    /// What is wrong was reported, and this is the status.
    Status(ExitCode),
    /// It could not be reported, or there is no memory.
    Failed(io::Error),
}

impl From<io::Error> for Ended {
    fn from(error: io::Error) -> Ended {
        Ended::Failed(error)
    }
}

impl From<AllocError> for Ended {
    fn from(error: AllocError) -> Ended {
        Ended::Failed(io::Error::from(error))
    }
}

impl<T: Drop> From<AllocFailed<T>> for Ended {
    fn from(error: AllocFailed<T>) -> Ended {
        Ended::from(AllocError::from(error))
    }
}

// The end where a word or the file that it names is wrong.
fn misuse<T>(rt: &HostRuntime, what: &str, why: &str) -> Result<T, Ended> {
    Err(Ended::Status(misused(rt, what, &why)?))
}

/// The end where a file that was opened is no text whose definitions can be had.
pub fn refusal<T>(rt: &HostRuntime, path: &str, why: &str) -> Result<T, Ended> {
    Err(Ended::Status(refused(rt, path, why)?))
}

/// What a file is refused for: many tokens, or else memory.
pub fn fault_words(fault: TtFault) -> &'static str {
    match fault {
        TtFault::Tokens => "too many tokens",
        _ => "out of memory",
    }
}

// The bytes of a file, in which what is no code is blank.
fn bytes_of(rt: &HostRuntime, path: &str) -> Result<Vec<u8>, Ended> {
    let file = match opened(rt, path) {
        Ok(file) => file,
        Err(error) => return Err(Ended::Status(misused(rt, path, &error)?)),
    };
    match read_whole(rt.alloc(), file) {
        Ok(mut bytes) => {
            blank_front(bytes.as_mut_slice());
            Ok(bytes)
        }
        Err(why) => refusal(rt, path, why),
    }
}

// The line that reports a reading fault.
fn fault_line(alloc: Global, text: &str, fault: &ReadFault) -> Result<String, AllocError>
    requires { length text.now < 2 ^ 32 }
{
    let mut line = String::new(alloc);
    let spot = spot_of(text.as_bytes(), FIRST, fault.range.start);
    push_line(&mut line, spot, read_fault_words(fault.kind))?;
    Ok(line)
}

// The source with this number that a file's text is.
fn text_source(
    rt: &HostRuntime,
    number: u32,
    home: Option<Home>,
    path: &str,
    text: &str,
) -> Result<Source, Ended>
    requires { 1 ≤ number }
{
    if text.len() > u32::MAX as usize {
        return refusal(rt, path, "input is too long");
    }
    match Source::new(rt.alloc(), text, number, home) {
        Ok(SourceRead::Read(source)) => Ok(source),
        Ok(SourceRead::Unread(fault)) => {
            let line = fault_line(rt.alloc(), text, &fault)?;
            refusal(rt, path, line.as_str())
        }
        Err(fault) => refusal(rt, path, fault_words(fault)),
    }
}

// The source with this number that a file is. It is kept under this name.
fn file_source(
    rt: &HostRuntime,
    number: u32,
    home: Option<Home>,
    path: &str,
    name: &str,
    files: &mut Vec<Loaded>,
) -> Result<Source, Ended>
    requires { 1 ≤ number }
{
    let bytes = bytes_of(rt, path)?;
    let Ok(text) = String::from_utf8(bytes) else {
        return refusal(rt, path, "input is not UTF-8");
    };
    let source = text_source(rt, number, home, path, text.as_str())?;
    let name = String::from_str(rt.alloc(), name)?;
    files.push(Loaded {
        name,
        text,
        other: None,
    })?;
    Ok(source)
}

// The edition of a crate of the library: 2024 where its manifest names none.
fn crate_edition(rt: &HostRuntime, folder: &str, name: &str) -> Result<Edition, Ended> {
    let path = format!(in rt.alloc(); "{folder}/{name}/Cargo.toml")?;
    match fs::read_to_string(rt, path.as_str()) {
        Ok(manifest) => Ok(edition_in(manifest.as_str()).unwrap_or(Edition::Edition2024)),
        Err(_) => Ok(Edition::Edition2024),
    }
}

// The home of a crate of the library.
fn crate_home(rt: &HostRuntime, folder: &str, name: &str) -> Result<Home, Ended> {
    let edition = crate_edition(rt, folder, name)?;
    match Home::new(rt.alloc(), name, edition)? {
        Some(home) => Ok(home),
        None => misuse(rt, name, "no name of a crate"),
    }
}

// The homes of the crates of the library.
fn crate_homes(rt: &HostRuntime, folder: &str) -> Result<Vec<Home>, Ended> {
    let mut homes = Vec::new(rt.alloc());
    for name in &CRATES {
        homes.push(crate_home(rt, folder, name)?)?;
    }
    Ok(homes)
}

// The crate of a file of the library, among these.
fn home_of(alloc: Global, homes: &[Home], file: &str) -> Result<Option<Home>, AllocError> {
    for home in homes {
        if file.starts_with(home.root()) {
            return Ok(Some(home.try_clone(alloc)?));
        }
    }
    Ok(None)
}

// Adds the library in this folder. Its sources have the numbers from 1 on.
fn load_library(rt: &HostRuntime, sources: &mut Sources, folder: &str) -> Result<(), Ended> {
    sources.homes = crate_homes(rt, folder)?;
    for i in 0..FILES.len() {
        let file = FILES[i];
        let path = format!(in rt.alloc(); "{folder}/{file}")?;
        let home = home_of(rt.alloc(), sources.homes.as_slice(), file)?;
        let number = i as u32 + 1;
        let files = &mut sources.files;
        let source = file_source(rt, number, home, path.as_str(), file, files)?;
        sources.library.push(source)?;
    }
    Ok(())
}

// Adds the file that a word names, as the source with this number.
fn load_file(rt: &HostRuntime, sources: &mut Sources, number: u32, word: &str) -> Result<(), Ended>
    requires { 1 ≤ number }
{
    let (home, path) = match other_of(rt.alloc(), word)? {
        Other::File(home, path) => (home, path),
        Other::BadRoot(root) => return misuse(rt, word, "this root is no name of a crate"),
        Other::BadEdition(year) => return misuse(rt, word, "there is no such edition"),
    };
    let source = file_source(rt, number, home, path, path, &mut sources.files)?;
    sources.with.push(source)?;
    Ok(())
}

/// The number of the next source.
pub(crate) fn after(number: u32) -> Result<u32, AllocError>
    ensures { IfOk result (λ n. n ≡ number + 1) }
{
    match number.checked_add(1) {
        Some(next) => Ok(next),
        None => Err(AllocError),
    }
}

/// The sources whose definitions texts are expanded after: the library's files, and then
/// the other files in the order of their words.
pub fn sources_of(rt: &HostRuntime, words: OtherWords<'_>) -> Result<Sources, Ended> {
    let mut sources = Sources {
        library: Vec::new(rt.alloc()),
        homes: Vec::new(rt.alloc()),
        with: Vec::new(rt.alloc()),
        files: Vec::new(rt.alloc()),
    };
    let mut last = 0;
    if let Some(folder) = words.library {
        load_library(rt, &mut sources, folder)?;
        last = FILES.len() as u32;
    }
    for word in words.with {
        last = after(last)?;
        load_file(rt, &mut sources, last, word)?;
    }
    Ok(sources)
}

/// The definitions of sources, as a prelude.
pub fn prelude_of(alloc: Global, sources: &Sources) -> Result<Prelude, TtFault> {
    let mut prelude = Prelude::new(alloc);
    let library = sources.library.as_slice();
    let homes = sources.homes.as_slice();
    push_before(alloc, &mut prelude, library, homes, sources.with.as_slice())?;
    Ok(prelude)
}

/// The file that the source of this index, from 0, comes from, if there is one.
pub fn origin_of(sources: &Sources, index: usize) -> Option<Origin<'_>> {
    let loaded = sources.files.get(index)?;
    Some(Origin {
        name: loaded.name.as_str(),
        text: loaded.text_now(),
        is_library: index < sources.library.len(),
    })
}

/// The names of the files that sources come from, in order of the sources' numbers, from 1.
pub fn names_of(alloc: Global, sources: &Sources) -> Result<Vec<String>, AllocError> {
    let mut names = Vec::new(alloc);
    for file in &sources.files {
        names.push(String::from_str(alloc, file.name.as_str())?)?;
    }
    Ok(names)
}

/// The definitions of the library and of the other files, that a text is expanded after.
pub fn others_of(rt: &HostRuntime, words: OtherWords<'_>) -> Result<Others, Ended> {
    let sources = sources_of(rt, words)?;
    let names = names_of(rt.alloc(), &sources)?;
    match prelude_of(rt.alloc(), &sources) {
        Ok(prelude) => Ok(Others { prelude, names }),
        Err(fault) => refusal(rt, "definitions of other files", fault_words(fault)),
    }
}

//! Calls that hand modules on. What they hand on counts as items of their file, so that its files
//! are entered too.
ghost use Rattle.std.specs.Prelude.{◌≡◌, ◌<◌, ◌^◌, length};
ghost use Rattle.bridge.specs.PrintedRanges.{read_ranges};

use crate::disk::Disk;
use crate::lacking::text_of;
use crate::load::{Ended, fault_words, refusal};
use crate::module_ends::ranges_in;
use crate::replaced::Replaced;
use crate::whole::{Whole, prelude_of_file};
use cfg_options::CfgOptions;
use crate_items::{Extents, Outline, content_of, content_of_bytes, extents_of, open_calls};
use crate_walk::{Content, Files, Modules};
use expander_run::expander_session::session::Expansion;
use expander_sources::prelude::Prelude;
use std::alloc::{AllocError, Global};
use std::collections::BTreeMap;
use tt_data::TextRange;

/// Expands the texts of a crate's files.
pub trait Expands {
    /// The expansion of a text after these definitions. `None` if there is none.
    fn expansion(&self, prelude: Prelude, text: &str) -> Result<Option<Expansion>, Ended>
        requires { length text.now < 2 ^ 32 };
}

/// The texts of the files with calls that hand modules on, with these calls opened, by the names of
/// the files.
pub(crate) type Opened = BTreeMap<String, Vec<u8>>;

/// The files of a crate once more, after a walk. What is in opened calls counts.
#[derive(Drop)]
pub(crate) struct Again<'a> {
    pub(crate) disk: &'a Disk<'a>,
    pub(crate) before: &'a Modules,
    // The numbers that files had in the walk before, by their names.
    pub(crate) numbers: BTreeMap<String, usize>,
    pub(crate) opened: &'a Opened,
    pub(crate) replaced: &'a Replaced,
}

// What modules of an expansion come from: the offsets of their names, and where their tokens are,
// in the text that was expanded.
#[derive(Drop)]
struct HandedOn {
    names: Vec<u32>,
    tokens: Vec<TextRange>,
}

impl Again<'_> {
    // What a file has that has this text, by what is in opened calls of it.
    fn read_again(&self, alloc: Global, name: &str, text: &str) -> Result<Content, AllocError> {
        let text = String::from_str(alloc, text)?;
        let Some(bytes) = self.opened.get(name) else {
            return content_of(alloc, self.disk.options, text);
        };
        let bytes = Vec::from_slice(alloc, bytes.as_slice())?;
        match content_of_bytes(alloc, self.disk.options, bytes)? {
            Content::Text(_, events) => Ok(Content::Text(text, events)),
            Content::Unread(why) => Ok(Content::Unread(why)),
        }
    }
}

impl<'a> Files for Again<'a> {
    ghost finds = { λ _ _ _. Unit {0} };

    ghost reads = { λ _ _ _. Unit {0} };

    fn find(&self, alloc: Global, path: &str) -> Result<Option<String>, AllocError> {
        self.disk.find(alloc, path)
    }

    fn read(&self, alloc: Global, name: &str) -> Result<Content, AllocError> {
        if let Some(text) = self.replaced.text(name) {
            return self.read_again(alloc, name, text);
        }
        let Some(file) = self.numbers.get(name) else {
            return self.disk.read(alloc, name);
        };
        match self.before.content(*file) {
            Some(Content::Text(text, _)) => self.read_again(alloc, name, text.as_str()),
            Some(Content::Unread(why)) => Ok(Content::Unread(*why)),
            None => self.disk.read(alloc, name),
        }
    }
}

// Where the printed token of this index comes from in the text, if it does.
fn own_range(expansion: &Expansion, i: usize) -> Option<TextRange>
    requires { i < length expansion.now.origins }
{
    match expansion.source(i) {
        Some(origin) if origin.text == 0 => Some(origin.range),
        _ => None,
    }
}

// The byte at an offset of the printed text, or 0 behind it.
fn byte_at(expansion: &Expansion, at: u32) -> u8 {
    match expansion.printed().as_bytes().get(at as usize) {
        Some(byte) => *byte,
        None => 0,
    }
}

// How far the tokens of a module were passed: how deep in brackets the next one is, and whether the
// last one is kept.
#[derive(Clone, Copy)]
struct Passed {
    depth: usize,
    keeps: bool,
}

impl Passed {
    // Before the first token.
    fn none() -> Passed {
        Passed {
            depth: 0,
            keeps: true,
        }
    }

    // Behind one more token, which begins with this byte. An attribute is kept if its `#` comes
    // from the text, and all else is.
    fn behind(self, byte: u8, is_own: bool) -> Passed {
        let keeps = if self.depth == 0 && byte != b'[' {
            byte != b'#' || is_own
        } else {
            self.keeps
        };
        let depth = match byte {
            b'(' | b'[' | b'{' => self.depth.saturating_add(1),
            b')' | b']' | b'}' => self.depth.saturating_sub(1),
            _ => self.depth,
        };
        Passed { depth, keeps }
    }
}

impl HandedOn {
    // Adds where a token of a module comes from in the text. `is_name` says whether it is the name.
    fn push(&mut self, range: TextRange, is_name: bool) -> Result<(), AllocError> {
        if is_name {
            self.names.push(range.start)?;
        }
        Ok(self.tokens.push(range)?)
    }
}

// What these modules of an expansion come from. Its tokens are at these ranges of the printed text.
fn handed_on(
    alloc: Global,
    expansion: &Expansion,
    outlines: &[Outline],
    ranges: &[TextRange],
) -> Result<HandedOn, AllocError>
    requires count { length ranges.now ≡ length expansion.now.origins }
{
    let mut handed = HandedOn {
        names: Vec::new(alloc),
        tokens: Vec::new(alloc),
    };
    let (mut next, mut passed) = (0, Passed::none());
    for i in 0..ranges.len() {
        let start = ranges[i].start;
        while next < outlines.len() && outlines[next].range.end <= start {
            (next, passed) = (next + 1, Passed::none());
        }
        let Some(outline) = outlines.get(next) else {
            break;
        };
        if outline.range.start <= start {
            let own = own_range(expansion, i);
            passed = passed.behind(byte_at(expansion, start), own.is_some());
            if let (Some(range), true) = (own, passed.keeps) {
                handed.push(range, outline.name == start)?;
            }
        }
    }
    Ok(handed)
}

// The calls in which one of these offsets lies, which are in order.
fn calls_around(
    alloc: Global,
    calls: &[TextRange],
    names: &[u32],
) -> Result<Vec<TextRange>, AllocError> {
    let mut around = Vec::new(alloc);
    for call in calls {
        let (Ok(i) | Err(i)) = names.binary_search(&call.start);
        if let Some(name) = names.get(i) {
            if *name < call.end {
                around.push(*call)?;
            }
        }
    }
    Ok(around)
}

// The text with those of these calls opened that hand modules on in this expansion. `None` if there
// is none.
fn opened_text(
    alloc: Global,
    options: &CfgOptions,
    text: &str,
    expansion: &Expansion,
    calls: &[TextRange],
) -> Result<Option<Vec<u8>>, AllocError> {
    let printed = expansion.printed();
    if printed.len() > u32::MAX as usize {
        return Ok(None);
    }
    let Some(extents) = extents_of(alloc, options, printed)? else {
        return Ok(None);
    };
    let ranges = ranges_in(alloc, expansion)?;
    let outlines = extents.outlines.as_slice();
    let mut handed = handed_on(alloc, expansion, outlines, ranges.as_slice())?;
    handed.names.sort_unstable();
    let around = calls_around(alloc, calls, handed.names.as_slice())?;
    if around.is_empty() {
        return Ok(None);
    }
    let tokens = handed.tokens.as_slice();
    Ok(Some(open_calls(alloc, text.as_bytes(), around.as_slice(), tokens)?))
}

// Those of these calls of a text that may hand modules on: they have the word `mod`.
fn calls_with_modules(
    alloc: Global,
    text: &str,
    calls: &[TextRange],
) -> Result<Vec<TextRange>, AllocError> {
    let mut all = Vec::new(alloc);
    for call in calls {
        match text.get(call.start as usize..call.end as usize) {
            Some(part) if part.contains("mod") => all.push(*call)?,
            _ => {}
        }
    }
    Ok(all)
}

// The calls of a file of a crate that may hand modules on.
fn file_calls(
    alloc: Global,
    options: &CfgOptions,
    text: &str,
) -> Result<Vec<TextRange>, AllocError> {
    if text.len() > u32::MAX as usize {
        return Ok(Vec::new(alloc));
    }
    match extents_of(alloc, options, text)? {
        Some(Extents { calls, .. }) => calls_with_modules(alloc, text, calls.as_slice()),
        None => Ok(Vec::new(alloc)),
    }
}

// The text of a file of a crate with those of these calls opened that hand modules on, if there are
// some.
fn opened_file(
    rt: &HostRuntime,
    options: &CfgOptions,
    whole: &Whole,
    expands: &impl Expands,
    file: usize,
    calls: &[TextRange],
) -> Result<Option<Vec<u8>>, Ended> {
    let text = text_of(&whole.walked.modules, file);
    if text.len() > u32::MAX as usize {
        return Ok(None);
    }
    let prelude = match prelude_of_file(rt.alloc(), whole, file) {
        Ok(prelude) => prelude,
        Err(fault) => return refusal(rt, "definitions of other files", fault_words(fault)),
    };
    let Some(expansion) = expands.expansion(prelude, text)? else {
        return Ok(None);
    };
    Ok(opened_text(rt.alloc(), options, text, &expansion, calls)?)
}

/// The texts of the files of a crate with calls that hand modules on, with these calls opened; and
/// whether there are calls that may do so.
pub(crate) fn opened_files(
    rt: &HostRuntime,
    options: &CfgOptions,
    whole: &Whole,
    expands: &impl Expands,
) -> Result<(Opened, bool), Ended> {
    let mut all = BTreeMap::new(rt.alloc());
    let mut may_hand_on = false;
    let modules = &whole.walked.modules;
    for file in 0..modules.file_count() {
        let calls = file_calls(rt.alloc(), options, text_of(modules, file))?;
        if calls.is_empty() {
            continue;
        }
        may_hand_on = true;
        let opened = opened_file(rt, options, whole, expands, file, calls.as_slice())?;
        if let (Some(text), Some(name)) = (opened, modules.file_name(file)) {
            all.insert(String::from_str(rt.alloc(), name)?, text)?;
        }
    }
    Ok((all, may_hand_on))
}

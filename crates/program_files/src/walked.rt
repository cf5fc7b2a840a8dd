//! A crate on the disk, from its root.
ghost use Rattle.std.specs.Prelude.{◌≡◌, ◌≤◌, IfOk, true};
ghost use Rattle.crate_walk.specs.Closing.{closes};
ghost use Rattle.crate_walk.specs.Modules.{steps_of};
ghost use Rattle.crate_walk.specs.WholeTexts.{IsWhole};

use crate::files::{misused, opened};
use crate::imports::{Import, Imports};
use crate::lacking::text_of;
use crate::load::{Ended, after, fault_words, refusal};
use crate::renamed::{home_of, push_renamed};
use crate_imports::offers_of;
use crate_picks::{Definitions, FilePicks, push_places};
use crate_walk::{
    Content, Event, FileText, Files, MacroItem, Modules, joined, textual_picks, walk_crate,
};
use expander_sources::home::Home;
use expander_sources::prelude::Prelude;
use expander_sources::source::{Source, SourceRead};
use std::alloc::{AllocError, Global};
use std::process::ExitCode;
use tt_data::TtFault;

// How many files are entered besides the root.
const MOST_FILES: usize = 100_000;

/// A crate: its modules, the definitions of each file that has some, what each file sees by its
/// place, and what it imports.
#[derive(Drop)]
pub struct Walked {
    pub modules: Modules,
    pub(crate) definitions: Vec<Option<Definitions>>,
    pub(crate) seen: FilePicks,
    pub(crate) imports: Imports,
    ghost ended: { closes 1 (steps_of modules) ≡ true },
}

impl Walked {
    /// The whole crate as one text: that of the root, in which the text of each file that was
    /// entered stands in braces in the place of its module's `;`. These are the texts of the files,
    /// in the order of their numbers. A module stays as it is where its file has no text.
    pub fn whole_text(
        &self,
        alloc: Global,
        texts: &[Option<FileText>],
    ) -> Result<Vec<u8>, AllocError>
        ensures { IfOk result (λ out.
            IsWhole texts.now (steps_of self.now.modules) out.items) }
    {
        joined(alloc, self.modules.steps(), texts)
    }

    // Adds a definition under the name of an import, which is another.
    fn push_other_name(
        &self,
        alloc: Global,
        import: &Import,
        item: &MacroItem,
        prelude: &mut Prelude,
    ) -> Result<(), TtFault> {
        let file = import.place.file;
        let Some(Some(definitions)) = self.definitions.get(file) else {
            return Ok(());
        };
        let text = text_of(&self.modules, file);
        let name = import.name.as_str();
        push_renamed(alloc, definitions, text, item.start as usize, name, prelude)
    }

    /// Adds the definition at the place of an import, under the name that it has there.
    pub(crate) fn push_import(
        &self,
        alloc: Global,
        import: &Import,
        prelude: &mut Prelude,
    ) -> Result<(), TtFault> {
        match self.modules.event(import.place) {
            Some(Event::Macro(item)) if item.name != import.name => {
                self.push_other_name(alloc, import, item, prelude)
            }
            _ => {
                let definitions = self.definitions.as_slice();
                push_places(alloc, &self.modules, definitions, &[import.place], prelude)
            }
        }
    }
}

// Whether a file declares a definition.
fn has_definitions(events: &[Event]) -> bool {
    events.iter().any(|event| matches!(event, Event::Macro(_)))
}

// The definitions of a text, as the source with this number, of this home.
fn definitions_in(
    alloc: Global,
    text: &str,
    number: u32,
    home: Option<&Home>,
) -> Result<Option<Definitions>, TtFault>
    requires { 1 ≤ number }
{
    if text.len() > u32::MAX as usize {
        return Ok(None);
    }
    match Source::new(alloc, text, number, home_of(alloc, home)?)? {
        SourceRead::Read(source) => Ok(Some(Definitions::new(alloc, source)?)),
        SourceRead::Unread(_) => Ok(None),
    }
}

/// The definitions of what a file has, as the source with this number, if it has some.
pub(crate) fn definitions_of(
    alloc: Global,
    content: Option<&Content>,
    number: u32,
    home: Option<&Home>,
) -> Result<Option<Definitions>, TtFault>
    requires { 1 ≤ number }
{
    match content {
        Some(Content::Text(text, events)) if has_definitions(events.as_slice()) => {
            definitions_in(alloc, text.as_str(), number, home)
        }
        _ => Ok(None),
    }
}

// The definitions of each file. Its sources have the numbers behind this one.
fn all_definitions(
    rt: &HostRuntime,
    modules: &Modules,
    last: u32,
    home: Option<&Home>,
) -> Result<Vec<Option<Definitions>>, Ended> {
    let mut all = Vec::new(rt.alloc());
    let mut number = last;
    for file in 0..modules.file_count() {
        number = after(number)?;
        match definitions_of(rt.alloc(), modules.content(file), number, home) {
            Ok(definitions) => all.push(definitions)?,
            Err(fault) => {
                let name = modules.file_name(file).unwrap_or("");
                return refusal(rt, name, fault_words(fault));
            }
        }
    }
    Ok(all)
}

// The end where there is no root.
fn no_root<T>(rt: &HostRuntime, root: &str) -> Result<T, Ended> {
    let status: ExitCode = match opened(rt, root) {
        Ok(_) => misused(rt, root, &"this file comes and goes")?,
        Err(error) => misused(rt, root, &error)?,
    };
    Err(Ended::Status(status))
}

/// The crate with this root among these files, at home there. Its sources have the numbers behind
/// this one.
pub(crate) fn crate_from(
    rt: &HostRuntime,
    files: &impl Files,
    root: &str,
    last: u32,
    home: Option<&Home>,
) -> Result<Walked, Ended> {
    let Some(modules) = walk_crate(rt.alloc(), files, root, MOST_FILES)? else {
        return no_root(rt, root);
    };
    let picks = textual_picks(rt.alloc(), &modules)?;
    let offers = offers_of(rt.alloc(), &modules)?;
    Ok(Walked {
        definitions: all_definitions(rt, &modules, last, home)?,
        seen: FilePicks::new(rt.alloc(), picks)?,
        imports: Imports::new(rt.alloc(), &modules, offers)?,
        modules,
    })
}

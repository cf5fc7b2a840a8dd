//! The next event of a frame.
ghost use Rattle.std.specs.Prelude.{◌≡◌, ◌<◌, IfOk, length, option_copied, option_map};
ghost use Rattle.std.specs.Prelude.{string_bytes};
ghost use Rattle.crate_walk.specs.Files.{event_in};
ghost use Rattle.crate_walk.specs.Frames.{IsAllowed, IsNext, IsNextOf};
ghost use Rattle.crate_walk.specs.Files.{files_in};

use crate::event::{Event, ModuleItem};
use crate::files::Files;
use crate::folder::Folder;
use crate::progress::Frame;
use crate::sought::{Sought, seek};
use crate::table::Table;
use std::alloc::{AllocError, Global};

/// What comes next in a frame.
#[derive(Drop)]
pub(crate) enum Next {
    /// Nothing.
    End,
    /// An event that is no module.
    Item,
    /// An inline module, where the files of the modules in it are looked for, and how many events
    /// are in it.
    Inline(Folder, usize),
    /// A module in a file of its own, and what is found out about that.
    Outline(Sought),
    /// A module in a file of its own, which may not be entered.
    TooMany,
}

// The next event of a frame.
fn event_of<'a>(table: &'a Table, frame: &Frame) -> Option<&'a Event>
    requires { frame.now.file < length table.now.contents.items }
    ensures { option_copied result
        ≡ event_in (files_in table.now) frame.now.file frame.now.next frame.now.last }
{
    if frame.next < frame.last {
        table.contents[frame.file].events().get(frame.next)
    } else {
        None
    }
}

// What the attribute `path` of a module says.
fn path_of(item: &ModuleItem) -> Option<&str>
    ensures { option_map (λ p. p.now) result ≡ option_map string_bytes item.now.path }
{
    match &item.path {
        Some(path) => Some(path.as_str()),
        None => None,
    }
}

// What comes next where this event does, and the files of modules are looked for in this folder.
fn next_at<F: Files>(
    alloc: Global,
    files: &F,
    folder: &Folder,
    event: &Event,
    left: usize,
) -> Result<Next, AllocError>
    ensures next { IfOk result (IsNextOf (F.finds files.now) folder.now event.now) }
    ensures allowed { IfOk result (λ n. IsAllowed n left) }
{
    match event {
        Event::Inline(item, count) => {
            let inner = folder.inside(alloc, item.name.as_str(), path_of(item))?;
            Ok(Next::Inline(inner, *count))
        }
        Event::Outline(item) => {
            if left == 0 {
                return Ok(Next::TooMany);
            }
            Ok(Next::Outline(seek(alloc, files, folder, item)?))
        }
        Event::Macro(_) | Event::Import(_) | Event::Crate(_) | Event::MacroUse => Ok(Next::Item),
    }
}

/// What comes next in a frame, if so many files may still be entered.
pub(crate) fn next_of<F: Files>(
    alloc: Global,
    files: &F,
    table: &Table,
    frame: &Frame,
    left: usize,
) -> Result<Next, AllocError>
    requires { frame.now.file < length table.now.contents.items }
    ensures next { IfOk result (IsNext (F.finds files.now) (files_in table.now) frame.now) }
    ensures allowed { IfOk result (λ n. IsAllowed n left) }
{
    match event_of(table, frame) {
        None => Ok(Next::End),
        Some(event) => next_at(alloc, files, &frame.folder, event, left),
    }
}

//! Walks through the modules of a crate.
ghost use Rattle.std.specs.Prelude.{◌≡◌, ◌+◌, ◌-◌, ◌<◌, ◌++◌, ◌∷◌, [], IfOk, IfSome, OnOk, length};
ghost use Rattle.std.specs.Prelude.{true};
ghost use Rattle.std.specs.Prelude.{string_bytes};
ghost use Rattle.crate_walk.specs.Closing.{closes};
ghost use Rattle.crate_walk.specs.Frames.{Advances, AreRead, IsContentEntry, IsEntryAt, IsAllowed};
ghost use Rattle.crate_walk.specs.Frames.{IsNext, IsTurn, GoesOn, IsCounted, Starts, Turns};
ghost use Rattle.crate_walk.specs.Modules.{AreModules, steps_of};
ghost use Rattle.crate_walk.specs.Frames.{at_next, behind_inline, behind_next, file_frame};
ghost use Rattle.crate_walk.specs.Frames.{inline_frame};
ghost use Rattle.crate_walk.specs.Seeking.{found, seen};
ghost use Rattle.crate_walk.specs.Tables.{AddsOrFinds, AreMore, IsTable};
ghost use Rattle.crate_walk.specs.Files.{files_in};
ghost use Rattle.crate_walk.specs.declared.next.Next.TheVariants as next;
ghost use Rattle.crate_walk.specs.declared.step.Step.TheVariants as step;

use crate::files::{Content, Files};
use crate::folder::Folder;
use crate::modules::Modules;
use crate::next::{Next, next_of};
use crate::progress::{Frame, Progress};
use crate::sought::Sought;
use crate::step::{Lack, Place, Step};
use crate::table::Table;
use std::alloc::{AllocError, Global};
use std::collections::VecDeque;

/// What a module in a file of its own turns out to be.
#[derive(Drop)]
pub(crate) enum Entry {
    /// The file of this number, how many events it has, and where the files of the modules in it
    /// are looked for.
    File(usize, usize, Folder),
    /// It has no file here.
    Lack(Lack),
}

// The number of the file of this name, which is read if it was not before.
fn file_of<F: Files>(
    alloc: Global,
    files: &F,
    table: &mut Table,
    name: String,
) -> Result<usize, AllocError>
    requires { IsTable (F.reads files.now) (files_in table.old) }
    ensures right { OnOk result (IsTable (F.reads files.now) (files_in table.new)) }
    ensures number { IfOk result (AddsOrFinds (files_in table.old) (files_in table.new)
        (string_bytes name)) }
{
    match table.number_of(name.as_str()) {
        Some(number) => Ok(number),
        None => {
            let content = files.read(alloc, name.as_str())?;
            table.add(name, content)
        }
    }
}

// What a module is that is in the file of this number, which is not being read.
fn content_entry(table: &Table, file: usize, folder: Folder) -> Entry
    requires { file < length table.now.contents.items }
    ensures { IsContentEntry (files_in table.now) file folder result }
{
    match &table.contents[file] {
        Content::Text(_, events) => Entry::File(file, events.len(), folder),
        Content::Unread(_) => Entry::Lack(Lack::Unread(file)),
    }
}

// What a module in this frame is whose file has this name.
fn found_entry<F: Files>(
    alloc: Global,
    files: &F,
    progress: &mut Progress,
    frame: &Frame,
    name: String,
    folder: Folder,
) -> Result<Entry, AllocError>
    requires right { IsTable (F.reads files.now) (files_in progress.old.table) }
    requires counted { IsCounted progress.old.counts.items
        (frame.now ∷ progress.old.frames.items) }
    ensures right { OnOk result (IsTable (F.reads files.now) (files_in progress.new.table)) }
    ensures more { OnOk result (AreMore (files_in progress.old.table)
        (files_in progress.new.table)) }
    ensures same { progress.new ≡ record progress.old { table = progress.new.table } }
    ensures entry { IfOk result (IsEntryAt (F.finds files.now) progress.old progress.new frame.now
        (found (string_bytes name) folder)) }
{
    let file = file_of(alloc, files, &mut progress.table, name)?;
    if progress.is_open(frame, file) {
        return Ok(Entry::Lack(Lack::Cycle(file)));
    }
    let entry = content_entry(&progress.table, file, folder);
    Ok(entry)
}

// What a module in this frame is whose file was sought.
fn entry_of<F: Files>(
    alloc: Global,
    files: &F,
    progress: &mut Progress,
    frame: &Frame,
    sought: Sought,
) -> Result<Entry, AllocError>
    requires right { IsTable (F.reads files.now) (files_in progress.old.table) }
    requires counted { IsCounted progress.old.counts.items
        (frame.now ∷ progress.old.frames.items) }
    ensures right { OnOk result (IsTable (F.reads files.now) (files_in progress.new.table)) }
    ensures more { OnOk result (AreMore (files_in progress.old.table)
        (files_in progress.new.table)) }
    ensures same { progress.new ≡ record progress.old { table = progress.new.table } }
    ensures entry { IfOk result (IsEntryAt (F.finds files.now) progress.old progress.new frame.now
        (seen sought)) }
{
    match sought {
        Sought::Missing => Ok(Entry::Lack(Lack::Missing)),
        Sought::Ambiguous => Ok(Entry::Lack(Lack::Ambiguous)),
        Sought::Found(name, folder) => found_entry(alloc, files, progress, frame, name, folder),
    }
}

// The next event of a frame.
fn place_of(frame: &Frame) -> Place
    ensures { result ≡ at_next frame.now }
{
    Place {
        file: frame.file,
        event: frame.next,
    }
}

// Passes over a module in a file of its own.
fn pass_over(progress: &mut Progress, frame: Frame, why: Lack) -> Result<(), AllocError>
    requires next { frame.next < frame.last }
    requires counted { IsCounted progress.old.counts.items (frame ∷ progress.old.frames.items) }
    ensures { OnOk result (GoesOn progress.old progress.new (step.Lack (at_next frame) why)
        (behind_next frame ∷ progress.old.frames.items) progress.old.left) }
{
    let step = Step::Lack(place_of(&frame), why);
    let next = frame.next + 1;
    progress.go_on(step, frame, next)
}

// Passes an event that is no module.
fn pass_item(progress: &mut Progress, frame: Frame) -> Result<(), AllocError>
    requires next { frame.next < frame.last }
    requires counted { IsCounted progress.old.counts.items (frame ∷ progress.old.frames.items) }
    ensures { OnOk result (GoesOn progress.old progress.new (step.Item (at_next frame))
        (behind_next frame ∷ progress.old.frames.items) progress.old.left) }
{
    let step = Step::Item(place_of(&frame));
    let next = frame.next + 1;
    progress.go_on(step, frame, next)
}

// Enters an inline module that has this many events.
fn enter_inline(
    progress: &mut Progress,
    frame: Frame,
    folder: Folder,
    count: usize,
) -> Result<(), AllocError>
    requires next { frame.next < frame.last }
    requires counted { IsCounted progress.old.counts.items (frame ∷ progress.old.frames.items) }
    ensures { OnOk result (GoesOn progress.old progress.new (step.Inline (at_next frame))
        (inline_frame frame folder count ∷ (behind_inline frame count ∷ progress.old.frames.items))
        progress.old.left) }
{
    let step = Step::Inline(place_of(&frame));
    let next = frame.next + 1;
    let last = next + count.min(frame.last - next);
    let file = frame.file;
    progress.go_on(step, frame, last)?;
    progress.enter(Frame {
        file,
        next,
        last,
        folder,
    })
}

// Enters the file of this number, which has this many events.
fn enter_file(
    progress: &mut Progress,
    frame: Frame,
    file: usize,
    count: usize,
    folder: Folder,
) -> Result<(), AllocError>
    requires next { frame.next < frame.last }
    requires left { 0 < progress.old.left }
    requires counted { IsCounted progress.old.counts.items (frame ∷ progress.old.frames.items) }
    ensures { OnOk result (GoesOn progress.old progress.new (step.File (at_next frame) file)
        (file_frame file folder count ∷ (behind_next frame ∷ progress.old.frames.items))
        (progress.old.left - 1)) }
{
    let step = Step::File(place_of(&frame), file);
    let next = frame.next + 1;
    progress.go_on(step, frame, next)?;
    progress.left -= 1;
    progress.enter(Frame {
        file,
        next: 0,
        last: count,
        folder,
    })
}

// Enters a module in a file of its own, or passes over it.
fn enter_outline<F: Files>(
    alloc: Global,
    files: &F,
    progress: &mut Progress,
    frame: Frame,
    sought: Sought,
) -> Result<(), AllocError>
    requires next { IsNext (F.finds files.now) (files_in progress.old.table) frame
        (next.Outline sought) }
    requires left { 0 < progress.old.left }
    requires right { IsTable (F.reads files.now) (files_in progress.old.table) }
    requires read { AreRead (files_in progress.old.table) (frame ∷ progress.old.frames.items) }
    requires counted { IsCounted progress.old.counts.items (frame ∷ progress.old.frames.items) }
    ensures { OnOk result (Turns (F.finds files.now) (F.reads files.now)
        (frame ∷ progress.old.frames.items) progress.old progress.new) }
{
    match entry_of(alloc, files, progress, &frame, sought)? {
        Entry::File(file, count, folder) => enter_file(progress, frame, file, count, folder),
        Entry::Lack(why) => pass_over(progress, frame, why),
    }
}

// Goes on behind what comes next in a frame.
fn advance<F: Files>(
    alloc: Global,
    files: &F,
    progress: &mut Progress,
    frame: Frame,
    next: Next,
) -> Result<(), AllocError>
    requires next { IsNext (F.finds files.now) (files_in progress.old.table) frame next }
    requires left { IsAllowed next progress.old.left }
    requires right { IsTable (F.reads files.now) (files_in progress.old.table) }
    requires read { AreRead (files_in progress.old.table) (frame ∷ progress.old.frames.items) }
    requires counted { IsCounted progress.old.counts.items (frame ∷ progress.old.frames.items) }
    ensures { OnOk result (Turns (F.finds files.now) (F.reads files.now)
        (frame ∷ progress.old.frames.items) progress.old progress.new) }
{
    match next {
        Next::End => progress.leave(frame),
        Next::Item => pass_item(progress, frame),
        Next::Inline(folder, count) => enter_inline(progress, frame, folder, count),
        Next::Outline(sought) => enter_outline(alloc, files, progress, frame, sought),
        Next::TooMany => pass_over(progress, frame, Lack::TooMany),
    }
}

// Makes one step, and answers whether there was one to make.
fn turn<F: Files>(alloc: Global, files: &F, progress: &mut Progress) -> Result<bool, AllocError>
    requires right { IsTable (F.reads files.now) (files_in progress.old.table) }
    requires read { AreRead (files_in progress.old.table) progress.old.frames.items }
    requires counted { IsCounted progress.old.counts.items progress.old.frames.items }
    ensures { IfOk result (IsTurn (F.finds files.now) (F.reads files.now) progress.old
        progress.new) }
{
    let Some(frame) = progress.frames.pop_front() else {
        return Ok(false);
    };
    let next = next_of(alloc, files, &progress.table, &frame, progress.left)?;
    advance(alloc, files, progress, frame, next)?;
    Ok(true)
}

// Goes on until all modules that are begun have ended.
fn run<F: Files>(alloc: Global, files: &F, progress: &mut Progress) -> Result<(), AllocError>
    requires right { IsTable (F.reads files.now) (files_in progress.old.table) }
    requires read { AreRead (files_in progress.old.table) progress.old.frames.items }
    requires counted { IsCounted progress.old.counts.items progress.old.frames.items }
    ensures advances { OnOk result (Advances (F.finds files.now) progress.old.frames.items
        progress.old progress.new) }
    ensures right { OnOk result (IsTable (F.reads files.now) (files_in progress.new.table)) }
    ensures ended { OnOk result (progress.new.frames.items ≡ []) }
{
    loop {
        if !turn(alloc, files, progress)? {
            return Ok(());
        }
    }
}

// A walk that begins with the items of a root of this name.
fn start<F: Files>(
    alloc: Global,
    files: &F,
    root: &str,
    name: String,
    most: usize,
) -> Result<Progress, AllocError>
    ensures { IfOk result (Starts (F.reads files.now) root.now (string_bytes name) most) }
{
    let content = files.read(alloc, name.as_str())?;
    let folder = Folder::of_root(alloc, root)?;
    let last = content.events().len();
    let mut table = Table::new(alloc);
    let file = table.add(name, content)?;
    let mut progress = Progress {
        table,
        frames: VecDeque::new(alloc),
        steps: Vec::new(alloc),
        counts: Vec::new(alloc),
        left: most,
    };
    progress.enter(Frame {
        file,
        next: 0,
        last,
        folder,
    })?;
    Ok(progress)
}

/// The modules of the crate whose root has this path, in order, and the files that were read. At
/// most so many files are entered besides the root. `None` if there is no file of this path.
///
/// Each file has one number, by its name. What cannot be followed is a step that says why. Each
/// module that begins ends, and the root ends last.
///
/// # Errors
///
/// Out of memory, where a request for memory is refused: one of the walk, or one of a call of
/// `files`. Then nothing is answered of the files that were read.
pub fn walk_crate<F: Files>(
    alloc: Global,
    files: &F,
    root: &str,
    most: usize,
) -> Result<Option<Modules>, AllocError>
    ensures modules { IfOk result (AreModules (F.finds files.now) (F.reads files.now) root.now
        most) }
    ensures closed { IfOk result (λ o. IfSome o (λ m. closes 1 (steps_of m) ≡ true)) }
{
    let Some(name) = files.find(alloc, root)? else {
        return Ok(None);
    };
    let mut progress = start(alloc, files, root, name, most)?;
    run(alloc, files, &mut progress)?;
    Ok(Some(Modules {
        table: progress.table,
        steps: progress.steps,
    }))
}

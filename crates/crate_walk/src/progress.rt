//! How far a walk has come.
ghost use Rattle.std.specs.Prelude.{◌≡◌, ◌+◌, ◌<◌, ◌^◌, ◌∷◌, ◌++◌, [], OnOk, get_or};
ghost use Rattle.crate_walk.specs.Frames.{CountsUp, GoesOn, IsCounted, here_of};
ghost use Rattle.crate_walk.specs.Walks.{is_open};
ghost use Rattle.crate_walk.specs.declared.step.Step.TheVariants as step;

use crate::folder::Folder;
use crate::step::Step;
use crate::table::Table;
use std::alloc::{AllocError, Global};
use std::collections::VecDeque;

/// The items of a module, or of a file, that a walk is in.
#[derive(Drop)]
pub(crate) struct Frame {
    /// The number of the file.
    pub(crate) file: usize,
    /// The index of the next event.
    pub(crate) next: usize,
    /// The index behind the last one.
    pub(crate) last: usize,
    /// Where the files of its modules are looked for.
    pub(crate) folder: Folder,
}

/// How far a walk has come.
#[derive(Drop)]
pub(crate) struct Progress {
    /// The files that were read.
    pub(crate) table: Table,
    /// The modules that are begun, the innermost first.
    pub(crate) frames: VecDeque<Frame>,
    /// The steps so far.
    pub(crate) steps: Vec<Step>,
    /// How many of the modules that are begun are in each file. Files behind the last have none.
    pub(crate) counts: Vec<usize>,
    /// How many more files may be entered.
    pub(crate) left: usize,
}

// One more module is in a file.
fn count_up(counts: &mut Vec<usize>, file: usize) -> Result<(), AllocError>
    requires { get_or counts.old.items file 0 < 2 ^ 63 }
    ensures { OnOk result (CountsUp counts.old.items counts.new.items file) }
{
    while counts.len() <= file {
        counts.push(0)?;
    }
    counts[file] += 1;
    Ok(())
}

// One module less is in a file.
fn count_down(counts: &mut Vec<usize>, file: usize)
    requires { 0 < get_or counts.old.items file 0 }
    ensures { CountsUp counts.new.items counts.old.items file }
{
    counts[file] -= 1;
}

impl Progress {
    /// Goes on in the innermost module behind a step: with the event of this index.
    pub(crate) fn go_on(&mut self, step: Step, frame: Frame, next: usize) -> Result<(), AllocError>
        ensures steps { OnOk result (self.new.steps.items ≡ self.old.steps.items ++ step ∷ []) }
        ensures frames { OnOk result (self.new.frames.items
            ≡ (record frame { next = next }) ∷ self.old.frames.items) }
        ensures table { self.new.table ≡ self.old.table }
        ensures left { self.new.left ≡ self.old.left }
        ensures counts { self.new.counts ≡ self.old.counts }
    {
        self.steps.push(step)?;
        self.frames.push_front(Frame { next, ..frame })?;
        Ok(())
    }

    /// Enters a module.
    pub(crate) fn enter(&mut self, frame: Frame) -> Result<(), AllocError>
        requires { IsCounted self.old.counts.items self.old.frames.items }
        ensures frames { OnOk result (self.new.frames.items ≡ frame ∷ self.old.frames.items) }
        ensures counts { OnOk result (IsCounted self.new.counts.items
            (frame ∷ self.old.frames.items)) }
        ensures steps { self.new.steps ≡ self.old.steps }
        ensures table { self.new.table ≡ self.old.table }
        ensures left { self.new.left ≡ self.old.left }
    {
        count_up(&mut self.counts, frame.file)?;
        self.frames.push_front(frame)?;
        Ok(())
    }

    /// Leaves the innermost module, which is in this file.
    pub(crate) fn leave(&mut self, frame: Frame) -> Result<(), AllocError>
        requires { IsCounted self.old.counts.items (frame ∷ self.old.frames.items) }
        ensures { OnOk result (GoesOn self.old self.new step.End self.old.frames.items
            self.old.left) }
    {
        count_down(&mut self.counts, frame.file);
        self.steps.push(Step::End)?;
        Ok(())
    }

    // How many modules are in a file.
    fn count_of(&self, file: usize) -> usize
        ensures { result ≡ get_or self.now.counts.items file 0 }
    {
        if file < self.counts.len() {
            self.counts[file]
        } else {
            0
        }
    }

    /// Whether a file is being read in this innermost frame or in one around it.
    pub(crate) fn is_open(&self, frame: &Frame, file: usize) -> bool
        requires { IsCounted self.now.counts.items (frame.now ∷ self.now.frames.items) }
        ensures { result ≡ is_open (here_of frame.now self.now.frames.items) file }
    {
        self.count_of(file) > 0
    }
}

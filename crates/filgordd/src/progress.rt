//! How far a job on many files is, for someone who waits at a terminal.

use std::io::IsTerminal;
use std::time::{Duration, Instant};

// After how many milliseconds a job is shown, and for how many a line of it stands at least.
const FIRST: u64 = 1000;

const NEXT: u64 = 100;

/// Shows on standard error how many files of a job are done, from the first second on. It shows
/// nothing where standard error is no terminal.
#[derive(Drop)]
pub(crate) struct Progress {
    // When the job began, if it is shown.
    begin: Option<Instant>,
    // How long the job takes when the next line is due.
    due: Duration,
    // Whether there is a line.
    is_shown: bool,
}

impl Progress {
    /// A job begins. If it prints between its files, it is shown only where standard output is no
    /// terminal.
    pub(crate) fn new(rt: &HostRuntime, prints: bool) -> Progress {
        let is_free = !prints || !rt.stdout().is_terminal();
        let begin = if is_free && rt.stderr().is_terminal() {
            Instant::now(rt).ok()
        } else {
            None
        };
        Progress {
            begin,
            due: Duration::from_millis(FIRST),
            is_shown: false,
        }
    }

    /// Shows how many of `all` files are done, in place of the last line, if a line is due. What is
    /// written next is written over it.
    pub(crate) fn show(&mut self, rt: &HostRuntime, done: usize, all: usize) {
        let Some(begin) = self.begin else {
            return;
        };
        let Ok(taken) = begin.elapsed(rt) else {
            return;
        };
        if taken >= self.due {
            self.due = taken.saturating_add(Duration::from_millis(NEXT));
            self.is_shown = true;
            let _ = eprint!(rt; "\r{done} of {all} files\r");
        }
    }

    /// Removes the line, if there is one.
    pub(crate) fn end(&self, rt: &HostRuntime) {
        if self.is_shown {
            let _ = eprint!(rt; "\x1b[K");
        }
    }
}

//! Where the code of an expansion has blanks and line ends, and where blocks of its page end.

use code_layout::{Layout, Sort};
use std::alloc::{AllocError, Global};

/// What is between two tokens.
#[derive(Clone, Copy, PartialEq, Eq)]
pub(crate) enum Gap {
    Nothing,
    Blank,
    /// A line end; the next line is in so many blocks.
    Line(usize),
    /// A line end that ends a block of the page, too.
    Cut(usize),
    /// A line end outside all groups.
    Top,
}

/// How far the layout of an expansion has come.
#[derive(Drop)]
pub(crate) struct PageLayout {
    layout: Layout,
    // How many lines the block of the page has.
    lines: usize,
}

// How many lines a block of the page has.
const BLOCK: usize = 64;

impl PageLayout {
    pub(crate) fn new(alloc: Global) -> Self {
        PageLayout {
            layout: Layout::new(alloc),
            lines: 0,
        }
    }

    // A line end, which is a cut where the block of the page has enough lines.
    fn line(&mut self, blocks: usize) -> Gap {
        if self.lines >= BLOCK {
            self.lines = 0;
            return Gap::Cut(blocks);
        }
        self.lines = self.lines.saturating_add(1);
        Gap::Line(blocks)
    }

    /// The gap before the next token, which is `apart` from the one before it or not.
    pub(crate) fn next(&mut self, sort: Sort, apart: bool) -> Result<Gap, AllocError> {
        Ok(match self.layout.next(sort, apart)? {
            code_layout::Gap::Nothing => Gap::Nothing,
            code_layout::Gap::Blank => Gap::Blank,
            code_layout::Gap::Line(blocks) => self.line(blocks),
            code_layout::Gap::Top => {
                self.lines = 0;
                Gap::Top
            }
        })
    }
}

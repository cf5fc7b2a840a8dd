//! Where a byte of a text is, as C sees it.

/// The line and the byte column of a byte, both from 1.
#[repr(C)]
#[derive(Clone, Copy, Debug, PartialEq, Eq)]
pub struct Position {
    pub line: usize,
    pub column: usize,
}

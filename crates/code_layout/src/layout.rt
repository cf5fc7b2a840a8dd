//! Where code has blanks and line ends between its tokens.

use crate::sort::Sort;
use std::alloc::{AllocError, Global};

/// What is between two tokens.
#[derive(Clone, Copy, PartialEq, Eq)]
pub enum Gap {
    Nothing,
    Blank,
    /// A line end; the next line is in so many blocks.
    Line(usize),
    /// A line end outside all groups.
    Top,
}

/// An open group.
#[derive(Clone, Copy, PartialEq, Eq)]
pub(crate) enum Group {
    /// Braces with lines in them.
    Block,
    /// Parentheses, brackets, or braces round names side by side.
    Inline,
    /// The brackets of an attribute.
    Attribute,
}

/// How far the layout of a list of tokens has come.
#[derive(Drop)]
pub struct Layout {
    groups: Vec<Group>,
    // How many of them are blocks.
    blocks: usize,
    // How many lists of generic arguments are open.
    angles: usize,
    before: Sort,
}

// Whether an operand ends with this token.
fn ends_operand(sort: Sort) -> bool {
    matches!(
        sort,
        Sort::Operand | Sort::Generic | Sort::Close | Sort::Question | Sort::AngleEnd
    )
}

// Whether two tokens of one line have nothing between them.
fn is_tight(before: Sort, after: Sort) -> bool {
    match (before, after) {
        (_, Sort::Comma | Sort::Semi | Sort::Question | Sort::Close | Sort::AttributeEnd) => true,
        (_, Sort::Angle | Sort::AngleEnd | Sort::Bang) => true,
        (Sort::BraceEnd, Sort::Dot) | (Sort::Brace, Sort::BraceEnd) => true,
        (_, Sort::Colon | Sort::Path | Sort::Dot) if ends_operand(before) => true,
        (Sort::Open | Sort::Prefix | Sort::Dot | Sort::Pound, _) => true,
        (Sort::Angle | Sort::Path, _) => true,
        (_, Sort::Open) => ends_operand(before) || matches!(before, Sort::Bang | Sort::Function),
        _ => false,
    }
}

// Whether this token begins a line behind a closing brace.
fn begins_line(after: Sort) -> bool {
    !matches!(
        after,
        Sort::Semi | Sort::Comma | Sort::Dot | Sort::Question | Sort::Close | Sort::Else
    ) && !matches!(after, Sort::Operator | Sort::Greater | Sort::Colon)
}

// Whether a line ends between two tokens, in this group.
fn is_line_end(before: Sort, after: Sort, group: Option<Group>, angles: usize) -> bool {
    let is_in_line = matches!(group, Some(Group::Inline | Group::Attribute));
    match before {
        Sort::Brace => after != Sort::BraceEnd,
        _ if after == Sort::BraceEnd => true,
        Sort::Semi | Sort::AttributeEnd => !is_in_line,
        Sort::Comma => group == Some(Group::Block) && angles == 0,
        Sort::BraceEnd => !is_in_line && begins_line(after),
        _ => false,
    }
}

impl Layout {
    /// The layout before the first token.
    pub fn new(alloc: Global) -> Self {
        Layout {
            groups: Vec::new(alloc),
            blocks: 0,
            angles: 0,
            before: Sort::Start,
        }
    }

    /// What the last token is here.
    pub fn last(&self) -> Sort {
        self.before
    }

    /// Whether the last token is among generic arguments.
    pub fn is_in_generics(&self) -> bool {
        self.angles > 0
    }

    // The innermost group.
    fn group(&self) -> Option<Group> {
        self.groups.last().copied()
    }

    // What a token of this sort is here, `apart` from the one before it or not.
    fn resolved(&self, sort: Sort, apart: bool) -> Sort {
        let before = self.before;
        match sort {
            Sort::Bang if before == Sort::Pound => Sort::Pound,
            Sort::Bang if ends_operand(before) => Sort::Bang,
            Sort::Bang => Sort::Prefix,
            Sort::Sign if ends_operand(before) => Sort::Operator,
            Sort::Sign if before == Sort::Operator && !apart => Sort::Operator,
            Sort::Sign => Sort::Prefix,
            Sort::Operator if before == Sort::Dot => Sort::Dot,
            Sort::Colon if before == Sort::Path => Sort::Path,
            Sort::Operand if before == Sort::Function => Sort::Generic,
            Sort::Less if before == Sort::Path || before == Sort::Generic => Sort::Angle,
            Sort::Greater if self.angles > 0 && before != Sort::Operator => Sort::AngleEnd,
            Sort::Close if self.group() == Some(Group::Attribute) => Sort::AttributeEnd,
            Sort::BraceEnd if self.group() == Some(Group::Inline) => Sort::Close,
            Sort::Brace if before == Sort::Path => Sort::Open,
            _ => sort,
        }
    }

    // Opens or closes the group that this token opens or closes.
    fn enter(&mut self, sort: Sort) -> Result<(), AllocError> {
        match sort {
            Sort::Open if self.before == Sort::Pound => self.groups.push(Group::Attribute)?,
            Sort::Open => self.groups.push(Group::Inline)?,
            Sort::Brace => {
                self.groups.push(Group::Block)?;
                self.blocks = self.blocks.saturating_add(1);
                self.angles = 0;
            }
            Sort::Close | Sort::AttributeEnd => {
                self.groups.pop();
            }
            Sort::BraceEnd => {
                self.groups.pop();
                self.blocks = self.blocks.saturating_sub(1);
            }
            Sort::Angle => self.angles = self.angles.saturating_add(1),
            Sort::AngleEnd => self.angles = self.angles.saturating_sub(1),
            Sort::Semi => self.angles = 0,
            _ => {}
        }
        Ok(())
    }

    // The gap before a token of this sort that is apart from the one before it.
    fn gap(&self, sort: Sort) -> Gap {
        let before = self.before;
        if before == Sort::Start {
            return Gap::Nothing;
        }
        if is_line_end(before, sort, self.group(), self.angles) {
            if sort == Sort::BraceEnd {
                return Gap::Line(self.blocks.saturating_sub(1));
            }
            if self.groups.is_empty() {
                return Gap::Top;
            }
            return Gap::Line(self.blocks);
        }
        if is_tight(before, sort) {
            Gap::Nothing
        } else {
            Gap::Blank
        }
    }

    /// The gap before the next token, which is `apart` from the one before it or not.
    pub fn next(&mut self, sort: Sort, apart: bool) -> Result<Gap, AllocError> {
        let sort = self.resolved(sort, apart);
        let gap = if apart { self.gap(sort) } else { Gap::Nothing };
        self.enter(sort)?;
        self.before = sort;
        Ok(gap)
    }
}

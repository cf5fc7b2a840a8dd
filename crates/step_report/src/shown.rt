//! Texts and trees as they are shown within a line.
ghost use Rattle.std.specs.Prelude.{◌≡◌, ◌<◌, IfOk, chars, length, replicate};
ghost use Rattle.bridge.specs.PrintedTrees.{print_in};
ghost use Rattle.bridge.specs.Printing.{print_of};
ghost use Rattle.tt.specs.Views.{forest};
ghost use Rattle.tt_data.specs.Walk.{walk};
ghost use Rattle.step_report.specs.Shown.{Adds, middle_cut, most, shown, shown_character};
ghost use Rattle.step_report.specs.Shown.{shown_print, shown_text, shown_trees};

use bridge::{Printed, print};
use hidden_marks::push_visible;
use std::alloc::{AllocError, Global};
use tt::{TokenTreesView, TopSubtree};

// How many characters of printed trees are shown.
const MOST: usize = 60;

// How many of each end are shown where there are more.
const SIDE: usize = 28;

// Adds a character as it is shown: a line feed as a blank, a hidden one by its mark.
fn push_character(out: &mut String, c: char) -> Result<(), AllocError>
    ensures { Adds result out.old out.new (shown_character c) }
{
    if c == '\n' {
        return out.push(' ');
    }
    push_visible(out, c)
}

// Adds characters as they are shown.
fn push_characters(out: &mut String, characters: &[char]) -> Result<(), AllocError>
    ensures { Adds result out.old out.new (shown characters.now) }
{
    for c in characters {
        push_character(out, *c)?;
    }
    Ok(())
}

// The characters of a text.
fn characters_of(alloc: Global, text: &str) -> Result<Vec<char>, AllocError>
    ensures { IfOk result (λ cs. cs.items ≡ chars text.now) }
{
    text.chars().collect(alloc)
}

/// Adds a text as it is shown.
pub(crate) fn push_shown(alloc: Global, out: &mut String, text: &str) -> Result<(), AllocError>
    ensures { Adds result out.old out.new (shown (chars text.now)) }
{
    let characters = characters_of(alloc, text)?;
    push_characters(out, &characters)
}

// Adds characters of which the middle is cut out, for there are more than are shown, and how many
// tokens they are.
fn push_cut(out: &mut String, characters: &[char], tokens: usize) -> Result<(), AllocError>
    requires { most < length characters.now }
    ensures { Adds result out.old out.new (middle_cut characters.now tokens) }
{
    let (front, _) = characters.split_at(SIDE);
    let (_, back) = characters.split_at(characters.len() - SIDE);
    push_characters(out, front)?;
    out.push_str(" .. ")?;
    push_characters(out, back)?;
    write!(out, " ({tokens} tokens)")
}

// Adds the characters of a printed text, at most sixty of them.
fn push_some(out: &mut String, characters: &[char], tokens: usize) -> Result<(), AllocError>
    ensures { Adds result out.old out.new (shown_text characters.now tokens) }
{
    if characters.len() == 0 {
        return out.push_str("(no tokens)");
    }
    if characters.len() <= MOST {
        return push_characters(out, characters);
    }
    push_cut(out, characters, tokens)
}

// Adds a printed text as one line.
fn push_print(alloc: Global, out: &mut String, printed: &Printed) -> Result<(), AllocError>
    ensures { Adds result out.old out.new (shown_print (print_in printed.now)) }
{
    let characters = characters_of(alloc, printed.text.as_str().trim_end())?;
    push_some(out, &characters, printed.tokens.len())
}

/// Trees, printed alone.
pub(crate) fn print_trees(alloc: Global, trees: TokenTreesView<'_>) -> Result<Printed, AllocError>
    ensures { IfOk result (λ p. print_in p ≡ print_of (walk (forest trees.entry))) }
{
    match print(alloc, trees) {
        Ok(printed) => Ok(printed),
        Err(_) => Err(AllocError),
    }
}

/// Adds trees, printed alone, at most sixty characters of them.
pub(crate) fn push_trees(
    alloc: Global,
    out: &mut String,
    trees: TokenTreesView<'_>,
) -> Result<(), AllocError>
    ensures { Adds result out.old out.new (shown_trees (forest trees.entry)) }
{
    let printed = print_trees(alloc, trees)?;
    push_print(alloc, out, &printed)
}

/// Adds the trees of a tree, printed alone, at most sixty characters of them.
pub(crate) fn push_tree(
    alloc: Global,
    out: &mut String,
    tree: &TopSubtree,
) -> Result<(), AllocError>
    ensures { Adds result out.old out.new (shown_trees tree.now.inner) }
{
    push_trees(alloc, out, tree.token_trees())
}

/// Adds blanks.
pub(crate) fn push_blanks(out: &mut String, count: usize) -> Result<(), AllocError>
    ensures { Adds result out.old out.new (replicate count 32) }
{
    for _ in 0..count {
        out.push(' ')?;
    }
    Ok(())
}

//! The text on a page: its tokens and comments, and its faults marked.
ghost use Rattle.std.specs.Prelude.{◌≡◌, ◌+◌, ◌++◌, ◌<◌, ◌^◌, ℕ, List, Option, Some};
ghost use Rattle.std.specs.Prelude.{IsCharBoundary, length, string_bytes, IfOk, OnOk};
ghost use Rattle.html_code.specs.Parts.{Adds, html_of, html_of_part, isolated};
ghost use Rattle.html_code.specs.Places.{point_of};
ghost use Rattle.html_code.specs.SourceParts.{AddsToken, attributes_of, blank_parts, class_of};
ghost use Rattle.html_code.specs.SourceParts.{fault_attributes, faults_from, number_attributes};
ghost use Rattle.html_code.specs.SourceParts.{source_parts, start_of, token_starts};
ghost use Rattle.html_code.specs.Tokens.{ends_word, token_part};

use crate::escape::push_escaped;
use crate::token::{push_blank, push_comment, push_content, push_token};
use crate::word::word_at;
use rustc_lexer::{FrontmatterAllowed, TokenKind, laws, tokenize};
use std::alloc::{AllocError, Global};

// How many tokens a block has at least, unless it is the last.
const BLOCK: usize = 128;

/// A fault of a text: where it begins, and what is told of it.
#[derive(Clone, Copy)]
pub struct Mark<'a> {
    pub start: u32,
    pub told: &'a str,
}

/// What a token of a text is to its page.
#[derive(Clone, Copy)]
pub(crate) enum Class {
    /// White space.
    Blank,
    /// A comment that is no doc comment.
    Comment,
    /// A token with a number.
    Code,
}

// What a token of this kind is.
fn class_of(kind: TokenKind) -> Class
    ensures { result ≡ class_of kind }
{
    match kind {
        TokenKind::Whitespace => Class::Blank,
        TokenKind::LineComment { doc_style: None } => Class::Comment,
        TokenKind::BlockComment {
            doc_style: None,
            terminated: true,
        } => Class::Comment,
        _ => Class::Code,
    }
}

// The faults that are left, without those that begin before byte `stop`.
fn faults_from<'a, 'b>(faults: &'a [Mark<'b>], stop: u32) -> &'a [Mark<'b>]
    ensures { result.now ≡ faults_from faults.now stop }
{
    let mut from = 0;
    while from < faults.len() && faults[from].start < stop {
        from += 1;
    }
    &faults[from..]
}

/// How far a text is on its page.
#[derive(Drop)]
pub(crate) struct Walk<'a> {
    // The faults of the tokens to come.
    faults: &'a [Mark<'a>],
    // Whether a word that is shown as it is ends here.
    behind: bool,
    // The number of the first token of the block.
    block: usize,
}

// Adds what comes before the words for a fault at the token of this number.
fn push_number(page: &mut String, number: usize) -> Result<(), AllocError>
    ensures { Adds result page.old page.new (number_attributes number) }
{
    write!(page, " class=f id=s{number} title=\"")
}

// Adds the attributes of a token with a fault.
fn push_fault_attributes(
    page: &mut String,
    fault: Mark<'_>,
    number: usize,
) -> Result<(), AllocError>
    ensures { Adds result page.old page.new (fault_attributes fault.entry number) }
{
    push_number(page, number)?;
    push_escaped(page, fault.told)?;
    page.push_str("\"")?;
    Ok(())
}

// Adds a token with a fault.
fn push_faulty(
    page: &mut String,
    fault: Mark<'_>,
    number: usize,
    text: &str,
) -> Result<(), AllocError>
    ensures { Adds result page.old page.new
        (html_of_part (isolated (fault_attributes fault.entry number) text.now)) }
{
    page.push_str("<bdi")?;
    push_fault_attributes(page, fault, number)?;
    push_content(page, text)?;
    Ok(())
}

// Adds the token of this number, which ends before byte `stop`, and gives whether a word that is
// shown as it is ends behind it.
fn push_code(
    page: &mut String,
    walk: &Walk<'_>,
    number: usize,
    stop: u32,
    text: &str,
) -> Result<bool, AllocError>
    ensures html { Adds result page.old page.new (html_of_part (token_part walk.now.behind
        (attributes_of walk.now.faults.now number stop) text.now)) }
    ensures behind { IfOk result (λ ends. ends ≡ ends_word walk.now.behind
        (attributes_of walk.now.faults.now number stop) text.now) }
{
    match walk.faults.first() {
        Some(fault) if fault.start < stop => {
            push_faulty(page, *fault, number, text)?;
            Ok(false)
        }
        _ => push_token(page, walk.behind, text),
    }
}

// Where the last line of a text begins; 0 if it has one line.
fn line_start(text: &str) -> usize {
    let bytes = text.as_bytes();
    let mut at = bytes.len();
    while at > 0 && bytes[at - 1] != b'\n' {
        at -= 1;
    }
    at
}

// Adds white space in which a block ends.
fn push_cut(page: &mut String, text: &str, at: usize) -> Result<(), AllocError>
    requires { IsCharBoundary text.now at }
    ensures { Adds result page.old page.new (html_of (blank_parts (Some at) text.now)) }
{
    push_blank(page, &text[..at])?;
    page.push_str("</div><div>")?;
    push_blank(page, &text[at..])?;
    Ok(())
}

// Adds white space before the token of this number. A block that has enough tokens ends in it, if
// a line does.
fn push_blanks(
    page: &mut String,
    walk: &mut Walk<'_>,
    number: usize,
    text: &str,
) -> Result<(), AllocError>
    ensures html { OnOk result ((cut : Option ℕ)
        × (string_bytes page.new ≡ string_bytes page.old ++ html_of (blank_parts cut text.now))) }
    ensures same { point_of walk.new ≡ point_of walk.old }
{
    if number >= walk.block.saturating_add(BLOCK) {
        let at = line_start(text);
        if at > 0 && text.is_char_boundary(at) {
            walk.block = number;
            push_cut(page, text, at)?;
            return Ok(());
        }
    }
    push_blank(page, text)?;
    Ok(())
}

// Adds a token. If it has a number, it is this one.
fn push_word(
    page: &mut String,
    walk: &mut Walk<'_>,
    class: Class,
    number: usize,
    stop: u32,
    text: &str,
) -> Result<(), AllocError>
    ensures { OnOk result (AddsToken (string_bytes page.old) (string_bytes page.new)
        (point_of walk.old) (point_of walk.new) class number stop text.now) }
{
    match class {
        Class::Blank => {
            walk.behind = false;
            push_blanks(page, walk, number, text)
        }
        Class::Comment => {
            walk.behind = false;
            push_comment(page, text)
        }
        Class::Code => {
            walk.behind = push_code(page, walk, number, stop, text)?;
            walk.faults = faults_from(walk.faults, stop);
            Ok(())
        }
    }
}

// Adds the offset of a token, if it has a number.
fn push_start(starts: &mut Vec<u32>, class: Class, start: u32) -> Result<(), AllocError>
    ensures { OnOk result (starts.new.items ≡ starts.old.items ++ start_of class start) }
{
    if let Class::Code = class {
        starts.push(start)?;
    }
    Ok(())
}

/// Adds a text of at most `u32::MAX` bytes with its faults, which are in order, and gives where its
/// tokens begin.
///
/// A token that is one character of ASCII, or a word of ASCII letters, digits and `_`, stands as
/// it is. Any other one is a `<bdi>`, and each comment a `<bdi class=c>`. A token in which a fault
/// begins is a `<bdi class=f>` with its number, from 1, as `id=s12`, and what the first such fault
/// is as its title. A `<div>` ends behind a line, after 128 tokens or more.
pub fn push_source(
    alloc: Global,
    page: &mut String,
    text: &str,
    faults: &[Mark<'_>],
) -> Result<Vec<u32>, AllocError>
    requires { length text.now < 2 ^ 32 }
    ensures parts { OnOk result ((cuts : List (Option ℕ)) × (string_bytes page.new
        ≡ string_bytes page.old ++ html_of (source_parts cuts faults.now text.now))) }
    ensures starts { IfOk result (λ starts. starts.items ≡ token_starts text.now) }
{
    laws::tokens_begin();
    laws::next_token();
    laws::tokens_end();
    let mut starts = Vec::new(alloc);
    let mut walk = Walk {
        faults,
        behind: false,
        block: 0,
    };
    let mut start: u32 = 0;
    for token in tokenize(text, FrontmatterAllowed::No) {
        let end = start + token.len;
        let word = word_at(text, start, token);
        let class = class_of(token.kind);
        let number = starts.as_slice().len() + 1;
        push_word(page, &mut walk, class, number, end, word)?;
        push_start(&mut starts, class, start)?;
        start = end;
    }
    Ok(starts)
}

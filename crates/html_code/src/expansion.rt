//! An expansion on a page: its tokens with the numbers of their origins, laid out as code.
ghost use Rattle.std.specs.Prelude.{◌≡◌, ◌+◌, ◌-◌, ◌*◌, ◌++◌, ◌<◌, ◌≤◌, ◌^◌, List, codes, drop};
ghost use Rattle.std.specs.Prelude.{decimal, length, map, string_bytes, IfOk, OnOk, option_copied};
ghost use Rattle.std.specs.Prelude.{slice_get};
ghost use Rattle.html_code.specs.ExpansionParts.{AddsWord, attributes_at, expansion_parts};
ghost use Rattle.html_code.specs.ExpansionParts.{fold_end, gap_tag, is_behind, is_in_summary};
ghost use Rattle.html_code.specs.ExpansionParts.{is_white, line_end, number_here, origin_here};
ghost use Rattle.html_code.specs.ExpansionParts.{printed_tokens_in};
ghost use Rattle.html_code.specs.Origins.{title_of};
ghost use Rattle.html_code.specs.Parts.{Adds, html_of, html_of_part, isolated};
ghost use Rattle.html_code.specs.Tokens.{ends_word, token_part};
ghost use Rattle.html_code.specs.Places.{place_of};
ghost use Rattle.html_code.specs.declared.layout.Gap.{Gap};

use crate::layout::{Gap, PageLayout};
use crate::origin::{Origin, push_title};
use crate::token::{push_content, push_token};
use crate::word::word_at;
use code_layout::sort_of;
use rustc_lexer::{FrontmatterAllowed, TokenKind, laws, tokenize};
use std::alloc::{AllocError, Global};

// How many levels of blocks are indented.
const LEVELS: usize = 32;

/// What is the same for all tokens: what begins each item, and the names of the other texts, in
/// order of their numbers, from 1.
#[derive(Clone, Copy)]
pub(crate) struct Setting<'a> {
    pub fold: &'a str,
    pub names: &'a [String],
}

/// How far an expansion is on the page.
#[derive(Drop)]
pub(crate) struct Progress<'a> {
    layout: PageLayout,
    // The numbers of the origins of the tokens to come.
    numbers: &'a [usize],
    // These origins.
    origins: &'a [Origin],
    // The number of the last token's origin.
    last: usize,
    // Whether the line is the first of its fold.
    in_summary: bool,
    // Whether a word that is shown as it is ends here.
    behind: bool,
    // Whether white space came last.
    apart: bool,
}

// Adds the end of a line, and the indentation of one in so many blocks of code.
fn push_line_end(
    page: &mut String,
    end: &str,
    in_summary: bool,
    blocks: usize,
) -> Result<(), AllocError>
    ensures { Adds result page.old page.new (line_end end.now in_summary blocks) }
{
    page.push_str(if in_summary { "</summary><div>" } else { end })?;
    for _ in 0..blocks.min(LEVELS) {
        page.push_str("    ")?;
    }
    Ok(())
}

// Adds the end of a fold.
fn push_fold_end(page: &mut String, in_summary: bool) -> Result<(), AllocError>
    ensures { Adds result page.old page.new (fold_end in_summary) }
{
    if in_summary {
        page.push_str("</summary></details>")
    } else {
        page.push_str("</div></details>")
    }
}

// Adds what is between two tokens.
fn push_gap(page: &mut String, gap: Gap, in_summary: bool, fold: &str) -> Result<(), AllocError>
    ensures { Adds result page.old page.new (gap_tag fold.now gap in_summary) }
{
    match gap {
        Gap::Nothing => Ok(()),
        Gap::Blank => page.push_str(" "),
        Gap::Line(blocks) => push_line_end(page, "\n", in_summary, blocks),
        Gap::Cut(blocks) => push_line_end(page, "\n</div><div>", in_summary, blocks),
        Gap::Top => {
            push_fold_end(page, in_summary)?;
            page.push_str(fold)
        }
    }
}

// Whether the line behind this gap is the first of its fold.
fn is_in_summary(gap: Gap, in_summary: bool) -> bool
    ensures { result ≡ is_in_summary gap in_summary }
{
    match gap {
        Gap::Nothing => in_summary,
        Gap::Blank => in_summary,
        Gap::Line(_) | Gap::Cut(_) => false,
        Gap::Top => true,
    }
}

// Whether a word that is shown as it is ends behind this gap.
fn is_behind(gap: Gap, behind: bool) -> bool
    ensures { result ≡ is_behind gap behind }
{
    match gap {
        Gap::Nothing => behind,
        _ => false,
    }
}

// Adds the number of an origin as an attribute.
fn push_number(page: &mut String, number: usize) -> Result<(), AllocError>
    ensures { Adds result page.old page.new (codes " o=" ++ decimal number) }
{
    write!(page, " o={number}")
}

// Adds a token with its origin's number and title as attributes.
fn push_numbered(
    page: &mut String,
    number: usize,
    origin: Origin,
    names: &[String],
    text: &str,
) -> Result<(), AllocError>
    ensures { Adds result page.old page.new (html_of_part (isolated
        (codes " o=" ++ (decimal number ++ title_of (map string_bytes names.now) origin))
        text.now)) }
{
    page.push_str("<bdi")?;
    push_number(page, number)?;
    push_title(page, origin, names)?;
    push_content(page, text)?;
    Ok(())
}

// Adds the next token, and gives whether a word that is shown as it is ends behind it.
fn push_printed(
    page: &mut String,
    progress: &Progress<'_>,
    behind: bool,
    names: &[String],
    text: &str,
) -> Result<bool, AllocError>
    ensures html { Adds result page.old page.new (html_of_part (token_part behind
        (attributes_at (map string_bytes names.now) (place_of progress.now)) text.now)) }
    ensures behind { IfOk result (λ ends. ends ≡ ends_word behind
        (attributes_at (map string_bytes names.now) (place_of progress.now)) text.now) }
{
    let number = number_here(progress.numbers);
    if number > 0 && number - 1 == progress.last {
        push_token(page, behind, text)
    } else {
        push_numbered(page, number, origin_here(progress.origins), names, text)?;
        Ok(false)
    }
}

// How many printed tokens this one is.
fn printed_tokens_in(kind: TokenKind) -> usize
    ensures { result ≡ printed_tokens_in kind }
{
    match kind {
        TokenKind::Lifetime {
            starts_with_number: false,
        } => 2,
        _ => 1,
    }
}

/// The first number, or 0 where there is none.
pub(crate) fn number_here(numbers: &[usize]) -> usize
    ensures { result ≡ number_here numbers.now }
{
    match numbers.split_first() {
        Some((first, _)) => *first,
        None => 0,
    }
}

// The first origin, or the beginning of the text where there is none.
fn origin_here(origins: &[Origin]) -> Origin
    ensures { result ≡ origin_here origins.now }
{
    match origins.split_first() {
        Some((first, _)) => *first,
        None => Origin::Own(0),
    }
}

/// The items behind the first `count`.
pub(crate) fn items_after<T>(items: &[T], count: usize) -> &[T]
    ensures { result.now ≡ drop count items.now }
{
    if count < items.len() {
        &items[count..]
    } else {
        &items[items.len()..]
    }
}

// Whether a token of this kind is white space.
fn is_white(kind: TokenKind) -> bool
    ensures { result ≡ is_white kind }
{
    match kind {
        TokenKind::Whitespace => true,
        _ => false,
    }
}

// Adds a token, whose text is followed by the byte `next`.
fn push_word(
    page: &mut String,
    progress: &mut Progress<'_>,
    setting: &Setting<'_>,
    kind: TokenKind,
    word: &str,
    next: Option<u8>,
) -> Result<(), AllocError>
    ensures { OnOk result (AddsWord setting.now.fold.now (map string_bytes setting.now.names.now)
        (string_bytes page.old) (string_bytes page.new) (place_of progress.old)
        (place_of progress.new) kind word.now) }
{
    if is_white(kind) {
        progress.apart = true;
        return Ok(());
    }
    let gap = progress
        .layout
        .next(sort_of(kind, word, next), progress.apart)?;
    let (number, count) = (number_here(progress.numbers), printed_tokens_in(kind));
    push_gap(page, gap, progress.in_summary, setting.fold)?;
    let behind = is_behind(gap, progress.behind);
    progress.behind = push_printed(page, progress, behind, setting.names, word)?;
    progress.in_summary = is_in_summary(gap, progress.in_summary);
    progress.numbers = items_after(progress.numbers, count);
    progress.origins = items_after(progress.origins, count);
    progress.last = number;
    progress.apart = false;
    Ok(())
}

/// Adds a printed text of at most `u32::MAX` bytes, whose tokens have these origins, of these
/// numbers.
///
/// A token's origin has the number that follows that of the token before, or else the token is a
/// `<bdi>` with the number as `o=12`, and of one from another text, whose number is 0, with a title
/// that says which. Otherwise it stands as in `push_source`. A lifetime is one such token, with the
/// origin of its quote.
pub(crate) fn push_expansion(
    alloc: Global,
    page: &mut String,
    printed: &str,
    numbers: &[usize],
    origins: &[Origin],
    setting: &Setting<'_>,
) -> Result<(), AllocError>
    requires { length printed.now < 2 ^ 32 }
    ensures { OnOk result ((gaps : List Gap) × (string_bytes page.new ≡ string_bytes page.old
        ++ html_of (expansion_parts setting.now.fold.now (map string_bytes setting.now.names.now)
        gaps numbers.now origins.now printed.now))) }
{
    laws::tokens_begin();
    laws::next_token();
    laws::tokens_end();
    let mut progress = Progress {
        layout: PageLayout::new(alloc),
        numbers,
        origins,
        last: 0,
        in_summary: true,
        behind: false,
        apart: true,
    };
    page.push_str(setting.fold)?;
    let mut start: u32 = 0;
    for token in tokenize(printed, FrontmatterAllowed::No) {
        let end = start + token.len;
        let word = word_at(printed, start, token);
        let next = printed.as_bytes().get(end as usize).copied();
        push_word(page, &mut progress, setting, token.kind, word, next)?;
        start = end;
    }
    push_fold_end(page, progress.in_summary)?;
    Ok(())
}

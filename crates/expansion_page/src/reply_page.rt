//! The page of a reply to a text.
ghost use Rattle.std.specs.Prelude.{◌≡◌, ◌<◌, ◌^◌, ℕ, List, [], IfOk, length, map, string_bytes};
ghost use Rattle.expander_run.specs.expander_session.declared.session.Reply.TheVariants.{Read};
ghost use Rattle.expander_run.specs.expander_session.declared.session.Reply.TheVariants.{Unread};
ghost use Rattle.expansion_page.specs.Pages.{IsFramed, IsNamedReplyPage, IsReplyPage, ShowsReply};
ghost use Rattle.expansion_page.specs.Pages.{shown_origins};
ghost use Rattle.html_code.specs.PageParts.{IsShort};

use crate::frame::frame;
use crate::told::{lines_of, lone_mark, marks_of, origins_of};
use bridge::ReadFault;
use expander_run::expander_session::session::{Expansion, Reply};
use expander_run::lines::{FIRST, push_line, read_fault_words, spot_of};
use html_code::Origin;
use html_code::page::{Printed, Shown};
use std::alloc::{AllocError, Global};

// What was printed, if it can be shown.
fn printed_of<'a>(
    expansion: &'a Expansion,
    origins: &'a [Origin],
    names: &'a [String],
) -> Option<Printed<'a>>
    requires { origins.now ≡ shown_origins expansion.now.origins expansion.now.texts }
    ensures shows { ShowsReply (map string_bytes names.now) (Read expansion.now) result }
    ensures short { IsShort result }
{
    let (text, expanded) = (expansion.printed(), expansion.expanded());
    if text.len() > 0xffff_ffff {
        return None;
    }
    Some(Printed {
        text,
        origins,
        names,
        expanded,
    })
}

// The page that shows this.
fn framed(alloc: Global, shown: &Shown<'_>) -> Result<String, AllocError>
    requires text { length shown.now.text.now < 2 ^ 32 }
    requires printed { IsShort shown.now.printed }
    ensures { IfOk result (λ html. IsFramed shown.now (string_bytes html)) }
{
    let frame = frame();
    let html = html_code::page::page(alloc, &frame, shown)?;
    Ok(html)
}

// The page of an expansion.
fn page_of_expansion<'a>(
    alloc: Global,
    title: &'a str,
    text: &'a str,
    names: &'a [String],
    expansion: &Expansion,
) -> Result<String, AllocError>
    requires { length text.now < 2 ^ 32 }
    ensures { IfOk result (λ html. IsNamedReplyPage (map string_bytes names.now) title.now text.now
        (Read expansion.now) (string_bytes html)) }
{
    let lines = lines_of(alloc, text, expansion.faults())?;
    let marks = marks_of(alloc, expansion.faults(), lines.as_slice())?;
    let origins = origins_of(alloc, expansion)?;
    let faults = marks.as_slice();
    let printed = printed_of(expansion, origins.as_slice(), names);
    let shown = Shown {
        title,
        text,
        faults,
        printed,
    };
    let html = framed(alloc, &shown)?;
    Ok(html)
}

// The page of a text that cannot be read.
fn page_of_fault<'a>(
    alloc: Global,
    title: &'a str,
    text: &'a str,
    fault: ReadFault,
) -> Result<String, AllocError>
    requires { length text.now < 2 ^ 32 }
    ensures { IfOk result (λ html. (names : List (List ℕ)) →
        IsNamedReplyPage names title.now text.now (Unread fault) (string_bytes html)) }
{
    let start = fault.range.start;
    let spot = spot_of(text.as_bytes(), FIRST, start);
    let mut line = String::new(alloc);
    push_line(&mut line, spot, read_fault_words(fault.kind))?;
    let marks = lone_mark(alloc, start, &line)?;
    let faults = marks.as_slice();
    let printed: Option<Printed<'a>> = None;
    let shown = Shown {
        title,
        text,
        faults,
        printed,
    };
    let html = framed(alloc, &shown)?;
    Ok(html)
}

/// The page of a reply to a text of at most `u32::MAX` bytes, with this title, such as the file's
/// name. Refused if there is no memory for it.
///
/// It has the text with its faults, beside it the expansion with each token's origin, and below a
/// link to each fault. A token of another text has no link: its title says which source it comes
/// from, by its number, and which bytes. Of a text that cannot be read it has the reading fault
/// alone, and of an expansion that prints more than `u32::MAX` bytes the text and the faults. All
/// else on it is a constant of this crate.
pub fn page(alloc: Global, title: &str, text: &str, reply: &Reply) -> Result<String, AllocError>
    requires { length text.now < 2 ^ 32 }
    ensures { IfOk result (λ html. IsReplyPage title.now text.now reply.now (string_bytes html)) }
{
    page_with_names(alloc, title, text, &[], reply)
}

/// The same page, where the sources have these names, in order of their numbers, from 1: a token of
/// another text says the name of its source.
pub fn page_with_names(
    alloc: Global,
    title: &str,
    text: &str,
    names: &[String],
    reply: &Reply,
) -> Result<String, AllocError>
    requires { length text.now < 2 ^ 32 }
    ensures { IfOk result (λ html. IsNamedReplyPage (map string_bytes names.now) title.now text.now
        reply.now (string_bytes html)) }
{
    match reply {
        Reply::Read(expansion) => page_of_expansion(alloc, title, text, names, expansion),
        Reply::Unread(fault) => page_of_fault(alloc, title, text, *fault),
    }
}

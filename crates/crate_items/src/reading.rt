//! What a file has: the items of its text.
ghost use Rattle.std.specs.Prelude.{◌≡◌, ◌<◌, ◌^◌, IfErr, IfOk, length, string_bytes};
ghost use Rattle.bridge.specs.ReadText.{IsRead, IsReadRefusal};
ghost use Rattle.bridge.specs.TokenSteps.{text_steps};
ghost use Rattle.cfg_options.specs.Options.{options_of};
ghost use Rattle.crate_items.specs.Reading.{IsContentOf, IsContentOfBytes};

use crate::items::text_events;
use bridge::Read;
use cfg_options::CfgOptions;
use crate_walk::{Content, Unread};
use rustc_lexer::LexedText;
use std::alloc::{AllocError, Global};
use tt_data::TtFault;

/// A text as trees, or its reading fault.
pub(crate) fn read(alloc: Global, text: &str) -> Result<Read, TtFault>
    requires { length text.now < 2 ^ 32 }
    ensures read { IfOk result (IsRead (text_steps text.now)) }
    ensures refused { IfErr result (IsReadRefusal (text_steps text.now)) }
{
    let held = LexedText::new(alloc, text)?;
    bridge::read(alloc, held.text(), held.tokens())
}

/// What a file with this text has, under these options: the items of the text.
///
/// # Errors
///
/// Out of memory, where a request for memory is refused.
pub fn content_of(alloc: Global, options: &CfgOptions, text: String) -> Result<Content, AllocError>
    ensures { IfOk result (IsContentOf (options_of options.now) (string_bytes text)) }
{
    bridge::laws::reading_is_a_relation();
    if text.len() > u32::MAX as usize {
        return Ok(Content::Unread(Unread::TooLong));
    }
    match read(alloc, text.as_str()) {
        Ok(Read::Tree(tree)) => {
            let events = text_events(alloc, options, &tree.token_trees().iter())?;
            Ok(Content::Text(text, events))
        }
        Ok(Read::Fault(fault)) => Ok(Content::Unread(Unread::Fault(fault.range.start))),
        Err(TtFault::Memory) => Err(AllocError),
        Err(_) => Ok(Content::Unread(Unread::TooLong)),
    }
}

/// What a file of these bytes has, under these options: the items of its text.
///
/// # Errors
///
/// Out of memory, where a request for memory is refused.
pub fn content_of_bytes(
    alloc: Global,
    options: &CfgOptions,
    bytes: Vec<u8>,
) -> Result<Content, AllocError>
    ensures { IfOk result (IsContentOfBytes (options_of options.now) bytes.items) }
{
    match String::from_utf8(bytes) {
        Ok(text) => content_of(alloc, options, text),
        Err(_) => Ok(Content::Unread(Unread::NotUtf8)),
    }
}

//! The calls on what a handle holds: it is taken out, asked, and put back.
ghost use Rattle.std.specs.Prelude.{◌≡◌, None, ⊤};
ghost use Rattle.filgordd_c.specs.Answered.{CountsTold, FaultTold, OfExpansion, OriginsTold};
ghost use Rattle.filgordd_c.specs.Answered.{PrintedTold, ReadingFaultTold, SourcesTold};
ghost use Rattle.filgordd_c.specs.Answered.{TokenRangesTold};
ghost use Rattle.filgordd_c.specs.Calls.{BoundaryTold, EditTold, ExpandTold, FitTold, PreludeTold};
ghost use Rattle.filgordd_c.specs.Calls.{SourceAdded};
ghost use Rattle.filgordd_c.specs.Conditions.{texts};
ghost use Rattle.filgordd_c.specs.Json.{JsonTold};
ghost use Rattle.filgordd_c.specs.Tellings.{Looks, Opened, OpenedBy, TextTold, Told};
ghost use Rattle.filgordd_c.specs.Words.{PositionTold};

use crate::answers::{ByteRange, Counts, SourceTold, ToldFault};
use crate::code::Code;
use crate::conditions::{Word, set_of};
use crate::handle::Handle;
use crate::last;
use crate::live::{Given, Live};
use crate::options::SessionOptions;
use crate::position::Position;
use crate::room::copy_text;
use crate::sources::Pick;
use cfg_options::CfgOptions;
use std::alloc::Global;

/// Opens a session over a copy of the text, in place of what the handle holds, which is freed. A
/// set of options for conditional compilation stays with the session.
pub(crate) fn open(
    alloc: Global,
    handle: &mut Handle,
    text: &[u8],
    options: &SessionOptions,
    cfg: Option<CfgOptions>,
) -> Code
    ensures { Opened text.now options.now cfg handle.old.held handle.new.held result }
{
    let live = match Live::new(alloc, text, options, cfg) {
        Ok(live) => live,
        Err(code) => return code,
    };
    let Ok(live) = Box::new(alloc, live) else {
        return Code::Memory;
    };
    handle.put(alloc, live);
    Code::Done
}

/// Opens a session under the set of the options that these words name.
pub(crate) fn open_cfg(
    alloc: Global,
    handle: &mut Handle,
    text: &[u8],
    options: &SessionOptions,
    words: &[Word<'_>],
) -> Code
    ensures { OpenedBy (texts words.now) text.now options.now handle.old.held handle.new.held
        result }
{
    match set_of(alloc, words) {
        Ok(set) => open(alloc, handle, text, options, Some(set)),
        Err(code) => code,
    }
}

/// The length of the text, and the text itself, copied to the beginning of the room.
pub(crate) fn text(alloc: Global, handle: &mut Handle, room: &mut [u8], len: &mut usize) -> Code
    ensures { Looks ((room.new ≡ room.old)
        × (len.new ≡ len.old)) (TextTold room.old room.new len.new) handle.old.held
        handle.new.held result }
{
    let Some(live) = handle.take(alloc) else {
        return Code::Closed;
    };
    let text = live.as_ref().session.text();
    *len = text.len();
    let code = copy_text(text, room);
    handle.put(alloc, live);
    code
}

/// Whether the offset is a character boundary of the text.
pub(crate) fn is_boundary(alloc: Global, handle: &mut Handle, at: usize) -> Code
    ensures { Looks ⊤ (λ live. BoundaryTold live.session.text at) handle.old.held
        handle.new.held result }
{
    let Some(live) = handle.take(alloc) else {
        return Code::Closed;
    };
    let code = live.as_ref().is_boundary(at);
    handle.put(alloc, live);
    code
}

/// Whether `len` bytes can replace those from `start` to `end`.
pub(crate) fn fits(alloc: Global, handle: &mut Handle, start: usize, end: usize, len: usize) -> Code
    ensures { Looks ⊤ (λ live. FitTold live.session.text start «end» len) handle.old.held
        handle.new.held result }
{
    let Some(live) = handle.take(alloc) else {
        return Code::Closed;
    };
    let code = live.as_ref().fits(start, end, len);
    handle.put(alloc, live);
    code
}

/// The line and byte column of an offset.
pub(crate) fn position(alloc: Global, handle: &mut Handle, at: usize, into: &mut Position) -> Code
    ensures { Looks (into.new ≡ into.old) (λ live.
        PositionTold live.session.text at into.old into.new) handle.old.held
        handle.new.held result }
{
    let Some(live) = handle.take(alloc) else {
        return Code::Closed;
    };
    let code = live.as_ref().position(at, into);
    handle.put(alloc, live);
    code
}

/// Replaces the bytes from `start` to `end`.
pub(crate) fn edit(
    alloc: Global,
    handle: &mut Handle,
    start: usize,
    end: usize,
    replacement: &[u8],
) -> Code
    ensures { Told ⊤ (EditTold start «end» replacement.now) handle.old.held handle.new.held result }
{
    let Some(mut live) = handle.take(alloc) else {
        return Code::Closed;
    };
    let code = live.as_mut().edit(start, end, replacement);
    handle.put(alloc, live);
    code
}

/// Expands the text. The answer is kept in place of the last one.
pub(crate) fn expand(alloc: Global, handle: &mut Handle) -> Code
    ensures { Told ⊤ ExpandTold handle.old.held handle.new.held result }
{
    let Some(mut live) = handle.take(alloc) else {
        return Code::Closed;
    };
    let code = live.as_mut().expand();
    handle.put(alloc, live);
    code
}

/// How much the expansion has.
pub(crate) fn counts(alloc: Global, handle: &mut Handle, into: &mut Counts) -> Code
    ensures { Looks (into.new ≡ into.old) (λ live.
        OfExpansion CountsTold into.old into.new live.answer) handle.old.held
        handle.new.held result }
{
    let Some(live) = handle.take(alloc) else {
        return Code::Closed;
    };
    let code = last::counts(&live.as_ref().answer, into);
    handle.put(alloc, live);
    code
}

/// The printed text, copied to the beginning of the room.
pub(crate) fn printed(alloc: Global, handle: &mut Handle, room: &mut [u8]) -> Code
    ensures { Looks (room.new ≡ room.old) (λ live.
        OfExpansion PrintedTold room.old room.new live.answer) handle.old.held
        handle.new.held result }
{
    let Some(live) = handle.take(alloc) else {
        return Code::Closed;
    };
    let code = last::printed(&live.as_ref().answer, room);
    handle.put(alloc, live);
    code
}

/// The last answer as a line of JSON, copied to the beginning of the room, and its length.
pub(crate) fn json(alloc: Global, handle: &mut Handle, room: &mut [u8], len: &mut usize) -> Code
    ensures { Looks ((room.new ≡ room.old)
        × (len.new ≡ len.old)) (JsonTold room.old room.new len.old len.new) handle.old.held
        handle.new.held result }
{
    let Some(live) = handle.take(alloc) else {
        return Code::Closed;
    };
    let code = last::json(alloc, live.as_ref(), room, len);
    handle.put(alloc, live);
    code
}

/// The fault of this index.
pub(crate) fn fault(alloc: Global, handle: &mut Handle, index: usize, into: &mut ToldFault) -> Code
    ensures { Looks (into.new ≡ into.old) (λ live.
        OfExpansion (FaultTold index) into.old into.new live.answer) handle.old.held
        handle.new.held result }
{
    let Some(live) = handle.take(alloc) else {
        return Code::Closed;
    };
    let code = last::fault(&live.as_ref().answer, index, into);
    handle.put(alloc, live);
    code
}

/// The reading fault.
pub(crate) fn reading_fault(alloc: Global, handle: &mut Handle, into: &mut ToldFault) -> Code
    ensures { Looks (into.new ≡ into.old) (λ live. ReadingFaultTold into.old into.new live.answer)
        handle.old.held handle.new.held result }
{
    let Some(live) = handle.take(alloc) else {
        return Code::Closed;
    };
    let code = last::reading_fault(&live.as_ref().answer, into);
    handle.put(alloc, live);
    code
}

/// Where the printed tokens come from in the text, copied to the beginning of the room.
pub(crate) fn origins(alloc: Global, handle: &mut Handle, room: &mut [ByteRange]) -> Code
    ensures { Looks (room.new ≡ room.old) (λ live.
        OfExpansion OriginsTold room.old room.new live.answer) handle.old.held
        handle.new.held result }
{
    let Some(live) = handle.take(alloc) else {
        return Code::Closed;
    };
    let code = last::origins(&live.as_ref().answer, room);
    handle.put(alloc, live);
    code
}

/// Where the printed tokens are in the printed text, copied to the beginning of the room.
pub(crate) fn token_ranges(alloc: Global, handle: &mut Handle, room: &mut [ByteRange]) -> Code
    ensures { Looks (room.new ≡ room.old) (λ live.
        OfExpansion TokenRangesTold room.old room.new live.answer) handle.old.held
        handle.new.held result }
{
    let Some(live) = handle.take(alloc) else {
        return Code::Closed;
    };
    let code = last::ranges(&live.as_ref().answer, room);
    handle.put(alloc, live);
    code
}

/// Reads a text as a source, and keeps it in place of the one of its number.
pub(crate) fn source(
    alloc: Global,
    handle: &mut Handle,
    given: &Given<'_>,
    into: &mut SourceTold,
) -> Code
    ensures { Told (into.new ≡ into.old) (SourceAdded given.now.number given.now.root.now
        given.now.edition given.now.text.now into.old into.new) handle.old.held handle.new.held
        result }
{
    let Some(mut live) = handle.take(alloc) else {
        return Code::Closed;
    };
    let code = live.as_mut().source(alloc, given, into);
    handle.put(alloc, live);
    code
}

/// Has the text expanded after these definitions, from the next expansion on.
pub(crate) fn prelude(alloc: Global, handle: &mut Handle, picks: &[Pick]) -> Code
    ensures { Told ⊤ (PreludeTold picks.now) handle.old.held handle.new.held result }
{
    let Some(mut live) = handle.take(alloc) else {
        return Code::Closed;
    };
    let code = live.as_mut().prelude(alloc, picks);
    handle.put(alloc, live);
    code
}

/// The number of the text that each printed token comes from, copied to the beginning of the room.
pub(crate) fn sources(alloc: Global, handle: &mut Handle, room: &mut [u32]) -> Code
    ensures { Looks (room.new ≡ room.old)
        (λ live. OfExpansion SourcesTold room.old room.new live.answer) handle.old.held
        handle.new.held result }
{
    let Some(live) = handle.take(alloc) else {
        return Code::Closed;
    };
    let code = last::sources(&live.as_ref().answer, room);
    handle.put(alloc, live);
    code
}

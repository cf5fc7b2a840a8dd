//! What C calls. Each answers a code by its number.
ghost use Rattle.std.specs.Prelude.{◌≡◌, None, Some, ⊤};
ghost use Rattle.filgordd_c.specs.Answered.{CountsTold, FaultTold, OfExpansion, OriginsTold};
ghost use Rattle.filgordd_c.specs.Answered.{PrintedTold, ReadingFaultTold, SourcesTold};
ghost use Rattle.filgordd_c.specs.Answered.{TokenRangesTold};
ghost use Rattle.filgordd_c.specs.Calls.{BoundaryTold, EditTold, ExpandTold, FitTold, PreludeTold};
ghost use Rattle.filgordd_c.specs.Calls.{SourceAdded, top_options};
ghost use Rattle.filgordd_c.specs.Conditions.{texts};
ghost use Rattle.filgordd_c.specs.Json.{JsonTold};
ghost use Rattle.filgordd_c.specs.Tellings.{Looks, Opened, OpenedBy, Tells, TextTold, Told};
ghost use Rattle.filgordd_c.specs.Words.{PositionTold, WordsTold, version, words_of_code};
ghost use Rattle.filgordd_c.specs.Words.{words_of_kind, words_of_read_kind};

use crate::answers::{ByteRange, Counts, SourceTold, ToldFault};
use crate::conditions::Word;
use crate::handle::Handle;
use crate::live::Given;
use crate::options::SessionOptions;
use crate::position::Position;
use crate::sources::Pick;
use crate::{calls, words};
use std::alloc::Global;

/// Opens a session over a copy of the text, in place of what the handle holds, which is freed.
/// Names find pieces of texts alone.
#[unsafe(no_mangle)]
pub extern "C" fn filgordd_raw_open(
    alloc: Global,
    handle: &mut Handle,
    text: &[u8],
    edition: u32,
    depth: u8,
    grammar: u32,
) -> u32
    ensures { Tells (Opened text.now (top_options edition depth grammar) None handle.old.held
        handle.new.held) result }
{
    let options = SessionOptions {
        edition,
        grammar,
        scope: 0,
        depth,
        calls: 0,
        tokens: 0,
    };
    calls::open(alloc, handle, text, &options, None).number()
}

/// Opens a session as `filgordd_raw_open` does, by all of its options.
#[unsafe(no_mangle)]
pub extern "C" fn filgordd_raw_open_with(
    alloc: Global,
    handle: &mut Handle,
    text: &[u8],
    options: &SessionOptions,
) -> u32
    ensures { Tells (Opened text.now options.now None handle.old.held handle.new.held) result }
{
    calls::open(alloc, handle, text, options, None).number()
}

/// Opens a session as `filgordd_raw_open_with` does, under the set of the options for conditional
/// compilation that these words name.
#[unsafe(no_mangle)]
pub extern "C" fn filgordd_raw_open_cfg(
    alloc: Global,
    handle: &mut Handle,
    text: &[u8],
    options: &SessionOptions,
    words: &[Word<'_>],
) -> u32
    ensures { Tells (OpenedBy (texts words.now) text.now options.now handle.old.held
        handle.new.held) result }
{
    calls::open_cfg(alloc, handle, text, options, words).number()
}

/// Closes the session and frees it. Nothing happens if the handle holds none.
#[unsafe(no_mangle)]
pub extern "C" fn filgordd_raw_close(alloc: Global, handle: &mut Handle)
    ensures { handle.new.held ≡ None }
{
    if let Some(live) = handle.take(alloc) {
        drop(live);
    }
}

/// The length of the text, and the text itself, copied to the beginning of the room.
#[unsafe(no_mangle)]
pub extern "C" fn filgordd_raw_text(
    alloc: Global,
    handle: &mut Handle,
    room: &mut [u8],
    len: &mut usize,
) -> u32
    ensures { Tells (Looks ((room.new ≡ room.old)
        × (len.new ≡ len.old)) (TextTold room.old room.new len.new) handle.old.held
        handle.new.held) result }
{
    calls::text(alloc, handle, room, len).number()
}

/// Whether the offset is a character boundary of the text.
#[unsafe(no_mangle)]
pub extern "C" fn filgordd_raw_is_boundary(alloc: Global, handle: &mut Handle, at: usize) -> u32
    ensures { Tells (Looks ⊤ (λ live. BoundaryTold live.session.text at) handle.old.held
        handle.new.held) result }
{
    calls::is_boundary(alloc, handle, at).number()
}

/// Whether `len` bytes can replace those from `start` to `end`.
#[unsafe(no_mangle)]
pub extern "C" fn filgordd_raw_fits(
    alloc: Global,
    handle: &mut Handle,
    start: usize,
    end: usize,
    len: usize,
) -> u32
    ensures { Tells (Looks ⊤ (λ live. FitTold live.session.text start «end» len) handle.old.held
        handle.new.held) result }
{
    calls::fits(alloc, handle, start, end, len).number()
}

/// The line and byte column of an offset, both from 1.
#[unsafe(no_mangle)]
pub extern "C" fn filgordd_raw_position(
    alloc: Global,
    handle: &mut Handle,
    at: usize,
    into: &mut Position,
) -> u32
    ensures { Tells (Looks (into.new ≡ into.old) (λ live.
        PositionTold live.session.text at into.old into.new) handle.old.held
        handle.new.held) result }
{
    calls::position(alloc, handle, at, into).number()
}

/// Replaces the bytes from `start` to `end`.
#[unsafe(no_mangle)]
pub extern "C" fn filgordd_raw_edit(
    alloc: Global,
    handle: &mut Handle,
    start: usize,
    end: usize,
    replacement: &[u8],
) -> u32
    ensures { Tells (Told ⊤ (EditTold start «end» replacement.now) handle.old.held
        handle.new.held) result }
{
    calls::edit(alloc, handle, start, end, replacement).number()
}

/// Expands the text. The answer is kept in place of the last one.
#[unsafe(no_mangle)]
pub extern "C" fn filgordd_raw_expand(alloc: Global, handle: &mut Handle) -> u32
    ensures { Tells (Told ⊤ ExpandTold handle.old.held handle.new.held) result }
{
    calls::expand(alloc, handle).number()
}

/// How much the expansion has.
#[unsafe(no_mangle)]
pub extern "C" fn filgordd_raw_counts(alloc: Global, handle: &mut Handle, into: &mut Counts) -> u32
    ensures { Tells (Looks (into.new ≡ into.old) (λ live.
        OfExpansion CountsTold into.old into.new live.answer) handle.old.held
        handle.new.held) result }
{
    calls::counts(alloc, handle, into).number()
}

/// The printed text, copied to the beginning of the room.
#[unsafe(no_mangle)]
pub extern "C" fn filgordd_raw_printed(alloc: Global, handle: &mut Handle, room: &mut [u8]) -> u32
    ensures { Tells (Looks (room.new ≡ room.old) (λ live.
        OfExpansion PrintedTold room.old room.new live.answer) handle.old.held
        handle.new.held) result }
{
    calls::printed(alloc, handle, room).number()
}

/// The last answer as a line of JSON, copied to the beginning of the room, and its length, unless
/// the text was edited since.
#[unsafe(no_mangle)]
pub extern "C" fn filgordd_raw_json(
    alloc: Global,
    handle: &mut Handle,
    room: &mut [u8],
    len: &mut usize,
) -> u32
    ensures { Tells (Looks ((room.new ≡ room.old)
        × (len.new ≡ len.old)) (JsonTold room.old room.new len.old len.new) handle.old.held
        handle.new.held) result }
{
    calls::json(alloc, handle, room, len).number()
}

/// The fault of this index.
#[unsafe(no_mangle)]
pub extern "C" fn filgordd_raw_fault(
    alloc: Global,
    handle: &mut Handle,
    index: usize,
    into: &mut ToldFault,
) -> u32
    ensures { Tells (Looks (into.new ≡ into.old) (λ live.
        OfExpansion (FaultTold index) into.old into.new live.answer) handle.old.held
        handle.new.held) result }
{
    calls::fault(alloc, handle, index, into).number()
}

/// The reading fault.
#[unsafe(no_mangle)]
pub extern "C" fn filgordd_raw_reading_fault(
    alloc: Global,
    handle: &mut Handle,
    into: &mut ToldFault,
) -> u32
    ensures { Tells (Looks (into.new ≡ into.old) (λ live.
        ReadingFaultTold into.old into.new live.answer) handle.old.held handle.new.held) result }
{
    calls::reading_fault(alloc, handle, into).number()
}

/// Where the printed tokens come from in the text, copied to the beginning of the room.
#[unsafe(no_mangle)]
pub extern "C" fn filgordd_raw_origins(
    alloc: Global,
    handle: &mut Handle,
    room: &mut [ByteRange],
) -> u32
    ensures { Tells (Looks (room.new ≡ room.old) (λ live.
        OfExpansion OriginsTold room.old room.new live.answer) handle.old.held
        handle.new.held) result }
{
    calls::origins(alloc, handle, room).number()
}

/// Where the printed tokens are in the printed text, copied to the beginning of the room.
#[unsafe(no_mangle)]
pub extern "C" fn filgordd_raw_token_ranges(
    alloc: Global,
    handle: &mut Handle,
    room: &mut [ByteRange],
) -> u32
    ensures { Tells (Looks (room.new ≡ room.old) (λ live.
        OfExpansion TokenRangesTold room.old room.new live.answer) handle.old.held
        handle.new.held) result }
{
    calls::token_ranges(alloc, handle, room).number()
}

/// Reads a text as a source, and keeps it in place of the one of its number. The prelude stays.
#[unsafe(no_mangle)]
pub extern "C" fn filgordd_raw_source(
    alloc: Global,
    handle: &mut Handle,
    number: u32,
    root: &[u8],
    edition: u32,
    text: &[u8],
    into: &mut SourceTold,
) -> u32
    ensures { Tells (Told (into.new ≡ into.old) (SourceAdded number root.now edition text.now
        into.old into.new) handle.old.held handle.new.held) result }
{
    let given = Given {
        number,
        root,
        edition,
        text,
    };
    calls::source(alloc, handle, &given, into).number()
}

/// Has the text expanded after these definitions, from the next expansion on.
#[unsafe(no_mangle)]
pub extern "C" fn filgordd_raw_prelude(alloc: Global, handle: &mut Handle, picks: &[Pick]) -> u32
    ensures { Tells (Told ⊤ (PreludeTold picks.now) handle.old.held handle.new.held) result }
{
    calls::prelude(alloc, handle, picks).number()
}

/// The number of the text that each printed token comes from, copied to the beginning of the room.
#[unsafe(no_mangle)]
pub extern "C" fn filgordd_raw_sources(alloc: Global, handle: &mut Handle, room: &mut [u32]) -> u32
    ensures { Tells (Looks (room.new ≡ room.old)
        (λ live. OfExpansion SourcesTold room.old room.new live.answer) handle.old.held
        handle.new.held) result }
{
    calls::sources(alloc, handle, room).number()
}

/// The version of the library, copied to the beginning of the room, and its length.
#[unsafe(no_mangle)]
pub extern "C" fn filgordd_raw_version(room: &mut [u8], len: &mut usize) -> u32
    ensures { Tells (WordsTold (Some version) room.old room.new len.old len.new) result }
{
    words::tell_version(room, len).number()
}

/// The words for the number of a code, copied to the beginning of the room, and their length.
#[unsafe(no_mangle)]
pub extern "C" fn filgordd_raw_code_words(number: u32, room: &mut [u8], len: &mut usize) -> u32
    ensures { Tells (WordsTold (words_of_code number) room.old room.new len.old len.new) result }
{
    words::tell_code(number, room, len).number()
}

/// The words for the number of a kind of fault, and their length.
#[unsafe(no_mangle)]
pub extern "C" fn filgordd_raw_fault_words(number: u32, room: &mut [u8], len: &mut usize) -> u32
    ensures { Tells (WordsTold (words_of_kind number) room.old room.new len.old len.new) result }
{
    words::tell_kind(number, room, len).number()
}

/// The words for the number of a kind of reading fault, and their length.
#[unsafe(no_mangle)]
pub extern "C" fn filgordd_raw_reading_fault_words(
    number: u32,
    room: &mut [u8],
    len: &mut usize,
) -> u32
    ensures { Tells (WordsTold (words_of_read_kind number) room.old room.new len.old len.new)
        result }
{
    words::tell_read_kind(number, room, len).number()
}

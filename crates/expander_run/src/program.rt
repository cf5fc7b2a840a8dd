//! A run of the program: it reads a text, expands it, writes the printed text and reports the
//! faults.
ghost use Rattle.std.specs.Prelude.{◌≡◌, ℕ, Err, [], ◌^◌, ◌<◌, false, List, length, take, Option};
ghost use Rattle.std.specs.Prelude.{None, IfOk, IfErr, string_bytes};
ghost use Rattle.std.specs.Io.KnownBytes.{Appends};
ghost use Rattle.expander_model.specs.Meaning.{meaning_in};
ghost use Rattle.expander_session.specs.Replies.{IsReplyIn, NeedsNumbersIn};
ghost use Rattle.expander_session.specs.State.{definitions_of};
ghost use Rattle.expander_run.specs.Lines.{report};
ghost use Rattle.expander_run.specs.Runs.{IsAllOf, NeedsIds, Puts, Runs, RunsAfter, RunsBy, Tells};
ghost use Rattle.expander_run.specs.Runs.{layers_of, status, status_of};
ghost use Rattle.expander_session.specs.TooMany.{NeedsTooManyIn};
ghost use Rattle.expander_run.specs.Steps.{PutsReply, Replied, StopsEarly, StopsReading};

use crate::lines::{report, stop_line};
use crate::options::Options;
use crate::stop::Stop;
use crate::watched::Watched;
use expander_model::dialect::Dialect;
use expander_session::expander_scope::refusal::Refusal;
use expander_session::expander_sources::prelude::Prelude;
use expander_session::laws;
use expander_session::session::{Reply, Session};
use fragment_grammar::FragmentGrammar;
use small_grammar::SmallGrammar;
use std::alloc::Global;
use std::io::{Read, Write};
use tt_data::Edition;

/// The exit status of a program: 0 for success.
#[derive(Clone, Copy, Debug, PartialEq, Eq)]
pub struct Status(pub u8);

/// Reads a text to its end, expands it with `depth` levels by the small grammar in edition 2024,
/// where names find pieces of the text alone, writes and flushes what it prints, and reports its
/// faults.
///
/// The status is 0 if the text was read and has no fault, else 1. If the run stops or the text has
/// a reading fault, nothing is written, except that a failed write leaves the first bytes of the
/// printed text. Of a text with a reading fault, and of a run that stops before it writes, the
/// writer is not asked anything: it is not flushed.
///
/// `faults` gets a line for each fault, as `line 2, byte column 1: recursion limit reached` (both
/// numbers from 1), or one line for why the run stops, as `read failed`, and is flushed. After the
/// first error of a stream, of any kind, nothing more is asked of it.
///
/// None of the three streams has failed before.
pub fn run<R: Read, W: Write, E: Write>(
    alloc: Global,
    reader: &mut Watched<R>,
    writer: &mut Watched<W>,
    faults: &mut Watched<E>,
    depth: u8,
) -> Status
    requires reader_fresh { reader.old.failed ≡ false }
    requires writer_fresh { writer.old.failed ≡ false }
    requires faults_fresh { faults.old.failed ≡ false }
    ensures runs { (stop : Option Stop) × Runs stop (R.remaining reader.old.inner) depth
        (Appends (W.contents writer.old.inner) (W.contents writer.new.inner))
        (Appends (E.contents faults.old.inner) (E.contents faults.new.inner)) reader.new writer.old
        writer.new faults.new result }
    ensures untold { result ≡ status 0 → faults.new ≡ faults.old }
{
    let options = Options {
        grammar: SmallGrammar,
        edition: Edition::Edition2024,
        dialect: Dialect::top_level(),
        depth,
    };
    run_with(alloc, reader, writer, faults, options)
}

/// Runs as [`run`] does, by a grammar, an edition, a dialect and a number of levels that the
/// caller chooses.
///
/// What is read, written and reported, and the status, are as `run` has them, with `options` in
/// place of the small grammar, edition 2024, `Dialect::top_level()` and `depth`. None of the three
/// streams has failed before.
pub fn run_with<G: FragmentGrammar + Drop, R: Read, W: Write, E: Write>(
    alloc: Global,
    reader: &mut Watched<R>,
    writer: &mut Watched<W>,
    faults: &mut Watched<E>,
    options: Options<G>,
) -> Status
    requires reader_fresh { reader.old.failed ≡ false }
    requires writer_fresh { writer.old.failed ≡ false }
    requires faults_fresh { faults.old.failed ≡ false }
    ensures runs { (stop : Option Stop)
        × RunsBy (layers_of G.answer options) stop (R.remaining reader.old.inner) options.depth
        (Appends (W.contents writer.old.inner) (W.contents writer.new.inner))
        (Appends (E.contents faults.old.inner) (E.contents faults.new.inner)) reader.new writer.old
        writer.new faults.new result }
    ensures untold { result ≡ status 0 → faults.new ≡ faults.old }
{
    run_after(alloc, reader, writer, faults, options, Prelude::new(alloc))
}

/// Runs as [`run_with`] does, and expands the text after these definitions of other texts: its own
/// come after them, so they are nearer.
///
/// Only with definitions of other texts can there be more of them than ids: then the run stops, and
/// reports `too many definitions`.
pub fn run_after<G: FragmentGrammar + Drop, R: Read, W: Write, E: Write>(
    alloc: Global,
    reader: &mut Watched<R>,
    writer: &mut Watched<W>,
    faults: &mut Watched<E>,
    options: Options<G>,
    prelude: Prelude,
) -> Status
    requires reader_fresh { reader.old.failed ≡ false }
    requires writer_fresh { writer.old.failed ≡ false }
    requires faults_fresh { faults.old.failed ≡ false }
    ensures runs { (stop : Option Stop)
        × RunsAfter (layers_of G.answer options) prelude stop (R.remaining reader.old.inner)
        options.depth
        (Appends (W.contents writer.old.inner) (W.contents writer.new.inner))
        (Appends (E.contents faults.old.inner) (E.contents faults.new.inner)) reader.new writer.old
        writer.new faults.new result }
    ensures untold { result ≡ status 0 → faults.new ≡ faults.old }
{
    match answer_input(alloc, reader, options, prelude) {
        Ok((reply, told)) => {
            if put_reply(writer, &reply) {
                tell(faults, told.as_str());
                status_of(&reply)
            } else {
                tell(faults, stop_line(Stop::WriteFailed));
                Status(1)
            }
        }
        Err(stop) => {
            tell(faults, stop_line(stop));
            Status(1)
        }
    }
}

// The session's reply to the whole input after these definitions, and its report.
fn answer_input<G: FragmentGrammar + Drop, R: Read>(
    alloc: Global,
    reader: &mut Watched<R>,
    options: Options<G>,
    prelude: Prelude,
) -> Result<(Reply, String), Stop>
    requires { reader.old.failed ≡ false }
    ensures replied { IfOk result (λ answer.
        Replied (layers_of G.answer options) prelude (R.remaining reader.old.inner) options.depth
        answer.0 (string_bytes answer.1)) }
    ensures read { IfOk result (λ answer. reader.new.failed ≡ false) }
    ensures stopped { IfErr result (λ stop.
        StopsEarly (layers_of G.answer options) prelude stop (R.remaining reader.old.inner)
        options.depth reader.new.failed) }
{
    let bytes = read_all(alloc, reader)?;
    let text = std::str::from_utf8(bytes.as_slice()).map_err(|_| Stop::NotUtf8)?;
    answer(alloc, text, options, prelude).map_err(Stop::Refused)
}

// The reply of a new session over this text after these definitions.
fn expanded<G: FragmentGrammar + Drop>(
    alloc: Global,
    text: &str,
    options: Options<G>,
    prelude: Prelude,
) -> Result<Reply, Refusal>
    requires { length text.now < 2 ^ 32 }
    ensures reply { IfOk result (IsReplyIn (layers_of G.answer options) options.depth
        (definitions_of prelude) text.now None) }
    ensures tokens { result ≡ Err Refusal.Tokens →
        NeedsTooManyIn (layers_of G.answer options) options.depth
        (definitions_of prelude) text.now }
    ensures numbers { result ≡ Err Refusal.Numbers
        → NeedsNumbersIn 0 [] prelude (meaning_in (layers_of G.answer options) options.depth
        (definitions_of prelude) text.now) }
{
    let Options {
        grammar,
        edition,
        dialect,
        depth,
    } = options;
    let mut session = Session::with_dialect(alloc, text, grammar, edition, dialect, depth)?;
    session.set_prelude(prelude);
    session.expansion()
}

// The reply of a session over this text, and its report. The report is made before anything is
// written, so that nothing is written when memory runs out.
fn answer<G: FragmentGrammar + Drop>(
    alloc: Global,
    text: &str,
    options: Options<G>,
    prelude: Prelude,
) -> Result<(Reply, String), Refusal>
    requires { length text.now < 2 ^ 32 }
    ensures reply { IfOk result (λ answer.
        IsReplyIn (layers_of G.answer options) options.depth (definitions_of prelude) text.now None
        answer.0) }
    ensures told { IfOk result (λ answer. string_bytes answer.1 ≡ report text.now answer.0) }
    ensures tokens { result ≡ Err Refusal.Tokens →
        NeedsTooManyIn (layers_of G.answer options) options.depth
        (definitions_of prelude) text.now }
    ensures numbers { result ≡ Err Refusal.Numbers →
        NeedsIds (layers_of G.answer options) prelude options.depth text.now }
{
    laws::definitions_are_no_more_than_bytes();
    let reply = expanded(alloc, text, options, prelude)?;
    let told = report(alloc, text, &reply)?;
    Ok((reply, told))
}

// All bytes up to the end, or why they could not be read.
fn read_all<R: Read>(alloc: Global, reader: &mut Watched<R>) -> Result<Vec<u8>, Stop>
    requires { reader.old.failed ≡ false }
    ensures whole { IfOk result (λ bytes. IsAllOf (R.remaining reader.old.inner) bytes.items) }
    ensures short { IfOk result (λ bytes. length bytes.items < 2 ^ 32) }
    ensures read { IfOk result (λ bytes. reader.new.failed ≡ false) }
    ensures stopped { IfErr result (λ stop.
        StopsReading stop (R.remaining reader.old.inner) reader.new.failed) }
{
    let mut bytes = Vec::new(alloc);
    let mut buf = [0u8; 4096];
    while bytes.len() <= u32::MAX as usize {
        match reader.read(&mut buf) {
            Ok(0) => return Ok(bytes),
            Ok(n) => {
                if bytes.extend_from_slice(&buf[..n]).is_err() {
                    return Err(Stop::Refused(Refusal::Memory));
                }
            }
            Err(_) => return Err(Stop::ReadFailed),
        }
    }
    Err(Stop::TooLong)
}

/// Writes and flushes bytes, and says whether all were. After an error nothing more is asked of the
/// writer, which has then taken the first of them.
pub fn put<W: Write>(writer: &mut Watched<W>, bytes: &[u8]) -> bool
    requires { writer.old.failed ≡ false }
    ensures { Puts (W.contents writer.old.inner) (W.contents writer.new.inner) writer.new
        bytes.now result }
{
    let mut at = 0;
    while at < bytes.len() {
        match writer.write(&bytes[at..]) {
            Ok(0) => return false,
            Ok(n) => at += n,
            Err(_) => return false,
        }
    }
    writer.flush().is_ok()
}

// Whether what a reply prints was written and flushed.
fn put_reply<W: Write>(writer: &mut Watched<W>, reply: &Reply) -> bool
    requires { writer.old.failed ≡ false }
    ensures { PutsReply (W.contents writer.old.inner) (W.contents writer.new.inner) writer.old
        writer.new reply.now result }
{
    match reply {
        Reply::Read(expansion) => put(writer, expansion.printed().as_bytes()),
        Reply::Unread(_) => true,
    }
}

// Writes these lines, if there are any.
fn tell<E: Write>(faults: &mut Watched<E>, told: &str)
    requires { faults.old.failed ≡ false }
    ensures told { Tells told.now (Appends (E.contents faults.old.inner)
        (E.contents faults.new.inner)) faults.new }
    ensures untold { length told.now ≡ 0 → faults.new ≡ faults.old }
{
    if !told.is_empty() {
        put(faults, told.as_bytes());
    }
}

// 0 if the text was read and has no fault, else 1.
fn status_of(reply: &Reply) -> Status
    ensures { result ≡ status_of reply.now }
{
    match reply {
        Reply::Read(expansion) => {
            if expansion.faults().is_empty() {
                Status(0)
            } else {
                Status(1)
            }
        }
        Reply::Unread(_) => Status(1),
    }
}

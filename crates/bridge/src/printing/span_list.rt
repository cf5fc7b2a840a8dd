//! Lists of spans. Some spans are shared with a chunk, and computed when they are asked for.
ghost use Rattle.std.specs.Prelude.{◌≡◌, ℕ, ◌+◌, ◌≤◌, ◌<◌, ◌^◌, ◌-◌, ◌∷◌, ◌++◌, [], IfOk, IfSome};
ghost use Rattle.std.specs.Prelude.{OnErr, OnOk, leb, length, map, slice_get, take, true};
ghost use Rattle.std.specs.List.{AllWithin, list_all};
ghost use Rattle.std.specs.Rc.{rc_value};
ghost use Rattle.tt_data.specs.declared.span.Span.{Span};
ghost use Rattle.bridge.specs.RelativeSpans.{is_in_text, shifted};
ghost use Rattle.bridge.specs.SpanLists.{AreSpanRuns, AreRuns, AreSameRuns, IsRun, PutsShifted};
ghost use Rattle.bridge.specs.SpanLists.{run_spans, spans_in};

use crate::printing::relative_spans::{RelativeSpans, Shift, shifted};
use std::alloc::{AllocError, Global};
use std::marker::Model;
use std::mem::{replace, size_of, size_of_val};
use std::rc::Rc;
use tt_data::Span;

// The most spans that may be in runs.
const MOST: usize = 1 << 62;

// Shared spans, shifted or as they are: those of the list from index `begin` to before `end`.
#[derive(Drop)]
struct SpanRun {
    begin: usize,
    end: usize,
    shift: Option<Shift>,
    spans: Rc<RelativeSpans>,
}

#[derive(Drop)]
struct SpanRuns {
    runs: Vec<SpanRun>,
    // How many spans are in runs.
    shared: usize,
    // The spans after the runs.
    own: Vec<Span>,
}

/// A list of spans, some of them shared with a chunk and computed when asked for. A refused call
/// changes nothing.
#[derive(Drop)]
pub struct SpanList {
    inner: SpanRuns,
}

impl Model for SpanList {
    ghost use Rattle.std.specs.Prelude.{List};
    ghost use Rattle.tt_data.specs.declared.span.Span.{Span};
    ghost use Rattle.bridge.specs.SpanLists.{AreSpanRuns, spans_in};

    ghost Value = { List Span };

    ghost view = { λ p. spans_in p.inner };

    ghost invariant = { λ p. AreSpanRuns p.inner };
}

impl SpanList {
    /// An empty list.
    pub fn new(alloc: Global) -> SpanList
        ensures { result ≡ [] }
    {
        SpanList {
            inner: SpanRuns {
                runs: Vec::new(alloc),
                shared: 0,
                own: Vec::new(alloc),
            },
        }
    }

    /// An empty list with room for so many runs of shared spans, and for so many others.
    pub fn with_room(alloc: Global, runs: usize, own: usize) -> Result<SpanList, AllocError>
        ensures { IfOk result (λ places. places ≡ []) }
    {
        let runs = Vec::with_capacity(alloc, runs)?;
        let own = Vec::with_capacity(alloc, own)?;
        Ok(SpanList {
            inner: SpanRuns {
                runs,
                shared: 0,
                own,
            },
        })
    }

    /// The number of spans, which is far less than an index can count to.
    pub fn len(&self) -> usize
        ensures len { result ≡ length self.now }
        ensures fits { result < 2 ^ 63 }
    {
        self.inner.shared + count(self.inner.own.as_slice())
    }

    /// The span of this index, from 0, if there is one.
    pub fn get(&self, i: usize) -> Option<Span>
        ensures { result ≡ slice_get self.now i }
    {
        place_at(&self.inner, i)
    }

    /// Appends a span.
    pub fn push(&mut self, span: Span) -> Result<(), AllocError>
        ensures ok { OnOk result (self.new ≡ self.old ++ span ∷ []) }
        ensures err { OnErr result (self.new ≡ self.old) }
    {
        match self.inner.own.push(span) {
            Ok(()) => Ok(()),
            Err(_) => Err(AllocError),
        }
    }

    /// Appends these spans.
    pub fn extend_from_slice(&mut self, spans: &[Span]) -> Result<(), AllocError>
        ensures ok { OnOk result (self.new ≡ self.old ++ spans.now) }
        ensures err { OnErr result (self.new ≡ self.old) }
    {
        self.inner.own.extend_from_slice(spans)
    }

    /// Appends shared spans, shifted, without copying them. `false`, with nothing changed, if they
    /// would be no spans of a text.
    pub fn push_shared(
        &mut self,
        shared: &Rc<RelativeSpans>,
        shift: Shift,
    ) -> Result<bool, AllocError>
        ensures ok { IfOk result (PutsShifted self.old self.new (rc_value shared.now) shift) }
        ensures err { OnErr result (self.new ≡ self.old) }
    {
        push_shifted(&mut self.inner, shared, shift)
    }

    /// Keeps the first `count` spans.
    pub fn truncate(&mut self, count: usize)
        ensures { self.new ≡ take count self.old }
    {
        cut(&mut self.inner, count)
    }

    /// The spans in one vector. Refused if there is no memory for it.
    pub fn take_spans(&mut self) -> Result<Vec<Span>, AllocError>
        ensures ok { IfOk result (λ spans. spans.items ≡ self.old) }
        ensures err { OnErr result (self.new ≡ self.old) }
    {
        all_spans(&mut self.inner)
    }

    /// Equal spans. Refused if there is no memory for them.
    pub fn try_clone(&self, alloc: Global) -> Result<SpanList, AllocError>
        ensures { IfOk result (λ p. p ≡ self.now) }
    {
        let runs = copied_runs(alloc, self.inner.runs.as_slice())?;
        let own = Vec::from_slice(alloc, self.inner.own.as_slice())?;
        Ok(SpanList {
            inner: SpanRuns {
                runs,
                shared: self.inner.shared,
                own,
            },
        })
    }
}

// The number of spans. Each takes more than a byte, so it is far less than an index can count to.
fn count(spans: &[Span]) -> usize
    ensures count { result ≡ length spans.now }
    ensures few { result < 2 ^ 62 }
{
    size_of_val(spans) / size_of::<Span>()
}

// The index after `count` spans that follow `shared` others. `None` if it is too large.
fn end_behind(shared: usize, count: usize) -> Option<usize>
    ensures { IfSome result (λ end_at. (end_at ≡ shared + count) × (end_at ≤ 2 ^ 62)) }
{
    let end = shared.checked_add(count)?;
    if end <= MOST { Some(end) } else { None }
}

// How many runs end at this index or before it.
fn runs_before(runs: &[SpanRun], i: usize) -> usize
    requires { (shared : ℕ) × AreRuns 0 runs.now shared }
    ensures bound { result ≤ length runs.now }
    ensures before { AllWithin (λ r. r.«end» ≤ i) runs.now 0 result }
    ensures behind { AllWithin (λ r. i < r.«end») runs.now result (length runs.now) }
{
    runs.partition_point(
        |run: &SpanRun| -> bool
            ensures { result ≡ leb run.now.«end» i }
        { run.end <= i },
    )
}

// The span at index `i` of the list, which is in this run.
fn place_in(run: &SpanRun, i: usize) -> Option<Span>
    requires right { IsRun run.now.begin run.now }
    requires begin { run.now.begin ≤ i }
    requires inside { i < run.now.«end» }
    ensures { result ≡ slice_get (run_spans run.now) (i - run.now.begin) }
{
    let span = *run.spans.as_slice().get(i - run.begin)?;
    match run.shift {
        None => Some(span),
        Some(shift) => Some(shifted(shift, span)),
    }
}

fn own_at(spans: &[Span], i: usize) -> Option<Span>
    ensures { result ≡ slice_get spans.now i }
{
    spans.get(i).copied()
}

fn place_at(inner: &SpanRuns, i: usize) -> Option<Span>
    requires { AreSpanRuns inner.now }
    ensures { result ≡ slice_get (spans_in inner.now) i }
{
    if i >= inner.shared {
        return own_at(inner.own.as_slice(), i - inner.shared);
    }
    let at = runs_before(inner.runs.as_slice(), i);
    place_in(&inner.runs[at], i)
}

// Spans as they are, as a run.
fn run_of(alloc: Global, begin: usize, end: usize, spans: &[Span]) -> Result<SpanRun, AllocError>
    requires { «end» ≡ begin + length spans.now }
    ensures { IfOk result (λ r. IsRun begin r × (run_spans r ≡ spans.now) × (r.«end» ≡ «end»)) }
{
    let spans = RelativeSpans::new(Vec::from_slice(alloc, spans)?);
    match Rc::new(alloc, spans) {
        Ok(spans) => Ok(SpanRun {
            begin,
            end,
            shift: None,
            spans,
        }),
        Err(_) => Err(AllocError),
    }
}

// Shared spans, shifted, as a run.
fn shifted_run(
    begin: usize,
    end: usize,
    shared: &Rc<RelativeSpans>,
    shift: Shift,
) -> Result<SpanRun, AllocError>
    requires long { «end» ≡ begin + length (rc_value shared.now) }
    requires fits { list_all (is_in_text shift) (rc_value shared.now) ≡ true }
    ensures { IfOk result (λ r. IsRun begin r ×
        (run_spans r ≡ map (shifted shift) (rc_value shared.now)) × (r.«end» ≡ «end»)) }
{
    let spans = shared.clone()?;
    Ok(SpanRun {
        begin,
        end,
        shift: Some(shift),
        spans,
    })
}

// Turns the spans after the runs into a run. `false`, with nothing changed, if there would be too
// many.
fn settle(inner: &mut SpanRuns) -> Result<bool, AllocError>
    requires { AreSpanRuns inner.old }
    ensures right { AreSpanRuns inner.new }
    ensures same { spans_in inner.new ≡ spans_in inner.old }
    ensures none { IfOk result (λ done. done ≡ true → inner.new.own.items ≡ []) }
{
    if inner.own.is_empty() {
        return Ok(true);
    }
    let Some(end) = end_behind(inner.shared, inner.own.len()) else {
        return Ok(false);
    };
    let alloc = *inner.own.allocator();
    let run = run_of(alloc, inner.shared, end, inner.own.as_slice())?;
    if inner.runs.push(run).is_err() {
        return Err(AllocError);
    }
    inner.shared = end;
    inner.own.clear();
    Ok(true)
}

fn push_shifted(
    inner: &mut SpanRuns,
    shared: &Rc<RelativeSpans>,
    shift: Shift,
) -> Result<bool, AllocError>
    requires { AreSpanRuns inner.old }
    ensures right { AreSpanRuns inner.new }
    ensures ok { IfOk result (PutsShifted (spans_in inner.old) (spans_in inner.new)
        (rc_value shared.now) shift) }
    ensures err { OnErr result (spans_in inner.new ≡ spans_in inner.old) }
{
    if !shared.fits(shift) || !settle(inner)? {
        return Ok(false);
    }
    let Some(end) = end_behind(inner.shared, shared.as_slice().len()) else {
        return Ok(false);
    };
    let run = shifted_run(inner.shared, end, shared, shift)?;
    if inner.runs.push(run).is_err() {
        return Err(AllocError);
    }
    inner.shared = end;
    Ok(true)
}

fn cut(inner: &mut SpanRuns, count: usize)
    requires { AreSpanRuns inner.old }
    ensures right { AreSpanRuns inner.new }
    ensures cut { spans_in inner.new ≡ take count (spans_in inner.old) }
{
    if count >= inner.shared {
        inner.own.truncate(count - inner.shared);
        return;
    }
    let last = runs_before(inner.runs.as_slice(), count);
    inner.runs.truncate(last + 1);
    inner.runs[last].end = count;
    inner.shared = count;
    inner.own.clear();
}

// All spans, copied.
fn copied(alloc: Global, inner: &SpanRuns) -> Result<Vec<Span>, AllocError>
    requires { AreSpanRuns inner.now }
    ensures { IfOk result (λ spans. spans.items ≡ spans_in inner.now) }
{
    let count = inner.shared + inner.own.len();
    let mut spans = Vec::with_capacity(alloc, count)?;
    for i in 0..count {
        let Some(span) = place_at(inner, i) else {
            unreachable!()
        };
        spans.push(span)?;
    }
    Ok(spans)
}

fn all_spans(inner: &mut SpanRuns) -> Result<Vec<Span>, AllocError>
    requires { AreSpanRuns inner.old }
    ensures right { AreSpanRuns inner.new }
    ensures ok { IfOk result (λ spans. spans.items ≡ spans_in inner.old) }
    ensures err { OnErr result (spans_in inner.new ≡ spans_in inner.old) }
{
    let alloc = *inner.own.allocator();
    if inner.runs.is_empty() {
        return Ok(replace(&mut inner.own, Vec::new(alloc)));
    }
    copied(alloc, inner)
}

// Copies of the runs, which share their spans.
fn copied_runs(alloc: Global, runs: &[SpanRun]) -> Result<Vec<SpanRun>, AllocError>
    ensures { IfOk result (λ copy. AreSameRuns copy.items runs.now) }
{
    let mut copy = Vec::with_capacity(alloc, runs.len())?;
    for run in runs {
        copy.push(SpanRun {
            begin: run.begin,
            end: run.end,
            shift: run.shift,
            spans: run.spans.clone()?,
        })?;
    }
    Ok(copy)
}

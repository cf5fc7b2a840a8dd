//! Readers and writers that remember whether they failed.
ghost use Rattle.std.specs.Prelude.{◌≡◌, ◌||◌, false, not};
ghost use Rattle.std.specs.Io.{ReadsAtMost, WritesAtMost};
ghost use Rattle.std.specs.Io.KnownBytes.{Keeps, ReadConsumes, WriteAppends};
ghost use Rattle.expander_run.specs.Watch.{Watch, is_bad_write, is_error};

use std::io;
use std::io::{Read, Write};
use std::marker::Model;

/// A reader or writer that remembers whether one of its calls failed.
///
/// `read`, `write` and `flush` go to the one inside. Contracts know its bytes where it tells them.
#[derive(Drop)]
pub struct Watched<T> {
    inner: T,
    failed: bool,
    // Whether the last call was a flush that succeeded.
    flushed: bool,
}

impl<T> Model for Watched<T> {
    ghost use Rattle.expander_run.specs.Watch.{Watch};

    ghost Value = { Watch T };

    ghost view = { λ w. record { inner = w.inner; failed = w.failed; flushed = w.flushed } };
}

impl<T> Watched<T> {
    /// A reader or writer that has not failed yet.
    pub fn new(inner: T) -> Self
        ensures { result ≡ record { inner = inner; failed = false; flushed = false } }
    {
        Watched {
            inner,
            failed: false,
            flushed: false,
        }
    }

    /// The reader or writer inside.
    pub fn into_inner(self) -> T
        ensures { result ≡ self.inner }
    {
        self.inner
    }

    /// Whether a call has answered an error of any kind, or taken 0 bytes of a write that isn't
    /// empty.
    pub fn failed(&self) -> bool
        ensures { result ≡ self.now.failed }
    {
        self.failed
    }
}

impl<T: Read> Read for Watched<T> {
    ghost remaining = { λ w. T.remaining w.inner };

    fn read(&mut self, buf: &mut [u8]) -> io::Result<usize>
        ensures bound { ReadsAtMost result buf.new }
        ensures bytes { ReadConsumes (T.remaining self.old.inner) (T.remaining self.new.inner)
            result buf.new }
        ensures failed { self.new.failed ≡ (self.old.failed || is_error result) }
        ensures flushed { self.new.flushed ≡ false }
    {
        let result = self.inner.read(buf);
        self.flushed = false;
        if result.is_err() {
            self.failed = true;
        }
        result
    }
}

impl<T: Write> Write for Watched<T> {
    ghost contents = { λ w. T.contents w.inner };

    fn write(&mut self, buf: &[u8]) -> io::Result<usize>
        ensures bound { WritesAtMost result buf.now }
        ensures bytes { WriteAppends (T.contents self.old.inner) (T.contents self.new.inner)
            result buf.now }
        ensures failed { self.new.failed ≡ (self.old.failed || is_bad_write buf.now result) }
        ensures flushed { self.new.flushed ≡ false }
    {
        let result = self.inner.write(buf);
        self.flushed = false;
        match &result {
            Ok(taken) => {
                if *taken == 0 && !buf.is_empty() {
                    self.failed = true;
                }
            }
            Err(_) => self.failed = true,
        }
        result
    }

    fn flush(&mut self) -> io::Result<()>
        ensures bytes { Keeps (T.contents self.old.inner) (T.contents self.new.inner) }
        ensures failed { self.new.failed ≡ (self.old.failed || is_error result) }
        ensures flushed { self.new.flushed ≡ not (is_error result) }
    {
        let result = self.inner.flush();
        self.flushed = result.is_ok();
        if !self.flushed {
            self.failed = true;
        }
        result
    }
}

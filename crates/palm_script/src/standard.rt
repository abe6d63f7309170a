// Sources and sinks over the readers and writers of std. They tell as much as those do.
ghost use Rattle.std.specs.Prelude.{◌≡◌, ◌<◌, length, take, IfOk};
ghost use Rattle.std.specs.Io.{WritesAtMost};
ghost use Rattle.std.specs.Io.KnownBytes.{Appends, WriteAppends};
ghost use Rattle.palm_script.specs.Causes.{HasCause};

use crate::traits::{Failed, Sink, Source};
use std::io::{Read, Write};
use std::marker::Model;

/// A source over a reader of std, as standard input. It raises its count of faults at each error. Contracts see the
/// reader and the count.
#[derive(Debug, Drop)]
pub struct StdSource<R> {
    inner: R,
    faults: u64,
}

impl<R> Model for StdSource<R> {
    ghost use Rattle.std.specs.Prelude.{ℕ};

    ghost Value = { R × ℕ };

    ghost view = { λ a. (a.inner, a.faults) };
}

impl<R> StdSource<R> {
    /// A source over this reader, with no fault so far.
    pub fn new(inner: R) -> StdSource<R>
        ensures { result ≡ (inner, 0) }
    {
        StdSource { inner, faults: 0 }
    }
}

impl<R: Read> Source for StdSource<R> {
    ghost left = { λ s. R.remaining s.0 };

    ghost faults = { λ s. s.1 };

    fn read(&mut self, buf: &mut [u8]) -> Result<usize, Failed> {
        match self.inner.read(buf) {
            Ok(count) => Ok(count),
            Err(_) => {
                self.faults = self.faults.saturating_add(1);
                Err(Failed)
            }
        }
    }
}

/// A sink over a writer of std, as standard output. Each write is flushed. It tells no bytes as a sink, but as many
/// as its writer tells. It raises its count of faults at each error and where the writer takes nothing of a part
/// that isn't empty. Where flushing fails, the writer may have taken a front of the part. Contracts see the writer
/// and the count.
#[derive(Debug, Drop)]
pub struct StdSink<W> {
    inner: W,
    faults: u64,
}

impl<W> Model for StdSink<W> {
    ghost use Rattle.std.specs.Prelude.{ℕ};

    ghost Value = { W × ℕ };

    ghost view = { λ a. (a.inner, a.faults) };
}

impl<W> StdSink<W> {
    /// A sink over this writer, with no fault so far.
    pub fn new(inner: W) -> StdSink<W>
        ensures { result ≡ (inner, 0) }
    {
        StdSink { inner, faults: 0 }
    }
}

impl<W: Write> Sink for StdSink<W> {
    ghost use Rattle.std.specs.Prelude.{None};

    ghost taken = { λ _. None };

    ghost faults = { λ s. s.1 };

    /// Hands the part to the writer, which then holds as many of its bytes as are answered.
    fn write(&mut self, part: &[u8]) -> Result<usize, Failed>
        ensures bound { WritesAtMost result part.now }
        ensures bytes { WriteAppends None None result part.now }
        ensures some { 0 < length part.now → IfOk result (λ n. 0 < n) }
        ensures cause { HasCause self.old.1 self.new.1 result }

        ensures contents { IfOk result (λ n.
            Appends (W.contents self.old.0) (W.contents self.new.0) (take n part.now)) }
    {
        let written = self.inner.write(part);
        let flushed = self.inner.flush();
        match (written, flushed) {
            (Ok(count), Ok(())) if count > 0 || part.is_empty() => Ok(count),
            _ => {
                self.faults = self.faults.saturating_add(1);
                Err(Failed)
            }
        }
    }
}

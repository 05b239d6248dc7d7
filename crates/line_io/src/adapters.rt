//! Sources and sinks over the readers and writers of std. What these give and take is theirs to say; here calls, bytes and faults are counted:
//! each call makes one call of what is adapted, and answers a fault where that failed.
ghost use Rattle.std.specs.Prelude.{◌≡◌, ◌+◌, ◌<◌, ◌≤◌, ℕ, List, length, IfOk};
ghost use Rattle.std.specs.declared.option.Option.{Option};
ghost use Rattle.std.specs.Io.KnownBytes.{ReadConsumes, WriteAppends};
ghost use Rattle.line_io.specs.Calls.{AsksAtMost};
ghost use Rattle.line_io.specs.Causes.{HasCause, in_64_bits};
ghost use Rattle.line_io.specs.Memory.{AdapterPuts, AdapterTakes};
ghost use Rattle.line_io.specs.View.{Adapter};

use crate::counted::Counted;
use crate::outside::{Failed, Sink, Source};
use std::io::{Read, Write};
use std::marker::Model;

/// A reader of std as a source. Each error is a fault.
#[derive(Drop)]
pub struct StdSource<R: Read + Drop> {
    inner: Counted<R>,
    faults: u64,
    bytes_read: u64,
}

impl<R: Read + Drop> Model for StdSource<R> {
    ghost use Rattle.line_io.specs.View.{Adapter};

    ghost Value = { Adapter R };

    ghost view = { λ s. record { inner = s.inner.inner; calls = s.inner.calls; faults = s.faults; bytes = s.bytes_read } };
}

impl<R: Read + Drop> StdSource<R> {
    /// A source over this reader, which didn't fail yet.
    pub fn new(inner: R) -> StdSource<R>
        ensures { result ≡ record { inner = inner; calls = 0; faults = 0; bytes = 0 } }
    {
        StdSource {
            inner: Counted::new(inner),
            faults: 0,
            bytes_read: 0,
        }
    }
}

impl<R: Read + Drop> Source for StdSource<R> {
    ghost left = { λ s. R.remaining s.inner };

    ghost faults = { λ s. in_64_bits s.faults };

    ghost takes = { AdapterTakes };

    fn take(&mut self, into: &mut [u8]) -> Result<usize, Failed>
        requires { 0 < length into.old }
        ensures bound { IfOk result (λ n. n ≤ length into.new) }
        ensures bytes { ReadConsumes (R.remaining self.old.inner) (R.remaining self.new.inner) result into.new }
        ensures cause { HasCause (in_64_bits self.old.faults) (in_64_bits self.new.faults) result }
        ensures takes { AdapterTakes self.old (length into.old) result self.new }
    {
        match self.inner.read(into) {
            Ok(count) => {
                self.bytes_read = self.bytes_read.saturating_add(count as u64);
                Ok(count)
            }
            Err(_) => {
                self.faults = self.faults.saturating_add(1);
                Err(Failed)
            }
        }
    }
}

/// Whatever calls are made of a source over std: if they give at most so many bytes together, its count of bytes rises by no more.
pub fn bytes_are_counted<R: Read + Drop>()
    ensures { (s s' : Adapter R) (limit : ℕ) → AsksAtMost AdapterTakes limit s s' → s'.bytes ≤ s.bytes + limit }
{}

/// A writer of std as a sink. Each error is a fault, and so is a write that takes no byte.
#[derive(Drop)]
pub struct StdSink<W: Write + Drop> {
    inner: Counted<W>,
    faults: u64,
    bytes_written: u64,
}

impl<W: Write + Drop> Model for StdSink<W> {
    ghost use Rattle.line_io.specs.View.{Adapter};

    ghost Value = { Adapter W };

    ghost view = { λ s. record { inner = s.inner.inner; calls = s.inner.calls; faults = s.faults; bytes = s.bytes_written } };
}

impl<W: Write + Drop> StdSink<W> {
    /// A sink over this writer, which didn't fail yet.
    pub fn new(inner: W) -> StdSink<W>
        ensures { result ≡ record { inner = inner; calls = 0; faults = 0; bytes = 0 } }
    {
        StdSink {
            inner: Counted::new(inner),
            faults: 0,
            bytes_written: 0,
        }
    }
}

impl<W: Write + Drop> Sink for StdSink<W> {
    ghost held = { λ s. W.contents s.inner };

    ghost faults = { λ s. in_64_bits s.faults };

    ghost puts = { AdapterPuts };

    fn put(&mut self, piece: &[u8]) -> Result<usize, Failed>
        requires { 0 < length piece.now }
        ensures bound { IfOk result (λ n. (0 < n) × (n ≤ length piece.now)) }
        ensures bytes { WriteAppends (W.contents self.old.inner) (W.contents self.new.inner) result piece.now }
        ensures cause { HasCause (in_64_bits self.old.faults) (in_64_bits self.new.faults) result }
        ensures puts { AdapterPuts self.old piece.now result self.new }
    {
        match self.inner.write(piece) {
            Ok(count) if count > 0 => {
                self.bytes_written = self.bytes_written.saturating_add(count as u64);
                Ok(count)
            }
            _ => {
                self.faults = self.faults.saturating_add(1);
                Err(Failed)
            }
        }
    }
}

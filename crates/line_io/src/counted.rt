//! A reader or a writer of std with the number of its calls. It is private here, so that nothing else can call it uncounted.
ghost use Rattle.std.specs.Prelude.{◌≡◌};
ghost use Rattle.std.specs.Io.{ReadsAtMost, WritesAtMost};
ghost use Rattle.std.specs.Io.KnownBytes.{ReadConsumes, WriteAppends};
ghost use Rattle.line_io.specs.Memory.{counted};

use std::io::{Error, Read, Write};
use std::marker::Model;

#[derive(Drop)]
pub(crate) struct Counted<T: Drop> {
    inner: T,
    calls: u64,
}

impl<T: Drop> Model for Counted<T> {
    ghost use Rattle.line_io.specs.View.{Called};

    ghost Value = { Called T };

    ghost view = { λ s. record { inner = s.inner; calls = s.calls } };
}

impl<T: Drop> Counted<T> {
    pub(crate) fn new(inner: T) -> Counted<T>
        ensures { result ≡ record { inner = inner; calls = 0 } }
    {
        Counted { inner, calls: 0 }
    }
}

impl<R: Read + Drop> Counted<R> {
    pub(crate) fn read(&mut self, into: &mut [u8]) -> Result<usize, Error>
        ensures bound { ReadsAtMost result into.new }
        ensures bytes { ReadConsumes (R.remaining self.old.inner) (R.remaining self.new.inner) result into.new }
        ensures calls { self.new.calls ≡ counted self.old.calls }
    {
        self.calls = self.calls.saturating_add(1);
        self.inner.read(into)
    }
}

impl<W: Write + Drop> Counted<W> {
    pub(crate) fn write(&mut self, piece: &[u8]) -> Result<usize, Error>
        ensures bound { WritesAtMost result piece.now }
        ensures bytes { WriteAppends (W.contents self.old.inner) (W.contents self.new.inner) result piece.now }
        ensures calls { self.new.calls ≡ counted self.old.calls }
    {
        self.calls = self.calls.saturating_add(1);
        self.inner.write(piece)
    }
}

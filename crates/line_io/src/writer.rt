//! A writer: text on its way to a sink that it knows, and of which it remembers that it failed.
ghost use Rattle.std.specs.Prelude.{◌≡◌, ◌++◌, ◌∷◌, [], true, false, OnOk, OnErr};
ghost use Rattle.line_io.specs.Calls.{Offers};
ghost use Rattle.line_io.specs.Writer.{Writes};

use crate::out::{Out, WriteFault};
use crate::outside::Sink;
use crate::text_line::TextLine;

/// A buffer before its sink, and whether the sink failed. From then on it puts nothing.
#[derive(Drop)]
pub struct Writer<'a, K: Sink> {
    out: &'a mut Out,
    sink: &'a mut K,
    failed: bool,
}

impl<'a, K: Sink> Writer<'a, K> {
    /// A writer of which nothing failed.
    pub fn new(out: &'a mut Out, sink: &'a mut K) -> Writer<'a, K>
        ensures out { result.out ≡ out.entry }
        ensures sink { result.sink ≡ sink.entry }
        ensures failed { result.failed ≡ false }
    {
        Writer {
            out,
            sink,
            failed: false,
        }
    }

    /// Whether the sink failed.
    pub fn has_failed(&self) -> bool
        ensures { result ≡ self.now.failed }
    {
        self.failed
    }

    /// Puts a line with its end.
    pub fn put(&mut self, line: TextLine)
        ensures { Writes K.Sink self.old (line ++ (10 ∷ [])) self.new }
    {
        if !self.failed {
            self.failed = line.put(self.out, self.sink).is_err();
        }
    }

    /// Puts bytes of any length.
    pub fn put_all(&mut self, bytes: &[u8])
        ensures { Writes K.Sink self.old bytes.now self.new }
    {
        if !self.failed {
            self.failed = self.out.put_all(self.sink, bytes).is_err();
        }
    }

    /// Brings all pending bytes to the sink, which is offered all of them each time. It fails where the sink failed, now or before.
    pub fn flush(&mut self) -> Result<(), WriteFault>
        ensures text { Writes K.Sink self.old [] self.new }
        ensures ok { OnOk result (self.new.failed ≡ false) }
        ensures sent { OnOk result (self.new.out.now ≡ []) }
        ensures err { OnErr result (self.new.failed ≡ true) }
        ensures offers { Offers K.puts self.old.out.now self.old.sink.now self.new.out.now self.new.sink.now }
    {
        if self.failed {
            return Err(WriteFault);
        }
        let flushed = self.out.flush(self.sink);
        self.failed = flushed.is_err();
        flushed
    }
}

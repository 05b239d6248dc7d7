//! Text on its way to a sink.
ghost use Rattle.std.specs.Prelude.{◌≡◌, ◌<◌, ◌≤◌, ◌+◌, ◌++◌, ◌^◌, ℕ, List, [], length, take, drop, decimal, IfOk, IsOk, OnOk, OnErr};
ghost use Rattle.line_io.specs.Calls.{Offers};
ghost use Rattle.line_io.specs.Sides.{HasSinkCause};
ghost use Rattle.line_io.specs.Writer.{PutsTextTo, PutsTo};

use crate::buffer::{send, shift, write_at};
use crate::limits::{BUFFER_SIZE, PUT_LIMIT};
use crate::outside::Sink;
use itoa::Buffer;
use std::alloc::{AllocError, Global};
use std::marker::Model;

/// The sink failed.
#[derive(Clone, Copy, Debug)]
pub struct WriteFault;

/// A buffer of bytes that the sink doesn't hold yet. Contracts see it as these bytes.
#[derive(Drop)]
pub struct Out {
    buffer: Vec<u8>,
    len: usize,
}

impl Model for Out {
    ghost use Rattle.std.specs.Prelude.{ℕ, List, take};
    ghost use Rattle.line_io.specs.View.{IsWriter};

    ghost Value = { List ℕ };

    ghost view = { λ o. take o.len o.buffer.items };

    ghost invariant = { λ o. IsWriter o.buffer.items o.len };
}

impl Out {
    /// A buffer with nothing in it.
    pub fn new(alloc: Global) -> Result<Out, AllocError>
        ensures { IfOk result (λ out. out ≡ []) }
    {
        let buffer = vec![in alloc; 0u8; BUFFER_SIZE]?;
        Ok(Out { buffer, len: 0 })
    }

    fn len(&self) -> usize
        ensures len { result ≡ length self.now }
        ensures small { result ≤ BUFFER_SIZE }
    {
        self.len
    }

    // Takes the first of the pending bytes away.
    fn discard(&mut self, count: usize)
        requires { count ≤ length self.old }
        ensures { self.new ≡ drop count self.old }
    {
        let len = self.len;
        shift(self.buffer.as_mut_slice(), count, len);
        self.len = len - count;
    }

    fn append(&mut self, bytes: &[u8])
        requires { length self.old + length bytes.now ≤ BUFFER_SIZE }
        ensures { self.new ≡ self.old ++ bytes.now }
    {
        write_at(self.buffer.as_mut_slice(), self.len, bytes);
        self.len += bytes.len();
    }

    fn pending(&self) -> &[u8]
        ensures { result.now ≡ self.now }
    {
        &self.buffer[..self.len]
    }

    /// Puts bytes after the pending ones. On `Err` none of them was taken in, and what the sink didn't take of the pending ones is still
    /// pending.
    pub fn put<K: Sink>(&mut self, sink: &mut K, bytes: &[u8]) -> Result<(), WriteFault>
        requires { length bytes.now ≤ PUT_LIMIT }
        ensures ok { OnOk result (PutsTo K.Sink sink.old self.old bytes.now sink.new self.new) }
        ensures err { OnErr result (PutsTo K.Sink sink.old self.old [] sink.new self.new) }
        ensures room { length self.old + length bytes.now ≤ BUFFER_SIZE → IsOk result × (sink.new ≡ sink.old) }
        ensures bounds { length self.new ≤ BUFFER_SIZE }
        ensures cause { HasSinkCause K.Sink sink.old sink.new result }
    {
        if bytes.len() > BUFFER_SIZE - self.len() {
            self.flush(sink)?;
        }
        self.append(bytes);
        Ok(())
    }

    /// Puts bytes of any length, piece by piece. On `Err` some front of them was taken in.
    pub fn put_all<K: Sink>(&mut self, sink: &mut K, bytes: &[u8]) -> Result<(), WriteFault>
        ensures text { PutsTextTo K.Sink sink.old self.old bytes.now sink.new self.new result }
        ensures cause { HasSinkCause K.Sink sink.old sink.new result }
    {
        for piece in bytes.chunks(PUT_LIMIT) {
            self.put(sink, piece)?;
        }
        Ok(())
    }

    /// Puts a number in decimal digits.
    pub fn number<K: Sink>(&mut self, sink: &mut K, value: u64) -> Result<(), WriteFault>
        ensures ok { OnOk result (PutsTo K.Sink sink.old self.old (decimal value) sink.new self.new) }
        ensures err { OnErr result (PutsTo K.Sink sink.old self.old [] sink.new self.new) }
        ensures room { length self.old + length (decimal value) ≤ BUFFER_SIZE → IsOk result × (sink.new ≡ sink.old) }
        ensures bounds { length self.new ≤ BUFFER_SIZE }
        ensures cause { HasSinkCause K.Sink sink.old sink.new result }
    {
        let mut digits = Buffer::new();
        self.put(sink, digits.format(value).as_bytes())
    }

    /// Brings all pending bytes to the sink, which is offered all of them each time.
    pub fn flush<K: Sink>(&mut self, sink: &mut K) -> Result<(), WriteFault>
        ensures both { PutsTo K.Sink sink.old self.old [] sink.new self.new }
        ensures ok { OnOk result (self.new ≡ []) }
        ensures offers { Offers K.puts self.old sink.old self.new sink.new }
        ensures bounds { length self.new ≤ BUFFER_SIZE }
        ensures cause { HasSinkCause K.Sink sink.old sink.new result }
    {
        let count = self.len();
        let sent = send(sink, self.pending());
        self.discard(sent);
        if sent < count {
            Err(WriteFault)
        } else {
            Ok(())
        }
    }
}

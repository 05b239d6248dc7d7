//! One line of output in the making.
ghost use Rattle.std.specs.Prelude.{◌≡◌, ◌+◌, ◌++◌, ◌≤◌, ℕ, List, [], ◌∷◌, length, decimal};
ghost use Rattle.line_io.specs.Sides.{HasSinkCause};
ghost use Rattle.line_io.specs.Writer.{PutsTextTo};

use crate::limits::TEXT_LINE_LIMIT;
use crate::out::{Out, WriteFault};
use crate::outside::Sink;
use itoa::Buffer;
use std::marker::Model;

// The bytes of the longest line and its end.
const SIZE: usize = TEXT_LINE_LIMIT + 1;

/// A line of fields without its end. Contracts see it as its bytes.
#[derive(Drop)]
pub struct TextLine {
    bytes: [u8; SIZE],
    len: usize,
}

impl Model for TextLine {
    ghost use Rattle.std.specs.Prelude.{ℕ, ◌≤◌, List, take};
    ghost use Rattle.line_io.specs.declared.limits.TheConstants.{TEXT_LINE_LIMIT};

    ghost Value = { List ℕ };

    ghost view = { λ l. take l.len l.bytes };

    ghost invariant = { λ l. l.len ≤ TEXT_LINE_LIMIT };
}

impl TextLine {
    /// A line that begins with this field.
    pub fn new(first: &[u8]) -> TextLine
        requires { length first.now ≤ TEXT_LINE_LIMIT }
        ensures { result ≡ first.now }
    {
        let mut line = TextLine {
            bytes: [0; SIZE],
            len: 0,
        };
        line.extend(first);
        line
    }

    /// Puts bytes at the end, in the last field.
    pub fn extend(&mut self, bytes: &[u8])
        requires { length self.old + length bytes.now ≤ TEXT_LINE_LIMIT }
        ensures { self.new ≡ self.old ++ bytes.now }
    {
        let len = self.len;
        let end = len + bytes.len();
        self.bytes[len..end].copy_from_slice(bytes);
        self.len = end;
    }

    /// Puts a space and one more field at the end.
    pub fn field(&mut self, field: &[u8])
        requires { length self.old + 1 + length field.now ≤ TEXT_LINE_LIMIT }
        ensures { self.new ≡ self.old ++ (32 ∷ field.now) }
    {
        self.extend(b" ");
        self.extend(field);
    }

    /// Puts a space and a number in decimal digits at the end.
    pub fn number(&mut self, value: u64)
        requires { length self.old + 21 ≤ TEXT_LINE_LIMIT }
        ensures value { self.new ≡ self.old ++ (32 ∷ decimal value) }
        ensures few { length self.new ≤ length self.old + 21 }
    {
        let mut digits = Buffer::new();
        self.field(digits.format(value).as_bytes());
    }

    /// The line without its end.
    pub fn bytes(&self) -> &[u8]
        ensures bytes { result.now ≡ self.now }
        ensures few { length result.now ≤ TEXT_LINE_LIMIT }
    {
        &self.bytes[..self.len]
    }

    /// Puts the line with its end.
    pub fn put<K: Sink>(mut self, out: &mut Out, sink: &mut K) -> Result<(), WriteFault>
        ensures text { PutsTextTo K.Sink sink.old out.old (self ++ (10 ∷ [])) sink.new out.new result }
        ensures cause { HasSinkCause K.Sink sink.old sink.new result }
    {
        let len = self.len;
        self.bytes[len] = b'\n';
        out.put(sink, &self.bytes[..len + 1])
    }
}

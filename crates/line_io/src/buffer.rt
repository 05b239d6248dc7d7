//! Parts of a buffer.
ghost use Rattle.std.specs.Prelude.{◌≡◌, ◌<◌, ◌≤◌, ◌+◌, ◌-◌, ◌++◌, ℕ, List, length, take, drop, IfOk};
ghost use Rattle.std.specs.Io.KnownBytes.{IsAtEnd, ReadConsumes};
ghost use Rattle.line_io.specs.Calls.{Offers};
ghost use Rattle.line_io.specs.Causes.{HasCause};
ghost use Rattle.line_io.specs.Sides.{HoldsMore, SinkRisesWith};

use crate::limits::LEAST_OFFER;
use crate::outside::{Failed, Sink, Source};

// Moves a part to the front.
pub(crate) fn shift(buffer: &mut [u8], from: usize, to: usize)
    requires order { from ≤ to }
    requires within { to ≤ length buffer.old }
    ensures { take (to - from) buffer.new ≡ take (to - from) (drop from buffer.old) }
{
    buffer.copy_within(from..to, 0);
}

// Writes bytes at a place.
pub(crate) fn write_at(buffer: &mut [u8], at: usize, bytes: &[u8])
    requires { at + length bytes.now ≤ length buffer.old }
    ensures { buffer.new ≡ take at buffer.old ++ bytes.now ++ drop (at + length bytes.now) buffer.old }
{
    let end = at + bytes.len();
    buffer[at..end].copy_from_slice(bytes);
}

// Moves a part to the front, and takes bytes of a source after it.
pub(crate) fn refill<S: Source>(
    source: &mut S,
    buffer: &mut [u8],
    start: usize,
    end: usize,
) -> Result<usize, Failed>
    requires order { start ≤ end }
    requires within { end ≤ length buffer.old }
    requires room { end - start + LEAST_OFFER ≤ length buffer.old }
    ensures front { take (end - start) buffer.new ≡ take (end - start) (drop start buffer.old) }
    ensures bound { IfOk result (λ n. end - start + n ≤ length buffer.new) }
    ensures bytes { ReadConsumes (S.left source.old) (S.left source.new) result (drop (end - start) buffer.new) }
    ensures end { IfOk result (λ n. n ≡ 0 → IsAtEnd (S.left source.new)) }
    ensures offered { (room : ℕ) × (LEAST_OFFER ≤ room) × S.takes source.old room result source.new }
    ensures cause { HasCause (S.faults source.old) (S.faults source.new) result }
{
    shift(buffer, start, end);
    source.take(&mut buffer[end - start..])
}

// Sends bytes until the sink fails, and answers how many it took.
pub(crate) fn send<K: Sink>(sink: &mut K, bytes: &[u8]) -> usize
    ensures within { result ≤ length bytes.now }
    ensures sent { HoldsMore K.Sink sink.old (take result bytes.now) sink.new }
    ensures cause { SinkRisesWith K.Sink sink.old sink.new (result < length bytes.now) }
    ensures untouched { length bytes.now ≡ 0 → sink.new ≡ sink.old }
    ensures offered { Offers K.puts bytes.now sink.old (drop result bytes.now) sink.new }
{
    let mut start = 0;
    while start < bytes.len() {
        match sink.put(&bytes[start..]) {
            Ok(count) => start += count,
            Err(Failed) => return start,
        }
    }
    start
}

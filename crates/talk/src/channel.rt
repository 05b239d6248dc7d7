//! Where a talk goes on.

ghost use Rattle.std.specs.Prelude.{◌≡◌};

use line_io::{Lines, Out, Sink, Source};

/// Where a talk goes on: the lines that it hears, before their source, and the bytes of its replies, before their sink.
#[derive(Drop)]
pub struct Channel<'a, S: Source, K: Sink> {
    pub lines: &'a mut Lines,
    pub source: &'a mut S,
    pub out: &'a mut Out,
    pub sink: &'a mut K,
}

impl<'a, S: Source, K: Sink> Channel<'a, S, K> {
    /// A channel over these.
    pub fn new(
        lines: &'a mut Lines,
        source: &'a mut S,
        out: &'a mut Out,
        sink: &'a mut K,
    ) -> Channel<'a, S, K>
        ensures lines { result.lines ≡ lines.entry }
        ensures source { result.source ≡ source.entry }
        ensures out { result.out ≡ out.entry }
        ensures sink { result.sink ≡ sink.entry }
    {
        Channel {
            lines,
            source,
            out,
            sink,
        }
    }
}

//! Runs over sources and sinks in memory.
ghost use Rattle.std.specs.Prelude.{◌≡◌};

use crate::ask::Ask;
use evac_law::Steps;
use evac_top::run;
use line_io::{MemSink, MemSource, Sink, Source};
use std::alloc::{AllocError, Global};
use std::marker::Brand;
use std::sync::ledger::{Blank, Ledger};

// Runs with a counter of steps that nobody reads.
fn run_uncounted<S: Source, K: Sink, L: Ledger>(
    alloc: Global,
    words: &[String],
    source: &mut S,
    sink: &mut K,
    blank: Blank,
) -> u8
    requires name { blank.name ≡ L.name }
    requires parts { blank.parts ≡ L.parts }
    requires one { blank.parts ≡ 1 }
{
    let mut steps: Steps<L> = Steps::new(blank);
    run(alloc, words, source, sink, &mut steps).number()
}

/// How a source gives its bytes and a sink takes them: the most at a call, the call that fails, and the most that the sink takes in all.
#[derive(Clone, Copy)]
pub struct Calls {
    piece: u32,
    read: u32,
    put: u32,
    write: u32,
    room: u32,
}

impl Calls {
    // Large pieces, and no call that fails.
    const PLAIN: Calls = Calls {
        piece: 4096,
        read: 0,
        put: 4096,
        write: 0,
        room: 1_000_000,
    };

    /// What a row asks for.
    pub fn of(ask: Ask<'_>) -> Calls {
        Calls {
            piece: ask.number("@piece=", Calls::PLAIN.piece),
            read: ask.number("@read=", Calls::PLAIN.read),
            put: ask.number("@put=", Calls::PLAIN.put),
            write: ask.number("@write=", Calls::PLAIN.write),
            room: ask.number("@room=", Calls::PLAIN.room),
        }
    }
}

/// Where a call fails.
#[derive(Clone, Copy)]
pub enum Side {
    Source,
    Sink,
}

impl Side {
    /// The word by which a row asks that each call fails in turn.
    pub fn asked(self) -> &'static str {
        match self {
            Side::Source => "@reads=",
            Side::Sink => "@writes=",
        }
    }

    /// What a call is named.
    pub fn name(self) -> &'static str {
        match self {
            Side::Source => "read",
            Side::Sink => "write",
        }
    }

    /// Pieces of this size on this side, and a call that fails.
    pub fn failing(self, piece: u32, call: u32) -> Calls {
        match self {
            Side::Source => Calls {
                piece,
                read: call,
                ..Calls::PLAIN
            },
            Side::Sink => Calls {
                put: piece,
                write: call,
                ..Calls::PLAIN
            },
        }
    }
}

/// The words of a run, and its input.
#[derive(Clone, Copy)]
pub struct Run<'a> {
    pub words: &'a [String],
    pub input: &'a str,
}

/// The status of a run, and the sink with what it wrote.
#[derive(Drop)]
pub struct Ran {
    pub status: u8,
    pub sink: MemSink,
}

/// What a run comes to.
pub fn run_over(alloc: Global, run: Run<'_>, calls: Calls) -> Result<Ran, AllocError> {
    let piece = calls.piece.max(1) as usize;
    let put = calls.put.max(1) as usize;
    let mut source = MemSource::new(alloc, run.input.as_bytes(), piece, &[calls.read])?;
    let mut sink = MemSink::new(alloc, calls.room as usize, put, &[calls.write])?;
    let status = run_uncounted::<_, _, Brand>(
        alloc,
        run.words,
        &mut source,
        &mut sink,
        Blank::new(1),
    );
    Ok(Ran { status, sink })
}

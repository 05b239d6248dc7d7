//! A source and a sink in memory, which fail where they are told to.
ghost use Rattle.std.specs.Prelude.{◌≡◌, ◌<◌, ◌≤◌, ◌++◌, ◌==◌, ℕ, List, [], Some, length, take, drop, IfOk};
ghost use Rattle.std.specs.List.{list_any};
ghost use Rattle.std.specs.declared.option.Option.{Option};
ghost use Rattle.std.specs.Io.KnownBytes.{ReadConsumes, WriteAppends};
ghost use Rattle.line_io.specs.Causes.{HasCause, in_64_bits, unlimited};
ghost use Rattle.line_io.specs.Memory.{SinkPuts, SourceTakes, is_failing};

use crate::outside::{Failed, Sink, Source};
use std::alloc::{AllocError, Global};
use std::marker::Model;

// The greatest number of a call that can be listed.
const LAST_LISTED: u64 = u32::MAX as u64;

fn is_listed(failing: &[u32], number: u64) -> bool
    ensures { result ≡ list_any (λ n. n == number) failing.now }
{
    failing.iter().any(|n| u64::from(*n) == number)
}

// Whether the call of this number is one that fails.
fn is_failing(failing: &[u32], number: u64) -> bool
    ensures { result ≡ is_failing failing.now number }
{
    number <= LAST_LISTED && is_listed(failing, number)
}

/// Bytes in pieces, with calls that fail.
#[derive(Drop)]
pub struct MemSource {
    bytes: Vec<u8>,
    at: usize,
    piece: usize,
    failing: Vec<u32>,
    calls: u64,
    faults: u64,
}

impl Model for MemSource {
    ghost use Rattle.std.specs.Prelude.{◌<◌, ◌≤◌, drop, length};
    ghost use Rattle.line_io.specs.View.{MemorySource};

    ghost Value = { MemorySource };

    ghost view = { λ s. record {
      left = drop s.at s.bytes.items;
      piece = s.piece;
      failing = s.failing.items;
      calls = s.calls;
      faults = s.faults;
    } };

    ghost invariant = { λ s. (s.at ≤ length s.bytes.items) × (0 < s.piece) × (s.faults ≤ s.calls) };
}

impl MemSource {
    /// Each call gives at most `piece` bytes. The calls whose numbers, counted from 1, stand in `failing` fail.
    pub fn new(
        alloc: Global,
        bytes: &[u8],
        piece: usize,
        failing: &[u32],
    ) -> Result<MemSource, AllocError>
        requires { 0 < piece }
        ensures { IfOk result (λ source. source ≡ record {
          left = bytes.now;
          piece = piece;
          failing = failing.now;
          calls = 0;
          faults = 0;
        }) }
    {
        Ok(MemSource {
            bytes: Vec::from_slice(alloc, bytes)?,
            at: 0,
            piece,
            failing: Vec::from_slice(alloc, failing)?,
            calls: 0,
            faults: 0,
        })
    }
}

impl Source for MemSource {
    ghost left = { λ s. Some s.left };

    ghost faults = { λ s. unlimited s.faults };

    ghost takes = { SourceTakes };

    fn take(&mut self, into: &mut [u8]) -> Result<usize, Failed>
        requires { 0 < length into.old }
        ensures bound { IfOk result (λ n. n ≤ length into.new) }
        ensures bytes { ReadConsumes (Some self.old.left) (Some self.new.left) result into.new }
        ensures cause { HasCause (unlimited self.old.faults) (unlimited self.new.faults) result }
        ensures takes { SourceTakes self.old (length into.old) result self.new }
        ensures given { IfOk result (λ n. into.new ≡ take n self.old.left ++ drop n into.old) }
    {
        let number = self.calls.saturating_add(1);
        self.calls = number;
        if is_failing(self.failing.as_slice(), number) {
            self.faults = self.faults.saturating_add(1);
            return Err(Failed);
        }
        let at = self.at;
        let count = self.piece.min(into.len()).min(self.bytes.len() - at);
        into[..count].copy_from_slice(&self.bytes[at..at + count]);
        self.at = at + count;
        Ok(count)
    }
}

/// Holds bytes, as many as it has room for, with calls that fail.
#[derive(Drop)]
pub struct MemSink {
    bytes: Vec<u8>,
    len: usize,
    piece: usize,
    failing: Vec<u32>,
    calls: u64,
    faults: u64,
}

impl Model for MemSink {
    ghost use Rattle.std.specs.Prelude.{◌<◌, ◌≤◌, take, length};
    ghost use Rattle.line_io.specs.View.{MemorySink};

    ghost Value = { MemorySink };

    ghost view = { λ s. record {
      held = take s.len s.bytes.items;
      room = length s.bytes.items;
      piece = s.piece;
      failing = s.failing.items;
      calls = s.calls;
      faults = s.faults;
    } };

    ghost invariant = { λ s. (s.len ≤ length s.bytes.items) × (0 < s.piece) };
}

impl MemSink {
    /// Each call takes at most `piece` bytes. The calls whose numbers, counted from 1, stand in `failing` fail, and so do those that find
    /// the room used up.
    pub fn new(
        alloc: Global,
        room: usize,
        piece: usize,
        failing: &[u32],
    ) -> Result<MemSink, AllocError>
        requires { 0 < piece }
        ensures { IfOk result (λ sink. sink ≡ record {
          held = [];
          room = room;
          piece = piece;
          failing = failing.now;
          calls = 0;
          faults = 0;
        }) }
    {
        Ok(MemSink {
            bytes: vec![in alloc; 0u8; room]?,
            len: 0,
            piece,
            failing: Vec::from_slice(alloc, failing)?,
            calls: 0,
            faults: 0,
        })
    }

    /// What it holds.
    pub fn bytes(&self) -> &[u8]
        ensures { result.now ≡ self.now.held }
    {
        &self.bytes[..self.len]
    }
}

impl Sink for MemSink {
    ghost held = { λ s. Some s.held };

    ghost faults = { λ s. in_64_bits s.faults };

    ghost puts = { SinkPuts };

    fn put(&mut self, piece: &[u8]) -> Result<usize, Failed>
        requires { 0 < length piece.now }
        ensures bound { IfOk result (λ n. (0 < n) × (n ≤ length piece.now)) }
        ensures bytes { WriteAppends (Some self.old.held) (Some self.new.held) result piece.now }
        ensures cause { HasCause (in_64_bits self.old.faults) (in_64_bits self.new.faults) result }
        ensures puts { SinkPuts self.old piece.now result self.new }
    {
        let number = self.calls.saturating_add(1);
        self.calls = number;
        let len = self.len;
        let room = self.bytes.len() - len;
        if is_failing(self.failing.as_slice(), number) || room == 0 {
            self.faults = self.faults.saturating_add(1);
            return Err(Failed);
        }
        let count = self.piece.min(piece.len()).min(room);
        self.bytes[len..len + count].copy_from_slice(&piece[..count]);
        self.len = len + count;
        Ok(count)
    }
}

//! The lines of a source.
ghost use Rattle.std.specs.Prelude.{◌≡◌, ◌<◌, ◌≤◌, ◌+◌, ◌++◌, ℕ, List, [], length, take, drop, true, false, IfOk, IfSome, IfNone, OnSome, OnOk, OnErr, ◌⊎◌};
ghost use Rattle.std.specs.List.{position};
ghost use Rattle.std.specs.Io.KnownBytes.{Keeps};
ghost use Rattle.line_io.specs.Calls.{Asks};
ghost use Rattle.line_io.specs.Causes.{HasCause};
ghost use Rattle.line_io.specs.Line.{content, is_lf, without_last, pieces, lines_after, line_limit, input_limit};
ghost use Rattle.line_io.specs.Reader.{Answers, Drained, Gives, GivesAway, HasRoom, IsGiven, IsLast, ahead, is_settled, lines_left, settled_answer, settles};
ghost use Rattle.line_io.specs.Scan.{Refills, first_size};
ghost use Rattle.line_io.specs.Sides.{RisesWith};
ghost use Rattle.line_io.specs.View.{Reader};

use crate::buffer::{refill, write_at};
use crate::limits::{BUFFER_SIZE, INPUT_LIMIT, LINE_LIMIT};
use crate::outside::{Failed, Source};
use std::alloc::{AllocError, Global};
use std::marker::Model;

/// What `next` found.
#[derive(Clone, Copy)]
pub enum Found {
    Text,
    End,
}

/// Why no line was found.
#[derive(Clone, Copy)]
pub enum LineFault {
    ReadFault,
    LineTooLong,
    InputTooLong,
}

/// A reader of lines with a buffer.
#[derive(Drop)]
pub struct Lines {
    buffer: Vec<u8>,
    start: usize,
    end: usize,
    ended: bool,
    given: u32,
    number: u32,
    line: Vec<u8>,
    kept: usize,
}

impl Model for Lines {
    ghost use Rattle.std.specs.Prelude.{◌-◌, take, drop};
    ghost use Rattle.line_io.specs.View.{Reader, IsReader};

    ghost Value = { Reader };

    ghost view = { λ l. record {
      pending = take (l.end - l.start) (drop l.start l.buffer.items);
      ended = l.ended;
      given = l.given;
      number = l.number;
      text = take l.kept l.line.items;
    } };

    ghost invariant = { λ l. IsReader l.buffer.items l.line.items l.start l.end l.kept l.given l.number };
}

fn without(bytes: &[u8], last: u8) -> &[u8]
    ensures { result.now ≡ without_last last bytes.now }
{
    let count = bytes.len();
    if count > 0 && bytes[count - 1] == last {
        &bytes[..count - 1]
    } else {
        bytes
    }
}

fn find_lf(bytes: &[u8]) -> Option<usize>
    ensures { result ≡ position is_lf bytes.now }
{
    bytes.iter().position(|b| *b == b'\n')
}

// How many bytes the first line has with its end, where it is settled.
fn settled_size(ended: bool, pending: &[u8]) -> Option<usize>
    ensures settled { OnSome result (settles ended pending.now ≡ true) }
    ensures size { IfSome result (λ size. size ≡ first_size pending.now) }
    ensures unsettled { IfNone result (settles ended pending.now ≡ false) }
{
    match find_lf(pending) {
        Some(place) => Some(place + 1),
        None if ended || pending.len() >= LINE_LIMIT + 2 => Some(pending.len()),
        None => None,
    }
}

// How many bytes a line has without its end.
fn content_size(line: &[u8]) -> usize
    ensures { result ≡ length (content line.now) }
{
    without(without(line, b'\n'), b'\r').len()
}

impl Lines {
    /// A reader that has taken nothing yet.
    pub fn new(alloc: Global) -> Result<Lines, AllocError>
        ensures { IfOk result (λ lines. lines ≡ record { pending = []; ended = false; given = 0; number = 0; text = [] }) }
    {
        let buffer = vec![in alloc; 0u8; BUFFER_SIZE]?;
        let line = vec![in alloc; 0u8; LINE_LIMIT]?;
        Ok(Lines {
            buffer,
            start: 0,
            end: 0,
            ended: false,
            given: 0,
            number: 0,
            line,
            kept: 0,
        })
    }

    fn pending(&self) -> &[u8]
        ensures bytes { result.now ≡ self.now.pending }
        ensures few { length result.now ≤ BUFFER_SIZE }
    {
        &self.buffer[self.start..self.end]
    }

    fn settled_size(&self) -> Option<usize>
        ensures settled { OnSome result (is_settled self.now ≡ true) }
        ensures size { IfSome result (λ size. size ≡ first_size self.now.pending) }
        ensures unsettled { IfNone result (is_settled self.now ≡ false) }
        ensures bounds { (length self.now.pending ≤ BUFFER_SIZE) × (self.now.given ≤ input_limit) }
    {
        settled_size(self.ended, self.pending())
    }

    // Takes the first line away from the pending bytes: it has `size` bytes, and `kept` without its end.
    fn keep(&mut self, size: usize, kept: usize)
        requires some { 0 < size }
        requires pending { size ≤ length self.old.pending }
        requires kept { (kept ≤ size) × (kept ≤ line_limit) }
        requires limit { self.old.given + size ≤ input_limit }
        ensures { self.new ≡ record {
          pending = drop size self.old.pending;
          ended = self.old.ended;
          given = self.old.given + size;
          number = self.old.number + 1;
          text = take kept self.old.pending;
        } }
    {
        let start = self.start;
        write_at(
            self.line.as_mut_slice(),
            0,
            &self.buffer[start..start + kept],
        );
        self.kept = kept;
        self.start = start + size;
        self.given += size as u32;
        self.number += 1;
    }

    fn refill<S: Source>(&mut self, source: &mut S) -> Result<(), Failed>
        requires { is_settled self.old ≡ false }
        ensures bytes { Keeps (ahead self.old (S.left source.old)) (ahead self.new (S.left source.new)) }
        ensures taken { Refills self.old self.new (S.left source.old) (S.left source.new) }
        ensures rest { (self.new.given ≡ self.old.given) × (self.new.number ≡ self.old.number) × (self.new.text ≡ self.old.text) }
        ensures failed { OnErr result (self.new ≡ self.old) }
        ensures drained { Drained self.old (S.left source.old) → Drained self.new (S.left source.new) }
        ensures more { OnOk result ((self.new.ended ≡ true) ⊎ (length self.old.pending < length self.new.pending)) }
        ensures bounds { length self.new.pending ≤ BUFFER_SIZE }
        ensures asks { Asks S.takes self.old source.old self.new source.new }
        ensures cause { HasCause (S.faults source.old) (S.faults source.new) result }
    {
        let (start, end) = (self.start, self.end);
        self.start = 0;
        self.end = end - start;
        let count = refill(source, self.buffer.as_mut_slice(), start, end)?;
        self.end += count;
        self.ended = count == 0;
        Ok(())
    }

    // Answers by the first line, which has `size` bytes with its end.
    fn give(&mut self, size: usize) -> Result<Found, LineFault>
        requires settled { is_settled self.old ≡ true }
        requires size { size ≡ first_size self.old.pending }
        ensures line { (rest : List ℕ) → (self.old.ended ≡ true → rest ≡ []) → Gives result self.new.text
            (lines_after self.old.given (pieces (self.old.pending ++ rest)))
            (lines_after self.new.given (pieces (self.new.pending ++ rest))) }
        ensures ended { self.new.ended ≡ self.old.ended }
        ensures found { result ≡ Ok Found.Text → (self.new.number ≡ self.old.number + 1) × IsGiven self.new (take size self.old.pending) }
        ensures gone { result ≡ Ok Found.Text → (self.new.given ≡ self.old.given + size) × (self.new.pending ≡ drop size self.old.pending) }
        ensures small { result ≡ Ok Found.Text → self.old.given + size ≤ input_limit }
        ensures stays { (result ≡ Ok Found.Text → ⊥) → self.new ≡ self.old }
        ensures answer { result ≡ settled_answer self.old }
        ensures end { result ≡ Ok Found.End → self.old.ended ≡ true }
        ensures no_read { result ≡ Err LineFault.ReadFault → ⊥ }
    {
        if size == 0 {
            return Ok(Found::End);
        }
        let kept = content_size(&self.pending()[..size]);
        if kept > LINE_LIMIT {
            return Err(LineFault::LineTooLong);
        }
        if size as u32 > INPUT_LIMIT - self.given {
            return Err(LineFault::InputTooLong);
        }
        self.keep(size, kept);
        Ok(Found::Text)
    }

    /// Finds the next line. After a read fault the reader goes on from the same byte. At another fault the faulty line has the next number.
    pub fn next<S: Source>(&mut self, source: &mut S) -> Result<Found, LineFault>
        // what was found, by the lines to come, and the bytes that went away with it
        ensures lines { Answers result self.new.text (lines_left self.old (S.left source.old)) (lines_left self.new (S.left source.new)) }
        ensures bytes { GivesAway result self.old self.new (S.left source.old) (S.left source.new) }
        ensures found { result ≡ Ok Found.Text → self.new.number ≡ self.old.number + 1 }
        ensures stays { (result ≡ Ok Found.Text → ⊥) → (self.new.number ≡ self.old.number) × (self.new.text ≡ self.old.text) }
        ensures room { HasRoom self.new }

        // the end and the faults of a line are the last answer
        ensures settled { is_settled self.old ≡ true → (source.new ≡ source.old) × (result ≡ settled_answer self.old) }
        ensures rests { is_settled self.old ≡ true → (result ≡ Ok Found.Text → ⊥) → self.new ≡ self.old }
        ensures last { IsLast result self.new }
        ensures end { result ≡ Ok Found.End → self.new.ended ≡ true }
        ensures drained { Drained self.old (S.left source.old) → Drained self.new (S.left source.new) }

        // each time the source is offered enough room, it is asked no more where it has ended, and each byte that it gave is kept
        ensures asks { Asks S.takes self.old source.old self.new source.new }

        // a read fault has its cause, and comes only where no line is pending
        ensures cause { RisesWith S.Source source.old source.new (result ≡ Err LineFault.ReadFault) }
        ensures unfinished { result ≡ Err LineFault.ReadFault → is_settled self.new ≡ false }
    {
        loop {
            if let Some(size) = self.settled_size() {
                return self.give(size);
            }
            if let Err(Failed) = self.refill(source) {
                return Err(LineFault::ReadFault);
            }
        }
    }

    /// The line found last, without its end.
    pub fn text(&self) -> &[u8]
        ensures text { result.now ≡ self.now.text }
        ensures short { length result.now ≤ line_limit }
    {
        &self.line[..self.kept]
    }

    /// How many lines were found.
    pub fn number(&self) -> u32
        ensures number { result ≡ self.now.number }
        ensures small { result ≤ input_limit }
    {
        self.number
    }
}

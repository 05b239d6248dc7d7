//! Lines that are found in a source, and what the adapters over std's reader and writer pass on.
ghost use Rattle.std.specs.Prelude.{◌<◌};

use line_io::{
    CleanSink, Found, LineFault, Lines, MemSink, MemSource, Out, Sink, Source, StdSink, StdSource,
    WriteFault,
};
use std::alloc::{AllocError, Global};
use std::io::{Error, ErrorKind, Read, Write};
use std::process::Abort;
use std::test::Fail;

// A bar after a line, a dot at the end, an r for a read fault, and else the code of a fault.
fn mark(found: Result<Found, LineFault>) -> u8 {
    match found {
        Ok(Found::Text) => b'|',
        Ok(Found::End) => b'.',
        Err(LineFault::ReadFault) => b'r',
        Err(LineFault::LineTooLong) => b'2',
        Err(LineFault::InputTooLong) => b'3',
    }
}

// Puts the next line of a source and its mark after a text, and answers the mark.
fn spell_line<S: Source>(
    lines: &mut Lines,
    source: &mut S,
    text: &mut Vec<u8>,
) -> Result<u8, AllocError> {
    let mark = mark(lines.next(source));
    if mark == b'|' {
        text.extend_from_slice(lines.text())?;
    }
    text.push(mark)?;
    Ok(mark)
}

// The lines of a source with their marks, up to its end or its first fault that is no read fault.
fn spelled<S: Source>(alloc: Global, source: &mut S) -> Result<Vec<u8>, AllocError> {
    let mut lines = Lines::new(alloc)?;
    let mut text = Vec::new(alloc);
    for _ in 0..100u32 {
        let mark = spell_line(&mut lines, source, &mut text)?;
        if mark != b'|' && mark != b'r' {
            break;
        }
    }
    Ok(text)
}

const LINES: &[(&[u8], &[u8])] = &[
    (b"", b"."),
    (b"one", b"one|."),
    (b"one\n", b"one|."),
    (b"one\r\ntwo\n\nlast", b"one|two||last|."),
    (b"\r\r\na\rb\n\r", b"\r|a\rb||."),
    (b"\n\n", b"||."),
];

// A text that comes in pieces is spelled so.
fn check_spelled(
    rt: &(impl Abort + AllocGlobal),
    input: &[u8],
    piece: usize,
    want: &[u8],
) -> Result<(), AllocError>
    requires { 0 < piece }
{
    let mut source = MemSource::new(rt.alloc(), input, piece, &[])?;
    let text = spelled(rt.alloc(), &mut source)?;
    assert!(rt; text.as_slice() == want, "{piece}");
    Ok(())
}

#[test]
fn finds_lines(rt: HostRuntime) -> Result<(), Fail> {
    for (input, want) in LINES {
        check_spelled(&rt, input, 1, want)?;
        check_spelled(&rt, input, 7, want)?;
    }
    Ok(())
}

// Puts a number after a word.
fn put_number<K: Sink>(out: &mut Out, sink: &mut K) -> Result<(), WriteFault> {
    out.put(sink, b"seen ")?;
    out.number(sink, 60)?;
    out.flush(sink)
}

#[test]
fn puts_a_number(rt: HostRuntime) -> Result<(), Fail> {
    let mut sink = MemSink::new(rt.alloc(), 100, 3, &[])?;
    let mut out = Out::new(rt.alloc())?;
    put_number(&mut out, &mut sink)?;
    assert!(rt; sink.bytes() == b"seen 60".as_slice());
    put_number(&mut out, &mut CleanSink::new())?;
    Ok(())
}

// Gives three bytes, fails, gives three more, and ends.
#[derive(Drop)]
struct Interrupted {
    calls: u32,
}

impl Read for Interrupted {
    fn read(&mut self, buf: &mut [u8]) -> Result<usize, Error> {
        self.calls = self.calls.saturating_add(1);
        let piece: &[u8] = match self.calls {
            1 => b"one",
            2 => return Err(Error::from(ErrorKind::Interrupted)),
            3 => b"\ntw",
            _ => b"",
        };
        let count = piece.len().min(buf.len());
        buf[..count].copy_from_slice(&piece[..count]);
        Ok(count)
    }
}

#[test]
fn reads_by_std(rt: HostRuntime) -> Result<(), Fail> {
    let mut source = StdSource::new(Interrupted { calls: 0 });
    let text = spelled(rt.alloc(), &mut source)?;
    assert!(rt; text.as_slice() == b"rone|tw|.".as_slice());
    Ok(())
}

// Takes two bytes, fails, takes none, and then takes all.
#[derive(Drop)]
struct Halting {
    bytes: Vec<u8>,
    calls: u32,
}

impl Write for Halting {
    fn write(&mut self, buf: &[u8]) -> Result<usize, Error> {
        self.calls = self.calls.saturating_add(1);
        let count = match self.calls {
            1 => buf.len().min(2),
            2 => return Err(Error::from(ErrorKind::Other)),
            3 => 0,
            _ => buf.len(),
        };
        self.bytes.extend_from_slice(&buf[..count])?;
        Ok(count)
    }

    fn flush(&mut self) -> Result<(), Error> {
        Ok(())
    }
}

// Puts a text, and flushes until all of it is taken; answers how many flushes failed.
fn put_past_halts(out: &mut Out, sink: &mut StdSink<&mut Halting>) -> Result<u32, WriteFault> {
    out.put(sink, b"some text")?;
    for failed in 0..4u32 {
        if out.flush(sink).is_ok() {
            return Ok(failed);
        }
    }
    Err(WriteFault)
}

#[test]
fn writes_by_std(rt: HostRuntime) -> Result<(), Fail> {
    let mut writer = Halting {
        bytes: Vec::new(rt.alloc()),
        calls: 0,
    };
    let mut out = Out::new(rt.alloc())?;
    let failed = put_past_halts(&mut out, &mut StdSink::new(&mut writer))?;
    assert!(rt; failed == 2 && writer.bytes.as_slice() == b"some text".as_slice());
    Ok(())
}

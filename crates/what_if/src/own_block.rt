//! The block of a plan, written into memory, read back and checked.
ghost use Rattle.std.specs.Prelude.{◌≡◌, ◌<◌, ◌≤◌, length, Some, [], IfOk, OnOk};
ghost use Rattle.std.specs.Io.KnownBytes.{WriteAppends};
ghost use Rattle.line_io.specs.Causes.{HasCause, in_64_bits};
ghost use Rattle.line_io.specs.Sides.{HoldsMore};
ghost use Rattle.building_table.specs.Names.{NamesFit};
ghost use Rattle.certificate_text.specs.Block.{IsBlockOf};
ghost use Rattle.plan_checker.specs.Verdicts.{IsRight};
ghost use Rattle.session_text.specs.StateTexts.{block_text};

use block_reader::{BlockFault, read_block};
use building_table::Names;
use certificate_text::Block;
use edit_session::Session;
use line_io::{CleanSource, Failed, Lines, Out, Sink, WriteFault, Writer};
use plan_checker::{Verdict, check};
use session_text::put_block;
use std::alloc::{AllocError, Global};

// A sink that keeps what is written, as long as there is memory for it. It fails where there is none.
#[derive(Drop)]
struct Text {
    bytes: Vec<u8>,
    failures: u64,
}

impl Text {
    fn new(alloc: Global) -> Text
        ensures { result.bytes.items ≡ [] }
    {
        Text {
            bytes: Vec::new(alloc),
            failures: 0,
        }
    }
}

impl Sink for Text {
    ghost held = { λ s. Some s.bytes.items };

    ghost faults = { λ s. in_64_bits s.failures };

    fn put(&mut self, piece: &[u8]) -> Result<usize, Failed>
        requires { 0 < length piece.now }
        ensures bound { IfOk result (λ n. (0 < n) × (n ≤ length piece.now)) }
        ensures bytes { WriteAppends (Some self.old.bytes.items) (Some self.new.bytes.items) result piece.now }
        ensures cause { HasCause (in_64_bits self.old.failures) (in_64_bits self.new.failures) result }
    {
        match self.bytes.extend_from_slice(piece) {
            Ok(()) => Ok(piece.len()),
            Err(AllocError) => {
                self.failures = self.failures.saturating_add(1);
                Err(Failed)
            }
        }
    }
}

// Brings the block of a session's plan to a sink.
fn send_block<K: Sink>(out: &mut Out, sink: &mut K, session: &Session) -> Result<(), WriteFault>
    requires { out.old ≡ [] }
    ensures { OnOk result (HoldsMore K.Sink sink.old (block_text 0 session.now.state) sink.new) }
{
    let mut writer = Writer::new(out, sink);
    put_block(&mut writer, session, 0);
    writer.flush()
}

// The text of the block.
fn text_of(alloc: Global, session: &Session) -> Result<Text, AllocError>
    ensures { IfOk result (λ text. text.bytes.items ≡ block_text 0 session.now.state) }
{
    let mut out = Out::new(alloc)?;
    let mut text = Text::new(alloc);
    match send_block(&mut out, &mut text, session) {
        Ok(()) => Ok(text),
        // the sink fails where there is no memory
        Err(WriteFault) => Err(AllocError),
    }
}

// Why a block that was written isn't read back: there was no memory.
fn want_of_memory(fault: BlockFault) -> AllocError
    requires { fault ≡ BlockFault.Memory }
{
    match fault {
        BlockFault::Memory => AllocError,
        _ => unreachable!(),
    }
}

// The block that is read back from its text.
fn block_back(
    alloc: Global,
    session: &Session,
    names: &Names,
    text: &[u8],
) -> Result<Block, AllocError>
    requires names { NamesFit names.now session.now.state.model }
    requires text { text.now ≡ block_text 0 session.now.state }
    ensures block { IfOk result (IsBlockOf session.now.state.model) }
    ensures right { IfOk result (IsRight session.now.state.model) }
{
    let mut source = CleanSource::new(alloc, text)?;
    let mut lines = Lines::new(alloc)?;
    match read_block(alloc, &mut lines, &mut source, session.model(), names) {
        Ok(block) => Ok(block),
        // the source doesn't fail, and no line of the block is refused
        Err(fault) => Err(want_of_memory(fault)),
    }
}

/// What the checker says of the block of a session's plan, once that was written and read back: yes. The block may take tens of megabytes.
pub fn check_plan(alloc: Global, session: &Session, names: &Names) -> Result<Verdict, AllocError>
    requires { NamesFit names.now session.now.state.model }
    ensures { IfOk result (λ verdict. verdict ≡ Verdict.Yes) }
{
    let text = text_of(alloc, session)?;
    let block = block_back(alloc, session, names, &text.bytes)?;
    check(alloc, session.model(), &block)
}

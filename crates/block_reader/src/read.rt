//! The block that lines state.
ghost use Rattle.std.specs.Prelude.{◌≡◌, ◌≤◌, Err, IfOk, false};
ghost use Rattle.evac_law.specs.Building.{IsValid};
ghost use Rattle.line_io.specs.Calls.{Asks};
ghost use Rattle.line_io.specs.Line.{input_limit};
ghost use Rattle.line_io.specs.Reader.{Drained, is_settled, lines_left};
ghost use Rattle.line_io.specs.Sides.{RisesWith};
ghost use Rattle.building_table.specs.Names.{NamesFit};
ghost use Rattle.certificate_text.specs.Block.{HasAllLabels, IsBlockOf};
ghost use Rattle.block_reader.specs.ReaderLaws.{GivesBack};
ghost use Rattle.block_reader.specs.BlockReads.{ReadsBlock, ReadsBlockLines};
ghost use Rattle.block_reader.specs.DraftFacts.{IsDraft};
ghost use Rattle.block_reader.specs.Takings.{ConcludesBlock, HearsDraft};

use crate::builder::BlockBuilder;
use crate::entry::read_entry;
use crate::fault::{BlockFault, TakeFault};
use crate::finish::finish;
use building_table::Names;
use certificate_text::Block;
use evac_law::Model;
use line_io::{Ending, Heard, LineFault, Lines, Listener, Source, listen};
use std::alloc::Global;

// Takes a line into a builder.
fn hear(
    builder: &mut BlockBuilder,
    model: &Model,
    names: &Names,
    text: &[u8],
) -> Result<Heard, TakeFault>
    requires valid { IsValid model.now }
    requires names { NamesFit names.now model.now }
    requires draft { IsDraft model.now builder.old }
    ensures { HearsDraft model.now text.now result builder.old builder.new }
{
    let Some(entry) = read_entry(text) else {
        return Err(TakeFault::Bad);
    };
    match builder.take(model, names, entry) {
        Ok(()) if entry.is_end() => Ok(Heard::Last),
        Ok(()) => Ok(Heard::More),
        Err(fault) => Err(fault),
    }
}

// What takes the lines of a block.
#[derive(Drop)]
struct BlockReader<'a> {
    builder: BlockBuilder,
    model: &'a Model,
    names: &'a Names,
}

impl<'a> Listener for BlockReader<'a> {
    ghost use Rattle.block_reader.specs.Takings.{HearsBlock, CanHear};

    type Fault = TakeFault;

    ghost kept = { λ _. tt };

    ghost ready = { λ r. CanHear r };

    ghost hears = { λ r line text result new. HearsBlock r line text result new };

    fn hear(&mut self, text: &[u8], _line: u32) -> Result<Heard, TakeFault> {
        hear(&mut self.builder, self.model, self.names, text)
    }
}

// The answer where so many lines went by.
#[tactic(auto, unfolding(line_io::specs::Line::input_limit))]
fn conclude(
    alloc: Global,
    builder: BlockBuilder,
    model: &Model,
    ending: Ending<TakeFault>,
    number: u32,
) -> Result<Block, BlockFault>
    requires number { number ≤ input_limit }
    requires valid { IsValid model.now }
    requires draft { ending ≡ Ending.Finished → IsDraft model.now builder }
    ensures answer { ConcludesBlock model.now ending builder number result }
    ensures caused { result ≡ Err BlockFault.ReadFault → ending ≡ Ending.Fault LineFault.ReadFault }
    ensures quiet { ending ≡ Ending.Fault LineFault.ReadFault → result ≡ Err BlockFault.ReadFault }
{
    let line = number + 1;
    match ending {
        Ending::Finished => finish(alloc, builder, model).map_err(|_| BlockFault::Memory),
        Ending::Failed(TakeFault::Bad) => Err(BlockFault::Bad { line: number }),
        Ending::Failed(TakeFault::Memory) => Err(BlockFault::Memory),
        Ending::InputEnded => Err(BlockFault::Bad { line }),
        Ending::Fault(LineFault::LineTooLong) => Err(BlockFault::LineTooLong { line }),
        Ending::Fault(LineFault::InputTooLong) => Err(BlockFault::InputTooLong { line }),
        Ending::Fault(LineFault::ReadFault) => Err(BlockFault::ReadFault),
    }
}

/// Reads an answer block of a model from lines, up to its end, or answers the first line that is refused.
pub fn read_block<S: Source>(
    alloc: Global,
    lines: &mut Lines,
    source: &mut S,
    model: &Model,
    names: &Names,
) -> Result<Block, BlockFault>
    requires valid { IsValid model.now }
    requires names { NamesFit names.now model.now }
    // what the lines left before the call state
    ensures reading { ReadsBlock model.now result lines.old.number lines.new.number (lines_left lines.old (S.left source.old)) (lines_left lines.new (S.left source.new)) }
    ensures block { IfOk result (λ block. IsBlockOf model.now block) }
    ensures labels { IfOk result (λ block. HasAllLabels block) }
    ensures back { GivesBack model.now result (lines_left lines.old (S.left source.old)) (lines_left lines.new (S.left source.new)) }

    // which lines went by, with their bytes
    ensures bytes { ReadsBlockLines model.now result lines.old lines.new (S.left source.old) (S.left source.new) }
    ensures drained { Drained lines.old (S.left source.old) → Drained lines.new (S.left source.new) }
    ensures asks { Asks S.takes lines.old source.old lines.new source.new }

    // a read fault has its cause
    ensures cause { RisesWith S.Source source.old source.new (result ≡ Err BlockFault.ReadFault) }
    ensures unfinished { result ≡ Err BlockFault.ReadFault → is_settled lines.new ≡ false }
{
    let mut reader = BlockReader {
        builder: BlockBuilder::new(alloc),
        model,
        names,
    };
    let ending = listen(lines, source, &mut reader);
    conclude(alloc, reader.builder, model, ending, lines.number())
}

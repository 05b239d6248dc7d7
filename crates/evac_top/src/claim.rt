//! The building and the block that an input of `check` states.
ghost use Rattle.std.specs.Prelude.{◌≡◌, ℕ, ◌+◌, List, Err, IfOk, Ok};
ghost use Rattle.std.specs.declared.option.Option.{Option};
ghost use Rattle.evac_law.specs.Building.{IsValid};
ghost use Rattle.line_io.specs.Calls.{Asks, AsksAtMost};
ghost use Rattle.line_io.specs.Line.{input_limit};
ghost use Rattle.line_io.specs.Reader.{Drained, HasRoom, lines_left};
ghost use Rattle.line_io.specs.Sides.{RisesWith};
ghost use Rattle.line_io.specs.View.{Reader};
ghost use Rattle.line_io.specs.declared.limits.TheConstants.{BUFFER_SIZE};
ghost use Rattle.building_table.specs.Names.{NamesFit};
ghost use Rattle.building_table.specs.Passes.{ReadsLines, ReadsModel};
ghost use Rattle.certificate_text.specs.Block.{IsBlockOf};
ghost use Rattle.evac_top.specs.Inputs.{IsOpenClaim};
ghost use Rattle.evac_top.specs.Accounts.{Told};
ghost use Rattle.evac_top.specs.Reads.{ClaimIs, IsFresh, Takes, block_fault};

use crate::read::read_tail;
use block_reader::{BlockFault, read_block};
use building_table::{Building, ModelFault, read_model};
use certificate_text::Block;
use evac_law::Code;
use line_io::{Lines, Source};
use std::alloc::Global;

/// A building with the answer block after it.
#[derive(Drop)]
pub struct Claim {
    pub building: Building,
    pub block: Block,
}

// The fault of an input with a block that isn't read.
fn block_fault(fault: BlockFault) -> ModelFault
    ensures { result ≡ block_fault fault }
{
    let (code, line) = match fault {
        BlockFault::Bad { line } => (Code::BadBlock, line),
        BlockFault::LineTooLong { line } => (Code::LineTooLong, line),
        BlockFault::InputTooLong { line } => (Code::InputTooLong, line),
        BlockFault::ReadFault => return ModelFault::ReadFault,
        BlockFault::Memory => return ModelFault::Memory,
    };
    ModelFault::Named { code, line }
}

// Reads the block after a building, and to the end of the input after it. What they say with the building is said of a reader that read it.
fn read_behind<S: Source>(
    alloc: Global,
    lines: &mut Lines,
    source: &mut S,
    building: Building,
) -> Result<Claim, ModelFault>
    requires valid { IsValid building.model }
    requires names { NamesFit building.names building.model }
    ensures input { (first : Reader) (left : Option (List ℕ)) → IsFresh first
        → ReadsModel (Ok building) first.number lines.old.number (lines_left first left) (lines_left lines.old (S.left source.old)) → Told left (ClaimIs result) }
    ensures valid { IfOk result (λ claim. IsValid claim.building.model) }
    ensures block { IfOk result (λ claim. IsBlockOf claim.building.model claim.block) }
    ensures takes { (first : Reader) (left : Option (List ℕ)) → IsFresh first → ReadsLines (Ok building) first lines.old left (S.left source.old)
        → (Drained first left → Drained lines.old (S.left source.old)) → Takes IsOpenClaim result left (S.left source.new) }
    ensures asks { Asks S.takes lines.old source.old lines.new source.new }
    ensures room { HasRoom lines.old → HasRoom lines.new }
    ensures cause { RisesWith S.Source source.old source.new (result ≡ Err ModelFault.ReadFault) }
{
    let block = match read_block(alloc, lines, source, &building.model, &building.names) {
        Ok(block) => block,
        Err(fault) => {
            drop(building);
            return Err(block_fault(fault));
        }
    };
    match read_tail(lines, source) {
        Ok(()) => Ok(Claim { building, block }),
        Err(fault) => {
            drop(block);
            drop(building);
            Err(fault)
        }
    }
}

/// Reads the building and the block of an input that has nothing but blank lines and comments after them.
pub(crate) fn read_claim<S: Source>(
    alloc: Global,
    lines: &mut Lines,
    source: &mut S,
) -> Result<Claim, ModelFault>
    requires { IsFresh lines.old }
    ensures input { Told (S.left source.old) (ClaimIs result) }
    ensures valid { IfOk result (λ claim. IsValid claim.building.model) }
    ensures block { IfOk result (λ claim. IsBlockOf claim.building.model claim.block) }
    ensures takes { Takes IsOpenClaim result (S.left source.old) (S.left source.new) }
    ensures asked { AsksAtMost S.takes (input_limit + BUFFER_SIZE) source.old source.new }
    ensures cause { RisesWith S.Source source.old source.new (result ≡ Err ModelFault.ReadFault) }
{
    match read_model(alloc, lines, source) {
        Ok(building) => read_behind(alloc, lines, source, building),
        Err(fault) => Err(fault),
    }
}

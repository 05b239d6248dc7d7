//! The building that lines describe.
ghost use Rattle.std.specs.Prelude.{◌≡◌, ◌≤◌, Err, IfOk, IfSome, None, Some, false};
ghost use Rattle.evac_law.specs.Building.{IsValid};
ghost use Rattle.line_io.specs.Calls.{Asks};
ghost use Rattle.line_io.specs.Reader.{Drained, is_settled, lines_left};
ghost use Rattle.building_table.specs.Names.{NamesFit};
ghost use Rattle.building_table.specs.Passes.{ReadsLines, ReadsModel};
ghost use Rattle.building_table.specs.Reads.{ConcludesModel};
ghost use Rattle.line_io.specs.Line.{input_limit};
ghost use Rattle.line_io.specs.Sides.{RisesWith};

use crate::builder::Builder;
use crate::building::Building;
use crate::faults::ModelFault;
use crate::hear::{finish, hear, hear_first};
use evac_law::Code;
use line_io::{Ending, Heard, LineFault, Lines, Listener, Refusal, Source, listen};
use std::alloc::Global;

// What takes the lines of a model.
#[derive(Drop)]
struct ModelReader {
    alloc: Global,
    version: Option<u32>,
    builder: Builder,
}

impl Listener for ModelReader {
    ghost use Rattle.std.specs.Prelude.{⊤};
    ghost use Rattle.building_table.specs.Reads.{HearsModel};

    type Fault = Refusal;

    ghost kept = { λ _. tt };

    ghost ready = { λ _. ⊤ };

    ghost hears = { HearsModel };

    fn hear(&mut self, text: &[u8], _line: u32) -> Result<Heard, Refusal> {
        match self.version {
            Some(version) => hear(self.alloc, version, &mut self.builder, text),
            None => {
                self.version = hear_first(text)?;
                Ok(Heard::More)
            }
        }
    }
}

// Why there is no building, where the lines ended otherwise than by the model's end.
#[tactic(auto, unfolding(line_io::specs::Line::input_limit))]
fn fault_of(ending: Ending<Refusal>, number: u32) -> Option<ModelFault>
    requires { number ≤ input_limit }
    ensures none { result ≡ None → ending ≡ Ending.Finished }
    ensures some { IfSome result (λ fault. (reader : ModelReader) → ConcludesModel ending reader number (Err fault)) }
    ensures caused { result ≡ Some ModelFault.ReadFault → ending ≡ Ending.Fault LineFault.ReadFault }
    ensures quiet { ending ≡ Ending.Fault LineFault.ReadFault → result ≡ Some ModelFault.ReadFault }
{
    let code = match ending {
        Ending::Finished => return None,
        Ending::Failed(Refusal::Code(code)) => {
            return Some(ModelFault::Named { code, line: number });
        }
        Ending::Failed(Refusal::Memory) => return Some(ModelFault::Memory),
        Ending::InputEnded => Code::MissingEnd,
        Ending::Fault(LineFault::LineTooLong) => Code::LineTooLong,
        Ending::Fault(LineFault::InputTooLong) => Code::InputTooLong,
        Ending::Fault(LineFault::ReadFault) => return Some(ModelFault::ReadFault),
    };
    Some(ModelFault::Named {
        code,
        line: number + 1,
    })
}

// The answer where so many lines went by.
fn conclude(
    reader: ModelReader,
    ending: Ending<Refusal>,
    number: u32,
) -> Result<Building, ModelFault>
    requires { number ≤ input_limit }
    ensures answer { ConcludesModel ending reader number result }
    ensures caused { result ≡ Err ModelFault.ReadFault → ending ≡ Ending.Fault LineFault.ReadFault }
    ensures quiet { ending ≡ Ending.Fault LineFault.ReadFault → result ≡ Err ModelFault.ReadFault }
{
    match fault_of(ending, number) {
        Some(fault) => Err(fault),
        None => finish(reader.alloc, reader.builder, number),
    }
}

/// Reads a model from lines, up to its end, or answers the first fault of the lines.
pub fn read_model<S: Source>(
    alloc: Global,
    lines: &mut Lines,
    source: &mut S,
) -> Result<Building, ModelFault>
    // what the lines left before the call describe
    ensures reading { ReadsModel result lines.old.number lines.new.number (lines_left lines.old (S.left source.old)) (lines_left lines.new (S.left source.new)) }
    ensures valid { IfOk result (λ building. IsValid building.model) }
    ensures names { IfOk result (λ building. NamesFit building.names building.model) }

    // which lines went by, with their bytes
    ensures bytes { ReadsLines result lines.old lines.new (S.left source.old) (S.left source.new) }
    ensures drained { Drained lines.old (S.left source.old) → Drained lines.new (S.left source.new) }
    ensures asks { Asks S.takes lines.old source.old lines.new source.new }

    // a read fault has its cause
    ensures cause { RisesWith S.Source source.old source.new (result ≡ Err ModelFault.ReadFault) }
    ensures unfinished { result ≡ Err ModelFault.ReadFault → is_settled lines.new ≡ false }
{
    let Ok(builder) = Builder::new(alloc) else {
        return Err(ModelFault::Memory);
    };
    let mut reader = ModelReader {
        alloc,
        version: None,
        builder,
    };
    let ending = listen(lines, source, &mut reader);
    conclude(reader, ending, lines.number())
}

//! One line of a model.
ghost use Rattle.std.specs.Prelude.{◌≡◌, ℕ, List, IfOk, Ok, Err};
ghost use Rattle.evac_law.specs.Building.{IsValid};
ghost use Rattle.building_table.specs.Built.{built_of};
ghost use Rattle.building_table.specs.Reads.{Finishes, TakesStep, HearsFirst};
ghost use Rattle.model_text.specs.Grammar.{IsSaidPart, SaidPart};
ghost use Rattle.model_text.specs.Readings.{AtStart, InModel, content_step, later_said};
ghost use Rattle.model_text.specs.Reads.{said, said_part};
ghost use Rattle.model_text.specs.Taken.{AreTaken};

use crate::builder::Builder;
use crate::building::Building;
use crate::faults::ModelFault;
use evac_law::Code;
use line_io::{Heard, Refusal};
use model_text::{Part, Statement, TextFault, read_later_line, read_line};
use std::alloc::Global;

// Takes a part into a builder.
fn hear_part(alloc: Global, builder: &mut Builder, part: Part<'_>) -> Result<Heard, Refusal>
    requires { IsSaidPart (said_part part) }
    ensures { (version : ℕ) (taken : List SaidPart) → AreTaken taken → builder.old ≡ built_of taken → TakesStep result (later_said version taken (Ok (said (Statement.Part part.entry)))) version taken builder.new }
{
    match builder.take(alloc, part) {
        Ok(()) => Ok(Heard::More),
        Err(fault) => match fault.code() {
            Some(code) => Err(Refusal::Code(code)),
            None => Err(Refusal::Memory),
        },
    }
}

/// Takes a line after the header of a version into a builder.
pub(crate) fn hear(
    alloc: Global,
    version: u32,
    builder: &mut Builder,
    text: &[u8],
) -> Result<Heard, Refusal>
    ensures { (taken : List SaidPart) → AreTaken taken → builder.old ≡ built_of taken → TakesStep result (content_step (InModel version taken) text.now) version taken builder.new }
{
    match read_later_line(version, text) {
        Ok(Statement::Blank) => Ok(Heard::More),
        Ok(Statement::Header { .. }) => Err(Refusal::Code(TextFault::UnknownWord.code())),
        Ok(Statement::Part(part)) => hear_part(alloc, builder, part),
        Ok(Statement::End) => Ok(Heard::Last),
        Err(fault) => Err(Refusal::Code(fault.code())),
    }
}

/// The version of a line that is the first or stands after blank lines and is the header: else it is blank, or refused.
pub(crate) fn hear_first(text: &[u8]) -> Result<Option<u32>, Refusal>
    ensures { HearsFirst result (content_step AtStart text.now) }
{
    match read_line(text) {
        Ok(Statement::Blank) => Ok(None),
        Ok(Statement::Header { version: 1 }) => Ok(Some(1)),
        Ok(Statement::Header { version: 2 }) => Ok(Some(2)),
        _ => Err(Refusal::Code(Code::FirstLine)),
    }
}

/// The building of a builder, or the fault of the model's end.
pub(crate) fn finish(alloc: Global, builder: Builder, line: u32) -> Result<Building, ModelFault>
    ensures finished { (taken : List SaidPart) → AreTaken taken → builder ≡ built_of taken → Finishes result taken line }
    ensures no_read { result ≡ Err ModelFault.ReadFault → ⊥ }
    ensures valid { IfOk result (λ b. (taken : List SaidPart) → AreTaken taken → builder ≡ built_of taken → IsValid b.model) }
{
    match builder.finish(alloc) {
        Ok(building) => Ok(building),
        Err(fault) => match fault.code() {
            Some(code) => Err(ModelFault::Named { code, line }),
            None => Err(ModelFault::Memory),
        },
    }
}

//! The mode `upgrade`: a model is read to the end of its input, and is sent as a text of version 2.
ghost use Rattle.std.specs.Prelude.{◌≡◌, ℕ, ◌+◌, [], Some};
ghost use Rattle.evac_law.specs.Building.{IsValid};
ghost use Rattle.line_io.specs.Calls.{AsksAtMost};
ghost use Rattle.line_io.specs.Line.{input_limit};
ghost use Rattle.line_io.specs.declared.limits.TheConstants.{BUFFER_SIZE};
ghost use Rattle.model_writer.specs.ModelText.{building_text};
ghost use Rattle.evac_top.specs.Runs.{RunsOn};
ghost use Rattle.evac_top.specs.Upgrade.{IsUpgraded};
ghost use Rattle.evac_top.specs.Tells.{TellsTo};
ghost use Rattle.evac_top.specs.declared.words.Mode.TheVariants.{Upgrade};
ghost use Rattle.talk.specs.Held.{SendsTo};
ghost use Rattle.talk.specs.Statuses.{status_number};

use crate::read::read_input;
use crate::room::take_room;
use crate::stop::stop;
use building_table::Building;
use line_io::{Out, Sink, Source, WriteFault, Writer};
use model_writer::put_model;
use std::alloc::Global;
use talk::{Status, status_after};

// Sends the text of a building.
fn send_model<K: Sink>(out: &mut Out, sink: &mut K, building: &Building) -> Result<(), WriteFault>
    requires { IsValid building.now.model }
    ensures { SendsTo K.Sink result (building_text building.now) sink.old out.old sink.new out.new }
{
    let mut writer = Writer::new(out, sink);
    put_model(&mut writer, building);
    writer.flush()
}

// Sends the same, and drops the building.
fn answer<K: Sink>(out: &mut Out, sink: &mut K, building: Building) -> Status
    requires fresh { out.old ≡ [] }
    requires valid { IsValid building.model }
    ensures { TellsTo K.Sink (IsUpgraded building) (status_number result) 0 sink.old sink.new }
{
    let status = status_after(send_model(out, sink, &building), Status::Done);
    drop(building);
    status
}

/// Runs the mode. It counts no steps.
pub(crate) fn upgrade<S: Source, K: Sink>(alloc: Global, source: &mut S, sink: &mut K) -> Status
    ensures run { (steps : ℕ) → RunsOn S.Source K.Sink (Some Upgrade) (status_number result) source.old sink.old steps source.new sink.new steps }
    ensures asked { AsksAtMost S.takes (input_limit + BUFFER_SIZE) source.old source.new }
{
    let Ok((mut lines, mut out)) = take_room(alloc) else {
        return Status::NoMemory;
    };
    match read_input(alloc, &mut lines, source) {
        Ok(input) => answer(&mut out, sink, input.building),
        Err(fault) => stop(&mut out, sink, fault),
    }
}

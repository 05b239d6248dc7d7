//! The end of a run that has no answer: what a fault of the input gives, and a building that can't be cleared.
ghost use Rattle.std.specs.Prelude.{◌≡◌, ℕ, [], Err};
ghost use Rattle.edit_session.specs.Sessions.{BeginEnds};
ghost use Rattle.evac_law.specs.declared.model.Model.{Model};
ghost use Rattle.evac_top.specs.Solve.{IsShort};
ghost use Rattle.evac_top.specs.Tells.{HasBegun, Stops, TellsTo};
ghost use Rattle.line_io.specs.Sides.{sink_side};
ghost use Rattle.talk.specs.Statuses.{status_number};

use building_table::ModelFault;
use edit_session::BeginFault;
use line_io::{Out, Sink};
use talk::{Status, send_refusal, send_short, status_after};

/// Ends a run whose input isn't read: a named fault is answered by its line.
pub(crate) fn stop<K: Sink>(out: &mut Out, sink: &mut K, fault: ModelFault) -> Status
    requires { out.old ≡ [] }
    ensures { Stops fault (status_number result) (sink_side K.Sink sink.old) (sink_side K.Sink sink.new) }
{
    match fault {
        ModelFault::Named { code, line } => {
            status_after(send_refusal(out, sink, code, line), Status::Refused)
        }
        ModelFault::ReadFault => Status::SourceFailed,
        ModelFault::Memory => Status::NoMemory,
    }
}

/// Ends a run in which no session begins, on a building whose end is at a line: a shortfall is answered by its block.
pub(crate) fn stop_short<K: Sink>(
    out: &mut Out,
    sink: &mut K,
    line: u32,
    fault: BeginFault,
) -> Status
    requires fresh { out.old ≡ [] }
    requires begun { (m : Model) × HasBegun m (Err fault) }
    ensures { (m : Model) (steps : ℕ) → BeginEnds m (Err fault) steps → TellsTo K.Sink (IsShort m line) (status_number result) steps sink.old sink.new }
{
    match fault {
        BeginFault::NotCleared(short) => status_after(
            send_short(out, sink, &short, line),
            Status::Refused,
        ),
        BeginFault::Memory => Status::NoMemory,
    }
}

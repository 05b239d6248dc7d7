//! The mode `solve`: a model is read, all arrival moments are settled, and the plan or the shortfall is sent.
ghost use Rattle.std.specs.Prelude.{◌≡◌, ℕ, ◌+◌, [], Some};
ghost use Rattle.edit_session.specs.Sessions.{BeginEnds, Begins};
ghost use Rattle.evac_law.specs.declared.model.Model.{Model as ModelValue};
ghost use Rattle.line_io.specs.Calls.{AsksAtMost};
ghost use Rattle.line_io.specs.Line.{input_limit};
ghost use Rattle.line_io.specs.declared.limits.TheConstants.{BUFFER_SIZE};
ghost use Rattle.evac_top.specs.Runs.{RunsOn};
ghost use Rattle.evac_top.specs.Solve.{IsPlanned, IsPlannedOrShort};
ghost use Rattle.evac_top.specs.Tells.{HasBegun, TellsTo};
ghost use Rattle.evac_top.specs.declared.words.Mode.TheVariants.{Solve};
ghost use Rattle.talk.specs.Statuses.{status_number};

use crate::plan::send_plan;
use crate::query::Query;
use crate::read::read_input;
use crate::report_tables::Tables;
use crate::room::take_room;
use crate::stop::{stop, stop_short};
use crate::words::Flags;
use edit_session::{BeginFault, Session};
use evac_law::Steps;
use line_io::{Out, Sink, Source};
use std::alloc::Global;
use std::sync::ledger::Ledger;
use talk::{Status, status_after};

// Sends the plan with which a session begins. All memory is taken before.
fn answer_plan<K: Sink>(
    alloc: Global,
    out: &mut Out,
    sink: &mut K,
    query: &Query,
    session: &Session,
) -> Status
    requires fresh { out.old ≡ [] }
    requires begins { Begins session.now.state.model session.now.state }
    ensures { TellsTo K.Sink (IsPlanned query.now.flags query.now.names session.now.state.model) (status_number result) session.now.state.work.pushes sink.old sink.new }
{
    let Ok(mut tables) = Tables::new(alloc, query, session) else {
        return Status::NoMemory;
    };
    status_after(
        send_plan(out, sink, query, session, &mut tables),
        Status::Done,
    )
}

// Sends what a session begins with, or why there is none.
fn tell<K: Sink>(
    alloc: Global,
    out: &mut Out,
    sink: &mut K,
    query: &Query,
    begun: Result<Session, BeginFault>,
) -> Status
    requires fresh { out.old ≡ [] }
    requires begun { (m : ModelValue) × HasBegun m begun }
    ensures { (m : ModelValue) (steps : ℕ) → BeginEnds m begun steps
        → TellsTo K.Sink (IsPlannedOrShort query.now.flags query.now.names m query.now.line) (status_number result) steps sink.old sink.new }
{
    match begun {
        Ok(session) => answer_plan(alloc, out, sink, query, &session),
        Err(fault) => stop_short(out, sink, query.line, fault),
    }
}

/// Runs the mode.
pub(crate) fn solve<S: Source, K: Sink, L: Ledger>(
    alloc: Global,
    flags: Flags,
    source: &mut S,
    sink: &mut K,
    steps: &mut Steps<L>,
) -> Status
    ensures run { RunsOn S.Source K.Sink (Some (Solve flags)) (status_number result) source.old sink.old steps.old source.new sink.new steps.new }
    ensures asked { AsksAtMost S.takes (input_limit + BUFFER_SIZE) source.old source.new }
{
    let Ok((mut lines, mut out)) = take_room(alloc) else {
        return Status::NoMemory;
    };
    match read_input(alloc, &mut lines, source) {
        Ok(input) => {
            let begun = Session::begin(alloc, input.building.model, steps);
            let query = Query {
                flags,
                names: input.building.names,
                line: input.last,
            };
            let status = tell(alloc, &mut out, sink, &query, begun);
            drop(query);
            status
        }
        Err(fault) => stop(&mut out, sink, fault),
    }
}

//! The mode `drill`: the building of a drill is planned, and the summary of its plan is sent.
ghost use Rattle.std.specs.Prelude.{◌≡◌, ℕ, ◌+◌, ◌≤◌, [], IfOk, Some};
ghost use Rattle.clearing_report.specs.Walks.{IsUncongested};
ghost use Rattle.drill_building.specs.Drill.{drill_model};
ghost use Rattle.drill_building.specs.Summary.{drill_text, figures_of};
ghost use Rattle.edit_session.specs.Sessions.{BeginEnds, Begins};
ghost use Rattle.evac_law.specs.Building.{IsValid};
ghost use Rattle.evac_top.specs.Accounts.{met_beside};
ghost use Rattle.evac_top.specs.Drill.{IsDrilled};
ghost use Rattle.evac_top.specs.Runs.{Runs};
ghost use Rattle.evac_top.specs.Tells.{HasBegun, TellsTo};
ghost use Rattle.evac_top.specs.declared.words.Mode.TheVariants.{Drill};
ghost use Rattle.line_io.specs.Sides.{Side};
ghost use Rattle.talk.specs.Held.{SendsTo};
ghost use Rattle.talk.specs.Statuses.{status_number};

use crate::stop::stop_short;
use building_table::Building;
use clearing_report::Clearing;
use drill_building::{Figures, STOREY_LIMIT, drill_model, put_drill};
use edit_session::{BeginFault, Session};
use evac_law::{Model, Standing, Steps};
use line_io::{Out, Sink, WriteFault, Writer};
use std::alloc::{AllocError, Global};
use std::sync::ledger::Ledger;
use talk::{Status, status_after};

// The figures of a session's plan.
fn figures_of(alloc: Global, session: &Session) -> Result<Figures, AllocError>
    ensures { IfOk result (λ f. let s = session.now.state in IsUncongested s.model (Some f.uncongested) × (f ≡ figures_of s.model s.plan s.last f.uncongested)) }
{
    let model = session.model();
    let mut clearing = Clearing::new(alloc, model)?;
    clearing.fill(model, session);
    Ok(Figures {
        cleared: session.cleared(),
        uncongested: clearing.uncongested(),
        person_periods: clearing.person_periods(),
    })
}

// Sends the summary of a drill.
fn send_drill<K: Sink>(
    out: &mut Out,
    sink: &mut K,
    number: u32,
    model: &Model,
    figures: Figures,
) -> Result<(), WriteFault>
    requires { IsValid model.now }
    ensures { SendsTo K.Sink result (drill_text number model.now figures) sink.old out.old sink.new out.new }
{
    let mut writer = Writer::new(out, sink);
    put_drill(&mut writer, number, model, figures);
    writer.flush()
}

// Sends the summary of the plan with which a session on a drill's building begins.
fn answer_drill<K: Sink>(
    alloc: Global,
    out: &mut Out,
    sink: &mut K,
    number: u32,
    session: &Session,
) -> Status
    requires fresh { out.old ≡ [] }
    requires begins { Begins (drill_model number) session.now.state }
    ensures { TellsTo K.Sink (IsDrilled number) (status_number result) session.now.state.work.pushes sink.old sink.new }
{
    let Ok(figures) = figures_of(alloc, session) else {
        return Status::NoMemory;
    };
    let model = session.model();
    status_after(send_drill(out, sink, number, model, figures), Status::Done)
}

// Sends the summary of what a session begins with. One does, but for want of memory.
fn tell<K: Sink>(
    alloc: Global,
    out: &mut Out,
    sink: &mut K,
    number: u32,
    begun: Result<Session, BeginFault>,
) -> Status
    requires fresh { out.old ≡ [] }
    requires storeys { number ≤ STOREY_LIMIT }
    requires begun { HasBegun (drill_model number) begun }
    ensures { (steps : ℕ) → BeginEnds (drill_model number) begun steps → TellsTo K.Sink (IsDrilled number) (status_number result) steps sink.old sink.new }
{
    match begun {
        Ok(session) => answer_drill(alloc, out, sink, number, &session),
        Err(fault) => stop_short(out, sink, 0, fault),
    }
}

// Begins a session on a building, and drops its names.
fn begin<L: Ledger>(
    alloc: Global,
    building: Building,
    steps: &mut Steps<L>,
) -> Result<Session, BeginFault>
    requires { IsValid building.model }
    ensures { (count : ℕ) × (steps.new ≡ steps.old + count) × BeginEnds building.model result count }
{
    drop(building.names);
    Session::begin(alloc, building.model, steps)
}

// Takes the memory to write, and makes the building.
fn take_building(alloc: Global, number: u32) -> Result<(Out, Building), AllocError>
    requires { number ≤ STOREY_LIMIT }
    ensures empty { IfOk result (λ made. made.0 ≡ []) }
    ensures model { IfOk result (λ made. made.1.model ≡ drill_model number) }
    ensures valid { IfOk result (λ made. IsValid made.1.model) }
{
    let out = Out::new(alloc)?;
    let building = drill_model(alloc, number)?;
    Ok((out, building))
}

/// Runs the mode. It reads nothing.
pub(crate) fn drill<K: Sink, L: Ledger>(
    alloc: Global,
    number: u32,
    sink: &mut K,
    steps: &mut Steps<L>,
) -> Status
    requires { number ≤ STOREY_LIMIT }
    ensures { (source : Side) → Runs (Some (Drill number)) (status_number result)
        (met_beside K.Sink source sink.old steps.old)
        (met_beside K.Sink source sink.new steps.new) }
{
    let Ok((mut out, building)) = take_building(alloc, number) else {
        return Status::NoMemory;
    };
    let begun = begin(alloc, building, steps);
    let status = tell(alloc, &mut out, sink, number, begun);
    drop(out);
    status
}

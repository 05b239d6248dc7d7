//! The reports on where a session stands.
ghost use Rattle.std.specs.Prelude.{◌≡◌, ℕ, List, ◌++◌, IfOk, length};
ghost use Rattle.evac_law.specs.Building.{IsValid};
ghost use Rattle.line_io.specs.Writer.{Writes};
ghost use Rattle.bottleneck_report.specs.Crossings.{HasCounts, counts_of};
ghost use Rattle.building_table.specs.Names.{NameTable};
ghost use Rattle.clearing_report.specs.Clearing.{IsReport};
ghost use Rattle.session_text.specs.Spaces.{IsSpace};
ghost use Rattle.session_text.specs.StateTexts.{SaysReports, SaysSummary, bottlenecks_of, clearing_of};

use bottleneck_report::Bottlenecks;
use building_table::Names;
use clearing_report::Clearing;
use edit_session::Session;
use evac_law::Standing;
use floor_index::FloorIndex;
use line_io::{Sink, Writer};
use report_text::Subject;
use std::alloc::{AllocError, Global};
use std::marker::Model;

/// Tables that reports are made in. All memory that they need is taken when they are made.
pub struct ReportSpace {
    clearing: Clearing,
    floors: FloorIndex,
    bottlenecks: Bottlenecks,
}

// Written out, since a derived drop is laid out part by part in each function that lets one go.
impl Drop for ReportSpace {
    fn drop(self) {
        let ReportSpace {
            clearing: _,
            floors: _,
            bottlenecks: _,
        } = self;
    }
}

impl Model for ReportSpace {
    ghost use Rattle.session_text.specs.Spaces.{SpaceView};

    ghost Value = { SpaceView };

    ghost view = { λ s. record { clearing = s.clearing; floors = s.floors; bottlenecks = s.bottlenecks } };
}

impl ReportSpace {
    /// Tables for reports on the plans of a model, with the floors of these names.
    pub fn new(
        alloc: Global,
        model: &evac_law::Model,
        names: &Names,
    ) -> Result<ReportSpace, AllocError>
        requires { IsValid model.now }
        ensures { IfOk result (IsSpace model.now names.now) }
    {
        let clearing = Clearing::new(alloc, model)?;
        let floors = FloorIndex::new(alloc, model, names.floors())?;
        let bottlenecks = Bottlenecks::new(alloc, model)?;
        Ok(ReportSpace {
            clearing,
            floors,
            bottlenecks,
        })
    }

    /// Reports on the plan of a session.
    pub fn report_plan(&mut self, session: &Session)
        requires size { length self.old.clearing.moments ≡ length session.now.state.model.nodes }
        ensures report { IsReport session.now.state.model session.now.state.plan self.new.clearing }
        ensures size { length self.new.clearing.moments ≡ length self.old.clearing.moments }
        ensures floors { self.new.floors ≡ self.old.floors }
        ensures bottlenecks { self.new.bottlenecks ≡ self.old.bottlenecks }
    {
        self.clearing.fill(session.model(), session);
    }

    /// Reports on the labels of a session.
    pub fn report_labels(&mut self, session: &Session)
        requires room { HasCounts session.now.state.model self.old.bottlenecks }
        ensures report { self.new.bottlenecks ≡ counts_of session.now.state.model session.now.state.labels session.now.state.last }
        ensures room { HasCounts session.now.state.model self.new.bottlenecks }
        ensures clearing { self.new.clearing ≡ self.old.clearing }
        ensures floors { self.new.floors ≡ self.old.floors }
    {
        let model = session.model();
        let cleared = session.cleared();
        self.bottlenecks.fill(model, session.labels(), cleared);
    }
}

/// Puts when each node that is no exit and each floor is empty. The index is that of the session's block.
pub fn put_clearing<K: Sink>(
    writer: &mut Writer<'_, K>,
    session: &Session,
    index: u32,
    names: &Names,
    space: &mut ReportSpace,
)
    requires space { IsSpace session.now.state.model names.now space.old }
    ensures text { Writes K.Sink writer.old (clearing_of names.now index session.now.state) writer.new }
    ensures space { IsSpace session.now.state.model names.now space.new }
{
    space.report_plan(session);
    let model = session.model();
    let subject = Subject {
        model,
        names,
        index,
    };
    report_text::put_clearing(writer, &subject, &space.floors, &space.clearing);
}

/// Puts what holds people up, and in how many periods. The index is that of the session's block.
pub fn put_bottlenecks<K: Sink>(
    writer: &mut Writer<'_, K>,
    session: &Session,
    index: u32,
    space: &mut ReportSpace,
)
    requires room { HasCounts session.now.state.model space.old.bottlenecks }
    ensures text { Writes K.Sink writer.old (bottlenecks_of index session.now.state) writer.new }
    ensures space { (names : NameTable) → IsSpace session.now.state.model names space.old → IsSpace session.now.state.model names space.new }
{
    space.report_labels(session);
    report_text::put_bottlenecks(writer, session.model(), index, &space.bottlenecks);
}

/// Puts the summary of the plan. The index is that of the session's block.
pub fn put_summary<K: Sink>(
    writer: &mut Writer<'_, K>,
    session: &Session,
    index: u32,
    names: &Names,
    space: &mut ReportSpace,
)
    requires space { IsSpace session.now.state.model names.now space.old }
    ensures text { (text : List ℕ) × SaysSummary names.now index session.now.state text × Writes K.Sink writer.old text writer.new }
    ensures space { IsSpace session.now.state.model names.now space.new }
{
    space.report_plan(session);
    let model = session.model();
    let subject = Subject {
        model,
        names,
        index,
    };
    report_text::put_summary(writer, &subject, session, &space.clearing);
}

/// Puts the three reports, one after another: clearing, bottlenecks and summary.
pub fn put_reports<K: Sink>(
    writer: &mut Writer<'_, K>,
    session: &Session,
    index: u32,
    names: &Names,
    space: &mut ReportSpace,
)
    requires space { IsSpace session.now.state.model names.now space.old }
    ensures text { (text : List ℕ) × SaysReports names.now index session.now.state text × Writes K.Sink writer.old text writer.new }
    ensures space { IsSpace session.now.state.model names.now space.new }
{
    space.report_plan(session);
    space.report_labels(session);
    let model = session.model();
    let subject = Subject {
        model,
        names,
        index,
    };
    report_text::put_clearing(writer, &subject, &space.floors, &space.clearing);
    report_text::put_bottlenecks(writer, model, index, &space.bottlenecks);
    report_text::put_summary(writer, &subject, session, &space.clearing);
}

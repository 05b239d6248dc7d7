//! What replies about a session are made in.
ghost use Rattle.std.specs.Prelude.{◌≡◌, ◌<◌, ◌+◌, ◌^◌, ℕ, List, IfOk, OnOk};
ghost use Rattle.evac_law.specs.Building.{IsValid};
ghost use Rattle.evac_law.specs.Edits.{IsEditOf};
ghost use Rattle.evac_law.specs.declared.model.Model.{Model as ModelValue};
ghost use Rattle.line_io.specs.Writer.{Writes};
ghost use Rattle.building_table.specs.EditNames.{edit_named};
ghost use Rattle.building_table.specs.Names.{NamesFit};
ghost use Rattle.session_text.specs.Spaces.{IsSpace};
ghost use Rattle.session_text.specs.StateTexts.{SaysRoutesOf, SaysSummary, block_text, bottlenecks_of, clearing_of};
ghost use Rattle.talk.specs.SessionDesks.{HasTables, IsDesk, IsSameDesk};

use building_table::{NameFault, Names, edit_of};
use edit_session::Session;
use evac_law::Edit;
use line_io::{Sink, Writer};
use model_text::NamedEdit;
use route_decompose::Routes;
use session_text::{
    ReportSpace, put_block, put_bottlenecks, put_clearing, put_routes, put_summary,
};
use std::alloc::{AllocError, Global};
use std::marker::Model;

/// The names of a building, the index of the block written last, and what routes and reports on a session's plans are made in.
#[derive(Drop)]
pub struct Desk {
    names: Names,
    index: u32,
    routes: Routes,
    space: ReportSpace,
}

impl Model for Desk {
    ghost use Rattle.talk.specs.SessionDesks.{DeskView};

    ghost Value = { DeskView };

    ghost view = { λ d. record { names = d.names; index = d.index; routes = d.routes; space = d.space } };
}

// What routes and reports on a model's plans are made in.
fn tables(
    alloc: Global,
    model: &evac_law::Model,
    names: &Names,
) -> Result<(Routes, ReportSpace), AllocError>
    requires { IsValid model.now }
    ensures routes { IfOk result (λ made. made.0.model ≡ model.now) }
    ensures space { IfOk result (λ made. IsSpace model.now names.now made.1) }
{
    let routes = Routes::new(alloc, model)?;
    let space = ReportSpace::new(alloc, model, names)?;
    Ok((routes, space))
}

impl Desk {
    /// A desk for a model with these names, at block 0.
    pub fn new(alloc: Global, names: Names, model: &evac_law::Model) -> Result<Desk, AllocError>
        requires { IsValid model.now }
        ensures names { IfOk result (λ d. d.names ≡ names) }
        ensures first { IfOk result (λ d. d.index ≡ 0) }
        ensures tables { IfOk result (HasTables model.now) }
    {
        let (routes, space) = tables(alloc, model, &names)?;
        Ok(Desk {
            names,
            index: 0,
            routes,
            space,
        })
    }

    /// Makes its tables anew, for another model.
    pub fn renew(&mut self, alloc: Global, model: &evac_law::Model) -> Result<(), AllocError>
        requires { IsValid model.now }
        ensures same { IsSameDesk self.old self.new }
        ensures tables { OnOk result (HasTables model.now self.new) }
    {
        let (routes, space) = tables(alloc, model, &self.names)?;
        self.routes = routes;
        self.space = space;
        Ok(())
    }

    /// The edit at the places of its names, or the first name that has no place.
    pub fn edit_of(&self, named: NamedEdit) -> Result<Edit, NameFault>
        ensures edit { result ≡ edit_named self.now.names named }
        ensures within { IfOk result (λ edit. (m : ModelValue) → NamesFit self.now.names m → IsEditOf m edit) }
    {
        edit_of(&self.names, named)
    }

    /// Counts a block.
    pub fn count_block(&mut self)
        ensures next { self.old.index + 1 < 2 ^ 32 → self.new.index ≡ self.old.index + 1 }
        ensures same { self.new ≡ record self.old { index = self.new.index } }
    {
        self.index = self.index.saturating_add(1);
    }

    /// Puts the block of a session's plan.
    pub fn put_block<K: Sink>(&self, writer: &mut Writer<'_, K>, session: &Session)
        ensures { Writes K.Sink writer.old (block_text self.now.index session.now.state) writer.new }
    {
        put_block(writer, session, self.index);
    }

    /// Puts routes that make up the plan.
    pub(crate) fn put_routes<K: Sink>(&mut self, writer: &mut Writer<'_, K>, session: &Session)
        requires { IsDesk self.old session.now }
        ensures text { (text : List ℕ) × SaysRoutesOf self.old.index session.now.state text × Writes K.Sink writer.old text writer.new }
        ensures same { IsSameDesk self.old self.new }
        ensures desk { IsDesk self.new session.now }
    {
        put_routes(writer, session, self.index, &mut self.routes);
    }

    /// Puts when each node and each floor is empty.
    pub(crate) fn put_clearing<K: Sink>(&mut self, writer: &mut Writer<'_, K>, session: &Session)
        requires { IsDesk self.old session.now }
        ensures text { Writes K.Sink writer.old (clearing_of self.old.names self.old.index session.now.state) writer.new }
        ensures same { IsSameDesk self.old self.new }
        ensures desk { IsDesk self.new session.now }
    {
        put_clearing(writer, session, self.index, &self.names, &mut self.space);
    }

    /// Puts what holds people up, and in how many periods.
    pub(crate) fn put_bottlenecks<K: Sink>(&mut self, writer: &mut Writer<'_, K>, session: &Session)
        requires { IsDesk self.old session.now }
        ensures text { Writes K.Sink writer.old (bottlenecks_of self.old.index session.now.state) writer.new }
        ensures same { IsSameDesk self.old self.new }
        ensures desk { IsDesk self.new session.now }
    {
        put_bottlenecks(writer, session, self.index, &mut self.space);
    }

    /// Puts the summary of the plan.
    pub(crate) fn put_summary<K: Sink>(&mut self, writer: &mut Writer<'_, K>, session: &Session)
        requires { IsDesk self.old session.now }
        ensures text { (text : List ℕ) × SaysSummary self.old.names self.old.index session.now.state text × Writes K.Sink writer.old text writer.new }
        ensures same { IsSameDesk self.old self.new }
        ensures desk { IsDesk self.new session.now }
    {
        put_summary(writer, session, self.index, &self.names, &mut self.space);
    }
}

//! What a study works with.
ghost use Rattle.std.specs.Prelude.{◌≡◌, ◌+◌, ◌<◌, ◌≤◌, ℕ, List, IfOk, length};
ghost use Rattle.evac_law.specs.Building.{IsValid};
ghost use Rattle.line_io.specs.Writer.{Writes};
ghost use Rattle.building_table.specs.EditNames.{named_arc};
ghost use Rattle.building_table.specs.Names.{NamesFit};
ghost use Rattle.exit_study.specs.declared.rates.Least.{Least};
ghost use Rattle.talk.specs.StudyDesks.{StudyBegins, kept_of};
ghost use Rattle.talk.specs.StudyTexts.{SaysExits, SaysLeast};

use crate::studies::exits::put_exits;
use crate::studies::least::put_least_rate;
use building_table::{Building, NameFault, Names, arc_of};
use edit_session::{BeginFault, Session};
use evac_law::{NodeName, Steps};
use line_io::{Sink, Writer};
use std::alloc::Global;
use std::marker::Model;
use std::sync::ledger::Ledger;

/// A session with the names of its building, on which each edit is undone.
#[derive(Drop)]
pub struct StudyDesk {
    names: Names,
    session: Session,
}

impl Model for StudyDesk {
    ghost use Rattle.talk.specs.StudyDesks.{StudyView, IsStudyDesk};

    ghost Value = { StudyView };

    ghost view = { λ d. record { names = d.names; session = d.session } };

    ghost invariant = { λ d. IsStudyDesk d.names d.session };
}

impl StudyDesk {
    /// A desk for a building, with the best plan of its model. All memory that a study needs is taken here.
    pub(crate) fn new<L: Ledger>(
        alloc: Global,
        building: Building,
        steps: &mut Steps<L>,
    ) -> Result<StudyDesk, BeginFault>
        requires valid { IsValid building.model }
        requires names { NamesFit building.names building.model }
        ensures { (n : ℕ) × (steps.new ≡ steps.old + n) × StudyBegins building.names building.model result n }
    {
        let Building { model, names } = building;
        let session = Session::begin(alloc, model, steps)?;
        Ok(StudyDesk { names, session })
    }

    /// The last period of the model.
    pub(crate) fn horizon(&self) -> u16
        ensures { result ≡ self.now.session.state.model.horizon }
    {
        self.session.model().horizon
    }

    /// The place of the arc between two nodes, or the first name that has no place.
    pub(crate) fn find_arc(&self, from: NodeName, to: NodeName) -> Result<u32, NameFault>
        ensures arc { result ≡ named_arc self.now.names from to }
        ensures within { IfOk result (λ arc. arc < length self.now.session.state.model.arcs) }
    {
        arc_of(&self.names, from, to)
    }

    /// Puts what the model comes to without each of its exits.
    #[tactic(auto, unfolding(edit_session::specs::Sessions::kept_limit))]
    pub(crate) fn put_exits<K: Sink, L: Ledger>(
        &mut self,
        writer: &mut Writer<'_, K>,
        steps: &mut Steps<L>,
    )
        ensures text { (text : List ℕ) × SaysExits self.old.session.state.model text × Writes K.Sink writer.old text writer.new }
        ensures kept { kept_of self.new ≡ kept_of self.old }
        ensures counted { (n : ℕ) × (steps.new ≡ steps.old + n) }
    {
        put_exits(&mut self.session, writer, steps);
    }

    /// Puts the least rate of an arc at which everybody is out by a moment.
    #[tactic(auto, unfolding(edit_session::specs::Sessions::kept_limit))]
    pub(crate) fn put_least<K: Sink, L: Ledger>(
        &mut self,
        writer: &mut Writer<'_, K>,
        steps: &mut Steps<L>,
        arc: u32,
        by: u16,
    )
        requires arc { arc < length self.old.session.state.model.arcs }
        requires by { by ≤ self.old.session.state.model.horizon }
        ensures text { (least : Least) × ((text : List ℕ) × SaysLeast self.old.session.state.model arc by least text × Writes K.Sink writer.old text writer.new) }
        ensures kept { kept_of self.new ≡ kept_of self.old }
        ensures counted { (n : ℕ) × (steps.new ≡ steps.old + n) }
    {
        put_least_rate(&mut self.session, writer, steps, arc, by);
    }
}

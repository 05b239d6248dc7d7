//! The session: a model, the net that stands for its plan, and the edits that lead back.
ghost use Rattle.std.specs.Prelude.{◌≡◌, ℕ, ◌+◌, OnErr, length};
ghost use Rattle.evac_law.specs.Building.{IsValid};
ghost use Rattle.evac_law.specs.Certificates.{IsTableOf};
ghost use Rattle.evac_law.specs.Edits.{IsEditOf};
ghost use Rattle.evac_law.specs.Stands.{Fits};
ghost use Rattle.edit_session.specs.Sessions.{BeginEnds, EditEnds, IsNetOfState, IsSolved, TrialEnds, UndoEnds, stand_of_state};

use crate::course::Course;
use crate::faults::{BeginFault, EditRefusal, UndoRefusal};
use crate::limits::KEPT_LIMIT;
use crate::planned::Planned;
use crate::repair::Repaired;
use crate::work::Work;
use circular_buffer::HeapCircularBuffer;
use evac_law::{Edit, Labels, Model, Standing, Steps, apply};
use lex_flow::{Outcome, settle_all};
use residual_net::Net;
use std::alloc::Global;
use std::mem::swap;
use std::sync::ledger::Ledger;

/// A model with its best plan, which is repaired after each edit. All memory that a session needs is taken when it begins.
pub struct Session {
    planned: Planned,
    ring: HeapCircularBuffer<Edit>,
    work: Work,
}

// Written out, since a derived drop is laid out part by part in each function that lets one go.
impl Drop for Session {
    fn drop(self) {
        let Session {
            planned: _,
            ring: _,
            work: _,
        } = self;
    }
}

impl std::marker::Model for Session {
    ghost use Rattle.edit_session.specs.Kept.{IsSession, view_of};
    ghost use Rattle.edit_session.specs.Sessions.{SessionView};

    ghost Value = { SessionView };

    ghost view = { λ s. view_of s.planned.model s.planned.net s.planned.labels s.planned.refused s.ring.items s.work };

    ghost invariant = { λ s. IsSession s.planned.model s.planned.net s.planned.labels s.planned.refused s.ring.items s.ring.capacity s.planned.scratch };
}

impl Session {
    /// A session on a model, with its best plan; or the model back, where not everybody can get out.
    pub fn begin<L: Ledger>(
        alloc: Global,
        model: Model,
        steps: &mut Steps<L>,
    ) -> Result<Session, BeginFault>
        requires { IsValid model }
        ensures { (n : ℕ) × (steps.new ≡ steps.old + n) × BeginEnds model result n }
    {
        let Ok(ring) = HeapCircularBuffer::with_capacity(alloc, KEPT_LIMIT) else {
            return Err(BeginFault::Memory);
        };
        let Ok(mut planned) = Planned::new(alloc, model) else {
            return Err(BeginFault::Memory);
        };
        match settle_all(
            &mut planned.net,
            &mut planned.labels,
            &mut planned.scratch.search,
            0,
            steps,
        ) {
            Outcome::Cleared { pushes, .. } => {
                let work = Work {
                    cancelled: 0,
                    pushes,
                };
                Ok(Session {
                    planned,
                    ring,
                    work,
                })
            }
            Outcome::Short { most, .. } => Err(BeginFault::NotCleared(planned.into_short(most))),
        }
    }

    // An edit leads back where it is the one that an undo would make.
    fn course_of(&self, edit: Edit) -> Course {
        if self.ring.front().copied() == Some(edit) {
            Course::Back
        } else {
            Course::Onward
        }
    }

    /// Makes an edit and repairs the plan. Where it is refused, all stays as it was but the refused cut.
    pub fn edit<L: Ledger>(&mut self, edit: Edit, steps: &mut Steps<L>) -> Result<Work, EditRefusal>
        requires { IsEditOf self.old.state.model edit }
        ensures ends { (n : ℕ) × (steps.new ≡ steps.old + n) × EditEnds self.old edit result self.new n }
        ensures unchanged { OnErr result (self.new.state ≡ self.old.state) }
    {
        let course = self.course_of(edit);
        let made = self.planned.make_edit(edit, course, steps)?;
        swap(&mut self.planned.labels, &mut self.planned.scratch.labels);
        self.ring.push_front(made.inverse);
        self.work = made.work;
        Ok(made.work)
    }

    /// The moment by which everybody would be out after an edit. It is made and taken back, so all stays as it was but the refused cut.
    pub fn trial<L: Ledger>(&mut self, edit: Edit, steps: &mut Steps<L>) -> Result<u16, EditRefusal>
        requires { IsEditOf self.old.state.model edit }
        ensures ends { (n : ℕ) × (steps.new ≡ steps.old + n) × TrialEnds self.old edit result self.new n }
        ensures unchanged { self.new.state ≡ self.old.state }
    {
        let made = self.planned.make_edit(edit, Course::Onward, steps)?;
        let last = self.planned.net.last_arrival();
        self.planned.net.restore();
        // the inverse of an edit that was just made is accepted
        let _ = apply(&mut self.planned.model, made.inverse);
        Ok(last)
    }

    /// Goes back to the model before the last kept edit.
    pub fn undo<L: Ledger>(&mut self, steps: &mut Steps<L>) -> Result<Work, UndoRefusal>
        ensures ends { (n : ℕ) × (steps.new ≡ steps.old + n) × UndoEnds self.old result self.new n }
        ensures unchanged { OnErr result (self.new ≡ self.old) }
    {
        let Some(back) = self.ring.pop_front() else {
            return Err(UndoRefusal::NothingToUndo);
        };
        // a kept edit is accepted by the model that it is kept for
        let _ = apply(&mut self.planned.model, back);
        match self.planned.repair(back, Course::Back, steps) {
            Repaired::Cleared { work } => {
                swap(&mut self.planned.labels, &mut self.planned.scratch.labels);
                self.work = work;
                Ok(work)
            }
            // the model before had its plan
            Repaired::Short { .. } => unreachable!(),
        }
    }

    /// The model as it stands.
    pub fn model(&self) -> &Model
        ensures model { result.now ≡ self.now.state.model }
        ensures solved { IsSolved self.now.state }
        ensures stands { Fits self.now.state.model (stand_of_state self.now.state) }
    {
        &self.planned.model
    }

    /// The labels, which make a cut for each period.
    pub fn labels(&self) -> &Labels
        ensures { result.now ≡ self.now.state.labels }
    {
        &self.planned.labels
    }

    /// How many edits can be undone.
    pub fn kept(&self) -> usize
        ensures { result ≡ length self.now.state.former }
    {
        self.ring.len()
    }

    /// The work of the last accepted edit or undo, and before the first that of the beginning.
    pub fn work(&self) -> Work
        ensures { result ≡ self.now.state.work }
    {
        self.work
    }

    /// The labels whose cut at the horizon shows why the last such edit was refused.
    pub fn refused_cut(&self) -> &Labels
        ensures labels { result.now ≡ self.now.refused }
        ensures table { IsTableOf self.now.state.model result.now }
    {
        &self.planned.refused
    }

    /// The net that is repaired.
    pub fn net(&self) -> &Net
        ensures { IsNetOfState self.now.state result.now }
    {
        &self.planned.net
    }
}

impl Standing for Session {
    ghost use Rattle.edit_session.specs.Sessions.{stand_of_state};

    ghost stand = { λ v. stand_of_state v.state };

    fn moved(&self, arc: u32, moment: u16) -> u32 {
        self.planned.net.moved(arc, moment)
    }

    fn held(&self, node: u32, moment: u16) -> u32 {
        self.planned.net.held(node, moment)
    }

    fn cleared(&self) -> u16 {
        self.planned.net.last_arrival()
    }
}

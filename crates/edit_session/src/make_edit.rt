//! An edit made on a model and on the net that stands for its plan.
ghost use Rattle.std.specs.Prelude.{◌≡◌, ℕ, ◌+◌};
ghost use Rattle.evac_law.specs.Edits.{IsEditOf};
ghost use Rattle.residual_net.specs.Labelled.{IsLabelsOf};
ghost use Rattle.edit_session.specs.Making.{IsMade};
ghost use Rattle.edit_session.specs.Mended.{IsScratchOf, IsStanding};

use crate::course::Course;
use crate::faults::EditRefusal;
use crate::planned::Planned;
use crate::repair::Repaired;
use crate::work::Work;
use evac_law::{Edit, Steps, apply};
use std::mem::swap;
use std::sync::ledger::Ledger;

/// An edit that was made: the one that undoes it, and the work that it took.
#[derive(Clone, Copy)]
pub struct Made {
    pub inverse: Edit,
    pub work: Work,
}

impl Planned {
    /// Makes an edit and repairs the net; the scratch gets the labels of the new plan. Where it is refused, model and net are as before, and
    /// `refused` gets the cut.
    pub fn make_edit<L: Ledger>(
        &mut self,
        edit: Edit,
        course: Course,
        steps: &mut Steps<L>,
    ) -> Result<Made, EditRefusal>
        requires standing { IsStanding self.old.model self.old.net self.old.labels }
        requires in_range { IsEditOf self.old.model edit }
        requires refused { IsLabelsOf self.old.net.site self.old.refused }
        requires scratch { IsScratchOf self.old.net.site self.old.scratch }
        ensures made { (n : ℕ) × (steps.new ≡ steps.old + n) × IsMade self.old.model edit self.old.net self.old.labels self.old.refused result
            self.new.model self.new.net self.new.refused self.new.scratch.labels n }
        ensures labels { self.new.labels ≡ self.old.labels }
        ensures refused { IsLabelsOf self.new.net.site self.new.refused }
        ensures scratch { IsScratchOf self.new.net.site self.new.scratch }
    {
        let inverse = match apply(&mut self.model, edit) {
            Ok(inverse) => inverse,
            Err(fault) => return Err(EditRefusal::Fault(fault)),
        };
        match self.repair(edit, course, steps) {
            Repaired::Cleared { work } => Ok(Made { inverse, work }),
            Repaired::Short { most } => {
                let people = self.model.people();
                swap(&mut self.refused, &mut self.scratch.labels);
                // the inverse of an edit that was just made is accepted
                let _ = apply(&mut self.model, inverse);
                Err(EditRefusal::NotCleared { people, most })
            }
        }
    }
}

//! The net of a plan brought to an edited model.
ghost use Rattle.std.specs.Prelude.{◌≡◌};
ghost use Rattle.edit_session.specs.Mended.{IsMended, IsRepairable, IsScratchOf, IsWithinWork};

use crate::course::Course;
use crate::planned::Planned;
use crate::work::Work;
use evac_law::{Edit, Steps};
use flow_repair::reshape;
use lex_flow::{Outcome, settle_all};
use std::sync::ledger::Ledger;

/// What a repair comes to: everybody gets out after some work, or at most so many can.
#[derive(Clone, Copy)]
pub enum Repaired {
    Cleared { work: Work },
    Short { most: u32 },
}

impl Planned {
    /// Brings the net to the model, which an edit made of the one before; the scratch gets the labels of the new plan, and what is saved is
    /// the net before. Where not everybody can get out, the net is left as it was, and the scratch has the labels that show it. The course
    /// is a hint: where an edit leads back, the flow that is known isn't sought again.
    pub fn repair<L: Ledger>(
        &mut self,
        edit: Edit,
        course: Course,
        steps: &mut Steps<L>,
    ) -> Repaired
        requires repairable { IsRepairable self.old.model edit self.old.net self.old.labels }
        requires scratch { IsScratchOf self.old.net.site self.old.scratch }
        ensures mended { IsMended self.old.model self.old.net self.new.net self.old.labels self.new.scratch.labels result }
        ensures counted { IsWithinWork self.old.model self.old.net steps.old steps.new result }
        ensures scratch { IsScratchOf self.new.net.site self.new.scratch }
        ensures model { self.new.model ≡ self.old.model }
        ensures labels { self.new.labels ≡ self.old.labels }
        ensures refused { self.new.refused ≡ self.old.refused }
    {
        self.scratch.recall(&self.net, course);
        self.net.save();
        let taken = reshape(
            &mut self.net,
            &self.model,
            edit,
            &self.labels,
            &mut self.scratch.path,
            steps,
        );
        self.scratch.labels.copy_from(&self.labels);
        match settle_all(
            &mut self.net,
            &mut self.scratch.labels,
            &mut self.scratch.search,
            taken.least_label,
            steps,
        ) {
            Outcome::Cleared { pushes, .. } => {
                let work = Work {
                    cancelled: taken.cancelled,
                    pushes,
                };
                Repaired::Cleared { work }
            }
            Outcome::Short { most, .. } => {
                self.net.restore();
                Repaired::Short { most }
            }
        }
    }
}

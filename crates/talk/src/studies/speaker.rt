//! A desk answers the lines of a study.
ghost use Rattle.std.specs.Prelude.{◌≡◌};

use crate::Speaker;
use crate::studies::desk::StudyDesk;
use crate::studies::reply::reply_arc;
use crate::studies::trial::Question;
use building_table::Building;
use certificate_text::put_refusal;
use edit_session::BeginFault;
use evac_law::Steps;
use line_io::{Heard, Sink, Writer};
use model_text::{StudyCommand, read_study_command};
use std::alloc::{AllocError, Global};
use std::sync::ledger::Ledger;

impl Speaker for StudyDesk {
    ghost use Rattle.std.specs.Prelude.{[], ⊤};
    ghost use Rattle.talk.specs.StudyDesks.{Kept, StudyReaches, kept_of};
    ghost use Rattle.talk.specs.Studies.{study};

    ghost State = { Unit {0} };

    ghost state = { λ _. tt };

    ghost Kept = { Kept };

    ghost kept = { kept_of };

    ghost opening = { λ _. [] };

    ghost talk = { study };

    ghost Reaches = { StudyReaches };

    ghost ready = { λ _. ⊤ };

    ghost refuses = { λ _ _ _ _ short. short };

    fn begin<L: Ledger>(
        alloc: Global,
        building: Building,
        steps: &mut Steps<L>,
    ) -> Result<StudyDesk, BeginFault> {
        StudyDesk::new(alloc, building, steps)
    }

    fn open<K: Sink>(&self, _writer: &mut Writer<'_, K>) {}

    fn answer<K: Sink, L: Ledger>(
        &mut self,
        writer: &mut Writer<'_, K>,
        steps: &mut Steps<L>,
        text: &[u8],
        line: u32,
    ) -> Result<Heard, AllocError> {
        match read_study_command(text) {
            Ok(StudyCommand::Blank) => Ok(Heard::More),
            Ok(StudyCommand::Exits) => {
                self.put_exits(writer, steps);
                Ok(Heard::More)
            }
            Ok(StudyCommand::Least { from, to, by }) => {
                match self.find_arc(from, to) {
                    Ok(arc) => reply_arc(self, writer, steps, Question { arc, by }, line),
                    Err(fault) => put_refusal(writer, fault.code(), line),
                }
                Ok(Heard::More)
            }
            Ok(StudyCommand::Quit) => Ok(Heard::Last),
            Err(fault) => {
                put_refusal(writer, fault.code(), line);
                Ok(Heard::More)
            }
        }
    }
}

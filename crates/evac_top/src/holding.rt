//! The modes that hold a talk: a model is read, and each line after it is answered.
ghost use Rattle.std.specs.Prelude.{◌≡◌, ◌+◌, Some};
ghost use Rattle.line_io.specs.Calls.{AsksAtMost};
ghost use Rattle.line_io.specs.Line.{input_limit};
ghost use Rattle.line_io.specs.declared.limits.TheConstants.{BUFFER_SIZE};
ghost use Rattle.evac_top.specs.Answers.{IsTalk};
ghost use Rattle.evac_top.specs.Runs.{RunsOn};
ghost use Rattle.evac_top.specs.declared.words.Mode.{Mode};
ghost use Rattle.talk.specs.Statuses.{status_number};

use crate::room::take_room;
use crate::stop::stop;
use building_table::read_model;
use evac_law::Steps;
use line_io::{Sink, Source};
use std::alloc::Global;
use std::sync::ledger::Ledger;
use talk::{Channel, Speaker, Status, hold_talk};

/// Runs a mode that holds such a talk.
pub(crate) fn hold<T: Speaker + Drop, S: Source, K: Sink, L: Ledger>(
    alloc: Global,
    source: &mut S,
    sink: &mut K,
    steps: &mut Steps<L>,
) -> Status
    ensures run { (mode : Mode) → IsTalk mode T.talk → RunsOn S.Source K.Sink (Some mode) (status_number result) source.old sink.old steps.old source.new sink.new steps.new }
    ensures asked { AsksAtMost S.takes (input_limit + BUFFER_SIZE) source.old source.new }
{
    let Ok((mut lines, mut out)) = take_room(alloc) else {
        return Status::NoMemory;
    };
    match read_model(alloc, &mut lines, source) {
        Ok(building) => {
            let mut channel = Channel::new(&mut lines, source, &mut out, sink);
            hold_talk::<T, S, K, L>(alloc, &mut channel, building, steps)
        }
        Err(fault) => stop(&mut out, sink, fault),
    }
}

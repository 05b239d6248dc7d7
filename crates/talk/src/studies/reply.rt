//! The reply to a line that asks for a least rate.
ghost use Rattle.std.specs.Prelude.{◌<◌, length};
ghost use Rattle.talk.specs.StudyDesks.{PutsLeast};
ghost use Rattle.talk.specs.Speaking.{KeepsSink};

use crate::studies::desk::StudyDesk;
use crate::studies::trial::Question;
use certificate_text::put_refusal;
use evac_law::{Code, Steps};
use line_io::{Sink, Writer};
use std::sync::ledger::Ledger;

/// Puts the least rate of an arc for a moment, where there is that moment.
pub(crate) fn reply_arc<K: Sink, L: Ledger>(
    desk: &mut StudyDesk,
    writer: &mut Writer<'_, K>,
    steps: &mut Steps<L>,
    question: Question,
    line: u32,
)
    requires { question.arc < length desk.old.session.state.model.arcs }
    ensures says { PutsLeast K.Sink line question.arc question.by desk.old writer.old steps.old desk.new writer.new steps.new }
    ensures same { KeepsSink writer.old writer.new }
{
    let Question { arc, by } = question;
    if by > u32::from(desk.horizon()) {
        put_refusal(writer, Code::NoPeriod, line)
    } else {
        desk.put_least(writer, steps, arc, by as u16)
    }
}

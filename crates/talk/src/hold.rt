//! Holding a talk over the lines of a channel.
ghost use Rattle.std.specs.Prelude.{◌≡◌, ◌≤◌, ◌+◌, [], ℕ};
ghost use Rattle.evac_law.specs.Building.{IsValid};
ghost use Rattle.evac_law.specs.declared.model.Model.{Model};
ghost use Rattle.line_io.specs.Calls.{Asks};
ghost use Rattle.line_io.specs.Line.{input_limit};
ghost use Rattle.line_io.specs.Reader.{Drained};
ghost use Rattle.building_table.specs.Names.{NameTable, NamesFit};
ghost use Rattle.certificate_text.specs.BlockText.{refusal_line};
ghost use Rattle.talk.specs.Held.{ConcludesTo, HoldsOn, KeepsEnds, RefusesTo, SendsTo};
ghost use Rattle.talk.specs.Speaking.{opened};
ghost use Rattle.talk.specs.Statuses.{status_number};

use crate::channel::Channel;
use crate::fault::AnswerFault;
use crate::send::{send_refusal, send_short};
use crate::speaker::Speaker;
use crate::status::{Status, status_after};
use crate::talker::converse;
use building_table::Building;
use edit_session::BeginFault;
use evac_law::{Code, Steps};
use line_io::{Ending, LineFault, Out, Sink, Source, WriteFault, Writer};
use std::alloc::Global;
use std::sync::ledger::Ledger;

// Sends the text that opens a talk.
fn send_opening<K: Sink, T: Speaker>(
    speaker: &T,
    out: &mut Out,
    sink: &mut K,
) -> Result<(), WriteFault>
    ensures { SendsTo K.Sink result (T.opening speaker.now) sink.old out.old sink.new out.new }
{
    let mut writer = Writer::new(out, sink);
    speaker.open(&mut writer);
    writer.flush()
}

// Refuses a line for good.
fn refuse<K: Sink>(out: &mut Out, sink: &mut K, code: Code, line: u32) -> Status
    ensures { RefusesTo K.Sink (refusal_line code line) (status_number result) sink.old out.old sink.new out.new }
{
    status_after(send_refusal(out, sink, code, line), Status::Refused)
}

// Ends a talk over so many lines: one that has a fault is refused.
#[tactic(auto, unfolding(line_io::specs::Line::input_limit))]
fn conclude<K: Sink>(
    out: &mut Out,
    sink: &mut K,
    ending: Ending<AnswerFault>,
    number: u32,
) -> Status
    requires { number ≤ input_limit }
    ensures { ConcludesTo K.Sink ending number (status_number result) sink.old out.old sink.new out.new }
{
    match ending {
        Ending::Finished | Ending::InputEnded => Status::Done,
        Ending::Failed(AnswerFault::Write(_)) => Status::SinkFailed,
        Ending::Failed(AnswerFault::Memory) => Status::NoMemory,
        Ending::Fault(LineFault::ReadFault) => Status::SourceFailed,
        Ending::Fault(LineFault::LineTooLong) => refuse(out, sink, Code::LineTooLong, number + 1),
        Ending::Fault(LineFault::InputTooLong) => refuse(out, sink, Code::InputTooLong, number + 1),
    }
}

// Opens a talk and answers the lines of a channel, each before it reads on.
fn hold_begun<T: Speaker + Drop, S: Source, K: Sink, L: Ledger>(
    channel: &mut Channel<'_, S, K>,
    mut speaker: T,
    steps: &mut Steps<L>,
) -> Status
    requires fresh { channel.old.out.now ≡ [] }
    requires ready { T.ready speaker }
    ensures held { (names : NameTable) (m : Model) (n k : ℕ) → (T.talk names m).Opens (opened (T.opening speaker) (T.state speaker) n)
        → T.Reaches names m channel.old.lines.now.number (T.kept speaker) (T.state speaker) → steps.old ≡ k + n
        → HoldsOn S.Source K.Sink (T.talk names m) (status_number result) channel.old k channel.new steps.new }
    ensures drained { Drained channel.old.lines.now (S.left channel.old.source.now) → Drained channel.new.lines.now (S.left channel.new.source.now) }
    ensures asks { Asks S.takes channel.old.lines.now channel.old.source.now channel.new.lines.now channel.new.source.now }
    ensures ends { KeepsEnds channel.old channel.new }
{
    match send_opening(&speaker, channel.out, channel.sink) {
        Ok(()) => {
            let ending = converse(channel, &mut speaker, steps);
            drop(speaker);
            conclude(channel.out, channel.sink, ending, channel.lines.number())
        }
        Err(_) => {
            drop(speaker);
            Status::SinkFailed
        }
    }
}

/// Holds a talk on a building over the lines after it, and answers each before it reads on. It is `Done` where the input ended or a line quit, and
/// `Refused` where the building or a line was refused for good; else the source or the sink failed, or there was no memory.
pub fn hold_talk<T: Speaker + Drop, S: Source, K: Sink, L: Ledger>(
    alloc: Global,
    channel: &mut Channel<'_, S, K>,
    building: Building,
    steps: &mut Steps<L>,
) -> Status
    requires fresh { channel.old.out.now ≡ [] }
    requires valid { IsValid building.model }
    requires names { NamesFit building.names building.model }
    ensures held { HoldsOn S.Source K.Sink (T.talk building.names building.model) (status_number result) channel.old steps.old channel.new steps.new }
    ensures drained { Drained channel.old.lines.now (S.left channel.old.source.now) → Drained channel.new.lines.now (S.left channel.new.source.now) }
    ensures asks { Asks S.takes channel.old.lines.now channel.old.source.now channel.new.lines.now channel.new.source.now }
    ensures ends { KeepsEnds channel.old channel.new }
{
    let line = channel.lines.number();
    match T::begin(alloc, building, steps) {
        Ok(speaker) => hold_begun(channel, speaker, steps),
        Err(BeginFault::NotCleared(short)) => status_after(
            send_short(channel.out, channel.sink, &short, line),
            Status::Refused,
        ),
        Err(BeginFault::Memory) => Status::NoMemory,
    }
}

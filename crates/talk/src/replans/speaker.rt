//! A replan answers the lines of a talk.
ghost use Rattle.std.specs.Prelude.{◌≡◌, ◌<◌, ◌≤◌, ◌+◌, ◌++◌, ◌&&◌, ℕ, nat_lt, OnOk, IsFalse};
ghost use Rattle.evac_law.specs.Edits.{IsEditOf};
ghost use Rattle.line_io.specs.Line.{input_limit};
ghost use Rattle.line_io.specs.Writer.{Writes};
ghost use Rattle.replan.specs.Replans.{is_of_people};
ghost use Rattle.session_text.specs.StateTexts.{block_text};
ghost use Rattle.talk.specs.SessionDesks.{IsDesk};
ghost use Rattle.talk.specs.ReplanDesks.{AnswersSome, EditsUnless, IsLastOut, replanned, shown_replan};
ghost use Rattle.talk.specs.ReplanTalks.{AdvancesTo, SessionRow, bars_moment, gone_text};
ghost use Rattle.talk.specs.Speaking.{KeepsSink, PutsSome};

use crate::Speaker;
use crate::replans::gone::put_gone;
use crate::replans::request::{Request, read_request};
use crate::sessions::{Desk, reply_cut, reply_edited, reply_report, reply_undone};
use building_table::Building;
use certificate_text::put_refusal;
use edit_session::BeginFault;
use evac_law::{Code, Edit, Steps};
use line_io::{Heard, Sink, Writer};
use model_text::{Command, NamedEdit};
use replan::{AdvanceFault, Replan, ReplanRefusal};
use session_text::put_work;
use std::alloc::{AllocError, Global};
use std::sync::ledger::Ledger;

/// A replan with the desk at which its replies are made.
#[derive(Drop)]
pub struct ReplanTalk {
    alloc: Global,
    desk: Desk,
    replan: Replan,
}

impl ReplanTalk {
    ghost use Rattle.talk.specs.ReplanTalking.{TalkAdvances};

    // Carries the plan out up to a moment, and counts the block that answers it. Others come into the nodes then, so the desk's tables are
    // made anew.
    fn advance<L: Ledger>(&mut self, moment: u32, steps: &mut Steps<L>) -> Result<(), AdvanceFault>
        requires { IsDesk self.old.desk self.old.replan.session }
        ensures { (n : ℕ) × (steps.new ≡ steps.old + n) × TalkAdvances self.old moment result self.new n }
    {
        if moment > u32::from(self.replan.session().model().horizon) {
            return Err(AdvanceFault::BadMoment);
        }
        self.replan.advance(self.alloc, moment as u16, steps)?;
        let Ok(()) = self.desk.renew(self.alloc, self.replan.session().model()) else {
            return Err(AdvanceFault::Memory);
        };
        self.desk.count_block();
        Ok(())
    }
}

// Who is out by what was carried out, and the block of what is left.
fn put_advanced<K: Sink>(writer: &mut Writer<'_, K>, talk: &ReplanTalk)
    ensures { let v = talk.now.replan in (last : ℕ) × IsLastOut v last
        × Writes K.Sink writer.old (gone_text v.moment v.gone last ++ block_text talk.now.desk.index v.session.state) writer.new }
{
    put_gone(writer, &talk.replan);
    talk.desk.put_block(writer, talk.replan.session());
}

// The plan is carried out up to a moment, unless that is barred.
fn reply_moment<K: Sink, L: Ledger>(
    talk: &mut ReplanTalk,
    writer: &mut Writer<'_, K>,
    steps: &mut Steps<L>,
    moment: u32,
    line: u32,
) -> Result<(), AllocError>
    requires desk { IsDesk talk.old.desk talk.old.replan.session }
    requires line { line ≤ input_limit }
    ensures says { talk.old.desk.index < line → let s = replanned talk.old.desk talk.old.replan in
        AnswersSome K.Sink (AdvancesTo line s moment (bars_moment s moment)) (IsFalse (bars_moment s moment)) result
        (shown_replan talk.old.desk talk.old.replan writer.old steps.old)
        (shown_replan talk.new.desk talk.new.replan writer.new steps.new) }
    ensures same { KeepsSink writer.old writer.new }
    ensures desk { OnOk result (IsDesk talk.new.desk talk.new.replan.session) }
{
    match talk.advance(moment, steps) {
        Ok(()) => {
            put_advanced(writer, talk);
            Ok(())
        }
        Err(AdvanceFault::BadMoment) => {
            put_refusal(writer, Code::BadMoment, line);
            Ok(())
        }
        Err(AdvanceFault::Memory) => Err(AllocError),
    }
}

// An edit gets the next block, or a refusal with all as it was.
fn reply_edit<K: Sink, L: Ledger>(
    talk: &mut ReplanTalk,
    writer: &mut Writer<'_, K>,
    steps: &mut Steps<L>,
    edit: Edit,
    line: u32,
)
    requires desk { IsDesk talk.old.desk talk.old.replan.session }
    requires edit { IsEditOf talk.old.replan.session.state.model edit }
    requires line { line ≤ input_limit }
    ensures says { talk.old.desk.index < line → let s = replanned talk.old.desk talk.old.replan in
        PutsSome K.Sink (EditsUnless line s edit (nat_lt 0 s.moment && is_of_people edit))
        (shown_replan talk.old.desk talk.old.replan writer.old steps.old)
        (shown_replan talk.new.desk talk.new.replan writer.new steps.new) }
    ensures same { KeepsSink writer.old writer.new }
    ensures desk { IsDesk talk.new.desk talk.new.replan.session }
{
    match talk.replan.edit(edit, steps) {
        Ok(work) => {
            let session = talk.replan.session();
            reply_edited(&mut talk.desk, session, writer, Ok(work), line);
        }
        Err(ReplanRefusal::Edit(refusal)) => {
            let session = talk.replan.session();
            reply_edited(&mut talk.desk, session, writer, Err(refusal), line);
        }
        Err(ReplanRefusal::Committed) => put_refusal(writer, Code::Committed, line),
    }
}

// An edit by names.
fn reply_named<K: Sink, L: Ledger>(
    talk: &mut ReplanTalk,
    writer: &mut Writer<'_, K>,
    steps: &mut Steps<L>,
    named: NamedEdit,
    line: u32,
)
    requires desk { IsDesk talk.old.desk talk.old.replan.session }
    requires line { line ≤ input_limit }
    ensures says { talk.old.desk.index < line → PutsSome K.Sink (SessionRow talk.old.desk.names line (replanned talk.old.desk talk.old.replan) (Command.Edit named))
        (shown_replan talk.old.desk talk.old.replan writer.old steps.old)
        (shown_replan talk.new.desk talk.new.replan writer.new steps.new) }
    ensures same { KeepsSink writer.old writer.new }
    ensures desk { IsDesk talk.new.desk talk.new.replan.session }
{
    match talk.desk.edit_of(named) {
        Ok(edit) => reply_edit(talk, writer, steps, edit, line),
        Err(fault) => put_refusal(writer, fault.code(), line),
    }
}

// An undo gets the next block, where an edit is kept.
fn reply_undo<K: Sink, L: Ledger>(
    talk: &mut ReplanTalk,
    writer: &mut Writer<'_, K>,
    steps: &mut Steps<L>,
    line: u32,
)
    requires desk { IsDesk talk.old.desk talk.old.replan.session }
    requires line { line ≤ input_limit }
    ensures says { talk.old.desk.index < line → PutsSome K.Sink (SessionRow talk.old.desk.names line (replanned talk.old.desk talk.old.replan) Command.Undo)
        (shown_replan talk.old.desk talk.old.replan writer.old steps.old)
        (shown_replan talk.new.desk talk.new.replan writer.new steps.new) }
    ensures same { KeepsSink writer.old writer.new }
    ensures desk { IsDesk talk.new.desk talk.new.replan.session }
{
    let undone = talk.replan.undo(steps);
    let session = talk.replan.session();
    reply_undone(&mut talk.desk, session, writer, undone, line);
}

impl Speaker for ReplanTalk {
    ghost use Rattle.building_table.specs.Names.{NameTable};
    ghost use Rattle.session_text.specs.StateTexts.{block_text};
    ghost use Rattle.talk.specs.SessionDesks.{IsDesk};
    ghost use Rattle.talk.specs.ReplanDesks.{ReplanReaches, replanned};
    ghost use Rattle.talk.specs.ReplanTalks.{Replanned, replan};

    ghost State = { Replanned };

    ghost state = { λ t. replanned t.desk t.replan };

    ghost Kept = { NameTable };

    ghost kept = { λ t. t.desk.names };

    ghost opening = { λ t. block_text t.desk.index t.replan.session.state };

    ghost talk = { replan };

    ghost Reaches = { ReplanReaches };

    ghost ready = { λ t. IsDesk t.desk t.replan.session };

    ghost refuses = { λ _ _ _ _ short. short };

    fn begin<L: Ledger>(
        alloc: Global,
        building: Building,
        steps: &mut Steps<L>,
    ) -> Result<ReplanTalk, BeginFault> {
        let Building { model, names } = building;
        let Ok(desk) = Desk::new(alloc, names, &model) else {
            return Err(BeginFault::Memory);
        };
        let replan = Replan::begin(alloc, model, steps)?;
        Ok(ReplanTalk {
            alloc,
            desk,
            replan,
        })
    }

    fn open<K: Sink>(&self, writer: &mut Writer<'_, K>) {
        self.desk.put_block(writer, self.replan.session());
    }

    fn answer<K: Sink, L: Ledger>(
        &mut self,
        writer: &mut Writer<'_, K>,
        steps: &mut Steps<L>,
        text: &[u8],
        line: u32,
    ) -> Result<Heard, AllocError> {
        let session = self.replan.session();
        match read_request(text) {
            Ok(Request::Advance(moment)) => {
                reply_moment(self, writer, steps, moment, line)?;
                Ok(Heard::More)
            }
            Ok(Request::Session(Command::Blank)) => Ok(Heard::More),
            Ok(Request::Session(Command::Edit(named))) => {
                reply_named(self, writer, steps, named, line);
                Ok(Heard::More)
            }
            Ok(Request::Session(Command::Undo)) => {
                reply_undo(self, writer, steps, line);
                Ok(Heard::More)
            }
            Ok(Request::Session(Command::Cut { period })) => {
                reply_cut(writer, session, period, line);
                Ok(Heard::More)
            }
            Ok(Request::Session(Command::Report(report))) => {
                reply_report(&mut self.desk, session, writer, report);
                Ok(Heard::More)
            }
            Ok(Request::Session(Command::Work)) => {
                put_work(writer, session);
                Ok(Heard::More)
            }
            Ok(Request::Session(Command::Quit)) => Ok(Heard::Last),
            Err(fault) => {
                put_refusal(writer, fault.code(), line);
                Ok(Heard::More)
            }
        }
    }
}

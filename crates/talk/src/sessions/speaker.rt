//! A session answers the lines of a talk.
ghost use Rattle.std.specs.Prelude.{◌≡◌, ◌<◌, ◌≤◌};
ghost use Rattle.building_table.specs.EditNames.{edit_named};
ghost use Rattle.line_io.specs.Line.{input_limit};
ghost use Rattle.talk.specs.SessionDesks.{IsDesk, desk_state, shown_of};
ghost use Rattle.talk.specs.Sessions.{AsksEdit, Undoes};
ghost use Rattle.talk.specs.Speaking.{KeepsSink, PutsSome};

use crate::Speaker;
use crate::sessions::desk::Desk;
use crate::sessions::reply::{reply_cut, reply_edited, reply_report, reply_undone};
use building_table::Building;
use certificate_text::put_refusal;
use edit_session::{BeginFault, Session};
use evac_law::Steps;
use line_io::{Heard, Sink, Writer};
use model_text::{Command, NamedEdit, read_command};
use session_text::put_work;
use std::alloc::{AllocError, Global};
use std::sync::ledger::Ledger;

/// A session with the desk at which its replies are made.
#[derive(Drop)]
pub struct SessionTalk {
    desk: Desk,
    session: Session,
}

// An edit gets the next block, or a refusal with all as it was.
fn reply_edit<K: Sink, L: Ledger>(
    talk: &mut SessionTalk,
    writer: &mut Writer<'_, K>,
    steps: &mut Steps<L>,
    named: NamedEdit,
    line: u32,
)
    requires desk { IsDesk talk.old.desk talk.old.session }
    requires line { line ≤ input_limit }
    ensures says { talk.old.desk.index < line
        → PutsSome K.Sink (AsksEdit line (desk_state talk.old.desk talk.old.session) (edit_named talk.old.desk.names named))
        (shown_of talk.old.desk talk.old.session writer.old steps.old)
        (shown_of talk.new.desk talk.new.session writer.new steps.new) }
    ensures same { KeepsSink writer.old writer.new }
    ensures desk { IsDesk talk.new.desk talk.new.session }
{
    match talk.desk.edit_of(named) {
        Ok(edit) => {
            let edited = talk.session.edit(edit, steps);
            reply_edited(&mut talk.desk, &talk.session, writer, edited, line)
        }
        Err(fault) => put_refusal(writer, fault.code(), line),
    }
}

// An undo gets the next block, where an edit is kept.
fn reply_undo<K: Sink, L: Ledger>(
    talk: &mut SessionTalk,
    writer: &mut Writer<'_, K>,
    steps: &mut Steps<L>,
    line: u32,
)
    requires desk { IsDesk talk.old.desk talk.old.session }
    requires line { line ≤ input_limit }
    ensures says { talk.old.desk.index < line
        → PutsSome K.Sink (Undoes line (desk_state talk.old.desk talk.old.session) talk.old.session.state.former)
        (shown_of talk.old.desk talk.old.session writer.old steps.old)
        (shown_of talk.new.desk talk.new.session writer.new steps.new) }
    ensures same { KeepsSink writer.old writer.new }
    ensures desk { IsDesk talk.new.desk talk.new.session }
{
    let undone = talk.session.undo(steps);
    reply_undone(&mut talk.desk, &talk.session, writer, undone, line);
}

impl Speaker for SessionTalk {
    ghost use Rattle.building_table.specs.Names.{NameTable};
    ghost use Rattle.session_text.specs.StateTexts.{block_text};
    ghost use Rattle.talk.specs.SessionDesks.{IsDesk, SessionReaches, desk_state};
    ghost use Rattle.talk.specs.Sessions.{State, session};

    ghost State = { State };

    ghost state = { λ t. desk_state t.desk t.session };

    ghost Kept = { NameTable };

    ghost kept = { λ t. t.desk.names };

    ghost opening = { λ t. block_text t.desk.index t.session.state };

    ghost talk = { session };

    ghost Reaches = { SessionReaches };

    ghost ready = { λ t. IsDesk t.desk t.session };

    ghost refuses = { λ _ _ _ _ short. short };

    fn begin<L: Ledger>(
        alloc: Global,
        building: Building,
        steps: &mut Steps<L>,
    ) -> Result<SessionTalk, BeginFault> {
        let Building { model, names } = building;
        let Ok(desk) = Desk::new(alloc, names, &model) else {
            return Err(BeginFault::Memory);
        };
        let session = Session::begin(alloc, model, steps)?;
        Ok(SessionTalk { desk, session })
    }

    fn open<K: Sink>(&self, writer: &mut Writer<'_, K>) {
        self.desk.put_block(writer, &self.session);
    }

    fn answer<K: Sink, L: Ledger>(
        &mut self,
        writer: &mut Writer<'_, K>,
        steps: &mut Steps<L>,
        text: &[u8],
        line: u32,
    ) -> Result<Heard, AllocError> {
        match read_command(text) {
            Ok(Command::Blank) => Ok(Heard::More),
            Ok(Command::Edit(named)) => {
                reply_edit(self, writer, steps, named, line);
                Ok(Heard::More)
            }
            Ok(Command::Undo) => {
                reply_undo(self, writer, steps, line);
                Ok(Heard::More)
            }
            Ok(Command::Cut { period }) => {
                reply_cut(writer, &self.session, period, line);
                Ok(Heard::More)
            }
            Ok(Command::Report(report)) => {
                reply_report(&mut self.desk, &self.session, writer, report);
                Ok(Heard::More)
            }
            Ok(Command::Work) => {
                put_work(writer, &self.session);
                Ok(Heard::More)
            }
            Ok(Command::Quit) => Ok(Heard::Last),
            Err(fault) => {
                put_refusal(writer, fault.code(), line);
                Ok(Heard::More)
            }
        }
    }
}

//! What commands get, put after the pending bytes.
ghost use Rattle.std.specs.Prelude.{◌≡◌, ◌<◌, ◌≤◌, ◌+◌, ℕ, Err};
ghost use Rattle.evac_law.specs.Edits.{applied};
ghost use Rattle.evac_law.specs.declared.edit.Edit.{Edit as EditValue};
ghost use Rattle.line_io.specs.Line.{input_limit};
ghost use Rattle.line_io.specs.Writer.{Writes};
ghost use Rattle.edit_session.specs.Sessions.{EditEnds, SessionView, UndoEnds};
ghost use Rattle.talk.specs.SessionDesks.{DeskView, IsDesk, PutsEdited, PutsReport, PutsUndone, desk_state, shown_of};
ghost use Rattle.talk.specs.Sessions.{Edits, State, cut_reply};
ghost use Rattle.talk.specs.Speaking.{KeepsSink, PutsSome};

use crate::sessions::desk::Desk;
use certificate_text::put_refusal;
use edit_session::{EditRefusal, Session, UndoRefusal, Work};
use evac_law::Code;
use line_io::{Sink, Writer};
use model_text::Report;
use session_text::{put_barred, put_cut};

/// Puts the cut of a period, where there is the period.
pub fn reply_cut<K: Sink>(writer: &mut Writer<'_, K>, session: &Session, period: u32, line: u32)
    ensures says { (s : State) → s.standing ≡ session.now.state → Writes K.Sink writer.old (cut_reply line s period).text writer.new }
    ensures same { KeepsSink writer.old writer.new }
{
    if period > u32::from(session.model().horizon) {
        put_refusal(writer, Code::NoPeriod, line);
    } else {
        put_cut(writer, session, period as u16);
    }
}

/// Puts a report on the plan that stands.
pub fn reply_report<K: Sink>(
    desk: &mut Desk,
    session: &Session,
    writer: &mut Writer<'_, K>,
    report: Report,
)
    requires { IsDesk desk.old session.now }
    ensures says { PutsReport K.Sink report session.now desk.old writer.old desk.new writer.new }
    ensures same { KeepsSink writer.old writer.new }
    ensures desk { IsDesk desk.new session.now }
{
    match report {
        Report::Routes => desk.put_routes(writer, session),
        Report::Clearing => desk.put_clearing(writer, session),
        Report::Bottlenecks => desk.put_bottlenecks(writer, session),
        Report::Summary => desk.put_summary(writer, session),
    }
}

// Puts the refusal of an edit by a session.
fn reply_refused<K: Sink>(
    writer: &mut Writer<'_, K>,
    session: &Session,
    refusal: EditRefusal,
    line: u32,
)
    ensures says { (d : DeskView) (v : SessionView) (e : EditValue) (n k : ℕ) → EditEnds v e (Err refusal) session.now n
        → PutsSome K.Sink (Edits line (desk_state d v) (applied v.state.model e))
        (shown_of d v writer.old k)
        (shown_of d session.now writer.new (k + n)) }
    ensures same { KeepsSink writer.old writer.new }
{
    match refusal {
        EditRefusal::Fault(fault) => put_refusal(writer, fault.code(), line),
        EditRefusal::NotCleared { people, most } => {
            put_barred(writer, session, line, people, most);
        }
    }
}

/// Puts what an edit came to in a session: its block, which is counted, or a refusal.
pub fn reply_edited<K: Sink>(
    desk: &mut Desk,
    session: &Session,
    writer: &mut Writer<'_, K>,
    edited: Result<Work, EditRefusal>,
    line: u32,
)
    requires { line ≤ input_limit }
    ensures says { PutsEdited K.Sink line edited session.now desk.old writer.old desk.new writer.new }
    ensures same { KeepsSink writer.old writer.new }
    ensures desk { (v : SessionView) (e : EditValue) (n : ℕ) → EditEnds v e edited session.now n → IsDesk desk.old v → IsDesk desk.new session.now }
{
    match edited {
        Ok(_) => {
            desk.count_block();
            desk.put_block(writer, session);
        }
        Err(refusal) => reply_refused(writer, session, refusal, line),
    }
}

/// Puts what an undo came to in a session: its block, which is counted, or a refusal.
pub fn reply_undone<K: Sink>(
    desk: &mut Desk,
    session: &Session,
    writer: &mut Writer<'_, K>,
    undone: Result<Work, UndoRefusal>,
    line: u32,
)
    requires { line ≤ input_limit }
    ensures says { PutsUndone K.Sink line undone session.now desk.old writer.old desk.new writer.new }
    ensures same { KeepsSink writer.old writer.new }
    ensures desk { (v : SessionView) (n : ℕ) → UndoEnds v undone session.now n → IsDesk desk.old v → IsDesk desk.new session.now }
{
    match undone {
        Ok(_) => {
            desk.count_block();
            desk.put_block(writer, session);
        }
        Err(UndoRefusal::NothingToUndo) => put_refusal(writer, Code::NothingToUndo, line),
    }
}

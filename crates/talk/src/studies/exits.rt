//! What a building comes to without each of its exits.
ghost use Rattle.std.specs.Prelude.{◌≡◌, ◌+◌, ◌<◌, ◌≤◌, ℕ, List, length, IsTrue};
ghost use Rattle.evac_law.specs.Building.{IsValid, is_exit_at};
ghost use Rattle.line_io.specs.Writer.{Writes};
ghost use Rattle.exit_study.specs.Exits.{IsExitRow};
ghost use Rattle.talk.specs.StudyTexts.{SaysExits, WritesRow, exits_of, outcome_text};

use crate::studies::lines::{put_exit, put_exit_short};
use certificate_text::{put_end, put_ins};
use edit_session::Session;
use evac_law::{Model, Standing, Steps};
use exit_study::{ExitRow, study_exit};
use line_io::{Sink, Writer};
use report_text::put_number;
use std::sync::ledger::Ledger;

// What the model comes to without an exit; one that is shut already changes nothing.
fn row_of<L: Ledger>(session: &mut Session, node: u32, steps: &mut Steps<L>) -> ExitRow
    requires node_in { node < length session.old.state.model.nodes }
    requires exit { IsTrue (is_exit_at session.old.state.model node) }
    ensures row { IsExitRow session.old.state.model node session.new.refused result }
    ensures unchanged { session.new.state ≡ session.old.state }
    ensures counted { (n : ℕ) × (steps.new ≡ steps.old + n) }
{
    if session.model().node(node).shut {
        return ExitRow::Clears {
            moment: session.cleared(),
        };
    }
    study_exit(session, node, steps)
}

// Puts a row, whose cut is the refused one.
fn put_row<K: Sink>(writer: &mut Writer<'_, K>, session: &Session, node: u32, row: ExitRow)
    requires { node < length session.now.state.model.nodes }
    ensures { Writes K.Sink writer.old (outcome_text session.now.state.model node session.now.refused row) writer.new }
{
    let model = session.model();
    let name = model.node(node).name;
    match row {
        ExitRow::Clears { moment } => put_exit(writer, name, moment),
        ExitRow::Short { most, .. } => {
            put_exit_short(writer, name, most);
            put_ins(writer, model, session.refused_cut(), model.horizon)
        }
    }
}

// Studies an exit, and puts its row.
fn put_studied<K: Sink, L: Ledger>(
    session: &mut Session,
    writer: &mut Writer<'_, K>,
    steps: &mut Steps<L>,
    node: u32,
)
    requires node_in { node < length session.old.state.model.nodes }
    requires exit { IsTrue (is_exit_at session.old.state.model node) }
    ensures text { WritesRow K.Sink session.old.state.model node writer.old writer.new }
    ensures unchanged { session.new.state ≡ session.old.state }
    ensures counted { (n : ℕ) × (steps.new ≡ steps.old + n) }
{
    let row = row_of(session, node, steps);
    put_row(writer, session, node, row);
}

// How many exits a model has.
fn exit_count(model: &Model) -> u32
    requires { IsValid model.now }
    ensures { result ≡ length (exits_of model.now) }
{
    let mut count = 0;
    for node in 0..model.node_count() {
        if model.node(node).name.kind.is_exit() {
            count += 1;
        }
    }
    count
}

/// Puts what the session's model comes to without each of its exits. Where the sink fails the exits that are left are studied all the same,
/// so that what was put is the front of a whole list.
pub(crate) fn put_exits<K: Sink, L: Ledger>(
    session: &mut Session,
    writer: &mut Writer<'_, K>,
    steps: &mut Steps<L>,
)
    ensures text { (text : List ℕ) × SaysExits session.old.state.model text × Writes K.Sink writer.old text writer.new }
    ensures unchanged { session.new.state ≡ session.old.state }
    ensures counted { (n : ℕ) × (steps.new ≡ steps.old + n) }
{
    put_number(writer, b"exits", u64::from(exit_count(session.model())));
    for node in 0..session.model().node_count() {
        if session.model().node(node).name.kind.is_exit() {
            put_studied(session, writer, steps, node);
        }
    }
    put_end(writer);
}

//! The summary of an answer.
ghost use Rattle.std.specs.Prelude.{Some};
ghost use Rattle.evac_law.specs.Building.{IsValid};
ghost use Rattle.line_io.specs.Writer.{Writes};
ghost use Rattle.clearing_report.specs.Clearing.{IsReport};
ghost use Rattle.report_text.specs.ReportText.{outcome_lines, summary_text, title_line};

use crate::lines::put_number;
use crate::subject::Subject;
use building_table::Names;
use certificate_text::put_end;
use clearing_report::Clearing;
use evac_law::{Model, Standing};
use line_io::{Sink, Writer};

fn put_text<K: Sink>(writer: &mut Writer<'_, K>, text: &[u8])
    ensures { Writes K.Sink writer.old (title_line (Some text.now)) writer.new }
{
    writer.put_all(b"title ");
    writer.put_all(text);
    writer.put_all(b"\n");
}

// Puts the title, where there is one.
fn put_title<K: Sink>(writer: &mut Writer<'_, K>, names: &Names)
    ensures { Writes K.Sink writer.old (title_line names.now.title) writer.new }
{
    match names.title() {
        None => {}
        Some(text) => put_text(writer, text),
    }
}

// Puts the people, the moment by which they are out, and its seconds.
fn put_outcome<K: Sink>(writer: &mut Writer<'_, K>, model: &Model, cleared: u16)
    requires valid { IsValid model.now }
    ensures { Writes K.Sink writer.old (outcome_lines model.now cleared) writer.new }
{
    let people = u64::from(model.people());
    let moment = u64::from(cleared);
    let seconds = moment * u64::from(model.seconds);
    put_number(writer, b"people", people);
    put_number(writer, b"cleared", moment);
    put_number(writer, b"seconds", seconds);
}

/// Puts the summary of a standing plan, by a report on it.
pub fn put_summary<K: Sink, F: Standing>(
    writer: &mut Writer<'_, K>,
    subject: &Subject<'_>,
    standing: &F,
    clearing: &Clearing,
)
    requires valid { IsValid subject.now.model.now }
    requires report { IsReport subject.now.model.now (F.stand standing.now).plan clearing.now }
    ensures { let s = F.stand standing.now in
        Writes K.Sink writer.old (summary_text subject.now.index subject.now.names.now.title subject.now.model.now s.plan s.last clearing.now.time) writer.new }
{
    let time = u64::from(clearing.uncongested());
    put_number(writer, b"summary", u64::from(subject.index));
    put_title(writer, subject.names);
    put_outcome(writer, subject.model, standing.cleared());
    put_number(writer, b"uncongested", time);
    put_number(writer, b"personperiods", clearing.person_periods());
    put_end(writer);
}

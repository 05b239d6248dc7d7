//! The summary of a drill.
ghost use Rattle.evac_law.specs.Building.{IsValid};
ghost use Rattle.line_io.specs.Writer.{Writes};
ghost use Rattle.drill_building.specs.Summary.{drill_text};

use certificate_text::put_end;
use evac_law::Model;
use line_io::{Sink, Writer};
use report_text::put_number;

/// The figures of a plan that has everybody out: the period by which they are, the longest way of those who would meet nobody, and
/// people times arrival moment.
#[derive(Clone, Copy)]
pub struct Figures {
    pub cleared: u16,
    pub uncongested: u32,
    pub person_periods: u64,
}

/// Puts the summary of a drill with a number of storeys, of its model and the figures of a plan.
pub fn put_drill<K: Sink>(writer: &mut Writer<'_, K>, number: u32, model: &Model, figures: Figures)
    requires { IsValid model.now }
    ensures { Writes K.Sink writer.old (drill_text number model.now figures) writer.new }
{
    let nodes = u64::from(model.node_count());
    let arcs = u64::from(model.arc_count());
    let people = u64::from(model.people());
    put_number(writer, b"drill", u64::from(number));
    put_number(writer, b"nodes", nodes);
    put_number(writer, b"arcs", arcs);
    put_number(writer, b"people", people);
    put_number(writer, b"cleared", u64::from(figures.cleared));
    put_number(writer, b"uncongested", u64::from(figures.uncongested));
    put_number(writer, b"personperiods", figures.person_periods);
    put_end(writer);
}

//! What holds people up.
ghost use Rattle.std.specs.Prelude.{◌≡◌, ℕ, ◌<◌, length, slice_index};
ghost use Rattle.std.specs.List.{flat_map};
ghost use Rattle.evac_law.specs.Building.{IsValid};
ghost use Rattle.evac_law.specs.LabelTable.{LabelTable};
ghost use Rattle.evac_law.specs.Sums.{places};
ghost use Rattle.line_io.specs.Writer.{Writes};
ghost use Rattle.bottleneck_report.specs.Crossings.{HasCounts, counts_of};
ghost use Rattle.report_text.specs.ReportText.{arc_periods_part, bottlenecks_text, hold_periods_part};

use crate::lines::{put_arc_periods, put_hold_periods, put_number};
use bottleneck_report::Bottlenecks;
use certificate_text::put_end;
use evac_law::Model;
use line_io::{Sink, Writer};

// Puts an arc that is an item of some period.
fn put_arc<K: Sink>(writer: &mut Writer<'_, K>, model: &Model, bottlenecks: &Bottlenecks, arc: u32)
    requires valid { IsValid model.now }
    requires room { HasCounts model.now bottlenecks.now }
    requires arc_in { arc < length model.now.arcs }
    ensures { Writes K.Sink writer.old (arc_periods_part model.now (slice_index bottlenecks.now.arcs) arc) writer.new }
{
    let periods = bottlenecks.arc_periods(arc);
    if periods > 0 {
        let row = model.arc(arc);
        let from = model.node(row.from).name;
        let to = model.node(row.to).name;
        put_arc_periods(writer, from, to, periods);
    }
}

fn put_arcs<K: Sink>(writer: &mut Writer<'_, K>, model: &Model, bottlenecks: &Bottlenecks)
    requires valid { IsValid model.now }
    requires room { HasCounts model.now bottlenecks.now }
    ensures { Writes K.Sink writer.old (flat_map (arc_periods_part model.now (slice_index bottlenecks.now.arcs)) (places model.now.arcs)) writer.new }
{
    for arc in 0..model.arc_count() {
        put_arc(writer, model, bottlenecks, arc);
    }
}

// Puts a node that is an item of some period.
fn put_hold<K: Sink>(
    writer: &mut Writer<'_, K>,
    model: &Model,
    bottlenecks: &Bottlenecks,
    node: u32,
)
    requires valid { IsValid model.now }
    requires room { HasCounts model.now bottlenecks.now }
    requires node_in { node < length model.now.nodes }
    ensures { Writes K.Sink writer.old (hold_periods_part model.now (slice_index bottlenecks.now.holds) node) writer.new }
{
    let periods = bottlenecks.hold_periods(node);
    if periods > 0 {
        put_hold_periods(writer, model.node(node).name, periods);
    }
}

fn put_holds<K: Sink>(writer: &mut Writer<'_, K>, model: &Model, bottlenecks: &Bottlenecks)
    requires valid { IsValid model.now }
    requires room { HasCounts model.now bottlenecks.now }
    ensures { Writes K.Sink writer.old (flat_map (hold_periods_part model.now (slice_index bottlenecks.now.holds)) (places model.now.nodes)) writer.new }
{
    for node in 0..model.node_count() {
        put_hold(writer, model, bottlenecks, node);
    }
}

/// Puts how long each arc and each node holds people up, by a report on labels. The index is that of the labels' answer.
pub fn put_bottlenecks<K: Sink>(
    writer: &mut Writer<'_, K>,
    model: &Model,
    index: u32,
    bottlenecks: &Bottlenecks,
)
    requires valid { IsValid model.now }
    requires room { HasCounts model.now bottlenecks.now }
    ensures { (l : LabelTable) (c : ℕ) → bottlenecks.now ≡ counts_of model.now l c
        → Writes K.Sink writer.old (bottlenecks_text index model.now l c) writer.new }
{
    put_number(writer, b"bottlenecks", u64::from(index));
    put_arcs(writer, model, bottlenecks);
    put_holds(writer, model, bottlenecks);
    put_end(writer);
}

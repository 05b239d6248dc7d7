//! When nodes and floors are empty.
ghost use Rattle.std.specs.Prelude.{◌≡◌, ◌<◌, List, length};
ghost use Rattle.std.specs.List.{flat_map};
ghost use Rattle.evac_law.specs.Building.{IsValid};
ghost use Rattle.evac_law.specs.Sums.{places};
ghost use Rattle.evac_law.specs.declared.plan.Move.{Move};
ghost use Rattle.line_io.specs.Writer.{Writes};
ghost use Rattle.floor_index.specs.Floors.{listed, table_of};
ghost use Rattle.clearing_report.specs.Clearing.{IsReport, latest, clearing_moment};
ghost use Rattle.report_text.specs.ReportText.{clearing_text, floor_clear_part, node_clear_part};

use crate::lines::{put_floor_clear, put_node_clear, put_number};
use crate::subject::Subject;
use certificate_text::put_end;
use clearing_report::Clearing;
use evac_law::Model;
use floor_index::FloorIndex;
use line_io::{Sink, Writer};

// Puts when somebody is in a node last, where it is no exit.
fn put_node<K: Sink>(writer: &mut Writer<'_, K>, model: &Model, clearing: &Clearing, node: u32)
    requires valid { IsValid model.now }
    requires size { length clearing.now.moments ≡ length model.now.nodes }
    requires node_in { node < length model.now.nodes }
    ensures { Writes K.Sink writer.old (node_clear_part model.now (clearing_moment clearing.now) node) writer.new }
{
    let name = model.node(node).name;
    if !name.kind.is_exit() {
        put_node_clear(writer, name, clearing.node_clear(node));
    }
}

fn put_nodes<K: Sink>(writer: &mut Writer<'_, K>, model: &Model, clearing: &Clearing)
    requires valid { IsValid model.now }
    requires size { length clearing.now.moments ≡ length model.now.nodes }
    ensures { Writes K.Sink writer.old (flat_map (node_clear_part model.now (clearing_moment clearing.now)) (places model.now.nodes)) writer.new }
{
    for node in 0..model.node_count() {
        put_node(writer, model, clearing, node);
    }
}

fn put_floors<K: Sink>(
    writer: &mut Writer<'_, K>,
    floors: &[u16],
    index: &FloorIndex,
    clearing: &Clearing,
)
    ensures { Writes K.Sink writer.old (flat_map (floor_clear_part (λ f. latest (clearing_moment clearing.now) (listed index.now f))) floors.now) writer.new }
{
    for floor in floors {
        put_floor_clear(writer, *floor, clearing.floor_clear(index, *floor));
    }
}

/// Puts when each node that is no exit and each floor is empty, by a report on the plan of an answer.
pub fn put_clearing<K: Sink>(
    writer: &mut Writer<'_, K>,
    subject: &Subject<'_>,
    floors: &FloorIndex,
    clearing: &Clearing,
)
    requires valid { IsValid subject.now.model.now }
    requires size { length clearing.now.moments ≡ length subject.now.model.now.nodes }
    requires floors { floors.now ≡ table_of subject.now.model.now subject.now.names.now.floors }
    ensures { let m = subject.now.model.now in (p : List Move) → IsReport m p clearing.now
        → Writes K.Sink writer.old (clearing_text subject.now.index subject.now.names.now.floors m p) writer.new }
{
    put_number(writer, b"clearing", u64::from(subject.index));
    put_nodes(writer, subject.model, clearing);
    put_floors(writer, subject.names.floors(), floors, clearing);
    put_end(writer);
}

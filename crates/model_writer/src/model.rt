//! The text of a building.
ghost use Rattle.std.specs.Prelude.{◌≡◌, ◌<◌, length};
ghost use Rattle.std.specs.List.{All, flat_map};
ghost use Rattle.evac_law.specs.Building.{IsNode, IsValid};
ghost use Rattle.evac_law.specs.Sums.{below};
ghost use Rattle.line_io.specs.Writer.{Writes};
ghost use Rattle.model_text.specs.Reads.{said_part};
ghost use Rattle.model_writer.specs.ModelText.{HasNames, arc_text, building_text, entrant_said, entrant_text, floor_text, node_said, node_text, rows_text, settings_text, title_text, window_said, windows_text};

use crate::line::{put_part, put_statement};
use building_table::{Building, Names};
use evac_law::{ArcRow, Entrant, Model, NodeRow, Window};
use line_io::{Sink, Writer};
use model_text::{Part, Statement};

fn put_title<K: Sink>(writer: &mut Writer<'_, K>, names: &Names)
    ensures { Writes K.Sink writer.old (title_text names.now.title) writer.new }
{
    match names.title() {
        None => {}
        Some(text) => put_part(writer, Part::Title { text }),
    }
}

// The line of the floor at a place.
fn put_floor<K: Sink>(writer: &mut Writer<'_, K>, names: &Names, place: usize)
    requires { place < length names.now.floors }
    ensures { Writes K.Sink writer.old (floor_text names.now.floors names.now.texts place) writer.new }
{
    let floor = names.floors()[place];
    let text = names.floor_text(place);
    put_part(writer, Part::Floor { floor, text });
}

fn put_floors<K: Sink>(writer: &mut Writer<'_, K>, names: &Names)
    ensures { Writes K.Sink writer.old (flat_map (floor_text names.now.floors names.now.texts) (below (length names.now.floors))) writer.new }
{
    for place in 0..names.floors().len() {
        put_floor(writer, names, place);
    }
}

// What a line says of a node.
fn said_node<'a>(row: NodeRow) -> Part<'a>
    requires { IsNode row }
    ensures value { said_part result ≡ node_said row }
    ensures names { HasNames (said_part result) }
{
    if row.name.kind.is_exit() {
        Part::Exit { name: row.name }
    } else {
        Part::Node {
            name: row.name,
            capacity: row.capacity,
            start: row.start,
        }
    }
}

fn put_nodes<K: Sink>(writer: &mut Writer<'_, K>, nodes: &[NodeRow])
    requires { All IsNode nodes.now }
    ensures { Writes K.Sink writer.old (flat_map node_text nodes.now) writer.new }
{
    for row in nodes {
        put_part(writer, said_node(*row));
    }
}

fn put_arc<K: Sink>(writer: &mut Writer<'_, K>, model: &Model, row: &ArcRow)
    requires valid { IsValid model.now }
    requires from_in { row.now.from < length model.now.nodes }
    requires to_in { row.now.to < length model.now.nodes }
    ensures { Writes K.Sink writer.old (arc_text model.now row.now) writer.new }
{
    let said = Part::Arc {
        from: model.node(row.from).name,
        to: model.node(row.to).name,
        travel: row.travel,
        rate: row.rate,
    };
    put_part(writer, said);
}

fn put_arcs<K: Sink>(writer: &mut Writer<'_, K>, model: &Model)
    requires { IsValid model.now }
    ensures { Writes K.Sink writer.old (flat_map (arc_text model.now) model.now.arcs) writer.new }
{
    for row in model.arcs.as_slice() {
        put_arc(writer, model, row);
    }
}

// What a line says of a window of an arc.
fn said_window<'a>(model: &Model, row: &ArcRow, window: Window) -> Part<'a>
    requires valid { IsValid model.now }
    requires from_in { row.now.from < length model.now.nodes }
    requires to_in { row.now.to < length model.now.nodes }
    ensures value { said_part result ≡ window_said model.now row.now window }
    ensures names { HasNames (said_part result) }
{
    Part::Window {
        from: model.node(row.from).name,
        to: model.node(row.to).name,
        first: window.from,
        until: window.until,
    }
}

fn put_windows_of<K: Sink>(writer: &mut Writer<'_, K>, model: &Model, row: &ArcRow)
    requires valid { IsValid model.now }
    requires from_in { row.now.from < length model.now.nodes }
    requires to_in { row.now.to < length model.now.nodes }
    ensures { Writes K.Sink writer.old (windows_text model.now row.now) writer.new }
{
    for window in row.windows.as_slice() {
        put_part(writer, said_window(model, row, *window));
    }
}

fn put_windows<K: Sink>(writer: &mut Writer<'_, K>, model: &Model)
    requires { IsValid model.now }
    ensures { Writes K.Sink writer.old (flat_map (windows_text model.now) model.now.arcs) writer.new }
{
    for row in model.arcs.as_slice() {
        put_windows_of(writer, model, row);
    }
}

// What a line says of an entrant.
fn said_entrant<'a>(model: &Model, entrant: Entrant) -> Part<'a>
    requires valid { IsValid model.now }
    requires node_in { entrant.node < length model.now.nodes }
    ensures value { said_part result ≡ entrant_said model.now entrant }
    ensures names { HasNames (said_part result) }
{
    Part::Entrant {
        name: model.node(entrant.node).name,
        moment: entrant.moment,
        people: entrant.people,
    }
}

fn put_entrants<K: Sink>(writer: &mut Writer<'_, K>, model: &Model)
    requires { IsValid model.now }
    ensures { Writes K.Sink writer.old (flat_map (entrant_text model.now) model.now.entrants) writer.new }
{
    for entrant in model.entrants.as_slice() {
        put_part(writer, said_entrant(model, *entrant));
    }
}

fn put_settings<K: Sink>(writer: &mut Writer<'_, K>, building: &Building)
    ensures { Writes K.Sink writer.old (settings_text building.now) writer.new }
{
    put_statement(writer, Statement::Header { version: 2 });
    put_title(writer, &building.names);
    let seconds = building.model.seconds;
    put_part(writer, Part::Period { seconds });
    let moments = building.model.horizon;
    put_part(writer, Part::Horizon { moments });
}

// The nodes, the arcs, the windows and the entrants.
fn put_rows<K: Sink>(writer: &mut Writer<'_, K>, model: &Model)
    requires { IsValid model.now }
    ensures { Writes K.Sink writer.old (rows_text model.now) writer.new }
{
    put_nodes(writer, model.nodes.as_slice());
    put_arcs(writer, model);
    put_windows(writer, model);
    put_entrants(writer, model);
}

/// Puts a building as a text of version 2.
pub fn put_model<K: Sink>(writer: &mut Writer<'_, K>, building: &Building)
    requires { IsValid building.now.model }
    ensures { Writes K.Sink writer.old (building_text building.now) writer.new }
{
    put_settings(writer, building);
    put_floors(writer, &building.names);
    put_rows(writer, &building.model);
    put_statement(writer, Statement::End);
}

//! The block of a shortfall: a cut that shows that not everybody can get out.
ghost use Rattle.std.specs.Prelude.{◌≡◌, ◌+◌, ◌-◌, ◌<◌, ◌≤◌, ℕ, List, IsTrue, length};
ghost use Rattle.std.specs.List.{flat_map};
ghost use Rattle.evac_law.specs.Building.{IsValid, people as people_of};
ghost use Rattle.evac_law.specs.Certificates.{IsTableOf, label_cut};
ghost use Rattle.evac_law.specs.Sums.{moments_to};
ghost use Rattle.evac_law.specs.declared.model.Model.{Model as ModelValue};
ghost use Rattle.line_io.specs.Sides.{HasSinkCause};
ghost use Rattle.line_io.specs.Writer.{PutsTextTo, Writes};
ghost use Rattle.certificate_text.specs.BlockText.{in_lines, in_part, node_in, opens_run, run_end, shortfall_text};
ghost use Rattle.certificate_text.specs.Short.{HasSameNames};

use crate::lines::{put_end, put_in, put_most, put_people, put_refusal};
use evac_law::{Code, Labels, Model};
use line_io::{Out, Sink, WriteFault, Writer};

// Whether a node is in the cut of moment k.
fn is_inside(model: &Model, labels: &Labels, k: u16, node: u32, moment: u16) -> bool
    requires table { IsTableOf model.now labels.now }
    requires node_in { node < length model.now.nodes }
    requires moment_in { moment ≤ model.now.horizon }
    ensures { result ≡ label_cut model.now labels.now k node moment }
{
    moment <= k && !model.node(node).name.kind.is_exit() && k < labels.get(node, moment)
}

// Whether a moment is the first of a run inside the cut.
fn opens_run(model: &Model, labels: &Labels, k: u16, node: u32, moment: u16) -> bool
    requires table { IsTableOf model.now labels.now }
    requires node_in { node < length model.now.nodes }
    requires moment_in { moment ≤ model.now.horizon }
    ensures { result ≡ opens_run (label_cut model.now labels.now k node) moment }
{
    is_inside(model, labels, k, node, moment)
        && (moment == 0 || !is_inside(model, labels, k, node, moment - 1))
}

// The last moment of the run that a moment is in.
fn run_end(model: &Model, labels: &Labels, k: u16, node: u32, moment: u16) -> u16
    requires table { IsTableOf model.now labels.now }
    requires node_in { node < length model.now.nodes }
    requires moment_in { moment ≤ model.now.horizon }
    ensures { result ≡ run_end (label_cut model.now labels.now k node) moment (model.now.horizon - moment) }
{
    let horizon = model.horizon;
    let mut last = moment;
    while last < horizon && is_inside(model, labels, k, node, last + 1) {
        last += 1;
    }
    last
}

// The runs of a node, each by a line at its first moment.
#[tactic(auto, unfolding(evac_law::specs::Limits::horizon_limit))]
fn put_runs<K: Sink>(writer: &mut Writer<'_, K>, model: &Model, labels: &Labels, k: u16, node: u32)
    requires valid { IsValid model.now }
    requires table { IsTableOf model.now labels.now }
    requires node_in { node < length model.now.nodes }
    ensures { Writes K.Sink writer.old (flat_map (in_part model.now (label_cut model.now labels.now k) node) (moments_to model.now.horizon)) writer.new }
{
    for moment in 0..model.horizon + 1 {
        if opens_run(model, labels, k, node, moment) {
            let last = run_end(model, labels, k, node, moment);
            put_in(writer, model.node(node).name, moment, last);
        }
    }
}

// The runs of a node that is no exit.
fn put_node<K: Sink>(writer: &mut Writer<'_, K>, model: &Model, labels: &Labels, k: u16, node: u32)
    requires valid { IsValid model.now }
    requires table { IsTableOf model.now labels.now }
    requires node_in { node < length model.now.nodes }
    ensures { Writes K.Sink writer.old (node_in model.now (label_cut model.now labels.now k) node) writer.new }
{
    if !model.node(node).name.kind.is_exit() {
        put_runs(writer, model, labels, k, node);
    }
}

/// Puts the nodes in the cut of labels at a moment, each with the moments at which it is in.
pub fn put_ins<K: Sink>(writer: &mut Writer<'_, K>, model: &Model, labels: &Labels, k: u16)
    requires valid { IsValid model.now }
    requires table { IsTableOf model.now labels.now }
    ensures { Writes K.Sink writer.old (in_lines model.now (label_cut model.now labels.now k)) writer.new }
{
    for node in 0..model.node_count() {
        put_node(writer, model, labels, k, node);
    }
}

/// Puts the short block of a model that can't be cleared: the refusal at a line, the people, and the cut of the last moment by labels, with its
/// value. Any model with the same names serves, as that before an edit of capacities or people.
pub fn put_short<K: Sink>(
    writer: &mut Writer<'_, K>,
    model: &Model,
    line: u32,
    people: u32,
    most: u32,
    labels: &Labels,
)
    requires valid { IsValid model.now }
    requires table { IsTableOf model.now labels.now }
    ensures text { (of : ModelValue) → HasSameNames model.now of → people_of of ≡ people
        → Writes K.Sink writer.old (shortfall_text line of (label_cut of labels.now of.horizon) most) writer.new }
    ensures written { (text : List ℕ) × Writes K.Sink writer.old text writer.new }
{
    put_refusal(writer, Code::NotCleared, line);
    put_people(writer, people);
    put_most(writer, most);
    put_ins(writer, model, labels, model.horizon);
    put_end(writer);
}

/// Puts the short block of a model that can't be cleared before a sink, as `put_short` does.
pub fn write_short<K: Sink>(
    out: &mut Out,
    sink: &mut K,
    model: &Model,
    line: u32,
    people: u32,
    most: u32,
    labels: &Labels,
) -> Result<(), WriteFault>
    requires valid { IsValid model.now }
    requires table { IsTableOf model.now labels.now }
    ensures text { (of : ModelValue) → HasSameNames model.now of → people_of of ≡ people
        → PutsTextTo K.Sink sink.old out.old (shortfall_text line of (label_cut of labels.now of.horizon) most) sink.new out.new result }
    ensures cause { HasSinkCause K.Sink sink.old sink.new result }
{
    let mut writer = Writer::new(out, sink);
    put_short(&mut writer, model, line, people, most, labels);
    if writer.has_failed() {
        Err(WriteFault)
    } else {
        Ok(())
    }
}

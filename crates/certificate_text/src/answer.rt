//! The block of an answer.
ghost use Rattle.std.specs.Prelude.{◌≡◌, ◌+◌, ◌*◌, ◌<◌, ◌≤◌, ◌^◌, IsTrue, length};
ghost use Rattle.evac_law.specs.Building.{IsValid};
ghost use Rattle.evac_law.specs.Certificates.{IsCertified, IsTableOf};
ghost use Rattle.evac_law.specs.Stands.{Fits};
ghost use Rattle.evac_law.proofs.Curve.{arriving, arriving_by};
ghost use Rattle.std.specs.List.{flat_map};
ghost use Rattle.evac_law.specs.Sums.{below};
ghost use Rattle.line_io.specs.Sides.{HasSinkCause};
ghost use Rattle.line_io.specs.Writer.{PutsTextTo, Writes};
ghost use Rattle.certificate_text.specs.ExitArcs.{arcs_out, leads_out};
ghost use Rattle.certificate_text.specs.NameTexts.{ends_texts, entering_line, run_line};
ghost use Rattle.certificate_text.specs.Block.{number_field_limit};
ghost use Rattle.certificate_text.specs.BlockLaws.{ReadsBack};
ghost use Rattle.certificate_text.specs.BlockText.{answer_text, begins_run, label_lines, move_lines, move_part, moment_moves, node_labels, out_lines, shown_label};

use crate::lines::{put_cleared, put_end, put_index, put_label, put_move, put_out, put_people};
use crate::names::{EndsText, NameText, ends_texts};
use arrayvec::ArrayVec;
use evac_law::limits::ARC_LIMIT;
use evac_law::{Labels, Model, Move, Standing};
use line_io::{Out, Sink, WriteFault, Writer};

// The arcs into exits.
#[tactic(auto, using(crate::proofs::ExitLemmas::filter_yes, crate::proofs::ExitLemmas::filter_no), unfolding(evac_law::specs::Limits::arc_limit))]
fn arcs_out(model: &Model) -> ArrayVec<u32, ARC_LIMIT>
    requires { IsValid model.now }
    ensures { result.items ≡ arcs_out model.now }
{
    let mut arcs = ArrayVec::new();
    for arc in 0..model.arc_count() {
        if model.node(model.arc(arc).to).name.kind.is_exit() {
            arcs.push(arc);
        }
    }
    arcs
}

// The people who arrive at an exit at a moment by an arc into it.
#[tactic(auto, unfolding(evac_law::proofs::Curve::arriving_by))]
fn arriving_by<F: Standing>(model: &Model, standing: &F, moment: u16, arc: u32) -> u32
    requires fits { Fits model.now (F.stand standing.now) }
    requires moment_in { moment ≤ model.now.horizon }
    requires arc_in { arc < length model.now.arcs }
    requires exit { IsTrue (leads_out model.now arc) }
    ensures { result ≡ arriving_by model.now (F.stand standing.now).plan moment arc }
{
    let travel = model.arc(arc).travel;
    if travel <= moment {
        standing.moved(arc, moment - travel)
    } else {
        0
    }
}

// The people who arrive at exits at a moment, by the arcs into them.
fn arriving<F: Standing>(model: &Model, standing: &F, arcs: &[u32], moment: u16) -> u64
    requires fits { Fits model.now (F.stand standing.now) }
    requires arcs { arcs.now ≡ arcs_out model.now }
    requires few_arcs { length arcs.now ≤ ARC_LIMIT }
    requires moment_in { moment ≤ model.now.horizon }
    ensures value { result ≡ arriving model.now (F.stand standing.now).plan moment }
    ensures few { result ≤ 2 ^ 48 }
{
    let mut people = 0u64;
    for arc in arcs {
        people += u64::from(arriving_by(model, standing, moment, *arc));
    }
    people
}

// The people out by each period.
#[tactic(auto, using(evac_law::proofs::SumLemmas::sum_steps), unfolding(evac_law::specs::Limits::horizon_limit))]
fn put_outs<K: Sink, F: Standing>(
    writer: &mut Writer<'_, K>,
    model: &Model,
    standing: &F,
    cleared: u16,
)
    requires valid { IsValid model.now }
    requires fits { Fits model.now (F.stand standing.now) }
    requires cleared_in { cleared ≤ model.now.horizon }
    ensures { Writes K.Sink writer.old (out_lines model.now (F.stand standing.now).plan cleared) writer.new }
{
    let arcs = arcs_out(model);
    let mut people = 0u64;
    for period in 0..cleared + 1 {
        people += arriving(model, standing, &arcs, period);
        put_out(writer, period, people);
    }
}

// A label as it is shown.
fn shown_label(labels: &Labels, cleared: u16, node: u32, moment: u16) -> u16
    requires node_in { node < labels.now.nodes }
    requires moment_in { moment ≤ labels.now.horizon }
    ensures { result ≡ shown_label labels.now cleared node moment }
{
    labels.get(node, moment).min(cleared)
}

// Whether a moment is the first of a run of moments with the same label.
fn begins_run(labels: &Labels, cleared: u16, node: u32, moment: u16) -> bool
    requires node_in { node < labels.now.nodes }
    requires moment_in { moment ≤ labels.now.horizon }
    ensures { result ≡ begins_run (shown_label labels.now cleared node) moment }
{
    moment == 0
        || shown_label(labels, cleared, node, moment)
            != shown_label(labels, cleared, node, moment - 1)
}

// The runs of a node, each by a line at its first moment.
fn put_runs<K: Sink>(
    writer: &mut Writer<'_, K>,
    name: &NameText,
    labels: &Labels,
    cleared: u16,
    node: u32,
)
    requires node_in { node < labels.now.nodes }
    requires cleared_in { cleared ≤ labels.now.horizon }
    ensures { Writes K.Sink writer.old (flat_map (run_line name.now labels.now cleared node) (below cleared)) writer.new }
{
    for moment in 0..cleared {
        if begins_run(labels, cleared, node, moment) {
            let label = shown_label(labels, cleared, node, moment);
            put_label(writer, name, moment, label);
        }
    }
}

// The runs of a node that is no exit.
fn put_node<K: Sink>(
    writer: &mut Writer<'_, K>,
    model: &Model,
    labels: &Labels,
    cleared: u16,
    node: u32,
)
    requires valid { IsValid model.now }
    requires table { IsTableOf model.now labels.now }
    requires cleared_in { cleared ≤ model.now.horizon }
    requires node_in { node < length model.now.nodes }
    ensures { Writes K.Sink writer.old (node_labels model.now labels.now cleared node) writer.new }
{
    let name = model.node(node).name;
    if !name.kind.is_exit() {
        put_runs(writer, &NameText::new(name), labels, cleared, node);
    }
}

fn put_labels<K: Sink>(writer: &mut Writer<'_, K>, model: &Model, labels: &Labels, cleared: u16)
    requires valid { IsValid model.now }
    requires table { IsTableOf model.now labels.now }
    requires cleared_in { cleared ≤ model.now.horizon }
    ensures { Writes K.Sink writer.old (label_lines model.now labels.now cleared) writer.new }
{
    for node in 0..model.node_count() {
        put_node(writer, model, labels, cleared, node);
    }
}

// The line of a move, where anybody moves.
fn put_step<K: Sink>(writer: &mut Writer<'_, K>, model: &Model, ends: &[EndsText], step: Move)
    requires valid { IsValid model.now }
    requires ends { ends.now ≡ ends_texts model.now }
    requires arc_in { step.arc < length model.now.arcs }
    ensures { Writes K.Sink writer.old (entering_line model.now step) writer.new }
{
    if step.people == 0 {
        return;
    }
    put_move(writer, step.moment, &ends[step.arc as usize], step.people);
}

// The moves of a moment.
fn put_moment<K: Sink, F: Standing>(
    writer: &mut Writer<'_, K>,
    model: &Model,
    ends: &[EndsText],
    standing: &F,
    moment: u16,
)
    requires valid { IsValid model.now }
    requires ends { ends.now ≡ ends_texts model.now }
    requires fits { Fits model.now (F.stand standing.now) }
    requires moment_in { moment ≤ model.now.horizon }
    ensures { Writes K.Sink writer.old (moment_moves model.now (F.stand standing.now).plan moment) writer.new }
{
    for arc in 0..model.arc_count() {
        let people = standing.moved(arc, moment);
        let step = Move {
            moment,
            arc,
            people,
        };
        put_step(writer, model, ends, step);
    }
}

// The moves of a plan, by moment and then by arc.
#[tactic(auto, unfolding(evac_law::specs::Limits::horizon_limit))]
fn put_named_moves<K: Sink, F: Standing>(
    writer: &mut Writer<'_, K>,
    model: &Model,
    ends: &[EndsText],
    standing: &F,
)
    requires valid { IsValid model.now }
    requires ends { ends.now ≡ ends_texts model.now }
    requires fits { Fits model.now (F.stand standing.now) }
    ensures { Writes K.Sink writer.old (move_lines model.now (F.stand standing.now).plan) writer.new }
{
    // nobody moves after the last arrival
    let last = standing.cleared().min(model.horizon);
    for moment in 0..last + 1 {
        put_moment(writer, model, ends, standing, moment);
    }
}

/// Puts the moves of a plan, by moment and then by arc.
pub fn put_moves<K: Sink, F: Standing>(writer: &mut Writer<'_, K>, model: &Model, standing: &F)
    requires valid { IsValid model.now }
    requires fits { Fits model.now (F.stand standing.now) }
    ensures { Writes K.Sink writer.old (move_lines model.now (F.stand standing.now).plan) writer.new }
{
    let ends = ends_texts(model);
    put_named_moves(writer, model, &ends, standing);
}

/// Puts the answer block of a standing plan with its labels. The index is 0 for the opening of a model and counts edits from there.
pub fn put_answer<K: Sink, F: Standing>(
    writer: &mut Writer<'_, K>,
    model: &Model,
    index: u32,
    standing: &F,
    labels: &Labels,
)
    requires valid { IsValid model.now }
    requires fits { Fits model.now (F.stand standing.now) }
    requires table { IsTableOf model.now labels.now }
    requires in_time { (F.stand standing.now).last ≤ model.now.horizon }
    ensures text { let s = F.stand standing.now in
        Writes K.Sink writer.old (answer_text index model.now s.plan labels.now s.last) writer.new }
    ensures back { let s = F.stand standing.now in
        index ≤ number_field_limit → IsCertified model.now s.plan labels.now s.last → ReadsBack index model.now s.plan labels.now s.last }
{
    let people = model.people();
    let cleared = standing.cleared();
    let ends = ends_texts(model);
    put_index(writer, index);
    put_people(writer, people);
    put_cleared(writer, cleared);
    put_outs(writer, model, standing, cleared);
    put_labels(writer, model, labels, cleared);
    put_named_moves(writer, model, &ends, standing);
    put_end(writer);
}

/// Puts the answer block of a standing plan with its labels before a sink, as `put_answer` does.
pub fn write_answer<K: Sink, F: Standing>(
    out: &mut Out,
    sink: &mut K,
    model: &Model,
    index: u32,
    standing: &F,
    labels: &Labels,
) -> Result<(), WriteFault>
    requires valid { IsValid model.now }
    requires fits { Fits model.now (F.stand standing.now) }
    requires table { IsTableOf model.now labels.now }
    requires in_time { (F.stand standing.now).last ≤ model.now.horizon }
    ensures text { let s = F.stand standing.now in
        PutsTextTo K.Sink sink.old out.old (answer_text index model.now s.plan labels.now s.last) sink.new out.new result }
    ensures back { let s = F.stand standing.now in
        index ≤ number_field_limit → IsCertified model.now s.plan labels.now s.last → ReadsBack index model.now s.plan labels.now s.last }
    ensures cause { HasSinkCause K.Sink sink.old sink.new result }
{
    let mut writer = Writer::new(out, sink);
    put_answer(&mut writer, model, index, standing, labels);
    if writer.has_failed() {
        Err(WriteFault)
    } else {
        Ok(())
    }
}

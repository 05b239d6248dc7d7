//! The cut of a period.
ghost use Rattle.std.specs.Prelude.{◌≡◌, ◌+◌, ◌*◌, ◌^◌, ◌<◌, ◌≤◌, length};
ghost use Rattle.std.specs.List.{All, flat_map, sum_by};
ghost use Rattle.evac_law.specs.Building.{IsValid, entry};
ghost use Rattle.evac_law.specs.Certificates.{IsTableOf, label_cut, stated_cut};
ghost use Rattle.evac_law.specs.Cuts.{cut_items, cut_value};
ghost use Rattle.evac_law.specs.Sums.{moments_to};
ghost use Rattle.line_io.specs.Writer.{Writes};
ghost use Rattle.report_text.specs.ReportText.{cut_text, item_line};
ghost use Rattle.report_text.specs.Parts.{IsItemOf, entry_text, no_pair};

use crate::lines::{put_arc, put_cut_line, put_entry, put_hold};
use certificate_text::put_end;
use cut_witness::{Crossing, crossing, cut_value};
use evac_law::{CutItem, Labels, Model};
use line_io::{Sink, Writer};

// Puts an item.
fn put_item<K: Sink>(writer: &mut Writer<'_, K>, model: &Model, item: CutItem)
    requires valid { IsValid model.now }
    requires item { IsItemOf model.now item }
    ensures { Writes K.Sink writer.old (item_line model.now item) writer.new }
{
    match item {
        CutItem::Entry { node, people } => put_entry(writer, model.node(node).name, people),
        CutItem::Hold {
            node,
            moment,
            capacity,
        } => put_hold(writer, model.node(node).name, moment, capacity),
        CutItem::Arc { arc, moment, rate } => {
            let row = model.arc(arc);
            let from = model.node(row.from).name;
            let to = model.node(row.to).name;
            put_arc(writer, moment, from, to, rate)
        }
    }
}

// Puts the items that are still to come.
fn put_items<K: Sink>(writer: &mut Writer<'_, K>, model: &Model, items: &mut Crossing<'_>)
    requires valid { IsValid model.now }
    requires items { All (IsItemOf model.now) items.old }
    ensures { Writes K.Sink writer.old (flat_map (item_line model.now) items.old) writer.new }
{
    while let Some(item) = items.next() {
        put_item(writer, model, item);
    }
}

// Puts the cut of labels at a period.
fn put_label_cut<K: Sink>(writer: &mut Writer<'_, K>, model: &Model, labels: &Labels, k: u16)
    requires valid { IsValid model.now }
    requires table { IsTableOf model.now labels.now }
    requires k_in { k ≤ model.now.horizon }
    ensures { Writes K.Sink writer.old (cut_text model.now (label_cut model.now labels.now k) k) writer.new }
{
    put_cut_line(writer, k, cut_value(model, labels, k));
    let mut items = crossing(model, labels, k);
    put_items(writer, model, &mut items);
    put_end(writer);
}

// Puts the people who come into a node at a moment, where there are any.
fn put_coming<K: Sink>(writer: &mut Writer<'_, K>, model: &Model, node: u32, moment: u16)
    requires valid { IsValid model.now }
    requires node_in { node < length model.now.nodes }
    requires moment_in { moment ≤ model.now.horizon }
    ensures { Writes K.Sink writer.old (entry_text model.now node moment) writer.new }
{
    let people = model.entry(node, moment);
    if people > 0 {
        put_entry(writer, model.node(node).name, people);
    }
}

// Puts the people who come into a node by a period.
#[tactic(auto, unfolding(evac_law::specs::Limits::horizon_limit))]
fn put_node_coming<K: Sink>(writer: &mut Writer<'_, K>, model: &Model, node: u32, k: u16)
    requires valid { IsValid model.now }
    requires node_in { node < length model.now.nodes }
    requires k_in { k ≤ model.now.horizon }
    ensures { Writes K.Sink writer.old (flat_map (entry_text model.now node) (moments_to k)) writer.new }
{
    for moment in 0..k + 1 {
        put_coming(writer, model, node, moment);
    }
}

// Puts the people who come in by a period.
fn put_all_coming<K: Sink>(writer: &mut Writer<'_, K>, model: &Model, k: u16)
    requires valid { IsValid model.now }
    requires k_in { k ≤ model.now.horizon }
    ensures { Writes K.Sink writer.old (flat_map (item_line model.now) (cut_items model.now no_pair k)) writer.new }
{
    for node in 0..model.node_count() {
        put_node_coming(writer, model, node, k);
    }
}

// The people who come into a node by a period.
#[tactic(auto, using(evac_law::proofs::SumLemmas::sum_steps), unfolding(evac_law::specs::Limits::horizon_limit))]
fn entered(model: &Model, node: u32, k: u16) -> u64
    requires valid { IsValid model.now }
    requires node_in { node < length model.now.nodes }
    requires k_in { k ≤ model.now.horizon }
    ensures people { result ≡ sum_by (entry model.now node) (moments_to k) }
    ensures few { result ≤ 2 ^ 48 }
{
    let mut people = 0u64;
    for moment in 0..k + 1 {
        people += u64::from(model.entry(node, moment));
    }
    people
}

// The people who come in by a period.
#[tactic(auto, using(evac_law::proofs::SumLemmas::sum_steps), unfolding(evac_law::specs::Limits::node_limit))]
fn all_entered(model: &Model, k: u16) -> u64
    requires valid { IsValid model.now }
    requires k_in { k ≤ model.now.horizon }
    ensures { result ≡ cut_value model.now no_pair k }
{
    let mut people = 0u64;
    for node in 0..model.node_count() {
        people += entered(model, node, k);
    }
    people
}

// Puts the cut of no pair at a period.
fn put_empty_cut<K: Sink>(writer: &mut Writer<'_, K>, model: &Model, k: u16)
    requires valid { IsValid model.now }
    requires k_in { k ≤ model.now.horizon }
    ensures { Writes K.Sink writer.old (cut_text model.now no_pair k) writer.new }
{
    put_cut_line(writer, k, all_entered(model, k));
    put_all_coming(writer, model, k);
    put_end(writer);
}

/// Puts the cut of a period, of the labels of a plan that has everybody out by `cleared`: from then on it is the cut of no pair.
pub fn put_cut<K: Sink>(
    writer: &mut Writer<'_, K>,
    model: &Model,
    labels: &Labels,
    cleared: u16,
    k: u16,
)
    requires valid { IsValid model.now }
    requires table { IsTableOf model.now labels.now }
    requires k_in { k ≤ model.now.horizon }
    ensures { Writes K.Sink writer.old (cut_text model.now (stated_cut model.now labels.now cleared k) k) writer.new }
{
    if k < cleared {
        put_label_cut(writer, model, labels, k);
    } else {
        put_empty_cut(writer, model, k);
    }
}

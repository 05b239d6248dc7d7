//! How tables take the people of a plan.
ghost use Rattle.std.specs.Prelude.{◌≡◌, ℕ, ◌<◌, ◌≤◌, length};
ghost use Rattle.evac_law.specs.Building.{IsValid, entry};
ghost use Rattle.evac_law.specs.Limits.{horizon_limit};
ghost use Rattle.evac_law.specs.Plans.{moved};
ghost use Rattle.plan_layout.specs.Tables.{IsRowFilled, people_at};

use evac_law::{Model, Standing};
use tables::Table;

// Puts the people who enter an arc.
#[tactic(auto, unfolding(evac_law::specs::Limits::horizon_limit))]
fn fill_moves_row<F: Standing>(table: &mut Table<u32>, standing: &F, arc: u32)
    requires arc_in { arc < table.old.rows }
    requires arcs { table.old.rows ≡ (F.stand standing.now).arcs }
    requires horizon { table.old.last ≡ (F.stand standing.now).horizon }
    requires short { table.old.last ≤ horizon_limit }
    ensures filled { IsRowFilled table.old table.new arc (moved (F.stand standing.now).plan arc) }
{
    for moment in 0..table.last() + 1 {
        table.put(arc, moment, standing.moved(arc, moment));
    }
}

/// Puts the people who enter the arcs.
pub fn fill_moves<F: Standing>(table: &mut Table<u32>, standing: &F)
    requires arcs { table.old.rows ≡ (F.stand standing.now).arcs }
    requires horizon { table.old.last ≡ (F.stand standing.now).horizon }
    requires short { table.old.last ≤ horizon_limit }
    ensures rows { table.new.rows ≡ table.old.rows }
    ensures last { table.new.last ≡ table.old.last }
    ensures cells { (a t : ℕ) → a < table.old.rows → t ≤ table.old.last → people_at table.new a t ≡ moved (F.stand standing.now).plan a t }
{
    for arc in 0..table.rows() {
        fill_moves_row(table, standing, arc);
    }
}

// Puts the people who stay in a node.
#[tactic(auto, unfolding(evac_law::specs::Limits::horizon_limit))]
fn fill_holds_row<F: Standing>(table: &mut Table<u32>, standing: &F, node: u32)
    requires node_in { node < table.old.rows }
    requires nodes { table.old.rows ≡ (F.stand standing.now).nodes }
    requires horizon { table.old.last ≡ (F.stand standing.now).horizon }
    requires short { table.old.last ≤ horizon_limit }
    ensures filled { IsRowFilled table.old table.new node ((F.stand standing.now).contents node) }
{
    for moment in 0..table.last() + 1 {
        table.put(node, moment, standing.held(node, moment));
    }
}

/// Puts the people who stay in the nodes.
pub fn fill_holds<F: Standing>(table: &mut Table<u32>, standing: &F)
    requires nodes { table.old.rows ≡ (F.stand standing.now).nodes }
    requires horizon { table.old.last ≡ (F.stand standing.now).horizon }
    requires short { table.old.last ≤ horizon_limit }
    ensures rows { table.new.rows ≡ table.old.rows }
    ensures last { table.new.last ≡ table.old.last }
    ensures cells { (n t : ℕ) → n < table.old.rows → t ≤ table.old.last → people_at table.new n t ≡ (F.stand standing.now).contents n t }
{
    for node in 0..table.rows() {
        fill_holds_row(table, standing, node);
    }
}

// Puts the people who come into a node from nowhere.
#[tactic(auto, unfolding(evac_law::specs::Limits::horizon_limit))]
fn fill_entries_row(table: &mut Table<u32>, model: &Model, node: u32)
    requires valid { IsValid model.now }
    requires node_in { node < table.old.rows }
    requires nodes { table.old.rows ≡ length model.now.nodes }
    requires horizon { table.old.last ≡ model.now.horizon }
    ensures filled { IsRowFilled table.old table.new node (entry model.now node) }
{
    for moment in 0..table.last() + 1 {
        table.put(node, moment, model.entry(node, moment));
    }
}

/// Puts the people who come into the nodes from nowhere.
pub fn fill_entries(table: &mut Table<u32>, model: &Model)
    requires valid { IsValid model.now }
    requires nodes { table.old.rows ≡ length model.now.nodes }
    requires horizon { table.old.last ≡ model.now.horizon }
    ensures rows { table.new.rows ≡ table.old.rows }
    ensures last { table.new.last ≡ table.old.last }
    ensures cells { (n t : ℕ) → n < table.old.rows → t ≤ table.old.last → people_at table.new n t ≡ entry model.now n t }
{
    for node in 0..table.rows() {
        fill_entries_row(table, model, node);
    }
}

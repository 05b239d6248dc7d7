//! People counted by node and moment.
ghost use Rattle.std.specs.Prelude.{◌+◌, ◌<◌, ◌≤◌, ◌^◌, ◌&&◌, if◌then◌else◌, ◌==◌};
ghost use Rattle.evac_law.specs.Plans.{coming, leaving};
ghost use Rattle.plan_checker.specs.Counts.{IsCountOf, IsCountable, count};

use evac_law::{Model, Move};
use tables::Table;

// Adds people to the number of a node at a moment, where the table has that moment.
fn add(tally: &mut Table<u64>, node: u32, moment: u16, people: u32)
    requires node_in { node < tally.old.rows }
    requires room { moment ≤ tally.old.last → count tally.old node moment + people < 2 ^ 64 }
    ensures { IsCountOf (λ n t. count tally.old n t + (if node == n && moment == t then people else 0)) tally.old tally.new }
{
    if moment <= tally.last() {
        let number = tally.get(node, moment) + u64::from(people);
        tally.put(node, moment, number);
    }
}

/// Adds the people who leave the nodes.
#[tactic(auto, unfolding(evac_law::specs::Plans::leaving))]
pub fn count_leaving(tally: &mut Table<u64>, model: &Model, moves: &[Move])
    requires countable { IsCountable model.now moves.now tally.old }
    ensures { IsCountOf (leaving model.now moves.now) tally.old tally.new }
{
    for step in moves {
        add(tally, model.arc(step.arc).from, step.moment, step.people);
    }
}

/// Adds the people who come to the nodes along arcs.
#[tactic(auto, unfolding(evac_law::specs::Limits::horizon_limit, evac_law::specs::Limits::travel_limit, evac_law::specs::Plans::coming))]
pub fn count_coming(tally: &mut Table<u64>, model: &Model, moves: &[Move])
    requires countable { IsCountable model.now moves.now tally.old }
    ensures { IsCountOf (coming model.now moves.now) tally.old tally.new }
{
    for step in moves {
        let arc = model.arc(step.arc);
        add(tally, arc.to, step.moment + arc.travel, step.people);
    }
}

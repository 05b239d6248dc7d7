//! A person is followed by number from node to node.
ghost use Rattle.std.specs.Prelude.{◌≡◌, ◌+◌, ◌<◌, ◌≤◌, ◌^◌, IsFalse, length};
ghost use Rattle.evac_law.specs.Building.{is_exit_at};
ghost use Rattle.evac_law.specs.Plans.{left};
ghost use Rattle.cards.specs.Counts.{AreTrueCounts};
ghost use Rattle.cards.specs.Following.{ComesOutAs, IsComer, IsLeaver};
ghost use Rattle.cards.specs.Numbers.{FollowsNumbers, IsCountedAt, comers_before};

use crate::comer::{Comer, Leaver};
use crate::counts::Counts;
use route_decompose::{RouteStep, Trail};

// The moment at which somebody leaves a node.
fn leaves_at(counts: &Counts, comer: Comer) -> u16
    requires counts { AreTrueCounts counts.now }
    requires comer { IsComer counts.now.plan.model counts.now.plan.moves comer }
    requires inside { IsFalse (is_exit_at counts.now.plan.model comer.node) }
    ensures in_time { result ≤ counts.now.plan.model.horizon }
    ensures at { IsCountedAt (left counts.now.plan.model counts.now.plan.moves comer.node) comer.number result }
{
    let mut moment = comer.moment;
    while comer.number >= counts.left.get(comer.node, moment) {
        moment += 1;
    }
    moment
}

// The arc by which somebody leaves a node.
fn leaver_of(counts: &Counts, comer: Comer) -> Leaver
    requires counts { AreTrueCounts counts.now }
    requires comer { IsComer counts.now.plan.model counts.now.plan.moves comer }
    requires inside { IsFalse (is_exit_at counts.now.plan.model comer.node) }
    ensures { IsLeaver counts.now.plan.model counts.now.plan.moves comer result }
{
    let moment = leaves_at(counts, comer);
    let mut behind = comer.number - counts.left.before(comer.node, moment);
    for arc in counts.plan.layout().arcs_from(comer.node) {
        let people = u64::from(counts.plan.moved(*arc, moment));
        if behind < people {
            return Leaver {
                step: RouteStep { moment, arc: *arc },
                behind: behind as u32,
            };
        }
        behind -= people;
    }
    unreachable!()
}

// How many come to the head of an arc before those who come out of it at a moment.
fn comers_before(counts: &Counts, arc: u32, moment: u16) -> u64
    requires counts { AreTrueCounts counts.now }
    requires arc_in { arc < length counts.now.plan.model.arcs }
    requires moment_in { moment ≤ counts.now.plan.model.horizon }
    ensures number { result ≡ comers_before counts.now.plan.model counts.now.plan.moves arc moment }
    ensures small { result < 2 ^ 63 }
{
    let layout = counts.plan.layout();
    let node = layout.model().arc(arc).to;
    let mut number = counts.came.before(node, moment);
    for other in layout.arcs_to(node) {
        if *other < arc {
            number += u64::from(counts.plan.brought(*other, moment));
        }
    }
    number
}

// Where a person arrives who enters an arc.
fn comer_of(counts: &Counts, comer: Comer, leaver: Leaver) -> Comer
    requires counts { AreTrueCounts counts.now }
    requires comer { IsComer counts.now.plan.model counts.now.plan.moves comer }
    requires leaver { IsLeaver counts.now.plan.model counts.now.plan.moves comer leaver }
    ensures comer { IsComer counts.now.plan.model counts.now.plan.moves result }
    ensures next { ComesOutAs counts.now.plan.model counts.now.plan.moves leaver result }
{
    let row = counts.plan.layout().model().arc(leaver.step.arc);
    let moment = leaver.step.moment + row.travel;
    let first = comers_before(counts, leaver.step.arc, moment);
    Comer {
        node: row.to,
        moment,
        number: first + u64::from(leaver.behind),
    }
}

/// Follows somebody from a node into an exit.
pub fn follow(counts: &Counts, first: Comer, trail: &mut Trail)
    requires counts { AreTrueCounts counts.now }
    requires comer { IsComer counts.now.plan.model counts.now.plan.moves first }
    requires room { counts.now.plan.model.horizon ≤ trail.old.room }
    ensures follows { FollowsNumbers counts.now.plan.model counts.now.plan.moves first.node first.number trail.new.steps }
    ensures room { trail.new.room ≡ trail.old.room }
{
    trail.clear();
    let mut comer = first;
    while !counts.plan.layout().is_exit(comer.node) {
        let leaver = leaver_of(counts, comer);
        trail.add(leaver.step);
        comer = comer_of(counts, comer, leaver);
    }
}

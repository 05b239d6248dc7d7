//! Whose turn it is: where the next person comes in.
ghost use Rattle.std.specs.Prelude.{◌≡◌, ◌+◌, ◌<◌, ◌≤◌, length};
ghost use Rattle.evac_law.specs.Building.{IsValid, entry, people};
ghost use Rattle.cards.specs.Counts.{AreTrueCounts};
ghost use Rattle.cards.specs.Following.{ComesInAs, IsComer};
ghost use Rattle.cards.specs.Turns.{IsAfter, IsTurn, IsTurnOf};

use crate::comer::Comer;
use crate::counts::Counts;
use evac_law::Model;

/// A node and a moment, and how many come in from nowhere before.
#[derive(Clone, Copy)]
pub struct Turn {
    pub node: u32,
    pub moment: u16,
    pub before: u32,
}

impl Turn {
    /// The turn of the first node at the first moment.
    pub fn first() -> Turn
        ensures { result ≡ record { node = 0; moment = 0; before = 0 } }
    {
        Turn {
            node: 0,
            moment: 0,
            before: 0,
        }
    }
}

// The turn after one, by moment and then by node.
fn turn_after(model: &Model, turn: Turn) -> Turn
    requires valid { IsValid model.now }
    requires turn { IsTurn model.now turn }
    requires node_in { turn.node < length model.now.nodes }
    ensures turn { IsTurn model.now result }
    ensures before { result.before ≡ turn.before + entry model.now turn.node turn.moment }
    ensures later { IsAfter model.now turn result }
{
    let before = turn.before + model.entry(turn.node, turn.moment);
    if turn.moment < model.horizon {
        Turn {
            moment: turn.moment + 1,
            before,
            ..turn
        }
    } else {
        Turn {
            node: turn.node + 1,
            moment: 0,
            before,
        }
    }
}

/// The turn of a person, from one on that isn't later.
pub fn find_turn(model: &Model, from: Turn, person: u32) -> Turn
    requires valid { IsValid model.now }
    requires turn { IsTurn model.now from }
    requires not_past { from.before ≤ person }
    requires somebody { person < people model.now }
    ensures { IsTurnOf model.now person result }
{
    let mut turn = from;
    while person >= turn.before + model.entry(turn.node, turn.moment) {
        turn = turn_after(model, turn);
    }
    turn
}

/// A person who comes in from nowhere, numbered after those who come along arcs then.
pub fn entrant(counts: &Counts, turn: Turn, person: u32) -> Comer
    requires counts { AreTrueCounts counts.now }
    requires turn { IsTurnOf counts.now.plan.model person turn }
    ensures comer { IsComer counts.now.plan.model counts.now.plan.moves result }
    ensures number { ComesInAs counts.now.plan.model counts.now.plan.moves turn person result }
{
    let earlier = counts.came.before(turn.node, turn.moment);
    let along_arcs = counts.plan.coming(turn.node, turn.moment);
    Comer {
        node: turn.node,
        moment: turn.moment,
        number: earlier + along_arcs + u64::from(person - turn.before),
    }
}

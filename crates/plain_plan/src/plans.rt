//! What a plan does.
ghost use Rattle.std.specs.Prelude.{◌≡◌, ◌+◌, ◌*◌, ◌<◌, ◌≤◌, ◌^◌, length};
ghost use Rattle.std.specs.List.{sum_by};
ghost use Rattle.evac_law.specs.Building.{entry};
ghost use Rattle.evac_law.specs.Plans.{came, held, left, moved, out_by};
ghost use Rattle.evac_law.specs.Sums.{moments_to};
ghost use Rattle.plain_plan.specs.Sizes.{IsSmall};

use crate::parts::{arrival, entry, head, node_at, tail};
use evac_law::{Model, Move};

/// The people who enter an arc at a moment.
#[tactic(auto, unfolding(evac_law::specs::Plans::moved))]
pub fn moved(moves: &[Move], arc: u32, moment: u16) -> u64
    requires { length moves.now < 2 ^ 16 }
    ensures { result ≡ moved moves.now arc moment }
{
    let mut people = 0u64;
    for step in moves {
        if step.arc == arc && step.moment == moment {
            people += u64::from(step.people);
        }
    }
    people
}

/// The people who are out by a moment.
#[tactic(auto, unfolding(evac_law::specs::Plans::out_by))]
pub fn out_by(model: &Model, moves: &[Move], moment: u16) -> u64
    requires { length moves.now < 2 ^ 16 }
    ensures { result ≡ out_by model.now moves.now moment }
{
    let mut people = 0u64;
    for step in moves {
        let exit = node_at(model, head(model, step.arc)).name.kind.is_exit();
        if exit && arrival(model, step.arc, step.moment) <= u64::from(moment) {
            people += u64::from(step.people);
        }
    }
    people
}

// The people who came into a node by a moment from nowhere.
#[tactic(auto, using(evac_law::proofs::SumLemmas::sum_steps))]
fn entered(model: &Model, node: u32, moment: u16) -> u64
    requires { IsSmall model.now }
    ensures value { result ≡ sum_by (entry model.now node) (moments_to moment) }
    ensures small { result ≤ 2 ^ 48 }
{
    let mut people = 0u64;
    for t in 0..u32::from(moment) + 1 {
        people += u64::from(entry(model, node, u64::from(t)));
    }
    people
}

// The people who came into a node by a moment, from nowhere or along arcs.
#[tactic(auto, unfolding(evac_law::specs::Plans::came))]
fn came(model: &Model, moves: &[Move], node: u32, moment: u16) -> u64
    requires sizes { IsSmall model.now }
    requires moves { length moves.now < 2 ^ 16 }
    ensures value { result ≡ came model.now moves.now node moment }
    ensures small { result ≤ 2 ^ 49 }
{
    let mut people = entered(model, node, moment);
    for step in moves {
        if head(model, step.arc) == node
            && arrival(model, step.arc, step.moment) <= u64::from(moment)
        {
            people += u64::from(step.people);
        }
    }
    people
}

// The people who left a node by a moment.
#[tactic(auto, unfolding(evac_law::specs::Plans::left))]
fn left(model: &Model, moves: &[Move], node: u32, moment: u16) -> u64
    requires { length moves.now < 2 ^ 16 }
    ensures value { result ≡ left model.now moves.now node moment }
    ensures small { result ≤ 2 ^ 48 }
{
    let mut people = 0u64;
    for step in moves {
        if tail(model, step.arc) == node && step.moment <= moment {
            people += u64::from(step.people);
        }
    }
    people
}

/// The people in a node at a moment; below 0 where more leave than come.
#[tactic(auto, unfolding(evac_law::specs::Plans::held))]
pub fn held(model: &Model, moves: &[Move], node: u32, moment: u16) -> i64
    requires sizes { IsSmall model.now }
    requires moves { length moves.now < 2 ^ 16 }
    ensures { result ≡ held model.now moves.now node moment }
{
    came(model, moves, node, moment) as i64 - left(model, moves, node, moment) as i64
}

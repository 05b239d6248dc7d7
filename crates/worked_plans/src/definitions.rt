//! Worked cases, computed by the definitions: whom a plan moves, holds and has out, and what the cuts of its labels are worth.
ghost use Rattle.std.specs.Prelude.{◌<◌, ◌^◌, length};

use crate::cuts::check_cuts;
use crate::labels::{LabelRun, small_model};
use evac_law::{Model, Move};
use plain_plan::{held, moved, out_by};
use sample_buildings::{EMPTY_ROOM, ONE_ROOM, THROUGH_HALL, TWO_EXITS, TWO_ROOMS};
use std::process::Abort;
use std::test::Fail;

// Moves, each by its moment, its arc and its people.
macro_rules! moves {
    ($(($moment:literal, $arc:literal, $people:literal)),*) => {
        &[$(Move { moment: $moment, arc: $arc, people: $people }),*]
    };
}

// A plan for the building of a text, its curve, and what the cuts of the labels of runs are worth: before the last period of the curve as much
// as the curve.
struct Plan {
    text: &'static str,
    moves: &'static [Move],
    curve: &'static [u64],
    runs: &'static [LabelRun],
    cuts: &'static [u64],
}

const PLANS: &[Plan] = &[
    // two go at once, and the third a period later
    Plan {
        text: ONE_ROOM,
        moves: moves![(0, 0, 2), (1, 0, 1)],
        curve: &[0, 2, 3],
        runs: &[(0, 0, 2, 2)],
        cuts: &[0, 2],
    },
    Plan {
        text: EMPTY_ROOM,
        moves: &[],
        curve: &[0],
        runs: &[],
        cuts: &[],
    },
    // four go one after another through a hall where nobody may stay
    Plan {
        text: THROUGH_HALL,
        moves: THROUGH,
        curve: &[0, 0, 1, 2, 3, 4],
        runs: &[(0, 0, 5, 5), (1, 0, 1, 1), (1, 1, 5, 5)],
        cuts: &[0, 0, 1, 2, 3, 4],
    },
    // a short and narrow way against a long and wide one
    Plan {
        text: TWO_EXITS,
        moves: moves![(0, 0, 1), (0, 1, 5), (1, 0, 1), (2, 0, 1)],
        curve: &[0, 1, 2, 8],
        runs: &[(0, 0, 3, 3)],
        cuts: &[0, 1, 2, 8, 9, 10, 16],
    },
    // one of two goes round the hall
    Plan {
        text: TWO_ROOMS,
        moves: moves![(0, 1, 1), (0, 2, 1), (1, 3, 1)],
        curve: &[0, 0, 2],
        runs: &[(0, 0, 2, 2), (1, 0, 2, 2), (2, 0, 1, 1), (2, 1, 2, 2)],
        cuts: &[0, 0],
    },
];

const THROUGH: &[Move] = moves![
    (0, 0, 1),
    (1, 0, 1),
    (1, 1, 1),
    (2, 0, 1),
    (2, 1, 1),
    (3, 0, 1),
    (3, 1, 1),
    (4, 1, 1)
];

// A plan has as many people out by each period as its curve.
fn expect_outs(rt: &impl Abort, model: &Model, moves: &[Move], curve: &[u64])
    requires { length moves.now < 2 ^ 16 }
{
    for (period, out) in curve.iter().enumerate() {
        assert!(rt; period <= usize::from(model.horizon));
        assert!(rt; out_by(model, moves, period as u16) == *out, "by {period}");
    }
}

fn check_plan(rt: &(impl Abort + AllocGlobal), plan: &Plan) -> Result<(), Fail> {
    let model = small_model(rt.alloc(), plan.text)?;
    assert!(rt; plan.moves.len() < 1000);
    expect_outs(rt, &model, plan.moves, plan.curve);
    check_cuts(rt, &model, plan.runs, plan.cuts)
}

#[test]
fn plans_have_their_curves_and_their_cuts(rt: HostRuntime) -> Result<(), Fail> {
    for plan in PLANS {
        check_plan(&rt, plan)?;
    }
    Ok(())
}

#[test]
fn who_is_left_in_one_room(rt: HostRuntime) -> Result<(), Fail> {
    let model = small_model(rt.alloc(), ONE_ROOM)?;
    let moves: &[Move] = moves![(0, 0, 2), (1, 0, 1)];
    assert!(rt; moved(moves, 0, 0) == 2 && moved(moves, 0, 2) == 0);
    assert!(rt; held(&model, moves, 0, 0) == 1 && held(&model, moves, 0, 1) == 0);
    // four people leave a room of three
    assert!(rt; held(&model, moves![(0, 0, 4)], 0, 0) == -1);
    Ok(())
}

#[test]
fn nobody_stays_in_the_hall(rt: HostRuntime) -> Result<(), Fail> {
    let model = small_model(rt.alloc(), THROUGH_HALL)?;
    for moment in 0..6 {
        assert!(rt; held(&model, THROUGH, 1, moment) == 0, "at {moment}");
    }
    Ok(())
}

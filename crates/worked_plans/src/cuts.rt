//! What the cuts of worked buildings are worth, and of which items they are: by the definitions, and as a program sums them.
ghost use Rattle.std.specs.Prelude.{◌≤◌};
ghost use Rattle.evac_law.specs.Building.{IsValid};
ghost use Rattle.evac_law.specs.Certificates.{IsTableOf};
ghost use Rattle.plain_plan.specs.Sizes.{IsSmall};

use crate::labels::{LabelRun, labels_of, small_model};
use cut_witness::{CutValues, cut_value};
use evac_law::{CutItem, Labels, Model};
use plain_plan::{cut_items, sum_of_items};
use sample_buildings::{OFFICE, THROUGH_HALL, TWO_EXITS};
use std::alloc::{AllocError, Global};
use std::process::Abort;
use std::test::Fail;

// The two ways of a program to sum cuts agree at each period.
#[tactic(auto, unfolding(evac_law::specs::Limits::horizon_limit))]
fn agree(rt: &(impl Abort + AllocGlobal), model: &Model, labels: &Labels) -> Result<(), Fail>
    requires valid { IsValid model.now }
    requires table { IsTableOf model.now labels.now }
{
    let mut values = CutValues::new(rt.alloc(), model.horizon)?;
    values.fill(model, labels);
    for k in 0..model.horizon + 1 {
        assert!(rt; values.get(k) == cut_value(model, labels, k), "at {k}");
    }
    Ok(())
}

// What the cut of a period is worth, by the definitions.
fn value(
    rt: &(impl Abort + AllocGlobal),
    model: &Model,
    labels: &Labels,
    k: u16,
) -> Result<u64, AllocError>
    requires sizes { IsSmall model.now }
    requires table { IsTableOf model.now labels.now }
    requires k_in { k ≤ model.now.horizon }
{
    let items = cut_items(rt.alloc(), model, labels, k)?;
    assert!(rt; items.len() < 1000);
    Ok(sum_of_items(&items))
}

// The cuts of the first periods are worth what is wanted, by the definitions and as a program sums them.
fn expect_values(
    rt: &(impl Abort + AllocGlobal),
    model: &Model,
    labels: &Labels,
    wanted: &[u64],
) -> Result<(), Fail>
    requires valid { IsValid model.now }
    requires sizes { IsSmall model.now }
    requires table { IsTableOf model.now labels.now }
{
    for (period, want) in wanted.iter().enumerate() {
        assert!(rt; period <= usize::from(model.horizon));
        let k = period as u16;
        assert!(rt; value(rt, model, labels, k)? == *want, "at {k}");
        assert!(rt; cut_value(model, labels, k) == *want, "at {k}");
    }
    agree(rt, model, labels)
}

/// The same for the labels of runs.
pub(crate) fn check_cuts(
    rt: &(impl Abort + AllocGlobal),
    model: &Model,
    runs: &[LabelRun],
    wanted: &[u64],
) -> Result<(), Fail>
    requires valid { IsValid model.now }
    requires sizes { IsSmall model.now }
{
    let labels = labels_of(rt.alloc(), model, runs)?;
    expect_values(rt, model, &labels, wanted)
}

// The same in the building of a text.
fn check_values(
    rt: &(impl Abort + AllocGlobal),
    text: &str,
    runs: &[LabelRun],
    wanted: &[u64],
) -> Result<(), Fail> {
    let model = small_model(rt.alloc(), text)?;
    check_cuts(rt, &model, runs, wanted)
}

// The cut of a period is of these items.
fn expect_items(
    rt: &(impl Abort + AllocGlobal),
    model: &Model,
    labels: &Labels,
    k: u16,
    wanted: &[CutItem],
) -> Result<(), Fail>
    requires valid { IsValid model.now }
    requires sizes { IsSmall model.now }
    requires table { IsTableOf model.now labels.now }
{
    assert!(rt; k <= model.horizon);
    let items = cut_items(rt.alloc(), model, labels, k)?;
    assert!(rt; items.as_slice() == wanted);
    Ok(())
}

// The same for the labels of a run in the building of a text.
fn check_items(
    rt: &(impl Abort + AllocGlobal),
    text: &str,
    run: LabelRun,
    k: u16,
    wanted: &[CutItem],
) -> Result<(), Fail> {
    let model = small_model(rt.alloc(), text)?;
    let labels = labels_of(rt.alloc(), &model, &[run])?;
    expect_items(rt, &model, &labels, k, wanted)
}

fn arc(arc: u32, moment: u16, rate: u32) -> CutItem {
    CutItem::Arc { arc, moment, rate }
}

#[test]
fn cuts_are_of_a_narrow_way_or_of_everybody(rt: HostRuntime) -> Result<(), Fail> {
    let waits = (0, 0, 3, 3);
    check_items(&rt, TWO_EXITS, waits, 2, &[arc(0, 0, 1), arc(0, 1, 1)])?;
    let everybody = CutItem::Entry { node: 0, people: 8 };
    check_items(&rt, TWO_EXITS, waits, 3, &[everybody])
}

// The hall is in the cut of period 1 at moment 0 alone.
#[test]
fn items_of_a_cut(rt: HostRuntime) -> Result<(), Fail> {
    let hall = CutItem::Hold {
        node: 1,
        moment: 0,
        capacity: 0,
    };
    let items = [hall, arc(0, 0, 3), arc(1, 0, 1)];
    check_items(&rt, THROUGH_HALL, (1, 1, 2, 1), 1, &items)?;
    check_values(&rt, THROUGH_HALL, &[(1, 1, 2, 1)], &[0, 4])
}

// The label 5 everywhere makes a cut of period 1 that is worth 1, and nobody is out by then.
#[test]
fn a_cut_is_worth_more_than_are_out(rt: HostRuntime) -> Result<(), Fail> {
    check_values(&rt, THROUGH_HALL, &[(0, 0, 5, 5), (1, 0, 5, 5)], &[0, 1])
}

// The labels of a plan for the office, but for those on the ground floor that go up with the moment.
const OFFICE_LABELS: &[LabelRun] = &[
    (0, 0, 12, 13),
    (1, 0, 1, 1),
    (1, 1, 12, 13),
    (4, 0, 28, 28),
    (5, 0, 28, 28),
    (6, 0, 1, 5),
    (6, 1, 28, 28),
    (7, 0, 2, 13),
    (7, 2, 28, 28),
    (8, 0, 1, 4),
    (8, 1, 2, 5),
    (8, 2, 28, 28),
    (9, 0, 28, 28),
    (10, 0, 28, 28),
    (11, 0, 28, 28),
    (12, 0, 28, 28),
    (13, 0, 28, 28),
];

// The people who are out of the office by each period before the last.
const OFFICE_OUTS: &[u64] = &[
    0, 0, 8, 16, 24, 32, 44, 56, 68, 80, 92, 104, 116, 124, 132, 140, 148, 156, 164, 172, 180, 188,
    196, 204, 212, 220, 228, 236,
];

fn office_runs(alloc: Global) -> Result<Vec<LabelRun>, AllocError> {
    let mut runs = OFFICE_LABELS.to_vec(alloc)?;
    for moment in 12..28 {
        runs.push((0, moment, moment + 1, (moment + 2).min(28)))?;
        runs.push((1, moment, moment + 1, moment + 1))?;
    }
    Ok(runs)
}

#[test]
fn the_plan_of_an_office(rt: HostRuntime) -> Result<(), Fail> {
    let runs = office_runs(rt.alloc())?;
    check_values(&rt, OFFICE, &runs, OFFICE_OUTS)
}

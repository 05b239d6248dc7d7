//! How long people need to an exit who meet nobody.
ghost use Rattle.std.specs.Prelude.{◌≡◌, ℕ, ◌<◌, ◌≤◌, ◌⊎◌, IfSome, MatchOption, Some, length};
ghost use Rattle.evac_law.specs.Building.{IsValid};
ghost use Rattle.evac_law.specs.Certificates.{IsClearable};
ghost use Rattle.clearing_report.specs.Distances.{AllFound, AreTimes, IsNearest, IsWay};
ghost use Rattle.clearing_report.specs.Walks.{IsUncongested, is_open};

use evac_law::Model;

/// An arc by which a node whose time isn't known comes to one whose time is, and the time by it.
#[derive(Clone, Copy)]
pub struct Way {
    pub arc: u32,
    pub time: u32,
}

// Whether an arc may be walked.
fn is_open(model: &Model, arc: u32) -> bool
    requires valid { IsValid model.now }
    requires arc_in { arc < length model.now.arcs }
    ensures { result ≡ is_open model.now arc }
{
    let row = model.arc(arc);
    row.rate > 0 && !(row.shut || model.node(row.to).shut)
}

// The time by one arc, where it is open and leads from a node whose time isn't known to one whose time is.
fn way_by(model: &Model, times: &[Option<u32>], arc: u32) -> Option<u32>
    requires valid { IsValid model.now }
    requires times { AreTimes model.now times.now }
    requires arc_in { arc < length model.now.arcs }
    ensures { MatchOption result ((d : ℕ) → IsWay model.now times.now arc d → ⊥) (λ d. IsWay model.now times.now arc d) }
{
    if !is_open(model, arc) {
        return None;
    }
    let row = model.arc(arc);
    match (times[row.from as usize], times[row.to as usize]) {
        (None, Some(rest)) => Some(u32::from(row.travel) + rest),
        _ => None,
    }
}

// The shorter of two ways.
fn shorter(best: Option<Way>, way: Way) -> Way
    ensures one { (result ≡ way) ⊎ (best ≡ Some result) }
    ensures short { result.time ≤ way.time }
    ensures best { IfSome best (λ b. result.time ≤ b.time) }
{
    match best {
        Some(best) if best.time < way.time => best,
        _ => way,
    }
}

// The shortest way.
fn nearest(model: &Model, times: &[Option<u32>]) -> Option<Way>
    requires valid { IsValid model.now }
    requires times { AreTimes model.now times.now }
    ensures { MatchOption result (AllFound model.now times.now) (λ w. IsNearest model.now times.now w.arc w.time) }
{
    let mut best = None;
    for arc in 0..model.arc_count() {
        if let Some(time) = way_by(model, times, arc) {
            best = Some(shorter(best, Way { arc, time }));
        }
    }
    best
}

// Sets the times of exits to 0, and no other.
fn start(times: &mut [Option<u32>], model: &Model)
    requires valid { IsValid model.now }
    requires size { length times.old ≡ length model.now.nodes }
    ensures { AreTimes model.now times.new }
{
    for node in 0..model.node_count() {
        times[node as usize] = if model.node(node).name.kind.is_exit() {
            Some(0)
        } else {
            None
        };
    }
}

// Finds the times of all nodes that have a walk.
fn find(times: &mut [Option<u32>], model: &Model)
    requires valid { IsValid model.now }
    requires size { length times.old ≡ length model.now.nodes }
    ensures times { AreTimes model.now times.new }
    ensures all { AllFound model.now times.new }
{
    start(times, model);
    while let Some(way) = nearest(model, times) {
        let node = model.arc(way.arc).from;
        times[node as usize] = Some(way.time);
    }
}

// The longest time of those who start; none where one of them has none.
fn farthest(times: &[Option<u32>], model: &Model) -> Option<u32>
    requires valid { IsValid model.now }
    requires times { AreTimes model.now times.now }
    requires all { AllFound model.now times.now }
    ensures { IsUncongested model.now result }
{
    let mut far = 0u32;
    for node in 0..model.node_count() {
        if model.node(node).start == 0 {
            continue;
        }
        let Some(time) = times[node as usize] else {
            return None;
        };
        far = far.max(time);
    }
    Some(far)
}

/// The longest time of those who start and meet nobody; none where one of them has no walk.
pub fn walk_bound(times: &mut [Option<u32>], model: &Model) -> Option<u32>
    requires valid { IsValid model.now }
    requires size { length times.old ≡ length model.now.nodes }
    ensures bound { IsUncongested model.now result }
    ensures size { length times.new ≡ length times.old }
    ensures times { AreTimes model.now times.new }
    ensures all { AllFound model.now times.new }
{
    find(times, model);
    farthest(times, model)
}

/// The longest time of those who start and meet nobody, where all can get out.
pub fn uncongested(times: &mut [Option<u32>], model: &Model) -> u32
    requires valid { IsValid model.now }
    requires size { length times.old ≡ length model.now.nodes }
    requires clearable { IsClearable model.now }
    ensures time { IsUncongested model.now (Some result) }
    ensures size { length times.new ≡ length times.old }
{
    match walk_bound(times, model) {
        Some(time) => time,
        None => 0,
    }
}
